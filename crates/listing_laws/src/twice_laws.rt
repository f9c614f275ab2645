//! The law of what may occur once. It has no code: the contract is the law.

ghost use Rattle.std.specs.Prelude.{◌≡◌, true, not, is_some, List};
ghost use Rattle.listing_slots.specs.declared.kind.Kind.{Kind};
ghost use Rattle.listing_slots.specs.Data.{Datum};
ghost use Rattle.listing_lines.specs.Lines.{line_of};
ghost use Rattle.listing_lines.specs.Places.{may_stand};
ghost use Rattle.listing_parse.specs.States.{State, stage_of, add};
ghost use Rattle.listing_laws.specs.inner.Twice.{is_twice};

/// A line that is allowed at its position is accepted, unless it repeats what the open class has: a superclass, an interface,
/// a source file, or a member. Nothing else is refused as repeated.
pub fn only_what_is_given_twice_is_refused()
    ensures { (s : State) (kind : Kind) (ds : List Datum) → may_stand (stage_of s.block) kind ≡ true
        → is_some (add s (line_of kind ds)) ≡ not (is_twice s.block (line_of kind ds)) }
{}
