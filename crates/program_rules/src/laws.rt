//! Laws of the rules, each the contract of a function that does nothing.

ghost use Rattle.std.specs.Prelude.{◌≡◌};
ghost use Rattle.dex_base.specs.declared.fault.Fault.{Fault};
ghost use Rattle.program_types.specs.Content.{Program};
ghost use Rattle.program_types.specs.View.{class};
ghost use Rattle.program_rules.specs.Ranges.{ClassInRange};
ghost use Rattle.program_rules.specs.Rules.{RuleBreaks};

use program_types::Class;

/// A program that is refused has one fault: the first rule that its first wrong class breaks, one number at one place.
pub fn one_rule()
    ensures { (p : Program) (e f : Fault) → RuleBreaks p e → RuleBreaks p f → e ≡ f }
{}

/// The numbers and units of a class in memory are in the ranges of their types. That follows from the types, without a check of the
/// class.
pub fn class_is_in_range(one: &Class<'_>)
    ensures { ClassInRange (class one.now) }
{}
