//! The law of codes. It has no code: the contract is the law.

ghost use Rattle.std.specs.Prelude.{◌≡◌, ◌↔◌, ◌∷◌, ℕ, true, List};
ghost use Rattle.listing_lines.specs.Lines.{open_code};
ghost use Rattle.listing_parse.specs.States.{State, Open, Owner};
ghost use Rattle.listing_parse.specs.Codes.{Numbered};
ghost use Rattle.listing_parse.specs.inner.Runs.{Runs, is_outside, after_its_method, RunsBehindCode};

/// After a method, lines that begin with `code` lead to where no code is open exactly if they are the text of a code and
/// lines after it, which lead there from where just that method has this code, and where the code's first line that leads
/// to none of its instructions is late, if none was before.
pub fn a_code_is_its_lines()
    ensures { (s t : State) (o : Open) (m : Owner) (n registers ins outs : ℕ) (ls : List Numbered)
        → is_outside t.block ≡ true → Runs (after_its_method s o m) ((n, open_code registers ins outs) ∷ ls) t
        ↔ RunsBehindCode s o m ((n, open_code registers ins outs) ∷ ls) t }
{}
