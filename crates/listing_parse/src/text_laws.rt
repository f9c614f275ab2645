//! The law of the lines of a text. It has no code: the contract is the law.

ghost use Rattle.std.specs.Prelude.{◌≡◌, ◌↔◌, ℕ, true, false, List};
ghost use Rattle.listing_lines.specs.declared.form.Form.{Form};
ghost use Rattle.listing_lines.specs.Places.{is_start};
ghost use Rattle.listing_parse.specs.States.{State, stage_of};
ghost use Rattle.listing_parse.specs.inner.Reads.{AreRead, RunText};
ghost use Rattle.listing_parse.specs.inner.Runs.{is_outside};

/// In a text of either form, after its first line and outside of codes, as after a method, lines are read to where no code
/// is open if and only if they are the text of lines of a program that reach that state, in codes with their labels, whether
/// a target is late or not.
pub fn lines_are_read_as_their_text()
    ensures { (form : Form) (s t : State) (ls : List (List ℕ)) → is_start (stage_of s.block) ≡ false
        → is_outside s.block ≡ true → is_outside t.block ≡ true → AreRead form s ls t ↔ RunText form s ls t }
{}
