//! The law of listings. It has no code: the contract is the law.

ghost use Rattle.std.specs.Prelude.{◌≡◌, ℕ};
ghost use Rattle.program_types.specs.Content.{Program};
ghost use Rattle.program_rules.specs.WellFormed.{WellFormed};
ghost use Rattle.listing_parse.specs.Text.{IsListing, ListingBreaks};
ghost use Rattle.listing_lines.specs.declared.form.Form.{Form};
ghost use Rattle.listing_print.specs.Canon.{text_in};

/// What is printed of a well-formed program, in either form, is a listing of it, and of no other program, and has no fault: so it is
/// read, and as that program.
pub fn what_is_printed_is_read_again()
    ensures read { (form : Form) (p : Program) → WellFormed p → IsListing (text_in form p) p }
    ensures alone { (form : Form) (p q : Program) → WellFormed p → IsListing (text_in form p) q → p ≡ q }
    ensures accepted { (form : Form) (p : Program) (code place : ℕ) → WellFormed p → ListingBreaks (text_in form p) code place → ⊥ }
{}
