//! The law of a whole listing, without a reader's state. It has no code: the contract is the law.

ghost use Rattle.std.specs.Prelude.{◌↔◌, ℕ, List};
ghost use Rattle.program_types.specs.Content.{Program};
ghost use Rattle.program_rules.specs.WellFormed.{WellFormed};
ghost use Rattle.listing_parse.specs.Text.{IsListing};
ghost use Rattle.listing_parse.specs.Texts.{ListingText};

/// A text is a listing of a program, as the reader reads it line by line, if and only if it is the text of that program, with
/// each target an instruction of its code, and the program is well formed.
pub fn a_listing_is_its_lines()
    ensures { (text : List ℕ) (p : Program) → IsListing text p ↔ ListingText text p × WellFormed p }
{}
