//! Laws of the reader: a text has one program, or one fault. None has code: the contract is the law.

ghost use Rattle.std.specs.Prelude.{◌≡◌, ℕ, List};
ghost use Rattle.program_types.specs.Content.{Program};
ghost use Rattle.listing_parse.specs.Text.{IsListing, ListingBreaks};

/// No text is a listing of two programs, and no text with a fault is a listing.
pub fn one_program()
    ensures one { (text : List ℕ) (p q : Program) → IsListing text p → IsListing text q → p ≡ q }
    ensures none { (text : List ℕ) (p : Program) (code place : ℕ) → ListingBreaks text code place → IsListing text p → ⊥ }
{}

/// A text has one fault, at one place.
pub fn one_fault()
    ensures { (text : List ℕ) (c d p q : ℕ) → ListingBreaks text c p → ListingBreaks text d q → (c ≡ d) × (p ≡ q) }
{}
