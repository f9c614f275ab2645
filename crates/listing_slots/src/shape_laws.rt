//! Laws of shapes. None has code: the contract is the law.

ghost use Rattle.std.specs.Prelude.{◌≡◌, List};
ghost use Rattle.listing_words.specs.Words.{Word};
ghost use Rattle.listing_slots.specs.Shapes.{Shape, HasShape, HasBareShape};

/// Words have one shape.
pub fn words_have_one_shape()
    ensures { (ws : List Word) (s t : Shape) → HasShape ws s → HasShape ws t → s ≡ t }
{}

/// Words have one shape where instructions don't give themselves numbers.
pub fn words_have_one_bare_shape()
    ensures { (ws : List Word) (s t : Shape) → HasBareShape ws s → HasBareShape ws t → s ≡ t }
{}
