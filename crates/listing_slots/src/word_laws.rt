//! Laws of slots. None has code: the contract is the law.

ghost use Rattle.std.specs.Prelude.{◌≡◌, true};
ghost use Rattle.listing_words.specs.Words.{Word};
ghost use Rattle.listing_words.specs.inner.Words.{IsWritable};
ghost use Rattle.listing_slots.specs.declared.slot.Slot.{Slot};
ghost use Rattle.listing_slots.specs.Data.{Datum};
ghost use Rattle.listing_slots.specs.Slots.{SpellsSlot, has_form};
ghost use Rattle.listing_slots.specs.Shown.{shown};
ghost use Rattle.listing_slots.specs.inner.Shown.{FitsSlot};

/// A word has one value in a slot.
pub fn words_have_one_value()
    ensures { (s : Slot) (w : Word) (d e : Datum) → SpellsSlot s w d → SpellsSlot s w e → d ≡ e }
{}

/// A word that is printed in a slot has the slot's form, can be written, and has the value that was printed.
pub fn printed_words_are_read_again()
    ensures word_values { (s : Slot) (d : Datum) → FitsSlot s d → SpellsSlot s (shown s d) d }
    ensures form { (s : Slot) (d : Datum) → FitsSlot s d → has_form s (shown s d) ≡ true }
    ensures written { (s : Slot) (d : Datum) → FitsSlot s d → IsWritable (shown s d) }
{}
