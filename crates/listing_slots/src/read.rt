//! From words and their slots to the values of the words.

ghost use Rattle.std.specs.Prelude.{◌≡◌, true, ◌∷◌, [], map, length, IfOk, IfSome, IfNone, IsOkUnless};
ghost use Rattle.dex_base.specs.Fault.{memory};
ghost use Rattle.listing_words.specs.Words.{plain_word, text_in_quotes};
ghost use Rattle.listing_words.specs.inner.View.{word};
ghost use Rattle.listing_slots.specs.Slots.{SpellsSlot, SpellsSlots, MisspellsSlots, is_name_slot, fault_of};
ghost use Rattle.listing_slots.specs.inner.Slots.{SpellsUnitsIn, is_number_slot, is_signed_slot};
ghost use Rattle.listing_slots.specs.Data.{Datum as SpecDatum};
ghost use Rattle.listing_slots.specs.inner.ValidNames.{IsValidDatum, StayValid};
ghost use Rattle.listing_slots.specs.inner.View.{datum};

use crate::datum::Datum;
use crate::name_parts::NameParts;
use crate::numbers::{read_number, read_signed};
use crate::slot::{Mark, Slot};
use crate::spelled::Spelled;
use bumpalo::Bump;
use dex_base::{Fault, fault, is_descriptor, is_member_name};
use listing_words::{
    Word, read_bits, read_elements, read_field, read_method, read_name, read_proto,
};
use program_types::{Desc, Name, Str};

/// The value of a word without quotes in a number's slot.
fn read_plain(slot: Slot, text: &[u8]) -> Option<Datum<'static>>
    requires { is_number_slot slot ≡ true }
    ensures found { IfSome result (λ d. SpellsSlot slot (plain_word text.now) (datum d)) }
    ensures none { IfNone result ((d : SpecDatum) → SpellsSlot slot (plain_word text.now) d → ⊥) }
    ensures valid { IfSome result (λ d. IsValidDatum (datum d)) }
{
    match slot {
        Slot::Byte(mark, most) => Some(Datum::Byte(read_number(mark, text, most as u64)? as u8)),
        Slot::Half(mark, most) => Some(Datum::Half(read_number(mark, text, most as u64)? as u16)),
        Slot::Word(mark, most) => Some(Datum::Word(read_number(mark, text, most as u64)? as u32)),
        Slot::Flags => Some(Datum::Word(read_number(Mark::Nothing, text, 4294967295)? as u32)),
        Slot::Float => Some(Datum::Word(read_bits(8, text)? as u32)),
        Slot::Double => Some(Datum::Wide(read_bits(16, text)?)),
        _ => read_whole(slot, text),
    }
}

/// The value of a word without quotes in the slot of a signed number.
fn read_whole(slot: Slot, text: &[u8]) -> Option<Datum<'static>>
    requires { is_signed_slot slot ≡ true }
    ensures found { IfSome result (λ d. SpellsSlot slot (plain_word text.now) (datum d)) }
    ensures none { IfNone result ((d : SpecDatum) → SpellsSlot slot (plain_word text.now) d → ⊥) }
    ensures valid { IfSome result (λ d. IsValidDatum (datum d)) }
{
    match slot {
        Slot::Nibble => Some(Datum::Tiny(read_signed(text, 7)? as i8)),
        Slot::Tiny => Some(Datum::Tiny(read_signed(text, 127)? as i8)),
        Slot::Short => Some(Datum::Short(read_signed(text, 32767)? as i16)),
        Slot::Int => Some(Datum::Int(read_signed(text, 2147483647)? as i32)),
        Slot::Long => Some(Datum::Long(read_signed(text, 9223372036854775807)?)),
        _ => None,
    }
}

/// The value of a word's units in a name's slot, of parts that are held. The units stand aside, and what is read of them.
fn read_named<'a, 's>(
    parts: &mut NameParts<'a>,
    arena: &'a Bump,
    aside: &'s Bump,
    slot: Slot,
    units: &'s [u16],
) -> Result<Option<Datum<'a>>, Fault>
    requires { is_name_slot slot ≡ true }
    ensures found { IfOk result (λ r. IfSome r (λ d. SpellsUnitsIn slot units.now (datum d))) }
    ensures none { IfOk result (λ r. IfNone r ((d : SpecDatum) → SpellsUnitsIn slot units.now d → ⊥)) }
    ensures memory { IsOkUnless result memory }
{
    match slot {
        Slot::Member if is_member_name(units) => {
            let text = parts.member(arena, Str { units })?;
            Ok(Some(Datum::Name(Name::Text(text))))
        }
        Slot::Desc if is_descriptor(units) => {
            let ty = Desc {
                text: Str { units },
            };
            Ok(Some(Datum::Name(Name::Desc(parts.ty(arena, ty)?))))
        }
        Slot::Field => {
            let Some(field) = read_field(units) else {
                return Ok(None);
            };
            Ok(Some(Datum::Name(Name::Field(parts.field(arena, field)?))))
        }
        Slot::Enum => {
            let Some(field) = read_field(units) else {
                return Ok(None);
            };
            Ok(Some(Datum::Enum(parts.field(arena, field)?)))
        }
        Slot::Method => {
            let Some(method) = read_method(aside, units)? else {
                return Ok(None);
            };
            Ok(Some(Datum::Name(Name::Method(parts.method(arena, method)?))))
        }
        Slot::Proto => {
            let Some(proto) = read_proto(aside, units)? else {
                return Ok(None);
            };
            Ok(Some(Datum::Proto(parts.proto(arena, &proto)?)))
        }
        _ => Ok(None),
    }
}

/// Whether the slot is one of names.
fn is_name_slot(slot: Slot) -> bool
    ensures { result ≡ is_name_slot slot }
{
    matches!(
        slot,
        Slot::Member | Slot::Desc | Slot::Field | Slot::Method | Slot::Enum | Slot::Proto
    )
}

/// Whether the slot is one of numbers.
fn is_number_slot(slot: Slot) -> bool
    ensures { result ≡ is_number_slot slot }
{
    matches!(
        slot,
        Slot::Byte(_, _)
            | Slot::Half(_, _)
            | Slot::Word(_, _)
            | Slot::Nibble
            | Slot::Tiny
            | Slot::Short
            | Slot::Int
            | Slot::Long
            | Slot::Flags
            | Slot::Float
            | Slot::Double
    )
}

/// The value of a word without quotes in a name's slot: it is decoded first, aside, and then read.
pub(crate) fn read_encoded<'a>(
    parts: &mut NameParts<'a>,
    arena: &'a Bump,
    aside: &Bump,
    slot: Slot,
    text: &[u8],
) -> Result<Option<Datum<'a>>, Fault>
    requires { is_name_slot slot ≡ true }
    ensures found { IfOk result (λ r. IfSome r (λ d. SpellsSlot slot (plain_word text.now) (datum d))) }
    ensures none { IfOk result (λ r. IfNone r ((d : SpecDatum) → SpellsSlot slot (plain_word text.now) d → ⊥)) }
    ensures memory { IsOkUnless result memory }
{
    match read_name(aside, text)? {
        Some(units) => read_named(parts, arena, aside, slot, units),
        None => Ok(None),
    }
}

/// The value of a word without quotes in the slot.
fn read_unquoted<'a, 'b>(
    spelled: &mut Spelled<'a, 'b>,
    arena: &'a Bump,
    slot: Slot,
    text: &'b [u8],
) -> Result<Option<Datum<'a>>, Fault>
    ensures found { IfOk result (λ r. IfSome r (λ d. SpellsSlot slot (plain_word text.now) (datum d))) }
    ensures none { IfOk result (λ r. IfNone r ((d : SpecDatum) → SpellsSlot slot (plain_word text.now) d → ⊥)) }
    ensures valid { IfOk result (λ r. IfSome r (λ d. StayValid spelled.old spelled.new (datum d ∷ []))) }
    ensures same { IfOk result (λ r. IfNone r (spelled.new ≡ spelled.old)) }
    ensures memory { IsOkUnless result memory }
{
    if is_number_slot(slot) {
        return Ok(read_plain(slot, text));
    }
    if is_name_slot(slot) {
        return spelled.read(arena, slot, text);
    }
    match slot {
        Slot::Key(key) => Ok(Some(Datum::Key(key))),
        Slot::Elements => match read_elements(arena, text)? {
            Some(bytes) => Ok(Some(Datum::Elements(bytes))),
            None => Ok(None),
        },
        _ => Ok(None),
    }
}

/// The value of a text in quotes in the slot.
fn read_quoted<'a>(slot: Slot, units: &'a [u16]) -> Option<Datum<'a>>
    ensures found { IfSome result (λ d. SpellsSlot slot (text_in_quotes units.now) (datum d)) }
    ensures none { IfNone result ((d : SpecDatum) → SpellsSlot slot (text_in_quotes units.now) d → ⊥) }
    ensures valid { IfSome result (λ d. IsValidDatum (datum d)) }
{
    match slot {
        Slot::Key(key) => Some(Datum::Key(key)),
        Slot::Text => Some(Datum::Name(Name::Text(Str { units }))),
        _ => None,
    }
}

/// The value of the word in the slot: a name is read now, or was before.
pub fn read_datum<'a, 'b>(
    spelled: &mut Spelled<'a, 'b>,
    arena: &'a Bump,
    slot: Slot,
    one: Word<'a, 'b>,
) -> Result<Option<Datum<'a>>, Fault>
    ensures found { IfOk result (λ r. IfSome r (λ d. SpellsSlot slot (word one.entry) (datum d))) }
    ensures none { IfOk result (λ r. IfNone r ((d : SpecDatum) → SpellsSlot slot (word one.entry) d → ⊥)) }
    ensures valid { IfOk result (λ r. IfSome r (λ d. StayValid spelled.old spelled.new (datum d ∷ []))) }
    ensures same { IfOk result (λ r. IfNone r (spelled.new ≡ spelled.old)) }
    ensures memory { IsOkUnless result memory }
{
    match one {
        Word::Plain(text) => read_unquoted(spelled, arena, slot, text),
        Word::Text(units) => Ok(read_quoted(slot, units)),
    }
}

/// The fault of a word without a value in the slot.
pub fn fault_of(slot: Slot) -> u16
    ensures { result ≡ fault_of slot }
{
    if is_name_slot(slot) {
        return fault::LINE_NAME;
    }
    fault::LINE_NUMBER
}

/// The values of these words in these slots; otherwise the fault of the first word without a value.
pub fn read_operands<'a, 'b>(
    spelled: &mut Spelled<'a, 'b>,
    arena: &'a Bump,
    slots: &[Slot],
    words: &[Word<'a, 'b>],
    word_values: &mut Vec<Datum<'a>>,
) -> Result<Option<u16>, Fault>
    requires { length slots.now ≡ length words.now }
    ensures all { IfOk result (λ r. IfNone r (SpellsSlots slots.now (map word words.now) (map datum word_values.new.items))) }
    ensures bad { IfOk result (λ r. IfSome r (λ code. MisspellsSlots slots.now (map word words.now) code)) }
    ensures valid { IfOk result (λ r. IfNone r (StayValid spelled.old spelled.new (map datum word_values.new.items))) }
    ensures memory { IsOkUnless result memory }
{
    word_values.clear();
    for i in 0..slots.len() {
        let Some(word_value) = read_datum(spelled, arena, slots[i], words[i])? else {
            return Ok(Some(fault_of(slots[i])));
        };
        word_values.push(word_value)?;
    }
    Ok(None)
}
