//! Labels: how they are written, what they mark, and the values of words in their slots.

ghost use Rattle.std.specs.Prelude.{◌≡◌, ◌<◌, ◌+◌, ◌^◌, ◌∷◌, [], false, Some, map, length, IfOk, IfSome, IfNone, OnOk, IsOkUnless};
ghost use Rattle.dex_base.specs.Fault.{memory};
ghost use Rattle.listing_words.specs.Words.{plain_word, up_to_space};
ghost use Rattle.listing_words.specs.inner.View.{word};
ghost use Rattle.listing_slots.specs.Data.{Datum as SpecDatum, word as word_datum};
ghost use Rattle.listing_slots.specs.inner.ValidNames.{IsValidDatum, StayValid};
ghost use Rattle.listing_slots.specs.inner.View.{datum};
ghost use Rattle.listing_slots.specs.Slots.{SpellsSlot};
ghost use Rattle.listing_slots.specs.declared.slot.Slot.TheVariants as Slot;
ghost use Rattle.listing_lines.specs.Splitting.{lines, is_comment};
ghost use Rattle.listing_lines.specs.Labels as spec;
ghost use Rattle.listing_lines.specs.inner.Labels as inner_spec;
ghost use Rattle.listing_lines.specs.Labels.{SpellsHere, SpellsAll, MisspellsAll};

use crate::known::{Labels, Place};
use crate::pieces::split_line;
use bumpalo::Bump;
use dex_base::{Fault, fault};
use listing_slots::{
    Datum, Key, Mark, Slot, Spelled, fault_of, is_same, key_text, read_datum, read_marked,
};
use listing_words::{Word, after_spaces};

/// Whether a label may have this byte.
fn is_name_byte(c: u8) -> bool
    ensures { result ≡ spec.is_name_byte c }
{
    matches!(c, b'0'..=b'9' | b'A'..=b'Z' | b'a'..=b'z' | b'_')
}

/// Whether all bytes can.
fn are_name_bytes(name: &[u8]) -> bool
    ensures { result ≡ spec.are_name_bytes name.now }
{
    for c in name {
        if !is_name_byte(*c) {
            return false;
        }
    }
    true
}

/// Whether a word begins with `:`.
pub fn is_mark(word: &[u8]) -> bool
    ensures { result ≡ spec.is_mark word.now }
{
    match word.split_first() {
        Some((first, _)) => *first == b':',
        None => false,
    }
}

/// Whether a word is `:` and 1 to 32 letters, digits or `_`.
pub fn is_label(word: &[u8]) -> bool
    ensures { result ≡ spec.is_label word.now }
{
    let Some((first, name)) = word.split_first() else {
        return false;
    };
    *first == b':' && 0 < name.len() && name.len() <= 32 && are_name_bytes(name)
}

/// The text before the first space.
fn up_to_space(text: &[u8]) -> &[u8]
    ensures { result.now ≡ up_to_space text.now }
{
    for end in 0..text.len() {
        if text[end] == b' ' {
            let (front, _) = text.split_at(end);
            return front;
        }
    }
    text
}

/// Whether a line without its leading spaces is ignored.
fn is_comment(words: &[u8]) -> bool
    ensures { result ≡ is_comment words.now }
{
    match words.split_first() {
        Some((first, _)) => *first == b'#',
        None => true,
    }
}

/// Whether the instructions end at a line of these words.
fn is_stop(words: &[u8]) -> bool
    ensures { result ≡ spec.is_stop (up_to_space words.now) }
{
    // Both words begin otherwise than most mnemonics.
    let Some((first, _)) = words.split_first() else {
        return false;
    };
    if *first != b't' && *first != b'e' {
        return false;
    }
    let word = up_to_space(words);
    is_same(key_text(Key::Try).as_bytes(), word) || is_same(key_text(Key::End).as_bytes(), word)
}

/// Puts the labels of the code whose first line begins the text, which is the line of this number, in place of those that
/// are there. Returns the number of instructions of the code, for a caller that reserves memory for them. It fails only
/// when out of memory.
pub fn look_ahead<'t>(labels: &mut Labels<'t>, text: &'t [u8], first: u64) -> Result<usize, Fault>
    requires { first + length text.now < 2 ^ 64 }
    ensures ahead { OnOk result (labels.new ≡ spec.labels_ahead [] first 0 (lines text.now)) }
    ensures count { IfOk result (λ count. count ≡ inner_spec.insns_ahead (lines text.now)) }
    ensures memory { IsOkUnless result memory }
{
    labels.clear();
    let mut line = first;
    let mut number = 0;
    let mut rest = text;
    while let Some((next, after)) = split_line(rest) {
        let words = after_spaces(next);
        if !is_comment(words) {
            if is_stop(words) {
                return Ok(number);
            }
            if is_mark(words) {
                let place = Place {
                    line,
                    number: number as u64,
                };
                labels.put(up_to_space(words), place)?;
            } else {
                number += 1;
            }
        }
        line += 1;
        rest = after;
    }
    Ok(number)
}

/// The instruction that the label of this name marks.
fn marked(labels: &Labels<'_>, near: usize, name: &[u8]) -> u32
    ensures { result ≡ spec.marked_by (spec.lookup name.now labels.now) }
{
    match labels.place_of(near, name) {
        Some(place) => place.number.min(4294967295) as u32,
        None => 4294967295,
    }
}

/// Whether the slot is that of a target.
fn is_target(slot: Slot) -> bool
    ensures { result ≡ spec.is_target slot }
{
    matches!(slot, Slot::Word(Mark::Target, _))
}

/// The number of the instruction that a label marks; `None` if the text is not a label. The label at
/// the index `near` is found without hashing its name. A label that isn't there marks the highest number of 32 bits,
/// which is no instruction.
///
/// ```text
/// read_target(&labels, 0, b":1")   // Some(5), where `:1` stands before the sixth instruction; None for `1`
/// ```
pub fn read_target(labels: &Labels<'_>, near: usize, text: &[u8]) -> Option<u32>
    ensures found { IfSome result (λ n. spec.SpellsLabel labels.now (plain_word text.now) (word_datum n)) }
    ensures none { IfNone result (spec.is_label text.now ≡ false) }
{
    if is_label(text) {
        return Some(marked(labels, near, text));
    }
    None
}

/// The value of a word in the slot of a target.
fn read_label<'a>(labels: &Labels<'_>, near: usize, one: Word<'a, '_>) -> Option<Datum<'a>>
    ensures found { IfSome result (λ d. spec.SpellsLabel labels.now (word one.entry) (datum d)) }
    ensures none { IfNone result ((d : SpecDatum) → spec.SpellsLabel labels.now (word one.entry) d → ⊥) }
    ensures valid { IfSome result (λ d. IsValidDatum (datum d)) }
{
    match one {
        Word::Plain(text) => {
            if is_label(text) {
                return Some(Datum::Word(marked(labels, near, text)));
            }
            None
        }
        Word::Text(_) => None,
    }
}

/// The value of a word in the slot of a number of eight bits.
fn read_byte<'a>(mark: Mark, most: u8, one: Word<'_, '_>) -> Option<Datum<'a>>
    ensures found { IfSome result (λ d. SpellsSlot (Slot.Byte mark most) (word one.entry) (datum d)) }
    ensures none { IfNone result ((d : SpecDatum) → SpellsSlot (Slot.Byte mark most) (word one.entry) d → ⊥) }
    ensures valid { IfSome result (λ d. IsValidDatum (datum d)) }
{
    Some(Datum::Byte(read_marked(mark, one, most as u64)? as u8))
}

/// The value of a word in a slot of the second form. Most slots are of labels, keywords and short numbers: these come first.
fn read_here<'a, 'b>(
    spelled: &mut Spelled<'a, 'b>,
    arena: &'a Bump,
    labels: &Labels<'_>,
    near: usize,
    slot: Slot,
    one: Word<'a, 'b>,
) -> Result<Option<Datum<'a>>, Fault>
    ensures found { IfOk result (λ r. IfSome r (λ d. SpellsHere labels.now slot (word one.entry) (datum d))) }
    ensures none { IfOk result (λ r. IfNone r ((d : SpecDatum) → SpellsHere labels.now slot (word one.entry) d → ⊥)) }
    ensures valid { IfOk result (λ r. IfSome r (λ d. StayValid spelled.old spelled.new (datum d ∷ []))) }
    ensures memory { IsOkUnless result memory }
{
    if is_target(slot) {
        return Ok(read_label(labels, near, one));
    }
    match slot {
        Slot::Key(key) => Ok(Some(Datum::Key(key))),
        Slot::Byte(mark, most) => Ok(read_byte(mark, most, one)),
        _ => read_datum(spelled, arena, slot, one),
    }
}

/// The fault of a word without a value there.
fn fault_here(slot: Slot) -> u16
    ensures { result ≡ spec.fault_here slot }
{
    if is_target(slot) {
        return fault::LINE_NAME;
    }
    fault_of(slot)
}

/// The values of these words in these slots of the second form; otherwise the fault of the first word without one. The label
/// at the index `near` is found without hashing its name.
pub fn read_all<'a, 'b>(
    spelled: &mut Spelled<'a, 'b>,
    arena: &'a Bump,
    labels: &Labels<'_>,
    near: usize,
    slots: &[Slot],
    words: &[Word<'a, 'b>],
    word_values: &mut Vec<Datum<'a>>,
) -> Result<Option<u16>, Fault>
    requires { length slots.now ≡ length words.now }
    ensures all { IfOk result (λ r. IfNone r (SpellsAll labels.now slots.now (map word words.now) (map datum word_values.new.items))) }
    ensures bad { IfOk result (λ r. IfSome r (λ code. MisspellsAll labels.now slots.now (map word words.now) code)) }
    ensures valid { IfOk result (λ r. IfNone r (StayValid spelled.old spelled.new (map datum word_values.new.items))) }
    ensures memory { IsOkUnless result memory }
{
    word_values.clear();
    word_values.reserve(slots.len())?;
    for i in 0..slots.len() {
        let Some(word_value) = read_here(spelled, arena, labels, near, slots[i], words[i])? else {
            return Ok(Some(fault_here(slots[i])));
        };
        word_values.push_reserved(word_value);
    }
    Ok(None)
}
