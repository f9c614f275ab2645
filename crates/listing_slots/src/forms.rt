//! The slots of each instruction's format, and which words have the form of a slot.

ghost use Rattle.std.specs.Prelude.{◌≡◌, ◌<◌, ◌+◌, ◌++◌, ◌∷◌, [], Option, Some, map, drop, replicate, OnOk, IsOkUnless};
ghost use Rattle.dex_base.specs.Fault.{memory};
ghost use Rattle.listing_words.specs.inner.View.{word};
ghost use Rattle.listing_slots.specs.Keys.{key_text};
ghost use Rattle.listing_slots.specs.declared.key.Key.TheVariants as Key;
ghost use Rattle.listing_slots.specs.declared.slot.Slot.TheVariants as Slot;
ghost use Rattle.listing_slots.specs.Slots.{has_form, have_forms};
ghost use Rattle.listing_slots.specs.Shapes as spec;
ghost use Rattle.listing_slots.specs.Shapes.{is_key, name_slot, before_close, format_slots};

use crate::key::{Key, is_same, key_text};
use crate::slot::{Mark, Slot};
use dex_base::Fault;
use dex_insn::{Format, IndexKind};
use listing_words::Word;

const REGISTER4: Slot = Slot::Byte(Mark::Register, 15);

const REGISTER8: Slot = Slot::Byte(Mark::Register, 255);

const REGISTER16: Slot = Slot::Half(Mark::Register, 65535);

pub(crate) const TARGET: Slot = Slot::Word(Mark::Target, 4294967295);

/// Whether the word is the keyword.
pub(crate) fn is_key(key: Key, one: Word<'_, '_>) -> bool
    ensures { result ≡ is_key key (word one.entry) }
{
    match one {
        Word::Plain(text) => is_same(key_text(key).as_bytes(), text),
        Word::Text(_) => false,
    }
}

/// Whether the word has the slot's form.
fn has_form(slot: Slot, one: Word<'_, '_>) -> bool
    ensures { result ≡ has_form slot (word one.entry) }
{
    match (slot, one) {
        (Slot::Text, Word::Text(_)) => true,
        (Slot::Text, Word::Plain(_)) => false,
        (Slot::Key(key), Word::Plain(text)) => is_same(key_text(key).as_bytes(), text),
        (_, Word::Plain(_)) => true,
        (_, Word::Text(_)) => false,
    }
}

/// Whether there are as many words as slots, each of its slot's form.
#[tactic(auto, unfolding(crate::specs::Slots::have_forms))]
pub(crate) fn have_forms(slots: &[Slot], words: &[Word<'_, '_>]) -> bool
    ensures { result ≡ have_forms slots.now (map word words.now) }
{
    if slots.len() != words.len() {
        return false;
    }
    for i in 0..slots.len() {
        if !has_form(slots[i], words[i]) {
            return false;
        }
    }
    true
}

/// The slot of what an instruction names, by the table that its index is into; of an instruction without one, a type's.
pub fn name_slot(index: Option<IndexKind>) -> Slot
    ensures { result ≡ name_slot index }
{
    match index {
        Some(IndexKind::String) => Slot::Text,
        Some(IndexKind::Field) => Slot::Field,
        Some(IndexKind::Method) => Slot::Method,
        _ => Slot::Desc,
    }
}

/// The number of words before the first `}`, five at most.
fn before_close(words: &[Word<'_, '_>]) -> usize
    ensures { result ≡ before_close 5 (map word words.now) }
{
    let mut n = 0;
    while n < 5 {
        if n == words.len() {
            return n;
        }
        if is_key(Key::Close, words[n]) {
            return n;
        }
        n += 1;
    }
    n
}

/// Puts the slots of a format's operands after those that are there.
#[rattlefmt::skip]
pub(crate) fn push_format(
    slots: &mut Vec<Slot>,
    format: Format,
    index: Option<IndexKind>,
    words: &[Word<'_, '_>],
) -> Result<(), Fault>
    ensures ok { OnOk result (slots.new.items ≡ slots.old.items ++ format_slots format index (map word words.now)) }
    ensures memory { IsOkUnless result memory }
{
    match format {
        Format::F10x => {}
        Format::F12x => slots.extend_from_slice(&[REGISTER4, REGISTER4])?,
        Format::F11n => slots.extend_from_slice(&[REGISTER4, Slot::Nibble])?,
        Format::F11x => slots.push(REGISTER8)?,
        Format::F10t | Format::F20t | Format::F30t => slots.push(TARGET)?,
        Format::F22x => slots.extend_from_slice(&[REGISTER8, REGISTER16])?,
        Format::F21t | Format::F31t => slots.extend_from_slice(&[REGISTER8, TARGET])?,
        Format::F21s | Format::F21h => slots.extend_from_slice(&[REGISTER8, Slot::Short])?,
        Format::F21c | Format::F31c => slots.extend_from_slice(&[REGISTER8, name_slot(index)])?,
        Format::F23x => slots.extend_from_slice(&[REGISTER8, REGISTER8, REGISTER8])?,
        Format::F22b => slots.extend_from_slice(&[REGISTER8, REGISTER8, Slot::Tiny])?,
        Format::F22t => slots.extend_from_slice(&[REGISTER4, REGISTER4, TARGET])?,
        Format::F22s => slots.extend_from_slice(&[REGISTER4, REGISTER4, Slot::Short])?,
        Format::F22c => slots.extend_from_slice(&[REGISTER4, REGISTER4, name_slot(index)])?,
        Format::F32x => slots.extend_from_slice(&[REGISTER16, REGISTER16])?,
        Format::F31i => slots.extend_from_slice(&[REGISTER8, Slot::Int])?,
        Format::F35c => push_braces(slots, name_slot(index), words)?,
        Format::F3rc => slots.extend_from_slice(&[REGISTER16, Slot::Byte(Mark::Nothing, 255), name_slot(index)])?,
        Format::F51l => slots.extend_from_slice(&[REGISTER8, Slot::Long])?,
    }
    Ok(())
}

/// The number of words between braces, five at most.
fn registers_inside(words: &[Word<'_, '_>]) -> usize
    ensures { result ≡ before_close 5 (drop 1 (map word words.now)) }
{
    if words.is_empty() {
        return 0;
    }
    let (_, after) = words.split_at(1);
    before_close(after)
}

fn push_registers(slots: &mut Vec<Slot>, n: usize) -> Result<(), Fault>
    ensures ok { OnOk result (slots.new.items ≡ slots.old.items ++ replicate n spec.register4) }
    ensures memory { IsOkUnless result memory }
{
    for _turn in 0..n {
        slots.push(REGISTER4)?;
    }
    Ok(())
}

/// Registers in braces, and a name.
fn push_braces(slots: &mut Vec<Slot>, name: Slot, words: &[Word<'_, '_>]) -> Result<(), Fault>
    ensures ok { OnOk result (slots.new.items ≡ slots.old.items ++ (Slot.Key Key.Open ∷ (replicate (before_close 5 (drop 1 (map word words.now))) spec.register4 ++ (Slot.Key Key.Close ∷ name ∷ [])))) }
    ensures memory { IsOkUnless result memory }
{
    slots.push(Slot::Key(Key::Open))?;
    push_registers(slots, registers_inside(words))?;
    slots.push(Slot::Key(Key::Close))?;
    slots.push(name)?;
    Ok(())
}
