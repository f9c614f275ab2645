//! From a line's words to its shape: what it is, and a slot for each word after its keywords.

ghost use Rattle.std.specs.Prelude.{◌≡◌, ◌+◌, ◌∷◌, [], ◌++◌, false, List, Some, None, map, option_map, replicate, ℕ, length, IfOk, IfSome, IfNone, OnOk, IsOkUnless};
ghost use Rattle.dex_base.specs.Fault.{memory};
ghost use Rattle.dex_insn.specs.Opcodes.{format_of, index_kind_of};
ghost use Rattle.dex_insn.specs.Mnemonics.{IsNamed};
ghost use Rattle.listing_words.specs.inner.View.{word};
ghost use Rattle.listing_slots.specs.Keys.{find_key, lead_keys};
ghost use Rattle.listing_slots.specs.Shapes.{Shape, Row, HasShape, HasBareShape, BeginsWithKey, BeginsWithInsn, IsPlainRow, IsInsnRow, plain_slots, key_row, payload_row, is_first_key, pairs, target};
ghost use Rattle.listing_slots.specs.inner.Shapes.{onto_row};
ghost use Rattle.listing_slots.specs.inner.ShapeView.{shape};
ghost use Rattle.listing_slots.specs.declared.key.Key.TheVariants as Key;
ghost use Rattle.listing_slots.specs.declared.slot.Slot.{Slot};

use crate::forms::{TARGET, have_forms, is_key, push_format};
use crate::found::Found;
use crate::key::{Key, lead_key, payload_key};
use crate::kind::Kind;
use crate::slot::{Mark, Slot};
use crate::values::push_value;
use dex_base::Fault;
use dex_insn::{format_of, index_kind_of, opcode_named};
use listing_words::{Word, is_natural};

const FLAGS: Slot = Slot::Flags;

const SIZE: Slot = Slot::Half(Mark::Nothing, 65535);

/// A static field: without a value, or with one.
#[tactic(auto, unfolding(crate::specs::Shapes::key_row))]
fn push_static(slots: &mut Vec<Slot>, after: &[Word<'_, '_>]) -> Result<Option<Kind>, Fault>
    ensures some { IfOk result (λ r. IfSome r (λ kind. onto_row slots.old.items (key_row Key.Static (map word after.now)) ≡ Some (kind, slots.new.items))) }
    ensures none { IfOk result (λ r. IfNone r (key_row Key.Static (map word after.now) ≡ None)) }
    ensures memory { IsOkUnless result memory }
{
    slots.extend_from_slice(&[Slot::Member, Slot::Desc, FLAGS])?;
    if after.len() <= 3 {
        return Ok(Some(Kind::Static));
    }
    slots.push(Slot::Key(Key::Equals))?;
    let (_, rest) = after.split_at(4);
    if !push_value(slots, rest)? {
        return Ok(None);
    }
    Ok(Some(Kind::Given))
}

/// The slots after the keyword of a line, and what the line is.
#[rattlefmt::skip]
#[tactic(auto, unfolding(crate::specs::Shapes::key_row))]
fn push_key(
    slots: &mut Vec<Slot>,
    key: Key,
    after: &[Word<'_, '_>],
) -> Result<Option<Kind>, Fault>
    ensures some { IfOk result (λ r. IfSome r (λ kind. onto_row slots.old.items (key_row key (map word after.now)) ≡ Some (kind, slots.new.items))) }
    ensures none { IfOk result (λ r. IfNone r (key_row key (map word after.now) ≡ None)) }
    ensures memory { IsOkUnless result memory }
{
    match key {
        Key::Dex => { slots.push(Slot::Key(Key::Version))?; Ok(Some(Kind::First)) }
        Key::Class => { slots.extend_from_slice(&[Slot::Desc, FLAGS])?; Ok(Some(Kind::OpenClass)) }
        Key::End => {
            if begins_with(Key::Code, after) {
                slots.push(Slot::Key(Key::Code))?;
                return Ok(Some(Kind::EndCode));
            }
            slots.push(Slot::Key(Key::Class))?;
            Ok(Some(Kind::EndClass))
        }
        Key::Super => { slots.push(Slot::Desc)?; Ok(Some(Kind::Super)) }
        Key::Implements => { slots.push(Slot::Desc)?; Ok(Some(Kind::Implements)) }
        Key::Source => { slots.push(Slot::Text)?; Ok(Some(Kind::Source)) }
        Key::Static => push_static(slots, after),
        Key::Instance => { slots.extend_from_slice(&[Slot::Member, Slot::Desc, FLAGS])?; Ok(Some(Kind::Instance)) }
        Key::Direct => { slots.extend_from_slice(&[Slot::Member, Slot::Proto, FLAGS])?; Ok(Some(Kind::Direct)) }
        Key::Virtual => { slots.extend_from_slice(&[Slot::Member, Slot::Proto, FLAGS])?; Ok(Some(Kind::Virtual)) }
        Key::Code => { slots.extend_from_slice(&[SIZE, SIZE, SIZE])?; Ok(Some(Kind::OpenCode)) }
        Key::Try => { slots.extend_from_slice(&[TARGET, TARGET])?; Ok(Some(Kind::Try)) }
        Key::Catch => { slots.extend_from_slice(&[Slot::Desc, TARGET])?; Ok(Some(Kind::Catch)) }
        Key::CatchAll => { slots.push(TARGET)?; Ok(Some(Kind::CatchAll)) }
        _ => Ok(None),
    }
}

/// Whether the first word is the keyword.
fn begins_with(key: Key, words: &[Word<'_, '_>]) -> bool
    ensures { result ≡ is_first_key key (map word words.now) }
{
    match words.split_first() {
        Some((first, _)) => is_key(key, *first),
        None => false,
    }
}

/// Appends so many slots of targets.
fn push_targets(slots: &mut Vec<Slot>, n: usize) -> Result<(), Fault>
    ensures ok { OnOk result (slots.new.items ≡ slots.old.items ++ replicate n target) }
    ensures memory { IsOkUnless result memory }
{
    for _turn in 0..n {
        slots.push(TARGET)?;
    }
    Ok(())
}

/// A key and a target, so many times.
fn push_pairs(slots: &mut Vec<Slot>, n: usize) -> Result<(), Fault>
    ensures ok { OnOk result (slots.new.items ≡ slots.old.items ++ pairs n) }
    ensures memory { IsOkUnless result memory }
{
    for _turn in 0..n {
        slots.push(Slot::Int)?;
        slots.push(TARGET)?;
    }
    Ok(())
}

/// The slots after the word of a payload, and what the line is.
#[tactic(auto, unfolding(crate::specs::Shapes::payload_row))]
fn push_payload(
    slots: &mut Vec<Slot>,
    key: Key,
    after: &[Word<'_, '_>],
) -> Result<Option<Kind>, Fault>
    ensures some { IfOk result (λ r. IfSome r (λ kind. onto_row slots.old.items (payload_row key (map word after.now)) ≡ Some (kind, slots.new.items))) }
    ensures none { IfOk result (λ r. IfNone r (payload_row key (map word after.now) ≡ None)) }
    ensures memory { IsOkUnless result memory }
{
    match key {
        Key::Packed => {
            slots.push(Slot::Int)?;
            push_targets(slots, after.len().saturating_sub(1))?;
            Ok(Some(Kind::Packed))
        }
        Key::Sparse => {
            push_pairs(slots, after.len() / 2)?;
            Ok(Some(Kind::Sparse))
        }
        Key::Elements => {
            slots.push(SIZE)?;
            if after.len() > 1 {
                slots.push(Slot::Elements)?;
            }
            Ok(Some(Kind::Elements))
        }
        _ => Ok(None),
    }
}

/// Puts the slots of an opcode's operands after those that are there.
fn push_operands(slots: &mut Vec<Slot>, op: u8, after: &[Word<'_, '_>]) -> Result<(), Fault>
    ensures ok { OnOk result (slots.new.items ≡ slots.old.items ++ plain_slots (format_of op) (index_kind_of op) (map word after.now)) }
    ensures memory { IsOkUnless result memory }
{
    match format_of(op) {
        Some(format) => push_format(slots, format, index_kind_of(op), after),
        None => Ok(()),
    }
}

/// The slots after a mnemonic, and what the line is.
fn push_plain(
    slots: &mut Vec<Slot>,
    text: &[u8],
    after: &[Word<'_, '_>],
) -> Result<Option<Kind>, Fault>
    ensures some { IfOk result (λ r. IfSome r (λ kind. (ss : List Slot) × IsPlainRow text.now (map word after.now) (kind, ss) × (slots.new.items ≡ slots.old.items ++ ss))) }
    ensures none { IfOk result (λ r. IfNone r ((op : ℕ) → IsNamed op text.now → ⊥)) }
    ensures memory { IsOkUnless result memory }
{
    match opcode_named(text) {
        Some(op) => {
            push_operands(slots, op, after)?;
            Ok(Some(Kind::Plain(op)))
        }
        None => Ok(None),
    }
}

/// The slots after the mnemonic of an instruction or the word of a payload, and what the line is.
fn push_insn(
    slots: &mut Vec<Slot>,
    text: &[u8],
    after: &[Word<'_, '_>],
) -> Result<Option<Kind>, Fault>
    ensures some { IfOk result (λ r. IfSome r (λ kind. (ss : List Slot) × IsInsnRow text.now (map word after.now) (kind, ss) × (slots.new.items ≡ slots.old.items ++ ss))) }
    ensures none { IfOk result (λ r. IfNone r ((row : Row) → IsInsnRow text.now (map word after.now) row → ⊥)) }
    ensures memory { IsOkUnless result memory }
{
    match payload_key(text) {
        Some(key) => push_payload(slots, key, after),
        None => push_plain(slots, text, after),
    }
}

/// The text before the last `:`, if that is the last byte.
fn label_of(text: &[u8]) -> Option<&[u8]>
    ensures found { IfSome result (λ label. text.now ≡ label.now ++ (58 ∷ [])) }
    ensures none { IfNone result ((label : List ℕ) → text.now ≡ label ++ (58 ∷ []) → ⊥) }
{
    let (last, label) = text.split_last()?;
    if *last == b':' { Some(label) } else { None }
}

/// What a line is whose first word is this keyword, and its slots.
fn read_keyed(
    key: Key,
    after: &[Word<'_, '_>],
    slots: &mut Vec<Slot>,
) -> Result<Option<Kind>, Fault>
    requires { slots.old.items ≡ [] }
    ensures found { IfOk result (λ r. IfSome r (λ kind. (text : List ℕ) → Some key ≡ find_key lead_keys text → BeginsWithKey text (map word after.now) (kind, slots.new.items))) }
    ensures none { IfOk result (λ r. IfNone r ((text : List ℕ) (row : Row) → Some key ≡ find_key lead_keys text → BeginsWithKey text (map word after.now) row → ⊥)) }
    ensures memory { IsOkUnless result memory }
{
    let Some(kind) = push_key(slots, key, after)? else {
        return Ok(None);
    };
    if have_forms(slots.as_slice(), after) {
        return Ok(Some(kind));
    }
    Ok(None)
}

/// What a line is after the number that an instruction gives itself, and its slots.
fn read_labelled(after: &[Word<'_, '_>], slots: &mut Vec<Slot>) -> Result<Option<Kind>, Fault>
    requires { slots.old.items ≡ [] }
    ensures found { IfOk result (λ r. IfSome r (λ kind. BeginsWithInsn (map word after.now) (kind, slots.new.items))) }
    ensures none { IfOk result (λ r. IfNone r ((row : Row) → BeginsWithInsn (map word after.now) row → ⊥)) }
    ensures memory { IsOkUnless result memory }
{
    let Some((first, operands)) = after.split_first() else {
        return Ok(None);
    };
    let Word::Plain(mnemonic) = *first else {
        return Ok(None);
    };
    let Some(kind) = push_insn(slots, mnemonic, operands)? else {
        return Ok(None);
    };
    if have_forms(slots.as_slice(), operands) {
        return Ok(Some(kind));
    }
    Ok(None)
}

/// A line of this kind, if it is one, with what is before its slots.
fn found(kind: Option<Kind>, label: &[u8], lead: usize) -> Option<Found<'_>>
    ensures { result ≡ option_map (λ k. record { kind = k; label = label.entry; lead = lead }) kind }
{
    let kind = kind?;
    Some(Found { kind, label, lead })
}

/// The shape of a line of these words; its slots are put in place of those that are there.
pub fn read_shape<'a, 'b>(
    words: &[Word<'a, 'b>],
    slots: &mut Vec<Slot>,
) -> Result<Option<Found<'b>>, Fault>
    ensures found { IfOk result (λ r. IfSome r (λ f. HasShape (map word words.now) (shape f slots.new.items (map word words.now)))) }
    ensures lengths { IfOk result (λ r. IfSome r (λ f. f.lead + length slots.new.items ≡ length words.now)) }
    ensures none { IfOk result (λ r. IfNone r ((s : Shape) → HasShape (map word words.now) s → ⊥)) }
    ensures memory { IsOkUnless result memory }
{
    slots.clear();
    let Some((first, after)) = words.split_first() else {
        return Ok(None);
    };
    let Word::Plain(text) = *first else {
        return Ok(None);
    };
    let Some(label) = label_of(text) else {
        let Some(key) = lead_key(text) else {
            return Ok(None);
        };
        return Ok(found(read_keyed(key, after, slots)?, &[], 1));
    };
    if !is_natural(label) {
        return Ok(None);
    }
    Ok(found(read_labelled(after, slots)?, label, 2))
}

/// The shape of a line of these words where instructions don't give themselves numbers; its slots are put in place of those
/// that are there.
pub fn read_bare_shape<'a, 'b>(
    words: &[Word<'a, 'b>],
    slots: &mut Vec<Slot>,
) -> Result<Option<Found<'b>>, Fault>
    ensures found { IfOk result (λ r. IfSome r (λ f. HasBareShape (map word words.now) (shape f slots.new.items (map word words.now)))) }
    ensures lengths { IfOk result (λ r. IfSome r (λ f. f.lead + length slots.new.items ≡ length words.now)) }
    ensures none { IfOk result (λ r. IfNone r ((s : Shape) → HasBareShape (map word words.now) s → ⊥)) }
    ensures memory { IsOkUnless result memory }
{
    slots.clear();
    let Some((first, after)) = words.split_first() else {
        return Ok(None);
    };
    let Word::Plain(text) = *first else {
        return Ok(None);
    };
    match lead_key(text) {
        Some(key) => Ok(found(read_keyed(key, after, slots)?, &[], 1)),
        None => Ok(found(read_labelled(words, slots)?, &[], 1)),
    }
}
