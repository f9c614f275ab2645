//! Type lists ("type_list"): the parameters of each kept prototype, then the interfaces of each class.
ghost use Rattle.std.specs.Prelude.{◌≡◌, ◌+◌, ◌*◌, ◌<◌, ◌^◌, List, IfOk, OnOk, IsOkUnless, length, map};
ghost use Rattle.dex_base.specs.Fault.{memory};
ghost use Rattle.dex_container.specs.Layout.{size_of};
ghost use Rattle.dex_container.specs.Section as section;
ghost use Rattle.file_layout.specs.Sections.{wide_all};
ghost use Rattle.file_layout.specs.inner.Sections.{is_empty_list, Laid};
ghost use Rattle.file_layout.specs.inner.Tiles.{AreShared};
ghost use Rattle.file_limits.specs.Wide.{params_of, wide_list};
ghost use Rattle.file_limits.specs.inner.Wide.{list_values};
ghost use Rattle.file_put.specs.inner.Lists.{AddsIndices, SpellsRanks};
ghost use Rattle.file_layout.specs.inner.Sharing.{UsesItem};
ghost use Rattle.program_types.specs.Content.{Program, Units};
ghost use Rattle.tables_names.specs.Closure.{AreRising, Five};
ghost use Rattle.tables_names.specs.Needed.{needed};
ghost use Rattle.tables_rows.specs.inner.Halves.{halves};
ghost use Rattle.file_strip.specs.inner.Keeping.{Keeps};
ghost use Rattle.file_strip.specs.inner.Lists.{AreCarriedLists, AreFirstLists, AreRanked, IsCarriedList, WritesList};
ghost use Rattle.file_strip.specs.inner.Moved.{AreMoved};

use crate::class_words::class_words;
use crate::moved::Moved;
use dex_base::{Fault, push_words, u16_at};
use dex_container::{Sections, kind, section_of};
use dex_insn::IndexKind;
use file_classes::word;
use file_put::Placed;
use file_renumber::Numbers;
use std::alloc::Global;
use tables_rows::{indexes_or_none, proto_parameters};

/// Appends the numbers of the types with these indices, of two bytes each.
fn put_numbers(out: &mut Vec<u8>, numbers: &Numbers, indexes: &[u8]) -> Result<(), Fault>
    requires even { length indexes.now ≡ 2 * length (halves indexes.now) }
    requires ranked { (s : Five) × (ts : List Units) × AreRanked numbers.now s (halves indexes.now) ts }
    ensures ok { OnOk result ((s : Five) (ts : List Units) → AreRanked numbers.now s (halves indexes.now) ts → AddsIndices s out.old.items out.new.items ts) }
    ensures memory { IsOkUnless result memory }
{
    for j in 0..indexes.len() / 2 {
        let number = numbers.of(IndexKind::Type, u32::from(u16_at(indexes, 2 * j))) as u16;
        out.extend_from_slice(&number.to_le_bytes())?;
    }
    Ok(())
}

/// The bytes of the list at an offset, none where it is empty.
fn renumber_list(
    alloc: Global,
    numbers: &Numbers,
    sections: &Sections<'_>,
    off: u32,
) -> Result<Vec<u8>, Fault>
    requires list { (s : Five) × (ts : List Units) × IsCarriedList sections.now numbers.now s off ts }
    ensures ok { IfOk result (λ bytes. WritesList sections.now numbers.now off bytes.items) }
    ensures memory { IsOkUnless result memory }
{
    let lists = section_of(sections, kind::TYPE_LIST);
    let Some(indexes) = indexes_or_none(sections, lists, off) else {
        unreachable!()
    };
    let count = indexes.len() / 2;
    if count == 0 {
        return Ok(Vec::new(alloc));
    }
    let mut bytes = Vec::with_capacity(alloc, 4 + 2 * count)?;
    push_words(&mut bytes, &[count as u32])?;
    put_numbers(&mut bytes, numbers, indexes)?;
    Ok(bytes)
}

/// Returns the new offset of the list at an old offset, 4-aligned, which is appended unless an equal one is there; 0 for an
/// empty list.
fn add_list(
    alloc: Global,
    out: &mut Vec<u8>,
    moved: &mut Moved,
    numbers: &Numbers,
    sections: &Sections<'_>,
    off: u32,
) -> Result<u32, Fault>
    requires list { (s : Five) × (ts : List Units) × IsCarriedList sections.now numbers.now s off ts × (length out.old.items + wide_list ts < 2 ^ 32) }
    requires moved { AreMoved (WritesList sections.now numbers.now) moved.old.items moved.old.places }
    ensures ok { IfOk result (λ place. (s : Five) (ts : List Units) → IsCarriedList sections.now numbers.now s off ts
        → UsesItem is_empty_list (SpellsRanks s) 4 moved.old.items moved.new.items out.old.items out.new.items ts place) }
    ensures moved { OnOk result (AreMoved (WritesList sections.now numbers.now) moved.new.items moved.new.places) }
    ensures memory { IsOkUnless result memory }
{
    if let Some(place) = moved.find(off) {
        return Ok(place);
    }
    let bytes = renumber_list(alloc, numbers, sections, off)?;
    Ok(moved.put_aligned(out, off, bytes)?)
}

/// Appends the lists that stood at these offsets.
fn place_lists(
    alloc: Global,
    out: &mut Vec<u8>,
    numbers: &Numbers,
    sections: &Sections<'_>,
    offs: &[u32],
) -> Result<Placed, Fault>
    requires front { 0 < length out.old.items }
    requires lists { (s : Five) × (lists : List (List Units)) × AreCarriedLists sections.now numbers.now s offs.now lists × (length out.old.items + wide_all wide_list lists < 2 ^ 32) }
    ensures ok { IfOk result (λ r. (s : Five) (lists : List (List Units)) → AreCarriedLists sections.now numbers.now s offs.now lists
        → Laid is_empty_list (SpellsRanks s) 4 wide_list out.old.items out.new.items lists r.places.items r.items) }
    ensures once { IfOk result (λ r. (s : Five) (lists : List (List Units)) → AreRising s → AreCarriedLists sections.now numbers.now s offs.now lists → AreShared r.places.items lists) }
    ensures memory { IsOkUnless result memory }
{
    let mut moved = Moved::new(alloc, numbers.seed());
    let mut places = Vec::new(alloc);
    for off in offs {
        let place = add_list(alloc, out, &mut moved, numbers, sections, *off)?;
        places.push(place)?;
    }
    Ok(Placed {
        places,
        items: moved.items.count(),
    })
}

/// Appends the offset of the parameters of a prototype, if it is kept.
fn push_parameters(
    offs: &mut Vec<u32>,
    numbers: &Numbers,
    sections: &Sections<'_>,
    i: u32,
) -> Result<(), Fault>
    requires kept { (p : Program) × Keeps sections.now numbers.now p }
    requires row { i < size_of sections.now section.proto_ids }
    ensures ok { OnOk result ((p : Program) → Keeps sections.now numbers.now p → AreFirstLists sections.now numbers.now p i offs.old.items
        → AreFirstLists sections.now numbers.now p (i + 1) offs.new.items) }
    ensures memory { IsOkUnless result memory }
{
    if !numbers.keeps_proto(i) {
        return Ok(());
    }
    offs.push(proto_parameters(sections, i))?;
    Ok(())
}

/// The offset of the parameters of each kept prototype.
fn parameter_offsets(
    alloc: Global,
    numbers: &Numbers,
    sections: &Sections<'_>,
) -> Result<Vec<u32>, Fault>
    requires kept { (p : Program) × Keeps sections.now numbers.now p }
    ensures ok { IfOk result (λ offs. (p : Program) → Keeps sections.now numbers.now p
        → AreCarriedLists sections.now numbers.now (needed p) offs.items (map params_of (needed p).protos)) }
    ensures memory { IsOkUnless result memory }
{
    let mut offs = Vec::new(alloc);
    for i in 0..sections.table(kind::PROTO_ID_ITEM).0 {
        push_parameters(&mut offs, numbers, sections, i)?;
    }
    Ok(offs)
}

/// Appends the type lists, each 4-aligned: the parameters of each kept prototype, then the interfaces of each class,
/// if there are any. A list that several rows refer to is read once, and equal lists are written once.
///
/// It fails only when out of memory.
///
/// ```
/// let lists = put_lists(alloc, &mut out, &numbers, &sections)?;
/// ```
pub(crate) fn put_lists(
    alloc: Global,
    out: &mut Vec<u8>,
    numbers: &Numbers,
    sections: &Sections<'_>,
) -> Result<Placed, Fault>
    requires front { 0 < length out.old.items }
    requires kept { (p : Program) × Keeps sections.now numbers.now p × (length out.old.items + wide_all wide_list (list_values (needed p) p) < 2 ^ 32) }
    ensures ok { IfOk result (λ r. (p : Program) → Keeps sections.now numbers.now p
        → Laid is_empty_list (SpellsRanks (needed p)) 4 wide_list out.old.items out.new.items (list_values (needed p) p) r.places.items r.items) }
    ensures once { IfOk result (λ r. (p : Program) → Keeps sections.now numbers.now p → AreShared r.places.items (list_values (needed p) p)) }
    ensures memory { IsOkUnless result memory }
{
    let mut offs = parameter_offsets(alloc, numbers, sections)?;
    let interfaces = class_words(alloc, sections, word::INTERFACES_OFF)?;
    offs.extend_from_slice(&interfaces)?;
    Ok(place_lists(alloc, out, numbers, sections, &offs)?)
}
