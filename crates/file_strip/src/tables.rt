//! The rows of string_ids to method_ids, from those of the file that came in.
ghost use Rattle.std.specs.Prelude.{◌≡◌, ℕ, ◌+◌, ◌<◌, ◌^◌, ◌++◌, List, IfOk, OnOk, IsOkUnless, length};
ghost use Rattle.dex_base.specs.Fault.{memory};
ghost use Rattle.dex_base.specs.Fields.{u16_bytes, u32_bytes};
ghost use Rattle.dex_base.specs.Grammar.{Appends};
ghost use Rattle.dex_container.specs.Layout.{size_of};
ghost use Rattle.dex_container.specs.Section as section;
ghost use Rattle.file_put.specs.inner.Rows.{SpellsFieldRow, SpellsMethodRow, SpellsProtos, SpellsRows, SpellsTable, SpellsTypeRow};
ghost use Rattle.program_types.specs.Content.{Program};
ghost use Rattle.program_types.specs.Key.{field_ref_key, method_ref_key, text_key};
ghost use Rattle.tables_names.specs.Needed.{needed};
ghost use Rattle.file_strip.specs.inner.Keeping.{Keeps};
ghost use Rattle.file_strip.specs.inner.Tables.{AreFirstProtos, AreFirstRows};

use dex_base::{Fault, push_words};
use dex_container::{Sections, kind};
use dex_insn::IndexKind;
use file_renumber::Numbers;
use std::alloc::Global;
use tables_rows::{
    MemberTable, member_class, member_kind, member_name, proto_return, proto_shorty, type_string,
};

/// Appends the row of a type, if it is kept.
fn put_type(
    rows: &mut Vec<u8>,
    numbers: &Numbers,
    sections: &Sections<'_>,
    i: u32,
) -> Result<(), Fault>
    requires kept { (p : Program) × Keeps sections.now numbers.now p }
    requires row { i < size_of sections.now section.type_ids }
    ensures ok { OnOk result ((p : Program) (old : List ℕ) → Keeps sections.now numbers.now p
        → AreFirstRows text_key (SpellsTypeRow (needed p)) numbers.now.types (needed p).types old i rows.old.items
        → AreFirstRows text_key (SpellsTypeRow (needed p)) numbers.now.types (needed p).types old (i + 1) rows.new.items) }
    ensures memory { IsOkUnless result memory }
{
    if !numbers.keeps(IndexKind::Type, i) {
        return Ok(());
    }
    push_words(
        rows,
        &[numbers.of(IndexKind::String, type_string(sections, i))],
    )
}

/// Appends the rows of all kept types.
fn put_types(rows: &mut Vec<u8>, numbers: &Numbers, sections: &Sections<'_>) -> Result<(), Fault>
    requires kept { (p : Program) × Keeps sections.now numbers.now p }
    ensures ok { OnOk result ((p : Program) → Keeps sections.now numbers.now p → Appends (SpellsTable text_key (SpellsTypeRow (needed p))) rows.old.items rows.new.items (needed p).types) }
    ensures memory { IsOkUnless result memory }
{
    for i in 0..sections.table(kind::TYPE_ID_ITEM).0 {
        put_type(rows, numbers, sections, i)?;
    }
    Ok(())
}

/// Appends the row of a prototype, if it is kept; `places` has the place of the parameters of each that is.
fn put_proto(
    rows: &mut Vec<u8>,
    numbers: &Numbers,
    sections: &Sections<'_>,
    places: &[u32],
    i: u32,
) -> Result<(), Fault>
    requires kept { (p : Program) × Keeps sections.now numbers.now p × (length places.now ≡ length (needed p).protos) }
    requires row { i < size_of sections.now section.proto_ids }
    ensures ok { OnOk result ((p : Program) (old : List ℕ) → Keeps sections.now numbers.now p
        → AreFirstProtos (needed p) numbers.now.protos places.now old i rows.old.items
        → AreFirstProtos (needed p) numbers.now.protos places.now old (i + 1) rows.new.items) }
    ensures memory { IsOkUnless result memory }
{
    if !numbers.keeps_proto(i) {
        return Ok(());
    }
    let place = places[numbers.proto(i) as usize];
    let shorty = numbers.of(IndexKind::String, proto_shorty(sections, i));
    let ret = numbers.of(IndexKind::Type, proto_return(sections, i));
    push_words(rows, &[shorty, ret, place])
}

/// Appends the rows of all kept prototypes.
fn put_protos(
    rows: &mut Vec<u8>,
    numbers: &Numbers,
    sections: &Sections<'_>,
    places: &[u32],
) -> Result<(), Fault>
    requires kept { (p : Program) × Keeps sections.now numbers.now p × (length places.now ≡ length (needed p).protos) }
    ensures ok { OnOk result ((p : Program) → Keeps sections.now numbers.now p → Appends (SpellsProtos (needed p) places.now) rows.old.items rows.new.items (needed p).protos) }
    ensures memory { IsOkUnless result memory }
{
    for i in 0..sections.table(kind::PROTO_ID_ITEM).0 {
        put_proto(rows, numbers, sections, places, i)?;
    }
    Ok(())
}

/// Appends the row of a field or a method: its class, its type or prototype, its name.
fn put_member(rows: &mut Vec<u8>, class: u32, kind: u32, name: u32) -> Result<(), Fault>
    requires class { class < 2 ^ 16 }
    requires kind { kind < 2 ^ 16 }
    ensures ok { OnOk result (rows.new.items ≡ rows.old.items ++ (u16_bytes class ++ (u16_bytes kind ++ u32_bytes name))) }
    ensures memory { IsOkUnless result memory }
{
    rows.extend_from_slice(&(class as u16).to_le_bytes())?;
    rows.extend_from_slice(&(kind as u16).to_le_bytes())?;
    rows.extend_from_slice(&name.to_le_bytes())?;
    Ok(())
}

/// Appends the row of a field, if it is kept.
fn put_field(
    rows: &mut Vec<u8>,
    numbers: &Numbers,
    sections: &Sections<'_>,
    i: u32,
) -> Result<(), Fault>
    requires kept { (p : Program) × Keeps sections.now numbers.now p }
    requires row { i < size_of sections.now section.field_ids }
    ensures ok { OnOk result ((p : Program) (old : List ℕ) → Keeps sections.now numbers.now p
        → AreFirstRows field_ref_key (SpellsFieldRow (needed p)) numbers.now.fields (needed p).fields old i rows.old.items
        → AreFirstRows field_ref_key (SpellsFieldRow (needed p)) numbers.now.fields (needed p).fields old (i + 1) rows.new.items) }
    ensures memory { IsOkUnless result memory }
{
    if !numbers.keeps(IndexKind::Field, i) {
        return Ok(());
    }
    let table = MemberTable::Fields;
    let class = numbers.of(IndexKind::Type, u32::from(member_class(sections, table, i)));
    let ty = numbers.of(IndexKind::Type, u32::from(member_kind(sections, table, i)));
    let name = numbers.of(IndexKind::String, member_name(sections, table, i));
    put_member(rows, class, ty, name)
}

/// Appends the rows of all kept fields.
fn put_fields(rows: &mut Vec<u8>, numbers: &Numbers, sections: &Sections<'_>) -> Result<(), Fault>
    requires kept { (p : Program) × Keeps sections.now numbers.now p }
    ensures ok { OnOk result ((p : Program) → Keeps sections.now numbers.now p → Appends (SpellsTable field_ref_key (SpellsFieldRow (needed p))) rows.old.items rows.new.items (needed p).fields) }
    ensures memory { IsOkUnless result memory }
{
    for i in 0..sections.table(kind::FIELD_ID_ITEM).0 {
        put_field(rows, numbers, sections, i)?;
    }
    Ok(())
}

/// Appends the row of a method, if it is kept.
fn put_method(
    rows: &mut Vec<u8>,
    numbers: &Numbers,
    sections: &Sections<'_>,
    i: u32,
) -> Result<(), Fault>
    requires kept { (p : Program) × Keeps sections.now numbers.now p }
    requires row { i < size_of sections.now section.method_ids }
    ensures ok { OnOk result ((p : Program) (old : List ℕ) → Keeps sections.now numbers.now p
        → AreFirstRows method_ref_key (SpellsMethodRow (needed p)) numbers.now.methods (needed p).methods old i rows.old.items
        → AreFirstRows method_ref_key (SpellsMethodRow (needed p)) numbers.now.methods (needed p).methods old (i + 1) rows.new.items) }
    ensures memory { IsOkUnless result memory }
{
    if !numbers.keeps(IndexKind::Method, i) {
        return Ok(());
    }
    let table = MemberTable::Methods;
    let class = numbers.of(IndexKind::Type, u32::from(member_class(sections, table, i)));
    let proto = numbers.proto(u32::from(member_kind(sections, table, i)));
    let name = numbers.of(IndexKind::String, member_name(sections, table, i));
    put_member(rows, class, proto, name)
}

/// Appends the rows of all kept methods.
fn put_methods(rows: &mut Vec<u8>, numbers: &Numbers, sections: &Sections<'_>) -> Result<(), Fault>
    requires kept { (p : Program) × Keeps sections.now numbers.now p }
    ensures ok { OnOk result ((p : Program) → Keeps sections.now numbers.now p → Appends (SpellsTable method_ref_key (SpellsMethodRow (needed p))) rows.old.items rows.new.items (needed p).methods) }
    ensures memory { IsOkUnless result memory }
{
    for i in 0..sections.table(kind::METHOD_ID_ITEM).0 {
        put_method(rows, numbers, sections, i)?;
    }
    Ok(())
}

/// The rows of string_ids, type_ids, proto_ids, field_ids and method_ids of the kept rows, one table after the other,
/// in bytes: `texts` has the place of each string's text, `lists` that of each prototype's parameters, 0 for none.
///
/// It fails only when out of memory.
///
/// ```
/// let rows = name_rows(alloc, &numbers, &sections, &texts.places, &lists.places[..protos])?;
/// ```
pub(crate) fn name_rows(
    alloc: Global,
    numbers: &Numbers,
    sections: &Sections<'_>,
    texts: &[u32],
    lists: &[u32],
) -> Result<Vec<u8>, Fault>
    requires kept { (p : Program) × Keeps sections.now numbers.now p × (length texts.now ≡ length (needed p).strings) × (length lists.now ≡ length (needed p).protos) }
    ensures ok { IfOk result (λ rows. (p : Program) → Keeps sections.now numbers.now p → SpellsRows (needed p) texts.now lists.now rows.items) }
    ensures memory { IsOkUnless result memory }
{
    let mut rows = Vec::new(alloc);
    push_words(&mut rows, texts)?;
    put_types(&mut rows, numbers, sections)?;
    put_protos(&mut rows, numbers, sections, lists)?;
    put_fields(&mut rows, numbers, sections)?;
    put_methods(&mut rows, numbers, sections)?;
    Ok(rows)
}
