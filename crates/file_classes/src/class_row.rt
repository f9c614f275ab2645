//! The names and flags of a class row ("class_def_item"): faults 40 and 41.
ghost use Rattle.std.specs.Prelude.{◌≡◌, ◌≢◌, ◌↔◌, ◌<◌, ◌≤◌, IfOk, IfErr, IfSome, IfNone, IsTrue, option_map};
ghost use Rattle.dex_base.specs.Descriptor.{IsClass};
ghost use Rattle.dex_container.specs.Layout.{size_of};
ghost use Rattle.dex_container.specs.Section as section;
ghost use Rattle.program_types.specs.View.{str, desc};
ghost use Rattle.tables_rows.specs.Names.{AreNamesOf};
ghost use Rattle.tables_rows.specs.RowFields.{row_place};
ghost use Rattle.tables_rows.specs.Stands.{StringStands, TypeStands};
ghost use Rattle.tables_rows.specs.TableFaults.{BreaksAt};
ghost use Rattle.file_classes.specs.ClassRows.{class_word, no_index, IndexOrNone};
ghost use Rattle.file_classes.specs.Classes.{RowIs};
ghost use Rattle.file_classes.specs.ClassFaults.{ClassRowBreaks};

use crate::word;
use dex_base::{Fault, fault, u32_at};
use dex_container::{Sections, kind};
use program_types::{Desc, Str, is_class_type};
use tables_rows::Tables;

/// The names and flags of a class.
#[derive(Clone, Copy)]
pub(crate) struct ClassRow<'a> {
    pub ty: Desc<'a>,
    pub flags: u32,
    pub superclass: Option<Desc<'a>>,
    pub source: Option<Str<'a>>,
}

/// How many rows class_defs has.
pub fn class_count(sections: &Sections<'_>) -> u32
    ensures { result ≡ size_of sections.now section.class_defs }
{
    sections.table(kind::CLASS_DEF_ITEM).0
}

/// The byte offset of row i.
pub(crate) fn class_place(sections: &Sections<'_>, i: u32) -> u64
    requires { i < size_of sections.now section.class_defs }
    ensures { result ≡ row_place sections.now section.class_defs i }
{
    u64::from(sections.table(kind::CLASS_DEF_ITEM).1) + 32 * u64::from(i)
}

/// Word j of row i.
#[tactic(auto, unfolding(crate::specs::ClassRows::class_word))]
pub fn class_word(sections: &Sections<'_>, i: u32, j: u32) -> u32
    requires row { i < size_of sections.now section.class_defs }
    requires word { j < 8 }
    ensures { result ≡ class_word sections.now i j }
{
    let place = class_place(sections, i);
    u32_at(sections.bytes(), place as usize + 4 * j as usize)
}

/// The type at an index; None past the last row.
fn type_at<'a>(sections: &Sections<'_>, tables: &Tables<'a>, index: u32) -> Option<Desc<'a>>
    requires { AreNamesOf sections.now tables.now }
    ensures some { IfSome result (λ t. TypeStands sections.now index (desc t)) }
    ensures none { IfNone result (size_of sections.now section.type_ids ≤ index) }
{
    // By cases: what stands there is proved of one row, and none past the last.
    match tables.type_(index) {
        Some(ty) => Some(ty),
        None => None,
    }
}

/// The type at an index, or none for `NO_INDEX`; None past the last row.
fn type_or_none<'a>(
    sections: &Sections<'_>,
    tables: &Tables<'a>,
    index: u32,
) -> Option<Option<Desc<'a>>>
    requires { AreNamesOf sections.now tables.now }
    ensures some { IfSome result (λ t. IndexOrNone (TypeStands sections.now) index (option_map desc t)) }
    ensures none { IfNone result ((index ≢ no_index) × (size_of sections.now section.type_ids ≤ index)) }
{
    if index == word::NO_INDEX {
        return Some(None);
    }
    match type_at(sections, tables, index) {
        Some(ty) => Some(Some(ty)),
        None => None,
    }
}

/// The string at an index, or none for `NO_INDEX`; None past the last row.
fn string_or_none<'a>(
    sections: &Sections<'_>,
    tables: &Tables<'a>,
    index: u32,
) -> Option<Option<Str<'a>>>
    requires { AreNamesOf sections.now tables.now }
    ensures some { IfSome result (λ s. IndexOrNone (StringStands sections.now) index (option_map str s)) }
    ensures none { IfNone result ((index ≢ no_index) × (size_of sections.now section.string_ids ≤ index)) }
{
    if index == word::NO_INDEX {
        return Some(None);
    }
    match tables.string(index) {
        Some(text) => Some(Some(text)),
        None => None,
    }
}

/// Whether a superclass, where there is one, is a class type.
fn is_class_or_none(superclass: Option<Desc<'_>>) -> bool
    ensures { IsTrue result ↔ IfSome (option_map desc superclass.entry) IsClass }
{
    match superclass {
        Some(ty) => is_class_type(ty),
        None => true,
    }
}

/// The names and flags of row i.
#[tactic(auto, using(crate::proofs::RowFaults::class_index))]
pub(crate) fn read_row<'a>(
    sections: &Sections<'_>,
    tables: &Tables<'a>,
    i: u32,
) -> Result<ClassRow<'a>, Fault>
    requires names { AreNamesOf sections.now tables.now }
    requires row { i < size_of sections.now section.class_defs }
    ensures ok { IfOk result (λ r. RowIs sections.now i (desc r.ty) r.flags (option_map desc r.superclass) (option_map str r.source)) }
    ensures err { IfErr result (BreaksAt ClassRowBreaks sections.now section.class_defs i) }
{
    sections.framed();
    let place = class_place(sections, i);
    let Some(ty) = type_at(sections, tables, class_word(sections, i, word::CLASS_IDX)) else {
        return Err(Fault::at(fault::CLASS_INDEX, place));
    };
    let Some(superclass) = type_or_none(
        sections,
        tables,
        class_word(sections, i, word::SUPERCLASS_IDX),
    ) else {
        return Err(Fault::at(fault::CLASS_INDEX, place));
    };
    let Some(source) = string_or_none(
        sections,
        tables,
        class_word(sections, i, word::SOURCE_FILE_IDX),
    ) else {
        return Err(Fault::at(fault::CLASS_INDEX, place));
    };
    if !is_class_type(ty) {
        return Err(Fault::at(fault::CLASS_KIND, place));
    }
    if !is_class_or_none(superclass) {
        return Err(Fault::at(fault::CLASS_KIND, place));
    }
    let flags = class_word(sections, i, word::ACCESS_FLAGS);
    Ok(ClassRow {
        ty,
        flags,
        superclass,
        source,
    })
}
