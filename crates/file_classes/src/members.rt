//! The fields and methods of a class, by their indices: faults 45 to 47.
ghost use Rattle.std.specs.Prelude.{◌≡◌, ◌≢◌, ◌<◌, ◌^◌, IfOk, IfErr, map};
ghost use Rattle.dex_base.specs.Fault.{memory};
ghost use Rattle.dex_container.specs.Layout.{size_of};
ghost use Rattle.dex_container.specs.Section as section;
ghost use Rattle.program_types.specs.View.{desc, field_ref, method_ref, member};
ghost use Rattle.tables_rows.specs.Names.{AreNamesOf};
ghost use Rattle.tables_rows.specs.RowFields.{row_place};
ghost use Rattle.tables_rows.specs.Stands.{TypeStands, FieldStands, MethodStands};
ghost use Rattle.file_classes.specs.ClassData.{steps, EntriesAre};
ghost use Rattle.file_classes.specs.Classes.{IsField};
ghost use Rattle.file_classes.specs.ClassFaults.{FieldOwner, MethodOwner};
ghost use Rattle.file_classes.specs.ClassRows.{class_idx};
ghost use Rattle.file_classes.specs.inner.Reading as numbers;
ghost use Rattle.file_classes.specs.inner.Reading.{MembersStand, field_entry, method_entry, IsBare, IndexFails, EntriesFail, MembersFail};

use crate::class_data::{Entries, FieldEntry, MethodEntry};
use crate::class_row::{class_place, class_word};
use crate::owners::is_member_of;
use crate::word;
use bumpalo::Bump;
use bumpalo::collections::into_bump_slice;
use dex_base::{Fault, fault};
use dex_container::{Sections, kind};
use program_types::{Desc, FieldRef, Member, MethodRef};
use tables_rows::{MemberTable, Tables};

/// A method before its code is read.
#[derive(Clone, Copy)]
pub struct Bare<'a> {
    pub method: &'a MethodRef<'a>,
    pub flags: u32,
    pub code: u32,
}

/// What a class defines.
#[derive(Clone, Copy)]
pub(crate) struct Members<'a, 's> {
    pub statics: &'a [Member<'a>],
    pub instances: &'a [Member<'a>],
    pub directs: &'s [Bare<'a>],
    pub virtuals: &'s [Bare<'a>],
}

/// The class whose members are read: the index of its type, its name, and the place of its row, which is that of their faults.
#[derive(Clone, Copy)]
struct Owner<'n> {
    row: u32,
    class: Desc<'n>,
    place: u64,
}

/// The field at an index, which is of this class.
#[tactic(auto, using(crate::proofs::MemberLaws::index_out))]
fn field_at<'a>(
    sections: &Sections<'_>,
    tables: &Tables<'a>,
    owner: Owner<'_>,
    index: u64,
) -> Result<&'a FieldRef<'a>, Fault>
    requires names { AreNamesOf sections.now tables.now }
    requires class { TypeStands sections.now owner.row (desc owner.class) }
    ensures stands { IfOk result (λ f. FieldStands sections.now index (field_ref f.now)) }
    ensures class { IfOk result (λ f. desc f.now.class ≡ desc owner.entry.class) }
    ensures small { IfOk result (λ _. index < 2 ^ 32) }
    ensures err { IfErr result (IndexFails (FieldOwner sections.now) (size_of sections.now section.field_ids) (desc owner.entry.class) index owner.entry.place) }
{
    sections.framed();
    let (count, _) = sections.table(kind::FIELD_ID_ITEM);
    if index >= u64::from(count) {
        return Err(Fault::at(fault::MEMBER_INDEX, owner.place));
    }
    let Some(field) = tables.field(index as u32) else {
        return Err(Fault::at(fault::MEMBER_INDEX, owner.place));
    };
    let (table, of) = (MemberTable::Fields, &field.class);
    if !is_member_of(sections, table, index as u32, of, owner.row, owner.class) {
        return Err(Fault::at(fault::MEMBER_OWNER, owner.place));
    }
    Ok(field)
}

/// The method at an index, which is of this class.
#[tactic(auto, using(crate::proofs::MemberLaws::index_out))]
fn method_at<'a>(
    sections: &Sections<'_>,
    tables: &Tables<'a>,
    owner: Owner<'_>,
    index: u64,
) -> Result<&'a MethodRef<'a>, Fault>
    requires names { AreNamesOf sections.now tables.now }
    requires class { TypeStands sections.now owner.row (desc owner.class) }
    ensures stands { IfOk result (λ m. MethodStands sections.now index (method_ref m.now)) }
    ensures class { IfOk result (λ m. desc m.now.class ≡ desc owner.entry.class) }
    ensures small { IfOk result (λ _. index < 2 ^ 32) }
    ensures err { IfErr result (IndexFails (MethodOwner sections.now) (size_of sections.now section.method_ids) (desc owner.entry.class) index owner.entry.place) }
{
    sections.framed();
    let (count, _) = sections.table(kind::METHOD_ID_ITEM);
    if index >= u64::from(count) {
        return Err(Fault::at(fault::MEMBER_INDEX, owner.place));
    }
    let Some(method) = tables.method(index as u32) else {
        return Err(Fault::at(fault::MEMBER_INDEX, owner.place));
    };
    let (table, of) = (MemberTable::Methods, &method.class);
    if !is_member_of(sections, table, index as u32, of, owner.row, owner.class) {
        return Err(Fault::at(fault::MEMBER_OWNER, owner.place));
    }
    Ok(method)
}

/// The fields of a list of entries, each of this class, in the arena. A fault is at the class row.
fn read_fields<'a>(
    arena: &'a Bump,
    sections: &Sections<'_>,
    tables: &Tables<'a>,
    owner: Owner<'_>,
    entries: &[FieldEntry],
) -> Result<&'a [Member<'a>], Fault>
    requires names { AreNamesOf sections.now tables.now }
    requires class { TypeStands sections.now owner.row (desc owner.class) }
    ensures ok { IfOk result (λ fields. EntriesAre (IsField sections.now (desc owner.entry.class)) (map field_entry entries.now) (map member fields.now)) }
    ensures err { IfErr result (λ e. e ≢ memory →
        EntriesFail (FieldOwner sections.now) (size_of sections.now section.field_ids) (desc owner.entry.class) (steps (map field_entry entries.now)) owner.entry.place e) }
{
    let mut fields: Vec<Member<'a>, &'a Bump> = Vec::with_capacity(arena, entries.len())?;
    let mut index: u64 = 0;
    for entry in entries {
        index += u64::from(entry.step);
        let field = field_at(sections, tables, owner, index)?;
        if entry.step == 0 && fields.len() > 0 {
            return Err(Fault::at(fault::MEMBER_ORDER, owner.place));
        }
        fields.push(Member {
            name: field.name,
            ty: field.ty,
            flags: entry.flags,
        })?;
    }
    Ok(into_bump_slice(fields))
}

/// The methods of a list of entries, each of this class. A fault is at the class row.
fn read_bares<'a, 's>(
    scratch: &'s Bump,
    sections: &Sections<'_>,
    tables: &Tables<'a>,
    owner: Owner<'_>,
    entries: &[MethodEntry],
) -> Result<&'s [Bare<'a>], Fault>
    requires names { AreNamesOf sections.now tables.now }
    requires class { TypeStands sections.now owner.row (desc owner.class) }
    ensures ok { IfOk result (λ bares. EntriesAre (IsBare sections.now (desc owner.entry.class)) (map method_entry entries.now) bares.now) }
    ensures err { IfErr result (λ e. e ≢ memory →
        EntriesFail (MethodOwner sections.now) (size_of sections.now section.method_ids) (desc owner.entry.class) (steps (map method_entry entries.now)) owner.entry.place e) }
{
    let mut bares: Vec<Bare<'a>, &'s Bump> = Vec::with_capacity(scratch, entries.len())?;
    let mut index: u64 = 0;
    for entry in entries {
        index += u64::from(entry.step);
        let method = method_at(sections, tables, owner, index)?;
        if entry.step == 0 && bares.len() > 0 {
            return Err(Fault::at(fault::MEMBER_ORDER, owner.place));
        }
        bares.push(Bare {
            method,
            flags: entry.flags,
            code: entry.code,
        })?;
    }
    Ok(into_bump_slice(bares))
}

/// The members of the class of row i, by its entries.
pub(crate) fn read_members<'a, 's>(
    arena: &'a Bump,
    scratch: &'s Bump,
    sections: &Sections<'_>,
    tables: &Tables<'a>,
    i: u32,
    class: Desc<'_>,
    entries: &Entries,
) -> Result<Members<'a, 's>, Fault>
    requires names { AreNamesOf sections.now tables.now }
    requires row { i < size_of sections.now section.class_defs }
    requires class { TypeStands sections.now (class_idx sections.now i) (desc class) }
    ensures ok { IfOk result (MembersStand sections.now (desc class.entry) (numbers.entries entries.now)) }
    ensures err { IfErr result (λ e. e ≢ memory → MembersFail sections.now (desc class.entry) (numbers.entries entries.now) (row_place sections.now section.class_defs i) e) }
{
    let owner = Owner {
        row: class_word(sections, i, word::CLASS_IDX),
        class,
        place: class_place(sections, i),
    };
    let statics = read_fields(arena, sections, tables, owner, &entries.statics)?;
    let instances = read_fields(arena, sections, tables, owner, &entries.instances)?;
    let directs = read_bares(scratch, sections, tables, owner, &entries.directs)?;
    let virtuals = read_bares(scratch, sections, tables, owner, &entries.virtuals)?;
    Ok(Members {
        statics,
        instances,
        directs,
        virtuals,
    })
}
