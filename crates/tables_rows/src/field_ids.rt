//! The table field_ids: each row has a class, a type and a name ("field_id_item").
ghost use Rattle.std.specs.Prelude.{◌≢◌, ◌<◌, IfOk, IfErr, map};
ghost use Rattle.dex_base.specs.Fault.{memory};
ghost use Rattle.dex_container.specs.Layout.{size_of};
ghost use Rattle.dex_container.specs.Section as section;
ghost use Rattle.program_types.specs.View.{str, desc, field_ref};
ghost use Rattle.tables_rows.specs.Names.{AreRows};
ghost use Rattle.tables_rows.specs.inner.Reading.{AreNameMarks};
ghost use Rattle.tables_rows.specs.Sorted.{AllRows};
ghost use Rattle.tables_rows.specs.Stands.{StringStands, TypeStands, FieldStands};
ghost use Rattle.tables_rows.specs.TableFaults.{FieldHolds, FieldBreaks, BreaksAt};
ghost use Rattle.tables_rows.specs.inner.TableFaults.{IsFirstRow};

use crate::kinds::is_class_row;
use crate::look_up::{string_at, type_at};
use crate::members::rises;
use crate::names::is_marked;
use crate::row_fields::{MemberTable, member_class, member_kind, member_name, member_row};
use bumpalo::Bump;
use bumpalo::collections::into_bump_slice;
use dex_base::{Fault, fault};
use dex_container::{Sections, kind};
use program_types::{Desc, FieldRef, Str, is_void};

const TABLE: MemberTable = MemberTable::Fields;

/// The fields of all rows, each above the row before by the indices of class, name and type. A field holds its types' and its name's slices.
pub(crate) fn read_fields<'a>(
    arena: &'a Bump,
    sections: &Sections<'_>,
    strings: &[Str<'a>],
    names: &[bool],
    types: &[Desc<'a>],
) -> Result<&'a [FieldRef<'a>], Fault>
    requires strings { AreRows StringStands sections.now section.string_ids (map str strings.now) }
    requires names { AreNameMarks (map str strings.now) names.now }
    requires types { AreRows TypeStands sections.now section.type_ids (map desc types.now) }
    ensures rows { IfOk result (λ fields. AreRows FieldStands sections.now section.field_ids (map field_ref fields.now)) }
    ensures hold { IfOk result (λ _. AllRows FieldHolds sections.now section.field_ids) }
    ensures err { IfErr result (λ e. e ≢ memory → IsFirstRow FieldBreaks FieldHolds sections.now section.field_ids e) }
{
    let (count, _) = sections.table(kind::FIELD_ID_ITEM);
    let mut fields: Vec<FieldRef<'a>, &'a Bump> = Vec::with_capacity(arena, count as usize)?;
    for i in 0..count {
        let field = next_field(sections, strings, names, types, i)?;
        fields.push(field)?;
    }
    Ok(into_bump_slice(fields))
}

/// The field of row i, which is above the row before it.
fn next_field<'a>(
    sections: &Sections<'_>,
    strings: &[Str<'a>],
    names: &[bool],
    types: &[Desc<'a>],
    i: u32,
) -> Result<FieldRef<'a>, Fault>
    requires strings { AreRows StringStands sections.now section.string_ids (map str strings.now) }
    requires names { AreNameMarks (map str strings.now) names.now }
    requires types { AreRows TypeStands sections.now section.type_ids (map desc types.now) }
    requires row { i < size_of sections.now section.field_ids }
    ensures ok { IfOk result (λ f. FieldStands sections.now i (field_ref f)) }
    ensures holds { IfOk result (λ _. FieldHolds sections.now i) }
    ensures err { IfErr result (BreaksAt FieldBreaks sections.now section.field_ids i) }
{
    let field = read_field(sections, strings, names, types, i)?;
    if !rises(sections, TABLE, i) {
        return Err(Fault::at(fault::FIELD_ORDER, member_row(sections, TABLE, i)));
    }
    Ok(field)
}

/// The field of row i.
#[tactic(auto, using(crate::proofs::ClearRows::field_index))]
fn read_field<'a>(
    sections: &Sections<'_>,
    strings: &[Str<'a>],
    names: &[bool],
    types: &[Desc<'a>],
    i: u32,
) -> Result<FieldRef<'a>, Fault>
    requires strings { AreRows StringStands sections.now section.string_ids (map str strings.now) }
    requires names { AreNameMarks (map str strings.now) names.now }
    requires types { AreRows TypeStands sections.now section.type_ids (map desc types.now) }
    requires row { i < size_of sections.now section.field_ids }
    ensures ok { IfOk result (λ f. FieldStands sections.now i (field_ref f)) }
    ensures err { IfErr result (BreaksAt FieldBreaks sections.now section.field_ids i) }
{
    sections.framed();
    let row = member_row(sections, TABLE, i);
    let missing = Fault::at(fault::FIELD_INDEX, row);
    let unfit = Fault::at(fault::FIELD_KIND, row);
    let Some(class) = type_at(sections, types, u32::from(member_class(sections, TABLE, i))) else {
        return Err(missing);
    };
    let Some(ty) = type_at(sections, types, u32::from(member_kind(sections, TABLE, i))) else {
        return Err(missing);
    };
    let index = member_name(sections, TABLE, i);
    let Some(name) = string_at(sections, strings, index) else {
        return Err(missing);
    };
    if !is_class_row(class) {
        return Err(unfit);
    }
    if is_void(ty) {
        return Err(unfit);
    }
    if !is_marked(names, index) {
        return Err(unfit);
    }
    Ok(FieldRef { class, name, ty })
}
