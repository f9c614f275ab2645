//! The table method_ids: each row has a class, a proto and a name ("method_id_item").
ghost use Rattle.std.specs.Prelude.{◌≢◌, ◌<◌, IfOk, IfErr, map};
ghost use Rattle.dex_base.specs.Fault.{memory};
ghost use Rattle.dex_container.specs.Layout.{size_of};
ghost use Rattle.dex_container.specs.Section as section;
ghost use Rattle.program_types.specs.View.{str, desc, proto, method_ref};
ghost use Rattle.tables_rows.specs.Names.{AreRows};
ghost use Rattle.tables_rows.specs.inner.Reading.{AreNameMarks};
ghost use Rattle.tables_rows.specs.Sorted.{AllRows};
ghost use Rattle.tables_rows.specs.Stands.{StringStands, TypeStands, ProtoStands, MethodStands};
ghost use Rattle.tables_rows.specs.TableFaults.{MethodHolds, MethodBreaks, BreaksAt};
ghost use Rattle.tables_rows.specs.inner.TableFaults.{IsFirstRow};

use crate::kinds::is_class_or_array_row;
use crate::look_up::{proto_at, string_at, type_at};
use crate::members::rises;
use crate::names::is_marked;
use crate::row_fields::{MemberTable, member_class, member_kind, member_name, member_row};
use bumpalo::Bump;
use bumpalo::collections::into_bump_slice;
use dex_base::{Fault, fault};
use dex_container::{Sections, kind};
use program_types::{Desc, MethodRef, Proto, Str};

const TABLE: MemberTable = MemberTable::Methods;

/// The methods of all rows, each above the row before by the indices of class, name and proto. A method holds its
/// proto by reference.
pub(crate) fn read_methods<'a>(
    arena: &'a Bump,
    sections: &Sections<'_>,
    strings: &[Str<'a>],
    names: &[bool],
    types: &[Desc<'a>],
    protos: &'a [Proto<'a>],
) -> Result<&'a [MethodRef<'a>], Fault>
    requires strings { AreRows StringStands sections.now section.string_ids (map str strings.now) }
    requires names { AreNameMarks (map str strings.now) names.now }
    requires types { AreRows TypeStands sections.now section.type_ids (map desc types.now) }
    requires protos { AreRows ProtoStands sections.now section.proto_ids (map proto protos.now) }
    ensures rows { IfOk result (λ methods. AreRows MethodStands sections.now section.method_ids (map method_ref methods.now)) }
    ensures hold { IfOk result (λ _. AllRows MethodHolds sections.now section.method_ids) }
    ensures err { IfErr result (λ e. e ≢ memory → IsFirstRow MethodBreaks MethodHolds sections.now section.method_ids e) }
{
    let (count, _) = sections.table(kind::METHOD_ID_ITEM);
    let mut methods: Vec<MethodRef<'a>, &'a Bump> = Vec::with_capacity(arena, count as usize)?;
    for i in 0..count {
        let method = next_method(sections, strings, names, types, protos, i)?;
        methods.push(method)?;
    }
    Ok(into_bump_slice(methods))
}

/// The method of row i, which is above the row before it.
fn next_method<'a>(
    sections: &Sections<'_>,
    strings: &[Str<'a>],
    names: &[bool],
    types: &[Desc<'a>],
    protos: &'a [Proto<'a>],
    i: u32,
) -> Result<MethodRef<'a>, Fault>
    requires strings { AreRows StringStands sections.now section.string_ids (map str strings.now) }
    requires names { AreNameMarks (map str strings.now) names.now }
    requires types { AreRows TypeStands sections.now section.type_ids (map desc types.now) }
    requires protos { AreRows ProtoStands sections.now section.proto_ids (map proto protos.now) }
    requires row { i < size_of sections.now section.method_ids }
    ensures ok { IfOk result (λ f. MethodStands sections.now i (method_ref f)) }
    ensures holds { IfOk result (λ _. MethodHolds sections.now i) }
    ensures err { IfErr result (BreaksAt MethodBreaks sections.now section.method_ids i) }
{
    let method = read_method(sections, strings, names, types, protos, i)?;
    if !rises(sections, TABLE, i) {
        return Err(Fault::at(fault::METHOD_ORDER, member_row(sections, TABLE, i)));
    }
    Ok(method)
}

/// The method of row i.
#[tactic(auto, using(crate::proofs::ClearRows::method_index))]
fn read_method<'a>(
    sections: &Sections<'_>,
    strings: &[Str<'a>],
    names: &[bool],
    types: &[Desc<'a>],
    protos: &'a [Proto<'a>],
    i: u32,
) -> Result<MethodRef<'a>, Fault>
    requires strings { AreRows StringStands sections.now section.string_ids (map str strings.now) }
    requires names { AreNameMarks (map str strings.now) names.now }
    requires types { AreRows TypeStands sections.now section.type_ids (map desc types.now) }
    requires protos { AreRows ProtoStands sections.now section.proto_ids (map proto protos.now) }
    requires row { i < size_of sections.now section.method_ids }
    ensures ok { IfOk result (λ f. MethodStands sections.now i (method_ref f)) }
    ensures err { IfErr result (BreaksAt MethodBreaks sections.now section.method_ids i) }
{
    sections.framed();
    let row = member_row(sections, TABLE, i);
    let missing = Fault::at(fault::METHOD_INDEX, row);
    let unfit = Fault::at(fault::METHOD_KIND, row);
    let Some(class) = type_at(sections, types, u32::from(member_class(sections, TABLE, i))) else {
        return Err(missing);
    };
    let Some(proto) = proto_at(sections, protos, u32::from(member_kind(sections, TABLE, i))) else {
        return Err(missing);
    };
    let index = member_name(sections, TABLE, i);
    let Some(name) = string_at(sections, strings, index) else {
        return Err(missing);
    };
    if !is_class_or_array_row(class) {
        return Err(unfit);
    }
    if !is_marked(names, index) {
        return Err(unfit);
    }
    Ok(MethodRef { class, name, proto })
}
