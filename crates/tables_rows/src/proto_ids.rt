//! The table proto_ids: each row has a shorty, a return type and a list of parameters ("proto_id_item").
ghost use Rattle.std.specs.Prelude.{◌≡◌, ◌≢◌, ◌↔◌, ◌<◌, ◌*◌, ◌∷◌, IfOk, IfErr, IfSome, IfNone, IsTrue, OnOk, length, map};
ghost use Rattle.std.specs.Cmp.Lexicographic.{slice_cmp};
ghost use Rattle.std.specs.Ordering.{nat_cmp};
ghost use Rattle.dex_base.specs.Fault.{memory};
ghost use Rattle.dex_container.specs.Frame.{IsFramed};
ghost use Rattle.dex_container.specs.Layout.{size_of};
ghost use Rattle.program_types.specs.View.{str, desc, proto};
ghost use Rattle.program_types.specs.Shorty.{shorty};
ghost use Rattle.tables_rows.specs.inner.Halves.{halves};
ghost use Rattle.tables_rows.specs.inner.Cached.{AreCached};
ghost use Rattle.tables_rows.specs.inner.Known.{IsKnown};
ghost use Rattle.tables_rows.specs.Names.{AreRows};
ghost use Rattle.dex_container.specs.Where.{IsSectionOf};
ghost use Rattle.dex_container.specs.Section as section;
ghost use Rattle.tables_rows.specs.Sorted.{RowRises, ProtoIsBelow, AllRows};
ghost use Rattle.tables_rows.specs.Stands.{StringStands, TypeStands, ProtoStands};
ghost use Rattle.tables_rows.specs.TableFaults.{ProtoHolds, ProtoBreaks, ParametersAt, BreaksAt};
ghost use Rattle.tables_rows.specs.inner.TableFaults.{IsFirstRow};

use crate::look_up::{string_at, type_at};
use crate::row_fields::{proto_parameters, proto_return, proto_row, proto_shorty};
use crate::type_list::{cmp_indexes, indexes_or_none, types_at};
use bumpalo::Bump;
use bumpalo::collections::into_bump_slice;
use dex_base::{Fault, fault};
use dex_container::{Section, Sections, kind, section_of};
use program_types::{Desc, Proto, Str, is_void, letter};
use std::alloc::{AllocError, Global};
use std::cmp::Ordering;
use std::collections::HashMap;

/// What is cached for a list of parameters: its types, and the letter of the return type and the row of the shorty of a row that has them.
/// Another row with these three has the right shorty too, so that its letters needn't be compared with the types.
#[derive(Clone, Copy)]
struct Known<'a> {
    params: &'a [Desc<'a>],
    letter: u16,
    shorty: u32,
}

/// The protos of all rows, each above the row before by the indices of return type and parameters. A proto holds its
/// types' slices.
pub(crate) fn read_protos<'a>(
    alloc: Global,
    arena: &'a Bump,
    sections: &Sections<'_>,
    strings: &[Str<'a>],
    types: &[Desc<'a>],
) -> Result<&'a [Proto<'a>], Fault>
    requires strings { AreRows StringStands sections.now section.string_ids (map str strings.now) }
    requires types { AreRows TypeStands sections.now section.type_ids (map desc types.now) }
    ensures rows { IfOk result (λ protos. AreRows ProtoStands sections.now section.proto_ids (map proto protos.now)) }
    ensures hold { IfOk result (λ _. AllRows ProtoHolds sections.now section.proto_ids) }
    ensures err { IfErr result (λ e. e ≢ memory → IsFirstRow ProtoBreaks ProtoHolds sections.now section.proto_ids e) }
{
    let (count, _) = sections.table(kind::PROTO_ID_ITEM);
    let lists = section_of(sections, kind::TYPE_LIST);
    let mut cached = HashMap::new(alloc);
    let mut protos: Vec<Proto<'a>, &'a Bump> = Vec::with_capacity(arena, count as usize)?;
    for i in 0..count {
        let proto = next_proto(arena, sections, lists, strings, types, &mut cached, i)?;
        protos.push(proto)?;
    }
    Ok(into_bump_slice(protos))
}

/// The proto of row i, which is above the row before it.
fn next_proto<'a>(
    arena: &'a Bump,
    sections: &Sections<'_>,
    lists: Section,
    strings: &[Str<'a>],
    types: &[Desc<'a>],
    cached: &mut HashMap<u32, Known<'a>>,
    i: u32,
) -> Result<Proto<'a>, Fault>
    requires framed { IsFramed sections.now }
    requires section { IsSectionOf sections.now 0x1001 lists }
    requires strings { AreRows StringStands sections.now section.string_ids (map str strings.now) }
    requires types { AreRows TypeStands sections.now section.type_ids (map desc types.now) }
    requires cached { AreCached (IsKnown sections.now) cached.old }
    requires row { i < size_of sections.now section.proto_ids }
    ensures ok { IfOk result (λ p. ProtoStands sections.now i (proto p)) }
    ensures cached { OnOk result (AreCached (IsKnown sections.now) cached.new) }
    ensures holds { IfOk result (λ _. ProtoHolds sections.now i) }
    ensures err { IfErr result (λ e. e ≢ memory → BreaksAt ProtoBreaks sections.now section.proto_ids i e) }
{
    let proto = read_proto(arena, sections, lists, strings, types, cached, i)?;
    if !rises(sections, lists, i) {
        return Err(Fault::at(fault::PROTO_ORDER, proto_row(sections, i)));
    }
    Ok(proto)
}

/// The proto of row i.
#[tactic(auto, using(crate::proofs::ClearRows::proto_index))]
fn read_proto<'a>(
    arena: &'a Bump,
    sections: &Sections<'_>,
    lists: Section,
    strings: &[Str<'a>],
    types: &[Desc<'a>],
    cached: &mut HashMap<u32, Known<'a>>,
    i: u32,
) -> Result<Proto<'a>, Fault>
    requires framed { IsFramed sections.now }
    requires section { IsSectionOf sections.now 0x1001 lists }
    requires strings { AreRows StringStands sections.now section.string_ids (map str strings.now) }
    requires types { AreRows TypeStands sections.now section.type_ids (map desc types.now) }
    requires cached { AreCached (IsKnown sections.now) cached.old }
    requires row { i < size_of sections.now section.proto_ids }
    ensures ok { IfOk result (λ p. ProtoStands sections.now i (proto p)) }
    ensures cached { OnOk result (AreCached (IsKnown sections.now) cached.new) }
    ensures err { IfErr result (λ e. e ≢ memory → BreaksAt ProtoBreaks sections.now section.proto_ids i e) }
{
    let row = proto_row(sections, i);
    let shorty = proto_shorty(sections, i);
    let Some(text) = string_at(sections, strings, shorty) else {
        return Err(Fault::at(fault::PROTO_INDEX, row));
    };
    let Some(ret) = type_at(sections, types, proto_return(sections, i)) else {
        return Err(Fault::at(fault::PROTO_INDEX, row));
    };
    let off = proto_parameters(sections, i);
    let Some(known) = parameters_at(arena, sections, lists, types, cached, off)? else {
        return Err(Fault::at(fault::PARAMETER_LIST, row));
    };
    let params = known.params;
    let first = letter(ret);
    if known.letter == first && known.shorty == shorty {
        return Ok(Proto { ret, params });
    }
    if !is_shorty(text, ret, params) {
        return Err(Fault::at(fault::SHORTY, row));
    }
    cached.insert(
        off,
        Known {
            params,
            letter: first,
            shorty,
        },
    )?;
    Ok(Proto { ret, params })
}

/// The parameters of the list at an offset, none of them void.
fn read_parameters<'a>(
    arena: &'a Bump,
    sections: &Sections<'_>,
    lists: Section,
    types: &[Desc<'a>],
    off: u32,
) -> Result<Option<&'a [Desc<'a>]>, AllocError>
    requires framed { IsFramed sections.now }
    requires section { IsSectionOf sections.now 0x1001 lists }
    requires types { AreRows TypeStands sections.now section.type_ids (map desc types.now) }
    ensures found { IfOk result (λ r. IfSome r (λ params. ParametersAt sections.now off (map desc params.now))) }
    ensures none { IfOk result (λ r. IfNone r ((ts : _) → ¬ ParametersAt sections.now off ts)) }
{
    let Some(params) = types_at(arena, sections, lists, types, off)? else {
        return Ok(None);
    };
    for param in params {
        if is_void(*param) {
            return Ok(None);
        }
    }
    Ok(Some(params))
}

/// The parameters of the list at an offset, none of them void, with what is known of the list: what is cached for the
/// offset, or the list that is read now.
fn parameters_at<'a>(
    arena: &'a Bump,
    sections: &Sections<'_>,
    lists: Section,
    types: &[Desc<'a>],
    cached: &HashMap<u32, Known<'a>>,
    off: u32,
) -> Result<Option<Known<'a>>, AllocError>
    requires framed { IsFramed sections.now }
    requires section { IsSectionOf sections.now 0x1001 lists }
    requires types { AreRows TypeStands sections.now section.type_ids (map desc types.now) }
    requires cached { AreCached (IsKnown sections.now) cached.now }
    ensures found { IfOk result (λ r. IfSome r (λ known. IsKnown sections.now off known)) }
    ensures none { IfOk result (λ r. IfNone r ((ts : _) → ¬ ParametersAt sections.now off ts)) }
{
    if let Some(known) = cached.get(&off) {
        return Ok(Some(*known));
    }
    let Some(params) = read_parameters(arena, sections, lists, types, off)? else {
        return Ok(None);
    };
    // (no row of string_ids: that after the last one)
    let (shorty, _) = sections.table(kind::STRING_ID_ITEM);
    Ok(Some(Known {
        params,
        letter: 0,
        shorty,
    }))
}

/// Whether the text is the shorty of these types.
fn is_shorty(text: Str<'_>, ret: Desc<'_>, params: &[Desc<'_>]) -> bool
    ensures { IsTrue result ↔ (str text.entry ≡ shorty (record { ret = desc ret.entry; params = map desc params.now })) }
{
    let units = text.units;
    if units.len() == 0 {
        return false;
    }
    if units[0] != letter(ret) {
        return false;
    }
    if units.len() - 1 != params.len() {
        return false;
    }
    for i in 0..params.len() {
        if units[i + 1] != letter(params[i]) {
            return false;
        }
    }
    true
}

/// Whether row i is above the row before it.
fn rises(sections: &Sections<'_>, lists: Section, i: u32) -> bool
    requires framed { IsFramed sections.now }
    requires section { IsSectionOf sections.now 0x1001 lists }
    requires row { i < size_of sections.now section.proto_ids }
    ensures { IsTrue result ↔ RowRises ProtoIsBelow sections.now i }
{
    i == 0 || is_below(sections, lists, i - 1, i)
}

/// The order of two rows: by return type, and only where that is the same by parameters.
fn cmp_keys(first: u32, second: u32, a: &[u8], b: &[u8]) -> Ordering
    requires a { length a.now ≡ 2 * length (halves a.now) }
    requires b { length b.now ≡ 2 * length (halves b.now) }
    ensures { result ≡ slice_cmp nat_cmp (first ∷ halves a.now) (second ∷ halves b.now) }
{
    match first.cmp(&second) {
        Ordering::Equal => cmp_indexes(a, b),
        unequal => unequal,
    }
}

/// Whether row i is below row j.
fn is_below(sections: &Sections<'_>, lists: Section, i: u32, j: u32) -> bool
    requires framed { IsFramed sections.now }
    requires section { IsSectionOf sections.now 0x1001 lists }
    requires i { i < size_of sections.now section.proto_ids }
    requires j { j < size_of sections.now section.proto_ids }
    ensures { IsTrue result ↔ ProtoIsBelow sections.now i j }
{
    let (first, second) = (proto_return(sections, i), proto_return(sections, j));
    let Some(a) = indexes_or_none(sections, lists, proto_parameters(sections, i)) else {
        return true;
    };
    let Some(b) = indexes_or_none(sections, lists, proto_parameters(sections, j)) else {
        return true;
    };
    matches!(cmp_keys(first, second, a, b), Ordering::Less)
}
