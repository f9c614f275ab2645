//! The table type_ids: each row is the index of a string, a descriptor ("type_id_item").
ghost use Rattle.std.specs.Prelude.{◌≢◌, ◌↔◌, ◌<◌, IfOk, IfErr, IsTrue, map};
ghost use Rattle.dex_base.specs.Fault.{memory};
ghost use Rattle.dex_container.specs.Layout.{size_of};
ghost use Rattle.dex_container.specs.Section as section;
ghost use Rattle.program_types.specs.View.{str, desc};
ghost use Rattle.tables_rows.specs.Names.{AreRows};
ghost use Rattle.tables_rows.specs.Sorted.{RowRises, TypeIsBelow, AllRows};
ghost use Rattle.tables_rows.specs.Stands.{StringStands, TypeStands};
ghost use Rattle.tables_rows.specs.TableFaults.{TypeHolds, TypeBreaks, BreaksAt};
ghost use Rattle.tables_rows.specs.inner.TableFaults.{IsFirstRow};

use crate::look_up::string_at;
use crate::row_fields::{type_row, type_string};
use bumpalo::Bump;
use bumpalo::collections::into_bump_slice;
use dex_base::{Fault, fault, is_descriptor};
use dex_container::{Sections, kind};
use program_types::{Desc, Str};

/// The types of all rows, each above the row before by its string's index. A type holds its string's slice.
pub(crate) fn read_types<'a>(
    arena: &'a Bump,
    sections: &Sections<'_>,
    strings: &[Str<'a>],
) -> Result<&'a [Desc<'a>], Fault>
    requires strings { AreRows StringStands sections.now section.string_ids (map str strings.now) }
    ensures rows { IfOk result (λ types. AreRows TypeStands sections.now section.type_ids (map desc types.now)) }
    ensures hold { IfOk result (λ _. AllRows TypeHolds sections.now section.type_ids) }
    ensures err { IfErr result (λ e. e ≢ memory → IsFirstRow TypeBreaks TypeHolds sections.now section.type_ids e) }
{
    let (count, _) = sections.table(kind::TYPE_ID_ITEM);
    let mut types: Vec<Desc<'a>, &'a Bump> = Vec::with_capacity(arena, count as usize)?;
    for i in 0..count {
        let ty = next_type(sections, strings, i)?;
        types.push(ty)?;
    }
    Ok(into_bump_slice(types))
}

/// The type of row i, which is above the row before it.
#[tactic(auto, using(crate::proofs::ClearRows::type_order))]
fn next_type<'a>(sections: &Sections<'_>, strings: &[Str<'a>], i: u32) -> Result<Desc<'a>, Fault>
    requires strings { AreRows StringStands sections.now section.string_ids (map str strings.now) }
    requires row { i < size_of sections.now section.type_ids }
    ensures ok { IfOk result (λ t. TypeStands sections.now i (desc t)) }
    ensures holds { IfOk result (λ _. TypeHolds sections.now i) }
    ensures err { IfErr result (BreaksAt TypeBreaks sections.now section.type_ids i) }
{
    let ty = read_type(sections, strings, i)?;
    if !rises(sections, i) {
        return Err(Fault::at(fault::TYPE_ORDER, type_row(sections, i)));
    }
    Ok(ty)
}

/// The type of row i.
#[tactic(auto, using(crate::proofs::ClearRows::type_index))]
fn read_type<'a>(sections: &Sections<'_>, strings: &[Str<'a>], i: u32) -> Result<Desc<'a>, Fault>
    requires strings { AreRows StringStands sections.now section.string_ids (map str strings.now) }
    requires row { i < size_of sections.now section.type_ids }
    ensures ok { IfOk result (λ t. TypeStands sections.now i (desc t)) }
    ensures err { IfErr result (BreaksAt TypeBreaks sections.now section.type_ids i) }
{
    sections.framed();
    let row = type_row(sections, i);
    let Some(text) = string_at(sections, strings, type_string(sections, i)) else {
        return Err(Fault::at(fault::TYPE_INDEX, row));
    };
    if !is_descriptor(text.units) {
        return Err(Fault::at(fault::TYPE_TEXT, row));
    }
    Ok(Desc { text })
}

/// Whether row i is above the row before it.
fn rises(sections: &Sections<'_>, i: u32) -> bool
    requires { i < size_of sections.now section.type_ids }
    ensures { IsTrue result ↔ RowRises TypeIsBelow sections.now i }
{
    i == 0 || type_string(sections, i - 1) < type_string(sections, i)
}
