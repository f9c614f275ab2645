//! The table string_ids: each row is the offset of a string_data_item ("string_id_item", "string_data_item").
ghost use Rattle.std.specs.Prelude.{◌≢◌, ◌↔◌, ◌<◌, IfOk, IfErr, IsTrue, map};
ghost use Rattle.dex_base.specs.Fault.{memory};
ghost use Rattle.dex_container.specs.Layout.{size_of};
ghost use Rattle.dex_container.specs.Frame.{IsFramed};
ghost use Rattle.program_types.specs.View.{str};
ghost use Rattle.tables_rows.specs.Names.{AreRows};
ghost use Rattle.dex_container.specs.Where.{IsSectionOf};
ghost use Rattle.dex_container.specs.Section as section;
ghost use Rattle.tables_rows.specs.inner.Reading.{LastIsBelow, AreFirst};
ghost use Rattle.tables_rows.specs.Sorted.{AllRows};
ghost use Rattle.tables_rows.specs.Stands.{StringStands};
ghost use Rattle.tables_rows.specs.TableFaults.{StringHolds, StringBreaks, BreaksAt};
ghost use Rattle.tables_rows.specs.inner.TableFaults.{IsFirstRow};

use crate::row_fields::{string_place, string_row};
use bumpalo::Bump;
use bumpalo::collections::into_bump_slice;
use dex_base::{Fault, cmp_units, fault, read_mutf8};
use dex_container::{Section, Sections, bytes_from, kind, section_of};
use program_types::Str;
use std::alloc::Global;
use std::cmp::Ordering;

/// The strings of all rows, each above the row before by its units.
pub(crate) fn read_strings<'a>(
    alloc: Global,
    arena: &'a Bump,
    sections: &Sections<'_>,
) -> Result<&'a [Str<'a>], Fault>
    ensures framed { IsFramed sections.now }
    ensures rows { IfOk result (λ strings. AreRows StringStands sections.now section.string_ids (map str strings.now)) }
    ensures hold { IfOk result (λ _. AllRows StringHolds sections.now section.string_ids) }
    ensures err { IfErr result (λ e. e ≢ memory → IsFirstRow StringBreaks StringHolds sections.now section.string_ids e) }
{
    let (count, _) = sections.table(kind::STRING_ID_ITEM);
    let texts = section_of(sections, kind::STRING_DATA_ITEM);
    let mut strings: Vec<Str<'a>, &'a Bump> = Vec::with_capacity(arena, count as usize)?;
    for i in 0..count {
        let string = next_string(alloc, arena, sections, texts, &strings, i)?;
        strings.push(string)?;
    }
    Ok(into_bump_slice(strings))
}

/// The string of row i, which is above the last one before it.
fn next_string<'a>(
    alloc: Global,
    arena: &'a Bump,
    sections: &Sections<'_>,
    texts: Section,
    strings: &[Str<'a>],
    i: u32,
) -> Result<Str<'a>, Fault>
    requires section { IsSectionOf sections.now 0x2002 texts }
    requires row { i < size_of sections.now section.string_ids }
    requires framed { IsFramed sections.now }
    requires first { AreFirst StringStands StringHolds sections.now i (map str strings.now) }
    ensures ok { IfOk result (λ s. StringStands sections.now i (str s)) }
    ensures holds { IfOk result (λ _. StringHolds sections.now i) }
    ensures err { IfErr result (λ e. e ≢ memory → BreaksAt StringBreaks sections.now section.string_ids i e) }
{
    let string = read_string(alloc, arena, sections, texts, i)?;
    if !is_above_last(strings, string) {
        return Err(Fault::at(fault::STRING_ORDER, string_row(sections, i)));
    }
    Ok(string)
}

/// The string of row i.
#[tactic(auto, using(crate::proofs::ClearRows::string_unplaced))]
fn read_string<'a>(
    alloc: Global,
    arena: &'a Bump,
    sections: &Sections<'_>,
    texts: Section,
    i: u32,
) -> Result<Str<'a>, Fault>
    requires section { IsSectionOf sections.now 0x2002 texts }
    requires row { i < size_of sections.now section.string_ids }
    ensures ok { IfOk result (λ s. StringStands sections.now i (str s)) }
    ensures err { IfErr result (λ e. e ≢ memory → BreaksAt StringBreaks sections.now section.string_ids i e) }
{
    let place = string_place(sections, i);
    let row = string_row(sections, i);
    let Some(rest) = bytes_from(sections, kind::STRING_DATA_ITEM, texts, place) else {
        return Err(Fault::at(fault::STRING_PLACE, row));
    };
    match read_mutf8(alloc, arena, rest)? {
        Some((units, _)) => Ok(Str { units }),
        None => Err(Fault::at(fault::STRING_SPELLING, row)),
    }
}

/// Whether the string is above the last one.
fn is_above_last(strings: &[Str<'_>], next: Str<'_>) -> bool
    ensures { IsTrue result ↔ LastIsBelow (map str strings.now) (str next.entry) }
{
    match strings.last() {
        Some(last) => matches!(cmp_units(last.units, next.units), Ordering::Less),
        None => true,
    }
}
