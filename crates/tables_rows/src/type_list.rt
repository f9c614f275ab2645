//! Lists of types, as parameters and interfaces have them ("type_list").
ghost use Rattle.std.specs.Prelude.{◌≡◌, ◌*◌, ◌+◌, ◌<◌, ℕ, List, IfOk, IfSome, IfNone, length, map};
ghost use Rattle.std.specs.Cmp.Lexicographic.{slice_cmp};
ghost use Rattle.std.specs.Ordering.{nat_cmp};
ghost use Rattle.dex_base.specs.Grammar.{Begins, NoneBegins};
ghost use Rattle.dex_container.specs.Frame.{IsFramed};
ghost use Rattle.program_types.specs.View.{desc};
ghost use Rattle.tables_rows.specs.inner.Halves.{halves};
ghost use Rattle.tables_rows.specs.Names.{TypeIsAt};
ghost use Rattle.dex_container.specs.Where.{IsSectionOf, At, AtOrNone};
ghost use Rattle.tables_rows.specs.Stands.{ListAt, SpellsIndexes};

use crate::look_up::type_in;
use bumpalo::Bump;
use bumpalo::collections::into_bump_slice;
use dex_base::{u16_at, u32_at};
use dex_container::{Section, Sections, bytes_from, kind};
use program_types::Desc;
use std::alloc::AllocError;
use std::cmp::Ordering;

/// The indices of the type_list at the front of these bytes, two bytes each.
fn spelled_indexes(bytes: &[u8]) -> Option<&[u8]>
    ensures some { IfSome result (λ indexes. Begins SpellsIndexes bytes.now (halves indexes.now) (4 + length indexes.now)) }
    ensures even { IfSome result (λ indexes. length indexes.now ≡ 2 * length (halves indexes.now)) }
    ensures none { IfNone result (NoneBegins SpellsIndexes bytes.now) }
{
    if bytes.len() < 4 {
        return None;
    }
    let count = u32_at(bytes, 0) as usize;
    if (bytes.len() - 4) / 2 < count {
        return None;
    }
    Some(&bytes[4..4 + 2 * count])
}

/// The indices of the type_list at an offset.
fn indexes_at<'b>(sections: &Sections<'b>, lists: Section, off: u32) -> Option<&'b [u8]>
    requires section { IsSectionOf sections.now 0x1001 lists }
    ensures some { IfSome result (λ bytes. At SpellsIndexes sections.now 0x1001 4 off (halves bytes.now)) }
    ensures even { IfSome result (λ bytes. length bytes.now ≡ 2 * length (halves bytes.now)) }
    ensures none { IfNone result ((indexes : List ℕ) → ¬ At SpellsIndexes sections.now 0x1001 4 off indexes) }
{
    let Some(rest) = bytes_from(sections, kind::TYPE_LIST, lists, off) else {
        return None;
    };
    if off % 4 != 0 {
        return None;
    }
    spelled_indexes(rest)
}

/// The indices of the type_list at an offset; offset 0 is the empty list.
pub fn indexes_or_none<'b>(sections: &Sections<'b>, lists: Section, off: u32) -> Option<&'b [u8]>
    requires section { IsSectionOf sections.now 0x1001 lists }
    ensures some { IfSome result (λ bytes. AtOrNone SpellsIndexes sections.now 0x1001 4 off (halves bytes.now)) }
    ensures even { IfSome result (λ bytes. length bytes.now ≡ 2 * length (halves bytes.now)) }
    ensures none { IfNone result ((indexes : List ℕ) → ¬ AtOrNone SpellsIndexes sections.now 0x1001 4 off indexes) }
{
    if off == 0 {
        return Some(&[]);
    }
    indexes_at(sections, lists, off)
}

/// The types of the list at an offset, 0 for the empty list, in the arena; each index denotes one of `types`. `None` if no list is
/// there, or an index has no type.
pub(crate) fn types_at<'a>(
    arena: &'a Bump,
    sections: &Sections<'_>,
    lists: Section,
    types: &[Desc<'a>],
    off: u32,
) -> Result<Option<&'a [Desc<'a>]>, AllocError>
    requires section { IsSectionOf sections.now 0x1001 lists }
    requires framed { IsFramed sections.now }
    ensures found { IfOk result (λ r. IfSome r (λ list. ListAt (TypeIsAt (map desc types.now)) sections.now off (map desc list.now))) }
    ensures none { IfOk result (λ r. IfNone r ((ts : _) → ¬ ListAt (TypeIsAt (map desc types.now)) sections.now off ts)) }
{
    let Some(indexes) = indexes_or_none(sections, lists, off) else {
        return Ok(None);
    };
    let count = indexes.len() / 2;
    let mut list: Vec<Desc<'a>, &'a Bump> = Vec::with_capacity(arena, count)?;
    for j in 0..count {
        let Some(ty) = type_in(types, u32::from(u16_at(indexes, 2 * j))) else {
            return Ok(None);
        };
        list.push(ty)?;
    }
    Ok(Some(into_bump_slice(list)))
}

/// The order of two lists of indices, two bytes each.
pub(crate) fn cmp_indexes(a: &[u8], b: &[u8]) -> Ordering
    requires a { length a.now ≡ 2 * length (halves a.now) }
    requires b { length b.now ≡ 2 * length (halves b.now) }
    ensures { result ≡ slice_cmp nat_cmp (halves a.now) (halves b.now) }
{
    let (m, n) = (a.len() / 2, b.len() / 2);
    for i in 0..m.min(n) {
        match u16_at(a, 2 * i).cmp(&u16_at(b, 2 * i)) {
            Ordering::Equal => {}
            unequal => return unequal,
        }
    }
    m.cmp(&n)
}
