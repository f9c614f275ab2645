//! The instructions of a code: what they name, and what they are with other indices.
ghost use Rattle.std.specs.Prelude.{◌≡◌, ◌<◌, ◌≤◌, ◌%◌, ◌++◌, ℕ, ℤ, List, Option, map, length, IfOk, OnOk, IsOkUnless};
ghost use Rattle.std.specs.List.{AllByRecursion, flat_map};
ghost use Rattle.dex_base.specs.Fault.{memory};
ghost use Rattle.dex_insn.specs.Raw.{Raw};
ghost use Rattle.dex_insn.specs.Written.{IsRaw};
ghost use Rattle.program_types.specs.Content.{Insn};
ghost use Rattle.program_types.specs.Mentions.{names_of_insn};
ghost use Rattle.tables_rows.specs.Stands.{NameStands};
ghost use Rattle.file_renumber.specs.inner.Marked.{HasMarks, AddsNames};
ghost use Rattle.code_read.specs.Symbols.{Resolves};
ghost use Rattle.code_read.specs.Walk.{Walks};
ghost use Rattle.code_read.specs.inner.Walk.{IsTable};
ghost use Rattle.code_read.specs.Linked.{SpellsInsns};
ghost use Rattle.code_write.specs.Packs.{joined};
ghost use Rattle.file_renumber.specs.inner.Renumbered.{renumbered, CanBeRenumbered};
ghost use Rattle.file_renumber.specs.inner.Shapes.{IsOfShape};

use crate::in_place::renumber_front;
use crate::marks::Marks;
use crate::numbers::Numbers;
use crate::shapes::{Shape, index_at, opcode_at, shape_at, size_at};
use dex_base::Fault;
use dex_container::Sections;
use dex_insn::index_kind_of;
use std::alloc::Global;

// ---- what they name

/// Marks the row that the instruction of this shape at the front of the units names, if it names one.
fn mark_insn(
    marks: &mut Marks,
    sections: &Sections<'_>,
    front: &[u8],
    shape: Shape,
) -> Result<(), Fault>
    requires marks { HasMarks sections.now marks.old }
    requires resolves { (T : ℤ → ℕ) × (r : Raw) × (i : Insn) × IsOfShape front.now shape r × Resolves (NameStands sections.now) T r i }
    ensures marked { OnOk result ((T : ℤ → ℕ) (r : Raw) (i : Insn) → IsOfShape front.now shape r → Resolves (NameStands sections.now) T r i
        → AddsNames sections.now marks.old marks.new (names_of_insn i)) }
    ensures memory { IsOkUnless result memory }
{
    let Some(index) = index_at(front, shape) else {
        return Ok(());
    };
    match index_kind_of(opcode_at(front)) {
        Some(table) => marks.mark(sections, table, index),
        None => unreachable!(),
    }
}

/// Marks the rows that the instructions name, which are end to end.
pub(crate) fn mark_insns(
    marks: &mut Marks,
    sections: &Sections<'_>,
    units: &[u8],
) -> Result<(), Fault>
    requires marks { HasMarks sections.now marks.old }
    requires even { length units.now % 2 ≡ 0 }
    requires short { length units.now ≤ 8589934590 }
    requires insns { (rs : List Raw) × (is : List Insn) × SpellsInsns (NameStands sections.now) units.now rs is }
    ensures marked { OnOk result ((rs : List Raw) (is : List Insn) → SpellsInsns (NameStands sections.now) units.now rs is
        → AddsNames sections.now marks.old marks.new (flat_map names_of_insn is)) }
    ensures memory { IsOkUnless result memory }
{
    let end = units.len() / 2;
    let mut at: usize = 0;
    while at < end {
        let front = &units[2 * at..];
        let shape = shape_at(front);
        mark_insn(marks, sections, front, shape)?;
        at += size_at(front, shape) as usize;
    }
    Ok(())
}

// ---- where they begin

/// The unit at which each of the instructions begins, which are end to end.
pub(crate) fn starts_of(alloc: Global, units: &[u8]) -> Result<Vec<u32>, Fault>
    requires even { length units.now % 2 ≡ 0 }
    requires short { length units.now ≤ 8589934590 }
    requires insns { (rs : List Raw) × Walks units.now rs }
    ensures table { IfOk result (λ all. (rs : List Raw) → Walks units.now rs → IsTable all.items rs) }
    ensures memory { IsOkUnless result memory }
{
    let mut starts = Vec::new(alloc);
    let end = units.len() / 2;
    let mut at: usize = 0;
    while at < end {
        starts.push(at as u32)?;
        let front = &units[2 * at..];
        at += size_at(front, shape_at(front)) as usize;
    }
    Ok(starts)
}

// ---- with other indices

/// Puts the numbers of the rows that the instructions name, which are end to end, in place of their indices.
fn renumber_units(units: &mut [u8], numbers: &Numbers)
    requires even { length units.old % 2 ≡ 0 }
    requires short { length units.old ≤ 8589934590 }
    requires insns { (rs : List Raw) × Walks units.old rs × AllByRecursion (CanBeRenumbered numbers.now) rs }
    ensures ok { (rs : List Raw) → Walks units.old rs → units.new ≡ joined (map (renumbered numbers.now) rs) }
    ensures fit { (rs : List Raw) → Walks units.old rs → AllByRecursion IsRaw (map (renumbered numbers.now) rs) }
{
    let end = units.len() / 2;
    let mut at: usize = 0;
    while at < end {
        at += renumber_front(&mut units[2 * at..], numbers) as usize;
    }
}

/// Appends the instructions, which are end to end, with the numbers of the rows that they name: all units as they are, then
/// those that change in their places.
pub(crate) fn renumber_insns(
    out: &mut Vec<u8>,
    numbers: &Numbers,
    units: &[u8],
) -> Result<(), Fault>
    requires even { length units.now % 2 ≡ 0 }
    requires short { length units.now ≤ 8589934590 }
    requires insns { (rs : List Raw) × Walks units.now rs × AllByRecursion (CanBeRenumbered numbers.now) rs }
    ensures ok { OnOk result ((rs : List Raw) → Walks units.now rs → out.new.items ≡ out.old.items ++ joined (map (renumbered numbers.now) rs)) }
    ensures fit { OnOk result ((rs : List Raw) → Walks units.now rs → AllByRecursion IsRaw (map (renumbered numbers.now) rs)) }
    ensures memory { IsOkUnless result memory }
{
    let begin = out.len();
    out.extend_from_slice(units)?;
    renumber_units(&mut out[begin..], numbers);
    Ok(())
}
