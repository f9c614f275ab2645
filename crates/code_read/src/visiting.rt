//! The instructions of a code without tries and payloads, checked in one walk and not kept. Branch targets are checked once all
//! instruction boundaries are known: each unit is marked if an instruction begins there, and if a branch targets it.

ghost use Rattle.std.specs.Prelude.{◌≡◌, ◌≢◌, pos, ◌+ℤ◌, ◌<◌, ◌≤◌, ◌*◌, ◌%◌, ℕ, length, slice_index, slice_set, replicate, IfOk, IfSome, IsTrue};
ghost use Rattle.std.specs.Int.RustNames.{bit_or};
ghost use Rattle.program_types.specs.Content as content;
ghost use Rattle.tables_rows.specs.Names.{NameIsAt};
ghost use Rattle.dex_insn.specs.Raw.{raw, Raw};
ghost use Rattle.dex_insn.specs.RawInsns.{InsnStands};
ghost use Rattle.code_read.specs.inner.Plain.{ArePlain};
ghost use Rattle.code_read.specs.inner.Visiting.{branch_offset, IsVisited, TargetIsMarked, IsPassed};

use crate::places::unit_at;
use crate::plain::is_plain;
use crate::symbols::link;
use bumpalo::Bump;
use code_rules::insn_is_among;
use dex_insn::{RawInsn, Take, size_of, take_insn};
use std::alloc::AllocError;
use tables_rows::Tables;

/// An instruction begins at the unit.
const BEGINS: u8 = 1;

/// A branch targets the unit.
const TARGETED: u8 = 2;

/// The number of units of an instruction, and the offset if it is a branch.
#[derive(Clone, Copy)]
struct Visited {
    units: u64,
    branch: Option<i32>,
}

/// The branch offset, in 16-bit code units.
#[inline(always)]
#[tactic(auto, unfolding(crate::specs::inner::Visiting::branch_offset, dex_insn::specs::Raw::raw))]
fn branch_offset(one: &RawInsn<'_>) -> Option<i32>
    ensures { result ≡ branch_offset (raw one.now) }
{
    match *one {
        RawInsn::I10t { offset, .. }
        | RawInsn::I20t { offset, .. }
        | RawInsn::I21t { offset, .. }
        | RawInsn::I22t { offset, .. }
        | RawInsn::I30t { offset, .. } => Some(offset),
        _ => None,
    }
}

/// Checks one instruction of a method with `registers` registers. Returns `None` for payload instructions, for an index out of range and
/// for a register out of range.
#[derive(Clone, Copy)]
struct Visitor<'t, 'a> {
    tables: &'t Tables<'a>,
    registers: u16,
}

impl<'b> Take<'b> for Visitor<'_, '_> {
    type Out = Option<Visited>;

    ghost takes = { λ l r out. IfSome out (λ s. IsVisited (NameIsAt l.tables.now) l.registers r s.units s.branch) };

    #[inline(always)]
    fn take(self, one: RawInsn<'b>) -> Option<Visited> {
        if !is_plain(&one) {
            return None;
        }
        // Branch targets are not resolved here, so no addresses are needed.
        let insn = link(self.tables, &[], 0, &one)?;
        if !insn_is_among(self.registers, &insn) {
            return None;
        }
        Some(Visited {
            units: size_of(&one),
            branch: branch_offset(&one),
        })
    }
}

/// The result for the instruction at a unit; `None` if there is no instruction.
#[inline(always)]
fn visit(visitor: Visitor<'_, '_>, units: &[u8], at: u32) -> Option<Visited>
    ensures { IfSome result (λ s. (r : Raw) × InsnStands units.now at r × IsVisited (NameIsAt visitor.entry.tables.now) visitor.entry.registers r s.units s.branch) }
{
    match take_insn(units, at, visitor) {
        Ok(visited) => visited,
        Err(_) => None,
    }
}

/// Marks a unit.
#[inline(always)]
fn mark(marks: &mut [u8], unit: usize, with: u8)
    requires { unit < length marks.old }
    ensures { marks.new ≡ slice_set marks.old unit (bit_or (slice_index marks.old unit) with) }
{
    marks[unit] |= with;
}

/// The unit that is `offset` units from the unit `at`; None where that isn't another one of so many units.
#[inline(always)]
fn other_unit(count: usize, at: u32, offset: i32) -> Option<usize>
    ensures { IfSome result (λ unit. (pos unit ≡ (pos at +ℤ offset)) × (unit < count) × (unit ≢ at)) }
{
    let unit = unit_at(at, offset)?;
    if unit >= count as u64 || unit == u64::from(at) {
        return None;
    }
    Some(unit as usize)
}

/// Checks the instruction at a unit, marks its unit and its target, and returns its number of units. `None` if it is refused, or
/// branches to itself or to no unit of the code.
#[inline(always)]
fn pass(visitor: Visitor<'_, '_>, marks: &mut [u8], units: &[u8], at: u32) -> Option<u64>
    requires { at < length marks.old }
    ensures { IfSome result (IsPassed (NameIsAt visitor.entry.tables.now) units.now visitor.entry.registers at marks.old marks.new) }
{
    let visited = visit(visitor, units, at)?;
    mark(marks, at as usize, BEGINS);
    if let Some(offset) = visited.branch {
        let unit = other_unit(marks.len(), at, offset)?;
        mark(marks, unit, TARGETED);
    }
    Some(visited.units)
}

/// Whether an instruction begins at every target of a branch.
fn all_begin(marks: &[u8]) -> bool
    ensures { IsTrue result → (unit : ℕ) → unit < length marks.now → slice_index marks.now unit ≢ 2 }
{
    let mut all = true;
    for mark in marks {
        all &= *mark != TARGETED;
    }
    all
}

/// Whether the units are instructions of a code of so many registers that have nothing to do with payloads and break no rule. No unit is
/// marked at first, and there is a mark for each.
fn walk_units(visitor: Visitor<'_, '_>, marks: &mut [u8], units: &[u8]) -> bool
    requires even { length units.now ≡ 2 * length marks.old }
    requires short { length units.now ≤ 8589934590 }
    requires none { marks.old ≡ replicate (length marks.old) 0 }
    ensures { IsTrue result → (begins : _) × (is : _) × ArePlain (NameIsAt visitor.entry.tables.now) units.now begins visitor.entry.registers is }
{
    let mut at = 0;
    while at < marks.len() {
        let Some(count) = pass(visitor, marks, units, at as u32) else {
            return false;
        };
        at += count as usize;
    }
    all_begin(marks)
}

/// No mark for so many units.
fn no_marks(arena: &Bump, count: usize) -> Result<Vec<u8, &Bump>, AllocError>
    ensures ok { IfOk result (λ marks. marks.items ≡ replicate count 0) }
{
    vec![in arena; 0u8; count]
}

/// Whether the units are instructions, none of them about payloads, of a code with so many registers, and no rule is violated. It may be
/// false without a violation: a goto/32 to itself is left to the other reader.
pub(crate) fn are_clear(
    arena: &Bump,
    tables: &Tables<'_>,
    units: &[u8],
    registers: u16,
) -> Result<bool, AllocError>
    requires even { length units.now % 2 ≡ 0 }
    requires short { length units.now ≤ 8589934590 }
    ensures ok { IfOk result (λ clear. IsTrue clear → (begins : _) × (is : _) × ArePlain (NameIsAt tables.now) units.now begins registers is) }
{
    let visitor = Visitor { tables, registers };
    let mut marks = no_marks(arena, units.len() / 2)?;
    Ok(walk_units(visitor, &mut marks, units))
}
