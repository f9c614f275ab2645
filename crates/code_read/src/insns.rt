//! The instructions of a code, stage by stage.

ghost use Rattle.std.specs.Prelude.{◌≡◌, ◌≢◌, ◌^◌, ◌<◌, ◌≤◌, ◌%◌, ◌+◌, ◌*◌, length, map, slice_index, IfOk, IfErr, IfNone, IfSome, OnOk};
ghost use Rattle.dex_base.specs.Fault.{memory};
ghost use Rattle.program_types.specs.Sizes.{addresses_of};
ghost use Rattle.program_types.specs.View.{insn};
ghost use Rattle.code_rules.specs.inner.Branches.{AreOrigins};
ghost use Rattle.code_rules.specs.First.{AllHold};
ghost use Rattle.tables_rows.specs.Names.{NameIsAt};
ghost use Rattle.dex_insn.specs.Raw.{raw};
ghost use Rattle.code_read.specs.Walk.{raw_at};
ghost use Rattle.code_read.specs.inner.Walk.{IsTable};
ghost use Rattle.code_read.specs.Symbols.{Resolves};
ghost use Rattle.code_read.specs.Linked.{target_number, NameHolds, AreLinked, KeepRules};
ghost use Rattle.code_read.specs.InsnFaults.{NamesBreak, LinkedBreak, InsnsBreak};
ghost use Rattle.code_read.specs.Registers.{AmongAt, IsPast};
ghost use Rattle.code_read.specs.inner.InsnReading.{IsHalfLinked, AreHalfLinked, AreRead};

use crate::keeping::Keep;
use crate::plain::{insns_at, starts_of};
use crate::symbols::link;
use crate::targets::{empty_payload, is_payload, link_payload};
use crate::walking::walk;
use bumpalo::Bump;
use code_rules::{
    branch_lands, first_bad_branch, first_bad_switch, first_bad_use, first_past, origins_of,
};
use dex_base::{Fault, fault};
use dex_insn::RawInsn;
use program_types::Insn;
use std::alloc::{AllocError, Global};
use tables_rows::Tables;

/// What is kept of the instructions of a code, and the unit at which each begins.
#[derive(Drop)]
pub(crate) struct Insns<I> {
    pub insns: I,
    pub starts: Vec<u32>,
    /// The unit at which the first instruction begins that names a register past those of the code.
    pub past: Option<u32>,
}

/// Returns instruction `k`, linked from its own address, with an empty payload in place of a payload. `None` if its index has no row.
fn half_linked<'a>(
    tables: &Tables<'a>,
    insns: &[RawInsn<'_>],
    starts: &[u32],
    k: usize,
) -> Option<Insn<'a>>
    requires table { IsTable starts.now (map raw insns.now) }
    requires inside { k < length insns.now }
    ensures some { IfSome result (λ i. IsHalfLinked (NameIsAt tables.now) starts.now (slice_index starts.now k) (raw_at (map raw insns.now) k) (insn i)) }
    ensures none { IfNone result (¬ NameHolds (NameIsAt tables.now) (map raw insns.now) k) }
{
    let one = &insns[k];
    if is_payload(one) {
        return Some(empty_payload(one));
    }
    link(tables, starts, starts[k], one)
}

/// All instructions, linked from their own addresses.
fn half_link<'a>(
    arena: &'a Bump,
    tables: &Tables<'a>,
    insns: &[RawInsn<'_>],
    starts: &[u32],
    base: u64,
) -> Result<Vec<Insn<'a>, &'a Bump>, Fault>
    requires table { IsTable starts.now (map raw insns.now) }
    requires base { base < 2 ^ 40 }
    ensures ok { IfOk result (λ half. AreHalfLinked (NameIsAt tables.now) (map raw insns.now) (map insn half.items)) }
    ensures err { IfErr result (λ e. e ≢ memory → NamesBreak (NameIsAt tables.now) (map raw insns.now) starts.now base e) }
{
    let mut half = Vec::with_capacity(arena, insns.len())?;
    for k in 0..insns.len() {
        match half_linked(tables, insns, starts, k) {
            Some(one) => half.push(one)?,
            None => return Err(fault_at(fault::OPERAND_INDEX, starts, base, k)),
        }
    }
    Ok(half)
}

/// The fault of instruction `k`.
fn fault_at(number: u16, starts: &[u32], base: u64, k: usize) -> Fault
    requires inside { k < length starts.now }
    requires base { base < 2 ^ 40 }
    ensures { result ≡ record { code = number; place = base + 2 * slice_index starts.now k } }
{
    Fault::at(number, base + 2 * u64::from(starts[k]))
}

/// Links each payload in its place, from the instruction from which it counts.
fn link_payloads<'a>(
    arena: &'a Bump,
    tables: &Tables<'_>,
    half: &mut [Insn<'a>],
    insns: &[RawInsn<'_>],
    starts: &[u32],
    origins: &[u32],
) -> Result<(), AllocError>
    requires table { IsTable starts.now (map raw insns.now) }
    requires half { AreHalfLinked (NameIsAt tables.now) (map raw insns.now) (map insn half.old) }
    requires origins { AreOrigins (map insn half.old) origins.now }
    ensures ok { OnOk result (AreLinked (NameIsAt tables.now) (map raw insns.now) (map insn half.new)) }
{
    for k in 0..insns.len() {
        let one = &insns[k];
        if is_payload(one) {
            half[k] = link_payload(arena, tables, starts, starts[origins[k] as usize], one)?;
        }
    }
    Ok(())
}

/// The instructions, linked; the first whose index has no row is refused.
fn link_walked<'a>(
    alloc: Global,
    arena: &'a Bump,
    tables: &Tables<'a>,
    insns: &[RawInsn<'_>],
    starts: &[u32],
    base: u64,
) -> Result<Vec<Insn<'a>, &'a Bump>, Fault>
    requires table { IsTable starts.now (map raw insns.now) }
    requires base { base < 2 ^ 40 }
    ensures ok { IfOk result (λ found. AreLinked (NameIsAt tables.now) (map raw insns.now) (map insn found.items)) }
    ensures err { IfErr result (λ e. e ≢ memory → NamesBreak (NameIsAt tables.now) (map raw insns.now) starts.now base e) }
{
    let mut found = half_link(arena, tables, insns, starts, base)?;
    let origins = origins_of(alloc, &found)?;
    link_payloads(arena, tables, &mut found, insns, starts, &origins)?;
    Ok(found)
}

/// The first of the rules of branches, payloads and switches that a linked instruction breaks.
fn check_linked(alloc: Global, insns: &[Insn<'_>], starts: &[u32], base: u64) -> Result<(), Fault>
    requires count { length starts.now ≡ length insns.now }
    requires base { base < 2 ^ 40 }
    ensures ok { OnOk result (KeepRules (map insn insns.now)) }
    ensures err { IfErr result (λ e. e ≢ memory → LinkedBreak starts.now (map insn insns.now) base e) }
{
    if let Some(k) = first_bad_branch(insns) {
        let number = if branch_lands(insns, k) {
            fault::BRANCH_ZERO
        } else {
            fault::BRANCH_TARGET
        };
        return Err(fault_at(number, starts, base, k));
    }
    if let Some(k) = first_bad_use(alloc, insns)? {
        return Err(fault_at(fault::PAYLOAD_USE, starts, base, k));
    }
    if let Some(k) = first_bad_switch(insns) {
        return Err(fault_at(fault::BRANCH_TARGET, starts, base, k));
    }
    Ok(())
}

/// The instructions of a code that has nothing to do with payloads; none where one of them breaks a rule, also that of registers.
fn read_plain<'a, K: Keep<'a>>(
    alloc: Global,
    arena: &'a Bump,
    tables: &Tables<'a>,
    units: &[u8],
    registers: u16,
) -> Result<Option<Insns<K::Insns>>, AllocError>
    requires even { length units.now % 2 ≡ 0 }
    requires short { length units.now ≤ 8589934590 }
    ensures ok { IfOk result (λ o. IfSome o (λ i. AreRead K.insns (NameIsAt tables.now) units.now registers i)) }
{
    let Some(starts) = starts_of(alloc, units)? else {
        return Ok(None);
    };
    match insns_at::<K>(arena, tables, &starts, units, registers)? {
        Some(insns) => Ok(Some(Insns {
            insns,
            starts,
            past: None,
        })),
        None => Ok(None),
    }
}

/// The unit at which the first instruction begins that names a register past the first `count`.
fn past_registers(insns: &[Insn<'_>], starts: &[u32], count: u16) -> Option<u32>
    requires count { length starts.now ≡ length insns.now }
    requires starts { starts.now ≡ addresses_of (map insn insns.now) }
    ensures among { IfNone result (AllHold (AmongAt count (map insn insns.now)) (length (map insn insns.now))) }
    ensures past { IfSome result (IsPast count (map insn insns.now)) }
{
    Some(starts[first_past(count, insns)?])
}

/// Reads the instructions of a code with so many registers, whose first unit is at byte `base`: in one walk if there are no payloads and
/// no rule is violated; otherwise they are linked in turn, which finds the rule.
pub(crate) fn read_insns<'a, K: Keep<'a>>(
    alloc: Global,
    arena: &'a Bump,
    tables: &Tables<'a>,
    units: &[u8],
    base: u64,
    registers: u16,
) -> Result<Insns<K::Insns>, Fault>
    requires even { length units.now % 2 ≡ 0 }
    requires short { length units.now ≤ 8589934590 }
    requires base { base < 2 ^ 40 }
    ensures ok { IfOk result (λ i. AreRead K.insns (NameIsAt tables.now) units.now registers i) }
    ensures err { IfErr result (λ e. e ≢ memory → InsnsBreak (NameIsAt tables.now) units.now base e) }
{
    if let Some(found) = read_plain::<K>(alloc, arena, tables, units, registers)? {
        return Ok(found);
    }
    let walked = walk(alloc, units, base)?;
    let insns = link_walked(alloc, arena, tables, &walked.insns, &walked.starts, base)?;
    check_linked(alloc, &insns, &walked.starts, base)?;
    let past = past_registers(&insns, &walked.starts, registers);
    Ok(Insns {
        insns: K::keep_insns(insns),
        starts: walked.starts,
        past,
    })
}
