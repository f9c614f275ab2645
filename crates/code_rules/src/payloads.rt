//! Payloads, and the instructions that refer to them.

ghost use Rattle.std.specs.Prelude.{◌≡◌, ◌↔◌, ◌<◌, ◌≤◌, ℕ, length, map, IsTrue, IfOk, IfSome, IfNone};
ghost use Rattle.program_types.specs.Formed.{insn_at, insn_wants, insn_reach, WantsPayload, RefersToPayload, PayloadHolds};
ghost use Rattle.program_types.specs.View.{insn, code};
ghost use Rattle.code_rules.specs.CodeRules.{PayloadsHold};
ghost use Rattle.dex_base.specs.FirstFault.{FirstBroken};
ghost use Rattle.code_rules.specs.First.{AllHold};
ghost use Rattle.code_rules.specs.inner.Parts.{HasNoPayload, IsUsedOnce};
ghost use Rattle.code_rules.specs.inner.Uses.{AreUses, used_again};

use program_types::{Code, Insn, Payload, are_alike, is_switch, payload_of};
use std::alloc::{AllocError, Global};

/// Which payload an instruction refers to.
#[tactic(auto, unfolding(program_types::specs::Formed::insn_wants))]
fn wants_of(one: &Insn<'_>) -> Option<Payload>
    ensures { result ≡ insn_wants (insn one.now) }
{
    match *one {
        Insn::I31t { op: 0x2b, .. } => Some(Payload::PackedSwitch),
        Insn::I31t { op: 0x2c, .. } => Some(Payload::SparseSwitch),
        Insn::I31t { .. } => Some(Payload::Array),
        _ => None,
    }
}

/// The number of the instruction that an instruction refers to.
#[tactic(auto, unfolding(program_types::specs::Formed::insn_reach))]
fn reach_of(one: &Insn<'_>) -> u32
    ensures { result ≡ insn_reach (insn one.now) }
{
    match *one {
        Insn::I31t { to, .. } => to,
        _ => 0,
    }
}

/// Whether instruction `j` refers to payload `k`, which is of its kind.
pub(crate) fn refers(insns: &[Insn<'_>], j: usize, k: usize) -> bool
    requires inside { j < length insns.now }
    ensures { IsTrue result ↔ RefersToPayload (map insn insns.now) j k }
{
    let one = &insns[j];
    let kind = wants_of(one);
    if kind.is_none() || k >= insns.len() {
        return false;
    }
    if reach_of(one) as usize != k {
        return false;
    }
    are_alike(kind, payload_of(&insns[k]))
}

/// Whether instruction `k` refers to a payload of its kind, if it refers to one at all.
fn reach_holds(insns: &[Insn<'_>], k: usize) -> bool
    requires inside { k < length insns.now }
    ensures { IsTrue result ↔ (WantsPayload (insn_wants (insn_at (map insn insns.now) k)) → RefersToPayload (map insn insns.now) k (insn_reach (insn_at (map insn insns.now) k))) }
{
    let one = &insns[k];
    let kind = wants_of(one);
    if !are_alike(kind, kind) {
        return true;
    }
    refers(insns, k, reach_of(one) as usize)
}

/// The first instruction from number `from` on that refers to payload `k`.
fn user_from(insns: &[Insn<'_>], from: usize, k: usize) -> Option<usize>
    ensures found { IfSome result (λ j. (from ≤ j) × RefersToPayload (map insn insns.now) j k × ((i : ℕ) → from ≤ i → i < j → ¬ RefersToPayload (map insn insns.now) i k)) }
    ensures none { IfNone result ((i : ℕ) → from ≤ i → ¬ RefersToPayload (map insn insns.now) i k) }
{
    for j in from..insns.len() {
        if refers(insns, j, k) {
            return Some(j);
        }
    }
    None
}

/// Whether exactly one instruction refers to payload `k`.
fn is_used_once(insns: &[Insn<'_>], k: usize) -> bool
    ensures { IsTrue result ↔ IsUsedOnce (map insn insns.now) k }
{
    match user_from(insns, 0, k) {
        Some(j) => user_from(insns, j + 1, k).is_none(),
        None => false,
    }
}

/// Whether the payload that instruction `k` is or refers to is used as it has to be.
fn payload_holds(insns: &[Insn<'_>], k: usize) -> bool
    requires inside { k < length insns.now }
    ensures { IsTrue result ↔ PayloadHolds (map insn insns.now) k }
{
    if !reach_holds(insns, k) {
        return false;
    }
    if !is_switch(payload_of(&insns[k])) {
        return true;
    }
    is_used_once(insns, k)
}

/// Whether all payloads of a code are used as they have to be.
pub(crate) fn payloads_hold(one: &Code<'_>) -> bool
    ensures { IsTrue result ↔ PayloadsHold (code one.now) }
{
    for k in 0..one.insns.len() {
        if !payload_holds(one.insns, k) {
            return false;
        }
    }
    true
}

/// How many instructions refer to a payload.
#[derive(Clone, Copy)]
enum Use {
    Unused,
    Once,
    Shared,
}

/// How many instructions refer to a payload, with one more.
fn used_again(so_far: Use) -> Use
    ensures { result ≡ used_again so_far }
{
    match so_far {
        Use::Unused => Use::Once,
        _ => Use::Shared,
    }
}

/// Where instruction `j` refers to.
pub(crate) fn reach_at(insns: &[Insn<'_>], j: usize) -> u32
    requires inside { j < length insns.now }
    ensures { result ≡ insn_reach (insn_at (map insn insns.now) j) }
{
    let one = &insns[j];
    reach_of(one)
}

/// Notes each instruction that refers to a payload of its kind.
fn mark_users(all: &mut [Use], insns: &[Insn<'_>])
    requires unused { AreUses (map insn insns.now) 0 all.old }
    ensures { AreUses (map insn insns.now) (length insns.now) all.new }
{
    for j in 0..insns.len() {
        let k = reach_at(insns, j) as usize;
        if refers(insns, j, k) {
            all[k] = used_again(all[k]);
        }
    }
}

/// How many instructions refer to each payload.
fn uses_of(alloc: Global, insns: &[Insn<'_>]) -> Result<Vec<Use>, AllocError>
    ensures { IfOk result (λ all. AreUses (map insn insns.now) (length insns.now) all.items) }
{
    let mut all = vec![in alloc; Use::Unused; insns.len()]?;
    mark_users(&mut all, insns);
    Ok(all)
}

/// Whether exactly one instruction refers to payload `k`, where it is known how many refer to each.
fn is_once(uses: &[Use], insns: &[Insn<'_>], k: usize) -> bool
    requires uses { AreUses (map insn insns.now) (length insns.now) uses.now }
    requires inside { k < length insns.now }
    ensures { IsTrue result ↔ IsUsedOnce (map insn insns.now) k }
{
    matches!(uses[k], Use::Once)
}

/// Whether the payload that instruction `k` is or refers to is used as it has to be, where this is known.
fn payload_holds_by(uses: &[Use], insns: &[Insn<'_>], k: usize) -> bool
    requires uses { AreUses (map insn insns.now) (length insns.now) uses.now }
    requires inside { k < length insns.now }
    ensures { IsTrue result ↔ PayloadHolds (map insn insns.now) k }
{
    if !reach_holds(insns, k) {
        return false;
    }
    if !is_switch(payload_of(&insns[k])) {
        return true;
    }
    is_once(uses, insns, k)
}

/// Whether an instruction is no payload and refers to none.
#[tactic(auto, unfolding(program_types::specs::Formed::insn_wants, program_types::specs::Formed::insn_payload))]
fn is_plain(one: &Insn<'_>) -> bool
    ensures { IsTrue result ↔ HasNoPayload (insn one.now) }
{
    !matches!(
        one,
        Insn::I31t { .. } | Insn::Packed { .. } | Insn::Sparse { .. } | Insn::Data { .. }
    )
}

/// Whether no instruction is a payload or refers to one.
fn are_plain(insns: &[Insn<'_>]) -> bool
    ensures { IsTrue result ↔ AllHold (λ k. HasNoPayload (insn_at (map insn insns.now) k)) (length insns.now) }
{
    for k in 0..insns.len() {
        if !is_plain(&insns[k]) {
            return false;
        }
    }
    true
}

/// The first instruction that refers to no payload of its kind, or is the payload of a switch and hasn't exactly one, in time that
/// grows with the code: it takes a byte an instruction, and nothing where no instruction has to do with payloads.
pub fn first_bad_use(alloc: Global, insns: &[Insn<'_>]) -> Result<Option<usize>, AllocError>
    ensures some { IfOk result (λ found. IfSome found (FirstBroken (length insns.now) (PayloadHolds (map insn insns.now)) (λ k. k))) }
    ensures none { IfOk result (λ found. IfNone found (AllHold (PayloadHolds (map insn insns.now)) (length insns.now))) }
{
    if are_plain(insns) {
        return Ok(None);
    }
    let uses = uses_of(alloc, insns)?;
    for k in 0..insns.len() {
        if !payload_holds_by(&uses, insns, k) {
            return Ok(Some(k));
        }
    }
    Ok(None)
}

/// Whether all payloads of a code are used as required: the result of `code_holds` for `PayloadUse`.
pub fn payloads_hold_in(alloc: Global, one: &Code<'_>) -> Result<bool, AllocError>
    ensures { IfOk result (λ hold. IsTrue hold ↔ PayloadsHold (code one.now)) }
{
    let found = first_bad_use(alloc, one.insns)?;
    Ok(found.is_none())
}
