//! The targets of branches and switches.

ghost use Rattle.std.specs.Prelude.{◌≡◌, ◌↔◌, ◌<◌, length, map, IsTrue, IfSome, IfNone};
ghost use Rattle.std.specs.List.{AllByRecursion};
ghost use Rattle.program_types.specs.Formed.{insn_branch, insn_short_branch, IsTarget};
ghost use Rattle.program_types.specs.View.{insn, code};
ghost use Rattle.code_rules.specs.Branches.{BranchLands, BranchMoves, BranchHolds, SwitchLands};
ghost use Rattle.code_rules.specs.inner.Branches.{BranchStays};
ghost use Rattle.dex_base.specs.FirstFault.{FirstBroken};
ghost use Rattle.code_rules.specs.First.{AllHold};
ghost use Rattle.code_rules.specs.CodeRules.{TargetsHold};

use program_types::{Code, Insn, payload_of, targets_of};

/// The target of a branch.
#[inline(always)]
#[tactic(auto, unfolding(program_types::specs::Formed::insn_branch))]
fn branch_of(one: &Insn<'_>) -> Option<u32>
    ensures { result ≡ insn_branch (insn one.now) }
{
    match *one {
        Insn::I10t { to, .. }
        | Insn::I20t { to, .. }
        | Insn::I30t { to, .. }
        | Insn::I21t { to, .. }
        | Insn::I22t { to, .. } => Some(to),
        _ => None,
    }
}

/// The target of a branch that must not be itself: of all but goto/32.
#[inline(always)]
#[tactic(auto, unfolding(program_types::specs::Formed::insn_branch, program_types::specs::Formed::insn_short_branch))]
fn short_branch_of(one: &Insn<'_>) -> Option<u32>
    ensures { result ≡ insn_short_branch (insn one.now) }
{
    match *one {
        Insn::I30t { .. } => None,
        _ => branch_of(one),
    }
}

/// Whether `to` is the number of an instruction that is no payload.
fn is_target(insns: &[Insn<'_>], to: u32) -> bool
    ensures { IsTrue result ↔ IsTarget (map insn insns.now) to }
{
    let k = to as usize;
    if k >= insns.len() {
        return false;
    }
    match payload_of(&insns[k]) {
        Some(_) => false,
        None => true,
    }
}

/// Whether all targets are numbers of instructions that are no payloads.
fn are_targets(insns: &[Insn<'_>], targets: &[u32]) -> bool
    ensures { IsTrue result ↔ AllByRecursion (IsTarget (map insn insns.now)) targets.now }
{
    for to in targets {
        if !is_target(insns, *to) {
            return false;
        }
    }
    true
}

/// Whether the branch of instruction `k`, if it is one, targets an instruction that is no payload.
pub fn branch_lands(insns: &[Insn<'_>], k: usize) -> bool
    requires inside { k < length insns.now }
    ensures { IsTrue result ↔ BranchLands (map insn insns.now) k }
{
    let one = &insns[k];
    match branch_of(one) {
        Some(to) => is_target(insns, to),
        None => true,
    }
}

/// Whether a branch that must not target itself targets another instruction.
fn branch_moves(insns: &[Insn<'_>], k: usize) -> bool
    requires inside { k < length insns.now }
    ensures { IsTrue result ↔ BranchMoves (map insn insns.now) k }
{
    let one = &insns[k];
    match short_branch_of(one) {
        Some(to) => to as usize != k,
        None => true,
    }
}

/// Whether a branch targets one of `count` instructions, and not itself, number `k`, if it must not.
#[inline(always)]
#[tactic(auto, unfolding(program_types::specs::Formed::insn_branch, program_types::specs::Formed::insn_short_branch))]
pub fn branch_stays(one: &Insn<'_>, count: usize, k: usize) -> bool
    ensures { IsTrue result ↔ BranchStays count k (insn one.now) }
{
    match *one {
        Insn::I10t { to, .. }
        | Insn::I20t { to, .. }
        | Insn::I21t { to, .. }
        | Insn::I22t { to, .. } => (to as usize) < count && to as usize != k,
        Insn::I30t { to, .. } => (to as usize) < count,
        _ => true,
    }
}

/// Whether a branch targets an instruction that is no payload, and not itself if it must not.
fn branch_holds(insns: &[Insn<'_>], k: usize) -> bool
    requires inside { k < length insns.now }
    ensures { IsTrue result ↔ BranchHolds (map insn insns.now) k }
{
    if !branch_lands(insns, k) {
        return false;
    }
    branch_moves(insns, k)
}

/// Whether the targets of a switch's payload are instructions that are no payloads.
fn switch_lands(insns: &[Insn<'_>], k: usize) -> bool
    requires inside { k < length insns.now }
    ensures { IsTrue result ↔ SwitchLands (map insn insns.now) k }
{
    let one = &insns[k];
    are_targets(insns, targets_of(one))
}

/// The first branch that targets no instruction, a payload, or itself if it must not.
pub fn first_bad_branch(insns: &[Insn<'_>]) -> Option<usize>
    ensures some { IfSome result (FirstBroken (length insns.now) (BranchHolds (map insn insns.now)) (λ k. k)) }
    ensures none { IfNone result (AllHold (BranchHolds (map insn insns.now)) (length insns.now)) }
{
    for k in 0..insns.len() {
        if !branch_holds(insns, k) {
            return Some(k);
        }
    }
    None
}

/// The first payload of a switch one of whose targets is no instruction, or a payload.
pub fn first_bad_switch(insns: &[Insn<'_>]) -> Option<usize>
    ensures some { IfSome result (FirstBroken (length insns.now) (SwitchLands (map insn insns.now)) (λ k. k)) }
    ensures none { IfNone result (AllHold (SwitchLands (map insn insns.now)) (length insns.now)) }
{
    for k in 0..insns.len() {
        if !switch_lands(insns, k) {
            return Some(k);
        }
    }
    None
}

/// Whether the targets of all instructions are as they have to be.
pub(crate) fn targets_hold(one: &Code<'_>) -> bool
    ensures { IsTrue result ↔ TargetsHold (code one.now) }
{
    first_bad_branch(one.insns).is_none() && first_bad_switch(one.insns).is_none()
}
