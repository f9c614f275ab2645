//! The registers that instructions name ("Dalvik Executable instruction formats", "The formats").

ghost use Rattle.std.specs.Prelude.{◌↔◌, ◌<◌, length, map, take, IsTrue, IfSome, IfNone};
ghost use Rattle.std.specs.List.{AllByRecursion, range_with_len};
ghost use Rattle.program_types.specs.Formed.{insn_at, insn_registers, AreAmong, RegistersHold};
ghost use Rattle.program_types.specs.View.{insn, code};
ghost use Rattle.dex_base.specs.FirstFault.{FirstBroken};
ghost use Rattle.code_rules.specs.First.{AllHold};

use program_types::{Code, Insn};

/// Whether all registers are among the first `count`.
#[inline(always)]
fn are_among(count: u16, regs: &[u8]) -> bool
    ensures { IsTrue result ↔ AllByRecursion (λ v. v < count) regs.now }
{
    for v in regs {
        if u16::from(*v) >= count {
            return false;
        }
    }
    true
}

/// Whether the first `n` of five registers are.
#[inline(always)]
fn first_are_among(count: u16, n: u8, regs: &[u8; 5]) -> bool
    ensures { IsTrue result ↔ AllByRecursion (λ v. v < count) (take n regs.now) }
{
    are_among(count, &regs[..usize::from(n).min(5)])
}

/// Whether `n` registers from `first` on are.
#[inline(always)]
fn run_is_among(count: u16, n: u8, first: u16) -> bool
    ensures { IsTrue result ↔ AllByRecursion (λ v. v < count) (range_with_len first n) }
{
    if n == 0 {
        return true;
    }
    if u32::from(first) + u32::from(n) > u32::from(count) {
        return false;
    }
    true
}

/// Whether the registers that an instruction names are.
#[inline(always)]
#[rattlefmt::skip]
#[tactic(auto, unfolding(program_types::specs::Formed::insn_registers))]
pub fn insn_is_among(count: u16, one: &Insn<'_>) -> bool
    ensures { IsTrue result ↔ AreAmong count (insn one.now) }
{
    match *one {
        Insn::I11n { a, .. } | Insn::I11x { a, .. } | Insn::I21t { a, .. } | Insn::I21s { a, .. } | Insn::I21h { a, .. }
        | Insn::I21c { a, .. } | Insn::I31i { a, .. } | Insn::I31t { a, .. } | Insn::I31c { a, .. } | Insn::I51l { a, .. } => u16::from(a) < count,
        Insn::I12x { a, b, .. } | Insn::I22b { a, b, .. } | Insn::I22t { a, b, .. } | Insn::I22s { a, b, .. }
        | Insn::I22c { a, b, .. } => u16::from(a) < count && u16::from(b) < count,
        Insn::I22x { a, b, .. } => u16::from(a) < count && b < count,
        Insn::I23x { a, b, c, .. } => u16::from(a) < count && u16::from(b) < count && u16::from(c) < count,
        Insn::I32x { a, b, .. } => a < count && b < count,
        Insn::I35c { n, ref regs, .. } => first_are_among(count, n, regs),
        Insn::I3rc { n, first, .. } => run_is_among(count, n, first),
        Insn::I10x { .. } | Insn::I10t { .. } | Insn::I20t { .. } | Insn::I30t { .. } | Insn::Packed { .. }
        | Insn::Sparse { .. } | Insn::Data { .. } => true,
    }
}

/// Whether those that instruction `k` names are.
fn register_holds(count: u16, insns: &[Insn<'_>], k: usize) -> bool
    requires inside { k < length insns.now }
    ensures { IsTrue result ↔ AreAmong count (insn_at (map insn insns.now) k) }
{
    let one = &insns[k];
    insn_is_among(count, one)
}

/// The first instruction that names a register past the first `count`.
pub fn first_past(count: u16, insns: &[Insn<'_>]) -> Option<usize>
    ensures some { IfSome result (FirstBroken (length insns.now) (λ k. AreAmong count (insn_at (map insn insns.now) k)) (λ k. k)) }
    ensures none { IfNone result (AllHold (λ k. AreAmong count (insn_at (map insn insns.now) k)) (length insns.now)) }
{
    for k in 0..insns.len() {
        if !register_holds(count, insns, k) {
            return Some(k);
        }
    }
    None
}

/// Whether a code's ins and all registers that its instructions name are registers of it.
pub(crate) fn registers_hold(one: &Code<'_>) -> bool
    ensures { IsTrue result ↔ RegistersHold (code one.now) }
{
    if one.ins > one.registers {
        return false;
    }
    first_past(one.registers, one.insns).is_none()
}
