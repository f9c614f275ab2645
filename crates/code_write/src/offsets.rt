//! Whether offsets fit their fields, and payloads have even addresses.

ghost use Rattle.std.specs.Prelude.{◌≡◌, ◌<◌, ◌≤◌, ◌+◌, ◌↔◌, ℕ, length, map, slice_index, IsTrue, FitsSigned};
ghost use Rattle.std.specs.Int.{w8, w16, w32};
ghost use Rattle.program_types.specs.Formed.{insn_at, PayloadHolds};
ghost use Rattle.program_types.specs.Operands.{IsOperand};
ghost use Rattle.program_types.specs.View.{insn};
ghost use Rattle.code_write.specs.Fits.{distance_of, BranchFits, TargetsFit, OffsetsFit, IsEven};
ghost use Rattle.code_rules.specs.inner.Branches.{AreOrigins};

use program_types::{Insn, payload_of, targets_of};

/// Whether `begin` is at most `most` after `at`, or `most` and one before it.
fn is_near(begin: u64, at: u64, most: u64) -> bool
    requires { most ≤ 2147483647 }
    ensures { IsTrue result ↔ ((begin ≤ at + most) × (at ≤ begin + (most + 1))) }
{
    if begin >= at {
        return begin - at <= most;
    }
    at - begin <= most + 1
}

/// Whether the distance of instruction `to` from an address fits 8 bits.
fn fits_8(starts: &[u64], at: u64, to: u32) -> bool
    requires { to < length starts.now }
    ensures { IsTrue result ↔ FitsSigned w8 (distance_of starts.now at to) }
{
    is_near(starts[to as usize], at, 127)
}

/// Whether the distance from `at` to instruction `to` fits 16 bits.
fn fits_16(starts: &[u64], at: u64, to: u32) -> bool
    requires { to < length starts.now }
    ensures { IsTrue result ↔ FitsSigned w16 (distance_of starts.now at to) }
{
    is_near(starts[to as usize], at, 32767)
}

/// Whether the distance from `at` to instruction `to` fits 32 bits.
fn fits_32(starts: &[u64], at: u64, to: u32) -> bool
    requires { to < length starts.now }
    ensures { IsTrue result ↔ FitsSigned w32 (distance_of starts.now at to) }
{
    is_near(starts[to as usize], at, 2147483647)
}

/// Whether the offset of a branch, or of what refers to a payload, fits its field.
fn branch_fits(starts: &[u64], at: u64, one: &Insn<'_>) -> bool
    requires operand { IsOperand (length starts.now) (insn one.now) }
    ensures { IsTrue result ↔ BranchFits starts.now at (insn one.now) }
{
    match *one {
        Insn::I10t { to, .. } => fits_8(starts, at, to),
        Insn::I20t { to, .. } | Insn::I21t { to, .. } | Insn::I22t { to, .. } => {
            fits_16(starts, at, to)
        }
        Insn::I30t { to, .. } | Insn::I31t { to, .. } => fits_32(starts, at, to),
        _ => true,
    }
}

/// Whether all targets are near.
fn all_fit(starts: &[u64], at: u64, targets: &[u32]) -> bool
    requires inside { (i : ℕ) → i < length targets.now → slice_index targets.now i < length starts.now }
    ensures { IsTrue result ↔ ((i : ℕ) → i < length targets.now → FitsSigned w32 (distance_of starts.now at (slice_index targets.now i))) }
{
    for i in 0..targets.len() {
        if !fits_32(starts, at, targets[i]) {
            return false;
        }
    }
    true
}

/// Whether the offsets in a switch's payload fit, which count from an address.
fn targets_fit(starts: &[u64], at: u64, one: &Insn<'_>) -> bool
    requires operand { IsOperand (length starts.now) (insn one.now) }
    ensures { IsTrue result ↔ TargetsFit starts.now at (insn one.now) }
{
    all_fit(starts, at, targets_of(one))
}

/// Whether the offsets in instruction k fit.
fn insn_fits(starts: &[u64], origins: &[u32], insns: &[Insn<'_>], k: usize) -> bool
    requires count { length starts.now ≡ length insns.now }
    requires inside { k < length insns.now }
    requires operand { IsOperand (length insns.now) (insn_at (map insn insns.now) k) }
    requires payload { PayloadHolds (map insn insns.now) k }
    requires origins { AreOrigins (map insn insns.now) origins.now }
    ensures { IsTrue result ↔ OffsetsFit (map insn insns.now) starts.now k }
{
    let one = &insns[k];
    if !branch_fits(starts, starts[k], one) {
        return false;
    }
    targets_fit(starts, starts[origins[k] as usize], one)
}

/// Whether all offsets fit.
pub(crate) fn offsets_fit(starts: &[u64], origins: &[u32], insns: &[Insn<'_>]) -> bool
    requires count { length starts.now ≡ length insns.now }
    requires operands { (k : ℕ) → k < length insns.now → IsOperand (length insns.now) (insn_at (map insn insns.now) k) }
    requires payloads { (k : ℕ) → k < length insns.now → PayloadHolds (map insn insns.now) k }
    requires origins { AreOrigins (map insn insns.now) origins.now }
    ensures { IsTrue result ↔ ((k : ℕ) → k < length insns.now → OffsetsFit (map insn insns.now) starts.now k) }
{
    for k in 0..insns.len() {
        if !insn_fits(starts, origins, insns, k) {
            return false;
        }
    }
    true
}

/// Whether instruction k, if it is a payload, has an even address.
fn is_even(starts: &[u64], insns: &[Insn<'_>], k: usize) -> bool
    requires count { length starts.now ≡ length insns.now }
    requires inside { k < length insns.now }
    ensures { IsTrue result ↔ IsEven (map insn insns.now) starts.now k }
{
    match payload_of(&insns[k]) {
        Some(_) => starts[k] % 2 == 0,
        None => true,
    }
}

/// Whether all payloads have even addresses.
pub(crate) fn are_even(starts: &[u64], insns: &[Insn<'_>]) -> bool
    requires count { length starts.now ≡ length insns.now }
    ensures { IsTrue result ↔ ((k : ℕ) → k < length insns.now → IsEven (map insn insns.now) starts.now k) }
{
    for k in 0..insns.len() {
        if !is_even(starts, insns, k) {
            return false;
        }
    }
    true
}
