//! Which registers an instruction names.

ghost use Rattle.std.specs.Prelude.{◌≡◌, ◌≤◌, length, take, max};
ghost use Rattle.std.specs.List.{range_with_len, reduce};
ghost use Rattle.dex_insn.specs.Raw.{raw};
ghost use Rattle.dex_insn.specs.Registers.{named_registers};

use crate::raw::RawInsn;

/// The greatest of some registers.
#[inline(always)]
fn greatest(regs: &[u8]) -> Option<u8>
    ensures { result ≡ reduce max regs.now }
{
    regs.iter().copied().max()
}

/// The greatest of the first `n` of five registers.
#[inline(always)]
fn greatest_named(n: u8, regs: &[u8; 5]) -> Option<u32>
    ensures { result ≡ reduce max (take n regs.now) }
{
    Some(u32::from(greatest(&regs[..usize::from(n).min(5)])?))
}

/// The last of `n` registers from `first` on.
#[inline(always)]
fn last_named(n: u8, first: u16) -> Option<u32>
    ensures { result ≡ reduce max (range_with_len first n) }
{
    if n == 0 {
        return None;
    }
    Some(u32::from(first) + u32::from(n) - 1)
}

/// The greatest register that an instruction names: `None` where it names none. Of format 35c it is one of the first `n`, of
/// 3rc the last of the `n` from `first` on. The second half of a wide pair isn't named.
///
/// ```
/// use dex_insn::{RawInsn, top_register};
///
/// assert_eq!(rt; top_register(&RawInsn::I12x { op: 0x01, a: 3, b: 15 }), Some(15)); // move v3, v15
/// ```
#[inline(always)]
#[rattlefmt::skip]
#[tactic(auto, unfolding(crate::specs::Raw::raw, crate::specs::Registers::named_registers))]
pub fn top_register(insn: &RawInsn<'_>) -> Option<u32>
    ensures { result ≡ reduce max (named_registers (raw insn.now)) }
{
    match *insn {
        RawInsn::I11n { a, .. } | RawInsn::I11x { a, .. } | RawInsn::I21t { a, .. } | RawInsn::I21s { a, .. } | RawInsn::I21h { a, .. }
        | RawInsn::I21c { a, .. } | RawInsn::I31i { a, .. } | RawInsn::I31t { a, .. } | RawInsn::I31c { a, .. } | RawInsn::I51l { a, .. } => Some(u32::from(a)),
        RawInsn::I12x { a, b, .. } | RawInsn::I22b { a, b, .. } | RawInsn::I22t { a, b, .. } | RawInsn::I22s { a, b, .. }
        | RawInsn::I22c { a, b, .. } => Some(u32::from(a.max(b))),
        RawInsn::I22x { a, b, .. } => Some(u32::from(u16::from(a).max(b))),
        RawInsn::I23x { a, b, c, .. } => Some(u32::from(a.max(b).max(c))),
        RawInsn::I32x { a, b, .. } => Some(u32::from(a.max(b))),
        RawInsn::I35c { n, ref regs, .. } => greatest_named(n, regs),
        RawInsn::I3rc { n, first, .. } => last_named(n, first),
        RawInsn::I10x { .. } | RawInsn::I10t { .. } | RawInsn::I20t { .. } | RawInsn::I30t { .. } | RawInsn::Packed { .. }
        | RawInsn::Sparse { .. } | RawInsn::Data { .. } => None,
    }
}
