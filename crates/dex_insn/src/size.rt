//! How long an instruction is.

ghost use Rattle.std.specs.Prelude.{◌≡◌};
ghost use Rattle.dex_insn.specs.Raw.{raw, units};

use crate::raw::RawInsn;

/// The number of 16-bit units of the instruction or payload.
///
/// ```
/// use dex_insn::{RawInsn, size_of};
///
/// assert_eq!(rt; size_of(&RawInsn::I51l { op: 0x18, a: 0, b: 1 }), 5); // const-wide v0, 1
/// ```
#[inline(always)]
#[rattlefmt::skip]
#[tactic(auto, unfolding(crate::specs::Raw::raw, crate::specs::Raw::units))]
pub fn size_of(insn: &RawInsn<'_>) -> u64
    ensures { result ≡ units (raw insn.now) }
{
    match insn {
        RawInsn::I10x { .. } | RawInsn::I12x { .. } | RawInsn::I11n { .. } | RawInsn::I11x { .. } | RawInsn::I10t { .. } => 1,
        RawInsn::I20t { .. } | RawInsn::I22x { .. } | RawInsn::I21t { .. } | RawInsn::I21s { .. } | RawInsn::I21h { .. }
        | RawInsn::I21c { .. } | RawInsn::I23x { .. } | RawInsn::I22b { .. } | RawInsn::I22t { .. } | RawInsn::I22s { .. }
        | RawInsn::I22c { .. } => 2,
        RawInsn::I30t { .. } | RawInsn::I32x { .. } | RawInsn::I31i { .. } | RawInsn::I31t { .. } | RawInsn::I31c { .. }
        | RawInsn::I35c { .. } | RawInsn::I3rc { .. } => 3,
        RawInsn::I51l { .. } => 5,
        RawInsn::Packed { offsets, .. } => 4 + 2 * (offsets.len() as u64 / 4),
        RawInsn::Sparse { keys, .. } => 2 + 4 * (keys.len() as u64 / 4),
        RawInsn::Data { bytes, .. } => 4 + (bytes.len() as u64 + 1) / 2,
    }
}
