//! The instructions of a code, end to end.

ghost use Rattle.std.specs.Prelude.{◌≡◌, ◌*◌, ◌%◌, ◌^◌, ◌<◌, ◌≤◌, ◌≢◌, length, map, IfOk, IfErr};
ghost use Rattle.dex_base.specs.Fault.{memory};
ghost use Rattle.dex_insn.specs.Raw.{raw};
ghost use Rattle.code_read.specs.Walk.{Walks, IsWalkFault};
ghost use Rattle.code_read.specs.inner.Walk.{IsTable};

use dex_base::Fault;
use dex_insn::{RawInsn, read_insn, size_of};
use std::alloc::Global;

/// The instructions, and the unit at which each begins.
#[derive(Drop)]
pub(crate) struct Walked<'b> {
    pub insns: Vec<RawInsn<'b>>,
    pub starts: Vec<u32>,
}

/// For how many instructions memory is reserved before the first is read.
pub(crate) const MOST_AT_ONCE: usize = 256;

/// Reads the units as instructions end to end. The first unit is at the place `base`.
pub(crate) fn walk<'b>(alloc: Global, units: &'b [u8], base: u64) -> Result<Walked<'b>, Fault>
    requires even { length units.now % 2 ≡ 0 }
    requires short { length units.now ≤ 8589934590 }
    requires base { base < 2 ^ 40 }
    ensures ok { IfOk result (λ w. Walks units.now (map raw w.insns.items)) }
    ensures table { IfOk result (λ w. IsTable w.starts.items (map raw w.insns.items)) }
    ensures err { IfErr result (λ e. e ≢ memory → IsWalkFault units.now base e) }
{
    // Memory at once for most codes; a long payload needs no more.
    let room = (units.len() / 4).min(MOST_AT_ONCE);
    let mut insns = Vec::with_capacity(alloc, room)?;
    let mut starts = Vec::with_capacity(alloc, room)?;
    let end = units.len() as u64 / 2;
    let mut at: u64 = 0;
    while at < end {
        match read_insn(units, at as u32) {
            Ok(insn) => {
                insns.push(insn)?;
                starts.push(at as u32)?;
                at += size_of(&insn);
            }
            Err(fault) => {
                return Err(Fault::at(fault.code, base + 2 * at));
            }
        }
    }
    Ok(Walked { insns, starts })
}
