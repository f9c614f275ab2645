//! Which instructions get nops before them, and the new numbers of all.

ghost use Rattle.std.specs.Prelude.{◌≡◌, ◌≢◌, ◌≤◌, ◌<◌, ◌+◌, ◌^◌, if◌then◌else◌, ℕ, length, map, IfOk, IfErr};
ghost use Rattle.dex_base.specs.Fault.{memory};
ghost use Rattle.program_types.specs.View.{insn};
ghost use Rattle.program_types.specs.Formed.{insn_at};
ghost use Rattle.program_types.specs.Operands.{IsOperand};
ghost use Rattle.program_types.specs.Sizes.{insn_units};
ghost use Rattle.code_align.specs.Aligned.{moved};
ghost use Rattle.code_align.specs.Aligning.{too_many};
ghost use Rattle.code_align.specs.inner.Aligning.{is_odd, pads_from, AreMovedNumbers};

use code_write::units_of;
use dex_base::{Fault, fault};
use program_types::Insn;
use std::alloc::{AllocError, Global};

/// Whether an instruction at this address is a payload at an odd one.
#[tactic(auto, unfolding(program_types::specs::Formed::insn_payload))]
fn is_odd(at: u64, one: &Insn<'_>) -> bool
    ensures { result ≡ is_odd at (insn one.now) }
{
    match *one {
        Insn::Packed { .. } | Insn::Sparse { .. } | Insn::Data { .. } => at % 2 == 1,
        _ => false,
    }
}

/// Where an instruction ends, with a nop before it or not.
fn after(at: u64, nop: bool, one: &Insn<'_>) -> u64
    requires at { at ≤ 2 ^ 63 }
    requires units { insn_units (insn one.now) ≤ 4294967296 }
    ensures { result ≡ at + (if nop then 1 else 0) + insn_units (insn one.now) }
{
    if nop {
        return at + 1 + units_of(one);
    }
    at + units_of(one)
}

/// Which instructions get a nop before them: walking forwards, each payload that would be at an odd address.
pub(crate) fn pads_of(alloc: Global, insns: &[Insn<'_>]) -> Result<Vec<bool>, AllocError>
    requires few { length insns.now ≤ 2147483647 }
    requires operands { (k : ℕ) → k < length insns.now → IsOperand (length insns.now) (insn_at (map insn insns.now) k) }
    ensures ok { IfOk result (λ pads. pads.items ≡ pads_from 0 (map insn insns.now)) }
{
    let mut pads = Vec::with_capacity(alloc, insns.len())?;
    let mut at: u64 = 0;
    for k in 0..insns.len() {
        let one = &insns[k];
        let odd = is_odd(at, one);
        pads.push(odd)?;
        at = after(at, odd, one);
    }
    Ok(pads)
}

/// One nop more, or not.
fn with_nop(nops: u32, nop: bool) -> u32
    requires { nops ≤ 2147483647 }
    ensures { result ≡ (if nop then 1 else 0) + nops }
{
    if nop {
        return nops + 1;
    }
    nops
}

/// The new number of each instruction, and of the place past the last one. 90 where these are more than a code can have.
pub(crate) fn numbers_of(alloc: Global, pads: &[bool]) -> Result<Vec<u32>, Fault>
    requires few { length pads.now ≤ 2147483647 }
    ensures ok { IfOk result (λ all. AreMovedNumbers pads.now all.items) }
    ensures few { IfOk result (λ all. moved pads.now (length pads.now) ≤ 2147483647) }
    ensures err { IfErr result (λ e. e ≢ memory → (e ≡ too_many) × (2147483647 < moved pads.now (length pads.now))) }
{
    let mut all = Vec::with_capacity(alloc, pads.len())?;
    let mut nops: u32 = 0;
    for k in 0..pads.len() {
        nops = with_nop(nops, pads[k]);
        all.push(k as u32 + nops)?;
    }
    let end = pads.len() as u32 + nops;
    if end > 2147483647 {
        return Err(Fault::at(fault::TOO_BIG, 0));
    }
    all.push(end)?;
    Ok(all)
}
