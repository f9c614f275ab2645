//! From where the offsets of an instruction count.

ghost use Rattle.std.specs.Prelude.{◌≡◌, ◌↔◌, ℕ, ◌<◌, ◌≤◌, length, map, slice_index, IfOk, IsTrue};
ghost use Rattle.program_types.specs.Formed.{insn_at, insn_payload, IsSwitch, RefersToPayload};
ghost use Rattle.program_types.specs.View.{insn};
ghost use Rattle.code_rules.specs.inner.Branches.{AreOrigins};

use crate::payloads::{reach_at, refers};
use program_types::{Insn, is_switch, payload_of};
use std::alloc::{AllocError, Global};

/// Whether instruction `j` is a switch whose payload is instruction `k`.
fn is_switch_of(insns: &[Insn<'_>], j: usize, k: usize) -> bool
    requires inside { j < length insns.now }
    ensures { IsTrue result ↔ (IsSwitch (insn_payload (insn_at (map insn insns.now) k)) × RefersToPayload (map insn insns.now) j k) }
{
    if !refers(insns, j, k) {
        return false;
    }
    is_switch(payload_of(&insns[k]))
}

/// Notes each switch at its payload, where at each place its own number was noted.
fn mark_switches(all: &mut [u32], insns: &[Insn<'_>])
    requires few { length insns.now ≤ 4294967295 }
    requires count { length all.old ≡ length insns.now }
    requires own { (k : ℕ) → k < length insns.now → slice_index all.old k ≡ k }
    ensures { AreOrigins (map insn insns.now) all.new }
{
    for j in 0..insns.len() {
        let k = reach_at(insns, j) as usize;
        if is_switch_of(insns, j, k) {
            all[k] = j as u32;
        }
    }
}

/// Of each instruction the one from which its offsets count: of a payload that has a switch its last switch, else itself.
pub fn origins_of(alloc: Global, insns: &[Insn<'_>]) -> Result<Vec<u32>, AllocError>
    requires few { length insns.now ≤ 4294967295 }
    ensures { IfOk result (λ all. AreOrigins (map insn insns.now) all.items) }
{
    let mut all = Vec::with_capacity(alloc, insns.len())?;
    for k in 0..insns.len() {
        all.push(k as u32)?;
    }
    mark_switches(&mut all, insns);
    Ok(all)
}
