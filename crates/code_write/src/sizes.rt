//! The sizes of instructions, and so their addresses, in 16-bit units.

ghost use Rattle.std.specs.Prelude.{◌≡◌, ◌≤◌, ◌<◌, ◌++◌, [], ◌∷◌, ℕ, length, map, IfOk, IsOkUnless};
ghost use Rattle.dex_base.specs.Fault.{memory};
ghost use Rattle.program_types.specs.View.{insn};
ghost use Rattle.program_types.specs.View as view;
ghost use Rattle.program_types.specs.Sizes.{insn_units, addresses_of, length_of};
ghost use Rattle.program_types.specs.Formed.{insn_at, IsFormed};
ghost use Rattle.program_types.specs.Operands.{IsOperand};

use dex_base::Fault;
use program_types::{Code, Insn};
use std::alloc::{AllocError, Global};

/// The number of units of an instruction: the first digit of its format's ID, or the size of the payload.
///
/// Pages: "Dalvik Executable instruction formats", "Format IDs"; "Dalvik bytecode", the formats of the payloads.
#[tactic(auto, unfolding(program_types::specs::Sizes::insn_units))]
pub fn units_of(one: &Insn<'_>) -> u64
    ensures { result ≡ insn_units (insn one.now) }
{
    match one {
        Insn::I10x { .. }
        | Insn::I12x { .. }
        | Insn::I11n { .. }
        | Insn::I11x { .. }
        | Insn::I10t { .. } => 1,
        Insn::I30t { .. }
        | Insn::I32x { .. }
        | Insn::I31i { .. }
        | Insn::I31t { .. }
        | Insn::I31c { .. }
        | Insn::I35c { .. }
        | Insn::I3rc { .. } => 3,
        Insn::I51l { .. } => 5,
        Insn::Packed { targets, .. } => 4 + 2 * targets.len() as u64,
        Insn::Sparse { keys, .. } => 2 + 4 * keys.len() as u64,
        Insn::Data { bytes, .. } => 4 + (bytes.len() as u64 + 1) / 2,
        _ => 2,
    }
}

/// The address of each instruction, and where the last one ends.
#[derive(Drop)]
pub(crate) struct Starts {
    pub starts: Vec<u64>,
    pub end: u64,
}

/// The addresses of instructions.
pub(crate) fn starts_of(alloc: Global, insns: &[Insn<'_>]) -> Result<Starts, AllocError>
    requires few { length insns.now ≤ 2147483647 }
    requires operands { (k : ℕ) → k < length insns.now → IsOperand (length insns.now) (insn_at (map insn insns.now) k) }
    ensures ok { IfOk result (λ all. all.starts.items ≡ addresses_of (map insn insns.now)) }
    ensures end { IfOk result (λ all. all.end ≡ length_of (map insn insns.now)) }
{
    let mut starts = Vec::with_capacity(alloc, insns.len())?;
    let mut at: u64 = 0;
    for k in 0..insns.len() {
        starts.push(at)?;
        at += units_of(&insns[k]);
    }
    Ok(Starts { starts, end: at })
}

/// The address of each instruction of a code that is well formed, in units from its first one, and the length of all of
/// them last. It fails only when out of memory.
///
/// Page: "Dalvik bytecode": addresses count 16-bit units.
///
/// ```
/// use dex_code::addresses;
/// use dex_program::{Code, Insn};
///
/// let code = Code { registers: 0, ins: 0, outs: 0, insns: &[Insn::I10x { op: 0x0e }], tries: &[] }; // return-void
/// assert_eq!(rt; addresses(alloc, &code)?.as_slice(), [0, 1].as_slice());
/// ```
pub fn addresses(alloc: Global, code: &Code<'_>) -> Result<Vec<u64>, Fault>
    requires { IsFormed (view.code code.now) }
    ensures ok { IfOk result (λ all. all.items ≡ addresses_of (map insn code.now.insns.now) ++ length_of (map insn code.now.insns.now) ∷ []) }
    ensures memory { IsOkUnless result memory }
{
    let Starts { mut starts, end } = starts_of(alloc, code.insns)?;
    starts.push(end)?;
    Ok(starts)
}
