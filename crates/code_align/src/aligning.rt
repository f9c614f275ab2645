//! Aligning a code.

ghost use Rattle.std.specs.Prelude.{◌≡◌, ◌≢◌, ◌<◌, length, IfOk, IfErr};
ghost use Rattle.dex_base.specs.Fault.{memory};
ghost use Rattle.program_types.specs.Content as content;
ghost use Rattle.program_types.specs.View as view;
ghost use Rattle.program_types.specs.Formed.{IsFormed};
ghost use Rattle.code_align.specs.Aligned.{Aligned};
ghost use Rattle.code_align.specs.Aligning.{too_many};

use crate::moving::{moved_insns, moved_tries};
use crate::pads::{numbers_of, pads_of};
use bumpalo::Bump;
use dex_base::Fault;
use program_types::Code;
use std::alloc::Global;

/// Returns the code with a nop before each payload that would be at an odd address, walking forwards. Targets, tries and handlers
/// move with the instructions; the number past the last one moves by all nops. The result is well formed. An error is 90, if more
/// than 2147483647 instructions would result, or out of memory.
///
/// Page: "Dalvik bytecode": payloads are at even addresses.
///
/// ```
/// use bumpalo::Bump;
/// use dex_code::align;
/// use dex_program::{Code, Insn};
///
/// let arena = Bump::new(alloc);
/// let insns = &[Insn::I31t { op: 0x2b, a: 0, to: 1 }, Insn::Packed { first: 0, targets: &[0] }]; // a payload at an odd address
/// let code = Code { registers: 1, ins: 0, outs: 0, insns, tries: &[] };
/// assert_eq!(rt; align(alloc, &arena, &code)?.insns.len(), 3); // a nop before it
/// ```
pub fn align<'a>(alloc: Global, arena: &'a Bump, code: &Code<'a>) -> Result<Code<'a>, Fault>
    requires formed { IsFormed (view.code code.now) }
    ensures ok { IfOk result (λ d. Aligned (view.code code.now) (view.code d)) }
    ensures formed { IfOk result (λ d. IsFormed (view.code d)) }
    ensures err { IfErr result (λ e. e ≢ memory → (e ≡ too_many) × ((d : content.Code) → Aligned (view.code code.now) d → 2147483647 < length d.insns)) }
{
    let pads = pads_of(alloc, code.insns)?;
    let numbers = numbers_of(alloc, &pads)?;
    let insns = moved_insns(arena, &numbers, &pads, code.insns)?;
    let tries = moved_tries(arena, &numbers, code.tries)?;
    Ok(Code {
        registers: code.registers,
        ins: code.ins,
        outs: code.outs,
        insns,
        tries,
    })
}
