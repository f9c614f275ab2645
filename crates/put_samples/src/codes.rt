//! A loop with a try, whether a code keeps the rules, and its item where it names nothing.

ghost use Rattle.std.specs.Prelude.{◌≡◌, ◌≤◌, ◌<◌, [], IfOk, IsTrue};
ghost use Rattle.std.specs.List.{flat_map};
ghost use Rattle.code_write.specs.Fits.{wide_code};
ghost use Rattle.tables_names.specs.Closure.{nothing};
ghost use Rattle.program_types.specs.Formed.{IsFormed};
ghost use Rattle.program_types.specs.Mentions.{names_of_insn, names_of_try};
ghost use Rattle.program_types.specs.View as view;

use code_rules::{CodeRule, code_holds};
use code_write::{fits, put_code};
use dex_base::Fault;
use program_types::{Code, Insn, Try};
use std::alloc::Global;
use tables_names::{Needed, Ranks};

/// const/4, if-eqz over the goto, a goto back to it, return-void, and a try of the two in between.
pub static LOOP: Code<'static> = Code {
    registers: 1,
    ins: 0,
    outs: 0,
    insns: &[
        Insn::I11n {
            op: 0x12,
            a: 0,
            b: 0,
        },
        Insn::I21t {
            op: 0x38,
            a: 0,
            to: 3,
        },
        Insn::I10t { op: 0x28, to: 1 },
        Insn::I10x { op: 0x0e },
    ],
    tries: &[Try {
        from: 1,
        to: 3,
        catches: &[],
        catch_all: Some(3),
    }],
};

/// A number of 16 bits.
fn is_u16(_number: u16)
    ensures { _number < 65536 }
{}

/// Whether the code keeps the rules of a program's.
pub fn is_formed(code: &Code<'_>) -> bool
    ensures { IsTrue result → IsFormed (view.code code.now) }
{
    is_u16(code.registers);
    is_u16(code.ins);
    is_u16(code.outs);
    if !code_holds(CodeRule::Operand, code) {
        return false;
    }
    if !code_holds(CodeRule::Target, code) {
        return false;
    }
    if !code_holds(CodeRule::PayloadUse, code) {
        return false;
    }
    if !code_holds(CodeRule::Try, code) {
        return false;
    }
    code_holds(CodeRule::Register, code)
}

/// The ranks of no names.
pub fn no_ranks<'a>(alloc: Global) -> Result<Ranks<'a>, Fault>
    ensures { IfOk result (λ r. r ≡ nothing) }
{
    Needed::new(alloc).freeze()
}

/// Appends the item of a code without names, if it keeps the rules. Refused as `fits` refuses it.
pub fn put_nameless(out: &mut Vec<u8>, ranks: &Ranks<'_>, code: &Code<'_>) -> Result<(), Fault>
    requires ranks { ranks.now ≡ nothing }
    requires insns { flat_map names_of_insn (view.code code.now).insns ≡ [] }
    requires tries { flat_map names_of_try (view.code code.now).tries ≡ [] }
    requires short { wide_code (view.code code.now) ≤ 4294967295 }
{
    if is_formed(code) {
        fits(*out.allocator(), ranks, code)?;
        put_code(out, ranks, code)?;
    }
    Ok(())
}
