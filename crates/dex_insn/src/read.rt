//! Reading one instruction.

ghost use Rattle.std.specs.Prelude.{◌≡◌, ◌≤◌, length, IfOk, IfErr, IsOk, IsOkAnd, ◌%◌};
ghost use Rattle.dex_insn.specs.Raw.{Raw, raw};
ghost use Rattle.dex_insn.specs.RawInsns.{SpellsInsn, IsPayload, InsnStands};
ghost use Rattle.dex_insn.specs.Flaws.{InsnBreaks, IsFaultAt};
ghost use Rattle.dex_insn.specs.inner.Flaws.{code_of};

use crate::flaw::Flaw;
use crate::payload::{read_data, read_packed, read_sparse};
use crate::plain::take_plain;
use crate::raw::RawInsn;
use crate::take::{Take, Whole, made};
use crate::units::unit;
use dex_base::Fault;

/// Reads the instruction or payload at the front of the bytes, whose first unit is unit `at`, and returns what `v` makes of it.
#[inline(always)]
#[tactic(auto, using(crate::proofs::Flaws::odd_payload, crate::proofs::Flaws::payload))]
fn take_front<'b, V: Take<'b>>(front: &'b [u8], at: u32, v: V) -> Result<V::Out, Flaw>
    requires long { 2 ≤ length front.now }
    ensures ok { IfOk result (λ out. (r : Raw) × SpellsInsn front.now r × V.takes v r out) }
    ensures even { IfOk result (λ out. IsPayload front.now → at % 2 ≡ 0) }
    ensures err { IfErr result (λ flaw. InsnBreaks at front.now (code_of flaw)) }
{
    match unit(front, 0) {
        0x0100 | 0x0200 | 0x0300 if at % 2 == 1 => Err(Flaw::OddPayload),
        0x0100 => Ok(made(v, front, read_packed(front)?)),
        0x0200 => Ok(made(v, front, read_sparse(front)?)),
        0x0300 => Ok(made(v, front, read_data(front)?)),
        _ => take_plain(front, v),
    }
}

/// The refusal of the instruction at unit `at`.
#[inline(always)]
fn fault(flaw: Flaw, at: u32) -> Fault
    ensures code { result.code ≡ code_of flaw }
    ensures place { result.place ≡ at }
{
    Fault::at(flaw.code(), u64::from(at))
}

/// Reads the instruction or payload at unit `at` as `read_insn` does, with its errors, and returns what `v` makes of it.
///
/// ```
/// let units = take_insn(&[0x12, 0xf0], 0, Size)?; // 1, where `Size` makes `size_of` of each: see `Take`
/// ```
#[inline(always)]
pub fn take_insn<'b, V: Take<'b>>(units: &'b [u8], at: u32, v: V) -> Result<V::Out, Fault>
    // It is made of what stands there.
    ensures ok { IfOk result (λ out. (r : Raw) × InsnStands units.now at r × V.takes v r out) }
    // Where an instruction stands, something is made of it.
    ensures only { (r : Raw) → InsnStands units.now at r → IsOk result }
    // A refusal names a rule that is broken there.
    ensures err { IfErr result (λ fault. IsFaultAt units.now at fault) }
{
    let begin = 2 * at as usize;
    if units.len() < begin + 2 {
        return Err(fault(Flaw::Missing, at));
    }
    match take_front(&units[begin..], at, v) {
        Ok(out) => Ok(out),
        Err(flaw) => Err(fault(flaw, at)),
    }
}

/// Reads the instruction or payload at unit `at` of a code's units, given as bytes, two to a unit, the low byte first; a
/// single last byte is no unit. The formats are those of the page "Dalvik Executable instruction formats", opcodes and payloads
/// those of the page "Dalvik bytecode".
///
/// An error has the place `at`, in units, and one of the codes 62 (unused opcode), 63 (it goes past the units, or `at` does),
/// 64 (a bit that has to be 0 is set), 66 (format 35c with more than five registers) and 67 (a payload at an odd unit, an element
/// width other than 1, 2, 4 and 8, or keys that do not rise strictly). If several rules are violated, the first in the order
/// 62, 63, 64, 66 is returned, and for payloads in the order odd unit, head past the units, width, length past the units, keys.
///
/// ```
/// use dex_insn::{RawInsn, read_insn};
///
/// let insn = read_insn(&[0x12, 0xf0], 0)?; // const/4 v0, -1
/// assert!(rt; matches!(insn, RawInsn::I11n { op: 0x12, a: 0, b: -1 }));
/// ```
#[inline(always)]
pub fn read_insn(units: &[u8], at: u32) -> Result<RawInsn<'_>, Fault>
    // What is read stands there.
    ensures ok { IfOk result (λ insn. InsnStands units.now at (raw insn)) }
    // What stands there is read.
    ensures only { (r : Raw) → InsnStands units.now at r → IsOkAnd result (λ insn. raw insn ≡ r) }
    // A refusal names a rule that is broken there.
    ensures err { IfErr result (λ fault. IsFaultAt units.now at fault) }
{
    take_insn(units, at, Whole)
}
