//! Writing one instruction.

ghost use Rattle.std.specs.Prelude.{◌≡◌, ◌*◌, ◌/◌, ◌%◌, ◌++◌, [], ◌∷◌, OnOk, OnErr, IsOk, IsOkUnless, length, vec_len, vec_capacity, ◌+◌, ◌≤◌};
ghost use Rattle.dex_base.specs.Fault.{memory};
ghost use Rattle.dex_insn.specs.Raw.{raw, units};
ghost use Rattle.dex_insn.specs.RawInsns.{SpellsInsn};
ghost use Rattle.dex_insn.specs.Written.{IsRaw, written, bytes_of};

use crate::put_payload::{put_data, put_packed, put_sparse};
use crate::put_units::{
    four_nibbles, high_half, low_half, nibbles, pair, put_five, put_one, put_three, put_two,
};
use crate::raw::RawInsn;
use dex_base::Fault;
use std::alloc::AllocError;

/// Appends a unit and the four units of a number of 64 bits.
fn put_long(out: &mut Vec<u8>, first: u16, bits: u64) -> Result<(), AllocError>
    ensures ok { OnOk result (out.new.items ≡ out.old.items ++ bytes_of (first ∷ bits % 65536 ∷ bits / 65536 % 65536 ∷ bits / 4294967296 % 65536 ∷ bits / 281474976710656 ∷ [])) }
    ensures err { OnErr result (out.new.items ≡ out.old.items) }
    ensures room { vec_len out.old + 10 ≤ vec_capacity out.old → IsOk result }
{
    put_five(
        out,
        first,
        (bits % 65536) as u16,
        (bits / 65536 % 65536) as u16,
        (bits / 4294967296 % 65536) as u16,
        (bits / 281474976710656) as u16,
    )
}

/// Appends an instruction or a payload, by its format.
#[rattlefmt::skip]
#[tactic(auto, unfolding(crate::specs::Written::written, crate::specs::Raw::raw, crate::specs::Raw::units))]
fn put_raw(out: &mut Vec<u8>, insn: RawInsn<'_>) -> Result<(), AllocError>
    requires { IsRaw (raw insn) }
    ensures ok { OnOk result (out.new.items ≡ out.old.items ++ written (raw insn.entry)) }
    ensures err { OnErr result (out.new.items ≡ out.old.items) }
    ensures room { vec_len out.old + 2 * units (raw insn.entry) ≤ vec_capacity out.old → IsOk result }
{
    match insn {
        RawInsn::I10x { op } => put_one(out, u16::from(op)),
        RawInsn::I12x { op, a, b } => put_one(out, nibbles(op, a, b)),
        RawInsn::I11n { op, a, b } => put_one(out, nibbles(op, a, b.cast_unsigned() % 16)),
        RawInsn::I11x { op, a } => put_one(out, pair(op, a)),
        RawInsn::I10t { op, offset } => put_one(out, pair(op, (offset.cast_unsigned() % 256) as u8)),
        RawInsn::I20t { op, offset } => put_two(out, u16::from(op), low_half(offset)),
        RawInsn::I22x { op, a, b } => put_two(out, pair(op, a), b),
        RawInsn::I21t { op, a, offset } => put_two(out, pair(op, a), low_half(offset)),
        RawInsn::I21s { op, a, b } => put_two(out, pair(op, a), b.cast_unsigned()),
        RawInsn::I21h { op, a, b } => put_two(out, pair(op, a), b.cast_unsigned()),
        RawInsn::I21c { op, a, index } => put_two(out, pair(op, a), index as u16),
        RawInsn::I23x { op, a, b, c } => put_two(out, pair(op, a), pair(b, c)),
        RawInsn::I22b { op, a, b, c } => put_two(out, pair(op, a), pair(b, c.cast_unsigned())),
        RawInsn::I22t { op, a, b, offset } => put_two(out, nibbles(op, a, b), low_half(offset)),
        RawInsn::I22s { op, a, b, c } => put_two(out, nibbles(op, a, b), c.cast_unsigned()),
        RawInsn::I22c { op, a, b, index } => put_two(out, nibbles(op, a, b), index as u16),
        RawInsn::I30t { op, offset } => put_three(out, u16::from(op), low_half(offset), high_half(offset)),
        RawInsn::I32x { op, a, b } => put_three(out, u16::from(op), a, b),
        RawInsn::I31i { op, a, b } => put_three(out, pair(op, a), low_half(b), high_half(b)),
        RawInsn::I31t { op, a, offset } => put_three(out, pair(op, a), low_half(offset), high_half(offset)),
        RawInsn::I31c { op, a, index } => put_three(out, pair(op, a), (index % 65536) as u16, (index / 65536) as u16),
        RawInsn::I35c { op, n, regs, index } => put_three(out, nibbles(op, regs[4], n), index as u16, four_nibbles(regs[0], regs[1], regs[2], regs[3])),
        RawInsn::I3rc { op, n, first, index } => put_three(out, pair(op, n), index as u16, first),
        RawInsn::I51l { op, a, b } => put_long(out, pair(op, a), b.cast_unsigned()),
        RawInsn::Packed { first, offsets } => put_packed(out, first, offsets),
        RawInsn::Sparse { keys, offsets } => put_sparse(out, keys, offsets),
        RawInsn::Data { width, bytes } => put_data(out, width, bytes),
    }
}

/// Appends the units of an instruction or payload, as bytes, two to a unit, the low byte first. The formats are those
/// of the page "Dalvik Executable instruction formats", the payloads those of the page "Dalvik bytecode"; the nibbles of
/// registers that format 35c doesn't name are 0, and so is the byte that pads an array payload.
///
/// The opcode has to be one of the variant's format, each operand has to fit its field, registers that 35c doesn't name have to be
/// 0, and a payload has to keep its rules. It fails only when out of memory, and then leaves the Vec as it was; a Vec with the
/// capacity for the units never fails.
///
/// ```
/// use dex_insn::{RawInsn, put_insn};
///
/// let mut out = Vec::new(alloc);
/// put_insn(&mut out, &RawInsn::I11n { op: 0x12, a: 0, b: -1 })?; // const/4 v0, -1
/// assert_eq!(rt; out.as_slice(), [0x12, 0xf0].as_slice());
/// ```
#[tactic(auto, using(crate::proofs::Spelled::spells, crate::proofs::Spelled::length_written))]
pub fn put_insn(out: &mut Vec<u8>, insn: &RawInsn<'_>) -> Result<(), Fault>
    requires { IsRaw (raw insn.now) }
    // These bytes are appended.
    ensures ok { OnOk result (out.new.items ≡ out.old.items ++ written (raw insn.now)) }
    // They spell the instruction, and are its units.
    ensures spelled { SpellsInsn (written (raw insn.now)) (raw insn.now) }
    ensures whole { length (written (raw insn.now)) ≡ 2 * units (raw insn.now) }
    ensures err { OnErr result (out.new.items ≡ out.old.items) }
    ensures memory { IsOkUnless result memory }
    // Where there is room for its units, there is none.
    ensures room { vec_len out.old + 2 * units (raw insn.now) ≤ vec_capacity out.old → IsOk result }
{
    put_raw(out, *insn)?;
    Ok(())
}
