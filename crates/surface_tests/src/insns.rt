//! dex_insn.
ghost use Rattle.dex_insn.specs.Raw.{raw};
ghost use Rattle.dex_insn.specs.Written.{IsRaw};

use dex_base::Fault;
use dex_insn::{
    Format, IndexKind, OPCODES, Opcode, RawInsn, put_insn, read_insn, size_of, top_register,
};

pub fn opcodes() -> &'static [Option<Opcode<&'static str>>; 256] {
    &OPCODES
}

pub fn parts_of_opcode<'m>(row: Opcode<&'m str>) -> (&'m str, Format, Option<IndexKind>) {
    let Opcode {
        mnemonic,
        format,
        index,
    } = row;
    (mnemonic, format, index)
}

pub fn raw_read<'b>(units: &'b [u8], at: u32) -> Result<RawInsn<'b>, Fault> {
    read_insn(units, at)
}

pub fn raw_size(insn: &RawInsn<'_>) -> u64 {
    size_of(insn)
}

pub fn raw_put(out: &mut Vec<u8>, insn: &RawInsn<'_>) -> Result<(), Fault>
    requires { IsRaw (raw insn.now) }
{
    put_insn(out, insn)
}

pub fn raw_top(insn: &RawInsn<'_>) -> Option<u32> {
    top_register(insn)
}

/// Each variant, and each of its fields with its type.
pub fn parts_of_raw<'b>(insn: RawInsn<'b>) {
    match insn {
        RawInsn::I10x { op } => bytes([op, 0, 0, 0]),
        RawInsn::I12x { op, a, b } => bytes([op, a, b, 0]),
        RawInsn::I11n { op, a, b } => byte(op, a, b),
        RawInsn::I11x { op, a } => bytes([op, a, 0, 0]),
        RawInsn::I10t { op, offset } => wide(op, 0, offset),
        RawInsn::I20t { op, offset } => wide(op, 0, offset),
        RawInsn::I22x { op, a, b } => unit(op, a, b),
        RawInsn::I21t { op, a, offset } => wide(op, a, offset),
        RawInsn::I21s { op, a, b } => short(op, a, b),
        RawInsn::I21h { op, a, b } => short(op, a, b),
        RawInsn::I21c { op, a, index } => indexed(op, a, index),
        RawInsn::I23x { op, a, b, c } => bytes([op, a, b, c]),
        RawInsn::I22b { op, a, b, c } => byte_of_two(op, a, b, c),
        RawInsn::I22t { op, a, b, offset } => wide_of_two(op, a, b, offset),
        RawInsn::I22s { op, a, b, c } => short_of_two(op, a, b, c),
        RawInsn::I22c { op, a, b, index } => indexed_of_two(op, a, b, index),
        RawInsn::I30t { op, offset } => wide(op, 0, offset),
        RawInsn::I32x { op, a, b } => units(op, a, b),
        RawInsn::I31i { op, a, b } => wide(op, a, b),
        RawInsn::I31t { op, a, offset } => wide(op, a, offset),
        RawInsn::I31c { op, a, index } => indexed(op, a, index),
        RawInsn::I35c { op, n, regs, index } => listed(op, n, regs, index),
        RawInsn::I3rc {
            op,
            n,
            first,
            index,
        } => ranged(op, n, first, index),
        RawInsn::I51l { op, a, b } => long(op, a, b),
        RawInsn::Packed { first, offsets } => packed(first, offsets),
        RawInsn::Sparse { keys, offsets } => sparse(keys, offsets),
        RawInsn::Data { width, bytes } => data(width, bytes),
    }
}

fn bytes(_parts: [u8; 4]) {}

fn byte(_op: u8, _a: u8, _literal: i8) {}

fn byte_of_two(_op: u8, _a: u8, _b: u8, _literal: i8) {}

fn short(_op: u8, _a: u8, _literal: i16) {}

fn short_of_two(_op: u8, _a: u8, _b: u8, _literal: i16) {}

fn wide(_op: u8, _a: u8, _number: i32) {}

fn wide_of_two(_op: u8, _a: u8, _b: u8, _number: i32) {}

fn long(_op: u8, _a: u8, _literal: i64) {}

fn unit(_op: u8, _a: u8, _b: u16) {}

fn units(_op: u8, _a: u16, _b: u16) {}

fn indexed(_op: u8, _a: u8, _index: u32) {}

fn indexed_of_two(_op: u8, _a: u8, _b: u8, _index: u32) {}

fn listed(_op: u8, _n: u8, _regs: [u8; 5], _index: u32) {}

fn ranged(_op: u8, _n: u8, _first: u16, _index: u32) {}

fn packed(_first: i32, _offsets: &[u8]) {}

fn sparse(_keys: &[u8], _offsets: &[u8]) {}

fn data(_width: u16, _bytes: &[u8]) {}
