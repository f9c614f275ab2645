//! Instructions, a variant a format ("Dalvik Executable instruction formats"), and payloads ("Dalvik bytecode").

use crate::names::Name;

/// An instruction or a payload.
///
/// `op` is the opcode; `a`, `b` and `c` are the fields A, B and C of the format, which are registers or literals by the opcode;
/// `to` is the number, in its code, of the instruction at the target; `name` is what the index names.
#[rattlefmt::skip]
#[derive(Clone, Copy, Debug)]
pub enum Insn<'a> {
    I10x { op: u8 },
    I12x { op: u8, a: u8, b: u8 },
    I11n { op: u8, a: u8, b: i8 },
    I11x { op: u8, a: u8 },
    I10t { op: u8, to: u32 },
    I20t { op: u8, to: u32 },
    I22x { op: u8, a: u8, b: u16 },
    I21t { op: u8, a: u8, to: u32 },
    I21s { op: u8, a: u8, b: i16 },
    I21h { op: u8, a: u8, b: i16 },
    I21c { op: u8, a: u8, name: Name<'a> },
    I23x { op: u8, a: u8, b: u8, c: u8 },
    I22b { op: u8, a: u8, b: u8, c: i8 },
    I22t { op: u8, a: u8, b: u8, to: u32 },
    I22s { op: u8, a: u8, b: u8, c: i16 },
    I22c { op: u8, a: u8, b: u8, name: Name<'a> },
    I30t { op: u8, to: u32 },
    I32x { op: u8, a: u16, b: u16 },
    I31i { op: u8, a: u8, b: i32 },
    I31t { op: u8, a: u8, to: u32 },
    I31c { op: u8, a: u8, name: Name<'a> },
    /// `n` registers (A), the first `n` of `regs` (C, D, E, F, G); the others are 0.
    I35c { op: u8, n: u8, regs: [u8; 5], name: Name<'a> },
    /// `n` registers (A), from `first` (C) on.
    I3rc { op: u8, n: u8, first: u16, name: Name<'a> },
    I51l { op: u8, a: u8, b: i64 },
    /// The payload of a packed-switch: the first key and the target of each key.
    Packed { first: i32, targets: &'a [u32] },
    /// The payload of a sparse-switch: the keys and their targets.
    Sparse { keys: &'a [i32], targets: &'a [u32] },
    /// The payload of a fill-array-data: bytes an element, and the elements' bytes.
    Data { width: u16, bytes: &'a [u8] },
}
