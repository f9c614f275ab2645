//! Raw instructions: operands as numbers, indices and branch offsets as they are in the units.

/// An instruction, a variant for each format, or a payload.
///
/// Of the operands, which have the letters of the page "Dalvik Executable instruction formats" in lower case, `op` is the
/// opcode, `index` a row of the table that [`index_kind_of`](crate::index_kind_of) names, and `offset` a number of units from the
/// instruction's own first unit. In `I35c` the registers are C, D, E, F, G, and 0 from number `n` on; in `I3rc` they are
/// `n` registers from `first` on. The slices are bytes of the units: keys and offsets of four bytes, the low byte first,
/// and the elements of an array of `width` bytes each.
#[rattlefmt::skip]
#[derive(Clone, Copy)]
pub enum RawInsn<'a> {
    I10x { op: u8 },
    I12x { op: u8, a: u8, b: u8 },
    I11n { op: u8, a: u8, b: i8 },
    I11x { op: u8, a: u8 },
    I10t { op: u8, offset: i32 },
    I20t { op: u8, offset: i32 },
    I22x { op: u8, a: u8, b: u16 },
    I21t { op: u8, a: u8, offset: i32 },
    I21s { op: u8, a: u8, b: i16 },
    I21h { op: u8, a: u8, b: i16 },
    I21c { op: u8, a: u8, index: u32 },
    I23x { op: u8, a: u8, b: u8, c: u8 },
    I22b { op: u8, a: u8, b: u8, c: i8 },
    I22t { op: u8, a: u8, b: u8, offset: i32 },
    I22s { op: u8, a: u8, b: u8, c: i16 },
    I22c { op: u8, a: u8, b: u8, index: u32 },
    I30t { op: u8, offset: i32 },
    I32x { op: u8, a: u16, b: u16 },
    I31i { op: u8, a: u8, b: i32 },
    I31t { op: u8, a: u8, offset: i32 },
    I31c { op: u8, a: u8, index: u32 },
    I35c { op: u8, n: u8, regs: [u8; 5], index: u32 },
    I3rc { op: u8, n: u8, first: u16, index: u32 },
    I51l { op: u8, a: u8, b: i64 },
    Packed { first: i32, offsets: &'a [u8] },
    Sparse { keys: &'a [u8], offsets: &'a [u8] },
    Data { width: u16, bytes: &'a [u8] },
}
