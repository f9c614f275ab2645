//! An instruction of each format, and each payload, from its units and back, by the layouts of the pages "Dalvik Executable
//! instruction formats" and "Dalvik bytecode".

use dex_base::{Fault, are_bytes};
use dex_insn::{RawInsn, put_insn, read_insn, size_of, what_stands_can_be_written};
use dex_samples::{Case, all_hold, is_so};
use std::alloc::Global;
use std::test::Fail;

/// What the instruction is, its units, the instruction, and the units that are written of it.
struct Both(&'static str, &'static [u8], RawInsn<'static>, &'static [u8]);

impl Case for Both {
    fn name(&self) -> &'static str {
        self.0
    }

    fn holds(&self, alloc: Global) -> Result<bool, Fault> {
        if !is_read_so(self.1, 0, &self.2, self.1.len() as u64 / 2) {
            return Ok(false);
        }
        is_put_so(alloc, self.1, self.3)
    }
}

/// An instruction as its form, its operands in the order of the page, and the slices of a payload: a switch's offsets or
/// an array's elements, and a sparse switch's keys.
#[derive(Clone, Copy)]
struct Shown<'a> {
    form: &'static str,
    operands: [i64; 8],
    bytes: &'a [u8],
    keys: &'a [u8],
}

fn plain(form: &'static str, operands: [i64; 4]) -> Shown<'static> {
    let [op, first, second, third] = operands;
    Shown {
        form,
        operands: [op, first, second, third, 0, 0, 0, 0],
        bytes: &[],
        keys: &[],
    }
}

fn payload<'a>(form: &'static str, number: i64, bytes: &'a [u8], keys: &'a [u8]) -> Shown<'a> {
    Shown {
        form,
        operands: [number, 0, 0, 0, 0, 0, 0, 0],
        bytes,
        keys,
    }
}

#[rattlefmt::skip]
fn operands_of<'a>(insn: RawInsn<'a>) -> Shown<'a> {
    match insn {
        RawInsn::I10x { op } => plain("10x", [i64::from(op), 0, 0, 0]),
        RawInsn::I12x { op, a, b } => plain("12x", [i64::from(op), i64::from(a), i64::from(b), 0]),
        RawInsn::I11n { op, a, b } => plain("11n", [i64::from(op), i64::from(a), i64::from(b), 0]),
        RawInsn::I11x { op, a } => plain("11x", [i64::from(op), i64::from(a), 0, 0]),
        RawInsn::I10t { op, offset } => plain("10t", [i64::from(op), i64::from(offset), 0, 0]),
        RawInsn::I20t { op, offset } => plain("20t", [i64::from(op), i64::from(offset), 0, 0]),
        RawInsn::I22x { op, a, b } => plain("22x", [i64::from(op), i64::from(a), i64::from(b), 0]),
        RawInsn::I21t { op, a, offset } => plain("21t", [i64::from(op), i64::from(a), i64::from(offset), 0]),
        RawInsn::I21s { op, a, b } => plain("21s", [i64::from(op), i64::from(a), i64::from(b), 0]),
        RawInsn::I21h { op, a, b } => plain("21h", [i64::from(op), i64::from(a), i64::from(b), 0]),
        RawInsn::I21c { op, a, index } => plain("21c", [i64::from(op), i64::from(a), i64::from(index), 0]),
        RawInsn::I23x { op, a, b, c } => plain("23x", [i64::from(op), i64::from(a), i64::from(b), i64::from(c)]),
        RawInsn::I22b { op, a, b, c } => plain("22b", [i64::from(op), i64::from(a), i64::from(b), i64::from(c)]),
        RawInsn::I22t { op, a, b, offset } => {
            plain("22t", [i64::from(op), i64::from(a), i64::from(b), i64::from(offset)])
        }
        RawInsn::I22s { op, a, b, c } => plain("22s", [i64::from(op), i64::from(a), i64::from(b), i64::from(c)]),
        RawInsn::I22c { op, a, b, index } => {
            plain("22c", [i64::from(op), i64::from(a), i64::from(b), i64::from(index)])
        }
        RawInsn::I30t { op, offset } => plain("30t", [i64::from(op), i64::from(offset), 0, 0]),
        RawInsn::I32x { op, a, b } => plain("32x", [i64::from(op), i64::from(a), i64::from(b), 0]),
        RawInsn::I31i { op, a, b } => plain("31i", [i64::from(op), i64::from(a), i64::from(b), 0]),
        RawInsn::I31t { op, a, offset } => plain("31t", [i64::from(op), i64::from(a), i64::from(offset), 0]),
        RawInsn::I31c { op, a, index } => plain("31c", [i64::from(op), i64::from(a), i64::from(index), 0]),
        RawInsn::I35c { op, n, regs, index } => Shown {
            form: "35c",
            operands: [
                i64::from(op), i64::from(n), i64::from(index), i64::from(regs[0]), i64::from(regs[1]),
                i64::from(regs[2]), i64::from(regs[3]), i64::from(regs[4]),
            ],
            bytes: &[],
            keys: &[],
        },
        RawInsn::I3rc { op, n, first, index } => {
            plain("3rc", [i64::from(op), i64::from(n), i64::from(first), i64::from(index)])
        }
        RawInsn::I51l { op, a, b } => plain("51l", [i64::from(op), i64::from(a), b, 0]),
        RawInsn::Packed { first, offsets } => payload("packed", i64::from(first), offsets, &[]),
        RawInsn::Sparse { keys, offsets } => payload("sparse", 0, offsets, keys),
        RawInsn::Data { width, bytes } => payload("data", i64::from(width), bytes, &[]),
    }
}

fn is_shown_so(insn: Shown<'_>, want: Shown<'_>) -> bool {
    let (operands, wanted) = (insn.operands, want.operands);
    insn.form == want.form
        && operands == wanted
        && insn.bytes == want.bytes
        && insn.keys == want.keys
}

/// Whether the instruction stands at a unit, and has so many units.
fn is_read_so(code: &[u8], at: u32, want: &RawInsn<'_>, units: u64) -> bool {
    match read_insn(code, at) {
        Ok(insn) => is_shown_so(operands_of(insn), operands_of(*want)) && size_of(&insn) == units,
        Err(_) => false,
    }
}

/// Whether the instruction that stands at the front of the units is written in these units, after what was there.
fn is_put_so(alloc: Global, code: &[u8], want: &[u8]) -> Result<bool, Fault> {
    let mut out = vec![in alloc; 0xeeu8; 1]?;
    let insn = read_insn(code, 0)?;
    are_bytes(code);
    what_stands_can_be_written();
    put_insn(&mut out, &insn)?;
    Ok(&out[..1] == [0xee].as_slice() && &out[1..] == want)
}

/// Format 35c with two registers, v0 and v1.
const OF_TWO: RawInsn<'static> = RawInsn::I35c {
    op: 0x6e,
    n: 2,
    regs: [0, 1, 0, 0, 0],
    index: 0,
};

#[rattlefmt::skip]
#[test]
fn each_format_and_each_payload_is_read_and_written(rt: HostRuntime) -> Result<(), Fail> {
    static CASES: [Both; 31] = [
        Both("nop", &[0x00, 0x00], RawInsn::I10x { op: 0x00 }, &[0x00, 0x00]),
        Both("move v2, v3", &[0x01, 0x32], RawInsn::I12x { op: 0x01, a: 2, b: 3 }, &[0x01, 0x32]),
        Both("const/4 v0, -1", &[0x12, 0xf0], RawInsn::I11n { op: 0x12, a: 0, b: -1 }, &[0x12, 0xf0]),
        Both("return v255", &[0x0f, 0xff], RawInsn::I11x { op: 0x0f, a: 255 }, &[0x0f, 0xff]),
        Both("goto -2", &[0x28, 0xfe], RawInsn::I10t { op: 0x28, offset: -2 }, &[0x28, 0xfe]),
        Both(
            "goto to itself, which only a whole code refuses", &[0x28, 0x00], RawInsn::I10t { op: 0x28, offset: 0 },
            &[0x28, 0x00],
        ),
        Both(
            "goto/16 -32768", &[0x29, 0x00, 0x00, 0x80], RawInsn::I20t { op: 0x29, offset: -32768 },
            &[0x29, 0x00, 0x00, 0x80],
        ),
        Both(
            "move/from16 v1, v515", &[0x02, 0x01, 0x03, 0x02], RawInsn::I22x { op: 0x02, a: 1, b: 0x0203 },
            &[0x02, 0x01, 0x03, 0x02],
        ),
        Both(
            "if-eqz v4, +3", &[0x38, 0x04, 0x03, 0x00], RawInsn::I21t { op: 0x38, a: 4, offset: 3 },
            &[0x38, 0x04, 0x03, 0x00],
        ),
        Both(
            "const/16 v5, -2", &[0x13, 0x05, 0xfe, 0xff], RawInsn::I21s { op: 0x13, a: 5, b: -2 },
            &[0x13, 0x05, 0xfe, 0xff],
        ),
        Both(
            "const/high16 v6, 0x8000", &[0x15, 0x06, 0x00, 0x80], RawInsn::I21h { op: 0x15, a: 6, b: -32768 },
            &[0x15, 0x06, 0x00, 0x80],
        ),
        Both(
            "const-string v7, string 65535", &[0x1a, 0x07, 0xff, 0xff],
            RawInsn::I21c { op: 0x1a, a: 7, index: 65535 }, &[0x1a, 0x07, 0xff, 0xff],
        ),
        Both(
            "add-int v1, v2, v3", &[0x90, 0x01, 0x02, 0x03], RawInsn::I23x { op: 0x90, a: 1, b: 2, c: 3 },
            &[0x90, 0x01, 0x02, 0x03],
        ),
        Both(
            "add-int/lit8 v1, v2, -3", &[0xd8, 0x01, 0x02, 0xfd], RawInsn::I22b { op: 0xd8, a: 1, b: 2, c: -3 },
            &[0xd8, 0x01, 0x02, 0xfd],
        ),
        Both(
            "if-eq v1, v2, -1", &[0x32, 0x21, 0xff, 0xff], RawInsn::I22t { op: 0x32, a: 1, b: 2, offset: -1 },
            &[0x32, 0x21, 0xff, 0xff],
        ),
        Both(
            "add-int/lit16 v1, v2, 258", &[0xd0, 0x21, 0x02, 0x01], RawInsn::I22s { op: 0xd0, a: 1, b: 2, c: 258 },
            &[0xd0, 0x21, 0x02, 0x01],
        ),
        Both(
            "iget v1, v2, field 772", &[0x52, 0x21, 0x04, 0x03],
            RawInsn::I22c { op: 0x52, a: 1, b: 2, index: 0x0304 }, &[0x52, 0x21, 0x04, 0x03],
        ),
        Both(
            "goto/32 to itself", &[0x2a, 0x00, 0x00, 0x00, 0x00, 0x00], RawInsn::I30t { op: 0x2a, offset: 0 },
            &[0x2a, 0x00, 0x00, 0x00, 0x00, 0x00],
        ),
        Both(
            "move/16 v258, v772", &[0x03, 0x00, 0x02, 0x01, 0x04, 0x03],
            RawInsn::I32x { op: 0x03, a: 0x0102, b: 0x0304 }, &[0x03, 0x00, 0x02, 0x01, 0x04, 0x03],
        ),
        Both(
            "const v1, -2147483648", &[0x14, 0x01, 0x00, 0x00, 0x00, 0x80],
            RawInsn::I31i { op: 0x14, a: 1, b: -2147483648 }, &[0x14, 0x01, 0x00, 0x00, 0x00, 0x80],
        ),
        Both(
            "packed-switch v0, +4", &[0x2b, 0x00, 0x04, 0x00, 0x00, 0x00],
            RawInsn::I31t { op: 0x2b, a: 0, offset: 4 }, &[0x2b, 0x00, 0x04, 0x00, 0x00, 0x00],
        ),
        Both(
            "const-string/jumbo v1, string 65536", &[0x1b, 0x01, 0x00, 0x00, 0x01, 0x00],
            RawInsn::I31c { op: 0x1b, a: 1, index: 65536 }, &[0x1b, 0x01, 0x00, 0x00, 0x01, 0x00],
        ),
        Both(
            "invoke-virtual {v1, v2, v3, v4, v5}, method 258", &[0x6e, 0x55, 0x02, 0x01, 0x21, 0x43],
            RawInsn::I35c { op: 0x6e, n: 5, regs: [1, 2, 3, 4, 5], index: 0x0102 },
            &[0x6e, 0x55, 0x02, 0x01, 0x21, 0x43],
        ),
        Both(
            "invoke-static/range {v772 .. v774}, method 258", &[0x77, 0x03, 0x02, 0x01, 0x04, 0x03],
            RawInsn::I3rc { op: 0x77, n: 3, first: 0x0304, index: 0x0102 }, &[0x77, 0x03, 0x02, 0x01, 0x04, 0x03],
        ),
        Both(
            "const-wide v1, -2", &[0x18, 0x01, 0xfe, 0xff, 0xff, 0xff, 0xff, 0xff, 0xff, 0xff],
            RawInsn::I51l { op: 0x18, a: 1, b: -2 }, &[0x18, 0x01, 0xfe, 0xff, 0xff, 0xff, 0xff, 0xff, 0xff, 0xff],
        ),
        Both(
            "packed-switch-payload, first key -1, two targets",
            &[0x00, 0x01, 0x02, 0x00, 0xff, 0xff, 0xff, 0xff, 3, 0, 0, 0, 5, 0, 0, 0],
            RawInsn::Packed { first: -1, offsets: &[3, 0, 0, 0, 5, 0, 0, 0] },
            &[0x00, 0x01, 0x02, 0x00, 0xff, 0xff, 0xff, 0xff, 3, 0, 0, 0, 5, 0, 0, 0],
        ),
        Both(
            "sparse-switch-payload, keys -1 and 0",
            &[0x00, 0x02, 0x02, 0x00, 0xff, 0xff, 0xff, 0xff, 0, 0, 0, 0, 3, 0, 0, 0, 5, 0, 0, 0],
            RawInsn::Sparse { keys: &[0xff, 0xff, 0xff, 0xff, 0, 0, 0, 0], offsets: &[3, 0, 0, 0, 5, 0, 0, 0] },
            &[0x00, 0x02, 0x02, 0x00, 0xff, 0xff, 0xff, 0xff, 0, 0, 0, 0, 3, 0, 0, 0, 5, 0, 0, 0],
        ),
        Both(
            "sparse-switch-payload, key -1", &[0x00, 0x02, 0x01, 0x00, 0xff, 0xff, 0xff, 0xff, 3, 0, 0, 0],
            RawInsn::Sparse { keys: &[0xff, 0xff, 0xff, 0xff], offsets: &[3, 0, 0, 0] },
            &[0x00, 0x02, 0x01, 0x00, 0xff, 0xff, 0xff, 0xff, 3, 0, 0, 0],
        ),
        Both(
            "array payload of three bytes, padded", &[0x00, 0x03, 0x01, 0x00, 0x03, 0x00, 0x00, 0x00, 7, 8, 9, 0],
            RawInsn::Data { width: 1, bytes: &[7, 8, 9] },
            &[0x00, 0x03, 0x01, 0x00, 0x03, 0x00, 0x00, 0x00, 7, 8, 9, 0],
        ),
        // Register nibbles that are not named are free, and are written 0.
        Both("two registers", &[0x6e, 0x20, 0x00, 0x00, 0x10, 0x00], OF_TWO, &[0x6e, 0x20, 0x00, 0x00, 0x10, 0x00]),
        Both(
            "two registers, and a third nibble", &[0x6e, 0x20, 0x00, 0x00, 0x10, 0x30], OF_TWO,
            &[0x6e, 0x20, 0x00, 0x00, 0x10, 0x00],
        ),
    ];
    all_hold(rt.alloc(), &CASES)
}

/// A packed-switch and a nop, then its payload at an even unit.
static SWITCH: [u8; 20] = [
    0x2b, 0x00, 0x04, 0x00, 0x00, 0x00, 0x00, 0x00, 0x00, 0x01, 0x01, 0x00, 0x00, 0x00, 0x00, 0x00,
    0x00, 0x00, 0x00, 0x00,
];

static PAYLOAD: RawInsn<'static> = RawInsn::Packed {
    first: 0,
    offsets: &[0, 0, 0, 0],
};

#[test]
fn instructions_are_read_at_their_units() -> Result<(), Fail> {
    let is_nop = is_read_so(&SWITCH, 3, &RawInsn::I10x { op: 0x00 }, 1);
    is_so(Ok(is_nop && is_read_so(&SWITCH, 4, &PAYLOAD, 6)))
}
