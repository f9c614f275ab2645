//! The opcode table against the page "Dalvik bytecode", written out a second time.

use dex_base::Fault;
use dex_insn::{Format, IndexKind, format_of, index_kind_of, mnemonic_of, opcode_named};
use dex_samples::{Case, all_hold, none_wrong};
use std::alloc::Global;
use std::test::Fail;

/// The first opcode, the format and index kind of all, their mnemonics.
type Run = (u8, Format, Option<IndexKind>, &'static [&'static str]);

// Runs of opcodes. Those in no run are unused. There are three tables, since a static costs the square of the names in it.

/// From 0x00 to 0x43.
#[rattlefmt::skip]
static RUNS_00: [Run; 41] = [
    (0x00, Format::F10x, None, &["nop"]),
    (0x01, Format::F12x, None, &["move"]),
    (0x04, Format::F12x, None, &["move-wide"]),
    (0x07, Format::F12x, None, &["move-object"]),
    (0x02, Format::F22x, None, &["move/from16"]),
    (0x05, Format::F22x, None, &["move-wide/from16"]),
    (0x08, Format::F22x, None, &["move-object/from16"]),
    (0x03, Format::F32x, None, &["move/16"]),
    (0x06, Format::F32x, None, &["move-wide/16"]),
    (0x09, Format::F32x, None, &["move-object/16"]),
    (0x0a, Format::F11x, None, &["move-result", "move-result-wide", "move-result-object", "move-exception"]),
    (0x0e, Format::F10x, None, &["return-void"]),
    (0x0f, Format::F11x, None, &["return", "return-wide", "return-object"]),
    (0x12, Format::F11n, None, &["const/4"]),
    (0x13, Format::F21s, None, &["const/16"]),
    (0x16, Format::F21s, None, &["const-wide/16"]),
    (0x14, Format::F31i, None, &["const"]),
    (0x17, Format::F31i, None, &["const-wide/32"]),
    (0x15, Format::F21h, None, &["const/high16"]),
    (0x19, Format::F21h, None, &["const-wide/high16"]),
    (0x18, Format::F51l, None, &["const-wide"]),
    (0x1a, Format::F21c, Some(IndexKind::String), &["const-string"]),
    (0x1b, Format::F31c, Some(IndexKind::String), &["const-string/jumbo"]),
    (0x1c, Format::F21c, Some(IndexKind::Type), &["const-class"]),
    (0x1f, Format::F21c, Some(IndexKind::Type), &["check-cast"]),
    (0x22, Format::F21c, Some(IndexKind::Type), &["new-instance"]),
    (0x1d, Format::F11x, None, &["monitor-enter", "monitor-exit"]),
    (0x27, Format::F11x, None, &["throw"]),
    (0x20, Format::F22c, Some(IndexKind::Type), &["instance-of"]),
    (0x23, Format::F22c, Some(IndexKind::Type), &["new-array"]),
    (0x21, Format::F12x, None, &["array-length"]),
    (0x24, Format::F35c, Some(IndexKind::Type), &["filled-new-array"]),
    (0x25, Format::F3rc, Some(IndexKind::Type), &["filled-new-array/range"]),
    (0x26, Format::F31t, None, &["fill-array-data"]),
    (0x2b, Format::F31t, None, &["packed-switch", "sparse-switch"]),
    (0x28, Format::F10t, None, &["goto"]),
    (0x29, Format::F20t, None, &["goto/16"]),
    (0x2a, Format::F30t, None, &["goto/32"]),
    (0x2d, Format::F23x, None, &["cmpl-float", "cmpg-float", "cmpl-double", "cmpg-double", "cmp-long"]),
    (0x32, Format::F22t, None, &["if-eq", "if-ne", "if-lt", "if-ge", "if-gt", "if-le"]),
    (0x38, Format::F21t, None, &["if-eqz", "if-nez", "if-ltz", "if-gez", "if-gtz", "if-lez"]),
];

/// From 0x44 to 0x8f.
#[rattlefmt::skip]
static RUNS_44: [Run; 9] = [
    (0x44, Format::F23x, None, &[
        "aget", "aget-wide", "aget-object", "aget-boolean", "aget-byte", "aget-char", "aget-short", "aput", "aput-wide",
        "aput-object", "aput-boolean", "aput-byte", "aput-char", "aput-short"]),
    (0x52, Format::F22c, Some(IndexKind::Field), &[
        "iget", "iget-wide", "iget-object", "iget-boolean", "iget-byte", "iget-char", "iget-short", "iput", "iput-wide",
        "iput-object", "iput-boolean", "iput-byte", "iput-char", "iput-short"]),
    (0x60, Format::F21c, Some(IndexKind::Field), &[
        "sget", "sget-wide", "sget-object", "sget-boolean", "sget-byte", "sget-char", "sget-short", "sput", "sput-wide",
        "sput-object", "sput-boolean", "sput-byte", "sput-char", "sput-short"]),
    (0x6e, Format::F35c, Some(IndexKind::Method), &[
        "invoke-virtual", "invoke-super", "invoke-direct", "invoke-static", "invoke-interface"]),
    (0x74, Format::F3rc, Some(IndexKind::Method), &[
        "invoke-virtual/range", "invoke-super/range", "invoke-direct/range", "invoke-static/range", "invoke-interface/range"]),
    (0x7b, Format::F12x, None, &["neg-int", "not-int", "neg-long", "not-long", "neg-float", "neg-double"]),
    (0x81, Format::F12x, None, &[
        "int-to-long", "int-to-float", "int-to-double", "long-to-int", "long-to-float", "long-to-double"]),
    (0x87, Format::F12x, None, &[
        "float-to-int", "float-to-long", "float-to-double", "double-to-int", "double-to-long", "double-to-float"]),
    (0x8d, Format::F12x, None, &["int-to-byte", "int-to-char", "int-to-short"]),
];

/// From 0x90 to 0xff.
#[rattlefmt::skip]
static RUNS_90: [Run; 6] = [
    (0x90, Format::F23x, None, &[
        "add-int", "sub-int", "mul-int", "div-int", "rem-int", "and-int", "or-int", "xor-int", "shl-int", "shr-int", "ushr-int"]),
    (0x9b, Format::F23x, None, &[
        "add-long", "sub-long", "mul-long", "div-long", "rem-long", "and-long", "or-long", "xor-long", "shl-long", "shr-long",
        "ushr-long"]),
    (0xa6, Format::F23x, None, &[
        "add-float", "sub-float", "mul-float", "div-float", "rem-float", "add-double", "sub-double", "mul-double", "div-double",
        "rem-double"]),
    (0xb0, Format::F12x, None, &[
        "add-int/2addr", "sub-int/2addr", "mul-int/2addr", "div-int/2addr", "rem-int/2addr", "and-int/2addr", "or-int/2addr",
        "xor-int/2addr", "shl-int/2addr", "shr-int/2addr", "ushr-int/2addr", "add-long/2addr", "sub-long/2addr",
        "mul-long/2addr", "div-long/2addr", "rem-long/2addr", "and-long/2addr", "or-long/2addr", "xor-long/2addr",
        "shl-long/2addr", "shr-long/2addr", "ushr-long/2addr", "add-float/2addr", "sub-float/2addr", "mul-float/2addr",
        "div-float/2addr", "rem-float/2addr", "add-double/2addr", "sub-double/2addr", "mul-double/2addr", "div-double/2addr",
        "rem-double/2addr"]),
    (0xd0, Format::F22s, None, &[
        "add-int/lit16", "rsub-int", "mul-int/lit16", "div-int/lit16", "rem-int/lit16", "and-int/lit16", "or-int/lit16",
        "xor-int/lit16"]),
    (0xd8, Format::F22b, None, &[
        "add-int/lit8", "rsub-int/lit8", "mul-int/lit8", "div-int/lit8", "rem-int/lit8", "and-int/lit8", "or-int/lit8",
        "xor-int/lit8", "shl-int/lit8", "shr-int/lit8", "ushr-int/lit8"]),
];

/// The row of the page for an opcode.
fn row_of(runs: &[Run], op: u8) -> Option<(&'static str, Format, Option<IndexKind>)> {
    for (first, format, index, mnemonics) in runs {
        if op < *first {
            continue;
        }
        if let Some(mnemonic) = mnemonics.get(usize::from(op - *first)) {
            return Some((*mnemonic, *format, *index));
        }
    }
    None
}

fn is_used_so(op: u8, mnemonic: &str, format: Format, index: Option<IndexKind>) -> bool {
    mnemonic_of(op) == mnemonic
        && format_of(op) == Some(format)
        && index_kind_of(op) == index
        && opcode_named(mnemonic.as_bytes()) == Some(op)
}

fn is_unused(op: u8) -> bool {
    mnemonic_of(op).is_empty() && format_of(op).is_none() && index_kind_of(op).is_none()
}

fn is_as_on_the_page(runs: &[Run], op: u8) -> bool {
    match row_of(runs, op) {
        Some((mnemonic, format, index)) => is_used_so(op, mnemonic, format, index),
        None => is_unused(op),
    }
}

/// The mnemonic of the first of these opcodes whose row is another.
fn first_row_otherwise(runs: &[Run], first: u8, last: u8) -> Option<&'static str> {
    for op in first..=last {
        if !is_as_on_the_page(runs, op) {
            return Some(mnemonic_of(op));
        }
    }
    None
}

#[test]
fn rows_up_to_43_are_those_of_the_page() -> Result<(), Fail> {
    none_wrong(Ok(first_row_otherwise(&RUNS_00, 0x00, 0x43)))
}

#[test]
fn rows_from_44_to_8f_are_those_of_the_page() -> Result<(), Fail> {
    none_wrong(Ok(first_row_otherwise(&RUNS_44, 0x44, 0x8f)))
}

#[test]
fn rows_from_90_on_are_those_of_the_page() -> Result<(), Fail> {
    none_wrong(Ok(first_row_otherwise(&RUNS_90, 0x90, 0xff)))
}

/// Formats of each length, by their IDs.
static UNITS: [(&str, Format, usize); 5] = [
    ("10x", Format::F10x, 1),
    ("22c", Format::F22c, 2),
    ("31t", Format::F31t, 3),
    ("35c", Format::F35c, 3),
    ("51l", Format::F51l, 5),
];

/// The ID of the first format that has other units.
fn first_units_otherwise() -> Option<&'static str> {
    for (id, format, units) in &UNITS {
        if format.units() != *units {
            return Some(*id);
        }
    }
    None
}

#[test]
fn units_are_the_first_digit_of_the_id() -> Result<(), Fail> {
    none_wrong(Ok(first_units_otherwise()))
}

/// A text that names no opcode.
struct NoName(&'static str);

impl Case for NoName {
    fn name(&self) -> &'static str {
        self.0
    }

    fn holds(&self, _alloc: Global) -> Result<bool, Fault> {
        Ok(opcode_named(self.0.as_bytes()).is_none())
    }
}

#[test]
fn other_texts_name_no_opcode(rt: HostRuntime) -> Result<(), Fail> {
    static CASES: [NoName; 9] = [
        NoName(""),
        NoName(" "),
        NoName("NOP"),
        NoName("nop "),
        NoName("no"),
        NoName("goto/64"),
        NoName("add-int/lit32"),
        NoName("packed-switch-payload"),
        NoName("invoke-custom"),
    ];
    all_hold(rt.alloc(), &CASES)
}
