//! The operands of instructions ("Dalvik Executable instruction formats", "The formats").

ghost use Rattle.std.specs.Prelude.{◌≡◌, ◌↔◌, ◌<◌, ◌≤◌, ◌+◌, ◌%◌, length, map, IsTrue, Some, FitsSigned};
ghost use Rattle.std.specs.List.{AllByRecursion};
ghost use Rattle.std.specs.Int.{w8, w16, w32, w64};
ghost use Rattle.dex_insn.specs.Written.{AreRegisters};
ghost use Rattle.dex_insn.specs.RawInsns.{IsElementWidth};
ghost use Rattle.dex_insn.specs.Opcodes.{format_of, index_kind_of};
ghost use Rattle.program_types.specs.Formed.{insn_at};
ghost use Rattle.program_types.specs.Operands.{IsOfIndexKind, AreRisingKeys};
ghost use Rattle.program_types.specs.View.{insn, code};
ghost use Rattle.program_types.specs.View as view;
ghost use Rattle.code_rules.specs.CodeRules.{FitsFields, OperandsHold};
ghost use Rattle.code_rules.specs.inner.Parts.{KeyIsBelow};

use dex_base::are_bytes;
use dex_insn::{Format, IndexKind, format_of, index_kind_of};
use program_types::{Code, Insn, Name};

/// Whether the opcode is of the format.
fn is_of(op: u8, format: Format) -> bool
    ensures { IsTrue result ↔ (format_of op ≡ Some format) }
{
    format_of(op) == Some(format)
}

/// Whether the opcode is of the format, one with a field of eight bits.
fn is_short(op: u8, format: Format, a: u8) -> bool
    ensures { IsTrue result ↔ ((format_of op ≡ Some format) × (a < 256)) }
{
    is_of(op, format)
}

/// Whether the opcode is of the format, one with two fields of four bits.
fn are_low(op: u8, format: Format, a: u8, b: u8) -> bool
    ensures { IsTrue result ↔ ((format_of op ≡ Some format) × (a < 16) × (b < 16)) }
{
    is_of(op, format) && a < 16 && b < 16
}

/// Whether the name is of the kind that the opcode's index denotes.
fn is_named(op: u8, name: Name<'_>) -> bool
    ensures { IsTrue result ↔ IsOfIndexKind (index_kind_of op) (view.name name.entry) }
{
    matches!(
        (index_kind_of(op), name),
        (Some(IndexKind::String), Name::Text(_))
            | (Some(IndexKind::Type), Name::Desc(_))
            | (Some(IndexKind::Field), Name::Field(_))
            | (Some(IndexKind::Method), Name::Method(_))
    )
}

/// Whether the first `n` registers fit four bits, and the others are 0.
fn are_registers(n: u8, regs: &[u8; 5]) -> bool
    ensures { IsTrue result ↔ ((n ≤ 5) × AreRegisters n regs.now) }
{
    if n > 5 {
        return false;
    }
    for k in 0..5 {
        if k < n as usize {
            if regs[k] >= 16 {
                return false;
            }
        } else if regs[k] != 0 {
            return false;
        }
    }
    true
}

/// Whether key `k` is below the next one.
fn is_below(keys: &[i32], k: usize) -> bool
    requires inside { k + 1 < length keys.now }
    ensures { IsTrue result ↔ KeyIsBelow keys.now k }
{
    keys[k] < keys[k + 1]
}

/// Whether keys strictly rise.
fn keys_rise(keys: &[i32]) -> bool
    ensures { IsTrue result ↔ AreRisingKeys keys.now }
{
    for k in 1..keys.len() {
        if !is_below(keys, k - 1) {
            return false;
        }
    }
    true
}

/// All of the keys are numbers of 32 bits.
fn are_keys(keys: &[i32])
    ensures { AllByRecursion (λ key. FitsSigned w32 key) keys.now }
{
    for key in keys {
        // Only for the proof: that one is, by its type.
        let _key = *key;
    }
}

/// All of the targets are numbers of 32 bits.
fn are_words(targets: &[u32])
    ensures { AllByRecursion (λ to. to < 4294967296) targets.now }
{}

/// Whether a width is one that elements have.
fn is_element_width(width: u16) -> bool
    ensures { IsTrue result ↔ IsElementWidth width }
{
    width == 1 || width == 2 || width == 4 || width == 8
}

/// Whether a switch has no more targets than its payload can count.
fn are_few(targets: &[u32]) -> bool
    ensures { IsTrue result ↔ ((length targets.now ≤ 65535) × AllByRecursion (λ to. to < 4294967296) targets.now) }
{
    are_words(targets);
    targets.len() <= 65535
}

/// Whether keys and targets are those of a sparse switch.
fn is_sparse(keys: &[i32], targets: &[u32]) -> bool
    ensures { IsTrue result ↔ ((length keys.now ≡ length targets.now) × (length targets.now ≤ 65535) × AllByRecursion (λ key. FitsSigned w32 key) keys.now × AreRisingKeys keys.now × AllByRecursion (λ to. to < 4294967296) targets.now) }
{
    are_keys(keys);
    if keys.len() != targets.len() {
        return false;
    }
    if !are_few(targets) {
        return false;
    }
    keys_rise(keys)
}

/// Whether the bytes are elements of this width.
fn is_data(width: u16, bytes: &[u8]) -> bool
    ensures { IsTrue result ↔ (IsElementWidth width × (length bytes.now % width ≡ 0) × (length bytes.now ≤ 4294967295) × AllByRecursion (λ byte. byte < 256) bytes.now) }
{
    are_bytes(bytes);
    if !is_element_width(width) {
        return false;
    }
    if bytes.len() % width as usize != 0 {
        return false;
    }
    bytes.len() <= 4294967295
}

/// Whether each operand of the instruction fits its format, whatever its targets.
fn fits_fields(one: &Insn<'_>) -> bool
    ensures { IsTrue result ↔ FitsFields (insn one.now) }
{
    match *one {
        Insn::I10x { op } => is_of(op, Format::F10x),
        Insn::I12x { op, a, b } => are_low(op, Format::F12x, a, b),
        Insn::I11n { op, a, b } => is_of(op, Format::F11n) && a < 16 && b >= -8 && b < 8,
        Insn::I11x { op, a } => is_short(op, Format::F11x, a),
        Insn::I10t { op, to } => is_of(op, Format::F10t),
        Insn::I20t { op, to } => is_of(op, Format::F20t),
        Insn::I22x { op, a, b } => is_short(op, Format::F22x, a),
        Insn::I21t { op, a, to } => is_short(op, Format::F21t, a),
        Insn::I21s { op, a, b } => is_short(op, Format::F21s, a),
        Insn::I21h { op, a, b } => is_short(op, Format::F21h, a),
        Insn::I21c { op, a, name } => is_short(op, Format::F21c, a) && is_named(op, name),
        Insn::I23x { op, a, b, c } => is_short(op, Format::F23x, a),
        Insn::I22b { op, a, b, c } => is_short(op, Format::F22b, a),
        Insn::I22t { op, a, b, to } => are_low(op, Format::F22t, a, b),
        Insn::I22s { op, a, b, c } => are_low(op, Format::F22s, a, b),
        Insn::I22c { op, a, b, name } => are_low(op, Format::F22c, a, b) && is_named(op, name),
        Insn::I30t { op, to } => is_of(op, Format::F30t),
        Insn::I32x { op, a, b } => is_of(op, Format::F32x),
        Insn::I31i { op, a, b } => is_short(op, Format::F31i, a),
        Insn::I31t { op, a, to } => is_short(op, Format::F31t, a),
        Insn::I31c { op, a, name } => is_short(op, Format::F31c, a) && is_named(op, name),
        Insn::I35c { op, n, regs, name } => {
            is_of(op, Format::F35c) && are_registers(n, &regs) && is_named(op, name)
        }
        Insn::I3rc { op, n, first, name } => { is_short(op, Format::F3rc, n) && is_named(op, name) }
        Insn::I51l { op, a, b } => is_short(op, Format::F51l, a),
        Insn::Packed { first, targets } => are_few(targets),
        Insn::Sparse { keys, targets } => is_sparse(keys, targets),
        Insn::Data { width, bytes } => is_data(width, bytes),
    }
}

/// Whether each operand of instruction `k` fits its format.
fn operand_holds(insns: &[Insn<'_>], k: usize) -> bool
    requires inside { k < length insns.now }
    ensures { IsTrue result ↔ FitsFields (insn_at (map insn insns.now) k) }
{
    let one = &insns[k];
    fits_fields(one)
}

/// Whether a code has instructions, not too many, each with operands that its format has.
pub(crate) fn operands_hold(one: &Code<'_>) -> bool
    ensures { IsTrue result ↔ OperandsHold (code one.now) }
{
    let count = one.insns.len();
    if count == 0 || count > 2147483647 {
        return false;
    }
    for k in 0..count {
        if !operand_holds(one.insns, k) {
            return false;
        }
    }
    true
}
