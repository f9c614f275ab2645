//! The operands of instructions, each after one space.

ghost use Rattle.std.specs.Prelude.{◌≡◌, ◌++◌, ◌∷◌, [], map, take, OnOk};
ghost use Rattle.program_types.specs.View.{name, insn};
ghost use Rattle.listing_slots.specs.declared.key.Key.TheVariants as Key;
ghost use Rattle.listing_slots.specs.declared.slot.Mark.TheVariants.{Nothing};
ghost use Rattle.listing_slots.specs.declared.slot.Slot.TheVariants as slot;
ghost use Rattle.listing_slots.specs.Data.{byte, half, int, long};
ghost use Rattle.listing_slots.specs.Shapes.{size};
ghost use Rattle.listing_print.specs.Operands.{operand, operand_text, operand_text_in, keyword, v4, to, name_operand, pair_operands, element_operands, insn_operands};

use listing_lines::Form;
use listing_slots::{
    put_decimal, put_elements, put_field, put_method, put_name, put_number, put_register,
    put_signed, put_text,
};
use program_types::{Insn, Name};
use std::alloc::AllocError;

/// Appends a name in the form of its kind.
pub(crate) fn put_named(out: &mut Vec<u8>, which: Name<'_>) -> Result<(), AllocError>
    ensures ok { OnOk result (out.new.items ≡ out.old.items ++ operand_text (name_operand (name which.entry) ∷ [])) }
{
    match which {
        Name::Text(text) => put_text(out, text.units),
        Name::Desc(ty) => put_name(out, ty.text.units),
        Name::Field(field) => put_field(out, field),
        Name::Method(method) => put_method(out, method),
    }
}

/// Appends registers of four bits.
fn put_registers(out: &mut Vec<u8>, regs: &[u8]) -> Result<(), AllocError>
    ensures ok { OnOk result (out.new.items ≡ out.old.items ++ operand_text (map v4 regs.now)) }
{
    for reg in regs {
        put_register(out, *reg as u16)?;
    }
    Ok(())
}

/// Appends a space and a target: its number, or its label.
pub(crate) fn put_target(out: &mut Vec<u8>, form: Form, n: u32) -> Result<(), AllocError>
    ensures ok { OnOk result (out.new.items ≡ out.old.items ++ operand_text_in form (to n ∷ [])) }
{
    match form {
        Form::One => out.extend_from_slice(b" @")?,
        Form::Two => out.extend_from_slice(b" :L")?,
    }
    put_decimal(out, n as u64)
}

/// Appends targets.
fn put_targets(out: &mut Vec<u8>, form: Form, targets: &[u32]) -> Result<(), AllocError>
    ensures ok { OnOk result (out.new.items ≡ out.old.items ++ operand_text_in form (map to targets.now)) }
{
    for target in targets {
        put_target(out, form, *target)?;
    }
    Ok(())
}

/// Appends keys, each with its target.
fn put_pairs(out: &mut Vec<u8>, form: Form, keys: &[i32], targets: &[u32]) -> Result<(), AllocError>
    ensures ok { OnOk result (out.new.items ≡ out.old.items ++ operand_text_in form (pair_operands keys.now targets.now)) }
{
    let count = keys.len().min(targets.len());
    for i in 0..count {
        put_signed(out, keys[i] as i64)?;
        put_target(out, form, targets[i])?;
    }
    Ok(())
}

/// Appends the bytes of an array, if it has some.
fn put_bytes(out: &mut Vec<u8>, bytes: &[u8]) -> Result<(), AllocError>
    ensures ok { OnOk result (out.new.items ≡ out.old.items ++ operand_text (element_operands bytes.now)) }
{
    if bytes.is_empty() {
        return Ok(());
    }
    put_elements(out, bytes)
}

/// Appends registers in braces, and a name.
#[tactic(auto, unfolding(listing_slots::specs::Keys::key_text))]
fn put_braces(out: &mut Vec<u8>, regs: &[u8], which: Name<'_>) -> Result<(), AllocError>
    ensures ok { OnOk result (out.new.items ≡ out.old.items ++ operand_text (keyword Key.Open ∷ (map v4 regs.now ++ (keyword Key.Close ∷ name_operand (name which.entry) ∷ [])))) }
{
    out.extend_from_slice(b" {")?;
    put_registers(out, regs)?;
    out.extend_from_slice(b" }")?;
    put_named(out, which)
}

/// Appends the first `n` of the registers in braces, and a name.
#[tactic(auto, using(std::proofs::lemmas::List::take_min))]
fn put_call(out: &mut Vec<u8>, n: u8, regs: [u8; 5], which: Name<'_>) -> Result<(), AllocError>
    ensures ok { OnOk result (out.new.items ≡ out.old.items ++ operand_text (keyword Key.Open ∷ (map v4 (take n regs) ++ (keyword Key.Close ∷ name_operand (name which.entry) ∷ [])))) }
{
    let (used, _) = regs.split_at((n as usize).min(5));
    put_braces(out, used, which)
}

/// Appends two registers.
fn put_two(out: &mut Vec<u8>, a: u16, b: u16) -> Result<(), AllocError>
    ensures ok { OnOk result (out.new.items ≡ out.old.items ++ operand_text (v4 a ∷ v4 b ∷ [])) }
{
    put_register(out, a)?;
    put_register(out, b)
}

/// Appends a register and a number.
fn put_constant(out: &mut Vec<u8>, a: u16, n: i64) -> Result<(), AllocError>
    ensures ok { OnOk result (out.new.items ≡ out.old.items ++ operand_text (v4 a ∷ operand slot.Long (long n) ∷ [])) }
{
    put_register(out, a)?;
    put_signed(out, n)
}

/// Appends a register and a target.
fn put_test(out: &mut Vec<u8>, form: Form, a: u16, at: u32) -> Result<(), AllocError>
    ensures ok { OnOk result (out.new.items ≡ out.old.items ++ operand_text_in form (v4 a ∷ to at ∷ [])) }
{
    put_register(out, a)?;
    put_target(out, form, at)
}

/// Appends a register and a name.
fn put_access(out: &mut Vec<u8>, a: u16, which: Name<'_>) -> Result<(), AllocError>
    ensures ok { OnOk result (out.new.items ≡ out.old.items ++ operand_text (v4 a ∷ name_operand (name which.entry) ∷ [])) }
{
    put_register(out, a)?;
    put_named(out, which)
}

/// Appends three registers.
fn put_three(out: &mut Vec<u8>, a: u16, b: u16, c: u16) -> Result<(), AllocError>
    ensures ok { OnOk result (out.new.items ≡ out.old.items ++ operand_text (v4 a ∷ v4 b ∷ v4 c ∷ [])) }
{
    put_two(out, a, b)?;
    put_register(out, c)
}

/// Appends two registers and a number.
fn put_two_constant(out: &mut Vec<u8>, a: u16, b: u16, n: i64) -> Result<(), AllocError>
    ensures ok { OnOk result (out.new.items ≡ out.old.items ++ operand_text (v4 a ∷ v4 b ∷ operand slot.Long (long n) ∷ [])) }
{
    put_two(out, a, b)?;
    put_signed(out, n)
}

/// Appends two registers and a target.
fn put_two_test(out: &mut Vec<u8>, form: Form, a: u16, b: u16, at: u32) -> Result<(), AllocError>
    ensures ok { OnOk result (out.new.items ≡ out.old.items ++ operand_text_in form (v4 a ∷ v4 b ∷ to at ∷ [])) }
{
    put_two(out, a, b)?;
    put_target(out, form, at)
}

/// Appends two registers and a name.
fn put_two_access(out: &mut Vec<u8>, a: u16, b: u16, which: Name<'_>) -> Result<(), AllocError>
    ensures ok { OnOk result (out.new.items ≡ out.old.items ++ operand_text (v4 a ∷ v4 b ∷ name_operand (name which.entry) ∷ [])) }
{
    put_two(out, a, b)?;
    put_named(out, which)
}

/// Appends the first register of a range, how many there are, and a name.
fn put_range(out: &mut Vec<u8>, first: u16, n: u8, which: Name<'_>) -> Result<(), AllocError>
    ensures ok { OnOk result (out.new.items ≡ out.old.items ++ operand_text (v4 first ∷ operand (slot.Byte Nothing 255) (byte n) ∷ name_operand (name which.entry) ∷ [])) }
{
    put_register(out, first)?;
    put_number(out, n as u64)?;
    put_named(out, which)
}

/// Appends the first key of a switch, and its targets.
fn put_packed(out: &mut Vec<u8>, form: Form, first: i32, targets: &[u32]) -> Result<(), AllocError>
    ensures ok { OnOk result (out.new.items ≡ out.old.items ++ operand_text_in form (operand slot.Int (int first) ∷ map to targets.now)) }
{
    put_signed(out, first as i64)?;
    put_targets(out, form, targets)
}

/// Appends how many bytes an element of an array has, and the bytes of all.
fn put_data(out: &mut Vec<u8>, width: u16, bytes: &[u8]) -> Result<(), AllocError>
    ensures ok { OnOk result (out.new.items ≡ out.old.items ++ operand_text (operand size (half width) ∷ element_operands bytes.now)) }
{
    put_number(out, width as u64)?;
    put_bytes(out, bytes)
}

/// Appends the operands of an instruction, in the order of its format. Each arm is one call: a result that is matched on
/// would take room, and time, for all others too.
#[rattlefmt::skip]
pub(crate) fn put_operands(out: &mut Vec<u8>, form: Form, one: &Insn<'_>) -> Result<(), AllocError>
    ensures ok { OnOk result (out.new.items ≡ out.old.items ++ operand_text_in form (insn_operands (insn one.now))) }
{
    match *one {
        Insn::I10x { op: _ } => Ok(()),
        Insn::I12x { op: _, a, b } => put_two(out, a as u16, b as u16),
        Insn::I11n { op: _, a, b } => put_constant(out, a as u16, b as i64),
        Insn::I11x { op: _, a } => put_register(out, a as u16),
        Insn::I10t { op: _, to } => put_target(out, form, to),
        Insn::I20t { op: _, to } => put_target(out, form, to),
        Insn::I30t { op: _, to } => put_target(out, form, to),
        Insn::I22x { op: _, a, b } => put_two(out, a as u16, b),
        Insn::I21t { op: _, a, to } => put_test(out, form, a as u16, to),
        Insn::I31t { op: _, a, to } => put_test(out, form, a as u16, to),
        Insn::I21s { op: _, a, b } => put_constant(out, a as u16, b as i64),
        Insn::I21h { op: _, a, b } => put_constant(out, a as u16, b as i64),
        Insn::I21c { op: _, a, name } => put_access(out, a as u16, name),
        Insn::I31c { op: _, a, name } => put_access(out, a as u16, name),
        Insn::I23x { op: _, a, b, c } => put_three(out, a as u16, b as u16, c as u16),
        Insn::I22b { op: _, a, b, c } => put_two_constant(out, a as u16, b as u16, c as i64),
        Insn::I22t { op: _, a, b, to } => put_two_test(out, form, a as u16, b as u16, to),
        Insn::I22s { op: _, a, b, c } => put_two_constant(out, a as u16, b as u16, c as i64),
        Insn::I22c { op: _, a, b, name } => put_two_access(out, a as u16, b as u16, name),
        Insn::I32x { op: _, a, b } => put_two(out, a, b),
        Insn::I31i { op: _, a, b } => put_constant(out, a as u16, b as i64),
        Insn::I51l { op: _, a, b } => put_constant(out, a as u16, b),
        Insn::I35c { op: _, n, regs, name } => put_call(out, n, regs, name),
        Insn::I3rc { op: _, n, first, name } => put_range(out, first, n, name),
        Insn::Packed { first, targets } => put_packed(out, form, first, targets),
        Insn::Sparse { keys, targets } => put_pairs(out, form, keys, targets),
        Insn::Data { width, bytes } => put_data(out, width, bytes),
    }
}
