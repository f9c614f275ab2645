//! Single lines, each with its line feed.

ghost use Rattle.std.specs.Prelude.{◌≡◌, ℕ, List, ◌++◌, ◌∷◌, [], OnOk, Some};
ghost use Rattle.program_types.specs.View.{desc, str, member, method, value, insn};
ghost use Rattle.listing_slots.specs.Keys.{key_text};
ghost use Rattle.listing_slots.specs.declared.key.Key.TheVariants as Key;
ghost use Rattle.listing_lines.specs.Lines as spec;
ghost use Rattle.listing_print.specs.Operands.{operand_text, keyword, to};
ghost use Rattle.listing_print.specs.Printed.{type_operand, member_operands, method_operands, keyed_text, keyed_text_in, insn_word, with_number, insn_text, label_text};

use crate::operands::{put_operands, put_target};
use crate::values::put_value;
use dex_insn::mnemonic_of;
use listing_lines::Form;
use listing_slots::{
    Key, key_text, put_decimal, put_flags, put_key, put_name, put_number, put_proto, put_text,
};
use program_types::{Desc, Insn, Member, Method, Str, Value};
use std::alloc::AllocError;

/// Appends the first word of a line.
fn put_first(out: &mut Vec<u8>, key: Key) -> Result<(), AllocError>
    ensures ok { OnOk result (out.new.items ≡ out.old.items ++ key_text key) }
{
    out.extend_from_slice(key_text(key).as_bytes())?;
    Ok(())
}

/// Ends a line.
fn put_feed(out: &mut Vec<u8>) -> Result<(), AllocError>
    ensures ok { OnOk result (out.new.items ≡ out.old.items ++ 10 ∷ []) }
{
    out.push(10)?;
    Ok(())
}

/// Appends a line of two keywords.
pub(crate) fn put_keys(out: &mut Vec<u8>, first: Key, second: Key) -> Result<(), AllocError>
    ensures ok { OnOk result (out.new.items ≡ out.old.items ++ (key_text first ++ (operand_text (keyword second ∷ []) ++ 10 ∷ []))) }
{
    put_first(out, first)?;
    put_key(out, second)?;
    put_feed(out)
}

/// Appends the first line of a class.
pub(crate) fn put_class_line(out: &mut Vec<u8>, ty: Desc<'_>, flags: u32) -> Result<(), AllocError>
    ensures ok { OnOk result (out.new.items ≡ out.old.items ++ keyed_text (spec.open_class (desc ty.entry) flags)) }
{
    put_first(out, Key::Class)?;
    put_name(out, ty.text.units)?;
    put_flags(out, flags)?;
    put_feed(out)
}

/// Appends a line of a keyword and a type.
pub(crate) fn put_type_line(out: &mut Vec<u8>, key: Key, ty: Desc<'_>) -> Result<(), AllocError>
    ensures ok { OnOk result (out.new.items ≡ out.old.items ++ (key_text key ++ (operand_text (type_operand (desc ty.entry) ∷ []) ++ 10 ∷ []))) }
{
    put_first(out, key)?;
    put_name(out, ty.text.units)?;
    put_feed(out)
}

/// Appends the line of a source file.
pub(crate) fn put_source_line(out: &mut Vec<u8>, text: Str<'_>) -> Result<(), AllocError>
    ensures ok { OnOk result (out.new.items ≡ out.old.items ++ keyed_text (spec.source_line (str text.entry))) }
{
    put_first(out, Key::Source)?;
    put_text(out, text.units)?;
    put_feed(out)
}

/// Appends a member's name, type and flags.
fn put_member(out: &mut Vec<u8>, field: &Member<'_>) -> Result<(), AllocError>
    ensures ok { OnOk result (out.new.items ≡ out.old.items ++ operand_text (member_operands (member field.now))) }
{
    put_name(out, field.name.units)?;
    put_name(out, field.ty.text.units)?;
    put_flags(out, field.flags)
}

/// Appends the line of a field without a value.
pub(crate) fn put_member_line(
    out: &mut Vec<u8>,
    key: Key,
    field: &Member<'_>,
) -> Result<(), AllocError>
    ensures ok { OnOk result (out.new.items ≡ out.old.items ++ (key_text key ++ (operand_text (member_operands (member field.now)) ++ 10 ∷ []))) }
{
    put_first(out, key)?;
    put_member(out, field)?;
    put_feed(out)
}

/// Appends the line of a static field with a value.
pub(crate) fn put_given_line(
    out: &mut Vec<u8>,
    field: &Member<'_>,
    initial: &Value<'_>,
) -> Result<(), AllocError>
    ensures ok { OnOk result (out.new.items ≡ out.old.items ++ keyed_text (spec.static_line (member field.now) (Some (value initial.now)))) }
{
    put_first(out, Key::Static)?;
    put_member(out, field)?;
    put_key(out, Key::Equals)?;
    put_value(out, initial)?;
    put_feed(out)
}

/// Appends the line of a method.
pub(crate) fn put_method_line(
    out: &mut Vec<u8>,
    key: Key,
    one: &Method<'_>,
) -> Result<(), AllocError>
    ensures ok { OnOk result (out.new.items ≡ out.old.items ++ (key_text key ++ (operand_text (method_operands (method one.now)) ++ 10 ∷ []))) }
{
    put_first(out, key)?;
    put_name(out, one.name.units)?;
    put_proto(out, one.proto)?;
    put_flags(out, one.flags)?;
    put_feed(out)
}

/// Appends the first line of a code block.
pub(crate) fn put_code_line(
    out: &mut Vec<u8>,
    registers: u16,
    ins: u16,
    outs: u16,
) -> Result<(), AllocError>
    ensures ok { OnOk result (out.new.items ≡ out.old.items ++ keyed_text (spec.open_code registers ins outs)) }
{
    put_first(out, Key::Code)?;
    put_number(out, registers as u64)?;
    put_number(out, ins as u64)?;
    put_number(out, outs as u64)?;
    put_feed(out)
}

/// Appends the first line of a try.
pub(crate) fn put_try_line(
    out: &mut Vec<u8>,
    form: Form,
    from: u32,
    to: u32,
) -> Result<(), AllocError>
    ensures ok { OnOk result (out.new.items ≡ out.old.items ++ keyed_text_in form (spec.try_line from to)) }
{
    put_first(out, Key::Try)?;
    put_target(out, form, from)?;
    put_target(out, form, to)?;
    put_feed(out)
}

/// Appends the line of a catch.
pub(crate) fn put_catch_line(
    out: &mut Vec<u8>,
    form: Form,
    ty: Desc<'_>,
    at: u32,
) -> Result<(), AllocError>
    ensures ok { OnOk result (out.new.items ≡ out.old.items ++ keyed_text_in form (spec.catch_line (desc ty.entry) at)) }
{
    put_first(out, Key::Catch)?;
    put_name(out, ty.text.units)?;
    put_target(out, form, at)?;
    put_feed(out)
}

/// Appends the line of a catch-all.
pub(crate) fn put_catch_all_line(out: &mut Vec<u8>, form: Form, at: u32) -> Result<(), AllocError>
    ensures ok { OnOk result (out.new.items ≡ out.old.items ++ keyed_text_in form (spec.catch_all_line at)) }
{
    put_first(out, Key::CatchAll)?;
    put_target(out, form, at)?;
    put_feed(out)
}

/// The mnemonic of an instruction, or the word of a payload.
#[rattlefmt::skip]
fn insn_word(one: &Insn<'_>) -> &'static str
    ensures { result.now ≡ insn_word (insn one.now) }
{
    match *one {
        Insn::I10x { op } => mnemonic_of(op),
        Insn::I12x { op, a: _, b: _ } => mnemonic_of(op),
        Insn::I11n { op, a: _, b: _ } => mnemonic_of(op),
        Insn::I11x { op, a: _ } => mnemonic_of(op),
        Insn::I10t { op, to: _ } => mnemonic_of(op),
        Insn::I20t { op, to: _ } => mnemonic_of(op),
        Insn::I30t { op, to: _ } => mnemonic_of(op),
        Insn::I22x { op, a: _, b: _ } => mnemonic_of(op),
        Insn::I21t { op, a: _, to: _ } => mnemonic_of(op),
        Insn::I31t { op, a: _, to: _ } => mnemonic_of(op),
        Insn::I21s { op, a: _, b: _ } => mnemonic_of(op),
        Insn::I21h { op, a: _, b: _ } => mnemonic_of(op),
        Insn::I21c { op, a: _, name: _ } => mnemonic_of(op),
        Insn::I31c { op, a: _, name: _ } => mnemonic_of(op),
        Insn::I23x { op, a: _, b: _, c: _ } => mnemonic_of(op),
        Insn::I22b { op, a: _, b: _, c: _ } => mnemonic_of(op),
        Insn::I22t { op, a: _, b: _, to: _ } => mnemonic_of(op),
        Insn::I22s { op, a: _, b: _, c: _ } => mnemonic_of(op),
        Insn::I22c { op, a: _, b: _, name: _ } => mnemonic_of(op),
        Insn::I32x { op, a: _, b: _ } => mnemonic_of(op),
        Insn::I31i { op, a: _, b: _ } => mnemonic_of(op),
        Insn::I51l { op, a: _, b: _ } => mnemonic_of(op),
        Insn::I35c { op, n: _, regs: _, name: _ } => mnemonic_of(op),
        Insn::I3rc { op, n: _, first: _, name: _ } => mnemonic_of(op),
        Insn::Packed { first: _, targets: _ } => key_text(Key::Packed),
        Insn::Sparse { keys: _, targets: _ } => key_text(Key::Sparse),
        Insn::Data { width: _, bytes: _ } => key_text(Key::Elements),
    }
}

/// Appends the number that instruction k gives itself.
fn put_numbered(out: &mut Vec<u8>, form: Form, k: u64) -> Result<(), AllocError>
    ensures ok { OnOk result ((text : List ℕ) → out.new.items ++ text ≡ out.old.items ++ with_number form k text) }
{
    match form {
        Form::One => {
            put_decimal(out, k)?;
            out.extend_from_slice(b": ")?;
            Ok(())
        }
        Form::Two => Ok(()),
    }
}

/// Appends the line of instruction k's label.
pub(crate) fn put_label_line(out: &mut Vec<u8>, k: u64) -> Result<(), AllocError>
    ensures ok { OnOk result (out.new.items ≡ out.old.items ++ label_text k) }
{
    out.extend_from_slice(b":L")?;
    put_decimal(out, k)?;
    put_feed(out)
}

/// Appends instruction k.
pub(crate) fn put_insn_line(
    out: &mut Vec<u8>,
    form: Form,
    k: u64,
    one: &Insn<'_>,
) -> Result<(), AllocError>
    ensures ok { OnOk result (out.new.items ≡ out.old.items ++ insn_text form k (insn one.now)) }
{
    put_numbered(out, form, k)?;
    out.extend_from_slice(insn_word(one).as_bytes())?;
    put_operands(out, form, one)?;
    put_feed(out)
}
