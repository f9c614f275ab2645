//! The values of static fields.

ghost use Rattle.std.specs.Prelude.{◌≡◌, ◌++◌, ◌∷◌, OnOk};
ghost use Rattle.program_types.specs.View.{value, name};
ghost use Rattle.std.specs.Fmt.{signed_decimal};
ghost use Rattle.listing_slots.specs.Keys.{key_text};
ghost use Rattle.listing_print.specs.Operands.{operand_text, named_operands, value_operands};
ghost use Rattle.listing_print.specs.inner.Leaves.{IsLeaf};

use crate::operands::put_named;
use listing_slots::{Key, put_bits, put_field, put_key, put_number, put_signed};
use program_types::{Name, Value};
use std::alloc::AllocError;

/// Appends the keyword of a named value, and the name.
fn put_naming(out: &mut Vec<u8>, which: Name<'_>) -> Result<(), AllocError>
    ensures ok { OnOk result (out.new.items ≡ out.old.items ++ operand_text (named_operands (name which.entry))) }
{
    match which {
        Name::Text(_) => put_key(out, Key::Text)?,
        Name::Desc(_) => put_key(out, Key::Desc)?,
        Name::Field(_) => put_key(out, Key::Field)?,
        Name::Method(_) => put_key(out, Key::Method)?,
    }
    put_named(out, which)
}

/// Appends a keyword and a signed number.
fn put_whole(out: &mut Vec<u8>, key: Key, n: i64) -> Result<(), AllocError>
    ensures ok { OnOk result (out.new.items ≡ out.old.items ++ (32 ∷ (key_text key ++ (32 ∷ signed_decimal n)))) }
{
    put_key(out, key)?;
    put_signed(out, n)
}

/// Appends a value that is no array.
#[rattlefmt::skip]
fn put_leaf(out: &mut Vec<u8>, one: Value<'_>) -> Result<(), AllocError>
    ensures ok { OnOk result (IsLeaf (value one.entry) → out.new.items ≡ out.old.items ++ operand_text (value_operands (value one.entry))) }
{
    match one {
        Value::Byte(n) => put_whole(out, Key::Byte, n as i64),
        Value::Short(n) => put_whole(out, Key::Short, n as i64),
        Value::Int(n) => put_whole(out, Key::Int, n as i64),
        Value::Long(n) => put_whole(out, Key::Long, n),
        Value::Char(n) => { put_key(out, Key::Char)?; put_number(out, n as u64) }
        Value::Float(n) => { put_key(out, Key::Float)?; put_bits(out, 8, n as u64) }
        Value::Double(n) => { put_key(out, Key::Double)?; put_bits(out, 16, n) }
        Value::Text(text) => put_naming(out, Name::Text(text)),
        Value::Desc(ty) => put_naming(out, Name::Desc(ty)),
        Value::Field(field) => put_naming(out, Name::Field(field)),
        Value::Method(method) => put_naming(out, Name::Method(method)),
        Value::Enum(field) => { put_key(out, Key::Enum)?; put_field(out, field) }
        Value::Null => put_key(out, Key::Null),
        Value::Bool(true) => put_key(out, Key::True),
        Value::Bool(false) => put_key(out, Key::False),
        Value::Array(_) => Ok(()),
    }
}

/// Appends a value. The stack holds a call for each array that a value is in.
pub(crate) fn put_value(out: &mut Vec<u8>, one: &Value<'_>) -> Result<(), AllocError>
    ensures ok { OnOk result (out.new.items ≡ out.old.items ++ operand_text (value_operands (value one.now))) }
{
    match one {
        Value::Array(all) => {
            put_key(out, Key::Array)?;
            put_key(out, Key::Open)?;
            for each in *all {
                put_value(out, each)?;
            }
            put_key(out, Key::Close)?;
            Ok(())
        }
        _ => put_leaf(out, *one),
    }
}
