//! Values of static fields ("Dalvik Executable format": encoded_value).

use crate::names::{Desc, FieldRef, MethodRef, Str};
use std::fmt;

/// A value. `Float` and `Double` hold the bits of the number, by IEEE 754. `{:?}` shows an array by a call for each array that a
/// value is in: at most 64 in a well-formed program; a value made by hand that is much deeper may end the stack.
#[derive(Clone, Copy)]
pub enum Value<'a> {
    Byte(i8),
    Short(i16),
    Char(u16),
    Int(i32),
    Long(i64),
    Float(u32),
    Double(u64),
    Text(Str<'a>),
    Desc(Desc<'a>),
    Field(&'a FieldRef<'a>),
    Method(&'a MethodRef<'a>),
    Enum(&'a FieldRef<'a>),
    Array(&'a [Value<'a>]),
    Null,
    Bool(bool),
}

/// A word, and what follows it.
fn write_after<W: fmt::Write, D: fmt::Display>(
    f: &mut fmt::Formatter<W>,
    word: &str,
    shown: &D,
) -> fmt::Result {
    write!(f, "{word} {shown}")
}

/// A value, of an array its word alone.
fn write_front<W: fmt::Write>(f: &mut fmt::Formatter<W>, one: &Value<'_>) -> fmt::Result {
    match one {
        Value::Byte(n) => write_after(f, "byte", n),
        Value::Short(n) => write_after(f, "short", n),
        Value::Char(unit) => write_after(f, "char", unit),
        Value::Int(n) => write_after(f, "int", n),
        Value::Long(n) => write_after(f, "long", n),
        Value::Float(bits) => write!(f, "float {bits:08x}"),
        Value::Double(bits) => write!(f, "double {bits:016x}"),
        Value::Text(text) => write_after(f, "string", text),
        Value::Desc(ty) => write_after(f, "type", ty),
        Value::Field(field) => write_after(f, "field", field),
        Value::Method(method) => write_after(f, "method", method),
        Value::Enum(field) => write_after(f, "enum", field),
        Value::Array(_) => f.write_str("array"),
        Value::Null => f.write_str("null"),
        Value::Bool(truth) => fmt::Display::fmt(truth, f),
    }
}

/// As a listing writes it, a string as a name: `int 42`, `array { byte 1 null }`.
impl fmt::Debug for Value<'_> {
    fn fmt<W: fmt::Write>(&self, f: &mut fmt::Formatter<W>) -> fmt::Result {
        write_front(f, self)?;
        let Value::Array(all) = self else {
            return Ok(());
        };
        f.write_str(" {")?;
        for each in *all {
            write!(f, " {each:?}")?;
        }
        f.write_str(" }")
    }
}
