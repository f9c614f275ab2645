//! Names as text: `{}` and `{:?}` write a name as a listing does.

ghost use Rattle.std.specs.Prelude.{◌≡◌, ◌<◌, Some};
ghost use Rattle.std.specs.Fmt.{WritesOnOk};
ghost use Rattle.program_types.specs.View.{str, desc, proto, field_ref, method_ref};
ghost use Rattle.program_types.specs.Written.{glyph, escape_text, name_unit, name_text, proto_units, field_units, method_units};

use crate::names::{Desc, FieldRef, MethodRef, Proto, Str};
use std::fmt;

/// A hexadecimal digit in lower case.
fn glyph(digit: u16) -> char
    requires { digit < 16 }
    ensures ascii { result < 128 }
    ensures digit { result ≡ glyph digit }
{
    if digit < 10 {
        return (48 + digit) as u8 as char;
    }
    (87 + digit) as u8 as char
}

/// `\uXXXX`
fn write_escape<W: fmt::Write>(f: &mut fmt::Formatter<W>, unit: u16) -> fmt::Result
    ensures { WritesOnOk W.write_str_gives f.old result (escape_text unit) f.new }
{
    f.write_str("\\u")?;
    f.write_char(glyph(unit / 4096 % 16))?;
    f.write_char(glyph(unit / 256 % 16))?;
    f.write_char(glyph(unit / 16 % 16))?;
    f.write_char(glyph(unit % 16))
}

/// A unit of a name.
fn write_unit<W: fmt::Write>(f: &mut fmt::Formatter<W>, unit: u16) -> fmt::Result
    ensures { WritesOnOk W.write_str_gives f.old result (name_unit unit) f.new }
{
    if unit <= 32 || unit >= 127 {
        return write_escape(f, unit);
    }
    if unit == 34 || unit == 92 {
        return write_escape(f, unit);
    }
    f.write_char(unit as u8 as char)
}

/// As a name, without quotes: a visible ASCII character is itself; any other unit, a space, a quote and a backslash are
/// `\uXXXX`.
impl fmt::Display for Str<'_> {
    ghost output = { λ s. Some (name_text (str s)) };

    fn fmt<W: fmt::Write>(&self, f: &mut fmt::Formatter<W>) -> fmt::Result {
        for unit in self.units {
            write_unit(f, *unit)?;
        }
        Ok(())
    }
}

/// A type is written as its descriptor.
impl fmt::Display for Desc<'_> {
    ghost output = { λ d. Some (name_text (desc d)) };

    fn fmt<W: fmt::Write>(&self, f: &mut fmt::Formatter<W>) -> fmt::Result {
        fmt::Display::fmt(&self.text, f)
    }
}

/// `(P..)R`
impl fmt::Display for Proto<'_> {
    ghost output = { λ p. Some (name_text (proto_units (proto p))) };

    fn fmt<W: fmt::Write>(&self, f: &mut fmt::Formatter<W>) -> fmt::Result {
        f.write_str("(")?;
        for param in self.params {
            fmt::Display::fmt(param, f)?;
        }
        write!(f, "){}", self.ret)
    }
}

/// `C->n:T`
impl fmt::Display for FieldRef<'_> {
    ghost output = { λ r. Some (name_text (field_units (field_ref r))) };

    fn fmt<W: fmt::Write>(&self, f: &mut fmt::Formatter<W>) -> fmt::Result {
        write!(f, "{}->{}:{}", self.class, self.name, self.ty)
    }
}

/// `C->n(P..)R`
impl fmt::Display for MethodRef<'_> {
    ghost output = { λ m. Some (name_text (method_units (method_ref m))) };

    fn fmt<W: fmt::Write>(&self, f: &mut fmt::Formatter<W>) -> fmt::Result {
        write!(f, "{}->{}{}", self.class, self.name, self.proto)
    }
}

impl fmt::Debug for Str<'_> {
    ghost debug_output = { λ s. Some (name_text (str s)) };

    fn fmt<W: fmt::Write>(&self, f: &mut fmt::Formatter<W>) -> fmt::Result {
        fmt::Display::fmt(self, f)
    }
}

impl fmt::Debug for Desc<'_> {
    ghost debug_output = { λ d. Some (name_text (desc d)) };

    fn fmt<W: fmt::Write>(&self, f: &mut fmt::Formatter<W>) -> fmt::Result {
        fmt::Display::fmt(self, f)
    }
}

impl fmt::Debug for Proto<'_> {
    ghost debug_output = { λ p. Some (name_text (proto_units (proto p))) };

    fn fmt<W: fmt::Write>(&self, f: &mut fmt::Formatter<W>) -> fmt::Result {
        fmt::Display::fmt(self, f)
    }
}

impl fmt::Debug for FieldRef<'_> {
    ghost debug_output = { λ r. Some (name_text (field_units (field_ref r))) };

    fn fmt<W: fmt::Write>(&self, f: &mut fmt::Formatter<W>) -> fmt::Result {
        fmt::Display::fmt(self, f)
    }
}

impl fmt::Debug for MethodRef<'_> {
    ghost debug_output = { λ m. Some (name_text (method_units (method_ref m))) };

    fn fmt<W: fmt::Write>(&self, f: &mut fmt::Formatter<W>) -> fmt::Result {
        fmt::Display::fmt(self, f)
    }
}
