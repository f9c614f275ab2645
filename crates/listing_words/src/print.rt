//! Texts in quotes, as they are written.

ghost use Rattle.std.specs.Prelude.{◌≡◌, ◌<◌, ◌+◌, ◌++◌, OnOk};
ghost use Rattle.std.specs.List.{flat_map};
ghost use Rattle.listing_words.specs.Texts.{unit_text, escape_text, text_word, glyph};

use crate::plain::{BACKSLASH, QUOTE, put_plain};
use std::alloc::AllocError;

/// A hexadecimal digit in lower case.
pub(crate) fn glyph(digit: u16) -> u8
    requires { digit < 16 }
    ensures { result ≡ glyph digit }
{
    if digit < 10 {
        return b'0' + digit as u8;
    }
    b'a' + (digit - 10) as u8
}

/// Appends `\uXXXX`.
pub(crate) fn put_escape(out: &mut Vec<u8>, unit: u16) -> Result<(), AllocError>
    ensures ok { OnOk result (out.new.items ≡ out.old.items ++ escape_text unit) }
{
    out.extend_from_slice(&[
        b'\\',
        b'u',
        glyph(unit / 4096 % 16),
        glyph(unit / 256 % 16),
        glyph(unit / 16 % 16),
        glyph(unit % 16),
    ])?;
    Ok(())
}

/// Appends a unit as it stands in a text.
fn put_unit(out: &mut Vec<u8>, unit: u16) -> Result<(), AllocError>
    ensures ok { OnOk result (out.new.items ≡ out.old.items ++ unit_text unit) }
{
    if unit == QUOTE || unit == BACKSLASH {
        out.extend_from_slice(&[b'\\', unit as u8])?;
    } else if 31 < unit && unit < 127 {
        out.extend_from_slice(&[unit as u8])?;
    } else {
        put_escape(out, unit)?;
    }
    Ok(())
}

/// Appends units one by one as they stand in a text.
fn put_units(out: &mut Vec<u8>, units: &[u16]) -> Result<(), AllocError>
    ensures ok { OnOk result (out.new.items ≡ out.old.items ++ flat_map unit_text units.now) }
{
    for unit in units {
        put_unit(out, *unit)?;
    }
    Ok(())
}

/// Appends a text in quotes: the units 0x20 to 0x7e are themselves, a quote and a backslash follow a backslash, all others are
/// escaped as `\uXXXX` in lower case.
///
/// It fails only when out of memory, after which `out` may have part of the text.
pub fn put_text(out: &mut Vec<u8>, units: &[u16]) -> Result<(), AllocError>
    ensures ok { OnOk result (out.new.items ≡ out.old.items ++ text_word units.now) }
{
    out.push(b'"')?;
    let done = put_plain(out, units, 32)?;
    let (_, rest) = units.split_at(done);
    put_units(out, rest)?;
    out.push(b'"')?;
    Ok(())
}
