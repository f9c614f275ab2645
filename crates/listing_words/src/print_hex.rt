//! Hexadecimal digits, as they are written.

ghost use Rattle.std.specs.Prelude.{◌≡◌, ◌<◌, ◌++◌, OnOk};
ghost use Rattle.listing_words.specs.Written.{hex_digits, hex_width, flags_text, elements_text};

use crate::print::glyph;
use std::alloc::AllocError;

/// Appends the last `width` hexadecimal digits of a number, in lower case.
///
/// It fails only when out of memory, after which `out` may have some of the digits.
pub fn put_hex(out: &mut Vec<u8>, width: usize, n: u64) -> Result<(), AllocError>
    ensures ok { OnOk result (out.new.items ≡ out.old.items ++ hex_digits width n) }
{
    if width == 0 {
        return Ok(());
    }
    put_hex(out, width - 1, n / 16)?;
    out.push(glyph((n % 16) as u16))?;
    Ok(())
}

/// How many hexadecimal digits a number has without leading zeros.
fn hex_width(n: u32) -> usize
    ensures { result ≡ hex_width n }
{
    if n < 16 {
        return 1;
    }
    if n < 256 {
        return 2;
    }
    if n < 4096 {
        return 3;
    }
    if n < 65536 {
        return 4;
    }
    if n < 1048576 {
        return 5;
    }
    if n < 16777216 {
        return 6;
    }
    if n < 268435456 {
        return 7;
    }
    8
}

/// Appends flags: `0x` and their hexadecimal digits without leading zeros.
pub fn put_flags(out: &mut Vec<u8>, flags: u32) -> Result<(), AllocError>
    ensures ok { OnOk result (out.new.items ≡ out.old.items ++ flags_text flags) }
{
    if flags < 16 {
        out.extend_from_slice(&[b'0', b'x', glyph(flags as u16)])?;
        return Ok(());
    }
    out.extend_from_slice(b"0x")?;
    put_hex(out, hex_width(flags), flags as u64)
}

/// Appends bytes as pairs of hexadecimal digits.
pub fn put_elements(out: &mut Vec<u8>, bytes: &[u8]) -> Result<(), AllocError>
    ensures ok { OnOk result (out.new.items ≡ out.old.items ++ elements_text bytes.now) }
{
    for byte in bytes {
        out.extend_from_slice(&[glyph((byte / 16 % 16) as u16), glyph((byte % 16) as u16)])?;
    }
    Ok(())
}
