//! The words after the first one of a line, as they are printed: each after one space.

ghost use Rattle.std.specs.Prelude.{◌≡◌, ◌++◌, ◌∷◌, OnOk};
ghost use Rattle.std.specs.Fmt.{decimal, signed_decimal};
ghost use Rattle.program_types.specs.View.{proto, field_ref, method_ref};
ghost use Rattle.listing_words.specs.Texts.{text_word};
ghost use Rattle.listing_words.specs.Written.{hex_digits, flags_text, elements_text, name_text, proto_units, field_units, method_units};
ghost use Rattle.listing_slots.specs.Keys.{key_text};

use crate::key::{Key, key_text};
use itoa::Buffer;
use listing_words as words;
use program_types::{FieldRef, MethodRef, Proto};
use std::alloc::AllocError;

/// Appends a number in decimal, without a space before it.
///
/// This and all others here fail only when out of memory, after which `out` may have part of the word.
pub fn put_decimal(out: &mut Vec<u8>, n: u64) -> Result<(), AllocError>
    ensures ok { OnOk result (out.new.items ≡ out.old.items ++ decimal n) }
{
    if n < 10 {
        out.push(b'0' + n as u8)?;
        return Ok(());
    }
    if n < 100 {
        out.extend_from_slice(&[b'0' + (n / 10) as u8, b'0' + (n % 10) as u8])?;
        return Ok(());
    }
    let mut digits = Buffer::new();
    out.extend_from_slice(digits.format(n).as_bytes())?;
    Ok(())
}

/// Appends a space and a number.
pub fn put_number(out: &mut Vec<u8>, n: u64) -> Result<(), AllocError>
    ensures ok { OnOk result (out.new.items ≡ out.old.items ++ (32 ∷ decimal n)) }
{
    out.push(b' ')?;
    put_decimal(out, n)
}

/// Appends a space and a register.
#[inline(always)]
pub fn put_register(out: &mut Vec<u8>, n: u16) -> Result<(), AllocError>
    ensures ok { OnOk result (out.new.items ≡ out.old.items ++ (32 ∷ 118 ∷ decimal n)) }
{
    if n < 10 {
        out.extend_from_slice(&[b' ', b'v', b'0' + n as u8])?;
        return Ok(());
    }
    out.extend_from_slice(b" v")?;
    put_decimal(out, n as u64)
}

/// Appends a space and a target.
pub fn put_target(out: &mut Vec<u8>, n: u32) -> Result<(), AllocError>
    ensures ok { OnOk result (out.new.items ≡ out.old.items ++ (32 ∷ 64 ∷ decimal n)) }
{
    out.extend_from_slice(b" @")?;
    put_decimal(out, n as u64)
}

/// Appends a space and a signed number.
pub fn put_signed(out: &mut Vec<u8>, n: i64) -> Result<(), AllocError>
    ensures ok { OnOk result (out.new.items ≡ out.old.items ++ (32 ∷ signed_decimal n)) }
{
    if n >= 0 {
        return put_number(out, n as u64);
    }
    out.push(b' ')?;
    let mut digits = Buffer::new();
    out.extend_from_slice(digits.format(n).as_bytes())?;
    Ok(())
}

/// Appends a space and the bits of a number, in so many hexadecimal digits.
pub fn put_bits(out: &mut Vec<u8>, width: usize, n: u64) -> Result<(), AllocError>
    ensures ok { OnOk result (out.new.items ≡ out.old.items ++ (32 ∷ hex_digits width n)) }
{
    out.push(b' ')?;
    words::put_hex(out, width, n)
}

/// Appends a space and flags.
pub fn put_flags(out: &mut Vec<u8>, flags: u32) -> Result<(), AllocError>
    ensures ok { OnOk result (out.new.items ≡ out.old.items ++ (32 ∷ flags_text flags)) }
{
    out.push(b' ')?;
    words::put_flags(out, flags)
}

/// Appends a space and the bytes of an array.
pub fn put_elements(out: &mut Vec<u8>, bytes: &[u8]) -> Result<(), AllocError>
    ensures ok { OnOk result (out.new.items ≡ out.old.items ++ (32 ∷ elements_text bytes.now)) }
{
    out.push(b' ')?;
    words::put_elements(out, bytes)
}

/// Appends a space and a text in quotes.
pub fn put_text(out: &mut Vec<u8>, units: &[u16]) -> Result<(), AllocError>
    ensures ok { OnOk result (out.new.items ≡ out.old.items ++ (32 ∷ text_word units.now)) }
{
    out.push(b' ')?;
    words::put_text(out, units)
}

/// Appends a space and a name or a descriptor.
pub fn put_name(out: &mut Vec<u8>, units: &[u16]) -> Result<(), AllocError>
    ensures ok { OnOk result (out.new.items ≡ out.old.items ++ (32 ∷ name_text units.now)) }
{
    out.push(b' ')?;
    words::put_name(out, units)
}

/// Appends a space and a prototype.
pub fn put_proto(out: &mut Vec<u8>, one: &Proto<'_>) -> Result<(), AllocError>
    ensures ok { OnOk result (out.new.items ≡ out.old.items ++ (32 ∷ name_text (proto_units (proto one.now)))) }
{
    out.push(b' ')?;
    words::put_proto(out, one)
}

/// Appends a space and a field.
pub fn put_field(out: &mut Vec<u8>, field: &FieldRef<'_>) -> Result<(), AllocError>
    ensures ok { OnOk result (out.new.items ≡ out.old.items ++ (32 ∷ name_text (field_units (field_ref field.now)))) }
{
    out.push(b' ')?;
    words::put_field(out, field)
}

/// Appends a space and a method.
pub fn put_method(out: &mut Vec<u8>, method: &MethodRef<'_>) -> Result<(), AllocError>
    ensures ok { OnOk result (out.new.items ≡ out.old.items ++ (32 ∷ name_text (method_units (method_ref method.now)))) }
{
    out.push(b' ')?;
    words::put_method(out, method)
}

/// Appends a space and a keyword.
pub fn put_key(out: &mut Vec<u8>, key: Key) -> Result<(), AllocError>
    ensures ok { OnOk result (out.new.items ≡ out.old.items ++ (32 ∷ key_text key)) }
{
    out.push(b' ')?;
    out.extend_from_slice(key_text(key).as_bytes())?;
    Ok(())
}
