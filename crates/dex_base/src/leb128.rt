//! LEB128 numbers, seven bits a byte, low bits first ("Dalvik Executable format", section "LEB128").

ghost use Rattle.std.specs.Prelude.{◌≡◌, ℕ, ◌+◌, ◌*◌, ◌^◌, ◌<◌, ◌≤◌, ◌++◌, ℤ, pos, ◌+ℤ◌, ◌-ℤ◌, ◌≤ℤ◌, ◌<ℤ◌, if◌then◌else◌, nat_lt, length, take, slice_index, IfSome, IfNone, OnOk, OnErr, IsOk, IsOkUnless, vec_len, vec_capacity};
ghost use Rattle.dex_base.specs.Grammar.{Begins, NoneBegins, Appends};
ghost use Rattle.dex_base.specs.Leb128.{IsSequence, low_first, Spells, SpellsSigned, Shortest};
ghost use Rattle.dex_base.specs.Fault.{memory};
ghost use Rattle.dex_base.specs.inner.Sequence.{IsWhole, NoSequence, IsWidth, IsSignedWidth, sequence_of};

use crate::fault::Fault;
use std::alloc::AllocError;

/// The bytes of a number, before its range and its sign are checked.
#[derive(Clone, Copy)]
struct Sequence {
    /// The sum of the low seven bits.
    number: u64,
    /// 128 to the power of the length.
    scale: u64,
    length: usize,
}

/// The sequence of at most five bytes at the front.
fn read_sequence(bytes: &[u8]) -> Option<Sequence>
    ensures found { IfSome result (λ c. IsWhole bytes.now c.length c.number c.scale) }
    ensures none { IfNone result (NoSequence bytes.now) }
{
    let mut number: u64 = 0;
    let mut scale: u64 = 1;
    for i in 0..5 {
        if bytes.len() <= i {
            return None;
        }
        let byte = bytes[i];
        number += (byte % 128) as u64 * scale;
        scale *= 128;
        if byte < 128 {
            return Some(Sequence {
                number,
                scale,
                length: i + 1,
            });
        }
    }
    None
}

/// The unsigned number (uleb128) at the front, and how many bytes it takes, 1 to 5. A longer spelling than need be is
/// read too.
///
/// Returns `None` if the bytes do not begin with a number of 32 bits.
///
/// ```
/// use dex_base::read_uleb;
///
/// assert_eq!(rt; read_uleb(&[0x80, 0x7f, 0x05]), Some((16256, 2)));
/// ```
pub fn read_uleb(bytes: &[u8]) -> Option<(u32, usize)>
    ensures found { IfSome result (λ f. Begins Spells bytes.now f.0 f.1) }
    ensures none { IfNone result (NoneBegins Spells bytes.now) }
{
    let sequence = read_sequence(bytes)?;
    if sequence.number > u32::MAX as u64 {
        return None;
    }
    Some((sequence.number as u32, sequence.length))
}

/// The value of a sequence whose last byte has the sign.
fn signed_of(number: u64, scale: u64, last: u8) -> i64
    requires below { number < scale }
    requires small { scale ≤ 2 ^ 35 }
    ensures { result ≡ (if nat_lt last 64 then pos number else pos number -ℤ pos scale) }
{
    if last < 64 {
        number as i64
    } else {
        number as i64 - scale as i64
    }
}

/// The signed number (sleb128) at the front, and how many bytes it takes, 1 to 5. A longer spelling than need be is
/// read too.
///
/// Returns `None` if the bytes do not begin with a signed number of 32 bits.
///
/// ```
/// use dex_base::read_sleb;
///
/// assert_eq!(rt; read_sleb(&[0x80, 0x7f, 0x05]), Some((-128, 2)));
/// ```
pub fn read_sleb(bytes: &[u8]) -> Option<(i32, usize)>
    ensures found { IfSome result (λ f. Begins SpellsSigned bytes.now f.0 f.1) }
    ensures none { IfNone result (NoneBegins SpellsSigned bytes.now) }
{
    let sequence = read_sequence(bytes)?;
    let number = signed_of(sequence.number, sequence.scale, bytes[sequence.length - 1]);
    match i32::try_from(number) {
        Ok(number) => Some((number, sequence.length)),
        Err(_) => None,
    }
}

/// Appends the sequence of so many bytes, seven bits each.
fn put_sequence(out: &mut Vec<u8>, length: usize, n: u64) -> Result<(), AllocError>
    requires some { (0 < length) × (length ≤ 5) }
    requires fits { n < 128 ^ length }
    ensures ok { OnOk result (out.new.items ≡ out.old.items ++ sequence_of length n) }
    ensures err { OnErr result (out.new.items ≡ out.old.items) }
    ensures len { vec_len out.new ≤ vec_len out.old + length }
    ensures capacity { vec_capacity out.old ≤ vec_capacity out.new }
    ensures room { vec_len out.old + length ≤ vec_capacity out.old → IsOk result }
{
    let low = |k: u64| (k % 128) as u8 + 128;
    match length {
        1 => out.extend_from_slice(&[n as u8])?,
        2 => out.extend_from_slice(&[low(n), (n / 128) as u8])?,
        3 => out.extend_from_slice(&[low(n), low(n / 128), (n / 128 / 128) as u8])?,
        4 => out.extend_from_slice(&[
            low(n),
            low(n / 128),
            low(n / 128 / 128),
            (n / 128 / 128 / 128) as u8,
        ])?,
        _ => out.extend_from_slice(&[
            low(n),
            low(n / 128),
            low(n / 128 / 128),
            low(n / 128 / 128 / 128),
            (n / 128 / 128 / 128 / 128) as u8,
        ])?,
    }
    Ok(())
}

/// The shortest encoding of the number.
fn uleb_length(n: u32) -> usize
    ensures { IsWidth result n }
{
    if n < 128 {
        1
    } else if n < 16384 {
        2
    } else if n < 2097152 {
        3
    } else if n < 268435456 {
        4
    } else {
        5
    }
}

/// Appends the shortest spelling of an unsigned number (uleb128), 1 to 5 bytes.
///
/// It fails only when out of memory, and then `out` holds what it held; where there is room for 5 bytes, there is none.
///
/// ```
/// use dex_base::put_uleb;
///
/// let mut out = Vec::new(alloc);
/// put_uleb(&mut out, 16256)?;
/// assert_eq!(rt; out.as_slice(), [0x80, 0x7f].as_slice());
/// ```
pub fn put_uleb(out: &mut Vec<u8>, n: u32) -> Result<(), Fault>
    ensures ok { OnOk result (Appends (Shortest Spells) out.old.items out.new.items n) }
    ensures err { OnErr result (out.new.items ≡ out.old.items) }
    ensures memory { IsOkUnless result memory }
    ensures len { vec_len out.new ≤ vec_len out.old + 5 }
    ensures capacity { vec_capacity out.old ≤ vec_capacity out.new }
    ensures room { vec_len out.old + 5 ≤ vec_capacity out.old → IsOk result }
{
    Ok(put_sequence(out, uleb_length(n), n as u64)?)
}

/// A length in bytes, and the number whose bits they have, seven a byte.
#[derive(Clone, Copy)]
struct Width {
    length: usize,
    bits: u64,
}

/// A number, or its two's complement where it is negative.
fn wrapped(n: i32, scale: i64) -> u64
    requires large { pos 0 ≤ℤ (n +ℤ scale) }
    requires small { scale ≤ℤ pos (2 ^ 35) }
    ensures positive { pos 0 ≤ℤ n → pos result ≡ n }
    ensures negative { n <ℤ pos 0 → pos result ≡ n +ℤ scale }
{
    if n < 0 {
        (n as i64 + scale) as u64
    } else {
        n as u64
    }
}

/// The length of the shortest encoding of a signed number, and its bits.
fn sleb_width(n: i32) -> Width
    ensures { IsSignedWidth result.length result.bits n }
{
    if -64 <= n && n < 64 {
        Width {
            length: 1,
            bits: wrapped(n, 1 << 7),
        }
    } else if -8192 <= n && n < 8192 {
        Width {
            length: 2,
            bits: wrapped(n, 1 << 14),
        }
    } else if -1048576 <= n && n < 1048576 {
        Width {
            length: 3,
            bits: wrapped(n, 1 << 21),
        }
    } else if -134217728 <= n && n < 134217728 {
        Width {
            length: 4,
            bits: wrapped(n, 1 << 28),
        }
    } else {
        Width {
            length: 5,
            bits: wrapped(n, 1 << 35),
        }
    }
}

/// Appends the shortest spelling of a signed number (sleb128), 1 to 5 bytes.
///
/// It fails only when out of memory, and then `out` holds what it held; where there is room for 5 bytes, there is none.
///
/// ```
/// use dex_base::put_sleb;
///
/// let mut out = Vec::new(alloc);
/// put_sleb(&mut out, -128)?;
/// assert_eq!(rt; out.as_slice(), [0x80, 0x7f].as_slice());
/// ```
pub fn put_sleb(out: &mut Vec<u8>, n: i32) -> Result<(), Fault>
    ensures ok { OnOk result (Appends (Shortest SpellsSigned) out.old.items out.new.items n) }
    ensures err { OnErr result (out.new.items ≡ out.old.items) }
    ensures memory { IsOkUnless result memory }
    ensures len { vec_len out.new ≤ vec_len out.old + 5 }
    ensures capacity { vec_capacity out.old ≤ vec_capacity out.new }
    ensures room { vec_len out.old + 5 ≤ vec_capacity out.old → IsOk result }
{
    let width = sleb_width(n);
    Ok(put_sequence(out, width.length, width.bits)?)
}
