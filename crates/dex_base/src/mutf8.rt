//! Strings in MUTF-8, with their count and end byte ("Dalvik Executable format", sections "MUTF-8 (Modified UTF-8)
//! Encoding" and "string_data_item").

ghost use Rattle.std.specs.Prelude.{◌≡◌, ℕ, ◌^◌, ◌<◌, ◌≤◌, ◌+◌, ◌*◌, ◌++◌, List, length, slice_index, IsTrue, EachIndex, IfOk, IfSome, IfNone, OnOk, OnErr, IsOk, IsOkUnless, vec_len, vec_capacity};
ghost use Rattle.dex_base.specs.Grammar.{Begins, NoneBegins, Appends, Many, Counted};
ghost use Rattle.dex_base.specs.Mutf8.{SpellsUnit, SpellsText, PacksText, mutf8_length, unit_bytes};
ghost use Rattle.dex_base.specs.inner.Names.{HasUnit};
ghost use Rattle.dex_base.specs.Leb128.{Spells, Shortest};
ghost use Rattle.dex_base.specs.Fault.{memory};

use crate::fault::Fault;
use crate::leb128::{put_uleb, read_uleb};
use crate::width::widen;
use bumpalo::Bump;
use bumpalo::collections::into_bump_slice;
use std::alloc::{AllocError, Global};

/// The unit at the front, and how many bytes it takes, seen byte by byte.
fn unit_at(bytes: &[u8]) -> Option<(u16, usize)>
    ensures found { IfSome result (λ f. HasUnit bytes.now f.0 f.1) }
    ensures none { IfNone result ((u len : ℕ) → HasUnit bytes.now u len → ⊥) }
{
    match *bytes {
        [a @ 1..=0x7f, ..] => Some((a as u16, 1)),
        [a @ 0xc0..=0xdf, b @ 0x80..=0xbf, ..] => {
            let unit = (a as u16 - 0xc0) * 64 + (b as u16 - 0x80);
            if unit != 0 && unit < 0x80 {
                None
            } else {
                Some((unit, 2))
            }
        }
        [a @ 0xe0..=0xef, b @ 0x80..=0xbf, c @ 0x80..=0xbf, ..] => {
            let unit = (a as u16 - 0xe0) * 4096 + (b as u16 - 0x80) * 64 + (c as u16 - 0x80);
            if unit < 0x800 { None } else { Some((unit, 3)) }
        }
        _ => None,
    }
}

/// The unit at the front, and how many bytes it takes.
fn read_unit(bytes: &[u8]) -> Option<(u16, usize)>
    ensures found { IfSome result (λ f. Begins SpellsUnit bytes.now f.0 f.1) }
    ensures none { IfNone result (NoneBegins SpellsUnit bytes.now) }
{
    unit_at(bytes)
}

/// Whether each byte is a unit by itself, as in nearly all strings: none is 0, and none above 127.
fn are_single(bytes: &[u8]) -> bool
    ensures { IsTrue result → EachIndex bytes.now (λ k. (0 < slice_index bytes.now k) × (slice_index bytes.now k < 128)) }
{
    let mut single = true;
    for byte in bytes {
        single &= (*byte != 0) & (*byte < 128);
    }
    single
}

/// Units of a byte each.
fn single_units<'a>(arena: &'a Bump, bytes: &[u8]) -> Result<Vec<u16, &'a Bump>, AllocError>
    ensures ok { IfOk result (λ units. units.items ≡ bytes.now) }
{
    let mut units = Vec::with_capacity(arena, bytes.len())?;
    units.resize(bytes.len(), 0)?;
    widen(&mut units[..], bytes);
    Ok(units)
}

/// So many units at the front, one by one, and their length.
fn read_each<'a>(
    arena: &'a Bump,
    bytes: &[u8],
    count: u32,
) -> Result<Option<(Vec<u16, &'a Bump>, usize)>, AllocError>
    ensures found { IfOk result (λ r. IfSome r (λ f. Begins (Many SpellsUnit count) bytes.now f.0.items f.1)) }
    ensures none { IfOk result (λ r. IfNone r (NoneBegins (Many SpellsUnit count) bytes.now)) }
{
    let mut units = Vec::with_capacity(arena, count as usize)?;
    let mut at = 0;
    for _ in 0..count {
        let Some((unit, length)) = read_unit(&bytes[at..]) else {
            return Ok(None);
        };
        units.push(unit)?;
        at += length;
    }
    Ok(Some((units, at)))
}

/// So many units at the front, and their length.
fn read_units<'a>(
    arena: &'a Bump,
    bytes: &[u8],
    count: u32,
) -> Result<Option<(Vec<u16, &'a Bump>, usize)>, AllocError>
    ensures found { IfOk result (λ r. IfSome r (λ f. Begins (Many SpellsUnit count) bytes.now f.0.items f.1)) }
    ensures none { IfOk result (λ r. IfNone r (NoneBegins (Many SpellsUnit count) bytes.now)) }
{
    if bytes.len() < count as usize {
        return Ok(None);
    }
    let (front, _) = bytes.split_at(count as usize);
    if are_single(front) {
        return Ok(Some((single_units(arena, front)?, front.len())));
    }
    read_each(arena, bytes, count)
}

/// The string_data_item at the front: its units, placed in the arena, and its length in bytes with count and end byte.
///
/// None where no front of the bytes is one: the count is misspelled or above the units that follow, a unit is
/// misspelled (overlong, or of four bytes), or no zero ends it. Lone surrogates are units like others. The only error
/// is out of memory; the count is compared with the bytes that are left before memory is requested.
///
/// ```
/// use bumpalo::Bump;
/// use dex_base::read_mutf8;
///
/// let arena = Bump::new(alloc);
/// let read = read_mutf8(alloc, &arena, &[0x01, 0x56, 0x00])?;
/// assert!(rt; read == Some(([0x56].as_slice(), 3)));
/// ```
pub fn read_mutf8<'a>(
    _alloc: Global,
    arena: &'a Bump,
    bytes: &[u8],
) -> Result<Option<(&'a [u16], usize)>, Fault>
    ensures found { IfOk result (λ r. IfSome r (λ f. Begins SpellsText bytes.now f.0.now f.1)) }
    ensures none { IfOk result (λ r. IfNone r (NoneBegins SpellsText bytes.now)) }
    ensures memory { IsOkUnless result memory }
{
    let Some((count, front)) = read_uleb(bytes) else {
        return Ok(None);
    };
    let Some((units, back)) = read_units(arena, &bytes[front..], count)? else {
        return Ok(None);
    };
    let length = front + back;
    if bytes.len() <= length {
        return Ok(None);
    }
    if bytes[length] != 0 {
        return Ok(None);
    }
    Ok(Some((into_bump_slice(units), length + 1)))
}

/// Appends a unit. The Vec needs the capacity for it.
fn put_unit(out: &mut Vec<u8>, unit: u16)
    requires { vec_len out.old + 3 ≤ vec_capacity out.old }
    ensures ok { out.new.items ≡ out.old.items ++ unit_bytes unit }
    ensures len { vec_len out.new ≡ vec_len out.old + length (unit_bytes unit) }
    ensures capacity { vec_capacity out.new ≡ vec_capacity out.old }
{
    if unit != 0 && unit < 128 {
        out.push_reserved(unit as u8);
    } else if unit < 2048 {
        out.push_reserved((192 + unit / 64) as u8);
        out.push_reserved((128 + unit % 64) as u8);
    } else {
        out.push_reserved((224 + unit / 4096) as u8);
        out.push_reserved((128 + unit / 64 % 64) as u8);
        out.push_reserved((128 + unit % 64) as u8);
    }
}

/// Appends the string_data_item of at most 4294967295 units: the shortest spelling of their count, the units, a zero.
///
/// It fails only when out of memory, and then `out` holds what it held; where there is room for three bytes a unit and 6
/// more, there is none.
///
/// ```
/// use dex_base::put_mutf8;
///
/// let mut out = Vec::new(alloc);
/// put_mutf8(&mut out, &[0xd800, 0xdc00])?;
/// assert_eq!(rt; out.as_slice(), [0x02, 0xed, 0xa0, 0x80, 0xed, 0xb0, 0x80, 0x00].as_slice());
/// ```
pub fn put_mutf8(out: &mut Vec<u8>, units: &[u16]) -> Result<(), Fault>
    requires { length units.now < 2 ^ 32 }
    ensures ok { OnOk result (Appends PacksText out.old.items out.new.items units.now) }
    ensures err { OnErr result (out.new.items ≡ out.old.items) }
    ensures memory { IsOkUnless result memory }
    ensures len { vec_len out.new ≤ vec_len out.old + mutf8_length units.now + 6 }
    ensures capacity { vec_capacity out.old ≤ vec_capacity out.new }
    ensures room { vec_len out.old + 3 * length units.now + 6 ≤ vec_capacity out.old → IsOk result }
{
    out.reserve(units.len() * 3 + 6)?;
    put_uleb(out, units.len() as u32)?;
    for unit in units {
        put_unit(out, *unit);
    }
    out.push_reserved(0);
    Ok(())
}
