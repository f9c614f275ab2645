//! Names of members, and the simple names that they and class names are made of ("Dalvik Executable format",
//! section "String syntax").

ghost use Rattle.std.specs.Prelude.{◌≡◌, ℕ, ◌+◌, ◌<◌, ◌≤◌, [], ◌∷◌, ◌++◌, ◌↔◌, List, length, IsTrue, IfSome, IfNone};
ghost use Rattle.dex_base.specs.Grammar.{Begins, NoneBegins, Each};
ghost use Rattle.dex_base.specs.Descriptor.{IsNamePoint, IsSimpleName, IsMemberName};
ghost use Rattle.dex_base.specs.inner.Names.{HasPoint, SpellsPoint, AreLowPoints, IsRun};

use std::simd::prelude::*;

/// How many units are checked at once.
const LANES: usize = 8;

const LESS: u16 = b'<' as u16;

const GREATER: u16 = b'>' as u16;

/// The code points below 128 that a simple name may have, each at its own place, and `.` at the place of any other. Nearly
/// all names are made of these, and one look is faster than the comparisons.
static LOW_POINTS: [u8; 128] = *b"................................\
    ....$........-..0123456789......\
    .ABCDEFGHIJKLMNOPQRSTUVWXYZ...._\
    .abcdefghijklmnopqrstuvwxyz.....";

/// Whether a simple name may have this code point, which is below 128.
fn is_low_point(c: u32) -> bool
    requires { c < 128 }
    ensures { IsTrue result ↔ IsNamePoint c }
{
    LOW_POINTS[c as usize] != b'.'
}

/// Whether a simple name may have this code point.
fn is_name_point(c: u32) -> bool
    ensures { IsTrue result ↔ IsNamePoint c }
{
    if c < 128 {
        return is_low_point(c);
    }
    match c {
        0xa1..=0x1fff | 0x2010..=0x2027 | 0x2030..=0xd7ff => true,
        0xe000..=0xffef | 0x10000..=0x10ffff => true,
        _ => false,
    }
}

/// The code point of a name at the front, and how many units it takes, seen unit by unit.
fn point_at(units: &[u16]) -> Option<(u32, usize)>
    ensures found { IfSome result (λ f. HasPoint units.now f.0 f.1) }
    ensures none { IfNone result ((c len : ℕ) → HasPoint units.now c len → ⊥) }
{
    if units.is_empty() {
        return None;
    }
    let high = units[0] as u32;
    if high < 0xd800 || high >= 0xdc00 {
        return if is_name_point(high) {
            Some((high, 1))
        } else {
            None
        };
    }
    if units.len() < 2 {
        return None;
    }
    let low = units[1] as u32;
    if low < 0xdc00 || low >= 0xe000 {
        return None;
    }
    Some((0x10000 + (high - 0xd800) * 1024 + (low - 0xdc00), 2))
}

/// The code point of a name at the front, and how many units it takes.
fn read_point(units: &[u16]) -> Option<(u32, usize)>
    ensures found { IfSome result (λ f. Begins SpellsPoint units.now f.0 f.1) }
    ensures some { IfSome result (λ f. 0 < f.1) }
    ensures none { IfNone result (NoneBegins SpellsPoint units.now) }
{
    point_at(units)
}

/// How many of the eight units from a place on are code points below 128 of names, up to the first that isn't.
#[inline(always)]
fn low_among(units: &[u16], at: usize) -> usize
    requires { at + 8 ≤ length units.now }
    ensures few { result ≤ 8 }
    ensures low { AreLowPoints units.now at (at + result) }
{
    let row = u16x8::from_slice(&units[at..]);
    // With this bit a letter is a small one, and nothing else becomes one.
    let from_a = (row | u16x8::splat(0x20)) - u16x8::splat(b'a' as u16);
    let from_0 = row - u16x8::splat(b'0' as u16);
    let others = from_a.simd_ge(u16x8::splat(26))
        & from_0.simd_ge(u16x8::splat(10))
        & row.simd_ne(u16x8::splat(b'$' as u16))
        & row.simd_ne(u16x8::splat(b'-' as u16))
        & row.simd_ne(u16x8::splat(b'_' as u16));
    let marks = others.to_bitmask();
    if marks == 0 {
        return LANES;
    }
    marks.trailing_zeros() as usize
}

/// How many units at the front are code points below 128 that names may have, checked one by one.
#[inline(always)]
fn low_ones(units: &[u16]) -> usize
    ensures { (points : List ℕ) × Begins (Each SpellsPoint) units.now points result }
{
    for at in 0..units.len() {
        let unit = units[at] as u32;
        if unit >= 128 || !is_low_point(unit) {
            return at;
        }
    }
    units.len()
}

/// How many units at the front are code points below 128 of names.
fn low_run(units: &[u16]) -> usize
    ensures { (points : List ℕ) × Begins (Each SpellsPoint) units.now points result }
{
    if units.len() < LANES {
        return low_ones(units);
    }
    let last = units.len() - LANES;
    let mut at = 0;
    while at < last {
        let here = low_among(units, at);
        if here < LANES {
            return at + here;
        }
        at += LANES;
    }
    last + low_among(units, last)
}

/// The length of the longest front that is made of code points of names.
pub(crate) fn name_run(units: &[u16]) -> usize
    ensures inside { result ≤ length units.now }
    ensures run { IsRun units.now result }
{
    let mut at = low_run(units);
    while let Some((_, length)) = read_point(&units[at..]) {
        at += length;
    }
    at
}

/// Whether the units are a simple name.
fn is_simple_name(units: &[u16]) -> bool
    ensures { IsTrue result ↔ IsSimpleName units.now }
{
    let run = name_run(units);
    if run == 0 {
        return false;
    }
    run == units.len()
}

/// What lies between `<` and `>` at the ends.
fn between_angles(units: &[u16]) -> Option<&[u16]>
    ensures found { IfSome result (λ inner. units.now ≡ 60 ∷ inner.now ++ 62 ∷ []) }
    ensures none { IfNone result ((inner : List ℕ) → units.now ≡ 60 ∷ inner ++ 62 ∷ [] → ⊥) }
{
    match units {
        [LESS, inner @ .., GREATER] => Some(inner),
        _ => None,
    }
}

/// Whether the units are the name of a field or a method: a simple name, or one between `<` and `>` (MemberName).
///
/// ```
/// use dex_base::is_member_name;
///
/// assert!(rt; is_member_name(&[0x3c, 0x61, 0x3e])); // <a>
/// ```
pub fn is_member_name(units: &[u16]) -> bool
    ensures { IsTrue result ↔ IsMemberName units.now }
{
    match between_angles(units) {
        Some(inner) => is_simple_name(inner),
        None => is_simple_name(units),
    }
}
