//! Type descriptors ("Dalvik Executable format", section "String syntax"): one scan finds the descriptor at the front of
//! units, and the tests check whether it is all of them.

ghost use Rattle.std.specs.Prelude.{◌≡◌, ℕ, ◌<◌, ◌≤◌, ◌++◌, ◌↔◌, List, length, take, IsTrue, IfSome, IfNone};
ghost use Rattle.dex_base.specs.Descriptor.{IsClass, IsPrimitive, IsElement, IsFieldType, IsDescriptor, IsArray, NoFront};
ghost use Rattle.dex_base.specs.inner.Descriptor.{HasFront};
ghost use Rattle.dex_base.specs.inner.Names.{IsClassTail, IsDepth};

use crate::simple_name::name_run;

/// The greatest number of dimensions of an array.
const MAX_DIMENSIONS: usize = 255;

const ARRAY: u16 = b'[' as u16;

const CLASS: u16 = b'L' as u16;

const SEMICOLON: u16 = b';' as u16;

const SLASH: u16 = b'/' as u16;

const VOID: u16 = b'V' as u16;

/// The length of the class name and `;` at the front.
fn class_tail_length(units: &[u16]) -> Option<usize>
    ensures found { IfSome result (λ n. HasFront IsClassTail units.now n) }
    ensures none { IfNone result (NoFront IsClassTail units.now) }
{
    let mut at = 0;
    loop {
        let run = name_run(&units[at..]);
        if run == 0 {
            return None;
        }
        at += run;
        if at == units.len() {
            return None;
        }
        if units[at] == SEMICOLON {
            return Some(at + 1);
        }
        if units[at] != SLASH {
            return None;
        }
        at += 1;
    }
}

/// The length of the descriptor of a class at the front.
fn class_length(units: &[u16]) -> Option<usize>
    ensures found { IfSome result (λ n. HasFront IsClass units.now n) }
    ensures none { IfNone result (NoFront IsClass units.now) }
{
    let [CLASS, tail @ ..] = units else {
        return None;
    };
    let length = class_tail_length(tail)?;
    Some(1 + length)
}

/// Whether the unit is the descriptor of a primitive type.
fn is_primitive(unit: u16) -> bool
    ensures { IsTrue result ↔ IsPrimitive unit }
{
    // Z B S C I J F D
    matches!(unit, 90 | 66 | 83 | 67 | 73 | 74 | 70 | 68)
}

/// The length of the descriptor of a primitive type or a class at the front.
fn element_length(units: &[u16]) -> Option<usize>
    ensures found { IfSome result (λ n. HasFront IsElement units.now n) }
    ensures none { IfNone result (NoFront IsElement units.now) }
{
    match units {
        [first, ..] if is_primitive(*first) => Some(1),
        _ => class_length(units),
    }
}

/// The number of `[` at the front.
fn depth(units: &[u16]) -> usize
    ensures inside { result ≤ length units.now }
    ensures depth { IsDepth units.now result }
{
    let mut n = 0;
    for unit in units {
        if *unit != ARRAY {
            break;
        }
        n += 1;
    }
    n
}

/// The length of the descriptor of a field's type at the front.
fn field_length(units: &[u16]) -> Option<usize>
    ensures found { IfSome result (λ n. HasFront IsFieldType units.now n) }
    ensures none { IfNone result (NoFront IsFieldType units.now) }
{
    let n = depth(units);
    if n > MAX_DIMENSIONS {
        return None;
    }
    let (_, element) = units.split_at(n);
    let length = element_length(element)?;
    Some(n + length)
}

/// The length in units of the type descriptor at the front, or None where no front is one. There is at most one.
pub fn descriptor_length(units: &[u16]) -> Option<usize>
    ensures inside { IfSome result (λ n. n ≤ length units.now) }
    ensures found { IfSome result (λ n. IsDescriptor (take n units.now)) }
    ensures none { IfNone result (NoFront IsDescriptor units.now) }
{
    match units {
        [VOID, ..] => Some(1),
        _ => field_length(units),
    }
}

/// Whether the units are a type descriptor: `V`, or 0 to 255 `[` before a primitive type or a class (TypeDescriptor).
///
/// ```
/// use dex_base::is_descriptor;
///
/// assert!(rt; is_descriptor(&[0x5b, 0x49])); // [I
/// ```
pub fn is_descriptor(units: &[u16]) -> bool
    ensures { IsTrue result ↔ IsDescriptor units.now }
{
    match descriptor_length(units) {
        Some(length) => length == units.len(),
        None => false,
    }
}

/// Whether the units are the descriptor of a class: `L`, simple names joined by `/`, `;`.
///
/// ```
/// use dex_base::is_class;
///
/// assert!(rt; is_class(&[0x4c, 0x41, 0x3b])); // LA;
/// ```
pub fn is_class(units: &[u16]) -> bool
    ensures { IsTrue result ↔ IsClass units.now }
{
    match class_length(units) {
        Some(length) => length == units.len(),
        None => false,
    }
}

/// Whether the units are the descriptor of an array: one that begins with `[`.
///
/// ```
/// use dex_base::is_array;
///
/// assert!(rt; is_array(&[0x5b, 0x49])); // [I
/// ```
pub fn is_array(units: &[u16]) -> bool
    ensures { IsTrue result ↔ IsArray units.now }
{
    matches!(units, [ARRAY, ..]) && is_descriptor(units)
}
