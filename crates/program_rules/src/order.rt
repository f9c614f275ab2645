//! The order of classes.

ghost use Rattle.std.specs.Prelude.{◌≡◌, ◌↔◌, ◌<◌, ◌≤◌, length, map, IsTrue};
ghost use Rattle.std.specs.List.{AllByRecursion, slice_get};
ghost use Rattle.program_types.specs.View.{class, desc};
ghost use Rattle.program_rules.specs.Rules.{IsOfType, NoneFrom, NoneBefore, IsNew, AreDistinct, OrderHolds};

use program_types::{Class, Desc, desc_eq};

/// Whether class `j` is of the type.
fn is_of_type(classes: &[Class<'_>], j: usize, ty: Desc<'_>) -> bool
    requires inside { j < length classes.now }
    ensures { IsTrue result ↔ IsOfType (map class classes.now) j (desc ty.entry) }
{
    let one = &classes[j];
    desc_eq(&one.ty, &ty)
}

/// Whether none of the classes from number `from` on is of the type.
fn none_from(classes: &[Class<'_>], from: usize, ty: Desc<'_>) -> bool
    ensures { IsTrue result ↔ NoneFrom (map class classes.now) from (desc ty.entry) }
{
    for j in from..classes.len() {
        if is_of_type(classes, j, ty) {
            return false;
        }
    }
    true
}

/// Whether none of the classes before number `i` is of the type.
fn none_before(classes: &[Class<'_>], i: usize, ty: Desc<'_>) -> bool
    requires inside { i ≤ length classes.now }
    ensures { IsTrue result ↔ NoneBefore (map class classes.now) i (desc ty.entry) }
{
    for j in 0..i {
        if is_of_type(classes, j, ty) {
            return false;
        }
    }
    true
}

/// Whether none of the classes from number `from` on is of one of the types.
fn none_from_all(classes: &[Class<'_>], from: usize, types: &[Desc<'_>]) -> bool
    ensures { IsTrue result ↔ AllByRecursion (NoneFrom (map class classes.now) from) (map desc types.now) }
{
    for ty in types {
        if !none_from(classes, from, *ty) {
            return false;
        }
    }
    true
}

/// Whether two of the types are one.
fn are_one(types: &[Desc<'_>], j: usize, k: usize) -> bool
    requires first { j < length types.now }
    requires second { k < length types.now }
    ensures { IsTrue result ↔ (slice_get (map desc types.now) j ≡ slice_get (map desc types.now) k) }
{
    let one = &types[j];
    let other = &types[k];
    desc_eq(one, other)
}

/// Whether type `k` is none of those before it.
fn is_new(types: &[Desc<'_>], k: usize) -> bool
    requires inside { k < length types.now }
    ensures { IsTrue result ↔ IsNew (map desc types.now) k }
{
    for j in 0..k {
        if are_one(types, j, k) {
            return false;
        }
    }
    true
}

/// Whether no type occurs twice.
pub(crate) fn are_distinct(types: &[Desc<'_>]) -> bool
    ensures { IsTrue result ↔ AreDistinct (map desc types.now) }
{
    for k in 0..types.len() {
        if !is_new(types, k) {
            return false;
        }
    }
    true
}

/// Whether class `i` is defined once, after its superclass and its interfaces, each of which it gives once.
pub(crate) fn order_holds(classes: &[Class<'_>], i: usize, one: &Class<'_>) -> bool
    requires inside { i < length classes.now }
    ensures { IsTrue result ↔ OrderHolds (map class classes.now) i (class one.now) }
{
    if !none_before(classes, i, one.ty) {
        return false;
    }
    if !none_from_all(classes, i, one.interfaces) {
        return false;
    }
    if !are_distinct(one.interfaces) {
        return false;
    }
    match one.superclass {
        Some(above) => none_from(classes, i, above),
        None => true,
    }
}
