//! The order of classes, with types looked up by hash: in time that grows with the program.

ghost use Rattle.std.specs.Prelude.{◌≡◌, ◌↔◌, ◌≤◌, length, map, Some, IfOk, IfSome, IsTrue};
ghost use Rattle.std.specs.List.{AllByRecursion, slice_get};
ghost use Rattle.program_types.specs.Content.{Program};
ghost use Rattle.program_types.specs.View.{class, desc};
ghost use Rattle.program_rules.specs.Rules.{NoneFrom, AreDistinct, OrderHolds};
ghost use Rattle.program_rules.specs.inner.Numbers.{AreNumbers, types};

use crate::order::are_distinct;
use dex_base::Seed;
use program_types::{Class, Desc};
use std::alloc::{AllocError, Global};
use std::collections::HashMap;

/// How many types are compared pair by pair, without memory.
const FEW: usize = 8;

/// The numbers of the types of a list.
#[derive(Drop)]
pub(crate) struct TypePlaces<'a> {
    /// The last number of each type.
    last: HashMap<Desc<'a>, usize, Seed>,
    /// The first number whose type occurs before it too.
    again: Option<usize>,
}

/// The numbers of the types.
pub(crate) fn numbers_of<'a>(
    alloc: Global,
    seed: Seed,
    list: &[Desc<'a>],
) -> Result<TypePlaces<'a>, AllocError>
    ensures ok { IfOk result (AreNumbers (map desc list.now) (length list.now)) }
{
    let mut last = HashMap::with_hasher(alloc, seed);
    let mut again = None;
    for k in 0..list.len() {
        let ty = list[k];
        let before = last.insert(ty, k)?;
        if again.is_none() && before.is_some() {
            again = Some(k);
        }
    }
    Ok(TypePlaces { last, again })
}

/// Whether none of the classes from number `from` on is of the type.
fn is_none_from(numbers: &TypePlaces<'_>, from: usize, ty: Desc<'_>) -> bool
    ensures { (p : Program) → AreNumbers (types p) (length p) numbers.now → IsTrue result ↔ NoneFrom p from (desc ty.entry) }
{
    match numbers.last.get(&ty) {
        Some(last) => *last < from,
        None => true,
    }
}

/// Whether none of the classes from number `from` on is of one of the types.
fn are_none_from(numbers: &TypePlaces<'_>, from: usize, list: &[Desc<'_>]) -> bool
    ensures { (p : Program) → AreNumbers (types p) (length p) numbers.now → IsTrue result ↔ AllByRecursion (NoneFrom p from) (map desc list.now) }
{
    for ty in list {
        if !is_none_from(numbers, from, *ty) {
            return false;
        }
    }
    true
}

/// Whether no type occurs twice.
fn are_distinct_in(alloc: Global, seed: Seed, list: &[Desc<'_>]) -> Result<bool, AllocError>
    ensures ok { IfOk result (λ yes. IsTrue yes ↔ AreDistinct (map desc list.now)) }
{
    if list.len() <= FEW {
        return Ok(are_distinct(list));
    }
    let numbers = numbers_of(alloc, seed, list)?;
    Ok(numbers.again.is_none())
}

/// Whether number `i` is the first whose type occurs before it too.
fn is_first_again(numbers: &TypePlaces<'_>, i: usize) -> bool
    ensures { IsTrue result ↔ (numbers.now.again ≡ Some i) }
{
    numbers.again == Some(i)
}

/// Whether class `i` is defined once, after its superclass and its interfaces, each of which it gives once. All classes
/// before it are defined once.
pub(crate) fn order_holds_in(
    alloc: Global,
    numbers: &TypePlaces<'_>,
    i: usize,
    one: &Class<'_>,
) -> Result<bool, AllocError>
    ensures ok { (p : Program) → AreNumbers (types p) (length p) numbers.now → slice_get p i ≡ Some (class one.now) → IfSome numbers.now.again (λ k. i ≤ k) → IfOk result (λ yes. IsTrue yes ↔ OrderHolds p i (class one.now)) }
{
    if is_first_again(numbers, i) {
        return Ok(false);
    }
    if !are_none_from(numbers, i, one.interfaces) {
        return Ok(false);
    }
    if let Some(above) = one.superclass {
        if !is_none_from(numbers, i, above) {
            return Ok(false);
        }
    }
    are_distinct_in(alloc, *numbers.last.hasher(), one.interfaces)
}
