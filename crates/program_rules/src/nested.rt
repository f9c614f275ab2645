//! The names in values of any depth, on a stack that is only as deep as the logarithm of how many arrays there are.
//!
//! A walk follows a value into the one array in it that is left, and gives up where two are. So each level of calls is needed only
//! for values with twice as many arrays.

ghost use Rattle.std.specs.Prelude.{◌≡◌, ◌↔◌, ◌<◌, ◌+◌, ℕ, List, length, map, slice_index_or, IsTrue};
ghost use Rattle.program_types.specs.Content as Content;
ghost use Rattle.program_types.specs.declared.value.Value.{Value as Held};
ghost use Rattle.program_types.specs.Content.{Array, values};
ghost use Rattle.program_types.specs.View.{value};
ghost use Rattle.program_types.specs.Mentions.{NamesHold};
ghost use Rattle.program_rules.specs.Valid.{IsValidName};
ghost use Rattle.program_rules.specs.inner.Nested.{IsWalked, IsProgress, IsSoFar};

use crate::values::value_is_valid;
use program_types::Value;

/// What is known of the names in a value.
#[derive(Clone, Copy)]
enum Walked<'v, 'a> {
    /// A file can have all of them.
    Valid,
    /// There is one that it can't have.
    Invalid,
    /// A file can have all of them, if it can have those in this value, which is left.
    Left(&'v Value<'a>),
}

/// What is known of the names in an array, value by value.
#[derive(Clone, Copy)]
enum Progress<'v, 'a> {
    /// A file can have all of them.
    Valid,
    /// There is one that it can't have.
    Invalid,
    /// A file can have all of them, if it can have those in this value, which lies deeper within.
    One(&'v Value<'a>),
    /// More than one value in this array is left.
    Many(&'v Value<'a>),
}

/// What is known of an array after one value more in it.
fn joined<'v, 'a>(
    array: &'v Value<'a>,
    so_far: Progress<'v, 'a>,
    next: Walked<'v, 'a>,
) -> Progress<'v, 'a>
    ensures { (xs : List Held) (i : ℕ) (one : Held) → i < length xs → value array.now ≡ Array (values (map value xs)) → IsSoFar (value array.now) xs i so_far.entry → IsWalked (value (slice_index_or xs i one)) next.entry → IsSoFar (value array.now) xs (i + 1) result }
{
    match next {
        Walked::Valid => so_far,
        Walked::Invalid => Progress::Invalid,
        Walked::Left(inner) => match so_far {
            Progress::Valid => Progress::One(inner),
            Progress::One(_) => Progress::Many(array),
            known => known,
        },
    }
}

/// A value in an array: an array is left where there are no more levels.
#[cycle(walk)]
fn step<'v, 'a>(one: &'v Value<'a>, levels: u32) -> Walked<'v, 'a>
    ensures { IsWalked (value one.now) result }
{
    if levels > 0 {
        return walk(one, levels - 1);
    }
    match one {
        Value::Array(_) => Walked::Left(one),
        _ => {
            if value_is_valid(one) {
                return Walked::Valid;
            }
            Walked::Invalid
        }
    }
}

/// The values in an array.
#[cycle(walk)]
fn examine_array<'v, 'a>(
    array: &'v Value<'a>,
    all: &'v [Value<'a>],
    levels: u32,
) -> Progress<'v, 'a>
    requires array { value array.now ≡ Array (values (map value all.now)) }
    ensures { IsProgress (value array.now) result }
{
    let mut so_far = Progress::Valid;
    for each in all {
        so_far = joined(array, so_far, step(each, levels));
    }
    so_far
}

/// A value, and if it is an array the values in it.
#[cycle(walk)]
fn examine<'v, 'a>(one: &'v Value<'a>, levels: u32) -> Progress<'v, 'a>
    ensures { IsProgress (value one.now) result }
{
    match one {
        Value::Array(all) => examine_array(one, *all, levels),
        _ => {
            if value_is_valid(one) {
                return Progress::Valid;
            }
            Progress::Invalid
        }
    }
}

/// Follows a value as long as one array is left.
#[cycle(walk)]
fn walk<'v, 'a>(root: &'v Value<'a>, levels: u32) -> Walked<'v, 'a>
    ensures { IsWalked (value root.now) result }
{
    let mut seen = examine(root, levels);
    while let Progress::One(inner) = seen {
        seen = examine(inner, levels);
    }
    match seen {
        Progress::Valid => Walked::Valid,
        Progress::Invalid => Walked::Invalid,
        Progress::One(left) | Progress::Many(left) => Walked::Left(left),
    }
}

/// What is known with one level more.
fn again<'v, 'a>(known: Walked<'v, 'a>, levels: u32) -> Walked<'v, 'a>
    ensures { (v : Content.Value) → IsWalked v known.entry → IsWalked v result }
{
    match known {
        Walked::Left(left) => walk(left, levels),
        _ => known,
    }
}

/// Whether a file can have all names in the value.
pub(crate) fn names_are_valid_in(root: &Value<'_>) -> bool
    ensures { IsTrue result ↔ NamesHold IsValidName (value root.now) }
{
    let mut known = Walked::Left(root);
    for levels in 0..64 {
        known = again(known, levels);
    }
    match known {
        Walked::Valid => true,
        Walked::Invalid => false,
        // Only a value with more than 2 ^ 63 arrays is left here.
        Walked::Left(left) => value_is_valid(left),
    }
}
