//! Depths of values.

use bumpalo::Bump;
use dex_base::Fault;
use dex_samples::{Case, all_hold};
use program_types::{Value, is_within_depth};
use std::alloc::Global;
use std::test::Fail;

/// A value, and how deep it is.
#[derive(Clone, Copy)]
enum Depth {
    Of(Value<'static>, u32),
    // each number of arrays up to this one is its depth
    EachUpTo(u32),
    // so many arrays are deeper than that
    Beyond(u32, u32),
}

struct Deep(&'static str, Depth);

impl Case for Deep {
    fn name(&self) -> &'static str {
        self.0
    }

    fn holds(&self, alloc: Global) -> Result<bool, Fault> {
        let arena = Bump::new(alloc);
        is_so_deep(&arena, self.1)
    }
}

fn is_so_deep(arena: &Bump, depth: Depth) -> Result<bool, Fault> {
    match depth {
        Depth::Of(value, depth) => Ok(is_deep(&value, depth)),
        Depth::EachUpTo(most) => are_nested_as_deep(arena, most),
        Depth::Beyond(arrays, depth) => {
            let value = nested(arena, Value::Null, arrays)?;
            Ok(!is_within_depth(&value, depth))
        }
    }
}

/// Whether the value is as deep as that: within this depth, and not within one less.
fn is_deep(value: &Value<'_>, depth: u32) -> bool {
    is_within_depth(value, depth) && (depth == 0 || !is_within_depth(value, depth - 1))
}

fn are_nested_as_deep(arena: &Bump, most: u32) -> Result<bool, Fault> {
    let mut value = Value::Null;
    for depth in 0..=most {
        if !is_deep(&value, depth) {
            return Ok(false);
        }
        value = nested(arena, value, 1)?;
    }
    Ok(true)
}

/// The value in so many arrays.
pub fn nested<'a>(arena: &'a Bump, value: Value<'a>, arrays: u32) -> Result<Value<'a>, Fault> {
    let mut value = value;
    for _ in 0..arrays {
        value = Value::Array(arena.try_alloc_slice_copy(&[value])?);
    }
    Ok(value)
}

/// The last one takes no stack.
#[rattlefmt::skip]
#[test]
fn an_array_is_one_deeper_than_the_deepest_in_it(rt: HostRuntime) -> Result<(), Fail> {
    static CASES: [Deep; 5] = [
        Deep("null", Depth::Of(Value::Null, 0)),
        Deep("an empty array", Depth::Of(Value::Array(&[]), 1)),
        Deep(
            "an array of null, an empty array and a number",
            Depth::Of(Value::Array(&[Value::Null, Value::Array(&[]), Value::Int(7)]), 2),
        ),
        Deep("nested arrays are as deep as they are many", Depth::EachUpTo(65)),
        Deep("1000000 arrays", Depth::Beyond(1000000, 64)),
    ];
    all_hold(rt.alloc(), &CASES)
}
