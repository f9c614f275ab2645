//! Values from their bytes, in files.

use crate::made::Made;
use crate::made::Made::{Arrays, ArraysAfterNames, Deep, Ints, Texts};
use crate::values::{
    A, ARRAYS_AFTER_NAMES_AT, ARRAYS_AT, B, CLASS, FIELD, METHOD, check_in, is_same, read_in,
};
use bumpalo::Bump;
use dex_base::Fault;
use dex_samples::{Case, all_hold};
use program_types::{Str, Value, is_within_depth};
use std::alloc::Global;
use std::test::Fail;

/// What an array has.
enum Want {
    Nothing,
    // this value alone
    One(Value<'static>),
    // an array of null and true
    NullAndTrue,
    // an array of this depth and no less
    Depth(u32),
    // so many ints, from 0 on
    Ints(usize),
}

impl Want {
    fn count(&self) -> usize {
        match self {
            Want::Nothing => 0,
            Want::Ints(count) => *count,
            _ => 1,
        }
    }
}

/// A name for the case, the file, where in it the array stands, and what it has.
struct Read(&'static str, Made, u32, Want);

impl Case for Read {
    fn name(&self) -> &'static str {
        self.0
    }

    fn holds(&self, alloc: Global) -> Result<bool, Fault> {
        let file = self.1.begun(alloc)?;
        is_read_so(alloc, &file, self)
    }
}

/// It is also looked at alone.
fn is_read_so(alloc: Global, file: &[u8], case: &Read) -> Result<bool, Fault> {
    let most = case.3.count();
    let counted = check_in(alloc, file, case.2, most)?;
    let arena = Bump::new(alloc);
    let values = read_in(alloc, &arena, file, case.2, most)?;
    Ok(counted as usize == most && values.len() == most && are_wanted(values, &case.3))
}

fn are_wanted(values: &[Value<'_>], want: &Want) -> bool {
    match want {
        Want::Nothing => true,
        Want::Ints(_) => are_ints(values),
        Want::One(want) => matches!(values, [one] if is_same(one, want)),
        Want::NullAndTrue => { matches!(values, [Value::Array([Value::Null, Value::Bool(true)])]) }
        Want::Depth(depth) => matches!(values, [one] if is_deep(one, *depth)),
    }
}

fn is_deep(one: &Value<'_>, depth: u32) -> bool {
    is_within_depth(one, depth) && !is_within_depth(one, depth.saturating_sub(1))
}

fn are_ints(values: &[Value<'_>]) -> bool {
    for (number, one) in (0..=32767i32).zip(values) {
        if !is_same(one, &Value::Int(number)) {
            return false;
        }
    }
    true
}

#[rattlefmt::skip]
#[test]
fn a_number_is_read(rt: HostRuntime) -> Result<(), Fail> {
    static CASES: [Read; 22] = [
        Read("byte -128", Arrays(&[1, 0x00, 0x80]), ARRAYS_AT, Want::One(Value::Byte(-128))),
        Read("short -32768", Arrays(&[1, 0x22, 0x00, 0x80]), ARRAYS_AT, Want::One(Value::Short(-32768))),
        Read("short -1", Arrays(&[1, 0x02, 0xff]), ARRAYS_AT, Want::One(Value::Short(-1))),
        Read("char 255", Arrays(&[1, 0x03, 0xff]), ARRAYS_AT, Want::One(Value::Char(255))),
        Read("char 65535", Arrays(&[1, 0x23, 0xff, 0xff]), ARRAYS_AT, Want::One(Value::Char(65535))),
        Read("int -1", Arrays(&[1, 0x04, 0xff]), ARRAYS_AT, Want::One(Value::Int(-1))),
        Read("int 128", Arrays(&[1, 0x24, 0x80, 0x00]), ARRAYS_AT, Want::One(Value::Int(128))),
        Read("int -1, wider than need be", Arrays(&[1, 0x24, 0xff, 0xff]), ARRAYS_AT, Want::One(Value::Int(-1))),
        Read(
            "the least int", Arrays(&[1, 0x64, 0x00, 0x00, 0x00, 0x80]), ARRAYS_AT,
            Want::One(Value::Int(-2147483648)),
        ),
        Read(
            "the least long", Arrays(&[1, 0xe6, 0x00, 0x00, 0x00, 0x00, 0x00, 0x00, 0x00, 0x80]), ARRAYS_AT,
            Want::One(Value::Long(-9223372036854775808)),
        ),
        Read("long 127", Arrays(&[1, 0x06, 0x7f]), ARRAYS_AT, Want::One(Value::Long(127))),
        Read(
            "long -2147483647", Arrays(&[1, 0x66, 0x01, 0x00, 0x00, 0x80]), ARRAYS_AT,
            Want::One(Value::Long(-2147483647)),
        ),
        Read(
            "float 1, its high-order bytes", Arrays(&[1, 0x30, 0x80, 0x3f]), ARRAYS_AT,
            Want::One(Value::Float(0x3f800000)),
        ),
        Read(
            "float 1, with zeros on the right", Arrays(&[1, 0x70, 0x00, 0x00, 0x80, 0x3f]), ARRAYS_AT,
            Want::One(Value::Float(0x3f800000)),
        ),
        Read("float 0", Arrays(&[1, 0x10, 0x00]), ARRAYS_AT, Want::One(Value::Float(0))),
        Read("float -0", Arrays(&[1, 0x10, 0x80]), ARRAYS_AT, Want::One(Value::Float(0x80000000))),
        Read("double 1", Arrays(&[1, 0x31, 0xf0, 0x3f]), ARRAYS_AT, Want::One(Value::Double(0x3ff0000000000000))),
        Read("double -0", Arrays(&[1, 0x11, 0x80]), ARRAYS_AT, Want::One(Value::Double(0x8000000000000000))),
        Read(
            "the bits 1 of a double", Arrays(&[1, 0xf1, 0x01, 0x00, 0x00, 0x00, 0x00, 0x00, 0x00, 0x00]), ARRAYS_AT,
            Want::One(Value::Double(1)),
        ),
        Read("null", Arrays(&[1, 0x1e]), ARRAYS_AT, Want::One(Value::Null)),
        Read("false", Arrays(&[1, 0x1f]), ARRAYS_AT, Want::One(Value::Bool(false))),
        Read("true", Arrays(&[1, 0x3f]), ARRAYS_AT, Want::One(Value::Bool(true))),
    ];
    all_hold(rt.alloc(), &CASES)
}

#[rattlefmt::skip]
#[test]
fn names_and_arrays_are_read(rt: HostRuntime) -> Result<(), Fail> {
    static CASES: [Read; 14] = [
        Read("string 3", ArraysAfterNames(&[1, 0x17, 3]), ARRAYS_AFTER_NAMES_AT, Want::One(Value::Text(A))),
        Read("string 4", ArraysAfterNames(&[1, 0x17, 4]), ARRAYS_AFTER_NAMES_AT, Want::One(Value::Text(B))),
        Read(
            "string 4, wider than need be", ArraysAfterNames(&[1, 0x37, 4, 0]), ARRAYS_AFTER_NAMES_AT,
            Want::One(Value::Text(B)),
        ),
        Read("type 1", ArraysAfterNames(&[1, 0x18, 1]), ARRAYS_AFTER_NAMES_AT, Want::One(Value::Desc(CLASS))),
        Read("field 0", ArraysAfterNames(&[1, 0x19, 0]), ARRAYS_AFTER_NAMES_AT, Want::One(Value::Field(&FIELD))),
        Read("method 0", ArraysAfterNames(&[1, 0x1a, 0]), ARRAYS_AFTER_NAMES_AT, Want::One(Value::Method(&METHOD))),
        Read(
            "the enum of field 0", ArraysAfterNames(&[1, 0x1b, 0]), ARRAYS_AFTER_NAMES_AT,
            Want::One(Value::Enum(&FIELD)),
        ),
        // The string rows end at 1140, the texts at 2168, the map at 2232.
        Read("string 256", Texts(257), 2232, Want::One(Value::Text(Str { units: &[0x200] }))),
        Read(
            "an array in an array, and a byte after it", Arrays(&[0x01, 0x1c, 0x02, 0x1e, 0x3f, 0xff]), ARRAYS_AT,
            Want::NullAndTrue,
        ),
        Read(
            "the same in the middle of its section", Arrays(&[0xff, 0x01, 0x1c, 0x02, 0x1e, 0x3f]), ARRAYS_AT + 1,
            Want::NullAndTrue,
        ),
        Read("no value", Arrays(&[0x00]), ARRAYS_AT, Want::Nothing),
        Read("no value, a longer count than need be", Arrays(&[0x80, 0x00]), ARRAYS_AT, Want::Nothing),
        Read("64 arrays, one in the other", Deep(64, &[0x00]), ARRAYS_AT, Want::Depth(64)),
        Read("a thousand ints in their order", Ints(1000), ARRAYS_AT, Want::Ints(1000)),
    ];
    all_hold(rt.alloc(), &CASES)
}
