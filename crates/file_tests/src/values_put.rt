//! Values to bytes, in the fewest.

use crate::values::{A, CLASS, FIELD, INT, METHOD};
use bumpalo::Bump;
use bumpalo::collections::into_bump_slice;
use dex_base::Fault;
use dex_samples::{Case, all_hold, field, is_so, method};
use dex_value::{put_plain, put_unsigned};
use program_types::{Str, Value};
use put_samples::put_all;
use std::alloc::Global;
use std::test::Fail;
use tables_names::{Needed, Ranks};

/// The names that have ranks.
#[derive(Clone, Copy)]
enum Added {
    Nothing,
    // the field LA;->a:I and the method LA;->b()V: the strings I, LA;, V, a and b, the types I, LA; and V
    Members,
    // a string of each unit from U+0000 on, so many
    Units(u16),
}

/// The values that are written.
#[derive(Clone, Copy)]
enum Values {
    Given(&'static [Value<'static>]),
    // this value, so many times
    Same(Value<'static>, u32),
}

/// What is written.
#[derive(Clone, Copy)]
enum Want {
    // the array of the values
    Array(&'static [u8]),
    // it, and after it the array of that array
    Both(&'static [u8]),
    // both, of a thousand values that are written so
    Thousand([u8; 3]),
}

/// A name for the case, the names that have ranks, the values, and what is written of them.
struct Put(&'static str, Added, Values, Want);

impl Case for Put {
    fn name(&self) -> &'static str {
        self.0
    }

    fn holds(&self, alloc: Global) -> Result<bool, Fault> {
        let arena = Bump::new(alloc);
        is_put_so(alloc, &arena, self)
    }
}

fn is_put_so(alloc: Global, arena: &Bump, case: &Put) -> Result<bool, Fault> {
    let values = values_of(arena, case.2)?;
    let ranks = ranks_of(alloc, arena, case.1)?;
    is_written_so(alloc, &ranks, values, case.3)
}

fn values_of<'a>(arena: &'a Bump, values: Values) -> Result<&'a [Value<'a>], Fault> {
    match values {
        Values::Given(given) => Ok(given),
        Values::Same(one, count) => repeated(arena, one, count),
    }
}

fn repeated<'a>(arena: &'a Bump, one: Value<'a>, count: u32) -> Result<&'a [Value<'a>], Fault> {
    let mut values = Vec::new(arena);
    for _ in 0..count {
        values.push(one)?;
    }
    Ok(into_bump_slice(values))
}

fn ranks_of<'a>(alloc: Global, arena: &'a Bump, added: Added) -> Result<Ranks<'a>, Fault> {
    let mut needed = Needed::new(alloc);
    add(&mut needed, arena, added)?;
    needed.freeze()
}

fn add<'a>(needed: &mut Needed<'a>, arena: &'a Bump, added: Added) -> Result<(), Fault> {
    match added {
        Added::Nothing => Ok(()),
        Added::Members => add_members(needed, arena),
        Added::Units(count) => add_units(needed, arena, count),
    }
}

fn add_members<'a>(needed: &mut Needed<'a>, arena: &'a Bump) -> Result<(), Fault> {
    needed.add_field(field(arena, "LA;", "a", "I")?)?;
    let b = method(arena, "LA;", "b", "V", &[])?;
    needed.add_method(arena, b)
}

fn add_units<'a>(needed: &mut Needed<'a>, arena: &'a Bump, count: u16) -> Result<(), Fault> {
    for unit in 0..count {
        let units = arena.try_alloc_slice_copy(&[unit])?;
        needed.add_string(Str { units })?;
    }
    Ok(())
}

/// They are written after a byte ff.
fn is_written_so(
    alloc: Global,
    ranks: &Ranks<'_>,
    all: &[Value<'_>],
    want: Want,
) -> Result<bool, Fault> {
    let mut out = Vec::from_slice(alloc, &[0xff])?;
    put_all(&mut out, ranks, all, !matches!(want, Want::Array(_)))?;
    Ok(is_wanted(&out, want))
}

fn is_wanted(out: &[u8], want: Want) -> bool {
    match (out, want) {
        ([0xff, put @ ..], Want::Array(bytes) | Want::Both(bytes)) => put == bytes,
        ([0xff, put @ ..], Want::Thousand(one)) => are_thousand(put, one),
        _ => false,
    }
}

/// Two arrays of a thousand, the second one in an array.
fn are_thousand(put: &[u8], one: [u8; 3]) -> bool {
    put.len() == 6006
        && &put[..2] == [0xe8, 0x07].as_slice()
        && are_all(&put[2..3002], one)
        && &put[3002..3006] == [0x01, 0x1c, 0xe8, 0x07].as_slice()
        && are_all(&put[3006..], one)
}

fn are_all(bytes: &[u8], one: [u8; 3]) -> bool {
    for written in bytes.chunks_exact(3) {
        if written != one.as_slice() {
            return false;
        }
    }
    true
}

#[rattlefmt::skip]
#[test]
fn an_integer_takes_the_fewest_bytes(rt: HostRuntime) -> Result<(), Fail> {
    static CASES: [Put; 11] = [
        Put("byte 0", Added::Nothing, Values::Given(&[Value::Byte(0)]), Want::Array(&[1, 0x00, 0x00])),
        Put("byte -128", Added::Nothing, Values::Given(&[Value::Byte(-128)]), Want::Array(&[1, 0x00, 0x80])),
        Put(
            "short -32768", Added::Nothing, Values::Given(&[Value::Short(-32768)]),
            Want::Array(&[1, 0x22, 0x00, 0x80]),
        ),
        Put("short -129", Added::Nothing, Values::Given(&[Value::Short(-129)]), Want::Array(&[1, 0x22, 0x7f, 0xff])),
        Put("char 255", Added::Nothing, Values::Given(&[Value::Char(255)]), Want::Array(&[1, 0x03, 0xff])),
        Put("char 65535", Added::Nothing, Values::Given(&[Value::Char(65535)]), Want::Array(&[1, 0x23, 0xff, 0xff])),
        Put("int -1", Added::Nothing, Values::Given(&[Value::Int(-1)]), Want::Array(&[1, 0x04, 0xff])),
        Put("int 127", Added::Nothing, Values::Given(&[Value::Int(127)]), Want::Array(&[1, 0x04, 0x7f])),
        Put("int 128", Added::Nothing, Values::Given(&[Value::Int(128)]), Want::Array(&[1, 0x24, 0x80, 0x00])),
        Put(
            "int -32769", Added::Nothing, Values::Given(&[Value::Int(-32769)]),
            Want::Array(&[1, 0x44, 0xff, 0x7f, 0xff]),
        ),
        Put(
            "the greatest int", Added::Nothing, Values::Given(&[Value::Int(2147483647)]),
            Want::Array(&[1, 0x64, 0xff, 0xff, 0xff, 0x7f]),
        ),
    ];
    all_hold(rt.alloc(), &CASES)
}

#[rattlefmt::skip]
#[test]
fn a_long_a_float_and_a_double_take_the_fewest_bytes(rt: HostRuntime) -> Result<(), Fail> {
    static CASES: [Put; 10] = [
        Put("long 0", Added::Nothing, Values::Given(&[Value::Long(0)]), Want::Array(&[1, 0x06, 0x00])),
        Put(
            "the least long", Added::Nothing, Values::Given(&[Value::Long(-9223372036854775808)]),
            Want::Array(&[1, 0xe6, 0x00, 0x00, 0x00, 0x00, 0x00, 0x00, 0x00, 0x80]),
        ),
        Put(
            "long 2 to the 39", Added::Nothing, Values::Given(&[Value::Long(1 << 39)]),
            Want::Array(&[1, 0xa6, 0x00, 0x00, 0x00, 0x00, 0x80, 0x00]),
        ),
        Put(
            "float 1, its high-order bytes", Added::Nothing, Values::Given(&[Value::Float(0x3f800000)]),
            Want::Array(&[1, 0x30, 0x80, 0x3f]),
        ),
        Put("float 0", Added::Nothing, Values::Given(&[Value::Float(0)]), Want::Array(&[1, 0x10, 0x00])),
        Put("float -0", Added::Nothing, Values::Given(&[Value::Float(0x80000000)]), Want::Array(&[1, 0x10, 0x80])),
        Put(
            "the bits 1 of a float", Added::Nothing, Values::Given(&[Value::Float(1)]),
            Want::Array(&[1, 0x70, 0x01, 0x00, 0x00, 0x00]),
        ),
        Put(
            "double 1", Added::Nothing, Values::Given(&[Value::Double(0x3ff0000000000000)]),
            Want::Array(&[1, 0x31, 0xf0, 0x3f]),
        ),
        Put(
            "the bits 1 of a double", Added::Nothing, Values::Given(&[Value::Double(1)]),
            Want::Array(&[1, 0xf1, 0x01, 0x00, 0x00, 0x00, 0x00, 0x00, 0x00, 0x00]),
        ),
        Put("double 0", Added::Nothing, Values::Given(&[Value::Double(0)]), Want::Array(&[1, 0x11, 0x00])),
    ];
    all_hold(rt.alloc(), &CASES)
}

#[rattlefmt::skip]
#[test]
fn other_values_take_the_fewest_bytes(rt: HostRuntime) -> Result<(), Fail> {
    static CASES: [Put; 6] = [
        Put("null", Added::Nothing, Values::Given(&[Value::Null]), Want::Array(&[1, 0x1e])),
        Put("false", Added::Nothing, Values::Given(&[Value::Bool(false)]), Want::Array(&[1, 0x1f])),
        Put("true", Added::Nothing, Values::Given(&[Value::Bool(true)]), Want::Array(&[1, 0x3f])),
        Put("no value", Added::Nothing, Values::Given(&[]), Want::Both(&[0x00, 0x01, 0x1c, 0x00])),
        Put(
            "null and true", Added::Nothing, Values::Given(&[Value::Null, Value::Bool(true)]),
            Want::Both(&[0x02, 0x1e, 0x3f, 0x01, 0x1c, 0x02, 0x1e, 0x3f]),
        ),
        Put("a thousand ints", Added::Nothing, Values::Same(Value::Int(300), 1000), Want::Thousand([0x24, 0x2c, 0x01])),
    ];
    all_hold(rt.alloc(), &CASES)
}

#[rattlefmt::skip]
#[test]
fn a_name_is_written_by_its_kind_and_its_rank(rt: HostRuntime) -> Result<(), Fail> {
    static CASES: [Put; 9] = [
        Put("the string a", Added::Members, Values::Given(&[Value::Text(A)]), Want::Array(&[1, 0x17, 3])),
        Put("the type I", Added::Members, Values::Given(&[Value::Desc(INT)]), Want::Array(&[1, 0x18, 0])),
        Put("the type LA;", Added::Members, Values::Given(&[Value::Desc(CLASS)]), Want::Array(&[1, 0x18, 1])),
        Put("the field", Added::Members, Values::Given(&[Value::Field(&FIELD)]), Want::Array(&[1, 0x19, 0])),
        Put("the method", Added::Members, Values::Given(&[Value::Method(&METHOD)]), Want::Array(&[1, 0x1a, 0])),
        Put("the enum", Added::Members, Values::Given(&[Value::Enum(&FIELD)]), Want::Array(&[1, 0x1b, 0])),
        Put(
            "rank 0", Added::Units(257), Values::Given(&[Value::Text(Str { units: &[0] })]),
            Want::Array(&[1, 0x17, 0x00]),
        ),
        Put(
            "rank 255", Added::Units(257), Values::Given(&[Value::Text(Str { units: &[255] })]),
            Want::Array(&[1, 0x17, 0xff]),
        ),
        Put(
            "rank 256", Added::Units(257), Values::Given(&[Value::Text(Str { units: &[256] })]),
            Want::Array(&[1, 0x37, 0x00, 0x01]),
        ),
    ];
    all_hold(rt.alloc(), &CASES)
}

/// Whether a type's number and a number are put one behind the other, each as a value.
fn are_values_put(alloc: Global) -> Result<bool, Fault> {
    let mut out = Vec::new(alloc);
    put_unsigned(&mut out, 0x18, 300, 4)?;
    put_plain(&mut out, &Value::Int(-1))?;
    Ok(out.as_slice() == [0x38, 0x2c, 0x01, 0x04, 0xff].as_slice())
}

#[test]
fn a_value_is_put_behind_what_is_held(rt: HostRuntime) -> Result<(), Fail> {
    is_so(are_values_put(rt.alloc()))
}
