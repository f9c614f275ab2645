//! Values, and files with encoded arrays.

use bumpalo::Bump;
use dex_base::Fault;
use dex_container::open;
use dex_samples::types::VOID;
pub use dex_samples::types::{A as CLASS, INT};
use dex_samples::{NOTHING, Rows};
use dex_value::{check_array, read_array};
use program_types::{FieldRef, MethodRef, Proto, Str, Value};
use std::alloc::Global;
use tables_rows::Tables;

/// Where the arrays begin in a file that has nothing else: after the header and a map of three entries.
pub const ARRAYS_AT: u32 = 0x98;

/// Where they begin in a file of `NAMES`: the rows end at 0xac, the texts at 0xbd, the map stands at 0xc0.
pub const ARRAYS_AFTER_NAMES_AT: u32 = 0x130;

/// The strings `I`, `LA;`, `V`, `a` and `b`, the types `I`, `LA;` and `V`, the prototype `()V`, the field `LA;->a:I` and the
/// method `LA;->b()V`.
pub static NAMES: Rows<'static> = Rows {
    strings: &[b"\x01I\0", b"\x03LA;\0", b"\x01V\0", b"\x01a\0", b"\x01b\0"],
    types: &[0, 1, 2],
    protos: &[(2, 2, None)],
    fields: &[(1, 0, 3)],
    methods: &[(1, 0, 4)],
    ..NOTHING
};

/// The string `a`.
pub const A: Str<'static> = Str { units: &[0x61] };

/// The string `b`.
pub const B: Str<'static> = Str { units: &[0x62] };

/// The field `LA;->a:I`.
pub const FIELD: FieldRef<'static> = FieldRef {
    class: CLASS,
    name: A,
    ty: INT,
};

const PROTO: Proto<'static> = Proto {
    ret: VOID,
    params: &[],
};

/// The method `LA;->b()V`.
pub const METHOD: MethodRef<'static> = MethodRef {
    class: CLASS,
    name: B,
    proto: &PROTO,
};

/// The values of the array at this place of a file, at most so many.
pub fn read_in<'a>(
    alloc: Global,
    arena: &'a Bump,
    file: &[u8],
    off: u32,
    most: usize,
) -> Result<&'a [Value<'a>], Fault> {
    let sections = open(file)?;
    let tables = Tables::read(alloc, arena, &sections)?;
    read_array(alloc, arena, &tables, &sections, off, most)
}

/// How many values it has, when they are only looked at.
pub fn check_in(alloc: Global, file: &[u8], off: u32, most: usize) -> Result<u32, Fault> {
    let arena = Bump::new(alloc);
    let sections = open(file)?;
    let tables = Tables::read(alloc, &arena, &sections)?;
    check_array(&tables, &sections, off, most)
}

/// Whether two values, neither of which is an array, are one.
pub fn is_same(a: &Value<'_>, b: &Value<'_>) -> bool {
    match a {
        Value::Byte(x) => matches!(b, Value::Byte(y) if x == y),
        Value::Short(x) => matches!(b, Value::Short(y) if x == y),
        Value::Char(x) => matches!(b, Value::Char(y) if x == y),
        Value::Int(x) => matches!(b, Value::Int(y) if x == y),
        Value::Long(x) => matches!(b, Value::Long(y) if x == y),
        Value::Float(x) => matches!(b, Value::Float(y) if x == y),
        Value::Double(x) => matches!(b, Value::Double(y) if x == y),
        Value::Text(x) => matches!(b, Value::Text(y) if x == y),
        Value::Desc(x) => matches!(b, Value::Desc(y) if x == y),
        Value::Field(x) => matches!(b, Value::Field(y) if x == y),
        Value::Enum(x) => matches!(b, Value::Enum(y) if x == y),
        Value::Method(x) => matches!(b, Value::Method(y) if x == y),
        Value::Null => matches!(b, Value::Null),
        Value::Bool(x) => matches!(b, Value::Bool(y) if x == y),
        Value::Array(_) => false,
    }
}
