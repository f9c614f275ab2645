//! Values as bytes, in the fewest.
ghost use Rattle.std.specs.Prelude.{◌≡◌, ◌+◌, ◌*◌, ◌-◌, ◌^◌, ◌<◌, ◌≤◌, ◌++◌, length, map, IfOk, OnOk, OnErr, IsOkUnless};
ghost use Rattle.dex_base.specs.Fault.{memory};
ghost use Rattle.dex_base.specs.Grammar.{Appends, Each};
ghost use Rattle.dex_base.specs.Leb128.{Shortest};
ghost use Rattle.program_types.specs.View as view;
ghost use Rattle.program_types.specs.View.{value};
ghost use Rattle.program_types.specs.Content as content;
ghost use Rattle.program_types.specs.Depth.{depth};
ghost use Rattle.tables_names.specs.Closure.{Five, NameRanks};
ghost use Rattle.dex_value.specs.Spelling.{SpellsValue, SpellsArray};
ghost use Rattle.program_types.specs.Mentions.{NamesHold, AllNamesHold};
ghost use Rattle.dex_value.specs.Named.{IsRanked, IsPlain};
ghost use Rattle.dex_value.specs.Counts.{CountsFit, AllCountsFit, ArrayFits};
ghost use Rattle.dex_value.specs.Writing.{UnsignedAs};
ghost use Rattle.dex_value.specs.inner.Writing.{SignedAs, HighAs, IndexAs, magnitude_of, sized};

use crate::widths::{high_width, signed_width, unsigned_width};
use byteorder::{ByteOrder, LittleEndian};
use dex_base::{Fault, put_uleb};
use program_types::{Name, Value};
use std::alloc::Global;
use tables_names::Ranks;

/// Appends a head of this type and the bytes after it.
fn put_sized(out: &mut Vec<u8>, code: u8, low: &[u8]) -> Result<(), Fault>
    requires code { code < 32 }
    requires few { length low.now ≤ 8 }
    ensures ok { OnOk result (out.new.items ≡ out.old.items ++ sized code low.now) }
    ensures err { OnErr result (out.new.items ≡ out.old.items) }
    ensures memory { IsOkUnless result memory }
{
    out.reserve(low.len() + 1)?;
    out.push_reserved(32 * (low.len().saturating_sub(1)) as u8 + code);
    out.extend_from_slice(low)?;
    Ok(())
}

/// Appends a signed number of a type of at most `widest` bytes.
fn put_signed(out: &mut Vec<u8>, code: u8, n: i64, widest: usize) -> Result<(), Fault>
    requires code { code < 32 }
    requires some { 0 < widest }
    requires fits { 2 * magnitude_of n < 256 ^ widest }
    ensures ok { OnOk result (Appends (Shortest (SignedAs code widest)) out.old.items out.new.items n) }
    ensures err { OnErr result (out.new.items ≡ out.old.items) }
    ensures memory { IsOkUnless result memory }
{
    let width = signed_width(n);
    let mut low = [0; 8];
    LittleEndian::write_int(&mut low, n, width);
    put_sized(out, code, &low[..width])
}

/// Appends an unsigned number of a type of at most `widest` bytes, in the fewest.
///
/// It fails only when out of memory, and then `out` holds what it held.
///
/// ```
/// use dex_value::put_unsigned;
///
/// let mut out = Vec::new(alloc);
/// put_unsigned(&mut out, 0x18, 300, 4)?; // the type of row 300
/// assert_eq!(rt; out.as_slice(), [0x38, 0x2c, 0x01].as_slice());
/// ```
pub fn put_unsigned(out: &mut Vec<u8>, code: u8, n: u64, widest: usize) -> Result<(), Fault>
    requires code { code < 32 }
    requires some { 0 < widest }
    requires fits { n < 256 ^ widest }
    ensures ok { OnOk result (Appends (Shortest (UnsignedAs code widest)) out.old.items out.new.items n) }
    ensures err { OnErr result (out.new.items ≡ out.old.items) }
    ensures memory { IsOkUnless result memory }
{
    let width = unsigned_width(n);
    let mut low = [0; 8];
    LittleEndian::write_uint(&mut low, n, width);
    put_sized(out, code, &low[..width])
}

/// Appends the high bytes of a number of `widest` bytes, without zeros on the right.
fn put_high(out: &mut Vec<u8>, code: u8, bits: u64, widest: usize) -> Result<(), Fault>
    requires code { code < 32 }
    requires some { 0 < widest }
    requires few { widest ≤ 8 }
    requires fits { bits < 256 ^ widest }
    ensures ok { OnOk result (Appends (Shortest (HighAs code widest)) out.old.items out.new.items bits) }
    ensures err { OnErr result (out.new.items ≡ out.old.items) }
    ensures memory { IsOkUnless result memory }
{
    let width = high_width(bits, widest);
    let mut low = [0; 8];
    LittleEndian::write_uint(&mut low, bits / 256u64.pow((widest - width) as u32), width);
    put_sized(out, code, &low[..width])
}

/// Appends the rank of a name.
fn put_name(out: &mut Vec<u8>, ranks: &Ranks<'_>, code: u8, name: Name<'_>) -> Result<(), Fault>
    requires code { code < 32 }
    requires ranked { IsRanked ranks.now (view.name name) }
    ensures ok { OnOk result (Appends (Shortest (IndexAs (NameRanks ranks.now) code)) out.old.items out.new.items (view.name name.entry)) }
    ensures err { OnErr result (out.new.items ≡ out.old.items) }
    ensures memory { IsOkUnless result memory }
{
    ranks.rise();
    match ranks.index_of(name) {
        Some(index) => put_unsigned(out, code, u64::from(index), 4),
        None => unreachable!(),
    }
}

/// Appends a value that is neither a name nor an array, in the fewest bytes.
///
/// It fails only when out of memory, and then `out` holds what it held.
///
/// ```
/// use dex_program::Value;
/// use dex_value::put_plain;
///
/// let mut out = Vec::new(alloc);
/// put_plain(&mut out, &Value::Int(-1))?;
/// assert_eq!(rt; out.as_slice(), [0x04, 0xff].as_slice());
/// ```
pub fn put_plain(out: &mut Vec<u8>, one: &Value<'_>) -> Result<(), Fault>
    requires { IsPlain (value one.now) }
    ensures ok { OnOk result ((s : Five) → Appends (Shortest (SpellsValue (NameRanks s))) out.old.items out.new.items (value one.now)) }
    ensures err { OnErr result (out.new.items ≡ out.old.items) }
    ensures memory { IsOkUnless result memory }
{
    match one {
        Value::Byte(n) => put_signed(out, 0x00, i64::from(*n), 1),
        Value::Short(n) => put_signed(out, 0x02, i64::from(*n), 2),
        Value::Char(unit) => put_unsigned(out, 0x03, u64::from(*unit), 2),
        Value::Int(n) => put_signed(out, 0x04, i64::from(*n), 4),
        Value::Long(n) => put_signed(out, 0x06, *n, 8),
        Value::Float(bits) => put_high(out, 0x10, u64::from(*bits), 4),
        Value::Double(bits) => put_high(out, 0x11, *bits, 8),
        Value::Null => Ok(out.push(0x1e)?),
        Value::Bool(false) => Ok(out.push(0x1f)?),
        Value::Bool(true) => Ok(out.push(0x3f)?),
        _ => unreachable!(),
    }
}

/// Appends a value that is no array.
fn put_leaf(out: &mut Vec<u8>, ranks: &Ranks<'_>, one: &Value<'_>) -> Result<(), Fault>
    requires named { NamesHold (IsRanked ranks.now) (value one.now) }
    requires flat { depth (value one.now) ≡ 0 }
    ensures ok { OnOk result (Appends (Shortest (SpellsValue (NameRanks ranks.now))) out.old.items out.new.items (value one.now)) }
    ensures err { OnErr result (out.new.items ≡ out.old.items) }
    ensures memory { IsOkUnless result memory }
{
    match one {
        Value::Text(text) => put_name(out, ranks, 0x17, Name::Text(*text)),
        Value::Desc(desc) => put_name(out, ranks, 0x18, Name::Desc(*desc)),
        Value::Field(field) => put_name(out, ranks, 0x19, Name::Field(field)),
        Value::Method(method) => put_name(out, ranks, 0x1a, Name::Method(method)),
        Value::Enum(constant) => put_name(out, ranks, 0x1b, Name::Field(constant)),
        _ => put_plain(out, one),
    }
}

/// Appends a value.
#[cycle(values)]
fn put_value(out: &mut Vec<u8>, ranks: &Ranks<'_>, one: &Value<'_>) -> Result<(), Fault>
    requires named { NamesHold (IsRanked ranks.now) (value one.now) }
    requires counts { CountsFit (value one.now) }
    ensures ok { OnOk result (Appends (Shortest (SpellsValue (NameRanks ranks.now))) out.old.items out.new.items (value one.now)) }
    ensures memory { IsOkUnless result memory }
{
    match one {
        Value::Array(all) => {
            out.push(0x1c)?;
            put_uleb(out, all.len() as u32)?;
            put_values(out, ranks, all)
        }
        _ => put_leaf(out, ranks, one),
    }
}

/// Appends values, one after the other.
#[cycle(values)]
fn put_values(out: &mut Vec<u8>, ranks: &Ranks<'_>, all: &[Value<'_>]) -> Result<(), Fault>
    requires named { AllNamesHold (IsRanked ranks.now) (content.values (map value all.now)) }
    requires counts { AllCountsFit (content.values (map value all.now)) }
    ensures ok { OnOk result (Appends (Each (Shortest (SpellsValue (NameRanks ranks.now)))) out.old.items out.new.items (map value all.now)) }
    ensures memory { IsOkUnless result memory }
{
    for one in all {
        put_value(out, ranks, one)?;
    }
    Ok(())
}

/// The bytes of the encoded_array of these values, as [`put_array`] appends them. It fails only when out of memory.
pub fn make_array(alloc: Global, ranks: &Ranks<'_>, values: &[Value<'_>]) -> Result<Vec<u8>, Fault>
    requires named { AllNamesHold (IsRanked ranks.now) (content.values (map value values.now)) }
    requires counts { ArrayFits (map value values.now) }
    ensures ok { IfOk result (λ array. Shortest (SpellsArray (NameRanks ranks.now)) array.items (map value values.now)) }
    ensures memory { IsOkUnless result memory }
{
    let mut array = Vec::new(alloc);
    put_uleb(&mut array, values.len() as u32)?;
    put_values(&mut array, ranks, values)?;
    Ok(array)
}

/// Appends the encoded_array of these values: their number as uleb128, then each in the fewest bytes, its names by their
/// ranks ("Dalvik Executable format", "encoded_array format").
///
/// Every name in the values has to have a rank of at most 4294967295, and no array may have more than 4294967295 values.
/// All values that some bytes encode are so (`spelled_array_can_be_put`), so nothing that can be written is refused.
///
/// It fails only when out of memory, and then `out` is as it was. The stack has a call for each array that a value is in: at
/// most 64 in what `read_array` returns. A much deeper value made by hand may overflow the stack.
///
/// ```
/// use dex_program::Value;
/// use dex_tables::Needed;
/// use dex_value::put_array;
///
/// let ranks = Needed::new(alloc).freeze()?; // of values that name nothing
/// let mut out = Vec::new(alloc);
/// put_array(&mut out, &ranks, &[Value::Int(-1), Value::Null])?;
/// assert_eq!(rt; out.as_slice(), [0x02, 0x04, 0xff, 0x1e].as_slice());
/// ```
pub fn put_array(out: &mut Vec<u8>, ranks: &Ranks<'_>, values: &[Value<'_>]) -> Result<(), Fault>
    requires named { AllNamesHold (IsRanked ranks.now) (content.values (map value values.now)) }
    requires counts { ArrayFits (map value values.now) }
    ensures ok { OnOk result (Appends (Shortest (SpellsArray (NameRanks ranks.now))) out.old.items out.new.items (map value values.now)) }
    ensures err { OnErr result (out.new.items ≡ out.old.items) }
    ensures memory { IsOkUnless result memory }
{
    let alloc = *out.allocator();
    let array = make_array(alloc, ranks, values)?;
    out.extend_from_slice(&array)?;
    Ok(())
}
