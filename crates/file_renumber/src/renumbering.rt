//! Arrays of values with other numbers.
ghost use Rattle.std.specs.Prelude.{◌≡◌, ℕ, ◌%◌, List, OnOk, IfOk, IsOkUnless};
ghost use Rattle.dex_base.specs.Fault.{memory};
ghost use Rattle.dex_base.specs.Grammar.{Appends, Each};
ghost use Rattle.dex_base.specs.Leb128.{Shortest};
ghost use Rattle.dex_value.specs.Spelling.{SpellsValue};
ghost use Rattle.program_types.specs.Content.{Value};
ghost use Rattle.tables_names.specs.Closure.{Five, NameRanks};
ghost use Rattle.file_renumber.specs.inner.CarriedArrays.{IsCarriedArray, IsItemOf};
ghost use Rattle.file_renumber.specs.inner.ValueWalks.{CarriedLow, CarriedValue, CarriedValues};

use crate::array_fronts::{ARRAY, array_at, take_number, width_of};
use crate::numbers::Numbers;
use dex_base::{Fault, put_uleb};
use dex_container::Sections;
use dex_value::{SizedType, name_kind, number, put_plain, put_unsigned, sized_type, unsigned};
use std::alloc::Global;

/// Appends the value that these bytes after a head encode.
fn renumber_low(out: &mut Vec<u8>, numbers: &Numbers, head: u8, low: &[u8]) -> Result<(), Fault>
    requires { CarriedLow numbers.now (head % 32) low.now }
    ensures ok { OnOk result ((x : CarriedLow numbers.now (head % 32) low.now) → Appends (Shortest (SpellsValue (NameRanks x.names))) out.old.items out.new.items x.value) }
    ensures memory { IsOkUnless result memory }
{
    let Some(ty) = sized_type(head % 32) else {
        unreachable!()
    };
    match ty {
        SizedType::Number(ty) => {
            let one = number(ty, low);
            put_plain(out, &one)
        }
        SizedType::Name(ty) => {
            let index = unsigned(low) as u32;
            let row = numbers.of(name_kind(ty), index);
            put_unsigned(out, head % 32, u64::from(row), 4)
        }
    }
}

/// Appends the value at the front of the bytes; what follows it.
#[cycle(renumbered)]
fn renumber_value<'b>(
    out: &mut Vec<u8>,
    numbers: &Numbers,
    bytes: &'b [u8],
) -> Result<&'b [u8], Fault>
    requires { CarriedValue numbers.now bytes.now }
    ensures follows { IfOk result (λ after. (x : CarriedValue numbers.now bytes.now) → after.now ≡ x.rest) }
    ensures ok { OnOk result ((x : CarriedValue numbers.now bytes.now) → Appends (Shortest (SpellsValue (NameRanks x.names))) out.old.items out.new.items x.value) }
    ensures memory { IsOkUnless result memory }
{
    let Some((head, rest)) = bytes.split_first() else {
        unreachable!()
    };
    match *head {
        ARRAY => {
            let (count, left) = take_number(rest);
            out.push(ARRAY)?;
            put_uleb(out, count)?;
            renumber_values(out, numbers, count, left)
        }
        0x1e => {
            out.push(0x1e)?;
            Ok(rest)
        }
        0x1f => {
            out.push(0x1f)?;
            Ok(rest)
        }
        0x3f => {
            out.push(0x3f)?;
            Ok(rest)
        }
        head => {
            let (low, after) = rest.split_at(width_of(head));
            renumber_low(out, numbers, head, low)?;
            Ok(after)
        }
    }
}

/// Appends so many values at the front of the bytes; what follows them.
#[cycle(renumbered)]
fn renumber_values<'b>(
    out: &mut Vec<u8>,
    numbers: &Numbers,
    count: u32,
    bytes: &'b [u8],
) -> Result<&'b [u8], Fault>
    requires { CarriedValues numbers.now count bytes.now }
    ensures follows { IfOk result (λ after. (x : CarriedValues numbers.now count bytes.now) → after.now ≡ x.rest) }
    ensures ok { OnOk result ((x : CarriedValues numbers.now count bytes.now) → Appends (Each (Shortest (SpellsValue (NameRanks x.names)))) out.old.items out.new.items x.all) }
    ensures memory { IsOkUnless result memory }
{
    let mut left = bytes;
    for _turn in 0..count {
        let after = renumber_value(out, numbers, left)?;
        left = after;
    }
    Ok(left)
}

/// The bytes of the array at an offset in a file of the kept rows, each value in the fewest. No byte where the array
/// has no value.
///
/// An array has to be at the offset, and each row that its values name has to be kept. It fails only when out of
/// memory.
///
/// ```
/// let item = renumber_array(alloc, &numbers, &sections, 0x1c0)?;
/// assert_eq!(rt; item.as_slice(), [0x01, 0x18, 0x02].as_slice()); // one value, the type whose row is kept third
/// ```
pub fn renumber_array(
    alloc: Global,
    numbers: &Numbers,
    sections: &Sections<'_>,
    off: u32,
) -> Result<Vec<u8>, Fault>
    requires { (s : Five) × (vs : List Value) × IsCarriedArray sections.now off numbers.now s vs }
    ensures ok { IfOk result (λ out. (s : Five) (vs : List Value) → IsCarriedArray sections.now off numbers.now s vs → IsItemOf (NameRanks s) out.items vs) }
    ensures memory { IsOkUnless result memory }
{
    let mut out = Vec::new(alloc);
    let (count, bytes) = take_number(array_at(sections, off));
    if count == 0 {
        return Ok(out);
    }
    put_uleb(&mut out, count)?;
    renumber_values(&mut out, numbers, count, bytes)?;
    Ok(out)
}
