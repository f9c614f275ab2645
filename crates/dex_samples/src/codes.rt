//! Files of one code item.

use crate::rows::{NOTHING, Rows};
use crate::written::file_of;
use dex_base::{Fault, push_words};
use std::alloc::Global;

/// The strings `I`, `LA;`, `V`, `a` and `b`, the types `I`, `LA;` and `V`, the prototype `()V`, the field `LA;->a:I` and the
/// method `LA;->b()V`. With a class row the data section begins at 204, with the code.
static CODED: Rows<'static> = Rows {
    strings: &[b"\x01I\0", b"\x03LA;\0", b"\x01V\0", b"\x01a\0", b"\x01b\0"],
    types: &[0, 1, 2],
    protos: &[(2, 2, None)],
    fields: &[(1, 0, 3)],
    methods: &[(1, 0, 4)],
    // one direct method, the first row, flags 9, code at 204
    class_data: &[0, 0, 1, 0, 0, 9, 0xcc, 1],
    ..NOTHING
};

/// A length in four bytes.
pub fn length(len: usize) -> u32 {
    match u32::try_from(len) {
        Ok(length) => length,
        Err(_) => u32::MAX,
    }
}

/// A code item of so many registers, no ins and no outs: so many tries, these units, and what stands after them.
pub fn item_of(
    alloc: Global,
    registers: u16,
    tries: u8,
    units: &[u8],
    after: &[u8],
) -> Result<Vec<u8>, Fault> {
    let mut item = Vec::from_slice(alloc, &registers.to_le_bytes())?;
    item.extend_from_slice(&[0, 0, 0, 0, tries, 0])?;
    push_words(&mut item, &[0, length(units.len() / 2)])?;
    item.extend_from_slice(units)?;
    item.extend_from_slice(after)?;
    Ok(item)
}

/// A try_item: the unit from which on it covers, how many units it covers, and where in the list its handler begins.
pub type TryItem = (u32, u16, u16);

/// A list of one handler: a catch-all that leads to unit 0.
pub const ALL_TO_0: &[u8] = &[1, 0, 0];

/// How many there are, in a byte.
pub fn count_of(len: usize) -> u8 {
    match u8::try_from(len) {
        Ok(count) => count,
        Err(_) => u8::MAX,
    }
}

/// What stands after these units: zeros to a multiple of 4, these try_items, and this list of handlers.
pub fn after_units(
    alloc: Global,
    units: &[u8],
    tries: &[TryItem],
    list: &[u8],
) -> Result<Vec<u8>, Fault> {
    let mut after = Vec::new(alloc);
    if units.len() % 4 != 0 {
        after.extend_from_slice(&[0, 0])?;
    }
    for (start, count, handler) in tries {
        after.extend_from_slice(&start.to_le_bytes())?;
        after.extend_from_slice(&count.to_le_bytes())?;
        after.extend_from_slice(&handler.to_le_bytes())?;
    }
    after.extend_from_slice(list)?;
    Ok(after)
}

/// A code item of so many registers, no ins and no outs: these units, these try_items, and this list of handlers.
pub fn item_of_tries(
    alloc: Global,
    registers: u16,
    units: &[u8],
    tries: &[TryItem],
    list: &[u8],
) -> Result<Vec<u8>, Fault> {
    let after = after_units(alloc, units, tries, list)?;
    item_of(alloc, registers, count_of(tries.len()), units, &after)
}

/// The file of a class whose one method has this code item.
pub fn file_of_item(alloc: Global, item: &[u8]) -> Result<Vec<u8>, Fault> {
    // after the item stand 17 bytes of strings
    let class_data = length(item.len()).saturating_add(221);
    let class = [1, 1, 0xffffffff, 0, 0xffffffff, 0, class_data, 0];
    file_of(
        alloc,
        &Rows {
            classes: &[class],
            codes: item,
            ..CODED
        },
    )
}
