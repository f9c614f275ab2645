//! The files that are asked: samples with some bytes changed, and files of rows, of a code item, of arrays.

use crate::named_rows::{
    ENDED, FAR_APART, LISTS, NAMED, OF_ONE_CLASS, OF_VOID, ONE_FIELD, PARAMETERLESS, SPARE,
    TWO_CLASSES, TWO_METHODS, TWO_OF_EACH, TWO_PROTOS,
};
use crate::values::NAMES;
use dex_base::{Fault, adler32, put_mutf8, put_uleb};
use dex_samples::{
    NOTHING, ONE_CLASS, Rows, TryItem, WITHOUT_CLASSES, close_file, file_of, file_of_item, item_of,
    item_of_tries, length, put_bytes,
};
use std::alloc::Global;

/// A row of protos: shorty, return type, which list.
pub type ProtoRow = (u32, u32, Option<usize>);

/// How a file is made. What is changed is a place, and what stands there.
#[derive(Clone, Copy)]
pub enum Made {
    /// The file without classes, changed and closed.
    Without(usize, &'static [u8]),
    /// The same, not closed.
    Unclosed(usize, &'static [u8]),
    /// The same with another signature, and the checksum of that.
    Missigned,
    /// As many bytes of the file without classes, and zeros after them.
    Resized(usize),
    /// Zeros after a header that has this size of a table, at its place, and no map: so many bytes, closed.
    Zeros(usize, u32, usize),
    /// 32 bytes, and then a text, so many times, closed.
    Text(&'static [u8], u32),
    /// The file of one class, changed and closed.
    One(usize, &'static [u8]),
    /// As many bytes of it, as its header then says, closed.
    Front(usize),
    /// The file of these rows: those of the file of one class.
    OfOneClass,
    /// `ENDED`, changed.
    Ended(usize, &'static [u8]),
    /// `NAMED`.
    OfNamed,
    /// .. with another number of two bytes.
    Named(usize, u16),
    /// .. with two other numbers.
    Both((usize, u16), (usize, u16)),
    /// Strings alone.
    Strings(&'static [&'static [u8]]),
    /// `LISTS`.
    OfLists,
    /// `TWO_PROTOS` with these rows.
    Protos(&'static [ProtoRow]),
    /// `OF_VOID`.
    OfVoid,
    /// `TWO_CLASSES` with these rows.
    Classes(&'static [[u32; 8]]),
    /// `PARAMETERLESS`, with the empty list or with none.
    Parameterless(&'static [ProtoRow]),
    /// `TWO_OF_EACH` with this class data.
    Members(&'static [u8]),
    /// `TWO_METHODS` with this class data.
    Methods(&'static [u8]),
    /// `FAR_APART`.
    FarApart,
    /// `SPARE`, with this count of units before its fifth string.
    Spare(u8),
    /// A code item with so many tries, these units, and what stands after them.
    Code(u8, &'static [u8], &'static [u8]),
    /// A code item with these units, these try_items, and this list of handlers.
    Tries(&'static [u8], &'static [TryItem], &'static [u8]),
    /// `ONE_FIELD` with these arrays.
    Values(&'static [u8]),
    /// .. with so many arrays, one in the other, the innermost one empty.
    DeepValues(u32),
    /// Arrays alone.
    Arrays(&'static [u8]),
    /// Arrays alone: so many, one in the other, and what the innermost one has.
    Deep(u32, &'static [u8]),
    /// An array of the ints from 0 on, so many.
    Ints(u16),
    /// Arrays after `NAMES`.
    ArraysAfterNames(&'static [u8]),
    /// An array of string 256, after so many strings of one unit each, U+0100 and those above it.
    Texts(u16),
}

impl Made {
    /// The file before it is changed and closed.
    pub fn begun(&self, alloc: Global) -> Result<Vec<u8>, Fault> {
        match *self {
            Made::Without(_, _) | Made::Unclosed(_, _) | Made::Missigned => {
                copied(alloc, &WITHOUT_CLASSES)
            }
            Made::One(_, _) => copied(alloc, &ONE_CLASS),
            Made::Front(count) => copied(alloc, front(&ONE_CLASS, count)),
            Made::Resized(count) | Made::Zeros(_, _, count) => zeros(alloc, count),
            Made::Text(text, times) => repeated(alloc, text, times),
            Made::Code(tries, units, after) => of_code(alloc, tries, units, after),
            Made::Tries(units, tries, list) => of_tries(alloc, units, tries, list),
            Made::DeepValues(depth) => nested(alloc, depth, &[0], &ONE_FIELD),
            Made::Deep(depth, inner) => nested(alloc, depth, inner, &NOTHING),
            Made::Ints(count) => of_ints(alloc, count),
            Made::Texts(count) => of_texts(alloc, count),
            of_rows => file_of(alloc, &of_rows.rows()),
        }
    }

    /// Changes and closes the file, and tells whether all that is changed has its place.
    pub fn finish(&self, file: &mut [u8]) -> bool {
        let placed = self.change(file);
        if self.is_closed() {
            close_file(file);
        }
        placed
    }

    fn is_closed(&self) -> bool {
        !matches!(
            self,
            Made::Unclosed(_, _) | Made::Missigned | Made::Resized(_)
        )
    }

    fn change(&self, file: &mut [u8]) -> bool {
        match *self {
            Made::Without(at, bytes)
            | Made::Unclosed(at, bytes)
            | Made::One(at, bytes)
            | Made::Ended(at, bytes) => put_bytes(file, at, bytes),
            Made::Missigned => missign(file),
            Made::Resized(count) => put_bytes(file, 0, front(&WITHOUT_CLASSES, count)),
            Made::Zeros(at, rows, count) => put_table(file, at, rows, count),
            Made::Front(count) => put_bytes(file, 32, &length(count).to_le_bytes()),
            Made::Named(at, half) => put_half(file, (at, half)),
            Made::Both(first, second) => put_half(file, first) && put_half(file, second),
            Made::Spare(count) => put_bytes(file, 245, &[count]),
            _ => true,
        }
    }

    // The rows are in three functions, since a function that names many constants is expensive to prove.
    fn rows(&self) -> Rows<'static> {
        match *self {
            Made::OfOneClass => OF_ONE_CLASS,
            Made::Ended(_, _) => ENDED,
            Made::OfNamed | Made::Named(_, _) | Made::Both(_, _) => NAMED,
            Made::Strings(strings) => Rows { strings, ..NOTHING },
            Made::OfLists => LISTS,
            _ => self.proto_rows(),
        }
    }

    fn proto_rows(&self) -> Rows<'static> {
        match *self {
            Made::Protos(protos) => Rows {
                protos,
                ..TWO_PROTOS
            },
            Made::OfVoid => OF_VOID,
            Made::Parameterless(protos) => Rows {
                protos,
                ..PARAMETERLESS
            },
            Made::FarApart => FAR_APART,
            Made::Spare(_) => SPARE,
            _ => self.class_rows(),
        }
    }

    fn class_rows(&self) -> Rows<'static> {
        match *self {
            Made::Classes(classes) => Rows {
                classes,
                ..TWO_CLASSES
            },
            Made::Members(class_data) => Rows {
                class_data,
                ..TWO_OF_EACH
            },
            Made::Methods(class_data) => Rows {
                class_data,
                ..TWO_METHODS
            },
            Made::Values(arrays) => Rows {
                arrays,
                ..ONE_FIELD
            },
            Made::Arrays(arrays) => Rows { arrays, ..NOTHING },
            Made::ArraysAfterNames(arrays) => Rows { arrays, ..NAMES },
            _ => NOTHING,
        }
    }
}

fn copied(alloc: Global, bytes: &[u8]) -> Result<Vec<u8>, Fault> {
    Ok(Vec::from_slice(alloc, bytes)?)
}

fn zeros(alloc: Global, count: usize) -> Result<Vec<u8>, Fault> {
    Ok(vec![in alloc; 0u8; count]?)
}

fn front(file: &[u8], count: usize) -> &[u8] {
    &file[..count.min(file.len())]
}

fn put_half(file: &mut [u8], change: (usize, u16)) -> bool {
    put_bytes(file, change.0, &change.1.to_le_bytes())
}

fn missign(file: &mut [u8]) -> bool {
    if file.len() < 112 {
        return false;
    }
    file[12] = 0x1e;
    let sum = adler32(&file[12..]);
    put_bytes(file, 8, &sum.to_le_bytes())
}

/// The header's first part, how many bytes there are, and a table at 112 of so many rows.
fn put_table(file: &mut [u8], at: usize, rows: u32, count: usize) -> bool {
    put_bytes(file, 0, &WITHOUT_CLASSES[..52])
        && put_bytes(file, 32, &length(count).to_le_bytes())
        && put_bytes(file, at, &rows.to_le_bytes())
        && put_bytes(file, at.saturating_add(4), &112u32.to_le_bytes())
}

fn repeated(alloc: Global, text: &[u8], times: u32) -> Result<Vec<u8>, Fault> {
    let mut file = zeros(alloc, 32)?;
    for _ in 0..times {
        file.extend_from_slice(text)?;
    }
    Ok(file)
}

fn of_code(alloc: Global, tries: u8, units: &[u8], after: &[u8]) -> Result<Vec<u8>, Fault> {
    let item = item_of(alloc, 256, tries, units, after)?;
    file_of_item(alloc, &item)
}

fn of_tries(alloc: Global, units: &[u8], tries: &[TryItem], list: &[u8]) -> Result<Vec<u8>, Fault> {
    let item = item_of_tries(alloc, 256, units, tries, list)?;
    file_of_item(alloc, &item)
}

/// So many arrays of one value each, one in the other, and then this.
fn put_nested(arrays: &mut Vec<u8>, depth: u32, inner: &[u8]) -> Result<(), Fault> {
    for _ in 0..depth {
        arrays.extend_from_slice(&[0x01, 0x1c])?;
    }
    arrays.extend_from_slice(inner)?;
    Ok(())
}

fn nested(alloc: Global, depth: u32, inner: &[u8], rows: &Rows<'_>) -> Result<Vec<u8>, Fault> {
    let mut arrays = Vec::new(alloc);
    put_nested(&mut arrays, depth, inner)?;
    of_arrays(alloc, &arrays, rows)
}

fn of_arrays(alloc: Global, arrays: &[u8], rows: &Rows<'_>) -> Result<Vec<u8>, Fault> {
    file_of(alloc, &Rows { arrays, ..*rows })
}

/// Each in two bytes.
fn put_ints(arrays: &mut Vec<u8>, count: u16) -> Result<(), Fault> {
    put_uleb(arrays, u32::from(count))?;
    for number in 0..count {
        let [low, high] = number.to_le_bytes();
        arrays.extend_from_slice(&[0x24, low, high])?;
    }
    Ok(())
}

fn of_ints(alloc: Global, count: u16) -> Result<Vec<u8>, Fault> {
    let mut arrays = Vec::new(alloc);
    put_ints(&mut arrays, count)?;
    of_arrays(alloc, &arrays, &NOTHING)
}

/// Each of four bytes.
fn put_texts(texts: &mut Vec<u8>, count: u16) -> Result<(), Fault> {
    for number in 0..count {
        put_mutf8(texts, &[0x100u16.saturating_add(number)])?;
    }
    Ok(())
}

fn of_strings<'r>(alloc: Global, strings: &'r [&'r [u8]]) -> Result<Vec<u8>, Fault> {
    let rows = Rows {
        strings,
        arrays: &[1, 0x37, 0x00, 0x01],
        ..NOTHING
    };
    file_of(alloc, &rows)
}

fn of_split_texts(alloc: Global, texts: &[u8]) -> Result<Vec<u8>, Fault> {
    let mut strings = Vec::new(alloc);
    for text in texts.chunks_exact(4) {
        strings.push(text)?;
    }
    of_strings(alloc, &strings)
}

fn of_texts(alloc: Global, count: u16) -> Result<Vec<u8>, Fault> {
    let mut texts = Vec::new(alloc);
    put_texts(&mut texts, count)?;
    of_split_texts(alloc, &texts)
}
