//! A file that is made, and what is left of it when it is stripped, or what it is refused with.

use crate::found::{
    begins_with_item, classes_of, fault_of_read, has_bytes, has_words, is_one_item, items_of,
};
use crate::kept::file_of;
use crate::rows::{EMPTY_LIST, ONE_ARRAY, ONE_LIST, SPARE, TWO_ITEMS};
use dex_base::Fault;
use dex_samples::{
    Case, ONE_CLASS, Rows, TryItem, WITHOUT_CLASSES, after_units, close_file, count_of,
    file_of as file_of_rows, file_of_item, item_of_tries, length, put_bytes,
};
use file_write::strip;
use program_types::{Class, Program};
use std::alloc::Global;

/// How a file is made. What is changed is a place, and what stands there.
#[derive(Clone, Copy)]
pub enum Made {
    /// The file that is written of the program of these classes.
    Written(&'static [Class<'static>]),
    /// The file of one class, changed.
    One(usize, &'static [u8]),
    /// `SPARE`, with this count of units before its fifth string.
    Spare(u8),
    /// `EMPTY_LIST`.
    EmptyList,
    /// `TWO_ITEMS`, whose map counts both, changed.
    TwoItems(&'static [(usize, &'static [u8])]),
    /// `ONE_ARRAY`, each of whose classes has that array.
    OneArray,
    /// `ONE_LIST`.
    OneList,
    /// A code item with these units and no tries.
    Code(&'static [u8]),
    /// A code item with these units, these try_items, and this list of handlers.
    Tries(&'static [u8], &'static [TryItem], &'static [u8]),
}

/// What is wanted of it.
#[derive(Clone, Copy)]
pub enum Want {
    /// `read` tells this fault, 0 at 0 where there is none.
    Read((u16, u64)),
    /// `strip` tells this fault.
    Refused((u16, u64)),
    /// It is another file than the one of one class, which is left of it.
    OneClass,
    /// It has the bytes of `WITHOUT_CLASSES`, and is left as it is.
    IsWithout,
    /// It has the bytes of `ONE_CLASS`, and is left as it is.
    IsOne,
    /// So many classes are read of it, and it is left as it is.
    Classes(usize),
    /// Its map has so many items of a kind, and it is left as it is.
    Items(u32, u32),
    /// It has so many bytes, and what is left has one code item, with the body of both methods.
    OneItem(usize),
    /// It has so many bytes, and is left as it is.
    Ends(usize),
    /// It has these words at these places, and these bytes at a place, and is left as it is.
    Placed(&'static [(usize, u32)], usize, &'static [u8]),
    /// The data of what is left begin with a code item of these units and no tries.
    Item(&'static [u8]),
    /// .. of these units, these try_items, and this list of handlers.
    Tried(&'static [u8], &'static [TryItem], &'static [u8]),
}

/// A name for the case, the file, and what is wanted of it.
pub struct Left(pub &'static str, pub Made, pub Want);

impl Case for Left {
    fn name(&self) -> &'static str {
        self.0
    }

    fn holds(&self, alloc: Global) -> Result<bool, Fault> {
        let mut file = self.1.begun(alloc)?;
        Ok(self.1.finish(&mut file) && is_so(alloc, &file, self.2))
    }
}

impl Made {
    /// The file before it is changed.
    fn begun(&self, alloc: Global) -> Result<Vec<u8>, Fault> {
        match *self {
            Made::Written(classes) => file_of(alloc, &Program { classes }),
            Made::One(_, _) => Ok(Vec::from_slice(alloc, &ONE_CLASS)?),
            Made::Code(units) => of_tries(alloc, units, &[], &[]),
            Made::Tries(units, tries, list) => of_tries(alloc, units, tries, list),
            of_rows => file_of_rows(alloc, &of_rows.rows()),
        }
    }

    fn rows(&self) -> Rows<'static> {
        match self {
            Made::EmptyList => EMPTY_LIST,
            Made::TwoItems(_) => TWO_ITEMS,
            Made::OneArray => ONE_ARRAY,
            Made::OneList => ONE_LIST,
            _ => SPARE,
        }
    }

    /// Changes and closes the file, and tells whether all that is changed has its place.
    fn finish(&self, file: &mut [u8]) -> bool {
        let placed = self.change(file);
        close_file(file);
        placed
    }

    fn change(&self, file: &mut [u8]) -> bool {
        match *self {
            Made::One(at, bytes) => put_bytes(file, at, bytes),
            Made::Spare(count) => put_bytes(file, 245, &[count]),
            Made::TwoItems(changes) => {
                put_bytes(file, 288 + 8 + 12 * 6, &[2, 0, 0, 0]) && put_all(file, changes)
            }
            Made::OneArray => put_array_places(file),
            _ => true,
        }
    }
}

fn of_tries(alloc: Global, units: &[u8], tries: &[TryItem], list: &[u8]) -> Result<Vec<u8>, Fault> {
    let item = item_of_tries(alloc, 2, units, tries, list)?;
    file_of_item(alloc, &item)
}

fn put_all(file: &mut [u8], changes: &[(usize, &[u8])]) -> bool {
    for (at, bytes) in changes {
        if !put_bytes(file, *at, bytes) {
            return false;
        }
    }
    true
}

/// The class rows stand at 168 and 200.
fn put_array_places(file: &mut [u8]) -> bool {
    let at = length(file.len()).saturating_sub(5).to_le_bytes();
    put_bytes(file, 168 + 28, &at) && put_bytes(file, 200 + 28, &at)
}

fn is_so(alloc: Global, file: &[u8], want: Want) -> bool {
    match want {
        Want::Read(fault) => fault_of_read(alloc, file) == fault,
        want => match strip(alloc, file) {
            Ok(left) => is_kept(alloc, &left) && is_left_so(alloc, file, &left, want),
            Err(found) => is_refused_so(found, want),
        },
    }
}

fn is_refused_so(found: Fault, want: Want) -> bool {
    match want {
        Want::Refused((code, place)) => found.code == code && found.place == place,
        _ => false,
    }
}

/// Whether what is left is left as it is.
fn is_kept(alloc: Global, left: &[u8]) -> bool {
    match strip(alloc, left) {
        Ok(again) => again.as_slice() == left,
        Err(_) => false,
    }
}

fn is_left_so(alloc: Global, file: &[u8], left: &[u8], want: Want) -> bool {
    match want {
        Want::OneClass => file != left && left == ONE_CLASS.as_slice(),
        Want::OneItem(count) => file.len() == count && is_one_item(left),
        Want::Item(units) => begins_with_item(left, 0, units, &[]),
        Want::Tried(units, tries, list) => begins_with_tries(alloc, left, units, tries, list),
        want => file == left && is_as_wanted(alloc, file, want),
    }
}

fn begins_with_tries(
    alloc: Global,
    left: &[u8],
    units: &[u8],
    tries: &[TryItem],
    list: &[u8],
) -> bool {
    match after_units(alloc, units, tries, list) {
        Ok(after) => begins_with_item(left, count_of(tries.len()), units, &after),
        Err(_) => false,
    }
}

fn is_as_wanted(alloc: Global, file: &[u8], want: Want) -> bool {
    match want {
        Want::IsWithout => file == WITHOUT_CLASSES.as_slice(),
        Want::IsOne => file == ONE_CLASS.as_slice(),
        Want::Classes(count) => classes_of(alloc, file) == count,
        Want::Items(kind, count) => items_of(file, kind) == count,
        Want::Ends(count) => file.len() == count,
        Want::Placed(words, at, bytes) => has_words(file, words) && has_bytes(file, at, bytes),
        _ => false,
    }
}
