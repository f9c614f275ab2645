//! A file that is made, who is asked of it, and the fault that is told.

use crate::made::Made;
use crate::values::{check_in, read_in};
use bumpalo::Bump;
use dex_base::Fault;
use dex_container::open;
use dex_samples::{Case, ONE_CLASS, WITHOUT_CLASSES};
use file_read::{check, read};
use std::alloc::Global;
use tables_rows::Tables;

/// Who is asked of a file.
#[derive(Clone, Copy)]
pub enum Query {
    /// `open`.
    Frame,
    /// `Tables::read`.
    Rows,
    /// `read`, and `check`, which answers alike.
    Whole,
    /// The same, and where the file is read, it has no class.
    Classless,
    /// `read_array`, and `check_array`, which answers alike: at this place, of at most so many values.
    Array(u32, usize),
    /// Whether it has so many bytes.
    HasBytes(usize),
    /// Whether it has the bytes of `WITHOUT_CLASSES`.
    IsWithout,
    /// Whether it has the bytes of `ONE_CLASS`.
    IsOne,
    /// Whether this is its signature.
    Signed(&'static [u8]),
}

/// The number of no fault: two that are asked answer otherwise, or the bytes are others.
const OTHERWISE: (u16, u64) = (256, 0);

/// Who is asked, a name for the case, the file, and the fault: 0 at 0 where there is none.
pub struct FaultCase(pub Query, pub &'static str, pub Made, pub (u16, u64));

impl Case for FaultCase {
    fn name(&self) -> &'static str {
        self.1
    }

    fn holds(&self, alloc: Global) -> Result<bool, Fault> {
        let mut file = self.2.begun(alloc)?;
        Ok(has_fault(alloc, &mut file, self))
    }
}

fn has_fault(alloc: Global, file: &mut [u8], case: &FaultCase) -> bool {
    case.2.finish(file) && fault_found(alloc, case.0, file) == case.3
}

fn fault_found(alloc: Global, query: Query, file: &[u8]) -> (u16, u64) {
    match query {
        Query::Frame => placed(open(file).err()),
        Query::Rows => fault_of_tables(alloc, file),
        Query::Whole => fault_of(alloc, file),
        Query::Classless => fault_of_classless(alloc, file),
        Query::Array(off, most) => fault_of_array(alloc, file, off, most),
        Query::HasBytes(count) => is_so(file.len() == count),
        Query::IsWithout => is_so(file == WITHOUT_CLASSES.as_slice()),
        Query::IsOne => is_so(file == ONE_CLASS.as_slice()),
        Query::Signed(digest) => is_so(file.len() >= 32 && &file[12..32] == digest),
    }
}

fn placed(fault: Option<Fault>) -> (u16, u64) {
    match fault {
        Some(fault) => (fault.code, fault.place),
        None => (0, 0),
    }
}

fn is_so(so: bool) -> (u16, u64) {
    if so { (0, 0) } else { OTHERWISE }
}

fn alike(one: (u16, u64), other: (u16, u64)) -> (u16, u64) {
    if one == other { one } else { OTHERWISE }
}

fn fault_of_tables(alloc: Global, file: &[u8]) -> (u16, u64) {
    let arena = Bump::new(alloc);
    placed(match open(file) {
        Ok(sections) => Tables::read(alloc, &arena, &sections).err(),
        Err(fault) => Some(fault),
    })
}

fn fault_of_read(alloc: Global, file: &[u8]) -> (u16, u64) {
    let arena = Bump::new(alloc);
    placed(read(alloc, &arena, file).err())
}

/// The fault of a file, 0 at 0 where it is read; 256 at 0 where `check` answers otherwise than `read`.
pub fn fault_of(alloc: Global, file: &[u8]) -> (u16, u64) {
    alike(fault_of_read(alloc, file), placed(check(alloc, file).err()))
}

/// Whether a program without classes is read, if any is.
fn has_no_classes(alloc: Global, file: &[u8]) -> bool {
    let arena = Bump::new(alloc);
    match read(alloc, &arena, file) {
        Ok(program) => program.classes.is_empty(),
        Err(_) => true,
    }
}

fn fault_of_classless(alloc: Global, file: &[u8]) -> (u16, u64) {
    if has_no_classes(alloc, file) {
        fault_of(alloc, file)
    } else {
        OTHERWISE
    }
}

fn fault_of_values(alloc: Global, file: &[u8], off: u32, most: usize) -> (u16, u64) {
    let arena = Bump::new(alloc);
    placed(read_in(alloc, &arena, file, off, most).err())
}

fn fault_of_array(alloc: Global, file: &[u8], off: u32, most: usize) -> (u16, u64) {
    alike(
        fault_of_values(alloc, file, off, most),
        placed(check_in(alloc, file, off, most).err()),
    )
}
