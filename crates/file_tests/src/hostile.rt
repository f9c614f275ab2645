//! The file of one class with sizes, offsets and counts that lie, cut, and with each byte changed: what `read` and
//! `check` answer.

use crate::fault_case::Query::Whole;
use crate::fault_case::{FaultCase, fault_of};
use crate::made::Made::{Front, One};
use dex_base::{Fault, fault, read_uleb};
use dex_samples::{Case, ONE_CLASS, all_hold, closed_with};
use std::alloc::Global;
use std::test::Fail;

#[rattlefmt::skip]
#[test]
fn wrong_sizes_offsets_and_counts_are_reported(rt: HostRuntime) -> Result<(), Fail> {
    static CASES: [FaultCase; 25] = [
        // The header has size and offset of each table from 56 on, and those of the data at 104; the map stands
        // at 252.
        FaultCase(Whole, "no strings", One(56, &[0, 0, 0, 0]), (fault::MAP_ENTRY, 268)),
        FaultCase(Whole, "no types", One(64, &[0, 0, 0, 0]), (fault::MAP_ENTRY, 280)),
        FaultCase(Whole, "no prototypes", One(72, &[0, 0, 0, 0]), (fault::MAP_ENTRY, 292)),
        FaultCase(Whole, "no methods", One(88, &[0, 0, 0, 0]), (fault::MAP_ENTRY, 304)),
        FaultCase(Whole, "no classes", One(96, &[0, 0, 0, 0]), (fault::MAP_ENTRY, 316)),
        FaultCase(Whole, "no data", One(104, &[0, 0, 0, 0]), (fault::MAP_PLACE, 52)),
        FaultCase(Whole, "the most strings", One(56, &[0xff, 0xff, 0xff, 0xff]), (fault::SECTION_RANGE, 56)),
        FaultCase(Whole, "the most types", One(64, &[0xff, 0xff, 0xff, 0xff]), (fault::SECTION_RANGE, 64)),
        FaultCase(Whole, "the most prototypes", One(72, &[0xff, 0xff, 0xff, 0xff]), (fault::SECTION_RANGE, 72)),
        FaultCase(Whole, "the most fields", One(80, &[0xff, 0xff, 0xff, 0xff]), (fault::SECTION_RANGE, 80)),
        FaultCase(Whole, "the most methods", One(88, &[0xff, 0xff, 0xff, 0xff]), (fault::SECTION_RANGE, 88)),
        FaultCase(Whole, "the most classes", One(96, &[0xff, 0xff, 0xff, 0xff]), (fault::SECTION_RANGE, 96)),
        FaultCase(Whole, "the most data", One(104, &[0xff, 0xff, 0xff, 0xff]), (fault::SECTION_RANGE, 104)),
        FaultCase(Whole, "a link section", One(44, &[0xff, 0xff, 0xff, 0xff]), (fault::LINKED, 44)),
        FaultCase(Whole, "a map of no entry", One(252, &[0, 0, 0, 0]), (fault::MAP_MISSING, 52)),
        FaultCase(Whole, "a map without its last entry", One(252, &[9, 0, 0, 0]), (fault::MAP_MISSING, 52)),
        FaultCase(Whole, "a map of an entry more", One(252, &[11, 0, 0, 0]), (fault::MAP_PLACE, 52)),
        FaultCase(Whole, "a map of the most entries", One(252, &[0xff, 0xff, 0xff, 0xff]), (fault::MAP_PLACE, 52)),
        FaultCase(Whole, "a string elsewhere", One(0x70, &[0xc0]), (fault::STRING_PLACE, 112)),
        FaultCase(Whole, "parameters elsewhere", One(0x94, &[0xc0]), (fault::PARAMETER_LIST, 140)),
        FaultCase(Whole, "interfaces elsewhere", One(0xac, &[0xc0]), (fault::INTERFACE_LIST, 160)),
        FaultCase(Whole, "class data elsewhere", One(0xb8, &[0xd2]), (fault::CLASS_DATA, 160)),
        FaultCase(Whole, "static values elsewhere", One(0xbc, &[0xf1]), (fault::VALUES, 160)),
        FaultCase(Whole, "a code elsewhere", One(0xf7, &[0xd4]), (fault::CODE_PLACE, 212)),
        FaultCase(Whole, "4294967295 static fields", One(0xf1, &[0xff, 0xff, 0xff, 0xff, 0x0f]), (fault::CLASS_DATA, 160)),
    ];
    all_hold(rt.alloc(), &CASES)
}

/// What is done to the file at each of some numbers.
#[derive(Clone, Copy)]
enum Done {
    // It is cut to so many bytes, so that the size at this place of the header runs past the end.
    Cut(u64),
    // The byte at that place is made this one: the file is read, or has a fault at a place of it or where a code is said
    // to be.
    Byte(u8),
}

/// A name for the case, the numbers from which and below which it is done, and what.
struct Each(&'static str, usize, usize, Done);

impl Case for Each {
    fn name(&self) -> &'static str {
        self.0
    }

    fn holds(&self, alloc: Global) -> Result<bool, Fault> {
        for number in self.1..self.2 {
            if !is_consistent(alloc, number, self.3)? {
                return Ok(false);
            }
        }
        Ok(true)
    }
}

fn is_consistent(alloc: Global, number: usize, done: Done) -> Result<bool, Fault> {
    match done {
        Done::Cut(place) => is_cut_refused(alloc, number, place),
        Done::Byte(byte) => is_byte_consistent(alloc, number, byte),
    }
}

fn is_cut_refused(alloc: Global, length: usize, place: u64) -> Result<bool, Fault> {
    let made = Front(length);
    let mut file = made.begun(alloc)?;
    Ok(made.finish(&mut file) && fault_of(alloc, &file) == (fault::SECTION_RANGE, place))
}

fn is_byte_consistent(alloc: Global, at: usize, byte: u8) -> Result<bool, Fault> {
    let file = closed_with(alloc, &ONE_CLASS, at, &[byte])?;
    Ok(is_fault_of_it(&file, fault_of(alloc, &file)))
}

fn is_fault_of_it(file: &[u8], as_number: (u16, u64)) -> bool {
    let (code, place) = as_number;
    if code == fault::CODE_PLACE {
        place == code_off_of(file)
    } else {
        code < 255 && place <= 376
    }
}

/// The offset of the code of the one method, as its class data spells it from 247 on.
fn code_off_of(file: &[u8]) -> u64 {
    let (_, spelled) = file.split_at(file.len().min(247));
    match read_uleb(spelled) {
        Some((offset, _)) => u64::from(offset),
        None => 0,
    }
}

#[rattlefmt::skip]
#[test]
fn each_cut_and_each_changed_byte_is_reported(rt: HostRuntime) -> Result<(), Fail> {
    static CASES: [Each; 10] = [
        Each("the strings cut", 112, 128, Done::Cut(56)),
        Each("the types cut", 128, 140, Done::Cut(64)),
        Each("the prototype cut", 140, 152, Done::Cut(72)),
        Each("the method cut", 152, 160, Done::Cut(88)),
        Each("the class cut", 160, 192, Done::Cut(96)),
        Each("the data cut", 192, 376, Done::Cut(104)),
        Each("a byte made 00", 32, 376, Done::Byte(0)),
        Each("a byte made 7f", 32, 376, Done::Byte(0x7f)),
        Each("a byte made 80", 32, 376, Done::Byte(0x80)),
        Each("a byte made ff", 32, 376, Done::Byte(0xff)),
    ];
    all_hold(rt.alloc(), &CASES)
}
