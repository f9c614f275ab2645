//! Where the tables and the sections of a file stand.

use dex_base::Fault;
use dex_container::{Sections, open};
use dex_samples::{Case, ONE_CLASS, all_hold};
use std::alloc::Global;
use std::test::Fail;

/// What of the file of one class is asked.
enum Part {
    // how many rows the table of a kind has, and where it begins
    Table(u16, (u32, u32)),
    // where the section of a kind begins and ends
    Section(u16, Option<(u32, u32)>),
    Whole,
}

/// A name for the case, and the part.
struct Found(&'static str, Part);

impl Case for Found {
    fn name(&self) -> &'static str {
        self.0
    }

    fn holds(&self, _alloc: Global) -> Result<bool, Fault> {
        let sections = open(&ONE_CLASS)?;
        Ok(is_found(&sections, &self.1))
    }
}

fn is_found(sections: &Sections<'_>, part: &Part) -> bool {
    match part {
        Part::Table(kind, want) => sections.table(*kind) == *want,
        Part::Section(kind, want) => sections.section(*kind) == *want,
        Part::Whole => sections.bytes() == ONE_CLASS.as_slice(),
    }
}

#[rattlefmt::skip]
#[test]
fn the_tables_and_the_sections_of_a_file_are_found(rt: HostRuntime) -> Result<(), Fail> {
    static CASES: [Found; 17] = [
        Found("header", Part::Table(0, (0, 0))),
        Found("string_ids", Part::Table(1, (4, 0x70))),
        Found("type_ids", Part::Table(2, (3, 0x80))),
        Found("proto_ids", Part::Table(3, (1, 0x8c))),
        Found("field_ids", Part::Table(4, (0, 0))),
        Found("method_ids", Part::Table(5, (1, 0x98))),
        Found("class_defs", Part::Table(6, (1, 0xa0))),
        Found("no kind", Part::Table(7, (0, 0))),
        Found("a table of code items", Part::Table(0x2001, (0, 0))),
        Found("code items", Part::Section(0x2001, Some((0xc0, 0xd2)))),
        Found("strings", Part::Section(0x2002, Some((0xd2, 0xf1)))),
        Found("class data", Part::Section(0x2000, Some((0xf1, 0xfc)))),
        Found("the map", Part::Section(0x1000, Some((0xfc, 0x178)))),
        Found("encoded arrays", Part::Section(0x2005, None)),
        Found("hiddenapi data", Part::Section(0xf000, None)),
        Found("a section of class_defs", Part::Section(6, None)),
        Found("the whole file", Part::Whole),
    ];
    all_hold(rt.alloc(), &CASES)
}
