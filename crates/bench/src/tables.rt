//! Reads the five tables of a file: `tables TIMES` does so that many times, and prints how many units the names of its
//! strings, fields and methods have. bench/tables/run times it beside bench/tables/plain.rs.

use crate::words::number;
use bumpalo::Bump;
use dex_base::Fault;
use dex_container::{Sections, kind, open};
use std::alloc::Global;
use std::io;
use tables_rows::Tables;

/// The units of all strings, and of the names of all fields and methods.
fn units_of(sections: &Sections<'_>, tables: &Tables<'_>) -> u64 {
    let mut sum: u64 = 0;
    for i in 0..sections.table(kind::STRING_ID_ITEM).0 {
        if let Some(text) = tables.string(i) {
            sum = sum.wrapping_add(text.units.len() as u64);
        }
    }
    for i in 0..sections.table(kind::FIELD_ID_ITEM).0 {
        if let Some(field) = tables.field(i) {
            sum = sum.wrapping_add(field.name.units.len() as u64);
        }
    }
    for i in 0..sections.table(kind::METHOD_ID_ITEM).0 {
        if let Some(method) = tables.method(i) {
            sum = sum.wrapping_add(method.name.units.len() as u64);
        }
    }
    sum
}

/// What one reading of the tables gives.
fn read_once(alloc: Global, sections: &Sections<'_>) -> Result<u64, Fault> {
    let arena = Bump::new(alloc);
    let tables = Tables::read(alloc, &arena, sections)?;
    Ok(units_of(sections, &tables))
}

/// The sum of so many readings.
fn read_often(alloc: Global, bytes: &[u8], times: u32) -> Result<u64, Fault> {
    let sections = open(bytes)?;
    let mut sum: u64 = 0;
    for _ in 0..times {
        sum = sum.wrapping_add(read_once(alloc, &sections)?);
    }
    Ok(sum)
}

/// Runs the command of these words.
pub fn run(rt: &(impl Print + Alloc<A = Global>), words: &[&str], bytes: &[u8]) -> io::Result<()> {
    match read_often(rt.alloc(), bytes, number(words, 0)) {
        Ok(sum) => println!(rt; "{sum}"),
        Err(fault) => println!(rt; "refused {} at {}", fault.code, fault.place),
    }
}
