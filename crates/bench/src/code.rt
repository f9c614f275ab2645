//! Reads each code item of a file, each of which takes 256 bytes: `code TIMES` does so that many times, and prints the
//! sum over their operands. bench/code/run times it beside bench/code/plain.rs.

use crate::words::number;
use bumpalo::Bump;
use code_read::read_code;
use dex_base::Fault;
use dex_container::{Sections, kind, open};
use program_types::{Code, Insn};
use std::alloc::Global;
use std::io;
use tables_rows::Tables;

/// The target of an instruction, or the sum of its operands.
fn weight(one: &Insn<'_>) -> u64 {
    match one {
        Insn::I10t { to, .. } | Insn::I21t { to, .. } | Insn::I31t { to, .. } => u64::from(*to),
        Insn::I11n { a, b, .. } => u64::from(*a).wrapping_add(u64::from(b.cast_unsigned())),
        Insn::I22c { a, b, .. } => u64::from(*a).wrapping_add(u64::from(*b)),
        Insn::I35c { n, regs, .. } => u64::from(*n).wrapping_add(u64::from(regs[0])),
        Insn::Packed { targets, .. } => targets.len() as u64,
        _ => 1,
    }
}

/// The weights of all instructions, and the numbers in the tries.
fn sum_of(code: &Code<'_>) -> u64 {
    let mut sum: u64 = 0;
    for one in code.insns {
        sum = sum.wrapping_add(weight(one));
    }
    for one in code.tries {
        sum = sum
            .wrapping_add(u64::from(one.from))
            .wrapping_add(u64::from(one.to));
    }
    sum
}

/// The sum of all code items between two places.
fn read_items<'a>(
    alloc: Global,
    arena: &'a Bump,
    tables: &Tables<'a>,
    sections: &Sections<'_>,
    places: (u32, u32),
) -> Result<u64, Fault> {
    let (begin, end) = places;
    let mut sum: u64 = 0;
    let mut at = begin;
    for _ in begin..end {
        if at >= end {
            break;
        }
        let code = read_code(alloc, arena, tables, sections, at)?;
        sum = sum.wrapping_add(sum_of(&code));
        at = at.saturating_add(256);
    }
    Ok(sum)
}

/// What one reading gives.
fn read_once(alloc: Global, sections: &Sections<'_>) -> Result<u64, Fault> {
    let arena = Bump::new(alloc);
    let tables = Tables::read(alloc, &arena, sections)?;
    let Some(places) = sections.section(kind::CODE_ITEM) else {
        return Ok(0);
    };
    read_items(alloc, &arena, &tables, sections, places)
}

/// The sum of so many readings.
fn read_often(alloc: Global, bytes: &[u8], times: u32) -> Result<u64, Fault> {
    let sections = open(bytes)?;
    let mut sum: u64 = 0;
    for _ in 0..times {
        sum = sum.wrapping_add(read_once(alloc, &sections)?);
    }
    Ok(sum)
}

/// Runs the command of these words.
pub fn run(rt: &(impl Print + Alloc<A = Global>), words: &[&str], bytes: &[u8]) -> io::Result<()> {
    match read_often(rt.alloc(), bytes, number(words, 0)) {
        Ok(sum) => println!(rt; "{sum}"),
        Err(fault) => println!(rt; "refused {} at {}", fault.code, fault.place),
    }
}
