//! Programs that keep the rules, written.

use bumpalo::Bump;
use code_align::align_all;
use dex_base::Fault;
use file_write::write;
use program_rules::well_formed;
use program_types::Program;
use std::alloc::Global;

/// The file of a program. Refused as `well_formed` or `write` refuses it.
pub fn file_of(alloc: Global, program: &Program<'_>) -> Result<Vec<u8>, Fault> {
    well_formed(program)?;
    write(alloc, program)
}

/// The file of the program with its payloads at even addresses.
pub fn aligned_file_of<'a>(
    alloc: Global,
    arena: &'a Bump,
    program: &Program<'a>,
) -> Result<Vec<u8>, Fault> {
    well_formed(program)?;
    let aligned = align_all(alloc, arena, program)?;
    write(alloc, &aligned)
}

/// The fault of writing a program and its place, 0 at 0 where it is written.
pub fn fault_of(alloc: Global, program: &Program<'_>) -> (u16, u64) {
    match file_of(alloc, program) {
        Ok(_) => (0, 0),
        Err(fault) => (fault.code, fault.place),
    }
}
