//! dex_file.
ghost use Rattle.program_types.specs.View as view;
ghost use Rattle.program_rules.specs.WellFormed.{WellFormed};

use bumpalo::Bump;
use dex_base::Fault;
use dex_file::{align_all, read, strip, write};
use dex_program::Program;
use std::alloc::Global;

pub fn file_read<'a>(alloc: Global, arena: &'a Bump, bytes: &[u8]) -> Result<Program<'a>, Fault> {
    read(alloc, arena, bytes)
}

pub fn file_written(alloc: Global, program: &Program<'_>) -> Result<Vec<u8>, Fault>
    requires { WellFormed (view.program program.now) }
{
    write(alloc, program)
}

pub fn file_stripped(alloc: Global, bytes: &[u8]) -> Result<Vec<u8>, Fault> {
    strip(alloc, bytes)
}

pub fn program_aligned<'a>(
    alloc: Global,
    arena: &'a Bump,
    program: &Program<'a>,
) -> Result<Program<'a>, Fault>
    requires { WellFormed (view.program program.now) }
{
    align_all(alloc, arena, program)
}
