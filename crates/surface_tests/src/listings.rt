//! dex_listing.
ghost use Rattle.program_types.specs.View as view;
ghost use Rattle.program_rules.specs.WellFormed.{WellFormed};

use bumpalo::Bump;
use dex_base::Fault;
use dex_listing::{parse, print, print_1};
use dex_program::Program;
use std::alloc::Global;

pub fn listing_printed(alloc: Global, program: &Program<'_>) -> Result<Vec<u8>, Fault>
    requires { WellFormed (view.program program.now) }
{
    print(alloc, program)
}

pub fn listing_of_the_first_form(alloc: Global, program: &Program<'_>) -> Result<Vec<u8>, Fault>
    requires { WellFormed (view.program program.now) }
{
    print_1(alloc, program)
}

pub fn listing_parsed<'a>(
    alloc: Global,
    arena: &'a Bump,
    text: &[u8],
) -> Result<Program<'a>, Fault> {
    parse(alloc, arena, text)
}
