//! Printing of listings: the canonical text of a program.
//!
//! ```text
//! print(alloc, &program)?   // `dex 035 listing 2`, a line feed, then a block for each class; targets are labels
//! print_1(alloc, &program)? // `dex 035`, the same with a number before each instruction
//! put_opening(&mut text, Form::Two)? // the first line alone, for callers that print one class at a time
//! put_class(alloc, &mut text, Form::Two, &class)? // the block of a class
//! ```
//!
//! docs/MAP.md has this crate's place among the others.
#![tactic(auto)]

mod blocks;
mod laws;
mod lines;
mod marks;
mod operands;
mod values;

pub use blocks::{print, print_1, put_class, put_opening};
pub use laws::{
    printed_instructions_are_read_again, printed_lines_are_read_again,
    printed_values_are_read_again,
};
