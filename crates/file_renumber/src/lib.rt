//! From the rows of a file's tables to their numbers in a file of the kept ones. A row that is mentioned is marked, and with it the rows
//! of its parts; then the number of a kept row is how many kept rows are before it. A table rises, so this is the rank of the row's name
//! among the kept names, and no text is read. Arrays of values and code items are encoded again with these numbers.
//!
//! ```text
//! let mut marks = Marks::new(alloc, seed, &sections)?;
//! marks.mark(&sections, IndexKind::Method, 7)?; // row 7, its class, prototype and name, and their parts
//! let values = mark_array(&mut marks, &sections, 0x1c0)?; // what the values at byte 448 name; how many bytes they take at most
//! let body = mark_code(alloc, &mut marks, &sections, codes, 0x200)?; // what the code at byte 512 names; likewise
//! let numbers = marks.number();
//! let index = numbers.of(IndexKind::Method, 7); // the row's index in a file of the kept rows
//! let array = renumber_array(alloc, &numbers, &sections, 0x1c0)?; // the values' bytes there
//! let code = renumber_code(alloc, &numbers, &sections, codes, 0x200)?; // the code's bytes there
//! ```
//!
//! docs/MAP.md has this crate's place among the others.
#![tactic(auto)]

// Which rows are kept, their numbers, and what holds of both.
mod column;
mod laws;
mod marks;
mod numbers;

// Arrays of values: where they begin, what they name, and with other numbers.
mod array_fronts;
mod marking;
mod renumbering;

// Code items: their fixed parts, instructions, tries and handlers, and all of it.
mod code_fronts;
mod codes;
mod handlers;
mod in_place;
mod insns;
mod shapes;
mod tries;

pub use codes::{mark_code, renumber_code};
pub use laws::{kept_rows_are_held, kept_rows_are_ranks, totals_are_lengths};
pub use marking::mark_array;
pub use marks::Marks;
pub use numbers::Numbers;
pub use renumbering::renumber_array;
