//! A file without what its program doesn't need, from its rows: those that the classes mention are marked, with their parts; then each item
//! goes from bytes to bytes, with the numbers of the kept rows in place of the rows' indices, in its fewest bytes. No name is read, and
//! only offsets and the bytes of items are looked up: each item is read once, and equal results are written once.
//!
//! Laws say how small the tables of a file can be, and that no program is refused that another file could hold.
//!
//! ```text
//! let survey = visit_classes(alloc, seed, &sections)?; // which rows are needed, and how many bytes the items take at most
//! let small = strip_framed(alloc, seed, &sections)?; // the file of these, of a file that means a program
//! ```
//!
//! docs/MAP.md has this crate's place among the others.
#![tactic(auto)]

// What is needed, and how many bytes it takes at most.
mod members;
mod sizes;
mod survey;

// What the parts share: a word of each row of class_defs, and where an item of the file that came in stands in the new one.
mod class_words;
mod moved;

// The parts of the data section.
mod arrays;
mod codes;
mod datas;
mod lists;
mod texts;

// The rows of the tables.
mod class_defs;
mod tables;

// The whole file, and what every file of a program has at least.
mod least_laws;
mod stripping;

pub use least_laws::{needed_names_have_rows, no_refusal_in_vain, standing_codes_fit};
pub use stripping::strip_framed;
pub use survey::{Survey, visit_classes};
