//! The file of a program that keeps the rules and the limits: the parts of its data section one after the other, each with its items in
//! their fewest bytes and nothing else; then the rows of its tables, from the ranks of the names and the places of the items; then map and
//! header. The layout of rows, type lists, codes, static values and class data is defined here for `strip` too, which writes those of
//! the kept rows of a file.
//!
//! ```
//! let file = assemble(alloc, seed, &program)?; // refused where a limit is broken
//! ```
//!
//! docs/MAP.md has this crate's place among the others.
#![tactic(auto)]

// Where the items of a part stand, the entries of class data, and the indices of names that have one.
mod entries;
mod index;
mod placed;

// The parts of the data section.
mod arrays;
mod class_data;
mod codes;
mod texts;
mod type_lists;

// The rows of each table, and what holds of rows, type lists and class data.
mod class_defs;
mod field_ids;
mod method_ids;
mod proto_ids;
mod row_laws;
mod tables;
mod type_ids;

// The whole file, and what holds of it.
mod assembled_laws;
mod assembling;

pub use assembled_laws::assembled_is_one;
pub use assembling::{Data, assemble, space};
pub use entries::{put_field, put_method};
pub use index::{shorty_index, string_index};
pub use placed::Placed;
pub use row_laws::{lists_and_data_are_one, rows_are_one, rows_stand_at_their_indices};
