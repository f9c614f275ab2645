//! Samples for tests: names from ASCII texts, files from rows and by edits, readers and writers that fail, and how a test
//! is told. Only test crates stand on it.
//!
//! A test is a table of cases and one call: what can fail is in plain functions, since each assertion is dear to prove, and
//! a row is cheaper than a function.
//!
//! ```
//! struct Read(&'static str, &'static [u8], Option<(u32, usize)>);
//!
//! impl Case for Read {
//!     fn name(&self) -> &'static str {
//!         self.0
//!     }
//!
//!     fn holds(&self, _alloc: Global) -> Result<bool, Fault> {
//!         Ok(read_uleb(self.1) == self.2)
//!     }
//! }
//!
//! fn unsigned_numbers_are_read(rt: HostRuntime) -> Result<(), Fail> {
//!     static CASES: [Read; 2] = [Read("0", &[0x00], Some((0, 1))), Read("no bytes", &[], None)];
//!     all_hold(rt.alloc(), &CASES)
//! }
//! ```
//!
//! docs/MAP.md has this crate's place among the others.
#![tactic(auto)]

// How a test is told.
mod outcome;

// Names, in an arena and as text.
mod arena;
mod names;
mod shown;

// Names that are constants.
pub mod types;

// Files: whole, by edits, from rows, of one code item.
mod codes;
mod edits;
mod files;
mod layout;
mod rows;
mod written;

// What a run reads from and writes to.
mod ends;

pub use arena::first_unit;
pub use codes::{
    ALL_TO_0, TryItem, after_units, count_of, file_of_item, item_of, item_of_tries, length,
};
pub use edits::{MISPLACED, close_file, closed_with, put_bytes, with_bytes};
pub use ends::{TestReader, TestWriter, reader, reader_failing_once, writer, writer_failing_once};
pub use files::{ONE_CLASS, WITHOUT_CLASSES};
pub use names::{MISSPELLED, field, method, proto, text, ty};
pub use outcome::{Case, all_hold, is_so, none_wrong};
pub use rows::{NOTHING, Rows};
pub use shown::{put_field, put_method, put_name, put_proto, put_types, put_units};
pub use written::file_of;
