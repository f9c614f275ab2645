//! Whole files, written: `write` returns the file of a program, `strip` the file of the program that a file means.
//!
//! ```
//! let file = write(alloc, &program)?; // refused where a limit is broken
//! let small = strip(alloc, &bytes)?;
//! ```
//!
//! docs/MAP.md has this crate's place among the others.
#![tactic(auto)]

// What holds of each file that is assembled.
mod laws;

// From a program to its file, and from a file to one without slack.
mod writing;

pub use laws::{
    assembled_classes_stand, assembled_is_packed, assembled_means, assembled_tables_hold, one_file,
    packed_is_assembled, stripped_alike_exactly_if_meaning_alike, stripped_stays, written_is_read,
};
pub use writing::{strip, strip_seeded, write, write_seeded};
