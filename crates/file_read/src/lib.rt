//! Whole files, read: `read` returns the program that a file means, `check` whether it means one, and a `ClassReader` the classes of
//! the program, one by one.
//!
//! ```
//! let program = read(alloc, &arena, &bytes)?; // refused by the first fault
//! check(alloc, &bytes)?; // the same fault, and no program is held
//! let mut reader = ClassReader::begin(alloc, &arena, &bytes)?;
//! let mut codes = Codes::new(alloc, &arena); // code that was read already, which may be let go between two classes
//! let class = reader.next_class(&mut codes)?; // the same fault, maybe later
//! ```
//!
//! docs/MAP.md has this crate's place among the others.
#![tactic(auto)]

mod checking;
mod class_reader;
mod deciding_laws;
mod laws;
mod reading;

pub use checking::{check, check_framed};
pub use class_reader::ClassReader;
pub use deciding_laws::{
    classes_are_decided, framed_files_are_decided, meaning_is_decided, meanings_are_well_formed,
    meanings_have_rows, rows_are_decided,
};
pub use laws::{meaning_is_clear, one_program, one_refusal, refusals_are_first};
pub use reading::read;
