//! Whole files: read and checked, written, stripped, aligned.
//!
//! ```
//! use dex_file::{read, write};
//!
//! let arena = Bump::new(alloc);
//! let program = read(alloc, &arena, &bytes)?;
//! let packed = write(alloc, &program)?; // read gives the same program again
//! ```
//!
//! Its parts: `file_classes` and `file_read` (read), `file_needed`, `file_layout`, `file_limits` and `file_put` (written),
//! `file_renumber` and `file_strip` (stripped), `file_write` (both, with their theorems), `code_align`.
//!
//! Its theorems are laws, functions without code that a proof calls: `written_is_read`, `one_file`, `one_program`. The definitions that
//! all of this rests on are handed on too, so `ghost use Rattle.dex_file.specs.Means.{Means}` needs no other crate.
//!
//! docs/MAP.md has this crate's place among the others.
#![tactic(auto)]

pub use code_align::align_all;
pub use dex_base::Fault;
pub use file_read::{check, one_program, read};
pub use file_write::{
    one_file, strip, strip_seeded, stripped_alike_exactly_if_meaning_alike, stripped_stays, write,
    write_seeded, written_is_read,
};
