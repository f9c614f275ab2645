//! Codes and programs whose payloads are all at even addresses, as a file has them.
//!
//! ```text
//! let code = align(alloc, &arena, &code)?; // a nop before each payload that would be at an odd address
//! let program = align_all(alloc, &arena, &program)?; // so that `write` can't refuse it with 86
//! ```
//!
//! docs/MAP.md has this crate's place among the others.
#![tactic(auto)]

// One code.
mod aligning;
mod moving;
mod pads;

// What holds of every aligned code.
mod laws;

// Whole programs: bodies, methods, classes; and what holds of them.
mod program_laws;
mod programs;

pub use aligning::align;
pub use laws::{aligned_exists, aligned_is_one, aligned_is_same};
pub use program_laws::{aligned_program_is_one, what_is_too_long_is_not_formed};
pub use programs::align_all;
