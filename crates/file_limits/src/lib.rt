//! Whether a program can be written: the limits of a file's fields, and how many bytes its file takes at most.
//!
//! ```
//! let (ranks, _) = needed_names(alloc, seed, &arena, &program)?;
//! check_limits(alloc, &ranks, &program)?; // refused where a limit is broken
//! ```
//!
//! docs/MAP.md has this crate's place among the others.
#![tactic(auto)]

// How many bytes a file takes at most.
mod code_sizes;
mod file_size;
mod sums;
mod text_sizes;
mod value_sizes;

// Which limit is broken.
mod bodies;
mod limits;

// What holds of limits.
mod laws;

pub use file_size::is_too_big;
pub use laws::{limits_are_decided, one_limit, wide_is_by_parts};
pub use limits::check_limits;
pub use sums::{plus, times};
