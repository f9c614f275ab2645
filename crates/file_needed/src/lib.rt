//! The names that a program needs, with their ranks: what its classes, values and bodies mention, and the parts of each.
//!
//! ```
//! let arena = Bump::new(alloc); // holds the shorties
//! let (ranks, indices) = needed_names(alloc, seed, &arena, &program)?; // indices: the ranks of what instructions name, then of members
//! ```
//!
//! docs/MAP.md has this crate's place among the others.
#![tactic(auto)]

// The names in a body.
mod bodies;
// The names in values.
mod values;

// The names of classes, and of all.
mod classes;

pub use classes::needed_names;
