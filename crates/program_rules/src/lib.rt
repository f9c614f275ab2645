//! The rules that a program keeps before it can be written: names, the order of members and classes, values, and code by the
//! numbers of instructions (`specs/Rules.antt`).
//!
//! ```text
//! well_formed(&program)?; // else a fault, with the number of the first class that breaks a rule
//! well_formed_in(alloc, &program)?; // the same, in time that grows with the program
//! ```
//!
//! docs/MAP.md has this crate's place among the others.
#![tactic(auto)]

// Names, wherever they stand.
mod bodies;
mod members;
mod names;
mod nested;
mod values;

// The order of classes.
mod numbers;
mod order;

// Bodies, and all of it.
mod codes;
mod program;

// What holds of the rules.
mod laws;

pub use laws::{class_is_in_range, one_rule};
pub use names::is_valid_name;
pub use program::{well_formed, well_formed_in, well_formed_named_seeded};
