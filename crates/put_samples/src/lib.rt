//! Values and codes by hand, appended where they may be: whether a code keeps the rules, whether the names of values have ranks. Test crates
//! and bench stand on it.
//!
//! docs/MAP.md has this crate's place among the others.
#![tactic(auto)]

mod codes;
mod values;

pub use codes::{LOOP, is_formed, no_ranks, put_nameless};
pub use values::put_all;
