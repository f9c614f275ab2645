//! Classes of a file: the class of a row of class_defs, read in three passes over all rows: names and members, static values, code.
//!
//! ```
//! let heads = read_heads(alloc, &arena, &scratch, &sections, &tables)?; // faults of class rows
//! let statics = read_statics(alloc, &arena, &scratch, &sections, &tables, heads)?; // faults of values
//! let classes = read_classes(alloc, &arena, &sections, &tables, heads, statics)?; // faults of code items
//! let mut codes = Codes::new(alloc, &arena);
//! let found = read_class_at(&mut codes, &sections, &tables, heads, statics, 0)?; // one of these classes
//!
//! check_statics(alloc, &sections, &tables, heads)?; // faults of values, without a program
//! check_codes(alloc, &sections, &tables, heads)?; // faults of code items
//! ```
//!
//! docs/MAP.md has this crate's place among the others.
#![tactic(auto)]

// A row of class_defs and what it refers to, in the order in which it is checked.
mod class_data;
mod class_row;
mod interfaces;
mod members;
mod order;
mod owners;
mod places;
pub mod word;

// The passes over all rows, and what the last two keep.
mod heads;
mod keeping;
mod laws;
mod methods;
mod statics;

pub use class_data::{Entries, FieldEntry, MethodEntry, entries_at};
pub use class_row::{class_count, class_word};
pub use heads::{Head, read_heads};
pub use keeping::FoundCode;
pub use laws::{
    class_is_one, classes_are_clear, rows_break_one_rule, rows_that_hold_keep_the_rules,
};
pub use members::Bare;
pub use methods::{Codes, FoundClass, check_codes, read_class_at, read_classes};
pub use statics::{Statics, check_statics, read_statics};
