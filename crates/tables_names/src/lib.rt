//! Names as rows of the five tables, string_ids to method_ids: the names that a program needs, with their parts, and their ranks.
//!
//! ```
//! let mut needed = Needed::new(alloc);
//! needed.add_type(ty)?; // and its descriptor as a string
//! let rank = needed.freeze()?.index_of_type(ty); // its index in the written file
//! ```
//!
//! docs/MAP.md has this crate's place among the others.
#![tactic(auto)]

// What the five kinds of names have in common.
mod row;

// The names that a program needs, and their ranks.
mod name_set;
mod needed;
mod noted;
mod numbered;
mod parts;
mod ranks;
mod shorty;
mod sorting;

// What holds of rows, names and ranks.
mod laws;

pub use laws::{
    closed_have_rows, fields_rise, index_is_at_least_rank, keys_compare_as_indices,
    look_ups_answer, mentions_have_indices, methods_rise, needed_is_least, protos_rise,
    rising_tables_rise, sets_are_their_members, types_rise,
};
pub use needed::Needed;
pub use noted::Noted;
pub use parts::{FieldParts, MethodParts, ProtoParts, TypeParts};
pub use ranks::Ranks;
pub use row::Row;
