//! The five tables of names: those of a file, and those that a program needs, with their ranks.
//!
//! ```
//! use dex_tables::{Needed, Tables};
//!
//! let tables = Tables::read(alloc, &arena, &sections)?;
//! let mut needed = Needed::new(alloc);
//! needed.add_string(tables.string(0).unwrap())?;
//! needed.freeze()?.string(0); // the empty string or the least of the others
//! ```
//!
//! Two laws of [`Row`], which hold for all five kinds of names: `names_compare_as_rows` (in a file, names compare as their indices) and
//! `index_is_at_least_rank` (a name's index in a file is at least its rank among the needed names).
//!
//! Its parts: `tables_rows` (a file's tables), `tables_names` (needed names and ranks), `tables_laws`.
//!
//! docs/MAP.md has this crate's place among the others.
#![tactic(auto)]

pub use tables_laws::names_compare_as_rows;
pub use tables_names::{
    FieldParts, MethodParts, Needed, Noted, ProtoParts, Ranks, Row, TypeParts,
    index_is_at_least_rank,
};
pub use tables_rows::Tables;
