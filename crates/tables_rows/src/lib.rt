//! The five tables of names, string_ids to method_ids, read from a file, and what holds of their rows in every file.
//!
//! ```
//! let tables = Tables::read(alloc, &arena, &open(bytes)?)?;
//! let name = tables.string(3); // the text of row 3
//! ```
//!
//! docs/MAP.md has this crate's place among the others.
#![tactic(auto)]

// The fields of a row.
mod row_fields;

// The five tables, and what their rows have in common.
mod field_ids;
mod kinds;
mod look_up;
mod members;
mod method_ids;
mod names;
mod proto_ids;
mod string_ids;
mod tables;
mod type_ids;
mod type_list;

// What holds of the rows, and of the tables of every file.
mod file_laws;
mod row_laws;

pub use file_laws::{
    lists_of_a_file_are_of_its_rows, names_of_a_file_are_its_rows, type_list_is_one,
};
pub use row_fields::{
    MemberTable, member_class, member_kind, member_name, proto_parameters, proto_return,
    proto_shorty, type_string,
};
pub use row_laws::{
    clear_rows_hold, one_table_fault, row_denotes_one_name, rows_break_one_rule,
    rows_that_hold_are_clear, rows_that_hold_keep_the_rules, tables_are_decided,
    tables_hold_without_fault,
};
pub use tables::Tables;
pub use type_list::indexes_or_none;
