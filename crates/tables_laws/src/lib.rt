//! What holds of the names in the tables of every file, beside those that a program needs: they rise, with each its parts are there, and a
//! file that has a row for each name that a program mentions has one for each that the program needs. Laws alone.
//!
//! docs/MAP.md has this crate's place among the others.
#![tactic(auto)]

mod laws;

pub use laws::{
    files_are_no_shorter, files_hold_needed, names_are_closed, names_compare_as_rows, names_rise,
    needed_has_rows, row_of_a_name_is_one, tables_have_names, unions_hold_both,
};
