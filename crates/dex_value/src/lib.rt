//! Encoded values: the initial values of static fields ("Dalvik Executable format": encoded_value, encoded_array).
//!
//! `read_array` reads the encoded_array at an offset of a file, `check_array` checks it and keeps nothing; `put_array` appends one, in
//! the fewest bytes. All satisfy one relation, `specs/Spelling.antt`, in which the names that indices denote are a parameter: for a
//! file those of its tables, for a writer the names by rank.
//!
//! docs/MAP.md has this crate's place among the others.
#![tactic(auto)]

// The bytes of one value: its head, its number or its name.
mod names;
mod numbers;
mod types;

// Values in values, from a file: kept, or only looked at.
mod checking;
mod keeping;
mod reading;

// Values to bytes, in the fewest.
mod widths;
mod writing;

// What crates above rest on.
mod laws;

// What holds of the values of a file.
mod file_laws;

pub use checking::check_array;
pub use file_laws::{
    arrays_are_decided, arrays_carry_over, faults_are_where_no_array_stands,
    names_of_arrays_have_rows, no_array_stands_at_zero, shortest_array_is_one,
};
pub use laws::{
    array_carries_over, array_is_prefix_unique, array_is_short, one_fault, spelled_array_can_be_put,
};
pub use numbers::{number, unsigned};
pub use reading::read_array;
pub use types::{NameType, NumberType, SizedType, name_kind, sized_type};
pub use writing::{make_array, put_array, put_plain, put_unsigned};
