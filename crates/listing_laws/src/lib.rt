//! The laws of listings: what is printed of a program is read again, as that program; which words are read as a value;
//! what may be given once.
//!
//! A text of whole lines takes the reader from one state to another, whatever follows it; two texts in turn do so as one text. So the
//! lines of a code, of a class and of a program are taken one by one.
//!
//! docs/MAP.md has this crate's place among the others.
#![tactic(auto)]

mod laws;
mod twice_laws;
mod values;

pub use laws::what_is_printed_is_read_again;
pub use twice_laws::only_what_is_given_twice_is_refused;
pub use values::values_are_spelled;
