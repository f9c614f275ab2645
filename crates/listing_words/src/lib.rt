//! The words of a listing: plain words, texts in quotes, numbers and names, as they are read and as they are written.
//!
//! A line of a listing is ASCII. Its words are separated by spaces; a word that begins with a quote is a text, whose units
//! may be escaped as `\uXXXX`. A plain word is a slice of the line, and its value is read from it: a number, the bits
//! of a float, a descriptor, a field, a method or a prototype, whose grammar is that of the page "Dalvik Executable format".
//!
//! ```text
//! read_words(arena, b"source \"A\\u00e9\"", &mut words)?   // true: `source`, and the text of the units 0x41, 0xe9
//! read_natural(b"0x1f", 255)                              // Some(31)
//! put_flags(&mut out, 31)?                                // appends `0x1f`
//! ```
//!
//! docs/MAP.md has this crate's place among the others.
#![tactic(auto)]

mod bits;
mod cut;
mod labels;
mod laws;
mod names;
mod numbers;
mod plain;
mod print;
mod print_hex;
mod print_names;
mod runs;
mod texts;
mod words;

pub use bits::{read_bits, read_elements};
pub use cut::split_before;
pub use labels::{is_natural, is_number};
pub use laws::{words_are_read_one_way, written_words_are_read_again};
pub use names::{read_field, read_method, read_name, read_proto};
pub use numbers::read_natural;
pub use print::put_text;
pub use print_hex::{put_elements, put_flags, put_hex};
pub use print_names::{put_field, put_method, put_name, put_proto};
pub use words::{Word, after_spaces, is_plain_word, read_words};
