//! A line's words. The first ones determine its shape: the kind of line, and a slot for each word after them. A slot determines which
//! words it takes, their values and how they are printed.
//!
//! ```text
//! read_shape(words of `try @0 @5`, &mut slots)?   // Found { kind: Kind::Try, lead: 1, .. }, and slots for two targets
//! read_shape(words of `try @0`, &mut slots)?      // None
//! read_operands(spelled, arena, &[Slot::Byte(Mark::Register, 15), Slot::Short], words, &mut data)?
//! // None, and data is [Byte(3), Short(-1)], for the words `v3 -1`; Some(102), Number, for `v16 -1`
//! ```
//!
//! docs/MAP.md has this crate's place among the others.
#![tactic(auto)]

// Slots: the value of a word in each, how a value is printed, and the laws of both.
mod datum;
mod key;
mod name_parts;
mod numbers;
mod put;
mod read;
mod slot;
mod spelled;
mod word_laws;

// Shapes: what a line is, its slots, and what holds of them.
mod due;
mod forms;
mod found;
mod kind;
mod shape;
mod shape_laws;
mod values;

pub use datum::{
    Datum, byte_of, datum_at, elements_of, half_of, int_of, long_of, name_of, proto_of, short_of,
    text_of, tiny_of, type_of, word_of,
};
pub use forms::name_slot;
pub use found::Found;
pub use key::{Key, is_same, key_text};
pub use kind::Kind;
pub use numbers::{read_marked, read_signed};
pub use put::{
    put_bits, put_decimal, put_elements, put_field, put_flags, put_key, put_method, put_name,
    put_number, put_proto, put_register, put_signed, put_target, put_text,
};
pub use read::{fault_of, read_datum, read_operands};
pub use shape::{read_bare_shape, read_shape};
pub use shape_laws::{words_have_one_bare_shape, words_have_one_shape};
pub use slot::{Mark, Slot};
pub use spelled::Spelled;
pub use word_laws::{printed_words_are_read_again, words_have_one_value};
