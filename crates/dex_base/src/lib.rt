//! What all layers share: faults, and the seed that hashes begin with. Bytes: numbers at a place, LEB128 numbers, the checksum. Texts:
//! MUTF-8 strings and their order, names of members, descriptors. `specs/Grammar.antt` defines how bytes encode a value, for all
//! crates.
//!
//! ```
//! let refusal = Fault::at(fault::MAP_PLACE, 52);
//! let mut number = Vec::new(alloc);
//! put_uleb(&mut number, 300)?; // ac 02
//! let read = read_uleb(&number); // Some((300, 2))
//! let mut text = Vec::new(alloc);
//! put_mutf8(&mut text, &[0x56])?; // 01 56 00
//! let units = read_mutf8(alloc, &arena, &text)?; // Some(([0x56], 3))
//! ```
//!
//! docs/MAP.md has this crate's place among the others.
#![tactic(auto)]

// Refusals.
pub mod fault;
mod fault_names;

// Numbers of fixed width, and of as many bytes as they need.
mod fields;
mod leb128;
mod words;

// The checksum.
mod adler;

// What hashes begin with.
mod seed;

// What holds of numbers, and of one spelling after another.
mod spelling_laws;

// Strings.
mod mutf8;
mod units;
mod width;

// Names.
mod descriptor;
mod simple_name;

// What holds of strings and names.
mod text_laws;

pub use adler::adler32;
pub use descriptor::{descriptor_length, is_array, is_class, is_descriptor};
pub use fault::Fault;
pub use fault_names::{FAULTS, Row, fault_name, fault_sentence};
pub use fields::{are_bytes, put_u16_at, put_u32_at, u16_at, u32_at};
pub use leb128::{put_sleb, put_uleb, read_sleb, read_uleb};
pub use mutf8::{put_mutf8, read_mutf8};
pub use seed::Seed;
pub use simple_name::is_member_name;
pub use spelling_laws::{
    counted_list_is_prefix_unique, number_at_the_front_is_one, numbers_are_decided,
    pair_is_prefix_unique, places_of_numbers_are_decided, shortest_spelling_is_one,
    sleb_is_prefix_unique, uleb_is_prefix_unique,
};
pub use text_laws::{
    class_begins_with_l, descriptor_has_no_parenthesis, descriptor_is_prefix_free,
    member_name_has_no_parenthesis, names_are_decided, packed_text_is_one_text,
    packed_text_is_short, text_is_prefix_unique, texts_are_decided, unit_has_one_spelling,
    unit_is_prefix_unique,
};
pub use units::cmp_units;
pub use width::widen;
pub use words::push_words;
