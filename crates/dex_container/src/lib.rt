//! The frame of a file: header, map and checksums.
//!
//! `open(bytes)` checks it and returns its `Sections`; `close(&mut bytes)` fills in signature and checksum.
//!
//! docs/MAP.md has this crate's place among the others.
#![tactic(auto)]

mod closing;
mod entry;
mod fields;
mod header;
mod header_item;
pub mod kind;
mod laws;
mod map;
mod opening;
mod section;
mod sections;
mod sums;

pub use closing::close;
pub use laws::{clear_where_framed, framed_without_fault, one_fault, section_is_one};
pub use opening::{Sections, open};
pub use section::{Section, bytes_from, section_of};
