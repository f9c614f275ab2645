//! Code items, written: where the instructions of a code begin, whether it fits a file's fields, and its bytes.
//!
//! ```text
//! let all = addresses(alloc, &code)?; // [0, 1, 3]: two instructions, of one and of two units
//! fits(alloc, &ranks, &code)?; // refused where an index, an offset or a count is too large for its field
//! put_code(&mut out, &ranks, &code)?; // appends the code item
//! ```
//!
//! docs/MAP.md has this crate's place among the others.
#![tactic(auto)]

// Where the instructions begin.
mod begins;
mod sizes;

// The instructions, from symbolic ones to units.
mod insns;
mod lowering;
mod mentioned;
mod payloads;

// Handlers and the fixed parts of an item, as bytes.
mod handlers;
mod items;

// A whole code item, and what holds of it.
mod code_laws;
mod writing;

// Whether a code fits: its indices, offsets and tries, all of it, and what holds of that.
mod fit_laws;
mod fitting;
mod names;
mod offsets;
mod tries;

pub use code_laws::{
    lowered_is_spelled, packed_is_one, packed_is_short, packed_is_spelled, packed_tries_are_spelled,
};
pub use fit_laws::code_limits_are_decided;
pub use fitting::fits;
pub use handlers::{Distinct, Laid, lay_distinct, number_of};
pub use items::{put_padding, put_u16, put_u32};
pub use mentioned::mentions_in;
pub use sizes::{addresses, units_of};
pub use writing::{make_item, put_code};
