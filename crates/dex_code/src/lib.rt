//! Code items: read, written, and payloads moved to even addresses.
//!
//! ```
//! use dex_code::{addresses, align, fits, put_code, read_code};
//!
//! let code = read_code(alloc, &arena, &tables, &sections, place)?;
//! fits(alloc, &ranks, &code)?;
//! put_code(&mut out, &ranks, &code)?;
//! ```
//!
//! By the law `packed_is_spelled`, `put_code` appends a code item of that code, which `read_code` reads back. By the laws
//! `aligned_exists` and `aligned_is_one` each code has one aligned form, so `align` refuses it only for its length.
//!
//! Its parts: `code_read`, `code_write` (written, and whether a code fits), `code_align`.
//!
//! docs/MAP.md has this crate's place among the others.
#![tactic(auto)]

pub use code_align::{align, aligned_exists, aligned_is_one};
pub use code_read::read_code;
pub use code_write::{addresses, fits, packed_is_spelled, put_code};
