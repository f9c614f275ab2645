//! Listings: a program as text, both ways.
//!
//! ```
//! use dex_listing::{parse, print};
//!
//! let arena = Bump::new(alloc);
//! let program = parse(alloc, &arena, b"dex 035 listing 2\n")?;
//! let text = print(alloc, &program)?; // parse gives the same program again
//! ```
//!
//! Its parts: `listing_words`, `listing_slots` and `listing_lines` (a line), `listing_parse` (read), `listing_print`
//! (printed), `listing_laws` (what is printed is read again).
//!
//! docs/MAP.md has this crate's place among the others.
#![tactic(auto)]

pub use listing_parse::{a_listing_is_its_lines, parse, parse_seeded};
pub use listing_print::{print, print_1};
