//! Names made from a text, placed in the caller's arena.
//!
//! A text denotes a name as in a listing: `\uXXXX` is one UTF-16 unit, any other ASCII character is itself. A text that denotes
//! no name gives `None`; an error means out of memory.
//!
//! ```
//! use bumpalo::Bump;
//! use dex_names::{method, ty};
//!
//! let arena = Bump::new(alloc);
//! let object = ty(&arena, "Ljava/lang/Object;")?; // Some: a descriptor
//! let get = method(&arena, "LHello;->get(Z)I")?; // Some: a class, a name and a prototype
//! let none = ty(&arena, "java.lang.Object")?; // None: no descriptor
//! ```
//!
//! docs/MAP.md has this crate's place among the others.
#![tactic(auto)]

mod laws;
mod spelled;

pub use laws::{a_text_spells_one_name, written_names_are_spelled};
pub use spelled::{field, method, proto, text, ty};
