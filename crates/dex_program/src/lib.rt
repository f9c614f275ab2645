//! Programs: types whose slices and references lie in the caller's arena, and the rules that a program keeps.
//!
//! ```
//! use dex_program::{Class, Desc, Program, Str, well_formed};
//!
//! let text = Str { units: &[0x4c, 0x41, 0x3b] }; // LA;
//! let class = Class { ty: Desc { text }, flags: 1, superclass: None, interfaces: &[], source: None, statics: &[], values: &[], instances: &[], directs: &[], virtuals: &[] };
//! well_formed(&Program { classes: &[class] })?;
//! ```
//!
//! Its parts: `program_types` (the types, their content, comparisons and shorties), `program_rules` over `code_rules` (the
//! rules of a program, and their faults).
//!
//! docs/MAP.md has this crate's place among the others.
#![tactic(auto)]

pub use program_rules::{well_formed, well_formed_in};
pub use program_types::{
    Catch, Class, Code, Desc, FieldRef, Insn, Member, Method, MethodRef, Name, Program, Proto, Str,
    Try, Value, alloc_descs, alloc_proto, alloc_str, shorty_of,
};
