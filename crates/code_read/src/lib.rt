//! Code items, read or only checked: a method's instructions and tries, at a byte offset of a file. The units of the instructions are
//! walked once, end to end, and linked: an index becomes a name, and an offset the number of its target instruction. Then branches,
//! payloads and switches are checked for the rules of programs. Tries and their handlers follow, and registers come last.
//!
//! ```text
//! let tables = Tables::read(alloc, &arena, &sections)?;
//! let code = read_code(alloc, &arena, &tables, &sections, 0x1c0)?; // the code item at byte 448
//! let first = code.insns[0]; // const/4 v0, -1 is `I11n { op: 0x12, a: 0, b: -1 }`
//! ```
//!
//! docs/MAP.md has this crate's place among the others.
#![tactic(auto)]

// The instructions, end to end, and from their addresses to their numbers.
mod places;
mod walking;

// From raw instructions to symbolic ones.
mod names;
mod plain;
mod symbols;
mod targets;

// All instructions of a code: checked, read, and their laws.
mod insn_laws;
mod insns;
mod visiting;

// The fixed parts of a code item, its tries and handlers.
mod handlers;
mod item;
mod tries;

// A whole code item: kept or only checked, and its laws and those of all code items of a file.
mod file_laws;
mod item_laws;
mod keeping;
mod reading;

pub use file_laws::{
    codes_are_decided, codes_carry_over, names_of_codes_have_rows, no_code_stands_at_zero,
    standing_codes_are_formed,
};
pub use handlers::{read_number, read_signed};
pub use insn_laws::{
    insns_are_spelled_by_address, insns_break_one_rule, linked_registers_are_named,
    offsets_target_by_address,
};
pub use item::{Item, item_of};
pub use item_laws::{
    broken_code_is_none, code_carries_over, code_is_one, code_is_prefix_unique, one_fault,
};
pub use places::{below, number_at};
pub use reading::{Body, check_body, read_body, read_code};
