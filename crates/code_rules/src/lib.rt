//! The rules of a program's code, by the numbers of its instructions (`specs/CodeRules.antt`). The code of a file is checked for those of
//! branches, payloads, switches and registers too, once it is linked.
//!
//! ```text
//! code_holds(CodeRule::Target, code) // whether all branches and switches target instructions
//! payloads_hold_in(alloc, code)? // the rule of payloads, in time that grows with the code
//! ```
//!
//! docs/MAP.md has this crate's place among the others.
#![tactic(auto)]

mod operands;
mod origins;
mod payloads;
mod registers;
mod rule;
mod targets;
mod tries;

pub use origins::origins_of;
pub use payloads::{first_bad_use, payloads_hold_in};
pub use registers::{first_past, insn_is_among};
pub use rule::{CodeRule, code_holds};
pub use targets::{branch_lands, branch_stays, first_bad_branch, first_bad_switch};
