//! Raw Dalvik instructions: the opcode table of version 035, one instruction read from the units of a code, and one written.
//!
//! ```
//! let insn = read_insn(&[0x12, 0xf0], 0)?; // const/4 v0, -1
//! assert_eq!(rt; size_of(&insn), 1);
//! put_insn(&mut out, &RawInsn::I11n { op: 0x12, a: 0, b: -1 })?; // appends 12 f0
//! ```
//!
//! docs/MAP.md has this crate's place among the others.
#![tactic(auto)]

// The opcode table, and what an instruction is.
mod opcode;
mod opcodes;
mod raw;

// The columns of the table, and the way back from a mnemonic.
mod columns;
mod named;

// Reading: from units to an instruction.
mod flaw;
mod payload;
mod plain;
mod read;
mod registers;
mod size;
mod take;
mod units;

// Writing: from an instruction to units.
mod put;
mod put_payload;
mod put_units;

// What holds of every table row, and of whatever stands at a unit.
mod laws;
mod table_laws;

pub use columns::{format_of, index_kind_of, mnemonic_of};
pub use laws::{
    after_is_free, clear_where_one_stands, one_fault, one_stands, one_stands_or_none,
    payloads_by_identifier, rules_are_kept, two_bytes_a_unit, what_stands_can_be_written,
    whole_where_one_stands, written_stands,
};
pub use named::opcode_named;
pub use opcode::{Format, IndexKind, Opcode};
pub use opcodes::OPCODES;
pub use put::put_insn;
pub use raw::RawInsn;
pub use read::{read_insn, take_insn};
pub use registers::top_register;
pub use size::size_of;
pub use table_laws::{
    indices_have_a_kind, mnemonics_are_plain, mnemonics_differ, used_opcodes_are_named,
};
pub use take::Take;
