//! Tests of bytes, instructions, programs and listings, without files: dex_base, dex_insn, program_types, tables_names, program_rules and the
//! listing crates.
//!
//! docs/MAP.md has this crate's place among the others.
#![tactic(auto)]

// dex_base
#[cfg(test)]
mod checksums;
#[cfg(test)]
mod descriptors;
#[cfg(test)]
mod fault_names;
#[cfg(test)]
mod fields;
#[cfg(test)]
mod leb128;
#[cfg(test)]
mod mutf8;
#[cfg(test)]
mod units;

// dex_insn
#[cfg(test)]
mod insns_read;
#[cfg(test)]
mod insns_refused;
#[cfg(test)]
mod opcodes;
#[cfg(test)]
mod registers;

// program_types
#[cfg(test)]
mod depths;
#[cfg(test)]
mod orders;
#[cfg(test)]
mod placing;
#[cfg(test)]
mod sets;
#[cfg(test)]
mod shorties;

// tables_names
#[cfg(test)]
mod needed;
#[cfg(test)]
mod ranks_shown;

// program_rules
#[cfg(test)]
mod rules;

// listing_parse and listing_print
#[cfg(test)]
mod listing_faults;
#[cfg(test)]
mod listing_hostile;
#[cfg(test)]
mod listing_names;
#[cfg(test)]
mod listing_texts;
