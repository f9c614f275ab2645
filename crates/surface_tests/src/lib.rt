//! The public surface: each call and each type that users are promised, with exactly its signature and, where a call has a condition, exactly
//! that condition. Whoever changes one of them breaks the programs of others, and this crate: a call that asks more isn't proved here, a field of
//! another width, a variant more or another answer doesn't compile.
//!
//! docs/MAP.md has this crate's place among the others.
#![tactic(auto)]

// Numbers, texts, names.
mod bases;
mod insns;
mod programs;

// Files, piece by piece.
mod codes;
mod containers;
mod tables;
mod values;

// Whole files, listings, the command.
mod commands;
mod files;
mod listings;
