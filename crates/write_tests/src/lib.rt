//! Tests of files that are written: what is written of a program, what is left of a file, and where a limit refuses.
//!
//! docs/MAP.md has this crate's place among the others.
#![tactic(auto)]

// Programs that keep the rules, written, and what is found in a file.
#[cfg(test)]
mod found;
#[cfg(test)]
mod kept;

// Programs: small ones, bodies at a limit, many names.
#[cfg(test)]
mod bodies;
#[cfg(test)]
mod many;
#[cfg(test)]
mod names;
#[cfg(test)]
mod small;

// Files of rows, and what is left of each.
#[cfg(test)]
mod left;
#[cfg(test)]
mod rows;

// The tests.
#[cfg(test)]
mod hostile;
#[cfg(test)]
mod limits;
#[cfg(test)]
mod stripped;
#[cfg(test)]
mod uses;
#[cfg(test)]
mod whole;
