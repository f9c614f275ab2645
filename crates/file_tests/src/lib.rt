//! Tests of files: their frame, their tables, their values, their code, whole files.
//!
//! docs/MAP.md has this crate's place among the others.
#![tactic(auto)]

// How a case is made, and what is told of it.
#[cfg(test)]
mod fault_case;
#[cfg(test)]
mod made;
#[cfg(test)]
mod named_rows;

// dex_container
#[cfg(test)]
mod frame;
#[cfg(test)]
mod sections;

// file_layout
#[cfg(test)]
mod laid;

// tables_rows
#[cfg(test)]
mod table_faults;
#[cfg(test)]
mod table_orders;
#[cfg(test)]
mod tables;

// dex_value
#[cfg(test)]
mod value_faults;
#[cfg(test)]
mod values;
#[cfg(test)]
mod values_put;
#[cfg(test)]
mod values_read;

// code_read, code_write and code_align
#[cfg(test)]
mod codes_as_numbers;
#[cfg(test)]
mod codes_put;
#[cfg(test)]
mod codes_read;

// file_read
#[cfg(test)]
mod class_faults;
#[cfg(test)]
mod class_read;
#[cfg(test)]
mod code_faults;
#[cfg(test)]
mod files;
#[cfg(test)]
mod hostile;
