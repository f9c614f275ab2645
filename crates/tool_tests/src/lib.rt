//! Tests of the tool: what the words ask for, what a run of each job answers, and what is told of failures.
//!
//! docs/MAP.md has this crate's place among the others.
#![tactic(auto)]

#[cfg(test)]
mod files;
#[cfg(test)]
mod given;
#[cfg(test)]
mod listings;

// dexasm_plan
#[cfg(test)]
mod plans;

// dexasm_run
#[cfg(test)]
mod jobs;
#[cfg(test)]
mod ran;
#[cfg(test)]
mod rich;
#[cfg(test)]
mod runs;
#[cfg(test)]
mod runs_failing;

// dexasm_world, dexasm_command
#[cfg(test)]
mod commands;
#[cfg(test)]
mod deliveries;
