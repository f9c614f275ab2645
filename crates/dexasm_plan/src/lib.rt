//! The words of a command line, parsed to the job that they request.
//!
//! ```text
//! plan(alloc, &["dexasm", "assemble", "a.txt", "--align", "--output", "a.dex"])?
//! // Plan { job: Job::Assemble { align: true }, file: Some("a.txt"), output: Some("a.dex") }
//! ```
//!
//! docs/MAP.md has this crate's place among the others.
#![tactic(auto)]

mod command;
mod laws;
mod planned;
mod reading;
mod texts;

pub use laws::lines_are_taken;
pub use planned::Plan;
pub use reading::{plan, usage_status};
