//! The jobs of the tool, and the file system, as a trait.
//!
//! ```
//! let job = Job::Assemble { align: true };
//! ```
//!
//! docs/MAP.md has this crate's place among the others.
#![tactic(auto)]

mod delivery;
mod job;
mod possible;
mod put;
mod world;

pub use delivery::deliver;
pub use job::Job;
pub use possible::each_call_is_possible;
pub use put::put_all;
pub use world::{Dress, FileKind, Handle, NotMade, NotReplaced, Reading, Refusal, World};
