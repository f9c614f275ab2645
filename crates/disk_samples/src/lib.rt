//! A disk in memory, with calls that fail where they are told to: a `World` whose every clause is proved, for tests. Only test crates stand
//! on it.
//!
//! What a disk holds is what has happened to it: a log, whose room is set aside when it is made. A call that finds no room is out of memory
//! and does nothing, but a name can always be taken away.
//!
//! docs/MAP.md has this crate's place among the others.
#![tactic(auto)]

// What happened, and what that has led to.
mod change;
mod seeing;

// The disk.
mod calls;
mod disk;
mod happening;
mod setting;

pub use calls::{Opened, Readable};
pub use change::{Change, Entry, Outcome};
pub use disk::{Disk, Manner};
