//! The complete output of each job, and a job run over any reader and any writer: all is read, the output is made, then it is written.
//!
//! ```text
//! answer(alloc, Job::Check, bytes)?                     // `ok` and a line feed, where the bytes are a file
//! answer(alloc, Job::List, bytes)?                      // the listing of the file's program
//! answer(alloc, Job::Assemble { align: false }, text)?  // the file of the listed program
//! ```
//!
//! docs/MAP.md has this crate's place among the others.
#![tactic(auto)]

// The output of each job, and its laws.
mod answers;
mod laws;

// A job run over a reader and a writer, and how it ends.
mod error;
mod in_memory;
mod running;
mod sink;
mod source;
mod watched;

pub use answers::{answer, answer_seeded};
pub use error::{Line, RunFault, line_text, status};
pub use in_memory::InMemory;
pub use laws::{listed_and_assembled_is_stripped, one_answer, one_outcome};
pub use running::{run, run_seeded, write_all};
pub use sink::{Sink, Writer};
pub use source::{Reader, Source};
pub use watched::Watched;
