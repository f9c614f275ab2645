//! What a command leaves in the world: on standard output, in OUT, on standard error, and as the exit status.
//!
//! ```text
//! let status = serve(alloc, seed, &words, terminals, &mut world, &mut input, &mut output, &mut errors); // 0 where all is done
//! ```
//!
//! It hands on what a program of your own may be made of: from `dexasm_plan` the reading of a command line, from `dexasm_run` a job over
//! any reader and writer, from `dexasm_world` the job and the files.
//!
//! docs/MAP.md has this crate's place among the others.
#![tactic(auto)]

// A job carried out, of which the words are plain paths or standard streams.
mod carrying;
mod file_source;
mod heap;
mod streams;

// The report of a failure, on a terminal and elsewhere.
mod reporting;
mod shown;
mod terminals;

// A command line carried out, and what holds of its status and of OUT.
mod laws;
mod serving;

pub use carrying::carry_out;
pub use dex_base::Seed;
pub use dexasm_plan::{Plan, plan, usage_status};
pub use dexasm_run::{
    Line, RunFault, Sink, Source, Watched, answer, line_text, run, run_seeded, status, write_all,
};
pub use dexasm_world::{Job, deliver};
pub use laws::{out_is_never_lost, statuses_have_meanings};
pub use reporting::report;
pub use serving::serve;
pub use terminals::Terminals;
