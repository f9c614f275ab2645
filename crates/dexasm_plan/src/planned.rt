//! What is to be done.

use dexasm_world::Job;

/// A job, and the words that name the file that it reads and the file that it writes, where the command line has them.
#[derive(Clone, Copy, Debug)]
pub struct Plan<'w> {
    /// The job that is requested.
    pub job: Job,
    /// FILE, of what is read.
    pub file: Option<&'w str>,
    /// OUT, of what is written.
    pub output: Option<&'w str>,
}
