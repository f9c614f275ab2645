//! The jobs of the tool.

/// A job.
#[derive(Clone, Copy, Debug, PartialEq, Eq)]
pub enum Job {
    /// Checks whether the input is a file that means a program: the output is `ok` and a line feed.
    Check,
    /// The listing of a file's program.
    List,
    /// The file of a listed program.
    Assemble {
        /// Whether a nop is put before each payload that would be at an odd address.
        align: bool,
    },
    /// A file's program, written again without what it doesn't need.
    Strip,
}
