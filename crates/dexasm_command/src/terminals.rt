//! Which streams people read.

/// Which of the standard streams are terminals.
#[derive(Clone, Copy, Debug)]
pub struct Terminals {
    /// Standard output: a .dex file isn't for it.
    pub output: bool,
    /// Standard error: a failure's line is followed by another one, which explains it.
    pub errors: bool,
}
