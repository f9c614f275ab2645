//! What happens on a disk.

/// What happened to the files. A file has a number of its own, and a place is a path.
#[derive(Drop)]
pub enum Change {
    /// Nothing.
    Nothing,
    /// A file of this number, these bytes and this mode was made at a place.
    Make(&'static str, usize, Vec<u8>, u32),
    /// A file got another place besides.
    Link(&'static str, usize),
    /// A file got more bytes.
    Write(usize, Vec<u8>),
    /// A file was emptied.
    Empty(usize),
    /// A file got a mode.
    Dress(usize, u32),
    /// The disk got what a file holds.
    Keep(usize),
    /// A file went from the first place to the second.
    Move(&'static str, &'static str, usize),
    /// Nothing stands at a place any more.
    Remove(&'static str),
}

/// How the call ended that changed the files.
#[derive(Clone, Copy, Debug)]
pub enum Outcome {
    /// It did what it was for.
    Done,
    /// It failed.
    Failed,
    /// It failed, and may have left a name there.
    MayHaveLeft,
}

/// One entry of a disk's log.
#[derive(Drop)]
pub struct Entry {
    pub change: Change,
    pub outcome: Outcome,
}
