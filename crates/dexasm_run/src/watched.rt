//! A reader or a writer that is watched: whether a call on it failed, and whether it ended.
ghost use Rattle.std.specs.Prelude.{◌≡◌, false};
ghost use Rattle.dexasm_run.specs.Watching.{watched_ended, watched_failed, watched_inner};

use std::io;

/// Any reader as a source, any writer as a sink.
#[derive(Drop)]
pub struct Watched<T> {
    pub(crate) inner: T,
    pub(crate) has_failed: bool,
    pub(crate) has_ended: bool,
    pub(crate) error: Option<io::Error>,
}

impl<T> Watched<T> {
    /// Watches a reader or a writer from here on. Takes no memory.
    ///
    /// ```
    /// use dexasm_run::{Sink, Watched};
    ///
    /// let mut output = Watched::new(Vec::new(alloc));
    /// assert!(rt; output.put(b"ab").is_ok());
    /// assert!(rt; !output.failed());
    /// ```
    pub fn new(inner: T) -> Watched<T>
        ensures inner { watched_inner result ≡ inner }
        ensures works { watched_failed result ≡ false }
        ensures goes_on { watched_ended result ≡ false }
    {
        Watched {
            inner,
            has_failed: false,
            has_ended: false,
            error: None,
        }
    }

    /// The reader or the writer again.
    ///
    /// ```
    /// use dexasm_run::Watched;
    ///
    /// let output: Watched<Vec<u8>> = Watched::new(Vec::new(alloc));
    /// assert!(rt; output.into_inner().is_empty());
    /// ```
    pub fn into_inner(self) -> T
        ensures { result ≡ watched_inner self }
    {
        self.inner
    }
}
