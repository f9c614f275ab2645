//! A sink in memory, for callers that need the output itself.
ghost use Rattle.std.specs.Prelude.{◌≡◌, ◌||◌, [], Some, false};
ghost use Rattle.std.specs.Io.{WritesAtMost};
ghost use Rattle.std.specs.Io.KnownBytes.{WriteAppends};
ghost use Rattle.dexasm_run.specs.Ends.{call_failed, moved_none};
ghost use Rattle.dexasm_run.specs.Runs.{WritesAll};
ghost use Rattle.dexasm_run.specs.Watching.{watched_failed, watched_inner};

use crate::error::RunFault;
use crate::sink::Sink;
use crate::watched::Watched;
use std::alloc::Global;
use std::io;

/// A sink that keeps what is put, in memory. It fails where memory runs out.
#[derive(Drop)]
pub struct InMemory {
    kept: Watched<Vec<u8>>,
}

impl InMemory {
    /// A sink that holds nothing. Takes no memory.
    ///
    /// ```
    /// use dexasm_run::{InMemory, Sink};
    ///
    /// let mut output = InMemory::new(alloc);
    /// assert!(rt; output.put(b"ab").is_ok());
    /// assert_eq!(rt; output.into_vec().as_slice(), b"ab".as_slice());
    /// ```
    pub fn new(alloc: Global) -> InMemory
        ensures none { (watched_inner result.kept).items ≡ [] }
        ensures works { watched_failed result.kept ≡ false }
    {
        InMemory {
            kept: Watched::new(Vec::new(alloc)),
        }
    }

    /// What was put.
    ///
    /// ```
    /// use dexasm_run::InMemory;
    ///
    /// assert!(rt; InMemory::new(alloc).into_vec().is_empty());
    /// ```
    pub fn into_vec(self) -> Vec<u8>
        ensures { result ≡ watched_inner self.kept }
    {
        self.kept.into_inner()
    }
}

impl Sink for InMemory {
    ghost contents = { λ s. Some (watched_inner s.kept).items };

    ghost failed = { λ s. watched_failed s.kept };

    fn put(&mut self, piece: &[u8]) -> io::Result<usize> {
        self.kept.put(piece)
    }

    /// Keeps the output itself, without a copy, if nothing was put before.
    fn put_answer(&mut self, answer: Vec<u8>) -> Result<(), RunFault> {
        if self.kept.inner.is_empty() {
            self.kept.inner = answer;
            return Ok(());
        }
        self.put_all(answer.as_slice())
    }

    fn failed(&self) -> bool {
        self.kept.failed()
    }
}
