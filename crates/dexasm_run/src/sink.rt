//! The destination of a run: a sink, which knows whether it failed, and any writer as one.
ghost use Rattle.std.specs.Prelude.{◌≡◌, ◌||◌, ℕ, Bool, List, Option, ⊤};
ghost use Rattle.std.specs.Io.{WritesAtMost};
ghost use Rattle.std.specs.Io.KnownBytes.{WriteAppends};
ghost use Rattle.dexasm_run.specs.Ends.{call_failed, moved_by, moved_none};
ghost use Rattle.dexasm_run.specs.Runs.{WritesAll};
ghost use Rattle.dexasm_run.specs.Watching.{watched_failed, watched_inner};

use crate::error::RunFault;
use crate::watched::Watched;
use std::io;
use std::io::Write;

/// A writer that knows whether it failed. Its bytes are those of `Write`.
pub trait Sink {
    // The bytes that it holds, where they are known.
    ghost contents: { Self → Option (List ℕ) };

    // A call on it failed.
    ghost failed: { Self → Bool };

    /// Writes a front of the piece, and returns how many bytes. An error turns `failed` true, and so does a call that
    /// takes no byte of a nonempty piece; nothing else does.
    fn put(&mut self, piece: &[u8]) -> io::Result<usize>
        ensures bound { WritesAtMost result piece.now }
        ensures bytes { WriteAppends (contents self.old) (contents self.new) result piece.now }
        ensures failed { failed self.new ≡ (failed self.old || (call_failed result || moved_none result piece.now)) };

    /// Puts all the bytes, as many at a time as are taken.
    fn put_all(&mut self, made: &[u8]) -> Result<(), RunFault>
        ensures { WritesAll (contents self.old) (contents self.new) (failed self.new) made.now result }
    {
        let mut done = 0;
        while done < made.len() {
            match self.put(&made[done..]) {
                Ok(n) if n > 0 => done += n,
                _ => return Err(RunFault::Output),
            }
        }
        Ok(())
    }

    /// Writes the complete output, which it owns, so that a sink in memory can keep it as it is.
    fn put_answer(&mut self, answer: Vec<u8>) -> Result<(), RunFault>
        ensures { WritesAll (contents self.old) (contents self.new) (failed self.new) answer.items result }
    {
        self.put_all(answer.as_slice())
    }

    /// Whether a `put` has returned an error, or taken no byte of a nonempty piece.
    fn failed(&self) -> bool
        ensures { result ≡ failed self.now };

    /// The last error of a `put`, if the sink keeps it. It is for messages: no clause is about it.
    fn error(&self) -> Option<io::Error> {
        None
    }
}

/// A writer, and what a call on it may do, which is left open as that of a `Reader` is.
pub trait Writer {
    // The bytes that it holds, where they are known.
    ghost held: { Self → Option (List ℕ) };

    // What a call may do: the writer before and after it, the piece, and how many bytes it took, where it didn't fail.
    ghost writes: { Self → Self → List ℕ → Option ℕ → Type 0 };

    /// Writes a front of the piece, and returns how many bytes.
    fn write_piece(&mut self, piece: &[u8]) -> io::Result<usize>
        ensures bound { WritesAtMost result piece.now }
        ensures bytes { WriteAppends (held self.old) (held self.new) result piece.now }
        ensures did { writes self.old self.new piece.now (moved_by result) };
}

impl<W: Write> Writer for W {
    ghost held = { λ w. W.contents w };

    ghost writes = { λ old new piece count. ⊤ };

    fn write_piece(&mut self, piece: &[u8]) -> io::Result<usize> {
        self.write(piece)
    }
}

impl<W: Writer> Sink for Watched<W> {
    ghost contents = { λ s. W.held (watched_inner s) };

    ghost failed = { λ s. watched_failed s };

    fn put(&mut self, piece: &[u8]) -> io::Result<usize>
        ensures bound { WritesAtMost result piece.now }
        ensures bytes { WriteAppends (W.held (watched_inner self.old)) (W.held (watched_inner self.new)) result piece.now }
        ensures failed { watched_failed self.new ≡ (watched_failed self.old || (call_failed result || moved_none result piece.now)) }
        ensures handed_on { W.writes (watched_inner self.old) (watched_inner self.new) piece.now (moved_by result) }
    {
        let taken = self.inner.write_piece(piece);
        match &taken {
            Ok(0) => self.has_failed = self.has_failed || !piece.is_empty(),
            Ok(_) => {}
            Err(error) => {
                self.has_failed = true;
                self.error = Some(*error);
            }
        }
        taken
    }

    fn failed(&self) -> bool {
        self.has_failed
    }

    fn error(&self) -> Option<io::Error> {
        self.error
    }
}
