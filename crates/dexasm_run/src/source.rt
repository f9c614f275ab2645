//! The input of a run: a source, which knows whether it failed and whether it ended, and any reader as one.
ghost use Rattle.std.specs.Prelude.{◌≡◌, ◌||◌, ℕ, Bool, List, Option, ⊤, IfErr, OnOk};
ghost use Rattle.std.specs.Io.{ReadsAtMost};
ghost use Rattle.std.specs.Io.KnownBytes.{ReadConsumes};
ghost use Rattle.dexasm_run.specs.Ends.{call_failed, moved_by, moved_none};
ghost use Rattle.dexasm_run.specs.Watching.{watched_ended, watched_failed, watched_inner};

use crate::watched::Watched;
use std::io;
use std::io::Read;

/// A reader that knows whether it failed and whether it ended. Its bytes are those of `Read`.
pub trait Source {
    // The bytes that are left, where they are known.
    ghost remaining: { Self → Option (List ℕ) };

    // A call on it failed.
    ghost failed: { Self → Bool };

    // A call on it met its end.
    ghost ended: { Self → Bool };

    // What it says of a call that failed, as it was before and as it is: nothing, unless an `impl` says why.
    ghost blames: { Self → Self → Type 0 } = { λ _ _. ⊤ };

    /// Reads bytes into the piece, and returns how many. An error, an interruption too, turns `failed` true; no byte
    /// for a nonempty piece turns `ended` true; nothing else does.
    fn take(&mut self, piece: &mut [u8]) -> io::Result<usize>
        ensures bound { ReadsAtMost result piece.new }
        ensures bytes { ReadConsumes (remaining self.old) (remaining self.new) result piece.new }
        ensures failed { failed self.new ≡ (failed self.old || call_failed result) }
        ensures ended { ended self.new ≡ (ended self.old || moved_none result piece.old) }
        ensures blames { IfErr result (λ _. blames self.old self.new) }
        ensures passes { OnOk result ((later : Self) → blames self.new later → blames self.old later) };

    /// Whether a `take` has returned an error.
    fn failed(&self) -> bool
        ensures { result ≡ failed self.now };

    /// Whether a `take` has given no byte for a nonempty piece.
    fn ended(&self) -> bool
        ensures { result ≡ ended self.now };

    /// The last error of a `take`, if the source keeps it. It is for messages: no clause is about it.
    fn error(&self) -> Option<io::Error> {
        None
    }
}

/// A reader, and what a call on it may do. That is left open here: so what is proved of any `Reader` can only have made the call, and pass
/// on what it did.
pub trait Reader {
    // The bytes that are left, where they are known.
    ghost left: { Self → Option (List ℕ) };

    // What a call may do: the reader before and after it, the piece after it, and how many bytes it gave, where it didn't fail.
    ghost reads: { Self → Self → List ℕ → Option ℕ → Type 0 };

    /// Reads bytes into the piece, and returns how many.
    fn read_piece(&mut self, piece: &mut [u8]) -> io::Result<usize>
        ensures bound { ReadsAtMost result piece.new }
        ensures bytes { ReadConsumes (left self.old) (left self.new) result piece.new }
        ensures did { reads self.old self.new piece.new (moved_by result) };
}

impl<R: Read> Reader for R {
    ghost left = { λ r. R.remaining r };

    ghost reads = { λ old new piece count. ⊤ };

    fn read_piece(&mut self, piece: &mut [u8]) -> io::Result<usize> {
        self.read(piece)
    }
}

impl<R: Reader> Source for Watched<R> {
    ghost remaining = { λ s. R.left (watched_inner s) };

    ghost failed = { λ s. watched_failed s };

    ghost ended = { λ s. watched_ended s };

    fn take(&mut self, piece: &mut [u8]) -> io::Result<usize>
        ensures bound { ReadsAtMost result piece.new }
        ensures bytes { ReadConsumes (R.left (watched_inner self.old)) (R.left (watched_inner self.new)) result piece.new }
        ensures failed { watched_failed self.new ≡ (watched_failed self.old || call_failed result) }
        ensures ended { watched_ended self.new ≡ (watched_ended self.old || moved_none result piece.old) }
        ensures handed_on { R.reads (watched_inner self.old) (watched_inner self.new) piece.new (moved_by result) }
    {
        let taken = self.inner.read_piece(piece);
        match &taken {
            Ok(0) => self.has_ended = self.has_ended || !piece.is_empty(),
            Ok(_) => {}
            Err(error) => {
                self.has_failed = true;
                self.error = Some(*error);
            }
        }
        taken
    }

    fn failed(&self) -> bool {
        self.has_failed
    }

    fn ended(&self) -> bool {
        self.has_ended
    }

    fn error(&self) -> Option<io::Error> {
        self.error
    }
}
