//! FILE as the source of a run.
ghost use Rattle.std.specs.Prelude.{◌≡◌, ◌&&◌, ◌||◌, true, false, cond, is_some, None, Some};
ghost use Rattle.dexasm_world.specs.FileKinds.{IsBarredAt, RefusedFor};
ghost use Rattle.dexasm_world.specs.declared.world.Refusal.{Refusal};

use dexasm_run::Source;
use dexasm_world::{Reading, Refusal, World};
use std::io;

/// A file that is open for reading, as a source: it ends where a read gives nothing, and has failed where one was refused.
#[derive(Drop)]
pub(crate) struct FileSource<'w, W: World> {
    pub(crate) world: &'w W,
    pub(crate) reader: W::Reader,
    pub(crate) has_ended: bool,
    pub(crate) refusal: Option<Refusal>,
}

impl<'w, W: World> FileSource<'w, W> {
    /// What the reader has left.
    pub(crate) fn new(world: &'w W, reader: W::Reader) -> FileSource<'w, W>
        ensures world { result.world.now ≡ world.now }
        ensures reader { result.reader ≡ reader }
        ensures goes_on { result.has_ended ≡ false }
        ensures works { result.refusal ≡ None }
    {
        FileSource {
            world,
            reader,
            has_ended: false,
            refusal: None,
        }
    }
}

impl<W: World> Source for FileSource<'_, W> {
    ghost remaining = { λ s. cond W.is_known (W.Reader.left s.reader) None };

    ghost failed = { λ s. is_some s.refusal };

    ghost ended = { λ s. s.has_ended };

    ghost blames = { λ was is. (refusal : Refusal) × (is.refusal ≡ Some refusal)
        × (W.is_known ≡ true → RefusedFor refusal (IsBarredAt (W.files was.world.now) (W.Reader.place was.reader))) };

    fn take(&mut self, piece: &mut [u8]) -> io::Result<usize> {
        match self.world.read(&mut self.reader, piece) {
            Ok(n) => {
                self.has_ended = self.has_ended || (n == 0 && !piece.is_empty());
                Ok(n)
            }
            Err(refusal) => {
                self.refusal = Some(refusal);
                Err(
                    self.world
                        .error()
                        .unwrap_or(io::Error::from(io::ErrorKind::Other)),
                )
            }
        }
    }

    fn failed(&self) -> bool {
        self.refusal.is_some()
    }

    fn ended(&self) -> bool {
        self.has_ended
    }

    fn error(&self) -> Option<io::Error> {
        self.world.error()
    }
}
