//! The calls on a disk.
ghost use Rattle.std.specs.Prelude.{◌≡◌, true, string_bytes};
ghost use Rattle.dexasm_world.specs.Steps.{private_mode};
ghost use Rattle.disk_samples.specs.Disks.{files_of};
ghost use Rattle.disk_samples.specs.Apart.{parts_apart};

use crate::change::{Change, Outcome};
use crate::disk::Disk;
use crate::happening::Attempt;
use crate::seeing::{bytes_of, is_shared, mode_of, named, number_at};
use dexasm_world::{Dress, FileKind, Handle, NotMade, NotReplaced, Reading, Refusal, World};
use std::alloc::Global;
use std::io;
use std::io::{Cursor, Read};

/// The modes of new files.
const PRIVATE_MODE: u32 = 0o600;

const NEW_MODE: u32 = 0o644;

/// The mode of a new file.
fn mode_of_new(is_private: bool) -> u32
    ensures { is_private ≡ true → result ≡ private_mode }
{
    if is_private { PRIVATE_MODE } else { NEW_MODE }
}

/// A file that is open for writing, by its number.
#[derive(Drop)]
pub struct Opened(usize);

impl Handle for Opened {
    ghost number = { λ f. f.0 };
}

/// A file that is open for reading: what it held, and its place.
#[derive(Drop)]
pub struct Readable {
    held: Cursor<Vec<u8>>,
    place: String,
}

impl Reading for Readable {
    ghost left = { λ r. ⟦<Cursor<Vec<u8>> as Read>⟧.remaining r.held };

    ghost place = { λ r. string_bytes r.place };
}

impl World for Disk {
    type File = Opened;

    type Reader = Readable;

    ghost is_known = { true };

    ghost files = { files_of };

    ghost apart = { λ world path n known one other. parts_apart path n };

    fn kind_of(&self, path: &str) -> Result<FileKind, Refusal> {
        let Some(number) = number_at(self.log.as_slice(), path) else {
            return Err(Refusal::Missing);
        };
        let dress = Dress {
            mode: mode_of(self.log.as_slice(), number),
            user: 0,
            group: 0,
        };
        if is_shared(self.log.as_slice(), self.names, path, number) {
            Ok(FileKind::Shared(dress))
        } else {
            Ok(FileKind::Alone(dress))
        }
    }

    fn target(&self, alloc: Global, path: &str) -> Result<String, Refusal> {
        if number_at(self.log.as_slice(), path).is_none() {
            return Err(Refusal::Missing);
        }
        match String::from_str(alloc, path) {
            Ok(target) => Ok(target),
            Err(_) => Err(Refusal::Memory),
        }
    }

    fn may_write(&self, _path: &str) -> bool {
        true
    }

    fn open(&self, path: &str) -> Result<Readable, Refusal> {
        let Some(number) = number_at(self.log.as_slice(), path) else {
            return Err(Refusal::Missing);
        };
        let Ok(bytes) = bytes_of(self.alloc, self.log.as_slice(), number) else {
            return Err(Refusal::Memory);
        };
        match String::from_str(self.alloc, path) {
            Ok(place) => Ok(Readable {
                held: Cursor::new(bytes),
                place,
            }),
            Err(_) => Err(Refusal::Memory),
        }
    }

    fn read(&self, reader: &mut Readable, piece: &mut [u8]) -> Result<usize, Refusal> {
        match reader.held.read(piece) {
            Ok(n) => Ok(n),
            Err(_) => Err(Refusal::Memory),
        }
    }

    fn make(&mut self, path: &str, is_private: bool) -> Result<Opened, NotMade> {
        if number_at(self.log.as_slice(), path).is_some() {
            return Err(NotMade::Taken);
        }
        if self.manner.is_closed {
            return Err(NotMade::Closed);
        }
        let Some(place) = named(self.names, path) else {
            return Err(NotMade::Closed);
        };
        let number = self.log.len();
        let mode = mode_of_new(is_private);
        let change = Change::Make(place, number, Vec::new(self.alloc), mode);
        match self.call(change, Outcome::MayHaveLeft) {
            Ok(()) => Ok(Opened(number)),
            Err(refusal) => Err(NotMade::Failed(refusal)),
        }
    }

    fn dress(&mut self, file: &Opened, dress: Dress) -> Result<(), Refusal> {
        self.call(Change::Dress(file.0, dress.mode), Outcome::Failed)
    }

    /// Takes half of the piece, rounded up.
    fn put(&mut self, file: &mut Opened, piece: &[u8]) -> Result<usize, Refusal> {
        let n = piece.len() - piece.len() / 2;
        let Ok(front) = Vec::from_slice(self.alloc, &piece[..n]) else {
            return Err(Refusal::Memory);
        };
        match self.call(Change::Write(file.0, front), Outcome::Failed) {
            Ok(()) => Ok(n),
            Err(refusal) => Err(refusal),
        }
    }

    fn keep(&mut self, file: &mut Opened) -> Result<(), Refusal> {
        self.call(Change::Keep(file.0), Outcome::Failed)
    }

    fn replace(&mut self, from: &str, to: &str) -> Result<(), NotReplaced> {
        if self.manner.is_fixed {
            return Err(NotReplaced::Fixed);
        }
        let Some(number) = number_at(self.log.as_slice(), from) else {
            return Err(NotReplaced::Failed(self.refuse()));
        };
        let Some(old) = named(self.names, from) else {
            return Err(NotReplaced::Failed(self.refuse()));
        };
        let Some(new) = named(self.names, to) else {
            return Err(NotReplaced::Failed(self.refuse()));
        };
        match self.call(Change::Move(old, new, number), Outcome::Failed) {
            Ok(()) => Ok(()),
            Err(refusal) => Err(NotReplaced::Failed(refusal)),
        }
    }

    /// Where nothing stands there is nothing to take away.
    fn remove(&mut self, path: &str) -> Result<(), Refusal> {
        if number_at(self.log.as_slice(), path).is_none() {
            return Ok(());
        }
        let Some(place) = named(self.names, path) else {
            return Ok(());
        };
        match self.attempt(Change::Remove(place), Outcome::MayHaveLeft) {
            Attempt::Success => Ok(()),
            Attempt::Failure => Err(Refusal::Other),
            Attempt::NoSpace => {
                self.take_away(place);
                Ok(())
            }
        }
    }

    fn begin(&mut self, path: &str) -> Result<Opened, Refusal> {
        if let Some(number) = number_at(self.log.as_slice(), path) {
            return match self.call(Change::Empty(number), Outcome::Failed) {
                Ok(()) => Ok(Opened(number)),
                Err(refusal) => Err(refusal),
            };
        }
        if self.manner.is_closed {
            return Err(self.refuse());
        }
        let Some(place) = named(self.names, path) else {
            return Err(self.refuse());
        };
        let number = self.log.len();
        let change = Change::Make(place, number, Vec::new(self.alloc), NEW_MODE);
        match self.call(change, Outcome::Failed) {
            Ok(()) => Ok(Opened(number)),
            Err(refusal) => Err(refusal),
        }
    }

    /// No system is asked here.
    fn error(&self) -> Option<io::Error> {
        None
    }
}
