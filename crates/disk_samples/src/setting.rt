//! How a disk is set up, and what is seen of it.
ghost use Rattle.std.specs.Prelude.{◌≡◌, ℕ, IfOk, MatchOption, None, Some, true};
ghost use Rattle.disk_samples.specs.Logs.{HoldsAt};
ghost use Rattle.disk_samples.specs.Disks.{files_of};

use crate::change::{Change, Outcome};
use crate::disk::Disk;
use crate::seeing::{bytes_of, mode_of, named, number_at};
use std::alloc::AllocError;

impl Disk {
    /// Puts a file of these bytes and this mode at a name, if there is room for it.
    pub fn store(&mut self, name: &str, bytes: &[u8], mode: u32) -> bool
        ensures { result ≡ true → HoldsAt (files_of self.new).now name.now bytes.now mode }
    {
        let Some(place) = named(self.names, name) else {
            return false;
        };
        let Ok(held) = Vec::from_slice(self.alloc, bytes) else {
            return false;
        };
        let number = self.log.len();
        self.happen(Change::Make(place, number, held, mode), Outcome::Done)
    }

    /// Gives the file that stands at a name another name besides, if there is room for it.
    pub fn link(&mut self, name: &str, other: &str) -> bool
        ensures { result ≡ true → (files_of self.new).now.stands other.now ≡ (files_of self.old).now.stands name.now }
    {
        let Some(place) = named(self.names, other) else {
            return false;
        };
        let Some(number) = number_at(self.log.as_slice(), name) else {
            return false;
        };
        self.happen(Change::Link(place, number), Outcome::Done)
    }

    /// The bytes and the mode of the file that stands at a name.
    pub fn held(&self, name: &str) -> Result<Option<(Vec<u8>, u32)>, AllocError>
        ensures { IfOk result (λ there. MatchOption there ((files_of self.now).now.stands name.now ≡ None)
            (λ held. HoldsAt (files_of self.now).now name.now held.0.items held.1)) }
    {
        let Some(number) = number_at(self.log.as_slice(), name) else {
            return Ok(None);
        };
        match bytes_of(self.alloc, self.log.as_slice(), number) {
            Ok(bytes) => Ok(Some((bytes, mode_of(self.log.as_slice(), number)))),
            Err(error) => Err(error),
        }
    }
}
