//! A disk, by what happened to it.
ghost use Rattle.std.specs.Prelude.{◌+◌, ◌≤◌, length, vec_capacity};
ghost use Rattle.disk_samples.specs.Logs.{AreAtNames, AreMadeBefore, standing, state_of};

use crate::change::Entry;
use std::alloc::{AllocError, Global};

/// What a disk is like, and which of its calls fail.
#[derive(Clone, Copy, Debug)]
pub struct Manner {
    /// Folders take no new file.
    pub is_closed: bool,
    /// Nothing can be put in a file's place.
    pub is_fixed: bool,
    /// The first call that fails, counted from 0, of those that change files.
    pub fails_at: u64,
    /// How many calls fail in a row.
    pub failures: u64,
    /// A call that fails has done its work.
    pub is_late: bool,
}

impl Manner {
    /// A disk on which each call does what it is for.
    pub const SOUND: Manner = Manner {
        is_closed: false,
        is_fixed: false,
        fails_at: 0,
        failures: 0,
        is_late: false,
    };

    /// Whether the call of this number is to fail.
    pub(crate) fn is_failing(self, call: u64) -> bool {
        call >= self.fails_at && call - self.fails_at < self.failures
    }
}

/// A disk in memory, on which each path is a place of its own, and files can stand at some names alone.
#[derive(Drop)]
pub struct Disk {
    pub(crate) alloc: Global,
    pub(crate) names: &'static [&'static str],
    pub(crate) manner: Manner,
    pub(crate) calls: u64,
    pub(crate) log: Vec<Entry>,
    ghost numbered: { AreMadeBefore log.items },
    ghost named: { AreAtNames names.now log.items },
    // There is room to take each name away.
    ghost room: { standing (state_of log.items).stands names.now + length log.items ≤ vec_capacity log },
}

impl Disk {
    ghost use Rattle.std.specs.Prelude.{IfOk};
    ghost use Rattle.disk_samples.specs.Disks.{IsUntouched};

    /// An empty disk, whose log has room for so many entries.
    pub fn new(
        alloc: Global,
        names: &'static [&'static str],
        manner: Manner,
        room: usize,
    ) -> Result<Disk, AllocError>
        ensures { IfOk result (IsUntouched names.now manner room) }
    {
        let mut log = Vec::new(alloc);
        log.reserve(room)?;
        Ok(Disk {
            alloc,
            names,
            manner,
            calls: 0,
            log,
        })
    }
}
