//! What a call does to a disk.
ghost use Rattle.std.specs.Prelude.{[], ◌≡◌, ◌≤◌, ◌<◌, ◌⊎◌, ◌∷◌, ◌++◌, MatchBool, is_some, true, vec_capacity, vec_len};
ghost use Rattle.disk_samples.specs.Logs.{IsFit, state_of};
ghost use Rattle.disk_samples.specs.Disks.{Attempts, Calls, Gains, TurnsDown, Stays};

use crate::change::{Change, Entry, Outcome};
use crate::disk::Disk;
use dexasm_world::Refusal;

/// What came of an attempt at a change.
#[derive(Clone, Copy)]
pub(crate) enum Attempt {
    Success,
    Failure,
    NoSpace,
}

impl Disk {
    /// One entry more, where there is room for it and for taking each name away then.
    pub(crate) fn happen(&mut self, change: Change, outcome: Outcome) -> bool
        requires { IsFit self.old.names.now self.old.log.items change }
        ensures { MatchBool result (Gains self.old self.new (record { change = change; outcome = outcome })) (Stays self.old self.new) }
    {
        if self.log.capacity() - self.log.len() <= self.names.len() {
            return false;
        }
        add_entry(&mut self.log, change, outcome);
        true
    }

    /// Makes the change, or fails, where this call is to fail, before it or after it.
    pub(crate) fn attempt(&mut self, change: Change, failure: Outcome) -> Attempt
        requires { IsFit self.old.names.now self.old.log.items change }
        ensures { Attempts change failure self.old self.new result }
    {
        let call = self.calls;
        self.calls = call.wrapping_add(1);
        if self.manner.is_failing(call) {
            return self.fail(change, failure);
        }
        if self.happen(change, Outcome::Done) {
            Attempt::Success
        } else {
            Attempt::NoSpace
        }
    }

    /// Fails, before the change or after it.
    fn fail(&mut self, change: Change, failure: Outcome) -> Attempt
        requires { IsFit self.old.names.now self.old.log.items change }
        ensures { Attempts change failure self.old self.new result }
    {
        let made = made_of(change, self.manner.is_late);
        if self.happen(made, failure) {
            Attempt::Failure
        } else {
            Attempt::NoSpace
        }
    }

    /// An attempt, as a call tells it.
    pub(crate) fn call(&mut self, change: Change, failure: Outcome) -> Result<(), Refusal>
        requires { IsFit self.old.names.now self.old.log.items change }
        ensures { Calls change failure self.old self.new result }
    {
        match self.attempt(change, failure) {
            Attempt::Success => Ok(()),
            Attempt::Failure => Err(Refusal::Other),
            Attempt::NoSpace => Err(Refusal::Memory),
        }
    }

    /// A failure that does nothing.
    pub(crate) fn refuse(&mut self) -> Refusal
        ensures { TurnsDown self.old self.new result }
    {
        if self.happen(Change::Nothing, Outcome::Failed) {
            Refusal::Other
        } else {
            Refusal::Memory
        }
    }

    /// Takes a name away. There is always room for that.
    pub(crate) fn take_away(&mut self, place: &'static str)
        requires { is_some ((state_of self.old.log.items).stands place.now) ≡ true }
        ensures { Gains self.old self.new (record { change = Change.Remove place.entry; outcome = Outcome.Done }) }
    {
        add_entry(&mut self.log, Change::Remove(place), Outcome::Done);
    }
}

/// One entry more, where there is room for it.
fn add_entry(log: &mut Vec<Entry>, change: Change, outcome: Outcome)
    requires { vec_len log.old < vec_capacity log.old }
    ensures items { log.new.items ≡ log.old.items ++ (record { change = change; outcome = outcome }) ∷ [] }
    ensures capacity { vec_capacity log.old ≤ vec_capacity log.new }
{
    let _ = log.push(Entry { change, outcome });
}

/// The change, or nothing.
fn made_of(change: Change, is_late: bool) -> Change
    ensures { (result ≡ Change.Nothing) ⊎ (result ≡ change) }
{
    if is_late { change } else { Change::Nothing }
}
