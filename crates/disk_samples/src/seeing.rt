//! What a log has led to.
ghost use Rattle.std.specs.Prelude.{◌≡◌, ◌≢◌, ◌↔◌, ℕ, List, IfOk, IsTrue, MatchOption, OnOk, bytes_eq, false, if◌then◌else◌, true};
ghost use Rattle.dexasm_world.specs.State.{FileState};
ghost use Rattle.disk_samples.specs.Logs.{is_a_name, state_of, step};

use crate::change::{Change, Entry};
use std::alloc::{AllocError, Global};

/// The name that is this path.
pub(crate) fn named(names: &'static [&'static str], path: &str) -> Option<&'static str>
    ensures { MatchOption result (is_a_name path.now names.now ≡ false) (λ q. (q.now ≡ path.now) × (is_a_name path.now names.now ≡ true)) }
{
    for name in names {
        if path == *name {
            return Some(*name);
        }
    }
    None
}

/// The number of the file that stands at a place.
pub(crate) fn number_at(log: &[Entry], place: &str) -> Option<usize>
    ensures { result ≡ (state_of log.now).stands place.now }
{
    let mut number = None;
    for entry in log {
        number = number_after(&entry.change, place, number);
    }
    number
}

/// The number of the file that stands there after a change.
fn number_after(change: &Change, place: &str, before: Option<usize>) -> Option<usize>
    ensures { (s : FileState) → s.stands place.now ≡ before → (step change.now s).stands place.now ≡ result }
{
    match change {
        Change::Make(at, number, _, _) => put_at(*at, place, Some(*number), before),
        Change::Link(at, number) => put_at(*at, place, Some(*number), before),
        Change::Move(from, to, number) => {
            put_at(
                *from,
                place,
                None,
                put_at(*to, place, Some(*number), before),
            )
        }
        Change::Remove(at) => put_at(*at, place, None, before),
        Change::Nothing => before,
        Change::Write(_, _) => before,
        Change::Empty(_) => before,
        Change::Dress(_, _) => before,
        Change::Keep(_) => before,
    }
}

/// What stands at a place where this was put at another.
fn put_at(at: &str, place: &str, put: Option<usize>, before: Option<usize>) -> Option<usize>
    ensures { result ≡ (if bytes_eq place.now at.now then put else before) }
{
    if place == at { put } else { before }
}

/// Whether this file stands at a place.
pub(crate) fn is_at(log: &[Entry], place: &str, number: usize) -> bool
    ensures { IsTrue result ↔ ((state_of log.now).stands place.now ≡ Some number) }
{
    match number_at(log, place) {
        Some(there) => there == number,
        None => false,
    }
}

/// Whether the file stands at one of these names besides.
pub(crate) fn is_shared(log: &[Entry], names: &[&str], place: &str, number: usize) -> bool
    ensures shared { result ≡ true → (q : List ℕ) × (q ≢ place.now) × ((state_of log.now).stands q ≡ Some number) }
    ensures alone { result ≡ false → (q : List ℕ) → is_a_name q names.now ≡ true → (state_of log.now).stands q ≡ Some number → q ≡ place.now }
{
    for name in names {
        if is_other(log, *name, place, number) {
            return true;
        }
    }
    false
}

/// Whether this name is another one of the file.
fn is_other(log: &[Entry], name: &str, place: &str, number: usize) -> bool
    ensures other { result ≡ true → (name.now ≢ place.now) × ((state_of log.now).stands name.now ≡ Some number) }
    ensures same { result ≡ false → (state_of log.now).stands name.now ≡ Some number → name.now ≡ place.now }
{
    place != name && is_at(log, name, number)
}

/// The mode of a file.
pub(crate) fn mode_of(log: &[Entry], number: usize) -> u32
    ensures { result ≡ ((state_of log.now).file number).mode }
{
    let mut mode = 0;
    for entry in log {
        mode = mode_after(&entry.change, number, mode);
    }
    mode
}

/// The mode of a file after a change.
fn mode_after(change: &Change, number: usize, before: u32) -> u32
    ensures { (s : FileState) → (s.file number).mode ≡ before → ((step change.now s).file number).mode ≡ result }
{
    match change {
        Change::Make(_, n, _, mode) => { if number == *n { *mode } else { before } }
        Change::Dress(n, mode) => { if number == *n { *mode } else { before } }
        Change::Nothing => before,
        Change::Link(_, _) => before,
        Change::Write(_, _) => before,
        Change::Empty(_) => before,
        Change::Keep(_) => before,
        Change::Move(_, _, _) => before,
        Change::Remove(_) => before,
    }
}

/// What a file holds.
pub(crate) fn bytes_of(alloc: Global, log: &[Entry], number: usize) -> Result<Vec<u8>, AllocError>
    ensures { IfOk result (λ held. held.items ≡ ((state_of log.now).file number).bytes) }
{
    let mut held = Vec::new(alloc);
    for entry in log {
        write_again(&entry.change, number, &mut held)?;
    }
    Ok(held)
}

/// Does with the bytes what a change does to a file.
fn write_again(change: &Change, number: usize, held: &mut Vec<u8>) -> Result<(), AllocError>
    ensures { OnOk result ((s : FileState) → (s.file number).bytes ≡ held.old.items → ((step change.now s).file number).bytes ≡ held.new.items) }
{
    match change {
        Change::Make(_, n, bytes, _) => {
            if number == *n {
                held.clear();
                held.extend_from_slice(bytes.as_slice())?;
            }
        }
        Change::Empty(n) => {
            if number == *n {
                held.clear();
            }
        }
        Change::Write(n, piece) => {
            if number == *n {
                held.extend_from_slice(piece.as_slice())?;
            }
        }
        Change::Nothing => {}
        Change::Link(_, _) => {}
        Change::Dress(_, _) => {}
        Change::Keep(_) => {}
        Change::Move(_, _, _) => {}
        Change::Remove(_) => {}
    }
    Ok(())
}
