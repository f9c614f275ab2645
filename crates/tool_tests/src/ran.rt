//! A run of a job from a reader into a writer, each of which may fail, and what is told of it. Its hashes begin with another seed
//! than those of the calls that take none.

use crate::given::{Given, bytes_of};
use dex_base::Fault;
use dex_samples::{
    Case, NOTHING, Rows, TestReader, TestWriter, closed_with, file_of, put_bytes, reader,
    reader_failing_once, with_bytes, writer, writer_failing_once,
};
use dexasm_command::{Job, RunFault, Seed, Sink, Source, Watched, run_seeded};
use std::alloc::Global;

/// What a run is given.
#[derive(Clone, Copy)]
pub enum Input {
    Given(Given),
    /// Its first bytes, so many.
    Front(Given, usize),
    /// It with this byte at a place.
    Changed(Given, usize, u8),
    /// The same, closed again.
    Closed(Given, usize, u8),
    /// A file of more than 200,000 bytes, of several pieces of 64 KiB each.
    Long,
    /// The same with another last byte.
    LongChanged,
}

/// How many bytes an end moves at most in a call, after how many bytes its calls fail, and whether only once.
#[derive(Clone, Copy)]
pub struct End(pub usize, pub usize, pub bool);

/// An end that doesn't fail.
pub const SOUND: End = End(usize::MAX, usize::MAX, false);

/// What is told of a run.
#[derive(Clone, Copy)]
pub enum Outcome {
    /// It has read to the end, and has written this.
    Answered(Given),
    /// The fault and its place; nothing is written.
    Refused(u16, u64),
    /// The reader failed, and so many bytes are left in it; nothing is written.
    Reader(usize),
    /// The writer failed, and has so many first bytes of this.
    Writer(Given, usize),
}

/// A run: the job, what it is given and by which reader, by which writer it writes, what is told.
#[derive(Clone, Copy)]
pub struct Run(pub Job, pub Input, pub End, pub End, pub Outcome);

/// A name for the case, and the run.
pub struct Ran(pub &'static str, pub Run);

impl Case for Ran {
    fn name(&self) -> &'static str {
        self.0
    }

    fn holds(&self, alloc: Global) -> Result<bool, Fault> {
        is_so(alloc, &self.1)
    }
}

/// Whether this is told of the run.
pub fn is_so(alloc: Global, run: &Run) -> Result<bool, Fault> {
    let given = given(alloc, run.1)?;
    Ok(is_run_so(alloc, &given, run))
}

fn given(alloc: Global, input: Input) -> Result<Vec<u8>, Fault> {
    match input {
        Input::Given(given) => Ok(Vec::from_slice(alloc, bytes_of(given))?),
        Input::Front(given, length) => Ok(Vec::from_slice(alloc, front(bytes_of(given), length))?),
        Input::Changed(given, at, byte) => with_bytes(alloc, bytes_of(given), at, &[byte]),
        Input::Closed(given, at, byte) => closed_with(alloc, bytes_of(given), at, &[byte]),
        Input::Long => long(alloc),
        Input::LongChanged => long_changed(alloc),
    }
}

fn front(bytes: &[u8], length: usize) -> &[u8] {
    &bytes[..length.min(bytes.len())]
}

fn long(alloc: Global) -> Result<Vec<u8>, Fault> {
    let arrays = vec![in alloc; 7u8; 200_000]?;
    file_of(
        alloc,
        &Rows {
            arrays: &arrays,
            ..NOTHING
        },
    )
}

fn long_changed(alloc: Global) -> Result<Vec<u8>, Fault> {
    let mut file = long(alloc)?;
    let last = file.len().saturating_sub(1);
    put_bytes(&mut file, last, &[8]);
    Ok(file)
}

fn reader_of(given: &[u8], end: End) -> TestReader<'_> {
    if end.2 {
        reader_failing_once(given, end.0, end.1)
    } else {
        reader(given, end.0, end.1)
    }
}

fn writer_of(alloc: Global, end: End) -> TestWriter {
    if end.2 {
        writer_failing_once(alloc, end.0, end.1)
    } else {
        writer(alloc, end.0, end.1)
    }
}

fn is_run_so(alloc: Global, given: &[u8], case: &Run) -> bool {
    let mut input = Watched::new(reader_of(given, case.2));
    let mut output = Watched::new(writer_of(alloc, case.3));
    let done = run_seeded(alloc, Seed::new(7), case.0, &mut input, &mut output);
    let seen = Seen {
        has_ended: input.ended(),
        reader_failed: Source::failed(&input),
        writer_failed: Sink::failed(&output),
        left: input.into_inner().rest.len(),
    };
    has_outcome(done, &seen, output.into_inner().held.as_slice(), case.4)
}

/// What is seen of the ends after a run.
#[derive(Drop)]
struct Seen {
    has_ended: bool,
    reader_failed: bool,
    writer_failed: bool,
    left: usize,
}

fn has_outcome(done: Result<(), RunFault>, seen: &Seen, held: &[u8], message: Outcome) -> bool {
    match (done, message) {
        (Ok(()), Outcome::Answered(want)) => {
            seen.has_ended && !seen.reader_failed && held == bytes_of(want)
        }
        (Err(RunFault::Refused(fault)), Outcome::Refused(code, place)) => {
            fault.code == code && fault.place == place && held.is_empty() && !seen.writer_failed
        }
        (Err(RunFault::Input), Outcome::Reader(left)) => {
            seen.reader_failed && seen.left == left && held.is_empty()
        }
        (Err(RunFault::Output), Outcome::Writer(want, count)) => {
            seen.writer_failed && held.len() == count && held == front(bytes_of(want), count)
        }
        _ => false,
    }
}
