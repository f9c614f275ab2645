//! The command: its words, a run, and a source and a sink that are written by their page alone.
ghost use Rattle.std.specs.Prelude.{◌≡◌, None, false};

use clap::Error;
use dex_base::Fault;
use dexasm_command::{Job, Plan, RunFault, Sink, Source, Watched, plan, run, status, usage_status};
use std::alloc::Global;
use std::io;

/// A source that is at its end.
pub struct Empty {
    pub ends: bool,
}

impl Source for Empty {
    ghost remaining = { λ _. None };

    ghost failed = { λ _. false };

    ghost ended = { λ source. source.ends };

    fn take(&mut self, piece: &mut [u8]) -> io::Result<usize> {
        self.ends = self.ends || !piece.is_empty();
        Ok(0)
    }

    fn failed(&self) -> bool {
        false
    }

    fn ended(&self) -> bool {
        self.ends
    }
}

/// A sink that takes nothing.
pub struct Full {
    pub fails: bool,
}

impl Sink for Full {
    ghost contents = { λ _. None };

    ghost failed = { λ sink. sink.fails };

    fn put(&mut self, piece: &[u8]) -> io::Result<usize> {
        let _ = piece;
        self.fails = true;
        Err(io::Error::from(io::ErrorKind::WriteZero))
    }

    fn failed(&self) -> bool {
        self.fails
    }
}

/// Each job, and what it holds with its type.
pub fn parts_of_job(job: Job) -> bool {
    match job {
        Job::Check | Job::List | Job::Strip => false,
        Job::Assemble { align } => align,
    }
}

pub fn planned<'w>(alloc: Global, words: &'w [&'w str]) -> Result<Plan<'w>, Error> {
    plan(alloc, words)
}

pub fn plan_of<'w>(job: Job, file: Option<&'w str>, output: Option<&'w str>) -> Plan<'w> {
    Plan { job, file, output }
}

pub fn done<R: Source, W: Sink>(
    alloc: Global,
    job: Job,
    input: &mut R,
    output: &mut W,
) -> Result<(), RunFault>
    requires input_works { R.failed input.old ≡ false }
    requires input_goes_on { R.ended input.old ≡ false }
    requires output_works { W.failed output.old ≡ false }
{
    run(alloc, job, input, output)
}

pub fn watched<T>(end: T) -> Watched<T> {
    Watched::new(end)
}

pub fn watched_no_more<T>(end: Watched<T>) -> T {
    end.into_inner()
}

/// Each failure, and what it holds with its type.
pub fn parts_of_failure(failure: &RunFault) -> Option<Fault> {
    match failure {
        RunFault::Refused(fault) => Some(*fault),
        RunFault::Input | RunFault::Output | RunFault::Memory => None,
    }
}

pub fn status_of_failure(failure: &RunFault) -> u8 {
    status(failure)
}

pub fn status_of_wrong_words(error: &Error) -> u8 {
    usage_status(error)
}
