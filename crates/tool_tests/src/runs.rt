//! Runs of a job to their end: answers, refusals, and what is told of them.

use crate::given::Given;
use crate::ran::{End, Input, Outcome, Ran, Run, SOUND};
use dex_base::{Fault, fault};
use dex_samples::{Case, WITHOUT_CLASSES, all_hold};
use dexasm_command::{Job, Line, RunFault, Sink, Source, Watched, line_text, run, status};
use std::alloc::Global;
use std::io::Cursor;
use std::test::Fail;

const EACH_THOUSAND: End = End(1000, usize::MAX, false);

const EACH_BYTE: End = End(1, usize::MAX, false);

#[rattlefmt::skip]
#[test]
fn check_reads_the_whole_file_and_answers(rt: HostRuntime) -> Result<(), Fail> {
    static CASES: [Ran; 8] = [
        Ran(
            "check answers ok",
            Run(Job::Check, Input::Given(Given::EmptyFile), EACH_THOUSAND, EACH_THOUSAND, Outcome::Answered(Given::Okay)),
        ),
        Ran(
            "bytes come and go one at a time",
            Run(Job::Check, Input::Given(Given::EmptyFile), EACH_BYTE, EACH_BYTE, Outcome::Answered(Given::Okay)),
        ),
        Ran(
            "a changed byte",
            Run(Job::Check, Input::Changed(Given::EmptyFile, 139, 1), SOUND, SOUND, Outcome::Refused(8, 8)),
        ),
        // The row of the one method is given to the class `Ljava/lang/Object;`.
        Ran(
            "a file that breaks a rule",
            Run(Job::Check, Input::Closed(Given::File, 152, 1), SOUND, SOUND, Outcome::Refused(46, 160)),
        ),
        Ran("no file at all", Run(Job::Check, Input::Given(Given::Nothing), SOUND, SOUND, Outcome::Refused(1, 0))),
        Ran("a file of many pieces", Run(Job::Check, Input::Long, SOUND, SOUND, Outcome::Answered(Given::Okay))),
        Ran(
            "pieces that are not full",
            Run(Job::Check, Input::Long, End(50_000, usize::MAX, false), End(50_000, usize::MAX, false), Outcome::Answered(Given::Okay)),
        ),
        Ran("the last byte of many pieces", Run(Job::Check, Input::LongChanged, SOUND, SOUND, Outcome::Refused(8, 8))),
    ];
    all_hold(rt.alloc(), &CASES)
}

/// Whether a check from a slice into a vector answers ok.
fn is_answered_at_once(alloc: Global, given: &[u8]) -> bool {
    let mut input = Watched::new(given);
    let mut output = Watched::new(Vec::new(alloc));
    let done = run(alloc, Job::Check, &mut input, &mut output);
    let has_ended = input.ended() && !Source::failed(&input);
    done.is_ok() && has_ended && output.into_inner().as_slice() == b"ok\n".as_slice()
}

/// Whether an empty piece neither ends a source nor fails.
fn is_no_end() -> bool {
    let mut input = Watched::new(WITHOUT_CLASSES.as_slice());
    let taken = input.take(&mut []);
    matches!(taken, Ok(0)) && !input.ended() && !Source::failed(&input)
}

/// Whether a sink without room takes an empty piece, and fails at a byte.
fn is_full() -> bool {
    let mut output = Watched::new(Cursor::new([0u8; 0]));
    let put = output.put(&[]);
    let has_failed = Sink::failed(&output);
    let full = output.put(&[1]);
    matches!(put, Ok(0)) && !has_failed && matches!(full, Ok(0)) && Sink::failed(&output)
}

/// What ends do.
enum Ends {
    SliceAndVector,
    EmptyPiece,
    NoSpace,
}

impl Case for Ends {
    fn name(&self) -> &'static str {
        match self {
            Ends::SliceAndVector => "a slice and a vector are ends",
            Ends::EmptyPiece => "an empty piece does not end a source",
            Ends::NoSpace => "a sink that takes no byte has failed",
        }
    }

    fn holds(&self, alloc: Global) -> Result<bool, Fault> {
        Ok(match self {
            Ends::SliceAndVector => is_answered_at_once(alloc, &WITHOUT_CLASSES),
            Ends::EmptyPiece => is_no_end(),
            Ends::NoSpace => is_full(),
        })
    }
}

#[test]
fn ends_end_and_fail_as_they_report(rt: HostRuntime) -> Result<(), Fail> {
    static CASES: [Ends; 3] = [Ends::SliceAndVector, Ends::EmptyPiece, Ends::NoSpace];
    all_hold(rt.alloc(), &CASES)
}

/// A failure, its line, its status.
struct Failure(RunFault, &'static str, u8);

impl Case for Failure {
    fn name(&self) -> &'static str {
        self.1
    }

    fn holds(&self, alloc: Global) -> Result<bool, Fault> {
        Ok(
            status(&self.0) == self.2
                && is_shown_so(alloc, &self.0, self.1)?
                && is_line_so(alloc, &self.0, self.1)?
                && is_text_so(alloc, &self.0, self.1)?,
        )
    }
}

fn is_shown_so(alloc: Global, fault: &RunFault, line: &str) -> Result<bool, Fault> {
    Ok(fault.to_string(alloc)?.as_str() == line)
}

fn is_line_so(alloc: Global, fault: &RunFault, line: &str) -> Result<bool, Fault> {
    Ok(Line(fault).to_string(alloc)?.as_str() == line)
}

fn is_text_so(alloc: Global, fault: &RunFault, line: &str) -> Result<bool, Fault> {
    Ok(line_text(alloc, fault)?.as_str() == line)
}

#[rattlefmt::skip]
#[test]
fn each_failure_has_its_line_and_its_status(rt: HostRuntime) -> Result<(), Fail> {
    static CASES: [Failure; 4] = [
        Failure(
            RunFault::Refused(Fault { code: fault::CLASS_ORDER, place: 160, }),
            "dexasm: refused 42 ClassOrder at 160", 1,
        ),
        Failure(RunFault::Input, "dexasm: cannot read", 3),
        Failure(RunFault::Output, "dexasm: cannot write", 3),
        Failure(RunFault::Memory, "dexasm: out of memory", 4),
    ];
    all_hold(rt.alloc(), &CASES)
}
