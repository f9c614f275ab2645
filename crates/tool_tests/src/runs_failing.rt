//! Runs whose reader or writer fails, for good or once.

use crate::given::Given;
use crate::ran::{End, Input, Outcome, Ran, Run, SOUND, is_so};
use dex_base::{Fault, fault};
use dex_samples::{Case, all_hold};
use dexasm_command::Job;
use std::alloc::Global;
use std::test::Fail;

#[rattlefmt::skip]
#[test]
fn a_reader_that_fails_is_reported_and_not_read_on(rt: HostRuntime) -> Result<(), Fail> {
    static CASES: [Ran; 12] = [
        Ran(
            "a reader that fails at once",
            Run(Job::Check, Input::Given(Given::EmptyFile), End(16, 0, false), End(9, 9, false), Outcome::Reader(140)),
        ),
        Ran(
            "a reader that fails after a byte",
            Run(Job::Check, Input::Given(Given::EmptyFile), End(16, 1, false), End(9, 9, false), Outcome::Reader(139)),
        ),
        Ran(
            "a reader that fails after 64 bytes",
            Run(Job::Check, Input::Given(Given::EmptyFile), End(16, 64, false), End(9, 9, false), Outcome::Reader(76)),
        ),
        Ran(
            "a reader that fails before the last byte",
            Run(Job::Check, Input::Given(Given::EmptyFile), End(16, 139, false), End(9, 9, false), Outcome::Reader(1)),
        ),
        Ran(
            "a reader that fails after the last byte",
            Run(Job::Check, Input::Given(Given::EmptyFile), End(16, 140, false), End(9, 9, false), Outcome::Reader(0)),
        ),
        Ran(
            "a reader that fails once, at once",
            Run(Job::Check, Input::Given(Given::EmptyFile), End(16, 0, true), End(9, 9, false), Outcome::Reader(140)),
        ),
        Ran(
            "a reader that fails once, after a byte",
            Run(Job::Check, Input::Given(Given::EmptyFile), End(16, 1, true), End(9, 9, false), Outcome::Reader(139)),
        ),
        Ran(
            "a reader that fails once, after 64 bytes",
            Run(Job::Check, Input::Given(Given::EmptyFile), End(16, 64, true), End(9, 9, false), Outcome::Reader(76)),
        ),
        Ran(
            "a reader that fails once, before the last byte",
            Run(Job::Check, Input::Given(Given::EmptyFile), End(16, 139, true), End(9, 9, false), Outcome::Reader(1)),
        ),
        Ran(
            "a reader that fails once, after the last byte",
            Run(Job::Check, Input::Given(Given::EmptyFile), End(16, 140, true), End(9, 9, false), Outcome::Reader(0)),
        ),
        // The file has 200,152 bytes.
        Ran(
            "a reader that fails in a later piece",
            Run(Job::Check, Input::Long, End(usize::MAX, 100_000, true), End(9, 9, false), Outcome::Reader(100_152)),
        ),
        Ran(
            "a reader that fails at its end",
            Run(Job::Strip, Input::Given(Given::File), End(512, 376, false), End(512, 512, false), Outcome::Reader(0)),
        ),
    ];
    all_hold(rt.alloc(), &CASES)
}

#[rattlefmt::skip]
#[test]
fn a_writer_that_fails_holds_a_beginning_and_is_not_written_on(rt: HostRuntime) -> Result<(), Fail> {
    static CASES: [Ran; 17] = [
        Ran(
            "a writer that fails at once",
            Run(Job::Check, Input::Given(Given::EmptyFile), SOUND, End(1, 0, false), Outcome::Writer(Given::Okay, 0)),
        ),
        Ran(
            "a writer that fails after a byte",
            Run(Job::Check, Input::Given(Given::EmptyFile), SOUND, End(1, 1, false), Outcome::Writer(Given::Okay, 1)),
        ),
        Ran(
            "a writer that fails after two bytes",
            Run(Job::Check, Input::Given(Given::EmptyFile), SOUND, End(1, 2, false), Outcome::Writer(Given::Okay, 2)),
        ),
        Ran(
            "a writer that fails once, at once",
            Run(Job::Check, Input::Given(Given::EmptyFile), SOUND, End(1, 0, true), Outcome::Writer(Given::Okay, 0)),
        ),
        Ran(
            "a writer that fails once, after a byte",
            Run(Job::Check, Input::Given(Given::EmptyFile), SOUND, End(1, 1, true), Outcome::Writer(Given::Okay, 1)),
        ),
        Ran(
            "a writer that fails once, after two bytes",
            Run(Job::Check, Input::Given(Given::EmptyFile), SOUND, End(1, 2, true), Outcome::Writer(Given::Okay, 2)),
        ),
        Ran(
            "a writer that takes nothing",
            Run(Job::Check, Input::Given(Given::EmptyFile), SOUND, End(0, 9, false), Outcome::Writer(Given::Okay, 0)),
        ),
        Ran(
            "a strip into a writer that fails at once",
            Run(Job::Strip, Input::Given(Given::File), SOUND, End(7, 0, false), Outcome::Writer(Given::File, 0)),
        ),
        Ran(
            "a strip into a writer that fails after a byte",
            Run(Job::Strip, Input::Given(Given::File), SOUND, End(7, 1, false), Outcome::Writer(Given::File, 1)),
        ),
        Ran(
            "a strip into a writer that fails within a piece",
            Run(Job::Strip, Input::Given(Given::File), SOUND, End(7, 10, false), Outcome::Writer(Given::File, 10)),
        ),
        Ran(
            "a strip into a writer that fails after 7 times 30 bytes",
            Run(Job::Strip, Input::Given(Given::File), SOUND, End(7, 210, false), Outcome::Writer(Given::File, 210)),
        ),
        Ran(
            "a strip into a writer that fails before the last byte",
            Run(Job::Strip, Input::Given(Given::File), SOUND, End(7, 375, false), Outcome::Writer(Given::File, 375)),
        ),
        Ran(
            "a refusal before a writer that fails",
            Run(Job::Strip, Input::Front(Given::File, 111), SOUND, End(9, 0, false), Outcome::Refused(fault::TOO_SHORT, 111)),
        ),
        Ran(
            "a writer that takes a byte a call",
            Run(Job::Strip, Input::Given(Given::File), End(512, 512, false), End(1, 512, false), Outcome::Answered(Given::File)),
        ),
        Ran(
            "a reader that gives a byte a call",
            Run(Job::Strip, Input::Given(Given::File), End(1, 512, false), End(512, 512, false), Outcome::Answered(Given::File)),
        ),
        Ran(
            "a writer that takes no byte",
            Run(Job::Strip, Input::Given(Given::File), End(512, 512, false), End(0, 512, false), Outcome::Writer(Given::File, 0)),
        ),
        Ran(
            "a refusal before a writer that always fails",
            Run(Job::Strip, Input::Front(Given::File, 111), End(512, 512, false), End(512, 0, false), Outcome::Refused(fault::TOO_SHORT, 111)),
        ),
    ];
    all_hold(rt.alloc(), &CASES)
}

/// Which end of a strip of the file of one class fails after each number of bytes.
enum Failing {
    Reader,
    Writer,
}

impl Case for Failing {
    fn name(&self) -> &'static str {
        match self {
            Failing::Reader => "the reader fails",
            Failing::Writer => "the writer fails",
        }
    }

    fn holds(&self, alloc: Global) -> Result<bool, Fault> {
        for bytes in 0..376 {
            if !is_so(alloc, &self.run(bytes))? {
                return Ok(false);
            }
        }
        Ok(true)
    }
}

impl Failing {
    fn run(&self, bytes: usize) -> Run {
        let file = Input::Given(Given::File);
        match self {
            Failing::Reader => Run(
                Job::Strip,
                file,
                End(512, bytes, false),
                End(512, 512, false),
                Outcome::Reader(376usize.saturating_sub(bytes)),
            ),
            Failing::Writer => Run(
                Job::Strip,
                file,
                End(512, 512, false),
                End(512, bytes, false),
                Outcome::Writer(Given::File, bytes),
            ),
        }
    }
}

#[test]
fn ends_that_fail_after_each_byte_are_reported(rt: HostRuntime) -> Result<(), Fail> {
    static CASES: [Failing; 2] = [Failing::Reader, Failing::Writer];
    all_hold(rt.alloc(), &CASES)
}
