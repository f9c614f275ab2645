//! What each job answers: files and listings, with values from the rules of both.

use crate::given::{Given, bytes_of};
use crate::ran::{Input, Outcome, Ran, Run, SOUND, is_so};
use dex_base::{Fault, fault};
use dex_samples::{Case, all_hold};
use dexasm_command::{Job, answer};
use std::alloc::Global;
use std::test::Fail;

const ASSEMBLE: Job = Job::Assemble { align: false };

const ALIGN: Job = Job::Assemble { align: true };

/// A name for the case, the job, what is given, and what is answered: by a run, and by the call that answers bytes.
struct Answered(&'static str, Job, Given, Given);

impl Case for Answered {
    fn name(&self) -> &'static str {
        self.0
    }

    fn holds(&self, alloc: Global) -> Result<bool, Fault> {
        let (given, want) = (bytes_of(self.2), bytes_of(self.3));
        let run = Run(
            self.1,
            Input::Given(self.2),
            SOUND,
            SOUND,
            Outcome::Answered(self.3),
        );
        Ok(is_so(alloc, &run)? && is_answered(alloc, self.1, given, want)?)
    }
}

fn is_answered(alloc: Global, job: Job, given: &[u8], want: &[u8]) -> Result<bool, Fault> {
    Ok(answer(alloc, job, given)?.as_slice() == want)
}

#[rattlefmt::skip]
#[test]
fn each_job_gives_its_answer(rt: HostRuntime) -> Result<(), Fail> {
    static CASES: [Answered; 15] = [
        Answered("a file is checked", Job::Check, Given::File, Given::Okay),
        Answered("a file is listed", Job::List, Given::File, Given::Listing),
        Answered("no classes are listed", Job::List, Given::EmptyFile, Given::EmptyListing),
        Answered("a listing is assembled", ASSEMBLE, Given::Listing, Given::File),
        Answered("a listing of the first form is assembled", ASSEMBLE, Given::NumberedListing, Given::File),
        Answered("no classes are assembled", ASSEMBLE, Given::EmptyListing, Given::EmptyFile),
        Answered("a listing is aligned", ALIGN, Given::Listing, Given::File),
        Answered("spare names are accepted", Job::Check, Given::SpareNames, Given::Okay),
        Answered("spare names are dropped", Job::Strip, Given::SpareNames, Given::File),
        Answered("a second strip changes nothing", Job::Strip, Given::File, Given::File),
        // A program with something of everything is read and written.
        Answered("it is checked", Job::Check, Given::Rich, Given::Okay),
        Answered("it is listed", Job::List, Given::Rich, Given::RichListing),
        Answered("it is assembled", ASSEMBLE, Given::RichListing, Given::Rich),
        Answered("it is assembled with its payload where it is", ALIGN, Given::RichListing, Given::Rich),
        Answered("it is stripped", Job::Strip, Given::Rich, Given::Rich),
    ];
    all_hold(rt.alloc(), &CASES)
}

#[rattlefmt::skip]
#[test]
fn each_job_reports_the_fault_of_its_call(rt: HostRuntime) -> Result<(), Fail> {
    static CASES: [Ran; 12] = [
        Ran(
            "no bytes are no file",
            Run(Job::List, Input::Given(Given::Nothing), SOUND, SOUND, Outcome::Refused(fault::TOO_SHORT, 0)),
        ),
        Ran(
            "a listing isn't a file",
            Run(Job::Strip, Input::Given(Given::Listing), SOUND, SOUND, Outcome::Refused(fault::MAGIC, 0)),
        ),
        Ran(
            "a file isn't a listing",
            Run(ASSEMBLE, Input::Given(Given::File), SOUND, SOUND, Outcome::Refused(fault::LINE_WORD, 1)),
        ),
        Ran(
            "no bytes are no listing",
            Run(ASSEMBLE, Input::Given(Given::Nothing), SOUND, SOUND, Outcome::Refused(fault::LINE_NOT_ENDED, 0)),
        ),
        Ran(
            "a later superclass in a file",
            Run(Job::Check, Input::Given(Given::LaterSuperclass), SOUND, SOUND, Outcome::Refused(fault::CLASS_ORDER, 128)),
        ),
        Ran(
            "a later superclass",
            Run(ASSEMBLE, Input::Given(Given::LaterSuperclassListing), SOUND, SOUND, Outcome::Refused(fault::PROGRAM_CLASS_ORDER, 0)),
        ),
        Ran(
            "arguments past the registers of the second class",
            Run(Job::List, Input::Given(Given::ThreeClasses), SOUND, SOUND, Outcome::Refused(fault::REGISTER, 300)),
        ),
        Ran(
            "and an unused opcode in the third, which goes before them",
            Run(Job::List, Input::Closed(Given::ThreeClasses, 336, 0x3e), SOUND, SOUND, Outcome::Refused(fault::OPCODE, 336)),
        ),
        Ran(
            "a try without handlers",
            Run(ASSEMBLE, Input::Given(Given::BareTry), SOUND, SOUND, Outcome::Refused(fault::PROGRAM_TRY, 0)),
        ),
        Ran(
            "a try without handlers, aligned",
            Run(ALIGN, Input::Given(Given::BareTry), SOUND, SOUND, Outcome::Refused(fault::PROGRAM_TRY, 0)),
        ),
        Ran(
            "a payload at an odd address",
            Run(ASSEMBLE, Input::Given(Given::OddPayload), SOUND, SOUND, Outcome::Refused(fault::MISALIGNED, 0)),
        ),
        // The fifth string's count is wrong.
        Ran(
            "a string that nothing uses is read too",
            Run(Job::Strip, Input::Closed(Given::SpareNames, 0xf5, 7), SOUND, SOUND, Outcome::Refused(21, 128)),
        ),
    ];
    all_hold(rt.alloc(), &CASES)
}

/// A name for the case, how a listing is assembled, the listing, and how the file is listed.
struct Listed(&'static str, Job, Given, Given);

impl Case for Listed {
    fn name(&self) -> &'static str {
        self.0
    }

    fn holds(&self, alloc: Global) -> Result<bool, Fault> {
        let file = answer(alloc, self.1, bytes_of(self.2))?;
        is_answered(alloc, Job::List, &file, bytes_of(self.3))
    }
}

#[rattlefmt::skip]
#[test]
fn what_is_assembled_is_listed(rt: HostRuntime) -> Result<(), Fail> {
    static CASES: [Listed; 3] = [
        Listed("escapes in a text", ASSEMBLE, Given::Escapes, Given::Escapes),
        Listed("a payload after a nop", ASSEMBLE, Given::EvenPayload, Given::EvenPayload),
        Listed("a nop is put before a payload", ALIGN, Given::OddPayload, Given::EvenPayload),
    ];
    all_hold(rt.alloc(), &CASES)
}
