//! What the calls do, with the ending as a word.
ghost use Rattle.dexasm_c.specs.Calls.{Checks, Ends, Puts};
ghost use Rattle.dexasm_c.specs.inner.Calls.{Reports};

use crate::ending::{CFault, Ending};
use dex_base::Fault;
use dexasm_run::answer;
use dexasm_world::Job;
use std::alloc::Global;

/// No fault.
const NONE: CFault = CFault { code: 0, place: 0 };

/// Out of memory.
const MEMORY: CFault = CFault {
    code: 255,
    place: 0,
};

/// The output of a job, put into the buffer.
pub(crate) fn answer_into(
    alloc: Global,
    job: Job,
    given: &[u8],
    out: &mut [u8],
    needed: &mut usize,
    fault: &mut CFault,
) -> Ending
    ensures { Ends result job given.now out.old out.new needed.new fault.new }
{
    match answer(alloc, job, given) {
        Ok(made) => {
            *fault = NONE;
            put(made.as_slice(), out, needed)
        }
        Err(refused) => {
            *needed = 0;
            report(refused, fault)
        }
    }
}

/// Whether the bytes are a file.
pub(crate) fn check_only(alloc: Global, given: &[u8], fault: &mut CFault) -> Ending
    ensures { Checks result given.now fault.new }
{
    match answer(alloc, Job::Check, given) {
        Ok(_) => {
            *fault = NONE;
            Ending::Answered
        }
        Err(refused) => report(refused, fault),
    }
}

/// Bytes at the front of the buffer, or none where it is too small; and how many there are.
pub(crate) fn put(made: &[u8], out: &mut [u8], needed: &mut usize) -> Ending
    ensures { Puts result made.now out.old out.new needed.new }
{
    *needed = made.len();
    if made.len() > out.len() {
        return Ending::TooSmall;
    }
    out[..made.len()].copy_from_slice(made);
    Ending::Answered
}

/// The fault for C. Out of memory is no refusal of the bytes.
fn report(refused: Fault, fault: &mut CFault) -> Ending
    ensures { Reports result refused fault.new }
{
    if refused.code == 255 {
        *fault = MEMORY;
        return Ending::Memory;
    }
    *fault = CFault {
        code: refused.code,
        place: refused.place,
    };
    Ending::Refused
}
