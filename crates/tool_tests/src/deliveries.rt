//! An answer on its way to OUT, over a disk of which one call after another fails: how the run ends, and what stands where then. The values
//! are those of the manual page's FILES and EXIT STATUS.

use dex_base::Fault;
use dex_samples::{Case, all_hold};
use dexasm_command::deliver;
use disk_samples::{Disk, Manner};
use std::alloc::{AllocError, Global};
use std::test::Fail;

// OUT, another name of it, and files beside it.
static NAMES: [&str; 4] = ["out", "other", "out.0.part", "out.1.part"];

static OLD: [u8; 3] = *b"old";

static ANSWER: [u8; 3] = *b"new";

/// What stands at OUT before.
#[derive(Clone, Copy)]
enum Before {
    Nothing,
    File,
    TwoNames,
}

/// What it is called, what stands before, what the disk is like, and a sign for each call that fails, the first one first, up to the run in
/// which no call fails any more:
///     =  the answer stands in OUT, and nothing beside it
///     *  the same, but the file beside couldn't be taken away
///     -  the run failed, OUT is as it was, and nothing stands beside it
///     +  the run failed, and the whole answer stands beside OUT
///     p  the run failed, OUT is as it was, and what was begun stands beside it
///     ~  the run failed, and the answer stands in OUT, and nothing beside it
///     x  the run failed, and OUT has a front of the answer
///     ?  anything else
struct Delivered(&'static str, Before, Manner, &'static [u8]);

impl Case for Delivered {
    fn name(&self) -> &'static str {
        self.0
    }

    fn holds(&self, alloc: Global) -> Result<bool, Fault> {
        for (call, sign) in self.3.iter().enumerate() {
            let manner = Manner {
                fails_at: call as u64,
                ..self.2
            };
            if sign_of_run(alloc, self.1, manner)? != *sign {
                return Ok(false);
            }
        }
        Ok(true)
    }
}

fn set(disk: &mut Disk, before: Before) -> bool {
    match before {
        Before::Nothing => true,
        Before::File => disk.store("out", &OLD, 0o640),
        Before::TwoNames => disk.store("out", &OLD, 0o640) && disk.link("out", "other"),
    }
}

fn is_held(disk: &Disk, name: &str, bytes: &[u8], mode: u32) -> Result<bool, AllocError> {
    match disk.held(name)? {
        Some((held, found)) => Ok(held.as_slice() == bytes && found == mode),
        None => Ok(false),
    }
}

/// OUT has these bytes, in its mode, and so has its other name.
fn has_out(disk: &Disk, before: Before, bytes: &[u8]) -> Result<bool, AllocError> {
    match before {
        Before::Nothing => is_held(disk, "out", bytes, 0o644),
        Before::File => is_held(disk, "out", bytes, 0o640),
        Before::TwoNames => {
            Ok(is_held(disk, "out", bytes, 0o640)? && is_held(disk, "other", bytes, 0o640)?)
        }
    }
}

fn is_as_before(disk: &Disk, before: Before) -> Result<bool, AllocError> {
    match before {
        Before::Nothing => Ok(disk.held("out")?.is_none()),
        Before::File => has_out(disk, before, &OLD),
        Before::TwoNames => has_out(disk, before, &OLD),
    }
}

/// What stands beside OUT: nothing, what was begun, the whole answer.
#[derive(Clone, Copy)]
enum Beside {
    Nothing,
    Front,
    Answer,
}

fn part_of(disk: &Disk) -> Result<Beside, AllocError> {
    match disk.held("out.0.part")? {
        None => Ok(Beside::Nothing),
        Some((held, _)) => {
            if held.as_slice() == ANSWER.as_slice() {
                Ok(Beside::Answer)
            } else {
                Ok(Beside::Front)
            }
        }
    }
}

fn sign_of(is_done: bool, is_old: bool, is_new: bool, beside: Beside) -> u8 {
    match (is_done, is_old, is_new, beside) {
        (true, _, true, Beside::Nothing) => b'=',
        (true, _, true, _) => b'*',
        (false, true, _, Beside::Nothing) => b'-',
        (false, true, _, Beside::Front) => b'p',
        (false, _, _, Beside::Answer) => b'+',
        (false, _, true, Beside::Nothing) => b'~',
        (false, _, _, Beside::Nothing) => b'x',
        _ => b'?',
    }
}

/// The sign of a run over a disk like this.
fn sign_of_run(alloc: Global, before: Before, manner: Manner) -> Result<u8, AllocError> {
    let mut disk = Disk::new(alloc, &NAMES, manner, 64)?;
    set_and_sign(alloc, &mut disk, before)
}

fn set_and_sign(alloc: Global, disk: &mut Disk, before: Before) -> Result<u8, AllocError> {
    if !set(disk, before) {
        return Err(AllocError);
    }
    let is_done = deliver(alloc, disk, "out", &ANSWER).is_ok();
    let is_old = is_as_before(disk, before)?;
    let is_new = has_out(disk, before, &ANSWER)?;
    Ok(sign_of(is_done, is_old, is_new, part_of(disk)?))
}

const ONE_FAILS: Manner = Manner {
    failures: 1,
    ..Manner::SOUND
};

const FIXED: Manner = Manner {
    is_fixed: true,
    ..ONE_FAILS
};

const CLOSED: Manner = Manner {
    is_closed: true,
    ..ONE_FAILS
};

const LATE: Manner = Manner {
    is_late: true,
    ..ONE_FAILS
};

const TWO_FAIL: Manner = Manner {
    failures: 2,
    ..ONE_FAILS
};

#[rattlefmt::skip]
#[test]
fn out_is_never_lost_whichever_call_fails(rt: HostRuntime) -> Result<(), Fail> {
    static CASES: [Delivered; 8] = [
        Delivered("OUT is absent", Before::Nothing, ONE_FAILS, b"----="),
        Delivered("OUT is there", Before::File, ONE_FAILS, b"------="),
        Delivered("OUT has two names", Before::TwoNames, ONE_FAILS, b"-----++++*="),
        Delivered("OUT can't be replaced", Before::File, FIXED, b"-----++++*="),
        Delivered("the folder takes no new file", Before::File, CLOSED, b"-xx="),
        Delivered("the folder takes no OUT", Before::Nothing, CLOSED, b"----------------"),
        Delivered("the call that fails has done its work", Before::Nothing, LATE, b"p--~="),
        Delivered("the part can't be taken away either", Before::Nothing, TWO_FAIL, b"-pp+="),
    ];
    all_hold(rt.alloc(), &CASES)
}
