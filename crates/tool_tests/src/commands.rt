//! Command lines over a disk: the exit status, what is told, and what OUT holds then.

use crate::files::SPARE_NAMES;
use crate::given::{Given, bytes_of};
use dex_base::Fault;
use dex_samples::{Case, all_hold};
use dexasm_command::{Seed, Terminals, Watched, serve};
use disk_samples::{Disk, Manner};
use std::alloc::{AllocError, Global};
use std::test::Fail;

static NAMES: [&str; 4] = ["in.dex", "in.txt", "out", "out.0.part"];

static OLD: [u8; 3] = *b"old";

/// What it is called, words, which streams are terminals, what the disk is like, the exit status, what standard error tells, and what OUT holds, if that is new.
struct Served {
    what: &'static str,
    words: &'static [&'static str],
    terminals: Terminals,
    manner: Manner,
    status: u8,
    message: &'static [u8],
    out: Option<Given>,
}

impl Case for Served {
    fn name(&self) -> &'static str {
        self.what
    }

    fn holds(&self, alloc: Global) -> Result<bool, Fault> {
        let mut disk = Disk::new(alloc, &NAMES, self.manner, 64)?;
        Ok(set(&mut disk) && is_served_so(alloc, &mut disk, self)?)
    }
}

fn set(disk: &mut Disk) -> bool {
    disk.store("in.dex", &SPARE_NAMES, 0o644)
        && disk.store("in.txt", bytes_of(Given::Listing), 0o644)
        && disk.store("out", &OLD, 0o640)
}

/// The status, if standard output has nothing and standard error has what is to be told.
fn status_of(alloc: Global, disk: &mut Disk, case: &Served) -> Option<u8> {
    let mut output = Watched::new(Vec::new(alloc));
    let mut errors = Watched::new(Vec::new(alloc));
    let mut input = Watched::new(b"".as_slice());
    let status = serve(
        alloc,
        Seed::fixed(),
        case.words,
        case.terminals,
        disk,
        &mut input,
        &mut output,
        &mut errors,
    );
    if output.into_inner().is_empty() && errors.into_inner().as_slice() == case.message {
        Some(status)
    } else {
        None
    }
}

/// OUT holds this, in its mode, and nothing stands beside it.
fn has_out(disk: &Disk, bytes: &[u8]) -> Result<bool, AllocError> {
    let is_alone = disk.held("out.0.part")?.is_none();
    match disk.held("out")? {
        Some((held, mode)) => Ok(is_alone && held.as_slice() == bytes && mode == 0o640),
        None => Ok(false),
    }
}

fn is_served_so(alloc: Global, disk: &mut Disk, case: &Served) -> Result<bool, AllocError> {
    let status = status_of(alloc, disk, case);
    let out = match case.out {
        Some(new) => bytes_of(new),
        None => OLD.as_slice(),
    };
    Ok(status == Some(case.status) && has_out(disk, out)?)
}

const NO_TERMINAL: Terminals = Terminals {
    output: false,
    errors: false,
};

const TERMINALS: Terminals = Terminals {
    output: true,
    errors: true,
};

const FAILING: Manner = Manner {
    failures: 1,
    ..Manner::SOUND
};

#[rattlefmt::skip]
#[test]
fn a_command_leaves_its_status_and_out(rt: HostRuntime) -> Result<(), Fail> {
    static CASES: [Served; 8] = [
        Served {
            what: "OUT gets the answer",
            words: &["dexasm", "strip", "in.dex", "--output", "out"],
            terminals: NO_TERMINAL,
            manner: Manner::SOUND,
            status: 0,
            message: b"",
            out: Some(Given::File),
        },
        Served {
            what: "OUT gets a short answer",
            words: &["dexasm", "check", "in.dex", "--output", "out"],
            terminals: NO_TERMINAL,
            manner: Manner::SOUND,
            status: 0,
            message: b"",
            out: Some(Given::Okay),
        },
        Served {
            what: "FILE is refused",
            words: &["dexasm", "list", "--output", "out", "in.txt"],
            terminals: NO_TERMINAL,
            manner: Manner::SOUND,
            status: 1,
            message: b"dexasm: refused 2 Magic at 0\n",
            out: None,
        },
        Served {
            what: "FILE is missing",
            words: &["dexasm", "strip", "--output", "out", "missing.dex"],
            terminals: NO_TERMINAL,
            manner: Manner::SOUND,
            status: 3,
            message: b"dexasm: cannot read\n",
            out: None,
        },
        Served {
            what: "the first call fails",
            words: &["dexasm", "strip", "in.dex", "--output", "out"],
            terminals: NO_TERMINAL,
            manner: FAILING,
            status: 3,
            message: b"dexasm: cannot write\n",
            out: None,
        },
        Served {
            what: "a .dex file isn't put on a terminal",
            words: &["dexasm", "strip", "in.dex", "-o", "-"],
            terminals: TERMINALS,
            manner: Manner::SOUND,
            status: 2,
            message: b"dexasm: a .dex file isn't for a terminal: use --output FILE or a pipe\n",
            out: None,
        },
        Served {
            what: "OUT gets the answer beside a terminal",
            words: &["dexasm", "strip", "in.dex", "-o", "out"],
            terminals: TERMINALS,
            manner: Manner::SOUND,
            status: 0,
            message: b"",
            out: Some(Given::File),
        },
        Served {
            what: "a terminal is message what is wrong",
            words: &["dexasm", "list", "--output", "out", "in.txt"],
            terminals: TERMINALS,
            manner: Manner::SOUND,
            status: 1,
            message: b"dexasm: refused 2 Magic at 0\n  this is no .dex file\n",
            out: None,
        },
    ];
    all_hold(rt.alloc(), &CASES)
}
