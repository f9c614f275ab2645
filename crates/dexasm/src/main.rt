//! `dexasm check|list|assemble|strip [FILE] [--output OUT]`: the words of the command line, carried out.
//!
//! Without FILE standard input is read, without `--output` the output goes to standard output; a failure is one line on
//! standard error, and a second one if that is a terminal. The exit status is 0 if the output was written or help was
//! requested, 1 for a refused file or listing, 2 for a usage error, 3 if reading or writing failed, and 4 when out of
//! memory.
//!
//! docs/MAP.md has this crate's place among the others.
#![tactic(auto)]

mod machine;

use dexasm_command::{RunFault, Seed, Sink, Terminals, Watched, report, serve, write_all};
use machine::Machine;
use std::io::IsTerminal;
use std::process::ExitCode;
use std::random::RandomSource;
use std::{env, io};

fn main(rt: HostRuntime) -> ExitCode {
    ExitCode::from(run(&rt))
}

/// Reads the command line and carries it out. The standard streams and files are unbuffered here: large pieces are moved.
fn run(rt: &HostRuntime) -> u8 {
    let mut errors = Watched::new(rt.stderr());
    let args = match env::args(rt) {
        Ok(args) => args,
        Err(error) => return no_words(rt, &error, &mut errors),
    };
    let mut words: Vec<String> = Vec::new(rt.alloc());
    for word in args {
        if words.push(word).is_err() {
            return report(rt.alloc(), &RunFault::Memory, None, false, &mut errors);
        }
    }
    let mut texts = Vec::new(rt.alloc());
    for word in &words {
        if texts.push(word.as_str()).is_err() {
            return report(rt.alloc(), &RunFault::Memory, None, false, &mut errors);
        }
    }
    let terminals = Terminals {
        output: rt.stdout().is_terminal(),
        errors: rt.stderr().is_terminal(),
    };
    serve(
        rt.alloc(),
        drawn(rt),
        texts.as_slice(),
        terminals,
        &mut Machine::new(rt),
        &mut Watched::new(rt.stdin()),
        &mut Watched::new(rt.stdout()),
        &mut errors,
    )
}

/// A seed that cannot be known beforehand; if the system provides none, the fixed one, with the same results.
fn drawn(rt: &HostRuntime) -> Seed {
    let mut bytes = [0; 8];
    match rt.fill_bytes(&mut bytes) {
        Ok(()) => Seed::new(u64::from_le_bytes(bytes)),
        Err(_) => Seed::fixed(),
    }
}

/// Words that could not be read: out of memory, or no text.
fn no_words<E: Sink>(rt: &HostRuntime, error: &io::Error, errors: &mut E) -> u8 {
    if error.kind() == io::ErrorKind::OutOfMemory {
        return report(rt.alloc(), &RunFault::Memory, None, false, errors);
    }
    let _ = write_all(b"dexasm: an argument is not UTF-8\n", errors);
    2
}
