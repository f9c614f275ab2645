//! A command line, carried out.
ghost use Rattle.std.specs.Prelude.{◌≡◌, false, true, Result, Option};
ghost use Rattle.clap.specs.Words.{kind_of};
ghost use Rattle.dexasm_plan.specs.Plans.{texts_of};
ghost use Rattle.dexasm_command.specs.Reported.{EndsReported, PutsLine, Shows, terminal_line};
ghost use Rattle.dexasm_command.specs.inner.Reported.{Misuses};
ghost use Rattle.dexasm_command.specs.Carried.{around};
ghost use Rattle.dexasm_command.specs.Served.{Serves};

use crate::carrying::carry_out;
use crate::reporting::report;
use crate::shown::shown;
use crate::streams::{path_of, puts_file};
use crate::terminals::Terminals;
use clap::Error;
use dex_base::Seed;
use dexasm_plan::{plan, usage_status};
use dexasm_run::{RunFault, Sink, Source, write_all};
use dexasm_world::World;
use std::alloc::Global;
use std::io;

/// The message if a .dex file would go to a terminal.
const TERMINAL_LINE: &[u8] =
    b"dexasm: a .dex file isn't for a terminal: use --output FILE or a pipe\n";

/// Carries out a command line, whose first word is the program's name, and returns the exit status. Hashes begin with the seed, on
/// which nothing else depends.
pub fn serve<W: World, I: Source, O: Sink, E: Sink>(
    alloc: Global,
    seed: Seed,
    words: &[&str],
    terminals: Terminals,
    world: &mut W,
    input: &mut I,
    output: &mut O,
    errors: &mut E,
) -> u8
    requires input_works { I.failed input.old ≡ false }
    requires input_goes_on { I.ended input.old ≡ false }
    requires output_works { O.failed output.old ≡ false }
    ensures { Serves (record {
      words = texts_of words.entry.now;
      terminals = terminals;
      before = around W.is_known (W.files world.old) (I.remaining input.old) (I.failed input.old) (O.contents output.old) (O.failed output.old);
      after = around W.is_known (W.files world.new) (I.remaining input.new) (I.failed input.new) (O.contents output.new) (O.failed output.new);
      errors_before = E.contents errors.old;
      errors_after = E.contents errors.new;
      errors_failed = E.failed errors.new;
      status = result;
    }) }
{
    match plan(alloc, words) {
        Ok(planned) => {
            let (job, file, out) = (planned.job, path_of(planned.file), path_of(planned.output));
            if terminals.output && puts_file(job, out) {
                return hold_back(errors);
            }
            let done = carry_out(alloc, seed, job, file, out, world, input, output);
            let error = error_of(&done, file, out, world, input, output);
            end(alloc, done, error, terminals.errors, errors)
        }
        Err(error) => misuse(alloc, &error, terminals.errors, output, errors),
    }
}

/// Reports that a .dex file is not for a terminal.
fn hold_back<E: Sink>(errors: &mut E) -> u8
    ensures reported { PutsLine (E.contents errors.old) (E.contents errors.new) (E.failed errors.new) terminal_line }
    ensures status { result ≡ 2 }
{
    // Wrong words stay wrong words where nobody can read what is wrong with them.
    let _ = write_all(TERMINAL_LINE, errors);
    2
}

/// The system's error for a failure: that of the file if one was read or written, otherwise that of the stream.
fn error_of<W: World, I: Source, O: Sink>(
    done: &Result<(), RunFault>,
    file: Option<&str>,
    out: Option<&str>,
    world: &W,
    input: &I,
    output: &O,
) -> Option<io::Error> {
    match done {
        Err(RunFault::Input) if file.is_none() => input.error(),
        Err(RunFault::Output) if out.is_none() => output.error(),
        Err(RunFault::Input | RunFault::Output) => world.error(),
        _ => None,
    }
}

/// Reports a failure.
fn end<E: Sink>(
    alloc: Global,
    done: Result<(), RunFault>,
    error: Option<io::Error>,
    is_terminal: bool,
    errors: &mut E,
) -> u8
    ensures { EndsReported is_terminal done (E.contents errors.old) (E.contents errors.new) (E.failed errors.new) result }
{
    match done {
        Ok(()) => 0,
        Err(fault) => report(alloc, &fault, error, is_terminal, errors),
    }
}

/// A usage error, or a request for help or for the version, which go to standard output; all else goes to standard error.
fn misuse<O: Sink, E: Sink>(
    alloc: Global,
    error: &Error,
    is_terminal: bool,
    output: &mut O,
    errors: &mut E,
) -> u8
    ensures { Misuses is_terminal (kind_of error.now) (O.contents output.old) (O.contents output.new) (O.failed output.new)
        (E.contents errors.old) (E.contents errors.new) (E.failed errors.new) result }
{
    let wrong = error.use_stderr();
    let status = usage_status(error);
    if wrong && status == 4 {
        return report(alloc, &RunFault::Memory, None, is_terminal, errors);
    }
    let Ok(text) = error.to_string(alloc) else {
        return report(alloc, &RunFault::Memory, None, is_terminal, errors);
    };
    if wrong {
        let Ok(text) = shown(alloc, &text) else {
            return report(alloc, &RunFault::Memory, None, is_terminal, errors);
        };
        // Wrong words stay wrong words where nobody can read what is wrong with them.
        let _ = write_all(text.as_bytes(), errors);
        return status;
    }
    show(alloc, &text, is_terminal, output, errors)
}

/// Help or the version.
fn show<O: Sink, E: Sink>(
    alloc: Global,
    text: &str,
    is_terminal: bool,
    output: &mut O,
    errors: &mut E,
) -> u8
    ensures { Shows is_terminal (O.contents output.old) (O.contents output.new) (O.failed output.new)
        (E.contents errors.old) (E.contents errors.new) (E.failed errors.new) text.now result }
{
    let done = write_all(text.as_bytes(), output);
    let error = output.error();
    end(alloc, done, error, is_terminal, errors)
}
