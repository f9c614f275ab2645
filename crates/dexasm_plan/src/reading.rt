//! The plan of a command line.
ghost use Rattle.std.specs.Prelude.{◌≡◌, ◌≢◌, IfOk, IfErr, codes, false, true};
ghost use Rattle.std.specs.Option.{option_map_or};
ghost use Rattle.std.specs.Str.{bytes_eq};
ghost use Rattle.clap.specs.Words.{FailsBy, fault_of, first_value, found_of, has_subcommand, kind_of, subcommand_of, subcommand_rows_of, takes};
ghost use Rattle.dexasm_plan.specs.Commands.{dexasm};
ghost use Rattle.dexasm_plan.specs.Plans.{Plans, job_named, texts_of};

use crate::command::command;
use crate::planned::Plan;
use clap::error::ErrorKind;
use clap::{ArgMatches, Error};
use dexasm_world::Job;
use std::alloc::Global;

/// Reads the program's words, of which the first is its name.
///
/// ```
/// use dexasm_plan::plan;
///
/// let planned = plan(alloc, &["dexasm", "list", "a.dex"]).unwrap();
/// assert_eq!(rt; planned.file, Some("a.dex"));
/// ```
pub fn plan<'w>(alloc: Global, words: &'w [&'w str]) -> Result<Plan<'w>, Error>
    ensures ok { IfOk result (Plans (subcommand_of dexasm (texts_of words.entry.now))) }
    ensures passes { IfErr result (λ e.
        takes dexasm (texts_of words.entry.now) ≡ true → kind_of e ≡ ErrorKind.OutOfMemory) }
    ensures kinds { FailsBy (fault_of dexasm (texts_of words.entry.now)) result }
{
    let matches = match parse(alloc, words) {
        Ok(matches) => matches,
        Err(error) => return Err(error),
    };
    let Some((name, entries)) = matches.subcommand() else {
        unreachable!()
    };
    let Some(job) = job_of(name, is_given(entries, "align")) else {
        unreachable!()
    };
    Ok(Plan {
        job,
        file: entries.get_str("FILE"),
        output: entries.get_str("output"),
    })
}

/// The words as clap reads them: one of the subcommands was met.
fn parse<'w>(alloc: Global, words: &'w [&'w str]) -> Result<ArgMatches<'w>, Error>
    ensures met { IfOk result (λ m. has_subcommand m ≡ true) }
    ensures rows { IfOk result (λ m. subcommand_rows_of m ≡ subcommand_of dexasm (texts_of words.entry.now)) }
    ensures passes { IfErr result (λ e.
        takes dexasm (texts_of words.entry.now) ≡ true → kind_of e ≡ ErrorKind.OutOfMemory) }
    ensures kinds { FailsBy (fault_of dexasm (texts_of words.entry.now)) result }
{
    command(alloc)?.try_get_matches_from(words)
}

/// Whether the flag was given.
fn is_given(entries: &ArgMatches<'_>, id: &str) -> bool
    ensures { result ≡ option_map_or (λ t. bytes_eq t (codes "true")) (first_value (found_of entries.now) id.now) false }
{
    match entries.get_str(id) {
        Some(text) => text == "true",
        None => false,
    }
}

fn job_of(name: &str, align: bool) -> Option<Job>
    ensures { result ≡ job_named name.now align }
{
    match name {
        "check" => Some(Job::Check),
        "list" => Some(Job::List),
        "assemble" => Some(Job::Assemble { align }),
        "strip" => Some(Job::Strip),
        _ => None,
    }
}

/// The exit status for a usage error.
///
/// ```
/// use dexasm_plan::{plan, usage_status};
///
/// let words = ["dexasm", "lisst"];
/// let Err(error) = plan(alloc, &words) else { unreachable!() };
/// assert_eq!(rt; usage_status(&error), 2);
/// ```
pub fn usage_status(error: &Error) -> u8
    ensures help { kind_of error.now ≡ ErrorKind.DisplayHelp → result ≡ 0 }
    ensures memory { kind_of error.now ≡ ErrorKind.OutOfMemory → result ≡ 4 }
    ensures usage { kind_of error.now ≢ ErrorKind.DisplayHelp → kind_of error.now ≢ ErrorKind.OutOfMemory → result ≡ 2 }
{
    match error.kind() {
        ErrorKind::DisplayHelp => 0,
        ErrorKind::OutOfMemory => 4,
        _ => 2,
    }
}
