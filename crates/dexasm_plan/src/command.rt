//! The command line, by clap's builder.
ghost use Rattle.std.specs.Prelude.{◌≡◌, IfOk, codes, false};
ghost use Rattle.clap.specs.Words.{app_of, rule_of, with_rule, with_subcommand};
ghost use Rattle.clap.specs.declared.builder.command.Command.TheViews.{out-Command};
ghost use Rattle.dexasm_plan.specs.Commands.{align_rule, dexasm, file_rule, job_app, output_rule, top_app};

use crate::texts;
use clap::{Arg, ArgAction, Command};
use std::alloc::{AllocError, Global};

/// `dexasm` with its four subcommands.
pub(crate) fn command<'w>(alloc: Global) -> Result<Command<'w>, AllocError>
    ensures shape { IfOk result (λ c. app_of c ≡ dexasm) }
    ensures local { IfOk result (λ c. (out-Command c).has_globals ≡ false) }
{
    let whole = with_job(alloc, tool(alloc), "check", texts::CHECK, texts::CHECK_MORE)?;
    let whole = with_job(alloc, whole, "list", texts::LIST, texts::LIST_MORE)?;
    let whole = with_assemble(alloc, whole)?;
    with_job(alloc, whole, "strip", texts::STRIP, texts::STRIP_MORE)
}

/// `dexasm` without a subcommand.
fn tool<'w>(alloc: Global) -> Command<'w>
    ensures shape { app_of result ≡ top_app }
    ensures local { (out-Command result).has_globals ≡ false }
{
    Command::new(alloc, "dexasm")
        .version(texts::VERSION)
        .before_help(texts::HEAD)
        .about(texts::TOOL)
        .after_help(texts::TOOL_MORE)
        .subcommand_required(true)
        .disable_help_subcommand(true)
}

/// The command with a job's subcommand after its others.
fn with_job<'w>(
    alloc: Global,
    whole: Command<'w>,
    name: &'w str,
    about: &'w str,
    more: &'w str,
) -> Result<Command<'w>, AllocError>
    ensures shape { IfOk result (λ c. app_of c ≡ with_subcommand (app_of whole.entry) (job_app name.entry.now).top) }
    ensures local { (out-Command whole.entry).has_globals ≡ false → IfOk result (λ c. (out-Command c).has_globals ≡ false) }
{
    whole.subcommand(job_command(alloc, name, about, more)?)
}

/// The command with `assemble` after its others.
fn with_assemble<'w>(alloc: Global, whole: Command<'w>) -> Result<Command<'w>, AllocError>
    ensures shape { IfOk result (λ c. app_of c ≡ with_subcommand (app_of whole.entry) (with_rule (job_app (codes "assemble")) align_rule).top) }
    ensures local { (out-Command whole.entry).has_globals ≡ false → IfOk result (λ c. (out-Command c).has_globals ≡ false) }
{
    let align = align_arg(alloc);
    let assemble = job_command(alloc, "assemble", texts::ASSEMBLE, texts::ASSEMBLE_MORE)?;
    whole.subcommand(assemble.arg(align)?)
}

/// A subcommand with a file to read and a file to write.
fn job_command<'w>(
    alloc: Global,
    name: &'w str,
    about: &'w str,
    more: &'w str,
) -> Result<Command<'w>, AllocError>
    ensures shape { IfOk result (λ c. app_of c ≡ job_app name.entry.now) }
    ensures local { IfOk result (λ c. (out-Command c).has_globals ≡ false) }
{
    let file = file_arg(alloc);
    let output = output_arg(alloc);
    Command::new(alloc, name)
        .about(about)
        .after_help(more)
        .arg(file)?
        .arg(output)
}

/// FILE.
fn file_arg<'w>(alloc: Global) -> Arg<'w>
    ensures rule { rule_of result ≡ file_rule }
    ensures local { result.global ≡ false }
{
    Arg::new(alloc, "FILE").help(texts::FILE)
}

/// -o, --output OUT.
fn output_arg<'w>(alloc: Global) -> Arg<'w>
    ensures rule { rule_of result ≡ output_rule }
    ensures local { result.global ≡ false }
{
    Arg::new(alloc, "output")
        .short('o')
        .long("output")
        .value_name("OUT")
        .help(texts::OUTPUT)
}

/// --align.
fn align_arg<'w>(alloc: Global) -> Arg<'w>
    ensures rule { rule_of result ≡ align_rule }
    ensures local { result.global ≡ false }
{
    Arg::new(alloc, "align")
        .long("align")
        .action(ArgAction::SetTrue)
        .help(texts::ALIGN)
}
