//! The words of a command line that mean standard input and standard output.
ghost use Rattle.std.specs.Prelude.{◌≡◌};
ghost use Rattle.dexasm_command.specs.Streams.{makes_file, path_of, puts_file};

use dexasm_world::Job;

/// The path that the word is, where it is one: `-` is a standard stream.
pub(crate) fn path_of<'w>(word: Option<&'w str>) -> Option<&'w str>
    ensures { result ≡ path_of word.entry }
{
    match word {
        Some("-") => None,
        _ => word,
    }
}

/// Whether a .dex file goes to standard output.
pub(crate) fn puts_file(job: Job, out: Option<&str>) -> bool
    ensures { result ≡ puts_file job out.entry }
{
    out.is_none() && makes_file(job)
}

/// Whether the job's output is a .dex file.
fn makes_file(job: Job) -> bool
    ensures { result ≡ makes_file job }
{
    match job {
        Job::Check | Job::List => false,
        Job::Assemble { align: _ } | Job::Strip => true,
    }
}
