//! A job carried out: a source, which is FILE or standard input, one run on it, and its output, which goes to standard output, or to OUT
//! when it is complete.
ghost use Rattle.std.specs.Prelude.{◌≡◌, false, true, ⊤};
ghost use Rattle.dexasm_run.specs.Runs.{MatchRun};
ghost use Rattle.dexasm_command.specs.Carried.{CarriesOut, around};
ghost use Rattle.dexasm_command.specs.inner.Carried.{HandsOver};
ghost use Rattle.dexasm_command.specs.inner.Running.{BringsToOut, RunsOn, RunsOnFile, failure_of, file_outcome};

use crate::file_source::FileSource;
use crate::heap;
use dex_base::Seed;
use dexasm_run::{InMemory, RunFault, Sink, Source, run_seeded};
use dexasm_world::{Job, Refusal, World, deliver};
use std::alloc::Global;

/// Carries out the job on the bytes of FILE or of the input, and delivers the output to OUT or to standard output. Hashes begin with the
/// seed.
pub fn carry_out<W: World, I: Source, O: Sink>(
    alloc: Global,
    seed: Seed,
    job: Job,
    file: Option<&str>,
    out: Option<&str>,
    world: &mut W,
    input: &mut I,
    output: &mut O,
) -> Result<(), RunFault>
    requires input_works { I.failed input.old ≡ false }
    requires input_goes_on { I.ended input.old ≡ false }
    requires output_works { O.failed output.old ≡ false }
    ensures { CarriesOut job file.entry out.entry
        (around W.is_known (W.files world.old) (I.remaining input.old) (I.failed input.old) (O.contents output.old) (O.failed output.old))
        (around W.is_known (W.files world.new) (I.remaining input.new) (I.failed input.new) (O.contents output.new) (O.failed output.new))
        result }
{
    heap::prepare(alloc, job);
    match file {
        None => {
            let made = run_on(alloc, seed, job, input, out, output)?;
            bring(alloc, made.as_slice(), out, world)
        }
        Some(path) => {
            let made = run_on_file(alloc, seed, job, world, path, out, output)?;
            bring(alloc, made.as_slice(), out, world)
        }
    }
}

/// Runs the job on a source. Its output goes to standard output or, if there is OUT, is returned.
fn run_on<I: Source, O: Sink>(
    alloc: Global,
    seed: Seed,
    job: Job,
    input: &mut I,
    out: Option<&str>,
    output: &mut O,
) -> Result<Vec<u8>, RunFault>
    requires input_works { I.failed input.old ≡ false }
    requires input_goes_on { I.ended input.old ≡ false }
    requires output_works { O.failed output.old ≡ false }
    ensures runs { RunsOn job out.entry (I.remaining input.old) (I.remaining input.new) (I.failed input.new)
        (O.contents output.old) (O.contents output.new) (O.failed output.new) result }
    ensures blames { MatchRun result ⊤ (λ _. ⊤) (I.blames input.old input.new) ⊤ ⊤ }
{
    let mut made = InMemory::new(alloc);
    match out {
        None => run_seeded(alloc, seed, job, input, output)?,
        Some(_) => match run_seeded(alloc, seed, job, input, &mut made) {
            // It takes no more only where memory runs out.
            Err(RunFault::Output) => return Err(RunFault::Memory),
            done => done?,
        },
    }
    Ok(made.into_vec())
}

/// Runs the job on what FILE holds.
fn run_on_file<W: World, O: Sink>(
    alloc: Global,
    seed: Seed,
    job: Job,
    world: &W,
    path: &str,
    out: Option<&str>,
    output: &mut O,
) -> Result<Vec<u8>, RunFault>
    requires { O.failed output.old ≡ false }
    ensures { RunsOnFile (W.is_known ≡ true) (W.files world.now) path.now job out.entry
        (O.contents output.old) (O.contents output.new) (O.failed output.new) result }
{
    let reader = match world.open(path) {
        Ok(reader) => reader,
        Err(refusal) => return Err(failure_of(refusal)),
    };
    let mut given = FileSource::new(world, reader);
    let made = run_on(alloc, seed, job, &mut given, out, output);
    file_outcome(made, given.refusal)
}

/// What has come of a run on FILE, of which a read was refused, or none.
fn file_outcome(
    made: Result<Vec<u8>, RunFault>,
    refusal: Option<Refusal>,
) -> Result<Vec<u8>, RunFault>
    ensures { result ≡ file_outcome made refusal }
{
    match (made, refusal) {
        (Err(RunFault::Input), Some(refusal)) => Err(failure_of(refusal)),
        (made, _) => made,
    }
}

/// How a run fails where FILE is refused.
fn failure_of(refusal: Refusal) -> RunFault
    ensures { result ≡ failure_of refusal }
{
    match refusal {
        Refusal::Memory => RunFault::Memory,
        Refusal::Missing | Refusal::Other => RunFault::Input,
    }
}

/// Delivers the complete output to OUT, if there is OUT.
fn bring<W: World>(
    alloc: Global,
    answer: &[u8],
    out: Option<&str>,
    world: &mut W,
) -> Result<(), RunFault>
    ensures { BringsToOut (W.is_known ≡ true) (W.files world.old) (W.files world.new) out.entry answer.now result }
{
    match out {
        None => Ok(()),
        Some(path) => hand_over(alloc, answer, path, world),
    }
}

/// Delivers the complete output to OUT.
fn hand_over<W: World>(
    alloc: Global,
    answer: &[u8],
    out: &str,
    world: &mut W,
) -> Result<(), RunFault>
    ensures { HandsOver (W.is_known ≡ true) (W.files world.old) (W.files world.new) out.now answer.now result }
{
    match deliver(alloc, world, out, answer) {
        Ok(()) => Ok(()),
        Err(Refusal::Memory) => Err(RunFault::Memory),
        Err(_) => Err(RunFault::Output),
    }
}
