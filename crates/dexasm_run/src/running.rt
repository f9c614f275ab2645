//! One run of a job: read all, compute, write all.
ghost use Rattle.std.specs.Prelude.{◌≡◌, ◌<◌, vec_len, true, false, ⊤, IfOk, length, take};
ghost use Rattle.std.specs.Io.KnownBytes.{Keeps};
ghost use Rattle.dexasm_run.specs.Runs.{Answers, BeginsAnswer, MatchRun, Refuses, WritesAll};
ghost use Rattle.dexasm_run.specs.inner.Runs.{ReadsAll};

use crate::answers::answer_owned;
use crate::error::RunFault;
use crate::sink::Sink;
use crate::source::Source;
use dex_base::Seed;
use dexasm_world::Job;
use std::alloc::{AllocError, Global};

/// How many bytes one `take` may give.
const PIECE: usize = 64 * 1024;

/// Reads the source to its end, runs the job on all of its bytes, and writes the complete output.
///
/// `Refused` carries a fault of the job's call, `Input` is returned only if the source failed in this run, `Output`
/// only if the sink did, and `Memory` is the fault 255. After `Refused`, `Input` and `Memory` nothing was written,
/// after `Output` a beginning of the output. An endless source ends in `Memory` or
/// `Input`, since each `take` adds a byte, fails or ends the source, and a vector's length is bounded.
///
/// ```
/// use dexasm_world::Job;
/// use dexasm_run::{Watched, run};
///
/// let listing: &[u8] = b"dex 035 listing 2\n";
/// let mut output = Watched::new(Vec::new(alloc));
/// let job = Job::Assemble { align: false };
/// let done = run(alloc, job, &mut Watched::new(listing), &mut output);
/// assert!(rt; done.is_ok());
/// assert_eq!(rt; output.into_inner().len(), 140);
/// ```
pub fn run<R: Source, W: Sink>(
    alloc: Global,
    job: Job,
    input: &mut R,
    output: &mut W,
) -> Result<(), RunFault>
    requires input_works { R.failed input.old ≡ false }
    requires input_goes_on { R.ended input.old ≡ false }
    requires output_works { W.failed output.old ≡ false }
    ensures bytes { MatchRun result
        (Answers job (R.remaining input.old) (R.remaining input.new) (W.contents output.old) (W.contents output.new))
        (Refuses job (R.remaining input.old) (R.remaining input.new))
        ⊤
        (BeginsAnswer job (R.remaining input.old) (R.remaining input.new) (W.contents output.old) (W.contents output.new))
        ⊤ }
    ensures flags { MatchRun result (R.ended input.new ≡ true) (λ _. R.ended input.new ≡ true)
        (R.failed input.new ≡ true) (W.failed output.new ≡ true) ⊤ }
    ensures unwritten { MatchRun result ⊤ (λ _. Keeps (W.contents output.old) (W.contents output.new))
        (Keeps (W.contents output.old) (W.contents output.new)) ⊤
        (Keeps (W.contents output.old) (W.contents output.new)) }
    ensures blames { MatchRun result ⊤ (λ _. ⊤) (R.blames input.old input.new) ⊤ ⊤ }
{
    run_seeded(alloc, Seed::fixed(), job, input, output)
}

/// `run`, with hashes that begin with this seed, on which nothing else depends.
///
/// ```
/// use dex_base::Seed;
/// use dexasm_world::Job;
/// use dexasm_run::{Watched, run_seeded};
///
/// let listing: &[u8] = b"dex 035 listing 2\n";
/// let mut output = Watched::new(Vec::new(alloc));
/// let job = Job::Assemble { align: false };
/// let done = run_seeded(alloc, Seed::new(0x5eed), job, &mut Watched::new(listing), &mut output);
/// assert!(rt; done.is_ok());
/// assert_eq!(rt; output.into_inner().len(), 140);
/// ```
pub fn run_seeded<R: Source, W: Sink>(
    alloc: Global,
    seed: Seed,
    job: Job,
    input: &mut R,
    output: &mut W,
) -> Result<(), RunFault>
    requires input_works { R.failed input.old ≡ false }
    requires input_goes_on { R.ended input.old ≡ false }
    requires output_works { W.failed output.old ≡ false }
    ensures bytes { MatchRun result
        (Answers job (R.remaining input.old) (R.remaining input.new) (W.contents output.old) (W.contents output.new))
        (Refuses job (R.remaining input.old) (R.remaining input.new))
        ⊤
        (BeginsAnswer job (R.remaining input.old) (R.remaining input.new) (W.contents output.old) (W.contents output.new))
        ⊤ }
    ensures flags { MatchRun result (R.ended input.new ≡ true) (λ _. R.ended input.new ≡ true)
        (R.failed input.new ≡ true) (W.failed output.new ≡ true) ⊤ }
    ensures unwritten { MatchRun result ⊤ (λ _. Keeps (W.contents output.old) (W.contents output.new))
        (Keeps (W.contents output.old) (W.contents output.new)) ⊤
        (Keeps (W.contents output.old) (W.contents output.new)) }
    ensures blames { MatchRun result ⊤ (λ _. ⊤) (R.blames input.old input.new) ⊤ ⊤ }
{
    let given = read_all(alloc, input)?;
    let made = answer_owned(alloc, seed, job, given)?;
    output.put_answer(made)
}

/// The buffer of one `take`.
fn new_piece(alloc: Global) -> Result<Vec<u8>, AllocError>
    ensures { IfOk result (λ piece. 0 < vec_len piece) }
{
    vec![in alloc; 0; PIECE]
}

/// All that the source gives up to its end.
fn read_all<R: Source>(alloc: Global, input: &mut R) -> Result<Vec<u8>, RunFault>
    requires { R.ended input.old ≡ false }
    ensures given { ReadsAll (R.remaining input.old) (R.remaining input.new) (R.failed input.new) (R.ended input.new) result }
    ensures blames { MatchRun result ⊤ (λ _. ⊤) (R.blames input.old input.new) ⊤ ⊤ }
{
    match new_piece(alloc) {
        Ok(mut piece) => gather(alloc, input, piece.as_mut_slice()),
        Err(_) => Err(RunFault::Memory),
    }
}

/// All that the source gives up to its end, taken by way of `piece`.
fn gather<R: Source>(alloc: Global, input: &mut R, piece: &mut [u8]) -> Result<Vec<u8>, RunFault>
    requires goes_on { R.ended input.old ≡ false }
    requires room { 0 < length piece.old }
    ensures given { ReadsAll (R.remaining input.old) (R.remaining input.new) (R.failed input.new) (R.ended input.new) result }
    ensures blames { MatchRun result ⊤ (λ _. ⊤) (R.blames input.old input.new) ⊤ ⊤ }
{
    let mut given = Vec::new(alloc);
    loop {
        let Ok(n) = input.take(piece) else {
            return Err(RunFault::Input);
        };
        if n == 0 {
            return Ok(given);
        }
        if given.extend_from_slice(&piece[..n]).is_err() {
            return Err(RunFault::Memory);
        }
    }
}

/// Puts all the bytes, as many at a time as the sink takes.
///
/// ```
/// use dexasm_run::{Watched, write_all};
///
/// let mut output = Watched::new(Vec::new(alloc));
/// assert!(rt; write_all(b"ok", &mut output).is_ok());
/// assert_eq!(rt; output.into_inner().as_slice(), b"ok".as_slice());
/// ```
pub fn write_all<W: Sink>(made: &[u8], output: &mut W) -> Result<(), RunFault>
    ensures { WritesAll (W.contents output.old) (W.contents output.new) (W.failed output.new) made.now result }
{
    output.put_all(made)
}
