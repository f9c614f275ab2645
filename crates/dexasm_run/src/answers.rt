//! The output of each job.
ghost use Rattle.std.specs.Prelude.{◌≡◌, ◌≢◌, ◌<◌, ◌++◌, IfOk, IfErr, IsTrue, OnOk};
ghost use Rattle.dex_base.specs.Fault.{memory};
ghost use Rattle.program_types.specs.View.{program, class};
ghost use Rattle.file_read.specs.Refused.{IsRefused};
ghost use Rattle.file_read.specs.inner.ByClass.{rows_left};
ghost use Rattle.program_rules.specs.WellFormed.{WellFormed};
ghost use Rattle.listing_lines.specs.declared.form.Form.TheVariants.{Two};
ghost use Rattle.listing_print.specs.Canon.{class_text};
ghost use Rattle.dexasm_run.specs.Answers.{Answer, Refusal, IsAssembled, IsUnassembled};
ghost use Rattle.dexasm_run.specs.inner.Listed.{HasPrinted};

use bumpalo::Bump;
use code_align::align_all;
use dex_base::{Fault, Seed};
use dexasm_world::Job;
use file_classes::Codes;
use file_read::{ClassReader, check};
use file_write::{strip_seeded, write_seeded};
use listing_lines::Form;
use listing_parse::parse_seeded;
use listing_print::{put_class, put_opening};
use program_types::{Class, Program};
use std::alloc::{AllocError, Global};

/// Returns the complete output of a job on these bytes, or the fault of the call that refused them.
///
/// Check and List refuse what `read` refuses, Strip what `read` or `write` does, Assemble what `parse`, `align_all` (with
/// align) or `write` does; the fault is theirs, with its place: a byte of a file, a line of a listing, a class of the program,
/// or of 80 and 81 how many are needed. 255 is out of memory, at 0.
///
/// ```
/// use dex_file::write;
/// use dex_program::Program;
/// use dexasm_world::Job;
/// use dexasm_run::answer;
///
/// let file = write(alloc, &Program { classes: &[] })?;
/// let output = answer(alloc, Job::Check, &file)?;
/// assert_eq!(rt; output.len(), 3); // ok and a line feed
/// ```
pub fn answer(alloc: Global, job: Job, given: &[u8]) -> Result<Vec<u8>, Fault>
    ensures answered { IfOk result (λ made. Answer job given.now made.items) }
    ensures refused { IfErr result (λ fault. fault ≢ memory → Refusal job given.now fault) }
{
    answer_seeded(alloc, Seed::fixed(), job, given)
}

/// Returns the complete output of a job on these bytes, as `answer` does. Hashes begin with this seed, on which no output depends: a
/// random one for untrusted bytes, whose names could be chosen to collide with a known seed.
///
/// ```
/// use dex_base::Seed;
/// use dexasm_world::Job;
/// use dexasm_run::answer_seeded;
///
/// let file = answer_seeded(alloc, Seed::new(0x5eed), Job::Assemble { align: false }, b"dex 035 listing 2\n")?;
/// assert_eq!(rt; file.len(), 140);
/// ```
pub fn answer_seeded(alloc: Global, seed: Seed, job: Job, given: &[u8]) -> Result<Vec<u8>, Fault>
    ensures answered { IfOk result (λ made. Answer job given.now made.items) }
    ensures refused { IfErr result (λ fault. fault ≢ memory → Refusal job given.now fault) }
{
    match job {
        Job::Check => checked(alloc, given),
        Job::List => list(alloc, given),
        Job::Assemble { align } => assemble(alloc, seed, align, given),
        Job::Strip => strip_seeded(alloc, seed, given),
    }
}

/// Returns the output of a job on bytes that it owns, as `answer_seeded` does. A listing is freed before its file is written, so that both
/// are never in memory.
pub(crate) fn answer_owned(
    alloc: Global,
    seed: Seed,
    job: Job,
    given: Vec<u8>,
) -> Result<Vec<u8>, Fault>
    ensures answered { IfOk result (λ made. Answer job given.items made.items) }
    ensures refused { IfErr result (λ fault. fault ≢ memory → Refusal job given.items fault) }
{
    match job {
        Job::Assemble { align } => assemble_owned(alloc, seed, align, given),
        _ => answer_seeded(alloc, seed, job, &given),
    }
}

/// `ok` and a line feed, where the bytes are a file.
fn checked(alloc: Global, given: &[u8]) -> Result<Vec<u8>, Fault>
    ensures answered { IfOk result (λ made. Answer Job.Check given.now made.items) }
    ensures refused { IfErr result (λ fault. fault ≢ memory → Refusal Job.Check given.now fault) }
{
    check(alloc, given)?;
    Ok(Vec::from_slice(alloc, b"ok\n")?)
}

/// How many code items, and how many bytes of them, may be in memory while a file is listed when the next class is read.
const MANY_CODES: usize = 256;

const MANY_BYTES: usize = 1 << 22;

/// The listing of the file's program. It is read and printed class by class: the code of a few classes is held at a time.
fn list(alloc: Global, given: &[u8]) -> Result<Vec<u8>, Fault>
    ensures answered { IfOk result (λ made. Answer Job.List given.now made.items) }
    ensures refused { IfErr result (λ fault. fault ≢ memory → Refusal Job.List given.now fault) }
{
    let arena = Bump::new(alloc);
    let mut reader = ClassReader::begin(alloc, &arena, given)?;
    let mut codes = Bump::new(alloc);
    let mut text = Vec::new(alloc);
    put_opening(&mut text, Form::Two)?;
    while put_some(alloc, &mut text, &mut reader, &codes)? {
        if codes.reset().is_err() {
            return Err(Fault::MEMORY);
        }
    }
    Ok(text)
}

/// Whether the arena of code is emptied before the next class is read. (A chunk that is kept when it is emptied is free.)
fn are_many(codes: &Codes<'_>) -> bool {
    let used = codes
        .arena
        .allocated_bytes()
        .saturating_sub(codes.arena.chunk_capacity());
    codes.len() >= MANY_CODES || used >= MANY_BYTES
}

/// Appends the next classes of the listing, until much code is in the arena; false after the last class.
fn put_some<'a, 'c>(
    alloc: Global,
    text: &mut Vec<u8>,
    reader: &mut ClassReader<'a>,
    arena: &'c Bump,
) -> Result<bool, Fault>
where
    'a: 'c,
    requires listed { HasPrinted text.old.items reader.old }
    ensures listed { OnOk result (HasPrinted text.new.items reader.new) }
    ensures bytes { reader.new.sections ≡ reader.old.sections }
    ensures fewer { IfOk result (λ more. IsTrue more → rows_left reader.new < rows_left reader.old) }
    ensures whole { IfOk result (λ more. ¬ IsTrue more → Answer Job.List reader.old.sections text.new.items) }
    ensures refused { IfErr result (λ e. e ≢ memory → IsRefused reader.old.sections e) }
{
    let mut codes = Codes::new(alloc, arena);
    loop {
        let Some(class) = reader.next_class(&mut codes)? else {
            return Ok(false);
        };
        put_listed(alloc, text, &class)?;
        if are_many(&codes) {
            return Ok(true);
        }
    }
}

/// A class of the listing.
fn put_listed(alloc: Global, text: &mut Vec<u8>, one: &Class<'_>) -> Result<(), AllocError>
    ensures ok { OnOk result (text.new.items ≡ text.old.items ++ class_text Two (class one.now)) }
{
    put_class(alloc, text, Form::Two, one)
}

/// The file of the listed program, with each code aligned if `align` is set.
fn assemble(alloc: Global, seed: Seed, align: bool, given: &[u8]) -> Result<Vec<u8>, Fault>
    ensures answered { IfOk result (λ made. Answer (Job.Assemble align) given.now made.items) }
    ensures refused { IfErr result (λ fault. fault ≢ memory → Refusal (Job.Assemble align) given.now fault) }
{
    let arena = Bump::new(alloc);
    let listed = parse_seeded(alloc, seed, &arena, given)?;
    file_of(alloc, seed, &arena, &listed, align)
}

/// The file of the listed program, as `assemble` returns it. The listing is freed before the file is written.
fn assemble_owned(alloc: Global, seed: Seed, align: bool, given: Vec<u8>) -> Result<Vec<u8>, Fault>
    ensures answered { IfOk result (λ made. Answer (Job.Assemble align) given.items made.items) }
    ensures refused { IfErr result (λ fault. fault ≢ memory → Refusal (Job.Assemble align) given.items fault) }
{
    let arena = Bump::new(alloc);
    let listed = parse_seeded(alloc, seed, &arena, &given)?;
    drop(given);
    file_of(alloc, seed, &arena, &listed, align)
}

/// The file of a program, with each code aligned if `align` is set.
fn file_of<'a>(
    alloc: Global,
    seed: Seed,
    arena: &'a Bump,
    listed: &Program<'a>,
    align: bool,
) -> Result<Vec<u8>, Fault>
    requires formed { WellFormed (program listed.now) }
    ensures written { IfOk result (λ made. IsAssembled align (program listed.now) made.items) }
    ensures refused { IfErr result (λ fault. fault ≢ memory → IsUnassembled align (program listed.now) fault) }
{
    if align {
        let aligned = align_all(alloc, arena, listed)?;
        return write_seeded(alloc, seed, &aligned);
    }
    write_seeded(alloc, seed, listed)
}
