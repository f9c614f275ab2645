//! One call on a whole file or program: `calls NAME`, on standard input, where NAME is `read`, `write`, `strip`, `align_all`, `print`, or
//! the job of a `run` (`run-check`, `run-list`, `run-assemble`, `run-strip`), prints a sum of its result. tools/try memory refuses its
//! requests for memory.

use crate::listing::size_of;
use crate::words::word;
use bumpalo::Bump;
use code_align::align_all;
use dex_base::{Fault, adler32};
use dexasm_run::{RunFault, Watched, run as run_job};
use dexasm_world::Job;
use file_read::read;
use file_write::{strip, write};
use listing_print::print;
use std::alloc::Global;
use std::io;

/// The capacity in bytes that the writer of a run has from the beginning.
const ROOM: usize = 1 << 16;

/// What the call gave, as a number.
fn called(alloc: Global, name: &str, bytes: &[u8]) -> Result<u64, Fault> {
    match name {
        "read" => program_read(alloc, bytes),
        "write" => file_written(alloc, bytes),
        "strip" => Ok(sum_of(&strip(alloc, bytes)?)),
        "align_all" => program_aligned(alloc, bytes),
        "print" => program_printed(alloc, bytes),
        "run-check" => job_run(alloc, Job::Check, bytes),
        "run-assemble" => job_run(alloc, Job::Assemble { align: false }, bytes),
        "run-strip" => job_run(alloc, Job::Strip, bytes),
        _ => job_run(alloc, Job::List, bytes),
    }
}

fn sum_of(bytes: &[u8]) -> u64 {
    u64::from(adler32(bytes))
}

fn program_read(alloc: Global, bytes: &[u8]) -> Result<u64, Fault> {
    let arena = Bump::new(alloc);
    let program = read(alloc, &arena, bytes)?;
    Ok(size_of(&program))
}

fn file_written(alloc: Global, bytes: &[u8]) -> Result<u64, Fault> {
    let arena = Bump::new(alloc);
    let program = read(alloc, &arena, bytes)?;
    Ok(sum_of(&write(alloc, &program)?))
}

fn program_aligned(alloc: Global, bytes: &[u8]) -> Result<u64, Fault> {
    let arena = Bump::new(alloc);
    let program = read(alloc, &arena, bytes)?;
    Ok(size_of(&align_all(alloc, &arena, &program)?))
}

fn program_printed(alloc: Global, bytes: &[u8]) -> Result<u64, Fault> {
    let arena = Bump::new(alloc);
    let program = read(alloc, &arena, bytes)?;
    Ok(sum_of(&print(alloc, &program)?))
}

/// The output of a run into a writer with enough capacity, so that only the run requests memory.
pub fn output_of(alloc: Global, job: Job, bytes: &[u8]) -> Result<Vec<u8>, Fault> {
    let mut output = Watched::new(Vec::with_capacity(alloc, ROOM)?);
    match run_job(alloc, job, &mut Watched::new(bytes), &mut output) {
        Ok(()) => Ok(output.into_inner()),
        Err(RunFault::Refused(fault)) => Err(fault),
        Err(RunFault::Memory) => Err(Fault::MEMORY),
        // Neither a slice nor a vector with room fails.
        Err(RunFault::Input | RunFault::Output) => Ok(Vec::new(alloc)),
    }
}

fn job_run(alloc: Global, job: Job, bytes: &[u8]) -> Result<u64, Fault> {
    Ok(sum_of(&output_of(alloc, job, bytes)?))
}

/// Runs the command of these words.
pub fn run(rt: &(impl Print + Alloc<A = Global>), words: &[&str], bytes: &[u8]) -> io::Result<()> {
    let name = word(words, 0);
    match called(rt.alloc(), name, bytes) {
        Ok(sum) => println!(rt; "{name} {sum}"),
        Err(fault) => println!(rt; "refused {} at {}", fault.code, fault.place),
    }
}
