//! libdexasm: the jobs of dexasm for programs in C and all that call C. `include/dexasm.h` declares the calls.
//!
//! ```c
//! size_t needed;
//! dexasm_fault fault;
//! dexasm_status status = dexasm_list(bytes, length, out, capacity, &needed, &fault);
//! ```
//!
//! A call reads the caller's bytes and writes into the caller's memory. It keeps nothing, and what it takes of the heap it gives back.
//!
//! docs/MAP.md has this crate's place among the others.
#![tactic(auto)]

ghost use Rattle.std.specs.Prelude.{◌≡◌, codes};
ghost use Rattle.dex_base.specs.Fault.{fault_name};
ghost use Rattle.dexasm_c.specs.Calls.{Checks, Ends, Puts};
ghost use Rattle.dexasm_c.specs.Status.{status_of};
ghost use Rattle.dexasm_c.specs.declared.ending.Ending.{Ending as Way};

mod calls;
mod ending;

use calls::{answer_into, check_only, put};
use dex_base::fault_name;
use dexasm_world::Job;
use ending::{CFault, status};
use std::alloc::Global;

/// Whether the bytes are a file.
#[unsafe(no_mangle)]
pub extern "C" fn dexasm_check(alloc: Global, bytes: &[u8], fault: &mut CFault) -> u32
    ensures { (way : Way) × (result ≡ status_of way) × Checks way bytes.now fault.new }
{
    status(check_only(alloc, bytes, fault))
}

/// The listing of a file's program.
#[unsafe(no_mangle)]
pub extern "C" fn dexasm_list(
    alloc: Global,
    bytes: &[u8],
    out: &mut [u8],
    needed: &mut usize,
    fault: &mut CFault,
) -> u32
    ensures { (way : Way) × (result ≡ status_of way)
        × Ends way Job.List bytes.now out.old out.new needed.new fault.new }
{
    status(answer_into(alloc, Job::List, bytes, out, needed, fault))
}

/// The file of a listed program, with `align` of that program aligned.
#[unsafe(no_mangle)]
pub extern "C" fn dexasm_assemble(
    alloc: Global,
    text: &[u8],
    align: bool,
    out: &mut [u8],
    needed: &mut usize,
    fault: &mut CFault,
) -> u32
    ensures { (way : Way) × (result ≡ status_of way)
        × Ends way (Job.Assemble align) text.now out.old out.new needed.new fault.new }
{
    status(answer_into(alloc, Job::Assemble { align }, text, out, needed, fault))
}

/// A file's program, written again without what it doesn't need.
#[unsafe(no_mangle)]
pub extern "C" fn dexasm_strip(
    alloc: Global,
    bytes: &[u8],
    out: &mut [u8],
    needed: &mut usize,
    fault: &mut CFault,
) -> u32
    ensures { (way : Way) × (result ≡ status_of way)
        × Ends way Job.Strip bytes.now out.old out.new needed.new fault.new }
{
    status(answer_into(alloc, Job::Strip, bytes, out, needed, fault))
}

/// The name of a fault's number, `Unknown` for a number that has none.
#[unsafe(no_mangle)]
pub extern "C" fn dexasm_fault_name(code: u16, out: &mut [u8], needed: &mut usize) -> u32
    ensures { (way : Way) × (result ≡ status_of way) × Puts way (fault_name code) out.old out.new needed.new }
{
    status(put(fault_name(code).as_bytes(), out, needed))
}

/// The version, as `0.7.0`.
#[unsafe(no_mangle)]
pub extern "C" fn dexasm_version(out: &mut [u8], needed: &mut usize) -> u32
    ensures { (way : Way) × (result ≡ status_of way) × Puts way (codes "0.7.0-dev") out.old out.new needed.new }
{
    status(put(b"0.7.0-dev", out, needed))
}
