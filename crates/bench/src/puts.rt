//! Calls each public function that appends, once, on a Vec without spare capacity: `puts` prints for each the sum of the Vec's bytes
//! afterwards, or the fault, and whether the Vec is as it was. tools/try memory refuses each of their requests in turn.

use dex_base::{Fault, adler32, put_mutf8, put_sleb, put_uleb};
use dex_insn::{RawInsn, put_insn};
use program_types::Value;
use put_samples::{LOOP, no_ranks, put_all, put_nameless};
use std::alloc::{AllocError, Global};
use std::io;

/// What a Vec holds before each call.
static BEFORE: [u8; 8] = [1, 2, 3, 4, 5, 6, 7, 8];

/// Units of one, two and three bytes.
static UNITS: [u16; 12] = [
    97, 0x20ac, 0, 98, 0xe9, 0xd800, 99, 0x20ac, 0, 100, 0xe9, 0xdc00,
];

/// The bytes of a fill-array-data-payload.
static DATA: [u8; 20] = [
    1, 2, 3, 4, 5, 6, 7, 8, 9, 10, 11, 12, 13, 14, 15, 16, 17, 18, 19, 20,
];

/// Values of nine bytes and of one.
static VALUES: [Value<'static>; 3] = [
    Value::Long(0x1122334455667788),
    Value::Null,
    Value::Double(0x8877665544332211),
];

/// A Vec that is full.
fn full(alloc: Global) -> Result<Vec<u8>, AllocError> {
    let mut out = Vec::with_capacity(alloc, BEFORE.len())?;
    out.extend_from_slice(&BEFORE)?;
    Ok(out)
}

/// What is appended.
#[derive(Clone, Copy)]
enum Call {
    Uleb,
    Sleb,
    Mutf8,
    Insn,
    Array,
    Code,
}

/// The call's name.
fn name_of(what: Call) -> &'static str {
    match what {
        Call::Uleb => "put_uleb",
        Call::Sleb => "put_sleb",
        Call::Mutf8 => "put_mutf8",
        Call::Insn => "put_insn",
        Call::Array => "put_array",
        Call::Code => "put_code",
    }
}

/// A fill-array-data-payload.
fn put_data(out: &mut Vec<u8>) -> Result<(), Fault> {
    put_insn(
        out,
        &RawInsn::Data {
            width: 4,
            bytes: &DATA,
        },
    )
}

/// The encoded_array of values that name nothing.
fn put_values(out: &mut Vec<u8>) -> Result<(), Fault> {
    let ranks = no_ranks(*out.allocator())?;
    put_all(out, &ranks, &VALUES, false)
}

/// The code item of a loop.
#[tactic(auto, unfolding(program_types::specs::Sizes::insn_units, program_types::specs::Sizes::total))]
fn put_loop(out: &mut Vec<u8>) -> Result<(), Fault> {
    let ranks = no_ranks(*out.allocator())?;
    put_nameless(out, &ranks, &LOOP)
}

/// Makes the call.
fn put(out: &mut Vec<u8>, what: Call) -> Result<(), Fault> {
    match what {
        Call::Uleb => put_uleb(out, 0xffffffff),
        Call::Sleb => put_sleb(out, -0x80000000),
        Call::Mutf8 => put_mutf8(out, &UNITS),
        Call::Insn => put_data(out),
        Call::Array => put_values(out),
        Call::Code => put_loop(out),
    }
}

/// Makes the call on a full Vec, and prints the result.
fn show(rt: &(impl Print + Alloc<A = Global>), what: Call) -> io::Result<()> {
    let name = name_of(what);
    let Ok(mut out) = full(rt.alloc()) else {
        return println!(rt; "{name} not begun");
    };
    match put(&mut out, what) {
        Ok(()) => println!(rt; "{name} {} bytes, {}", out.len(), adler32(&out)),
        Err(fault) if out.as_slice() == BEFORE.as_slice() => {
            println!(rt; "{name} refused {}, as it was", fault.code)
        }
        Err(fault) => println!(rt; "{name} refused {}, {} bytes", fault.code, out.len()),
    }
}

/// Makes each of the calls.
pub fn run(rt: &(impl Print + Alloc<A = Global>)) -> io::Result<()> {
    for what in [
        Call::Uleb,
        Call::Sleb,
        Call::Mutf8,
        Call::Insn,
        Call::Array,
        Call::Code,
    ] {
        show(rt, what)?;
    }
    Ok(())
}
