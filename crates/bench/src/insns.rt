//! Walks generated code: reads each instruction, and continues after it. `insns MEGABYTES WALKS` prints the sum of all operands
//! over all walks, and the number of instructions. bench/insns/run times it beside
//! bench/insns/plain.rs.

ghost use Rattle.std.specs.Prelude.{◌≤◌};

use crate::words::number;
use dex_insn::{Format, RawInsn, format_of, read_insn, size_of};
use std::alloc::{AllocError, Global};
use std::io;

/// A packed-switch, a sparse-switch and an array payload, of 8, 10 and 7 units.
static PACKED: [u8; 16] = [0, 1, 2, 0, 5, 0, 0, 0, 3, 0, 0, 0, 9, 0, 0, 0];

static SPARSE: [u8; 20] = [0, 2, 2, 0, 1, 0, 0, 0, 7, 0, 0, 0, 3, 0, 0, 0, 9, 0, 0, 0];

static ARRAY: [u8; 14] = [0, 3, 1, 0, 5, 0, 0, 0, 1, 2, 3, 4, 5, 0];

/// The next of a row of numbers that look random.
fn next(state: u64) -> u64 {
    state
        .wrapping_mul(6364136223846793005)
        .wrapping_add(1442695040888963407)
}

/// How many bytes follow the first unit of an instruction of the format.
fn bytes_after(format: Format) -> usize
    ensures { result ≤ 8 }
{
    match format {
        Format::F10x | Format::F12x | Format::F11n | Format::F11x | Format::F10t => 0,
        Format::F51l => 8,
        Format::F30t
        | Format::F32x
        | Format::F31i
        | Format::F31t
        | Format::F31c
        | Format::F35c
        | Format::F3rc => 4,
        _ => 2,
    }
}

/// The high byte of the first unit, made from any byte.
fn high_byte(format: Format, byte: u8) -> u8 {
    match format {
        Format::F10x | Format::F20t | Format::F30t | Format::F32x => 0,
        Format::F35c => byte % 96,
        _ => byte,
    }
}

/// Appends an instruction made from random numbers, or a payload if it is allowed here.
fn put_random(out: &mut Vec<u8>, random: u64) -> Result<(), AllocError> {
    let op = (random / 0x100000000000000) as u8;
    match format_of(op) {
        Some(format) => {
            let high = high_byte(format, (random / 0x1000000000000 % 256) as u8);
            let after = next(random).to_le_bytes();
            out.extend_from_slice(&[op, high])?;
            out.extend_from_slice(&after[..bytes_after(format)])
        }
        None if out.len() % 4 != 0 => Ok(()),
        None if op % 4 == 0 => out.extend_from_slice(&PACKED),
        None if op % 4 == 1 => out.extend_from_slice(&SPARSE),
        None => out.extend_from_slice(&ARRAY),
    }
}

/// What an instruction's operands add up to.
fn weight(insn: &RawInsn<'_>) -> u64 {
    match insn {
        RawInsn::I12x { a, b, .. } => u64::from(*a) + u64::from(*b),
        RawInsn::I22c { index, .. } | RawInsn::I21c { index, .. } => u64::from(*index),
        RawInsn::I35c { regs, index, .. } => u64::from(*index) + u64::from(regs[0]),
        RawInsn::I23x { a, b, c, .. } => u64::from(*a) + u64::from(*b) + u64::from(*c),
        RawInsn::I22b { c, .. } => u64::from(c.cast_unsigned()),
        RawInsn::I21t { offset, .. } => u64::from(offset.cast_unsigned()),
        _ => 1,
    }
}

/// The weights of all instructions, and how many there are.
fn walk(units: &[u8]) -> (u64, u64) {
    let mut at: u32 = 0;
    let mut sum: u64 = 0;
    let mut count: u64 = 0;
    for _ in 0..units.len() {
        let Ok(insn) = read_insn(units, at) else {
            break;
        };
        sum = sum.wrapping_add(weight(&insn));
        count = count.wrapping_add(1);
        at = at.wrapping_add((size_of(&insn) % 0x100000000) as u32);
    }
    (sum, count)
}

/// Runs the command of these words.
pub fn run(rt: &(impl Print + Alloc<A = Global>), words: &[&str]) -> io::Result<()> {
    let (megabytes, walks) = (u64::from(number(words, 0)), u64::from(number(words, 1)));
    let mut units = Vec::new(rt.alloc());
    let mut random: u64 = 1;
    for _ in 0..megabytes.wrapping_mul(1_000_000) {
        if units.len() as u64 / 1_000_000 >= megabytes {
            break;
        }
        random = next(random);
        put_random(&mut units, random)?;
    }
    let (mut sum, mut count) = (0_u64, 0_u64);
    for _ in 0..walks {
        let (weights, insns) = walk(&units);
        sum = sum.wrapping_add(weights);
        count = count.wrapping_add(insns);
    }
    println!(rt; "{sum} {count}")
}
