//! Instructions and tries as numbers.

use program_types::{Catch, Code, Insn, Try};

/// The digits told so far, and after them so many more.
fn then(sum: u64, scale: u64, more: u64) -> u64 {
    sum.wrapping_mul(scale).wrapping_add(more)
}

/// Targets as pairs of digits, each with 1 added.
fn targets_as_number(targets: &[u32]) -> u64 {
    let mut sum = 0u64;
    for to in targets {
        sum = then(sum, 100, u64::from(*to)).wrapping_add(1);
    }
    sum
}

fn packed_as_number(first: i32, targets: &[u32]) -> u64 {
    if first == 7 {
        return targets_as_number(targets).wrapping_add(57_000);
    }
    targets_as_number(targets).wrapping_add(50_000)
}

fn small_as_number(op: u8, a: u8, b: i8) -> u64 {
    if b == -1 {
        return 20_001 + 100 * u64::from(op) + 10 * u64::from(a);
    }
    20_000 + 100 * u64::from(op) + 10 * u64::from(a)
}

/// An instruction as a number of five digits.
fn as_number(one: &Insn<'_>) -> u64 {
    match *one {
        Insn::I10x { op } => 10_000 + u64::from(op),
        Insn::I11n { op, a, b } => small_as_number(op, a, b),
        Insn::I30t { op, to } => 30_000 + 100 * u64::from(op) + u64::from(to),
        Insn::I31t { op, a, to } => {
            40_000 + 100 * u64::from(op) + 10 * u64::from(a) + u64::from(to)
        }
        Insn::Packed { first, targets } => packed_as_number(first, targets),
        _ => 90_000,
    }
}

/// Instructions as numbers of five digits, one after the other.
pub fn insns_as_number(code: &Code<'_>) -> u64 {
    let mut sum = 0u64;
    for one in code.insns {
        sum = then(sum, 100_000, as_number(one));
    }
    sum
}

/// The first unit of the type's descriptor, and the handler's number.
fn catch_as_number(one: &Catch<'_>) -> u64 {
    let first = match one.ty.text.units.first() {
        Some(unit) => u64::from(*unit),
        None => 0,
    };
    then(first, 10, u64::from(one.at))
}

/// The handler's number, or 9.
fn catch_all_as_number(at: Option<u32>) -> u64 {
    match at {
        None => 9,
        Some(number) => u64::from(number),
    }
}

/// Its handlers as three digits each, then its catch-all, its end and its begin.
fn try_as_number(one: &Try<'_>) -> u64 {
    let mut sum = 0u64;
    for c in one.catches {
        sum = then(sum, 1000, catch_as_number(c));
    }
    let with_all = then(sum, 10, catch_all_as_number(one.catch_all));
    then(
        then(with_all, 10, u64::from(one.to)),
        10,
        u64::from(one.from),
    )
}

/// The tries, one after the other.
pub fn tries_as_number(code: &Code<'_>) -> u64 {
    let mut sum = 0u64;
    for one in code.tries {
        sum = then(sum, 100_000, try_as_number(one));
    }
    sum
}
