//! LEB128 numbers, read and written.

use dex_base::{Fault, put_sleb, put_uleb, read_sleb, read_uleb};
use dex_samples::{Case, all_hold};
use std::alloc::Global;
use std::test::Fail;

#[derive(Clone, Copy)]
enum Number {
    Unsigned(u32),
    Signed(i32),
}

/// What is asked.
#[derive(Clone, Copy)]
enum Way {
    // the number at the front of the bytes, and its length
    ReadUnsigned(&'static [u8], Option<(u32, usize)>),
    ReadSigned(&'static [u8], Option<(i32, usize)>),
    // the bytes of a number
    Put(Number, &'static [u8]),
}

/// A name for the case, and what is asked.
struct Leb(&'static str, Way);

impl Case for Leb {
    fn name(&self) -> &'static str {
        self.0
    }

    fn holds(&self, alloc: Global) -> Result<bool, Fault> {
        match self.1 {
            Way::ReadUnsigned(bytes, want) => Ok(read_uleb(bytes) == want),
            Way::ReadSigned(bytes, want) => Ok(read_sleb(bytes) == want),
            Way::Put(number, want) => is_put_so(alloc, number, want),
        }
    }
}

fn is_put_so(alloc: Global, number: Number, want: &[u8]) -> Result<bool, Fault> {
    let mut out = Vec::from_slice(alloc, &[0xaa])?;
    put(&mut out, number)?;
    Ok(is_after_aa(&out, want))
}

fn put(out: &mut Vec<u8>, number: Number) -> Result<(), Fault> {
    match number {
        Number::Unsigned(number) => Ok(put_uleb(out, number)?),
        Number::Signed(number) => Ok(put_sleb(out, number)?),
    }
}

fn is_after_aa(out: &[u8], want: &[u8]) -> bool {
    match out {
        [0xaa, put @ ..] => put == want,
        _ => false,
    }
}

#[rattlefmt::skip]
#[test]
fn unsigned_and_signed_numbers_are_read(rt: HostRuntime) -> Result<(), Fail> {
    static CASES: [Leb; 23] = [
        Leb("unsigned: 0", Way::ReadUnsigned(&[0x00], Some((0, 1)))),
        Leb("127", Way::ReadUnsigned(&[0x7f], Some((127, 1)))),
        Leb("128", Way::ReadUnsigned(&[0x80, 0x01], Some((128, 2)))),
        Leb("16256", Way::ReadUnsigned(&[0x80, 0x7f], Some((16256, 2)))),
        Leb("a longer spelling than need be", Way::ReadUnsigned(&[0x80, 0x00], Some((0, 2)))),
        Leb("bytes after the number", Way::ReadUnsigned(&[0x05, 0xff, 0xff], Some((5, 1)))),
        Leb("unsigned: the greatest number", Way::ReadUnsigned(&[0xff, 0xff, 0xff, 0xff, 0x0f], Some((4294967295, 5)))),
        Leb("unsigned: one above the greatest", Way::ReadUnsigned(&[0xff, 0xff, 0xff, 0xff, 0x10], None)),
        Leb("six bytes", Way::ReadUnsigned(&[0x80, 0x80, 0x80, 0x80, 0x80, 0x00], None)),
        Leb("no bytes", Way::ReadUnsigned(&[], None)),
        Leb("no last byte", Way::ReadUnsigned(&[0x80], None)),
        Leb("signed: 0", Way::ReadSigned(&[0x00], Some((0, 1)))),
        Leb("1", Way::ReadSigned(&[0x01], Some((1, 1)))),
        Leb("-1", Way::ReadSigned(&[0x7f], Some((-1, 1)))),
        Leb("63", Way::ReadSigned(&[0x3f], Some((63, 1)))),
        Leb("-64", Way::ReadSigned(&[0x40], Some((-64, 1)))),
        Leb("-128", Way::ReadSigned(&[0x80, 0x7f], Some((-128, 2)))),
        Leb("-1, longer than need be", Way::ReadSigned(&[0xff, 0x7f], Some((-1, 2)))),
        Leb("0, longer than need be", Way::ReadSigned(&[0x80, 0x00], Some((0, 2)))),
        Leb("signed: the greatest number", Way::ReadSigned(&[0xff, 0xff, 0xff, 0xff, 0x07], Some((2147483647, 5)))),
        Leb("the least number", Way::ReadSigned(&[0x80, 0x80, 0x80, 0x80, 0x78], Some((-2147483648, 5)))),
        Leb("signed: one above the greatest", Way::ReadSigned(&[0x80, 0x80, 0x80, 0x80, 0x08], None)),
        Leb("one below the least", Way::ReadSigned(&[0xff, 0xff, 0xff, 0xff, 0x77], None)),
    ];
    all_hold(rt.alloc(), &CASES)
}

#[rattlefmt::skip]
#[test]
fn numbers_are_written_shortest_after_what_is_there(rt: HostRuntime) -> Result<(), Fail> {
    static CASES: [Leb; 20] = [
        // Each is written after a byte aa.
        Leb("unsigned: 0", Way::Put(Number::Unsigned(0), &[0x00])),
        Leb("unsigned: 1", Way::Put(Number::Unsigned(1), &[0x01])),
        Leb("127", Way::Put(Number::Unsigned(127), &[0x7f])),
        Leb("128", Way::Put(Number::Unsigned(128), &[0x80, 0x01])),
        Leb("16256", Way::Put(Number::Unsigned(16256), &[0x80, 0x7f])),
        Leb("16384", Way::Put(Number::Unsigned(16384), &[0x80, 0x80, 0x01])),
        Leb("2097152", Way::Put(Number::Unsigned(2097152), &[0x80, 0x80, 0x80, 0x01])),
        Leb("4294967295", Way::Put(Number::Unsigned(4294967295), &[0xff, 0xff, 0xff, 0xff, 0x0f])),
        Leb("300", Way::Put(Number::Unsigned(300), &[0xac, 0x02])),
        Leb("signed: 0", Way::Put(Number::Signed(0), &[0x00])),
        Leb("signed: 1", Way::Put(Number::Signed(1), &[0x01])),
        Leb("-1", Way::Put(Number::Signed(-1), &[0x7f])),
        Leb("63", Way::Put(Number::Signed(63), &[0x3f])),
        Leb("64", Way::Put(Number::Signed(64), &[0xc0, 0x00])),
        Leb("-64", Way::Put(Number::Signed(-64), &[0x40])),
        Leb("-65", Way::Put(Number::Signed(-65), &[0xbf, 0x7f])),
        Leb("-128", Way::Put(Number::Signed(-128), &[0x80, 0x7f])),
        Leb("2147483647", Way::Put(Number::Signed(2147483647), &[0xff, 0xff, 0xff, 0xff, 0x07])),
        Leb("-2147483648", Way::Put(Number::Signed(-2147483648), &[0x80, 0x80, 0x80, 0x80, 0x78])),
        Leb("-300", Way::Put(Number::Signed(-300), &[0xd4, 0x7d])),
    ];
    all_hold(rt.alloc(), &CASES)
}
