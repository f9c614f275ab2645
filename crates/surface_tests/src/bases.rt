//! dex_base.
ghost use Rattle.std.specs.Prelude.{◌≤◌, length};

use bumpalo::Bump;
use dex_base::{
    Fault, adler32, cmp_units, fault_name, is_array, is_class, is_descriptor, is_member_name,
    put_mutf8, put_sleb, put_uleb, read_mutf8, read_sleb, read_uleb,
};
use std::alloc::Global;
use std::cmp::Ordering;

pub fn fault(code: u16, place: u64) -> Fault {
    Fault { code, place }
}

pub fn parts_of_fault(fault: Fault) -> (u16, u64) {
    let Fault { code, place } = fault;
    (code, place)
}

pub fn name_of_fault(code: u16) -> &'static str {
    fault_name(code)
}

pub fn unsigned_read(bytes: &[u8]) -> Option<(u32, usize)> {
    read_uleb(bytes)
}

pub fn signed_read(bytes: &[u8]) -> Option<(i32, usize)> {
    read_sleb(bytes)
}

pub fn unsigned_put(out: &mut Vec<u8>, number: u32) -> Result<(), Fault> {
    put_uleb(out, number)
}

pub fn signed_put(out: &mut Vec<u8>, number: i32) -> Result<(), Fault> {
    put_sleb(out, number)
}

pub fn checksum(bytes: &[u8]) -> u32 {
    adler32(bytes)
}

pub fn text_read<'a>(
    alloc: Global,
    arena: &'a Bump,
    bytes: &[u8],
) -> Result<Option<(&'a [u16], usize)>, Fault> {
    read_mutf8(alloc, arena, bytes)
}

pub fn text_put(out: &mut Vec<u8>, units: &[u16]) -> Result<(), Fault>
    requires { length units.now ≤ 4294967295 }
{
    put_mutf8(out, units)
}

pub fn order_of_texts(a: &[u16], b: &[u16]) -> Ordering {
    cmp_units(a, b)
}

pub fn kinds_of_text(units: &[u16]) -> [bool; 4] {
    [
        is_descriptor(units),
        is_class(units),
        is_array(units),
        is_member_name(units),
    ]
}
