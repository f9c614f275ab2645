//! Programs at a limit of a file, and one past it.

use crate::bodies::{Body, arrays, of_body, of_two};
use crate::found::stands_after;
use crate::kept::{aligned_file_of, fault_of, file_of};
use crate::names::{Many, of_many};
use bumpalo::Bump;
use dex_base::{Fault, fault};
use dex_samples::{Case, all_hold};
use program_types::Program;
use std::alloc::Global;
use std::test::Fail;

/// What a program has.
#[derive(Clone, Copy)]
enum Given {
    // a class whose one method has this body
    Body(Body),
    // two classes, each with one method, of these bodies
    Two(Body, Body),
    // names
    Many(Many),
    // 256 methods with one body in memory, whose array is of 2 ^ 24 bytes
    Arrays,
}

/// What is answered.
#[derive(Clone, Copy)]
enum Answer {
    Written,
    // this fault, at this place
    Refused(u16, u64),
    // a file with bytes that stand so far after the begin of its data, where the first code item begins
    Has(usize, &'static [u8]),
    // once the payloads are at even addresses, a file whose data begin so
    Aligned(&'static [u8]),
}

struct Limited(&'static str, Given, Answer);

impl Case for Limited {
    fn name(&self) -> &'static str {
        self.0
    }

    fn holds(&self, alloc: Global) -> Result<bool, Fault> {
        let arena = Bump::new(alloc);
        is_limited_so(alloc, &arena, self)
    }
}

fn is_limited_so(alloc: Global, arena: &Bump, case: &Limited) -> Result<bool, Fault> {
    let program = made(arena, case.1)?;
    match case.2 {
        Answer::Written => Ok(fault_of(alloc, &program) == (0, 0)),
        Answer::Refused(code, place) => Ok(fault_of(alloc, &program) == (code, place)),
        Answer::Has(after, bytes) => has(alloc, &program, after, bytes),
        Answer::Aligned(bytes) => is_aligned(alloc, arena, &program, bytes),
    }
}

fn made<'a>(arena: &'a Bump, given: Given) -> Result<Program<'a>, Fault> {
    match given {
        Given::Body(one) => of_body(arena, one),
        Given::Two(one, other) => of_two(arena, one, other),
        Given::Many(many) => of_many(arena, many),
        Given::Arrays => arrays(arena),
    }
}

fn has(alloc: Global, program: &Program<'_>, after: usize, bytes: &[u8]) -> Result<bool, Fault> {
    let file = file_of(alloc, program)?;
    Ok(stands_after(&file, after, bytes))
}

fn is_aligned<'a>(
    alloc: Global,
    arena: &'a Bump,
    program: &Program<'a>,
    bytes: &[u8],
) -> Result<bool, Fault> {
    let file = aligned_file_of(alloc, arena, program)?;
    Ok(stands_after(&file, 0, bytes))
}

/// The code item of a switch and its payload, with a nop between the two: 2 registers, 10 units.
const ITEM: &[u8] = &[
    2, 0, 0, 0, 0, 0, 0, 0, 0, 0, 0, 0, 10, 0, 0, 0, 0x2b, 0, 4, 0, 0, 0, 0, 0, 0, 1, 1, 0, 0, 0,
    0, 0, 0, 0, 0, 0,
];

#[rattlefmt::skip]
#[test]
fn branches_reach_as_far_as_their_formats_and_payloads_are_aligned(rt: HostRuntime) -> Result<(), Fail> {
    static CASES: [Limited; 13] = [
        Limited("127 ahead", Given::Body(Body::Over(126)), Answer::Written),
        Limited("128 ahead", Given::Body(Body::Over(127)), Answer::Refused(fault::BRANCH_OUT_OF_REACH, 0)),
        Limited("128 back", Given::Body(Body::Back(128)), Answer::Written),
        Limited("129 back", Given::Body(Body::Back(129)), Answer::Refused(fault::BRANCH_OUT_OF_REACH, 0)),
        Limited("32767 ahead", Given::Body(Body::If(32765)), Answer::Written),
        Limited("32768 ahead", Given::Body(Body::If(32766)), Answer::Refused(fault::BRANCH_OUT_OF_REACH, 0)),
        // The lowest limit is told, of the first class that breaks it.
        Limited("none", Given::Two(Body::Nops(1), Body::Nops(2)), Answer::Written),
        Limited(
            "one of the second class", Given::Two(Body::Nops(1), Body::Over(127)),
            Answer::Refused(fault::BRANCH_OUT_OF_REACH, 1),
        ),
        Limited(
            "the same of both", Given::Two(Body::Over(127), Body::Over(128)),
            Answer::Refused(fault::BRANCH_OUT_OF_REACH, 0),
        ),
        Limited(
            "a lower one of the second class", Given::Two(Body::Odd, Body::Over(127)),
            Answer::Refused(fault::BRANCH_OUT_OF_REACH, 1),
        ),
        Limited(
            "a higher one of the second class", Given::Two(Body::Over(127), Body::Odd),
            Answer::Refused(fault::BRANCH_OUT_OF_REACH, 0),
        ),
        // A payload at an odd address is refused, and is aligned.
        Limited("a payload at an odd address", Given::Body(Body::Odd), Answer::Refused(fault::MISALIGNED, 0)),
        Limited("and aligned", Given::Body(Body::Odd), Answer::Aligned(ITEM)),
    ];
    all_hold(rt.alloc(), &CASES)
}

#[rattlefmt::skip]
#[test]
fn the_greatest_offsets_and_counts_are_written(rt: HostRuntime) -> Result<(), Fail> {
    static CASES: [Limited; 5] = [
        // The units stand 16 bytes after the item; the count of the one try 4 bytes after the units, two more
        // where they are odd.
        Limited("127 ahead", Given::Body(Body::Over(126)), Answer::Has(16, &[0x28, 0x7f])),
        Limited("128 back", Given::Body(Body::Back(128)), Answer::Has(272, &[0x28, 0x80])),
        Limited("a try of 65535 nops", Given::Body(Body::Nops(65535)), Answer::Has(131092, &[0xff, 0xff])),
        Limited(
            "a try of 65539 units, the last of them a const-wide", Given::Body(Body::Wide(65534)),
            Answer::Has(131100, &[0xff, 0xff]),
        ),
        Limited("a try of a const-wide, of 5 units", Given::Body(Body::Wide(0)), Answer::Has(32, &[5, 0])),
    ];
    all_hold(rt.alloc(), &CASES)
}

#[rattlefmt::skip]
#[test]
fn tries_cover_and_are_at_most_65535(rt: HostRuntime) -> Result<(), Fail> {
    static CASES: [Limited; 7] = [
        // A handler takes two bytes below address 128, three below 16384, then four, and the first stands at
        // offset 3.
        Limited("65535 units", Given::Body(Body::Nops(65535)), Answer::Written),
        Limited("65536 units", Given::Body(Body::Nops(65536)), Answer::Refused(fault::TRY_TOO_LONG, 0)),
        Limited("the last of 65534 nops and a const-wide at 65534", Given::Body(Body::Wide(65534)), Answer::Written),
        Limited("65535 tries", Given::Body(Body::Tries(65535)), Answer::Written),
        Limited("65536 tries", Given::Body(Body::Tries(65536)), Answer::Refused(fault::TOO_MANY_TRIES, 0)),
        Limited("the last handler at 65535", Given::Body(Body::Handlers(20512)), Answer::Written),
        Limited(
            "the last handler at 65539", Given::Body(Body::Handlers(20513)),
            Answer::Refused(fault::HANDLER_TOO_FAR, 0),
        ),
    ];
    all_hold(rt.alloc(), &CASES)
}

#[rattlefmt::skip]
#[test]
fn a_file_has_less_than_2_to_the_32_bytes(rt: HostRuntime) -> Result<(), Fail> {
    static CASES: [Limited; 1] = [
        Limited("256 arrays of 2 ^ 24 bytes", Given::Arrays, Answer::Refused(fault::TOO_BIG, 0)),
    ];
    all_hold(rt.alloc(), &CASES)
}

#[rattlefmt::skip]
#[test]
fn there_are_at_most_65535_types(rt: HostRuntime) -> Result<(), Fail> {
    static CASES: [Limited; 2] = [
        Limited("65535 types", Given::Many(Many::Types(65534)), Answer::Written),
        Limited("65536 types", Given::Many(Many::Types(65535)), Answer::Refused(fault::TOO_MANY_TYPES, 65536)),
    ];
    all_hold(rt.alloc(), &CASES)
}

#[rattlefmt::skip]
#[test]
fn there_are_65535_prototypes(rt: HostRuntime) -> Result<(), Fail> {
    static CASES: [Limited; 1] = [
        Limited("65535 prototypes", Given::Many(Many::Protos(65535)), Answer::Written),
    ];
    all_hold(rt.alloc(), &CASES)
}

#[rattlefmt::skip]
#[test]
fn there_are_no_65536_prototypes(rt: HostRuntime) -> Result<(), Fail> {
    static CASES: [Limited; 1] = [
        Limited("65536 prototypes", Given::Many(Many::Protos(65536)), Answer::Refused(fault::TOO_MANY_PROTOS, 65536)),
    ];
    all_hold(rt.alloc(), &CASES)
}

#[rattlefmt::skip]
#[test]
fn a_string_is_named_in_16_bits_or_by_jumbo(rt: HostRuntime) -> Result<(), Fail> {
    static CASES: [Limited; 3] = [
        // The other strings are the class's type, `I`, `V`, `m` and the text itself, which is last.
        Limited("the string of index 65535", Given::Many(Many::Text(65531)), Answer::Written),
        Limited("of index 65536", Given::Many(Many::Text(65532)), Answer::Refused(fault::STRING_OUT_OF_REACH, 0)),
        Limited("of index 65536, by jumbo", Given::Many(Many::Jumbo(65532)), Answer::Written),
    ];
    all_hold(rt.alloc(), &CASES)
}

#[rattlefmt::skip]
#[test]
fn a_field_is_named_in_16_bits(rt: HostRuntime) -> Result<(), Fail> {
    static CASES: [Limited; 3] = [
        Limited("65537 fields, none in code", Given::Many(Many::Fields(65537)), Answer::Written),
        Limited("the field of index 65535 in code", Given::Many(Many::Field(65535)), Answer::Written),
        Limited(
            "the field of index 65536 in code", Given::Many(Many::Field(65536)),
            Answer::Refused(fault::FIELD_OUT_OF_REACH, 0),
        ),
    ];
    all_hold(rt.alloc(), &CASES)
}

#[rattlefmt::skip]
#[test]
fn a_method_is_named_in_16_bits(rt: HostRuntime) -> Result<(), Fail> {
    static CASES: [Limited; 2] = [
        Limited("the method of index 65535 in code", Given::Many(Many::Method(65534)), Answer::Written),
        Limited(
            "the method of index 65536 in code", Given::Many(Many::Method(65535)),
            Answer::Refused(fault::METHOD_OUT_OF_REACH, 0),
        ),
    ];
    all_hold(rt.alloc(), &CASES)
}
