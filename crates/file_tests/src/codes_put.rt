//! Codes by hand: where their instructions begin, whether they fit, their bytes, and what is aligned.

ghost use Rattle.std.specs.Prelude.{◌≡◌, ◌≤◌, []};
ghost use Rattle.std.specs.List.{flat_map};
ghost use Rattle.code_write.specs.Fits.{wide_code};
ghost use Rattle.program_types.specs.Mentions.{names_of_insn, names_of_try};
ghost use Rattle.program_types.specs.View as view;

use crate::codes_as_numbers::insns_as_number;
use bumpalo::Bump;
use code_align::align;
use code_write::addresses;
use dex_base::{Fault, fault};
use dex_samples::{Case, all_hold};
use program_types::{Code, Insn, Try};
use put_samples::{LOOP, is_formed, no_ranks, put_nameless};
use std::alloc::Global;
use std::test::Fail;

/// The code item of LOOP.
static ITEM: [u8; 39] = [
    1, 0, 0, 0, 0, 0, 1, 0, 0, 0, 0, 0, 5, 0, 0, 0, 0x12, 0, 0x38, 0, 3, 0, 0x28, 0xfe, 0x0e, 0, 0,
    0, 1, 0, 0, 0, 3, 0, 1, 0, 1, 0, 4,
];

/// const-wide, return-void, and a try of the first, which has five units.
static COUNTED: Code<'static> = Code {
    registers: 2,
    ins: 0,
    outs: 0,
    insns: &[WIDE, Insn::I10x { op: 0x0e }],
    tries: &[Try {
        from: 0,
        to: 1,
        catches: &[],
        catch_all: Some(1),
    }],
};

/// Its code item: six units, then the try of start 0 and count 5, then its handler at address 5.
static COUNTED_ITEM: [u8; 39] = [
    2, 0, 0, 0, 0, 0, 1, 0, 0, 0, 0, 0, 6, 0, 0, 0, 0x18, 0, 0, 0, 0, 0, 0, 0, 0, 0, 0x0e, 0, 0, 0,
    0, 0, 5, 0, 1, 0, 1, 0, 5,
];

/// A switch of three units, and its payload right after it.
static ODD: Code<'static> = Code {
    registers: 1,
    ins: 0,
    outs: 0,
    insns: &[
        Insn::I31t {
            op: 0x2b,
            a: 0,
            to: 1,
        },
        Insn::Packed {
            first: 0,
            targets: &[0],
        },
    ],
    tries: &[],
};

/// Five units.
const WIDE: Insn<'static> = Insn::I51l {
    op: 0x18,
    a: 0,
    b: 0,
};

/// A goto of one unit over 130 units.
#[rattlefmt::skip]
static FAR: Code<'static> = Code {
    registers: 1,
    ins: 0,
    outs: 0,
    insns: &[
        Insn::I10t { op: 0x28, to: 27 },
        WIDE, WIDE, WIDE, WIDE, WIDE, WIDE, WIDE, WIDE, WIDE, WIDE, WIDE, WIDE, WIDE,
        WIDE, WIDE, WIDE, WIDE, WIDE, WIDE, WIDE, WIDE, WIDE, WIDE, WIDE, WIDE, WIDE,
        Insn::I10x { op: 0x0e },
    ],
    tries: &[],
};

/// Whether the instructions begin at these addresses, and end at the last one.
fn begins_at(alloc: Global, code: &Code<'_>, want: &[u64]) -> Result<bool, Fault> {
    if !is_formed(code) {
        return Ok(false);
    }
    let all = addresses(alloc, code)?;
    Ok(all.as_slice() == want)
}

fn item_of(alloc: Global, code: &Code<'_>) -> Result<Vec<u8>, Fault>
    requires insns { flat_map names_of_insn (view.code code.now).insns ≡ [] }
    requires tries { flat_map names_of_try (view.code code.now).tries ≡ [] }
    requires short { wide_code (view.code code.now) ≤ 4294967295 }
{
    let ranks = no_ranks(alloc)?;
    let mut item = Vec::new(alloc);
    put_nameless(&mut item, &ranks, code)?;
    Ok(item)
}

#[tactic(auto, unfolding(program_types::specs::Sizes::insn_units, program_types::specs::Sizes::total))]
fn is_put_so(alloc: Global) -> Result<bool, Fault> {
    let item = item_of(alloc, &LOOP)?;
    Ok(item.as_slice() == ITEM.as_slice())
}

#[tactic(auto, unfolding(program_types::specs::Sizes::insn_units, program_types::specs::Sizes::total))]
fn is_counted_so(alloc: Global) -> Result<bool, Fault> {
    let item = item_of(alloc, &COUNTED)?;
    Ok(item.as_slice() == COUNTED_ITEM.as_slice())
}

/// Whether a code is refused with this fault, at instruction 0.
fn is_refused_so(put: Result<Vec<u8>, Fault>, want: u16) -> bool {
    match put {
        Ok(_) => false,
        Err(refusal) => refusal.code == want && refusal.place == 0,
    }
}

#[tactic(auto, unfolding(program_types::specs::Sizes::insn_units, program_types::specs::Sizes::total))]
fn is_odd_one_refused(alloc: Global) -> bool {
    is_refused_so(item_of(alloc, &ODD), fault::MISALIGNED)
}

#[tactic(auto, unfolding(program_types::specs::Sizes::insn_units, program_types::specs::Sizes::total))]
fn is_far_one_refused(alloc: Global) -> bool {
    is_refused_so(item_of(alloc, &FAR), fault::BRANCH_OUT_OF_REACH)
}

/// The switch, a nop and the payload, whose target is the switch: three, one and six units.
fn is_aligned_so(alloc: Global) -> Result<bool, Fault> {
    let arena = Bump::new(alloc);
    is_aligned_in(alloc, &arena)
}

fn is_aligned_in(alloc: Global, arena: &Bump) -> Result<bool, Fault> {
    if !is_formed(&ODD) {
        return Ok(false);
    }
    let code = align(alloc, arena, &ODD)?;
    Ok(insns_as_number(&code) == 443021000050001 && begins_at(alloc, &code, &[0, 3, 4, 10])?)
}

/// What is asked of the codes.
enum Query {
    Addresses,
    Item,
    Counted,
    Odd,
    Far,
    Aligned,
}

impl Case for Query {
    fn name(&self) -> &'static str {
        match self {
            Query::Addresses => "the addresses of a loop",
            Query::Item => "the item of a loop",
            Query::Counted => "the item of a try of one wide instruction",
            Query::Odd => "a payload at an odd address",
            Query::Far => "a goto over 130 units",
            Query::Aligned => "a payload at an odd address, aligned",
        }
    }

    fn holds(&self, alloc: Global) -> Result<bool, Fault> {
        match self {
            Query::Addresses => begins_at(alloc, &LOOP, &[0, 1, 3, 4, 5]),
            Query::Item => is_put_so(alloc),
            Query::Counted => is_counted_so(alloc),
            Query::Odd => Ok(is_odd_one_refused(alloc)),
            Query::Far => Ok(is_far_one_refused(alloc)),
            Query::Aligned => is_aligned_so(alloc),
        }
    }
}

#[test]
fn codes_by_hand_are_put_and_aligned(rt: HostRuntime) -> Result<(), Fail> {
    static CASES: [Query; 6] = [
        Query::Addresses,
        Query::Item,
        Query::Counted,
        Query::Odd,
        Query::Far,
        Query::Aligned,
    ];
    all_hold(rt.alloc(), &CASES)
}
