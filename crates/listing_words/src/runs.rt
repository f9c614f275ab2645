//! How many bytes at the front of a text are of one kind, sixteen at a time.

ghost use Rattle.std.specs.Prelude.{◌≡◌, ◌+◌, ◌≤◌, length};
ghost use Rattle.listing_words.specs.inner.Runs.{IsRunEnd, first_mark};

use std::simd::prelude::*;

/// How many bytes are looked at at once.
const LANES: usize = 16;

/// Bytes that follow each other, `count` of them from `first` on; after 255 comes 0.
#[derive(Clone, Copy)]
pub(crate) struct Kind {
    pub(crate) first: u8,
    pub(crate) count: u8,
}

/// The place of the lowest mark; sixteen, where there is none.
#[inline(always)]
fn first_mark(marks: u64) -> usize
    ensures { result ≡ first_mark marks 16 }
{
    if marks == 0 {
        LANES
    } else {
        marks.trailing_zeros() as usize
    }
}

/// How many of the sixteen bytes from a place on are of the kind, up to the first that isn't.
#[inline(always)]
fn run_among(kind: Kind, text: &[u8], at: usize) -> usize
    requires { at + 16 ≤ length text.now }
    ensures { IsRunEnd kind.first kind.count text.now at (at + 16) (at + result) }
{
    let from_first = u8x16::from_slice(&text[at..]) - u8x16::splat(kind.first);
    first_mark(from_first.simd_ge(u8x16::splat(kind.count)).to_bitmask())
}

/// How many bytes are of the kind, up to the first that isn't, looked at one by one.
#[inline(always)]
fn short_run(kind: Kind, text: &[u8]) -> usize
    ensures { IsRunEnd kind.first kind.count text.now 0 (length text.now) result }
{
    for at in 0..text.len() {
        if text[at].wrapping_sub(kind.first) >= kind.count {
            return at;
        }
    }
    text.len()
}

/// How many bytes are of the kind, up to the first that isn't; all, where there is none.
#[inline(always)]
pub(crate) fn run(kind: Kind, text: &[u8]) -> usize
    ensures { IsRunEnd kind.first kind.count text.now 0 (length text.now) result }
{
    if text.len() < LANES {
        return short_run(kind, text);
    }
    let last = text.len() - LANES;
    let mut at = 0;
    while at < last {
        let here = run_among(kind, text, at);
        if here < LANES {
            return at + here;
        }
        at += LANES;
    }
    // The last sixteen, some of which were seen before.
    last + run_among(kind, text, last)
}
