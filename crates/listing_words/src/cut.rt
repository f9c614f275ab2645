//! Texts cut at a byte.

ghost use Rattle.std.specs.Prelude.{◌≡◌, ◌≢◌, ◌<◌, ◌++◌, length, slice_index, EachIndex};

use crate::runs::{Kind, run};

/// What stands before the first such byte, and the rest; all, where there is none.
pub fn split_before(byte: u8, text: &[u8]) -> (&[u8], &[u8])
    ensures joined { text.now ≡ result.0.now ++ result.1.now }
    ensures before { EachIndex result.0.now (λ k. slice_index result.0.now k ≢ byte) }
    ensures stops { 0 < length result.1.now → slice_index result.1.now 0 ≡ byte }
{
    let others = Kind {
        first: byte.wrapping_add(1),
        count: 255,
    };
    text.split_at(run(others, text))
}
