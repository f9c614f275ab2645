//! Laws from the type of a slice, for proofs.
ghost use Rattle.std.specs.Prelude.{ℕ, ◌<◌, ◌^◌, slice_index};

/// Each number is below 2 to the power of 32.
pub(crate) fn are_words(words: &[u32])
    ensures { (j : ℕ) → slice_index words.now j < 2 ^ 32 }
{}
