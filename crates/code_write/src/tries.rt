//! Whether the counts of tries and the offsets of their handlers fit.

ghost use Rattle.std.specs.Prelude.{◌≡◌, ◌<◌, ◌≤◌, ◌+◌, ◌*◌, ◌^◌, ◌↔◌, ℕ, false, length, map, slice_index, IsTrue, IfOk, IsOkUnless};
ghost use Rattle.std.specs.List.{AllByRecursion, flat_map};
ghost use Rattle.dex_base.specs.Fault.{memory};
ghost use Rattle.program_types.specs.Formed.{try_at, TryFormed};
ghost use Rattle.program_types.specs.Mentions.{names_of_try};
ghost use Rattle.program_types.specs.View.{try};
ghost use Rattle.tables_names.specs.Closure.{NameRanks};
ghost use Rattle.code_write.specs.Fits.{TryFits, HandlersAreNear, HasIndexBelow, SomeHandlerIsFar, catches_in};

use crate::begins::Begins;
use crate::handlers::lay_handlers;
use dex_base::Fault;
use program_types::Try;
use std::alloc::Global;
use tables_names::Ranks;

/// Whether the units that a try covers fit its count.
fn try_fits(starts: &[u64], tries: &[Try<'_>], i: usize) -> bool
    requires low { (k : ℕ) → k < length starts.now → slice_index starts.now k ≤ 2 ^ 63 }
    requires inside { i < length tries.now }
    requires formed { TryFormed (length starts.now) (map try tries.now) i }
    ensures { IsTrue result ↔ TryFits starts.now (map try tries.now) i }
{
    let one = &tries[i];
    starts[one.to as usize - 1] + 1 <= starts[one.from as usize] + 65535
}

/// Whether the units that each try covers fit its count.
pub(crate) fn tries_fit(starts: &[u64], tries: &[Try<'_>]) -> bool
    requires low { (k : ℕ) → k < length starts.now → slice_index starts.now k ≤ 2 ^ 63 }
    requires formed { (i : ℕ) → i < length tries.now → TryFormed (length starts.now) (map try tries.now) i }
    ensures { IsTrue result ↔ ((i : ℕ) → i < length tries.now → TryFits starts.now (map try tries.now) i) }
{
    for i in 0..tries.len() {
        if !try_fits(starts, tries, i) {
            return false;
        }
    }
    true
}

/// How many catches a try has.
fn count_of(tries: &[Try<'_>], i: usize) -> u64
    requires { i < length tries.now }
    ensures { result ≡ length (try_at (map try tries.now) i).catches }
{
    tries[i].catches.len() as u64
}

/// Whether a code of so many units, with these tries, takes at most 4294967295 bytes.
pub(crate) fn is_short(size: u64, tries: &[Try<'_>]) -> bool
    requires few { length tries.now ≤ 65535 }
    ensures { IsTrue result ↔ (26 + 2 * size + 18 * length tries.now + 10 * catches_in (map try tries.now) ≤ 4294967295) }
{
    if size > 4294967295 {
        return false;
    }
    let mut sum = 26 + 2 * size + 18 * tries.len() as u64;
    for i in 0..tries.len() {
        let count = count_of(tries, i);
        if count > 4294967295 {
            return false;
        }
        sum += 10 * count;
    }
    sum <= 4294967295
}

/// Whether all offsets fit 16 bits.
fn are_near(offsets: &[u32]) -> bool
    ensures { IsTrue result ↔ ((i : ℕ) → i < length offsets.now → slice_index offsets.now i < 65536) }
{
    for i in 0..offsets.len() {
        if offsets[i] > 65535 {
            return false;
        }
    }
    true
}

/// Whether all handlers begin at offsets that fit 16 bits.
pub(crate) fn handlers_fit(
    alloc: Global,
    ranks: &Ranks<'_>,
    starts: &Begins<'_>,
    tries: &[Try<'_>],
) -> Result<bool, Fault>
    requires formed { (i : ℕ) → i < length tries.now → TryFormed (length starts.now) (map try tries.now) i }
    requires ranked { AllByRecursion (HasIndexBelow (NameRanks ranks.now) 4294967296) (flat_map names_of_try (map try tries.now)) }
    requires few { length tries.now ≤ 65535 }
    requires short { 26 + 18 * length tries.now + 10 * catches_in (map try tries.now) ≤ 4294967295 }
    ensures ok { IfOk result (λ b. IsTrue b ↔ HandlersAreNear (NameRanks ranks.now) starts.now (map try tries.now)) }
    ensures far { IfOk result (λ b. b ≡ false → SomeHandlerIsFar (NameRanks ranks.now) starts.now (map try tries.now)) }
    ensures memory { IsOkUnless result memory }
{
    ranks.rise();
    let laid = lay_handlers(alloc, ranks, starts, tries)?;
    Ok(are_near(&laid.offsets))
}
