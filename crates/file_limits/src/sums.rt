//! Sums that stop at the greatest number of 64 bits, and so are exact as long as they are within the limit of a file.
ghost use Rattle.std.specs.Prelude.{ℕ, ◌+◌, ◌*◌};
ghost use Rattle.file_limits.specs.inner.Sum.{IsSum};

/// A sum and one more summand.
pub fn plus(sum: u64, more: u64) -> u64
    ensures { (n m : ℕ) → IsSum sum n → IsSum more m → IsSum result (n + m) }
{
    sum.saturating_add(more)
}

/// So many times so much.
pub fn times(count: usize, each: u64) -> u64
    ensures { IsSum result (each * count) }
{
    each.saturating_mul(count as u64)
}
