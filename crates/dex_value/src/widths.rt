//! The fewest bytes that a number takes.
ghost use Rattle.std.specs.Prelude.{◌≡◌, ◌+◌, ◌*◌, ◌^◌, ◌<◌, ◌≤◌};
ghost use Rattle.dex_value.specs.inner.Writing.{IsNumberWidth, IsHighWidth, magnitude_of};

/// The fewest bytes that hold the number, one at least.
pub(crate) fn unsigned_width(n: u64) -> usize
    ensures { IsNumberWidth n result }
{
    if n < 1 << 8 {
        1
    } else if n < 1 << 16 {
        2
    } else if n < 1 << 24 {
        3
    } else if n < 1 << 32 {
        4
    } else if n < 1 << 40 {
        5
    } else if n < 1 << 48 {
        6
    } else if n < 1 << 56 {
        7
    } else {
        8
    }
}

/// How far a number is from 0, or from -1 where it is negative.
fn size(n: i64) -> u64
    ensures value { result ≡ magnitude_of n }
    ensures small { result < 2 ^ 63 }
{
    if n < 0 { (-(n + 1)) as u64 } else { n as u64 }
}

/// The fewest bytes that hold the number in two's complement, one at least: one bit is the sign.
pub(crate) fn signed_width(n: i64) -> usize
    ensures { IsNumberWidth (2 * magnitude_of n) result }
{
    unsigned_width(2 * size(n))
}

/// How many of the high bytes of a number of `full` bytes are kept, one at least, where those that are left out are zeros.
pub(crate) fn high_width(bits: u64, full: usize) -> usize
    requires some { 0 < full }
    requires few { full ≤ 8 }
    ensures { IsHighWidth bits full result }
{
    for width in 1..full {
        if bits % 256u64.pow((full - width) as u32) == 0 {
            return width;
        }
    }
    full
}
