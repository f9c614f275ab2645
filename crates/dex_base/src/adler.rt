//! The checksum Adler-32 (RFC 1950, section 8.2).
ghost use Rattle.std.specs.Prelude.{◌≡◌, ◌+◌, ◌*◌, ◌%◌, ◌<◌, ◌≤◌, length, sum};
ghost use Rattle.dex_base.specs.Adler32.{adler32, weighted_sum};

use std::simd::prelude::*;

/// The greatest prime below 2 ^ 16.
const MODULUS: u32 = 65521;

/// The sums of so many bytes fit 32 bits.
const PIECE: usize = 3800;

#[derive(Clone, Copy)]
struct Sums {
    a: u32,
    b: u32,
}

/// How often a byte counts within its row, by its column.
const WEIGHTS: [u32; 16] = [16, 15, 14, 13, 12, 11, 10, 9, 8, 7, 6, 5, 4, 3, 2, 1];

/// Adds rows of sixteen bytes to both sums, without a remainder: by columns, since byte by byte each sum would wait for
/// the one before.
fn add_rows(a: u32, b: u32, rows: &[u8]) -> Sums
    requires whole { length rows.now % 16 ≡ 0 }
    requires short { length rows.now ≤ 3800 }
    requires a_small { a < 65521 }
    requires b_small { b < 65521 }
    ensures a { result.a ≡ a + sum rows.now }
    ensures b { result.b ≡ b + length rows.now * a + weighted_sum rows.now }
{
    // The sums of the columns, and of what these were before each row.
    let mut sums = u32x16::splat(0);
    let mut late = u32x16::splat(0);
    for k in 0..rows.len() / 16 {
        let row = u8x16::from_slice(&rows[16 * k..]);
        late = late.strict_add(sums);
        sums = sums.strict_add(row.cast::<u32>());
    }
    // A byte counts once for each from it on: sixteen times for each later row, and by its column for its own.
    let within = sums.strict_mul(u32x16::from_array(WEIGHTS));
    Sums {
        a: a + sums.strict_reduce_sum(),
        b: b + rows.len() as u32 * a + 16 * late.strict_reduce_sum() + within.strict_reduce_sum(),
    }
}

/// Adds the bytes to both sums, without a remainder.
fn add_all(a: u32, b: u32, bytes: &[u8]) -> Sums
    requires short { length bytes.now ≤ 3800 }
    requires a_small { a < 65521 }
    requires b_small { b < 65521 }
    ensures a { result.a ≡ a + sum bytes.now }
    ensures b { result.b ≡ b + length bytes.now * a + weighted_sum bytes.now }
{
    let (rows, rest) = bytes.split_at(bytes.len() / 16 * 16);
    let mut sums = add_rows(a, b, rows);
    for byte in rest {
        sums.a += u32::from(*byte);
        sums.b += sums.a;
    }
    sums
}

/// The Adler-32 checksum of the bytes (RFC 1950). Takes no memory.
///
/// ```
/// use dex_base::adler32;
///
/// assert_eq!(rt; adler32(b"abc"), 0x024d0127);
/// ```
pub fn adler32(bytes: &[u8]) -> u32
    ensures { result ≡ adler32 bytes.now }
{
    let mut a = 1;
    let mut b = 0;
    let mut rest = bytes;
    while !rest.is_empty() {
        let (piece, after) = rest.split_at(rest.len().min(PIECE));
        let sums = add_all(a, b, piece);
        a = sums.a % MODULUS;
        b = sums.b % MODULUS;
        rest = after;
    }
    b * 65536 + a
}
