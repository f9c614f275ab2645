//! Units from their parts, and units appended.

ghost use Rattle.std.specs.Prelude.{◌≡◌, ◌≤◌, ◌<◌, ◌+◌, ◌*◌, ◌/◌, ◌%◌, ◌++◌, [], ◌∷◌, OnOk, OnErr, IsOk, vec_len, vec_capacity};
ghost use Rattle.std.specs.Int.{cast_unsigned, w32};
ghost use Rattle.dex_insn.specs.Written.{bytes_of};

use std::alloc::AllocError;

/// A unit of an opcode and a byte.
pub(crate) fn pair(op: u8, high: u8) -> u16
    ensures { result ≡ op + 256 * high }
{
    u16::from(op) + 256 * u16::from(high)
}

/// A unit of an opcode and two nibbles.
pub(crate) fn nibbles(op: u8, a: u8, b: u8) -> u16
    requires a_fits { a < 16 }
    requires b_fits { b < 16 }
    ensures { result ≡ op + 256 * a + 4096 * b }
{
    u16::from(op) + 256 * u16::from(a) + 4096 * u16::from(b)
}

/// A unit of four nibbles, the lowest first.
pub(crate) fn four_nibbles(c: u8, d: u8, e: u8, f: u8) -> u16
    requires c_fits { c < 16 }
    requires d_fits { d < 16 }
    requires e_fits { e < 16 }
    requires f_fits { f < 16 }
    ensures { result ≡ c + 16 * d + 256 * e + 4096 * f }
{
    u16::from(c) + 16 * u16::from(d) + 256 * u16::from(e) + 4096 * u16::from(f)
}

/// The low 16 bits of a number.
pub(crate) fn low_half(x: i32) -> u16
    ensures { result ≡ cast_unsigned w32 x % 65536 }
{
    (x.cast_unsigned() % 65536) as u16
}

/// The high 16 bits of a number.
pub(crate) fn high_half(x: i32) -> u16
    ensures { result ≡ cast_unsigned w32 x / 65536 }
{
    (x.cast_unsigned() / 65536) as u16
}

/// Appends one unit.
pub(crate) fn put_one(out: &mut Vec<u8>, u0: u16) -> Result<(), AllocError>
    ensures ok { OnOk result (out.new.items ≡ out.old.items ++ bytes_of (u0 ∷ [])) }
    ensures err { OnErr result (out.new.items ≡ out.old.items) }
    ensures capacity { vec_capacity out.old ≤ vec_capacity out.new }
    ensures room { vec_len out.old + 2 ≤ vec_capacity out.old → IsOk result }
{
    out.extend_from_slice(&u0.to_le_bytes())
}

/// Appends two units.
pub(crate) fn put_two(out: &mut Vec<u8>, u0: u16, u1: u16) -> Result<(), AllocError>
    ensures ok { OnOk result (out.new.items ≡ out.old.items ++ bytes_of (u0 ∷ u1 ∷ [])) }
    ensures err { OnErr result (out.new.items ≡ out.old.items) }
    ensures capacity { vec_capacity out.old ≤ vec_capacity out.new }
    ensures room { vec_len out.old + 4 ≤ vec_capacity out.old → IsOk result }
{
    let u0 = u0.to_le_bytes();
    let u1 = u1.to_le_bytes();
    out.extend_from_slice(&[u0[0], u0[1], u1[0], u1[1]])
}

/// Appends three units.
pub(crate) fn put_three(out: &mut Vec<u8>, u0: u16, u1: u16, u2: u16) -> Result<(), AllocError>
    ensures ok { OnOk result (out.new.items ≡ out.old.items ++ bytes_of (u0 ∷ u1 ∷ u2 ∷ [])) }
    ensures err { OnErr result (out.new.items ≡ out.old.items) }
    ensures capacity { vec_capacity out.old ≤ vec_capacity out.new }
    ensures room { vec_len out.old + 6 ≤ vec_capacity out.old → IsOk result }
{
    let u0 = u0.to_le_bytes();
    let u1 = u1.to_le_bytes();
    let u2 = u2.to_le_bytes();
    out.extend_from_slice(&[u0[0], u0[1], u1[0], u1[1], u2[0], u2[1]])
}

/// Appends four units.
pub(crate) fn put_four(
    out: &mut Vec<u8>,
    u0: u16,
    u1: u16,
    u2: u16,
    u3: u16,
) -> Result<(), AllocError>
    ensures ok { OnOk result (out.new.items ≡ out.old.items ++ bytes_of (u0 ∷ u1 ∷ u2 ∷ u3 ∷ [])) }
    ensures err { OnErr result (out.new.items ≡ out.old.items) }
    ensures capacity { vec_capacity out.old ≤ vec_capacity out.new }
    ensures room { vec_len out.old + 8 ≤ vec_capacity out.old → IsOk result }
{
    let u0 = u0.to_le_bytes();
    let u1 = u1.to_le_bytes();
    let u2 = u2.to_le_bytes();
    let u3 = u3.to_le_bytes();
    out.extend_from_slice(&[u0[0], u0[1], u1[0], u1[1], u2[0], u2[1], u3[0], u3[1]])
}

/// Appends five units.
pub(crate) fn put_five(
    out: &mut Vec<u8>,
    u0: u16,
    u1: u16,
    u2: u16,
    u3: u16,
    u4: u16,
) -> Result<(), AllocError>
    ensures ok { OnOk result (out.new.items ≡ out.old.items ++ bytes_of (u0 ∷ u1 ∷ u2 ∷ u3 ∷ u4 ∷ [])) }
    ensures err { OnErr result (out.new.items ≡ out.old.items) }
    ensures capacity { vec_capacity out.old ≤ vec_capacity out.new }
    ensures room { vec_len out.old + 10 ≤ vec_capacity out.old → IsOk result }
{
    let u0 = u0.to_le_bytes();
    let u1 = u1.to_le_bytes();
    let u2 = u2.to_le_bytes();
    let u3 = u3.to_le_bytes();
    let u4 = u4.to_le_bytes();
    out.extend_from_slice(&[
        u0[0], u0[1], u1[0], u1[1], u2[0], u2[1], u3[0], u3[1], u4[0], u4[1],
    ])
}
