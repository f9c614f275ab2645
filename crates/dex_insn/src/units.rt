//! Numbers in bytes that are read as 16-bit units.

ghost use Rattle.std.specs.Prelude.{◌≡◌, ◌+◌, ◌*◌, ◌/◌, ◌%◌, ◌<◌, ◌≤◌, length};
ghost use Rattle.dex_insn.specs.Fields.{number, signed};

use byteorder::{ByteOrder, LittleEndian};

/// Unit `k`.
#[inline(always)]
#[tactic(auto, unfolding(crate::specs::Fields::number))]
pub(crate) fn unit(bytes: &[u8], k: usize) -> u16
    requires { 2 * k + 2 ≤ length bytes.now }
    ensures { result ≡ number bytes.now k 1 }
{
    LittleEndian::read_u16(&bytes[2 * k..])
}

/// The number in two units from unit `k` on.
#[inline(always)]
#[tactic(auto, unfolding(crate::specs::Fields::number))]
pub(crate) fn two_units(bytes: &[u8], k: usize) -> u32
    requires { 2 * k + 4 ≤ length bytes.now }
    ensures { result ≡ number bytes.now k 2 }
{
    LittleEndian::read_u32(&bytes[2 * k..])
}

/// The number in four units from unit `k` on.
#[inline(always)]
#[tactic(auto, unfolding(crate::specs::Fields::number))]
pub(crate) fn four_units(bytes: &[u8], k: usize) -> u64
    requires { 2 * k + 8 ≤ length bytes.now }
    ensures { result ≡ number bytes.now k 4 }
{
    LittleEndian::read_u64(&bytes[2 * k..])
}

/// Four bits as a signed number.
#[inline(always)]
pub(crate) fn signed_nibble(bits: u8) -> i8
    requires { bits < 16 }
    ensures { result ≡ signed 4 bits }
{
    if bits < 8 {
        bits as i8
    } else {
        bits as i8 - 16
    }
}

/// The low byte of a unit.
#[inline(always)]
pub(crate) fn low_byte(unit: u16) -> u8
    ensures { result ≡ unit % 256 }
{
    unit.to_le_bytes()[0]
}

/// The high byte of a unit.
#[inline(always)]
pub(crate) fn high_byte(unit: u16) -> u8
    ensures { result ≡ unit / 256 }
{
    unit.to_le_bytes()[1]
}

/// Unit 1 as a signed number, as the branch offsets of 16 bits are.
#[inline(always)]
pub(crate) fn signed_unit(front: &[u8]) -> i32
    requires { 4 ≤ length front.now }
    ensures { result ≡ signed 16 (number front.now 1 1) }
{
    i32::from(unit(front, 1).cast_signed())
}
