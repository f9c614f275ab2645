//! Numbers at a place in bytes, the low byte first, as all fixed numbers of a .dex file.
ghost use Rattle.std.specs.Prelude.{◌≡◌, ◌+◌, ◌<◌, ◌≤◌, ◌++◌, length, take, drop};
ghost use Rattle.std.specs.List.{AllByRecursion};
ghost use Rattle.dex_base.specs.Fields.{AreBytes, u16_at, u32_at, u16_bytes, u32_bytes};

use byteorder::{ByteOrder, LittleEndian};

/// A law for proofs: each item of a slice of bytes is below 256. Does nothing.
pub fn are_bytes(bytes: &[u8])
    ensures each { AreBytes bytes.now }
    ensures all { AllByRecursion (λ byte. byte < 256) bytes.now }
{}

/// The number of the two bytes at a place, a byte offset.
#[tactic(auto, unfolding(crate::specs::Fields::u16_at))]
pub fn u16_at(bytes: &[u8], place: usize) -> u16
    requires { place + 2 ≤ length bytes.now }
    ensures { result ≡ u16_at bytes.now place }
{
    LittleEndian::read_u16(&bytes[place..])
}

/// The number of the four bytes at a place, a byte offset.
#[tactic(auto, unfolding(crate::specs::Fields::u32_at))]
pub fn u32_at(bytes: &[u8], place: usize) -> u32
    requires { place + 4 ≤ length bytes.now }
    ensures { result ≡ u32_at bytes.now place }
{
    LittleEndian::read_u32(&bytes[place..])
}

/// Writes a number of two bytes at a place, a byte offset. All other bytes stay.
pub fn put_u16_at(bytes: &mut [u8], place: usize, n: u16)
    requires { place + 2 ≤ length bytes.old }
    ensures { bytes.new ≡ take place bytes.old ++ (u16_bytes n ++ drop (place + 2) bytes.old) }
{
    LittleEndian::write_u16(&mut bytes[place..place + 2], n);
}

/// Writes a number of four bytes at a place, a byte offset. All other bytes stay.
pub fn put_u32_at(bytes: &mut [u8], place: usize, n: u32)
    requires { place + 4 ≤ length bytes.old }
    ensures { bytes.new ≡ take place bytes.old ++ (u32_bytes n ++ drop (place + 4) bytes.old) }
{
    LittleEndian::write_u32(&mut bytes[place..place + 4], n);
}
