//! One instruction with another index, which replaces the one in its units.
ghost use Rattle.std.specs.Prelude.{◌≡◌, ◌+◌, ◌*◌, ◌/◌, ◌%◌, ◌<◌, ◌≤◌, ◌^◌, length, set};
ghost use Rattle.dex_base.specs.Fields.{u16_at, u32_at};
ghost use Rattle.dex_insn.specs.Fields.{field};
ghost use Rattle.dex_insn.specs.Opcodes.{index_kind_of};
ghost use Rattle.dex_insn.specs.Raw.{raw, Raw, units};
ghost use Rattle.dex_insn.specs.RawInsns.{SpellsInsn, register};
ghost use Rattle.file_renumber.specs.inner.InPlace.{with_named, is_padded, with_pad, IsRenumbered};
ghost use Rattle.file_renumber.specs.inner.Renumbered.{number_in, HasNumber, HasShortNumber, CanBeRenumbered};

use crate::numbers::Numbers;
use crate::shapes::{Shape, insn_at, opcode_at, shape_at};
use dex_base::{are_bytes, put_u16_at, put_u32_at, u16_at, u32_at};
use dex_insn::{RawInsn, index_kind_of, size_of};

/// The number of the row that the index of an instruction of this opcode denotes.
fn number_of(numbers: &Numbers, op: u8, index: u32) -> u32
    requires { HasNumber numbers.now op index }
    ensures { result ≡ number_in numbers.now (index_kind_of op) index }
{
    match index_kind_of(op) {
        Some(table) => numbers.of(table, index),
        None => unreachable!(),
    }
}

/// Puts the number of its row in place of the index in the second unit.
fn renumber_short(front: &mut [u8], numbers: &Numbers, op: u8)
    requires inside { 4 ≤ length front.old }
    requires has { HasShortNumber numbers.now op (u16_at front.old 2) }
    ensures { front.new ≡ set (set front.old 2 (number_in numbers.now (index_kind_of op) (u16_at front.old 2) % 256)) 3 (number_in numbers.now (index_kind_of op) (u16_at front.old 2) / 256) }
{
    let index = number_of(numbers, op, u32::from(u16_at(front, 2)));
    put_u16_at(front, 2, index as u16);
}

/// What is kept of the unit of registers C to F of format 35c, of which so many are named.
fn named(third: u16, n: u8) -> u16
    ensures { result ≡ register n 0 (third % 16) + 16 * register n 1 (third / 16 % 16) + 256 * register n 2 (third / 256 % 16) + 4096 * register n 3 (third / 4096) }
{
    match n {
        0 => 0,
        1 => third % 16,
        2 => third % 256,
        3 => third % 4096,
        _ => third,
    }
}

/// What is kept of register G of format 35c, of whose registers so many are named.
fn last_named(last: u8, n: u8) -> u8
    ensures value { result ≡ register n 4 last }
    ensures low { result ≤ last }
{
    if n > 4 { last } else { 0 }
}

/// Puts 0 in place of the registers that an instruction of format 35c doesn't name.
fn clear_unnamed(front: &mut [u8])
    requires { 6 ≤ length front.old }
    ensures { front.new ≡ with_named front.old (field front.old 0 12 4) }
{
    let first = u16_at(front, 0);
    let n = (first / 4096) as u8;
    let last = last_named((first / 256 % 16) as u8, n);
    let third = named(u16_at(front, 4), n);
    front[1] = 16 * n + last;
    put_u16_at(front, 4, third);
}

/// Whether a byte pads the payload: that of an array of an odd number of bytes.
#[tactic(auto, unfolding(dex_insn::specs::Raw::raw))]
fn is_padded(one: &RawInsn<'_>) -> bool
    ensures { result ≡ is_padded (raw one.now) }
{
    match *one {
        RawInsn::Data { bytes, .. } => bytes.len() % 2 == 1,
        _ => false,
    }
}

/// How many units the payload at the front of the units has, and whether a byte pads it.
fn payload_at(front: &[u8]) -> (u64, bool)
    requires { (r : Raw) × SpellsInsn front.now r }
    ensures { (r : Raw) → SpellsInsn front.now r → (result.0 ≡ units r) × (result.1 ≡ is_padded r) }
{
    let one = insn_at(front);
    (size_of(&one), is_padded(&one))
}

/// A law from the type of a slice about its length, for proofs. Does nothing.
fn has_length(bytes: &[u8])
    ensures { length bytes.now < 2 ^ 64 }
{
    let _length = bytes.len();
}

/// Puts 0 in place of the byte that pads the payload at the front of the units, and returns how many units it has.
fn clear_pad(front: &mut [u8]) -> u64
    requires { (r : Raw) × SpellsInsn front.old r }
    ensures { (r : Raw) → SpellsInsn front.old r → (result ≡ units r) × (front.new ≡ with_pad front.old (is_padded r) (units r)) }
{
    has_length(front);
    let (units, padded) = payload_at(front);
    if padded {
        front[2 * units as usize - 1] = 0;
    }
    units
}

/// Puts the number of its row in place of the index of the instruction at the front of the units, if it has one, and 0
/// in bits that no reader uses: registers that format 35c does not name, and the byte that pads an array payload. Returns
/// how many units the instruction has.
pub(crate) fn renumber_front(front: &mut [u8], numbers: &Numbers) -> u64
    requires { (r : Raw) × SpellsInsn front.old r × CanBeRenumbered numbers.now r }
    ensures { (r : Raw) → SpellsInsn front.old r → CanBeRenumbered numbers.now r → IsRenumbered numbers.now front.old front.new result r }
{
    are_bytes(front);
    let op = opcode_at(front);
    match shape_at(front) {
        Shape::Plain(units) => u64::from(units),
        Shape::Short(units) => {
            renumber_short(front, numbers, op);
            u64::from(units)
        }
        Shape::Long => {
            let index = number_of(numbers, op, u32_at(front, 2));
            put_u32_at(front, 2, index);
            3
        }
        Shape::Five => {
            clear_unnamed(front);
            renumber_short(front, numbers, op);
            3
        }
        Shape::Payload => clear_pad(front),
    }
}
