//! The payloads of switches and arrays.

ghost use Rattle.std.specs.Prelude.{◌≡◌, ◌≤◌, ◌+◌, ◌*◌, length, map, IfOk, true};
ghost use Rattle.dex_insn.specs.Fields.{int_at};
ghost use Rattle.dex_insn.specs.Raw.{raw, is_payload};
ghost use Rattle.program_types.specs.Formed.{insn_payload};
ghost use Rattle.program_types.specs.View.{insn};
ghost use Rattle.tables_rows.specs.Names.{NameIsAt};
ghost use Rattle.code_read.specs.Linked.{target_number, payload_of};
ghost use Rattle.code_read.specs.Places.{Rises};
ghost use Rattle.code_read.specs.Symbols.{ints, Resolves};

use crate::places::target_number;
use bumpalo::Bump;
use bumpalo::collections::into_bump_slice;
use byteorder::{ByteOrder, LittleEndian};
use dex_insn::RawInsn;
use program_types::Insn;
use std::alloc::AllocError;
use tables_rows::Tables;

/// Whether an instruction is a payload.
#[tactic(auto, unfolding(dex_insn::specs::Raw::is_payload, dex_insn::specs::Raw::raw))]
pub(crate) fn is_payload(one: &RawInsn<'_>) -> bool
    ensures { result ≡ is_payload (raw one.now) }
{
    matches!(
        one,
        RawInsn::Packed { .. } | RawInsn::Sparse { .. } | RawInsn::Data { .. }
    )
}

/// The `i`-th of the 32-bit signed numbers.
#[tactic(auto, unfolding(dex_insn::specs::Fields::number))]
pub(crate) fn int_at(bytes: &[u8], i: usize) -> i32
    requires { 4 * i + 4 ≤ length bytes.now }
    ensures { result ≡ int_at bytes.now i }
{
    LittleEndian::read_u32(&bytes[4 * i..]).cast_signed()
}

/// The numbers of the target instructions of the offsets.
fn read_targets<'a>(
    arena: &'a Bump,
    starts: &[u32],
    base: u32,
    offsets: &[u8],
) -> Result<&'a [u32], AllocError>
    requires rises { Rises starts.now }
    requires few { length starts.now ≤ 4294967295 }
    ensures ok { IfOk result (λ found. found.now ≡ map (target_number starts.now base) (ints offsets.now)) }
{
    let n = offsets.len() / 4;
    let mut all = Vec::with_capacity(arena, n)?;
    for i in 0..n {
        all.push(target_number(starts, base, int_at(offsets, i)))?;
    }
    Ok(into_bump_slice(all))
}

/// The numbers in the bytes, four bytes each.
fn read_ints<'a>(arena: &'a Bump, bytes: &[u8]) -> Result<&'a [i32], AllocError>
    ensures ok { IfOk result (λ found. found.now ≡ ints bytes.now) }
{
    let n = bytes.len() / 4;
    let mut all = Vec::with_capacity(arena, n)?;
    for i in 0..n {
        all.push(int_at(bytes, i))?;
    }
    Ok(into_bump_slice(all))
}

/// A payload of the same kind, which is empty.
#[tactic(auto, unfolding(crate::specs::Linked::payload_of, program_types::specs::Formed::insn_payload, dex_insn::specs::Raw::is_payload, dex_insn::specs::Raw::raw))]
pub(crate) fn empty_payload<'a>(one: &RawInsn<'_>) -> Insn<'a>
    requires { is_payload (raw one.now) ≡ true }
    ensures { insn_payload (insn result) ≡ payload_of (raw one.now) }
{
    match *one {
        RawInsn::Packed { .. } => Insn::Packed {
            first: 0,
            targets: &[],
        },
        RawInsn::Sparse { .. } => Insn::Sparse {
            keys: &[],
            targets: &[],
        },
        RawInsn::Data { .. } => Insn::Data {
            width: 1,
            bytes: &[],
        },
        _ => unreachable!(),
    }
}

/// The symbolic payload, whose offsets, if it has any, count from the address `base`.
#[tactic(auto, unfolding(crate::specs::Symbols::linked, dex_insn::specs::Raw::is_payload, dex_insn::specs::Raw::raw))]
pub(crate) fn link_payload<'a>(
    arena: &'a Bump,
    tables: &Tables<'_>,
    starts: &[u32],
    base: u32,
    one: &RawInsn<'_>,
) -> Result<Insn<'a>, AllocError>
    requires rises { Rises starts.now }
    requires few { length starts.now ≤ 4294967295 }
    requires payload { is_payload (raw one.now) ≡ true }
    ensures ok { IfOk result (λ i. Resolves (NameIsAt tables.now) (target_number starts.now base) (raw one.now) (insn i)) }
{
    // Only for the proof: what holds of each value of its type.
    let _tables = tables;
    match *one {
        RawInsn::Packed { first, offsets } => Ok(Insn::Packed {
            first,
            targets: read_targets(arena, starts, base, offsets)?,
        }),
        RawInsn::Sparse { keys, offsets } => Ok(Insn::Sparse {
            keys: read_ints(arena, keys)?,
            targets: read_targets(arena, starts, base, offsets)?,
        }),
        RawInsn::Data { width, bytes } => Ok(Insn::Data {
            width,
            bytes: arena.try_alloc_slice_copy(bytes)?,
        }),
        _ => unreachable!(),
    }
}
