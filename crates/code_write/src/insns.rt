//! Writing instructions, one after the other.

ghost use Rattle.std.specs.Prelude.{◌≡◌, ◌<◌, ℕ, List, None, length, map, OnOk, IsOkUnless};
ghost use Rattle.dex_base.specs.Fault.{memory};
ghost use Rattle.program_types.specs.View.{insn};
ghost use Rattle.program_types.specs.Content as content;
ghost use Rattle.program_types.specs.Formed.{insn_at, insn_payload, PayloadHolds};
ghost use Rattle.code_rules.specs.inner.Branches.{AreOrigins};
ghost use Rattle.program_types.specs.Operands.{IsOperand};
ghost use Rattle.program_types.specs.Mentions.{names_of_insn};
ghost use Rattle.std.specs.List.{flat_map};
ghost use Rattle.tables_names.specs.Closure.{NameRanks};
ghost use Rattle.tables_names.specs.Noted.{AreRanks};
ghost use Rattle.code_write.specs.Fits.{BranchFits, TargetsFit, OffsetsFit, IsEven};
ghost use Rattle.code_write.specs.inner.Fits.{NameFits};
ghost use Rattle.code_write.specs.inner.Packs.{PutInsns};
ghost use Rattle.code_write.specs.inner.Writing.{PutInsn, PutPayload};

use crate::begins::Begins;
use crate::lowering::lower;
use crate::mentioned::names_in;
use crate::payloads::{distances, int_bytes};
use dex_base::Fault;
use dex_insn::{RawInsn, put_insn};
use program_types::Insn;
use tables_names::Ranks;

/// Appends the payload of a packed switch, whose targets count from the address `at`.
fn put_packed(
    out: &mut Vec<u8>,
    starts: &Begins<'_>,
    at: u32,
    first: i32,
    targets: &[u32],
) -> Result<(), Fault>
    requires operand { IsOperand (length starts.now) (content.Packed first targets.now) }
    requires targets { TargetsFit starts.now at (content.Packed first targets.now) }
    ensures ok { OnOk result (PutPayload starts.now at (content.Packed first targets.now) out.old.items out.new.items) }
    ensures memory { IsOkUnless result memory }
{
    let alloc = *out.allocator();
    let far = distances(alloc, starts, at, targets)?;
    let offsets = int_bytes(alloc, &far)?;
    put_insn(
        out,
        &RawInsn::Packed {
            first,
            offsets: &offsets,
        },
    )
}

/// Appends the payload of a sparse switch, whose targets count from the address `at`.
fn put_sparse(
    out: &mut Vec<u8>,
    starts: &Begins<'_>,
    at: u32,
    keys: &[i32],
    targets: &[u32],
) -> Result<(), Fault>
    requires operand { IsOperand (length starts.now) (content.Sparse keys.now targets.now) }
    requires targets { TargetsFit starts.now at (content.Sparse keys.now targets.now) }
    ensures ok { OnOk result (PutPayload starts.now at (content.Sparse keys.now targets.now) out.old.items out.new.items) }
    ensures memory { IsOkUnless result memory }
{
    let alloc = *out.allocator();
    let far = distances(alloc, starts, at, targets)?;
    let offsets = int_bytes(alloc, &far)?;
    let keys = int_bytes(alloc, keys)?;
    put_insn(
        out,
        &RawInsn::Sparse {
            keys: &keys,
            offsets: &offsets,
        },
    )
}

/// Appends the payload of a fill-array-data.
fn put_array(out: &mut Vec<u8>, width: u16, bytes: &[u8]) -> Result<(), Fault>
    requires { IsOperand 0 (content.Data width bytes.now) }
    ensures ok { OnOk result ((starts : List ℕ) (at : ℕ) → PutPayload starts at (content.Data width bytes.now) out.old.items out.new.items) }
    ensures memory { IsOkUnless result memory }
{
    put_insn(out, &RawInsn::Data { width, bytes })
}

/// Appends an instruction that is no payload.
fn put_plain(
    out: &mut Vec<u8>,
    ranks: &Ranks<'_>,
    indices: &[usize],
    starts: &Begins<'_>,
    at: u32,
    one: &Insn<'_>,
) -> Result<(), Fault>
    requires indices { AreRanks ranks.now (names_of_insn (insn one.now)) indices.now }
    requires plain { insn_payload (insn one.now) ≡ None }
    requires operand { IsOperand (length starts.now) (insn one.now) }
    requires name { NameFits (NameRanks ranks.now) (insn one.now) }
    requires branch { BranchFits starts.now at (insn one.now) }
    ensures ok { OnOk result (PutInsn (NameRanks ranks.now) starts.now at (insn one.now) out.old.items out.new.items) }
    ensures memory { IsOkUnless result memory }
{
    let raw = lower(ranks, indices, starts, at, one);
    put_insn(out, &raw)
}

/// Appends an instruction, whose targets count from the address `at`. `index` is that of its name, if it has one.
#[tactic(auto, unfolding(program_types::specs::Formed::insn_payload, program_types::specs::Formed::insn_targets))]
fn put_one(
    out: &mut Vec<u8>,
    ranks: &Ranks<'_>,
    indices: &[usize],
    starts: &Begins<'_>,
    at: u32,
    one: &Insn<'_>,
) -> Result<(), Fault>
    requires indices { AreRanks ranks.now (names_of_insn (insn one.now)) indices.now }
    requires operand { IsOperand (length starts.now) (insn one.now) }
    requires name { NameFits (NameRanks ranks.now) (insn one.now) }
    requires branch { BranchFits starts.now at (insn one.now) }
    requires targets { TargetsFit starts.now at (insn one.now) }
    ensures ok { OnOk result (PutInsn (NameRanks ranks.now) starts.now at (insn one.now) out.old.items out.new.items) }
    ensures memory { IsOkUnless result memory }
{
    match *one {
        Insn::Packed { first, targets } => put_packed(out, starts, at, first, targets),
        Insn::Sparse { keys, targets } => put_sparse(out, starts, at, keys, targets),
        Insn::Data { width, bytes } => put_array(out, width, bytes),
        _ => put_plain(out, ranks, indices, starts, at, one),
    }
}

/// Appends the instructions, which begin at these addresses and whose targets count from these instructions. What they name
/// has these indices, one by one.
pub(crate) fn put_insns(
    out: &mut Vec<u8>,
    ranks: &Ranks<'_>,
    indices: &[usize],
    starts: &Begins<'_>,
    origins: &[u32],
    insns: &[Insn<'_>],
) -> Result<(), Fault>
    requires indices { AreRanks ranks.now (flat_map names_of_insn (map insn insns.now)) indices.now }
    requires count { length starts.now ≡ length insns.now }
    requires operands { (k : ℕ) → k < length insns.now → IsOperand (length insns.now) (insn_at (map insn insns.now) k) }
    requires names { (k : ℕ) → k < length insns.now → NameFits (NameRanks ranks.now) (insn_at (map insn insns.now) k) }
    requires offsets { (k : ℕ) → k < length insns.now → OffsetsFit (map insn insns.now) starts.now k }
    requires even { (k : ℕ) → k < length insns.now → IsEven (map insn insns.now) starts.now k }
    requires payloads { (k : ℕ) → k < length insns.now → PayloadHolds (map insn insns.now) k }
    requires origins { AreOrigins (map insn insns.now) origins.now }
    ensures ok { OnOk result (PutInsns (NameRanks ranks.now) (map insn insns.now) starts.now out.old.items out.new.items) }
    ensures memory { IsOkUnless result memory }
{
    let mut rest = indices;
    for k in 0..insns.len() {
        let one = &insns[k];
        let (own, others) = rest.split_at(names_in(one));
        put_one(out, ranks, own, starts, starts.at(origins[k]), one)?;
        rest = others;
    }
    Ok(())
}
