//! The instructions of a code that has nothing to do with payloads, as nearly all have none: each is read and resolved at once.

ghost use Rattle.std.specs.Prelude.{◌≡◌, ◌<◌, ◌≤◌, ◌%◌, List, length, IfOk, IfSome};
ghost use Rattle.program_types.specs.Content as content;
ghost use Rattle.program_types.specs.View.{insn};
ghost use Rattle.tables_rows.specs.Names.{NameIsAt};
ghost use Rattle.dex_insn.specs.Raw as spelled;
ghost use Rattle.dex_insn.specs.Raw.{raw, Raw};
ghost use Rattle.dex_insn.specs.RawInsns.{InsnStands};
ghost use Rattle.code_read.specs.Places.{Rises};
ghost use Rattle.code_read.specs.inner.Plain.{is_plain, ResolvesAtOnce, ArePlain};

use crate::keeping::Keep;
use crate::symbols::link;
use crate::walking::MOST_AT_ONCE;
use bumpalo::Bump;
use code_rules::{branch_stays, insn_is_among};
use dex_insn::{Format, RawInsn, Take, format_of, size_of, take_insn};
use program_types::Insn;
use std::alloc::{AllocError, Global};
use tables_rows::Tables;

/// An instruction, and how many units it has.
#[derive(Clone, Copy)]
struct Seen<'a> {
    insn: Insn<'a>,
    units: u64,
}

/// Whether an instruction neither is a payload nor refers to one.
#[inline(always)]
#[tactic(auto, unfolding(crate::specs::inner::Plain::is_plain, dex_insn::specs::Raw::raw))]
pub(crate) fn is_plain(one: &RawInsn<'_>) -> bool
    ensures { result ≡ is_plain (raw one.now) }
{
    !matches!(
        one,
        RawInsn::Packed { .. }
            | RawInsn::Sparse { .. }
            | RawInsn::Data { .. }
            | RawInsn::I31t { .. }
    )
}

/// Makes the symbolic instruction from the one read at the unit `at`, which is number `k` of a code with so many registers whose
/// instructions begin at these units. `None` for payload instructions and if a rule is violated.
#[derive(Clone, Copy)]
struct Link<'t, 'a, 's> {
    tables: &'t Tables<'a>,
    starts: &'s [u32],
    registers: u16,
    at: u32,
    k: usize,
    ghost rises: { Rises starts.now },
    ghost few: { length starts.now ≤ 4294967295 },
}

impl<'a, 'b> Take<'b> for Link<'_, 'a, '_> {
    type Out = Option<Seen<'a>>;

    ghost takes = { λ l r out. IfSome out (λ s. ResolvesAtOnce (NameIsAt l.tables.now) l.starts.now l.registers l.at l.k r (insn s.insn) × (s.units ≡ spelled.units r)) };

    #[inline(always)]
    fn take(self, one: RawInsn<'b>) -> Option<Seen<'a>> {
        if !is_plain(&one) {
            return None;
        }
        let insn = link(self.tables, self.starts, self.at, &one)?;
        let stays = branch_stays(&insn, self.starts.len(), self.k);
        if !stays || !insn_is_among(self.registers, &insn) {
            return None;
        }
        Some(Seen {
            insn,
            units: size_of(&one),
        })
    }
}

/// The instruction at the unit `at` of a code of so many registers, whose instructions begin at these units: number `k`. None where there is
/// none, and where it has to do with payloads or breaks a rule.
#[inline(always)]
fn insn_at<'a>(
    tables: &Tables<'a>,
    starts: &[u32],
    at: u32,
    k: usize,
    units: &[u8],
    registers: u16,
) -> Option<Seen<'a>>
    requires rises { Rises starts.now }
    requires few { length starts.now ≤ 4294967295 }
    ensures { IfSome result (λ s. (r : Raw) × InsnStands units.now at r × ResolvesAtOnce (NameIsAt tables.now) starts.now registers at k r (insn s.insn) × (s.units ≡ spelled.units r)) }
{
    let link = Link {
        tables,
        starts,
        registers,
        at,
        k,
    };
    match take_insn(units, at, link) {
        Ok(seen) => seen,
        Err(_) => None,
    }
}

/// How many units an instruction with this opcode has. None where the opcode is unused, and where the instruction refers to a payload.
fn units_of(op: u8) -> Option<u64>
    ensures { IfSome result (λ n. (0 < n) × (n ≤ 5)) }
{
    match format_of(op) {
        Some(Format::F31t) | None => None,
        Some(format) => Some(format.units() as u64),
    }
}

/// The units at which instructions begin, by their opcodes alone. None where an opcode is unused or refers to a payload.
pub(crate) fn starts_of(alloc: Global, units: &[u8]) -> Result<Option<Vec<u32>>, AllocError>
    requires even { length units.now % 2 ≡ 0 }
    requires short { length units.now ≤ 8589934590 }
    ensures rises { IfOk result (λ o. IfSome o (λ starts. Rises starts.items × (length starts.items ≤ 4294967295))) }
{
    let room = (units.len() / 4).min(MOST_AT_ONCE);
    let mut starts = Vec::with_capacity(alloc, room)?;
    let end = units.len() as u64 / 2;
    let mut at: u64 = 0;
    while at < end {
        let Some(count) = units_of(units[2 * at as usize]) else {
            return Ok(None);
        };
        starts.push(at as u32)?;
        at += count;
    }
    Ok(Some(starts))
}

/// What is kept of all instructions, where they begin at these units; none where they don't, and where one breaks a rule.
pub(crate) fn insns_at<'a, K: Keep<'a>>(
    arena: &'a Bump,
    tables: &Tables<'a>,
    starts: &[u32],
    units: &[u8],
    registers: u16,
) -> Result<Option<K::Insns>, AllocError>
    requires even { length units.now % 2 ≡ 0 }
    requires short { length units.now ≤ 8589934590 }
    requires rises { Rises starts.now × (length starts.now ≤ 4294967295) }
    ensures ok { IfOk result (λ o. IfSome o (λ all. (is : List content.Insn) × ArePlain (NameIsAt tables.now) units.now starts.now registers is × K.insns all is)) }
{
    let mut found = K::none(arena, starts.len())?;
    let mut at: u64 = 0;
    for k in 0..starts.len() {
        let start = starts[k];
        if u64::from(start) != at {
            return Ok(None);
        }
        let Some(seen) = insn_at(tables, starts, start, k, units, registers) else {
            return Ok(None);
        };
        K::add(&mut found, &seen.insn)?;
        at += seen.units;
    }
    if at != units.len() as u64 / 2 {
        return Ok(None);
    }
    Ok(Some(found))
}
