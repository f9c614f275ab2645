//! From symbolic instructions to raw ones.

ghost use Rattle.std.specs.Prelude.{◌≡◌, ◌<◌, ◌≤◌, ◌∷◌, [], None, Some, length, FitsSigned, pos, ◌-ℤ◌, ◌+ℤ◌};
ghost use Rattle.std.specs.Int.{w32};
ghost use Rattle.program_types.specs.View.{insn};
ghost use Rattle.program_types.specs.View as view;
ghost use Rattle.program_types.specs.Formed.{insn_payload};
ghost use Rattle.program_types.specs.Operands.{IsOperand};
ghost use Rattle.program_types.specs.Sizes.{insn_units};
ghost use Rattle.program_types.specs.Mentions.{names_of_insn};
ghost use Rattle.tables_names.specs.Closure.{NameRanks};
ghost use Rattle.tables_names.specs.Noted.{AreRanks};
ghost use Rattle.dex_insn.specs.Raw.{raw, units};
ghost use Rattle.dex_insn.specs.Written.{IsRaw};
ghost use Rattle.code_read.specs.Linked.{target_number, payload_of};
ghost use Rattle.code_read.specs.Symbols.{linked, Resolves};
ghost use Rattle.code_write.specs.Fits.{HasIndexBelow, BranchFits, distance_of};
ghost use Rattle.code_write.specs.inner.Fits.{NameFits};

use crate::begins::Begins;
use dex_insn::RawInsn;
use program_types::{Insn, Name};
use tables_names::Ranks;

/// The only one of these indices, that of a name that has one below the limit.
fn only(ranks: &Ranks<'_>, indices: &[usize], name: Name<'_>, limit: u64) -> u32
    requires index { AreRanks ranks.now (view.name name ∷ []) indices.now }
    requires fits { HasIndexBelow (NameRanks ranks.now) limit (view.name name) }
    requires limit { limit ≤ 4294967296 }
    ensures stands { NameRanks ranks.now result (view.name name.entry) }
    ensures short { result < limit }
{
    ranks.rise();
    // Only for the proof: what holds of each value of its type.
    let _limit = limit;
    indices[0] as u32
}

/// How far `begin` is from `at`.
fn gap(begin: u32, at: u32) -> i32
    requires fits { FitsSigned w32 (pos begin -ℤ pos at) }
    ensures { (pos at +ℤ result) ≡ pos begin }
{
    (i64::from(begin) - i64::from(at)) as i32
}

/// How far instruction `to` is from the address, in units.
pub(crate) fn distance(starts: &Begins<'_>, at: u32, to: u32) -> i32
    requires inside { to < length starts.now }
    requires fits { FitsSigned w32 (distance_of starts.now at to) }
    ensures value { result ≡ distance_of starts.now at to }
    ensures leads { target_number starts.now at result ≡ to }
{
    gap(starts.at(to), at)
}

/// The raw instruction of an instruction that is no payload. `index` is that of its name, if it has one.
#[rattlefmt::skip]
#[tactic(auto, unfolding(code_read::specs::Symbols::linked, code_read::specs::Linked::payload_of, program_types::specs::Formed::insn_payload, program_types::specs::Sizes::insn_units, dex_insn::specs::Raw::raw, dex_insn::specs::Raw::units))]
pub(crate) fn lower(ranks: &Ranks<'_>, indices: &[usize], starts: &Begins<'_>, at: u32, one: &Insn<'_>) -> RawInsn<'static>
    requires indices { AreRanks ranks.now (names_of_insn (insn one.now)) indices.now }
    requires plain { insn_payload (insn one.now) ≡ None }
    requires operand { IsOperand (length starts.now) (insn one.now) }
    requires name { NameFits (NameRanks ranks.now) (insn one.now) }
    requires branch { BranchFits starts.now at (insn one.now) }
    ensures fits { IsRaw (raw result) }
    ensures resolves { Resolves (NameRanks ranks.now) (target_number starts.now at) (raw result) (insn one.now) }
    ensures size { units (raw result) ≡ insn_units (insn one.now) }
    ensures plain { payload_of (raw result) ≡ insn_payload (insn one.now) }
{
    match *one {
        Insn::I10x { op } => RawInsn::I10x { op },
        Insn::I12x { op, a, b } => RawInsn::I12x { op, a, b },
        Insn::I11n { op, a, b } => RawInsn::I11n { op, a, b },
        Insn::I11x { op, a } => RawInsn::I11x { op, a },
        Insn::I10t { op, to } => RawInsn::I10t { op, offset: distance(starts, at, to) },
        Insn::I20t { op, to } => RawInsn::I20t { op, offset: distance(starts, at, to) },
        Insn::I22x { op, a, b } => RawInsn::I22x { op, a, b },
        Insn::I21t { op, a, to } => RawInsn::I21t { op, a, offset: distance(starts, at, to) },
        Insn::I21s { op, a, b } => RawInsn::I21s { op, a, b },
        Insn::I21h { op, a, b } => RawInsn::I21h { op, a, b },
        Insn::I21c { op, a, name } => RawInsn::I21c { op, a, index: only(ranks, indices, name, 65536) },
        Insn::I23x { op, a, b, c } => RawInsn::I23x { op, a, b, c },
        Insn::I22b { op, a, b, c } => RawInsn::I22b { op, a, b, c },
        Insn::I22t { op, a, b, to } => RawInsn::I22t { op, a, b, offset: distance(starts, at, to) },
        Insn::I22s { op, a, b, c } => RawInsn::I22s { op, a, b, c },
        Insn::I22c { op, a, b, name } => RawInsn::I22c { op, a, b, index: only(ranks, indices, name, 65536) },
        Insn::I30t { op, to } => RawInsn::I30t { op, offset: distance(starts, at, to) },
        Insn::I32x { op, a, b } => RawInsn::I32x { op, a, b },
        Insn::I31i { op, a, b } => RawInsn::I31i { op, a, b },
        Insn::I31t { op, a, to } => RawInsn::I31t { op, a, offset: distance(starts, at, to) },
        Insn::I31c { op, a, name } => RawInsn::I31c { op, a, index: only(ranks, indices, name, 4294967296) },
        Insn::I35c { op, n, regs, name } => RawInsn::I35c { op, n, regs, index: only(ranks, indices, name, 65536) },
        Insn::I3rc { op, n, first, name } => RawInsn::I3rc { op, n, first, index: only(ranks, indices, name, 65536) },
        Insn::I51l { op, a, b } => RawInsn::I51l { op, a, b },
        Insn::Packed { .. } | Insn::Sparse { .. } | Insn::Data { .. } => unreachable!(),
    }
}
