//! From raw instructions to symbolic ones.

ghost use Rattle.std.specs.Prelude.{◌≡◌, ◌≤◌, [], length, IfSome, IfNone, true, false, ℕ, ℤ};
ghost use Rattle.program_types.specs.Content as content;
ghost use Rattle.program_types.specs.Content.{OfText};
ghost use Rattle.program_types.specs.View.{insn};
ghost use Rattle.program_types.specs.View as view;
ghost use Rattle.tables_rows.specs.Names.{NameIsAt};
ghost use Rattle.dex_insn.specs.Raw.{raw, is_payload};
ghost use Rattle.code_read.specs.Linked.{target_number};
ghost use Rattle.code_read.specs.Places.{Rises};
ghost use Rattle.code_read.specs.Symbols.{linked, Resolves, InsnHasName};
ghost use Rattle.code_read.specs.inner.Symbols.{has_offset, has_index};

use crate::names::named;
use crate::places::target_number;
use dex_insn::RawInsn;
use program_types::{Insn, Name};
use tables_rows::Tables;

/// The instruction whose offset targets instruction `to`.
#[inline(always)]
#[rattlefmt::skip]
#[tactic(auto, unfolding(crate::specs::Symbols::linked, crate::specs::inner::Symbols::has_offset, dex_insn::specs::Raw::raw))]
fn leading<'a>(one: &RawInsn<'_>, to: u32) -> Insn<'a>
    requires { has_offset (raw one.now) ≡ true }
    ensures { linked (λ _. to) (OfText []) (raw one.now) ≡ insn result }
{
    match *one {
        RawInsn::I10t { op, .. } => Insn::I10t { op, to },
        RawInsn::I20t { op, .. } => Insn::I20t { op, to },
        RawInsn::I21t { op, a, .. } => Insn::I21t { op, a, to },
        RawInsn::I22t { op, a, b, .. } => Insn::I22t { op, a, b, to },
        RawInsn::I30t { op, .. } => Insn::I30t { op, to },
        RawInsn::I31t { op, a, .. } => Insn::I31t { op, a, to },
        _ => unreachable!(),
    }
}

/// The instruction whose index denotes the name.
#[inline(always)]
#[rattlefmt::skip]
#[tactic(auto, unfolding(crate::specs::Symbols::linked, crate::specs::inner::Symbols::has_index, dex_insn::specs::Raw::raw))]
fn naming<'a>(one: &RawInsn<'_>, name: Name<'a>) -> Insn<'a>
    requires { has_index (raw one.now) ≡ true }
    ensures { linked (λ _. 0) (view.name name.entry) (raw one.now) ≡ insn result }
{
    match *one {
        RawInsn::I21c { op, a, .. } => Insn::I21c { op, a, name },
        RawInsn::I22c { op, a, b, .. } => Insn::I22c { op, a, b, name },
        RawInsn::I31c { op, a, .. } => Insn::I31c { op, a, name },
        RawInsn::I35c { op, n, regs, .. } => Insn::I35c { op, n, regs, name },
        RawInsn::I3rc { op, n, first, .. } => Insn::I3rc { op, n, first, name },
        _ => unreachable!(),
    }
}

/// An instruction that has neither: the same operands.
#[inline(always)]
#[rattlefmt::skip]
#[tactic(auto, unfolding(crate::specs::Symbols::linked, crate::specs::inner::Symbols::has_offset, crate::specs::inner::Symbols::has_index, dex_insn::specs::Raw::is_payload, dex_insn::specs::Raw::raw))]
fn plain<'a>(one: &RawInsn<'_>) -> Insn<'a>
    requires plain { is_payload (raw one.now) ≡ false }
    requires offset { has_offset (raw one.now) ≡ false }
    requires index { has_index (raw one.now) ≡ false }
    ensures { (T : ℤ → ℕ) (which : content.Name) → linked T which (raw one.now) ≡ insn result }
{
    match *one {
        RawInsn::I10x { op } => Insn::I10x { op },
        RawInsn::I12x { op, a, b } => Insn::I12x { op, a, b },
        RawInsn::I11n { op, a, b } => Insn::I11n { op, a, b },
        RawInsn::I11x { op, a } => Insn::I11x { op, a },
        RawInsn::I22x { op, a, b } => Insn::I22x { op, a, b },
        RawInsn::I21s { op, a, b } => Insn::I21s { op, a, b },
        RawInsn::I21h { op, a, b } => Insn::I21h { op, a, b },
        RawInsn::I23x { op, a, b, c } => Insn::I23x { op, a, b, c },
        RawInsn::I22b { op, a, b, c } => Insn::I22b { op, a, b, c },
        RawInsn::I22s { op, a, b, c } => Insn::I22s { op, a, b, c },
        RawInsn::I32x { op, a, b } => Insn::I32x { op, a, b },
        RawInsn::I31i { op, a, b } => Insn::I31i { op, a, b },
        RawInsn::I51l { op, a, b } => Insn::I51l { op, a, b },
        _ => unreachable!(),
    }
}

/// The symbolic instruction, whose offset counts from the address `base`. None only where its index has no row.
#[inline(always)]
#[rattlefmt::skip]
#[tactic(auto, unfolding(crate::specs::Symbols::linked, crate::specs::inner::Symbols::has_offset, crate::specs::inner::Symbols::has_index, dex_insn::specs::Raw::is_payload, dex_insn::specs::Raw::raw))]
pub(crate) fn link<'a>(tables: &Tables<'a>, starts: &[u32], base: u32, one: &RawInsn<'_>) -> Option<Insn<'a>>
    requires rises { Rises starts.now }
    requires few { length starts.now ≤ 4294967295 }
    requires plain { is_payload (raw one.now) ≡ false }
    ensures some { IfSome result (λ i. Resolves (NameIsAt tables.now) (target_number starts.now base) (raw one.now) (insn i)) }
    ensures none { IfNone result (InsnHasName (NameIsAt tables.now) (raw one.now) → ⊥) }
{
    match *one {
        RawInsn::I10t { offset, .. } | RawInsn::I20t { offset, .. } | RawInsn::I21t { offset, .. } | RawInsn::I22t { offset, .. }
        | RawInsn::I30t { offset, .. } | RawInsn::I31t { offset, .. } => Some(leading(one, target_number(starts, base, offset))),
        RawInsn::I21c { op, index, .. } | RawInsn::I22c { op, index, .. } | RawInsn::I31c { op, index, .. }
        | RawInsn::I35c { op, index, .. } | RawInsn::I3rc { op, index, .. } => Some(naming(one, named(tables, op, index)?)),
        _ => Some(plain(one)),
    }
}
