//! Whether the indices of names fit fields of 16 bits.

ghost use Rattle.std.specs.Prelude.{◌≡◌, ◌<◌, ◌↔◌, ℕ, length, map, option_map, IsTrue};
ghost use Rattle.std.specs.List.{AllByRecursion};
ghost use Rattle.program_types.specs.Content.{Name as Named};
ghost use Rattle.program_types.specs.Formed.{insn_at};
ghost use Rattle.program_types.specs.Kinds.{IsOfKind, HasIndex};
ghost use Rattle.program_types.specs.Mentions.{names_of_insn};
ghost use Rattle.program_types.specs.View.{insn};
ghost use Rattle.program_types.specs.View as view;
ghost use Rattle.tables_names.specs.Closure.{NameRanks};
ghost use Rattle.code_write.specs.Fits.{short_name, ShortFits};

use dex_insn::IndexKind;
use program_types::{Insn, Name};
use tables_names::Ranks;

/// The name in an instruction whose index has a field of 16 bits.
fn short_name<'a>(one: &Insn<'a>) -> Option<Name<'a>>
    ensures { option_map view.name result ≡ short_name (insn one.now) }
{
    match *one {
        Insn::I21c { name, .. }
        | Insn::I22c { name, .. }
        | Insn::I35c { name, .. }
        | Insn::I3rc { name, .. } => Some(name),
        _ => None,
    }
}

/// Whether a name is one of this table.
fn is_of_kind(kind: IndexKind, name: Name<'_>) -> bool
    ensures { IsTrue result ↔ IsOfKind kind (view.name name.entry) }
{
    matches!(
        (kind, name),
        (IndexKind::String, Name::Text(_))
            | (IndexKind::Type, Name::Desc(_))
            | (IndexKind::Field, Name::Field(_))
            | (IndexKind::Method, Name::Method(_))
    )
}

/// Whether the index of a name fits 16 bits.
fn is_short(ranks: &Ranks<'_>, name: Name<'_>) -> bool
    requires ranked { HasIndex (NameRanks ranks.now) (view.name name) }
    ensures { IsTrue result ↔ ((i : ℕ) → NameRanks ranks.now i (view.name name.entry) → i < 65536) }
{
    ranks.rise();
    match ranks.index_of(name) {
        Some(index) => index < 65536,
        None => false,
    }
}

/// Whether the index of the name in an instruction fits its field, if the name is of this kind.
fn name_fits(ranks: &Ranks<'_>, kind: IndexKind, one: &Insn<'_>) -> bool
    requires ranked { AllByRecursion (HasIndex (NameRanks ranks.now)) (names_of_insn (insn one.now)) }
    ensures { IsTrue result ↔ ShortFits (NameRanks ranks.now) kind (insn one.now) }
{
    match short_name(one) {
        None => true,
        Some(name) => {
            if !is_of_kind(kind, name) {
                return true;
            }
            is_short(ranks, name)
        }
    }
}

/// Whether so few names of this kind are ranked that each index fits 16 bits.
fn are_few(ranks: &Ranks<'_>, kind: IndexKind) -> bool
    ensures { IsTrue result → (which : Named) → IsOfKind kind which → (index : ℕ) → NameRanks ranks.now index which → index < 65536 }
{
    match kind {
        IndexKind::String => ranks.strings().len() <= 65536,
        IndexKind::Field => ranks.fields().len() <= 65536,
        IndexKind::Method => ranks.methods().len() <= 65536,
        _ => false,
    }
}

/// Whether the indices of all names of this kind fit their fields. Where few names are ranked, none is looked up.
pub(crate) fn names_fit(ranks: &Ranks<'_>, kind: IndexKind, insns: &[Insn<'_>]) -> bool
    requires ranked { (k : ℕ) → k < length insns.now → AllByRecursion (HasIndex (NameRanks ranks.now)) (names_of_insn (insn_at (map insn insns.now) k)) }
    ensures { IsTrue result ↔ ((k : ℕ) → k < length insns.now → ShortFits (NameRanks ranks.now) kind (insn_at (map insn insns.now) k)) }
{
    if are_few(ranks, kind) {
        return true;
    }
    for k in 0..insns.len() {
        if !name_fits(ranks, kind, &insns[k]) {
            return false;
        }
    }
    true
}
