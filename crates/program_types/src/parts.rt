//! The names of an instruction, its payload, and its targets.

ghost use Rattle.std.specs.Prelude.{◌≡◌, ◌∷◌, ◌↔◌, [], option_map, IsTrue};
ghost use Rattle.program_types.specs.Formed.{insn_payload, insn_targets, insn_leads, AreAlike, IsSwitch};
ghost use Rattle.program_types.specs.Mentions.{if_any, names_of_insn};
ghost use Rattle.program_types.specs.View as view;

use crate::insn::Insn;
use crate::names::Name;
use crate::payload::Payload;
use std::slice;

/// What the index of an instruction names, if it has one.
pub fn name_of<'p>(one: &Insn<'p>) -> Option<Name<'p>>
    ensures { if_any (λ n. n ∷ []) (option_map view.name result) ≡ names_of_insn (view.insn one.now) }
{
    match *one {
        Insn::I21c { name, .. }
        | Insn::I22c { name, .. }
        | Insn::I31c { name, .. }
        | Insn::I35c { name, .. }
        | Insn::I3rc { name, .. } => Some(name),
        _ => None,
    }
}

/// Which payload an instruction is.
#[tactic(auto, unfolding(crate::specs::Formed::insn_payload))]
pub fn payload_of(one: &Insn<'_>) -> Option<Payload>
    ensures { result ≡ insn_payload (view.insn one.now) }
{
    match *one {
        Insn::Packed { .. } => Some(Payload::PackedSwitch),
        Insn::Sparse { .. } => Some(Payload::SparseSwitch),
        Insn::Data { .. } => Some(Payload::Array),
        _ => None,
    }
}

/// The targets of a switch's payload.
#[tactic(auto, unfolding(crate::specs::Formed::insn_targets))]
pub fn targets_of<'a>(one: &Insn<'a>) -> &'a [u32]
    ensures { result.now ≡ insn_targets (view.insn one.now) }
{
    match *one {
        Insn::Packed { targets, .. } | Insn::Sparse { targets, .. } => targets,
        _ => &[],
    }
}

/// The instructions that an instruction branches or refers to, except the one after it.
pub fn leads_of<'s>(one: &'s Insn<'_>) -> &'s [u32]
    ensures { result.now ≡ insn_leads (view.insn one.now) }
{
    match one {
        Insn::I10t { to, .. }
        | Insn::I20t { to, .. }
        | Insn::I30t { to, .. }
        | Insn::I21t { to, .. }
        | Insn::I31t { to, .. }
        | Insn::I22t { to, .. } => slice::from_ref(to),
        Insn::Packed { targets, .. } | Insn::Sparse { targets, .. } => targets,
        _ => &[],
    }
}

/// Whether both are one kind of payload.
pub fn are_alike(one: Option<Payload>, other: Option<Payload>) -> bool
    ensures { IsTrue result ↔ AreAlike one other }
{
    match (one, other) {
        (Some(Payload::PackedSwitch), Some(Payload::PackedSwitch)) => true,
        (Some(Payload::SparseSwitch), Some(Payload::SparseSwitch)) => true,
        (Some(Payload::Array), Some(Payload::Array)) => true,
        _ => false,
    }
}

/// Whether a payload is that of a switch.
pub fn is_switch(one: Option<Payload>) -> bool
    ensures { IsTrue result ↔ IsSwitch one }
{
    match one {
        Some(Payload::PackedSwitch) | Some(Payload::SparseSwitch) => true,
        _ => false,
    }
}
