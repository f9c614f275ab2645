//! Laws of the instruction at a unit. None has code: its contract is the law.

ghost use Rattle.std.specs.Prelude.{ℕ, List, ◌≡◌, ◌≤◌, ◌<◌, ◌+◌, ◌*◌, ◌%◌, ◌++◌, ◌⊎◌, length, drop, true, false};
ghost use Rattle.dex_base.specs.declared.fault.Fault.{Fault};
ghost use Rattle.dex_insn.specs.Raw.{Raw, units, is_payload};
ghost use Rattle.dex_insn.specs.RawInsns.{SpellsInsn, InsnStands, IsPayload};
ghost use Rattle.dex_insn.specs.Flaws.{IsFaultAt, KeepsRules};
ghost use Rattle.dex_base.specs.Fields.{AreBytes};
ghost use Rattle.dex_insn.specs.Written.{IsRaw, written};

/// At most one instruction is at a unit.
pub fn one_stands()
    ensures { (bytes : List ℕ) (at : ℕ) (x y : Raw) → InsnStands bytes at x → InsnStands bytes at y → x ≡ y }
{}

/// An instruction at a unit has units, all within the code.
pub fn whole_where_one_stands()
    ensures { (bytes : List ℕ) (at : ℕ) (r : Raw) → InsnStands bytes at r → (0 < units r) × (2 * at + 2 * units r ≤ length bytes) }
{}

/// At a unit with an instruction no rule is violated.
pub fn clear_where_one_stands()
    ensures { (bytes : List ℕ) (at : ℕ) (r : Raw) (fault : Fault) → InsnStands bytes at r → IsFaultAt bytes at fault → ⊥ }
{}

/// At a unit with an instruction each rule is kept, also by itself.
pub fn rules_are_kept()
    ensures { (bytes : List ℕ) (at : ℕ) (r : Raw) → InsnStands bytes at r → KeepsRules at (drop (2 * at) bytes) }
{}

/// At a unit one rule is broken at most: there is one fault.
pub fn one_fault()
    ensures { (bytes : List ℕ) (at : ℕ) (e f : Fault) → IsFaultAt bytes at e → IsFaultAt bytes at f → e ≡ f }
{}

/// At each unit of the code there is an instruction, or a rule is violated.
pub fn one_stands_or_none()
    ensures { (bytes : List ℕ) (at : ℕ) → AreBytes bytes → 2 * at + 2 ≤ length bytes → ((r : Raw) × InsnStands bytes at r) ⊎ ((fault : Fault) × IsFaultAt bytes at fault) }
{}

/// The units after an instruction do not change how it is read.
pub fn after_is_free()
    ensures more { (bytes after : List ℕ) (at : ℕ) (r : Raw) → InsnStands bytes at r → InsnStands (bytes ++ after) at r }
    ensures less { (bytes after : List ℕ) (at : ℕ) (r : Raw) → 2 * at + 2 * units r ≤ length bytes → InsnStands (bytes ++ after) at r → InsnStands bytes at r }
{}

/// A payload begins with a payload's identifier, and nothing else does.
pub fn payloads_by_identifier()
    ensures payload { (us : List ℕ) (r : Raw) → SpellsInsn us r → is_payload r ≡ true → IsPayload us }
    ensures plain { (us : List ℕ) (r : Raw) → SpellsInsn us r → is_payload r ≡ false → ¬ IsPayload us }
{}

/// Written, an instruction takes two bytes a unit.
#[tactic(auto, using(crate::proofs::Spelled::length_written))]
pub fn two_bytes_a_unit()
    ensures { (r : Raw) → IsRaw r → length (written r) ≡ 2 * units r }
{}

/// A written instruction is at the unit where it was written; a payload, if the unit is even.
pub fn written_stands()
    ensures { (before after : List ℕ) (at : ℕ) (r : Raw) → IsRaw r → length before ≡ 2 * at → (is_payload r ≡ true → at % 2 ≡ 0)
        → InsnStands (before ++ (written r ++ after)) at r }
{}

/// An instruction in bytes can be written: its operands fit their fields.
#[tactic(auto, using(crate::proofs::Fits::stands_fits))]
pub fn what_stands_can_be_written()
    ensures { (bytes : List ℕ) (at : ℕ) (r : Raw) → AreBytes bytes → InsnStands bytes at r → IsRaw r }
{}
