//! Laws of what is written of a code, for the proofs of crates above: functions that do nothing, whose contracts are the laws.
//!
//! ```text
//! packed_is_spelled(); // what `put_code` appends is a code item of the code, so `read_code` gives it back
//! ```

ghost use Rattle.std.specs.Prelude.{◌≡◌, ◌<◌, ◌≤◌, ℕ, List, length, slice_index};
ghost use Rattle.dex_base.specs.Fields.{AreBytes};
ghost use Rattle.dex_insn.specs.Raw.{Raw};
ghost use Rattle.program_types.specs.Content.{Insn, Code, Try};
ghost use Rattle.program_types.specs.Sizes.{addresses_of, length_of};
ghost use Rattle.program_types.specs.Formed.{TargetHolds, PayloadHolds, TryFormed, IsFormed};
ghost use Rattle.tables_names.specs.Closure.{Five, AreRising, NameRanks};
ghost use Rattle.code_read.specs.Linked.{SpellsInsns};
ghost use Rattle.code_read.specs.Tries.{SpellsTries};
ghost use Rattle.code_read.specs.Code.{SpellsCode};
ghost use Rattle.code_write.specs.Fits.{TryFits, FitsCode, wide_code};
ghost use Rattle.code_write.specs.Packs.{AreLowered, joined, items_bytes, PacksHandlersOf, PacksCode};

/// The bytes that are written for well-formed instructions encode them.
pub fn lowered_is_spelled()
    ensures { (ranks : Five) (is : List Insn) (rs : List Raw) → AreLowered (NameRanks ranks) is (addresses_of is) rs
        → ((k : ℕ) → k < length is → TargetHolds is k) → ((k : ℕ) → k < length is → PayloadHolds is k)
        → SpellsInsns (NameRanks ranks) (joined rs) rs is }
{}

/// The bytes that are written for well-formed tries that fit encode them.
pub fn packed_tries_are_spelled()
    ensures { (ranks : Five) (is : List Insn) (ts : List Try) (list offs : List ℕ) → ((i : ℕ) → i < length ts → TryFormed (length is) ts i)
        → ((i : ℕ) → i < length ts → TryFits (addresses_of is) ts i) → PacksHandlersOf (NameRanks ranks) (addresses_of is) ts list offs
        → length_of is ≤ 4294967295 → ((k : ℕ) → k < length offs → slice_index offs k < 65536)
        → SpellsTries (NameRanks ranks) (addresses_of is) (length_of is) (length ts) (items_bytes (length_of is) (addresses_of is) ts offs) list ts }
{}

/// What is written of a well formed code that fits is a code item of it.
pub fn packed_is_spelled()
    ensures { (ranks : Five) (c : Code) (bytes : List ℕ) → IsFormed c → FitsCode (NameRanks ranks) c → wide_code c ≤ 4294967295
        → PacksCode (NameRanks ranks) bytes c → SpellsCode (NameRanks ranks) bytes c }
{}

/// What is written of a code takes at most the bytes that are counted for it, and at least 16.
pub fn packed_is_short()
    ensures { (ranks : Five) (c : Code) (bytes : List ℕ) → PacksCode (NameRanks ranks) bytes c → (16 ≤ length bytes) × (length bytes ≤ wide_code c) }
{}

/// By ranks, where each name has one, a well formed code is written in one way.
pub fn packed_is_one()
    ensures { (ranks : Five) → AreRising ranks → (c : Code) (a b : List ℕ) → IsFormed c → AreBytes a → AreBytes b
        → PacksCode (NameRanks ranks) a c → PacksCode (NameRanks ranks) b c → a ≡ b }
{}
