//! How small the tables of a file can be, and that no program is refused that another file could hold: laws alone, for the proofs of
//! crates above.

ghost use Rattle.std.specs.Prelude.{◌≡◌, ◌≤◌, ◌⊎◌, ℕ, List};
ghost use Rattle.dex_base.specs.Fields.{AreBytes};
ghost use Rattle.dex_base.specs.declared.fault.Fault.{Fault};
ghost use Rattle.file_read.specs.Means.{Means};
ghost use Rattle.file_limits.specs.Limits.{IsLowestLimit};
ghost use Rattle.tables_names.specs.Needed.{needed};
ghost use Rattle.program_types.specs.Content.{Program};
ghost use Rattle.file_strip.specs.AtLeast.{HoldsAtLeast};
ghost use Rattle.file_strip.specs.inner.AtLeast.{CodesFit};

/// Each file of a program has a row for every name that the program needs, at its rank among them or after it; so no table is shorter
/// than the list of the needed names of its kind.
pub fn needed_names_have_rows()
    ensures { (b : List ℕ) (p : Program) → Means b p → HoldsAtLeast b (needed p) }
{}

/// A code of a file fits the fields of every file in which no name has a higher index, apart from the distance of handlers.
pub fn standing_codes_fit()
    ensures { CodesFit }
{}

/// A program that breaks one of the limits 80 to 88 is meant by no file at all. What some file means can be refused only with 89, where
/// handlers are too far in the order of first use, or with 90, where the plain sum is too big.
pub fn no_refusal_in_vain()
    ensures meant { (b : List ℕ) (p : Program) (e : Fault) → AreBytes b → Means b p → IsLowestLimit p e → (e.code ≡ 89) ⊎ (e.code ≡ 90) }
    ensures without_file { (p : Program) (e : Fault) → IsLowestLimit p e → e.code ≤ 88 → (b : List ℕ) → AreBytes b → ¬ Means b p }
{}
