//! Laws over the definitions, for the proofs of crates above. Those for any naming are in `proofs/`: `SpellsArray-weaker`
//! carries a spelling over to a naming that the first implies.
ghost use Rattle.std.specs.Prelude.{◌≡◌, ℕ, List, length, ◌<◌, ◌≤◌};
ghost use Rattle.dex_base.specs.Grammar.{IsPrefixUnique};
ghost use Rattle.dex_base.specs.declared.fault.Fault.{Fault};
ghost use Rattle.dex_container.specs.Frame.{IsFramed};
ghost use Rattle.program_types.specs.Content.{Name, Value, values};
ghost use Rattle.tables_rows.specs.Names.{Names, NameIsAt};
ghost use Rattle.tables_names.specs.Closure.{Five, NameRanks};
ghost use Rattle.dex_value.specs.Faults.{ArrayBreaksAt};
ghost use Rattle.dex_value.specs.Spelling.{SpellsArray};
ghost use Rattle.dex_value.specs.Unique.{IsFunctionalByType};
ghost use Rattle.dex_value.specs.Wide.{wide_array};
ghost use Rattle.program_types.specs.Mentions.{AllNamesHold};
ghost use Rattle.dex_value.specs.Named.{IsRanked};
ghost use Rattle.dex_value.specs.Counts.{ArrayFits};

/// In a file an index denotes one name of its kind. So no encoded_array is a prefix of another one, and it encodes one list of
/// values.
pub fn array_is_prefix_unique()
    ensures index { (names : Names) → IsFunctionalByType (NameIsAt names) }
    ensures unique { (names : Names) → IsPrefixUnique (SpellsArray (NameIsAt names)) }
{}

/// An encoded_array takes at least one byte, and at most its plain sum.
pub fn array_is_short()
    ensures some { (ranks : Five) (bytes : List ℕ) (vs : List Value) → SpellsArray (NameRanks ranks) bytes vs → 0 < length bytes }
    ensures wide { (ranks : Five) (bytes : List ℕ) (vs : List Value) → SpellsArray (NameRanks ranks) bytes vs → length bytes ≤ wide_array vs }
{}

/// Values that are encoded by any bytes satisfy what `put_array` requires. Counts fit also if the plain sum has 32 bits.
pub fn spelled_array_can_be_put()
    ensures named { (ranks : Five) (bytes : List ℕ) (vs : List Value) → SpellsArray (NameRanks ranks) bytes vs → AllNamesHold (IsRanked ranks) (values vs) }
    ensures counts { (ranks : Five) (bytes : List ℕ) (vs : List Value) → SpellsArray (NameRanks ranks) bytes vs → ArrayFits vs }
    ensures short { (vs : List Value) → wide_array vs ≤ 4294967295 → ArrayFits vs }
{}

/// A spelling by ranks is one in a file whose rows are the ranked names.
pub fn array_carries_over()
    ensures { (ranks : Five) (names : Names) →
        ((i : ℕ) (which : Name) → NameRanks ranks i which → NameIsAt names i which) →
        (bytes : List ℕ) (vs : List Value) → SpellsArray (NameRanks ranks) bytes vs → SpellsArray (NameIsAt names) bytes vs }
{}

/// An offset without an encoded_array has one fault: one number, at one place.
pub fn one_fault()
    ensures { (names : Names) (b : List ℕ) → IsFramed b → (off most : ℕ) (e f : Fault) → ArrayBreaksAt (NameIsAt names) b off most e → ArrayBreaksAt (NameIsAt names) b off most f → e ≡ f }
{}
