//! Laws of the arrays of a file, and of arrays in the fewest bytes, each the contract of a function that does nothing.

ghost use Rattle.std.specs.Prelude.{◌↔◌, ℕ, List};
ghost use Rattle.dex_base.specs.Grammar.{IsPrefixUnique};
ghost use Rattle.dex_base.specs.declared.fault.Fault.{Fault};
ghost use Rattle.dex_container.specs.Frame.{IsFramed};
ghost use Rattle.program_types.specs.Content.{Value};
ghost use Rattle.tables_rows.specs.Names.{Names, AreNamesOf, NameIsAt};
ghost use Rattle.tables_rows.specs.Sorted.{TablesHold};
ghost use Rattle.tables_rows.specs.Stands.{NameStands};
ghost use Rattle.std.specs.List.{AllByRecursion, flat_map};
ghost use Rattle.program_types.specs.Mentions.{names_of_value};
ghost use Rattle.tables_rows.specs.Stands.{HasRow};
ghost use Rattle.dex_value.specs.Spelling.{SpellsArray};
ghost use Rattle.dex_value.specs.Standing.{ArrayStands};
ghost use Rattle.dex_value.specs.Faults.{ArrayBreaksAt};
ghost use Rattle.dex_base.specs.Fields.{AreBytes};
ghost use Rattle.dex_value.specs.FileArrays.{ArrayIsDecided};
ghost use Rattle.dex_value.specs.Once.{ShortestArrayIsOne};

/// With the tables of a file, an array or a fault is at an offset by their names if and only if it is by the file's.
pub fn arrays_carry_over()
    ensures stands { (b : List ℕ) (names : Names) → IsFramed b → AreNamesOf b names → (off most : ℕ) (vs : List Value) → ArrayStands (NameIsAt names) b off most vs ↔ ArrayStands (NameStands b) b off most vs }
    ensures breaks { (b : List ℕ) (names : Names) → IsFramed b → AreNamesOf b names → (off most : ℕ) (e : Fault) → ArrayBreaksAt (NameIsAt names) b off most e ↔ ArrayBreaksAt (NameStands b) b off most e }
    ensures one { (b : List ℕ) → IsFramed b → IsPrefixUnique (SpellsArray (NameStands b)) }
{}

/// No array is at offset 0, so `read_array` refuses it.
pub fn no_array_stands_at_zero()
    ensures { (b : List ℕ) (names : Names) → IsFramed b → (most : ℕ) (vs : List Value) → ¬ ArrayStands (NameIsAt names) b 0 most vs }
{}

/// If the tables are valid, at each place there is an array or a fault.
pub fn arrays_are_decided()
    ensures { (b : List ℕ) → AreBytes b → IsFramed b → TablesHold b → (off most : ℕ) → ArrayIsDecided b off most }
{}

/// There is a fault at a place if and only if there is no array.
pub fn faults_are_where_no_array_stands()
    ensures clear { (b : List ℕ) → IsFramed b → (off most : ℕ) (vs : List Value) → ArrayStands (NameStands b) b off most vs → (e : Fault) → ¬ ArrayBreaksAt (NameStands b) b off most e }
    ensures stands { (b : List ℕ) → AreBytes b → IsFramed b → TablesHold b → (off most : ℕ) → ((e : Fault) → ¬ ArrayBreaksAt (NameStands b) b off most e) → (vs : List Value) × ArrayStands (NameStands b) b off most vs }
{}

/// The names in an array of a file have rows.
pub fn names_of_arrays_have_rows()
    ensures { (b : List ℕ) (off most : ℕ) (vs : List Value) → ArrayStands (NameStands b) b off most vs → AllByRecursion (HasRow b) (flat_map names_of_value vs) }
{}

/// By ranks, where each name has one, values have one array in the fewest bytes.
pub fn shortest_array_is_one()
    ensures { ShortestArrayIsOne }
{}
