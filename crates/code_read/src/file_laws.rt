//! Laws of the code items of a file, for the proofs of crates above: functions that do nothing, whose contracts are the laws.
//!
//! ```text
//! codes_are_decided(); // at each place of a file there is a code, or a fault of code items
//! ```

ghost use Rattle.std.specs.Prelude.{◌↔◌, ℕ, List};
ghost use Rattle.dex_base.specs.Fields.{AreBytes};
ghost use Rattle.dex_base.specs.declared.fault.Fault.{Fault};
ghost use Rattle.dex_container.specs.Frame.{IsFramed};
ghost use Rattle.program_types.specs.Content.{Code};
ghost use Rattle.program_types.specs.Formed.{IsFormed};
ghost use Rattle.tables_rows.specs.Names.{Names, AreNamesOf, NameIsAt};
ghost use Rattle.tables_rows.specs.Stands.{NameStands};
ghost use Rattle.code_read.specs.Code.{CodeStands};
ghost use Rattle.code_read.specs.Faults.{CodeBreaks, CodeOverruns};
ghost use Rattle.code_read.specs.inner.FileCodes.{CodeIsDecided, CodesHaveRows};

/// With the tables of a file, a code or a fault is at an offset by their names if and only if it is by the file's.
pub fn codes_carry_over()
    ensures stands { (b : List ℕ) (names : Names) → IsFramed b → AreNamesOf b names → (off : ℕ) (c : Code) → CodeStands (NameIsAt names) b off c ↔ CodeStands (NameStands b) b off c }
    ensures breaks { (b : List ℕ) (names : Names) → IsFramed b → AreNamesOf b names → (off : ℕ) (e : Fault) → CodeBreaks (NameIsAt names) b off e ↔ CodeBreaks (NameStands b) b off e }
    ensures overruns { (b : List ℕ) (names : Names) → IsFramed b → AreNamesOf b names → (off : ℕ) (e : Fault) → CodeOverruns (NameIsAt names) b off e ↔ CodeOverruns (NameStands b) b off e }
{}

/// No code is at offset 0, so `read_code` refuses it.
pub fn no_code_stands_at_zero()
    ensures { (b : List ℕ) (names : Names) → IsFramed b → (c : Code) → ¬ CodeStands (NameIsAt names) b 0 c }
{}

/// At each place of a file there is a code, or a fault of code items.
pub fn codes_are_decided()
    ensures { (b : List ℕ) → AreBytes b → IsFramed b → (names : Names) (off : ℕ) → CodeIsDecided names b off }
{}

/// What the code of a file names has rows.
pub fn names_of_codes_have_rows()
    ensures { (b : List ℕ) → CodesHaveRows b }
{}

/// A code of a file is well formed.
pub fn standing_codes_are_formed()
    ensures { (b : List ℕ) → AreBytes b → IsFramed b → (off : ℕ) (c : Code) → CodeStands (NameStands b) b off c → IsFormed c }
{}
