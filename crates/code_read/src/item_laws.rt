//! Laws of one code item: functions that do nothing, whose contracts are the laws.

ghost use Rattle.std.specs.Prelude.{◌≡◌, ℕ, List};
ghost use Rattle.dex_base.specs.Grammar.{IsPrefixUnique};
ghost use Rattle.dex_base.specs.declared.fault.Fault.{Fault};
ghost use Rattle.code_read.specs.Code.{SpellsCode, BodyStands, CodeStands};
ghost use Rattle.code_read.specs.Faults.{CodeBreaks, CodeOverruns};
ghost use Rattle.dex_container.specs.Frame.{IsFramed};
ghost use Rattle.program_types.specs.Content.{Name, Code};
ghost use Rattle.tables_rows.specs.Names.{Names, NameIsAt};
ghost use Rattle.code_read.specs.inner.Symbols.{IsFunctional};

/// In tables of names an index denotes one name of a kind; so no code item is a prefix of another one, and it encodes one code.
pub fn code_is_prefix_unique()
    ensures index { (names : Names) → IsFunctional (NameIsAt names) }
    ensures unique { (names : Names) → IsPrefixUnique (SpellsCode (NameIsAt names)) }
{}

/// At most one code is at an offset.
pub fn code_is_one()
    ensures { (names : Names) (b : List ℕ) → IsFramed b → (off : ℕ) (c d : Code) → CodeStands (NameIsAt names) b off c → CodeStands (NameIsAt names) b off d → c ≡ d }
{}

/// A code at an offset is also there by a naming that is implied.
pub fn code_carries_over()
    ensures { (m n : Names) → ((i : ℕ) (which : Name) → NameIsAt m i which → NameIsAt n i which) → (b : List ℕ) (off : ℕ) (c : Code) → CodeStands (NameIsAt m) b off c → CodeStands (NameIsAt n) b off c }
{}

/// At an offset with a fault of a body there is no code, whichever registers it names; with a fault of registers, none whose registers
/// are its own.
pub fn broken_code_is_none()
    ensures body { (names : Names) (b : List ℕ) → IsFramed b → (off : ℕ) (e : Fault) (c : Code) → CodeBreaks (NameIsAt names) b off e → ¬ BodyStands (NameIsAt names) b off c }
    ensures code { (names : Names) (b : List ℕ) → IsFramed b → (off : ℕ) (e : Fault) (c : Code) → CodeOverruns (NameIsAt names) b off e → ¬ CodeStands (NameIsAt names) b off c }
{}

/// A body at an offset has one fault: one number, at one place; and so have its registers.
pub fn one_fault()
    ensures body { (names : Names) (b : List ℕ) → IsFramed b → (off : ℕ) (e f : Fault) → CodeBreaks (NameIsAt names) b off e → CodeBreaks (NameIsAt names) b off f → e ≡ f }
    ensures registers { (names : Names) (b : List ℕ) → IsFramed b → (off : ℕ) (e f : Fault) → CodeOverruns (NameIsAt names) b off e → CodeOverruns (NameIsAt names) b off f → e ≡ f }
{}
