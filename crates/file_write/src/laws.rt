//! Laws of the file of a program and of a stripped file, each the contract of a function that does nothing.
//! Page: "Dalvik Executable format", "File layout".
ghost use Rattle.std.specs.Prelude.{◌≡◌, ℕ, ◌<◌, ◌↔◌, List};
ghost use Rattle.file_put.specs.inner.Assembled.{Assembled};
ghost use Rattle.file_classes.specs.ClassRows.{InOrder};
ghost use Rattle.file_classes.specs.Classes.{SpellsClass};
ghost use Rattle.dex_container.specs.Frame.{IsFramed};
ghost use Rattle.dex_container.specs.Layout.{size_of};
ghost use Rattle.dex_container.specs.Section as section;
ghost use Rattle.file_read.specs.Means.{Means};
ghost use Rattle.file_limits.specs.Limits.{Fits};
ghost use Rattle.tables_names.specs.Needed.{needed};
ghost use Rattle.program_types.specs.Content.{Program};
ghost use Rattle.program_rules.specs.WellFormed.{WellFormed};
ghost use Rattle.tables_rows.specs.Names.{AreRows};
ghost use Rattle.tables_rows.specs.Sorted.{TablesHold};
ghost use Rattle.file_write.specs.Least.{HoldsExactly};
ghost use Rattle.file_write.specs.Packed.{Packed};
ghost use Rattle.file_write.specs.Written.{IsFileOf, IsStripped};

/// The file that is assembled of a well-formed program is framed, each row of its five tables denotes a name above that of the row
/// before, and these are exactly the names that the program needs.
pub fn assembled_tables_hold()
    ensures framed { (b : List ℕ) (p : Program) → WellFormed p → Assembled b (needed p) p → IsFramed b }
    ensures tables { (b : List ℕ) (p : Program) → WellFormed p → Assembled b (needed p) p → TablesHold b }
    ensures exactly { (b : List ℕ) (p : Program) → WellFormed p → Assembled b (needed p) p → HoldsExactly b (needed p) }
{}

/// The rows of class_defs of an assembled file encode the classes of its program, with their interfaces, static values, members and
/// bodies, and each class comes after its superclass and interfaces.
pub fn assembled_classes_stand()
    ensures classes { (b : List ℕ) (p : Program) → WellFormed p → Fits p → Assembled b (needed p) p → AreRows SpellsClass b section.class_defs p }
    ensures order { (b : List ℕ) (p : Program) → WellFormed p → Fits p → Assembled b (needed p) p → (i : ℕ) → i < size_of b section.class_defs → InOrder b i }
{}

/// The file that is assembled of a well-formed program within the limits means this program.
pub fn assembled_means()
    ensures { (b : List ℕ) (p : Program) → WellFormed p → Fits p → Assembled b (needed p) p → Means b p }
{}

/// An assembled file is packed: its tables are end to end; its data section has the referenced items, no two of a section equal, in the
/// order of their first references, and otherwise only the zeros that align them; numbers and values are encoded in the fewest bytes;
/// bits that no reader uses are 0.
pub fn assembled_is_packed()
    ensures { (b : List ℕ) (p : Program) → WellFormed p → Fits p → Assembled b (needed p) p → Packed b }
{}

/// What means a program, holds exactly the names that the program needs and is packed is assembled of it, and is its file.
pub fn packed_is_assembled()
    ensures assembled { (b : List ℕ) (p : Program) → Means b p → HoldsExactly b (needed p) → Packed b → Assembled b (needed p) p }
    ensures file { (b : List ℕ) (p : Program) → Means b p → HoldsExactly b (needed p) → Packed b → IsFileOf p b }
{}

/// What is written of a program means it and no other.
pub fn written_is_read()
    ensures { (p q : Program) (b : List ℕ) → IsFileOf p b → Means b q → q ≡ p }
{}

/// A program has one file: equal programs are written as equal bytes.
pub fn one_file()
    ensures { (p : Program) (b c : List ℕ) → IsFileOf p b → IsFileOf p c → b ≡ c }
{}

/// Two stripped files are equal if and only if their inputs mean the same program.
pub fn stripped_alike_exactly_if_meaning_alike()
    ensures { (a b c d : List ℕ) → IsStripped a c → IsStripped b d → (c ≡ d) ↔ ((p : Program) × Means a p × Means b p) }
{}

/// What is stripped stays as it is when it is stripped again.
pub fn stripped_stays()
    ensures { (a b c : List ℕ) → IsStripped a b → IsStripped b c → b ≡ c }
{}
