//! Laws of whole files, for the proofs of crates above: functions that do nothing, whose contracts are the laws.
//!
//! ```text
//! meaning_is_decided(bytes); // any bytes mean a program, or have one of the faults of reading; never both
//! ```

ghost use Rattle.std.specs.Prelude.{ℕ, ◌<◌, ◌⊎◌, ◌↔◌, List};
ghost use Rattle.dex_base.specs.Fields.{AreBytes};
ghost use Rattle.dex_base.specs.declared.fault.Fault.{Fault};
ghost use Rattle.dex_container.specs.Frame.{IsFramed};
ghost use Rattle.program_types.specs.Content.{Program};
ghost use Rattle.program_rules.specs.WellFormed.{WellFormed};
ghost use Rattle.tables_rows.specs.Sorted.{TablesHold};
ghost use Rattle.tables_rows.specs.inner.TableFaults.{IsFirstRow};
ghost use Rattle.tables_laws.specs.inner.FileNames.{IsMentionedIn};
ghost use Rattle.dex_container.specs.Layout.{size_of};
ghost use Rattle.dex_container.specs.Section as section;
ghost use Rattle.file_classes.specs.ClassFaults.{ClassRowHolds, ClassRowBreaks, ValuesHold, ValuesBreak, BodiesHold, BodiesBreak, RowRegistersHold, RowRegistersBreak};
ghost use Rattle.file_classes.specs.inner.ClassFaults.{ClassRowsHold};
ghost use Rattle.file_read.specs.inner.Broken.{Broken};
ghost use Rattle.file_read.specs.Means.{Means};
ghost use Rattle.file_read.specs.inner.FileDeciding.{MeansOrRefused};

use dex_base::are_bytes;
use dex_container::open;

/// If the tables are valid, the class rows are valid, or have a fault.
pub fn classes_are_decided()
    ensures { (b : List ℕ) → IsFramed b → TablesHold b → ClassRowsHold b
        ⊎ ((e : Fault) × IsFirstRow ClassRowBreaks ClassRowHolds b section.class_defs e) }
{}

/// A row of class_defs keeps the rules of each pass of reading, or has a fault of that pass: names and members, static values,
/// code and, if its code is valid, its registers.
pub fn rows_are_decided()
    ensures class { (b : List ℕ) → IsFramed b → TablesHold b → (i : ℕ) → i < size_of b section.class_defs → ClassRowHolds b i ⊎ ((code : ℕ) × ClassRowBreaks b i code) }
    ensures values { (b : List ℕ) → AreBytes b → IsFramed b → TablesHold b → (i : ℕ) → ClassRowHolds b i → ValuesHold b i ⊎ ((e : Fault) × ValuesBreak b i e) }
    ensures code { (b : List ℕ) → AreBytes b → IsFramed b → TablesHold b → (i : ℕ) → ClassRowHolds b i → BodiesHold b i ⊎ ((e : Fault) × BodiesBreak b i e) }
    ensures registers { (b : List ℕ) → IsFramed b → TablesHold b → (i : ℕ) → BodiesHold b i → RowRegistersHold b i ⊎ ((e : Fault) × RowRegistersBreak b i e) }
{}

/// A file whose header, map and checksums hold means a program, or a fault of its tables, class rows, values or code items refuses it.
pub fn framed_files_are_decided()
    ensures { (b : List ℕ) → AreBytes b → IsFramed b → MeansOrRefused b }
{}

/// Any bytes mean a program, or a fault refuses them; they have no fault of reading if and only if they mean a program.
pub fn meaning_is_decided(bytes: &[u8])
    ensures decided { MeansOrRefused bytes.now }
    ensures meant { ((f : Fault) → ¬ Broken bytes.now f) ↔ ((p : Program) × Means bytes.now p) }
    ensures refused { ((f : Fault) × Broken bytes.now f) ↔ (¬ ((p : Program) × Means bytes.now p)) }
{
    are_bytes(bytes);
    match open(bytes) {
        Ok(_) => {}
        Err(_) => {}
    }
}

/// A file has a row for each name that its program mentions.
pub fn meanings_have_rows()
    ensures { (b : List ℕ) (p : Program) → Means b p → IsMentionedIn p b }
{}

/// What a file means is well formed: its numbers and units lie in the ranges of their types, and it keeps the rules of programs.
pub fn meanings_are_well_formed()
    ensures { (b : List ℕ) → AreBytes b → (p : Program) → Means b p → WellFormed p }
{}
