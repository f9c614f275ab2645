//! Laws of the definitions: functions that do nothing, whose contracts are the laws.

ghost use Rattle.std.specs.Prelude.{◌≡◌, ℕ, List};
ghost use Rattle.dex_base.specs.declared.fault.Fault.{Fault};
ghost use Rattle.file_classes.specs.ClassFaults.{ClassRowBreaks, ClassRowHolds, ValuesBreak, ValuesHold, BodiesBreak, BodiesHold, RowRegistersBreak, RowRegistersHold};
ghost use Rattle.file_classes.specs.inner.ClassFaults.{ClassRowKeeps};
ghost use Rattle.file_classes.specs.Classes.{SpellsClass};
ghost use Rattle.dex_container.specs.Frame.{IsFramed};
ghost use Rattle.program_types.specs.Content.{Class};

/// A row of class_defs encodes one class.
pub fn class_is_one()
    ensures { (b : List ℕ) → IsFramed b → (i : ℕ) (c d : Class) → SpellsClass b i c → SpellsClass b i d → c ≡ d }
{}

/// A row that keeps the rules of a pass has no fault of that pass.
pub fn classes_are_clear()
    ensures rows { (b : List ℕ) → IsFramed b → (i code : ℕ) → ClassRowHolds b i → ¬ ClassRowBreaks b i code }
    ensures values { (b : List ℕ) → IsFramed b → (i : ℕ) (e : Fault) → ValuesHold b i → ¬ ValuesBreak b i e }
    ensures code { (b : List ℕ) → IsFramed b → (i : ℕ) (e : Fault) → BodiesHold b i → ¬ BodiesBreak b i e }
    ensures registers { (b : List ℕ) → IsFramed b → (i : ℕ) (e : Fault) → RowRegistersHold b i → ¬ RowRegistersBreak b i e }
{}

/// A valid row keeps each rule of class rows, also by itself.
pub fn rows_that_hold_keep_the_rules()
    ensures { (b : List ℕ) → IsFramed b → (i : ℕ) → ClassRowHolds b i → ClassRowKeeps b i }
{}

/// A row breaks one rule of a pass: one number, at one place.
pub fn rows_break_one_rule()
    ensures rows { (b : List ℕ) → IsFramed b → (i m n : ℕ) → ClassRowBreaks b i m → ClassRowBreaks b i n → m ≡ n }
    ensures values { (b : List ℕ) → IsFramed b → (i : ℕ) (e f : Fault) → ValuesBreak b i e → ValuesBreak b i f → e ≡ f }
    ensures code { (b : List ℕ) → IsFramed b → (i : ℕ) (e f : Fault) → BodiesBreak b i e → BodiesBreak b i f → e ≡ f }
    ensures registers { (b : List ℕ) → IsFramed b → (i : ℕ) (e f : Fault) → RowRegistersBreak b i e → RowRegistersBreak b i f → e ≡ f }
{}
