//! Laws of reading, each the contract of a function that does nothing.
ghost use Rattle.std.specs.Prelude.{◌≡◌, ℕ, List};
ghost use Rattle.dex_base.specs.declared.fault.Fault.{Fault};
ghost use Rattle.file_read.specs.inner.Broken.{Broken, GroupBreaks};
ghost use Rattle.file_read.specs.inner.Groups.{IsCheckedBefore, Group};
ghost use Rattle.file_read.specs.Means.{Means};
ghost use Rattle.file_read.specs.Refused.{IsRefused};
ghost use Rattle.program_types.specs.Content.{Program};

/// A file means one program.
pub fn one_program()
    ensures { (b : List ℕ) (p q : _) → Means b p → Means b q → p ≡ q }
{}

/// A file that means a program has no fault.
pub fn meaning_is_clear()
    ensures { (b : List ℕ) (p : _) → Means b p → (f : Fault) → ¬ Broken b f }
{}

/// Bytes are refused with one fault, one number at one place, whichever call is used, and none that mean a program are.
pub fn one_refusal()
    ensures one { (b : List ℕ) (e f : Fault) → IsRefused b e → IsRefused b f → e ≡ f }
    ensures none { (b : List ℕ) (e : Fault) (p : Program) → IsRefused b e → ¬ Means b p }
{}

/// A refusal's fault is in one group, and no earlier group has a fault.
pub fn refusals_are_first()
    ensures { (b : List ℕ) (e : Fault) → IsRefused b e
        → (g : Group) × GroupBreaks g b e × ((h : Group) (f : Fault) → IsCheckedBefore h g → ¬ GroupBreaks h b f) }
{}
