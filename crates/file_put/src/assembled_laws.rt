//! Laws of what is assembled, each the contract of a function that does nothing.
//! Page: "Dalvik Executable format", "File layout".
ghost use Rattle.std.specs.Prelude.{◌≡◌, ℕ, List};
ghost use Rattle.program_rules.specs.WellFormed.{WellFormed};
ghost use Rattle.program_types.specs.Content.{Program};
ghost use Rattle.tables_names.specs.Needed.{needed};
ghost use Rattle.file_put.specs.inner.Assembled.{Assembled};

/// Of a well-formed program one file is assembled: `Assembled` leaves no byte open.
pub fn assembled_is_one()
    ensures { (p : Program) → WellFormed p → (b c : List ℕ) → Assembled b (needed p) p → Assembled c (needed p) p → b ≡ c }
{}
