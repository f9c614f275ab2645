//! Laws of the definitions, each the contract of a function that does nothing else.
ghost use Rattle.std.specs.Prelude.{◌≡◌};
ghost use Rattle.dex_base.specs.declared.fault.Fault.{Fault};
ghost use Rattle.code_align.specs.Programs.{AlignedProgram, IsTooLong};
ghost use Rattle.program_rules.specs.WellFormed.{WellFormed};
ghost use Rattle.program_types.specs.Content.{Program};

/// A program is aligned in one way.
pub fn aligned_program_is_one()
    ensures { (p q r : Program) → AlignedProgram p q → AlignedProgram p r → q ≡ r }
{}

/// What is too long when it is aligned isn't well formed then.
pub fn what_is_too_long_is_not_formed()
    ensures { (p q : Program) (fault : Fault) → IsTooLong p fault → AlignedProgram p q → WellFormed q → ⊥ }
{}
