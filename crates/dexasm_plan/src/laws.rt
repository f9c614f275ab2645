//! A law of the command line: some lines are accepted, so that the clauses of `plan` about accepted lines are not empty.
ghost use Rattle.std.specs.Prelude.{◌≡◌, ◌∷◌, [], codes, true};
ghost use Rattle.clap.specs.Words.{takes};
ghost use Rattle.dexasm_plan.specs.Commands.{dexasm};

/// A line with a subcommand alone, one with FILE and OUT, one with the streams in their place, and one with `--align` are taken.
pub fn lines_are_taken()
    ensures check { takes dexasm (codes "dexasm" ∷ codes "check" ∷ []) ≡ true }
    ensures file { takes dexasm
        (codes "dexasm" ∷ codes "strip" ∷ codes "a.dex" ∷ codes "--output" ∷ codes "b.dex" ∷ []) ≡ true }
    ensures short { takes dexasm (codes "dexasm" ∷ codes "list" ∷ codes "-o" ∷ codes "-" ∷ codes "-" ∷ []) ≡ true }
    ensures align { takes dexasm (codes "dexasm" ∷ codes "assemble" ∷ codes "--align" ∷ codes "a" ∷ []) ≡ true }
{}
