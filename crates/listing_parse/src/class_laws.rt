//! The laws of classes. They have no code: each has its law as its contract.

ghost use Rattle.std.specs.Prelude.{◌≡◌, ◌↔◌, ◌∷◌, ℕ, List, None};
ghost use Rattle.program_types.specs.Content.{Descriptor};
ghost use Rattle.listing_lines.specs.Lines.{open_class};
ghost use Rattle.listing_parse.specs.States.{State, at_top, with_block};
ghost use Rattle.listing_parse.specs.Codes.{Numbered};
ghost use Rattle.listing_parse.specs.inner.Runs.{Runs, RunsBehindClass, RunsToClasses};

/// Where no class is open, lines that begin with `class` lead to where none is, with no target late, exactly if they are the
/// text of a class and lines after it, which lead there from where this class is whole after the others.
pub fn a_class_is_its_lines()
    ensures { (s t : State) (n flags : ℕ) (ty : Descriptor) (ls : List Numbered) → t.block ≡ at_top → t.late ≡ None
        → Runs (with_block s at_top) ((n, open_class ty flags) ∷ ls) t
        ↔ RunsBehindClass s ((n, open_class ty flags) ∷ ls) t }
{}

/// Where no class is open, lines lead to where none is, with no target late, exactly if they are the texts of classes, one
/// after the other, which are whole then.
pub fn classes_are_their_lines()
    ensures { (s t : State) (ls : List Numbered) → t.block ≡ at_top → t.late ≡ None
        → Runs (with_block s at_top) ls t ↔ RunsToClasses s ls t }
{}
