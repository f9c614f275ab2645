//! Laws of the limits, each the contract of a function that does nothing else.
ghost use Rattle.std.specs.Prelude.{◌≡◌};
ghost use Rattle.dex_base.specs.declared.fault.Fault.{Fault};
ghost use Rattle.program_types.specs.Content.{Program};
ghost use Rattle.file_limits.specs.inner.Laws.{LimitsAreDecided, WideIsByParts};
ghost use Rattle.file_limits.specs.Limits.{IsLowestLimit};

/// The sum over names and classes is the sum over the parts of a file: rows, type lists, code items, texts, arrays, class data, map.
pub fn wide_is_by_parts()
    ensures { WideIsByParts }
{}

/// A program fits if and only if it exceeds no limit of a file.
pub fn limits_are_decided()
    ensures { LimitsAreDecided }
{}

/// A program that doesn't fit has one lowest limit: one number, at one place.
pub fn one_limit()
    ensures { (p : Program) (e f : Fault) → IsLowestLimit p e → IsLowestLimit p f → e ≡ f }
{}
