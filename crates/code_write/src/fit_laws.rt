//! Laws of what fits, each the contract of a function that does nothing else.

ghost use Rattle.code_write.specs.inner.Laws.{CodeLimitsAreDecided};

/// A code fits, by the ranks of names, if and only if it violates no limit of a code.
pub fn code_limits_are_decided()
    ensures { CodeLimitsAreDecided }
{}
