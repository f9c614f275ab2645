//! Where a line is.

ghost use Rattle.std.specs.Prelude.{◌≡◌};
ghost use Rattle.listing_lines.specs.Places.{may_stand, is_insn, is_start, is_top, is_heads, is_in_class, is_after, is_insns, is_in_code, is_caught};

use listing_slots::Kind;

/// What may follow.
#[derive(Clone, Copy)]
pub enum Stage {
    /// Nothing was read.
    Start,
    /// Outside of classes.
    Top,
    /// Before the members of a class.
    Heads,
    /// Among its members.
    Members,
    /// After a method.
    After,
    /// Among instructions.
    Insns,
    /// Among tries, after a whole one.
    Tries,
    /// After a try, or a catch of it.
    Caught,
}

/// Whether nothing was read.
pub fn is_start(stage: Stage) -> bool
    ensures { result ≡ is_start stage }
{
    matches!(stage, Stage::Start)
}

/// Whether outside of classes.
pub(crate) fn is_top(stage: Stage) -> bool
    ensures { result ≡ is_top stage }
{
    matches!(stage, Stage::Top)
}

/// Whether before the members of a class.
pub(crate) fn is_heads(stage: Stage) -> bool
    ensures { result ≡ is_heads stage }
{
    matches!(stage, Stage::Heads)
}

/// Whether in a class, outside of code.
pub(crate) fn is_in_class(stage: Stage) -> bool
    ensures { result ≡ is_in_class stage }
{
    matches!(stage, Stage::Heads | Stage::Members | Stage::After)
}

/// Whether after a method.
pub(crate) fn is_after(stage: Stage) -> bool
    ensures { result ≡ is_after stage }
{
    matches!(stage, Stage::After)
}

/// Whether among instructions.
pub fn is_insns(stage: Stage) -> bool
    ensures { result ≡ is_insns stage }
{
    matches!(stage, Stage::Insns)
}

/// Whether in code.
pub(crate) fn is_in_code(stage: Stage) -> bool
    ensures { result ≡ is_in_code stage }
{
    matches!(stage, Stage::Insns | Stage::Tries | Stage::Caught)
}

/// Whether after a try or a catch.
pub fn is_caught(stage: Stage) -> bool
    ensures { result ≡ is_caught stage }
{
    matches!(stage, Stage::Caught)
}

/// Whether an instruction or a payload.
pub fn is_insn(kind: Kind) -> bool
    ensures { result ≡ is_insn kind }
{
    matches!(
        kind,
        Kind::Plain(_) | Kind::Packed | Kind::Sparse | Kind::Elements
    )
}

/// Whether such a line is allowed there.
#[rattlefmt::skip]
#[tactic(auto, unfolding(crate::specs::Places::may_stand))]
pub fn may_stand(stage: Stage, kind: Kind) -> bool
    ensures { result ≡ may_stand stage kind }
{
    match kind {
        Kind::First => is_start(stage),
        Kind::OpenClass => is_top(stage),
        Kind::Super | Kind::Implements | Kind::Source => is_heads(stage),
        Kind::EndClass | Kind::Static | Kind::Given | Kind::Instance | Kind::Direct | Kind::Virtual => is_in_class(stage),
        Kind::OpenCode => is_after(stage),
        Kind::Plain(_) | Kind::Packed | Kind::Sparse | Kind::Elements => is_insns(stage),
        Kind::Try | Kind::EndCode => is_in_code(stage),
        Kind::Catch | Kind::CatchAll => is_caught(stage),
    }
}
