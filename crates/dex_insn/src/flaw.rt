//! The rules that units can break.

ghost use Rattle.std.specs.Prelude.{◌≡◌};

use dex_base::fault;

/// A rule that is broken at some place. It is finer than the number of the fault.
#[derive(Clone, Copy)]
pub(crate) enum Flaw {
    /// No whole unit is there.
    Missing,
    /// The opcode is unused.
    Opcode,
    /// The instruction goes past the units.
    Cut,
    /// A bit that has to be 0 is set.
    NonZero,
    /// Format 35c names more than five registers.
    RegisterCount,
    /// A payload begins at an odd unit.
    OddPayload,
    /// The head of a payload goes past the units.
    CutHead,
    /// The elements of an array payload have a width other than 1, 2, 4 and 8 bytes.
    Width,
    /// A payload goes past the units.
    CutPayload,
    /// The keys of a sparse-switch payload don't rise strictly.
    KeyOrder,
}

impl Flaw {
    ghost use Rattle.dex_insn.specs.inner.Flaws.{code_of};

    /// The number of the fault.
    pub(crate) fn code(self) -> u16
        ensures { result ≡ code_of self }
    {
        match self {
            Flaw::Opcode => fault::OPCODE,
            Flaw::Missing | Flaw::Cut | Flaw::CutHead | Flaw::CutPayload => fault::CUT,
            Flaw::NonZero => fault::NON_ZERO,
            Flaw::RegisterCount => fault::REGISTER_COUNT,
            Flaw::OddPayload | Flaw::Width | Flaw::KeyOrder => fault::PAYLOAD,
        }
    }
}
