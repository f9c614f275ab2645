//! The status of a call, and its fault.
ghost use Rattle.std.specs.Prelude.{◌≡◌};
ghost use Rattle.dexasm_c.specs.Status.{status_of};

/// How a call ends.
#[derive(Clone, Copy)]
pub(crate) enum Ending {
    /// The output is in the caller's memory.
    Answered,
    /// The bytes are refused.
    Refused,
    /// Out of memory.
    Memory,
    /// The caller's memory is too small for the output.
    TooSmall,
}

/// A fault as C sees it: its number and its place, or twice 0 where there is none.
#[repr(C)]
#[derive(Clone, Copy)]
pub struct CFault {
    pub code: u16,
    pub place: u64,
}

/// The number of a status: those of the command's exit status, and one that the command cannot have.
pub(crate) fn status(ending: Ending) -> u32
    ensures { result ≡ status_of ending }
{
    match ending {
        Ending::Answered => 0,
        Ending::Refused => 1,
        Ending::Memory => 4,
        Ending::TooSmall => 5,
    }
}
