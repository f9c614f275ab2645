//! How a run fails.
ghost use Rattle.std.specs.Prelude.{◌≡◌, ◌≢◌, Some, IfOk, string_bytes};
ghost use Rattle.dexasm_run.specs.Status.{error_line, exit_status};

use dex_base::{Fault, fault_name};
use std::alloc::{AllocError, Global};
use std::fmt;
use thiserror::Error;

/// Why a run has no output. Its text is the line that the program prints.
#[derive(Debug, Drop, Error)]
#[error("{}", Line(self))]
pub enum RunFault {
    /// A call refused the input: its number is not 255.
    Refused(Fault),
    /// The source failed.
    Input,
    /// The sink failed.
    Output,
    /// Out of memory.
    Memory,
}

/// The fault of a call, as a run fails by it: out of memory is no refusal of the bytes.
impl From<Fault> for RunFault {
    ghost use Rattle.dexasm_run.specs.declared.error.RunFault.TheVariants.{Memory, Refused};

    ghost from_gives = { λ fault failure. (fault.code ≡ 255 → failure ≡ Memory) × (fault.code ≢ 255 → failure ≡ Refused fault) };

    fn from(fault: Fault) -> RunFault {
        if fault.code == 255 {
            RunFault::Memory
        } else {
            RunFault::Refused(fault)
        }
    }
}

/// The exit status of the program: 1 refused, 3 input or output, 4 out of memory.
///
/// ```
/// use dex_base::Fault;
/// use dexasm_run::{RunFault, status};
///
/// assert_eq!(rt; status(&RunFault::Refused(Fault { code: 8, place: 8 })), 1);
/// ```
pub fn status(fault: &RunFault) -> u8
    ensures { result ≡ exit_status fault.now }
{
    match fault {
        RunFault::Refused(_) => 1,
        RunFault::Input | RunFault::Output => 3,
        RunFault::Memory => 4,
    }
}

/// The line of a fault, for clauses: the derived `Display` shows it, and has no clause.
#[derive(Clone, Copy)]
pub struct Line<'a>(pub &'a RunFault);

impl fmt::Display for Line<'_> {
    ghost output = { λ line. Some (error_line line.0.now) };

    fn fmt<W: fmt::Write>(&self, f: &mut fmt::Formatter<W>) -> fmt::Result {
        match self.0 {
            RunFault::Refused(fault) => {
                let code = fault.code;
                let name = fault_name(code);
                let place = fault.place;
                write!(f, "dexasm: refused {code} {name} at {place}")
            }
            RunFault::Input => write!(f, "dexasm: cannot read"),
            RunFault::Output => write!(f, "dexasm: cannot write"),
            RunFault::Memory => write!(f, "dexasm: out of memory"),
        }
    }
}

/// The line of a failed run, as a text.
pub fn line_text(alloc: Global, fault: &RunFault) -> Result<String, AllocError>
    ensures { IfOk result (λ text. string_bytes text ≡ error_line fault.now) }
{
    Line(fault).to_string(alloc)
}
