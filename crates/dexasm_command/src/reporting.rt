//! The report of a failure.
ghost use Rattle.std.specs.Prelude.{◌≡◌, ◌⊎◌, ◌++◌, List, ℕ, IfOk, OnOk, string_bytes};
ghost use Rattle.dexasm_run.specs.declared.error.RunFault.TheVariants.{Memory};
ghost use Rattle.dexasm_command.specs.Reported.{IsText, ReportsFault, more_line};
ghost use Rattle.dexasm_command.specs.inner.Reported.{AddsMore};

use dex_base::fault_sentence;
use dexasm_run::{RunFault, Sink, line_text, status, write_all};
use std::alloc::{AllocError, Global};
use std::io;

/// Reports a failure in one line, and returns its exit status. On a terminal a second line has the violated rule, or the system's error,
/// if there is one. If there is no memory for the text, that is the failure.
pub fn report<E: Sink>(
    alloc: Global,
    fault: &RunFault,
    error: Option<io::Error>,
    is_terminal: bool,
    errors: &mut E,
) -> u8
    ensures { ReportsFault is_terminal fault.now (E.contents errors.old) (E.contents errors.new) (E.failed errors.new) result
        ⊎ ReportsFault is_terminal Memory (E.contents errors.old) (E.contents errors.new) (E.failed errors.new) result }
{
    match text_of(alloc, fault, error, is_terminal) {
        Ok(text) => {
            let _ = write_all(text.as_bytes(), errors);
            status(fault)
        }
        Err(_) => {
            let _ = write_all(b"dexasm: out of memory\n", errors);
            4
        }
    }
}

/// The line with its end, and the second line for a terminal.
fn text_of(
    alloc: Global,
    fault: &RunFault,
    error: Option<io::Error>,
    is_terminal: bool,
) -> Result<String, AllocError>
    ensures { IfOk result (λ text. IsText is_terminal fault.now (string_bytes text)) }
{
    let mut text = line_text(alloc, fault)?;
    text.push('\n')?;
    if is_terminal {
        push_more(alloc, &mut text, fault, error)?;
    }
    Ok(text)
}

/// The second line for a terminal.
fn push_more(
    alloc: Global,
    text: &mut String,
    fault: &RunFault,
    error: Option<io::Error>,
) -> Result<(), AllocError>
    ensures { OnOk result (AddsMore fault.now (string_bytes text.old) (string_bytes text.new)) }
{
    match fault {
        RunFault::Refused(fault) => push_line(text, fault_sentence(fault.code)),
        RunFault::Input | RunFault::Output => push_error(alloc, text, error),
        RunFault::Memory => Ok(()),
    }
}

/// The system's error, where there is one.
fn push_error(alloc: Global, text: &mut String, error: Option<io::Error>) -> Result<(), AllocError>
    ensures { OnOk result ((string_bytes text.new ≡ string_bytes text.old)
        ⊎ ((errors_before : List ℕ) × (string_bytes text.new ≡ string_bytes text.old ++ more_line errors_before))) }
{
    match error {
        Some(error) => {
            let errors_before = error.to_string(alloc)?;
            push_line(text, errors_before.as_str())
        }
        None => Ok(()),
    }
}

/// A line below the line of the failure.
fn push_line(text: &mut String, errors_before: &str) -> Result<(), AllocError>
    ensures { OnOk result (string_bytes text.new ≡ string_bytes text.old ++ more_line errors_before.now) }
{
    text.push_str("  ")?;
    text.push_str(errors_before)?;
    text.push('\n')
}
