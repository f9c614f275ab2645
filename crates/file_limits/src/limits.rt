//! The limits of a file.
//! Page: "Dalvik Executable format", "header_item": type_ids_size and proto_ids_size are at most 65535, file_size has four bytes.
ghost use Rattle.std.specs.Prelude.{◌≡◌, ◌≢◌, ℕ, Some, IfErr, OnOk, slice_get};
ghost use Rattle.std.specs.List.{AllByRecursion};
ghost use Rattle.dex_base.specs.Fault.{memory};
ghost use Rattle.file_limits.specs.Limits.{Fits, IsLowestLimit, codes_of};
ghost use Rattle.file_limits.specs.inner.Limits.{BodyIsReady};
ghost use Rattle.file_limits.specs.inner.Lowest.{or_too_big};
ghost use Rattle.tables_names.specs.Needed.{needed};
ghost use Rattle.program_types.specs.View as view;

use crate::bodies::lowest_of;
use crate::file_size::is_too_big;
use dex_base::{Fault, fault};
use program_types::Program;
use std::alloc::Global;
use tables_names::Ranks;

/// What is refused where the file is too big: the lower limit that a body breaks, if it is not how far its handlers are.
fn too_big_or(broken: Option<Fault>) -> Fault
    ensures { result ≡ or_too_big broken }
{
    match broken {
        Some(lower) if lower.code != fault::HANDLER_TOO_FAR => lower,
        _ => Fault::at(fault::TOO_BIG, 0),
    }
}

/// Refuses a program that no file can hold: the lowest-numbered fault, at its place. The place of 80 TooManyTypes and 81
/// TooManyProtos is how many are needed, that of 82 to 89 the number of the first class with a body that exceeds the limit, that of
/// 90 TooBig is 0. 255 is out of memory.
///
/// The bodies have to be well formed, and `ranks` to hold what the program needs.
pub fn check_limits(alloc: Global, ranks: &Ranks<'_>, program: &Program<'_>) -> Result<(), Fault>
    requires needed { ranks.now ≡ needed (view.program program.now) }
    requires ready { (i : ℕ) (c : _) → slice_get (view.program program.now) i ≡ Some c → AllByRecursion (BodyIsReady ranks.now) (codes_of c) }
    ensures ok { OnOk result (Fits (view.program program.now)) }
    ensures err { IfErr result (λ e. e ≢ memory → IsLowestLimit (view.program program.now) e) }
{
    let types = ranks.types().len();
    if types > 65535 {
        return Err(Fault::at(fault::TOO_MANY_TYPES, types as u64));
    }
    let protos = ranks.protos().len();
    if protos > 65535 {
        return Err(Fault::at(fault::TOO_MANY_PROTOS, protos as u64));
    }
    let broken = lowest_of(alloc, ranks, program.classes)?;
    if is_too_big(ranks, program) {
        return Err(too_big_or(broken));
    }
    match broken {
        Some(limit) => Err(limit),
        None => Ok(()),
    }
}
