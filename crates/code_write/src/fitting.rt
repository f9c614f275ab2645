//! Whether a code fits.

ghost use Rattle.std.specs.Prelude.{◌≡◌, ◌≢◌, OnOk, IfErr};
ghost use Rattle.std.specs.List.{AllByRecursion, flat_map};
ghost use Rattle.dex_base.specs.Fault.{memory};
ghost use Rattle.program_types.specs.Formed.{IsFormed};
ghost use Rattle.program_types.specs.Mentions.{names_of_code, names_of_try};
ghost use Rattle.program_types.specs.View as view;
ghost use Rattle.tables_names.specs.Closure.{NameRanks};
ghost use Rattle.program_types.specs.Sizes.{addresses_of, length_of};
ghost use Rattle.program_types.specs.Kinds.{HasIndex};
ghost use Rattle.code_write.specs.Fits.{AllInsns, AllNumbers, FitsCode, HasIndexBelow, IsEven, IsUnfit, OffsetsFit, ShortFits};
ghost use Rattle.dex_insn.specs.declared.opcode.IndexKind.TheVariants as kind;

use crate::begins::Begins;
use crate::names::names_fit;
use crate::offsets::{are_even, offsets_fit};
use crate::sizes::{Starts, starts_of};
use crate::tries::{handlers_fit, is_short, tries_fit};
use code_rules::origins_of;
use dex_base::{Fault, fault};
use dex_insn::IndexKind;
use program_types::Code;
use std::alloc::Global;
use tables_names::Ranks;

/// Whether a code whose instructions fit does: its tries, 87 to 89. Where it is too long to be written anyway, its handlers aren't laid.
fn check_tries(alloc: Global, ranks: &Ranks<'_>, all: &Starts, code: &Code<'_>) -> Result<(), Fault>
    requires formed { IsFormed (view.code code.now) }
    requires caught { AllByRecursion (HasIndexBelow (NameRanks ranks.now) 4294967296) (flat_map names_of_try (view.code code.now).tries) }
    requires starts { all.now.starts.items ≡ addresses_of (view.code code.now).insns }
    requires end { all.now.end ≡ length_of (view.code code.now).insns }
    requires strings { AllInsns (ShortFits (NameRanks ranks.now) kind.String) (view.code code.now) }
    requires fields { AllInsns (ShortFits (NameRanks ranks.now) kind.Field) (view.code code.now) }
    requires methods { AllInsns (ShortFits (NameRanks ranks.now) kind.Method) (view.code code.now) }
    requires offsets { AllNumbers OffsetsFit (view.code code.now) }
    requires even { AllNumbers IsEven (view.code code.now) }
    ensures ok { OnOk result (FitsCode (NameRanks ranks.now) (view.code code.now)) }
    ensures err { IfErr result (λ e. e ≢ memory → IsUnfit (NameRanks ranks.now) (view.code code.now) e) }
{
    if !tries_fit(&all.starts, code.tries) {
        return Err(Fault::at(fault::TRY_TOO_LONG, 0));
    }
    if code.tries.len() > 65535 {
        return Err(Fault::at(fault::TOO_MANY_TRIES, 0));
    }
    if !is_short(all.end, code.tries) {
        return Ok(());
    }
    let starts = Begins { list: &all.starts };
    if !handlers_fit(alloc, ranks, &starts, code.tries)? {
        return Err(Fault::at(fault::HANDLER_TOO_FAR, 0));
    }
    Ok(())
}

/// Whether a code that is well formed fits the fields of a file. Of the limits that it breaks the fault names the lowest: 82 to 84 an
/// index of a string, field or method that doesn't fit 16 bits, 85 an offset, 86 a payload at an odd address, 87 a try that covers
/// too much, 88 too many tries, 89 a handler too far after the list's begin. Its place is 0. Beside these only out of memory.
///
/// ```
/// use dex_code::fits;
/// use dex_program::{Code, Insn};
/// use dex_tables::Needed;
///
/// let code = Code { registers: 0, ins: 0, outs: 0, insns: &[Insn::I10x { op: 0x0e }], tries: &[] }; // return-void
/// let ranks = Needed::new(alloc).freeze()?; // of a code that names nothing
/// assert!(rt; fits(alloc, &ranks, &code).is_ok());
/// ```
pub fn fits(alloc: Global, ranks: &Ranks<'_>, code: &Code<'_>) -> Result<(), Fault>
    requires formed { IsFormed (view.code code.now) }
    requires ranked { AllByRecursion (HasIndex (NameRanks ranks.now)) (names_of_code (view.code code.now)) }
    requires caught { AllByRecursion (HasIndexBelow (NameRanks ranks.now) 4294967296) (flat_map names_of_try (view.code code.now).tries) }
    ensures ok { OnOk result (FitsCode (NameRanks ranks.now) (view.code code.now)) }
    ensures err { IfErr result (λ e. e ≢ memory → IsUnfit (NameRanks ranks.now) (view.code code.now) e) }
{
    if !names_fit(ranks, IndexKind::String, code.insns) {
        return Err(Fault::at(fault::STRING_OUT_OF_REACH, 0));
    }
    if !names_fit(ranks, IndexKind::Field, code.insns) {
        return Err(Fault::at(fault::FIELD_OUT_OF_REACH, 0));
    }
    if !names_fit(ranks, IndexKind::Method, code.insns) {
        return Err(Fault::at(fault::METHOD_OUT_OF_REACH, 0));
    }
    let all = starts_of(alloc, code.insns)?;
    let origins = origins_of(alloc, code.insns)?;
    if !offsets_fit(&all.starts, &origins, code.insns) {
        return Err(Fault::at(fault::BRANCH_OUT_OF_REACH, 0));
    }
    if !are_even(&all.starts, code.insns) {
        return Err(Fault::at(fault::MISALIGNED, 0));
    }
    check_tries(alloc, ranks, &all, code)?;
    Ok(())
}
