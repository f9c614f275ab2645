//! Whether the bytes of a file mean a program.
ghost use Rattle.std.specs.Prelude.{◌≡◌, ◌≢◌, IfErr, OnOk};
ghost use Rattle.dex_base.specs.Fault.{memory};
ghost use Rattle.program_types.specs.Content.{Program};
ghost use Rattle.file_read.specs.Means.{Means};
ghost use Rattle.file_read.specs.Refused.{IsRefused};

use bumpalo::Bump;
use dex_base::Fault;
use dex_container::{Sections, open};
use file_classes::{check_codes, check_statics, read_heads};
use std::alloc::Global;
use tables_rows::Tables;

/// Checks whether a file means a program: refuses what `read` refuses, with the same fault (`one_refusal`), without a program in memory:
/// static values are only checked, and each code is freed when it is read.
///
/// ```
/// use dex_file::{check, write};
/// use dex_program::Program;
///
/// let mut file = write(alloc, &Program { classes: &[] })?;
/// assert!(rt; check(alloc, &file).is_ok());
/// file[139] = 1; // the last byte
/// assert!(rt; check(alloc, &file).is_err()); // 8 Checksum at 8
/// ```
pub fn check(alloc: Global, bytes: &[u8]) -> Result<(), Fault>
    ensures means { OnOk result ((p : Program) × Means bytes.now p) }
    ensures only { (p : Program) → Means bytes.now p → IfErr result (λ e. e ≡ memory) }
    ensures refused { IfErr result (λ e. e ≢ memory → IsRefused bytes.now e) }
{
    let sections = open(bytes)?;
    check_framed(alloc, &sections)
}

/// Checks whether an opened file means a program, as `check` does for bytes.
///
/// ```
/// use dex_container::open;
/// use dex_file::write;
/// use dex_program::Program;
/// use file_read::check_framed;
///
/// let file = write(alloc, &Program { classes: &[] })?;
/// assert!(rt; check_framed(alloc, &open(&file)?).is_ok());
/// ```
pub fn check_framed(alloc: Global, sections: &Sections<'_>) -> Result<(), Fault>
    ensures means { OnOk result ((p : Program) × Means sections.now p) }
    ensures only { (p : Program) → Means sections.now p → IfErr result (λ e. e ≡ memory) }
    ensures refused { IfErr result (λ e. e ≢ memory → IsRefused sections.now e) }
{
    sections.framed();
    let arena = Bump::new(alloc);
    let tables = Tables::read(alloc, &arena, sections)?;
    let heads = read_heads(alloc, &arena, &arena, sections, &tables)?;
    check_statics(alloc, sections, &tables, heads)?;
    check_codes(alloc, sections, &tables, heads)?;
    Ok(())
}
