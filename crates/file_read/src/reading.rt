//! From the bytes of a file to its program.
ghost use Rattle.std.specs.Prelude.{◌≡◌, ◌≢◌, IfOk, IfErr};
ghost use Rattle.dex_base.specs.Fault.{memory};
ghost use Rattle.program_types.specs.View as view;
ghost use Rattle.file_read.specs.Means.{Means};
ghost use Rattle.file_read.specs.Refused.{IsRefused};
ghost use Rattle.program_rules.specs.WellFormed.{WellFormed};

use bumpalo::Bump;
use dex_base::{Fault, are_bytes};
use dex_container::open;
use file_classes::{read_classes, read_heads, read_statics};
use program_types::Program;
use std::alloc::Global;
use tables_rows::Tables;

/// The program that a file means (Dalvik Executable format, version 035): the only one, and well formed, so that `write` and `print`
/// take it as it is. Its parts lie in the arena; nothing of `bytes` is kept.
///
/// A refusal is the first fault, group by group: header, map and checksums, the five tables of names, class rows, static
/// values, code, its registers; in each group at the first row that breaks a rule. Places are byte offsets. 255 is out of memory.
///
/// ```
/// use bumpalo::Bump;
/// use dex_file::{read, write};
/// use dex_program::Program;
///
/// let arena = Bump::new(alloc);
/// let file = write(alloc, &Program { classes: &[] })?;
/// assert!(rt; read(alloc, &arena, &file)?.classes.is_empty());
/// ```
pub fn read<'a>(alloc: Global, arena: &'a Bump, bytes: &[u8]) -> Result<Program<'a>, Fault>
    ensures means { IfOk result (λ p. Means bytes.now (view.program p)) }
    ensures one { IfOk result (λ p. (q : _) → Means bytes.now q → q ≡ view.program p) }
    ensures formed { IfOk result (λ p. WellFormed (view.program p)) }
    ensures only { (p : _) → Means bytes.now p → IfErr result (λ e. e ≡ memory) }
    ensures refused { IfErr result (λ e. e ≢ memory → IsRefused bytes.now e) }
{
    // Only for the proof: what holds of each value of its type.
    are_bytes(bytes);
    let sections = open(bytes)?;
    let tables = Tables::read(alloc, arena, &sections)?;
    let scratch = Bump::new(alloc);
    let heads = read_heads(alloc, arena, &scratch, &sections, &tables)?;
    let statics = read_statics(alloc, arena, &scratch, &sections, &tables, heads)?;
    let classes = read_classes(alloc, arena, &sections, &tables, heads, statics)?;
    Ok(Program { classes })
}
