//! The rows of type_ids.
//! Page: "Dalvik Executable format", "type_id_item".
ghost use Rattle.std.specs.Prelude.{◌≤◌, ◌^◌, OnOk, IsOkUnless, length};
ghost use Rattle.dex_base.specs.Fault.{memory};
ghost use Rattle.dex_base.specs.Grammar.{Appends};
ghost use Rattle.program_types.specs.Key.{text_key};
ghost use Rattle.file_put.specs.inner.Rows.{SpellsTable, SpellsTypeRow};

use dex_base::{Fault, push_words};
use tables_names::Ranks;

/// Appends the rows of all types: the index of each descriptor.
pub(crate) fn put_types(rows: &mut Vec<u8>, ranks: &Ranks<'_>) -> Result<(), Fault>
    requires few_strings { length ranks.now.strings ≤ 2 ^ 32 }
    ensures ok { OnOk result (Appends (SpellsTable text_key (SpellsTypeRow ranks.now)) rows.old.items rows.new.items ranks.now.types) }
    ensures memory { IsOkUnless result memory }
{
    for ty in ranks.type_parts() {
        push_words(rows, &[ty.text as u32])?;
    }
    Ok(())
}
