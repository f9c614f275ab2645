//! The rows of field_ids.
//! Page: "Dalvik Executable format", "field_id_item".
ghost use Rattle.std.specs.Prelude.{◌≡◌, ◌<◌, ◌≤◌, ◌^◌, ◌++◌, OnOk, IsOkUnless, length};
ghost use Rattle.dex_base.specs.Fault.{memory};
ghost use Rattle.dex_base.specs.Fields.{u16_bytes, u32_bytes};
ghost use Rattle.dex_base.specs.Grammar.{Appends};
ghost use Rattle.program_types.specs.Key.{field_ref_key};
ghost use Rattle.file_put.specs.inner.Rows.{SpellsFieldRow, SpellsTable};

use dex_base::Fault;
use tables_names::{FieldParts, Ranks};

/// Appends the row of a field: class, type, name.
fn put_field(rows: &mut Vec<u8>, field: FieldParts) -> Result<(), Fault>
    requires class { field.class < 2 ^ 16 }
    requires ty { field.ty < 2 ^ 16 }
    requires name { field.name < 2 ^ 32 }
    ensures ok { OnOk result (rows.new.items ≡ rows.old.items ++ (u16_bytes field.class ++ (u16_bytes field.ty ++ u32_bytes field.name))) }
    ensures memory { IsOkUnless result memory }
{
    rows.extend_from_slice(&(field.class as u16).to_le_bytes())?;
    rows.extend_from_slice(&(field.ty as u16).to_le_bytes())?;
    rows.extend_from_slice(&(field.name as u32).to_le_bytes())?;
    Ok(())
}

/// Appends the rows of all fields.
pub(crate) fn put_fields(rows: &mut Vec<u8>, ranks: &Ranks<'_>) -> Result<(), Fault>
    requires few_strings { length ranks.now.strings ≤ 2 ^ 32 }
    requires few_types { length ranks.now.types ≤ 65535 }
    ensures ok { OnOk result (Appends (SpellsTable field_ref_key (SpellsFieldRow ranks.now)) rows.old.items rows.new.items ranks.now.fields) }
    ensures memory { IsOkUnless result memory }
{
    for field in ranks.field_parts() {
        put_field(rows, *field)?;
    }
    Ok(())
}
