//! The rows of method_ids.
//! Page: "Dalvik Executable format", "method_id_item".
ghost use Rattle.std.specs.Prelude.{◌≡◌, ◌<◌, ◌≤◌, ◌^◌, ◌++◌, OnOk, IsOkUnless, length};
ghost use Rattle.dex_base.specs.Fault.{memory};
ghost use Rattle.dex_base.specs.Fields.{u16_bytes, u32_bytes};
ghost use Rattle.dex_base.specs.Grammar.{Appends};
ghost use Rattle.program_types.specs.Key.{method_ref_key};
ghost use Rattle.file_put.specs.inner.Rows.{SpellsMethodRow, SpellsTable};

use dex_base::Fault;
use tables_names::{MethodParts, Ranks};

/// Appends the row of a method: class, proto, name.
fn put_method(rows: &mut Vec<u8>, method: MethodParts) -> Result<(), Fault>
    requires class { method.class < 2 ^ 16 }
    requires proto { method.proto < 2 ^ 16 }
    requires name { method.name < 2 ^ 32 }
    ensures ok { OnOk result (rows.new.items ≡ rows.old.items ++ (u16_bytes method.class ++ (u16_bytes method.proto ++ u32_bytes method.name))) }
    ensures memory { IsOkUnless result memory }
{
    rows.extend_from_slice(&(method.class as u16).to_le_bytes())?;
    rows.extend_from_slice(&(method.proto as u16).to_le_bytes())?;
    rows.extend_from_slice(&(method.name as u32).to_le_bytes())?;
    Ok(())
}

/// Appends the rows of all methods.
pub(crate) fn put_methods(rows: &mut Vec<u8>, ranks: &Ranks<'_>) -> Result<(), Fault>
    requires few_strings { length ranks.now.strings ≤ 2 ^ 32 }
    requires few_types { length ranks.now.types ≤ 65535 }
    requires few_protos { length ranks.now.protos ≤ 65535 }
    ensures ok { OnOk result (Appends (SpellsTable method_ref_key (SpellsMethodRow ranks.now)) rows.old.items rows.new.items ranks.now.methods) }
    ensures memory { IsOkUnless result memory }
{
    for method in ranks.method_parts() {
        put_method(rows, *method)?;
    }
    Ok(())
}
