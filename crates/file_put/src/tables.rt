//! The rows of the five tables of names.
//! Page: "Dalvik Executable format", "File layout".
ghost use Rattle.std.specs.Prelude.{◌≡◌, ◌≤◌, ◌^◌, IfOk, IsOkUnless, length};
ghost use Rattle.dex_base.specs.Fault.{memory};
ghost use Rattle.file_put.specs.inner.Rows.{SpellsRows};

use crate::field_ids::put_fields;
use crate::method_ids::put_methods;
use crate::proto_ids::put_protos;
use crate::type_ids::put_types;
use dex_base::{Fault, push_words};
use std::alloc::Global;
use tables_names::Ranks;

/// The rows of string_ids, type_ids, proto_ids, field_ids and method_ids, one table after the other, in bytes: `texts`
/// has the place of each string's text, `lists` that of each proto's parameters, 0 for none.
///
/// It fails only when out of memory.
pub(crate) fn name_rows(
    alloc: Global,
    ranks: &Ranks<'_>,
    texts: &[u32],
    lists: &[u32],
) -> Result<Vec<u8>, Fault>
    requires few_strings { length ranks.now.strings ≤ 2 ^ 32 }
    requires few_types { length ranks.now.types ≤ 65535 }
    requires few_protos { length ranks.now.protos ≤ 65535 }
    requires texts { length texts.now ≡ length ranks.now.strings }
    requires lists { length lists.now ≡ length ranks.now.protos }
    ensures ok { IfOk result (λ rows. SpellsRows ranks.now texts.now lists.now rows.items) }
    ensures memory { IsOkUnless result memory }
{
    let mut rows = Vec::new(alloc);
    push_words(&mut rows, texts)?;
    put_types(&mut rows, ranks)?;
    put_protos(&mut rows, ranks, lists)?;
    put_fields(&mut rows, ranks)?;
    put_methods(&mut rows, ranks)?;
    Ok(rows)
}
