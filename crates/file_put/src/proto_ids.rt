//! The rows of proto_ids.
//! Page: "Dalvik Executable format", "proto_id_item".
ghost use Rattle.std.specs.Prelude.{◌≡◌, ◌≤◌, ◌^◌, OnOk, IsOkUnless, length};
ghost use Rattle.dex_base.specs.Fault.{memory};
ghost use Rattle.dex_base.specs.Grammar.{Appends};
ghost use Rattle.tables_names.specs.inner.Indices.{HasRank};
ghost use Rattle.tables_names.specs.Rank.{IsAt};
ghost use Rattle.program_types.specs.Key.{text_key};
ghost use Rattle.program_types.specs.Shorty.{shorty};
ghost use Rattle.program_types.specs.View as view;
ghost use Rattle.file_put.specs.inner.Rows.{SpellsProtoRow, SpellsProtos};

use crate::index::shorty_index;
use dex_base::{Fault, push_words};
use program_types::Proto;
use tables_names::{ProtoParts, Ranks};

/// Appends the row of a proto: shorty, return type, the place of its parameters.
fn put_proto(
    rows: &mut Vec<u8>,
    ranks: &Ranks<'_>,
    proto: &Proto<'_>,
    parts: ProtoParts,
    place: u32,
) -> Result<(), Fault>
    requires shorty { HasRank ranks.now.strings (text_key (shorty (view.proto proto.now))) }
    requires ret { IsAt ranks.now.types parts.ret (text_key (view.proto proto.now).ret) }
    requires few_strings { length ranks.now.strings ≤ 2 ^ 32 }
    requires few_types { length ranks.now.types ≤ 65535 }
    ensures ok { OnOk result (Appends (SpellsProtoRow ranks.now) rows.old.items rows.new.items (place, view.proto proto.now)) }
    ensures memory { IsOkUnless result memory }
{
    let shorty = shorty_index(ranks, proto);
    push_words(rows, &[shorty, parts.ret as u32, place])
}

/// Appends the rows of all protos, where `places` has the place of each one's parameters, 0 for none.
pub(crate) fn put_protos(rows: &mut Vec<u8>, ranks: &Ranks<'_>, places: &[u32]) -> Result<(), Fault>
    requires few_strings { length ranks.now.strings ≤ 2 ^ 32 }
    requires few_types { length ranks.now.types ≤ 65535 }
    requires places { length places.now ≡ length ranks.now.protos }
    ensures ok { OnOk result (Appends (SpellsProtos ranks.now places.now) rows.old.items rows.new.items ranks.now.protos) }
    ensures memory { IsOkUnless result memory }
{
    ranks.holds_parts();
    let parts = ranks.proto_parts();
    for (i, proto) in ranks.protos().iter().enumerate() {
        put_proto(rows, ranks, proto, parts[i], places[i])?;
    }
    Ok(())
}
