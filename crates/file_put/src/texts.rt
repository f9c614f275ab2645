//! Texts.
//! Page: "Dalvik Executable format", "string_data_item".
ghost use Rattle.std.specs.Prelude.{◌+◌, ◌<◌, ◌≤◌, ◌^◌, IfOk, OnOk, IsOkUnless, length};
ghost use Rattle.dex_base.specs.Fault.{memory};
ghost use Rattle.dex_base.specs.Mutf8.{PacksText};
ghost use Rattle.program_types.specs.View as view;
ghost use Rattle.file_layout.specs.Sections.{wide_all};
ghost use Rattle.file_layout.specs.inner.Sections.{never, Adds, Laid};
ghost use Rattle.file_limits.specs.inner.Wide.{text_values, wide_text};
ghost use Rattle.file_layout.specs.inner.Tiles.{AreShared};

use crate::placed::Placed;
use dex_base::{Fault, put_mutf8};
use program_types::Str;
use std::alloc::Global;
use tables_names::Ranks;

/// Appends a text, and returns its offset.
fn add_string(out: &mut Vec<u8>, text: Str<'_>) -> Result<u32, Fault>
    requires room { length out.old.items + wide_text (view.str text) < 2 ^ 32 }
    ensures ok { IfOk result (Adds PacksText 1 out.old.items out.new.items (view.str text.entry)) }
    ensures bound { OnOk result (length out.new.items ≤ length out.old.items + wide_text (view.str text.entry)) }
    ensures memory { IsOkUnless result memory }
{
    let place = out.len() as u32;
    put_mutf8(out, text.units)?;
    Ok(place)
}

/// Appends the texts of all strings, one after the other, and returns their offsets.
///
/// It fails only when out of memory.
pub(crate) fn put_strings(
    alloc: Global,
    out: &mut Vec<u8>,
    ranks: &Ranks<'_>,
) -> Result<Placed, Fault>
    requires front { 0 < length out.old.items }
    requires room { length out.old.items + wide_all wide_text (text_values ranks.now) < 2 ^ 32 }
    ensures ok { IfOk result (λ r. Laid never PacksText 1 wide_text out.old.items out.new.items (text_values ranks.now) r.places.items r.items) }
    ensures once { IfOk result (λ r. AreShared r.places.items (text_values ranks.now)) }
    ensures memory { IsOkUnless result memory }
{
    ranks.rise();
    let texts = ranks.strings();
    let mut places = Vec::with_capacity(alloc, texts.len())?;
    for text in texts {
        let place = add_string(out, *text)?;
        places.push(place)?;
    }
    Ok(Placed {
        places,
        items: texts.len() as u32,
    })
}
