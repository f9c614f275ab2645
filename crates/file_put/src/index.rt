//! The indices of names that are held: never a refusal.
ghost use Rattle.std.specs.Prelude.{◌≤◌, ◌^◌, length};
ghost use Rattle.tables_names.specs.inner.Indices.{HasRank};
ghost use Rattle.tables_names.specs.Keys.{key_of_str, key_of_desc};
ghost use Rattle.tables_names.specs.Rank.{IsAt};
ghost use Rattle.program_types.specs.Key.{text_key};
ghost use Rattle.program_types.specs.Shorty.{shorty};
ghost use Rattle.program_types.specs.View as view;

use program_types::{Desc, Proto, Str};
use tables_names::Ranks;

/// The index of a string that is held.
pub fn string_index(ranks: &Ranks<'_>, name: Str<'_>) -> u32
    requires held { HasRank ranks.now.strings (key_of_str name) }
    requires few { length ranks.now.strings ≤ 2 ^ 32 }
    ensures { IsAt ranks.now.strings result (key_of_str name.entry) }
{
    match ranks.index_of_string(name) {
        Some(index) => index,
        None => unreachable!(),
    }
}

/// The index of the shorty of a prototype, which is held as a string.
pub fn shorty_index(ranks: &Ranks<'_>, name: &Proto<'_>) -> u32
    requires held { HasRank ranks.now.strings (text_key (shorty (view.proto name.now))) }
    requires few { length ranks.now.strings ≤ 2 ^ 32 }
    ensures { IsAt ranks.now.strings result (text_key (shorty (view.proto name.now))) }
{
    match ranks.index_of_shorty(name) {
        Some(index) => index,
        None => unreachable!(),
    }
}

/// The index of a type that is held, where there are at most 65535.
pub(crate) fn type_index(ranks: &Ranks<'_>, name: Desc<'_>) -> u16
    requires held { HasRank ranks.now.types (key_of_desc name) }
    requires few { length ranks.now.types ≤ 65535 }
    ensures { IsAt ranks.now.types result (key_of_desc name.entry) }
{
    match ranks.index_of_type(name) {
        Some(index) => index as u16,
        None => unreachable!(),
    }
}
