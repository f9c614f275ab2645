//! How many bytes strings, type lists and prototypes take at most.
//! Page: "Dalvik Executable format", "string_data_item", "type_list", "proto_id_item".
ghost use Rattle.std.specs.Prelude.{◌≡◌, ◌∷◌, [], map};
ghost use Rattle.dex_base.specs.Mutf8.{mutf8_length};
ghost use Rattle.file_layout.specs.Sections.{wide_all};
ghost use Rattle.tables_names.specs.Keys.{key_of_str, key_of_proto};
ghost use Rattle.program_types.specs.View as view;
ghost use Rattle.file_limits.specs.inner.Sum.{IsSum};
ghost use Rattle.file_limits.specs.Wide.{wide_list, wide_proto, wide_string};

use crate::sums::{plus, times};
use program_types::{Desc, Proto, Str};

/// How many bytes a unit takes.
fn unit_length(unit: u16) -> u64
    ensures { result ≡ mutf8_length (unit ∷ []) }
{
    if unit == 0 {
        2
    } else if unit < 128 {
        1
    } else if unit < 2048 {
        2
    } else {
        3
    }
}

/// How many bytes a string takes at most.
fn string_size(text: Str<'_>) -> u64
    ensures { IsSum result (wide_string (key_of_str text.entry)) }
{
    let mut sum: u64 = 10;
    for unit in text.units {
        sum = plus(sum, unit_length(*unit));
    }
    sum
}

/// How many bytes all strings take at most.
pub(crate) fn strings_size(texts: &[Str<'_>]) -> u64
    ensures { IsSum result (wide_all wide_string (map key_of_str texts.now)) }
{
    let mut sum: u64 = 0;
    for text in texts {
        sum = plus(sum, string_size(*text));
    }
    sum
}

/// How many bytes a type list takes at most: none if there is no type.
pub(crate) fn list_size(types: &[Desc<'_>]) -> u64
    ensures { IsSum result (wide_list (map view.desc types.now)) }
{
    match types.len() {
        0 => 0,
        count => plus(7, times(count, 2)),
    }
}

/// How many bytes all prototypes take at most.
pub(crate) fn protos_size(protos: &[Proto<'_>]) -> u64
    ensures { IsSum result (wide_all wide_proto (map key_of_proto protos.now)) }
{
    let mut sum: u64 = 0;
    for proto in protos {
        sum = plus(sum, plus(12, list_size(proto.params)));
    }
    sum
}
