//! The rows of class_defs.
//! Page: "Dalvik Executable format", "class_def_item".
ghost use Rattle.std.specs.Prelude.{◌≡◌, ℕ, ◌<◌, ◌≤◌, ◌^◌, Some, OnOk, IsOkUnless, length, map, option_map, slice_get};
ghost use Rattle.std.specs.Option.{ForSome};
ghost use Rattle.dex_base.specs.Fault.{memory};
ghost use Rattle.dex_base.specs.Grammar.{Appends, Each};
ghost use Rattle.file_classes.specs.ClassRows.{IndexOrNone};
ghost use Rattle.tables_names.specs.inner.Indices.{HasRank};
ghost use Rattle.program_types.specs.Key.{text_key};
ghost use Rattle.program_types.specs.View as view;
ghost use Rattle.file_put.specs.inner.ClassDefs.{SpellsClassRow, StringRanks, TypeRanks, with_places};
ghost use Rattle.file_put.specs.inner.Held.{RowNamesHeld};

use crate::index::{string_index, type_index};
use dex_base::{Fault, push_words};
use file_classes::word;
use program_types::{Class, Desc, Str};
use tables_names::Ranks;

/// The offsets of the items of a class, 0 for none.
#[derive(Clone, Copy)]
pub(crate) struct ClassPlaces {
    pub list: u32,
    pub class_data: u32,
    pub array: u32,
}

/// The index of a type that may be none.
fn type_or_none(ranks: &Ranks<'_>, name: Option<Desc<'_>>) -> u32
    requires held { ForSome (option_map view.desc name) (λ t. HasRank ranks.now.types (text_key t)) }
    requires few { length ranks.now.types ≤ 65535 }
    ensures { IndexOrNone (TypeRanks ranks.now) result (option_map view.desc name.entry) }
{
    match name {
        Some(ty) => u32::from(type_index(ranks, ty)),
        None => word::NO_INDEX,
    }
}

/// The index of a string that may be none.
fn string_or_none(ranks: &Ranks<'_>, name: Option<Str<'_>>) -> u32
    requires held { ForSome (option_map view.str name) (λ t. HasRank ranks.now.strings (text_key t)) }
    requires few { length ranks.now.strings < 4294967295 }
    ensures { IndexOrNone (StringRanks ranks.now) result (option_map view.str name.entry) }
{
    match name {
        Some(text) => string_index(ranks, text),
        None => word::NO_INDEX,
    }
}

/// A number of four bytes is below 2^32.
fn is_word(number: u32)
    ensures { number < 2 ^ 32 }
{}

/// Appends the row of a class.
fn put_class(
    rows: &mut Vec<u8>,
    ranks: &Ranks<'_>,
    class: &Class<'_>,
    places: ClassPlaces,
) -> Result<(), Fault>
    requires held { RowNamesHeld ranks.now (view.class class.now) }
    requires few_types { length ranks.now.types ≤ 65535 }
    requires few_strings { length ranks.now.strings < 4294967295 }
    ensures ok { OnOk result (Appends (SpellsClassRow ranks.now) rows.old.items rows.new.items (record { class = view.class class.now; list = places.list; class_data = places.class_data; array = places.array })) }
    ensures memory { IsOkUnless result memory }
{
    is_word(class.flags);
    push_words(
        rows,
        &[
            u32::from(type_index(ranks, class.ty)),
            class.flags,
            type_or_none(ranks, class.superclass),
            places.list,
            string_or_none(ranks, class.source),
            0,
            places.class_data,
            places.array,
        ],
    )
}

/// Appends the rows of all classes, whose interfaces, class data and static values are at these offsets.
///
/// It fails only when out of memory.
pub(crate) fn put_classes(
    rows: &mut Vec<u8>,
    ranks: &Ranks<'_>,
    classes: &[Class<'_>],
    lists: &[u32],
    datas: &[u32],
    arrays: &[u32],
) -> Result<(), Fault>
    requires held { (i : ℕ) (c : _) → slice_get (map view.class classes.now) i ≡ Some c → RowNamesHeld ranks.now c }
    requires few_types { length ranks.now.types ≤ 65535 }
    requires few_strings { length ranks.now.strings < 4294967295 }
    requires lists { length lists.now ≡ length classes.now }
    requires datas { length datas.now ≡ length classes.now }
    requires arrays { length arrays.now ≡ length classes.now }
    ensures ok { OnOk result (Appends (Each (SpellsClassRow ranks.now)) rows.old.items rows.new.items (with_places (map view.class classes.now) lists.now datas.now arrays.now)) }
    ensures memory { IsOkUnless result memory }
{
    for (i, class) in classes.iter().enumerate() {
        let places = ClassPlaces {
            list: lists[i],
            class_data: datas[i],
            array: arrays[i],
        };
        put_class(rows, ranks, class, places)?;
    }
    Ok(())
}
