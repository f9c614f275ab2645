//! The rows of class_defs ("class_def_item").
ghost use Rattle.std.specs.Prelude.{◌≡◌, ℕ, ◌<◌, List, Option, OnOk, IsOkUnless, length};
ghost use Rattle.dex_base.specs.Fault.{memory};
ghost use Rattle.dex_base.specs.Grammar.{Appends, Each};
ghost use Rattle.dex_container.specs.Layout.{size_of};
ghost use Rattle.dex_container.specs.Section as section;
ghost use Rattle.file_classes.specs.ClassRows.{IndexOrNone};
ghost use Rattle.file_put.specs.inner.ClassDefs.{SpellsClassRow, StringRanks, TypeRanks, with_places};
ghost use Rattle.program_types.specs.Content.{Program, Units};
ghost use Rattle.tables_names.specs.Closure.{Five};
ghost use Rattle.tables_names.specs.Needed.{needed};
ghost use Rattle.file_strip.specs.inner.Keeping.{Keeps};
ghost use Rattle.file_strip.specs.inner.Names.{StringOrNone, TypeOrNone};
ghost use Rattle.file_strip.specs.inner.ClassRow.{IsRowWithPlaces};

use dex_base::{Fault, push_words};
use dex_container::Sections;
use dex_insn::IndexKind;
use file_classes::{class_count, class_word, word};
use file_renumber::Numbers;

/// The offsets of the items of a class, 0 for none.
#[derive(Clone, Copy)]
struct ClassPlaces {
    list: u32,
    class_data: u32,
    array: u32,
}

/// The number of a type that may be none.
fn type_or_none(numbers: &Numbers, index: u32) -> u32
    requires { (b : List ℕ) × (s : Five) × (name : Option Units) × TypeOrNone b numbers.now s index name }
    ensures { (b : List ℕ) (s : Five) (name : Option Units) → TypeOrNone b numbers.now s index name → IndexOrNone (TypeRanks s) result name }
{
    if index == word::NO_INDEX {
        return word::NO_INDEX;
    }
    numbers.of(IndexKind::Type, index)
}

/// The number of a string that may be none.
fn string_or_none(numbers: &Numbers, index: u32) -> u32
    requires { (b : List ℕ) × (s : Five) × (name : Option Units) × StringOrNone b numbers.now s index name }
    ensures { (b : List ℕ) (s : Five) (name : Option Units) → StringOrNone b numbers.now s index name → IndexOrNone (StringRanks s) result name }
{
    if index == word::NO_INDEX {
        return word::NO_INDEX;
    }
    numbers.of(IndexKind::String, index)
}

/// Appends row i, whose items are at these offsets.
fn put_class(
    rows: &mut Vec<u8>,
    numbers: &Numbers,
    sections: &Sections<'_>,
    i: u32,
    places: ClassPlaces,
) -> Result<(), Fault>
    requires kept { (p : Program) × Keeps sections.now numbers.now p }
    requires row { i < size_of sections.now section.class_defs }
    ensures ok { OnOk result ((p : Program) → Keeps sections.now numbers.now p → IsRowWithPlaces p i places.list places.class_data places.array rows.old.items rows.new.items) }
    ensures memory { IsOkUnless result memory }
{
    push_words(
        rows,
        &[
            numbers.of(IndexKind::Type, class_word(sections, i, word::CLASS_IDX)),
            class_word(sections, i, word::ACCESS_FLAGS),
            type_or_none(numbers, class_word(sections, i, word::SUPERCLASS_IDX)),
            places.list,
            string_or_none(numbers, class_word(sections, i, word::SOURCE_FILE_IDX)),
            0,
            places.class_data,
            places.array,
        ],
    )
}

/// Appends the rows of all classes, whose interfaces, class data and static values are at these offsets, 0 for none.
///
/// It fails only when out of memory.
///
/// ```
/// put_classes(&mut rows, &numbers, &sections, &lists.places[protos..], &datas.places, &arrays.places)?;
/// ```
pub(crate) fn put_classes(
    rows: &mut Vec<u8>,
    numbers: &Numbers,
    sections: &Sections<'_>,
    lists: &[u32],
    datas: &[u32],
    arrays: &[u32],
) -> Result<(), Fault>
    requires kept { (p : Program) × Keeps sections.now numbers.now p }
    requires lists { length lists.now ≡ size_of sections.now section.class_defs }
    requires datas { length datas.now ≡ size_of sections.now section.class_defs }
    requires arrays { length arrays.now ≡ size_of sections.now section.class_defs }
    ensures ok { OnOk result ((p : Program) → Keeps sections.now numbers.now p
        → Appends (Each (SpellsClassRow (needed p))) rows.old.items rows.new.items (with_places p lists.now datas.now arrays.now)) }
    ensures memory { IsOkUnless result memory }
{
    for i in 0..class_count(sections) {
        let places = ClassPlaces {
            list: lists[i as usize],
            class_data: datas[i as usize],
            array: arrays[i as usize],
        };
        put_class(rows, numbers, sections, i, places)?;
    }
    Ok(())
}
