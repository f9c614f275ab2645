//! The order of class rows: fault 42.
ghost use Rattle.std.specs.Prelude.{◌≡◌, ◌≢◌, ◌↔◌, ℕ, ◌*◌, ◌<◌, List, IsTrue, length, slice_index};
ghost use Rattle.dex_container.specs.Layout.{size_of};
ghost use Rattle.dex_container.specs.Section as section;
ghost use Rattle.tables_rows.specs.inner.Halves.{halves};
ghost use Rattle.file_classes.specs.ClassRows.{no_index, NoneDefines, InOrder, InterfaceIndexes, superclass_idx};
ghost use Rattle.file_classes.specs.inner.Places.{ArePlaces, TypesHaveRows};

use crate::class_row::class_word;
use crate::places::{Places, is_first, is_undefined};
use crate::word;
use dex_base::u16_at;
use dex_container::{Sections, kind, section_of};
use tables_rows::indexes_or_none;

/// Whether the superclass of row i, if it has one, isn't defined here or later.
fn superclass_is_before(sections: &Sections<'_>, places: &Places, i: u32) -> bool
    requires places { ArePlaces sections.now (size_of sections.now section.class_defs) places.now.first.items places.now.last.items }
    requires row { i < size_of sections.now section.class_defs }
    requires within { superclass_idx sections.now i ≢ no_index → superclass_idx sections.now i < size_of sections.now section.type_ids }
    ensures { IsTrue result ↔ (superclass_idx sections.now i ≢ no_index → NoneDefines sections.now i (size_of sections.now section.class_defs) (superclass_idx sections.now i)) }
{
    let above = class_word(sections, i, word::SUPERCLASS_IDX);
    if above == 0xffffffff {
        return true;
    }
    is_undefined(sections, places, i, above)
}

/// Whether none of these types is defined in row i or later.
fn all_are_before(sections: &Sections<'_>, places: &Places, i: u32, types: &[u8]) -> bool
    requires places { ArePlaces sections.now (size_of sections.now section.class_defs) places.now.first.items places.now.last.items }
    requires even { length types.now ≡ 2 * length (halves types.now) }
    requires within { (k : ℕ) → k < length (halves types.now) → slice_index (halves types.now) k < size_of sections.now section.type_ids }
    ensures { IsTrue result ↔ ((k : ℕ) → k < length (halves types.now) → NoneDefines sections.now i (size_of sections.now section.class_defs) (slice_index (halves types.now) k)) }
{
    for k in 0..types.len() / 2 {
        if !is_undefined(sections, places, i, u32::from(u16_at(types, 2 * k))) {
            return false;
        }
    }
    true
}

/// Whether no interface of row i is defined here or later.
fn interfaces_are_before(sections: &Sections<'_>, places: &Places, i: u32) -> bool
    requires places { ArePlaces sections.now (size_of sections.now section.class_defs) places.now.first.items places.now.last.items }
    requires row { i < size_of sections.now section.class_defs }
    requires within { (indexes : List ℕ) → InterfaceIndexes sections.now i indexes → (k : ℕ) → k < length indexes → slice_index indexes k < size_of sections.now section.type_ids }
    ensures { IsTrue result ↔ ((indexes : List ℕ) → InterfaceIndexes sections.now i indexes → (k : ℕ) → k < length indexes → NoneDefines sections.now i (size_of sections.now section.class_defs) (slice_index indexes k)) }
{
    sections.framed();
    let lists = section_of(sections, kind::TYPE_LIST);
    let list = class_word(sections, i, word::INTERFACES_OFF);
    match indexes_or_none(sections, lists, list) {
        Some(types) => all_are_before(sections, places, i, types),
        None => true,
    }
}

/// Whether row i defines a class that no earlier row defines, and its superclass and interfaces are defined neither here nor later.
pub(crate) fn is_in_order(sections: &Sections<'_>, places: &Places, i: u32) -> bool
    requires places { ArePlaces sections.now (size_of sections.now section.class_defs) places.now.first.items places.now.last.items }
    requires row { i < size_of sections.now section.class_defs }
    requires within { TypesHaveRows sections.now i }
    ensures { IsTrue result ↔ InOrder sections.now i }
{
    let class = class_word(sections, i, word::CLASS_IDX);
    if !is_first(sections, places, i, class) {
        return false;
    }
    if !superclass_is_before(sections, places, i) {
        return false;
    }
    interfaces_are_before(sections, places, i)
}
