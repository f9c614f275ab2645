//! The map, which is at the end of the file.
//! Page: "Dalvik Executable format", "map_list" and "map_item".
ghost use Rattle.std.specs.Prelude.{◌≡◌, ℕ, ◌++◌, ◌≤◌, ◌<◌, ◌^◌, OnOk, IfOk, IsOkUnless, length, map, slice_index};
ghost use Rattle.std.specs.List.{filter};
ghost use Rattle.dex_base.specs.Fault.{memory};
ghost use Rattle.dex_base.specs.Words.{words_bytes};
ghost use Rattle.file_layout.specs.inner.Entries.{entry_words, has_some, list_words, entry_of};
ghost use Rattle.file_layout.specs.inner.Plan.{tables_end, spans_of};
ghost use Rattle.file_layout.specs.Tiles.{zeros, gap};

use crate::padding::pad_after;
use crate::plan::{HEADER_SIZE, Part, Plan};
use crate::ranges::are_words;
use dex_base::{Fault, push_words};
use dex_container::kind;
use std::alloc::Global;

/// One entry: a kind of items, how many there are, and the byte at which they begin.
#[derive(Clone, Copy)]
pub(crate) struct Entry {
    pub kind: u16,
    pub items: u32,
    pub place: u32,
}

impl Entry {
    fn new(kind: u16, items: u32, place: u32) -> Self
        ensures { result ≡ record { kind = kind; items = items; place = place } }
    {
        Self { kind, items, place }
    }

    fn of_part(kind: u16, part: Part) -> Self
        ensures { result ≡ record { kind = kind; items = part.items; place = part.begin } }
    {
        Self {
            kind,
            items: part.items,
            place: part.begin,
        }
    }
}

/// All kinds of items that a file of this plan may have, in the order of the file, with the map at `place`.
pub(crate) fn entries_of(plan: &Plan, place: u32) -> [Entry; 13]
    requires { tables_end plan.now.rows < 2 ^ 32 }
    ensures { result ≡ map entry_of (spans_of plan.now place 0) }
{
    let rows = plan.rows;
    [
        Entry::new(kind::HEADER_ITEM, 1, 0),
        Entry::new(kind::STRING_ID_ITEM, rows.strings, HEADER_SIZE),
        Entry::new(kind::TYPE_ID_ITEM, rows.types, rows.type_ids_begin()),
        Entry::new(kind::PROTO_ID_ITEM, rows.protos, rows.proto_ids_begin()),
        Entry::new(kind::FIELD_ID_ITEM, rows.fields, rows.field_ids_begin()),
        Entry::new(kind::METHOD_ID_ITEM, rows.methods, rows.method_ids_begin()),
        Entry::new(kind::CLASS_DEF_ITEM, rows.classes, rows.class_defs_begin()),
        Entry::of_part(kind::TYPE_LIST, plan.lists),
        Entry::of_part(kind::CODE_ITEM, plan.codes),
        Entry::of_part(kind::STRING_DATA_ITEM, plan.strings),
        Entry::of_part(kind::ENCODED_ARRAY_ITEM, plan.arrays),
        Entry::of_part(kind::CLASS_DATA_ITEM, plan.datas),
        Entry::new(kind::MAP_LIST, 1, place),
    ]
}

/// How many entries have items.
fn entry_count(entries: &[Entry]) -> u32
    requires { length entries.now ≤ 100 }
    ensures { result ≡ length (filter has_some entries.now) }
{
    let mut count = 0;
    for entry in entries {
        if entry.items > 0 {
            count += 1;
        }
    }
    count
}

/// Appends the words of an entry, if it has items.
fn push_entry(words: &mut Vec<u32>, entry: Entry) -> Result<(), Fault>
    ensures ok { OnOk result (words.new.items ≡ words.old.items ++ entry_words entry) }
    ensures memory { IsOkUnless result memory }
{
    if entry.items > 0 {
        words.extend_from_slice(&[u32::from(entry.kind), entry.items, entry.place])?;
    }
    Ok(())
}

/// The map of these entries in numbers of four bytes: how many there are, then each; those without items are left out.
fn list_words(alloc: Global, entries: &[Entry]) -> Result<Vec<u32>, Fault>
    requires { length entries.now ≤ 100 }
    ensures ok { IfOk result (λ words. words.items ≡ list_words entries.now) }
    ensures fits { IfOk result (λ words. (j : ℕ) → slice_index words.items j < 2 ^ 32) }
    ensures memory { IsOkUnless result memory }
{
    let mut words = Vec::new(alloc);
    words.extend_from_slice(&[entry_count(entries)])?;
    for entry in entries {
        push_entry(&mut words, *entry)?;
    }
    are_words(&words);
    Ok(words)
}

/// The bytes after the data of a file that so far ends at `end`: zeros up to the next offset that 4 divides, then the map of
/// these entries.
///
/// It fails only when out of memory.
pub(crate) fn map_after(alloc: Global, end: usize, entries: &[Entry]) -> Result<Vec<u8>, Fault>
    requires { length entries.now ≤ 100 }
    ensures ok { IfOk result (λ bytes. bytes.items ≡ zeros (gap 4 end) ++ words_bytes (list_words entries.now)) }
    ensures fits { OnOk result ((j : ℕ) → slice_index (list_words entries.now) j < 2 ^ 32) }
    ensures memory { IsOkUnless result memory }
{
    let words = list_words(alloc, entries)?;
    let mut bytes = Vec::new(alloc);
    pad_after(&mut bytes, end)?;
    push_words(&mut bytes, &words)?;
    Ok(bytes)
}
