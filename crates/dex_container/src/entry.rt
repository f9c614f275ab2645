//! The rules of one entry of the map.
ghost use Rattle.std.specs.Prelude.{◌≡◌, ◌≢◌, ℕ, ◌+◌, ◌<◌, ◌≤◌, ◌↔◌, length, IsTrue};
ghost use Rattle.dex_container.specs.Layout.{entry_count, kind_at, place_at};
ghost use Rattle.dex_container.specs.Frame.{HeaderHolds, SectionsHold, IsKind, EndsBeforeNext, HeaderEntryHolds, TableEntryHolds, MapEntryHolds, DataEntryHolds, EntryHolds};
ghost use Rattle.dex_container.specs.inner.Frame.{MapIsReadable};

use crate::fields::{
    data_begin, entry_count, items_at, kind_at, map_place, offset_of, place_at, row_bytes, size_of,
};
use crate::header_item::DATA;
use crate::kind;

/// The kinds of item that version 035 has.
fn is_kind(kind: u16) -> bool
    ensures { IsTrue result ↔ IsKind kind }
{
    kind <= 6
        || (0x1000 <= kind && kind <= 0x1003)
        || (0x2000 <= kind && kind <= 0x2006)
        || kind == 0xf000
}

/// At most nineteen entries are checked: with the twentieth a kind occurs twice or is unknown.
fn is_new(bytes: &[u8], i: usize) -> bool
    requires map { MapIsReadable bytes.now }
    requires entry { i < entry_count bytes.now }
    ensures { IsTrue result ↔ ((j : ℕ) → j < i → kind_at bytes.now j ≢ kind_at bytes.now i) }
{
    let kind = kind_at(bytes, i);
    for j in 0..i {
        if kind_at(bytes, j) == kind {
            return false;
        }
    }
    true
}

fn is_rising(bytes: &[u8], i: usize) -> bool
    requires map { MapIsReadable bytes.now }
    requires entry { i < entry_count bytes.now }
    ensures { IsTrue result ↔ ((j : ℕ) → j + 1 ≡ i → place_at bytes.now j < place_at bytes.now i) }
{
    i == 0 || place_at(bytes, i - 1) < place_at(bytes, i)
}

fn ends_before_next(bytes: &[u8], i: usize, end: u64) -> bool
    requires map { MapIsReadable bytes.now }
    requires entry { i < entry_count bytes.now }
    ensures { IsTrue result ↔ EndsBeforeNext bytes.now i end }
{
    i + 1 >= entry_count(bytes) as usize || end <= u64::from(place_at(bytes, i + 1))
}

fn header_entry_holds(bytes: &[u8], i: usize) -> bool
    requires map { MapIsReadable bytes.now }
    requires entry { i < entry_count bytes.now }
    ensures { IsTrue result ↔ HeaderEntryHolds bytes.now i }
{
    kind_at(bytes, i) != kind::HEADER_ITEM || (place_at(bytes, i) == 0 && items_at(bytes, i) == 1)
}

fn table_entry_holds(bytes: &[u8], i: usize) -> bool
    requires map { MapIsReadable bytes.now }
    requires entry { i < entry_count bytes.now }
    ensures { IsTrue result ↔ TableEntryHolds bytes.now i }
{
    let kind = kind_at(bytes, i);
    if kind == kind::HEADER_ITEM || kind > kind::CLASS_DEF_ITEM {
        return true;
    }
    let k = kind as usize - 1;
    let size = size_of(bytes, k);
    let offset = offset_of(bytes, k);
    let end = u64::from(offset) + row_bytes(k) * u64::from(size);
    items_at(bytes, i) == size && place_at(bytes, i) == offset && ends_before_next(bytes, i, end)
}

fn map_entry_holds(bytes: &[u8], i: usize) -> bool
    requires map { MapIsReadable bytes.now }
    requires entry { i < entry_count bytes.now }
    ensures { IsTrue result ↔ MapEntryHolds bytes.now i }
{
    if kind_at(bytes, i) != kind::MAP_LIST {
        return true;
    }
    let place = map_place(bytes);
    let end = u64::from(place) + 4 + 12 * u64::from(entry_count(bytes));
    items_at(bytes, i) == 1 && place_at(bytes, i) == place && ends_before_next(bytes, i, end)
}

fn data_entry_holds(bytes: &[u8], i: usize) -> bool
    requires map { MapIsReadable bytes.now }
    requires entry { i < entry_count bytes.now }
    ensures { IsTrue result ↔ DataEntryHolds bytes.now i }
{
    let begin = u64::from(data_begin(bytes));
    let end = begin + u64::from(size_of(bytes, DATA));
    let place = u64::from(place_at(bytes, i));
    kind_at(bytes, i) < kind::MAP_LIST || (begin <= place && place < end)
}

/// Whether entry i keeps the rules of the map.
pub(crate) fn entry_holds(bytes: &[u8], i: usize) -> bool
    requires map { MapIsReadable bytes.now }
    requires entry { i < entry_count bytes.now }
    ensures { IsTrue result ↔ EntryHolds bytes.now i }
{
    if !is_kind(kind_at(bytes, i)) || !is_new(bytes, i) {
        return false;
    }
    if !is_rising(bytes, i) || items_at(bytes, i) == 0 {
        return false;
    }
    if i == 0 && kind_at(bytes, i) != kind::HEADER_ITEM {
        return false;
    }
    if !header_entry_holds(bytes, i) || !table_entry_holds(bytes, i) {
        return false;
    }
    map_entry_holds(bytes, i) && data_entry_holds(bytes, i)
}
