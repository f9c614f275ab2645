//! The fields of the header and of the entries of the map, each at its offset in Layout.antt.
ghost use Rattle.std.specs.Prelude.{◌≡◌, ◌+◌, ◌<◌, ◌≤◌, length};
ghost use Rattle.dex_container.specs.Layout.{row_bytes, size_field, size_of, offset_of, data_begin, map_place, entry_place, entry_count, kind_at, items_at, place_at};
ghost use Rattle.dex_container.specs.inner.Frame.{MapIsReadable};

use crate::header_item::{DATA, MAP_OFF, STRING_IDS_SIZE};
use dex_base::{u16_at, u32_at};

/// Rows of the six tables, in bytes; the data section is counted in bytes.
const ROW_BYTES: [u64; 7] = [4, 4, 12, 8, 8, 32, 1];

/// How many bytes a row of a section takes.
pub(crate) fn row_bytes(k: usize) -> u64
    requires { k < 7 }
    ensures value { result ≡ row_bytes k }
    ensures small { result ≤ 32 }
{
    ROW_BYTES[k]
}

/// Where the header has the size of section k.
pub(crate) fn size_field(k: usize) -> usize
    requires { k < 7 }
    ensures { result ≡ size_field k }
{
    STRING_IDS_SIZE + 8 * k
}

/// How many rows section k has; of the data section, how many bytes.
#[tactic(auto, unfolding(crate::specs::Layout::size_of))]
pub(crate) fn size_of(bytes: &[u8], k: usize) -> u32
    requires section { k < 7 }
    requires long { 112 ≤ length bytes.now }
    ensures { result ≡ size_of bytes.now k }
{
    u32_at(bytes, size_field(k))
}

/// Where section k begins.
#[tactic(auto, unfolding(crate::specs::Layout::offset_of))]
pub(crate) fn offset_of(bytes: &[u8], k: usize) -> u32
    requires section { k < 7 }
    requires long { 112 ≤ length bytes.now }
    ensures { result ≡ offset_of bytes.now k }
{
    u32_at(bytes, size_field(k) + 4)
}

/// Where the data section begins.
pub(crate) fn data_begin(bytes: &[u8]) -> u32
    requires { 112 ≤ length bytes.now }
    ensures { result ≡ data_begin bytes.now }
{
    offset_of(bytes, DATA)
}

/// The offset of the map.
#[tactic(auto, unfolding(crate::specs::Layout::map_place))]
pub(crate) fn map_place(bytes: &[u8]) -> u32
    requires { 112 ≤ length bytes.now }
    ensures { result ≡ map_place bytes.now }
{
    u32_at(bytes, MAP_OFF)
}

/// How many entries the map has.
#[tactic(auto, unfolding(crate::specs::Layout::entry_count))]
pub(crate) fn entry_count(bytes: &[u8]) -> u32
    requires long { 112 ≤ length bytes.now }
    requires room { map_place bytes.now + 4 ≤ length bytes.now }
    ensures { result ≡ entry_count bytes.now }
{
    u32_at(bytes, map_place(bytes) as usize)
}

/// The offset of entry i of the map.
pub(crate) fn entry_place(bytes: &[u8], i: usize) -> usize
    requires map { MapIsReadable bytes.now }
    requires entry { i < entry_count bytes.now }
    ensures { result ≡ entry_place bytes.now i }
{
    map_place(bytes) as usize + 4 + 12 * i
}

/// The kind that entry i names.
#[tactic(auto, unfolding(crate::specs::Layout::kind_at))]
pub(crate) fn kind_at(bytes: &[u8], i: usize) -> u16
    requires map { MapIsReadable bytes.now }
    requires entry { i < entry_count bytes.now }
    ensures { result ≡ kind_at bytes.now i }
{
    u16_at(bytes, entry_place(bytes, i))
}

/// How many items entry i counts.
#[tactic(auto, unfolding(crate::specs::Layout::items_at))]
pub(crate) fn items_at(bytes: &[u8], i: usize) -> u32
    requires map { MapIsReadable bytes.now }
    requires entry { i < entry_count bytes.now }
    ensures { result ≡ items_at bytes.now i }
{
    u32_at(bytes, entry_place(bytes, i) + 4)
}

/// Where the items of entry i begin.
#[tactic(auto, unfolding(crate::specs::Layout::place_at))]
pub(crate) fn place_at(bytes: &[u8], i: usize) -> u32
    requires map { MapIsReadable bytes.now }
    requires entry { i < entry_count bytes.now }
    ensures { result ≡ place_at bytes.now i }
{
    u32_at(bytes, entry_place(bytes, i) + 8)
}
