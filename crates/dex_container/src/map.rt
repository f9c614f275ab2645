//! The map, and its faults.
ghost use Rattle.std.specs.Prelude.{◌≡◌, ℕ, ◌+◌, ◌<◌, ◌≤◌, ◌↔◌, length, IsTrue, OnOk, IfErr, MatchOption};
ghost use Rattle.dex_container.specs.Layout.{entry_count, kind_at};
ghost use Rattle.dex_container.specs.Frame.{HeaderHolds, SumsHold, SectionsHold, MapIsPlaced, EntryHolds, EntriesHold, HasKind, MapHolds};
ghost use Rattle.dex_container.specs.inner.Frame.{MapIsReadable};
ghost use Rattle.dex_container.specs.Faults.{IsFrameFault};

use crate::entry::entry_holds;
use crate::fields::{
    data_begin, entry_count, entry_place, kind_at, map_place, size_field, size_of,
};
use crate::header_item::{DATA, MAP_OFF, TABLES};
use crate::kind;
use dex_base::{Fault, fault};

fn map_is_placed(bytes: &[u8]) -> bool
    requires header { HeaderHolds bytes.now }
    requires sections { SectionsHold bytes.now }
    ensures placed { IsTrue result ↔ MapIsPlaced bytes.now }
    ensures readable { IsTrue result → MapIsReadable bytes.now }
{
    let begin = u64::from(data_begin(bytes));
    let end = begin + u64::from(size_of(bytes, DATA));
    let place = u64::from(map_place(bytes));
    if place % 4 != 0 || place < begin || end < place + 4 {
        return false;
    }
    place + 4 + 12 * u64::from(entry_count(bytes)) <= end
}

/// An entry of a kind, if there is one.
pub(crate) fn find_kind(bytes: &[u8], kind: u16) -> Option<usize>
    requires map { MapIsReadable bytes.now }
    ensures { MatchOption result (¬ HasKind bytes.now kind) (λ i. (i < entry_count bytes.now) × (kind_at bytes.now i ≡ kind)) }
{
    for i in 0..entry_count(bytes) as usize {
        if kind_at(bytes, i) == kind {
            return Some(i);
        }
    }
    None
}

fn check_entries(bytes: &[u8]) -> Result<(), Fault>
    requires header { HeaderHolds bytes.now }
    requires sums { SumsHold bytes.now }
    requires sections { SectionsHold bytes.now }
    requires placed { MapIsPlaced bytes.now }
    requires map { MapIsReadable bytes.now }
    ensures ok { OnOk result (EntriesHold bytes.now) }
    ensures err { IfErr result (IsFrameFault bytes.now) }
{
    for i in 0..entry_count(bytes) as usize {
        if !entry_holds(bytes, i) {
            return Err(Fault::at(fault::MAP_ENTRY, entry_place(bytes, i) as u64));
        }
    }
    Ok(())
}

/// The rules of the map as a whole.
pub(crate) fn check_map(bytes: &[u8]) -> Result<(), Fault>
    requires header { HeaderHolds bytes.now }
    requires sums { SumsHold bytes.now }
    requires sections { SectionsHold bytes.now }
    ensures ok { OnOk result (MapHolds bytes.now) }
    ensures err { IfErr result (IsFrameFault bytes.now) }
{
    if !map_is_placed(bytes) {
        return Err(Fault::at(fault::MAP_PLACE, MAP_OFF as u64));
    }
    check_entries(bytes)?;
    if find_kind(bytes, kind::MAP_LIST).is_none() {
        return Err(Fault::at(fault::MAP_MISSING, MAP_OFF as u64));
    }
    for k in 0..TABLES {
        if size_of(bytes, k) > 0 && find_kind(bytes, k as u16 + 1).is_none() {
            return Err(Fault::at(fault::MAP_MISSING, size_field(k) as u64));
        }
    }
    Ok(())
}
