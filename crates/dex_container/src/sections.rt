//! The places of tables and data by the header: faults 10 and 11.
ghost use Rattle.std.specs.Prelude.{◌≡◌, ◌<◌, ◌≤◌, ◌↔◌, length, IsTrue, OnOk, IfErr};
ghost use Rattle.dex_container.specs.Frame.{HeaderHolds, SumsHold, SectionsHold, SectionHolds};
ghost use Rattle.dex_container.specs.Faults.{IsFrameFault};

use crate::fields::{offset_of, row_bytes, size_field, size_of};
use crate::header_item::{DATA, PROTO_IDS, SIZE, TYPE_IDS};
use dex_base::{Fault, fault};

fn section_holds(bytes: &[u8], k: usize) -> bool
    requires section { k < 7 }
    requires long { 112 ≤ length bytes.now }
    ensures { IsTrue result ↔ SectionHolds bytes.now k }
{
    let size = u64::from(size_of(bytes, k));
    let offset = u64::from(offset_of(bytes, k));
    let is_aligned = k == DATA || offset % 4 == 0;
    let is_within = offset + row_bytes(k) * size <= bytes.len() as u64;
    size == 0 || is_aligned && SIZE as u64 <= offset && is_within
}

/// The rules of the seven sections, lowest first.
pub(crate) fn check_sections(bytes: &[u8]) -> Result<(), Fault>
    requires header { HeaderHolds bytes.now }
    requires sums { SumsHold bytes.now }
    ensures ok { OnOk result (SectionsHold bytes.now) }
    ensures err { IfErr result (IsFrameFault bytes.now) }
{
    for k in 0..=DATA {
        if !section_holds(bytes, k) {
            return Err(Fault::at(fault::SECTION_RANGE, size_field(k) as u64));
        }
    }
    if size_of(bytes, TYPE_IDS) > 65535 {
        return Err(Fault::at(fault::TOO_MANY_ROWS, size_field(TYPE_IDS) as u64));
    }
    if size_of(bytes, PROTO_IDS) > 65535 {
        return Err(Fault::at(fault::TOO_MANY_ROWS, size_field(PROTO_IDS) as u64));
    }
    Ok(())
}
