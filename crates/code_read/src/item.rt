//! The fixed parts of a code item.

ghost use Rattle.std.specs.Prelude.{◌<◌, ◌^◌, IfSome, IfNone};
ghost use Rattle.code_read.specs.Item.{HasFixedParts};
ghost use Rattle.code_read.specs.inner.ItemReading.{IsCodeItem};

use dex_base::{u16_at, u32_at};

/// The fixed parts of an item, and the bytes after them.
#[derive(Clone, Copy)]
pub struct Item<'b> {
    pub registers: u16,
    pub ins: u16,
    pub outs: u16,
    pub tries: u16,
    pub size: u32,
    pub units: &'b [u8],
    pub items: &'b [u8],
    pub list: &'b [u8],
    pub items_at: u64,
}

/// The fixed parts of the item at the front of the bytes. None where they aren't all there.
#[tactic(auto, unfolding(crate::specs::Item::tries_begin))]
pub fn item_of<'b>(bytes: &'b [u8]) -> Option<Item<'b>>
    ensures some { IfSome result (λ i. IsCodeItem bytes.now i) }
    ensures low { IfSome result (λ i. i.items_at < 2 ^ 35) }
    ensures none { IfNone result (¬ HasFixedParts bytes.now) }
{
    if bytes.len() < 16 {
        return None;
    }
    let tries = u16_at(bytes, 6);
    let size = u32_at(bytes, 12);
    let units_end = 16 + 2 * u64::from(size);
    let items_at = if tries == 0 {
        units_end
    } else {
        units_end + 2 * u64::from(size % 2)
    };
    let list_at = items_at + 8 * u64::from(tries);
    if (bytes.len() as u64) < list_at {
        return None;
    }
    Some(Item {
        registers: u16_at(bytes, 0),
        ins: u16_at(bytes, 2),
        outs: u16_at(bytes, 4),
        tries,
        size,
        units: &bytes[16..units_end as usize],
        items: &bytes[items_at as usize..list_at as usize],
        list: &bytes[list_at as usize..],
        items_at,
    })
}
