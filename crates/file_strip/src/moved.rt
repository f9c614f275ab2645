//! From the offsets of items in the input file to those in the output file, so that each item is read once.
ghost use Rattle.std.specs.Prelude.{◌≡◌, ◌+◌, ◌<◌, ◌^◌, [], nat_eq, Some, IfOk, IfSome, IsOkUnless, length};
ghost use Rattle.dex_base.specs.Fault.{memory};
ghost use Rattle.std.specs.HashMap.{IsEmpty, Updates, get};
ghost use Rattle.file_layout.specs.inner.Sections.{IsItself, is_empty_list};
ghost use Rattle.file_layout.specs.inner.Sharing.{UsesItem};

use dex_base::{Fault, Seed};
use file_layout::Items;
use std::alloc::Global;
use std::collections::HashMap;

/// The items of a part, by their bytes and by where they stood.
pub(crate) struct Moved {
    pub items: Items,
    pub places: HashMap<u32, u32>,
}

// As that of `Items`.
impl Drop for Moved {
    fn drop(self) {
        let Moved {
            items: _,
            places: _,
        } = self;
    }
}

/// Returns the offset of the item of these bytes, which is appended unless an equal one is there; 0 for no byte.
fn item_place(items: &mut Items, out: &mut Vec<u8>, bytes: Vec<u8>) -> Result<u32, Fault>
    requires room { length out.old.items < 2 ^ 32 }
    ensures ok { IfOk result (UsesItem is_empty_list IsItself 1 items.old items.new out.old.items out.new.items bytes.items) }
    ensures memory { IsOkUnless result memory }
{
    if bytes.len() == 0 {
        return Ok(0);
    }
    Ok(items.put(out, bytes)?)
}

/// Returns the offset, which 4 divides, of the item of these bytes, which is appended unless an equal one is there; 0 for no
/// byte.
fn aligned_place(items: &mut Items, out: &mut Vec<u8>, bytes: Vec<u8>) -> Result<u32, Fault>
    requires room { 0 < length bytes.items → length out.old.items + 3 < 2 ^ 32 }
    ensures ok { IfOk result (UsesItem is_empty_list IsItself 4 items.old items.new out.old.items out.new.items bytes.items) }
    ensures memory { IsOkUnless result memory }
{
    if bytes.len() == 0 {
        return Ok(0);
    }
    Ok(items.put_aligned(out, bytes)?)
}

impl Moved {
    /// No item.
    pub(crate) fn new(alloc: Global, seed: Seed) -> Self
        ensures items { result.items ≡ [] }
        ensures places { IsEmpty result.places }
    {
        Moved {
            items: Items::new(alloc, seed),
            places: HashMap::new(alloc),
        }
    }

    /// The new offset of the item that was at this offset, if there is one.
    pub(crate) fn find(&self, off: u32) -> Option<u32>
        ensures { IfSome result (λ place. get nat_eq self.now.places off ≡ Some place) }
    {
        self.places.get(&off).copied()
    }

    /// Returns the offset of the item of these bytes, which replaces the one at this old offset: that of an equal one, otherwise
    /// the end of `out`, to which it is appended; 0 for no byte.
    pub(crate) fn put(&mut self, out: &mut Vec<u8>, off: u32, bytes: Vec<u8>) -> Result<u32, Fault>
        requires room { length out.old.items < 2 ^ 32 }
        ensures ok { IfOk result (UsesItem is_empty_list IsItself 1 self.old.items self.new.items out.old.items out.new.items bytes.items) }
        ensures moved { IfOk result (λ place. Updates nat_eq self.old.places self.new.places off (Some place)) }
        ensures memory { IsOkUnless result memory }
    {
        let place = item_place(&mut self.items, out, bytes)?;
        self.places.insert(off, place)?;
        Ok(place)
    }

    /// Returns the offset, 4-aligned, of the item of these bytes, which replaces the one at this old offset: that of an equal one,
    /// otherwise after `out`, to which it is appended; 0 for no byte.
    pub(crate) fn put_aligned(
        &mut self,
        out: &mut Vec<u8>,
        off: u32,
        bytes: Vec<u8>,
    ) -> Result<u32, Fault>
        requires room { 0 < length bytes.items → length out.old.items + 3 < 2 ^ 32 }
        ensures ok { IfOk result (UsesItem is_empty_list IsItself 4 self.old.items self.new.items out.old.items out.new.items bytes.items) }
        ensures moved { IfOk result (λ place. Updates nat_eq self.old.places self.new.places off (Some place)) }
        ensures memory { IsOkUnless result memory }
    {
        let place = aligned_place(&mut self.items, out, bytes)?;
        self.places.insert(off, place)?;
        Ok(place)
    }
}
