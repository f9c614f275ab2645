//! The items of a part, each once, and their offsets.
//! Page: "Dalvik Executable format", "File layout".
ghost use Rattle.std.specs.Prelude.{◌≡◌, ◌+◌, ◌<◌, ◌^◌, [], ◌++◌, IfOk, OnOk, IsOkUnless, length};
ghost use Rattle.dex_base.specs.Fault.{memory};
ghost use Rattle.file_layout.specs.inner.OneMore.{PutsOnce};

use crate::item::Item;
use crate::padding::pad;
use dex_base::{Fault, Seed};
use indexmap::IndexMap;
use indexmap::map::Entry;
use std::alloc::Global;
use std::marker::Model;

/// The items of a part, in the order of the file. Its model is the bytes of each, with its offset.
pub struct Items {
    places: IndexMap<Item, u32, Seed>,
}

// Each place where items are let go is proved: here it is one call, and derived it would be all that they own.
impl Drop for Items {
    fn drop(self) {
        let Items { places: _ } = self;
    }
}

impl Model for Items {
    ghost use Rattle.std.specs.Prelude.{List};
    ghost use Rattle.file_layout.specs.inner.OneMore.{Entry, kept_entry};
    ghost use Rattle.std.specs.Prelude.{map};

    ghost Value = { List Entry };

    ghost view = { λ i. map kept_entry i.places.entries };
}

impl Items {
    /// No item. Hashes begin with the seed.
    pub fn new(alloc: Global, seed: Seed) -> Self
        ensures { result ≡ [] }
    {
        Items {
            places: IndexMap::with_hasher(alloc, seed),
        }
    }

    /// How many items there are.
    pub fn count(&self) -> u32
        requires { length self.now < 2 ^ 32 }
        ensures { result ≡ length self.now }
    {
        self.places.len() as u32
    }

    /// Returns the offset of the item of these bytes: that of an equal one, otherwise the end of `out`, to which it is appended.
    ///
    /// It fails only when out of memory.
    pub fn put(&mut self, out: &mut Vec<u8>, bytes: Vec<u8>) -> Result<u32, Fault>
        requires some { 0 < length bytes.items }
        requires room { length out.old.items < 2 ^ 32 }
        ensures ok { IfOk result (PutsOnce 1 self.old self.new out.old.items out.new.items bytes.items) }
        ensures memory { IsOkUnless result memory }
    {
        match self.places.entry(Item { bytes })? {
            Entry::Occupied(entry) => Ok(*entry.into_mut()), // after `get` a proof would not know the map
            Entry::Vacant(entry) => {
                let place = append(out, &entry.key().bytes)?;
                entry.insert(place);
                Ok(place)
            }
        }
    }

    /// Returns the offset of the item of these bytes, 4-aligned: that of an equal one, otherwise after `out`, to which zeros are
    /// appended up to the next offset that 4 divides, and then the item.
    ///
    /// It fails only when out of memory.
    pub fn put_aligned(&mut self, out: &mut Vec<u8>, bytes: Vec<u8>) -> Result<u32, Fault>
        requires some { 0 < length bytes.items }
        requires room { length out.old.items + 3 < 2 ^ 32 }
        ensures ok { IfOk result (PutsOnce 4 self.old self.new out.old.items out.new.items bytes.items) }
        ensures memory { IsOkUnless result memory }
    {
        match self.places.entry(Item { bytes })? {
            Entry::Occupied(entry) => Ok(*entry.into_mut()),
            Entry::Vacant(entry) => {
                pad(out)?;
                let place = append(out, &entry.key().bytes)?;
                entry.insert(place);
                Ok(place)
            }
        }
    }
}

/// Appends an item, and returns its offset.
fn append(out: &mut Vec<u8>, bytes: &[u8]) -> Result<u32, Fault>
    requires room { length out.old.items < 2 ^ 32 }
    ensures place { IfOk result (λ place. place ≡ length out.old.items) }
    ensures out { OnOk result (out.new.items ≡ out.old.items ++ bytes.now) }
    ensures memory { IsOkUnless result memory }
{
    let place = out.len() as u32;
    out.extend_from_slice(bytes)?;
    Ok(place)
}
