//! The offsets of the items of a part.
//! Page: "Dalvik Executable format", where an offset of 0 means no item.
ghost use Rattle.std.specs.Prelude.{◌≡◌, ◌+◌, ◌<◌, ◌^◌, ◌∷◌, [], ◌++◌, OnOk, IsOkUnless};
ghost use Rattle.dex_base.specs.Fault.{memory};
ghost use Rattle.file_put.specs.inner.Placing.{items_with};

use dex_base::Fault;
use std::alloc::Global;

/// Of each value the byte at which its item begins, 0 for none, and how many items there are.
#[derive(Drop)]
pub struct Placed {
    pub places: Vec<u32>,
    pub items: u32,
}

impl Placed {
    /// No place yet.
    pub fn new(alloc: Global) -> Self
        ensures places { result.places.items ≡ [] }
        ensures items { result.items ≡ 0 }
    {
        Placed {
            places: Vec::new(alloc),
            items: 0,
        }
    }

    /// One more place: that of an item of its own, or 0 for none. It fails only when out of memory.
    pub fn add(&mut self, place: u32) -> Result<(), Fault>
        requires { self.old.items + 1 < 2 ^ 32 }
        ensures places { OnOk result (self.new.places.items ≡ self.old.places.items ++ place ∷ []) }
        ensures items { OnOk result (self.new.items ≡ items_with place self.old.items) }
        ensures memory { IsOkUnless result memory }
    {
        self.places.push(place)?;
        if place > 0 {
            self.items += 1;
        }
        Ok(())
    }
}
