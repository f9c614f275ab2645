//! Where the instructions of a code that is written begin.

ghost use Rattle.std.specs.Prelude.{◌≡◌, ◌<◌, length, slice_index};
ghost use Rattle.code_read.specs.Places.{Rises};

use std::marker::Model;

/// The addresses of instructions, in units: they rise and fit 32 bits. Its model is the list of these addresses.
#[derive(Drop)]
pub(crate) struct Begins<'a> {
    pub list: &'a [u64],
}

impl<'a> Model for Begins<'a> {
    ghost use Rattle.std.specs.Prelude.{ℕ, List, ◌<◌, ◌≤◌, length, slice_index};
    ghost use Rattle.code_read.specs.Places.{Rises};

    ghost Value = { List ℕ };

    ghost view = { λ s. s.list.now };

    ghost invariant = { λ s. Rises s.list.now × ((k : ℕ) → k < length s.list.now → slice_index s.list.now k ≤ 4294967295) };
}

impl<'a> Begins<'a> {
    /// Where instruction k begins.
    pub(crate) fn at(&self, k: u32) -> u32
        requires { k < length self.now }
        ensures value { result ≡ slice_index self.now k }
        ensures rises { Rises self.now }
    {
        let list = self.list;
        list[k as usize] as u32
    }
}
