//! The labels of a code, held so that each is found by its name.

ghost use Rattle.std.specs.Prelude.{◌≡◌, [], Some, map, IfSome, OnOk, IsOkUnless};
ghost use Rattle.dex_base.specs.Fault.{memory};
ghost use Rattle.listing_lines.specs.Labels.{Label, lookup, with_label};
ghost use Rattle.listing_lines.specs.inner.Order.{shortlex, is_above, LabelsRise};
ghost use Rattle.listing_lines.specs.inner.View.{label, place_in};

use dex_base::{Fault, Seed};
use indexmap::IndexMap;
use listing_slots::is_same;
use std::alloc::Global;
use std::cmp::Ordering;
use std::marker::Model;

/// The line of a label, and the number of the instruction that it marks.
#[derive(Clone, Copy)]
pub struct Place {
    pub line: u64,
    pub number: u64,
}

/// The labels of a code, the first of each name. Its model is the list of them in the order of their lines.
///
/// The names of a listing that was printed rise: shorter ones come first, and those of one length by their bytes. As long as
/// names do, they are put without a hash.
pub struct Labels<'t> {
    front: Vec<(&'t [u8], Place)>,
    rest: IndexMap<&'t [u8], Place, Seed>,
}

// Each place where labels are let go is proved: here it is one call, and derived it would be all that they own.
impl<'t> Drop for Labels<'t> {
    fn drop(self) {
        let Labels { front: _, rest: _ } = self;
    }
}

impl<'t> Model for Labels<'t> {
    ghost use Rattle.std.specs.Prelude.{List, ◌++◌, map};
    ghost use Rattle.listing_lines.specs.Labels.{Label};
    ghost use Rattle.listing_lines.specs.inner.Order.{LabelsRise};
    ghost use Rattle.listing_lines.specs.inner.View.{label};

    ghost Value = { List Label };

    ghost view = { λ l. map label l.front.items ++ map label l.rest.entries };

    ghost invariant = { λ l. LabelsRise (map label l.front.items) };
}

/// How two names compare: a shorter one is less, and of one length they compare by their bytes.
fn compare(a: &[u8], b: &[u8]) -> Ordering
    ensures { result ≡ shortlex a.now b.now }
{
    match a.len().cmp(&b.len()) {
        Ordering::Equal => a.cmp(b),
        unequal => unequal,
    }
}

/// Whether the name is above those of all these labels, which rise.
fn is_above(front: &[(&[u8], Place)], name: &[u8]) -> bool
    requires { LabelsRise (map label front.now) }
    ensures { result ≡ is_above (map label front.now) name.now }
{
    match front.last() {
        Some((last, _)) => compare(last, name).is_lt(),
        None => true,
    }
}

/// The label of this name among labels that rise.
fn search(front: &[(&[u8], Place)], name: &[u8]) -> Option<Place>
    requires { LabelsRise (map label front.now) }
    ensures { result ≡ place_in (lookup name.now (map label front.now)) }
{
    if is_above(front, name) {
        return None;
    }
    let found = front.binary_search_by(
        |one: &(&[u8], Place)| -> Ordering
            ensures { result ≡ shortlex one.now.0.now name.entry.now }
        { compare(one.0, name) },
    );
    match found {
        Ok(at) => Some(front[at].1),
        Err(_) => None,
    }
}

/// The label of this name among labels that rise; the one at the index `near` is found without a search.
fn find_rising(front: &[(&[u8], Place)], near: usize, name: &[u8]) -> Option<Place>
    requires { LabelsRise (map label front.now) }
    ensures { result ≡ place_in (lookup name.now (map label front.now)) }
{
    if let Some((there, place)) = front.get(near) {
        if is_same(there, name) {
            return Some(*place);
        }
    }
    search(front, name)
}

/// One label more, unless one of its name is there.
fn put_hashed<'t>(
    rest: &mut IndexMap<&'t [u8], Place, Seed>,
    name: &'t [u8],
    place: Place,
) -> Result<(), Fault>
    ensures put { OnOk result (map label rest.new.entries ≡ with_label (map label rest.old.entries) (record { name = name.now; line = place.line; number = place.number })) }
    ensures memory { IsOkUnless result memory }
{
    // So a name is hashed once: what a second label of its name puts there is taken back.
    if let Some(first) = rest.insert(name, place)? {
        rest.insert(name, first)?;
    }
    Ok(())
}

/// The label at this index, where it has this name.
fn hashed_at(rest: &IndexMap<&[u8], Place, Seed>, index: usize, name: &[u8]) -> Option<Place>
    ensures { IfSome result (λ place. Some place ≡ place_in (lookup name.now (map label rest.now.entries))) }
{
    let (there, place) = rest.get_index(index)?;
    if is_same(there, name) {
        return Some(*place);
    }
    None
}

/// The label of this name. The one at the index `near` is found without hashing the name.
fn find_hashed(rest: &IndexMap<&[u8], Place, Seed>, near: usize, name: &[u8]) -> Option<Place>
    ensures { result ≡ place_in (lookup name.now (map label rest.now.entries)) }
{
    if let Some(place) = hashed_at(rest, near, name) {
        return Some(place);
    }
    rest.get(name).copied()
}

impl<'t> Labels<'t> {
    /// No label. Hashes begin with the seed.
    pub fn new(alloc: Global, seed: Seed) -> Self
        ensures { result ≡ [] }
    {
        Labels {
            front: Vec::new(alloc),
            rest: IndexMap::with_hasher(alloc, seed),
        }
    }

    /// Lets all labels go.
    pub fn clear(&mut self)
        ensures { self.new ≡ [] }
    {
        self.front.clear();
        // In time by the labels that go; the map's own `clear` goes through the whole table.
        self.rest.truncate(0);
    }

    /// One label more, unless one of its name is there.
    pub(crate) fn put(&mut self, name: &'t [u8], place: Place) -> Result<(), Fault>
        ensures put { OnOk result (self.new ≡ with_label self.old (record { name = name.now; line = place.line; number = place.number })) }
        ensures memory { IsOkUnless result memory }
    {
        if self.rest.is_empty() && is_above(self.front.as_slice(), name) {
            self.front.push((name, place))?;
            return Ok(());
        }
        if search(self.front.as_slice(), name).is_some() {
            return Ok(());
        }
        put_hashed(&mut self.rest, name, place)
    }

    /// The label of this name. The one at the index `near` is found without a search.
    pub fn place_of(&self, near: usize, name: &[u8]) -> Option<Place>
        ensures { result ≡ place_in (lookup name.now self.now) }
    {
        match find_rising(self.front.as_slice(), near, name) {
            Some(place) => Some(place),
            None => find_hashed(&self.rest, near.saturating_sub(self.front.len()), name),
        }
    }
}
