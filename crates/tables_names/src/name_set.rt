//! The names of one kind that are needed: a hashed set in the order of first need, and, once no name is added, beside it the
//! names in the order of their ranks. The set is never hashed a second time.
ghost use Rattle.std.specs.Prelude.{◌≡◌, ◌<◌, ◌^◌, ℕ, List, [], ◌∷◌, ◌++◌, map, false, true, OnOk, OnErr, IfOk, IfSome, IfNone, option_map, slice_get};
ghost use Rattle.std.specs.List.{IsDistinct};
ghost use Rattle.tables_names.specs.Rank.{Rising, is_member, LookUpAnswers, IsAt};
ghost use Rattle.tables_names.specs.Numbers.{with_last, RanksNames};

use crate::row::Row;
use crate::sorting::names_of;
use dex_base::Seed;
use indexmap::IndexSet;
use std::alloc::{AllocError, Global};
use std::marker::Model;

/// A set of names, in the order of first need, where the index of a name is its number. Its model is the list of their keys.
pub(crate) struct NameSet<N: Row> {
    items: IndexSet<N, Seed>,
}

// Each place where a set is let go is proved: here it is one call, and derived it would be all that the set owns.
impl<N: Row> Drop for NameSet<N> {
    fn drop(self) {
        let NameSet { items: _ } = self;
    }
}

impl<N: Row> Model for NameSet<N> {
    ghost use Rattle.std.specs.Prelude.{List, map};
    ghost use Rattle.program_types.specs.Key.{Key};

    ghost Value = { List Key };

    ghost view = { λ h. map N.key h.items.keys };
}

impl<N: Row> NameSet<N> {
    /// No name.
    pub(crate) fn new(alloc: Global, seed: Seed) -> Self
        ensures { result ≡ [] }
    {
        NameSet {
            items: IndexSet::with_hasher(alloc, seed),
        }
    }

    /// The number of a name, where it is there.
    pub(crate) fn number_of(&self, name: &N) -> Option<usize>
        ensures some { IfSome result (λ n. IsAt self.now n (N.key name.now)) }
        ensures none { IfNone result (is_member self.now (N.key name.now) ≡ false) }
    {
        self.items.get_index_of(name)
    }

    /// Adds a name after the others, if it isn't there yet, and gives its number.
    pub(crate) fn add(&mut self, name: N) -> Result<usize, AllocError>
        ensures added { OnOk result (self.new ≡ with_last self.old (N.key name)) }
        ensures number { IfOk result (λ n. IsAt self.new n (N.key name)) }
        ensures unchanged { OnErr result (self.new ≡ self.old) }
    {
        let (number, _) = self.items.insert_full(name)?;
        Ok(number)
    }

    /// The names, in the order of first need.
    pub(crate) fn in_order(&self) -> &[N]
        ensures keys { map N.key result.now ≡ self.now }
        ensures distinct { IsDistinct N.eq result.now }
    {
        self.items.as_slice()
    }

    /// The same names with their ranks: those of these rows, in their order, and of each, by its number, its rank.
    pub(crate) fn ranked<P: Copy>(
        self,
        alloc: Global,
        rows: &[(P, N, usize)],
        ranks: &[usize],
    ) -> Result<Ranked<N>, AllocError>
        requires { RanksNames self (map N.key (map (λ r. r.1) rows.now)) ranks.now }
        ensures { IfOk result (λ r. r ≡ map N.key (map (λ r. r.1) rows.now)) }
    {
        let names = names_of(alloc, rows)?;
        let ranks = Vec::from_slice(alloc, ranks)?;
        let NameSet { items } = self;
        Ok(Ranked {
            items,
            names,
            ranks,
        })
    }
}

/// A set of names, and beside each the numbers of its parts.
#[derive(Drop)]
pub(crate) struct NamesWithParts<N: Row, P: Copy> {
    pub(crate) names: NameSet<N>,
    pub(crate) parts: Vec<P>,
}

impl<N: Row, P: Copy> NamesWithParts<N, P> {
    /// No name.
    pub(crate) fn new(alloc: Global, seed: Seed) -> Self
        ensures names { result.names ≡ [] }
        ensures parts { result.parts.items ≡ [] }
    {
        NamesWithParts {
            names: NameSet::new(alloc, seed),
            parts: Vec::new(alloc),
        }
    }

    /// Adds a name that isn't there yet after the others, with the numbers of its parts, and gives its number.
    pub(crate) fn add(&mut self, name: N, parts: P) -> Result<usize, AllocError>
        requires { is_member self.old.names (N.key name) ≡ false }
        ensures names { OnOk result (self.new.names ≡ self.old.names ++ N.key name ∷ []) }
        ensures parts { OnOk result (self.new.parts.items ≡ self.old.parts.items ++ parts ∷ []) }
        ensures number { IfOk result (λ n. IsAt self.new.names n (N.key name)) }
        ensures same_names { OnErr result (self.new.names ≡ self.old.names) }
        ensures same_parts { OnErr result (self.new.parts.items ≡ self.old.parts.items) }
    {
        self.parts.reserve(1)?;
        let number = self.names.add(name)?;
        self.parts.push(parts)?;
        Ok(number)
    }
}

/// A set of names that stays, and beside each the ranks of its parts.
#[derive(Drop)]
pub(crate) struct Table<N: Row, P: Copy> {
    pub(crate) names: Ranked<N>,
    pub(crate) parts: Vec<P>,
}

/// A set of names that stays, in the order of first need, and beside it the names in the order of their ranks and of each, by its
/// number, its rank. Its model is the rising list of their keys.
pub(crate) struct Ranked<N: Row> {
    items: IndexSet<N, Seed>,
    names: Vec<N>,
    ranks: Vec<usize>,
}

impl<N: Row> Drop for Ranked<N> {
    fn drop(self) {
        let Ranked {
            items: _,
            names: _,
            ranks: _,
        } = self;
    }
}

impl<N: Row> Model for Ranked<N> {
    ghost use Rattle.std.specs.Prelude.{List, map};
    ghost use Rattle.program_types.specs.Key.{Key};
    ghost use Rattle.tables_names.specs.Numbers.{RanksNames};

    ghost Value = { List Key };

    ghost view = { λ h. map N.key h.names.items };

    ghost invariant = { λ h. RanksNames (map N.key h.items.keys) (map N.key h.names.items) h.ranks.items };
}

impl<N: Row> Ranked<N> {
    /// The rank of a name, where it is held and its rank fits 32 bits.
    pub(crate) fn index_of(&self, name: N) -> Option<u32>
        ensures rank { LookUpAnswers self.now (N.key name) result }
        ensures some { IfSome result (λ i. IsAt self.now i (N.key name)) }
        ensures none { IfNone result ((i : ℕ) → i < 2 ^ 32 → ¬ IsAt self.now i (N.key name)) }
    {
        self.rises();
        match self.rank_of(&name) {
            Some(rank) => u32::try_from(rank).ok(),
            None => None,
        }
    }

    /// The rank of a name, where it is held.
    pub(crate) fn rank_of(&self, name: &N) -> Option<usize>
        ensures some { IfSome result (λ i. IsAt self.now i (N.key name.now)) }
        ensures none { IfNone result (is_member self.now (N.key name.now) ≡ false) }
    {
        match self.items.get_index_of(name) {
            Some(number) => Some(self.ranks[number]),
            None => None,
        }
    }

    /// The names, in the order of their ranks.
    pub(crate) fn names(&self) -> &[N]
        ensures { map N.key result.now ≡ self.now }
    {
        &self.names
    }

    /// What its hashes begin with.
    pub(crate) fn seed(&self) -> Seed {
        *self.items.hasher()
    }

    /// The keys strictly rise.
    pub(crate) fn rises(&self)
        ensures { Rising self.now }
    {
        // Only for the proof: what holds of each value of its type.
        let _ = &self.items;
    }

    /// The name with this rank.
    pub(crate) fn name_at(&self, rank: u32) -> Option<N>
        ensures { option_map N.key result ≡ slice_get self.now rank }
    {
        self.names.get(rank as usize).copied()
    }
}
