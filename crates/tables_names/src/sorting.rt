//! Names are sorted by the ranks of their parts, which were sorted before them ("Dalvik Executable format", "File
//! layout": type_ids by string index, proto_ids by return type first, field_ids by class, name and type, method_ids by
//! class, name and prototype).
//!
//! Numbers compare faster than texts, which begin alike in neighbours of a sorted table. No part is looked up: its number
//! is known, and a table has the rank of each number.
ghost use Rattle.std.specs.Prelude.{◌≡◌, ◌<◌, [], All, IfOk, OnOk, length, map, slice_index};
ghost use Rattle.std.specs.List.{AllZip, IsDistinct};
ghost use Rattle.program_types.specs.Key.{Key, key_cmp};
ghost use Rattle.tables_names.specs.Rank.{IsAt, Rising};
ghost use Rattle.tables_names.specs.inner.Rank.{RanksDecide};
ghost use Rattle.tables_names.specs.Numbers.{set_of, TypeAt, ProtoAt, FieldAt, MethodAt, RanksOf, FieldWithin, MethodWithin, field_ranks, method_ranks};

use crate::name_set::{NameSet, NamesWithParts, Ranked, Table};
use crate::parts::{FieldParts, MethodParts, ProtoParts, TypeParts};
use crate::row::Row;
use program_types::{Desc, FieldRef, MethodRef, Proto, Str};
use std::alloc::{AllocError, Global};

/// Numbers of the parts of a name, whose ranks `T` has.
pub(crate) trait PartNumbers<T>: Copy + Ord {
    // these are the ranks of a name's parts
    ghost has: { T → Key → Self → Type 0 };

    // there are ranks for these numbers
    ghost within: { T → Self → Type 0 };

    // the ranks for these numbers
    ghost ranked: { T → Self → Self };

    /// The ranks of the parts.
    fn ranks(&self, sorted: &T) -> Self
        requires { within sorted.now self.now }
        ensures { result ≡ ranked sorted.now self.now };
}

/// Strings, sorted: each with its rank, and of each number the rank.
#[derive(Drop)]
pub(crate) struct Texts<'a> {
    pub(crate) names: Ranked<Str<'a>>,
    pub(crate) ranks: Vec<usize>,
}

/// Another kind, sorted: each name with its rank and the ranks of its parts, and of each number the rank.
#[derive(Drop)]
pub(crate) struct Sorted<N: Row, P: Copy> {
    pub(crate) table: Table<N, P>,
    pub(crate) ranks: Vec<usize>,
}

/// Fields and methods, sorted.
#[derive(Drop)]
pub(crate) struct Members<'a> {
    pub(crate) fields: Sorted<FieldRef<'a>, FieldParts>,
    pub(crate) methods: Sorted<MethodRef<'a>, MethodParts>,
}

/// What fields and methods are made of, sorted.
#[derive(Drop)]
pub(crate) struct Parts<'a> {
    pub(crate) strings: Texts<'a>,
    pub(crate) types: Sorted<Desc<'a>, TypeParts>,
    pub(crate) protos: Sorted<Proto<'a>, ProtoParts>,
}

impl<'a> PartNumbers<Texts<'a>> for TypeParts {
    ghost has = { λ t k p. TypeAt t.names k p };

    ghost within = { λ t p. p.text < length t.ranks.items };

    ghost ranked = { λ t p. record { text = slice_index t.ranks.items p.text } };

    fn ranks(&self, strings: &Texts<'a>) -> Self {
        TypeParts {
            text: strings.ranks[self.text],
        }
    }
}

// Parameters are compared themselves, where return types tie.
impl<'a> PartNumbers<Sorted<Desc<'a>, TypeParts>> for ProtoParts {
    ghost has = { λ t k p. ProtoAt t.table.names k p };

    ghost within = { λ t p. p.ret < length t.ranks.items };

    ghost ranked = { λ t p. record { ret = slice_index t.ranks.items p.ret } };

    fn ranks(&self, types: &Sorted<Desc<'a>, TypeParts>) -> Self {
        ProtoParts {
            ret: types.ranks[self.ret],
        }
    }
}

impl<'a> PartNumbers<Parts<'a>> for FieldParts {
    ghost has = { λ t k p. FieldAt t.types.table.names t.strings.names k p };

    ghost within = { λ t p. FieldWithin t.types.ranks.items t.strings.ranks.items p };

    ghost ranked = { λ t p. field_ranks t.types.ranks.items t.strings.ranks.items p };

    fn ranks(&self, parts: &Parts<'a>) -> Self {
        FieldParts {
            class: parts.types.ranks[self.class],
            name: parts.strings.ranks[self.name],
            ty: parts.types.ranks[self.ty],
        }
    }
}

impl<'a> PartNumbers<Parts<'a>> for MethodParts {
    ghost has = { λ t k p. MethodAt t.types.table.names t.strings.names t.protos.table.names k p };

    ghost within = { λ t p. MethodWithin t.types.ranks.items t.strings.ranks.items t.protos.ranks.items p };

    ghost ranked = { λ t p. method_ranks t.types.ranks.items t.strings.ranks.items t.protos.ranks.items p };

    fn ranks(&self, parts: &Parts<'a>) -> Self {
        MethodParts {
            class: parts.types.ranks[self.class],
            name: parts.strings.ranks[self.name],
            proto: parts.protos.ranks[self.proto],
        }
    }
}

/// The names, each after the ranks of its parts and before its number.
fn with_ranks<T, P: PartNumbers<T>, N: Row>(
    alloc: Global,
    names: &[N],
    parts: &[P],
    sorted: &T,
) -> Result<Vec<(P, N, usize)>, AllocError>
    requires { AllZip (λ k p. P.within sorted.now p × P.has sorted.now k (P.ranked sorted.now p)) (map N.key names.now) parts.now }
    ensures names { IfOk result (λ rows. map (λ r. r.1) rows.items ≡ names.now) }
    ensures ranks { IfOk result (λ rows. All (λ r. P.has sorted.now (N.key r.1) r.0) rows.items) }
    ensures numbers { IfOk result (λ rows. All (λ r. IsAt (map N.key names.now) r.2 (N.key r.1)) rows.items) }
{
    let mut rows = Vec::with_capacity(alloc, names.len())?;
    for (i, name) in names.iter().enumerate() {
        rows.push((parts[i].ranks(sorted), *name, i))?;
    }
    Ok(rows)
}

/// The names of a kind, sorted by the ranks of their parts, and by themselves where these tie; each after these ranks and before
/// its number.
fn sorted_rows<T, P: PartNumbers<T>, N: Row>(
    alloc: Global,
    made: &NamesWithParts<N, P>,
    sorted: &T,
) -> Result<Vec<(P, N, usize)>, AllocError>
    requires parts { AllZip (λ k p. P.within sorted.now p × P.has sorted.now k (P.ranked sorted.now p)) made.now.names made.now.parts.items }
    requires leads { (j k : Key) (p q : P) → P.has sorted.now j p → P.has sorted.now k q → RanksDecide (P.cmp p q) (key_cmp j k) }
    ensures same { IfOk result (λ rows. map N.key (map (λ r. r.1) rows.items) ≡ set_of made.now.names) }
    ensures parts { IfOk result (λ rows. AllZip (P.has sorted.now) (map N.key (map (λ r. r.1) rows.items)) (map (λ r. r.0) rows.items)) }
    ensures numbers { IfOk result (λ rows. RanksOf (map N.key (map (λ r. r.1) rows.items)) made.now.names (map (λ r. r.2) rows.items)) }
{
    let mut rows = with_ranks(alloc, made.names.in_order(), &made.parts, sorted)?;
    rows.sort_unstable();
    Ok(rows)
}

/// The ranks of the parts of each name.
fn parts_of<N: Copy, P: Copy>(alloc: Global, rows: &[(P, N, usize)]) -> Result<Vec<P>, AllocError>
    ensures { IfOk result (λ parts. parts.items ≡ map (λ r. r.0) rows.now) }
{
    let mut parts = Vec::with_capacity(alloc, rows.len())?;
    for row in rows {
        parts.push(row.0)?;
    }
    Ok(parts)
}

/// The names of rows.
pub(crate) fn names_of<N: Copy, P: Copy>(
    alloc: Global,
    rows: &[(P, N, usize)],
) -> Result<Vec<N>, AllocError>
    ensures { IfOk result (λ names. names.items ≡ map (λ r. r.1) rows.now) }
{
    let mut names = Vec::with_capacity(alloc, rows.len())?;
    for row in rows {
        names.push(row.1)?;
    }
    Ok(names)
}

/// The rank of each name, by its number: the place of its row in the order of the ranks. No name is looked up.
fn ranks_of<N: Row, P: Copy>(
    alloc: Global,
    names: &[N],
    rows: &[(P, N, usize)],
) -> Result<Vec<usize>, AllocError>
    requires distinct { IsDistinct N.eq names.now }
    requires same { map N.key (map (λ r. r.1) rows.now) ≡ set_of (map N.key names.now) }
    requires numbers { RanksOf (map N.key (map (λ r. r.1) rows.now)) (map N.key names.now) (map (λ r. r.2) rows.now) }
    ensures { IfOk result (λ ranks. RanksOf (map N.key names.now) (map N.key (map (λ r. r.1) rows.now)) ranks.items) }
{
    let mut ranks = Vec::new(alloc);
    ranks.resize(names.len(), 0)?;
    for (rank, row) in rows.iter().enumerate() {
        ranks[row.2] = rank;
    }
    Ok(ranks)
}

/// The number at a place, or 0 if there is none.
pub(crate) fn at(numbers: &[usize], place: usize) -> usize
    ensures { result ≡ slice_index numbers.now place }
{
    if place < numbers.len() {
        numbers[place]
    } else {
        0
    }
}

/// The names, each before its number.
fn with_numbers<N: Row>(alloc: Global, names: &[N]) -> Result<Vec<((), N, usize)>, AllocError>
    ensures names { IfOk result (λ rows. map (λ r. r.1) rows.items ≡ names.now) }
    ensures numbers { IfOk result (λ rows. All (λ r. IsAt (map N.key names.now) r.2 (N.key r.1)) rows.items) }
{
    let mut rows = Vec::with_capacity(alloc, names.len())?;
    for (i, name) in names.iter().enumerate() {
        rows.push(((), *name, i))?;
    }
    Ok(rows)
}

/// Names that have no parts, sorted by themselves; each before its number.
fn sorted_names<N: Row>(alloc: Global, names: &[N]) -> Result<Vec<((), N, usize)>, AllocError>
    requires { IsDistinct N.eq names.now }
    ensures same { IfOk result (λ rows. map N.key (map (λ r. r.1) rows.items) ≡ set_of (map N.key names.now)) }
    ensures numbers { IfOk result (λ rows. RanksOf (map N.key (map (λ r. r.1) rows.items)) (map N.key names.now) (map (λ r. r.2) rows.items)) }
{
    let mut rows = with_numbers(alloc, names)?;
    rows.sort_unstable();
    Ok(rows)
}

/// Strings, sorted by content.
pub(crate) fn sorted_strings<'a>(
    alloc: Global,
    held: NameSet<Str<'a>>,
) -> Result<Texts<'a>, AllocError>
    ensures same { IfOk result (λ r. r.names ≡ set_of held.entry) }
    ensures ranks { IfOk result (λ r. RanksOf held.entry r.names r.ranks.items) }
{
    let rows = sorted_names(alloc, held.in_order())?;
    let ranks = ranks_of(alloc, held.in_order(), &rows)?;
    let names = held.ranked(alloc, &rows, &ranks)?;
    Ok(Texts { names, ranks })
}

/// A kind, sorted by the ranks of its parts.
pub(crate) fn sorted_by<T, P: PartNumbers<T>, N: Row>(
    alloc: Global,
    made: NamesWithParts<N, P>,
    sorted: &T,
) -> Result<Sorted<N, P>, AllocError>
    requires parts { AllZip (λ k p. P.within sorted.now p × P.has sorted.now k (P.ranked sorted.now p)) made.names made.parts.items }
    requires leads { (j k : Key) (p q : P) → P.has sorted.now j p → P.has sorted.now k q → RanksDecide (P.cmp p q) (key_cmp j k) }
    ensures same { IfOk result (λ r. r.table.names ≡ set_of made.names) }
    ensures ranks { IfOk result (λ r. RanksOf made.names r.table.names r.ranks.items) }
    ensures rows { IfOk result (λ r. AllZip (P.has sorted.now) r.table.names r.table.parts.items) }
{
    let rows = sorted_rows(alloc, &made, sorted)?;
    let parts = parts_of(alloc, &rows)?;
    let ranks = ranks_of(alloc, made.names.in_order(), &rows)?;
    let NamesWithParts { names, parts: _ } = made;
    let names = names.ranked(alloc, &rows, &ranks)?;
    let table = Table { names, parts };
    Ok(Sorted { table, ranks })
}
