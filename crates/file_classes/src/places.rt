//! Which rows of class_defs define a type.
ghost use Rattle.std.specs.Prelude.{◌≡◌, ◌<◌, ◌↔◌, ◌+◌, IfOk, IsTrue, IsOkUnless, replicate, length, get_or, set, ◌≢◌, ◌^◌};
ghost use Rattle.dex_base.specs.Fault.{memory};
ghost use Rattle.dex_container.specs.Layout.{size_of};
ghost use Rattle.dex_container.specs.Section as section;
ghost use Rattle.file_classes.specs.ClassRows.{NoneDefines, class_idx};
ghost use Rattle.file_classes.specs.inner.Places.{ArePlaces};

use crate::class_row::{class_count, class_word};
use crate::word;
use dex_base::Fault;
use dex_container::{Sections, kind};
use std::alloc::Global;

/// For each type, by its index, the first and the last row that defines it, counted from 1; 0 for none.
#[derive(Drop)]
pub(crate) struct Places {
    pub first: Vec<u32>,
    pub last: Vec<u32>,
}

/// How many rows type_ids has.
fn type_count(sections: &Sections<'_>) -> u32
    ensures { result ≡ size_of sections.now section.type_ids }
{
    sections.table(kind::TYPE_ID_ITEM).0
}

/// So many zeros.
fn zeros(alloc: Global, count: u32) -> Result<Vec<u32>, Fault>
    ensures ok { IfOk result (λ v. v.items ≡ replicate count 0) }
    ensures memory { IsOkUnless result memory }
{
    let mut all = Vec::with_capacity(alloc, count as usize)?;
    for _turn in 0..count {
        all.push(0)?;
    }
    Ok(all)
}

/// An element.
fn at(all: &Vec<u32>, i: u32) -> u32
    requires { i < length all.now.items }
    ensures { result ≡ get_or all.now.items i 0 }
{
    all[i as usize]
}

/// Another element in its place.
fn put(all: &mut Vec<u32>, i: u32, value: u32)
    requires { i < length all.old.items }
    ensures { all.new.items ≡ set all.old.items i value }
{
    all[i as usize] = value;
}

/// Row i is of this type.
fn mark(first: &mut Vec<u32>, last: &mut Vec<u32>, ty: u32, i: u32)
    requires first { ty < length first.old.items }
    requires last { ty < length last.old.items }
    requires small { i + 1 < 2 ^ 32 }
    ensures new { get_or first.old.items ty 0 ≡ 0 → first.new.items ≡ set first.old.items ty (i + 1) }
    ensures old { get_or first.old.items ty 0 ≢ 0 → first.new.items ≡ first.old.items }
    ensures last { last.new.items ≡ set last.old.items ty (i + 1) }
{
    if at(first, ty) == 0 {
        put(first, ty, i + 1);
    }
    put(last, ty, i + 1);
}

/// The rows that define each type.
pub(crate) fn read_places(alloc: Global, sections: &Sections<'_>) -> Result<Places, Fault>
    ensures ok { IfOk result (λ p. ArePlaces sections.now (size_of sections.now section.class_defs) p.first.items p.last.items) }
    ensures memory { IsOkUnless result memory }
{
    let types = type_count(sections);
    let count = class_count(sections);
    let mut first = zeros(alloc, types)?;
    let mut last = zeros(alloc, types)?;
    for i in 0..count {
        let ty = class_word(sections, i, word::CLASS_IDX);
        if ty < types {
            mark(&mut first, &mut last, ty, i);
        }
    }
    Ok(Places { first, last })
}

/// Whether row i is the first that defines its type.
pub(crate) fn is_first(sections: &Sections<'_>, places: &Places, i: u32, ty: u32) -> bool
    requires places { ArePlaces sections.now (size_of sections.now section.class_defs) places.now.first.items places.now.last.items }
    requires row { i < size_of sections.now section.class_defs }
    requires ty { ty ≡ class_idx sections.now i }
    requires within { ty < size_of sections.now section.type_ids }
    ensures { IsTrue result ↔ NoneDefines sections.now 0 i ty }
{
    // Only for the proof: what holds of each value of its type.
    let _count = class_count(sections);
    at(&places.first, ty) == i + 1
}

/// Whether no row from `from` on defines the type of this index.
pub(crate) fn is_undefined(sections: &Sections<'_>, places: &Places, from: u32, ty: u32) -> bool
    requires places { ArePlaces sections.now (size_of sections.now section.class_defs) places.now.first.items places.now.last.items }
    requires within { ty < size_of sections.now section.type_ids }
    ensures { IsTrue result ↔ NoneDefines sections.now from (size_of sections.now section.class_defs) ty }
{
    at(&places.last, ty) <= from
}
