//! The interfaces of a class: fault 43.
ghost use Rattle.std.specs.Prelude.{◌↔◌, ◌<◌, IfOk, IfSome, IfNone, IsTrue, IsOkUnless, OnOk, length, map};
ghost use Rattle.std.specs.List.{AllByRecursion};
ghost use Rattle.dex_base.specs.Descriptor.{IsClass};
ghost use Rattle.dex_base.specs.Fault.{memory};
ghost use Rattle.program_types.specs.View.{desc};
ghost use Rattle.tables_rows.specs.Names.{AreNamesOf};
ghost use Rattle.file_classes.specs.Classes.{NoTypeTwice, InterfacesAt};
ghost use Rattle.tables_rows.specs.inner.Cached.{AreCached};
ghost use Rattle.file_classes.specs.inner.Reading.{IsNotAmong};

use bumpalo::Bump;
use dex_base::{Fault, is_class};
use dex_container::Sections;
use program_types::{Desc, desc_eq};
use std::alloc::{AllocError, Global};
use std::collections::{HashMap, HashSet};
use tables_rows::Tables;

/// How many types are compared pair by pair, without memory.
const FEW: usize = 8;

/// Whether all of the types are class types.
fn are_classes(types: &[Desc<'_>]) -> bool
    ensures { IsTrue result ↔ AllByRecursion IsClass (map desc types.now) }
{
    for ty in types {
        if !is_class(ty.text.units) {
            return false;
        }
    }
    true
}

/// Whether none of the first n types is type n.
fn is_new(types: &[Desc<'_>], n: usize) -> bool
    requires { n < length types.now }
    ensures { IsTrue result ↔ IsNotAmong (map desc types.now) n n }
{
    for i in 0..n {
        if desc_eq(&types[i], &types[n]) {
            return false;
        }
    }
    true
}

/// Whether none of a few types occurs twice.
fn are_few_distinct(types: &[Desc<'_>]) -> bool
    ensures { IsTrue result ↔ NoTypeTwice (map desc types.now) }
{
    for n in 0..types.len() {
        if !is_new(types, n) {
            return false;
        }
    }
    true
}

/// Whether none of many types occurs twice, in time that grows with their number.
fn are_many_distinct(alloc: Global, types: &[Desc<'_>]) -> Result<bool, AllocError>
    ensures ok { IfOk result (λ yes. IsTrue yes ↔ NoTypeTwice (map desc types.now)) }
{
    let mut seen = HashSet::new(alloc);
    for n in 0..types.len() {
        if !seen.insert(types[n])? {
            return Ok(false);
        }
    }
    Ok(true)
}

/// Whether no type occurs twice.
fn are_distinct(alloc: Global, types: &[Desc<'_>]) -> Result<bool, AllocError>
    ensures ok { IfOk result (λ yes. IsTrue yes ↔ NoTypeTwice (map desc types.now)) }
{
    if types.len() <= FEW {
        return Ok(are_few_distinct(types));
    }
    are_many_distinct(alloc, types)
}

/// The interfaces at an offset, in the arena. `None` if no list of distinct class types is there.
fn read_interfaces<'a>(
    alloc: Global,
    arena: &'a Bump,
    sections: &Sections<'_>,
    tables: &Tables<'a>,
    off: u32,
) -> Result<Option<&'a [Desc<'a>]>, Fault>
    requires names { AreNamesOf sections.now tables.now }
    ensures found { IfOk result (λ r. IfSome r (λ list. InterfacesAt sections.now off (map desc list.now))) }
    ensures none { IfOk result (λ r. IfNone r ((ts : _) → ¬ InterfacesAt sections.now off ts)) }
    ensures memory { IsOkUnless result memory }
{
    sections.framed();
    let Some(types) = tables.type_list(alloc, arena, sections, off)? else {
        return Ok(None);
    };
    if !are_classes(types) {
        return Ok(None);
    }
    if !are_distinct(alloc, types)? {
        return Ok(None);
    }
    Ok(Some(types))
}

/// The interfaces at an offset: the cached list, or the one that is read now, and cached. `None` if no list of distinct class types is
/// there.
pub(crate) fn interfaces_at<'a>(
    alloc: Global,
    arena: &'a Bump,
    sections: &Sections<'_>,
    tables: &Tables<'a>,
    cached: &mut HashMap<u32, &'a [Desc<'a>]>,
    off: u32,
) -> Result<Option<&'a [Desc<'a>]>, Fault>
    requires names { AreNamesOf sections.now tables.now }
    requires cached { AreCached (λ off list. InterfacesAt sections.now off (map desc list.now)) cached.old }
    ensures found { IfOk result (λ r. IfSome r (λ list. InterfacesAt sections.now off (map desc list.now))) }
    ensures none { IfOk result (λ r. IfNone r ((ts : _) → ¬ InterfacesAt sections.now off ts)) }
    ensures cached { OnOk result (AreCached (λ off list. InterfacesAt sections.now off (map desc list.now)) cached.new) }
    ensures memory { IsOkUnless result memory }
{
    if let Some(list) = cached.get(&off) {
        return Ok(Some(*list));
    }
    let Some(list) = read_interfaces(alloc, arena, sections, tables, off)? else {
        return Ok(None);
    };
    cached.insert(off, list)?;
    Ok(Some(list))
}
