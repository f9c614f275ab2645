//! The members of a class, as numbers ("class_data_item"); if they are malformed, `heads.rt` returns 44.
ghost use Rattle.std.specs.Prelude.{ℕ, List, IfOk, IfSome, IfNone, IsOkUnless, map};
ghost use Rattle.dex_base.specs.Fault.{memory};
ghost use Rattle.dex_base.specs.Grammar.{Takes, NoneBegins, Many};
ghost use Rattle.dex_base.specs.Leb128.{Spells};
ghost use Rattle.file_classes.specs.ClassData.{SpellsFieldEntry, SpellsMethodEntry, SpellsCounts, SpellsEntries, EntriesAt};
ghost use Rattle.file_classes.specs.inner.Reading.{field_entry, method_entry, counts, entries};

use dex_base::{Fault, read_uleb};
use dex_container::{Sections, bytes_from, kind, section_of};
use std::alloc::{AllocError, Global};

/// A field: the difference of its index to that of the entry before, and its flags.
#[derive(Clone, Copy)]
pub struct FieldEntry {
    pub step: u32,
    pub flags: u32,
}

/// A method: the difference, its flags, and the offset of its code.
#[derive(Clone, Copy)]
pub struct MethodEntry {
    pub step: u32,
    pub flags: u32,
    pub code: u32,
}

/// The lengths of the four lists.
#[derive(Clone, Copy)]
pub(crate) struct Counts {
    pub statics: u32,
    pub instances: u32,
    pub directs: u32,
    pub virtuals: u32,
}

/// The four lists of a class.
pub struct Entries {
    pub statics: Vec<FieldEntry>,
    pub instances: Vec<FieldEntry>,
    pub directs: Vec<MethodEntry>,
    pub virtuals: Vec<MethodEntry>,
}

// Each place where the lists are let go is proved: here it is one call, and derived it would be four.
impl Drop for Entries {
    fn drop(self) {
        let Entries {
            statics: _,
            instances: _,
            directs: _,
            virtuals: _,
        } = self;
    }
}

/// A number at the front of the bytes, and what follows it; so with the others.
fn take_number(bytes: &[u8]) -> Option<(u32, &[u8])>
    ensures found { IfSome result (λ x. Takes Spells bytes.now x.0 x.1.now) }
    ensures none { IfNone result (NoneBegins Spells bytes.now) }
{
    let (number, length) = read_uleb(bytes)?;
    let (_, rest) = bytes.split_at(length);
    Some((number, rest))
}

fn take_field(bytes: &[u8]) -> Option<(FieldEntry, &[u8])>
    ensures found { IfSome result (λ x. Takes (SpellsFieldEntry Spells) bytes.now (field_entry x.0) x.1.now) }
    ensures none { IfNone result (NoneBegins (SpellsFieldEntry Spells) bytes.now) }
{
    let (step, after) = take_number(bytes)?;
    let (flags, rest) = take_number(after)?;
    Some((FieldEntry { step, flags }, rest))
}

fn take_method(bytes: &[u8]) -> Option<(MethodEntry, &[u8])>
    ensures found { IfSome result (λ x. Takes (SpellsMethodEntry Spells) bytes.now (method_entry x.0) x.1.now) }
    ensures none { IfNone result (NoneBegins (SpellsMethodEntry Spells) bytes.now) }
{
    let (step, after) = take_number(bytes)?;
    let (field, rest) = take_field(after)?;
    Some((
        MethodEntry {
            step,
            flags: field.step,
            code: field.flags,
        },
        rest,
    ))
}

fn take_counts(bytes: &[u8]) -> Option<(Counts, &[u8])>
    ensures found { IfSome result (λ x. Takes (SpellsCounts Spells) bytes.now (counts x.0) x.1.now) }
    ensures none { IfNone result (NoneBegins (SpellsCounts Spells) bytes.now) }
{
    let (statics, after) = take_number(bytes)?;
    let (others, rest) = take_method(after)?;
    Some((
        Counts {
            statics,
            instances: others.step,
            directs: others.flags,
            virtuals: others.code,
        },
        rest,
    ))
}

/// So many entries of fields at the front of the bytes, and the bytes after them. Memory is requested as they come.
fn take_fields<'b>(
    alloc: Global,
    count: u32,
    bytes: &'b [u8],
) -> Result<Option<(Vec<FieldEntry>, &'b [u8])>, AllocError>
    ensures found { IfOk result (λ r. IfSome r (λ x. Takes (Many (SpellsFieldEntry Spells) count) bytes.now (map field_entry x.0.items) x.1.now)) }
    ensures none { IfOk result (λ r. IfNone r (NoneBegins (Many (SpellsFieldEntry Spells) count) bytes.now)) }
{
    let mut all = Vec::new(alloc);
    let mut left = bytes;
    for _turn in 0..count {
        let Some((entry, rest)) = take_field(left) else {
            return Ok(None);
        };
        all.push(entry)?;
        left = rest;
    }
    Ok(Some((all, left)))
}

/// So many entries of methods at the front of the bytes, and the bytes after them. Memory is requested as they come.
fn take_methods<'b>(
    alloc: Global,
    count: u32,
    bytes: &'b [u8],
) -> Result<Option<(Vec<MethodEntry>, &'b [u8])>, AllocError>
    ensures found { IfOk result (λ r. IfSome r (λ x. Takes (Many (SpellsMethodEntry Spells) count) bytes.now (map method_entry x.0.items) x.1.now)) }
    ensures none { IfOk result (λ r. IfNone r (NoneBegins (Many (SpellsMethodEntry Spells) count) bytes.now)) }
{
    let mut all = Vec::new(alloc);
    let mut left = bytes;
    for _turn in 0..count {
        let Some((entry, rest)) = take_method(left) else {
            return Ok(None);
        };
        all.push(entry)?;
        left = rest;
    }
    Ok(Some((all, left)))
}

/// The class_data_item at the front of the bytes.
fn take_entries(alloc: Global, bytes: &[u8]) -> Result<Option<Entries>, AllocError>
    ensures found { IfOk result (λ r. IfSome r (λ e. (rest : List ℕ) × Takes (SpellsEntries Spells) bytes.now (entries e) rest)) }
    ensures none { IfOk result (λ r. IfNone r (NoneBegins (SpellsEntries Spells) bytes.now)) }
{
    let Some((counts, lists)) = take_counts(bytes) else {
        return Ok(None);
    };
    let Some((statics, second)) = take_fields(alloc, counts.statics, lists)? else {
        return Ok(None);
    };
    let Some((instances, third)) = take_fields(alloc, counts.instances, second)? else {
        return Ok(None);
    };
    let Some((directs, fourth)) = take_methods(alloc, counts.directs, third)? else {
        return Ok(None);
    };
    let Some((virtuals, _)) = take_methods(alloc, counts.virtuals, fourth)? else {
        return Ok(None);
    };
    Ok(Some(Entries {
        statics,
        instances,
        directs,
        virtuals,
    }))
}

/// The class data at an offset; without members at 0. `None` if there is none.
pub fn entries_at(
    alloc: Global,
    sections: &Sections<'_>,
    off: u32,
) -> Result<Option<Entries>, Fault>
    ensures found { IfOk result (λ r. IfSome r (λ e. EntriesAt sections.now off (entries e))) }
    ensures none { IfOk result (λ r. IfNone r ((e : _) → ¬ EntriesAt sections.now off e)) }
    ensures memory { IsOkUnless result memory }
{
    if off == 0 {
        return Ok(Some(Entries {
            statics: Vec::new(alloc),
            instances: Vec::new(alloc),
            directs: Vec::new(alloc),
            virtuals: Vec::new(alloc),
        }));
    }
    let section = section_of(sections, kind::CLASS_DATA_ITEM);
    let Some(bytes) = bytes_from(sections, kind::CLASS_DATA_ITEM, section, off) else {
        return Ok(None);
    };
    Ok(take_entries(alloc, bytes)?)
}
