//! Values in the order of their bytes.
ghost use Rattle.std.specs.Prelude.{◌≡◌, ◌≢◌, ℕ, ◌-◌, ◌∷◌, List, length, map, slice_index, IfOk, IfErr};
ghost use Rattle.dex_base.specs.Fault.{memory};
ghost use Rattle.dex_base.specs.Grammar.{Takes, Many};
ghost use Rattle.program_types.specs.Content as content;
ghost use Rattle.program_types.specs.View.{value};
ghost use Rattle.tables_rows.specs.Names.{NameIsAt};
ghost use Rattle.dex_value.specs.inner.Reading.{TakesArray};
ghost use Rattle.dex_value.specs.Standing.{Shallow, ArrayStands};
ghost use Rattle.dex_value.specs.Faults.{IsLoneHead, OwnBreaks, ValueBreaks, NextBreaks, ArrayBreaks, ArrayBreaksAt, values_fault, kind_fault, depth_fault};

use crate::keeping::{InArena, Keep};
use crate::names::named;
use crate::numbers::number;
use crate::types::{SizedType, sized_type, widest};
use bumpalo::Bump;
use dex_base::{Fault, fault, read_uleb};
use dex_container::{Sections, bytes_from, kind, section_of};
use program_types::{MOST_DEPTH, Value};
use std::alloc::Global;
use tables_rows::Tables;

/// The head of an array: its type, without an argument.
const ARRAY: u8 = 0x1c;

/// Where the array of static values begins, and where its section ends, in bytes.
#[derive(Clone, Copy)]
pub(crate) struct Span {
    off: u32,
    end: u32,
}

impl Span {
    /// The bytes run past the section, or a count is misspelled.
    fn cut(self) -> Fault
        ensures { result ≡ values_fault self.off }
    {
        Fault::at(fault::VALUES, u64::from(self.off))
    }

    /// The value at the front of the bytes has a wrong type, argument or index.
    fn wrong_kind(self, bytes: &[u8]) -> Fault
        ensures { result ≡ kind_fault self.end bytes.now }
    {
        Fault::at(fault::VALUE_KIND, self.place_of(bytes))
    }

    /// The value at the front of the bytes is an array that lies too deep.
    fn too_deep(self, bytes: &[u8]) -> Fault
        ensures { result ≡ depth_fault self.end bytes.now }
    {
        Fault::at(fault::VALUE_DEPTH, self.place_of(bytes))
    }

    /// Where these bytes begin, which go to the section's end.
    fn place_of(self, bytes: &[u8]) -> u64
        ensures { result ≡ self.end - length bytes.now }
    {
        u64::from(self.end).saturating_sub(bytes.len() as u64)
    }
}

/// A value with bytes after its head, and what follows it.
fn read_sized<'a, 'b>(
    tables: &Tables<'a>,
    span: Span,
    bytes: &'b [u8],
    head: u8,
    rest: &'b [u8],
) -> Result<(Value<'a>, &'b [u8]), Fault>
    requires first { bytes.now ≡ head ∷ rest.now }
    requires not_lone { ¬ IsLoneHead head }
    ensures ok { IfOk result (λ x. (limit : ℕ) →
        Takes (Shallow (NameIsAt tables.now) limit) bytes.now (value x.0) x.1.now) }
    ensures err { IfErr result (λ e. (limit : ℕ) →
        OwnBreaks (NameIsAt tables.now) span.off span.end limit bytes.now e) }
{
    let Some(ty) = sized_type(head % 32) else {
        return Err(span.wrong_kind(bytes));
    };
    let width = usize::from(head / 32) + 1;
    if width > widest(ty) {
        return Err(span.wrong_kind(bytes));
    }
    if rest.len() < width {
        return Err(span.cut());
    }
    let (low, after) = rest.split_at(width);
    match ty {
        SizedType::Number(ty) => Ok((number(ty, low), after)),
        SizedType::Name(ty) => match named(tables, ty, low) {
            Some(value) => Ok((value, after)),
            None => Err(span.wrong_kind(bytes)),
        },
    }
}

/// A value that is no array, and what follows it.
#[inline(always)]
pub(crate) fn read_leaf<'a, 'b>(
    tables: &Tables<'a>,
    span: Span,
    bytes: &'b [u8],
) -> Result<(Value<'a>, &'b [u8]), Fault>
    requires flat { slice_index bytes.now 0 ≢ 0x1c }
    ensures ok { IfOk result (λ x. (limit : ℕ) →
        Takes (Shallow (NameIsAt tables.now) limit) bytes.now (value x.0) x.1.now) }
    ensures err { IfErr result (λ e. (limit : ℕ) →
        OwnBreaks (NameIsAt tables.now) span.off span.end limit bytes.now e) }
{
    let Some((head, rest)) = bytes.split_first() else {
        return Err(span.cut());
    };
    match *head {
        0x1e => Ok((Value::Null, rest)),
        0x1f => Ok((Value::Bool(false), rest)),
        0x3f => Ok((Value::Bool(true), rest)),
        head => read_sized(tables, span, bytes, head, rest),
    }
}

/// What is kept of the value at the front of the bytes, at most `limit` deep, and what follows it.
#[cycle(values)]
fn read_value<'b, K: Keep>(
    keep: K,
    span: Span,
    limit: u32,
    bytes: &'b [u8],
) -> Result<(K::One, &'b [u8]), Fault>
    ensures ok { IfOk result (λ x.
        (v : content.Value) × Takes (Shallow (NameIsAt (K.names keep)) limit) bytes.now v x.1.now × K.one x.0 v) }
    ensures err { IfErr result (λ e. ¬ K.fails e →
        ValueBreaks (NameIsAt (K.names keep)) span.off span.end limit bytes.now e) }
{
    let Some((head, rest)) = bytes.split_first() else {
        return Err(span.cut());
    };
    match *head {
        ARRAY => {
            if limit == 0 {
                return Err(span.too_deep(bytes));
            }
            let Some((count, length)) = read_uleb(rest) else {
                return Err(span.cut());
            };
            let (_, left) = rest.split_at(length);
            let (many, after) = read_values(keep, span, limit - 1, count, left)?;
            Ok((keep.array(many)?, after))
        }
        _ => keep.leaf(span, bytes),
    }
}

/// What is kept of so many values, each at most `limit` deep, and what follows them.
#[cycle(values)]
fn read_values<'b, K: Keep>(
    keep: K,
    span: Span,
    limit: u32,
    count: u32,
    bytes: &'b [u8],
) -> Result<(K::Many, &'b [u8]), Fault>
    ensures ok { IfOk result (λ x.
        (vs : List content.Value) × Takes (Many (Shallow (NameIsAt (K.names keep)) limit) count) bytes.now vs x.1.now × K.many x.0 vs) }
    ensures err { IfErr result (λ e. ¬ K.fails e →
        NextBreaks (Shallow (NameIsAt (K.names keep)) limit) (ValueBreaks (NameIsAt (K.names keep)) span.off span.end limit) count bytes.now e) }
{
    let mut many = keep.none();
    let mut left = bytes;
    for _turn in 0..count {
        let (one, after) = read_value(keep, span, limit, left)?;
        keep.add(&mut many, one)?;
        left = after;
    }
    Ok((many, left))
}

/// How many values the array has whose section has these bytes from it on, and what is kept of them.
fn read_rest<K: Keep>(
    keep: K,
    span: Span,
    most: usize,
    bytes: &[u8],
) -> Result<(u32, K::Many), Fault>
    ensures ok { IfOk result (λ x.
        (vs : List content.Value) × TakesArray (NameIsAt (K.names keep)) most bytes.now vs × (length vs ≡ x.0) × K.many x.1 vs) }
    ensures err { IfErr result (λ e. ¬ K.fails e → ArrayBreaks (NameIsAt (K.names keep)) span.off span.end most bytes.now e) }
{
    let Some((count, length)) = read_uleb(bytes) else {
        return Err(span.cut());
    };
    if count as usize > most {
        return Err(Fault::at(fault::TOO_MANY_VALUES, u64::from(span.off)));
    }
    let (_, left) = bytes.split_at(length);
    let (many, _) = read_values(keep, span, MOST_DEPTH, count, left)?;
    Ok((count, many))
}

/// How many values the encoded_array at this byte offset of the file has, and what is kept of them.
pub(crate) fn read_at<K: Keep>(
    keep: K,
    sections: &Sections<'_>,
    off: u32,
    most: usize,
) -> Result<(u32, K::Many), Fault>
    ensures ok { IfOk result (λ x.
        (vs : List content.Value) × ArrayStands (NameIsAt (K.names keep)) sections.now off most vs × (length vs ≡ x.0) × K.many x.1 vs) }
    ensures only { IfOk result (λ x. (vs : List content.Value) →
        ArrayStands (NameIsAt (K.names keep)) sections.now off most vs → (length vs ≡ x.0) × K.many x.1 vs) }
    ensures broken { IfErr result (λ e. ¬ K.fails e → ArrayBreaksAt (NameIsAt (K.names keep)) sections.now off most e) }
    ensures refused { IfErr result (λ e. ¬ K.fails e →
        (vs : List content.Value) → ¬ ArrayStands (NameIsAt (K.names keep)) sections.now off most vs) }
{
    let section = section_of(sections, kind::ENCODED_ARRAY_ITEM);
    let Some(bytes) = bytes_from(sections, kind::ENCODED_ARRAY_ITEM, section, off) else {
        return Err(Fault::at(fault::VALUES, u64::from(off)));
    };
    let span = Span {
        off,
        end: section.end,
    };
    read_rest(keep, span, most, bytes)
}

/// The values of the encoded_array at this byte offset of the file, at most `most`, each at most 64 deep. They are
/// placed in the arena once, and their names are those of the tables.
///
/// Refused are: an offset outside the section of encoded arrays, a count that is misspelled, and bytes that run past the
/// section (48, at `off`); a count above `most` (49, at `off`); a value of a wrong type, argument or index (50, at the
/// value's first byte); an array value inside 64 others (51, at its first byte). In one value the type and the argument
/// are checked first, then the depth, its bytes and its index; values are checked in the order of their bytes. The only
/// other error is out of memory: memory is requested as values come, never for a count. No array is at offset 0
/// (`no_array_stands_at_zero`), so it is refused.
///
/// ```
/// use bumpalo::Bump;
/// use dex_container::{kind, open};
/// use dex_file::write;
/// use dex_listing::parse;
/// use dex_program::Value;
/// use dex_tables::Tables;
/// use dex_value::read_array;
///
/// let arena = Bump::new(alloc);
/// let file = write(alloc, &parse(alloc, &arena, b"dex 035 listing 2\nclass LA; 0x1\nstatic n I 0x9 = int 7\ndirect m ()V 0x9\nend class\n")?)?;
/// let sections = open(&file)?;
/// let tables = Tables::read(alloc, &arena, &sections)?;
/// let (off, _) = sections.section(kind::ENCODED_ARRAY_ITEM).unwrap();
/// let values = read_array(alloc, &arena, &tables, &sections, off, 1)?;
/// assert!(rt; matches!(values, [Value::Int(7)]));
/// ```
pub fn read_array<'a>(
    alloc: Global,
    arena: &'a Bump,
    tables: &Tables<'a>,
    sections: &Sections<'_>,
    off: u32,
    most: usize,
) -> Result<&'a [Value<'a>], Fault>
    ensures ok { IfOk result (λ values. ArrayStands (NameIsAt tables.now) sections.now off most (map value values.now)) }
    ensures only { IfOk result (λ values. (vs : List content.Value) →
        ArrayStands (NameIsAt tables.now) sections.now off most vs → vs ≡ map value values.now) }
    ensures broken { IfErr result (λ e. e ≢ memory → ArrayBreaksAt (NameIsAt tables.now) sections.now off most e) }
    ensures refused { IfErr result (λ e. e ≢ memory →
        (vs : List content.Value) → ¬ ArrayStands (NameIsAt tables.now) sections.now off most vs) }
{
    let keep = InArena {
        alloc,
        arena,
        tables,
    };
    let (_, values) = read_at(keep, sections, off, most)?;
    Ok(arena.try_alloc_slice_copy(&values)?)
}
