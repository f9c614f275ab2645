//! Handlers, from the front of the bytes.

ghost use Rattle.std.specs.Prelude.{◌≡◌, ◌≢◌, ◌≤◌, ◌<◌, length, map, IfSome, IfNone, IfOk, IfErr};
ghost use Rattle.dex_base.specs.Fault.{memory};
ghost use Rattle.dex_base.specs.Grammar.{Takes, NoneBegins, Many};
ghost use Rattle.dex_base.specs.Leb128.{Spells, SpellsSigned};
ghost use Rattle.program_types.specs.View.{desc, catch};
ghost use Rattle.tables_rows.specs.Names.{NameIsAt};
ghost use Rattle.code_read.specs.Places.{Rises};
ghost use Rattle.code_read.specs.inner.Handlers.{SpellsAddress, SpellsCatchType, SpellsCatch, SpellsHandler};
ghost use Rattle.code_read.specs.Faults.{list_fault};
ghost use Rattle.code_read.specs.inner.HandlerViews.{handler};

use crate::places::number_at;
use bumpalo::Bump;
use dex_base::{Fault, fault, read_sleb, read_uleb};
use program_types::{Catch, Desc};
use std::alloc::Global;
use tables_rows::Tables;

/// The catches of a handler, and where all other exceptions go.
#[derive(Clone, Copy)]
pub(crate) struct Caught<'a> {
    pub catches: &'a [Catch<'a>],
    pub all: Option<u32>,
}

/// A number, and what follows it.
pub fn read_number(bytes: &[u8]) -> Option<(u32, &[u8])>
    ensures some { IfSome result (λ x. Takes Spells bytes.now x.0 x.1.now) }
    ensures none { IfNone result (NoneBegins Spells bytes.now) }
{
    let (n, length) = read_uleb(bytes)?;
    let (_, rest) = bytes.split_at(length);
    Some((n, rest))
}

/// A signed number, and what follows it.
pub fn read_signed(bytes: &[u8]) -> Option<(i32, &[u8])>
    ensures some { IfSome result (λ x. Takes SpellsSigned bytes.now x.0 x.1.now) }
    ensures none { IfNone result (NoneBegins SpellsSigned bytes.now) }
{
    let (n, length) = read_sleb(bytes)?;
    let (_, rest) = bytes.split_at(length);
    Some((n, rest))
}

/// The number of the instruction whose address is at the front, and the bytes after it.
fn read_address<'b>(tables: &Tables<'_>, starts: &[u32], bytes: &'b [u8]) -> Option<(u32, &'b [u8])>
    requires rises { Rises starts.now }
    requires few { length starts.now ≤ 4294967295 }
    ensures some { IfSome result (λ x. Takes (SpellsAddress (NameIsAt tables.now) starts.now) bytes.now x.0 x.1.now) }
    ensures none { IfNone result (NoneBegins (SpellsAddress (NameIsAt tables.now) starts.now) bytes.now) }
{
    // Only for the proof: what holds of each value of its type.
    let _tables = tables;
    let (address, rest) = read_number(bytes)?;
    let n = number_at(starts, u64::from(address))?;
    Some((n, rest))
}

/// The type whose index is at the front, and the bytes after it.
fn read_type<'a, 'b>(
    tables: &Tables<'a>,
    starts: &[u32],
    bytes: &'b [u8],
) -> Option<(Desc<'a>, &'b [u8])>
    ensures some { IfSome result (λ x. Takes (SpellsCatchType (NameIsAt tables.now) starts.now) bytes.now (desc x.0) x.1.now) }
    ensures none { IfNone result (NoneBegins (SpellsCatchType (NameIsAt tables.now) starts.now) bytes.now) }
{
    // Only for the proof: what holds of each value of its type.
    let _starts = starts;
    let (index, rest) = read_number(bytes)?;
    let ty = tables.type_(index)?;
    Some((ty, rest))
}

/// The catch at the front, and what follows it.
fn read_catch<'a, 'b>(
    tables: &Tables<'a>,
    starts: &[u32],
    bytes: &'b [u8],
) -> Option<(Catch<'a>, &'b [u8])>
    requires rises { Rises starts.now }
    requires few { length starts.now ≤ 4294967295 }
    ensures some { IfSome result (λ x. Takes (SpellsCatch (NameIsAt tables.now) starts.now) bytes.now (catch x.0) x.1.now) }
    ensures none { IfNone result (NoneBegins (SpellsCatch (NameIsAt tables.now) starts.now) bytes.now) }
{
    let (ty, mid) = read_type(tables, starts, bytes)?;
    let (at, rest) = read_address(tables, starts, mid)?;
    Some((Catch { ty, at }, rest))
}

/// So many catches, and what follows them. The list of handlers begins at the place `list`.
fn read_catches<'a, 'b>(
    alloc: Global,
    arena: &'a Bump,
    tables: &Tables<'a>,
    starts: &[u32],
    count: u32,
    list: u64,
    bytes: &'b [u8],
) -> Result<(&'a [Catch<'a>], &'b [u8]), Fault>
    requires rises { Rises starts.now }
    requires few { length starts.now ≤ 4294967295 }
    ensures ok { IfOk result (λ x. Takes (Many (SpellsCatch (NameIsAt tables.now) starts.now) count) bytes.now (map catch x.0.now) x.1.now) }
    ensures code { IfErr result (λ e. e ≢ memory → e ≡ list_fault list) }
    ensures err { IfErr result (λ e. e ≢ memory → NoneBegins (Many (SpellsCatch (NameIsAt tables.now) starts.now) count) bytes.now) }
{
    let mut all = Vec::new(alloc);
    let mut left = bytes;
    for _turn in 0..count {
        let Some((one, after)) = read_catch(tables, starts, left) else {
            return Err(Fault::at(fault::HANDLER, list));
        };
        all.push(one)?;
        left = after;
    }
    Ok((arena.try_alloc_slice_copy(&all)?, left))
}

/// The handler at the front, and what follows it.
pub(crate) fn read_handler<'a, 'b>(
    alloc: Global,
    arena: &'a Bump,
    tables: &Tables<'a>,
    starts: &[u32],
    list: u64,
    bytes: &'b [u8],
) -> Result<(Caught<'a>, &'b [u8]), Fault>
    requires rises { Rises starts.now }
    requires few { length starts.now ≤ 4294967295 }
    ensures ok { IfOk result (λ x. Takes (SpellsHandler (NameIsAt tables.now) starts.now) bytes.now (handler x.0) x.1.now) }
    ensures code { IfErr result (λ e. e ≢ memory → e ≡ list_fault list) }
    ensures err { IfErr result (λ e. e ≢ memory → NoneBegins (SpellsHandler (NameIsAt tables.now) starts.now) bytes.now) }
{
    let Some((n, pairs)) = read_signed(bytes) else {
        return Err(Fault::at(fault::HANDLER, list));
    };
    let (catches, rest) = read_catches(
        alloc,
        arena,
        tables,
        starts,
        n.unsigned_abs(),
        list,
        pairs,
    )?;
    if n > 0 {
        return Ok((Caught { catches, all: None }, rest));
    }
    let Some((at, after)) = read_address(tables, starts, rest) else {
        return Err(Fault::at(fault::HANDLER, list));
    };
    Ok((
        Caught {
            catches,
            all: Some(at),
        },
        after,
    ))
}
