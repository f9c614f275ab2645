//! The tries of a code, from its try_items and its handlers.

ghost use Rattle.std.specs.Prelude.{◌≡◌, ◌≢◌, ℕ, ◌^◌, ◌+◌, ◌*◌, ◌<◌, ◌≤◌, ◌↔◌, IsTrue, length, map, IfOk, IfErr, OnOk, Some, None, IfSome, IfNone};
ghost use Rattle.dex_base.specs.Fault.{memory};
ghost use Rattle.dex_base.specs.Grammar.{NoneBegins};
ghost use Rattle.program_types.specs.View.{try};
ghost use Rattle.tables_rows.specs.Names.{NameIsAt};
ghost use Rattle.code_read.specs.Places.{Rises, position};
ghost use Rattle.dex_base.specs.FirstFault.{FirstBroken};
ghost use Rattle.code_rules.specs.First.{AllHold};
ghost use Rattle.code_read.specs.Tries.{TryHolds};
ghost use Rattle.code_read.specs.Item.{try_start, try_count, try_handler};
ghost use Rattle.code_read.specs.Handlers.{SpellsList};
ghost use Rattle.code_read.specs.inner.HandlerViews.{handler};
ghost use Rattle.code_read.specs.Faults.{TriesBreak, list_fault, try_fault};
ghost use Rattle.code_read.specs.inner.ItemReading.{ReadTries, ReadList, TakesTry, TakesTries, NoHandler};

use crate::handlers::{Caught, read_handler, read_number};
use crate::item::Item;
use crate::places::{below, number_at};
use bumpalo::Bump;
use bumpalo::collections::into_bump_slice;
use dex_base::{Fault, fault, u16_at, u32_at};
use program_types::Try;
use std::alloc::Global;
use tables_rows::Tables;

/// Where what try_item `i` covers ends.
fn end_of(items: &[u8], i: usize) -> u64
    requires { 8 * i + 8 ≤ length items.now }
    ensures { result ≡ try_start items.now i + try_count items.now i }
{
    u64::from(u32_at(items, 8 * i)) + u64::from(u16_at(items, 8 * i + 4))
}

/// Whether try_item `i` begins at or after the end of the one before.
fn is_after(items: &[u8], i: usize) -> bool
    requires { 8 * i + 8 ≤ length items.now }
    ensures { IsTrue result ↔ ((j : ℕ) → j + 1 ≡ i → try_start items.now j + try_count items.now j ≤ try_start items.now i) }
{
    if i == 0 {
        return true;
    }
    if end_of(items, i - 1) > u64::from(u32_at(items, 8 * i)) {
        return false;
    }
    true
}

/// Whether an instruction has this address.
fn is_address(starts: &[u32], address: u32) -> bool
    requires rises { Rises starts.now }
    requires few { length starts.now ≤ 4294967295 }
    ensures { IsTrue result ↔ ((n : ℕ) × (position starts.now address ≡ Some n)) }
{
    match number_at(starts, u64::from(address)) {
        Some(_) => true,
        None => false,
    }
}

/// Whether try_item `i` keeps the rules.
fn try_holds(starts: &[u32], size: u32, items: &[u8], i: usize) -> bool
    requires rises { Rises starts.now }
    requires few { length starts.now ≤ 4294967295 }
    requires inside { 8 * i + 8 ≤ length items.now }
    ensures { IsTrue result ↔ TryHolds starts.now size items.now i }
{
    if !is_address(starts, u32_at(items, 8 * i)) {
        return false;
    }
    if u16_at(items, 8 * i + 4) == 0 {
        return false;
    }
    if end_of(items, i) > u64::from(size) {
        return false;
    }
    is_after(items, i)
}

/// The first try_item that breaks the rules.
fn check_tries(starts: &[u32], size: u32, items: &[u8], tries: u16, base: u64) -> Result<(), Fault>
    requires rises { Rises starts.now }
    requires few { length starts.now ≤ 4294967295 }
    requires items { length items.now ≡ 8 * tries }
    requires base { base < 2 ^ 40 }
    ensures ok { OnOk result (AllHold (TryHolds starts.now size items.now) tries) }
    ensures err { IfErr result (FirstBroken tries (TryHolds starts.now size items.now) (try_fault base)) }
{
    for i in 0..tries {
        if !try_holds(starts, size, items, i as usize) {
            return Err(Fault::at(fault::TRY, base + 8 * u64::from(i)));
        }
    }
    Ok(())
}

/// Handlers, and the offsets at which they begin.
#[derive(Drop)]
struct List<'a> {
    offsets: Vec<u32>,
    handlers: Vec<Caught<'a>>,
}

/// Reads the list of handlers at the front of the bytes, which begins at the place `list`.
fn read_list<'a>(
    alloc: Global,
    arena: &'a Bump,
    tables: &Tables<'a>,
    starts: &[u32],
    list: u64,
    bytes: &[u8],
) -> Result<List<'a>, Fault>
    requires rises { Rises starts.now }
    requires few { length starts.now ≤ 4294967295 }
    requires short { length bytes.now < 4294967296 }
    ensures ok { IfOk result (λ l. ReadList (NameIsAt tables.now) starts.now bytes.now l.offsets.items (map handler l.handlers.items)) }
    ensures sorted { IfOk result (λ l. Rises l.offsets.items) }
    ensures short { IfOk result (λ l. length l.offsets.items ≤ 4294967295) }
    ensures count { IfOk result (λ l. length l.handlers.items ≡ length l.offsets.items) }
    ensures code { IfErr result (λ e. e ≢ memory → e ≡ list_fault list) }
    ensures err { IfErr result (λ e. e ≢ memory → NoneBegins (SpellsList (NameIsAt tables.now) starts.now) bytes.now) }
{
    let Some((count, entries)) = read_number(bytes) else {
        return Err(Fault::at(fault::HANDLER, list));
    };
    let mut offsets = Vec::new(alloc);
    let mut handlers = Vec::new(alloc);
    let mut left = entries;
    for _turn in 0..count {
        offsets.push((bytes.len() - left.len()) as u32)?;
        let (one, after) = read_handler(alloc, arena, tables, starts, list, left)?;
        handlers.push(one)?;
        left = after;
    }
    Ok(List { offsets, handlers })
}

/// The try of try_item `i`. `None` if no handler begins at its offset.
fn take_try<'a>(starts: &[u32], items: &[u8], all: &List<'a>, i: usize) -> Option<Try<'a>>
    requires rises { Rises starts.now }
    requires few { length starts.now ≤ 4294967295 }
    requires sorted { Rises all.now.offsets.items }
    requires short { length all.now.offsets.items ≤ 4294967295 }
    requires count { length all.now.handlers.items ≡ length all.now.offsets.items }
    requires inside { 8 * i + 8 ≤ length items.now }
    requires begins { (n : ℕ) × (position starts.now (try_start items.now i) ≡ Some n) }
    ensures some { IfSome result (λ t. TakesTry starts.now items.now all.now.offsets.items (map handler all.now.handlers.items) i (try t)) }
    ensures none { IfNone result (position all.now.offsets.items (try_handler items.now i) ≡ None) }
{
    let Some(number) = number_at(&all.offsets, u64::from(u16_at(items, 8 * i + 6))) else {
        return None;
    };
    let Some(from) = number_at(starts, u64::from(u32_at(items, 8 * i))) else {
        unreachable!();
    };
    let caught = all.handlers[number as usize];
    Some(Try {
        from,
        to: below(starts, end_of(items, i)) as u32,
        catches: caught.catches,
        catch_all: caught.all,
    })
}

/// The tries of try_items that keep the rules. The list of handlers begins at the place `list`.
fn take_tries<'a>(
    arena: &'a Bump,
    starts: &[u32],
    items: &[u8],
    tries: u16,
    all: &List<'a>,
    list: u64,
) -> Result<&'a [Try<'a>], Fault>
    requires rises { Rises starts.now }
    requires few { length starts.now ≤ 4294967295 }
    requires sorted { Rises all.now.offsets.items }
    requires short { length all.now.offsets.items ≤ 4294967295 }
    requires count { length all.now.handlers.items ≡ length all.now.offsets.items }
    requires items { length items.now ≡ 8 * tries }
    requires begins { AllHold (λ i. (n : ℕ) × (position starts.now (try_start items.now i) ≡ Some n)) tries }
    ensures ok { IfOk result (λ ts. TakesTries starts.now items.now all.now.offsets.items (map handler all.now.handlers.items) tries (map try ts.now)) }
    ensures code { IfErr result (λ e. e ≢ memory → e ≡ list_fault list) }
    ensures err { IfErr result (λ e. e ≢ memory → NoHandler items.now all.now.offsets.items tries) }
{
    let mut found = Vec::with_capacity(arena, usize::from(tries))?;
    for i in 0..tries {
        let Some(one) = take_try(starts, items, all, usize::from(i)) else {
            return Err(Fault::at(fault::HANDLER, list));
        };
        found.push(one)?;
    }
    Ok(into_bump_slice(found))
}

/// Reads the tries of an item whose try_items begin at the place `base`.
pub(crate) fn read_tries<'a>(
    alloc: Global,
    arena: &'a Bump,
    tables: &Tables<'a>,
    starts: &[u32],
    item: &Item<'_>,
    base: u64,
) -> Result<&'a [Try<'a>], Fault>
    requires rises { Rises starts.now }
    requires few { length starts.now ≤ 4294967295 }
    requires items { length item.now.items.now ≡ 8 * item.now.tries }
    requires short { length item.now.list.now < 4294967296 }
    requires base { base < 2 ^ 40 }
    ensures ok { IfOk result (λ ts. ReadTries (NameIsAt tables.now) starts.now item.now.size item.now.tries item.now.items.now item.now.list.now (map try ts.now)) }
    ensures err { IfErr result (λ e. e ≢ memory →
        TriesBreak (NameIsAt tables.now) starts.now item.now.size item.now.tries item.now.items.now item.now.list.now base e) }
{
    check_tries(starts, item.size, item.items, item.tries, base)?;
    if item.tries == 0 {
        return Ok(&[]);
    }
    let list = base + 8 * u64::from(item.tries);
    let all = read_list(alloc, arena, tables, starts, list, item.list)?;
    take_tries(arena, starts, item.items, item.tries, &all, list)
}
