//! Tries ("try_item"), and which handlers they use.
ghost use Rattle.std.specs.Prelude.{◌≡◌, ◌≢◌, ◌+◌, ◌-◌, ◌*◌, ◌<◌, ◌≤◌, ◌^◌, ◌++◌, min, ℕ, List, map, drop, length, replicate, slice_index, Some, IfOk, IfErr, OnOk, IsOkUnless};
ghost use Rattle.std.specs.List.{AllByRecursion, flat_map};
ghost use Rattle.dex_base.specs.Fault.{memory};
ghost use Rattle.dex_base.specs.Grammar.{Takes};
ghost use Rattle.program_types.specs.Content.{Try};
ghost use Rattle.program_types.specs.Mentions.{names_of_try};
ghost use Rattle.tables_names.specs.Closure.{NameRanks};
ghost use Rattle.tables_rows.specs.Stands.{NameStands};
ghost use Rattle.file_renumber.specs.inner.Marked.{HasMarks, AddsNames};
ghost use Rattle.code_read.specs.Places.{Rises, position, count_below};
ghost use Rattle.code_read.specs.Handlers.{Handler};
ghost use Rattle.code_read.specs.inner.Handlers.{SpellsHandler};
ghost use Rattle.code_read.specs.Item.{try_start, try_count, try_handler};
ghost use Rattle.code_write.specs.Fits.{catches_in};
ghost use Rattle.code_write.specs.Packs.{PacksHandlersOf, bound_of, item_bytes, items_bytes};
ghost use Rattle.code_write.specs.inner.Writing.{IsDistinctOf};
ghost use Rattle.file_renumber.specs.inner.CarriedCodes.{CarriedHandler, CarriedTries};
ghost use Rattle.file_renumber.specs.inner.TryWalks.{HasTries, ListedTries, MarksOnce, CarriedList, GetsNumber, AreKnown, CoversTry, CoverTries};

use crate::handlers::{Handlers, list_at, mark_handler, renumber_handler};
use crate::marks::Marks;
use crate::numbers::Numbers;
use code_read::{Item, below, number_at};
use code_write::{Distinct, Laid, lay_distinct, number_of, put_u16, put_u32};
use dex_base::{Fault, Seed, are_bytes, fault, u16_at, u32_at};
use dex_container::Sections;
use indexmap::IndexSet;
use std::alloc::Global;

/// The number, in the list, of the handler of try_item `i`.
fn handler_of(items: &[u8], offsets: &[u32], i: usize) -> usize
    requires inside { 8 * i + 8 ≤ length items.now }
    requires rises { Rises offsets.now }
    requires few { length offsets.now ≤ 4294967295 }
    requires there { (k : ℕ) × (position offsets.now (try_handler items.now i) ≡ Some k) }
    ensures { position offsets.now (try_handler items.now i) ≡ Some result }
{
    match number_at(offsets, u64::from(u16_at(items, 8 * i + 6))) {
        Some(number) => number as usize,
        None => unreachable!(),
    }
}

// ---- what they name

/// Marks the types that handler `k` of the list catches, unless it was seen before.
fn mark_once(
    marks: &mut Marks,
    sections: &Sections<'_>,
    list: &[u8],
    offset: u32,
    seen: &mut [u8],
    k: usize,
) -> Result<(), Fault>
    requires marks { HasMarks sections.now marks.old }
    requires inside { k < length seen.old }
    requires handler { (ss : List ℕ) × (h : Handler) × (rest : List ℕ) × Takes (SpellsHandler (NameStands sections.now) ss) (drop offset list.now) h rest }
    ensures ok { OnOk result (MarksOnce sections.now list.now offset marks.old marks.new seen.old seen.new k) }
    ensures memory { IsOkUnless result memory }
{
    if seen[k] != 0 {
        return Ok(());
    }
    seen[k] = 1;
    let (_, bytes) = list.split_at(offset as usize);
    mark_handler(marks, sections, bytes)
}

/// So many handlers, none of them seen.
fn unseen(alloc: Global, count: usize) -> Result<Vec<u8>, Fault>
    ensures ok { IfOk result (λ seen. seen.items ≡ replicate count 0) }
    ensures memory { IsOkUnless result memory }
{
    Ok(vec![in alloc; 0u8; count]?)
}

/// Marks the types that the tries of the item catch, whose handlers are listed, and returns how many catches they have;
/// none of the handlers was seen before.
fn mark_each(
    marks: &mut Marks,
    sections: &Sections<'_>,
    item: &Item<'_>,
    list: &Handlers,
    seen: &mut [u8],
) -> Result<u64, Fault>
    requires marks { HasMarks sections.now marks.old }
    requires some { 0 < item.now.tries }
    requires items { length item.now.items.now ≡ 8 * item.now.tries }
    requires none { seen.old ≡ replicate (length list.now.offsets.items) 0 }
    requires tries { ListedTries sections.now item.now list.now }
    ensures marked { OnOk result ((x : ListedTries sections.now item.now list.now) → AddsNames sections.now marks.old marks.new (flat_map names_of_try x.all.tries)) }
    ensures catches { IfOk result (λ n. (x : ListedTries sections.now item.now list.now) → n ≡ catches_in x.all.tries) }
    ensures low { IfOk result (λ n. n < 2 ^ 48) }
    ensures memory { IsOkUnless result memory }
{
    let mut catches: u64 = 0;
    for i in 0..item.tries {
        let k = handler_of(item.items, &list.offsets, usize::from(i));
        let offset = list.offsets[k];
        mark_once(marks, sections, item.list, offset, seen, k)?;
        let types = list.catches[k];
        catches += u64::from(types);
    }
    Ok(catches)
}

/// Marks the types that tries catch, and returns how many catches they have.
pub(crate) fn mark_tries(
    alloc: Global,
    marks: &mut Marks,
    sections: &Sections<'_>,
    item: &Item<'_>,
) -> Result<u64, Fault>
    requires marks { HasMarks sections.now marks.old }
    requires some { 0 < item.now.tries }
    requires items { length item.now.items.now ≡ 8 * item.now.tries }
    requires short { length item.now.list.now < 2 ^ 32 }
    requires tries { HasTries sections.now item.now }
    ensures marked { OnOk result ((x : HasTries sections.now item.now) → AddsNames sections.now marks.old marks.new (flat_map names_of_try x.tries)) }
    ensures catches { IfOk result (λ n. (x : HasTries sections.now item.now) → n ≡ catches_in x.tries) }
    ensures low { IfOk result (λ n. n < 2 ^ 48) }
    ensures memory { IsOkUnless result memory }
{
    let list = list_at(alloc, item.list)?;
    let mut seen = unseen(alloc, list.offsets.len())?;
    mark_each(marks, sections, item, &list, &mut seen)
}

// ---- with other indices

/// The number of handler `k` of the list among those that are held: it is written only where its number isn't known.
fn number_of_handler(
    alloc: Global,
    numbers: &Numbers,
    list: &[u8],
    offsets: &[u32],
    known: &mut [u32],
    handlers: &mut IndexSet<Vec<u8>, Seed>,
    k: usize,
) -> Result<u32, Fault>
    requires inside { k < length offsets.now }
    requires count { length known.old ≡ length offsets.now }
    requires few { length handlers.old.keys < 65536 }
    requires known { AreKnown numbers.now list.now offsets.now known.old (map (λ v. v.items) handlers.old.keys) }
    requires handler { CarriedHandler numbers.now (drop (slice_index offsets.now k) list.now) }
    ensures ok { IfOk result (λ n. GetsNumber numbers.now (drop (slice_index offsets.now k) list.now) (map (λ v. v.items) handlers.old.keys) (map (λ v. v.items) handlers.new.keys) n) }
    ensures known { OnOk result (AreKnown numbers.now list.now offsets.now known.new (map (λ v. v.items) handlers.new.keys)) }
    ensures memory { IsOkUnless result memory }
{
    if known[k] != 0 {
        return Ok(known[k] - 1);
    }
    let (_, bytes) = list.split_at(offsets[k] as usize);
    let written = renumber_handler(alloc, numbers, bytes)?;
    are_bytes(&written);
    let number = number_of(handlers, written)?;
    known[k] = number + 1;
    Ok(number)
}

/// So many handlers, none of them known.
fn unknown(alloc: Global, count: usize) -> Result<Vec<u32>, Fault>
    ensures ok { IfOk result (λ known. known.items ≡ replicate count 0) }
    ensures memory { IsOkUnless result memory }
{
    Ok(vec![in alloc; 0u32; count]?)
}

/// The handlers of the tries of the item, each once, which begin at these offsets of its list; none of them is known.
fn number_each(
    alloc: Global,
    numbers: &Numbers,
    item: &Item<'_>,
    offsets: &[u32],
    known: &mut [u32],
) -> Result<Distinct, Fault>
    requires some { 0 < item.now.tries }
    requires items { length item.now.items.now ≡ 8 * item.now.tries }
    requires rises { Rises offsets.now }
    requires few { length offsets.now < 2 ^ 32 }
    requires none { known.old ≡ replicate (length offsets.now) 0 }
    requires tries { CarriedList numbers.now item.now offsets.now }
    ensures ok { IfOk result (λ d. (x : CarriedList numbers.now item.now offsets.now)
        → IsDistinctOf (NameRanks x.all.names) x.all.starts x.all.tries (map (λ v. v.items) d.handlers.keys) d.numbers.items) }
    ensures memory { IsOkUnless result memory }
{
    let mut handlers = IndexSet::with_hasher(alloc, numbers.seed());
    let mut all = Vec::with_capacity(alloc, item.tries as usize)?;
    for i in 0..item.tries {
        let k = handler_of(item.items, offsets, usize::from(i));
        let number = number_of_handler(
            alloc,
            numbers,
            item.list,
            offsets,
            known,
            &mut handlers,
            k,
        )?;
        all.push(number)?;
    }
    Ok(Distinct {
        handlers,
        numbers: all,
    })
}

/// The handlers of the tries, each once.
fn distinct_of(alloc: Global, numbers: &Numbers, item: &Item<'_>) -> Result<Distinct, Fault>
    requires some { 0 < item.now.tries }
    requires items { length item.now.items.now ≡ 8 * item.now.tries }
    requires short { length item.now.list.now < 2 ^ 32 }
    requires tries { CarriedTries numbers.now item.now }
    ensures ok { IfOk result (λ d. (x : CarriedTries numbers.now item.now)
        → IsDistinctOf (NameRanks x.names) x.starts x.tries (map (λ v. v.items) d.handlers.keys) d.numbers.items) }
    ensures memory { IsOkUnless result memory }
{
    let list = list_at(alloc, item.list)?;
    let mut known = unknown(alloc, list.offsets.len())?;
    number_each(alloc, numbers, item, &list.offsets, &mut known)
}

/// The list of handlers of the tries, each handler once and in the order of first use: none without tries.
pub(crate) fn lay_tries(alloc: Global, numbers: &Numbers, item: &Item<'_>) -> Result<Laid, Fault>
    requires items { length item.now.items.now ≡ 8 * item.now.tries }
    requires short { length item.now.list.now < 2 ^ 32 }
    requires tries { CarriedTries numbers.now item.now }
    ensures ok { IfOk result (λ l. (x : CarriedTries numbers.now item.now) → PacksHandlersOf (NameRanks x.names) x.starts x.tries l.bytes.items l.offsets.items) }
    ensures memory { IsOkUnless result memory }
{
    if item.tries == 0 {
        return Ok(Laid {
            bytes: Vec::new(alloc),
            offsets: Vec::new(alloc),
        });
    }
    let distinct = distinct_of(alloc, numbers, item)?;
    lay_distinct(alloc, &distinct)
}

/// Where the last instruction ends that try_item `i` covers.
fn bound_of(item: &Item<'_>, starts: &[u32], i: usize) -> u32
    requires rises { Rises starts.now }
    requires inside { 8 * i + 8 ≤ length item.now.items.now }
    ensures { result ≡ bound_of item.now.size starts.now (count_below (try_start item.now.items.now i + try_count item.now.items.now i) starts.now) }
{
    let end = u64::from(u32_at(item.items, 8 * i)) + u64::from(u16_at(item.items, 8 * i + 4));
    let next = below(starts, end);
    if next == starts.len() {
        return item.size;
    }
    starts[next]
}

/// How many units try_item `i` covers up to the end of its last instruction, at most as many as fit its count.
fn covered_by(item: &Item<'_>, starts: &[u32], i: usize) -> u16
    requires rises { Rises starts.now }
    requires inside { 8 * i + 8 ≤ length item.now.items.now }
    ensures { result ≡ min 65535 (bound_of item.now.size starts.now (count_below (try_start item.now.items.now i + try_count item.now.items.now i) starts.now) - try_start item.now.items.now i) }
{
    let begin = u32_at(item.items, 8 * i);
    bound_of(item, starts, i).saturating_sub(begin).min(65535) as u16
}

/// Appends try_item `i`, whose handler begins at this offset.
fn put_item(
    out: &mut Vec<u8>,
    item: &Item<'_>,
    starts: &[u32],
    i: usize,
    offset: u16,
) -> Result<(), Fault>
    requires rises { Rises starts.now }
    requires inside { 8 * i + 8 ≤ length item.now.items.now }
    ensures ok { OnOk result ((t : Try) → CoversTry starts.now item.now.items.now i t → out.new.items ≡ out.old.items ++ item_bytes item.now.size starts.now t offset) }
    ensures memory { IsOkUnless result memory }
{
    put_u32(out, u32_at(item.items, 8 * i))?;
    put_u16(out, covered_by(item, starts, i))?;
    put_u16(out, offset)
}

/// Appends the try_items, whose handlers begin at these offsets. 89 where one begins too far after the list's begin.
pub(crate) fn put_items(
    out: &mut Vec<u8>,
    item: &Item<'_>,
    starts: &[u32],
    offsets: &[u32],
) -> Result<(), Fault>
    requires rises { Rises starts.now }
    requires items { length item.now.items.now ≡ 8 * item.now.tries }
    requires count { length offsets.now ≡ item.now.tries }
    ensures ok { OnOk result ((ts : List Try) → CoverTries starts.now item.now.items.now item.now.tries ts
        → out.new.items ≡ out.old.items ++ items_bytes item.now.size starts.now ts offsets.now) }
    ensures near { OnOk result (AllByRecursion (λ off. off < 65536) offsets.now) }
    ensures far { IfErr result (λ e. e ≢ memory → (e ≡ record { code = 89; place = 0 }) × (i : ℕ) × (i < length offsets.now) × (65535 < slice_index offsets.now i)) }
{
    for i in 0..offsets.len() {
        let offset = offsets[i];
        if offset > 65535 {
            return Err(Fault::at(fault::HANDLER_TOO_FAR, 0));
        }
        put_item(out, item, starts, i, offset as u16)?;
    }
    Ok(())
}
