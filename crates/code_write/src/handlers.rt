//! Writing handlers ("Dalvik Executable format", "encoded_catch_handler_list", "encoded_catch_handler").

ghost use Rattle.std.specs.Prelude.{◌≤◌, ◌<◌, ◌+◌, ◌*◌, ℕ, List, length, map, OnOk, IfOk, IsOkUnless, IfSome, IfNone, ◌≢◌, []};
ghost use Rattle.std.specs.List.{AllByRecursion, flat_map};
ghost use Rattle.dex_base.specs.Fault.{memory};
ghost use Rattle.dex_base.specs.Grammar.{Appends, Each};
ghost use Rattle.program_types.specs.Content.{OfDesc};
ghost use Rattle.program_types.specs.Content as content;
ghost use Rattle.program_types.specs.View.{desc, catch, try};
ghost use Rattle.program_types.specs.Formed.{TryFormed};
ghost use Rattle.program_types.specs.Mentions.{names_of_try};
ghost use Rattle.tables_names.specs.Closure.{Five, NameRanks};
ghost use Rattle.code_read.specs.Tries.{handler_of};
ghost use Rattle.code_write.specs.Packs.{PacksHandlersOf};
ghost use Rattle.code_write.specs.inner.Packs.{AddressAt, PacksCatch, PacksHandler};
ghost use Rattle.code_write.specs.inner.Writing.{IsHeldAs, IsDistinct, IsDistinctOf, IsListed, joined_keys};
ghost use Rattle.code_write.specs.Fits.{HasIndexBelow, catches_in};

use crate::begins::Begins;
use dex_base::{Fault, Seed, are_bytes, put_sleb, put_uleb};
use indexmap::IndexSet;
use program_types::{Catch, Name, Try};
use std::alloc::Global;
use tables_names::Ranks;

/// Appends the address of an instruction.
fn put_address(out: &mut Vec<u8>, starts: &Begins<'_>, at: u32) -> Result<(), Fault>
    requires inside { at < length starts.now }
    ensures ok { OnOk result (Appends (AddressAt starts.now) out.old.items out.new.items at) }
    ensures memory { IsOkUnless result memory }
{
    put_uleb(out, starts.at(at))
}

/// Appends a catch: its type's index, and the address of its handler.
fn put_catch(
    out: &mut Vec<u8>,
    ranks: &Ranks<'_>,
    starts: &Begins<'_>,
    one: &Catch<'_>,
) -> Result<(), Fault>
    requires inside { one.now.at < length starts.now }
    requires ranked { HasIndexBelow (NameRanks ranks.now) 4294967296 (OfDesc (desc one.now.ty)) }
    ensures ok { OnOk result (Appends (PacksCatch (NameRanks ranks.now) starts.now) out.old.items out.new.items (catch one.now)) }
    ensures memory { IsOkUnless result memory }
{
    ranks.rise();
    let Some(index) = ranks.index_of(Name::Desc(one.ty)) else {
        unreachable!();
    };
    put_uleb(out, index)?;
    put_address(out, starts, one.at)
}

/// Appends catches, one after the other.
fn put_catches(
    out: &mut Vec<u8>,
    ranks: &Ranks<'_>,
    starts: &Begins<'_>,
    catches: &[Catch<'_>],
) -> Result<(), Fault>
    requires inside { AllByRecursion (λ c. c.at < length starts.now) (map catch catches.now) }
    requires ranked { AllByRecursion (λ c. HasIndexBelow (NameRanks ranks.now) 4294967296 (OfDesc c.ty)) (map catch catches.now) }
    ensures ok { OnOk result (Appends (Each (PacksCatch (NameRanks ranks.now) starts.now)) out.old.items out.new.items (map catch catches.now)) }
    ensures memory { IsOkUnless result memory }
{
    for one in catches {
        put_catch(out, ranks, starts, one)?;
    }
    Ok(())
}

/// Appends the handler of a try.
fn put_handler(
    out: &mut Vec<u8>,
    ranks: &Ranks<'_>,
    starts: &Begins<'_>,
    one: &Try<'_>,
) -> Result<(), Fault>
    requires few { length one.now.catches.now ≤ 2147483647 }
    requires inside { AllByRecursion (λ c. c.at < length starts.now) (map catch one.now.catches.now) }
    requires ranked { AllByRecursion (λ c. HasIndexBelow (NameRanks ranks.now) 4294967296 (OfDesc c.ty)) (map catch one.now.catches.now) }
    requires last { IfSome one.now.catch_all (λ k. k < length starts.now) }
    requires handled { IfNone one.now.catch_all (map catch one.now.catches.now ≢ []) }
    ensures ok { OnOk result (Appends (PacksHandler (NameRanks ranks.now) starts.now) out.old.items out.new.items (handler_of (try one.now))) }
    ensures memory { IsOkUnless result memory }
{
    let count = one.catches.len() as i32;
    match one.catch_all {
        None => {
            put_sleb(out, count)?;
            put_catches(out, ranks, starts, one.catches)
        }
        Some(at) => {
            put_sleb(out, -count)?;
            put_catches(out, ranks, starts, one.catches)?;
            put_address(out, starts, at)
        }
    }
}

/// The number of these bytes among those that are held, where they come last if they weren't held.
pub fn number_of(handlers: &mut IndexSet<Vec<u8>, Seed>, bytes: Vec<u8>) -> Result<u32, Fault>
    requires few { length handlers.old.keys < 65536 }
    ensures ok { IfOk result (λ n. IsHeldAs (map (λ v. v.items) handlers.old.keys) (map (λ v. v.items) handlers.new.keys) bytes.items n) }
    ensures memory { IsOkUnless result memory }
{
    let (number, _) = handlers.insert_full(bytes)?;
    Ok(number as u32)
}

/// The distinct handlers of tries, in the order of their first use, each as its bytes, and of each try the number of its
/// handler.
pub struct Distinct {
    pub handlers: IndexSet<Vec<u8>, Seed>,
    pub numbers: Vec<u32>,
}

// Each place where handlers are let go is proved: here it is one call, and derived it would be all that they own.
impl Drop for Distinct {
    fn drop(self) {
        let Distinct {
            handlers: _,
            numbers: _,
        } = self;
    }
}

/// The handlers of the tries, each once.
fn distinct_of(
    alloc: Global,
    ranks: &Ranks<'_>,
    starts: &Begins<'_>,
    tries: &[Try<'_>],
) -> Result<Distinct, Fault>
    requires formed { (i : ℕ) → i < length tries.now → TryFormed (length starts.now) (map try tries.now) i }
    requires ranked { AllByRecursion (HasIndexBelow (NameRanks ranks.now) 4294967296) (flat_map names_of_try (map try tries.now)) }
    requires few { length tries.now ≤ 65535 }
    requires short { 26 + 18 * length tries.now + 10 * catches_in (map try tries.now) ≤ 4294967295 }
    ensures ok { IfOk result (λ d. IsDistinct (NameRanks ranks.now) starts.now (map try tries.now) (length tries.now) (map (λ v. v.items) d.handlers.keys) d.numbers.items) }
    ensures memory { IsOkUnless result memory }
{
    ranks.rise();
    let mut handlers = IndexSet::with_hasher(alloc, ranks.seed());
    let mut numbers = Vec::with_capacity(alloc, tries.len())?;
    for i in 0..tries.len() {
        let mut bytes = Vec::new(alloc);
        put_handler(&mut bytes, ranks, starts, &tries[i])?;
        are_bytes(&bytes);
        numbers.push(number_of(&mut handlers, bytes)?)?;
    }
    Ok(Distinct { handlers, numbers })
}

/// The list of handlers, and where in it each begins.
#[derive(Drop)]
struct Listed {
    bytes: Vec<u8>,
    places: Vec<u32>,
}

/// The encoded_catch_handler_list of these handlers.
fn list_of(alloc: Global, handlers: &IndexSet<Vec<u8>, Seed>) -> Result<Listed, Fault>
    requires few { length handlers.now.keys ≤ 65535 }
    requires short { 5 + length (joined_keys (map (λ v. v.items) handlers.now.keys)) ≤ 4294967295 }
    ensures ok { IfOk result (λ l. IsListed (map (λ v. v.items) handlers.now.keys) l.bytes.items l.places.items) }
    ensures memory { IsOkUnless result memory }
{
    let mut bytes = Vec::new(alloc);
    let mut places = Vec::with_capacity(alloc, handlers.len())?;
    put_uleb(&mut bytes, handlers.len() as u32)?;
    for k in 0..handlers.len() {
        let Some(one) = handlers.get_index(k) else {
            unreachable!();
        };
        places.push(bytes.len() as u32)?;
        bytes.extend_from_slice(one)?;
    }
    Ok(Listed { bytes, places })
}

/// A code's handlers, and where that of each try begins.
#[derive(Drop)]
pub struct Laid {
    pub bytes: Vec<u8>,
    pub offsets: Vec<u32>,
}

/// The list of the handlers of tries, of which there are some, and where in it that of each try begins.
pub fn lay_distinct(alloc: Global, distinct: &Distinct) -> Result<Laid, Fault>
    requires { (s : Five) × (ss : List ℕ) × (ts : List content.Try) × IsDistinctOf (NameRanks s) ss ts (map (λ v. v.items) distinct.now.handlers.keys) distinct.now.numbers.items }
    ensures ok { IfOk result (λ l. (s : Five) (ss : List ℕ) (ts : List content.Try) → IsDistinctOf (NameRanks s) ss ts (map (λ v. v.items) distinct.now.handlers.keys) distinct.now.numbers.items
        → PacksHandlersOf (NameRanks s) ss ts l.bytes.items l.offsets.items) }
    ensures memory { IsOkUnless result memory }
{
    let list = list_of(alloc, &distinct.handlers)?;
    are_bytes(&list.bytes);
    let mut offsets = Vec::with_capacity(alloc, distinct.numbers.len())?;
    for number in &distinct.numbers {
        offsets.push(list.places[*number as usize])?;
    }
    Ok(Laid {
        bytes: list.bytes,
        offsets,
    })
}

/// The list of handlers of the tries: none without tries.
pub(crate) fn lay_handlers(
    alloc: Global,
    ranks: &Ranks<'_>,
    starts: &Begins<'_>,
    tries: &[Try<'_>],
) -> Result<Laid, Fault>
    requires formed { (i : ℕ) → i < length tries.now → TryFormed (length starts.now) (map try tries.now) i }
    requires ranked { AllByRecursion (HasIndexBelow (NameRanks ranks.now) 4294967296) (flat_map names_of_try (map try tries.now)) }
    requires few { length tries.now ≤ 65535 }
    requires short { 26 + 18 * length tries.now + 10 * catches_in (map try tries.now) ≤ 4294967295 }
    ensures ok { IfOk result (λ l. PacksHandlersOf (NameRanks ranks.now) starts.now (map try tries.now) l.bytes.items l.offsets.items) }
    ensures memory { IsOkUnless result memory }
{
    if tries.is_empty() {
        return Ok(Laid {
            bytes: Vec::new(alloc),
            offsets: Vec::new(alloc),
        });
    }
    let distinct = distinct_of(alloc, ranks, starts, tries)?;
    lay_distinct(alloc, &distinct)
}
