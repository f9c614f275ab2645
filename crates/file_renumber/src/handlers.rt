//! Handlers ("encoded_catch_handler_list", "encoded_catch_handler").
ghost use Rattle.std.specs.Prelude.{◌≡◌, ◌<◌, ◌^◌, ℕ, List, length, IfOk, OnOk, IsOkUnless};
ghost use Rattle.dex_base.specs.Fault.{memory};
ghost use Rattle.dex_base.specs.Grammar.{Appends, Each, Many, Takes};
ghost use Rattle.program_types.specs.Content.{Catch};
ghost use Rattle.tables_names.specs.Closure.{NameRanks};
ghost use Rattle.tables_rows.specs.Stands.{NameStands};
ghost use Rattle.file_renumber.specs.inner.Marked.{HasMarks, AddsNames};
ghost use Rattle.code_read.specs.Places.{Rises};
ghost use Rattle.code_read.specs.Handlers.{Handler, SpellsList};
ghost use Rattle.code_read.specs.inner.Handlers.{SpellsCatch, SpellsHandler};
ghost use Rattle.code_write.specs.inner.Packs.{PacksCatch, PacksHandler};
ghost use Rattle.file_renumber.specs.inner.CarriedCodes.{CarriedCatches, CarriedHandler};
ghost use Rattle.file_renumber.specs.inner.Fronts.{AreListed, types_of};

use crate::code_fronts::{take_catch, take_number, take_signed};
use crate::marks::Marks;
use crate::numbers::Numbers;
use dex_base::{Fault, put_sleb, put_uleb};
use dex_container::Sections;
use dex_insn::IndexKind;
use std::alloc::Global;

// ---- where they begin

/// What follows so many catches.
fn skip_catches(count: u32, bytes: &[u8]) -> &[u8]
    requires { (b : List ℕ) × (ss : List ℕ) × (cs : List Catch) × (rest : List ℕ) × Takes (Many (SpellsCatch (NameStands b) ss) count) bytes.now cs rest }
    ensures { (b ss : List ℕ) (cs : List Catch) (rest : List ℕ) → Takes (Many (SpellsCatch (NameStands b) ss) count) bytes.now cs rest → result.now ≡ rest }
{
    let mut left = bytes;
    for _turn in 0..count {
        let (_, _, after) = take_catch(left);
        left = after;
    }
    left
}

/// How many types the handler at the front of the bytes catches, and what follows it.
fn skip_handler(bytes: &[u8]) -> (u32, &[u8])
    requires { (b : List ℕ) × (ss : List ℕ) × (h : Handler) × (rest : List ℕ) × Takes (SpellsHandler (NameStands b) ss) bytes.now h rest }
    ensures { (b ss : List ℕ) (h : Handler) (rest : List ℕ) → Takes (SpellsHandler (NameStands b) ss) bytes.now h rest
        → (result.0 ≡ length h.catches) × (result.1.now ≡ rest) }
{
    let (n, parts) = take_signed(bytes);
    let count = n.unsigned_abs();
    let rest = skip_catches(count, parts);
    if n > 0 {
        return (count, rest);
    }
    let (_, after) = take_number(rest);
    (count, after)
}

/// The handlers of a list: where in it each begins, and how many types it catches.
#[derive(Drop)]
pub(crate) struct Handlers {
    pub offsets: Vec<u32>,
    pub catches: Vec<u32>,
    ghost rise: { Rises offsets.items },
    ghost few: { length offsets.items < 2 ^ 32 },
}

/// The handlers of the list at the front of the bytes.
pub(crate) fn list_at(alloc: Global, bytes: &[u8]) -> Result<Handlers, Fault>
    requires short { length bytes.now < 2 ^ 32 }
    requires list { (b : List ℕ) × (ss : List ℕ) × (hs : _) × (rest : List ℕ) × Takes (SpellsList (NameStands b) ss) bytes.now hs rest }
    ensures ok { IfOk result (λ l. (b ss : List ℕ) (hs : _) (rest : List ℕ) → Takes (SpellsList (NameStands b) ss) bytes.now hs rest
        → AreListed hs l.offsets.items l.catches.items) }
    ensures memory { IsOkUnless result memory }
{
    let mut offsets = Vec::new(alloc);
    let mut catches = Vec::new(alloc);
    let (count, mut left) = take_number(bytes);
    for _turn in 0..count {
        let (types, after) = skip_handler(left);
        offsets.push((bytes.len() - left.len()) as u32)?;
        catches.push(types)?;
        left = after;
    }
    Ok(Handlers { offsets, catches })
}

// ---- what they name

/// Marks the types of so many catches.
fn mark_catches(
    marks: &mut Marks,
    sections: &Sections<'_>,
    count: u32,
    bytes: &[u8],
) -> Result<(), Fault>
    requires marks { HasMarks sections.now marks.old }
    requires catches { (ss : List ℕ) × (cs : List Catch) × (rest : List ℕ) × Takes (Many (SpellsCatch (NameStands sections.now) ss) count) bytes.now cs rest }
    ensures marked { OnOk result ((ss : List ℕ) (cs : List Catch) (rest : List ℕ) → Takes (Many (SpellsCatch (NameStands sections.now) ss) count) bytes.now cs rest
        → AddsNames sections.now marks.old marks.new (types_of cs)) }
    ensures memory { IsOkUnless result memory }
{
    let mut left = bytes;
    for _turn in 0..count {
        let (ty, _, after) = take_catch(left);
        marks.mark(sections, IndexKind::Type, ty)?;
        left = after;
    }
    Ok(())
}

/// Marks the types that the handler at the front of the bytes catches.
pub(crate) fn mark_handler(
    marks: &mut Marks,
    sections: &Sections<'_>,
    bytes: &[u8],
) -> Result<(), Fault>
    requires marks { HasMarks sections.now marks.old }
    requires handler { (ss : List ℕ) × (h : Handler) × (rest : List ℕ) × Takes (SpellsHandler (NameStands sections.now) ss) bytes.now h rest }
    ensures marked { OnOk result ((ss : List ℕ) (h : Handler) (rest : List ℕ) → Takes (SpellsHandler (NameStands sections.now) ss) bytes.now h rest
        → AddsNames sections.now marks.old marks.new (types_of h.catches)) }
    ensures memory { IsOkUnless result memory }
{
    let (n, parts) = take_signed(bytes);
    mark_catches(marks, sections, n.unsigned_abs(), parts)
}

// ---- with other indices

/// Appends so many catches with the numbers of the rows of their types; what follows them.
fn renumber_catches<'b>(
    out: &mut Vec<u8>,
    numbers: &Numbers,
    count: u32,
    bytes: &'b [u8],
) -> Result<&'b [u8], Fault>
    requires { CarriedCatches numbers.now count bytes.now }
    ensures follows { IfOk result (λ after. (x : CarriedCatches numbers.now count bytes.now) → after.now ≡ x.rest) }
    ensures ok { OnOk result ((x : CarriedCatches numbers.now count bytes.now) → Appends (Each (PacksCatch (NameRanks x.names) x.starts)) out.old.items out.new.items x.catches) }
    ensures memory { IsOkUnless result memory }
{
    let mut left = bytes;
    for _turn in 0..count {
        let (ty, address, after) = take_catch(left);
        put_uleb(out, numbers.of(IndexKind::Type, ty))?;
        put_uleb(out, address)?;
        left = after;
    }
    Ok(left)
}

/// The bytes of the handler at the front of these with the numbers of the rows of its types, each in the fewest bytes.
pub(crate) fn renumber_handler(
    alloc: Global,
    numbers: &Numbers,
    bytes: &[u8],
) -> Result<Vec<u8>, Fault>
    requires { CarriedHandler numbers.now bytes.now }
    ensures ok { IfOk result (λ out. (x : CarriedHandler numbers.now bytes.now) → PacksHandler (NameRanks x.names) x.starts out.items x.handler) }
    ensures memory { IsOkUnless result memory }
{
    let mut out = Vec::new(alloc);
    let (n, parts) = take_signed(bytes);
    put_sleb(&mut out, n)?;
    let rest = renumber_catches(&mut out, numbers, n.unsigned_abs(), parts)?;
    if n > 0 {
        return Ok(out);
    }
    let (address, _) = take_number(rest);
    put_uleb(&mut out, address)?;
    Ok(out)
}
