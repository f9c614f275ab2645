//! Code items ("code_item").
ghost use Rattle.std.specs.Prelude.{◌≡◌, ◌≢◌, ◌<◌, ◌≤◌, ◌%◌, ◌++◌, List, length, IfOk, IfErr, OnOk, IsOkUnless};
ghost use Rattle.dex_base.specs.Fault.{memory};
ghost use Rattle.program_types.specs.Content.{Code};
ghost use Rattle.program_types.specs.Mentions.{names_of_code};
ghost use Rattle.program_types.specs.Sizes.{addresses_of};
ghost use Rattle.tables_names.specs.Closure.{Five, NameRanks};
ghost use Rattle.dex_container.specs.Where.{IsSectionOf};
ghost use Rattle.tables_rows.specs.Stands.{NameStands};
ghost use Rattle.file_renumber.specs.inner.Marked.{HasMarks, AddsNames};
ghost use Rattle.dex_insn.specs.Raw.{Raw};
ghost use Rattle.code_read.specs.Places.{Rises};
ghost use Rattle.code_read.specs.Walk.{Walks, starts};
ghost use Rattle.code_read.specs.Code.{CodeStands};
ghost use Rattle.code_write.specs.Fits.{wide_code, SomeHandlerIsFar};
ghost use Rattle.code_write.specs.Packs.{PacksCode};
ghost use Rattle.file_renumber.specs.inner.CarriedCodes.{IsCarriedCode, head_of};

use crate::code_fronts::item_at;
use crate::insns::{mark_insns, renumber_insns, starts_of};
use crate::marks::Marks;
use crate::numbers::Numbers;
use crate::tries::{lay_tries, mark_tries, put_items};
use code_read::Item;
use code_write::{put_padding, put_u16, put_u32};
use dex_base::{Fault, are_bytes};
use dex_container::{Section, Sections};
use std::alloc::Global;

/// Marks the rows that the code at an offset names, and those of their parts, and returns how many bytes the code needs at
/// most, in a file of any rows.
///
/// A code has to be at the offset, and `codes` has to be the section of the code items. It fails only when out of memory, and then some
/// of the rows may be marked.
///
/// ```
/// let mut marks = Marks::new(alloc, seed, &sections)?;
/// let most = mark_code(alloc, &mut marks, &sections, codes, 0x1c0)?; // 28 for a code of one unit without tries
/// ```
pub fn mark_code(
    alloc: Global,
    marks: &mut Marks,
    sections: &Sections<'_>,
    codes: Section,
    off: u32,
) -> Result<u64, Fault>
    requires marks { HasMarks sections.now marks.old }
    requires codes { IsSectionOf sections.now 0x2001 codes }
    requires stands { (c : Code) × CodeStands (NameStands sections.now) sections.now off c }
    ensures marked { OnOk result ((c : Code) → CodeStands (NameStands sections.now) sections.now off c → AddsNames sections.now marks.old marks.new (names_of_code c)) }
    ensures wide { IfOk result (λ n. (c : Code) → CodeStands (NameStands sections.now) sections.now off c → n ≡ wide_code c) }
    ensures memory { IsOkUnless result memory }
{
    let item = item_at(sections, codes, off);
    mark_insns(marks, sections, item.units)?;
    let fixed = 26 + 2 * u64::from(item.size);
    if item.tries == 0 {
        return Ok(fixed);
    }
    let catches = mark_tries(alloc, marks, sections, &item)?;
    Ok(fixed + 18 * u64::from(item.tries) + 10 * catches)
}

/// Appends the header of a code: registers_size to insns_size.
fn put_head(out: &mut Vec<u8>, item: &Item<'_>) -> Result<(), Fault>
    ensures ok { OnOk result (out.new.items ≡ out.old.items ++ head_of item.now) }
    ensures memory { IsOkUnless result memory }
{
    put_u16(out, item.registers)?;
    put_u16(out, item.ins)?;
    put_u16(out, item.outs)?;
    put_u16(out, item.tries)?;
    put_u32(out, 0)?;
    put_u32(out, item.size)
}

/// The unit at which each instruction of a code begins: empty without tries, which alone need them.
fn starts_needed(alloc: Global, item: &Item<'_>) -> Result<Vec<u32>, Fault>
    requires even { length item.now.units.now % 2 ≡ 0 }
    requires short { length item.now.units.now ≤ 8589934590 }
    requires insns { (rs : List Raw) × Walks item.now.units.now rs }
    ensures table { IfOk result (λ all. (rs : List Raw) → Walks item.now.units.now rs → 0 < item.now.tries → all.items ≡ starts rs) }
    ensures rises { IfOk result (λ all. Rises all.items) }
    ensures memory { IsOkUnless result memory }
{
    if item.tries == 0 {
        return Ok(Vec::new(alloc));
    }
    starts_of(alloc, item.units)
}

/// The bytes of the code at an offset in a file of the kept rows: debug_info_off and padding 0, numbers in the fewest
/// bytes, each handler once, in the order of first use. Refused with 89, at 0, where a handler begins too far after the
/// list's begin, and else only when out of memory.
///
/// A code has to be at the offset, `codes` has to be the section of the code items, and each row that it names has to be kept, with a
/// number that fits its field.
///
/// ```
/// let item = renumber_code(alloc, &numbers, &sections, codes, 0x1c0)?; // 18 bytes for a code of one unit without tries
/// ```
pub fn renumber_code(
    alloc: Global,
    numbers: &Numbers,
    sections: &Sections<'_>,
    codes: Section,
    off: u32,
) -> Result<Vec<u8>, Fault>
    requires codes { IsSectionOf sections.now 0x2001 codes }
    requires carried { (s : Five) × (c : Code) × IsCarriedCode sections.now off numbers.now s c }
    ensures ok { IfOk result (λ item. (s : Five) (c : Code) → IsCarriedCode sections.now off numbers.now s c → PacksCode (NameRanks s) item.items c) }
    ensures far { IfErr result (λ e. e ≢ memory → (e ≡ record { code = 89; place = 0 })
        × ((s : Five) (c : Code) → IsCarriedCode sections.now off numbers.now s c → SomeHandlerIsFar (NameRanks s) (addresses_of c.insns) c.tries)) }
{
    let item = item_at(sections, codes, off);
    // Only for the proof: what holds of each value of its type.
    are_bytes(sections.bytes());
    are_bytes(item.units);
    let mut out = Vec::with_capacity(alloc, 16 + item.units.len())?;
    put_head(&mut out, &item)?;
    renumber_insns(&mut out, numbers, item.units)?;
    let starts = starts_needed(alloc, &item)?;
    put_padding(&mut out, item.size, usize::from(item.tries))?;
    let laid = lay_tries(alloc, numbers, &item)?;
    put_items(&mut out, &item, &starts, &laid.offsets)?;
    out.extend_from_slice(&laid.bytes)?;
    Ok(out)
}
