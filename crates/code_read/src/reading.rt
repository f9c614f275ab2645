//! Reading a code item.

ghost use Rattle.std.specs.Prelude.{◌≡◌, ◌≢◌, ℕ, ◌≤◌, ◌<◌, ◌+◌, ◌*◌, ◌⊎◌, length, IfOk, IfErr, IfSome, IfNone, Some, None};
ghost use Rattle.dex_base.specs.Fault.{memory};
ghost use Rattle.program_types.specs.Content as content;
ghost use Rattle.program_types.specs.View.{code};
ghost use Rattle.tables_rows.specs.Names.{NameIsAt};
ghost use Rattle.program_types.specs.Formed.{RegistersHold};
ghost use Rattle.code_read.specs.inner.ItemChecking.{HoldsItem, HoldsBody};
ghost use Rattle.code_read.specs.Code.{BodyStands, CodeStands};
ghost use Rattle.code_read.specs.Faults.{ItemBreaks, CodeBreaks, RegistersBreak, CodeOverruns};

use crate::insns::read_insns;
use crate::item::item_of;
use crate::keeping::{InArena, Keep, Nothing};
use crate::tries::read_tries;
use bumpalo::Bump;
use dex_base::{Fault, fault};
use dex_container::{Sections, bytes_from, section_of};
use program_types::Code;
use std::alloc::Global;
use tables_rows::Tables;

/// The kind of the section of code items (TYPE_CODE_ITEM).
const CODE_ITEMS: u16 = 0x2001;

/// A code as in its item, and the fault of its registers, if there is one.
#[derive(Clone, Copy)]
pub struct Body<'a> {
    pub code: Code<'a>,
    /// 73: ins past the registers, or the first instruction that names one past them.
    pub past: Option<Fault>,
}

/// What is wrong with the registers of the code at `off`, where the first instruction that names one past them is at this unit.
fn register_fault(off: u32, registers: u16, ins: u16, past: Option<u32>) -> Option<Fault>
    ensures none { IfNone result ((ins ≤ registers) × (past ≡ None)) }
    ensures some { IfSome result (λ e. ((registers < ins) × (e ≡ record { code = 73; place = off }))
        ⊎ ((ins ≤ registers) × (at : ℕ) × (past ≡ Some at) × (e ≡ record { code = 73; place = off + 16 + 2 * at }))) }
{
    if ins > registers {
        return Some(Fault::at(fault::REGISTER, u64::from(off)));
    }
    match past {
        Some(at) => Some(Fault::at(fault::REGISTER, u64::from(off) + 16 + 2 * u64::from(at))),
        None => None,
    }
}

/// What is kept of the item at the front of these bytes, which go to the section's end, and the fault of its registers.
#[inline(always)]
fn read_item<'a, K: Keep<'a>>(
    alloc: Global,
    arena: &'a Bump,
    tables: &Tables<'a>,
    off: u32,
    bytes: &[u8],
) -> Result<(K::Code, Option<Fault>), Fault>
    requires { length bytes.now < 4294967296 }
    ensures ok { IfOk result (λ x. (found : HoldsItem (NameIsAt tables.now) off bytes.now x.1) × K.code x.0 found.code) }
    ensures err { IfErr result (λ e. e ≢ memory → ItemBreaks (NameIsAt tables.now) off bytes.now e) }
{
    let Some(item) = item_of(bytes) else {
        return Err(Fault::at(fault::CODE_PLACE, u64::from(off)));
    };
    if item.size == 0 {
        return Err(Fault::at(fault::EMPTY_CODE, u64::from(off)));
    }
    if let Some(insns) = K::clear_insns(arena, tables, &item)? {
        let past = register_fault(off, item.registers, item.ins, None);
        return Ok((K::keep_code(&item, insns, &[]), past));
    }
    let base = u64::from(off) + 16;
    let found = read_insns::<K>(alloc, arena, tables, item.units, base, item.registers)?;
    let base = u64::from(off) + item.items_at;
    let tries = read_tries(alloc, arena, tables, &found.starts, &item, base)?;
    let past = register_fault(off, item.registers, item.ins, found.past);
    Ok((K::keep_code(&item, found.insns, tries), past))
}

/// What is kept of the code item at this byte offset of the file, and the fault of its registers.
#[inline(always)]
fn body_at<'a, K: Keep<'a>>(
    alloc: Global,
    arena: &'a Bump,
    tables: &Tables<'a>,
    sections: &Sections<'_>,
    off: u32,
) -> Result<(K::Code, Option<Fault>), Fault>
    ensures ok { IfOk result (λ x. (found : HoldsBody (NameIsAt tables.now) sections.now off x.1) × K.code x.0 found.code) }
    ensures only { IfOk result (λ x. (d : content.Code) → BodyStands (NameIsAt tables.now) sections.now off d → K.code x.0 d) }
    ensures broken { IfErr result (λ e. e ≢ memory → CodeBreaks (NameIsAt tables.now) sections.now off e) }
    ensures refused { IfErr result (λ e. e ≢ memory →
        (c : content.Code) → ¬ BodyStands (NameIsAt tables.now) sections.now off c) }
{
    if off % 4 != 0 {
        return Err(Fault::at(fault::CODE_PLACE, u64::from(off)));
    }
    let section = section_of(sections, CODE_ITEMS);
    let Some(bytes) = bytes_from(sections, CODE_ITEMS, section, off) else {
        return Err(Fault::at(fault::CODE_PLACE, u64::from(off)));
    };
    read_item::<K>(alloc, arena, tables, off, bytes)
}

/// Returns the code of the code item at this byte offset of the file, and the fault of its registers, if there is one: a caller that
/// reads many codes reports that once all of them are read.
pub fn read_body<'a>(
    alloc: Global,
    arena: &'a Bump,
    tables: &Tables<'a>,
    sections: &Sections<'_>,
    off: u32,
) -> Result<Body<'a>, Fault>
    ensures ok { IfOk result (λ x. BodyStands (NameIsAt tables.now) sections.now off (code x.code)) }
    ensures named { IfOk result (λ x. IfNone x.past (RegistersHold (code x.code))) }
    ensures past { IfOk result (λ x. IfSome x.past (RegistersBreak off (code x.code))) }
    ensures only { IfOk result (λ x. (d : content.Code) →
        BodyStands (NameIsAt tables.now) sections.now off d → d ≡ code x.code) }
    ensures broken { IfErr result (λ e. e ≢ memory → CodeBreaks (NameIsAt tables.now) sections.now off e) }
    ensures refused { IfErr result (λ e. e ≢ memory →
        (c : content.Code) → ¬ BodyStands (NameIsAt tables.now) sections.now off c) }
{
    let (code, past) = body_at::<InArena>(alloc, arena, tables, sections, off)?;
    Ok(Body { code, past })
}

/// Returns the fault of the registers of the code item at this byte offset of the file, if there is one. It refuses what `read_body`
/// refuses, with a fault of that item. Instructions of a code without payloads are not kept; others are read into the arena.
pub fn check_body(
    alloc: Global,
    arena: &Bump,
    tables: &Tables<'_>,
    sections: &Sections<'_>,
    off: u32,
) -> Result<Option<Fault>, Fault>
    ensures ok { IfOk result (HoldsBody (NameIsAt tables.now) sections.now off) }
    ensures broken { IfErr result (λ e. e ≢ memory → CodeBreaks (NameIsAt tables.now) sections.now off e) }
    ensures refused { IfErr result (λ e. e ≢ memory →
        (c : content.Code) → ¬ BodyStands (NameIsAt tables.now) sections.now off c) }
{
    let (_, past) = body_at::<Nothing>(alloc, arena, tables, sections, off)?;
    Ok(past)
}

/// Returns the code of the code item at this byte offset of the file. Its registers are checked last (73). No code is at
/// offset 0 (`no_code_stands_at_zero`), so it is refused.
///
/// ```
/// use bumpalo::Bump;
/// use dex_code::read_code;
/// use dex_container::{kind, open};
/// use dex_file::write;
/// use dex_listing::parse;
/// use dex_tables::Tables;
///
/// let arena = Bump::new(alloc);
/// let listed = parse(alloc, &arena, b"dex 035 listing 2\nclass LA; 0x1\ndirect m ()V 0x9\ncode 0 0 0\nreturn-void\nend code\nend class\n")?;
/// let file = write(alloc, &listed)?;
/// let sections = open(&file)?;
/// let tables = Tables::read(alloc, &arena, &sections)?;
/// let (off, _) = sections.section(kind::CODE_ITEM).unwrap();
/// let code = read_code(alloc, &arena, &tables, &sections, off)?;
/// assert_eq!(rt; code.insns.len(), 1);
/// ```
pub fn read_code<'a>(
    alloc: Global,
    arena: &'a Bump,
    tables: &Tables<'a>,
    sections: &Sections<'_>,
    off: u32,
) -> Result<Code<'a>, Fault>
    ensures ok { IfOk result (λ c. CodeStands (NameIsAt tables.now) sections.now off (code c)) }
    ensures only { IfOk result (λ c. (d : content.Code) →
        CodeStands (NameIsAt tables.now) sections.now off d → d ≡ code c) }
    ensures broken { IfErr result (λ e. e ≢ memory →
        CodeBreaks (NameIsAt tables.now) sections.now off e ⊎ CodeOverruns (NameIsAt tables.now) sections.now off e) }
    ensures refused { IfErr result (λ e. e ≢ memory →
        (c : content.Code) → ¬ CodeStands (NameIsAt tables.now) sections.now off c) }
{
    let body = read_body(alloc, arena, tables, sections, off)?;
    match body.past {
        Some(fault) => Err(fault),
        None => Ok(body.code),
    }
}
