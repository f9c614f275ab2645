//! From a file to the file of what it needs.
//! Page: "Dalvik Executable format", "File layout".
ghost use Rattle.std.specs.Prelude.{◌≡◌, ◌≢◌, ◌+◌, ◌<◌, ◌↔◌, ℕ, IfOk, IfErr, IsTrue, OnOk, IsOkUnless, length};
ghost use Rattle.dex_base.specs.Fault.{memory};
ghost use Rattle.program_types.specs.Content.{Program};
ghost use Rattle.tables_names.specs.Closure.{NameRanks};
ghost use Rattle.tables_names.specs.Needed.{needed};
ghost use Rattle.file_layout.specs.inner.Plan.{tables_end};
ghost use Rattle.file_layout.specs.Sections.{wide_all};
ghost use Rattle.file_limits.specs.Limits.{ClassBreaksLimit, Fits, IsFirstToBreak, IsLowestLimit};
ghost use Rattle.file_limits.specs.inner.Sum.{IsSum};
ghost use Rattle.file_limits.specs.Wide.{wide, wide_class};
ghost use Rattle.file_read.specs.Means.{Means};
ghost use Rattle.dex_container.specs.Section as section;
ghost use Rattle.tables_rows.specs.Names.{AreRows};
ghost use Rattle.file_strip.specs.inner.Keeping.{ListsMembers, Keeps};
ghost use Rattle.file_put.specs.inner.Assembled.{Assembled, DataIsLaid, SpellsTables, rows_of};
ghost use Rattle.file_put.specs.inner.Making.{places_of};
ghost use Rattle.file_strip.specs.inner.Ready.{IsReady};

use crate::arrays::put_arrays;
use crate::class_defs::put_classes;
use crate::codes::put_codes;
use crate::datas::put_datas;
use crate::lists::put_lists;
use crate::sizes::names_size;
use crate::survey::{Survey, visit_classes};
use crate::tables::name_rows;
use crate::texts::put_strings;
use dex_base::{Fault, Seed, are_bytes, fault};
use dex_container::Sections;
use dex_insn::IndexKind;
use file_classes::{Entries, class_count};
use file_layout::{Rows, finish};
use file_limits::plus;
use file_put::{Data, space};
use file_renumber::Numbers;
use std::alloc::Global;

/// Whether the file of the kept rows is too big, where its classes take so many bytes at most.
fn is_too_big(sections: &Sections<'_>, numbers: &Numbers, classes: u64) -> bool
    requires kept { (p : Program) × Keeps sections.now numbers.now p }
    ensures { (p : Program) → Keeps sections.now numbers.now p → IsSum classes (wide_all wide_class p) → IsTrue result ↔ (4294967295 < wide p) }
{
    let names = names_size(sections, numbers);
    plus(plus(names, classes), 163) > 4294967295
}

/// How many rows each table has.
fn counts_of(sections: &Sections<'_>, numbers: &Numbers) -> Rows
    requires kept { (p : Program) × Keeps sections.now numbers.now p }
    ensures { (p : Program) → Keeps sections.now numbers.now p → result ≡ rows_of (needed p) p }
{
    Rows {
        strings: numbers.count(IndexKind::String),
        types: numbers.count(IndexKind::Type),
        protos: numbers.count_protos(),
        fields: numbers.count(IndexKind::Field),
        methods: numbers.count(IndexKind::Method),
        classes: class_count(sections),
    }
}

/// Appends the parts of the data. 89 where a handler is too far, at the first class that has one.
fn put_data(
    alloc: Global,
    out: &mut Vec<u8>,
    sections: &Sections<'_>,
    numbers: &Numbers,
    members: &[Entries],
    counts: Rows,
) -> Result<Data, Fault>
    requires ready { (p : Program) × IsReady sections.now numbers.now p }
    requires members { AreRows ListsMembers sections.now section.class_defs members.now }
    requires counts { (p : Program) → IsReady sections.now numbers.now p → counts ≡ rows_of (needed p) p }
    requires front { length out.old.items ≡ tables_end counts }
    ensures ok { IfOk result (λ d. (p : Program) → IsReady sections.now numbers.now p → DataIsLaid out.new.items (needed p) p d.plan (places_of d)) }
    ensures near { OnOk result ((p : Program) → IsReady sections.now numbers.now p → (i : ℕ) → ¬ ClassBreaksLimit (NameRanks (needed p)) 89 p i) }
    ensures far { IfErr result (λ e. e ≢ memory → (e.code ≡ 89)
        × ((p : Program) → IsReady sections.now numbers.now p → IsFirstToBreak (NameRanks (needed p)) 89 p e.place)) }
{
    let tables = out.len() as u32;
    let lists = put_lists(alloc, out, numbers, sections)?;
    let lists_end = out.len() as u32;
    let codes = put_codes(alloc, out, numbers, sections, members)?;
    let codes_end = out.len() as u32;
    let texts = put_strings(alloc, out, numbers, sections)?;
    let texts_end = out.len() as u32;
    let arrays = put_arrays(alloc, out, numbers, sections)?;
    let arrays_end = out.len() as u32;
    let datas = put_datas(alloc, out, numbers, sections, members, &codes.places)?;
    let datas_end = out.len() as u32;
    let ends = [lists_end, codes_end, texts_end, arrays_end, datas_end];
    Ok(Data::laid(counts, tables, ends, lists, codes, texts, arrays, datas))
}

/// The rows of the six tables, of which proto_ids has so many.
fn table_rows(
    alloc: Global,
    sections: &Sections<'_>,
    numbers: &Numbers,
    protos: u32,
    laid: &Data,
) -> Result<Vec<u8>, Fault>
    requires kept { (p : Program) × Keeps sections.now numbers.now p
        × (protos ≡ length (needed p).protos)
        × (length laid.now.lists.items ≡ length (needed p).protos + length p)
        × (length laid.now.texts.items ≡ length (needed p).strings)
        × (length laid.now.datas.items ≡ length p)
        × (length laid.now.arrays.items ≡ length p) }
    ensures ok { IfOk result (λ rows. (p : Program) → Keeps sections.now numbers.now p → protos ≡ length (needed p).protos
        → SpellsTables (needed p) p (places_of laid.now) rows.items) }
    ensures memory { IsOkUnless result memory }
{
    let (params, interfaces) = laid.lists.split_at(protos as usize);
    let mut rows = name_rows(alloc, numbers, sections, &laid.texts, params)?;
    put_classes(
        &mut rows,
        numbers,
        sections,
        interfaces,
        &laid.datas,
        &laid.arrays,
    )?;
    Ok(rows)
}

/// Returns the file of the kept rows, which fit it. 89 if a handler is too far, at the first class that has one.
fn assemble_kept(
    alloc: Global,
    sections: &Sections<'_>,
    numbers: &Numbers,
    members: &[Entries],
) -> Result<Vec<u8>, Fault>
    requires ready { (p : Program) × IsReady sections.now numbers.now p }
    requires members { AreRows ListsMembers sections.now section.class_defs members.now }
    ensures ok { IfOk result (λ file. (p : Program) → IsReady sections.now numbers.now p → Assembled file.items (needed p) p) }
    ensures near { OnOk result ((p : Program) → IsReady sections.now numbers.now p → (i : ℕ) → ¬ ClassBreaksLimit (NameRanks (needed p)) 89 p i) }
    ensures far { IfErr result (λ e. e ≢ memory → (e.code ≡ 89)
        × ((p : Program) → IsReady sections.now numbers.now p → IsFirstToBreak (NameRanks (needed p)) 89 p e.place)) }
{
    let counts = counts_of(sections, numbers);
    let mut out = space(alloc, counts.tables_end(), sections.bytes().len())?;
    let laid = put_data(alloc, &mut out, sections, numbers, members, counts)?;
    let rows = table_rows(alloc, sections, numbers, counts.protos, &laid)?;
    finish(alloc, &mut out, &laid.plan, &rows)?;
    Ok(out)
}

/// Returns the file of the program that a file means, as `assemble` writes it: tables of exactly the needed names, type lists, code
/// items, texts, static values, class data, map, equal items once.
///
/// Refused are programs that are too big (90, at 0), and else those whose handlers are too far in the order of first use (89, at the
/// first such class); no file means a program that breaks a limit before these. 255 is out of memory. Hashes begin with the seed.
///
/// ```
/// let sections = open(&bytes)?;
/// check_framed(alloc, &sections)?; // it means a program
/// let small = strip_framed(alloc, seed, &sections)?;
/// ```
pub fn strip_framed(alloc: Global, seed: Seed, sections: &Sections<'_>) -> Result<Vec<u8>, Fault>
    requires means { (p : Program) × Means sections.now p }
    ensures assembled { IfOk result (λ file. (p : Program) → Means sections.now p → Assembled file.items (needed p) p) }
    ensures fits { OnOk result ((p : Program) → Means sections.now p → Fits p) }
    ensures refused { IfErr result (λ e. e ≢ memory → (p : Program) → Means sections.now p → IsLowestLimit p e) }
{
    // Only for the proof: what holds of each value of its type.
    are_bytes(sections.bytes());
    let Survey {
        marks,
        wide,
        members,
    } = visit_classes(alloc, seed, sections)?;
    let numbers = marks.number();
    if is_too_big(sections, &numbers, wide) {
        return Err(Fault::at(fault::TOO_BIG, 0));
    }
    Ok(assemble_kept(alloc, sections, &numbers, &members)?)
}
