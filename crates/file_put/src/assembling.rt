//! From a program to the bytes of its file.
//! Page: "Dalvik Executable format", "File layout".
ghost use Rattle.std.specs.Prelude.{◌≡◌, ◌≢◌, ◌+◌, ◌<◌, ◌^◌, ◌++◌, IfOk, IfErr, OnOk, IsOkUnless, length, slice_index};
ghost use Rattle.dex_base.specs.Fault.{memory};
ghost use Rattle.file_layout.specs.inner.Plan.{tables_end};
ghost use Rattle.file_layout.specs.Tiles.{gap, zeros};
ghost use Rattle.file_limits.specs.Limits.{Fits, IsLowestLimit};
ghost use Rattle.file_limits.specs.inner.Wide.{wide_rows};
ghost use Rattle.file_needed.specs.inner.Bodies.{defined_in, named_in_code};
ghost use Rattle.tables_names.specs.Needed.{needed};
ghost use Rattle.tables_names.specs.Noted.{AreRanks};
ghost use Rattle.program_types.specs.View as view;
ghost use Rattle.program_rules.specs.WellFormed.{WellFormed};
ghost use Rattle.file_put.specs.inner.Assembled.{Assembled, DataIsLaid, SpellsTables, rows_of};
ghost use Rattle.file_put.specs.inner.Making.{places_of};

use crate::arrays::put_arrays;
use crate::class_data::put_datas;
use crate::class_defs::put_classes;
use crate::codes::put_codes;
use crate::placed::Placed;
use crate::tables::name_rows;
use crate::texts::put_strings;
use crate::type_lists::put_lists;
use bumpalo::Bump;
use dex_base::{Fault, Seed};
use file_layout::{Part, Plan, Rows, finish, gap_after};
use file_limits::check_limits;
use file_needed::needed_names;
use program_types::Program;
use std::alloc::Global;
use tables_names::Ranks;

/// Returns the file of a well-formed program, laid out as in `Assembled`: tables of exactly the needed names, type lists, code items,
/// texts, static values, class data, map. Equal lists, bodies and arrays are written once.
///
/// Programs that exceed a limit of the format are refused, with the lowest-numbered fault, at its place. 255 is out of memory.
pub fn assemble(alloc: Global, seed: Seed, program: &Program<'_>) -> Result<Vec<u8>, Fault>
    requires formed { WellFormed (view.program program.now) }
    ensures assembled { IfOk result (λ file. Assembled file.items (needed (view.program program.now)) (view.program program.now)) }
    ensures fits { OnOk result (Fits (view.program program.now)) }
    ensures refused { IfErr result (λ e. e ≢ memory → IsLowestLimit (view.program program.now) e) }
{
    let arena = Bump::new(alloc);
    assemble_in(alloc, seed, &arena, program)
}

/// With an arena for the shorties.
fn assemble_in<'a, 'p: 'a>(
    alloc: Global,
    seed: Seed,
    arena: &'a Bump,
    program: &Program<'p>,
) -> Result<Vec<u8>, Fault>
    requires formed { WellFormed (view.program program.now) }
    ensures assembled { IfOk result (λ file. Assembled file.items (needed (view.program program.now)) (view.program program.now)) }
    ensures fits { OnOk result (Fits (view.program program.now)) }
    ensures refused { IfErr result (λ e. e ≢ memory → IsLowestLimit (view.program program.now) e) }
{
    let (ranks, indices) = needed_names(alloc, seed, arena, program)?;
    assemble_named(alloc, &ranks, &indices, program)
}

/// With the names that it needs, and the indices of what its instructions name and of the members that its classes define.
fn assemble_named(
    alloc: Global,
    ranks: &Ranks<'_>,
    indices: &[usize],
    program: &Program<'_>,
) -> Result<Vec<u8>, Fault>
    requires formed { WellFormed (view.program program.now) }
    requires needed { ranks.now ≡ needed (view.program program.now) }
    requires indices { AreRanks ranks.now (named_in_code (view.program program.now) ++ defined_in (view.program program.now)) indices.now }
    ensures assembled { IfOk result (λ file. Assembled file.items (needed (view.program program.now)) (view.program program.now)) }
    ensures fits { OnOk result (Fits (view.program program.now)) }
    ensures refused { IfErr result (λ e. e ≢ memory → IsLowestLimit (view.program program.now) e) }
{
    check_limits(alloc, ranks, program)?;
    Ok(assemble_ranked(alloc, ranks, indices, program)?)
}

/// How many rows each table has.
fn counts_of(ranks: &Ranks<'_>, program: &Program<'_>) -> Rows
    requires { wide_rows ranks.now (view.program program.now) < 2 ^ 32 }
    ensures { result ≡ rows_of ranks.now (view.program program.now) }
{
    Rows {
        strings: ranks.strings().len() as u32,
        types: ranks.types().len() as u32,
        protos: ranks.protos().len() as u32,
        fields: ranks.fields().len() as u32,
        methods: ranks.methods().len() as u32,
        classes: program.classes.len() as u32,
    }
}

/// So many zeros, in the place of the header and the tables of a file, which `finish` of file_layout fills. Memory for
/// `room` bytes is requested at once.
///
/// It fails only when out of memory.
///
/// ```
/// let mut out = space(alloc, counts.tables_end(), sections.bytes().len())?; // at least the 112 bytes of the header
/// ```
pub fn space(alloc: Global, end: u32, bytes: usize) -> Result<Vec<u8>, Fault>
    ensures ok { IfOk result (λ out. out.items ≡ zeros end) }
    ensures memory { IsOkUnless result memory }
{
    let mut out = Vec::with_capacity(alloc, bytes)?;
    out.resize(end as usize, 0)?;
    Ok(out)
}

/// The data, laid after header and tables: the plan, and the offsets of the items of each part.
pub struct Data {
    pub plan: Plan,
    pub lists: Vec<u32>,
    pub codes: Vec<u32>,
    pub texts: Vec<u32>,
    pub arrays: Vec<u32>,
    pub datas: Vec<u32>,
}

// Each place where the data's places are let go is proved: here it is one call, and derived it would be five.
impl Drop for Data {
    fn drop(self) {
        let Data {
            plan: _,
            lists: _,
            codes: _,
            texts: _,
            arrays: _,
            datas: _,
        } = self;
    }
}

impl Data {
    /// The data of parts that lie one after the other, the first from this byte on, each up to its end: type lists, code items, which
    /// begin after the bytes that align them, texts, static values, class data.
    ///
    /// ```
    /// let ends = [lists_end, codes_end, texts_end, arrays_end, datas_end];
    /// let data = Data::laid(counts, tables_end, ends, lists, codes, texts, arrays, datas);
    /// ```
    pub fn laid(
        rows: Rows,
        begin: u32,
        ends: [u32; 5],
        lists: Placed,
        codes: Placed,
        texts: Placed,
        arrays: Placed,
        datas: Placed,
    ) -> Self
        requires { slice_index ends 0 + 3 < 2 ^ 32 }
        ensures { result ≡ record {
          plan = record {
            rows = rows;
            lists = record { items = lists.items; begin = begin; end = slice_index ends 0 };
            codes = record { items = codes.items; begin = slice_index ends 0 + gap 4 (slice_index ends 0); end = slice_index ends 1 };
            strings = record { items = texts.items; begin = slice_index ends 1; end = slice_index ends 2 };
            arrays = record { items = arrays.items; begin = slice_index ends 2; end = slice_index ends 3 };
            datas = record { items = datas.items; begin = slice_index ends 3; end = slice_index ends 4 };
          };
          lists = lists.places;
          codes = codes.places;
          texts = texts.places;
          arrays = arrays.places;
          datas = datas.places;
        } }
    {
        let [lists_end, codes_end, texts_end, arrays_end, datas_end] = ends;
        let padding = gap_after(lists_end as usize) as u32;
        Data {
            plan: Plan {
                rows,
                lists: part(lists.items, begin, lists_end),
                codes: part(codes.items, lists_end + padding, codes_end),
                strings: part(texts.items, codes_end, texts_end),
                arrays: part(arrays.items, texts_end, arrays_end),
                datas: part(datas.items, arrays_end, datas_end),
            },
            lists: lists.places,
            codes: codes.places,
            texts: texts.places,
            arrays: arrays.places,
            datas: datas.places,
        }
    }
}

/// A part that has so many items and lies from one byte to another.
fn part(items: u32, begin: u32, end: u32) -> Part
    ensures { result ≡ record { items = items; begin = begin; end = end } }
{
    Part { items, begin, end }
}

/// Appends the parts of the data.
fn put_data(
    alloc: Global,
    out: &mut Vec<u8>,
    ranks: &Ranks<'_>,
    indices: &[usize],
    program: &Program<'_>,
    counts: Rows,
) -> Result<Data, Fault>
    requires formed { WellFormed (view.program program.now) }
    requires needed { ranks.now ≡ needed (view.program program.now) }
    requires indices { AreRanks ranks.now (named_in_code (view.program program.now) ++ defined_in (view.program program.now)) indices.now }
    requires fits { Fits (view.program program.now) }
    requires counts { counts ≡ rows_of ranks.now (view.program program.now) }
    requires front { length out.old.items ≡ tables_end counts }
    ensures ok { IfOk result (λ d. DataIsLaid out.new.items ranks.now (view.program program.now) d.plan (places_of d)) }
    ensures memory { IsOkUnless result memory }
{
    let tables = out.len() as u32;
    let lists = put_lists(alloc, out, ranks, program)?;
    let lists_end = out.len() as u32;
    let (codes, own) = put_codes(alloc, out, ranks, indices, program)?;
    let codes_end = out.len() as u32;
    let texts = put_strings(alloc, out, ranks)?;
    let texts_end = out.len() as u32;
    let arrays = put_arrays(alloc, out, ranks, program)?;
    let arrays_end = out.len() as u32;
    let datas = put_datas(alloc, out, ranks, own, program, &codes.places)?;
    let datas_end = out.len() as u32;
    let ends = [lists_end, codes_end, texts_end, arrays_end, datas_end];
    Ok(Data::laid(counts, tables, ends, lists, codes, texts, arrays, datas))
}

/// The rows of the six tables.
fn table_rows(
    alloc: Global,
    ranks: &Ranks<'_>,
    program: &Program<'_>,
    laid: &Data,
) -> Result<Vec<u8>, Fault>
    requires needed { ranks.now ≡ needed (view.program program.now) }
    requires fits { Fits (view.program program.now) }
    requires lists { length laid.now.lists.items ≡ length ranks.now.protos + length (view.program program.now) }
    requires texts { length laid.now.texts.items ≡ length ranks.now.strings }
    requires datas { length laid.now.datas.items ≡ length (view.program program.now) }
    requires arrays { length laid.now.arrays.items ≡ length (view.program program.now) }
    ensures ok { IfOk result (λ rows. SpellsTables ranks.now (view.program program.now) (places_of laid.now) rows.items) }
    ensures memory { IsOkUnless result memory }
{
    let protos = ranks.protos().len();
    let mut rows = name_rows(alloc, ranks, &laid.texts, &laid.lists[..protos])?;
    put_classes(
        &mut rows,
        ranks,
        program.classes,
        &laid.lists[protos..],
        &laid.datas,
        &laid.arrays,
    )?;
    Ok(rows)
}

/// The file of a program within the limits.
fn assemble_ranked(
    alloc: Global,
    ranks: &Ranks<'_>,
    indices: &[usize],
    program: &Program<'_>,
) -> Result<Vec<u8>, Fault>
    requires formed { WellFormed (view.program program.now) }
    requires needed { ranks.now ≡ needed (view.program program.now) }
    requires indices { AreRanks ranks.now (named_in_code (view.program program.now) ++ defined_in (view.program program.now)) indices.now }
    requires fits { Fits (view.program program.now) }
    ensures assembled { IfOk result (λ file. Assembled file.items ranks.now (view.program program.now)) }
    ensures memory { IsOkUnless result memory }
{
    let counts = counts_of(ranks, program);
    let mut out = space(alloc, counts.tables_end(), 0)?;
    let data = put_data(alloc, &mut out, ranks, indices, program, counts)?;
    let rows = table_rows(alloc, ranks, program, &data)?;
    finish(alloc, &mut out, &data.plan, &rows)?;
    Ok(out)
}
