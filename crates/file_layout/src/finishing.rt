//! The end and the front of a file whose data is written: map, header, rows, signature and checksum.
//! Page: "Dalvik Executable format", "header_item".
ghost use Rattle.std.specs.Prelude.{◌≡◌, ℕ, ◌+◌, ◌*◌, ◌++◌, ◌≤◌, ◌<◌, ◌^◌, OnOk, OnErr, IsOkUnless, length, take, drop};
ghost use Rattle.dex_base.specs.Fault.{memory};
ghost use Rattle.dex_base.specs.Words.{words_bytes};
ghost use Rattle.dex_container.specs.Frame.{IsFramed};
ghost use Rattle.file_layout.specs.inner.Plan.{tables_end, header_words, IsPlanned, table_offset};
ghost use Rattle.file_layout.specs.inner.Finished.{Finishes, IsFronted};

use crate::map_list::{entries_of, map_after};
use crate::padding::gap_after;
use crate::plan::{HEADER_SIZE, Plan, Rows};
use crate::ranges::are_words;
use dex_base::{Fault, are_bytes, put_u32_at};
use dex_container::close;
use std::alloc::Global;

// The magic of version 035: `dex`, a line feed, `035` and a zero.
const MAGIC: [u32; 2] = [0x0a78_6564, 0x0035_3330];

const ENDIAN_CONSTANT: u32 = 0x1234_5678;

/// The offset that the header has of a table: 0 where it has no row.
fn table_offset(rows: u32, begin: u32) -> u32
    ensures { result ≡ table_offset rows begin }
{
    if rows == 0 { 0 } else { begin }
}

/// The header, in numbers of four bytes. Those of checksum and signature are 0, which `close` fills in; there is no link
/// section.
fn header_words(r: Rows, map: u32, total: u32) -> [u32; 28]
    requires tables { tables_end r < 2 ^ 32 }
    requires total { tables_end r ≤ total }
    ensures { result ≡ header_words r map total }
{
    let data = r.tables_end();
    [
        MAGIC[0],
        MAGIC[1],
        // checksum
        0,
        // signature
        0,
        0,
        0,
        0,
        0,
        total,
        HEADER_SIZE,
        ENDIAN_CONSTANT,
        // link_size, link_off
        0,
        0,
        // map_off
        map,
        r.strings,
        table_offset(r.strings, HEADER_SIZE),
        r.types,
        table_offset(r.types, r.type_ids_begin()),
        r.protos,
        table_offset(r.protos, r.proto_ids_begin()),
        r.fields,
        table_offset(r.fields, r.field_ids_begin()),
        r.methods,
        table_offset(r.methods, r.method_ids_begin()),
        r.classes,
        table_offset(r.classes, r.class_defs_begin()),
        total - data,
        data,
    ]
}

/// Writes numbers of four bytes in front. All other bytes stay.
fn put_words(bytes: &mut [u8], words: &[u32])
    requires { 4 * length words.now ≤ length bytes.old }
    ensures { bytes.new ≡ words_bytes words.now ++ drop (4 * length words.now) bytes.old }
{
    for (i, word) in words.iter().enumerate() {
        put_u32_at(bytes, 4 * i, *word);
    }
}

/// Writes the rows of the tables after the header. All other bytes stay.
fn put_rows(bytes: &mut [u8], rows: &[u8])
    requires { 112 + length rows.now ≤ length bytes.old }
    ensures { bytes.new ≡ take 112 bytes.old ++ (rows.now ++ drop (112 + length rows.now) bytes.old) }
{
    let begin = HEADER_SIZE as usize;
    bytes[begin..begin + rows.len()].copy_from_slice(rows);
}

/// Writes header and rows in front, and fills in signature and checksum.
fn put_front(bytes: &mut [u8], counts: Rows, map: u32, total: u32, rows: &[u8])
    requires tables { tables_end counts < 2 ^ 32 }
    requires front { tables_end counts ≤ length bytes.old }
    requires total { total ≡ length bytes.old }
    requires rows { 112 + length rows.now ≡ tables_end counts }
    ensures { IsFronted bytes.old bytes.new counts map total rows.now }
{
    let header = header_words(counts, map, total);
    are_words(&header);
    put_words(bytes, &header);
    put_rows(bytes, rows);
    close(bytes);
    are_bytes(bytes);
}

/// Finishes a file whose data is in `out` after zeros for the header and the tables: puts the map after the data,
/// the header and the rows of the tables in front, and fills in the signature and the checksum.
///
/// `rows` has the bytes of all rows, table by table: 4 a row of `string_ids` and `type_ids`, 12 of `proto_ids`, 8 of
/// `field_ids` and `method_ids`, 32 of `class_defs`. The zeros and the map take at most 163 bytes.
///
/// It fails only when out of memory, and then nothing has changed.
pub fn finish(alloc: Global, out: &mut Vec<u8>, plan: &Plan, rows: &[u8]) -> Result<(), Fault>
    requires planned { IsPlanned plan.now }
    requires end { length out.old.items ≡ plan.now.datas.end }
    requires rows { 112 + length rows.now ≡ tables_end plan.now.rows }
    requires room { length out.old.items + 163 < 2 ^ 32 }
    ensures ok { OnOk result (Finishes out.old.items out.new.items plan.now rows.now) }
    ensures framed { OnOk result (IsFramed out.new.items) }
    ensures short { OnOk result (length out.new.items ≤ length out.old.items + 163) }
    ensures err { OnErr result (out.new.items ≡ out.old.items) }
    ensures memory { IsOkUnless result memory }
{
    let end = out.len();
    let map = (end + gap_after(end)) as u32;
    let after = map_after(alloc, end, &entries_of(plan, map))?;
    out.extend_from_slice(&after)?;
    let total = out.len() as u32;
    put_front(out, plan.rows, map, total, rows);
    Ok(())
}
