//! Where the parts of a file that is built from rows stand.

use crate::rows::Rows;

/// A part of the file, as its map names it: kind, number of items, byte offset. A part without items isn't there.
#[derive(Clone, Copy)]
pub struct Part {
    pub kind: u32,
    pub items: u32,
    pub at: u32,
}

/// Where all parts stand.
#[derive(Clone, Copy)]
pub struct Layout {
    /// The tables string_ids to class_defs.
    pub tables: [Part; 6],
    /// Type lists, code items, texts, class data.
    pub sections: [Part; 4],
    pub map: Part,
    pub arrays: Part,
    /// Where the data section begins, and where the file ends.
    pub begin: u32,
    pub end: u32,
}

/// A length as a number of four bytes: all of a test's are small.
pub fn length(len: usize) -> u32 {
    u32::try_from(len).unwrap_or(u32::MAX)
}

fn part_of(kind: u32, items: usize, at: u32) -> Part {
    Part {
        kind,
        items: length(items),
        at,
    }
}

/// The place after a table whose rows have so many bytes.
fn after(table: Part, bytes: u32) -> u32 {
    table.at.saturating_add(table.items.saturating_mul(bytes))
}

fn tables_of(rows: &Rows<'_>) -> [Part; 6] {
    let strings = part_of(1, rows.strings.len(), 112);
    let types = part_of(2, rows.types.len(), after(strings, 4));
    let protos = part_of(3, rows.protos.len(), after(types, 4));
    let fields = part_of(4, rows.fields.len(), after(protos, 12));
    let methods = part_of(5, rows.methods.len(), after(fields, 8));
    let classes = part_of(6, rows.classes.len(), after(methods, 8));
    [strings, types, protos, fields, methods, classes]
}

/// A section of bytes is one item, or isn't there.
fn items_of(bytes: &[u8]) -> usize {
    bytes.len().min(1)
}

/// How many bytes a type_list of so many types has, with the zeros after it.
fn list_bytes(list: &[u16]) -> u32 {
    let types = length(list.len());
    let pairs = types / 2 + types % 2;
    pairs.saturating_mul(4).saturating_add(4)
}

/// Where the list of this number stands, among lists that begin at a place.
pub fn list_at(lists: &[&[u16]], number: usize, begin: u32) -> u32 {
    let mut at = begin;
    for list in lists.iter().take(number) {
        at = at.saturating_add(list_bytes(list));
    }
    at
}

/// The place after texts that begin at a place.
fn after_texts(texts: &[&[u8]], begin: u32) -> u32 {
    let mut at = begin;
    for text in texts {
        at = at.saturating_add(length(text.len()));
    }
    at
}

fn sections_of(rows: &Rows<'_>, begin: u32) -> [Part; 4] {
    let lists = part_of(0x1001, rows.lists.len(), begin);
    let codes_at = list_at(rows.lists, rows.lists.len(), begin);
    let codes = part_of(0x2001, items_of(rows.codes), codes_at);
    let texts_at = codes_at.saturating_add(length(rows.codes.len()));
    let texts = part_of(0x2002, rows.strings.len(), texts_at);
    let class_data_at = after_texts(rows.strings, texts_at);
    let class_data = part_of(0x2000, items_of(rows.class_data), class_data_at);
    [lists, codes, texts, class_data]
}

/// How many of the parts are there.
pub fn present(parts: &[Part]) -> u32 {
    let mut count = 0u32;
    for part in parts {
        if part.items > 0 {
            count = count.saturating_add(1);
        }
    }
    count
}

/// The next place that is a multiple of 4.
fn aligned(at: u32) -> u32 {
    at.saturating_add(3) / 4 * 4
}

/// Where the parts of the file of these rows stand.
pub fn layout_of(rows: &Rows<'_>) -> Layout {
    let tables = tables_of(rows);
    let begin = after(tables[5], 32);
    let sections = sections_of(rows, begin);
    let data_end = sections[3].at.saturating_add(length(rows.class_data.len()));
    let map = part_of(0x1000, 1, aligned(data_end));
    // the entries of header and map, and those of the other parts
    let others = present(&tables).saturating_add(present(&sections));
    let entries = others
        .saturating_add(2)
        .saturating_add(length(items_of(rows.arrays)));
    let arrays_at = map
        .at
        .saturating_add(4)
        .saturating_add(entries.saturating_mul(12));
    Layout {
        tables,
        sections,
        map,
        arrays: part_of(0x2005, items_of(rows.arrays), arrays_at),
        begin,
        end: arrays_at.saturating_add(length(rows.arrays.len())),
    }
}
