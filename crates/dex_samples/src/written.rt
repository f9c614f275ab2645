//! Files from rows.

use crate::edits::closed;
use crate::layout::{Layout, Part, layout_of, length, list_at, present};
use crate::rows::Rows;
use dex_base::{Fault, push_words};
use std::alloc::Global;

/// The file of these rows, with its checksum and its signature. Fails only when out of memory.
pub fn file_of(alloc: Global, rows: &Rows<'_>) -> Result<Vec<u8>, Fault> {
    let mut file = Vec::new(alloc);
    put_file(&mut file, rows, &layout_of(rows))?;
    Ok(closed(file))
}

fn put_file(file: &mut Vec<u8>, rows: &Rows<'_>, layout: &Layout) -> Result<(), Fault> {
    put_header(file, layout)?;
    put_tables(file, rows, layout)?;
    put_data(file, rows)?;
    put_map(file, layout)?;
    file.extend_from_slice(rows.arrays)?;
    Ok(())
}

/// Checksum and signature are zeros as yet.
fn put_header(file: &mut Vec<u8>, layout: &Layout) -> Result<(), Fault> {
    file.extend_from_slice(b"dex\n035\0")?;
    file.extend_from_slice(&[0; 24])?;
    // file_size, header_size, endian_tag, no link section, map_off
    push_words(file, &[layout.end, 112, 0x12345678, 0, 0, layout.map.at])?;
    put_table_places(file, &layout.tables)?;
    // data_size, data_off
    push_words(
        file,
        &[layout.end.saturating_sub(layout.begin), layout.begin],
    )
}

/// A table without rows has the offset 0.
fn put_table_places(file: &mut Vec<u8>, tables: &[Part]) -> Result<(), Fault> {
    for table in tables {
        let at = if table.items == 0 { 0 } else { table.at };
        push_words(file, &[table.items, at])?;
    }
    Ok(())
}

fn put_tables(file: &mut Vec<u8>, rows: &Rows<'_>, layout: &Layout) -> Result<(), Fault> {
    put_string_ids(file, rows.strings, layout.sections[2].at)?;
    push_words(file, rows.types)?;
    put_proto_ids(file, rows, layout.begin)?;
    put_members(file, rows.fields)?;
    put_members(file, rows.methods)?;
    put_class_defs(file, rows.classes)
}

/// The texts stand one after another.
fn put_string_ids(file: &mut Vec<u8>, texts: &[&[u8]], begin: u32) -> Result<(), Fault> {
    let mut at = begin;
    for text in texts {
        push_words(file, &[at])?;
        at = at.saturating_add(length(text.len()));
    }
    Ok(())
}

/// The lists begin at a place.
fn put_proto_ids(file: &mut Vec<u8>, rows: &Rows<'_>, begin: u32) -> Result<(), Fault> {
    for (shorty, ret, params) in rows.protos {
        let params = match params {
            Some(number) => list_at(rows.lists, *number, begin),
            None => 0,
        };
        push_words(file, &[*shorty, *ret, params])?;
    }
    Ok(())
}

fn put_members(file: &mut Vec<u8>, rows: &[(u16, u16, u32)]) -> Result<(), Fault> {
    for (class, kind, name) in rows {
        file.extend_from_slice(&class.to_le_bytes())?;
        file.extend_from_slice(&kind.to_le_bytes())?;
        push_words(file, &[*name])?;
    }
    Ok(())
}

fn put_class_defs(file: &mut Vec<u8>, rows: &[[u32; 8]]) -> Result<(), Fault> {
    for row in rows {
        push_words(file, row)?;
    }
    Ok(())
}

/// Type lists, code items, texts, class data.
fn put_data(file: &mut Vec<u8>, rows: &Rows<'_>) -> Result<(), Fault> {
    for list in rows.lists {
        put_list(file, list)?;
    }
    file.extend_from_slice(rows.codes)?;
    for text in rows.strings {
        file.extend_from_slice(text)?;
    }
    file.extend_from_slice(rows.class_data)?;
    pad(file)
}

fn put_list(file: &mut Vec<u8>, list: &[u16]) -> Result<(), Fault> {
    push_words(file, &[length(list.len())])?;
    for ty in list {
        file.extend_from_slice(&ty.to_le_bytes())?;
    }
    pad(file)
}

fn put_map(file: &mut Vec<u8>, layout: &Layout) -> Result<(), Fault> {
    let header = Part {
        kind: 0,
        items: 1,
        at: 0,
    };
    let ends = [header, layout.map, layout.arrays];
    let others = present(&layout.tables).saturating_add(present(&layout.sections));
    push_words(file, &[others.saturating_add(present(&ends))])?;
    put_entries(file, &[header])?;
    put_entries(file, &layout.tables)?;
    put_entries(file, &layout.sections)?;
    put_entries(file, &[layout.map, layout.arrays])
}

fn put_entries(file: &mut Vec<u8>, parts: &[Part]) -> Result<(), Fault> {
    for part in parts {
        if part.items > 0 {
            push_words(file, &[part.kind, part.items, part.at])?;
        }
    }
    Ok(())
}

/// Zeros to the next multiple of 4.
fn pad(file: &mut Vec<u8>) -> Result<(), Fault> {
    let zeros: &[u8] = match file.len() % 4 {
        0 => &[],
        1 => &[0; 3],
        2 => &[0; 2],
        _ => &[0],
    };
    file.extend_from_slice(zeros)?;
    Ok(())
}
