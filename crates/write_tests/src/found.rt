//! What is found in a file.

use bumpalo::Bump;
use dex_base::u32_at;
use dex_samples::{ONE_CLASS, length};
use file_read::read;
use std::alloc::Global;

/// The fault of reading a file, 0 at 0 where it is read.
pub fn fault_of_read(alloc: Global, file: &[u8]) -> (u16, u64) {
    let arena = Bump::new(alloc);
    match read(alloc, &arena, file) {
        Ok(_) => (0, 0),
        Err(fault) => (fault.code, fault.place),
    }
}

/// How many classes are read of a file, none where it is refused.
pub fn classes_of(alloc: Global, file: &[u8]) -> usize {
    let arena = Bump::new(alloc);
    match read(alloc, &arena, file) {
        Ok(program) => program.classes.len(),
        Err(_) => 0,
    }
}

/// Whether these bytes stand at a place.
pub fn has_bytes(file: &[u8], at: usize, bytes: &[u8]) -> bool {
    at <= file.len() && bytes.len() <= file.len() - at && &file[at..at + bytes.len()] == bytes
}

/// The word at a place of a file, 0 where the file ends before.
fn word_at(file: &[u8], at: usize) -> u32 {
    if at > file.len() || file.len() - at < 4 {
        return 0;
    }
    u32_at(file, at)
}

/// Whether each of these words stands at its place.
pub fn has_words(file: &[u8], words: &[(usize, u32)]) -> bool {
    for (at, word) in words {
        if word_at(file, *at) != *word {
            return false;
        }
    }
    true
}

/// Whether these bytes stand so far after the begin of the file's data.
pub fn stands_after(file: &[u8], after: usize, bytes: &[u8]) -> bool {
    has_bytes(
        file,
        (word_at(file, 108) as usize).saturating_add(after),
        bytes,
    )
}

/// Whether the file's data begin with a code item of two registers, so many tries, these units, and these bytes after
/// them.
pub fn begins_with_item(file: &[u8], tries: u8, units: &[u8], after: &[u8]) -> bool {
    stands_after(file, 0, &[2, 0, 0, 0, 0, 0, tries, 0, 0, 0, 0, 0])
        && stands_after(file, 12, &length(units.len() / 2).to_le_bytes())
        && stands_after(file, 16, units)
        && stands_after(file, units.len().saturating_add(16), after)
}

/// The class data of two methods of one body, which has its code item at 204.
static ONE_CODE: [u8; 12] = [
    0x00, 0x00, 0x02, 0x00, 0x00, 0x09, 0xcc, 0x01, 0x01, 0x09, 0xcc, 0x01,
];

/// Whether two equal bodies share one item: 392 bytes, strings from 222, class data at 256, the map at 268 with one
/// code item.
pub fn is_one_item(file: &[u8]) -> bool {
    static WORDS: [(usize, u32); 4] = [
        (52, 268),
        (112, 222),
        (268 + 4 + 12 * 6, 0x2001),
        (268 + 8 + 12 * 6, 1),
    ];
    file.len() == 392
        && has_words(file, &WORDS)
        && has_bytes(file, 204, &ONE_CLASS[192..210])
        && has_bytes(file, 256, &ONE_CODE)
}

/// How many items of a kind the map has, which is last in the file and has at most 16 entries; 0 where it doesn't name
/// the kind.
pub fn items_of(file: &[u8], kind: u32) -> u32 {
    let map = word_at(file, 52) as usize;
    for i in 0..16usize {
        let entry = map.saturating_add(4 + 12 * i);
        if word_at(file, entry) == kind {
            return word_at(file, entry.saturating_add(4));
        }
    }
    0
}
