//! Files with some bytes changed.

use dex_base::Fault;
use dex_container::close;
use std::alloc::Global;

/// The number of no fault: bytes that don't fit at their place.
pub const MISPLACED: u16 = u16::MAX;

/// The file with these bytes at a place, as it is otherwise, also its checksum and its signature.
pub fn with_bytes(alloc: Global, file: &[u8], at: usize, bytes: &[u8]) -> Result<Vec<u8>, Fault> {
    let mut changed = Vec::from_slice(alloc, file)?;
    if !put_bytes(&mut changed, at, bytes) {
        return Err(Fault {
            code: MISPLACED,
            place: at as u64,
        });
    }
    Ok(changed)
}

/// Puts these bytes at a place, and tells whether they fit there. Where they don't, nothing is changed.
pub fn put_bytes(file: &mut [u8], at: usize, bytes: &[u8]) -> bool {
    let fits = at <= file.len() && bytes.len() <= file.len() - at;
    if fits {
        file[at..at + bytes.len()].copy_from_slice(bytes);
    }
    fits
}

/// The file with these bytes at a place, closed again.
pub fn closed_with(alloc: Global, file: &[u8], at: usize, bytes: &[u8]) -> Result<Vec<u8>, Fault> {
    Ok(closed(with_bytes(alloc, file, at, bytes)?))
}

/// The file with its checksum and its signature, if it has a header.
pub fn closed(mut file: Vec<u8>) -> Vec<u8> {
    close_file(&mut file);
    file
}

/// Fills in the checksum and the signature of a file, if it has a header.
pub fn close_file(file: &mut [u8]) {
    if file.len() >= 112 {
        close(file);
    }
}
