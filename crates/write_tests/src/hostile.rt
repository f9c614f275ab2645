//! The file of one class with each byte changed: what `write` answers to the program that is read of it.

use bumpalo::Bump;
use dex_base::Fault;
use dex_samples::{Case, ONE_CLASS, all_hold, closed_with};
use file_read::{check, read};
use file_write::{strip, write};
use std::alloc::Global;
use std::test::Fail;

/// The file of the program that the bytes mean.
fn written(alloc: Global, file: &[u8]) -> Result<Vec<u8>, Fault> {
    let arena = Bump::new(alloc);
    let program = read(alloc, &arena, file)?;
    write(alloc, &program)
}

/// Whether `strip` gives these bytes, and they are a file.
fn is_left(alloc: Global, file: &[u8], made: &[u8]) -> bool {
    match strip(alloc, file) {
        Ok(left) => left.as_slice() == made && check(alloc, made).is_ok(),
        Err(_) => false,
    }
}

fn is_refused(alloc: Global, file: &[u8], fault: Fault) -> bool {
    match strip(alloc, file) {
        Ok(_) => false,
        Err(found) => found.code == fault.code && found.place == fault.place,
    }
}

fn is_answered_alike(alloc: Global, file: &[u8]) -> bool {
    match written(alloc, file) {
        Ok(made) => is_left(alloc, file, &made),
        Err(fault) => is_refused(alloc, file, fault),
    }
}

/// Whether the file with one byte changed is written as it is stripped, or refused as it is read.
fn is_well_written(alloc: Global, at: usize, byte: u8) -> Result<bool, Fault> {
    let file = closed_with(alloc, &ONE_CLASS, at, &[byte])?;
    Ok(is_answered_alike(alloc, &file))
}

/// A name for the case, and what each byte of the file in turn is made.
struct Each(&'static str, u8);

impl Case for Each {
    fn name(&self) -> &'static str {
        self.0
    }

    fn holds(&self, alloc: Global) -> Result<bool, Fault> {
        for at in 32..376 {
            if !is_well_written(alloc, at, self.1)? {
                return Ok(false);
            }
        }
        Ok(true)
    }
}

#[test]
fn each_byte_changed_is_written_as_it_is_stripped(rt: HostRuntime) -> Result<(), Fail> {
    static CASES: [Each; 4] = [
        Each("a byte made 00", 0),
        Each("a byte made 7f", 0x7f),
        Each("a byte made 80", 0x80),
        Each("a byte made ff", 0xff),
    ];
    all_hold(rt.alloc(), &CASES)
}
