//! The heap of the C library, made ready for a job.

use dexasm_world::Job;
use std::alloc::Global;

/// Bytes of the largest block that comes from the heap: 4 MiB less two pages. A larger one is mapped, so that its memory goes back to the
/// system when it is freed: a listing is, before its file is written.
const LARGEST: usize = 4_186_112;

/// Lets the C library keep freed memory for `assemble`, which frees and requests blocks of some hundred KiB again and again. glibc maps a
/// block from 128 KiB on by itself and gives it back when it is freed, so that each of its pages costs a fault again; once it has freed a
/// mapped block of some size, blocks up to that size come from the heap. Without memory for the block nothing is changed.
pub(crate) fn prepare(alloc: Global, job: Job) {
    if let Job::Assemble { align: _ } = job {
        if let Ok(mut block) = Vec::with_capacity(alloc, LARGEST) {
            touch(&mut block);
        }
    }
}

/// Writes one byte. A block that is never used would not be allocated: a call that isn't inlined uses it.
#[inline(never)]
fn touch(block: &mut Vec<u8>) {
    let _ = block.push(0);
}
