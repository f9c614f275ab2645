//! Numbers at a place, and lists of them.

use dex_base::{Fault, push_words, put_u16_at, put_u32_at, u16_at, u32_at};
use dex_samples::{Case, all_hold};
use std::alloc::Global;
use std::test::Fail;

fn are_numbers_read() -> bool {
    let bytes = [0x11, 0x22, 0x33, 0x44, 0x55, 0x66];
    u16_at(&bytes, 1) == 0x3322 && u32_at(&bytes, 2) == 0x6655_4433
}

fn are_numbers_put() -> bool {
    let mut bytes = [0x11, 0x22, 0x33, 0x44, 0x55, 0x66, 0x77, 0x88];
    put_u32_at(&mut bytes, 1, 0xaabb_ccdd);
    put_u16_at(&mut bytes, 5, 0xeeff);
    bytes == [0x11, 0xdd, 0xcc, 0xbb, 0xaa, 0xff, 0xee, 0x88]
}

fn are_words_pushed_after(alloc: Global) -> Result<bool, Fault> {
    let mut out = vec![in alloc; 7u8; 1]?;
    push_words(&mut out, &[0x0403_0201, 0xffff_fffe])?;
    Ok(out.as_slice() == [7, 1, 2, 3, 4, 0xfe, 0xff, 0xff, 0xff].as_slice())
}

/// What is done with numbers.
enum Done {
    Read,
    Put,
    Pushed,
}

impl Case for Done {
    fn name(&self) -> &'static str {
        match self {
            Done::Read => "numbers stand low byte first",
            Done::Put => "numbers are put over four bytes, and over two",
            Done::Pushed => "words are pushed after what is there",
        }
    }

    fn holds(&self, alloc: Global) -> Result<bool, Fault> {
        match self {
            Done::Read => Ok(are_numbers_read()),
            Done::Put => Ok(are_numbers_put()),
            Done::Pushed => are_words_pushed_after(alloc),
        }
    }
}

#[test]
fn numbers_are_read_put_and_pushed(rt: HostRuntime) -> Result<(), Fail> {
    static CASES: [Done; 3] = [Done::Read, Done::Put, Done::Pushed];
    all_hold(rt.alloc(), &CASES)
}
