//! The listing of one class, cut and with each byte changed, in both forms: what `parse` answers.

use bumpalo::Bump;
use dex_base::Fault;
use dex_samples::{Case, all_hold, with_bytes};
use listing_parse::parse;
use listing_print::print;
use program_types::Program;
use std::alloc::Global;
use std::test::Fail;

const FIRST: &[u8] =
    b"dex 035\nclass LA; 0x1\nsuper Ljava/lang/Object;\ndirect m ()V 0x9\ncode 1 0 0\n0: return-void\nend code\nend class\n";

const SECOND: &[u8] =
    b"dex 035 listing 2\nclass LA; 0x1\nsuper Ljava/lang/Object;\ndirect m ()V 0x9\ncode 1 0 0\nreturn-void\nend code\nend class\n";

/// Whether what is printed of the program is read as one of which the same is printed.
fn is_read_again(alloc: Global, whole: &Program<'_>) -> Result<bool, Fault> {
    let printed = print(alloc, whole)?;
    let arena = Bump::new(alloc);
    let again = parse(alloc, &arena, &printed)?;
    Ok(print(alloc, &again)?.as_slice() == printed.as_slice())
}

/// Whether the text is read, or has a fault of a listing at one of its nine lines, or of the program at its class.
fn is_consistent(alloc: Global, text: &[u8]) -> Result<bool, Fault> {
    let arena = Bump::new(alloc);
    match parse(alloc, &arena, text) {
        Ok(whole) => is_read_again(alloc, &whole),
        Err(fault) => Ok(is_fault_of_it(&fault)),
    }
}

fn is_fault_of_it(fault: &Fault) -> bool {
    match fault.code {
        100..=106 => fault.place <= 9,
        110..=118 => fault.place == 0,
        _ => false,
    }
}

/// What is done to a text at each of its places.
#[derive(Clone, Copy)]
enum Done {
    // the byte is made this one
    Byte(u8),
    // the text is cut
    Cut,
}

/// A name for the case, the text, and what is done to it.
struct Each(&'static str, &'static [u8], Done);

impl Case for Each {
    fn name(&self) -> &'static str {
        self.0
    }

    fn holds(&self, alloc: Global) -> Result<bool, Fault> {
        for at in 0..self.1.len() {
            if !is_refused_at(alloc, self.1, at, self.2)? {
                return Ok(false);
            }
        }
        Ok(true)
    }
}

fn is_refused_at(alloc: Global, text: &[u8], at: usize, done: Done) -> Result<bool, Fault> {
    match done {
        Done::Byte(byte) => is_byte_consistent(alloc, text, at, byte),
        Done::Cut => is_cut_refused(alloc, text, at),
    }
}

fn is_byte_consistent(alloc: Global, text: &[u8], at: usize, byte: u8) -> Result<bool, Fault> {
    let changed = with_bytes(alloc, text, at, &[byte])?;
    is_consistent(alloc, &changed)
}

/// The front of the listing of the second form is read: `dex 035`, `dex 035 listing 2`, or all but the last line feed,
/// each also with what stands after it.
fn is_whole(text: &[u8], length: usize) -> bool {
    matches!(length, 7 | 8 | 17 | 18) || length.saturating_add(1) >= text.len()
}

fn is_read(alloc: Global, text: &[u8]) -> bool {
    let arena = Bump::new(alloc);
    parse(alloc, &arena, text).is_ok()
}

fn is_cut_refused(alloc: Global, text: &[u8], length: usize) -> Result<bool, Fault> {
    let (front, _) = text.split_at(length.min(text.len()));
    if is_read(alloc, front) != is_whole(text, length) {
        return Ok(false);
    }
    is_consistent(alloc, front)
}

#[rattlefmt::skip]
#[test]
fn each_changed_byte_and_each_cut_is_read_or_refused(rt: HostRuntime) -> Result<(), Fail> {
    static CASES: [Each; 13] = [
        Each("the first form, a byte made 00", FIRST, Done::Byte(0)),
        Each("a byte made a line feed", FIRST, Done::Byte(b'\n')),
        Each("a byte made a space", FIRST, Done::Byte(b' ')),
        Each("a byte made 0", FIRST, Done::Byte(b'0')),
        Each("a byte made a colon", FIRST, Done::Byte(b':')),
        Each("a byte made ff", FIRST, Done::Byte(0xff)),
        Each("the second form, a byte made 00", SECOND, Done::Byte(0)),
        Each("the second form, a byte made a line feed", SECOND, Done::Byte(b'\n')),
        Each("the second form, a byte made a space", SECOND, Done::Byte(b' ')),
        Each("the second form, a byte made 0", SECOND, Done::Byte(b'0')),
        Each("the second form, a byte made a colon", SECOND, Done::Byte(b':')),
        Each("the second form, a byte made ff", SECOND, Done::Byte(0xff)),
        Each("the second form, cut", SECOND, Done::Cut),
    ];
    all_hold(rt.alloc(), &CASES)
}
