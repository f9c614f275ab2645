//! MUTF-8 strings, read and written.

use bumpalo::Bump;
use dex_base::{Fault, put_mutf8, read_mutf8};
use dex_samples::{Case, all_hold};
use std::alloc::Global;
use std::test::Fail;

/// What bytes spell.
#[derive(Clone, Copy)]
enum Way {
    // these units, which are written so, too
    Both(&'static [u16]),
    // these units at their front, so many bytes long
    Read(&'static [u16], usize),
    // no string
    Refused,
}

/// What the string is, what the bytes spell, the bytes.
struct Spelled(&'static str, Way, &'static [u8]);

impl Case for Spelled {
    fn name(&self) -> &'static str {
        self.0
    }

    fn holds(&self, alloc: Global) -> Result<bool, Fault> {
        match self.1 {
            Way::Both(units) => Ok(
                is_read_so(alloc, self.2, Some((units, self.2.len())))?
                    && is_put_so(alloc, units, self.2)?,
            ),
            Way::Read(units, length) => is_read_so(alloc, self.2, Some((units, length))),
            Way::Refused => is_read_so(alloc, self.2, None),
        }
    }
}

/// Whether these units, as many bytes long as that, stand at the front of the bytes, or no string does.
fn is_read_so(alloc: Global, bytes: &[u8], want: Option<(&[u16], usize)>) -> Result<bool, Fault> {
    let arena = Bump::new(alloc);
    Ok(match (read_mutf8(alloc, &arena, bytes)?, want) {
        (Some((units, used)), Some((want, length))) => units == want && used == length,
        (None, None) => true,
        _ => false,
    })
}

/// The string `V`, after which each is written.
static FRONT: [u8; 3] = [1, 0x56, 0];

fn is_put_so(alloc: Global, units: &[u16], want: &[u8]) -> Result<bool, Fault> {
    if units.len() > 65535 {
        return Ok(false);
    }
    let mut out = Vec::from_slice(alloc, &FRONT)?;
    put_mutf8(&mut out, units)?;
    Ok(is_after_front(&out, want))
}

fn is_after_front(out: &[u8], want: &[u8]) -> bool {
    match out {
        [1, 0x56, 0, put @ ..] => put == want,
        _ => false,
    }
}

#[rattlefmt::skip]
#[test]
fn strings_are_written_and_read_back_and_other_bytes_are_refused(rt: HostRuntime) -> Result<(), Fail> {
    static CASES: [Spelled; 25] = [
        Spelled("the empty string", Way::Both(&[]), &[0x00, 0x00]),
        Spelled("a", Way::Both(&[0x61]), &[0x01, 0x61, 0x00]),
        Spelled(
            "a supplementary code point, its two surrogates of three bytes each", Way::Both(&[0xd800, 0xdc00]),
            &[0x02, 0xed, 0xa0, 0x80, 0xed, 0xb0, 0x80, 0x00],
        ),
        Spelled("0", Way::Both(&[0]), &[0x01, 0xc0, 0x80, 0x00]),
        Spelled("a lone surrogate", Way::Both(&[0xd800]), &[0x01, 0xed, 0xa0, 0x80, 0x00]),
        Spelled("the last of one byte, the first of two", Way::Both(&[0x7f, 0x80]), &[0x02, 0x7f, 0xc2, 0x80, 0x00]),
        Spelled(
            "the last of two bytes, the first of three", Way::Both(&[0x7ff, 0x800]),
            &[0x02, 0xdf, 0xbf, 0xe0, 0xa0, 0x80, 0x00],
        ),
        Spelled("the last of three bytes", Way::Both(&[0xffff]), &[0x01, 0xef, 0xbf, 0xbf, 0x00]),
        Spelled("V, after another string", Way::Both(&[0x56]), &[1, 0x56, 0]),
        Spelled("LA;, after another string", Way::Both(&[0x4c, 0x41, 0x3b]), &[3, 0x4c, 0x41, 0x3b, 0]),
        Spelled("a long count, and a byte after the string", Way::Read(&[0x61], 4), &[0x81, 0x00, 0x61, 0x00, 0x62]),
        Spelled("nothing", Way::Refused, &[]),
        Spelled("a count above the units", Way::Refused, &[0x02, 0x61, 0x00]),
        Spelled("no end byte", Way::Refused, &[0x01, 0x61]),
        Spelled("a unit in the place of the end byte", Way::Refused, &[0x01, 0x61, 0x62]),
        Spelled("0x61 in two bytes", Way::Refused, &[0x01, 0xc1, 0xa1, 0x00]),
        Spelled("0x7ff in three bytes", Way::Refused, &[0x01, 0xe0, 0x9f, 0xbf, 0x00]),
        Spelled("0 in one byte", Way::Refused, &[0x01, 0x00, 0x00]),
        Spelled("0 in three bytes", Way::Refused, &[0x01, 0xe0, 0x80, 0x80, 0x00]),
        Spelled("four bytes", Way::Refused, &[0x02, 0xf0, 0x90, 0x80, 0x80, 0x00]),
        Spelled("a second byte alone", Way::Refused, &[0x01, 0x80, 0x00]),
        Spelled("a first byte alone", Way::Refused, &[0x01, 0xc2, 0x00]),
        Spelled("two of three bytes", Way::Refused, &[0x01, 0xe1, 0x80, 0x00]),
        Spelled("a second byte above 0xbf", Way::Refused, &[0x01, 0xc2, 0xc0, 0x00]),
        Spelled("a count far above the bytes", Way::Refused, &[0xff, 0xff, 0xff, 0xff, 0x0f, 0x61, 0x00]),
    ];
    all_hold(rt.alloc(), &CASES)
}
