//! Adler-32 of known texts.

use dex_base::{Fault, adler32};
use dex_samples::{Case, all_hold};
use std::alloc::Global;
use std::test::Fail;

#[derive(Clone, Copy)]
enum Text {
    Given(&'static [u8]),
    // this byte, so many times
    Same(u8, usize),
}

/// What the text is, the text, its checksum.
struct Summed(&'static str, Text, u32);

impl Case for Summed {
    fn name(&self) -> &'static str {
        self.0
    }

    fn holds(&self, alloc: Global) -> Result<bool, Fault> {
        match self.1 {
            Text::Given(text) => Ok(adler32(text) == self.2),
            Text::Same(byte, times) => is_summed_so(alloc, byte, times, self.2),
        }
    }
}

fn is_summed_so(alloc: Global, byte: u8, times: usize, want: u32) -> Result<bool, Fault> {
    let text = vec![in alloc; byte; times]?;
    Ok(adler32(&text) == want)
}

#[rattlefmt::skip]
#[test]
fn texts_have_their_checksums(rt: HostRuntime) -> Result<(), Fail> {
    static CASES: [Summed; 4] = [
        Summed("nothing", Text::Given(b""), 0x0000_0001),
        Summed("abc", Text::Given(b"abc"), 0x024d_0127),
        Summed("Wikipedia", Text::Given(b"Wikipedia"), 0x11e6_0398),
        Summed("byte ff 10,000 times, past the modulus", Text::Same(0xff, 10_000), 0xb623_eb2b),
    ];
    all_hold(rt.alloc(), &CASES)
}
