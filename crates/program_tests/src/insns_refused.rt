//! Units that are no instruction, and which of two broken rules is told.

use dex_base::Fault;
use dex_insn::read_insn;
use dex_samples::{Case, all_hold};
use std::alloc::Global;
use std::test::Fail;

/// What is wrong, the units, where the instruction stands, the number of the fault.
struct Refused(&'static str, &'static [u8], u32, u16);

impl Case for Refused {
    fn name(&self) -> &'static str {
        self.0
    }

    fn holds(&self, _alloc: Global) -> Result<bool, Fault> {
        Ok(match read_insn(self.1, self.2) {
            Ok(_) => false,
            Err(fault) => fault.code == self.3 && fault.place == u64::from(self.2),
        })
    }
}

#[rattlefmt::skip]
#[test]
fn broken_rules_are_refused_by_the_first_in_the_order_of_the_checks(rt: HostRuntime) -> Result<(), Fail> {
    static CASES: [Refused; 27] = [
        Refused("opcode 3e is unused", &[0x3e, 0x00], 0, 62),
        Refused("opcode ff is unused", &[0x00, 0x00, 0xff, 0xff], 1, 62),
        Refused("no units", &[], 0, 63),
        Refused("at the number of units", &[0x0e, 0x00], 1, 63),
        Refused("a single last byte is no unit", &[0x0e, 0x00, 0x0e], 1, 63),
        Refused("a single byte is no unit, also where no opcode begins with it", &[0x3e], 0, 63),
        Refused("far past the units", &[0x0e, 0x00], u32::MAX, 63),
        Refused("return-void with its zero byte set", &[0x0e, 0x01], 0, 64),
        Refused("goto/16 with its zero byte set", &[0x29, 0x01, 0x01, 0x00], 0, 64),
        Refused("low byte 00 under 04 is a nop with its zero byte set", &[0x00, 0x04], 0, 64),
        Refused("goto/16 of one unit", &[0x29, 0x01], 0, 63),
        Refused("invoke-virtual of one unit", &[0x6e, 0x60], 0, 63),
        Refused("six registers", &[0x6e, 0x60, 0x00, 0x00, 0x00, 0x00], 0, 66),
        Refused("a packed payload's identifier alone", &[0x00, 0x01], 0, 63),
        Refused("a payload at an odd unit", &[0x00, 0x00, 0x00, 0x01], 1, 67),
        Refused("half the head of an array payload", &[0x00, 0x03, 0x03, 0x00], 0, 63),
        Refused("an array payload of width 3", &[0x00, 0x03, 0x03, 0x00, 0x00, 0x00, 0x00, 0x00], 0, 67),
        Refused(
            "an array payload of 4294967295 elements of 8 bytes", &[0x00, 0x03, 0x08, 0x00, 0xff, 0xff, 0xff, 0xff],
            0, 63,
        ),
        Refused("equal keys", &[0x00, 0x02, 2, 0, 5, 0, 0, 0, 5, 0, 0, 0, 1, 0, 0, 0, 1, 0, 0, 0], 0, 67),
        // The first broken rule in the order of the checks is told.
        Refused("cut before a zero byte", &[0x2a, 0x01, 0x00, 0x00], 0, 63),
        Refused("cut before the register count", &[0x6e, 0x60, 0x00, 0x00], 0, 63),
        Refused("odd unit before the head", &[0x00, 0x00, 0x00, 0x03], 1, 67),
        Refused("odd unit before the length", &[0x00, 0x00, 0x00, 0x02, 0xff, 0xff], 1, 67),
        Refused("head before the width", &[0x00, 0x03, 0x03, 0x00, 0xff, 0xff], 0, 63),
        Refused("width before the length", &[0x00, 0x03, 0x03, 0x00, 0xff, 0xff, 0xff, 0xff], 0, 67),
        Refused("length before the keys", &[0x00, 0x02, 2, 0, 5, 0, 0, 0, 5, 0, 0, 0, 1, 0, 0, 0], 0, 63),
        Refused("keys last", &[0x00, 0x02, 2, 0, 5, 0, 0, 0, 4, 0, 0, 0, 1, 0, 0, 0, 1, 0, 0, 0], 0, 67),
    ];
    all_hold(rt.alloc(), &CASES)
}
