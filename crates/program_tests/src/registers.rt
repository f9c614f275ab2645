//! The greatest register that an instruction names.

use dex_base::Fault;
use dex_insn::{read_insn, top_register};
use dex_samples::{Case, all_hold};
use std::alloc::Global;
use std::test::Fail;

/// What the instruction is, its units, and the register.
struct Top(&'static str, &'static [u8], Option<u32>);

impl Case for Top {
    fn name(&self) -> &'static str {
        self.0
    }

    fn holds(&self, _alloc: Global) -> Result<bool, Fault> {
        Ok(match read_insn(self.1, 0) {
            Ok(insn) => top_register(&insn) == self.2,
            Err(_) => false,
        })
    }
}

#[rattlefmt::skip]
#[test]
fn the_greatest_register_is_returned(rt: HostRuntime) -> Result<(), Fail> {
    static CASES: [Top; 18] = [
        Top("return-void", &[0x0e, 0], None),
        Top("goto", &[0x28, 0x7f], None),
        Top("move v3 v5", &[0x01, 0x53], Some(5)),
        Top("move v5 v3", &[0x01, 0x35], Some(5)),
        Top("const/4 v2 -1", &[0x12, 0xf2], Some(2)),
        Top("move/from16 v255 v256", &[0x02, 0xff, 0, 1], Some(256)),
        Top("add-int v1 v2 v255", &[0x90, 1, 2, 255], Some(255)),
        Top("add-int/lit8 v1 v2 127", &[0xd8, 1, 2, 127], Some(2)),
        Top("move/16 v65535 v0", &[0x03, 0, 0xff, 0xff, 0, 0], Some(65535)),
        Top("invoke-static { }", &[0x71, 0x00, 0, 0, 0x21, 0x43], None),
        Top("invoke-static { v1 }", &[0x71, 0x10, 0, 0, 0x21, 0x43], Some(1)),
        Top("invoke-static of five", &[0x71, 0x5f, 0, 0, 0x21, 0x43], Some(15)),
        Top("invoke-static of four", &[0x71, 0x4f, 0, 0, 0x21, 0x43], Some(4)),
        Top("invoke-static/range of none", &[0x77, 0, 0, 0, 0xff, 0xff], None),
        Top("invoke-static/range v7 1", &[0x77, 1, 0, 0, 7, 0], Some(7)),
        Top("past 65535", &[0x77, 255, 0, 0, 0xff, 0xff], Some(65789)),
        Top("const-wide v9", &[0x18, 9, 0, 0, 0, 0, 0, 0, 0, 0], Some(9)),
        Top("array data", &[0, 3, 1, 0, 2, 0, 0, 0, 0xff, 0xff], None),
    ];
    all_hold(rt.alloc(), &CASES)
}
