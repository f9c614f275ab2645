//! Files with slack, and what is left of them.

use crate::left::Left;
use crate::left::Made::{Code, EmptyList, One, Spare, Tries};
use crate::left::Want::{Item, OneClass, Refused, Tried};
use dex_base::fault;
use dex_samples::{ALL_TO_0, all_hold};
use std::test::Fail;

#[rattlefmt::skip]
#[test]
fn slack_is_left_out(rt: HostRuntime) -> Result<(), Fail> {
    static CASES: [Left; 7] = [
        Left("a string that nothing uses, and debugging information", Spare(6), OneClass),
        Left("a list of no type", EmptyList, OneClass),
        Left("link_off", One(48, &[0xff; 4]), OneClass),
        Left("the offset of a table without rows", One(84, &[0xff; 4]), OneClass),
        Left("annotations_off of the class", One(180, &[0xff; 4]), OneClass),
        Left("debug_info_off of the code item", One(200, &[0xff; 4]), OneClass),
        Left("a broken string that nothing uses", Spare(7), Refused((fault::STRING_SPELLING, 128))),
    ];
    all_hold(rt.alloc(), &CASES)
}

#[rattlefmt::skip]
#[test]
fn items_are_written_as_they_were_and_without_slack(rt: HostRuntime) -> Result<(), Fail> {
    static CASES: [Left; 13] = [
        // Where a code has indices, all rows before theirs are needed, so that each index stays what it is.
        Left("const/4", Code(&[0x12, 0xf0]), Item(&[0x12, 0xf0])),
        Left("goto/32 to itself", Code(&[0x2a, 0, 0, 0, 0, 0]), Item(&[0x2a, 0, 0, 0, 0, 0])),
        Left("goto -1", Code(&[0x0e, 0, 0x28, 0xff]), Item(&[0x0e, 0, 0x28, 0xff])),
        Left(
            "names",
            Code(&[0x1a, 0, 4, 0, 0x22, 0, 1, 0, 0x60, 0, 0, 0, 0x71, 0, 0, 0, 0, 0, 0x1b, 0, 3, 0, 0, 0]),
            Item(&[0x1a, 0, 4, 0, 0x22, 0, 1, 0, 0x60, 0, 0, 0, 0x71, 0, 0, 0, 0, 0, 0x1b, 0, 3, 0, 0, 0]),
        ),
        Left(
            "a packed switch",
            Code(&[0x2b, 0, 4, 0, 0, 0, 0, 0, 0, 1, 2, 0, 7, 0, 0, 0, 0, 0, 0, 0, 3, 0, 0, 0]),
            Item(&[0x2b, 0, 4, 0, 0, 0, 0, 0, 0, 1, 2, 0, 7, 0, 0, 0, 0, 0, 0, 0, 3, 0, 0, 0]),
        ),
        Left(
            "a sparse switch",
            Code(&[0x2c, 0, 4, 0, 0, 0, 0, 0, 0, 2, 2, 0, 0xff, 0xff, 0xff, 0xff, 7, 0, 0, 0, 3, 0, 0, 0, 0, 0, 0, 0]),
            Item(&[0x2c, 0, 4, 0, 0, 0, 0, 0, 0, 2, 2, 0, 0xff, 0xff, 0xff, 0xff, 7, 0, 0, 0, 3, 0, 0, 0, 0, 0, 0, 0]),
        ),
        Left(
            "an array", Code(&[0x26, 0, 4, 0, 0, 0, 0, 0, 0, 3, 1, 0, 3, 0, 0, 0, 1, 2, 3, 0]),
            Item(&[0x26, 0, 4, 0, 0, 0, 0, 0, 0, 3, 1, 0, 3, 0, 0, 0, 1, 2, 3, 0]),
        ),
        Left(
            "a try of all units",
            Tries(&[0x18, 0, 0, 0, 0, 0, 0, 0, 0, 0, 0x0e, 0], &[(0, 5, 1)], ALL_TO_0),
            Tried(&[0x18, 0, 0, 0, 0, 0, 0, 0, 0, 0, 0x0e, 0], &[(0, 5, 1)], ALL_TO_0),
        ),
        Left(
            "three tries of two handlers, and padding",
            Tries(&[0x0e, 0, 0x0e, 0, 0x0e, 0], &[(0, 1, 1), (1, 1, 5), (2, 1, 1)], &[2, 0x7f, 1, 2, 1, 1, 0, 2]),
            Tried(&[0x0e, 0, 0x0e, 0, 0x0e, 0], &[(0, 1, 1), (1, 1, 5), (2, 1, 1)], &[2, 0x7f, 1, 2, 1, 1, 0, 2]),
        ),
        Left(
            "a try that covers the first unit of an instruction of five",
            Tries(&[0x18, 0, 0, 0, 0, 0, 0, 0, 0, 0, 0x0e, 0], &[(0, 1, 1)], ALL_TO_0),
            Tried(&[0x18, 0, 0, 0, 0, 0, 0, 0, 0, 0, 0x0e, 0], &[(0, 5, 1)], ALL_TO_0),
        ),
        Left(
            "a count and an address in two bytes each",
            Tries(&[0x0e, 0, 0x0e, 0], &[(0, 1, 2)], &[0x81, 0, 0, 0x81, 0]),
            Tried(&[0x0e, 0, 0x0e, 0], &[(0, 1, 1)], &[1, 0, 1]),
        ),
        Left(
            "a handler that no try has", Tries(&[0x0e, 0, 0x0e, 0], &[(0, 1, 3)], &[2, 0, 0, 0, 1]),
            Tried(&[0x0e, 0, 0x0e, 0], &[(0, 1, 1)], &[1, 0, 1]),
        ),
        Left(
            "one handler twice",
            Tries(&[0x0e, 0, 0x0e, 0], &[(0, 1, 1), (1, 1, 3)], &[2, 0, 1, 0, 1]),
            Tried(&[0x0e, 0, 0x0e, 0], &[(0, 1, 1), (1, 1, 1)], &[1, 0, 1]),
        ),
    ];
    all_hold(rt.alloc(), &CASES)
}
