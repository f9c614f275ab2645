//! Items of several uses, which are looked at as each use asks.

use crate::left::Left;
use crate::left::Made::{OneArray, OneList, TwoItems};
use crate::left::Want::{OneItem, Read};
use dex_base::fault;
use dex_samples::all_hold;
use std::test::Fail;

#[rattlefmt::skip]
#[test]
fn items_of_several_uses_are_checked_as_each_use_requires(rt: HostRuntime) -> Result<(), Fail> {
    static CASES: [Left; 7] = [
        Left("two equal bodies", TwoItems(&[]), OneItem(412)),
        Left("a broken body that nothing uses", TwoItems(&[(0xe2, &[2]), (0x11e, &[0xcc])]), OneItem(412)),
        // Ins past the registers of the first body, which are looked at last; a misplaced second body, which is
        // an earlier group's fault; then the first body for both methods.
        Left("ins past the registers", TwoItems(&[(0xce, &[2])]), Read((fault::REGISTER, 204))),
        Left("and a misplaced body", TwoItems(&[(0xce, &[2]), (0x11e, &[0xe1])]), Read((fault::CODE_PLACE, 225))),
        Left("one body twice", TwoItems(&[(0xce, &[2]), (0x11e, &[0xcc])]), Read((fault::REGISTER, 204))),
        Left("an array that is too long for a later class", OneArray, Read((fault::TOO_MANY_VALUES, 200))),
        Left("parameters that are no interfaces", OneList, Read((fault::INTERFACE_LIST, 152))),
    ];
    all_hold(rt.alloc(), &CASES)
}
