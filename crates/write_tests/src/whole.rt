//! Whole files of programs built by hand.

use crate::left::Left;
use crate::left::Made::Written;
use crate::left::Want::{Classes, Ends, IsOne, IsWithout, Items, OneItem, Placed};
use crate::small::{ONE, TWO, WITH_BODIES, WITH_LISTS, WITH_PARAMETER, WITH_VALUES};
use dex_samples::all_hold;
use std::test::Fail;

#[rattlefmt::skip]
#[test]
fn programs_built_by_hand_are_written(rt: HostRuntime) -> Result<(), Fail> {
    static CASES: [Left; 4] = [
        Left("no class", Written(&[]), IsWithout),
        Left("a class built by hand", Written(&[ONE]), IsOne),
        // The list of the one parameter stands from 204 to 210, after it two zeros and the code item. The map
        // stands at 276: its seventh entry names the list, its eighth, from 364 to 376, the code item; the
        // class data names it too, at 212.
        Left(
            "the first code item after zeros", Written(&[WITH_PARAMETER]),
            Placed(&[(52, 276), (360, 204), (364, 0x2001), (368, 1), (372, 212)], 268, &[0, 0, 1, 0, 0, 9, 0xd4, 1]),
        ),
        Left(".. and the file ends with the map", Written(&[WITH_PARAMETER]), Ends(412)),
    ];
    all_hold(rt.alloc(), &CASES)
}

#[rattlefmt::skip]
#[test]
fn programs_that_are_written_are_read_again(rt: HostRuntime) -> Result<(), Fail> {
    static CASES: [Left; 3] = [
        Left("no class, read again", Written(&[]), Classes(0)),
        Left("one method, read again", Written(&[ONE]), Classes(1)),
        Left("two methods, read again", Written(&[TWO]), Classes(1)),
    ];
    all_hold(rt.alloc(), &CASES)
}

#[rattlefmt::skip]
#[test]
fn items_of_equal_content_stand_once(rt: HostRuntime) -> Result<(), Fail> {
    static CASES: [Left; 4] = [
        Left("bodies of one class", Written(&[TWO]), OneItem(392)),
        Left("type lists", Written(WITH_LISTS), Items(0x1001, 1)),
        Left("bodies", Written(WITH_BODIES), Items(0x2001, 1)),
        Left("static values", Written(WITH_VALUES), Items(0x2005, 2)),
    ];
    all_hold(rt.alloc(), &CASES)
}
