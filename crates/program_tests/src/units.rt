//! Strings of UTF-16 units: their order, and which are names of members.

use dex_base::{Fault, cmp_units, is_member_name};
use dex_samples::{Case, all_hold};
use std::alloc::Global;
use std::cmp::Ordering;
use std::test::Fail;

/// What is asked of strings.
#[derive(Clone, Copy)]
enum Query {
    // how the first one stands to the second
    Order(&'static [u16], &'static [u16], Ordering),
    // whether it is the name of a member
    IsName(&'static [u16], bool),
}

/// A name for the case, and what is asked.
struct NamedCase(&'static str, Query);

impl Case for NamedCase {
    fn name(&self) -> &'static str {
        self.0
    }

    fn holds(&self, _alloc: Global) -> Result<bool, Fault> {
        Ok(match self.1 {
            Query::Order(one, other, want) => cmp_units(one, other) == want,
            Query::IsName(units, want) => is_member_name(units) == want,
        })
    }
}

#[rattlefmt::skip]
#[test]
fn strings_are_in_the_order_of_their_units_and_member_names_are_recognized(rt: HostRuntime) -> Result<(), Fail> {
    static CASES: [NamedCase; 35] = [
        NamedCase("0 before a", Query::Order(&[0], &[0x61], Ordering::Less)),
        NamedCase("U+10000 before U+FFFF", Query::Order(&[0xd800, 0xdc00], &[0xffff], Ordering::Less)),
        NamedCase("ab after a", Query::Order(&[0x61, 0x62], &[0x61], Ordering::Greater)),
        NamedCase("ab before b", Query::Order(&[0x61, 0x62], &[0x62], Ordering::Less)),
        NamedCase("nothing before 0", Query::Order(&[], &[0], Ordering::Less)),
        NamedCase("a and a", Query::Order(&[0x61], &[0x61], Ordering::Equal)),
        // Which are names of members.
        NamedCase("<init>", Query::IsName(&[60, 105, 110, 105, 116, 62], true)),
        NamedCase("<>", Query::IsName(&[60, 62], false)),
        NamedCase("the lone surrogate 0xd800", Query::IsName(&[0xd800], false)),
        NamedCase("U+10000", Query::IsName(&[0xd800, 0xdc00], true)),
        NamedCase("U+10FFFF", Query::IsName(&[0xdbff, 0xdfff], true)),
        NamedCase("surrogates in the wrong order", Query::IsName(&[0xdc00, 0xd800], false)),
        NamedCase("m", Query::IsName(&[0x6d], true)),
        NamedCase("$-_", Query::IsName(&[36, 45, 95], true)),
        NamedCase("0", Query::IsName(&[48], true)),
        NamedCase("nothing", Query::IsName(&[], false)),
        NamedCase("<a", Query::IsName(&[60, 97], false)),
        NamedCase("a>", Query::IsName(&[97, 62], false)),
        NamedCase("<", Query::IsName(&[60], false)),
        NamedCase("a b", Query::IsName(&[97, 32, 98], false)),
        NamedCase("U+00A0", Query::IsName(&[0xa0], false)),
        NamedCase(
            "U+00A1 U+1FFF U+2010 U+2027 U+2030 U+D7FF U+E000 U+FFEF",
            Query::IsName(&[0xa1, 0x1fff, 0x2010, 0x2027, 0x2030, 0xd7ff, 0xe000, 0xffef], true),
        ),
        NamedCase("U+FFF0", Query::IsName(&[0xfff0], false)),
        NamedCase("U+2000", Query::IsName(&[0x2000], false)),
        NamedCase("U+200F", Query::IsName(&[0x200f], false)),
        NamedCase("U+2028", Query::IsName(&[0x2028], false)),
        NamedCase("U+202F", Query::IsName(&[0x202f], false)),
        NamedCase("(", Query::IsName(&[40], false)),
        NamedCase("/", Query::IsName(&[47], false)),
        NamedCase(":", Query::IsName(&[58], false)),
        NamedCase(";", Query::IsName(&[59], false)),
        NamedCase("[", Query::IsName(&[91], false)),
        NamedCase("@", Query::IsName(&[64], false)),
        NamedCase("`", Query::IsName(&[96], false)),
        NamedCase("{", Query::IsName(&[123], false)),
    ];
    all_hold(rt.alloc(), &CASES)
}
