//! The faults of class rows, class data and static values: the file of one class with some bytes changed, and files of
//! rows.

use crate::fault_case::FaultCase;
use crate::fault_case::Query::{HasBytes, Whole};
use crate::made::Made::{Classes, DeepValues, FarApart, Members, One, Spare, Values};
use dex_base::fault;
use dex_samples::all_hold;
use std::test::Fail;

const NONE: u32 = 0xffffffff;

#[rattlefmt::skip]
#[test]
fn each_rule_of_class_rows_and_their_data_has_its_fault(rt: HostRuntime) -> Result<(), Fail> {
    static CASES: [FaultCase; 32] = [
        // The class row stands at 160: class, flags, superclass, interfaces, source file, annotations, class
        // data, static values.
        FaultCase(Whole, "nothing is changed", One(160, &[0]), (0, 0)),
        FaultCase(Whole, "a type as before", One(0x84, &[0]), (fault::TYPE_ORDER, 132)),
        FaultCase(Whole, "a class that is no row", One(160, &[3]), (fault::CLASS_INDEX, 160)),
        FaultCase(Whole, "a superclass that is no row", One(168, &[3]), (fault::CLASS_INDEX, 160)),
        FaultCase(Whole, "a source file that is no row", One(176, &[4, 0, 0, 0]), (fault::CLASS_INDEX, 160)),
        FaultCase(Whole, "a class that is void", One(160, &[2]), (fault::CLASS_KIND, 160)),
        FaultCase(Whole, "a superclass that is void", One(168, &[2]), (fault::CLASS_KIND, 160)),
        FaultCase(
            Whole, "a superclass that is no row goes before a class that is void",
            One(160, &[2, 0, 0, 0, 1, 0, 0, 0, 3]), (fault::CLASS_INDEX, 160),
        ),
        FaultCase(
            Whole, "a superclass that is void goes before interfaces where no list stands",
            One(168, &[2, 0, 0, 0, 192]), (fault::CLASS_KIND, 160),
        ),
        FaultCase(Whole, "interfaces where no list stands", One(172, &[192]), (fault::INTERFACE_LIST, 160)),
        FaultCase(Whole, "interfaces go before the order", One(168, &[0, 0, 0, 0, 192]), (fault::INTERFACE_LIST, 160)),
        FaultCase(Whole, "its own superclass", One(168, &[0]), (fault::CLASS_ORDER, 160)),
        FaultCase(
            Whole, "the order goes before class data",
            One(168, &[0, 0, 0, 0, 0, 0, 0, 0, 0xff, 0xff, 0xff, 0xff, 0, 0, 0, 0, 0xf0]), (fault::CLASS_ORDER, 160),
        ),
        FaultCase(Whole, "class data before its section", One(184, &[0xf0]), (fault::CLASS_DATA, 160)),
        FaultCase(Whole, "class data that is cut", One(243, &[9]), (fault::CLASS_DATA, 160)),
        FaultCase(Whole, "no superclass", One(168, &[0xff, 0xff, 0xff, 0xff]), (0, 0)),
        // The class data stands at 241: no fields, one direct method, its entry `00 09 c0 01`; the row of the
        // method at 152.
        FaultCase(Whole, "a method that is no row", One(245, &[1]), (fault::MEMBER_INDEX, 160)),
        FaultCase(
            Whole, "a later number that is cut goes before a method that is no row",
            One(243, &[2, 0, 1, 9, 0, 1, 9, 0x80, 0x80]), (fault::CLASS_DATA, 160),
        ),
        FaultCase(Whole, "a method of another class", One(152, &[1]), (fault::MEMBER_OWNER, 160)),
        FaultCase(Whole, "a method given twice", One(243, &[2, 0, 0, 9, 0xc0, 1, 0, 9, 0]), (fault::MEMBER_ORDER, 160)),
        FaultCase(Whole, "the rows go before the code", One(245, &[1, 9, 0xc1]), (fault::MEMBER_INDEX, 160)),
        FaultCase(Whole, "a number of five bytes", One(247, &[0xc0, 0x81, 0x80, 0x80, 0]), (0, 0)),
        FaultCase(Whole, "static values where no array stands", One(188, &[0xf4]), (fault::VALUES, 160)),
        FaultCase(Whole, "ins past the registers", One(194, &[2]), (fault::REGISTER, 192)),
        FaultCase(Whole, "the last register", One(208, &[0x0f, 0]), (0, 0)),
        FaultCase(Whole, "a register past it", One(208, &[0x0f, 1]), (fault::REGISTER, 208)),
        FaultCase(Whole, "an opcode that is unused", One(208, &[0x3e]), (fault::OPCODE, 208)),
        FaultCase(Whole, "a high byte where none is", One(209, &[1]), (fault::NON_ZERO, 208)),
        FaultCase(Whole, "no units", One(204, &[0]), (fault::EMPTY_CODE, 192)),
        FaultCase(Whole, "an odd place", One(247, &[0xc1]), (fault::CODE_PLACE, 193)),
        FaultCase(Whole, "a method without code", One(247, &[0x80, 0]), (0, 0)),
        FaultCase(Whole, "a cut instruction", One(208, &[0x13]), (fault::CUT, 208)),
    ];
    all_hold(rt.alloc(), &CASES)
}

#[rattlefmt::skip]
#[test]
fn entries_are_checked_one_by_one(rt: HostRuntime) -> Result<(), Fail> {
    static CASES: [FaultCase; 11] = [
        // Four counts, then what an entry's index is above the one before, flags, and of a method the place of
        // its code.
        FaultCase(Whole, "a field and a method", Members(&[1, 0, 1, 0, 0, 9, 0, 9, 0]), (0, 0)),
        FaultCase(Whole, "a static field that is no row", Members(&[1, 0, 0, 0, 2, 9]), (fault::MEMBER_INDEX, 192)),
        FaultCase(Whole, "an instance field that is no row", Members(&[0, 1, 0, 0, 2, 9]), (fault::MEMBER_INDEX, 192)),
        FaultCase(Whole, "a field of another class", Members(&[1, 0, 0, 0, 1, 9]), (fault::MEMBER_OWNER, 192)),
        FaultCase(Whole, "a field given twice", Members(&[2, 0, 0, 0, 0, 9, 0, 9]), (fault::MEMBER_ORDER, 192)),
        FaultCase(
            Whole, "a field of another class, and one that is no row", Members(&[2, 0, 0, 0, 1, 9, 1, 9]),
            (fault::MEMBER_OWNER, 192),
        ),
        FaultCase(
            Whole, "a method of another class, and one that is no row", Members(&[0, 0, 2, 0, 1, 9, 0, 1, 9, 0]),
            (fault::MEMBER_OWNER, 192),
        ),
        FaultCase(
            Whole, "a method given twice, and one that is no row", Members(&[0, 0, 3, 0, 0, 9, 0, 0, 9, 0, 2, 9, 0]),
            (fault::MEMBER_ORDER, 192),
        ),
        FaultCase(
            Whole, "a static field of another class, an instance field that is no row",
            Members(&[1, 1, 0, 0, 1, 9, 2, 9]), (fault::MEMBER_OWNER, 192),
        ),
        // 396 bytes, whose class row stands at 172.
        FaultCase(Whole, "indices are sums without a bound", FarApart, (fault::MEMBER_INDEX, 172)),
        FaultCase(HasBytes(396), "and its file", FarApart, (0, 0)),
    ];
    all_hold(rt.alloc(), &CASES)
}

#[rattlefmt::skip]
#[test]
fn a_class_stands_after_what_it_stands_on_and_is_defined_once(rt: HostRuntime) -> Result<(), Fail> {
    static CASES: [FaultCase; 9] = [
        // The class rows stand at 128 and 160: class, flags, superclass, interfaces, source file, ..
        FaultCase(
            Whole, "no superclass", Classes(&[[0, 1, NONE, 0, NONE, 0, 0, 0], [1, 1, NONE, 0, NONE, 0, 0, 0]]),
            (0, 0),
        ),
        FaultCase(
            Whole, "the class before", Classes(&[[0, 1, NONE, 0, NONE, 0, 0, 0], [1, 1, 0, 0, NONE, 0, 0, 0]]),
            (0, 0),
        ),
        FaultCase(
            Whole, "the class after", Classes(&[[0, 1, 1, 0, NONE, 0, 0, 0], [1, 1, NONE, 0, NONE, 0, 0, 0]]),
            (fault::CLASS_ORDER, 128),
        ),
        FaultCase(
            Whole, "itself", Classes(&[[0, 1, NONE, 0, NONE, 0, 0, 0], [1, 1, 1, 0, NONE, 0, 0, 0]]),
            (fault::CLASS_ORDER, 160),
        ),
        FaultCase(
            Whole, "an interface before",
            Classes(&[[0, 1, NONE, 0, NONE, 0, 0, 0], [1, 1, NONE, 192, NONE, 0, 0, 0]]), (0, 0),
        ),
        FaultCase(
            Whole, "itself as an interface",
            Classes(&[[0, 1, NONE, 192, NONE, 0, 0, 0], [1, 1, NONE, 0, NONE, 0, 0, 0]]), (fault::CLASS_ORDER, 128),
        ),
        FaultCase(
            Whole, "an interface twice",
            Classes(&[[0, 1, NONE, 200, NONE, 0, 0, 0], [1, 1, NONE, 0, NONE, 0, 0, 0]]),
            (fault::INTERFACE_LIST, 128),
        ),
        FaultCase(
            Whole, "the list goes before the order",
            Classes(&[[0, 1, 1, 200, NONE, 0, 0, 0], [1, 1, NONE, 0, NONE, 0, 0, 0]]), (fault::INTERFACE_LIST, 128),
        ),
        FaultCase(
            Whole, "one class twice", Classes(&[[0, 1, NONE, 0, NONE, 0, 0, 0], [0, 1, NONE, 0, NONE, 0, 0, 0]]),
            (fault::CLASS_ORDER, 160),
        ),
    ];
    all_hold(rt.alloc(), &CASES)
}

#[rattlefmt::skip]
#[test]
fn each_rule_of_static_values_and_of_what_nothing_uses_has_its_fault(rt: HostRuntime) -> Result<(), Fail> {
    static CASES: [FaultCase; 15] = [
        // The class row stands at 140, the array at 304.
        FaultCase(Whole, "an int", Values(&[1, 0x04, 5]), (0, 0)),
        FaultCase(Whole, "no value", Values(&[0]), (0, 0)),
        FaultCase(Whole, "a count that isn't spelled to its end", Values(&[0x80]), (fault::VALUES, 140)),
        FaultCase(Whole, "a value past the section", Values(&[1, 0x04]), (fault::VALUES, 140)),
        FaultCase(Whole, "two values for one field", Values(&[2, 0x04, 5, 0x04, 6]), (fault::TOO_MANY_VALUES, 140)),
        FaultCase(Whole, "the count goes before the values", Values(&[2, 0x15, 5, 0x04, 6]), (fault::TOO_MANY_VALUES, 140)),
        FaultCase(Whole, "a type of value that there isn't", Values(&[1, 0x15, 0]), (fault::VALUE_KIND, 305)),
        FaultCase(Whole, "five bytes for an int", Values(&[1, 0x84, 0, 0, 0, 0, 0]), (fault::VALUE_KIND, 305)),
        FaultCase(Whole, "a string that is no row", Values(&[1, 0x17, 3]), (fault::VALUE_KIND, 305)),
        FaultCase(Whole, "an array in which a value is wrong", Values(&[1, 0x1c, 1, 0x15]), (fault::VALUE_KIND, 307)),
        FaultCase(Whole, "a field of the table", Values(&[1, 0x19, 0]), (0, 0)),
        FaultCase(Whole, "64 arrays", DeepValues(64), (0, 0)),
        // the head of the 65th
        FaultCase(Whole, "65 arrays", DeepValues(65), (fault::VALUE_DEPTH, 433)),
        FaultCase(Whole, "a string that nothing uses", Spare(6), (0, 0)),
        FaultCase(Whole, "a count of seven units before six", Spare(7), (fault::STRING_SPELLING, 128)),
    ];
    all_hold(rt.alloc(), &CASES)
}
