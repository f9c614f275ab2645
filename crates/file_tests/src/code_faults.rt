//! The faults of code: a file for each, of a class whose one method has a code item that breaks one rule.

use crate::fault_case::FaultCase;
use crate::fault_case::Query::Whole;
use crate::made::Made::{Code, Methods, Tries};
use dex_base::fault;
use dex_samples::{ALL_TO_0, all_hold};
use std::test::Fail;

#[rattlefmt::skip]
#[test]
fn instructions_and_branches_have_their_faults(rt: HostRuntime) -> Result<(), Fail> {
    static CASES: [FaultCase; 23] = [
        // The item begins at 204, the units at 220.
        FaultCase(Whole, "no units", Code(0, &[], &[]), (fault::EMPTY_CODE, 204)),
        FaultCase(Whole, "an opcode that is unused", Code(0, &[0x0e, 0x00, 0x3e, 0x00], &[]), (fault::OPCODE, 222)),
        FaultCase(Whole, "an instruction that is cut", Code(0, &[0x13, 0x00], &[]), (fault::CUT, 220)),
        FaultCase(Whole, "a high byte where none is", Code(0, &[0x0e, 0x01], &[]), (fault::NON_ZERO, 220)),
        FaultCase(Whole, "a payload's unit above 3", Code(0, &[0x00, 0x04], &[]), (fault::NON_ZERO, 220)),
        FaultCase(Whole, "six registers", Code(0, &[0x6e, 0x60, 0, 0, 0, 0], &[]), (fault::REGISTER_COUNT, 220)),
        FaultCase(Whole, "a payload at an odd unit", Code(0, &[0, 0, 0, 3, 1, 0, 0, 0, 0, 0], &[]), (fault::PAYLOAD, 222)),
        FaultCase(
            Whole, "the walk goes before indices", Code(0, &[0x1a, 0x00, 0x05, 0x00, 0x3e, 0x00], &[]),
            (fault::OPCODE, 224),
        ),
        FaultCase(Whole, "a string that isn't there", Code(0, &[0x1a, 0x00, 0x05, 0x00], &[]), (fault::OPERAND_INDEX, 220)),
        FaultCase(
            Whole, "a type that isn't there", Code(0, &[0x0e, 0, 0x22, 0x00, 0x03, 0x00], &[]),
            (fault::OPERAND_INDEX, 222),
        ),
        FaultCase(Whole, "a field that isn't there", Code(0, &[0x60, 0x00, 0x01, 0x00], &[]), (fault::OPERAND_INDEX, 220)),
        FaultCase(
            Whole, "a method that isn't there", Code(0, &[0x6e, 0x00, 0x01, 0x00, 0x00, 0x00], &[]),
            (fault::OPERAND_INDEX, 220),
        ),
        FaultCase(
            Whole, "a method of no registers that isn't there", Code(0, &[0x74, 0x00, 0x01, 0x00, 0x00, 0x00], &[]),
            (fault::OPERAND_INDEX, 220),
        ),
        FaultCase(
            Whole, "indices go before branches", Code(0, &[0x28, 0x00, 0x1a, 0x00, 0x05, 0x00], &[]),
            (fault::OPERAND_INDEX, 222),
        ),
        FaultCase(Whole, "a branch past the end", Code(0, &[0x28, 0x02, 0x0e, 0x00], &[]), (fault::BRANCH_TARGET, 220)),
        FaultCase(Whole, "a branch before the begin", Code(0, &[0x0e, 0x00, 0x28, 0xfe], &[]), (fault::BRANCH_TARGET, 222)),
        FaultCase(
            Whole, "a branch into an instruction", Code(0, &[0x28, 0x02, 0x13, 0x00, 0x01, 0x00, 0x0e, 0x00], &[]),
            (fault::BRANCH_TARGET, 220),
        ),
        FaultCase(
            Whole, "a branch to a payload", Code(0, &[0x28, 0x02, 0x0e, 0x00, 0, 3, 1, 0, 0, 0, 0, 0], &[]),
            (fault::BRANCH_TARGET, 220),
        ),
        FaultCase(Whole, "a branch to itself", Code(0, &[0x28, 0x00], &[]), (fault::BRANCH_ZERO, 220)),
        FaultCase(
            Whole, "a branch of 16 bits to itself", Code(0, &[0x29, 0x00, 0x00, 0x00], &[]),
            (fault::BRANCH_ZERO, 220),
        ),
        FaultCase(
            Whole, "a condition that leads to itself", Code(0, &[0x38, 0x00, 0x00, 0x00], &[]),
            (fault::BRANCH_ZERO, 220),
        ),
        FaultCase(
            Whole, "the first branch that is wrong", Code(0, &[0x28, 0x00, 0x28, 0x07], &[]),
            (fault::BRANCH_ZERO, 220),
        ),
        FaultCase(
            Whole, "branches go before payloads", Code(0, &[0x2b, 0, 3, 0, 0, 0, 0x28, 0x00], &[]),
            (fault::BRANCH_ZERO, 226),
        ),
    ];
    all_hold(rt.alloc(), &CASES)
}

#[rattlefmt::skip]
#[test]
fn payloads_have_their_faults(rt: HostRuntime) -> Result<(), Fail> {
    static CASES: [FaultCase; 13] = [
        // The item begins at 204, the units at 220.
        FaultCase(
            Whole, "a switch to no payload", Code(0, &[0x2b, 0, 3, 0, 0, 0, 0x0e, 0x00], &[]),
            (fault::PAYLOAD_USE, 220),
        ),
        FaultCase(
            Whole, "a switch to an array", Code(0, &[0x2b, 0, 4, 0, 0, 0, 0, 0, 0, 3, 1, 0, 0, 0, 0, 0], &[]),
            (fault::PAYLOAD_USE, 220),
        ),
        FaultCase(
            Whole, "a packed switch to a sparse one", Code(0, &[0x2b, 0, 4, 0, 0, 0, 0, 0, 0, 2, 0, 0], &[]),
            (fault::PAYLOAD_USE, 220),
        ),
        FaultCase(
            Whole, "a switch's payload that nothing uses", Code(0, &[0x0e, 0, 0, 0, 0, 1, 0, 0, 0, 0, 0, 0], &[]),
            (fault::PAYLOAD_USE, 224),
        ),
        FaultCase(
            Whole, "a switch's payload that two use",
            Code(0, &[0x2b, 0, 6, 0, 0, 0, 0x2b, 0, 3, 0, 0, 0, 0, 1, 0, 0, 0, 0, 0, 0], &[]),
            (fault::PAYLOAD_USE, 232),
        ),
        FaultCase(
            Whole, "a switch that leads nowhere", Code(0, &[0x2b, 0, 0xff, 0xff, 0xff, 0xff], &[]),
            (fault::PAYLOAD_USE, 220),
        ),
        FaultCase(
            Whole, "a target of a switch in an instruction",
            Code(0, &[0x2b, 0, 4, 0, 0, 0, 0, 0, 0, 1, 1, 0, 0, 0, 0, 0, 1, 0, 0, 0], &[]),
            (fault::BRANCH_TARGET, 228),
        ),
        FaultCase(
            Whole, "a target of a switch that is a payload",
            Code(0, &[0x2b, 0, 4, 0, 0, 0, 0, 0, 0, 1, 1, 0, 0, 0, 0, 0, 4, 0, 0, 0], &[]),
            (fault::BRANCH_TARGET, 228),
        ),
        FaultCase(
            Whole, "the use of a payload goes before where it leads",
            Code(0, &[0x2b, 0, 6, 0, 0, 0, 0x2b, 0, 0xff, 0xff, 0xff, 0xff, 0, 1, 1, 0, 0, 0, 0, 0, 1, 0, 0, 0], &[]),
            (fault::PAYLOAD_USE, 226),
        ),
        FaultCase(
            Whole, "where a switch leads goes before tries",
            Tries(&[0x2b, 0, 4, 0, 0, 0, 0, 0, 0, 1, 1, 0, 0, 0, 0, 0, 1, 0, 0, 0], &[(1, 1, 1)], ALL_TO_0),
            (fault::BRANCH_TARGET, 228),
        ),
        FaultCase(
            Whole, "a sparse switch to the payload of a packed one",
            Code(0, &[0x2b, 0, 6, 0, 0, 0, 0x2c, 0, 3, 0, 0, 0, 0, 1, 0, 0, 0, 0, 0, 0], &[]),
            (fault::PAYLOAD_USE, 226),
        ),
        FaultCase(
            Whole, "a switch that leads nowhere after a payload that nothing uses",
            Code(0, &[0, 1, 0, 0, 0, 0, 0, 0, 0x2b, 0, 0xff, 0xff, 0xff, 0xff], &[]), (fault::PAYLOAD_USE, 220),
        ),
        FaultCase(
            Whole, "a switch that leads nowhere before a payload that nothing uses",
            Code(0, &[0x2b, 0, 0xff, 0xff, 0xff, 0xff, 0, 0, 0, 1, 0, 0, 0, 0, 0, 0], &[]),
            (fault::PAYLOAD_USE, 220),
        ),
    ];
    all_hold(rt.alloc(), &CASES)
}

#[rattlefmt::skip]
#[test]
fn tries_and_handlers_have_their_faults(rt: HostRuntime) -> Result<(), Fail> {
    static CASES: [FaultCase; 18] = [
        // The item begins at 204, the units at 220.
        FaultCase(
            Whole, "a try that begins in an instruction",
            Tries(&[0x13, 0, 0, 0, 0x0e, 0], &[(1, 1, 1)], ALL_TO_0), (fault::TRY, 228),
        ),
        FaultCase(
            Whole, "a try that covers nothing", Tries(&[0x0e, 0, 0x0e, 0], &[(0, 0, 1)], ALL_TO_0),
            (fault::TRY, 224),
        ),
        FaultCase(
            Whole, "a try past the end", Tries(&[0x0e, 0, 0x0e, 0], &[(1, 2, 1)], ALL_TO_0),
            (fault::TRY, 224),
        ),
        FaultCase(
            Whole, "tries that overlap",
            Tries(&[0x0e, 0, 0x0e, 0], &[(0, 2, 1), (1, 1, 1)], ALL_TO_0),
            (fault::TRY, 232),
        ),
        FaultCase(
            Whole, "tries go before handlers", Tries(&[0x0e, 0, 0x0e, 0], &[(0, 3, 1)], &[]),
            (fault::TRY, 224),
        ),
        FaultCase(Whole, "no list", Tries(&[0x0e, 0, 0x0e, 0], &[(0, 1, 1)], &[]), (fault::HANDLER, 232)),
        FaultCase(
            Whole, "a list that is cut", Tries(&[0x0e, 0, 0x0e, 0], &[(0, 1, 1)], &[1, 0]),
            (fault::HANDLER, 232),
        ),
        FaultCase(
            Whole, "a number that is misspelled",
            Tries(&[0x0e, 0, 0x0e, 0], &[(0, 1, 1)], &[1, 0, 0xff, 0xff, 0xff, 0xff, 0xff]),
            (fault::HANDLER, 232),
        ),
        FaultCase(
            Whole, "a type that is caught and isn't there",
            Tries(&[0x0e, 0, 0x0e, 0], &[(0, 1, 1)], &[1, 1, 3, 0]), (fault::HANDLER, 232),
        ),
        FaultCase(
            Whole, "a handler that is no instruction",
            Tries(&[0x0e, 0, 0x0e, 0], &[(0, 1, 1)], &[1, 1, 0, 2]), (fault::HANDLER, 232),
        ),
        FaultCase(
            Whole, "a catch-all that is no instruction",
            Tries(&[0x0e, 0, 0x0e, 0], &[(0, 1, 1)], &[1, 0, 2]), (fault::HANDLER, 232),
        ),
        FaultCase(
            Whole, "a handler that no try uses is wrong",
            Tries(&[0x0e, 0, 0x0e, 0], &[(0, 1, 1)], &[2, 0, 0, 0, 2]), (fault::HANDLER, 232),
        ),
        FaultCase(
            Whole, "an offset into a handler", Tries(&[0x0e, 0, 0x0e, 0], &[(0, 1, 2)], ALL_TO_0),
            (fault::HANDLER, 232),
        ),
        FaultCase(
            Whole, "an offset of no handler", Tries(&[0x0e, 0, 0x0e, 0], &[(0, 1, 0)], ALL_TO_0),
            (fault::HANDLER, 232),
        ),
        FaultCase(
            Whole, "try_items that are cut", Code(1, &[0x0e, 0, 0x0e, 0], &[0, 0, 0, 0, 1, 0, 1]),
            (fault::CODE_PLACE, 204),
        ),
        FaultCase(
            Whole, "try_items that are cut go before an opcode that is unused",
            Code(1, &[0x3e, 0, 0x0e, 0], &[0, 0, 0, 0, 1, 0, 1]), (fault::CODE_PLACE, 204),
        ),
        FaultCase(
            Whole, "no units go before a try that covers what isn't there",
            Tries(&[], &[(0, 1, 1)], ALL_TO_0), (fault::EMPTY_CODE, 204),
        ),
        FaultCase(
            Whole, "try_items that are cut go before no units", Code(1, &[], &[0, 0, 0, 0, 1, 0, 1]),
            (fault::CODE_PLACE, 204),
        ),
    ];
    all_hold(rt.alloc(), &CASES)
}

#[rattlefmt::skip]
#[test]
fn code_that_keeps_the_rules_is_read_and_the_first_with_a_fault_is_reported(rt: HostRuntime) -> Result<(), Fail> {
    static CASES: [FaultCase; 8] = [
        // A constant of 16 bits, and a return: what a try covers, a handler that catches a type, a catch-all.
        FaultCase(Whole, "a return", Code(0, &[0x0e, 0], &[]), (0, 0)),
        FaultCase(Whole, "a try with a catch-all", Tries(&[0x0e, 0, 0x0e, 0], &[(0, 1, 1)], ALL_TO_0), (0, 0)),
        FaultCase(Whole, "a try with a catch", Tries(&[0x0e, 0, 0x0e, 0], &[(0, 1, 1)], &[1, 1, 1, 1]), (0, 0)),
        FaultCase(Whole, "a call", Code(0, &[0x6e, 0x10, 0, 0, 0, 0, 0x0e, 0], &[]), (0, 0)),
        // Of two methods. At 197 an item is misaligned.
        FaultCase(
            Whole, "a list, a misaligned item", Methods(&[0, 0, 2, 0, 0, 9, 0xc4, 1, 1, 9, 0xc5, 1]),
            (fault::HANDLER, 224),
        ),
        FaultCase(
            Whole, "a misaligned item, a list", Methods(&[0, 0, 2, 0, 0, 9, 0xc5, 1, 1, 9, 0xc4, 1]),
            (fault::CODE_PLACE, 197),
        ),
        FaultCase(
            Whole, "a list, a misaligned item that is virtual", Methods(&[0, 0, 1, 1, 1, 9, 0xc4, 1, 0, 1, 0xc5, 1]),
            (fault::HANDLER, 224),
        ),
        FaultCase(
            Whole, "a misaligned item, a list that is virtual", Methods(&[0, 0, 1, 1, 1, 9, 0xc5, 1, 0, 1, 0xc4, 1]),
            (fault::CODE_PLACE, 197),
        ),
    ];
    all_hold(rt.alloc(), &CASES)
}
