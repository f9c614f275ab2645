//! Bytes that are no array of values, and which fault is told.

use crate::fault_case::FaultCase;
use crate::fault_case::Query::Array;
use crate::made::Made::{Arrays, ArraysAfterNames, Deep};
use crate::values::{ARRAYS_AFTER_NAMES_AT, ARRAYS_AT};
use dex_base::fault;
use dex_samples::all_hold;
use std::test::Fail;

/// Where the arrays begin.
const PLACE: u64 = 0x98;

#[rattlefmt::skip]
#[test]
fn wrong_bytes_are_refused(rt: HostRuntime) -> Result<(), Fail> {
    static CASES: [FaultCase; 27] = [
        FaultCase(Array(ARRAYS_AT, 1), "a count without an end", Arrays(&[0x80]), (fault::VALUES, PLACE)),
        FaultCase(
            Array(ARRAYS_AT, 1), "a count of six bytes", Arrays(&[0x80, 0x80, 0x80, 0x80, 0x80, 0x00]),
            (fault::VALUES, PLACE),
        ),
        FaultCase(Array(ARRAYS_AT, 1), "no value for the count", Arrays(&[0x01]), (fault::VALUES, PLACE)),
        FaultCase(Array(ARRAYS_AT, 1), "no second byte", Arrays(&[0x01, 0x04]), (fault::VALUES, PLACE)),
        FaultCase(Array(ARRAYS_AT, 1), "one byte of two", Arrays(&[0x01, 0x24, 0x80]), (fault::VALUES, PLACE)),
        FaultCase(Array(ARRAYS_AT, 1), "no count in an inner array", Arrays(&[0x01, 0x1c]), (fault::VALUES, PLACE)),
        FaultCase(Array(ARRAYS_AT, 1), "no value in an inner array", Arrays(&[0x01, 0x1c, 0x01]), (fault::VALUES, PLACE)),
        FaultCase(
            Array(ARRAYS_AT, 4294967295), "a count that the section can't hold",
            Arrays(&[0xff, 0xff, 0xff, 0xff, 0x0f, 0x1e]), (fault::VALUES, PLACE),
        ),
        FaultCase(
            Array(ARRAYS_AT, 1), "a count above what is wanted", Arrays(&[0x02, 0x1e, 0x1e]),
            (fault::TOO_MANY_VALUES, PLACE),
        ),
        FaultCase(
            Array(ARRAYS_AT, 1), "the same before any value is visited at", Arrays(&[0x02, 0x15]),
            (fault::TOO_MANY_VALUES, PLACE),
        ),
        FaultCase(Array(ARRAYS_AT, 1), "a type that none has", Arrays(&[0x01, 0x05, 0x00]), (fault::VALUE_KIND, PLACE + 1)),
        FaultCase(Array(ARRAYS_AT, 1), "a method type", Arrays(&[0x01, 0x15, 0x00]), (fault::VALUE_KIND, PLACE + 1)),
        FaultCase(Array(ARRAYS_AT, 1), "a method handle", Arrays(&[0x01, 0x16, 0x00]), (fault::VALUE_KIND, PLACE + 1)),
        FaultCase(Array(ARRAYS_AT, 1), "an annotation", Arrays(&[0x01, 0x1d]), (fault::VALUE_KIND, PLACE + 1)),
        FaultCase(
            Array(ARRAYS_AT, 1), "a short of three bytes", Arrays(&[0x01, 0x42, 0x00, 0x00, 0x00]),
            (fault::VALUE_KIND, PLACE + 1),
        ),
        FaultCase(
            Array(ARRAYS_AT, 1), "a byte of two bytes", Arrays(&[0x01, 0x20, 0x00, 0x00]),
            (fault::VALUE_KIND, PLACE + 1),
        ),
        FaultCase(Array(ARRAYS_AT, 1), "a boolean of argument 2", Arrays(&[0x01, 0x5f]), (fault::VALUE_KIND, PLACE + 1)),
        FaultCase(Array(ARRAYS_AT, 1), "a null with an argument", Arrays(&[0x01, 0x3e]), (fault::VALUE_KIND, PLACE + 1)),
        FaultCase(
            Array(ARRAYS_AT, 1), "an array with an argument", Arrays(&[0x01, 0x3c, 0x00]),
            (fault::VALUE_KIND, PLACE + 1),
        ),
        FaultCase(
            Array(ARRAYS_AT, 1), "an int of five bytes", Arrays(&[0x01, 0x84, 0, 0, 0, 0, 0]),
            (fault::VALUE_KIND, PLACE + 1),
        ),
        FaultCase(
            Array(ARRAYS_AT, 1), "a string without a row", Arrays(&[0x01, 0x17, 0x00]),
            (fault::VALUE_KIND, PLACE + 1),
        ),
        FaultCase(Array(ARRAYS_AT, 1), "a type without a row", Arrays(&[0x01, 0x18, 0x00]), (fault::VALUE_KIND, PLACE + 1)),
        FaultCase(Array(ARRAYS_AT, 1), "a field without a row", Arrays(&[0x01, 0x19, 0x00]), (fault::VALUE_KIND, PLACE + 1)),
        FaultCase(
            Array(ARRAYS_AT, 1), "a method without a row", Arrays(&[0x01, 0x1a, 0x00]),
            (fault::VALUE_KIND, PLACE + 1),
        ),
        FaultCase(Array(ARRAYS_AT, 1), "an enum without a row", Arrays(&[0x01, 0x1b, 0x00]), (fault::VALUE_KIND, PLACE + 1)),
        // a string's bytes are looked at before its index, and a wrong value before the end of the array
        FaultCase(Array(ARRAYS_AT, 1), "a string that is cut", Arrays(&[0x01, 0x37, 0x00]), (fault::VALUES, PLACE)),
        FaultCase(
            Array(ARRAYS_AT, 1), "the first value of an array that is cut", Arrays(&[0x01, 0x1c, 0x05, 0x1e, 0x15]),
            (fault::VALUE_KIND, PLACE + 4),
        ),
    ];
    all_hold(rt.alloc(), &CASES)
}

#[rattlefmt::skip]
#[test]
fn wrong_depths_indices_and_places_are_refused(rt: HostRuntime) -> Result<(), Fail> {
    static CASES: [FaultCase; 17] = [
        // In one value the head goes before the depth, and the depth before the bytes.
        FaultCase(Array(ARRAYS_AT, 1), "no value", Deep(64, &[0x01]), (fault::VALUES, PLACE)),
        FaultCase(Array(ARRAYS_AT, 1), "an array", Deep(64, &[0x01, 0x1c, 0x00]), (fault::VALUE_DEPTH, PLACE + 129)),
        FaultCase(
            Array(ARRAYS_AT, 1), "an array with an argument", Deep(64, &[0x01, 0x3c, 0x00]),
            (fault::VALUE_KIND, PLACE + 129),
        ),
        FaultCase(Array(ARRAYS_AT, 1), "an array that is cut", Deep(64, &[0x01, 0x1c]), (fault::VALUE_DEPTH, PLACE + 129)),
        FaultCase(
            Array(ARRAYS_AT, 1), "null, and an array that is cut", Deep(64, &[0x02, 0x1e, 0x1c]),
            (fault::VALUE_DEPTH, PLACE + 130),
        ),
        FaultCase(Array(ARRAYS_AT, 1), "64 arrays, one in the other", Deep(64, &[0]), (0, 0)),
        // the head of the 65th
        FaultCase(Array(ARRAYS_AT, 1), "65 arrays", Deep(65, &[0]), (fault::VALUE_DEPTH, PLACE + 129)),
        FaultCase(
            Array(ARRAYS_AFTER_NAMES_AT, 5), "string 5", ArraysAfterNames(&[0x01, 0x17, 5]),
            (fault::VALUE_KIND, 0x131),
        ),
        FaultCase(Array(ARRAYS_AFTER_NAMES_AT, 5), "type 3", ArraysAfterNames(&[0x01, 0x18, 3]), (fault::VALUE_KIND, 0x131)),
        FaultCase(
            Array(ARRAYS_AFTER_NAMES_AT, 5), "field 1", ArraysAfterNames(&[0x01, 0x19, 1]),
            (fault::VALUE_KIND, 0x131),
        ),
        FaultCase(
            Array(ARRAYS_AFTER_NAMES_AT, 5), "method 1", ArraysAfterNames(&[0x01, 0x1a, 1]),
            (fault::VALUE_KIND, 0x131),
        ),
        FaultCase(
            Array(ARRAYS_AFTER_NAMES_AT, 5), "the enum of field 1", ArraysAfterNames(&[0x01, 0x1b, 1]),
            (fault::VALUE_KIND, 0x131),
        ),
        FaultCase(Array(0, 1), "the header", Arrays(&[0x00]), (fault::VALUES, 0)),
        FaultCase(Array(0x70, 1), "the map", Arrays(&[0x00]), (fault::VALUES, 0x70)),
        FaultCase(Array(ARRAYS_AT - 1, 1), "the byte before the section", Arrays(&[0x00]), (fault::VALUES, PLACE - 1)),
        FaultCase(Array(ARRAYS_AT + 1, 1), "the section's end", Arrays(&[0x00]), (fault::VALUES, PLACE + 1)),
        FaultCase(Array(0xffffffff, 1), "past the file", Arrays(&[0x00]), (fault::VALUES, 0xffffffff)),
    ];
    all_hold(rt.alloc(), &CASES)
}
