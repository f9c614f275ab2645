//! The file of the program without classes, read, and files from rows.

use crate::fault_case::FaultCase;
use crate::fault_case::Query::{Classless, IsOne, IsWithout};
use crate::made::Made::{Arrays, OfOneClass, Resized, Unclosed, Without};
use dex_base::fault;
use dex_samples::all_hold;
use std::test::Fail;

#[rattlefmt::skip]
#[test]
fn the_file_of_140_bytes_is_read_and_other_lengths_and_bytes_are_refused(rt: HostRuntime) -> Result<(), Fail> {
    static CASES: [FaultCase; 11] = [
        FaultCase(Classless, "as it is", Without(0, &[]), (0, 0)),
        FaultCase(Classless, "139 bytes", Resized(139), (fault::FILE_SIZE, 32)),
        FaultCase(Classless, "111 bytes", Resized(111), (fault::TOO_SHORT, 111)),
        FaultCase(Classless, "no byte", Resized(0), (fault::TOO_SHORT, 0)),
        FaultCase(Classless, "141 bytes", Resized(141), (fault::FILE_SIZE, 32)),
        FaultCase(Classless, "a changed byte", Unclosed(139, &[1]), (fault::CHECKSUM, 8)),
        FaultCase(Classless, "the reversed endian tag", Without(40, &[0x12]), (fault::ENDIAN, 40)),
        FaultCase(Classless, "two map entries", Without(0x84, &[2]), (fault::MAP_ENTRY, 128)),
        FaultCase(Classless, "an entry's unused half word", Without(0x76, &[7]), (0, 0)),
        FaultCase(IsWithout, "the file of no rows", Arrays(&[]), (0, 0)),
        FaultCase(IsOne, "the file of the rows of one class", OfOneClass, (0, 0)),
    ];
    all_hold(rt.alloc(), &CASES)
}
