//! Header, map and checksums: each rule has its fault, at its place.

use crate::fault_case::FaultCase;
use crate::fault_case::Query::{Frame, IsOne, Signed};
use crate::made::Made::{Ended, Missigned, One, Text, Without, Zeros};
use dex_base::fault;
use dex_container::{framed_without_fault, open};
use dex_samples::{ONE_CLASS, all_hold, is_so};
use std::test::Fail;

#[rattlefmt::skip]
#[test]
fn each_rule_of_header_map_and_sums_has_its_fault(rt: HostRuntime) -> Result<(), Fail> {
    static CASES: [FaultCase; 23] = [
        FaultCase(Frame, "the magic's first byte", Without(0, &[0x65]), (fault::MAGIC, 0)),
        FaultCase(Frame, "the magic's last byte", Without(7, &[1]), (fault::MAGIC, 0)),
        FaultCase(Frame, "version 037", Without(6, &[0x37]), (fault::VERSION, 4)),
        FaultCase(Frame, "file_size", Without(33, &[1]), (fault::FILE_SIZE, 32)),
        FaultCase(Frame, "header_size", Without(36, &[0x71]), (fault::HEADER_SIZE, 36)),
        FaultCase(Frame, "the reversed endian tag", Without(40, &[0x12]), (fault::ENDIAN, 40)),
        FaultCase(Frame, "link_size", Without(44, &[1]), (fault::LINKED, 44)),
        FaultCase(Frame, "a table in the header", Without(56, &[1]), (fault::SECTION_RANGE, 56)),
        FaultCase(Frame, "65536 types", Without(66, &[1]), (fault::SECTION_RANGE, 64)),
        FaultCase(Frame, "a data section past the end", Without(104, &[0x1d]), (fault::SECTION_RANGE, 104)),
        FaultCase(Frame, "a data section of 24 bytes", Without(104, &[0x18]), (fault::MAP_PLACE, 52)),
        FaultCase(Frame, "no data section", Without(104, &[0]), (fault::MAP_PLACE, 52)),
        FaultCase(Frame, "a misaligned map", Without(52, &[0x71]), (fault::MAP_PLACE, 52)),
        FaultCase(Frame, "three entries, the third past the end", Without(0x70, &[3]), (fault::MAP_PLACE, 52)),
        FaultCase(Frame, "one entry, the header's", Without(0x70, &[1]), (fault::MAP_MISSING, 52)),
        FaultCase(Frame, "an unknown kind of entry", Without(0x74, &[7]), (fault::MAP_ENTRY, 116)),
        FaultCase(Frame, "a header entry of 2 items", Without(0x78, &[2]), (fault::MAP_ENTRY, 116)),
        FaultCase(Frame, "two map entries", Without(0x84, &[2]), (fault::MAP_ENTRY, 128)),
        FaultCase(Frame, "another place for the map", Without(0x88, &[0x74]), (fault::MAP_ENTRY, 128)),
        FaultCase(Frame, "an entry's unused half word", Without(0x76, &[7]), (0, 0)),
        FaultCase(Frame, "link_off", Without(48, &[7]), (0, 0)),
        FaultCase(Frame, "another signature", Missigned, (fault::SIGNATURE, 12)),
        FaultCase(IsOne, "both sums are filled in again", One(8, &[0xaa; 24]), (0, 0)),
    ];
    all_hold(rt.alloc(), &CASES)
}

#[rattlefmt::skip]
#[test]
fn each_rule_of_tables_and_sections_in_the_map_has_its_fault(rt: HostRuntime) -> Result<(), Fail> {
    static CASES: [FaultCase; 17] = [
        FaultCase(Frame, "nothing", One(0, &[]), (0, 0)),
        FaultCase(Frame, "a misaligned table", One(0x3c, &[0x72]), (fault::SECTION_RANGE, 56)),
        FaultCase(Frame, "an unknown kind of entry", One(0x10c, &[7]), (fault::MAP_ENTRY, 268)),
        FaultCase(Frame, "eight entries: the map's own is missing", One(0xfc, &[9]), (fault::MAP_MISSING, 52)),
        FaultCase(Frame, "a table one row longer than its entry", One(0x38, &[5]), (fault::MAP_ENTRY, 268)),
        FaultCase(Frame, "an entry at its predecessor's place", One(0x114, &[0]), (fault::MAP_ENTRY, 268)),
        FaultCase(Frame, "a data section that ends before the map", One(0x6c, &[0xbc]), (fault::MAP_PLACE, 52)),
        // one field row, over the string rows
        FaultCase(Frame, "a table without an entry", One(0x50, &[1, 0, 0, 0, 0x70]), (fault::MAP_MISSING, 80)),
        FaultCase(Frame, "code items twice", One(0x154, &[1]), (fault::MAP_ENTRY, 340)),
        FaultCase(Frame, "class data before the strings", One(0x168, &[0xc1]), (fault::MAP_ENTRY, 352)),
        FaultCase(Frame, "class rows that end after the code's place", One(0x150, &[0x9c]), (fault::MAP_ENTRY, 316)),
        FaultCase(Frame, "an entry of no item", One(0x158, &[0]), (fault::MAP_ENTRY, 340)),
        // The map stands from 0x70 to 0x98, and its third entry, at 0x8c, says where the two last bytes of the
        // data section are.
        FaultCase(Frame, "inside the map", Ended(0x94, &[0x97]), (fault::MAP_ENTRY, 128)),
        FaultCase(Frame, "right after the map", Ended(0x94, &[0x98]), (0, 0)),
        FaultCase(Frame, "one byte before the data section's end", Ended(0x94, &[0x99]), (0, 0)),
        FaultCase(Frame, "at the data section's end", Ended(0x94, &[0x9a]), (fault::MAP_ENTRY, 140)),
        FaultCase(Frame, "at the map's own place", Ended(0x94, &[0x70]), (fault::MAP_ENTRY, 128)),
    ];
    all_hold(rt.alloc(), &CASES)
}

#[rattlefmt::skip]
#[test]
fn types_and_prototypes_are_at_most_65535(rt: HostRuntime) -> Result<(), Fail> {
    static CASES: [FaultCase; 4] = [
        FaultCase(Frame, "65536 types", Zeros(64, 65536, 112 + 4 * 65536), (fault::TOO_MANY_ROWS, 64)),
        FaultCase(Frame, "65535 types, and no map", Zeros(64, 65535, 112 + 4 * 65536), (fault::MAP_PLACE, 52)),
        FaultCase(Frame, "65536 prototypes", Zeros(72, 65536, 112 + 12 * 65536), (fault::TOO_MANY_ROWS, 72)),
        FaultCase(Frame, "65535 prototypes, and no map", Zeros(72, 65535, 112 + 12 * 65536), (fault::MAP_PLACE, 52)),
    ];
    all_hold(rt.alloc(), &CASES)
}

/// The first two are NIST's examples for FIPS 180-4, whose other ones are shorter than any file. The others here,
/// computed by OpenSSL, are 9, 8, 1 and 0 bytes short of two blocks: with padding the first fills them, the others take
/// three.
#[rattlefmt::skip]
#[test]
fn signatures_are_the_digests_of_known_texts(rt: HostRuntime) -> Result<(), Fail> {
    static CASES: [FaultCase; 6] = [
        FaultCase(
            Signed(b"\xa4\x9b\x24\x46\xa0\x2c\x64\x5b\xf4\x19\xf9\x95\xb6\x70\x91\x25\x3a\x04\xa2\x59"), "896 bits",
            Text(b"abcdefghbcdefghicdefghijdefghijkefghijklfghijklmghijklmnhijklmnoijklmnopjklmnopqklmnopqrlmnopqrsmnopqrstnopqrstu", 1),
            (0, 0),
        ),
        FaultCase(
            Signed(b"\x34\xaa\x97\x3c\xd4\xc4\xda\xa4\xf6\x1e\xeb\x2b\xdb\xad\x27\x31\x65\x34\x01\x6f"), "1000000 a",
            Text(b"aaaaaaaaaa", 100000), (0, 0),
        ),
        FaultCase(
            Signed(b"\xee\x97\x10\x65\xaa\xa0\x17\xe0\x63\x2a\x8c\xa6\xc7\x7b\xb3\xbf\x8b\x1d\xfc\x56"), "119 a",
            Text(b"a", 119), (0, 0),
        ),
        FaultCase(
            Signed(b"\xf3\x4c\x14\x88\x38\x53\x46\xa5\x57\x09\xba\x05\x6d\xdd\x08\x28\x0d\xd4\xc6\xd6"), "120 a",
            Text(b"a", 120), (0, 0),
        ),
        FaultCase(
            Signed(b"\x89\xd9\x5f\xa3\x2e\xd4\x4a\x7c\x61\x0b\x7e\xe3\x85\x17\xdd\xf5\x7e\x0b\xb9\x75"), "127 a",
            Text(b"a", 127), (0, 0),
        ),
        FaultCase(
            Signed(b"\xad\x5b\x3f\xdb\xcb\x52\x67\x78\xc2\x83\x9d\x2f\x15\x1e\xa7\x53\x99\x5e\x26\xa0"), "128 a",
            Text(b"a", 128), (0, 0),
        ),
    ];
    all_hold(rt.alloc(), &CASES)
}

#[test]
fn a_framed_file_has_no_fault() -> Result<(), Fail> {
    framed_without_fault(&ONE_CLASS);
    is_so(Ok(open(&ONE_CLASS).is_ok()))
}
