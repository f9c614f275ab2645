//! The orders of the tables' rows, by files of few rows.

use crate::fault_case::FaultCase;
use crate::fault_case::Query::Rows;
use crate::made::Made::{OfVoid, Protos, Strings};
use crate::made::ProtoRow;
use dex_base::fault;
use dex_samples::all_hold;
use std::test::Fail;

const PAIR: &[u8] = b"\x02\xed\xa0\x80\xed\xb0\x80\0";

const LONE: &[u8] = b"\x01\xed\xa0\x80\0";

const HIGH: &[u8] = b"\x01\xef\xbf\xaf\0";

const NUL: &[u8] = b"\x01\xc0\x80\0";

const LETTER: &[u8] = b"\x01a\0";

const NONE_INT: ProtoRow = (0, 0, None);

const INT_INT: ProtoRow = (1, 0, Some(0));

const NONE: ProtoRow = (2, 1, None);

const INT: ProtoRow = (3, 1, Some(0));

const EMPTY: ProtoRow = (2, 1, Some(1));

#[rattlefmt::skip]
#[test]
fn strings_and_protos_are_sorted_and_no_parameter_is_void(rt: HostRuntime) -> Result<(), Fail> {
    static CASES: [FaultCase; 17] = [
        // The second string row stands at 116. U+10000 is the units D800 DC00, and U+0000 is spelled c0 80.
        FaultCase(Rows, "U+10000, U+FFEF", Strings(&[PAIR, HIGH]), (0, 0)),
        FaultCase(Rows, "U+FFEF, U+10000", Strings(&[HIGH, PAIR]), (fault::STRING_ORDER, 116)),
        FaultCase(Rows, "U+D800, U+10000", Strings(&[LONE, PAIR]), (0, 0)),
        FaultCase(Rows, "U+0000, `a`", Strings(&[NUL, LETTER]), (0, 0)),
        FaultCase(Rows, "`a`, U+0000", Strings(&[LETTER, NUL]), (fault::STRING_ORDER, 116)),
        FaultCase(Rows, "the empty string, U+0000", Strings(&[b"\0\0", NUL]), (0, 0)),
        FaultCase(Rows, "`a`, its size longer", Strings(&[LETTER, b"\x81\0a\0"]), (fault::STRING_ORDER, 116)),
        // Four string rows stand at 112, two type rows at 128 and the proto rows at 136 and 148.
        FaultCase(Rows, "()I, ()V", Protos(&[NONE_INT, NONE]), (0, 0)),
        FaultCase(Rows, "()V, ()I", Protos(&[NONE, NONE_INT]), (fault::PROTO_ORDER, 148)),
        FaultCase(Rows, "(I)I, ()V", Protos(&[INT_INT, NONE]), (0, 0)),
        FaultCase(Rows, "()V, (I)I", Protos(&[NONE, INT_INT]), (fault::PROTO_ORDER, 148)),
        FaultCase(Rows, "()V, (I)V", Protos(&[NONE, INT]), (0, 0)),
        FaultCase(Rows, "(I)V, ()V", Protos(&[INT, NONE]), (fault::PROTO_ORDER, 148)),
        FaultCase(Rows, "()V of an empty list, (I)V", Protos(&[EMPTY, INT]), (0, 0)),
        FaultCase(Rows, "()V, ()V", Protos(&[NONE, NONE]), (fault::PROTO_ORDER, 148)),
        FaultCase(Rows, "()V, ()V of an empty list", Protos(&[NONE, EMPTY]), (fault::PROTO_ORDER, 148)),
        // Strings stand at 112 and 116, the type at 120.
        FaultCase(Rows, "a parameter that is void", OfVoid, (fault::PARAMETER_LIST, 124)),
    ];
    all_hold(rt.alloc(), &CASES)
}
