//! Faults by number and by name.

use dex_base::{Fault, fault_name};
use dex_samples::{Case, all_hold};
use std::alloc::{AllocError, Global};
use std::test::Fail;

/// The faults and their names.
#[rattlefmt::skip]
static NAMES: [(u16, &str); 85] = [
    (1, "TooShort"), (2, "Magic"), (3, "Version"), (4, "FileSize"), (5, "HeaderSize"), (6, "Endian"), (7, "Linked"),
    (8, "Checksum"), (9, "Signature"), (10, "SectionRange"), (11, "TooManyRows"), (12, "MapPlace"), (13, "MapEntry"),
    (14, "MapMissing"), (20, "StringPlace"), (21, "StringSpelling"), (22, "StringOrder"), (23, "TypeIndex"),
    (24, "TypeText"), (25, "TypeOrder"), (26, "ProtoIndex"), (27, "Shorty"), (28, "ParameterList"),
    (29, "ProtoOrder"), (30, "FieldIndex"), (31, "FieldKind"), (32, "FieldOrder"), (33, "MethodIndex"),
    (34, "MethodKind"), (35, "MethodOrder"), (40, "ClassIndex"), (41, "ClassKind"), (42, "ClassOrder"),
    (43, "InterfaceList"), (44, "ClassData"), (45, "MemberIndex"), (46, "MemberOwner"), (47, "MemberOrder"),
    (48, "Values"), (49, "TooManyValues"), (50, "ValueKind"), (51, "ValueDepth"), (60, "CodePlace"),
    (61, "EmptyCode"), (62, "Opcode"), (63, "Cut"), (64, "NonZero"), (65, "OperandIndex"), (66, "RegisterCount"),
    (67, "Payload"), (68, "BranchTarget"), (69, "BranchZero"), (70, "PayloadUse"), (71, "Try"), (72, "Handler"),
    (73, "Register"), (80, "TooManyTypes"), (81, "TooManyProtos"), (82, "StringOutOfReach"), (83, "FieldOutOfReach"),
    (84, "MethodOutOfReach"), (85, "BranchOutOfReach"), (86, "Misaligned"), (87, "TryTooLong"), (88, "TooManyTries"),
    (89, "HandlerTooFar"), (90, "TooBig"), (100, "Word"), (101, "Name"), (102, "Number"), (103, "Order"),
    (104, "Twice"), (105, "Target"), (106, "NotEnded"), (110, "Name"), (111, "MemberOrder"), (112, "ClassOrder"),
    (113, "Values"), (114, "Operand"), (115, "Target"), (116, "PayloadUse"), (117, "Try"), (118, "Register"),
    (200, "NotYet"), (255, "Memory"),
];

fn wanted_name(code: u16) -> &'static str {
    for (named, name) in &NAMES {
        if *named == code {
            return *name;
        }
    }
    "Unknown"
}

/// Whether each number below this one has its name or none.
fn are_named_below(end: u16) -> bool {
    for code in 0..end {
        if fault_name(code) != wanted_name(code) {
            return false;
        }
    }
    true
}

fn is_out_of_memory(fault: Fault) -> bool {
    fault.code == 255 && fault.place == 0
}

fn is_shown_so(alloc: Global, code: u16, place: u64, want: &str) -> Result<bool, Fault> {
    let fault = Fault { code, place };
    Ok(fault.to_string(alloc)?.as_str() == want)
}

/// What is asked of faults.
enum Query {
    NamesBelow(u16),
    Greatest,
    Failed,
    // a number and a place are shown so
    Shown(u16, u64, &'static str),
}

impl Case for Query {
    fn name(&self) -> &'static str {
        match self {
            Query::NamesBelow(_) => "each number below 301 has its name or none",
            Query::Greatest => "the greatest number has no name",
            Query::Failed => "a failed allocation is out of memory",
            Query::Shown(_, _, shown) => shown,
        }
    }

    fn holds(&self, alloc: Global) -> Result<bool, Fault> {
        match self {
            Query::NamesBelow(end) => Ok(are_named_below(*end)),
            Query::Greatest => Ok(fault_name(65535) == "Unknown"),
            Query::Failed => Ok(is_out_of_memory(Fault::from(AllocError))),
            Query::Shown(code, place, want) => is_shown_so(alloc, *code, *place, want),
        }
    }
}

#[rattlefmt::skip]
#[test]
fn faults_have_their_names_and_are_shown_with_their_sentences(rt: HostRuntime) -> Result<(), Fail> {
    static CASES: [Query; 5] = [
        Query::NamesBelow(301),
        Query::Greatest,
        Query::Failed,
        Query::Shown(8, 8, "8 Checksum at 8: the Adler-32 differs"),
        Query::Shown(15, 0, "15 Unknown at 0: no fault has this number"),
    ];
    all_hold(rt.alloc(), &CASES)
}
