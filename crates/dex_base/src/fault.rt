//! Faults, and their numbers by name: `fault_name` has the same names.
ghost use Rattle.std.specs.Prelude.{◌≡◌};
ghost use Rattle.dex_base.specs.Fault.{memory};

use std::alloc::{AllocError, AllocFailed};

// Header, map and checksums of a file.
pub const TOO_SHORT: u16 = 1;

pub const MAGIC: u16 = 2;

pub const VERSION: u16 = 3;

pub const FILE_SIZE: u16 = 4;

pub const HEADER_SIZE: u16 = 5;

pub const ENDIAN: u16 = 6;

pub const LINKED: u16 = 7;

pub const CHECKSUM: u16 = 8;

pub const SIGNATURE: u16 = 9;

pub const SECTION_RANGE: u16 = 10;

pub const TOO_MANY_ROWS: u16 = 11;

pub const MAP_PLACE: u16 = 12;

pub const MAP_ENTRY: u16 = 13;

pub const MAP_MISSING: u16 = 14;

// The five tables of names.
pub const STRING_PLACE: u16 = 20;

pub const STRING_SPELLING: u16 = 21;

pub const STRING_ORDER: u16 = 22;

pub const TYPE_INDEX: u16 = 23;

pub const TYPE_TEXT: u16 = 24;

pub const TYPE_ORDER: u16 = 25;

pub const PROTO_INDEX: u16 = 26;

pub const SHORTY: u16 = 27;

pub const PARAMETER_LIST: u16 = 28;

pub const PROTO_ORDER: u16 = 29;

pub const FIELD_INDEX: u16 = 30;

pub const FIELD_KIND: u16 = 31;

pub const FIELD_ORDER: u16 = 32;

pub const METHOD_INDEX: u16 = 33;

pub const METHOD_KIND: u16 = 34;

pub const METHOD_ORDER: u16 = 35;

// Class rows, class data and static values.
pub const CLASS_INDEX: u16 = 40;

pub const CLASS_KIND: u16 = 41;

pub const CLASS_ORDER: u16 = 42;

pub const INTERFACE_LIST: u16 = 43;

pub const CLASS_DATA: u16 = 44;

pub const MEMBER_INDEX: u16 = 45;

pub const MEMBER_OWNER: u16 = 46;

pub const MEMBER_ORDER: u16 = 47;

pub const VALUES: u16 = 48;

pub const TOO_MANY_VALUES: u16 = 49;

pub const VALUE_KIND: u16 = 50;

pub const VALUE_DEPTH: u16 = 51;

// Code items.
pub const CODE_PLACE: u16 = 60;

pub const EMPTY_CODE: u16 = 61;

pub const OPCODE: u16 = 62;

pub const CUT: u16 = 63;

pub const NON_ZERO: u16 = 64;

pub const OPERAND_INDEX: u16 = 65;

pub const REGISTER_COUNT: u16 = 66;

pub const PAYLOAD: u16 = 67;

pub const BRANCH_TARGET: u16 = 68;

pub const BRANCH_ZERO: u16 = 69;

pub const PAYLOAD_USE: u16 = 70;

pub const TRY: u16 = 71;

pub const HANDLER: u16 = 72;

pub const REGISTER: u16 = 73;

// Programs that no file of this form can hold.
pub const TOO_MANY_TYPES: u16 = 80;

pub const TOO_MANY_PROTOS: u16 = 81;

pub const STRING_OUT_OF_REACH: u16 = 82;

pub const FIELD_OUT_OF_REACH: u16 = 83;

pub const METHOD_OUT_OF_REACH: u16 = 84;

pub const BRANCH_OUT_OF_REACH: u16 = 85;

pub const MISALIGNED: u16 = 86;

pub const TRY_TOO_LONG: u16 = 87;

pub const TOO_MANY_TRIES: u16 = 88;

pub const HANDLER_TOO_FAR: u16 = 89;

pub const TOO_BIG: u16 = 90;

// Lines of a listing.
pub const LINE_WORD: u16 = 100;

pub const LINE_NAME: u16 = 101;

pub const LINE_NUMBER: u16 = 102;

pub const LINE_ORDER: u16 = 103;

pub const LINE_TWICE: u16 = 104;

pub const LINE_TARGET: u16 = 105;

pub const LINE_NOT_ENDED: u16 = 106;

// Programs that are not well formed.
pub const PROGRAM_NAME: u16 = 110;

pub const PROGRAM_MEMBER_ORDER: u16 = 111;

pub const PROGRAM_CLASS_ORDER: u16 = 112;

pub const PROGRAM_VALUES: u16 = 113;

pub const PROGRAM_OPERAND: u16 = 114;

pub const PROGRAM_TARGET: u16 = 115;

pub const PROGRAM_PAYLOAD_USE: u16 = 116;

pub const PROGRAM_TRY: u16 = 117;

pub const PROGRAM_REGISTER: u16 = 118;

// This library itself.
pub const NOT_YET: u16 = 200;

/// Why a file, a program or a listing is refused: the number of the fault, and its place.
///
/// In a file the place is a byte offset, in a program the number of a class, in a listing the number of a line.
#[derive(Clone, Copy, Debug, PartialEq, Eq)]
pub struct Fault {
    pub code: u16,
    pub place: u64,
}

impl Fault {
    /// Out of memory: returned only if a request for memory was refused.
    pub const MEMORY: Fault = Fault {
        code: 255,
        place: 0,
    };

    /// The fault of this number at this place.
    pub fn at(code: u16, place: u64) -> Fault
        ensures { result ≡ record { code = code; place = place } }
    {
        Fault { code, place }
    }
}

impl From<AllocError> for Fault {
    ghost from_gives = { λ _ fault. fault ≡ memory };

    fn from(_error: AllocError) -> Fault {
        Fault::MEMORY
    }
}

impl<T: Drop> From<AllocFailed<T>> for Fault {
    ghost from_gives = { λ _ fault. fault ≡ memory };

    fn from(_error: AllocFailed<T>) -> Fault {
        Fault::MEMORY
    }
}
