//! The number, the name and the sentence of each fault, in one table, and what is read from it.
ghost use Rattle.std.specs.Prelude.{◌≡◌, map};
ghost use Rattle.dex_base.specs.Fault.{fault_name, fault_sentence, column_text, unknown, no_fault};
ghost use Rattle.dex_base.specs.inner.Fault.{row_number, row_name, row_sentence};

use crate::fault;
use crate::fault::Fault;
use std::fmt;

/// A number, its name, and what is wrong at its place.
#[derive(Clone, Copy)]
pub struct Row<T> {
    pub number: u16,
    pub name: T,
    pub says: T,
}

/// A row: number, name and sentence.
macro_rules! row {
    ($number:expr, $name:literal, $says:literal) => {
        Row { number: $number, name: $name, says: $says }
    };
}

/// All faults, by number. The sentences are docs/FORMAT.md's and docs/LISTING.md's, shortened.
#[rattlefmt::skip]
pub static FAULTS: [Row<&str>; 85] = [
    // Header, map and checksums of a file.
    row!(fault::TOO_SHORT, "TooShort", "there are fewer than 112 bytes"),
    row!(fault::MAGIC, "Magic", "this is no .dex file"),
    row!(fault::VERSION, "Version", "the version isn't 035"),
    row!(fault::FILE_SIZE, "FileSize", "file_size isn't the length"),
    row!(fault::HEADER_SIZE, "HeaderSize", "header_size isn't 0x70"),
    row!(fault::ENDIAN, "Endian", "endian_tag isn't 0x12345678"),
    row!(fault::LINKED, "Linked", "link_size isn't 0"),
    row!(fault::CHECKSUM, "Checksum", "the Adler-32 differs"),
    row!(fault::SIGNATURE, "Signature", "the SHA-1 differs"),
    row!(fault::SECTION_RANGE, "SectionRange", "a section is misaligned, below 0x70 or runs past the end"),
    row!(fault::TOO_MANY_ROWS, "TooManyRows", "there are more than 65535 types or prototypes"),
    row!(fault::MAP_PLACE, "MapPlace", "the map is misaligned or not within the data section"),
    row!(fault::MAP_ENTRY, "MapEntry", "an entry of the map breaks a rule"),
    row!(fault::MAP_MISSING, "MapMissing", "the map has no entry of its own, or none of a table with rows"),
    // The five tables of names.
    row!(fault::STRING_PLACE, "StringPlace", "a string's offset lies outside of its section"),
    row!(fault::STRING_SPELLING, "StringSpelling", "no string stands at the offset"),
    row!(fault::STRING_ORDER, "StringOrder", "a string isn't above the row before"),
    row!(fault::TYPE_INDEX, "TypeIndex", "a type's string isn't there"),
    row!(fault::TYPE_TEXT, "TypeText", "a type's string is no descriptor"),
    row!(fault::TYPE_ORDER, "TypeOrder", "a type isn't above the row before"),
    row!(fault::PROTO_INDEX, "ProtoIndex", "a prototype's shorty or return type isn't there"),
    row!(fault::SHORTY, "Shorty", "a shorty isn't that of the types"),
    row!(fault::PARAMETER_LIST, "ParameterList", "no list of parameters stands at the offset"),
    row!(fault::PROTO_ORDER, "ProtoOrder", "a prototype isn't above the row before"),
    row!(fault::FIELD_INDEX, "FieldIndex", "a field's class, type or name isn't there"),
    row!(fault::FIELD_KIND, "FieldKind", "a field's class, type or name is of a wrong kind"),
    row!(fault::FIELD_ORDER, "FieldOrder", "a field isn't above the row before"),
    row!(fault::METHOD_INDEX, "MethodIndex", "a method's class, prototype or name isn't there"),
    row!(fault::METHOD_KIND, "MethodKind", "a method's class or name is of a wrong kind"),
    row!(fault::METHOD_ORDER, "MethodOrder", "a method isn't above the row before"),
    // Class rows, class data and static values.
    row!(fault::CLASS_INDEX, "ClassIndex", "the class, its superclass or source file isn't there"),
    row!(fault::CLASS_KIND, "ClassKind", "the class or its superclass is no class type"),
    row!(fault::CLASS_ORDER, "ClassOrder", "the class was defined before, or what it extends is itself or comes later"),
    row!(fault::INTERFACE_LIST, "InterfaceList", "no list of distinct class types stands at the offset"),
    row!(fault::CLASS_DATA, "ClassData", "no class data stands at the offset"),
    row!(fault::MEMBER_INDEX, "MemberIndex", "a member's index is past its table"),
    row!(fault::MEMBER_OWNER, "MemberOwner", "a member is of another class"),
    row!(fault::MEMBER_ORDER, "MemberOrder", "a member has the index of the one before"),
    row!(fault::VALUES, "Values", "no static values stand at the offset"),
    row!(fault::TOO_MANY_VALUES, "TooManyValues", "there are more values than static fields"),
    row!(fault::VALUE_KIND, "ValueKind", "a value's type, argument or index is wrong"),
    row!(fault::VALUE_DEPTH, "ValueDepth", "an array is within 64 others"),
    // Code items.
    row!(fault::CODE_PLACE, "CodePlace", "a code item is misaligned, outside of its section or runs past it"),
    row!(fault::EMPTY_CODE, "EmptyCode", "a code has no units"),
    row!(fault::OPCODE, "Opcode", "an opcode isn't used"),
    row!(fault::CUT, "Cut", "an instruction runs past the units"),
    row!(fault::NON_ZERO, "NonZero", "a bit that has to be zero is set"),
    row!(fault::OPERAND_INDEX, "OperandIndex", "an index has no row"),
    row!(fault::REGISTER_COUNT, "RegisterCount", "a list has more than five registers"),
    row!(fault::PAYLOAD, "Payload", "a payload is at an odd unit, of another width, or its keys don't rise"),
    row!(fault::BRANCH_TARGET, "BranchTarget", "a branch or a switch leads to no instruction, or to a payload"),
    row!(fault::BRANCH_ZERO, "BranchZero", "a branch leads to itself"),
    row!(fault::PAYLOAD_USE, "PayloadUse", "a payload and its user don't fit each other"),
    row!(fault::TRY, "Try", "a try begins at no instruction, covers nothing, ends too late or overlaps the one before"),
    row!(fault::HANDLER, "Handler", "the handlers of a code are wrong"),
    row!(fault::REGISTER, "Register",
        "more ins than registers, or an instruction names a register that the code doesn't have"),
    // Programs that no file of this form can hold.
    row!(fault::TOO_MANY_TYPES, "TooManyTypes", "more than 65535 types are needed"),
    row!(fault::TOO_MANY_PROTOS, "TooManyProtos", "more than 65535 prototypes are needed"),
    row!(fault::STRING_OUT_OF_REACH, "StringOutOfReach", "a string's index doesn't fit its instruction"),
    row!(fault::FIELD_OUT_OF_REACH, "FieldOutOfReach", "a field's index doesn't fit 16 bits"),
    row!(fault::METHOD_OUT_OF_REACH, "MethodOutOfReach", "a method's index doesn't fit 16 bits"),
    row!(fault::BRANCH_OUT_OF_REACH, "BranchOutOfReach", "a branch's offset doesn't fit its instruction"),
    row!(fault::MISALIGNED, "Misaligned", "a payload is at an odd address"),
    row!(fault::TRY_TOO_LONG, "TryTooLong",
        "the last instruction of a try begins more than 65534 units after its start"),
    row!(fault::TOO_MANY_TRIES, "TooManyTries", "a code has more than 65535 tries"),
    row!(fault::HANDLER_TOO_FAR, "HandlerTooFar", "a handler begins more than 65535 bytes into its list"),
    row!(fault::TOO_BIG, "TooBig",
        "the file would be too big, or an aligned code has more than 2147483647 instructions"),
    // Lines of a listing.
    row!(fault::LINE_WORD, "Word", "a word or the form of a line is wrong"),
    row!(fault::LINE_NAME, "Name", "a name is malformed"),
    row!(fault::LINE_NUMBER, "Number", "a number is malformed or out of range"),
    row!(fault::LINE_ORDER, "Order", "the line may not stand here"),
    row!(fault::LINE_TWICE, "Twice", "the line gives again what was given"),
    row!(fault::LINE_TARGET, "Target", "a target is no instruction of its code"),
    row!(fault::LINE_NOT_ENDED, "NotEnded", "the text ends inside a class or a code, or before its first line"),
    // Programs that are not well formed.
    row!(fault::PROGRAM_NAME, "Name", "a name isn't of its form or kind"),
    row!(fault::PROGRAM_MEMBER_ORDER, "MemberOrder", "a list of members doesn't strictly rise"),
    row!(fault::PROGRAM_CLASS_ORDER, "ClassOrder",
        "the class was defined before, what it extends is itself or comes later, or an interface is named twice"),
    row!(fault::PROGRAM_VALUES, "Values", "there are more values than static fields, or a value is too deep"),
    row!(fault::PROGRAM_OPERAND, "Operand",
        "no instructions or more than 2147483647, or an operand that its format doesn't take"),
    row!(fault::PROGRAM_TARGET, "Target",
        "a branch or a switch leads to no instruction, to a payload, or to itself where it may not"),
    row!(fault::PROGRAM_PAYLOAD_USE, "PayloadUse", "a payload and its user don't fit each other"),
    row!(fault::PROGRAM_TRY, "Try", "a try or its handlers are wrong"),
    row!(fault::PROGRAM_REGISTER, "Register",
        "more ins than registers, or an instruction names a register that the code doesn't have"),
    // This library itself.
    row!(fault::NOT_YET, "NotYet", "not answered any more"),
    row!(255, "Memory", "out of memory"),
];

/// The row of a number, or a row for unknown numbers.
fn row_in<'a>(table: &[Row<&'a str>], number: u16) -> Row<&'a str>
    ensures name { result.name.now ≡ column_text (map row_number table.now) (map row_name table.now) unknown number }
    ensures says { result.says.now ≡ column_text (map row_number table.now) (map row_sentence table.now) no_fault number }
{
    for row in table {
        if row.number == number {
            return *row;
        }
    }
    Row {
        number,
        name: "Unknown",
        says: "no fault has this number",
    }
}

/// The row of a number in the table.
fn row_of(number: u16) -> Row<&'static str>
    ensures name { result.name.now ≡ fault_name number }
    ensures says { result.says.now ≡ fault_sentence number }
{
    row_in(&FAULTS, number)
}

/// The name of a fault's number, `Unknown` for a number that has none.
///
/// ```
/// use dex_base::fault_name;
///
/// assert_eq!(rt; fault_name(8), "Checksum");
/// ```
pub fn fault_name(number: u16) -> &'static str
    ensures { result.now ≡ fault_name number }
{
    row_of(number).name
}

/// What is wrong at the place of a fault with this number, in a few words.
///
/// ```
/// use dex_base::fault_sentence;
///
/// assert_eq!(rt; fault_sentence(8), "the Adler-32 differs");
/// ```
pub fn fault_sentence(number: u16) -> &'static str
    ensures { result.now ≡ fault_sentence number }
{
    row_of(number).says
}

/// Number, name, place and sentence, as `8 Checksum at 8: the Adler-32 differs`.
impl fmt::Display for Fault {
    ghost use Rattle.std.specs.Prelude.{Some};
    ghost use Rattle.dex_base.specs.Fault.{fault_text};

    ghost output = { λ fault. Some (fault_text fault) };

    fn fmt<W: fmt::Write>(&self, f: &mut fmt::Formatter<W>) -> fmt::Result {
        let (number, place) = (self.code, self.place);
        let row = row_of(number);
        let (name, says) = (row.name, row.says);
        write!(f, "{number} {name} at {place}: {says}")
    }
}
