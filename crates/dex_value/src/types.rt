//! The types of values that have bytes after their head ("Dalvik Executable format", "Value formats").
ghost use Rattle.std.specs.Prelude.{◌≡◌, IfSome, IfNone};
ghost use Rattle.dex_value.specs.Faults.{widest_of};
ghost use Rattle.dex_value.specs.Reading.{sized_code, table_of_type};

use dex_insn::IndexKind;

/// The types whose bytes are a number.
#[derive(Clone, Copy)]
pub enum NumberType {
    Byte,
    Short,
    Char,
    Int,
    Long,
    Float,
    Double,
}

/// The types whose bytes are the index of a name.
#[derive(Clone, Copy)]
pub enum NameType {
    String,
    Type,
    Field,
    Method,
    Enum,
}

/// The types that have bytes after their head.
#[derive(Clone, Copy)]
pub enum SizedType {
    Number(NumberType),
    Name(NameType),
}

/// The type of this code, the low five bits of a head. None for those without bytes, and for all others.
pub fn sized_type(code: u8) -> Option<SizedType>
    ensures some { IfSome result (λ ty. sized_code ty ≡ code) }
    ensures none { IfNone result (widest_of code ≡ 0) }
{
    Some(match code {
        0x00 => SizedType::Number(NumberType::Byte),
        0x02 => SizedType::Number(NumberType::Short),
        0x03 => SizedType::Number(NumberType::Char),
        0x04 => SizedType::Number(NumberType::Int),
        0x06 => SizedType::Number(NumberType::Long),
        0x10 => SizedType::Number(NumberType::Float),
        0x11 => SizedType::Number(NumberType::Double),
        0x17 => SizedType::Name(NameType::String),
        0x18 => SizedType::Name(NameType::Type),
        0x19 => SizedType::Name(NameType::Field),
        0x1a => SizedType::Name(NameType::Method),
        0x1b => SizedType::Name(NameType::Enum),
        _ => return None,
    })
}

/// The greatest number of bytes of a value of this type.
pub(crate) fn widest(ty: SizedType) -> usize
    ensures { result ≡ widest_of (sized_code ty) }
{
    match ty {
        SizedType::Number(NumberType::Byte) => 1,
        SizedType::Number(NumberType::Short | NumberType::Char) => 2,
        SizedType::Number(NumberType::Int | NumberType::Float) => 4,
        SizedType::Number(NumberType::Long | NumberType::Double) => 8,
        SizedType::Name(_) => 4,
    }
}

/// The table of the names of this type. An enum constant is a field.
pub fn name_kind(ty: NameType) -> IndexKind
    ensures { result ≡ table_of_type ty }
{
    match ty {
        NameType::String => IndexKind::String,
        NameType::Type => IndexKind::Type,
        NameType::Field | NameType::Enum => IndexKind::Field,
        NameType::Method => IndexKind::Method,
    }
}
