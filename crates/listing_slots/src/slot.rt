//! Slots: the kinds of words.

use crate::key::Key;

/// The mark before a number.
#[derive(Clone, Copy)]
pub enum Mark {
    Nothing,
    Register,
    Target,
}

/// The kind of a word.
#[derive(Clone, Copy)]
pub enum Slot {
    /// A number up to the highest that is allowed.
    Byte(Mark, u8),
    Half(Mark, u16),
    Word(Mark, u32),
    /// A signed number: from -8 to 7, and of 8, 16, 32 and 64 bits.
    Nibble,
    Tiny,
    Short,
    Int,
    Long,
    /// Access flags, which are printed in hexadecimal.
    Flags,
    /// The bits of a float or a double, in hexadecimal.
    Float,
    Double,
    /// Pairs of hexadecimal digits.
    Elements,
    /// A text in quotes.
    Text,
    /// Names.
    Member,
    Desc,
    Field,
    Method,
    Enum,
    Proto,
    /// A keyword.
    Key(Key),
}
