//! The values of words.

ghost use Rattle.std.specs.Prelude.{◌≡◌, ◌<◌, map};
ghost use Rattle.program_types.specs.View.{name, str, desc, proto};
ghost use Rattle.listing_slots.specs.inner.View.{datum};
ghost use Rattle.listing_slots.specs.Data.{at, byte_of, half_of, word_of, tiny_of, short_of, int_of, long_of, elements_of, name_of, text_of, type_of, proto_of};

use crate::key::Key;
use program_types::{Desc, FieldRef, Name, Proto, Str};

/// The value of a word.
#[derive(Clone, Copy)]
pub enum Datum<'a> {
    Byte(u8),
    Half(u16),
    Word(u32),
    Wide(u64),
    Tiny(i8),
    Short(i16),
    Int(i32),
    Long(i64),
    Elements(&'a [u8]),
    Name(Name<'a>),
    Enum(&'a FieldRef<'a>),
    Proto(&'a Proto<'a>),
    Key(Key),
}

/// The value of the word at a place: a keyword if there is no word.
pub fn datum_at<'a>(all: &[Datum<'a>], place: usize) -> Datum<'a>
    ensures { datum result ≡ at (map datum all.now) place }
{
    if place < all.len() {
        return all[place];
    }
    Datum::Key(Key::Equals)
}

#[tactic(auto, unfolding(crate::specs::Data::byte_of))]
pub fn byte_of(word_value: Datum<'_>) -> u8
    ensures { result ≡ byte_of (datum word_value.entry) }
{
    match word_value {
        Datum::Byte(n) => n,
        _ => 0,
    }
}

#[tactic(auto, unfolding(crate::specs::Data::half_of))]
pub fn half_of(word_value: Datum<'_>) -> u16
    ensures { result ≡ half_of (datum word_value.entry) }
{
    match word_value {
        Datum::Half(n) => n,
        _ => 0,
    }
}

#[tactic(auto, unfolding(crate::specs::Data::word_of))]
pub fn word_of(word_value: Datum<'_>) -> u32
    ensures { result ≡ word_of (datum word_value.entry) }
{
    match word_value {
        Datum::Word(n) => n,
        _ => 0,
    }
}

#[tactic(auto, unfolding(crate::specs::Data::tiny_of))]
pub fn tiny_of(word_value: Datum<'_>) -> i8
    ensures { result ≡ tiny_of (datum word_value.entry) }
{
    match word_value {
        Datum::Tiny(n) => n,
        _ => 0,
    }
}

#[tactic(auto, unfolding(crate::specs::Data::short_of))]
pub fn short_of(word_value: Datum<'_>) -> i16
    ensures { result ≡ short_of (datum word_value.entry) }
{
    match word_value {
        Datum::Short(n) => n,
        _ => 0,
    }
}

#[tactic(auto, unfolding(crate::specs::Data::int_of))]
pub fn int_of(word_value: Datum<'_>) -> i32
    ensures { result ≡ int_of (datum word_value.entry) }
{
    match word_value {
        Datum::Int(n) => n,
        _ => 0,
    }
}

#[tactic(auto, unfolding(crate::specs::Data::long_of))]
pub fn long_of(word_value: Datum<'_>) -> i64
    ensures { result ≡ long_of (datum word_value.entry) }
{
    match word_value {
        Datum::Long(n) => n,
        _ => 0,
    }
}

#[tactic(auto, unfolding(crate::specs::Data::elements_of))]
pub fn elements_of<'a>(word_value: Datum<'a>) -> &'a [u8]
    ensures { result.now ≡ elements_of (datum word_value.entry) }
{
    match word_value {
        Datum::Elements(bytes) => bytes,
        _ => &[],
    }
}

#[tactic(auto, unfolding(crate::specs::Data::name_of))]
pub fn name_of<'a>(word_value: Datum<'a>) -> Name<'a>
    ensures { name result ≡ name_of (datum word_value.entry) }
{
    match word_value {
        Datum::Name(found) => found,
        _ => Name::Text(Str { units: &[] }),
    }
}

#[tactic(auto, unfolding(crate::specs::Data::text_of))]
pub fn text_of<'a>(word_value: Datum<'a>) -> Str<'a>
    ensures { str result ≡ text_of (datum word_value.entry) }
{
    match word_value {
        Datum::Name(Name::Text(text)) => text,
        _ => Str { units: &[] },
    }
}

#[tactic(auto, unfolding(crate::specs::Data::type_of))]
pub fn type_of<'a>(word_value: Datum<'a>) -> Desc<'a>
    ensures { desc result ≡ type_of (datum word_value.entry) }
{
    match word_value {
        Datum::Name(Name::Desc(ty)) => ty,
        _ => Desc {
            text: Str { units: &[] },
        },
    }
}

static NO_PROTO: Proto<'static> = Proto {
    ret: Desc {
        text: Str { units: &[] },
    },
    params: &[],
};

#[tactic(auto, unfolding(crate::specs::Data::proto_of))]
pub fn proto_of<'a>(word_value: Datum<'a>) -> &'a Proto<'a>
    ensures { proto result.now ≡ proto_of (datum word_value.entry) }
{
    match word_value {
        Datum::Proto(found) => found,
        _ => &NO_PROTO,
    }
}
