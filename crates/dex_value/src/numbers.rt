//! Numbers of one to eight bytes, the low byte first.
ghost use Rattle.std.specs.Prelude.{◌≡◌, ℤ, pos, ◌+ℤ◌, ◌≤ℤ◌, ◌<ℤ◌, ◌+◌, ◌*◌, ◌^◌, ◌<◌, ◌≤◌, length};
ghost use Rattle.program_types.specs.View.{value};
ghost use Rattle.dex_value.specs.Spelling.{unsigned_of, signed_of, high_of};
ghost use Rattle.dex_value.specs.Faults.{widest_of};
ghost use Rattle.dex_value.specs.Reading.{number_code, IsNumber};

use crate::types::NumberType;
use byteorder::{ByteOrder, LittleEndian};
use program_types::Value;

/// The unsigned number of these bytes.
#[tactic(auto, unfolding(crate::specs::Spelling::unsigned_of))]
pub fn unsigned(low: &[u8]) -> u64
    requires some { 0 < length low.now }
    requires few { length low.now ≤ 8 }
    ensures value { result ≡ unsigned_of low.now }
    ensures char { length low.now ≤ 2 → result < 65536 }
    ensures index { length low.now ≤ 4 → result < 4294967296 }
    ensures fits { result < 256 ^ length low.now }
{
    LittleEndian::read_uint(low, low.len())
}

/// The signed number of these bytes, in two's complement.
#[tactic(auto, unfolding(crate::specs::Spelling::signed_of))]
fn signed(low: &[u8]) -> i64
    requires some { 0 < length low.now }
    requires few { length low.now ≤ 8 }
    ensures value { result ≡ signed_of low.now }
    ensures byte { length low.now ≤ 1 → (pos 0 ≤ℤ (result +ℤ pos 128)) × (result <ℤ pos 128) }
    ensures short { length low.now ≤ 2 → (pos 0 ≤ℤ (result +ℤ pos 32768)) × (result <ℤ pos 32768) }
    ensures int { length low.now ≤ 4 → (pos 0 ≤ℤ (result +ℤ pos 2147483648)) × (result <ℤ pos 2147483648) }
{
    LittleEndian::read_int(low, low.len())
}

/// The number of `width` bytes of which these are the high ones.
#[tactic(auto, unfolding(crate::specs::Spelling::unsigned_of, crate::specs::Spelling::high_of))]
fn high(bytes: &[u8], width: usize) -> u64
    requires some { 0 < length bytes.now }
    requires few { length bytes.now ≤ width }
    requires wide { width ≤ 8 }
    ensures value { result ≡ high_of width bytes.now }
    ensures float { width ≡ 4 → result < 4294967296 }
{
    unsigned(bytes) * 256u64.pow((width - bytes.len()) as u32)
}

/// The number that the bytes after a head of this type encode.
pub fn number<'a>(ty: NumberType, low: &[u8]) -> Value<'a>
    requires some { 0 < length low.now }
    requires few { length low.now ≤ widest_of (number_code ty) }
    ensures { IsNumber (number_code ty) low.now (value result) }
{
    match ty {
        NumberType::Byte => Value::Byte(signed(low) as i8),
        NumberType::Short => Value::Short(signed(low) as i16),
        NumberType::Char => Value::Char(unsigned(low) as u16),
        NumberType::Int => Value::Int(signed(low) as i32),
        NumberType::Long => Value::Long(signed(low)),
        NumberType::Float => Value::Float(high(low, 4) as u32),
        NumberType::Double => Value::Double(high(low, 8)),
    }
}
