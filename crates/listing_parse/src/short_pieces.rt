//! The pieces of an instruction's line that is written as listings are printed: one space before each operand, and registers in
//! decimal digits. Other forms are left to the general reader.

ghost use Rattle.std.specs.Prelude.{◌≡◌, ◌≤◌, ◌<◌, ◌^◌, ◌∷◌, [], length, drop, IfSome};
ghost use Rattle.listing_words.specs.Words.{up_to_space, after_spaces, TakesPlain};
ghost use Rattle.listing_slots.specs.declared.slot.Mark.TheVariants.{Nothing, Register};
ghost use Rattle.listing_parse.specs.inner.Short.{TakesDigits, TakesNumber, TakesRegisters, EndsInInteger};

use listing_slots::read_signed;
use listing_words::is_plain_word;

/// What follows the byte at the front, if it is this one.
fn after_byte(byte: u8, text: &[u8]) -> Option<&[u8]>
    ensures { IfSome result (λ r. text.now ≡ byte ∷ r.now) }
{
    let (first, rest) = text.split_first()?;
    if *first == byte { Some(rest) } else { None }
}

/// The number up to `most` of the decimal digits at the front, up to a space or the end, and the rest.
fn take_digits(most: u32, text: &[u8]) -> Option<(u32, &[u8])>
    requires { most ≤ 65535 }
    ensures { IfSome result (λ r. TakesDigits most text.now r.0 r.1.now) }
{
    let mut value = 0u32;
    for at in 0..text.len() {
        let c = text[at];
        if c == b' ' {
            return cut_digits(value, text, at);
        }
        if c < b'0' || b'9' < c {
            return None;
        }
        value = value * 10 + u32::from(c - b'0');
        if value > most {
            return None;
        }
    }
    cut_digits(value, text, text.len())
}

/// The number that the digits before this place write, and what follows them; none where no digit does.
fn cut_digits(value: u32, text: &[u8], at: usize) -> Option<(u32, &[u8])>
    requires { at ≤ length text.now }
    ensures { IfSome result (λ r. (0 < at) × (r.0 ≡ value) × (r.1.now ≡ drop at text.now)) }
{
    if at == 0 {
        return None;
    }
    let (_, rest) = text.split_at(at);
    Some((value, rest))
}

/// The number up to `most` after a space and `v`, and what follows it.
fn take_register(most: u32, text: &[u8]) -> Option<(u32, &[u8])>
    requires { most ≤ 65535 }
    ensures { IfSome result (λ r. TakesNumber Register most text.now r.0 r.1.now) }
{
    let digits = after_byte(b'v', after_byte(b' ', text)?)?;
    take_digits(most, digits)
}

/// A register of four bits.
pub(crate) fn take4(text: &[u8]) -> Option<(u8, &[u8])>
    ensures { IfSome result (λ r. TakesNumber Register 15 text.now r.0 r.1.now) }
{
    let (number, rest) = take_register(15, text)?;
    Some((number as u8, rest))
}

/// A register of eight bits.
pub(crate) fn take8(text: &[u8]) -> Option<(u8, &[u8])>
    ensures { IfSome result (λ r. TakesNumber Register 255 text.now r.0 r.1.now) }
{
    let (number, rest) = take_register(255, text)?;
    Some((number as u8, rest))
}

/// A register of sixteen bits.
pub(crate) fn take16(text: &[u8]) -> Option<(u16, &[u8])>
    ensures { IfSome result (λ r. TakesNumber Register 65535 text.now r.0 r.1.now) }
{
    let (number, rest) = take_register(65535, text)?;
    Some((number as u16, rest))
}

/// The last word, a register of four bits.
pub(crate) fn last4(text: &[u8]) -> Option<u8>
    ensures { IfSome result (λ n. TakesNumber Register 15 text.now n []) }
{
    let (number, rest) = take4(text)?;
    if rest.is_empty() { Some(number) } else { None }
}

/// The last word, a register of eight bits.
pub(crate) fn last8(text: &[u8]) -> Option<u8>
    ensures { IfSome result (λ n. TakesNumber Register 255 text.now n []) }
{
    let (number, rest) = take8(text)?;
    if rest.is_empty() { Some(number) } else { None }
}

/// The last word, a register of sixteen bits.
pub(crate) fn last16(text: &[u8]) -> Option<u16>
    ensures { IfSome result (λ n. TakesNumber Register 65535 text.now n []) }
{
    let (number, rest) = take16(text)?;
    if rest.is_empty() { Some(number) } else { None }
}

/// How many registers there are, and what follows.
pub(crate) fn take_count(text: &[u8]) -> Option<(u8, &[u8])>
    ensures { IfSome result (λ r. TakesNumber Nothing 255 text.now r.0 r.1.now) }
{
    let digits = after_byte(b' ', text)?;
    let (number, rest) = take_digits(255, digits)?;
    Some((number as u8, rest))
}

/// What follows a brace alone, after a space.
pub(crate) fn after_brace(brace: u8, text: &[u8]) -> Option<&[u8]>
    ensures { IfSome result (λ r. (text.now ≡ 32 ∷ brace ∷ r.now) × (up_to_space r.now ≡ [])) }
{
    let rest = after_byte(brace, after_byte(b' ', text)?)?;
    after_byte(b' ', rest)?;
    Some(rest)
}

/// The registers of four bits at the front, five at most, and what follows them.
pub(crate) fn take_registers(text: &[u8]) -> ([u8; 5], u8, &[u8])
    ensures { TakesRegisters text.now result.0 result.1 result.2.now }
{
    let Some((a, after)) = take4(text) else {
        return ([0, 0, 0, 0, 0], 0, text);
    };
    let Some((b, after_b)) = take4(after) else {
        return ([a, 0, 0, 0, 0], 1, after);
    };
    let Some((c, after_c)) = take4(after_b) else {
        return ([a, b, 0, 0, 0], 2, after_b);
    };
    let Some((d, after_d)) = take4(after_c) else {
        return ([a, b, c, 0, 0], 3, after_c);
    };
    let Some((e, after_e)) = take4(after_d) else {
        return ([a, b, c, d, 0], 4, after_d);
    };
    ([a, b, c, d, e], 5, after_e)
}

/// The last word, after one space, where it has no quotes.
pub(crate) fn last_plain(text: &[u8]) -> Option<&[u8]>
    ensures { IfSome result (λ w. TakesPlain (after_spaces text.now) w.now []) }
{
    let word = after_byte(b' ', text)?;
    if is_plain_word(word) {
        Some(word)
    } else {
        None
    }
}

/// The last word, a number from minus one more than `most` up to it.
fn literal(most: u64, text: &[u8]) -> Option<i64>
    requires { most < 2 ^ 63 }
    ensures { IfSome result (λ z. EndsInInteger most text.now z) }
{
    read_signed(last_plain(text)?, most)
}

/// The last word, a signed number of four bits.
pub(crate) fn last_nibble(text: &[u8]) -> Option<i8>
    ensures { IfSome result (λ z. EndsInInteger 7 text.now z) }
{
    Some(literal(7, text)? as i8)
}

/// The last word, a signed number of eight bits.
pub(crate) fn last_tiny(text: &[u8]) -> Option<i8>
    ensures { IfSome result (λ z. EndsInInteger 127 text.now z) }
{
    Some(literal(127, text)? as i8)
}

/// The last word, a signed number of sixteen bits.
pub(crate) fn last_short(text: &[u8]) -> Option<i16>
    ensures { IfSome result (λ z. EndsInInteger 32767 text.now z) }
{
    Some(literal(32767, text)? as i16)
}

/// The last word, a signed number of 32 bits.
pub(crate) fn last_int(text: &[u8]) -> Option<i32>
    ensures { IfSome result (λ z. EndsInInteger 2147483647 text.now z) }
{
    Some(literal(2147483647, text)? as i32)
}

/// The last word, a signed number of 64 bits.
pub(crate) fn last_long(text: &[u8]) -> Option<i64>
    ensures { IfSome result (λ z. EndsInInteger 9223372036854775807 text.now z) }
{
    literal(9223372036854775807, text)
}
