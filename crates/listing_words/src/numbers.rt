//! Numbers in decimal or hexadecimal digits.

ghost use Rattle.std.specs.Prelude.{◌≡◌, ℕ, ◌<◌, ◌≤◌, ◌⊎◌, IfSome, IfNone, SomeIff, ◌==◌};
ghost use Rattle.std.specs.Str.Parse.{IsNumeral, digits_value};
ghost use Rattle.std.specs.Char.{digit_value};
ghost use Rattle.listing_words.specs.Numbers.{SpellsNatural};

use dex_base::Fault;

/// The value of a digit or a letter in any base up to 36, and 36 for any other byte.
pub(crate) fn digit(c: u8) -> u64
    ensures value { result ≡ digit_value c }
    ensures small { result ≤ 36 }
{
    match c {
        b'0'..=b'9' => (c - b'0') as u64,
        b'A'..=b'Z' => (c - b'A' + 10) as u64,
        b'a'..=b'z' => (c - b'a' + 10) as u64,
        _ => 36,
    }
}

/// The number that the digits write, if it is at most `most`.
pub(crate) fn read_digits(radix: u64, digits: &[u8], most: u64) -> Option<u64>
    requires { (radix ≡ 10) ⊎ (radix ≡ 16) }
    ensures { SomeIff result (IsNumeral radix digits.now × (digits_value radix digits.now ≤ most)) (digits_value radix digits.now) }
{
    if digits.len() == 0 {
        return None;
    }
    let mut value = 0u64;
    for c in digits {
        let next = digit(*c);
        if next >= radix {
            return None;
        }
        let sum = value as u128 * radix as u128 + next as u128;
        if sum > most as u128 {
            return None;
        }
        value = sum as u64;
    }
    Some(value)
}

/// The number of at most `most` of the word: decimal digits, or `0x` and hexadecimal digits of either case.
pub fn read_natural(word: &[u8], most: u64) -> Option<u64>
    ensures found { IfSome result (λ n. SpellsNatural word.now n × (n ≤ most)) }
    ensures none { IfNone result ((n : ℕ) → SpellsNatural word.now n → n ≤ most → ⊥) }
{
    match word {
        [b'0', b'x', digits @ ..] => read_digits(16, digits, most),
        _ => read_digits(10, word, most),
    }
}
