//! Numbers that instructions give themselves.

ghost use Rattle.std.specs.Prelude.{◌≡◌};
ghost use Rattle.listing_words.specs.Numbers as said;

use crate::numbers::{digit, read_natural};

/// Whether the word is this number, in any spelling.
pub fn is_number(word: &[u8], n: u64) -> bool
    ensures { result ≡ said.is_number word.now n }
{
    match read_natural(word, n) {
        Some(m) => m == n,
        None => false,
    }
}

/// Whether there are digits, and nothing else.
fn all_digits(radix: u64, word: &[u8]) -> bool
    ensures { result ≡ said.all_digits radix word.now }
{
    if word.len() == 0 {
        return false;
    }
    for c in word {
        if digit(*c) >= radix {
            return false;
        }
    }
    true
}

/// Whether the word is a number without a sign.
pub fn is_natural(word: &[u8]) -> bool
    ensures { result ≡ said.is_natural word.now }
{
    match word {
        [b'0', b'x', digits @ ..] => all_digits(16, digits),
        _ => all_digits(10, word),
    }
}
