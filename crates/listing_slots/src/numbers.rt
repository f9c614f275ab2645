//! Numbers in slots.

ghost use Rattle.std.specs.Prelude.{◌≡◌, ℕ, ℤ, ◌<◌, ◌≤◌, ◌^◌, ◌∷◌, [], ◌+◌, pos, neg_ℤ, List, IfSome, IfNone};
ghost use Rattle.listing_words.specs.Numbers.{SpellsNatural};
ghost use Rattle.listing_words.specs.Words.{plain_word};
ghost use Rattle.listing_words.specs.inner.View.{word};
ghost use Rattle.listing_slots.specs.Slots.{mark_text, SpellsNumber, SpellsInteger};

use crate::slot::Mark;
use listing_words::{Word, read_natural};

/// The byte of a mark.
fn mark_byte(mark: Mark) -> Option<u8>
    ensures some { IfSome result (λ c. mark_text mark ≡ c ∷ []) }
    ensures none { IfNone result (mark_text mark ≡ []) }
{
    match mark {
        Mark::Nothing => None,
        Mark::Register => Some(b'v'),
        Mark::Target => Some(b'@'),
    }
}

/// The number of at most `most` after the mark.
pub(crate) fn read_number(mark: Mark, text: &[u8], most: u64) -> Option<u64>
    ensures found { IfSome result (λ n. SpellsNumber mark most (plain_word text.now) n) }
    ensures none { IfNone result ((n : ℕ) → SpellsNumber mark most (plain_word text.now) n → ⊥) }
{
    let Some(before) = mark_byte(mark) else {
        return read_natural(text, most);
    };
    let (first, digits) = text.split_first()?;
    if *first != before {
        return None;
    }
    read_natural(digits, most)
}

/// The number of at most `most` after the mark, which a word spells.
pub fn read_marked(mark: Mark, one: Word<'_, '_>, most: u64) -> Option<u64>
    ensures found { IfSome result (λ n. SpellsNumber mark most (word one.entry) n) }
    ensures none { IfNone result ((n : ℕ) → SpellsNumber mark most (word one.entry) n → ⊥) }
{
    match one {
        Word::Plain(text) => read_number(mark, text, most),
        Word::Text(_) => None,
    }
}

/// What follows a minus.
fn after_minus(text: &[u8]) -> Option<&[u8]>
    ensures found { IfSome result (λ ds. text.now ≡ 45 ∷ ds.now) }
    ensures none { IfNone result ((ds : List ℕ) → text.now ≡ 45 ∷ ds → ⊥) }
{
    let (first, digits) = text.split_first()?;
    if *first != b'-' {
        return None;
    }
    Some(digits)
}

/// Minus a number.
fn minus(n: u64) -> i64
    requires { n ≤ 2 ^ 63 }
    ensures { result ≡ neg_ℤ (pos n) }
{
    if n == 0 {
        return 0;
    }
    -((n - 1) as i64) - 1
}

/// Minus the number that the digits spell, if that is at most `most`.
fn read_minus(digits: &[u8], most: u64) -> Option<i64>
    requires { most ≤ 2 ^ 63 }
    ensures found { IfSome result (λ z. (n : ℕ) × SpellsNatural digits.now n × (n ≤ most) × (z ≡ neg_ℤ (pos n))) }
    ensures none { IfNone result ((n : ℕ) → SpellsNatural digits.now n → n ≤ most → ⊥) }
{
    Some(minus(read_natural(digits, most)?))
}

/// The number from minus one more than `most` up to `most`; none where the text spells no number, or one beyond.
///
/// ```text
/// read_signed(b"-0x8", 7)   // Some(-8); None for `8`
/// ```
pub fn read_signed(text: &[u8], most: u64) -> Option<i64>
    requires { most < 2 ^ 63 }
    ensures found { IfSome result (λ z. SpellsInteger most (plain_word text.now) z) }
    ensures none { IfNone result ((z : ℤ) → SpellsInteger most (plain_word text.now) z → ⊥) }
{
    match after_minus(text) {
        Some(digits) => read_minus(digits, most + 1),
        None => match read_natural(text, most) {
            Some(n) => Some(n as i64),
            None => None,
        },
    }
}
