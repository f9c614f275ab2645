//! The bits of a number and the bytes of an array, in hexadecimal digits of either case.

ghost use Rattle.std.specs.Prelude.{ℕ, ◌<◌, ◌≤◌, List, IfOk, IfSome, IfNone, IsOkUnless};
ghost use Rattle.dex_base.specs.Fault.{memory};
ghost use Rattle.listing_words.specs.Numbers.{SpellsBits, SpellsElements};

use crate::numbers::{digit, read_digits};
use bumpalo::Bump;
use bumpalo::collections::into_bump_slice;
use dex_base::Fault;

/// The number that exactly `count` hexadecimal digits write.
pub fn read_bits(count: usize, word: &[u8]) -> Option<u64>
    requires some { 0 < count }
    requires few { count ≤ 16 }
    ensures found { IfSome result (λ n. SpellsBits count word.now n) }
    ensures none { IfNone result ((n : ℕ) → SpellsBits count word.now n → ⊥) }
{
    if word.len() != count {
        return None;
    }
    read_digits(16, word, 18446744073709551615)
}

/// The bytes that pairs of hexadecimal digits write, in the arena; none where the word is something else.
pub fn read_elements<'a>(arena: &'a Bump, word: &[u8]) -> Result<Option<&'a [u8]>, Fault>
    ensures found { IfOk result (λ r. IfSome r (λ bytes. SpellsElements word.now bytes.now)) }
    ensures none { IfOk result (λ r. IfNone r ((bytes : List ℕ) → SpellsElements word.now bytes → ⊥)) }
    ensures memory { IsOkUnless result memory }
{
    let mut bytes = Vec::with_capacity(arena, word.len() / 2)?;
    let mut rest = word;
    while let Some((first, tail)) = rest.split_first() {
        let Some((second, after)) = tail.split_first() else {
            return Ok(None);
        };
        let high = digit(*first);
        let low = digit(*second);
        if high >= 16 {
            return Ok(None);
        }
        if low >= 16 {
            return Ok(None);
        }
        bytes.push((high * 16 + low) as u8)?;
        rest = after;
    }
    Ok(Some(into_bump_slice(bytes)))
}
