//! Texts in quotes.

ghost use Rattle.std.specs.Prelude.{◌≡◌, ℕ, ◌<◌, ◌≤◌, ◌+◌, ◌*◌, length, slice_index, IfOk, IfSome, IfNone, SomeIff, IsOkUnless};
ghost use Rattle.listing_words.specs.Taking.{EachTaken};
ghost use Rattle.listing_words.specs.inner.Taking.{NoneAt};
ghost use Rattle.listing_words.specs.Texts.{TakesUnit, TakesUnits, hex};
ghost use Rattle.listing_words.specs.inner.Texts.{HasHex, HasQuotedUnit};
ghost use Rattle.dex_base.specs.Fault.{memory};

use crate::plain::{BACKSLASH, QUOTE};
use bumpalo::Bump;
use bumpalo::collections::into_bump_slice;
use dex_base::Fault;

/// The value of a hexadecimal digit.
#[tactic(auto, unfolding(crate::specs::Texts::hex))]
fn hex(c: u8) -> Option<u16>
    ensures { SomeIff result (hex c < 16) (hex c) }
{
    match c {
        b'0'..=b'9' => Some((c - b'0') as u16),
        b'A'..=b'F' => Some((c - b'A' + 10) as u16),
        b'a'..=b'f' => Some((c - b'a' + 10) as u16),
        _ => None,
    }
}

/// The unit of the escape at the front, which begins with a backslash.
pub(crate) fn hex_unit(text: &[u8]) -> Option<u16>
    requires escape { slice_index text.now 0 ≡ 92 }
    ensures some { IfSome result (HasHex text.now) }
    ensures none { IfNone result ((u : ℕ) → HasHex text.now u → ⊥) }
{
    let [_, b'u', a, b, c, d, ..] = *text else {
        return None;
    };
    Some(hex(a)? * 4096 + hex(b)? * 256 + hex(c)? * 16 + hex(d)?)
}

/// The unit at the front, and how many bytes it takes.
fn unit_at(text: &[u8]) -> Option<(u16, usize)>
    ensures found { IfSome result (λ f. HasQuotedUnit text.now f.0 f.1) }
    ensures none { IfNone result ((u len : ℕ) → HasQuotedUnit text.now u len → ⊥) }
{
    match *text {
        [b'\\', b'"', ..] => Some((QUOTE, 2)),
        [b'\\', b'\\', ..] => Some((BACKSLASH, 2)),
        [b'\\', b'u', ..] => Some((hex_unit(text)?, 6)),
        [b'\\' | b'"', ..] => None,
        [unit @ b' '..=b'~', ..] => Some((unit as u16, 1)),
        _ => None,
    }
}

/// The unit at the front, and what follows it.
fn read_unit(text: &[u8]) -> Option<(u16, &[u8])>
    ensures shorter { IfSome result (λ f. length f.1.now < length text.now) }
    ensures found { IfSome result (λ f. TakesUnit text.now f.0 f.1.now) }
    ensures none { IfNone result (NoneAt TakesUnit text.now) }
{
    let (unit, length) = unit_at(text)?;
    let (_, rest) = text.split_at(length);
    Some((unit, rest))
}

/// All units that stand at the front.
fn read_run<'a, 'b>(
    arena: &'a Bump,
    text: &'b [u8],
) -> Result<(Vec<u16, &'a Bump>, &'b [u8]), Fault>
    ensures run { IfOk result (λ f. EachTaken TakesUnit text.now f.0.items f.1.now) }
    ensures within { IfOk result (λ f. length f.1.now ≤ length text.now) }
    ensures all { IfOk result (λ f. NoneAt TakesUnit f.1.now) }
    ensures memory { IsOkUnless result memory }
{
    let mut units = Vec::new(arena);
    let mut rest = text;
    while let Some((unit, after)) = read_unit(rest) {
        units.push(unit)?;
        rest = after;
    }
    Ok((units, rest))
}

/// The units up to a quote, decoded into the arena, and what follows the quote.
pub(crate) fn read_units<'a, 'b>(
    arena: &'a Bump,
    text: &'b [u8],
) -> Result<Option<(&'a [u16], &'b [u8])>, Fault>
    ensures found { IfOk result (λ r. IfSome r (λ f. TakesUnits text.now f.0.now f.1.now)) }
    ensures shorter { IfOk result (λ r. IfSome r (λ f. length f.1.now < length text.now)) }
    ensures none { IfOk result (λ r. IfNone r (NoneAt TakesUnits text.now)) }
    ensures memory { IsOkUnless result memory }
{
    let (units, end) = read_run(arena, text)?;
    let Some((first, rest)) = end.split_first() else {
        return Ok(None);
    };
    if *first != b'"' {
        return Ok(None);
    }
    Ok(Some((into_bump_slice(units), rest)))
}
