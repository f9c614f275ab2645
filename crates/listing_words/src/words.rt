//! The words of a line.

ghost use Rattle.std.specs.Prelude.{◌≡◌, ◌<◌, ◌≤◌, ◌↔◌, ◌++◌, [], List, length, slice_index, map, IfOk, IfSome, IfNone, IsTrue, IsOkUnless, MatchBool};
ghost use Rattle.std.specs.List.{AllByRecursion};
ghost use Rattle.listing_words.specs.inner.Taking.{NoneAt};
ghost use Rattle.listing_words.specs.Words.{plain_word, after_spaces, up_to_space, IsGraphic, TakesWord, HasWords};
ghost use Rattle.listing_words.specs.inner.Words.{IsWritable};
ghost use Rattle.listing_words.specs.inner.View.{word};
ghost use Rattle.listing_words.specs.Words.{Word as Spoken};
ghost use Rattle.dex_base.specs.Fault.{memory};

use crate::runs::{Kind, run};
use crate::texts::read_units;
use bumpalo::Bump;
use dex_base::Fault;

/// The bytes that can stand in a word: `!` to `~`.
const GRAPHIC: Kind = Kind {
    first: b'!',
    count: 94,
};

/// A word of a line: a slice of the line, or the units of a text in quotes.
#[derive(Clone, Copy)]
pub enum Word<'a, 'b> {
    Plain(&'b [u8]),
    Text(&'a [u16]),
}

/// The text without the spaces at its front.
pub fn after_spaces(text: &[u8]) -> &[u8]
    ensures rest { result.now ≡ after_spaces text.now }
    ensures within { length result.now ≤ length text.now }
{
    let mut rest = text;
    while let Some((first, after)) = rest.split_first() {
        if *first != b' ' {
            return rest;
        }
        rest = after;
    }
    rest
}

/// The bytes at the front that can stand in a word, and the rest.
fn split_graphic(text: &[u8]) -> (&[u8], &[u8])
    ensures joined { text.now ≡ result.0.now ++ result.1.now }
    ensures graphic { AllByRecursion IsGraphic result.0.now }
    ensures stops { 0 < length result.1.now → IsGraphic (slice_index result.1.now 0) → ⊥ }
{
    text.split_at(run(GRAPHIC, text))
}

/// Whether the text is a word without quotes, and nothing else.
///
/// ```text
/// is_plain_word(b"v0")   // true; false for `v0 v1`, for `"v0"`, and for no text at all
/// ```
pub fn is_plain_word(text: &[u8]) -> bool
    ensures { IsTrue result ↔ IsWritable (plain_word text.now) }
{
    let (graphic, rest) = split_graphic(text);
    match graphic.split_first() {
        Some((first, _)) => *first != b'"' && rest.is_empty(),
        None => false,
    }
}

/// Whether a space or nothing stands at the front.
fn is_end(text: &[u8]) -> bool
    ensures { IsTrue result ↔ (up_to_space text.now ≡ []) }
{
    match text.split_first() {
        Some((first, _)) => *first == b' ',
        None => true,
    }
}

/// The word at the front, and what follows it.
fn read_word<'a, 'b>(
    arena: &'a Bump,
    line: &'b [u8],
) -> Result<Option<(Word<'a, 'b>, &'b [u8])>, Fault>
    ensures found { IfOk result (λ r. IfSome r (λ f. TakesWord line.now (word f.0) f.1.now)) }
    ensures shorter { IfOk result (λ r. IfSome r (λ f. length f.1.now < length line.now)) }
    ensures none { IfOk result (λ r. IfNone r (NoneAt TakesWord line.now)) }
    ensures memory { IsOkUnless result memory }
{
    let text = after_spaces(line);
    let Some((first, inner)) = text.split_first() else {
        return Ok(None);
    };
    if *first == b'"' {
        let Some((units, rest)) = read_units(arena, inner)? else {
            return Ok(None);
        };
        if !is_end(rest) {
            return Ok(None);
        }
        return Ok(Some((Word::Text(units), rest)));
    }
    let (plain, rest) = split_graphic(text);
    if !is_end(rest) {
        return Ok(None);
    }
    Ok(Some((Word::Plain(plain), rest)))
}

/// Puts the words of a line in place of those that `words` has; false where the line can't be cut into words.
///
/// A plain word is a slice of the line; a text in quotes is decoded into the arena. What `words` has where it is false
/// means nothing.
pub fn read_words<'a, 'b>(
    arena: &'a Bump,
    line: &'b [u8],
    words: &mut Vec<Word<'a, 'b>>,
) -> Result<bool, Fault>
    ensures read { IfOk result (λ yes. MatchBool yes
        (HasWords line.now (map word words.new.items))
        ((ws : List Spoken) → HasWords line.now ws → ⊥)) }
    ensures memory { IsOkUnless result memory }
{
    words.clear();
    let mut rest = line;
    while let Some((next, after)) = read_word(arena, rest)? {
        words.push(next)?;
        rest = after;
    }
    Ok(after_spaces(rest).is_empty())
}
