//! The slots of a value.

ghost use Rattle.std.specs.Prelude.{◌≡◌, ◌≤◌, ◌+◌, ◌^◌, ◌<◌, Some, None, map, option_map, IfOk, IsOkUnless, ◌++◌, MatchBool};
ghost use Rattle.dex_base.specs.Fault.{memory};
ghost use Rattle.listing_words.specs.inner.View.{word};
ghost use Rattle.listing_slots.specs.Shapes as spec;
ghost use Rattle.listing_slots.specs.Shapes.{value_slots};
ghost use Rattle.listing_slots.specs.inner.Shapes.{depth_of};

use crate::due::Due;
use crate::key::{Key, is_same, key_text, value_key};
use crate::slot::{Mark, Slot};
use dex_base::Fault;
use listing_words::Word;

/// After a whole value in so many arrays.
fn due_after(inside: usize) -> Due
    ensures due { result ≡ spec.due_after inside }
    ensures depth { depth_of result ≤ inside }
{
    if inside == 0 {
        return Due::Nothing;
    }
    Due::Value(inside)
}

/// After a value's keyword.
#[rattlefmt::skip]
fn due_of_key(inside: usize, key: Key) -> Due
    requires { inside + 1 < 2 ^ 64 }
    ensures due { result ≡ spec.due_of_key inside key }
    ensures depth { depth_of result ≤ inside + 1 }
{
    match key {
        Key::Array => Due::Word(Slot::Key(Key::Open), inside + 1),
        Key::Byte => Due::Word(Slot::Tiny, inside),
        Key::Short => Due::Word(Slot::Short, inside),
        Key::Char => Due::Word(Slot::Half(Mark::Nothing, 65535), inside),
        Key::Int => Due::Word(Slot::Int, inside),
        Key::Long => Due::Word(Slot::Long, inside),
        Key::Float => Due::Word(Slot::Float, inside),
        Key::Double => Due::Word(Slot::Double, inside),
        Key::Text => Due::Word(Slot::Text, inside),
        Key::Desc => Due::Word(Slot::Desc, inside),
        Key::Field => Due::Word(Slot::Field, inside),
        Key::Method => Due::Word(Slot::Method, inside),
        Key::Enum => Due::Word(Slot::Enum, inside),
        _ => due_after(inside),
    }
}

/// After `}`.
fn due_after_close(inside: usize) -> Due
    ensures due { result ≡ spec.due_after_close inside }
    ensures depth { depth_of result ≤ inside }
{
    if inside == 0 {
        return Due::Refused;
    }
    due_after(inside - 1)
}

/// The slot of a word, and what is due after it.
#[tactic(auto, unfolding(crate::specs::Shapes::slot_at, crate::specs::Shapes::due_after_word))]
fn next_due(due: Due, one: Word<'_, '_>) -> (Slot, Due)
    requires { depth_of due + 1 < 2 ^ 64 }
    ensures slot { result.0 ≡ spec.slot_at due (word one.entry) }
    ensures due { result.1 ≡ spec.due_after_word due (word one.entry) }
    ensures depth { depth_of result.1 ≤ depth_of due + 1 }
{
    match (due, one) {
        (Due::Word(slot, inside), _) => (slot, due_after(inside)),
        (Due::Value(inside), Word::Plain(text)) => {
            if is_same(key_text(Key::Close).as_bytes(), text) {
                return (Slot::Key(Key::Close), due_after_close(inside));
            }
            match value_key(text) {
                Some(key) => (Slot::Key(key), due_of_key(inside, key)),
                None => (Slot::Text, Due::Refused),
            }
        }
        _ => (Slot::Text, Due::Refused),
    }
}

fn is_whole(due: Due) -> bool
    ensures { result ≡ spec.is_whole due }
{
    matches!(due, Due::Nothing)
}

/// Puts the slots of a value after those that are there; false where these words aren't one value.
pub(crate) fn push_value(slots: &mut Vec<Slot>, words: &[Word<'_, '_>]) -> Result<bool, Fault>
    ensures put { IfOk result (λ yes. MatchBool yes
        (option_map (λ ss. slots.old.items ++ ss) (value_slots (Due.Value 0) (map word words.now)) ≡ Some slots.new.items)
        (value_slots (Due.Value 0) (map word words.now) ≡ None)) }
    ensures memory { IsOkUnless result memory }
{
    let mut due = Due::Value(0);
    for i in 0..words.len() {
        let (slot, then) = next_due(due, words[i]);
        slots.push(slot)?;
        due = then;
    }
    Ok(is_whole(due))
}
