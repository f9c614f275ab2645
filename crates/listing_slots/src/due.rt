//! The words of a value.

use crate::slot::Slot;

/// What is due: another value or `}` in so many arrays, the word after a keyword, nothing, or what can't come.
#[derive(Clone, Copy)]
pub enum Due {
    Value(usize),
    Word(Slot, usize),
    Nothing,
    Refused,
}
