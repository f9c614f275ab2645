//! Tries and their handlers.

ghost use Rattle.std.specs.Prelude.{◌↔◌, ◌<◌, length, map, IsTrue};
ghost use Rattle.std.specs.List.{AllByRecursion};
ghost use Rattle.program_types.specs.Formed.{TryFormed};
ghost use Rattle.program_types.specs.View.{catch, try, code};
ghost use Rattle.code_rules.specs.CodeRules.{TriesHold};
ghost use Rattle.code_rules.specs.inner.Parts.{HandlersHold, IsBehind};

use program_types::{Catch, Code, Try};

/// Whether all handlers of catches are numbers of instructions.
fn are_inside(count: usize, catches: &[Catch<'_>]) -> bool
    ensures { IsTrue result ↔ AllByRecursion (λ c. c.at < count) (map catch catches.now) }
{
    for each in catches {
        if each.at as usize >= count {
            return false;
        }
    }
    true
}

/// Whether a try has a handler, and all its handlers are numbers of instructions.
fn handlers_hold(count: usize, one: &Try<'_>) -> bool
    ensures { IsTrue result ↔ HandlersHold count (try one.now) }
{
    if !are_inside(count, one.catches) {
        return false;
    }
    match one.catch_all {
        Some(at) => (at as usize) < count,
        None => one.catches.len() > 0,
    }
}

/// Whether try `i` begins where the one before it ends, or after.
fn is_after(tries: &[Try<'_>], i: usize) -> bool
    requires inside { i < length tries.now }
    ensures { IsTrue result ↔ IsBehind (map try tries.now) i }
{
    if i == 0 {
        return true;
    }
    tries[i - 1].to <= tries[i].from
}

/// Whether try `i` keeps its rules, in a code of `count` instructions.
fn try_holds(count: usize, tries: &[Try<'_>], i: usize) -> bool
    requires inside { i < length tries.now }
    ensures { IsTrue result ↔ TryFormed count (map try tries.now) i }
{
    let one = &tries[i];
    if one.from >= one.to || one.to as usize > count {
        return false;
    }
    if !is_after(tries, i) {
        return false;
    }
    handlers_hold(count, one)
}

/// Whether all tries do.
pub(crate) fn tries_hold(one: &Code<'_>) -> bool
    ensures { IsTrue result ↔ TriesHold (code one.now) }
{
    for i in 0..one.tries.len() {
        if !try_holds(one.insns.len(), one.tries, i) {
            return false;
        }
    }
    true
}
