//! Which instructions a code names.

ghost use Rattle.std.specs.Prelude.{◌≡◌, ◌+◌, ◌++◌, ◌∷◌, [], ℕ, List, map, length, IfOk};
ghost use Rattle.std.specs.List.{flat_map};
ghost use Rattle.program_types.specs.View.{insn, catch, try, code};
ghost use Rattle.program_types.specs.Formed.{insn_leads};
ghost use Rattle.listing_print.specs.Canon.{try_numbers, code_numbers};
ghost use Rattle.listing_print.specs.inner.Marks.{IsMarked};

use program_types::{Catch, Code, Insn, Try, leads_of};
use std::alloc::{AllocError, Global};

/// Marks this instruction as named.
fn mark(marks: &mut [bool], number: u32)
    ensures marked { (ns : List ℕ) → IsMarked marks.old ns → IsMarked marks.new (ns ++ number ∷ []) }
    ensures same { length marks.new ≡ length marks.old }
{
    let i = number as usize;
    if i < marks.len() {
        marks[i] = true;
    }
}

/// Marks these instructions as named.
fn mark_all(marks: &mut [bool], numbers: &[u32])
    ensures marked { (ns : List ℕ) → IsMarked marks.old ns → IsMarked marks.new (ns ++ numbers.now) }
    ensures same { length marks.new ≡ length marks.old }
{
    for i in 0..numbers.len() {
        mark(marks, numbers[i]);
    }
}

/// Marks what an instruction names.
fn mark_insn(marks: &mut [bool], one: &Insn<'_>)
    ensures marked { (ns : List ℕ) → IsMarked marks.old ns → IsMarked marks.new (ns ++ insn_leads (insn one.now)) }
    ensures same { length marks.new ≡ length marks.old }
{
    mark_all(marks, leads_of(one));
}

/// Marks what instructions name.
fn mark_insns(marks: &mut [bool], insns: &[Insn<'_>])
    ensures marked { (ns : List ℕ) → IsMarked marks.old ns → IsMarked marks.new (ns ++ flat_map insn_leads (map insn insns.now)) }
    ensures same { length marks.new ≡ length marks.old }
{
    for i in 0..insns.len() {
        mark_insn(marks, &insns[i]);
    }
}

/// Marks what catches name.
fn mark_catches(marks: &mut [bool], catches: &[Catch<'_>])
    ensures marked { (ns : List ℕ) → IsMarked marks.old ns → IsMarked marks.new (ns ++ map (λ c. c.at) (map catch catches.now)) }
    ensures same { length marks.new ≡ length marks.old }
{
    for i in 0..catches.len() {
        mark(marks, catches[i].at);
    }
}

/// Marks what a try names.
fn mark_try(marks: &mut [bool], one: &Try<'_>)
    ensures marked { (ns : List ℕ) → IsMarked marks.old ns → IsMarked marks.new (ns ++ try_numbers (try one.now)) }
    ensures same { length marks.new ≡ length marks.old }
{
    mark(marks, one.from);
    mark(marks, one.to);
    mark_catches(marks, one.catches);
    if let Some(at) = one.catch_all {
        mark(marks, at);
    }
}

/// Marks what tries name.
fn mark_tries(marks: &mut [bool], tries: &[Try<'_>])
    ensures marked { (ns : List ℕ) → IsMarked marks.old ns → IsMarked marks.new (ns ++ flat_map try_numbers (map try tries.now)) }
    ensures same { length marks.new ≡ length marks.old }
{
    for i in 0..tries.len() {
        mark_try(marks, &tries[i]);
    }
}

/// Marks what a code names.
fn mark_code(marks: &mut [bool], one: &Code<'_>)
    ensures marked { (ns : List ℕ) → IsMarked marks.old ns → IsMarked marks.new (ns ++ code_numbers (code one.now)) }
    ensures same { length marks.new ≡ length marks.old }
{
    mark_insns(marks, one.insns);
    mark_tries(marks, one.tries);
}

/// Which instructions a code names, and whether the one after its last.
pub(crate) fn marks_of(alloc: Global, one: &Code<'_>) -> Result<Vec<bool>, AllocError>
    ensures marked { IfOk result (λ marks. IsMarked marks.items (code_numbers (code one.now))) }
    ensures count { IfOk result (λ marks. length marks.items ≡ length one.now.insns.now + 1) }
{
    let mut marks = Vec::new(alloc);
    marks.resize(one.insns.len(), false)?;
    marks.push(false)?;
    mark_code(marks.as_mut_slice(), one);
    Ok(marks)
}
