//! Instructions and tries with the numbers in them moved.

ghost use Rattle.std.specs.Prelude.{◌≡◌, ◌<◌, ℕ, length, map, slice_index, IfOk};
ghost use Rattle.std.specs.List.{AllByRecursion};
ghost use Rattle.program_types.specs.View.{insn, catch, try};
ghost use Rattle.program_types.specs.Formed.{insn_at, try_at};
ghost use Rattle.program_types.specs.Operands.{IsOperand};
ghost use Rattle.code_align.specs.Aligned.{moved_insn, moved_catch, moved_try, with_nops};
ghost use Rattle.code_align.specs.inner.Aligning.{IsTryBelow};

use bumpalo::Bump;
use bumpalo::collections::into_bump_slice;
use program_types::{Catch, Insn, Try};
use std::alloc::AllocError;

/// The new number of instruction k.
fn moved(numbers: &[u32], k: u32) -> u32
    requires { k < length numbers.now }
    ensures { result ≡ slice_index numbers.now k }
{
    numbers[k as usize]
}

/// The targets of a switch's payload, moved.
fn moved_targets<'a>(
    arena: &'a Bump,
    numbers: &[u32],
    targets: &[u32],
) -> Result<&'a [u32], AllocError>
    requires inside { AllByRecursion (λ to. to < length numbers.now) targets.now }
    ensures ok { IfOk result (λ all. all.now ≡ map (slice_index numbers.now) targets.now) }
{
    let mut all = Vec::with_capacity(arena, targets.len())?;
    for i in 0..targets.len() {
        all.push(moved(numbers, targets[i]))?;
    }
    Ok(into_bump_slice(all))
}

/// An instruction with its targets moved.
fn moved_insn<'a>(arena: &'a Bump, numbers: &[u32], one: &Insn<'a>) -> Result<Insn<'a>, AllocError>
    requires operand { IsOperand (length numbers.now) (insn one.now) }
    ensures ok { IfOk result (λ i. insn i ≡ moved_insn (slice_index numbers.now) (insn one.now)) }
{
    let found = match *one {
        Insn::I10t { op, to } => {
            let to = moved(numbers, to);
            Insn::I10t { op, to }
        }
        Insn::I20t { op, to } => {
            let to = moved(numbers, to);
            Insn::I20t { op, to }
        }
        Insn::I21t { op, a, to } => {
            let to = moved(numbers, to);
            Insn::I21t { op, a, to }
        }
        Insn::I22t { op, a, b, to } => {
            let to = moved(numbers, to);
            Insn::I22t { op, a, b, to }
        }
        Insn::I30t { op, to } => {
            let to = moved(numbers, to);
            Insn::I30t { op, to }
        }
        Insn::I31t { op, a, to } => {
            let to = moved(numbers, to);
            Insn::I31t { op, a, to }
        }
        Insn::Packed { first, targets } => {
            let targets = moved_targets(arena, numbers, targets)?;
            Insn::Packed { first, targets }
        }
        Insn::Sparse { keys, targets } => {
            let targets = moved_targets(arena, numbers, targets)?;
            Insn::Sparse { keys, targets }
        }
        _ => *one,
    };
    Ok(found)
}

/// The instructions with nops before some of them, and their targets moved.
pub(crate) fn moved_insns<'a>(
    arena: &'a Bump,
    numbers: &[u32],
    pads: &[bool],
    insns: &[Insn<'a>],
) -> Result<&'a [Insn<'a>], AllocError>
    requires count { length pads.now ≡ length insns.now }
    requires operands { (k : ℕ) → k < length insns.now → IsOperand (length numbers.now) (insn_at (map insn insns.now) k) }
    ensures ok { IfOk result (λ all. map insn all.now ≡ map (moved_insn (slice_index numbers.now)) (with_nops pads.now (map insn insns.now))) }
{
    let mut all = Vec::with_capacity(arena, insns.len())?;
    for k in 0..insns.len() {
        if pads[k] {
            all.push(Insn::I10x { op: 0 })?;
        }
        all.push(moved_insn(arena, numbers, &insns[k])?)?;
    }
    Ok(into_bump_slice(all))
}

/// A catch with its handler moved.
fn moved_catch<'a>(numbers: &[u32], one: &Catch<'a>) -> Catch<'a>
    requires { one.now.at < length numbers.now }
    ensures { catch result ≡ moved_catch (slice_index numbers.now) (catch one.now) }
{
    Catch {
        ty: one.ty,
        at: moved(numbers, one.at),
    }
}

/// Catches with their handlers moved.
fn moved_catches<'a>(
    arena: &'a Bump,
    numbers: &[u32],
    catches: &[Catch<'a>],
) -> Result<&'a [Catch<'a>], AllocError>
    requires inside { AllByRecursion (λ c. c.at < length numbers.now) (map catch catches.now) }
    ensures ok { IfOk result (λ all. map catch all.now ≡ map (moved_catch (slice_index numbers.now)) (map catch catches.now)) }
{
    let mut all = Vec::with_capacity(arena, catches.len())?;
    for i in 0..catches.len() {
        all.push(moved_catch(numbers, &catches[i]))?;
    }
    Ok(into_bump_slice(all))
}

/// A try with what it names moved.
fn moved_try<'a>(arena: &'a Bump, numbers: &[u32], one: &Try<'a>) -> Result<Try<'a>, AllocError>
    requires { IsTryBelow (length numbers.now) (try one.now) }
    ensures ok { IfOk result (λ t. try t ≡ moved_try (slice_index numbers.now) (try one.now)) }
{
    let catches = moved_catches(arena, numbers, one.catches)?;
    let catch_all = match one.catch_all {
        None => None,
        Some(at) => Some(moved(numbers, at)),
    };
    Ok(Try {
        from: moved(numbers, one.from),
        to: moved(numbers, one.to),
        catches,
        catch_all,
    })
}

/// Tries with what they name moved.
pub(crate) fn moved_tries<'a>(
    arena: &'a Bump,
    numbers: &[u32],
    tries: &[Try<'a>],
) -> Result<&'a [Try<'a>], AllocError>
    requires inside { (i : ℕ) → i < length tries.now → IsTryBelow (length numbers.now) (try_at (map try tries.now) i) }
    ensures ok { IfOk result (λ all. map try all.now ≡ map (moved_try (slice_index numbers.now)) (map try tries.now)) }
{
    let mut all = Vec::with_capacity(arena, tries.len())?;
    for i in 0..tries.len() {
        all.push(moved_try(arena, numbers, &tries[i])?)?;
    }
    Ok(into_bump_slice(all))
}
