//! What is kept of a code item that is read: the code, in an arena, or nothing.

ghost use Rattle.std.specs.Prelude.{◌≡◌, ◌≤◌, ◌%◌, List, [], ◌∷◌, ◌++◌, ⊤, length, map, IfOk, IfSome, OnOk};
ghost use Rattle.program_types.specs.Content as content;
ghost use Rattle.program_types.specs.View as view;
ghost use Rattle.tables_rows.specs.Names.{NameIsAt};
ghost use Rattle.code_read.specs.inner.ItemChecking.{IsClear, code_with};

use crate::item::Item;
use crate::visiting::are_clear;
use bumpalo::Bump;
use bumpalo::collections::into_bump_slice;
use program_types::{Code, Insn, Try};
use std::alloc::AllocError;
use tables_rows::Tables;

/// Reads instructions, and keeps the part of them that the caller needs.
pub(crate) trait Keep<'a> {
    /// What is kept of instructions.
    type Insns: Drop;

    /// What is kept of a code.
    type Code: Copy;

    // this is kept of the instructions
    ghost insns: { Self.Insns → List content.Insn → Type 0 };

    // this is kept of the code
    ghost code: { Self.Code → content.Code → Type 0 };

    /// No instruction yet, of so many.
    fn none(arena: &'a Bump, count: usize) -> Result<Self::Insns, AllocError>
        ensures { IfOk result (λ all. insns all []) };

    /// One instruction more.
    fn add(all: &mut Self::Insns, next: &Insn<'a>) -> Result<(), AllocError>
        ensures { OnOk result ((is : List content.Insn) → insns all.old is → insns all.new (is ++ view.insn next.now ∷ [])) };

    /// These instructions.
    fn keep_insns(all: Vec<Insn<'a>, &'a Bump>) -> Self::Insns
        ensures { insns result (map view.insn all.entry.items) };

    /// The instructions of an item that is clear; `None` if it is not, or if instructions are kept.
    fn clear_insns(
        arena: &Bump,
        tables: &Tables<'_>,
        item: &Item<'_>,
    ) -> Result<Option<Self::Insns>, AllocError>
        requires even { length item.now.units.now % 2 ≡ 0 }
        requires short { length item.now.units.now ≤ 8589934590 }
        ensures { IfOk result (λ o. IfSome o (λ all. IsClear insns (NameIsAt tables.now) item.now all)) };

    /// The code of an item with these instructions and tries.
    fn keep_code(item: &Item<'_>, all: Self::Insns, tries: &'a [Try<'a>]) -> Self::Code
        ensures { (is : List content.Insn) → insns all is → code result (code_with item.now is (map view.try tries.now)) };
}

/// Keeps the code, in an arena.
pub(crate) struct InArena {}

impl<'a> Keep<'a> for InArena {
    type Insns = Vec<Insn<'a>, &'a Bump>;

    type Code = Code<'a>;

    ghost insns = { λ all is. is ≡ map view.insn all.items };

    ghost code = { λ x c. c ≡ view.code x };

    #[inline(always)]
    fn none(arena: &'a Bump, count: usize) -> Result<Vec<Insn<'a>, &'a Bump>, AllocError> {
        Vec::with_capacity(arena, count)
    }

    #[inline(always)]
    fn add(all: &mut Vec<Insn<'a>, &'a Bump>, next: &Insn<'a>) -> Result<(), AllocError> {
        all.push(*next)?;
        Ok(())
    }

    #[inline(always)]
    fn keep_insns(all: Vec<Insn<'a>, &'a Bump>) -> Vec<Insn<'a>, &'a Bump> {
        all
    }

    #[inline(always)]
    fn clear_insns(
        _arena: &Bump,
        _tables: &Tables<'_>,
        _item: &Item<'_>,
    ) -> Result<Option<Vec<Insn<'a>, &'a Bump>>, AllocError> {
        Ok(None)
    }

    #[inline(always)]
    fn keep_code(item: &Item<'_>, all: Vec<Insn<'a>, &'a Bump>, tries: &'a [Try<'a>]) -> Code<'a> {
        Code {
            registers: item.registers,
            ins: item.ins,
            outs: item.outs,
            insns: into_bump_slice(all),
            tries,
        }
    }
}

/// Keeps nothing.
pub(crate) struct Nothing {}

impl<'a> Keep<'a> for Nothing {
    type Insns = ();

    type Code = ();

    ghost insns = { λ all is. ⊤ };

    ghost code = { λ x c. ⊤ };

    #[inline(always)]
    fn none(_arena: &'a Bump, _count: usize) -> Result<(), AllocError> {
        Ok(())
    }

    #[inline(always)]
    fn add(_all: &mut (), _next: &Insn<'a>) -> Result<(), AllocError> {
        Ok(())
    }

    #[inline(always)]
    fn keep_insns(_all: Vec<Insn<'a>, &'a Bump>) {}

    #[inline(always)]
    fn clear_insns(
        arena: &Bump,
        tables: &Tables<'_>,
        item: &Item<'_>,
    ) -> Result<Option<()>, AllocError> {
        if item.tries != 0 {
            return Ok(None);
        }
        if !are_clear(arena, tables, item.units, item.registers)? {
            return Ok(None);
        }
        Ok(Some(()))
    }

    #[inline(always)]
    fn keep_code(_item: &Item<'_>, _all: (), _tries: &'a [Try<'a>]) {}
}
