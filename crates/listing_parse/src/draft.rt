//! A listing that is being read.

ghost use Rattle.std.specs.Prelude.{◌≡◌, Option, Some, None, IfOk, IsOkUnless, MatchBool};
ghost use Rattle.dex_base.specs.Fault.{memory};

use crate::block::Block;
use crate::close::alloc_class;
use crate::open_class::{ClassPart, InClass, Open};
use crate::open_code::OpenBody;
use bumpalo::Bump;
use bumpalo::collections::into_bump_slice;
use dex_base::{Fault, Seed};
use listing_lines::{Line, Stage, is_insn, may_stand};
use listing_slots::Found;
use listing_words::is_number;
use program_types::{Class, Desc, Insn};
use std::alloc::Global;

/// Memory is reserved ahead for at most so many instructions: a code of more reserves it as it grows.
const MOST_ROOM: usize = 4096;

/// What is whole so far, in the arena, and the block that is open, outside of it.
#[derive(Drop)]
pub struct Draft<'a> {
    pub alloc: Global,
    pub seed: Seed,
    pub done: Vec<Class<'a>, &'a Bump>,
    pub block: Block<'a>,
    pub lines: u64,
    pub late: Option<u64>,
}

impl<'a> Draft<'a> {
    ghost use Rattle.std.specs.Prelude.{List, map, ◌+◌, ◌<◌, ◌^◌};
    ghost use Rattle.listing_words.specs.Words.{Word};
    ghost use Rattle.listing_slots.specs.declared.slot.Slot.{Slot};
    ghost use Rattle.program_types.specs.View.{desc, class, insn};
    ghost use Rattle.listing_lines.specs.Lines as spec;
    ghost use Rattle.listing_lines.specs.inner.LineView.{line};
    ghost use Rattle.listing_lines.specs.Needs.{earliest};
    ghost use Rattle.listing_slots.specs.inner.ShapeView.{shape};
    ghost use Rattle.listing_parse.specs.States.{start, stage_of, counted, add, stands, late_in};
    ghost use Rattle.listing_parse.specs.inner.View.{state, block};

    /// Nothing was read. Hashes begin with the seed.
    #[tactic(auto, unfolding(crate::specs::inner::View::state, crate::specs::inner::View::block))]
    pub fn new(alloc: Global, seed: Seed, arena: &'a Bump) -> Draft<'a>
        ensures { state result ≡ start }
    {
        Draft {
            alloc,
            seed,
            done: Vec::new(arena),
            block: Block::Start,
            lines: 0,
            late: None,
        }
    }

    /// The classes that are whole.
    #[tactic(auto, unfolding(crate::specs::inner::View::state))]
    pub fn into_classes(self) -> &'a [Class<'a>]
        ensures { map class result.now ≡ (state self.entry).done }
    {
        let Draft {
            alloc: _,
            seed: _,
            done,
            block: _,
            lines: _,
            late: _,
        } = self;
        into_bump_slice(done)
    }

    /// The position of the next line.
    #[tactic(auto, unfolding(crate::specs::inner::View::state))]
    pub fn stage(&self) -> Stage
        ensures { result ≡ stage_of (state self.now).block }
    {
        self.block.stage()
    }

    /// Whether a line of this shape is allowed here.
    #[tactic(auto, unfolding(crate::specs::inner::View::state))]
    pub fn stands(&self, found: Found<'_>) -> bool
        ensures { (ss : List Slot) (ws : List Word) → result ≡ stands (state self.now) (shape found.entry ss ws) }
    {
        if !may_stand(self.block.stage(), found.kind) {
            return false;
        }
        if !is_insn(found.kind) {
            return true;
        }
        is_number(found.label, self.block.count())
    }

    /// Counts one line more as read.
    #[tactic(auto, unfolding(crate::specs::inner::View::state))]
    pub fn count_line(&mut self)
        requires { self.old.lines + 1 < 2 ^ 64 }
        ensures state { state self.new ≡ counted (state self.old) }
        ensures lines { self.new.lines ≡ self.old.lines + 1 }
    {
        self.lines += 1;
    }

    /// The lowest line with a target that is no instruction of its code, if the open code is whole now.
    #[tactic(auto, unfolding(crate::specs::inner::View::state))]
    fn late_line(&self) -> Option<u64>
        ensures { result ≡ earliest (state self.now).late (late_in (state self.now).block) }
    {
        if self.late.is_some() {
            return self.late;
        }
        self.block.late_line()
    }

    /// The first line; false where a line was read.
    #[tactic(auto, unfolding(crate::specs::inner::View::state, crate::specs::inner::View::block, crate::specs::States::add))]
    fn begin(&mut self) -> bool
        ensures begun { MatchBool result
            (add (state self.old) spec.first_line ≡ Some (state self.new))
            (add (state self.old) spec.first_line ≡ None) }
        ensures lines { self.new.lines ≡ self.old.lines }
    {
        match self.block {
            Block::Start => {
                self.block = Block::Top;
                true
            }
            _ => false,
        }
    }

    /// A class begins; false where a block is open.
    #[tactic(auto, unfolding(crate::specs::inner::View::state, crate::specs::inner::View::block, crate::specs::States::add))]
    fn open_class(&mut self, ty: Desc<'a>, flags: u32) -> bool
        ensures opened { MatchBool result
            (add (state self.old) (spec.open_class (desc ty.entry) flags) ≡ Some (state self.new))
            (add (state self.old) (spec.open_class (desc ty.entry) flags) ≡ None) }
        ensures lines { self.new.lines ≡ self.old.lines }
    {
        match self.block {
            Block::Top => {
                self.block = Block::Class(InClass {
                    open: Open::new(self.alloc, self.seed, ty, flags),
                    part: ClassPart::Heads,
                });
                true
            }
            _ => false,
        }
    }

    /// A code begins; false where the line before gave no method.
    #[tactic(auto, unfolding(crate::specs::inner::View::state, crate::specs::States::add))]
    fn open_code(&mut self, registers: u16, ins: u16, outs: u16) -> bool
        ensures opened { MatchBool result
            (add (state self.old) (spec.open_code registers ins outs) ≡ Some (state self.new))
            (add (state self.old) (spec.open_code registers ins outs) ≡ None) }
        ensures lines { self.new.lines ≡ self.old.lines }
    {
        let Some(owner) = self.block.owner() else {
            return false;
        };
        self.block
            .begin_code(OpenBody::new(self.alloc, owner, registers, ins, outs));
        true
    }

    /// The class is whole; false where none is open.
    #[tactic(auto, unfolding(crate::specs::inner::View::state, crate::specs::inner::View::block, crate::specs::States::add))]
    fn end_class(&mut self, arena: &'a Bump) -> Result<bool, Fault>
        ensures ended { IfOk result (λ yes. MatchBool yes
            (add (state self.old) spec.end_class ≡ Some (state self.new))
            (add (state self.old) spec.end_class ≡ None)) }
        ensures lines { self.new.lines ≡ self.old.lines }
        ensures memory { IsOkUnless result memory }
    {
        let Block::Class(class) = &self.block else {
            return Ok(false);
        };
        let whole = alloc_class(arena, &class.open)?;
        self.done.push(whole)?;
        self.block = Block::Top;
        Ok(true)
    }

    /// The code is whole, and the method that it belongs to has it; false where none is open.
    #[tactic(auto, unfolding(crate::specs::inner::View::state, crate::specs::States::add))]
    fn end_code(&mut self, arena: &'a Bump) -> Result<bool, Fault>
        ensures ended { IfOk result (λ yes. MatchBool yes
            (add (state self.old) spec.end_code ≡ Some (state self.new))
            (add (state self.old) spec.end_code ≡ None)) }
        ensures lines { self.new.lines ≡ self.old.lines }
        ensures memory { IsOkUnless result memory }
    {
        let late = self.late_line();
        if !self.block.end_code(arena)? {
            return Ok(false);
        }
        self.late = late;
        Ok(true)
    }

    /// Adds a line that is allowed here; false if it repeats what may occur once.
    #[rattlefmt::skip]
    #[tactic(auto, unfolding(crate::specs::inner::View::state, crate::specs::States::add))]
    pub fn add(&mut self, arena: &'a Bump, next: Line<'a>) -> Result<bool, Fault>
        ensures added { IfOk result (λ yes. MatchBool yes
            (add (state self.old) (line next.entry) ≡ Some (state self.new))
            (add (state self.old) (line next.entry) ≡ None)) }
        ensures lines { self.new.lines ≡ self.old.lines }
        ensures memory { IsOkUnless result memory }
    {
        match next {
            Line::First => Ok(self.begin()),
            Line::OpenClass(ty, flags) => Ok(self.open_class(ty, flags)),
            Line::EndClass => self.end_class(arena),
            Line::OpenCode(registers, ins, outs) => Ok(self.open_code(registers, ins, outs)),
            Line::EndCode => self.end_code(arena),
            _ => self.block.add(arena, self.lines, next),
        }
    }

    /// An instruction is added to the open code, as `add` does it with its line; false where no code is open.
    #[tactic(auto, unfolding(crate::specs::inner::View::state, crate::specs::States::add))]
    pub fn add_insn(&mut self, new: Insn<'a>) -> Result<bool, Fault>
        ensures added { IfOk result (λ yes. MatchBool yes
            (add (state self.old) (spec.insn_line (insn new.entry)) ≡ Some (state self.new))
            (add (state self.old) (spec.insn_line (insn new.entry)) ≡ None)) }
        ensures lines { self.new.lines ≡ self.old.lines }
        ensures memory { IsOkUnless result memory }
    {
        self.block.add_insn(self.lines, new)
    }

    /// Reserves memory for so many instructions more in the open code, if one is open, so that they are added without moving those
    /// before them: for `MOST_ROOM` at most, whatever a listing has.
    #[tactic(auto, unfolding(crate::specs::inner::View::state))]
    pub fn make_room(&mut self, count: usize) -> Result<(), Fault>
        ensures same { state self.new ≡ state self.old }
        ensures lines { self.new.lines ≡ self.old.lines }
        ensures memory { IsOkUnless result memory }
    {
        self.block.make_room(count.min(MOST_ROOM))
    }
}
