//! The block that is open.

ghost use Rattle.std.specs.Prelude.{◌≡◌, Some, None, IfOk, IsOkUnless, MatchBool};
ghost use Rattle.dex_base.specs.Fault.{memory};

use crate::open_class::{ClassPart, InClass, Owner};
use crate::open_code::{CodePart, InCode, OpenBody};
use bumpalo::Bump;
use dex_base::Fault;
use listing_lines::{Line, Stage, first_late};
use program_types::Insn;
use std::mem;

/// The block that is open: none, before the first line or after it; a class; or a code of a class.
pub enum Block<'a> {
    Start,
    Top,
    Class(InClass<'a>),
    Code(InCode<'a>),
}

// Each place where a block is let go is proved: here it is one call, and derived it would be all that a class and a code own.
impl<'a> Drop for Block<'a> {
    fn drop(self) {
        match self {
            Block::Start | Block::Top => {}
            Block::Class(class) => drop(class),
            Block::Code(code) => drop(code),
        }
    }
}

impl<'a> Block<'a> {
    ghost use Rattle.std.specs.Prelude.{option_map};
    ghost use Rattle.listing_lines.specs.inner.LineView.{line};
    ghost use Rattle.listing_lines.specs.Lines.{insn_line};
    ghost use Rattle.program_types.specs.View.{insn};
    ghost use Rattle.listing_parse.specs.States.{stage_of, insn_count, owner_of, with_body, late_in};
    ghost use Rattle.listing_parse.specs.States.{code_ended, inside};
    ghost use Rattle.listing_parse.specs.inner.States.{class_again};
    ghost use Rattle.listing_parse.specs.inner.View.{owner, open_body, block};

    /// Where the next line is.
    #[rattlefmt::skip]
    #[tactic(auto, unfolding(crate::specs::inner::View::block))]
    pub fn stage(&self) -> Stage
        ensures { result ≡ stage_of (block self.now) }
    {
        match self {
            Block::Start => Stage::Start,
            Block::Top => Stage::Top,
            Block::Class(class) => match class.part {
                ClassPart::Heads => Stage::Heads,
                ClassPart::Members => Stage::Members,
                ClassPart::After(_) => Stage::After,
            },
            Block::Code(code) => match &code.part {
                CodePart::Insns => Stage::Insns,
                CodePart::Tries => Stage::Tries,
                CodePart::Caught(_) => Stage::Caught,
            },
        }
    }

    /// How many instructions the open code has.
    #[tactic(auto, unfolding(crate::specs::inner::View::block, crate::specs::inner::View::open_body))]
    pub(crate) fn count(&self) -> u64
        ensures { result ≡ insn_count (block self.now) }
    {
        match self {
            Block::Code(code) => code.body.insns.len() as u64,
            _ => 0,
        }
    }

    /// The method whose code may follow.
    #[tactic(auto, unfolding(crate::specs::inner::View::block))]
    pub(crate) fn owner(&self) -> Option<Owner<'a>>
        ensures { option_map owner result ≡ owner_of (block self.now) }
    {
        match self {
            Block::Class(class) => match class.part {
                ClassPart::After(of) => Some(of),
                _ => None,
            },
            _ => None,
        }
    }

    /// The lowest line of the open code with a target that is none of its instructions.
    #[tactic(auto, unfolding(crate::specs::inner::View::block, crate::specs::inner::View::open_body))]
    pub(crate) fn late_line(&self) -> Option<u64>
        ensures { result ≡ late_in (block self.now) }
    {
        match self {
            Block::Code(code) => {
                first_late(code.body.insns.len() as u64, code.body.needs.as_slice())
            }
            _ => None,
        }
    }

    /// The code begins.
    #[tactic(auto, unfolding(crate::specs::inner::View::block))]
    fn with_body(self, body: OpenBody<'a>) -> Block<'a>
        ensures { block result ≡ with_body (block self.entry) (open_body body.entry) }
    {
        match self {
            Block::Class(class) => {
                let InClass { open, part: _ } = class;
                Block::Code(InCode {
                    class: open,
                    body,
                    part: CodePart::Insns,
                })
            }
            other => other,
        }
    }

    /// The code begins.
    pub(crate) fn begin_code(&mut self, body: OpenBody<'a>)
        ensures { block self.new ≡ with_body (block self.old) (open_body body.entry) }
    {
        let class = mem::replace(self, Block::Top);
        *self = class.with_body(body);
    }

    /// The class of the open code, outside of it.
    #[tactic(auto, unfolding(crate::specs::inner::View::block))]
    fn without_body(self) -> Block<'a>
        ensures { block result ≡ class_again (block self.entry) }
    {
        match self {
            Block::Code(code) => {
                let InCode {
                    class,
                    body: _,
                    part: _,
                } = code;
                Block::Class(InClass {
                    open: class,
                    part: ClassPart::Members,
                })
            }
            other => other,
        }
    }

    /// The method that the open code belongs to has it; false where no code is open.
    #[tactic(auto, unfolding(crate::specs::inner::View::block))]
    fn alloc_code(&mut self, arena: &'a Bump) -> Result<bool, Fault>
        ensures placed { IfOk result (λ yes. MatchBool yes
            (code_ended (block self.old) ≡ Some (class_again (block self.new)))
            (code_ended (block self.old) ≡ None)) }
        ensures memory { IsOkUnless result memory }
    {
        match self {
            Block::Code(code) => {
                code.place(arena)?;
                Ok(true)
            }
            _ => Ok(false),
        }
    }

    /// The code is whole, and the method that it belongs to has it; false where no code is open.
    pub(crate) fn end_code(&mut self, arena: &'a Bump) -> Result<bool, Fault>
        ensures ended { IfOk result (λ yes. MatchBool yes
            (code_ended (block self.old) ≡ Some (block self.new))
            (code_ended (block self.old) ≡ None)) }
        ensures memory { IsOkUnless result memory }
    {
        if !self.alloc_code(arena)? {
            return Ok(false);
        }
        let code = mem::replace(self, Block::Top);
        *self = code.without_body();
        Ok(true)
    }

    /// A line that is allowed inside the open block is added to it, the one with this number; false where it gives again
    /// what may be given once.
    #[tactic(auto, unfolding(crate::specs::inner::View::block, crate::specs::States::inside))]
    pub(crate) fn add(
        &mut self,
        arena: &'a Bump,
        number: u64,
        next: Line<'a>,
    ) -> Result<bool, Fault>
        ensures added { IfOk result (λ yes. MatchBool yes
            (inside (block self.old) number (line next.entry) ≡ Some (block self.new))
            (inside (block self.old) number (line next.entry) ≡ None)) }
        ensures memory { IsOkUnless result memory }
    {
        match self {
            Block::Class(class) => class.add(next),
            Block::Code(code) => code.add(arena, number, next),
            _ => Ok(false),
        }
    }

    /// An instruction is added to the open code, on the line with this number; false where no code is open.
    #[tactic(auto, unfolding(crate::specs::inner::View::block, crate::specs::States::inside))]
    pub(crate) fn add_insn(&mut self, number: u64, new: Insn<'a>) -> Result<bool, Fault>
        ensures added { IfOk result (λ yes. MatchBool yes
            (inside (block self.old) number (insn_line (insn new.entry)) ≡ Some (block self.new))
            (inside (block self.old) number (insn_line (insn new.entry)) ≡ None)) }
        ensures memory { IsOkUnless result memory }
    {
        match self {
            Block::Code(code) => {
                code.add_insn(number, new)?;
                Ok(true)
            }
            _ => Ok(false),
        }
    }

    /// Room for so many instructions more in the open code, if one is open.
    #[tactic(auto, unfolding(crate::specs::inner::View::block))]
    pub(crate) fn make_room(&mut self, count: usize) -> Result<(), Fault>
        ensures same { block self.new ≡ block self.old }
        ensures memory { IsOkUnless result memory }
    {
        match self {
            Block::Code(code) => code.body.make_room(count),
            _ => Ok(()),
        }
    }
}
