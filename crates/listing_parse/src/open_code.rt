//! The code that is open.

ghost use Rattle.std.specs.Prelude.{◌≡◌, Some, None, true, false, IfOk, OnOk, IsOkUnless, MatchBool};
ghost use Rattle.dex_base.specs.Fault.{memory};

use crate::open_class::{Open, Owner};
use bumpalo::Bump;
use dex_base::Fault;
use listing_lines::{Line, Need, insn_needs, line_needs};
use program_types::{Catch, Code, Insn, Try};
use std::alloc::Global;

/// The code that is open. Its tries are those that are whole.
#[derive(Drop)]
pub struct OpenBody<'a> {
    pub alloc: Global,
    pub owner: Owner<'a>,
    pub registers: u16,
    pub ins: u16,
    pub outs: u16,
    pub insns: Vec<Insn<'a>>,
    pub tries: Vec<Try<'a>>,
    pub needs: Vec<Need>,
}

/// The try that is open: what it covers, and its catches so far.
#[derive(Drop)]
pub struct OpenTry<'a> {
    pub from: u32,
    pub to: u32,
    pub catches: Vec<Catch<'a>>,
}

/// How far the lines of a code have come.
pub enum CodePart<'a> {
    /// Among its instructions.
    Insns,
    /// After a whole try.
    Tries,
    /// After a try, or a catch of it.
    Caught(OpenTry<'a>),
}

// As that of `Block`.
impl<'a> Drop for CodePart<'a> {
    fn drop(self) {
        match self {
            CodePart::Insns | CodePart::Tries => {}
            CodePart::Caught(open) => drop(open),
        }
    }
}

/// A code to which the next line belongs, and its class.
#[derive(Drop)]
pub struct InCode<'a> {
    pub class: Open<'a>,
    pub body: OpenBody<'a>,
    pub part: CodePart<'a>,
}

impl<'a> OpenTry<'a> {
    ghost use Rattle.std.specs.Prelude.{◌++◌, ◌∷◌, []};
    ghost use Rattle.program_types.specs.View.{catch};
    ghost use Rattle.listing_parse.specs.inner.View.{open_try};

    fn put_catch(&mut self, new: Catch<'a>) -> Result<(), Fault>
        ensures put { OnOk result (open_try self.new
            ≡ record (open_try self.old) { catches = (open_try self.old).catches ++ catch new.entry ∷ [] }) }
        ensures memory { IsOkUnless result memory }
    {
        self.catches.push(new)?;
        Ok(())
    }
}

impl<'a> CodePart<'a> {
    ghost use Rattle.program_types.specs.View.{catch};
    ghost use Rattle.listing_parse.specs.States.{with_catch, is_in_try};
    ghost use Rattle.listing_parse.specs.inner.View.{code_part};

    /// One catch more in the open try; false where no try is open.
    fn put_catch(&mut self, new: Catch<'a>) -> Result<bool, Fault>
        ensures put { IfOk result (λ yes. MatchBool yes
            (with_catch (code_part self.old) (catch new.entry) ≡ Some (code_part self.new))
            (with_catch (code_part self.old) (catch new.entry) ≡ None)) }
        ensures memory { IsOkUnless result memory }
    {
        match self {
            CodePart::Caught(open) => {
                open.put_catch(new)?;
                Ok(true)
            }
            _ => Ok(false),
        }
    }

    /// Whether a try is open.
    fn is_in_try(&self) -> bool
        ensures { result ≡ is_in_try (code_part self.now) }
    {
        matches!(self, CodePart::Caught(_))
    }
}

impl<'a> OpenBody<'a> {
    ghost use Rattle.listing_lines.specs.Needs.{with_need};
    ghost use Rattle.program_types.specs.View.{insn, code};
    ghost use Rattle.listing_parse.specs.States.{begun, with_insn, with_tries, whole_code};
    ghost use Rattle.listing_parse.specs.inner.View.{owner, open_body, code_part};

    /// A code without anything.
    #[tactic(auto, unfolding(crate::specs::inner::View::open_body))]
    pub(crate) fn new(
        alloc: Global,
        of: Owner<'a>,
        registers: u16,
        ins: u16,
        outs: u16,
    ) -> OpenBody<'a>
        ensures { open_body result ≡ begun (owner of.entry) registers ins outs }
    {
        OpenBody {
            alloc,
            owner: of,
            registers,
            ins,
            outs,
            insns: Vec::new(alloc),
            tries: Vec::new(alloc),
            needs: Vec::new(alloc),
        }
    }

    /// What a line needs is noted.
    #[tactic(auto, unfolding(crate::specs::inner::View::open_body))]
    fn note(&mut self, number: u64, count: u64) -> Result<(), Fault>
        ensures put { OnOk result (open_body self.new
            ≡ record (open_body self.old) { needs = with_need (open_body self.old).needs number count }) }
        ensures memory { IsOkUnless result memory }
    {
        if count > 0 {
            self.needs.push(Need {
                line: number,
                count,
            })?;
        }
        Ok(())
    }

    #[tactic(auto, unfolding(crate::specs::inner::View::open_body))]
    fn put_insn(&mut self, new: Insn<'a>) -> Result<(), Fault>
        ensures put { OnOk result (open_body self.new ≡ with_insn (open_body self.old) (insn new.entry)) }
        ensures memory { IsOkUnless result memory }
    {
        self.insns.push(new)?;
        Ok(())
    }

    /// The open try is whole, if one is open.
    #[tactic(auto, unfolding(crate::specs::inner::View::open_body))]
    pub(crate) fn end_try(
        &mut self,
        arena: &'a Bump,
        part: &CodePart<'a>,
        catch_all: Option<u32>,
    ) -> Result<(), Fault>
        ensures put { OnOk result (open_body self.new
            ≡ with_tries (open_body self.old) (code_part part.now) catch_all) }
        ensures memory { IsOkUnless result memory }
    {
        let CodePart::Caught(open) = part else {
            return Ok(());
        };
        let catches = arena.try_alloc_slice_copy(open.catches.as_slice())?;
        self.tries.push(Try {
            from: open.from,
            to: open.to,
            catches,
            catch_all,
        })?;
        Ok(())
    }

    /// Reserves memory for so many instructions more.
    #[tactic(auto, unfolding(crate::specs::inner::View::open_body))]
    pub(crate) fn make_room(&mut self, count: usize) -> Result<(), Fault>
        ensures same { open_body self.new ≡ open_body self.old }
        ensures memory { IsOkUnless result memory }
    {
        self.insns.reserve(count)?;
        Ok(())
    }

    /// The code, when its tries are whole.
    #[tactic(auto, unfolding(crate::specs::inner::View::open_body))]
    pub(crate) fn alloc_code(&self, arena: &'a Bump) -> Result<Code<'a>, Fault>
        ensures ok { IfOk result (λ c. code c ≡ whole_code (open_body self.now)) }
        ensures memory { IsOkUnless result memory }
    {
        let insns = arena.try_alloc_slice_copy(self.insns.as_slice())?;
        let tries = arena.try_alloc_slice_copy(self.tries.as_slice())?;
        Ok(Code {
            registers: self.registers,
            ins: self.ins,
            outs: self.outs,
            insns,
            tries,
        })
    }
}

impl<'a> InCode<'a> {
    ghost use Rattle.listing_lines.specs.inner.LineView.{line};
    ghost use Rattle.listing_lines.specs.Lines.{insn_line};
    ghost use Rattle.program_types.specs.View.{insn, code};
    ghost use Rattle.listing_parse.specs.States.{at_insns, noted, with_insn, with_tries, whole_code, with_code_at, code_line};
    ghost use Rattle.listing_parse.specs.inner.View.{owner, open_class, open_body, code_part};

    /// A line of the code alone, whose needs are noted; false where it is of another kind, or a catch where no try is
    /// open.
    #[rattlefmt::skip]
    fn put(&mut self, arena: &'a Bump, next: Line<'a>) -> Result<bool, Fault>
        ensures put { IfOk result (λ yes. MatchBool yes
            (code_line (open_body self.old.body) (code_part self.old.part) (line next.entry)
            ≡ Some (open_body self.new.body, code_part self.new.part))
            (code_line (open_body self.old.body) (code_part self.old.part) (line next.entry) ≡ None)) }
        ensures class { self.new.class ≡ self.old.class }
        ensures memory { IsOkUnless result memory }
    {
        match next {
            Line::Insn(new) => { self.body.put_insn(new)?; self.part = CodePart::Insns; Ok(true) }
            Line::Try(from, to) => {
                self.body.end_try(arena, &self.part, None)?;
                self.part = CodePart::Caught(OpenTry { from, to, catches: Vec::new(self.body.alloc) });
                Ok(true)
            }
            Line::Catch(ty, at) => self.part.put_catch(Catch { ty, at }),
            Line::CatchAll(at) => {
                if !self.part.is_in_try() { return Ok(false); }
                self.body.end_try(arena, &self.part, Some(at))?;
                self.part = CodePart::Tries;
                Ok(true)
            }
            _ => Ok(false),
        }
    }

    /// A line of the code alone, the one with this number; false where it is of another kind, or a catch where no try
    /// is open.
    pub(crate) fn add(
        &mut self,
        arena: &'a Bump,
        number: u64,
        next: Line<'a>,
    ) -> Result<bool, Fault>
        ensures added { IfOk result (λ yes. MatchBool yes
            (code_line (noted (open_body self.old.body) number (line next.entry)) (code_part self.old.part) (line next.entry)
            ≡ Some (open_body self.new.body, code_part self.new.part))
            (code_line (noted (open_body self.old.body) number (line next.entry)) (code_part self.old.part) (line next.entry)
            ≡ None)) }
        ensures class { self.new.class ≡ self.old.class }
        ensures memory { IsOkUnless result memory }
    {
        self.body.note(number, line_needs(&next))?;
        self.put(arena, next)
    }

    /// An instruction, on the line with this number.
    pub(crate) fn add_insn(&mut self, number: u64, new: Insn<'a>) -> Result<(), Fault>
        ensures body { OnOk result (open_body self.new.body
            ≡ with_insn (noted (open_body self.old.body) number (insn_line (insn new.entry))) (insn new.entry)) }
        ensures part { OnOk result (code_part self.new.part ≡ at_insns) }
        ensures class { self.new.class ≡ self.old.class }
        ensures memory { IsOkUnless result memory }
    {
        self.body.note(number, insn_needs(&new))?;
        self.body.put_insn(new)?;
        self.part = CodePart::Insns;
        Ok(())
    }

    /// The method that the code belongs to has it.
    pub(crate) fn place(&mut self, arena: &'a Bump) -> Result<(), Fault>
        ensures placed { OnOk result (open_class self.new.class
            ≡ with_code_at (open_class self.old.class) (owner self.old.body.owner) (whole_code (with_tries (open_body self.old.body) (code_part self.old.part) None))) }
        ensures memory { IsOkUnless result memory }
    {
        let of = self.body.owner;
        self.body.end_try(arena, &self.part, None)?;
        let whole = arena.try_alloc(self.body.alloc_code(arena)?)?;
        self.class.put_code(of, whole);
        Ok(())
    }
}
