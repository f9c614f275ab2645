//! Bodies of methods ("Dalvik Executable format": code_item). Instructions are named by their number in the code, from 0.

use crate::insn::Insn;
use crate::names::Desc;

/// Where exceptions of a type go: the number of the handler's first instruction.
#[derive(Clone, Copy, Debug)]
pub struct Catch<'a> {
    pub ty: Desc<'a>,
    pub at: u32,
}

/// The instructions `from` to `to`, which isn't covered itself, and where their exceptions go: the first catch that fits, else
/// `catch_all`.
#[derive(Clone, Copy, Debug)]
pub struct Try<'a> {
    pub from: u32,
    pub to: u32,
    pub catches: &'a [Catch<'a>],
    pub catch_all: Option<u32>,
}

/// The body of a method: its registers, those that take its arguments, those for the arguments of its calls, its instructions
/// and its tries.
#[derive(Clone, Copy, Debug)]
pub struct Code<'a> {
    pub registers: u16,
    pub ins: u16,
    pub outs: u16,
    pub insns: &'a [Insn<'a>],
    pub tries: &'a [Try<'a>],
}
