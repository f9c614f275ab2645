//! Whether a code keeps a rule.

ghost use Rattle.std.specs.Prelude.{◌↔◌, IsTrue};
ghost use Rattle.program_types.specs.View.{code};
ghost use Rattle.code_rules.specs.inner.CodeRules.{KeepsRule};

use crate::operands::operands_hold;
use crate::payloads::payloads_hold;
use crate::registers::registers_hold;
use crate::targets::targets_hold;
use crate::tries::tries_hold;
use program_types::Code;

/// A rule that every code keeps, by its fault.
#[derive(Clone, Copy)]
pub enum CodeRule {
    /// 114: there are instructions, not too many, and each has operands that its format has.
    Operand,
    /// 115: branches and switches target instructions that are no payloads.
    Target,
    /// 116: what refers to a payload finds one of its kind, and each switch's payload has one switch.
    PayloadUse,
    /// 117: tries cover instructions, one after the other, and have handlers that are instructions.
    Try,
    /// 118: ins are registers of the code, and so is every register that an instruction names.
    Register,
}

/// Whether the code keeps the rule. Needs no memory; `PayloadUse` searches all instructions for each switch's payload.
pub fn code_holds(rule: CodeRule, one: &Code<'_>) -> bool
    ensures { IsTrue result ↔ KeepsRule rule (code one.now) }
{
    match rule {
        CodeRule::Operand => operands_hold(one),
        CodeRule::Target => targets_hold(one),
        CodeRule::PayloadUse => payloads_hold(one),
        CodeRule::Try => tries_hold(one),
        CodeRule::Register => registers_hold(one),
    }
}
