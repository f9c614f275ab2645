//! What is made of an instruction as soon as it is read.

ghost use Rattle.std.specs.Prelude.{◌≡◌};
ghost use Rattle.dex_insn.specs.Raw.{Raw, raw};
ghost use Rattle.dex_insn.specs.RawInsns.{SpellsInsn};

use crate::raw::RawInsn;

/// Makes something of an instruction when it is read: its format is known then, so it is not looked up again.
///
/// ```
/// ghost use Rattle.std.specs.Prelude.{◌≡◌};
/// ghost use Rattle.dex_insn.specs.Raw.{units};
///
/// use dex_insn::{RawInsn, Take, size_of, take_insn};
///
/// /// How many 16-bit units an instruction has.
/// #[derive(Clone, Copy)]
/// struct Size;
///
/// impl<'b> Take<'b> for Size {
///     type Out = u64;
///
///     ghost takes = { λ s r count. count ≡ units r };
///
///     fn take(self, insn: RawInsn<'b>) -> u64 {
///         size_of(&insn)
///     }
/// }
///
/// let units = take_insn(&[0x12, 0xf0], 0, Size)?; // 1: const/4 v0, -1
/// ```
pub trait Take<'b>: Copy {
    /// What is made of an instruction.
    type Out;

    // this is made of the instruction
    ghost takes: { Self → Raw → Self.Out → Type 0 };

    /// What is made of the instruction.
    fn take(self, insn: RawInsn<'b>) -> Self::Out
        ensures { takes self (raw insn.entry) result };
}

/// The instruction itself.
#[derive(Clone, Copy)]
pub(crate) struct Whole;

impl<'b> Take<'b> for Whole {
    type Out = RawInsn<'b>;

    ghost takes = { λ w r insn. raw insn ≡ r };

    #[inline(always)]
    fn take(self, insn: RawInsn<'b>) -> RawInsn<'b> {
        insn
    }
}

/// What is made of the instruction with which the bytes begin.
#[inline(always)]
pub(crate) fn made<'b, V: Take<'b>>(v: V, front: &[u8], insn: RawInsn<'b>) -> V::Out
    requires { SpellsInsn front.now (raw insn) }
    ensures { (r : Raw) × SpellsInsn front.now r × V.takes v r result }
{
    let _front = front;
    v.take(insn)
}
