//! Reading an instruction that is no payload, by its format.

ghost use Rattle.std.specs.Prelude.{ℕ, ◌≡◌, ◌≤◌, length, IfOk, IfErr, ◌/◌, ◌%◌, [], ◌∷◌};
ghost use Rattle.dex_insn.specs.Raw.{Raw};
ghost use Rattle.dex_insn.specs.RawInsns.{SpellsInsn, IsPayload, register};
ghost use Rattle.dex_insn.specs.Flaws.{InsnBreaks};
ghost use Rattle.dex_insn.specs.inner.Flaws.{code_of};

use crate::columns::format_of;
use crate::flaw::Flaw;
use crate::opcode::Format;
use crate::raw::RawInsn;
use crate::take::{Take, made};
use crate::units::{four_units, high_byte, low_byte, signed_nibble, signed_unit, two_units, unit};

/// Reads the instruction at the front of the bytes, which is no payload, and returns what `v` makes of it.
#[inline(always)]
#[rattlefmt::skip]
#[tactic(auto, using(crate::proofs::Flaws::unused, crate::proofs::Flaws::count), unfolding(crate::specs::Raw::raw))]
pub(crate) fn take_plain<'b, V: Take<'b>>(front: &'b [u8], v: V) -> Result<V::Out, Flaw>
    requires long { 2 ≤ length front.now }
    requires plain { ¬ IsPayload front.now }
    ensures ok { IfOk result (λ out. (r : Raw) × SpellsInsn front.now r × V.takes v r out) }
    ensures err { IfErr result (λ flaw. (at : ℕ) → InsnBreaks at front.now (code_of flaw)) }
{
    let first = unit(front, 0);
    let (op, high) = (low_byte(first), high_byte(first));
    let Some(format) = format_of(op) else {
        return Err(Flaw::Opcode);
    };
    if front.len() < 2 * format.units() {
        return Err(Flaw::Cut);
    }
    let (low_nibble, high_nibble) = (high % 16, high / 16);
    match format {
        Format::F10x | Format::F20t | Format::F30t | Format::F32x if high != 0 => Err(Flaw::NonZero),
        Format::F10x => Ok(made(v, front, RawInsn::I10x { op })),
        Format::F12x => Ok(made(v, front, RawInsn::I12x { op, a: low_nibble, b: high_nibble })),
        Format::F11n => Ok(made(v, front, RawInsn::I11n { op, a: low_nibble, b: signed_nibble(high_nibble) })),
        Format::F11x => Ok(made(v, front, RawInsn::I11x { op, a: high })),
        Format::F10t => Ok(made(v, front, RawInsn::I10t { op, offset: i32::from(high.cast_signed()) })),
        Format::F20t => Ok(made(v, front, RawInsn::I20t { op, offset: signed_unit(front) })),
        Format::F22x => Ok(made(v, front, RawInsn::I22x { op, a: high, b: unit(front, 1) })),
        Format::F21t => Ok(made(v, front, RawInsn::I21t { op, a: high, offset: signed_unit(front) })),
        Format::F21s => Ok(made(v, front, RawInsn::I21s { op, a: high, b: unit(front, 1).cast_signed() })),
        Format::F21h => Ok(made(v, front, RawInsn::I21h { op, a: high, b: unit(front, 1).cast_signed() })),
        Format::F21c => Ok(made(v, front, RawInsn::I21c { op, a: high, index: u32::from(unit(front, 1)) })),
        Format::F23x => Ok(made(v, front, RawInsn::I23x { op, a: high, b: low_byte(unit(front, 1)), c: high_byte(unit(front, 1)) })),
        Format::F22b => Ok(made(v, front, RawInsn::I22b { op, a: high, b: low_byte(unit(front, 1)), c: high_byte(unit(front, 1)).cast_signed() })),
        Format::F22t => Ok(made(v, front, RawInsn::I22t { op, a: low_nibble, b: high_nibble, offset: signed_unit(front) })),
        Format::F22s => Ok(made(v, front, RawInsn::I22s { op, a: low_nibble, b: high_nibble, c: unit(front, 1).cast_signed() })),
        Format::F22c => Ok(made(v, front, RawInsn::I22c { op, a: low_nibble, b: high_nibble, index: u32::from(unit(front, 1)) })),
        Format::F30t => Ok(made(v, front, RawInsn::I30t { op, offset: two_units(front, 1).cast_signed() })),
        Format::F32x => Ok(made(v, front, RawInsn::I32x { op, a: unit(front, 1), b: unit(front, 2) })),
        Format::F31i => Ok(made(v, front, RawInsn::I31i { op, a: high, b: two_units(front, 1).cast_signed() })),
        Format::F31t => Ok(made(v, front, RawInsn::I31t { op, a: high, offset: two_units(front, 1).cast_signed() })),
        Format::F31c => Ok(made(v, front, RawInsn::I31c { op, a: high, index: two_units(front, 1) })),
        Format::F35c if high_nibble > 5 => Err(Flaw::RegisterCount),
        Format::F35c => Ok(made(v, front, RawInsn::I35c { op, n: high_nibble, regs: registers(high_nibble, unit(front, 2), low_nibble), index: u32::from(unit(front, 1)) })),
        Format::F3rc => Ok(made(v, front, RawInsn::I3rc { op, n: high, first: unit(front, 2), index: u32::from(unit(front, 1)) })),
        Format::F51l => Ok(made(v, front, RawInsn::I51l { op, a: high, b: four_units(front, 1).cast_signed() })),
    }
}

/// The registers of format 35c, those past the first `n` being 0: four in the third unit, and G.
#[inline(always)]
fn registers(n: u8, third: u16, g: u8) -> [u8; 5]
    ensures { result ≡ register n 0 (third % 16) ∷ register n 1 (third / 16 % 16)
        ∷ register n 2 (third / 256 % 16) ∷ register n 3 (third / 4096) ∷ register n 4 g ∷ [] }
{
    [
        if n > 0 { (third % 16) as u8 } else { 0 },
        if n > 1 { (third / 16 % 16) as u8 } else { 0 },
        if n > 2 { (third / 256 % 16) as u8 } else { 0 },
        if n > 3 { (third / 4096) as u8 } else { 0 },
        if n > 4 { g } else { 0 },
    ]
}
