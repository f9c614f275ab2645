//! Reading a payload ("Dalvik bytecode", the three payload formats).

ghost use Rattle.std.specs.Prelude.{ℕ, ◌≡◌, ◌≤◌, ◌+◌, ◌*◌, ◌%◌, ◌<◌, length, IfOk, IfErr, IsTrue, ◌↔◌};
ghost use Rattle.dex_insn.specs.Fields.{number, field, SwitchKeysRise};
ghost use Rattle.dex_insn.specs.Raw.{raw};
ghost use Rattle.dex_insn.specs.RawInsns.{SpellsInsn, IsElementWidth};
ghost use Rattle.dex_insn.specs.Flaws.{PayloadBreaks};
ghost use Rattle.dex_insn.specs.inner.Flaws.{code_of};

use crate::flaw::Flaw;
use crate::raw::RawInsn;
use crate::units::{two_units, unit};

/// Whether the keys, `n` numbers of 32 bits, rise strictly.
fn rises(keys: &[u8], n: usize) -> bool
    requires { length keys.now ≡ 4 * n }
    ensures { IsTrue result ↔ SwitchKeysRise keys.now n }
{
    for i in 1..n {
        let before = two_units(keys, 2 * (i - 1)).cast_signed();
        let here = two_units(keys, 2 * i).cast_signed();
        if before >= here {
            return false;
        }
    }
    true
}

/// Reads the packed-switch payload at the front of the bytes.
#[tactic(auto, unfolding(crate::specs::Raw::raw, crate::specs::Flaws::PayloadBreaks))]
pub(crate) fn read_packed(front: &[u8]) -> Result<RawInsn<'_>, Flaw>
    requires long { 2 ≤ length front.now }
    requires identifier { number front.now 0 1 ≡ 0x0100 }
    ensures ok { IfOk result (λ insn. SpellsInsn front.now (raw insn)) }
    ensures err { IfErr result (λ flaw. (at : ℕ) → at % 2 ≡ 0 → PayloadBreaks at front.now (code_of flaw)) }
{
    if front.len() < 4 {
        return Err(Flaw::CutHead);
    }
    let size = usize::from(unit(front, 1));
    if front.len() < 2 * (4 + 2 * size) {
        return Err(Flaw::CutPayload);
    }
    Ok(RawInsn::Packed {
        first: two_units(front, 2).cast_signed(),
        offsets: &front[8..8 + 4 * size],
    })
}

/// Reads the sparse-switch payload at the front of the bytes.
#[tactic(auto, unfolding(crate::specs::Raw::raw, crate::specs::Flaws::PayloadBreaks))]
pub(crate) fn read_sparse(front: &[u8]) -> Result<RawInsn<'_>, Flaw>
    requires long { 2 ≤ length front.now }
    requires identifier { number front.now 0 1 ≡ 0x0200 }
    ensures ok { IfOk result (λ insn. SpellsInsn front.now (raw insn)) }
    ensures err { IfErr result (λ flaw. (at : ℕ) → at % 2 ≡ 0 → PayloadBreaks at front.now (code_of flaw)) }
{
    if front.len() < 4 {
        return Err(Flaw::CutHead);
    }
    let size = usize::from(unit(front, 1));
    if front.len() < 2 * (2 + 4 * size) {
        return Err(Flaw::CutPayload);
    }
    let keys = &front[4..4 + 4 * size];
    if !rises(keys, size) {
        return Err(Flaw::KeyOrder);
    }
    Ok(RawInsn::Sparse {
        keys,
        offsets: &front[4 + 4 * size..4 + 8 * size],
    })
}

/// Whether the elements of an array payload may have this width.
fn is_width(width: u16) -> bool
    ensures { IsTrue result ↔ IsElementWidth width }
{
    width == 1 || width == 2 || width == 4 || width == 8
}

/// Reads the array payload at the front of the bytes.
#[tactic(auto, unfolding(crate::specs::Raw::raw, crate::specs::Flaws::PayloadBreaks))]
pub(crate) fn read_data(front: &[u8]) -> Result<RawInsn<'_>, Flaw>
    requires long { 2 ≤ length front.now }
    requires identifier { number front.now 0 1 ≡ 0x0300 }
    ensures ok { IfOk result (λ insn. SpellsInsn front.now (raw insn)) }
    ensures err { IfErr result (λ flaw. (at : ℕ) → at % 2 ≡ 0 → PayloadBreaks at front.now (code_of flaw)) }
{
    if front.len() < 8 {
        return Err(Flaw::CutHead);
    }
    let width = unit(front, 1);
    if !is_width(width) {
        return Err(Flaw::Width);
    }
    let size = two_units(front, 2) as usize * usize::from(width);
    if front.len() < 2 * (4 + (size + 1) / 2) {
        return Err(Flaw::CutPayload);
    }
    Ok(RawInsn::Data {
        width,
        bytes: &front[8..8 + size],
    })
}
