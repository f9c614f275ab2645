//! The shape of an instruction by its first unit: its size, and the place of its index.
ghost use Rattle.std.specs.Prelude.{◌≡◌, ◌≤◌, length, false, IfSome, IfNone};
ghost use Rattle.dex_insn.specs.Fields.{field};
ghost use Rattle.dex_insn.specs.Raw.{raw, Raw, units};
ghost use Rattle.dex_insn.specs.RawInsns.{SpellsInsn};
ghost use Rattle.code_read.specs.inner.Symbols.{has_index};
ghost use Rattle.file_renumber.specs.inner.Indices.{IsIndex};
ghost use Rattle.file_renumber.specs.inner.Shapes.{shape_in, shape_of, IsOfShape};

use dex_base::{u16_at, u32_at};
use dex_insn::{Format, RawInsn, format_of, read_insn, size_of};

/// What a walk knows of an instruction.
#[derive(Clone, Copy)]
pub(crate) enum Shape {
    /// So many units, and no index.
    Plain(u8),
    /// So many units, and an index in the second of them: formats 21c, 22c and 3rc.
    Short(u8),
    /// Format 31c: an index in the second and the third unit.
    Long,
    /// Format 35c: an index in the second unit, and registers of which some aren't named.
    Five,
    /// A payload, whose head has its number of units.
    Payload,
}

/// The shape of an opcode's instructions, by their format.
#[rattlefmt::skip]
fn shape_in(format: Option<Format>) -> Shape
    ensures { result ≡ shape_in format }
{
    match format {
        Some(Format::F10x | Format::F12x | Format::F11n | Format::F11x | Format::F10t) => Shape::Plain(1),
        Some(Format::F20t | Format::F22x | Format::F21t | Format::F21s | Format::F21h | Format::F23x) => Shape::Plain(2),
        Some(Format::F22b | Format::F22t | Format::F22s) => Shape::Plain(2),
        Some(Format::F21c | Format::F22c) => Shape::Short(2),
        Some(Format::F30t | Format::F32x | Format::F31i | Format::F31t) => Shape::Plain(3),
        Some(Format::F31c) => Shape::Long,
        Some(Format::F35c) => Shape::Five,
        Some(Format::F3rc) => Shape::Short(3),
        Some(Format::F51l) => Shape::Plain(5),
        None => Shape::Plain(1),
    }
}

/// The opcode of the instruction at the front of the units.
pub(crate) fn opcode_at(front: &[u8]) -> u8
    requires { 2 ≤ length front.now }
    ensures { result ≡ field front.now 0 0 8 }
{
    (u16_at(front, 0) % 256) as u8
}

/// The shape of the instruction at the front of the units.
pub(crate) fn shape_at(front: &[u8]) -> Shape
    requires { (r : Raw) × SpellsInsn front.now r }
    ensures { (r : Raw) → SpellsInsn front.now r → shape_of r ≡ result }
{
    let first = u16_at(front, 0);
    if first % 256 == 0 && first != 0 && first < 1024 {
        return Shape::Payload;
    }
    shape_in(format_of((first % 256) as u8))
}

/// The instruction at the front of the units.
pub(crate) fn insn_at(front: &[u8]) -> RawInsn<'_>
    requires { (r : Raw) × SpellsInsn front.now r }
    ensures { SpellsInsn front.now (raw result) }
{
    match read_insn(front, 0) {
        Ok(one) => one,
        Err(_) => unreachable!(),
    }
}

/// How many units the instruction of this shape at the front of the units has.
pub(crate) fn size_at(front: &[u8], shape: Shape) -> u64
    requires { (r : Raw) × IsOfShape front.now shape r }
    ensures { (r : Raw) → IsOfShape front.now shape r → result ≡ units r }
{
    match shape {
        Shape::Plain(units) | Shape::Short(units) => u64::from(units),
        Shape::Long | Shape::Five => 3,
        Shape::Payload => size_of(&insn_at(front)),
    }
}

/// The index of the instruction of this shape at the front of the units, if it has one.
pub(crate) fn index_at(front: &[u8], shape: Shape) -> Option<u32>
    requires { (r : Raw) × IsOfShape front.now shape r }
    ensures some { IfSome result (λ x. (r : Raw) → IsOfShape front.now shape r → IsIndex r (field front.now 0 0 8) x) }
    ensures none { IfNone result ((r : Raw) → IsOfShape front.now shape r → has_index r ≡ false) }
{
    match shape {
        Shape::Short(_) => Some(u32::from(u16_at(front, 2))),
        Shape::Five => Some(u32::from(u16_at(front, 2))),
        Shape::Long => Some(u32_at(front, 2)),
        Shape::Plain(_) => None,
        Shape::Payload => None,
    }
}
