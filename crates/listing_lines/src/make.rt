//! Instructions, fields and methods from the values of their words.

ghost use Rattle.std.specs.Prelude.{◌≡◌, map, Some};
ghost use Rattle.program_types.specs.View.{insn, member, method};
ghost use Rattle.listing_slots.specs.inner.View.{datum};
ghost use Rattle.listing_lines.specs.Lines.{insn_of, member_of, method_of};

use dex_insn::Format;
use listing_slots::{
    Datum, byte_of, datum_at, half_of, int_of, long_of, name_of, proto_of, short_of, text_of,
    tiny_of, type_of, word_of,
};
use program_types::{Insn, Member, Method};

/// The instruction of this opcode and these operands.
#[rattlefmt::skip]
#[tactic(auto, unfolding(crate::specs::Lines::insn_of))]
pub(crate) fn plain_insn<'a>(format: Format, op: u8, word_values: &[Datum<'a>]) -> Insn<'a>
    ensures { insn result ≡ insn_of (Some format) op (map datum word_values.now) }
{
    let first = datum_at(word_values, 0);
    let second = datum_at(word_values, 1);
    let third = datum_at(word_values, 2);
    match format {
        Format::F10x => Insn::I10x { op },
        Format::F12x => Insn::I12x { op, a: byte_of(first), b: byte_of(second) },
        Format::F11n => Insn::I11n { op, a: byte_of(first), b: tiny_of(second) },
        Format::F11x => Insn::I11x { op, a: byte_of(first) },
        Format::F10t => Insn::I10t { op, to: word_of(first) },
        Format::F20t => Insn::I20t { op, to: word_of(first) },
        Format::F22x => Insn::I22x { op, a: byte_of(first), b: half_of(second) },
        Format::F21t => Insn::I21t { op, a: byte_of(first), to: word_of(second) },
        Format::F21s => Insn::I21s { op, a: byte_of(first), b: short_of(second) },
        Format::F21h => Insn::I21h { op, a: byte_of(first), b: short_of(second) },
        Format::F21c => Insn::I21c { op, a: byte_of(first), name: name_of(second) },
        Format::F23x => Insn::I23x { op, a: byte_of(first), b: byte_of(second), c: byte_of(third) },
        Format::F22b => Insn::I22b { op, a: byte_of(first), b: byte_of(second), c: tiny_of(third) },
        Format::F22t => Insn::I22t { op, a: byte_of(first), b: byte_of(second), to: word_of(third) },
        Format::F22s => Insn::I22s { op, a: byte_of(first), b: byte_of(second), c: short_of(third) },
        Format::F22c => Insn::I22c { op, a: byte_of(first), b: byte_of(second), name: name_of(third) },
        Format::F30t => Insn::I30t { op, to: word_of(first) },
        Format::F32x => Insn::I32x { op, a: half_of(first), b: half_of(second) },
        Format::F31i => Insn::I31i { op, a: byte_of(first), b: int_of(second) },
        Format::F31t => Insn::I31t { op, a: byte_of(first), to: word_of(second) },
        Format::F31c => Insn::I31c { op, a: byte_of(first), name: name_of(second) },
        Format::F35c => {
            let n = word_values.len().saturating_sub(3).min(255) as u8;
            let regs = [
                byte_of(second),
                byte_of(third),
                byte_of(datum_at(word_values, 3)),
                byte_of(datum_at(word_values, 4)),
                byte_of(datum_at(word_values, 5)),
            ];
            Insn::I35c { op, n, regs, name: name_of(datum_at(word_values, word_values.len().saturating_sub(1))) }
        }
        Format::F3rc => Insn::I3rc { op, n: byte_of(second), first: half_of(first), name: name_of(third) },
        Format::F51l => Insn::I51l { op, a: byte_of(first), b: long_of(second) },
    }
}

/// The field.
pub(crate) fn make_member<'a>(word_values: &[Datum<'a>]) -> Member<'a>
    ensures { member result ≡ member_of (map datum word_values.now) }
{
    Member {
        name: text_of(datum_at(word_values, 0)),
        ty: type_of(datum_at(word_values, 1)),
        flags: word_of(datum_at(word_values, 2)),
    }
}

/// The method, without code.
pub(crate) fn make_method<'a>(word_values: &[Datum<'a>]) -> Method<'a>
    ensures { method result ≡ method_of (map datum word_values.now) }
{
    Method {
        name: text_of(datum_at(word_values, 0)),
        proto: proto_of(datum_at(word_values, 1)),
        flags: word_of(datum_at(word_values, 2)),
        code: None,
    }
}
