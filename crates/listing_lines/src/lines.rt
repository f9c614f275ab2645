//! Lines from the values of their words.

ghost use Rattle.std.specs.Prelude.{◌≡◌, map, drop, false, IfOk, IsOkUnless};
ghost use Rattle.dex_base.specs.Fault.{memory};
ghost use Rattle.dex_insn.specs.Opcodes.{format_of};
ghost use Rattle.program_types.specs.View.{insn};
ghost use Rattle.listing_slots.specs.inner.View.{datum};
ghost use Rattle.listing_slots.specs.Data.{int_of, word_of};
ghost use Rattle.listing_lines.specs.Lines.{line_of, insn_of, alternate};
ghost use Rattle.listing_lines.specs.inner.Lines.{takes_memory};
ghost use Rattle.listing_lines.specs.inner.LineView.{line};

use crate::line::Line;
use crate::make::{make_member, make_method, plain_insn};
use crate::making::make_value;
use bumpalo::Bump;
use bumpalo::collections::into_bump_slice;
use dex_base::Fault;
use dex_insn::format_of;
use listing_slots::{
    Datum, Kind, datum_at, elements_of, half_of, int_of, text_of, type_of, word_of,
};
use program_types::Insn;

/// The words after so many.
fn after<'b, 'a>(word_values: &'b [Datum<'a>], n: usize) -> &'b [Datum<'a>]
    ensures { map datum result.now ≡ drop n (map datum word_values.now) }
{
    let (_, rest) = word_values.split_at(n.min(word_values.len()));
    rest
}

/// The instruction of this opcode.
pub fn make_insn<'a>(op: u8, word_values: &[Datum<'a>]) -> Insn<'a>
    ensures { insn result ≡ insn_of (format_of op) op (map datum word_values.now) }
{
    match format_of(op) {
        Some(format) => plain_insn(format, op, word_values),
        None => Insn::I10x { op },
    }
}

/// The numbers that all words are.
fn words_of<'a>(alloc: &'a Bump, word_values: &[Datum<'_>]) -> Result<&'a [u32], Fault>
    ensures ok { IfOk result (λ ns. ns.now ≡ map word_of (map datum word_values.now)) }
    ensures memory { IsOkUnless result memory }
{
    let mut numbers = Vec::new(alloc);
    for i in 0..word_values.len() {
        numbers.push(word_of(word_values[i]))?;
    }
    Ok(into_bump_slice(numbers))
}

/// The numbers that every other word is.
fn ints_between<'a>(alloc: &'a Bump, word_values: &[Datum<'_>]) -> Result<&'a [i32], Fault>
    ensures ok { IfOk result (λ ns. ns.now ≡ map int_of (alternate (map datum word_values.now))) }
    ensures memory { IsOkUnless result memory }
{
    let mut numbers = Vec::new(alloc);
    let mut is_due = true;
    for i in 0..word_values.len() {
        if is_due {
            numbers.push(int_of(word_values[i]))?;
        }
        is_due = !is_due;
    }
    Ok(into_bump_slice(numbers))
}

/// The numbers that every other word is.
fn words_between<'a>(alloc: &'a Bump, word_values: &[Datum<'_>]) -> Result<&'a [u32], Fault>
    ensures ok { IfOk result (λ ns. ns.now ≡ map word_of (alternate (map datum word_values.now))) }
    ensures memory { IsOkUnless result memory }
{
    let mut numbers = Vec::new(alloc);
    let mut is_due = true;
    for i in 0..word_values.len() {
        if is_due {
            numbers.push(word_of(word_values[i]))?;
        }
        is_due = !is_due;
    }
    Ok(into_bump_slice(numbers))
}

/// The line of a kind that takes no memory.
#[rattlefmt::skip]
#[tactic(auto, unfolding(crate::specs::Lines::line_of, crate::specs::inner::Lines::takes_memory))]
fn flat_line<'a>(kind: Kind, word_values: &[Datum<'a>]) -> Line<'a>
    requires { takes_memory kind ≡ false }
    ensures { line result ≡ line_of kind (map datum word_values.now) }
{
    let first = datum_at(word_values, 0);
    let second = datum_at(word_values, 1);
    match kind {
        Kind::First => Line::First,
        Kind::OpenClass => Line::OpenClass(type_of(first), word_of(second)),
        Kind::EndClass => Line::EndClass,
        Kind::Super => Line::Super(type_of(first)),
        Kind::Implements => Line::Implements(type_of(first)),
        Kind::Source => Line::Source(text_of(first)),
        Kind::Static => Line::Static(make_member(word_values), None),
        Kind::Instance => Line::Instance(make_member(word_values)),
        Kind::Direct => Line::Direct(make_method(word_values)),
        Kind::Virtual => Line::Virtual(make_method(word_values)),
        Kind::OpenCode => Line::OpenCode(half_of(first), half_of(second), half_of(datum_at(word_values, 2))),
        Kind::EndCode => Line::EndCode,
        Kind::Plain(op) => Line::Insn(make_insn(op, word_values)),
        Kind::Elements => Line::Insn(Insn::Data { width: half_of(first), bytes: elements_of(second) }),
        Kind::Try => Line::Try(word_of(first), word_of(second)),
        Kind::Catch => Line::Catch(type_of(first), word_of(second)),
        Kind::CatchAll => Line::CatchAll(word_of(first)),
        Kind::Given | Kind::Packed | Kind::Sparse => unreachable!(),
    }
}

/// The line of this kind with these values of its words.
#[tactic(auto, unfolding(crate::specs::Lines::line_of, crate::specs::inner::Lines::takes_memory))]
pub fn make_line<'a>(
    arena: &'a Bump,
    kind: Kind,
    word_values: &[Datum<'a>],
) -> Result<Line<'a>, Fault>
    ensures ok { IfOk result (λ l. line l ≡ line_of kind (map datum word_values.now)) }
    ensures memory { IsOkUnless result memory }
{
    match kind {
        Kind::Given => {
            let initial = make_value(arena, after(word_values, 4))?;
            Ok(Line::Static(make_member(word_values), Some(initial)))
        }
        Kind::Packed => {
            let first = int_of(datum_at(word_values, 0));
            let targets = words_of(arena, after(word_values, 1))?;
            Ok(Line::Insn(Insn::Packed { first, targets }))
        }
        Kind::Sparse => {
            let keys = ints_between(arena, word_values)?;
            let targets = words_between(arena, after(word_values, 1))?;
            Ok(Line::Insn(Insn::Sparse { keys, targets }))
        }
        _ => Ok(flat_line(kind, word_values)),
    }
}
