//! Instructions read straight from the bytes of their lines, without words and slots, if a line of the second form is written as
//! listings are printed. The result is `None` for any other line, which is read as lines are. Both readers have the same result.

ghost use Rattle.std.specs.Prelude.{◌≡◌, ◌∷◌, [], List, IfOk, IfSome, IfNone, IsOkUnless};
ghost use Rattle.dex_base.specs.Fault.{memory};
ghost use Rattle.dex_insn.specs.Opcodes.{index_kind_of};
ghost use Rattle.dex_insn.specs.declared.opcode.Format.TheVariants as Format;
ghost use Rattle.program_types.specs.Mentions.{names_of_insn};
ghost use Rattle.program_types.specs.View.{insn, name};
ghost use Rattle.listing_slots.specs.Data.{word, named};
ghost use Rattle.listing_slots.specs.Shapes.{target, name_slot};
ghost use Rattle.listing_slots.specs.inner.ValidNames.{StayValid, StayWhole};
ghost use Rattle.listing_lines.specs.Labels.{Label};
ghost use Rattle.listing_parse.specs.inner.Named.{StayNamed};
ghost use Rattle.listing_parse.specs.inner.Short.{TakesOperand, InsnText, IsShortLine};
ghost use Rattle.listing_parse.specs.inner.ReadingView.{reading};

use crate::lines::Scratch;
use crate::reading::Reading;
use crate::short_pieces::{
    after_brace, last_int, last_long, last_nibble, last_plain, last_short, last_tiny, last4, last8,
    last16, take_count, take_registers, take4, take8, take16,
};
use dex_base::Fault;
use dex_insn::{Format, format_of, index_kind_of, opcode_named};
use listing_lines::{is_insns, is_two, read_target};
use listing_slots::{Datum, name_slot, read_datum};
use listing_words::{Word, after_spaces, split_before};
use program_types::{Insn, Name};

/// An instruction of registers alone.
fn of_registers<'a>(format: Format, op: u8, rest: &[u8]) -> Option<Insn<'a>>
    ensures word_values { IfSome result (λ i. (es : List Label) → InsnText es format op rest.now (insn i)) }
    ensures unnamed { IfSome result (λ i. names_of_insn (insn i) ≡ []) }
{
    match format {
        Format::F11x => {
            let a = last8(rest)?;
            Some(Insn::I11x { op, a })
        }
        Format::F12x => {
            let (a, rest) = take4(rest)?;
            let b = last4(rest)?;
            Some(Insn::I12x { op, a, b })
        }
        Format::F22x => {
            let (a, rest) = take8(rest)?;
            let b = last16(rest)?;
            Some(Insn::I22x { op, a, b })
        }
        Format::F23x => {
            let (a, rest) = take8(rest)?;
            let (b, rest) = take8(rest)?;
            let c = last8(rest)?;
            Some(Insn::I23x { op, a, b, c })
        }
        Format::F32x => {
            let (a, rest) = take16(rest)?;
            let b = last16(rest)?;
            Some(Insn::I32x { op, a, b })
        }
        Format::F10x if rest.is_empty() => Some(Insn::I10x { op }),
        _ => None,
    }
}

/// An instruction whose last operand is a literal, after a register of four bits.
fn of_literal4<'a>(format: Format, op: u8, rest: &[u8]) -> Option<Insn<'a>>
    ensures word_values { IfSome result (λ i. (es : List Label) → InsnText es format op rest.now (insn i)) }
    ensures unnamed { IfSome result (λ i. names_of_insn (insn i) ≡ []) }
{
    let (a, rest) = take4(rest)?;
    match format {
        Format::F11n => {
            let b = last_nibble(rest)?;
            Some(Insn::I11n { op, a, b })
        }
        Format::F22s => {
            let (b, rest) = take4(rest)?;
            let c = last_short(rest)?;
            Some(Insn::I22s { op, a, b, c })
        }
        _ => None,
    }
}

/// An instruction whose last operand is a literal, after a register of eight bits.
fn of_literal8<'a>(format: Format, op: u8, rest: &[u8]) -> Option<Insn<'a>>
    ensures word_values { IfSome result (λ i. (es : List Label) → InsnText es format op rest.now (insn i)) }
    ensures unnamed { IfSome result (λ i. names_of_insn (insn i) ≡ []) }
{
    let (a, rest) = take8(rest)?;
    match format {
        Format::F21s => {
            let b = last_short(rest)?;
            Some(Insn::I21s { op, a, b })
        }
        Format::F21h => {
            let b = last_short(rest)?;
            Some(Insn::I21h { op, a, b })
        }
        Format::F31i => {
            let b = last_int(rest)?;
            Some(Insn::I31i { op, a, b })
        }
        Format::F51l => {
            let b = last_long(rest)?;
            Some(Insn::I51l { op, a, b })
        }
        Format::F22b => {
            let (b, rest) = take8(rest)?;
            let c = last_tiny(rest)?;
            Some(Insn::I22b { op, a, b, c })
        }
        _ => None,
    }
}

/// The instruction that the last word marks.
fn last_target(listing: &Reading<'_, '_>, text: &[u8]) -> Option<u32>
    ensures { IfSome result (λ n. TakesOperand listing.now.labels target text.now (word n) []) }
{
    read_target(&listing.labels, listing.passed, last_plain(text)?)
}

/// An instruction whose last operand is a target.
fn of_target<'a>(listing: &Reading<'_, '_>, format: Format, op: u8, rest: &[u8]) -> Option<Insn<'a>>
    ensures word_values { IfSome result (λ i. InsnText listing.now.labels format op rest.now (insn i)) }
    ensures unnamed { IfSome result (λ i. names_of_insn (insn i) ≡ []) }
{
    match format {
        Format::F10t => {
            let to = last_target(listing, rest)?;
            Some(Insn::I10t { op, to })
        }
        Format::F20t => {
            let to = last_target(listing, rest)?;
            Some(Insn::I20t { op, to })
        }
        Format::F30t => {
            let to = last_target(listing, rest)?;
            Some(Insn::I30t { op, to })
        }
        Format::F21t => {
            let (a, rest) = take8(rest)?;
            let to = last_target(listing, rest)?;
            Some(Insn::I21t { op, a, to })
        }
        Format::F31t => {
            let (a, rest) = take8(rest)?;
            let to = last_target(listing, rest)?;
            Some(Insn::I31t { op, a, to })
        }
        Format::F22t => {
            let (a, rest) = take4(rest)?;
            let (b, rest) = take4(rest)?;
            let to = last_target(listing, rest)?;
            Some(Insn::I22t { op, a, b, to })
        }
        _ => None,
    }
}

/// An instruction of a format without a name.
fn of_numbers<'a>(
    listing: &Reading<'_, '_>,
    format: Format,
    op: u8,
    rest: &[u8],
) -> Option<Insn<'a>>
    ensures word_values { IfSome result (λ i. InsnText listing.now.labels format op rest.now (insn i)) }
    ensures unnamed { IfSome result (λ i. names_of_insn (insn i) ≡ []) }
{
    match format {
        Format::F10x | Format::F11x | Format::F12x | Format::F22x | Format::F23x | Format::F32x => {
            of_registers(format, op, rest)
        }
        Format::F11n | Format::F22s => of_literal4(format, op, rest),
        Format::F21s | Format::F21h | Format::F31i | Format::F51l | Format::F22b => {
            of_literal8(format, op, rest)
        }
        _ => of_target(listing, format, op, rest),
    }
}

/// What the last word names.
fn last_named<'a, 'b>(
    scratch: &mut Scratch<'a, 'b>,
    op: u8,
    text: &'b [u8],
) -> Result<Option<Name<'a>>, Fault>
    ensures word_values { IfOk result (λ r. IfSome r (λ n. (es : List Label) → TakesOperand es (name_slot (index_kind_of op)) text.now (named (name n)) [])) }
    ensures valid { IfOk result (λ r. IfSome r (λ n. StayValid scratch.old.spelled scratch.new.spelled (named (name n) ∷ []))) }
    ensures same { IfOk result (λ r. IfNone r (scratch.new.spelled ≡ scratch.old.spelled)) }
    ensures memory { IsOkUnless result memory }
{
    let Some(last) = last_plain(text) else {
        return Ok(None);
    };
    let slot = name_slot(index_kind_of(op));
    match read_datum(&mut scratch.spelled, scratch.arena, slot, Word::Plain(last))? {
        Some(Datum::Name(name)) => Ok(Some(name)),
        _ => Ok(None),
    }
}

/// An instruction of a register of eight bits and a name.
fn of_register_name<'a, 'b>(
    scratch: &mut Scratch<'a, 'b>,
    format: Format,
    op: u8,
    rest: &'b [u8],
) -> Result<Option<Insn<'a>>, Fault>
    ensures word_values { IfOk result (λ r. IfSome r (λ i. (es : List Label) → InsnText es format op rest.now (insn i))) }
    ensures named { IfOk result (λ r. IfSome r (λ i. StayNamed scratch.old.spelled scratch.new.spelled (insn i))) }
    ensures kept { IfOk result (λ r. IfNone r (StayWhole scratch.old.spelled scratch.new.spelled)) }
    ensures memory { IsOkUnless result memory }
{
    let Some((a, rest)) = take8(rest) else {
        return Ok(None);
    };
    let Some(name) = last_named(scratch, op, rest)? else {
        return Ok(None);
    };
    match format {
        Format::F21c => Ok(Some(Insn::I21c { op, a, name })),
        Format::F31c => Ok(Some(Insn::I31c { op, a, name })),
        _ => Ok(None),
    }
}

/// An instruction of two registers of four bits and a name.
fn of_registers_name<'a, 'b>(
    scratch: &mut Scratch<'a, 'b>,
    op: u8,
    rest: &'b [u8],
) -> Result<Option<Insn<'a>>, Fault>
    ensures word_values { IfOk result (λ r. IfSome r (λ i. (es : List Label) → InsnText es Format.F22c op rest.now (insn i))) }
    ensures named { IfOk result (λ r. IfSome r (λ i. StayNamed scratch.old.spelled scratch.new.spelled (insn i))) }
    ensures kept { IfOk result (λ r. IfNone r (StayWhole scratch.old.spelled scratch.new.spelled)) }
    ensures memory { IsOkUnless result memory }
{
    let Some((a, rest)) = take4(rest) else {
        return Ok(None);
    };
    let Some((b, rest)) = take4(rest) else {
        return Ok(None);
    };
    let Some(name) = last_named(scratch, op, rest)? else {
        return Ok(None);
    };
    Ok(Some(Insn::I22c { op, a, b, name }))
}

/// An instruction of registers that follow each other and a name.
fn of_range_name<'a, 'b>(
    scratch: &mut Scratch<'a, 'b>,
    op: u8,
    rest: &'b [u8],
) -> Result<Option<Insn<'a>>, Fault>
    ensures word_values { IfOk result (λ r. IfSome r (λ i. (es : List Label) → InsnText es Format.F3rc op rest.now (insn i))) }
    ensures named { IfOk result (λ r. IfSome r (λ i. StayNamed scratch.old.spelled scratch.new.spelled (insn i))) }
    ensures kept { IfOk result (λ r. IfNone r (StayWhole scratch.old.spelled scratch.new.spelled)) }
    ensures memory { IsOkUnless result memory }
{
    let Some((first, rest)) = take16(rest) else {
        return Ok(None);
    };
    let Some((n, rest)) = take_count(rest) else {
        return Ok(None);
    };
    let Some(name) = last_named(scratch, op, rest)? else {
        return Ok(None);
    };
    Ok(Some(Insn::I3rc { op, n, first, name }))
}

/// An instruction of registers in braces and a name.
fn of_braces_name<'a, 'b>(
    scratch: &mut Scratch<'a, 'b>,
    op: u8,
    rest: &'b [u8],
) -> Result<Option<Insn<'a>>, Fault>
    ensures word_values { IfOk result (λ r. IfSome r (λ i. (es : List Label) → InsnText es Format.F35c op rest.now (insn i))) }
    ensures named { IfOk result (λ r. IfSome r (λ i. StayNamed scratch.old.spelled scratch.new.spelled (insn i))) }
    ensures kept { IfOk result (λ r. IfNone r (StayWhole scratch.old.spelled scratch.new.spelled)) }
    ensures memory { IsOkUnless result memory }
{
    let Some(inside) = after_brace(b'{', rest) else {
        return Ok(None);
    };
    let (regs, n, closing) = take_registers(inside);
    let Some(rest) = after_brace(b'}', closing) else {
        return Ok(None);
    };
    let Some(name) = last_named(scratch, op, rest)? else {
        return Ok(None);
    };
    Ok(Some(Insn::I35c { op, n, regs, name }))
}

/// An instruction whose last operand is a name.
fn of_name<'a, 'b>(
    scratch: &mut Scratch<'a, 'b>,
    format: Format,
    op: u8,
    rest: &'b [u8],
) -> Result<Option<Insn<'a>>, Fault>
    ensures word_values { IfOk result (λ r. IfSome r (λ i. (es : List Label) → InsnText es format op rest.now (insn i))) }
    ensures named { IfOk result (λ r. IfSome r (λ i. StayNamed scratch.old.spelled scratch.new.spelled (insn i))) }
    ensures kept { IfOk result (λ r. IfNone r (StayWhole scratch.old.spelled scratch.new.spelled)) }
    ensures memory { IsOkUnless result memory }
{
    match format {
        Format::F22c => of_registers_name(scratch, op, rest),
        Format::F35c => of_braces_name(scratch, op, rest),
        Format::F3rc => of_range_name(scratch, op, rest),
        _ => of_register_name(scratch, format, op, rest),
    }
}

/// The instruction of a format, from what follows its mnemonic.
fn of_format<'a, 'b>(
    scratch: &mut Scratch<'a, 'b>,
    listing: &Reading<'a, 'b>,
    format: Format,
    op: u8,
    rest: &'b [u8],
) -> Result<Option<Insn<'a>>, Fault>
    ensures word_values { IfOk result (λ r. IfSome r (λ i. InsnText listing.now.labels format op rest.now (insn i))) }
    ensures named { IfOk result (λ r. IfSome r (λ i. StayNamed scratch.old.spelled scratch.new.spelled (insn i))) }
    ensures kept { IfOk result (λ r. IfNone r (StayWhole scratch.old.spelled scratch.new.spelled)) }
    ensures memory { IsOkUnless result memory }
{
    match format {
        Format::F21c | Format::F31c | Format::F22c | Format::F35c | Format::F3rc => {
            of_name(scratch, format, op, rest)
        }
        _ => Ok(of_numbers(listing, format, op, rest)),
    }
}

/// The instruction of a line, if instructions are allowed here and the line is written as listings are printed; `None` for any
/// other line.
#[tactic(auto, unfolding(crate::specs::inner::ReadingView::reading))]
pub(crate) fn read_short<'a, 'b>(
    scratch: &mut Scratch<'a, 'b>,
    listing: &Reading<'a, 'b>,
    line: &'b [u8],
) -> Result<Option<Insn<'a>>, Fault>
    ensures word_values { IfOk result (λ r. IfSome r (λ i. IsShortLine (reading listing.now) line.now (insn i))) }
    ensures named { IfOk result (λ r. IfSome r (λ i. StayNamed scratch.old.spelled scratch.new.spelled (insn i))) }
    ensures kept { IfOk result (λ r. IfNone r (StayWhole scratch.old.spelled scratch.new.spelled)) }
    ensures memory { IsOkUnless result memory }
{
    if !is_two(listing.form) || !is_insns(listing.draft.stage()) {
        return Ok(None);
    }
    let (mnemonic, rest) = split_before(b' ', after_spaces(line));
    let Some(op) = opcode_named(mnemonic) else {
        return Ok(None);
    };
    let Some(format) = format_of(op) else {
        return Ok(None);
    };
    of_format(scratch, listing, format, op, rest)
}
