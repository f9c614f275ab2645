//! A line of a listing, read and added to what the lines before it make.

ghost use Rattle.std.specs.Prelude.{◌≡◌, ◌≢◌, ℕ, false, List, ◌+◌, ◌<◌, ◌^◌, map, length, drop, IfOk, IfErr, IfSome, IfNone, OnOk, IsOkUnless, MatchBool, Some, None};
ghost use Rattle.dex_base.specs.Fault.{memory};
ghost use Rattle.listing_words.specs.inner.View.{word};
ghost use Rattle.listing_slots.specs.inner.ValidNames.{StayValid};
ghost use Rattle.listing_slots.specs.inner.View.{datum};
ghost use Rattle.listing_slots.specs.Shapes.{Shape};
ghost use Rattle.listing_slots.specs.inner.ShapeView.{shape};
ghost use Rattle.listing_lines.specs.Lines.{line_of};
ghost use Rattle.listing_parse.specs.States.{add};
ghost use Rattle.listing_parse.specs.inner.View.{state};
ghost use Rattle.listing_lines.specs.Splitting.{lines, is_skipped};
ghost use Rattle.listing_parse.specs.Forms.{HasShapeInForm, SpellsInForm, MisspellsInForm};
ghost use Rattle.listing_parse.specs.inner.Named.{ReadingIsNamed};
ghost use Rattle.listing_parse.specs.Text.{line_counted, LineMeans, IsMeaningless, AddsLine, TakesLine, LineIsRefused};
ghost use Rattle.listing_parse.specs.inner.ReadingView.{reading};

use crate::draft::Draft;
use crate::form_line::FormLine;
use crate::reading::Reading;
use crate::short::read_short;
use bumpalo::Bump;
use dex_base::{Fault, fault};
use listing_lines::{Form, is_skipped, make_insn, make_line, read_all};
use listing_slots::{
    Datum, Found, Kind, Slot, Spelled, read_bare_shape, read_operands, read_shape,
};
use listing_words::{Word, read_words};

/// The shape of a line of these words.
fn read_form<'a, 'b>(
    form: Form,
    words: &[Word<'a, 'b>],
    slots: &mut Vec<Slot>,
) -> Result<Option<Found<'b>>, Fault>
    ensures found { IfOk result (λ r. IfSome r (λ f. HasShapeInForm form (map word words.now) (shape f slots.new.items (map word words.now)))) }
    ensures lengths { IfOk result (λ r. IfSome r (λ f. f.lead + length slots.new.items ≡ length words.now)) }
    ensures none { IfOk result (λ r. IfNone r ((s : Shape) → HasShapeInForm form (map word words.now) s → ⊥)) }
    ensures memory { IsOkUnless result memory }
{
    match form {
        Form::One => read_shape(words, slots),
        Form::Two => read_bare_shape(words, slots),
    }
}

/// Buffers for the words of a line, the slots of its shape and their values, reused for each line; and the names that words have
/// denoted.
pub(crate) struct Scratch<'a, 'b> {
    pub(crate) arena: &'a Bump,
    pub(crate) words: Vec<Word<'a, 'b>>,
    pub(crate) slots: Vec<Slot>,
    pub(crate) word_values: Vec<Datum<'a>>,
    pub(crate) spelled: Spelled<'a, 'b>,
}

// Each place where it is let go is proved: here it is one call, and derived it would be four.
impl<'a, 'b> Drop for Scratch<'a, 'b> {
    fn drop(self) {
        let Scratch {
            arena: _,
            words: _,
            slots: _,
            word_values: _,
            spelled: _,
        } = self;
    }
}

/// The values of the words after the first ones in their slots; otherwise the fault of the first invalid word.
fn read_slots<'a, 'b>(
    scratch: &mut Scratch<'a, 'b>,
    listing: &Reading<'a, 'b>,
    lead: usize,
) -> Result<Option<u16>, Fault>
    requires { lead + length scratch.old.slots.items ≡ length scratch.old.words.items }
    ensures all { IfOk result (λ r. IfNone r (SpellsInForm listing.now.form listing.now.labels scratch.old.slots.items (drop lead (map word scratch.old.words.items)) (map datum scratch.new.word_values.items))) }
    ensures bad { IfOk result (λ r. IfSome r (λ code. MisspellsInForm listing.now.form listing.now.labels scratch.old.slots.items (drop lead (map word scratch.old.words.items)) code)) }
    ensures valid { IfOk result (λ r. IfNone r (StayValid scratch.old.spelled scratch.new.spelled (map datum scratch.new.word_values.items))) }
    ensures memory { IsOkUnless result memory }
{
    let (_, operands) = scratch.words.as_slice().split_at(lead);
    let slots = scratch.slots.as_slice();
    match listing.form {
        Form::One => read_operands(
            &mut scratch.spelled,
            scratch.arena,
            slots,
            operands,
            &mut scratch.word_values,
        ),
        Form::Two => read_all(
            &mut scratch.spelled,
            scratch.arena,
            &listing.labels,
            listing.passed,
            slots,
            operands,
            &mut scratch.word_values,
        ),
    }
}

/// Adds the line of this kind with these values; false if it repeats what may occur once. Most lines are instructions: they are added
/// without a `Line`.
fn add_kind<'a>(
    arena: &'a Bump,
    draft: &mut Draft<'a>,
    kind: Kind,
    word_values: &[Datum<'a>],
) -> Result<bool, Fault>
    ensures added { IfOk result (λ yes. MatchBool yes
        (add (state draft.old) (line_of kind (map datum word_values.now)) ≡ Some (state draft.new))
        (add (state draft.old) (line_of kind (map datum word_values.now)) ≡ None)) }
    ensures lines { draft.new.lines ≡ draft.old.lines }
    ensures memory { IsOkUnless result memory }
{
    if let Kind::Plain(op) = kind {
        return draft.add_insn(make_insn(op, word_values));
    }
    let next = make_line(arena, kind, word_values)?;
    draft.add(arena, next)
}

/// Adds a line about the program, or refuses it.
fn add_content<'a, 'b>(
    scratch: &mut Scratch<'a, 'b>,
    listing: &mut Reading<'a, 'b>,
    after: &'b [u8],
) -> Result<(), Fault>
    requires { listing.old.draft.lines + 1 + length after.now < 2 ^ 64 }
    ensures taken { OnOk result (LineMeans (reading listing.old) (lines after.now) (map word scratch.old.words.items) (reading listing.new)) }
    ensures named { OnOk result (ReadingIsNamed scratch.old.spelled (reading listing.old) → ReadingIsNamed scratch.new.spelled (reading listing.new)) }
    ensures refused { IfErr result (λ e. e ≢ memory → IsMeaningless (reading listing.old) (map word scratch.old.words.items) e.code) }
    ensures place { IfErr result (λ e. e ≢ memory → e.place ≡ listing.old.draft.lines) }
    ensures lines { OnOk result (listing.new.draft.lines ≡ listing.old.draft.lines) }
{
    let words = scratch.words.as_slice();
    let Some(found) = read_form(listing.form, words, &mut scratch.slots)? else {
        return Err(Fault::at(fault::LINE_WORD, listing.draft.lines));
    };
    if !listing.may_be(found) {
        return Err(Fault::at(fault::LINE_ORDER, listing.draft.lines));
    }
    if let Some(code) = read_slots(scratch, listing, found.lead)? {
        return Err(Fault::at(code, listing.draft.lines));
    }
    let word_values = scratch.word_values.as_slice();
    if !add_kind(scratch.arena, &mut listing.draft, found.kind, word_values)? {
        return Err(Fault::at(fault::LINE_TWICE, listing.draft.lines));
    }
    listing.find_labels(found.kind, after)
}

/// Adds a line that isn't skipped; else refuses it.
fn add_line<'a, 'b>(
    scratch: &mut Scratch<'a, 'b>,
    listing: &mut Reading<'a, 'b>,
    line: &'b [u8],
    after: &'b [u8],
) -> Result<(), Fault>
    requires not_skipped { is_skipped line.now ≡ false }
    requires short { listing.old.draft.lines + 1 + length after.now < 2 ^ 64 }
    ensures taken { OnOk result (AddsLine (reading listing.old) (lines after.now) line.now (reading listing.new)) }
    ensures named { OnOk result (ReadingIsNamed scratch.old.spelled (reading listing.old) → ReadingIsNamed scratch.new.spelled (reading listing.new)) }
    ensures refused { IfErr result (λ e. e ≢ memory → LineIsRefused (reading listing.old) line.now e.code) }
    ensures place { IfErr result (λ e. e ≢ memory → e.place ≡ listing.old.draft.lines) }
    ensures lines { OnOk result (listing.new.draft.lines ≡ listing.old.draft.lines) }
{
    if !read_words(scratch.arena, line, &mut scratch.words)? {
        return Err(Fault::at(fault::LINE_WORD, listing.draft.lines));
    }
    match listing.line_of_form(scratch.words.as_slice()) {
        FormLine::Nothing => add_content(scratch, listing, after),
        FormLine::Refused(code) => Err(Fault::at(code, listing.draft.lines)),
        FormLine::First => {
            listing.begin_second();
            Ok(())
        }
        FormLine::Mark => {
            listing.pass_label();
            Ok(())
        }
    }
}

/// Counts one line more as read.
#[tactic(auto, unfolding(crate::specs::inner::ReadingView::reading))]
fn count_line(listing: &mut Reading<'_, '_>)
    requires { listing.old.draft.lines + 1 < 2 ^ 64 }
    ensures state { reading listing.new ≡ line_counted (reading listing.old) }
    ensures lines { listing.new.draft.lines ≡ listing.old.draft.lines + 1 }
{
    listing.draft.count_line();
}

/// Adds the instruction of a line that is spelled as listings are printed; false where the line is to be read as others
/// are, and then nothing is changed.
fn add_short<'a, 'b>(
    scratch: &mut Scratch<'a, 'b>,
    listing: &mut Reading<'a, 'b>,
    line: &'b [u8],
) -> Result<bool, Fault>
    ensures added { IfOk result (λ yes. MatchBool yes
        ((is_skipped line.now ≡ false) × ((ls : List (List ℕ)) → AddsLine (reading listing.old) ls line.now (reading listing.new)))
        (reading listing.new ≡ reading listing.old)) }
    ensures named { IfOk result (λ yes. ReadingIsNamed scratch.old.spelled (reading listing.old) → ReadingIsNamed scratch.new.spelled (reading listing.new)) }
    ensures lines { listing.new.draft.lines ≡ listing.old.draft.lines }
    ensures memory { IsOkUnless result memory }
{
    let Some(new) = read_short(scratch, listing, line)? else {
        return Ok(false);
    };
    listing.draft.add_insn(new)
}

/// Reads a line; else refuses it, at its number.
pub(crate) fn read_line<'a, 'b>(
    scratch: &mut Scratch<'a, 'b>,
    listing: &mut Reading<'a, 'b>,
    line: &'b [u8],
    after: &'b [u8],
) -> Result<(), Fault>
    requires { listing.old.draft.lines + 2 + length after.now < 2 ^ 64 }
    ensures taken { OnOk result (TakesLine (reading listing.old) (lines after.now) line.now (reading listing.new)) }
    ensures named { OnOk result (ReadingIsNamed scratch.old.spelled (reading listing.old) → ReadingIsNamed scratch.new.spelled (reading listing.new)) }
    ensures refused { IfErr result (λ e. e ≢ memory → LineIsRefused (line_counted (reading listing.old)) line.now e.code) }
    ensures place { IfErr result (λ e. e ≢ memory → e.place ≡ listing.old.draft.lines + 1) }
    ensures lines { OnOk result (listing.new.draft.lines ≡ listing.old.draft.lines + 1) }
{
    count_line(listing);
    if add_short(scratch, listing, line)? {
        return Ok(());
    }
    if is_skipped(line) {
        return Ok(());
    }
    add_line(scratch, listing, line, after)
}
