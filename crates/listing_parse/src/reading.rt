//! The state of the reader, and the lines of the second form that are not about the program: its first line, and labels.

ghost use Rattle.std.specs.Prelude.{◌≡◌, ◌+◌, ◌<◌, ◌^◌, map, length, OnOk, IsOkUnless};
ghost use Rattle.dex_base.specs.Fault.{memory};
ghost use Rattle.listing_words.specs.inner.View.{word};
ghost use Rattle.listing_slots.specs.inner.ShapeView.{shape};
ghost use Rattle.listing_parse.specs.inner.View.{state};
ghost use Rattle.listing_lines.specs.Splitting.{lines};
ghost use Rattle.listing_parse.specs.Forms.{may_stand_in_form};
ghost use Rattle.listing_parse.specs.Text.{word_is, is_second, begins_mark, labels_after};
ghost use Rattle.listing_parse.specs.inner.ReadingView.{reading};

use crate::block::Block;
use crate::draft::Draft;
use crate::form_line::FormLine;
use dex_base::{Fault, fault};
use listing_lines::{
    Form, Labels, is_insns, is_label, is_mark, is_start, is_two, look_ahead, may_stand,
};
use listing_slots::{Found, Kind, Slot, is_same};
use listing_words::Word;

/// A listing that is being read: its form, the labels of the open code, how many of their lines were read, and what its
/// lines make.
#[derive(Drop)]
pub struct Reading<'a, 't> {
    pub form: Form,
    pub labels: Labels<'t>,
    pub passed: usize,
    pub draft: Draft<'a>,
}

/// Whether the word is this one.
fn is_plain(text: &[u8], one: Word<'_, '_>) -> bool
    ensures { result ≡ word_is text.now (word one.entry) }
{
    match one {
        Word::Plain(w) => is_same(text, w),
        Word::Text(_) => false,
    }
}

/// Whether the words are the first line of the second form.
fn is_second(words: &[Word<'_, '_>]) -> bool
    ensures { result ≡ is_second (map word words.now) }
{
    let [first, second, third, fourth] = *words else {
        return false;
    };
    if !is_plain("dex".as_bytes(), first) || !is_plain("035".as_bytes(), second) {
        return false;
    }
    is_plain("listing".as_bytes(), third) && is_plain("2".as_bytes(), fourth)
}

/// Whether the first word begins with `:`.
fn begins_mark(words: &[Word<'_, '_>]) -> bool
    ensures { result ≡ begins_mark (map word words.now) }
{
    match words.split_first() {
        Some((Word::Plain(text), _)) => is_mark(text),
        _ => false,
    }
}

impl<'a, 't> Reading<'a, 't> {
    ghost use Rattle.std.specs.Prelude.{List};
    ghost use Rattle.listing_slots.specs.declared.slot.Slot.{Slot};
    ghost use Rattle.listing_words.specs.Words as words;
    ghost use Rattle.listing_slots.specs.inner.ShapeView.{shape};
    ghost use Rattle.listing_parse.specs.Text.{line_of_label, line_of_mark, line_of_form, in_second};

    /// What the line of a label is.
    #[tactic(auto, unfolding(crate::specs::inner::ReadingView::reading))]
    fn line_of_label(&self, name: &[u8]) -> FormLine
        ensures { result ≡ line_of_label (reading self.now) name.now }
    {
        if !is_label(name) {
            return FormLine::Refused(fault::LINE_NAME);
        }
        match self.labels.place_of(self.passed, name) {
            Some(place) => {
                if place.line == self.draft.lines {
                    return FormLine::Mark;
                }
                FormLine::Refused(fault::LINE_TWICE)
            }
            None => FormLine::Mark,
        }
    }

    /// What a line is that begins with a label.
    #[tactic(auto, unfolding(crate::specs::inner::ReadingView::reading))]
    fn line_of_mark(&self, words: &[Word<'_, '_>]) -> FormLine
        ensures { result ≡ line_of_mark (reading self.now) (map word words.now) }
    {
        let Some((Word::Plain(name), rest)) = words.split_first() else {
            return FormLine::Refused(fault::LINE_WORD);
        };
        if rest.len() > 0 {
            return FormLine::Refused(fault::LINE_WORD);
        }
        if !is_insns(self.draft.stage()) {
            return FormLine::Refused(fault::LINE_ORDER);
        }
        self.line_of_label(name)
    }

    /// What a line of these words is if it is not about the program.
    #[tactic(auto, unfolding(crate::specs::inner::ReadingView::reading, crate::specs::Text::line_of_form))]
    pub(crate) fn line_of_form(&self, words: &[Word<'_, '_>]) -> FormLine
        ensures { result ≡ line_of_form (reading self.now) (map word words.now) }
    {
        if is_second(words) {
            if is_start(self.draft.stage()) {
                return FormLine::First;
            }
            if is_two(self.form) {
                return FormLine::Refused(fault::LINE_ORDER);
            }
            return FormLine::Nothing;
        }
        if !is_two(self.form) {
            return FormLine::Nothing;
        }
        if begins_mark(words) {
            return self.line_of_mark(words);
        }
        FormLine::Nothing
    }

    /// The listing is of the second form.
    #[tactic(auto, unfolding(crate::specs::inner::ReadingView::reading))]
    pub(crate) fn begin_second(&mut self)
        ensures second { reading self.new ≡ in_second (reading self.old) }
        ensures lines { self.new.draft.lines ≡ self.old.draft.lines }
    {
        self.form = Form::Two;
        self.labels.clear();
        self.draft.block = Block::Top;
    }

    /// The line of a label was read. The number of such lines is the index of the next label ahead, which is tried first.
    #[tactic(auto, unfolding(crate::specs::inner::ReadingView::reading))]
    pub(crate) fn pass_label(&mut self)
        ensures same { reading self.new ≡ reading self.old }
        ensures lines { self.new.draft.lines ≡ self.old.draft.lines }
    {
        self.passed = self.passed.saturating_add(1);
    }

    /// Whether a line of this shape is allowed here.
    #[tactic(auto, unfolding(crate::specs::inner::ReadingView::reading))]
    pub(crate) fn may_be(&self, found: Found<'_>) -> bool
        ensures { (ss : List Slot) (ws : List words.Word) → result ≡ may_stand_in_form self.now.form (state self.now.draft) (shape found.entry ss ws) }
    {
        match self.form {
            Form::One => self.draft.stands(found),
            Form::Two => may_stand(self.draft.stage(), found.kind),
        }
    }

    /// The labels ahead of a line of this kind.
    #[tactic(auto, unfolding(crate::specs::inner::ReadingView::reading))]
    pub(crate) fn find_labels(&mut self, kind: Kind, after: &'t [u8]) -> Result<(), Fault>
        requires { self.old.draft.lines + 1 + length after.now < 2 ^ 64 }
        ensures read_ahead { OnOk result (reading self.new ≡ record (reading self.old) { labels = labels_after self.old.form kind (self.old.draft.lines + 1) (lines after.now) (reading self.old).labels }) }
        ensures lines { self.new.draft.lines ≡ self.old.draft.lines }
        ensures memory { IsOkUnless result memory }
    {
        match (self.form, kind) {
            (Form::Two, Kind::OpenCode) => {
                self.passed = 0;
                let count = look_ahead(&mut self.labels, after, self.draft.lines + 1)?;
                self.draft.make_room(count)
            }
            (Form::Two, Kind::EndCode) => {
                self.labels.clear();
                Ok(())
            }
            _ => Ok(()),
        }
    }
}
