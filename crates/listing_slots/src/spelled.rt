//! A cache of names by their words: a listing has most of its names many times.

ghost use Rattle.std.specs.Prelude.{◌≡◌, ◌↔◌, ◌∷◌, [], true, IfOk, IfSome, IfNone, IsTrue, IsOkUnless};
ghost use Rattle.dex_base.specs.Fault.{memory};
ghost use Rattle.listing_words.specs.Words.{plain_word};
ghost use Rattle.listing_slots.specs.Slots.{SpellsSlot, is_name_slot};
ghost use Rattle.listing_slots.specs.Data.{Datum as SpecDatum};
ghost use Rattle.listing_slots.specs.inner.ValidNames.{IsValidDatum, StayValid};
ghost use Rattle.listing_slots.specs.inner.View.{datum};

use crate::datum::Datum;
use crate::key::is_same;
use crate::name_parts::NameParts;
use crate::read::read_encoded;
use crate::slot::Slot;
use bumpalo::Bump;
use dex_base::{Fault, Seed};
use program_rules::is_valid_name;
use program_types::Name;
use std::alloc::Global;
use std::hash::{FoldHasher, Hasher};
use std::marker::Model;

/// A word that spelled a name in a slot.
#[derive(Clone, Copy)]
struct Spelling<'a, 'b> {
    slot: Slot,
    text: &'b [u8],
    name: Datum<'a>,
}

/// Words that spelled names, with their names: a word that is in its bucket is not read again, nor its name stored again.
///
/// Each word has one bucket, by its bytes, and takes it from the word that was there. So a word is compared with one other,
/// whatever the listing, and the buckets take the memory that they took at first. Whether a file can have a name is asked
/// where it is read, so not for each word. A word is read aside, in room that is used again, and its name is made of parts that
/// the arena has. It stands for the number of buckets, and whether a file can have all of the names.
#[derive(Drop)]
pub struct Spelled<'a, 'b> {
    buckets: Vec<Option<Spelling<'a, 'b>>>,
    valid: bool,
    parts: NameParts<'a>,
    aside: Bump,
}

impl<'a, 'b> Model for Spelled<'a, 'b> {
    ghost use Rattle.std.specs.Prelude.{length};
    ghost use Rattle.listing_slots.specs.inner.ValidNames.{Spellings};

    ghost Value = { Spellings };

    ghost use Rattle.listing_slots.specs.inner.Spelled.{AreSpelled};

    ghost view = { λ s. record { buckets = length s.buckets.items; valid = s.valid } };

    ghost invariant = { λ s. AreSpelled s.valid s.buckets.items };
}

/// Whether both are the same slot, one of names.
fn is_same_slot(a: Slot, b: Slot) -> bool
    ensures { IsTrue result → a ≡ b }
{
    matches!(
        (a, b),
        (Slot::Member, Slot::Member)
            | (Slot::Desc, Slot::Desc)
            | (Slot::Field, Slot::Field)
            | (Slot::Method, Slot::Method)
            | (Slot::Enum, Slot::Enum)
            | (Slot::Proto, Slot::Proto)
    )
}

/// The bucket of a word among so many; of none it means nothing.
fn bucket_of(text: &[u8], buckets: usize) -> usize {
    if buckets == 0 {
        return 0;
    }
    let mut hasher = FoldHasher::default();
    hasher.write(text);
    (hasher.finish() >> 32) as usize % buckets
}

/// Whether a file can have what a word names.
fn is_valid_datum(word_value: Datum<'_>) -> bool
    ensures { IsTrue result ↔ IsValidDatum (datum word_value.entry) }
{
    match word_value {
        Datum::Name(name) => is_valid_name(name),
        Datum::Enum(field) => is_valid_name(Name::Field(field)),
        _ => true,
    }
}

impl<'a, 'b> Spelled<'a, 'b> {
    /// No word, and so many buckets.
    pub fn new(alloc: Global, seed: Seed, buckets: usize) -> Result<Self, Fault>
        ensures none { IfOk result (λ s. s ≡ record { buckets = buckets; valid = true }) }
        ensures memory { IsOkUnless result memory }
    {
        let mut all: Vec<Option<Spelling<'a, 'b>>> = Vec::new(alloc);
        all.resize(buckets, None)?;
        Ok(Spelled {
            buckets: all,
            valid: true,
            parts: NameParts::new(alloc, seed),
            aside: Bump::new(alloc),
        })
    }

    /// Whether a file can have all names that were read.
    pub fn is_valid(&self) -> bool
        ensures { result ≡ self.now.valid }
    {
        self.valid
    }

    /// The value of a word in a slot, if the two are those in this bucket.
    fn find(&self, at: usize, slot: Slot, text: &[u8]) -> Option<Datum<'a>>
        ensures word_value { IfSome result (λ d. SpellsSlot slot (plain_word text.now) (datum d)) }
        ensures valid { IfSome result (λ d. IsTrue self.now.valid → IsValidDatum (datum d)) }
    {
        if at >= self.buckets.len() {
            return None;
        }
        let one = self.buckets[at]?;
        if is_same_slot(one.slot, slot) && is_same(one.text, text) {
            return Some(one.name);
        }
        None
    }

    /// Puts a word into a bucket with its value in the slot.
    fn keep(&mut self, at: usize, slot: Slot, text: &'b [u8], name: Datum<'a>)
        requires word_value { SpellsSlot slot (plain_word text.now) (datum name) }
        requires valid { IsTrue self.old.valid → IsValidDatum (datum name) }
        ensures { self.new ≡ self.old }
    {
        if at < self.buckets.len() {
            self.buckets[at] = Some(Spelling { slot, text, name });
        }
    }

    /// Notes whether a file can have what a word names.
    fn note(&mut self, name: Datum<'a>)
        ensures { StayValid self.old self.new (datum name.entry ∷ []) }
    {
        if !is_valid_datum(name) {
            self.valid = false;
        }
    }

    /// The value of a word without quotes in a name's slot, read again.
    fn read_anew(
        &mut self,
        arena: &'a Bump,
        slot: Slot,
        text: &[u8],
    ) -> Result<Option<Datum<'a>>, Fault>
        requires { is_name_slot slot ≡ true }
        ensures found { IfOk result (λ r. IfSome r (λ d. SpellsSlot slot (plain_word text.now) (datum d))) }
        ensures none { IfOk result (λ r. IfNone r ((d : SpecDatum) → SpellsSlot slot (plain_word text.now) d → ⊥)) }
        ensures same { self.new ≡ self.old }
        ensures memory { IsOkUnless result memory }
    {
        let word_value = read_encoded(&mut self.parts, arena, &self.aside, slot, text);
        // (it fails only while a block of the room is lent, and none is)
        let _ = self.aside.reset();
        word_value
    }

    /// The value of a word without quotes in a name's slot.
    pub(crate) fn read(
        &mut self,
        arena: &'a Bump,
        slot: Slot,
        text: &'b [u8],
    ) -> Result<Option<Datum<'a>>, Fault>
        requires { is_name_slot slot ≡ true }
        ensures found { IfOk result (λ r. IfSome r (λ d. SpellsSlot slot (plain_word text.now) (datum d))) }
        ensures none { IfOk result (λ r. IfNone r ((d : SpecDatum) → SpellsSlot slot (plain_word text.now) d → ⊥)) }
        ensures valid { IfOk result (λ r. IfSome r (λ d. StayValid self.old self.new (datum d ∷ []))) }
        ensures same { IfOk result (λ r. IfNone r (self.new ≡ self.old)) }
        ensures memory { IsOkUnless result memory }
    {
        let at = bucket_of(text, self.buckets.len());
        if let Some(name) = self.find(at, slot, text) {
            return Ok(Some(name));
        }
        let Some(name) = self.read_anew(arena, slot, text)? else {
            return Ok(None);
        };
        self.note(name);
        self.keep(at, slot, text, name);
        Ok(Some(name))
    }
}
