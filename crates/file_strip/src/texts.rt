//! Texts ("string_data_item"). A unit has one encoding, so only the count of units is encoded again.
ghost use Rattle.std.specs.Prelude.{◌≡◌, ℕ, ◌+◌, ◌<◌, ◌^◌, List, IfOk, OnOk, IsOkUnless, length};
ghost use Rattle.dex_base.specs.Fault.{memory};
ghost use Rattle.dex_base.specs.Grammar.{Appends, Takes, Ended, Many};
ghost use Rattle.dex_base.specs.Mutf8.{PacksText, SpellsText, SpellsUnit};
ghost use Rattle.dex_container.specs.Layout.{size_of};
ghost use Rattle.dex_container.specs.Section as section;
ghost use Rattle.dex_container.specs.Where.{IsSectionOf};
ghost use Rattle.file_layout.specs.Sections.{wide_all};
ghost use Rattle.file_layout.specs.inner.Sections.{never, Laid};
ghost use Rattle.file_layout.specs.inner.Tiles.{AreShared};
ghost use Rattle.file_limits.specs.inner.Wide.{text_values, wide_text};
ghost use Rattle.program_types.specs.Content.{Program, Units};
ghost use Rattle.tables_names.specs.Needed.{needed};
ghost use Rattle.tables_rows.specs.RowFields.{string_place};
ghost use Rattle.tables_rows.specs.Stands.{StringStands};
ghost use Rattle.file_strip.specs.inner.Keeping.{Keeps};
ghost use Rattle.file_strip.specs.inner.Texts.{AreFirstTexts};

use dex_base::{Fault, put_uleb, read_uleb, u32_at};
use dex_container::{Section, Sections, bytes_from, kind, section_of};
use dex_insn::IndexKind;
use file_put::Placed;
use file_renumber::Numbers;
use memchr::memchr;
use std::alloc::Global;

/// The string_data_off of row i.
#[tactic(auto, unfolding(tables_rows::specs::RowFields::string_place))]
fn string_place(sections: &Sections<'_>, i: u32) -> u32
    requires { i < size_of sections.now section.string_ids }
    ensures { result ≡ string_place sections.now i }
{
    let place = u64::from(sections.table(kind::STRING_ID_ITEM).1) + 4 * u64::from(i);
    u32_at(sections.bytes(), place as usize)
}

/// What the section of the texts has from that of row i on.
pub(crate) fn text_at<'b>(sections: &Sections<'b>, texts: Section, i: u32) -> &'b [u8]
    requires texts { IsSectionOf sections.now 0x2002 texts }
    requires text { (t : Units) × StringStands sections.now i t }
    ensures { (t : Units) → StringStands sections.now i t → (rest : List ℕ) × Takes SpellsText result.now t rest }
{
    match bytes_from(
        sections,
        kind::STRING_DATA_ITEM,
        texts,
        string_place(sections, i),
    ) {
        Some(bytes) => bytes,
        None => unreachable!(),
    }
}

/// The units at the front of the bytes, and the zero that ends them: no unit has a zero byte.
pub(crate) fn units_of(bytes: &[u8]) -> &[u8]
    requires { (t : Units) × (rest : List ℕ) × Takes (Ended (Many SpellsUnit (length t))) bytes.now t rest }
    ensures { (t : Units) (rest : List ℕ) → Takes (Ended (Many SpellsUnit (length t))) bytes.now t rest → Ended (Many SpellsUnit (length t)) result.now t }
{
    match memchr(0, bytes) {
        Some(end) => &bytes[..end + 1],
        None => unreachable!(),
    }
}

/// Appends the text at the front of the bytes, with the shortest count.
fn put_text(out: &mut Vec<u8>, bytes: &[u8]) -> Result<(), Fault>
    requires { (t : Units) × (rest : List ℕ) × Takes SpellsText bytes.now t rest }
    ensures ok { OnOk result ((t : Units) (rest : List ℕ) → Takes SpellsText bytes.now t rest → Appends PacksText out.old.items out.new.items t) }
    ensures memory { IsOkUnless result memory }
{
    let Some((count, length)) = read_uleb(bytes) else {
        unreachable!()
    };
    let (_, units) = bytes.split_at(length);
    put_uleb(out, count)?;
    out.extend_from_slice(units_of(units))?;
    Ok(())
}

/// Appends the text of row i, if the row is kept, and the byte at which it begins to the places.
fn add_text(
    out: &mut Vec<u8>,
    places: &mut Vec<u32>,
    numbers: &Numbers,
    sections: &Sections<'_>,
    texts: Section,
    i: u32,
) -> Result<(), Fault>
    requires texts { IsSectionOf sections.now 0x2002 texts }
    requires kept { (p : Program) × Keeps sections.now numbers.now p }
    requires row { i < size_of sections.now section.string_ids }
    requires room { length out.old.items < 2 ^ 32 }
    ensures ok { OnOk result ((p : Program) (old : List ℕ) → Keeps sections.now numbers.now p → 0 < length old → AreFirstTexts numbers.now p old out.old.items i places.old.items
        → AreFirstTexts numbers.now p old out.new.items (i + 1) places.new.items) }
    ensures memory { IsOkUnless result memory }
{
    if !numbers.keeps(IndexKind::String, i) {
        return Ok(());
    }
    places.push(out.len() as u32)?;
    put_text(out, text_at(sections, texts, i))
}

/// Appends the texts of all kept strings, one after the other, and returns their offsets.
///
/// It fails only when out of memory.
///
/// ```
/// let texts = put_strings(alloc, &mut out, &numbers, &sections)?;
/// ```
pub(crate) fn put_strings(
    alloc: Global,
    out: &mut Vec<u8>,
    numbers: &Numbers,
    sections: &Sections<'_>,
) -> Result<Placed, Fault>
    requires front { 0 < length out.old.items }
    requires kept { (p : Program) × Keeps sections.now numbers.now p × (length out.old.items + wide_all wide_text (text_values (needed p)) < 2 ^ 32) }
    ensures ok { IfOk result (λ r. (p : Program) → Keeps sections.now numbers.now p
        → Laid never PacksText 1 wide_text out.old.items out.new.items (text_values (needed p)) r.places.items r.items) }
    ensures once { IfOk result (λ r. (p : Program) → Keeps sections.now numbers.now p → AreShared r.places.items (text_values (needed p))) }
    ensures memory { IsOkUnless result memory }
{
    let items = numbers.count(IndexKind::String);
    let mut places = Vec::with_capacity(alloc, items as usize)?;
    let texts = section_of(sections, kind::STRING_DATA_ITEM);
    for i in 0..sections.table(kind::STRING_ID_ITEM).0 {
        add_text(out, &mut places, numbers, sections, texts, i)?;
    }
    Ok(Placed { places, items })
}
