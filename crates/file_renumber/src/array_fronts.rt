//! Where an array and its values begin.
ghost use Rattle.std.specs.Prelude.{◌≡◌, ℕ, ◌+◌, ◌/◌, ◌≤◌, ◌<◌, ◌^◌, List, length};
ghost use Rattle.dex_base.specs.Grammar.{Takes};
ghost use Rattle.dex_base.specs.Leb128.{Spells};
ghost use Rattle.dex_container.specs.Frame.{IsFramed};
ghost use Rattle.dex_value.specs.Faults.{IsLoneHead};
ghost use Rattle.dex_value.specs.Spelling.{SpellsArray};
ghost use Rattle.dex_value.specs.Standing.{ArrayStands};
ghost use Rattle.program_types.specs.Content.{Value};
ghost use Rattle.tables_rows.specs.Stands.{NameStands};

use dex_base::read_uleb;
use dex_container::{Sections, bytes_from, kind, section_of};

/// The head of an array.
pub(crate) const ARRAY: u8 = 0x1c;

/// The number at the front of the bytes, and what follows it.
pub(crate) fn take_number(bytes: &[u8]) -> (u32, &[u8])
    requires { (n : ℕ) × (rest : List ℕ) × Takes Spells bytes.now n rest }
    ensures taken { Takes Spells bytes.now result.0 result.1.now }
    ensures short { length result.1.now ≤ length bytes.now }
{
    match read_uleb(bytes) {
        Some((n, length)) => {
            let (_, rest) = bytes.split_at(length);
            (n, rest)
        }
        None => unreachable!(),
    }
}

/// How many bytes follow a head of a number or a name.
pub(crate) fn width_of(head: u8) -> usize
    requires { ¬ IsLoneHead head }
    ensures value { result ≡ head / 32 + 1 }
    ensures not_lone { ¬ IsLoneHead head }
{
    usize::from(head / 32) + 1
}

/// What the section has from the array at an offset on.
pub(crate) fn array_at<'b>(sections: &Sections<'b>, off: u32) -> &'b [u8]
    requires { (most : ℕ) × (vs : List Value) × ArrayStands (NameStands sections.now) sections.now off most vs }
    ensures spelled { (most : ℕ) (vs : List Value) → ArrayStands (NameStands sections.now) sections.now off most vs
        → (rest : List ℕ) × Takes (SpellsArray (NameStands sections.now)) result.now vs rest }
    ensures framed { IsFramed sections.now }
    ensures short { length result.now < 2 ^ 32 }
{
    let section = section_of(sections, kind::ENCODED_ARRAY_ITEM);
    match bytes_from(sections, kind::ENCODED_ARRAY_ITEM, section, off) {
        Some(bytes) => bytes,
        None => unreachable!(),
    }
}
