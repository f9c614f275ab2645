//! The parts of a code item, and the numbers in its list of handlers.
ghost use Rattle.std.specs.Prelude.{◌≡◌, ◌*◌, ◌<◌, ◌^◌, ℕ, ℤ, List, length};
ghost use Rattle.dex_base.specs.Grammar.{Takes};
ghost use Rattle.dex_base.specs.Leb128.{Spells, SpellsSigned};
ghost use Rattle.dex_container.specs.Frame.{IsFramed};
ghost use Rattle.dex_container.specs.Where.{IsSectionOf};
ghost use Rattle.program_types.specs.Content.{Code, Catch};
ghost use Rattle.tables_rows.specs.Stands.{NameStands};
ghost use Rattle.code_read.specs.Code.{CodeStands};
ghost use Rattle.code_read.specs.inner.Handlers.{SpellsCatch};
ghost use Rattle.file_renumber.specs.inner.Fronts.{SpellsItem, IsCatch};

use code_read::{Item, item_of, read_number, read_signed};
use dex_container::{Section, Sections, bytes_from, kind};

/// The fixed parts of the code item at an offset.
pub(crate) fn item_at<'b>(sections: &Sections<'b>, codes: Section, off: u32) -> Item<'b>
    requires codes { IsSectionOf sections.now 0x2001 codes }
    requires stands { (c : Code) × CodeStands (NameStands sections.now) sections.now off c }
    ensures spelled { (c : Code) → CodeStands (NameStands sections.now) sections.now off c → SpellsItem (NameStands sections.now) result c }
    ensures framed { IsFramed sections.now }
    ensures units { length result.units.now ≡ 2 * result.size }
    ensures items { length result.items.now ≡ 8 * result.tries }
    ensures short { length result.list.now < 2 ^ 32 }
{
    sections.framed();
    let Some(bytes) = bytes_from(sections, kind::CODE_ITEM, codes, off) else {
        unreachable!()
    };
    match item_of(bytes) {
        Some(item) => item,
        None => unreachable!(),
    }
}

/// The number at the front of the bytes, and what follows it.
pub(crate) fn take_number(bytes: &[u8]) -> (u32, &[u8])
    requires { (n : ℕ) × (rest : List ℕ) × Takes Spells bytes.now n rest }
    ensures { Takes Spells bytes.now result.0 result.1.now }
{
    match read_number(bytes) {
        Some(found) => found,
        None => unreachable!(),
    }
}

/// The signed number at the front of the bytes, and what follows it.
pub(crate) fn take_signed(bytes: &[u8]) -> (i32, &[u8])
    requires { (z : ℤ) × (rest : List ℕ) × Takes SpellsSigned bytes.now z rest }
    ensures { Takes SpellsSigned bytes.now result.0 result.1.now }
{
    match read_signed(bytes) {
        Some(found) => found,
        None => unreachable!(),
    }
}

/// The type's index and the address of the catch at the front of the bytes, and what follows it.
pub(crate) fn take_catch(bytes: &[u8]) -> (u32, u32, &[u8])
    requires { (b : List ℕ) × (ss : List ℕ) × (c : Catch) × (rest : List ℕ) × Takes (SpellsCatch (NameStands b) ss) bytes.now c rest }
    ensures { (b ss : List ℕ) (c : Catch) (rest : List ℕ) → Takes (SpellsCatch (NameStands b) ss) bytes.now c rest
        → IsCatch (NameStands b) ss result.0 result.1 result.2.now c rest }
{
    let (ty, mid) = take_number(bytes);
    let (address, rest) = take_number(mid);
    (ty, address, rest)
}
