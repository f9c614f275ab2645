//! Arrays of values: what they name, and how many bytes they take at most.
ghost use Rattle.std.specs.Prelude.{◌≡◌, ℕ, ◌<◌, ◌^◌, ◌%◌, List, length, OnOk, IfOk, IsOkUnless};
ghost use Rattle.std.specs.List.{flat_map};
ghost use Rattle.dex_base.specs.Fault.{memory};
ghost use Rattle.dex_base.specs.Grammar.{Takes, Many};
ghost use Rattle.dex_value.specs.Spelling.{SpellsValue};
ghost use Rattle.dex_value.specs.Standing.{ArrayStands};
ghost use Rattle.dex_value.specs.Wide.{wide_values};
ghost use Rattle.program_types.specs.Content.{Value, values};
ghost use Rattle.program_types.specs.Mentions.{names_of_value};
ghost use Rattle.tables_rows.specs.Stands.{NameStands};
ghost use Rattle.file_renumber.specs.inner.Marked.{HasMarks, AddsNames};
ghost use Rattle.file_renumber.specs.inner.ValueWalks.{MarksValue, MarksValues, IsLow};

use crate::array_fronts::{ARRAY, array_at, take_number, width_of};
use crate::marks::Marks;
use dex_base::Fault;
use dex_container::Sections;
use dex_value::{SizedType, name_kind, sized_type, unsigned};

/// Marks the name that these bytes after a head denote, if they denote one.
fn mark_low(marks: &mut Marks, sections: &Sections<'_>, head: u8, low: &[u8]) -> Result<(), Fault>
    requires marks { HasMarks sections.now marks.old }
    requires low { (v : Value) × IsLow sections.now (head % 32) low.now v }
    ensures marked { OnOk result ((v : Value) → IsLow sections.now (head % 32) low.now v → AddsNames sections.now marks.old marks.new (names_of_value v)) }
    ensures memory { IsOkUnless result memory }
{
    let Some(ty) = sized_type(head % 32) else {
        unreachable!()
    };
    match ty {
        SizedType::Number(_) => Ok(()),
        SizedType::Name(ty) => {
            let index = unsigned(low) as u32;
            marks.mark(sections, name_kind(ty), index)
        }
    }
}

/// Marks what the value at the front of the bytes names; how many bytes it takes at most, and what follows it.
#[cycle(marked)]
fn mark_value<'b>(
    marks: &mut Marks,
    sections: &Sections<'_>,
    bytes: &'b [u8],
) -> Result<(u64, &'b [u8]), Fault>
    requires marks { HasMarks sections.now marks.old }
    requires few { length bytes.now < 2 ^ 32 }
    requires value { (v : Value) × (rest : List ℕ) × Takes (SpellsValue (NameStands sections.now)) bytes.now v rest }
    ensures marked { IfOk result (λ x. (v : Value) (rest : List ℕ) → Takes (SpellsValue (NameStands sections.now)) bytes.now v rest
        → MarksValue sections.now marks.old marks.new v rest x.0 x.1.now) }
    ensures memory { IsOkUnless result memory }
{
    let Some((head, rest)) = bytes.split_first() else {
        unreachable!()
    };
    match *head {
        ARRAY => {
            let (count, left) = take_number(rest);
            let (wide, after) = mark_values(marks, sections, count, left)?;
            let whole = 6 + wide;
            Ok((whole, after))
        }
        0x1e => Ok((9, rest)),
        0x1f => Ok((9, rest)),
        0x3f => Ok((9, rest)),
        head => {
            let (low, after) = rest.split_at(width_of(head));
            mark_low(marks, sections, head, low)?;
            Ok((9, after))
        }
    }
}

/// Marks what so many values at the front of the bytes name; how many bytes they take at most, and what follows them.
#[cycle(marked)]
fn mark_values<'b>(
    marks: &mut Marks,
    sections: &Sections<'_>,
    count: u32,
    bytes: &'b [u8],
) -> Result<(u64, &'b [u8]), Fault>
    requires marks { HasMarks sections.now marks.old }
    requires few { length bytes.now < 2 ^ 32 }
    requires values { (vs : List Value) × (rest : List ℕ) × Takes (Many (SpellsValue (NameStands sections.now)) count) bytes.now vs rest }
    ensures marked { IfOk result (λ x. (vs : List Value) (rest : List ℕ) → Takes (Many (SpellsValue (NameStands sections.now)) count) bytes.now vs rest
        → MarksValues sections.now marks.old marks.new vs rest x.0 x.1.now) }
    ensures memory { IsOkUnless result memory }
{
    let mut left = bytes;
    let mut sum: u64 = 0;
    for _turn in 0..count {
        let (wide, after) = mark_value(marks, sections, left)?;
        sum += wide;
        left = after;
    }
    Ok((sum, left))
}

/// Marks the rows that the values of the array at an offset name, and those of their parts, and returns how many bytes the
/// values need at most, in a file of any rows: nine each, and six for an array besides its values.
///
/// An array has to be at the offset. It fails only when out of memory, and then some of the rows may be marked.
///
/// ```
/// let mut marks = Marks::new(alloc, seed, &sections)?;
/// let most = mark_array(&mut marks, &sections, 0x1c0)?; // 9 for an array of one int
/// ```
pub fn mark_array(marks: &mut Marks, sections: &Sections<'_>, off: u32) -> Result<u64, Fault>
    requires marks { HasMarks sections.now marks.old }
    requires stands { (most : ℕ) × (vs : List Value) × ArrayStands (NameStands sections.now) sections.now off most vs }
    ensures marked { OnOk result ((most : ℕ) (vs : List Value) → ArrayStands (NameStands sections.now) sections.now off most vs
        → AddsNames sections.now marks.old marks.new (flat_map names_of_value vs)) }
    ensures wide { IfOk result (λ n. (most : ℕ) (vs : List Value) → ArrayStands (NameStands sections.now) sections.now off most vs → n ≡ wide_values (values vs)) }
    ensures memory { IsOkUnless result memory }
{
    let (count, bytes) = take_number(array_at(sections, off));
    let (wide, _) = mark_values(marks, sections, count, bytes)?;
    Ok(wide)
}
