//! Values in the order of their bytes, with none of them kept.
ghost use Rattle.std.specs.Prelude.{◌≡◌, List, length, IfOk, IfErr};
ghost use Rattle.program_types.specs.Content as content;
ghost use Rattle.tables_rows.specs.Names.{NameIsAt};
ghost use Rattle.dex_value.specs.Standing.{ArrayStands};
ghost use Rattle.dex_value.specs.Faults.{ArrayBreaksAt};

use crate::keeping::Nothing;
use crate::reading::read_at;
use dex_base::Fault;
use dex_container::Sections;
use tables_rows::Tables;

/// Returns the number of values of the encoded_array at this byte offset of the file. It refuses what `read_array` refuses, with a fault
/// of that array, and needs no memory, since no value is kept.
///
/// ```
/// use bumpalo::Bump;
/// use dex_container::{kind, open};
/// use dex_file::write;
/// use dex_listing::parse;
/// use dex_tables::Tables;
/// use dex_value::check_array;
///
/// let arena = Bump::new(alloc);
/// let file = write(alloc, &parse(alloc, &arena, b"dex 035 listing 2\nclass LA; 0x1\nstatic n I 0x9 = int 7\ndirect m ()V 0x9\nend class\n")?)?;
/// let sections = open(&file)?;
/// let tables = Tables::read(alloc, &arena, &sections)?;
/// let (off, _) = sections.section(kind::ENCODED_ARRAY_ITEM).unwrap();
/// assert_eq!(rt; check_array(&tables, &sections, off, 1)?, 1);
/// ```
pub fn check_array(
    tables: &Tables<'_>,
    sections: &Sections<'_>,
    off: u32,
    most: usize,
) -> Result<u32, Fault>
    ensures ok { IfOk result (λ n. (vs : List content.Value) × ArrayStands (NameIsAt tables.now) sections.now off most vs × (length vs ≡ n)) }
    ensures only { IfOk result (λ n. (vs : List content.Value) →
        ArrayStands (NameIsAt tables.now) sections.now off most vs → length vs ≡ n) }
    ensures broken { IfErr result (ArrayBreaksAt (NameIsAt tables.now) sections.now off most) }
    ensures refused { IfErr result (λ _. (vs : List content.Value) → ¬ ArrayStands (NameIsAt tables.now) sections.now off most vs) }
{
    let (count, _) = read_at(Nothing { tables }, sections, off, most)?;
    Ok(count)
}
