//! The second pass over class_defs: static values, and their faults.
ghost use Rattle.std.specs.Prelude.{◌≡◌, ◌≢◌, ◌<◌, List, IfOk, IfErr, OnOk};
ghost use Rattle.dex_base.specs.Fault.{memory};
ghost use Rattle.dex_container.specs.Layout.{size_of};
ghost use Rattle.dex_container.specs.Section as section;
ghost use Rattle.program_types.specs.Content as content;
ghost use Rattle.tables_rows.specs.Names.{AreNamesOf, AreRows, NameIsAt};
ghost use Rattle.tables_rows.specs.Sorted.{RowsHold};
ghost use Rattle.file_classes.specs.ClassFaults.{at_row, ValuesStand, ValuesBreak, ValuesHold};
ghost use Rattle.file_classes.specs.inner.ClassFaults.{IsFirstClass};
ghost use Rattle.dex_value.specs.Faults.{ArrayBreaksAt};
ghost use Rattle.dex_value.specs.Standing.{ArrayStands};
ghost use Rattle.tables_rows.specs.inner.Cached.{AreCached};
ghost use Rattle.file_classes.specs.inner.Cached.{StandsOnce};
ghost use Rattle.file_classes.specs.inner.Reading.{IsHead, AreStatics};

use crate::class_row::{class_count, class_place, class_word};
use crate::heads::Head;
use crate::keeping::{InArena, Keep, Nothing, Walk};
use crate::word;
use bumpalo::Bump;
use bumpalo::collections::into_bump_slice;
use dex_base::{Fault, fault};
use dex_container::Sections;
use program_types::Value;
use std::alloc::Global;
use std::collections::HashMap;
use tables_rows::Tables;

/// The static values of a class.
#[derive(Clone, Copy)]
pub struct Statics<'a> {
    pub values: &'a [Value<'a>],
}

/// A fault of a row's array is at the row, one of a value at the value.
fn at_row(place: u64, found: Fault) -> Fault
    ensures { result ≡ at_row place found }
{
    if found.code == fault::VALUES || found.code == fault::TOO_MANY_VALUES {
        Fault::at(found.code, place)
    } else {
        found
    }
}

impl<'a, K: Keep<'a>> Walk<'_, '_, '_, 'a, K> {
    /// The values at an offset, at most so many: those that are cached for it, or those that are read now, and cached.
    fn values_at(
        &self,
        cached: &mut HashMap<u32, K::Values>,
        off: u32,
        most: usize,
    ) -> Result<K::Values, Fault>
        requires cached { AreCached (StandsOnce K.values (NameIsAt self.now.tables.now) self.now.sections.now) cached.old }
        ensures ok { IfOk result (λ x. (vs : List content.Value) × ArrayStands (NameIsAt self.now.tables.now) self.now.sections.now off most vs × K.values x vs) }
        ensures cached { OnOk result (AreCached (StandsOnce K.values (NameIsAt self.now.tables.now) self.now.sections.now) cached.new) }
        ensures broken { IfErr result (λ e. e ≢ memory → ArrayBreaksAt (NameIsAt self.now.tables.now) self.now.sections.now off most e) }
    {
        if let Some(found) = cached.get(&off) {
            let values = *found;
            if K::count(values) > most {
                return Err(Fault::at(fault::TOO_MANY_VALUES, u64::from(off)));
            }
            return Ok(values);
        }
        let values = K::read_values(self, off, most)?;
        cached.insert(off, values)?;
        Ok(values)
    }

    /// The static values of row i.
    fn row_values(
        &self,
        cached: &mut HashMap<u32, K::Values>,
        i: u32,
        head: Head<'a, '_>,
    ) -> Result<K::Values, Fault>
        requires names { AreNamesOf self.now.sections.now self.now.tables.now }
        requires row { i < size_of self.now.sections.now section.class_defs }
        requires cached { AreCached (StandsOnce K.values (NameIsAt self.now.tables.now) self.now.sections.now) cached.old }
        requires head { IsHead self.now.sections.now i head }
        ensures ok { IfOk result (λ x. (vs : List content.Value) × ValuesStand self.now.sections.now i vs × K.values x vs) }
        ensures cached { OnOk result (AreCached (StandsOnce K.values (NameIsAt self.now.tables.now) self.now.sections.now) cached.new) }
        ensures err { IfErr result (λ e. e ≢ memory → ValuesBreak self.now.sections.now i e) }
    {
        let off = class_word(self.sections, i, word::STATIC_VALUES_OFF);
        if off == 0 {
            return Ok(K::no_values());
        }
        match self.values_at(cached, off, head.statics.len()) {
            Ok(values) => Ok(values),
            Err(fault) => Err(at_row(class_place(self.sections, i), fault)),
        }
    }
}

/// The head of row i.
pub(crate) fn head_at<'a, 's>(
    sections: &Sections<'_>,
    heads: &[Head<'a, 's>],
    i: u32,
) -> Head<'a, 's>
    requires heads { AreRows IsHead sections.now section.class_defs heads.now }
    requires row { i < size_of sections.now section.class_defs }
    ensures { IsHead sections.now i result }
{
    heads[i as usize]
}

/// The static values of all rows.
pub fn read_statics<'a, 's>(
    alloc: Global,
    arena: &'a Bump,
    scratch: &'s Bump,
    sections: &Sections<'_>,
    tables: &Tables<'a>,
    heads: &[Head<'a, 's>],
) -> Result<&'s [Statics<'a>], Fault>
    requires names { AreNamesOf sections.now tables.now }
    requires heads { AreRows IsHead sections.now section.class_defs heads.now }
    ensures rows { IfOk result (λ all. AreRows AreStatics sections.now section.class_defs all.now) }
    ensures hold { IfOk result (λ _. RowsHold ValuesHold sections.now (size_of sections.now section.class_defs)) }
    ensures err { IfErr result (λ e. e ≢ memory → IsFirstClass ValuesBreak ValuesHold sections.now e) }
{
    let count = class_count(sections);
    let keep = InArena { alloc, arena };
    let walk = Walk {
        keep,
        sections,
        tables,
    };
    let mut cached = HashMap::new(alloc);
    let mut all: Vec<Statics<'a>, &'s Bump> = Vec::with_capacity(scratch, count as usize)?;
    for i in 0..count {
        let values = walk.row_values(&mut cached, i, head_at(sections, heads, i))?;
        all.push(Statics { values })?;
    }
    Ok(into_bump_slice(all))
}

/// Checks the static values of all rows, each array once.
pub fn check_statics(
    alloc: Global,
    sections: &Sections<'_>,
    tables: &Tables<'_>,
    heads: &[Head<'_, '_>],
) -> Result<(), Fault>
    requires names { AreNamesOf sections.now tables.now }
    requires heads { AreRows IsHead sections.now section.class_defs heads.now }
    ensures hold { OnOk result (RowsHold ValuesHold sections.now (size_of sections.now section.class_defs)) }
    ensures err { IfErr result (λ e. e ≢ memory → IsFirstClass ValuesBreak ValuesHold sections.now e) }
{
    let keep = Nothing { alloc };
    let walk = Walk {
        keep,
        sections,
        tables,
    };
    let mut cached = HashMap::new(alloc);
    for i in 0..class_count(sections) {
        let head = head_at(sections, heads, i);
        walk.row_values(&mut cached, i, head)?;
    }
    Ok(())
}
