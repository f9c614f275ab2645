//! The first pass over class_defs: all of each class but its static values and its code, and the faults of class rows.
ghost use Rattle.std.specs.Prelude.{◌≡◌, ◌≢◌, ◌<◌, [], IfOk, IfErr, OnOk, map};
ghost use Rattle.dex_container.specs.Layout.{size_of};
ghost use Rattle.dex_container.specs.Section as section;
ghost use Rattle.dex_base.specs.Fault.{memory};
ghost use Rattle.program_types.specs.View.{desc};
ghost use Rattle.tables_rows.specs.Names.{AreNamesOf, AreRows};
ghost use Rattle.tables_rows.specs.inner.Reading.{AreFirst};
ghost use Rattle.tables_rows.specs.TableFaults.{BreaksAt};
ghost use Rattle.tables_rows.specs.inner.TableFaults.{IsFirstRow};
ghost use Rattle.file_classes.specs.ClassFaults.{ClassRowBreaks, ClassRowHolds};
ghost use Rattle.file_classes.specs.inner.ClassFaults.{ClassRowsHold};
ghost use Rattle.file_classes.specs.Classes.{InterfacesAt};
ghost use Rattle.tables_rows.specs.inner.Cached.{AreCached};
ghost use Rattle.file_classes.specs.inner.Places.{ArePlaces};
ghost use Rattle.file_classes.specs.inner.Reading.{IsHead};

use crate::class_data::entries_at;
use crate::class_row::{class_count, class_place, class_word, read_row};
use crate::interfaces::interfaces_at;
use crate::members::{Bare, read_members};
use crate::order::is_in_order;
use crate::places::{Places, read_places};
use crate::word;
use bumpalo::Bump;
use bumpalo::collections::into_bump_slice;
use dex_base::{Fault, fault};
use dex_container::Sections;
use program_types::{Desc, Member, Str};
use std::alloc::Global;
use std::collections::HashMap;
use tables_rows::Tables;

/// A class before its static values and its code are read.
#[derive(Clone, Copy)]
pub struct Head<'a, 's> {
    pub ty: Desc<'a>,
    pub flags: u32,
    pub superclass: Option<Desc<'a>>,
    pub interfaces: &'a [Desc<'a>],
    pub source: Option<Str<'a>>,
    pub statics: &'a [Member<'a>],
    pub instances: &'a [Member<'a>],
    pub directs: &'s [Bare<'a>],
    pub virtuals: &'s [Bare<'a>],
}

/// What heads are read with: what a program keeps goes into the arena, the rest into the scratch arena.
#[derive(Clone, Copy)]
struct HeadReader<'a, 's, 'c> {
    alloc: Global,
    arena: &'a Bump,
    scratch: &'s Bump,
    sections: &'c Sections<'c>,
    tables: &'c Tables<'a>,
    places: &'c Places,
}

impl<'a, 's> HeadReader<'a, 's, '_> {
    /// The head of row i.
    fn read_head(
        &self,
        cached: &mut HashMap<u32, &'a [Desc<'a>]>,
        i: u32,
    ) -> Result<Head<'a, 's>, Fault>
        requires names { AreNamesOf self.now.sections.now self.now.tables.now }
        requires places { ArePlaces self.now.sections.now (size_of self.now.sections.now section.class_defs) self.now.places.now.first.items self.now.places.now.last.items }
        requires cached { AreCached (λ off list. InterfacesAt self.now.sections.now off (map desc list.now)) cached.old }
        requires row { i < size_of self.now.sections.now section.class_defs }
        ensures ok { IfOk result (λ h. IsHead self.now.sections.now i h) }
        ensures holds { IfOk result (λ _. ClassRowHolds self.now.sections.now i) }
        ensures cached { OnOk result (AreCached (λ off list. InterfacesAt self.now.sections.now off (map desc list.now)) cached.new) }
        ensures err { IfErr result (λ e. e ≢ memory → BreaksAt ClassRowBreaks self.now.sections.now section.class_defs i e) }
    {
        let (arena, sections, tables) = (self.arena, self.sections, self.tables);
        sections.framed();
        let place = class_place(sections, i);
        let row = read_row(sections, tables, i)?;
        let list = class_word(sections, i, word::INTERFACES_OFF);
        let Some(interfaces) = interfaces_at(self.alloc, arena, sections, tables, cached, list)?
        else {
            return Err(Fault::at(fault::INTERFACE_LIST, place));
        };
        if !is_in_order(sections, self.places, i) {
            return Err(Fault::at(fault::CLASS_ORDER, place));
        }
        let data = class_word(sections, i, word::CLASS_DATA_OFF);
        let Some(entries) = entries_at(self.alloc, sections, data)? else {
            return Err(Fault::at(fault::CLASS_DATA, place));
        };
        let members = read_members(arena, self.scratch, sections, tables, i, row.ty, &entries)?;
        Ok(Head {
            ty: row.ty,
            flags: row.flags,
            superclass: row.superclass,
            interfaces,
            source: row.source,
            statics: members.statics,
            instances: members.instances,
            directs: members.directs,
            virtuals: members.virtuals,
        })
    }

    /// The heads of all rows, one after the other.
    fn push_heads(
        &self,
        cached: &mut HashMap<u32, &'a [Desc<'a>]>,
        heads: &mut Vec<Head<'a, 's>, &'s Bump>,
    ) -> Result<(), Fault>
        requires names { AreNamesOf self.now.sections.now self.now.tables.now }
        requires places { ArePlaces self.now.sections.now (size_of self.now.sections.now section.class_defs) self.now.places.now.first.items self.now.places.now.last.items }
        requires cached { AreCached (λ off list. InterfacesAt self.now.sections.now off (map desc list.now)) cached.old }
        requires none { heads.old.items ≡ [] }
        ensures rows { OnOk result (AreFirst IsHead ClassRowHolds self.now.sections.now (size_of self.now.sections.now section.class_defs) heads.new.items) }
        ensures err { IfErr result (λ e. e ≢ memory → IsFirstRow ClassRowBreaks ClassRowHolds self.now.sections.now section.class_defs e) }
    {
        for i in 0..class_count(self.sections) {
            let head = self.read_head(cached, i)?;
            heads.push(head)?;
        }
        Ok(())
    }
}

/// The heads of all rows.
pub fn read_heads<'a, 's>(
    alloc: Global,
    arena: &'a Bump,
    scratch: &'s Bump,
    sections: &Sections<'_>,
    tables: &Tables<'a>,
) -> Result<&'s [Head<'a, 's>], Fault>
    requires names { AreNamesOf sections.now tables.now }
    ensures rows { IfOk result (λ heads. AreRows IsHead sections.now section.class_defs heads.now) }
    ensures hold { IfOk result (λ _. ClassRowsHold sections.now) }
    ensures err { IfErr result (λ e. e ≢ memory → IsFirstRow ClassRowBreaks ClassRowHolds sections.now section.class_defs e) }
{
    let places = read_places(alloc, sections)?;
    let reader = HeadReader {
        alloc,
        arena,
        scratch,
        sections,
        tables,
        places: &places,
    };
    let mut heads: Vec<Head<'a, 's>, &'s Bump> = Vec::with_capacity(
        scratch,
        class_count(sections) as usize,
    )?;
    let mut cached = HashMap::new(alloc);
    reader.push_heads(&mut cached, &mut heads)?;
    Ok(into_bump_slice(heads))
}
