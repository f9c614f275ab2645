//! The third pass over class_defs: the code of methods, which completes the classes. The first fault of registers is kept, and returned
//! if there is no other.
ghost use Rattle.std.specs.Prelude.{◌≢◌, ◌<◌, ◌≡◌, ◌⊎◌, ℕ, List, IfOk, IfErr, IfSome, IfNone, OnOk, length, map};
ghost use Rattle.dex_base.specs.Fault.{memory};
ghost use Rattle.dex_container.specs.Layout.{size_of};
ghost use Rattle.dex_container.specs.Section as section;
ghost use Rattle.program_types.specs.View as view;
ghost use Rattle.tables_rows.specs.Names.{AreNamesOf, AreRows};
ghost use Rattle.tables_rows.specs.Sorted.{RowsHold};
ghost use Rattle.file_classes.specs.Classes.{SpellsClass};
ghost use Rattle.file_classes.specs.ClassFaults.{BodyHolds, BodyFails, CodeHolds, RegistersFail, BodiesHold, BodiesBreak, RowRegistersHold, RowRegistersBreak};
ghost use Rattle.file_classes.specs.inner.ClassFaults.{IsFirstClass};
ghost use Rattle.std.specs.HashMap.{IsEmpty, hash_map_len};
ghost use Rattle.tables_rows.specs.inner.Cached.{AreCached};
ghost use Rattle.file_classes.specs.inner.Reading.{IsHead, AreStatics, AreCodesOf, AreKept, FirstCodeBreaks, CodesUpTo, IsFound, SpellsBodies};

use crate::class_row::class_count;
use crate::heads::Head;
use crate::keeping::{FoundCode, InArena, Keep, Nothing, Walk};
use crate::members::Bare;
use crate::statics::{Statics, head_at};
use bumpalo::Bump;
use bumpalo::collections::into_bump_slice;
use dex_base::Fault;
use dex_container::Sections;
use program_types::{Class, Code};
use std::alloc::Global;
use std::collections::HashMap;
use tables_rows::Tables;

/// The code items of a file that were read into an arena, by their byte offsets: one that several methods refer to is read once.
#[derive(Drop)]
pub struct Codes<'a> {
    pub alloc: Global,
    pub arena: &'a Bump,
    pub found: HashMap<u32, FoundCode<Option<&'a Code<'a>>>>,
}

impl<'a> Codes<'a> {
    /// None yet; those that are read go into this arena. Takes no memory.
    ///
    /// ```
    /// use bumpalo::Bump;
    /// use file_classes::Codes;
    ///
    /// let arena = Bump::new(alloc);
    /// assert_eq!(rt; Codes::new(alloc, &arena).len(), 0);
    /// ```
    pub fn new(alloc: Global, arena: &'a Bump) -> Self
        ensures none { IsEmpty result.found }
        ensures codes { (b : List ℕ) → AreCodesOf b result }
    {
        Codes {
            alloc,
            arena,
            found: HashMap::new(alloc),
        }
    }

    /// How many offsets of code were read, 0 of a method without code among them.
    pub fn len(&self) -> usize
        ensures { result ≡ hash_map_len self.now.found }
    {
        self.found.len()
    }
}

/// The class of a row, and the first fault of its registers.
#[derive(Clone, Copy)]
pub struct FoundClass<'a> {
    pub class: Class<'a>,
    pub past: Option<Fault>,
}

/// What is kept of the methods of a class, and the first fault of their registers.
#[derive(Drop)]
struct Bodies<M> {
    directs: M,
    virtuals: M,
    past: Option<Fault>,
}

impl<'a, K: Keep<'a>> Walk<'_, '_, '_, 'a, K> {
    /// The code at an offset, none at 0: what is cached for the offset, or what is read now, and cached.
    fn code_at(
        &self,
        scratch: &mut K::Scratch,
        cached: &mut HashMap<u32, FoundCode<K::Code>>,
        off: u32,
    ) -> Result<FoundCode<K::Code>, Fault>
        requires names { AreNamesOf self.now.sections.now self.now.tables.now }
        requires cached { AreCached (IsFound K.code self.now.sections.now) cached.old }
        ensures ok { IfOk result (IsFound K.code self.now.sections.now off) }
        ensures cached { OnOk result (AreCached (IsFound K.code self.now.sections.now) cached.new) }
        ensures err { IfErr result (λ e. e ≢ memory → BodyFails self.now.sections.now off e) }
    {
        if let Some(found) = cached.get(&off) {
            return Ok(*found);
        }
        let found = K::read_code(self, scratch, off)?;
        cached.insert(off, found)?;
        Ok(found)
    }

    /// The methods of a list, each with its code.
    fn methods(
        &self,
        scratch: &mut K::Scratch,
        cached: &mut HashMap<u32, FoundCode<K::Code>>,
        bares: &[Bare<'a>],
    ) -> Result<(K::Methods, Option<Fault>), Fault>
        requires names { AreNamesOf self.now.sections.now self.now.tables.now }
        requires cached { AreCached (IsFound K.code self.now.sections.now) cached.old }
        ensures ok { IfOk result (λ x. AreKept K.methods self.now.sections.now bares.now x.0) }
        ensures past { IfOk result (λ x. CodesUpTo CodeHolds RegistersFail self.now.sections.now bares.now (length bares.now) x.1) }
        ensures cached { OnOk result (AreCached (IsFound K.code self.now.sections.now) cached.new) }
        ensures err { IfErr result (λ e. e ≢ memory → FirstCodeBreaks BodyHolds BodyFails self.now.sections.now bares.now e) }
    {
        let mut list = self.keep.no_methods(bares.len())?;
        let mut past = None;
        for bare in bares {
            let found = self.code_at(scratch, cached, bare.code)?;
            past = past.or(found.past);
            K::add(&mut list, bare, found.code)?;
        }
        Ok((list, past))
    }

    /// The methods of row i, each with its code.
    fn bodies(
        &self,
        scratch: &mut K::Scratch,
        cached: &mut HashMap<u32, FoundCode<K::Code>>,
        i: u32,
        head: Head<'a, '_>,
    ) -> Result<Bodies<K::Methods>, Fault>
        requires names { AreNamesOf self.now.sections.now self.now.tables.now }
        requires cached { AreCached (IsFound K.code self.now.sections.now) cached.old }
        requires head { IsHead self.now.sections.now i head }
        ensures directs { IfOk result (λ x. AreKept K.methods self.now.sections.now head.entry.directs.now x.directs) }
        ensures virtuals { IfOk result (λ x. AreKept K.methods self.now.sections.now head.entry.virtuals.now x.virtuals) }
        ensures hold { IfOk result (λ x. IfNone x.past (RowRegistersHold self.now.sections.now i)) }
        ensures past { IfOk result (λ x. IfSome x.past (RowRegistersBreak self.now.sections.now i)) }
        ensures cached { OnOk result (AreCached (IsFound K.code self.now.sections.now) cached.new) }
        ensures err { IfErr result (λ e. e ≢ memory → BodiesBreak self.now.sections.now i e) }
    {
        self.sections.framed();
        let (directs, past) = self.methods(scratch, cached, head.directs)?;
        let (virtuals, later) = self.methods(scratch, cached, head.virtuals)?;
        Ok(Bodies {
            directs,
            virtuals,
            past: past.or(later),
        })
    }
}

/// The static values of row i.
fn statics_at<'a>(sections: &Sections<'_>, statics: &[Statics<'a>], i: u32) -> Statics<'a>
    requires statics { AreRows AreStatics sections.now section.class_defs statics.now }
    requires row { i < size_of sections.now section.class_defs }
    ensures { AreStatics sections.now i result }
{
    statics[i as usize]
}

/// The class of row i, one of those of `read_classes`: its code goes into the arena of `codes`, but for what is there already.
///
/// ```
/// use bumpalo::Bump;
/// use dex_container::open;
/// use dex_file::write;
/// use dex_listing::parse;
/// use file_classes::{Codes, read_class_at, read_heads, read_statics};
/// use tables_rows::Tables;
///
/// let arena = Bump::new(alloc);
/// let file = write(alloc, &parse(alloc, &arena, b"dex 035 listing 2\nclass LA; 0x1\nend class\n")?)?;
/// let sections = open(&file)?;
/// let tables = Tables::read(alloc, &arena, &sections)?;
/// let heads = read_heads(alloc, &arena, &arena, &sections, &tables)?;
/// let statics = read_statics(alloc, &arena, &arena, &sections, &tables, heads)?;
/// let mut codes = Codes::new(alloc, &arena);
/// let found = read_class_at(&mut codes, &sections, &tables, heads, statics, 0)?;
/// assert_eq!(rt; found.class.flags, 1);
/// assert!(rt; found.past.is_none());
/// ```
pub fn read_class_at<'a>(
    codes: &mut Codes<'a>,
    sections: &Sections<'_>,
    tables: &Tables<'a>,
    heads: &[Head<'a, '_>],
    statics: &[Statics<'a>],
    i: u32,
) -> Result<FoundClass<'a>, Fault>
    requires names { AreNamesOf sections.now tables.now }
    requires heads { AreRows IsHead sections.now section.class_defs heads.now }
    requires statics { AreRows AreStatics sections.now section.class_defs statics.now }
    requires row { i < size_of sections.now section.class_defs }
    requires codes { AreCodesOf sections.now codes.old }
    ensures codes { OnOk result (AreCodesOf sections.now codes.new) }
    ensures ok { IfOk result (λ x. SpellsBodies sections.now i (view.class x.class)) }
    ensures hold { IfOk result (λ x. IfNone x.past (RowRegistersHold sections.now i)) }
    ensures past { IfOk result (λ x. IfSome x.past (RowRegistersBreak sections.now i)) }
    ensures err { IfErr result (λ e. e ≢ memory → BodiesBreak sections.now i e) }
{
    sections.framed();
    let keep = InArena {
        alloc: codes.alloc,
        arena: codes.arena,
    };
    let walk = Walk {
        keep,
        sections,
        tables,
    };
    let head = head_at(sections, heads, i);
    let values = statics_at(sections, statics, i).values;
    let bodies = walk.bodies(&mut (), &mut codes.found, i, head)?;
    Ok(FoundClass {
        class: Class {
            ty: head.ty,
            flags: head.flags,
            superclass: head.superclass,
            interfaces: head.interfaces,
            source: head.source,
            statics: head.statics,
            values,
            instances: head.instances,
            directs: into_bump_slice(bodies.directs),
            virtuals: into_bump_slice(bodies.virtuals),
        },
        past: bodies.past,
    })
}

/// The classes of all rows; else the first fault of a body, or where there is none, the first of registers.
pub fn read_classes<'a>(
    alloc: Global,
    arena: &'a Bump,
    sections: &Sections<'_>,
    tables: &Tables<'a>,
    heads: &[Head<'a, '_>],
    statics: &[Statics<'a>],
) -> Result<&'a [Class<'a>], Fault>
    requires names { AreNamesOf sections.now tables.now }
    requires heads { AreRows IsHead sections.now section.class_defs heads.now }
    requires statics { AreRows AreStatics sections.now section.class_defs statics.now }
    ensures rows { IfOk result (λ classes. AreRows SpellsClass sections.now section.class_defs (map view.class classes.now)) }
    ensures hold { IfOk result (λ _. RowsHold RowRegistersHold sections.now (size_of sections.now section.class_defs)) }
    ensures err { IfErr result (λ e. e ≢ memory → IsFirstClass BodiesBreak BodiesHold sections.now e
        ⊎ (RowsHold BodiesHold sections.now (size_of sections.now section.class_defs) × IsFirstClass RowRegistersBreak RowRegistersHold sections.now e)) }
{
    sections.framed();
    let count = class_count(sections);
    let mut codes = Codes::new(alloc, arena);
    let mut classes: Vec<Class<'a>, &'a Bump> = Vec::with_capacity(arena, count as usize)?;
    let mut past = None;
    for i in 0..count {
        let found = read_class_at(&mut codes, sections, tables, heads, statics, i)?;
        past = past.or(found.past);
        classes.push(found.class)?;
    }
    match past {
        Some(fault) => Err(fault),
        None => Ok(into_bump_slice(classes)),
    }
}

/// Checks the code of all rows, each code once: the first fault of a body or, if there is none, the first of registers.
pub fn check_codes(
    alloc: Global,
    sections: &Sections<'_>,
    tables: &Tables<'_>,
    heads: &[Head<'_, '_>],
) -> Result<(), Fault>
    requires names { AreNamesOf sections.now tables.now }
    requires heads { AreRows IsHead sections.now section.class_defs heads.now }
    ensures hold { OnOk result (RowsHold RowRegistersHold sections.now (size_of sections.now section.class_defs)) }
    ensures err { IfErr result (λ e. e ≢ memory → IsFirstClass BodiesBreak BodiesHold sections.now e
        ⊎ (RowsHold BodiesHold sections.now (size_of sections.now section.class_defs) × IsFirstClass RowRegistersBreak RowRegistersHold sections.now e)) }
{
    sections.framed();
    let keep = Nothing { alloc };
    let walk = Walk {
        keep,
        sections,
        tables,
    };
    let mut scratch = Bump::new(alloc);
    let mut cached = HashMap::new(alloc);
    let mut past = None;
    for i in 0..class_count(sections) {
        let head = head_at(sections, heads, i);
        let found = walk.bodies(&mut scratch, &mut cached, i, head)?;
        past = past.or(found.past);
    }
    match past {
        Some(fault) => Err(fault),
        None => Ok(()),
    }
}
