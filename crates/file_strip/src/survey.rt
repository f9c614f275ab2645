//! What the classes of a file mention, and how many bytes they take at most.
//! Page: "Dalvik Executable format", "class_def_item".
ghost use Rattle.std.specs.Prelude.{◌≡◌, ◌∷◌, ◌<◌, ℕ, List, Option, [], IfOk, OnOk, IsOkUnless};
ghost use Rattle.std.specs.List.{flat_map};
ghost use Rattle.dex_base.specs.Fault.{memory};
ghost use Rattle.dex_container.specs.Frame.{IsFramed};
ghost use Rattle.dex_container.specs.Layout.{size_of};
ghost use Rattle.dex_container.specs.Section as section;
ghost use Rattle.program_types.specs.Content.{Class, OfDesc, OfText, Program, Units, Value, values};
ghost use Rattle.program_types.specs.Mentions.{if_any, names_of_class, names_of_value};
ghost use Rattle.tables_rows.specs.Names.{AreRows};
ghost use Rattle.tables_rows.specs.Stands.{StringStands, TypeStands};
ghost use Rattle.file_renumber.specs.inner.Marked.{AddsNames, HasMarks};
ghost use Rattle.dex_value.specs.Wide.{wide_values};
ghost use Rattle.file_limits.specs.inner.Sum.{IsSum};
ghost use Rattle.file_limits.specs.Wide.{wide_class};
ghost use Rattle.file_classes.specs.ClassRows.{IndexOrNone};
ghost use Rattle.file_classes.specs.Classes.{SpellsClass, StaticsAt};
ghost use Rattle.file_strip.specs.inner.Keeping.{ListsMembers};
ghost use Rattle.file_strip.specs.inner.Survey.{FindsNames, HasFound, IsSurvey, SpellsMembers, names_of_head, names_of_members, wide_members};
ghost use Rattle.file_classes.specs.inner.Reading.{entries};

use crate::members::{mark_fields, visit_methods};
use crate::sizes::list_size;
use dex_base::{Fault, Seed};
use dex_container::{Section, Sections, kind, section_of};
use dex_insn::IndexKind;
use file_classes::{Entries, class_count, class_word, entries_at, word};
use file_limits::{plus, times};
use file_renumber::{Marks, mark_array};
use std::alloc::Global;
use std::collections::HashMap;

/// The survey so far: the marks; for each code and each array how many bytes it needs at most; the section of the codes.
#[derive(Drop)]
pub(crate) struct Surveyed {
    pub marks: Marks,
    pub codes: HashMap<u32, u64>,
    pub arrays: HashMap<u32, u64>,
    pub section: Section,
}

/// What a file's classes need: the marked rows, and how many bytes the classes take at most; and the members of each class.
#[derive(Drop)]
pub struct Survey {
    pub marks: Marks,
    pub wide: u64,
    pub members: Vec<Entries>,
}

/// Surveys the static values at an offset, 0 for none, and returns how many bytes they need at most.
fn visit_values(found: &mut Surveyed, sections: &Sections<'_>, off: u32) -> Result<u64, Fault>
    requires found { HasFound sections.now found.old }
    requires values { (most : ℕ) × (vs : List Value) × StaticsAt sections.now off most vs }
    ensures found { OnOk result ((most : ℕ) (vs : List Value) → StaticsAt sections.now off most vs
        → FindsNames sections.now found.old found.new (flat_map names_of_value vs)) }
    ensures wide { IfOk result (λ n. (most : ℕ) (vs : List Value) → StaticsAt sections.now off most vs → n ≡ wide_values (values vs)) }
    ensures memory { IsOkUnless result memory }
{
    if off == 0 {
        return Ok(0);
    }
    if let Some(wide) = found.arrays.get(&off) {
        return Ok(*wide);
    }
    let wide = mark_array(&mut found.marks, sections, off)?;
    found.arrays.insert(off, wide)?;
    Ok(wide)
}

/// Marks the superclass, if there is one.
fn mark_superclass(marks: &mut Marks, sections: &Sections<'_>, index: u32) -> Result<(), Fault>
    requires marks { HasMarks sections.now marks.old }
    requires row { (t : Option Units) × IndexOrNone (TypeStands sections.now) index t }
    ensures marked { OnOk result ((t : Option Units) → IndexOrNone (TypeStands sections.now) index t
        → AddsNames sections.now marks.old marks.new (if_any (λ u. OfDesc u ∷ []) t)) }
    ensures memory { IsOkUnless result memory }
{
    if index == word::NO_INDEX {
        return Ok(());
    }
    marks.mark(sections, IndexKind::Type, index)?;
    Ok(())
}

/// Marks the source file, if there is one.
fn mark_source(marks: &mut Marks, sections: &Sections<'_>, index: u32) -> Result<(), Fault>
    requires marks { HasMarks sections.now marks.old }
    requires row { (t : Option Units) × IndexOrNone (StringStands sections.now) index t }
    ensures marked { OnOk result ((t : Option Units) → IndexOrNone (StringStands sections.now) index t
        → AddsNames sections.now marks.old marks.new (if_any (λ u. OfText u ∷ []) t)) }
    ensures memory { IsOkUnless result memory }
{
    if index == word::NO_INDEX {
        return Ok(());
    }
    marks.mark(sections, IndexKind::String, index)?;
    Ok(())
}

/// Surveys the members of a class and its static values, and returns how many bytes its class data, the values and the codes need at
/// most.
fn visit_members(
    alloc: Global,
    found: &mut Surveyed,
    sections: &Sections<'_>,
    all: &Entries,
    values: u32,
) -> Result<u64, Fault>
    requires found { HasFound sections.now found.old }
    requires members { (c : Class) × SpellsMembers sections.now (entries all.now) values c }
    ensures found { OnOk result ((c : Class) → SpellsMembers sections.now (entries all.now) values c → FindsNames sections.now found.old found.new (names_of_members c)) }
    ensures wide { IfOk result (λ n. (c : Class) → SpellsMembers sections.now (entries all.now) values c → IsSum n (wide_members c)) }
    ensures memory { IsOkUnless result memory }
{
    mark_fields(&mut found.marks, sections, &all.statics)?;
    let array = visit_values(found, sections, values)?;
    mark_fields(&mut found.marks, sections, &all.instances)?;
    let directs = visit_methods(alloc, found, sections, &all.directs)?;
    let virtuals = visit_methods(alloc, found, sections, &all.virtuals)?;
    let fields = plus(times(all.statics.len(), 10), times(all.instances.len(), 10));
    let methods = plus(times(all.directs.len(), 15), times(all.virtuals.len(), 15));
    let data = plus(plus(20, fields), methods);
    Ok(plus(plus(data, plus(5, array)), plus(directs, virtuals)))
}

/// Marks what the row of a class names: its type, superclass, interfaces and source file.
fn mark_head(marks: &mut Marks, sections: &Sections<'_>, i: u32) -> Result<(), Fault>
    requires marks { HasMarks sections.now marks.old }
    requires row { i < size_of sections.now section.class_defs }
    requires class { (c : Class) × SpellsClass sections.now i c }
    ensures marked { OnOk result ((c : Class) → SpellsClass sections.now i c → AddsNames sections.now marks.old marks.new (names_of_head c)) }
    ensures memory { IsOkUnless result memory }
{
    let class = class_word(sections, i, word::CLASS_IDX);
    let superclass = class_word(sections, i, word::SUPERCLASS_IDX);
    let interfaces = class_word(sections, i, word::INTERFACES_OFF);
    let source = class_word(sections, i, word::SOURCE_FILE_IDX);
    marks.mark(sections, IndexKind::Type, class)?;
    mark_superclass(marks, sections, superclass)?;
    marks.mark_list(sections, interfaces)?;
    mark_source(marks, sections, source)?;
    Ok(())
}

/// Surveys the class of row `i`, and returns how many bytes it needs at most, and its members.
fn visit_class(
    alloc: Global,
    found: &mut Surveyed,
    sections: &Sections<'_>,
    i: u32,
) -> Result<(u64, Entries), Fault>
    requires found { HasFound sections.now found.old }
    requires row { i < size_of sections.now section.class_defs }
    requires class { (c : Class) × SpellsClass sections.now i c }
    ensures found { OnOk result ((c : Class) → SpellsClass sections.now i c → FindsNames sections.now found.old found.new (names_of_class c)) }
    ensures wide { IfOk result (λ x. (c : Class) → SpellsClass sections.now i c → IsSum x.0 (wide_class c)) }
    ensures members { IfOk result (λ x. ListsMembers sections.now i x.1) }
    ensures memory { IsOkUnless result memory }
{
    sections.framed();
    mark_head(&mut found.marks, sections, i)?;
    let data = class_word(sections, i, word::CLASS_DATA_OFF);
    let Some(all) = entries_at(alloc, sections, data)? else {
        unreachable!()
    };
    let values = class_word(sections, i, word::STATIC_VALUES_OFF);
    let members = visit_members(alloc, found, sections, &all, values)?;
    let interfaces = list_size(sections, class_word(sections, i, word::INTERFACES_OFF));
    Ok((plus(plus(32, interfaces), members), all))
}

/// Surveys all classes of a file that means a program: the rows of the names that the program needs are marked, the classes need at
/// most so many bytes, which is exact within the limit of a file, and these are the members of each class.
///
/// It fails only when out of memory.
pub fn visit_classes(alloc: Global, seed: Seed, sections: &Sections<'_>) -> Result<Survey, Fault>
    requires classes { IsFramed sections.now × ((p : Program) × AreRows SpellsClass sections.now section.class_defs p) }
    ensures ok { IfOk result (λ survey. (p : Program) → AreRows SpellsClass sections.now section.class_defs p → IsSurvey sections.now survey p) }
    ensures members { IfOk result (λ survey. AreRows ListsMembers sections.now section.class_defs survey.members.items) }
    ensures memory { IsOkUnless result memory }
{
    let mut found = Surveyed {
        marks: Marks::new(alloc, seed, sections)?,
        codes: HashMap::new(alloc),
        arrays: HashMap::new(alloc),
        section: section_of(sections, kind::CODE_ITEM),
    };
    let mut wide: u64 = 0;
    let mut members = Vec::new(alloc);
    for i in 0..class_count(sections) {
        let (bytes, all) = visit_class(alloc, &mut found, sections, i)?;
        wide = plus(wide, bytes);
        members.push(all)?;
    }
    let Surveyed { marks, .. } = found;
    Ok(Survey {
        marks,
        wide,
        members,
    })
}
