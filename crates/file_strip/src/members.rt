//! What the members of a class mention.
//! Page: "Dalvik Executable format", "class_data_item".
ghost use Rattle.std.specs.Prelude.{◌≡◌, Option, map, IfOk, OnOk, IsOkUnless};
ghost use Rattle.std.specs.List.{flat_map};
ghost use Rattle.dex_base.specs.Fault.{memory};
ghost use Rattle.program_types.specs.Content.{Code};
ghost use Rattle.program_types.specs.Mentions.{if_any, field_of_class, names_of_code, names_of_method};
ghost use Rattle.file_renumber.specs.inner.Marked.{HasMarks, AddsNames};
ghost use Rattle.file_layout.specs.Sections.{wide_all};
ghost use Rattle.file_limits.specs.inner.Sum.{IsSum};
ghost use Rattle.file_limits.specs.Wide.{bodies_in, wide_body};
ghost use Rattle.file_classes.specs.Classes.{CodeAt};
ghost use Rattle.file_strip.specs.inner.Survey.{FindsNames, HasFields, HasFound, HasMethods};

use crate::survey::Surveyed;
use dex_base::Fault;
use dex_container::Sections;
use dex_insn::IndexKind;
use file_classes::{FieldEntry, MethodEntry};
use file_limits::plus;
use file_renumber::{Marks, mark_code};
use std::alloc::Global;

/// Marks the fields of a list of entries.
pub(crate) fn mark_fields(
    marks: &mut Marks,
    sections: &Sections<'_>,
    entries: &[FieldEntry],
) -> Result<(), Fault>
    requires marks { HasMarks sections.now marks.old }
    requires run { HasFields sections.now entries.now }
    ensures marked { OnOk result ((x : HasFields sections.now entries.now) → AddsNames sections.now marks.old marks.new (map (field_of_class x.class) x.fields)) }
    ensures memory { IsOkUnless result memory }
{
    let mut index: u32 = 0;
    for entry in entries {
        index += entry.step;
        marks.mark(sections, IndexKind::Field, index)?;
    }
    Ok(())
}

/// Surveys the code at an offset, 0 for none, and returns how many bytes it needs at most. Each code is surveyed once.
fn visit_code(
    alloc: Global,
    found: &mut Surveyed,
    sections: &Sections<'_>,
    off: u32,
) -> Result<u64, Fault>
    requires found { HasFound sections.now found.old }
    requires code { (c : Option Code) × CodeAt sections.now off c }
    ensures found { OnOk result ((c : Option Code) → CodeAt sections.now off c → FindsNames sections.now found.old found.new (if_any names_of_code c)) }
    ensures wide { IfOk result (λ n. (c : Option Code) → CodeAt sections.now off c → n ≡ wide_body c) }
    ensures memory { IsOkUnless result memory }
{
    if off == 0 {
        return Ok(0);
    }
    if let Some(wide) = found.codes.get(&off) {
        return Ok(*wide);
    }
    let wide = mark_code(alloc, &mut found.marks, sections, found.section, off)?;
    found.codes.insert(off, wide)?;
    Ok(wide)
}

/// Marks the methods of a list of entries, surveys their codes, and returns how many bytes these need at most.
pub(crate) fn visit_methods(
    alloc: Global,
    found: &mut Surveyed,
    sections: &Sections<'_>,
    entries: &[MethodEntry],
) -> Result<u64, Fault>
    requires found { HasFound sections.now found.old }
    requires run { HasMethods sections.now entries.now }
    ensures found { OnOk result ((x : HasMethods sections.now entries.now) → FindsNames sections.now found.old found.new (flat_map (names_of_method x.class) x.methods)) }
    ensures wide { IfOk result (λ n. (x : HasMethods sections.now entries.now) → IsSum n (wide_all wide_body (bodies_in x.methods))) }
    ensures memory { IsOkUnless result memory }
{
    let mut index: u32 = 0;
    let mut sum: u64 = 0;
    for entry in entries {
        index += entry.step;
        found.marks.mark(sections, IndexKind::Method, index)?;
        sum = plus(sum, visit_code(alloc, found, sections, entry.code)?);
    }
    Ok(sum)
}
