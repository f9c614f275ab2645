//! Class data ("class_data_item", "encoded_field", "encoded_method").
ghost use Rattle.std.specs.Prelude.{◌≡◌, ◌+◌, ◌<◌, ◌≤◌, ◌^◌, List, IfOk, OnOk, IsOkUnless, length, map};
ghost use Rattle.dex_base.specs.Fault.{memory};
ghost use Rattle.dex_base.specs.Grammar.{Appends};
ghost use Rattle.dex_base.specs.Leb128.{Spells, Shortest};
ghost use Rattle.dex_container.specs.Layout.{size_of};
ghost use Rattle.dex_container.specs.Section as section;
ghost use Rattle.file_classes.specs.ClassData.{SpellsCounts};
ghost use Rattle.file_classes.specs.inner.Reading.{entries, field_entry, method_entry};
ghost use Rattle.file_layout.specs.Sections.{wide_all};
ghost use Rattle.file_layout.specs.inner.Sections.{AddsSome, Laid};
ghost use Rattle.file_limits.specs.Wide.{wide_data};
ghost use Rattle.file_limits.specs.inner.Wide.{body_values};
ghost use Rattle.file_put.specs.inner.Data.{FieldRanks, MethodRanks, PacksData, has_no_members, with_code_places, wide_with_codes};
ghost use Rattle.file_put.specs.inner.Growing.{AddsFields, AddsMethods};
ghost use Rattle.program_types.specs.Content.{Class, Descriptor, Member, Method, Program};
ghost use Rattle.tables_names.specs.Closure.{Five, NameRanks};
ghost use Rattle.tables_names.specs.Needed.{needed};
ghost use Rattle.file_strip.specs.inner.Keeping.{ListsMembers, Keeps};
ghost use Rattle.tables_rows.specs.Names.{AreRows};
ghost use Rattle.file_strip.specs.inner.Members.{AreCarriedMembers, IsCarriedRun};
ghost use Rattle.file_strip.specs.inner.Sites.{AddsClassData, HasRoom};

use dex_base::{Fault, put_uleb};
use dex_container::Sections;
use dex_insn::IndexKind;
use file_classes::{Entries, FieldEntry, MethodEntry, class_count};
use file_put::{Placed, put_field, put_method};
use file_renumber::Numbers;
use std::alloc::Global;

/// Appends the entries of fields.
fn put_fields(out: &mut Vec<u8>, numbers: &Numbers, entries: &[FieldEntry]) -> Result<(), Fault>
    requires few { length numbers.now.fields ≤ 2 ^ 32 }
    requires run { (s : Five) × (class : Descriptor) × (ms : List Member) × IsCarriedRun numbers.now.fields (FieldRanks (NameRanks s) class) (map field_entry entries.now) ms }
    ensures ok { OnOk result ((s : Five) (class : Descriptor) (ms : List Member) → IsCarriedRun numbers.now.fields (FieldRanks (NameRanks s) class) (map field_entry entries.now) ms
        → AddsFields (NameRanks s) class out.old.items out.new.items ms) }
    ensures memory { IsOkUnless result memory }
{
    let mut index: u32 = 0;
    let mut last: u32 = 0;
    for entry in entries {
        index += entry.step;
        let number = numbers.of(IndexKind::Field, index);
        put_field(out, number - last, entry.flags)?;
        last = number;
    }
    Ok(())
}

/// Appends the entries of methods, whose bodies are at these offsets.
fn put_methods(
    out: &mut Vec<u8>,
    numbers: &Numbers,
    entries: &[MethodEntry],
    codes: &[u32],
) -> Result<(), Fault>
    requires few { length numbers.now.methods ≤ 2 ^ 32 }
    requires run { (s : Five) × (class : Descriptor) × (ms : List Method) × IsCarriedRun numbers.now.methods (MethodRanks (NameRanks s) class) (map method_entry entries.now) ms }
    requires codes { length codes.now ≡ length entries.now }
    ensures ok { OnOk result ((s : Five) (class : Descriptor) (ms : List Method) → IsCarriedRun numbers.now.methods (MethodRanks (NameRanks s) class) (map method_entry entries.now) ms
        → AddsMethods (NameRanks s) class codes.now out.old.items out.new.items ms) }
    ensures memory { IsOkUnless result memory }
{
    let mut index: u32 = 0;
    let mut last: u32 = 0;
    for (i, entry) in entries.iter().enumerate() {
        index += entry.step;
        let number = numbers.of(IndexKind::Method, index);
        put_method(out, number - last, entry.flags, codes[i])?;
        last = number;
    }
    Ok(())
}

/// Appends how many members of each kind there are.
fn put_counts(out: &mut Vec<u8>, all: &Entries) -> Result<(), Fault>
    requires statics { length all.now.statics.items < 2 ^ 32 }
    requires instances { length all.now.instances.items < 2 ^ 32 }
    requires directs { length all.now.directs.items < 2 ^ 32 }
    requires virtuals { length all.now.virtuals.items < 2 ^ 32 }
    ensures ok { OnOk result (Appends (SpellsCounts (Shortest Spells)) out.old.items out.new.items (length all.now.statics.items, (length all.now.instances.items, (length all.now.directs.items, length all.now.virtuals.items)))) }
    ensures memory { IsOkUnless result memory }
{
    put_uleb(out, all.statics.len() as u32)?;
    put_uleb(out, all.instances.len() as u32)?;
    put_uleb(out, all.directs.len() as u32)?;
    put_uleb(out, all.virtuals.len() as u32)
}

/// Appends the members of a class.
fn put_members(
    out: &mut Vec<u8>,
    numbers: &Numbers,
    all: &Entries,
    codes: &[u32],
) -> Result<(), Fault>
    requires members { (s : Five) × (c : Class) × AreCarriedMembers numbers.now s (entries all.now) c × (wide_data c < 2 ^ 32) }
    requires codes { length codes.now ≡ length all.now.directs.items + length all.now.virtuals.items }
    ensures ok { OnOk result ((s : Five) (c : Class) → AreCarriedMembers numbers.now s (entries all.now) c → Appends (PacksData (NameRanks s)) out.old.items out.new.items (record { class = c; codes = codes.now })) }
    ensures memory { IsOkUnless result memory }
{
    let (directs, virtuals) = codes.split_at(all.directs.len());
    put_counts(out, all)?;
    put_fields(out, numbers, &all.statics)?;
    put_fields(out, numbers, &all.instances)?;
    put_methods(out, numbers, &all.directs, directs)?;
    put_methods(out, numbers, &all.virtuals, virtuals)
}

/// Appends the class data of these entries, and returns its offset, or 0 if there are none.
fn add_data(
    out: &mut Vec<u8>,
    numbers: &Numbers,
    all: &Entries,
    codes: &[u32],
) -> Result<u32, Fault>
    requires members { (s : Five) × (c : Class) × AreCarriedMembers numbers.now s (entries all.now) c × (length out.old.items + wide_data c < 2 ^ 32) }
    requires codes { length codes.now ≡ length all.now.directs.items + length all.now.virtuals.items }
    ensures ok { IfOk result (λ place. (s : Five) (c : Class) → AreCarriedMembers numbers.now s (entries all.now) c
        → AddsSome has_no_members (PacksData (NameRanks s)) 1 out.old.items out.new.items (record { class = c; codes = codes.now }) place) }
    ensures memory { IsOkUnless result memory }
{
    let fields = all.statics.len() + all.instances.len();
    let methods = all.directs.len() + all.virtuals.len();
    if fields == 0 && methods == 0 {
        return Ok(0);
    }
    let place = out.len() as u32;
    put_members(out, numbers, all, codes)?;
    Ok(place)
}

/// Appends the class data of a class with these members, whose bodies are at the first of these offsets, and returns its offset and the
/// other ones.
fn put_class<'c>(
    out: &mut Vec<u8>,
    numbers: &Numbers,
    all: &Entries,
    codes: &'c [u32],
) -> Result<(u32, &'c [u32]), Fault>
    requires members { (s : Five) × (c : Class) × AreCarriedMembers numbers.now s (entries all.now) c × HasRoom c codes.now out.old.items }
    ensures ok { IfOk result (λ x. (s : Five) (c : Class) → AreCarriedMembers numbers.now s (entries all.now) c → AddsClassData s c codes.now x.1.now out.old.items out.new.items x.0) }
    ensures memory { IsOkUnless result memory }
{
    let (own, others) = codes.split_at(all.directs.len() + all.virtuals.len());
    let place = add_data(out, numbers, all, own)?;
    Ok((place, others))
}

/// Appends the class data of each class that has members, which are these. The bodies of all methods are at these offsets.
///
/// It fails only when out of memory.
///
/// ```
/// let datas = put_datas(alloc, &mut out, &numbers, &sections, &members, &codes.places)?;
/// ```
pub(crate) fn put_datas(
    alloc: Global,
    out: &mut Vec<u8>,
    numbers: &Numbers,
    sections: &Sections<'_>,
    members: &[Entries],
    codes: &[u32],
) -> Result<Placed, Fault>
    requires front { 0 < length out.old.items }
    requires members { AreRows ListsMembers sections.now section.class_defs members.now }
    requires kept { (p : Program) × Keeps sections.now numbers.now p × (length codes.now ≡ length (body_values p)) × (length out.old.items + wide_all wide_data p < 2 ^ 32) }
    ensures ok { IfOk result (λ r. (p : Program) → Keeps sections.now numbers.now p
        → Laid has_no_members (PacksData (NameRanks (needed p))) 1 wide_with_codes out.old.items out.new.items (with_code_places p codes.now) r.places.items r.items) }
    ensures memory { IsOkUnless result memory }
{
    let mut placed = Placed::new(alloc);
    let mut rest = codes;
    for i in 0..class_count(sections) {
        let (place, others) = put_class(out, numbers, &members[i as usize], rest)?;
        placed.add(place)?;
        rest = others;
    }
    Ok(placed)
}
