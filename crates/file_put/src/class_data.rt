//! Class data.
//! Page: "Dalvik Executable format", "class_data_item", "encoded_field", "encoded_method".
ghost use Rattle.std.specs.Prelude.{◌≡◌, ℕ, ◌+◌, ◌<◌, ◌≤◌, ◌^◌, Some, IfOk, OnOk, IsOkUnless, length, map, slice_get};
ghost use Rattle.dex_base.specs.Fault.{memory};
ghost use Rattle.dex_base.specs.Grammar.{Appends};
ghost use Rattle.dex_base.specs.Leb128.{Spells, Shortest};
ghost use Rattle.file_classes.specs.ClassData.{SpellsCounts};
ghost use Rattle.file_layout.specs.Sections.{wide_all};
ghost use Rattle.file_layout.specs.inner.Sections.{AddsSome, Laid};
ghost use Rattle.file_limits.specs.Wide.{wide_data};
ghost use Rattle.file_limits.specs.inner.Wide.{body_values};
ghost use Rattle.tables_names.specs.Closure.{NameRanks, method_of_class};
ghost use Rattle.tables_names.specs.Noted.{AreRanks};
ghost use Rattle.file_needed.specs.inner.Bodies.{defined_in};
ghost use Rattle.program_types.specs.Content.{Descriptor};
ghost use Rattle.program_types.specs.Mentions.{field_of_class};
ghost use Rattle.program_types.specs.View as view;
ghost use Rattle.program_rules.specs.Rules.{KeysRise, MembersRise, member_key, method_key};
ghost use Rattle.file_put.specs.inner.Data.{PacksData, has_no_members, with_code_places, wide_with_codes};
ghost use Rattle.file_put.specs.inner.Growing.{AddsFields, AddsMethods};
ghost use Rattle.file_put.specs.inner.Named.{FewNames, fields_of, methods_of};

use crate::entries::{put_field, put_method};
use crate::placed::Placed;
use dex_base::{Fault, put_uleb};
use program_types::{Class, Member, Method, Program};
use std::alloc::Global;
use tables_names::Ranks;

/// Appends the entries of fields of a class, which have these indices, one by one.
fn put_fields(
    out: &mut Vec<u8>,
    ranks: &Ranks<'_>,
    own: &[usize],
    members: &[Member<'_>],
) -> Result<(), Fault>
    requires own { (owner : Descriptor) × AreRanks ranks.now (map (field_of_class owner) (map view.member members.now)) own.now }
    requires few { length ranks.now.fields ≤ 2 ^ 32 }
    requires rise { KeysRise (map member_key (map view.member members.now)) }
    ensures ok { OnOk result ((owner : Descriptor) → AreRanks ranks.now (map (field_of_class owner) (map view.member members.now)) own.now
        → AddsFields (NameRanks ranks.now) owner out.old.items out.new.items (map view.member members.now)) }
    ensures memory { IsOkUnless result memory }
{
    ranks.rise();
    let mut last = 0;
    for (i, member) in members.iter().enumerate() {
        let index = own[i] as u32;
        put_field(out, index - last, member.flags)?;
        last = index;
    }
    Ok(())
}

/// Appends the entries of methods of a class, which have these indices, one by one, and whose bodies are at these offsets.
fn put_methods(
    out: &mut Vec<u8>,
    ranks: &Ranks<'_>,
    own: &[usize],
    methods: &[Method<'_>],
    codes: &[u32],
) -> Result<(), Fault>
    requires own { (owner : Descriptor) × AreRanks ranks.now (map (method_of_class owner) (map view.method methods.now)) own.now }
    requires few { length ranks.now.methods ≤ 2 ^ 32 }
    requires rise { KeysRise (map method_key (map view.method methods.now)) }
    requires codes { length codes.now ≡ length methods.now }
    ensures ok { OnOk result ((owner : Descriptor) → AreRanks ranks.now (map (method_of_class owner) (map view.method methods.now)) own.now
        → AddsMethods (NameRanks ranks.now) owner codes.now out.old.items out.new.items (map view.method methods.now)) }
    ensures memory { IsOkUnless result memory }
{
    ranks.rise();
    let mut last = 0;
    for (i, method) in methods.iter().enumerate() {
        let index = own[i] as u32;
        put_method(out, index - last, method.flags, codes[i])?;
        last = index;
    }
    Ok(())
}

/// Appends how many members of each kind there are.
fn put_counts(out: &mut Vec<u8>, class: &Class<'_>) -> Result<(), Fault>
    requires room { wide_data (view.class class.now) < 2 ^ 32 }
    ensures ok { OnOk result (Appends (SpellsCounts (Shortest Spells)) out.old.items out.new.items (length class.now.statics.now, (length class.now.instances.now, (length class.now.directs.now, length class.now.virtuals.now)))) }
    ensures memory { IsOkUnless result memory }
{
    put_uleb(out, class.statics.len() as u32)?;
    put_uleb(out, class.instances.len() as u32)?;
    put_uleb(out, class.directs.len() as u32)?;
    put_uleb(out, class.virtuals.len() as u32)
}

/// Appends the members of a class: its fields and its methods have these indices, static and direct ones first.
fn put_members(
    out: &mut Vec<u8>,
    ranks: &Ranks<'_>,
    class: &Class<'_>,
    own_fields: &[usize],
    own_methods: &[usize],
    codes: &[u32],
) -> Result<(), Fault>
    requires fields { AreRanks ranks.now (fields_of (view.class class.now)) own_fields.now }
    requires methods { AreRanks ranks.now (methods_of (view.class class.now)) own_methods.now }
    requires few { FewNames ranks.now }
    requires rise { MembersRise (view.class class.now) }
    requires room { wide_data (view.class class.now) < 2 ^ 32 }
    requires codes { length codes.now ≡ length class.now.directs.now + length class.now.virtuals.now }
    ensures ok { OnOk result (Appends (PacksData (NameRanks ranks.now)) out.old.items out.new.items (record { class = view.class class.now; codes = codes.now })) }
    ensures memory { IsOkUnless result memory }
{
    let (statics, instances) = own_fields.split_at(class.statics.len());
    let (directs, virtuals) = own_methods.split_at(class.directs.len());
    let (direct_codes, virtual_codes) = codes.split_at(class.directs.len());
    put_counts(out, class)?;
    put_fields(out, ranks, statics, class.statics)?;
    put_fields(out, ranks, instances, class.instances)?;
    put_methods(out, ranks, directs, class.directs, direct_codes)?;
    put_methods(out, ranks, virtuals, class.virtuals, virtual_codes)
}

/// Appends the class data of a class, if it has members, and returns its offset, or 0.
fn add_data(
    out: &mut Vec<u8>,
    ranks: &Ranks<'_>,
    class: &Class<'_>,
    own_fields: &[usize],
    own_methods: &[usize],
    codes: &[u32],
) -> Result<u32, Fault>
    requires fields { AreRanks ranks.now (fields_of (view.class class.now)) own_fields.now }
    requires methods { AreRanks ranks.now (methods_of (view.class class.now)) own_methods.now }
    requires few { FewNames ranks.now }
    requires rise { MembersRise (view.class class.now) }
    requires room { length out.old.items + wide_data (view.class class.now) < 2 ^ 32 }
    requires codes { length codes.now ≡ length class.now.directs.now + length class.now.virtuals.now }
    ensures ok { IfOk result (AddsSome has_no_members (PacksData (NameRanks ranks.now)) 1 out.old.items out.new.items (record { class = view.class class.now; codes = codes.now })) }
    ensures bound { OnOk result (length out.new.items ≤ length out.old.items + wide_data (view.class class.now)) }
    ensures memory { IsOkUnless result memory }
{
    let fields = class.statics.len() + class.instances.len();
    let methods = class.directs.len() + class.virtuals.len();
    if fields == 0 && methods == 0 {
        return Ok(0);
    }
    let place = out.len() as u32;
    put_members(out, ranks, class, own_fields, own_methods, codes)?;
    Ok(place)
}

/// Appends the class data of each class that has members. The members that the classes define have these indices, in this
/// order, and the bodies of all methods are at these offsets.
///
/// It fails only when out of memory.
pub(crate) fn put_datas(
    alloc: Global,
    out: &mut Vec<u8>,
    ranks: &Ranks<'_>,
    indices: &[usize],
    program: &Program<'_>,
    codes: &[u32],
) -> Result<Placed, Fault>
    requires indices { AreRanks ranks.now (defined_in (view.program program.now)) indices.now }
    requires few { FewNames ranks.now }
    requires rise { (i : ℕ) (c : _) → slice_get (view.program program.now) i ≡ Some c → MembersRise c }
    requires front { 0 < length out.old.items }
    requires codes { length codes.now ≡ length (body_values (view.program program.now)) }
    requires room { length out.old.items + wide_all wide_data (view.program program.now) < 2 ^ 32 }
    ensures ok { IfOk result (λ r. Laid has_no_members (PacksData (NameRanks ranks.now)) 1 wide_with_codes out.old.items out.new.items (with_code_places (view.program program.now) codes.now) r.places.items r.items) }
    ensures memory { IsOkUnless result memory }
{
    let mut placed = Placed::new(alloc);
    let mut rest = codes;
    let mut members = indices;
    for class in program.classes {
        let (fields, others) = members.split_at(class.statics.len() + class.instances.len());
        let (methods, left) = others.split_at(class.directs.len() + class.virtuals.len());
        let (own, after) = rest.split_at(class.directs.len() + class.virtuals.len());
        let place = add_data(out, ranks, class, fields, methods, own)?;
        placed.add(place)?;
        rest = after;
        members = left;
    }
    Ok(placed)
}
