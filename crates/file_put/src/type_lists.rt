//! Type lists.
//! Page: "Dalvik Executable format", "type_list".
ghost use Rattle.std.specs.Prelude.{◌≡◌, ◌+◌, ◌<◌, ◌≤◌, ◌^◌, [], IfOk, OnOk, IsOkUnless, length, map, slice_index_or};
ghost use Rattle.std.specs.List.{AllByRecursion};
ghost use Rattle.dex_base.specs.Fault.{memory};
ghost use Rattle.dex_base.specs.Grammar.{Appends};
ghost use Rattle.program_types.specs.Key.{text_key};
ghost use Rattle.program_types.specs.View as view;
ghost use Rattle.tables_names.specs.inner.Indices.{HasRank};
ghost use Rattle.tables_names.specs.Needed.{needed};
ghost use Rattle.file_layout.specs.Sections.{wide_all};
ghost use Rattle.file_layout.specs.inner.Sections.{is_empty_list, Laid};
ghost use Rattle.file_put.specs.inner.Lists.{AddsIndices, SpellsRanks};
ghost use Rattle.file_limits.specs.Wide.{wide_list};
ghost use Rattle.file_limits.specs.inner.Wide.{list_values};
ghost use Rattle.file_layout.specs.inner.Sharing.{UsesItem};
ghost use Rattle.file_layout.specs.inner.Tiles.{AreShared};

use crate::index::type_index;
use crate::placed::Placed;
use dex_base::Fault;
use file_layout::Items;
use program_types::{Desc, Program};
use std::alloc::Global;
use tables_names::Ranks;

/// Appends the indices of types.
fn put_indices(out: &mut Vec<u8>, ranks: &Ranks<'_>, types: &[Desc<'_>]) -> Result<(), Fault>
    requires held { AllByRecursion (λ t. HasRank ranks.now.types (text_key t)) (map view.desc types.now) }
    requires few { length ranks.now.types ≤ 65535 }
    ensures ok { OnOk result (AddsIndices ranks.now out.old.items out.new.items (map view.desc types.now)) }
    ensures memory { IsOkUnless result memory }
{
    for ty in types {
        out.extend_from_slice(&type_index(ranks, *ty).to_le_bytes())?;
    }
    Ok(())
}

/// Appends a type list.
fn put_list(out: &mut Vec<u8>, ranks: &Ranks<'_>, types: &[Desc<'_>]) -> Result<(), Fault>
    requires held { AllByRecursion (λ t. HasRank ranks.now.types (text_key t)) (map view.desc types.now) }
    requires few { length ranks.now.types ≤ 65535 }
    requires short { length types.now < 2 ^ 32 }
    ensures ok { OnOk result (Appends (SpellsRanks ranks.now) out.old.items out.new.items (map view.desc types.now)) }
    ensures memory { IsOkUnless result memory }
{
    out.extend_from_slice(&(types.len() as u32).to_le_bytes())?;
    put_indices(out, ranks, types)
}

/// The type list of these types.
fn list_bytes(alloc: Global, ranks: &Ranks<'_>, types: &[Desc<'_>]) -> Result<Vec<u8>, Fault>
    requires held { AllByRecursion (λ t. HasRank ranks.now.types (text_key t)) (map view.desc types.now) }
    requires few { length ranks.now.types ≤ 65535 }
    requires short { length types.now < 2 ^ 32 }
    ensures ok { IfOk result (λ bytes. SpellsRanks ranks.now bytes.items (map view.desc types.now)) }
    ensures memory { IsOkUnless result memory }
{
    let mut bytes = Vec::new(alloc);
    put_list(&mut bytes, ranks, types)?;
    Ok(bytes)
}

/// Returns the offset of the type list of these types, 4-aligned, which is appended unless an equal one is there; 0 for no type.
fn add_list(
    alloc: Global,
    out: &mut Vec<u8>,
    items: &mut Items,
    ranks: &Ranks<'_>,
    types: &[Desc<'_>],
) -> Result<u32, Fault>
    requires held { AllByRecursion (λ t. HasRank ranks.now.types (text_key t)) (map view.desc types.now) }
    requires few { length ranks.now.types ≤ 65535 }
    requires room { length out.old.items + wide_list (map view.desc types.now) < 2 ^ 32 }
    ensures ok { IfOk result (UsesItem is_empty_list (SpellsRanks ranks.now) 4 items.old items.new out.old.items out.new.items (map view.desc types.now)) }
    ensures memory { IsOkUnless result memory }
{
    if types.len() == 0 {
        return Ok(0);
    }
    let bytes = list_bytes(alloc, ranks, types)?;
    Ok(items.put_aligned(out, bytes)?)
}

/// Returns the offset of the type list of this number, which is appended unless an equal one is there; 0 for no type. The
/// lists are the parameters of each prototype, then the interfaces of each class.
fn add_numbered(
    alloc: Global,
    out: &mut Vec<u8>,
    items: &mut Items,
    ranks: &Ranks<'_>,
    program: &Program<'_>,
    number: usize,
) -> Result<u32, Fault>
    requires needed { ranks.now ≡ needed (view.program program.now) }
    requires few { length ranks.now.types ≤ 65535 }
    requires number { number < length (list_values ranks.now (view.program program.now)) }
    requires room { length out.old.items + wide_list (slice_index_or (list_values ranks.now (view.program program.now)) number []) < 2 ^ 32 }
    ensures ok { IfOk result (UsesItem is_empty_list (SpellsRanks ranks.now) 4 items.old items.new out.old.items out.new.items (slice_index_or (list_values ranks.now (view.program program.now)) number [])) }
    ensures memory { IsOkUnless result memory }
{
    let protos = ranks.protos();
    if number < protos.len() {
        add_list(alloc, out, items, ranks, protos[number].params)
    } else {
        add_list(
            alloc,
            out,
            items,
            ranks,
            program.classes[number - protos.len()].interfaces,
        )
    }
}

/// Appends the type lists, each 4-aligned: the parameters of each prototype, then the interfaces of each class, if there are any, equal
/// lists once.
///
/// It fails only when out of memory.
pub(crate) fn put_lists(
    alloc: Global,
    out: &mut Vec<u8>,
    ranks: &Ranks<'_>,
    program: &Program<'_>,
) -> Result<Placed, Fault>
    requires needed { ranks.now ≡ needed (view.program program.now) }
    requires front { 0 < length out.old.items }
    requires few { length ranks.now.types ≤ 65535 }
    requires room { length out.old.items + wide_all wide_list (list_values ranks.now (view.program program.now)) < 2 ^ 32 }
    ensures ok { IfOk result (λ r. Laid is_empty_list (SpellsRanks ranks.now) 4 wide_list out.old.items out.new.items (list_values ranks.now (view.program program.now)) r.places.items r.items) }
    ensures once { IfOk result (λ r. AreShared r.places.items (list_values ranks.now (view.program program.now))) }
    ensures memory { IsOkUnless result memory }
{
    ranks.rise();
    let mut items = Items::new(alloc, ranks.seed());
    let mut places = Vec::new(alloc);
    for number in 0..ranks.protos().len() + program.classes.len() {
        let place = add_numbered(alloc, out, &mut items, ranks, program, number)?;
        places.push(place)?;
    }
    Ok(Placed {
        places,
        items: items.count(),
    })
}
