//! Static values.
//! Page: "Dalvik Executable format", "encoded_array_item".
ghost use Rattle.std.specs.Prelude.{◌≡◌, ◌+◌, ◌<◌, ◌^◌, IfOk, IsOkUnless, length, map};
ghost use Rattle.dex_base.specs.Fault.{memory};
ghost use Rattle.dex_base.specs.Leb128.{Shortest};
ghost use Rattle.file_layout.specs.Sections.{wide_all};
ghost use Rattle.file_layout.specs.inner.Sections.{is_empty_list, Laid};
ghost use Rattle.file_limits.specs.inner.Wide.{array_values};
ghost use Rattle.tables_names.specs.Closure.{NameRanks};
ghost use Rattle.tables_names.specs.Needed.{needed};
ghost use Rattle.program_types.specs.Content as content;
ghost use Rattle.program_types.specs.Mentions.{AllNamesHold};
ghost use Rattle.program_types.specs.View as view;
ghost use Rattle.file_put.specs.inner.Arrays.{WritesArray};
ghost use Rattle.file_put.specs.inner.Named.{FewNames};
ghost use Rattle.file_layout.specs.inner.Tiles.{AreShared};
ghost use Rattle.file_layout.specs.inner.Sharing.{UsesItem};
ghost use Rattle.dex_value.specs.Named.{IsRanked};
ghost use Rattle.dex_value.specs.Spelling.{SpellsArray};
ghost use Rattle.dex_value.specs.Wide.{wide_array};

use crate::placed::Placed;
use dex_base::{Fault, are_bytes};
use dex_value::make_array;
use file_layout::Items;
use program_types::{Program, Value};
use std::alloc::Global;
use tables_names::Ranks;

/// Returns the offset of static values, which are appended unless equal ones are there; 0 if there are none.
fn add_array(
    alloc: Global,
    out: &mut Vec<u8>,
    items: &mut Items,
    ranks: &Ranks<'_>,
    values: &[Value<'_>],
) -> Result<u32, Fault>
    requires named { AllNamesHold (IsRanked ranks.now) (content.values (map view.value values.now)) }
    requires room { length out.old.items + wide_array (map view.value values.now) < 2 ^ 32 }
    ensures ok { IfOk result (UsesItem is_empty_list (WritesArray ranks.now) 1 items.old items.new out.old.items out.new.items (map view.value values.now)) }
    ensures memory { IsOkUnless result memory }
{
    if values.len() == 0 {
        return Ok(0);
    }
    let bytes = make_array(alloc, ranks, values)?;
    are_bytes(&bytes);
    Ok(items.put(out, bytes)?)
}

/// Appends the static values of each class that has some, equal ones once.
///
/// It fails only when out of memory.
pub(crate) fn put_arrays(
    alloc: Global,
    out: &mut Vec<u8>,
    ranks: &Ranks<'_>,
    program: &Program<'_>,
) -> Result<Placed, Fault>
    requires needed { ranks.now ≡ needed (view.program program.now) }
    requires few { FewNames ranks.now }
    requires front { 0 < length out.old.items }
    requires room { length out.old.items + wide_all wide_array (array_values (view.program program.now)) < 2 ^ 32 }
    ensures ok { IfOk result (λ r. Laid is_empty_list (Shortest (SpellsArray (NameRanks ranks.now))) 1 wide_array out.old.items out.new.items (array_values (view.program program.now)) r.places.items r.items) }
    ensures once { IfOk result (λ r. AreShared r.places.items (array_values (view.program program.now))) }
    ensures memory { IsOkUnless result memory }
{
    ranks.rise();
    let mut items = Items::new(alloc, ranks.seed());
    let mut places = Vec::new(alloc);
    for class in program.classes {
        let place = add_array(alloc, out, &mut items, ranks, class.values)?;
        places.push(place)?;
    }
    Ok(Placed {
        places,
        items: items.count(),
    })
}
