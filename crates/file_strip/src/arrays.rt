//! Static values ("encoded_array_item").
ghost use Rattle.std.specs.Prelude.{◌+◌, ◌<◌, ◌^◌, List, IfOk, OnOk, IsOkUnless, length};
ghost use Rattle.dex_base.specs.Fault.{memory};
ghost use Rattle.dex_base.specs.Leb128.{Shortest};
ghost use Rattle.dex_value.specs.Spelling.{SpellsArray};
ghost use Rattle.dex_value.specs.Wide.{wide_array};
ghost use Rattle.file_layout.specs.Sections.{wide_all};
ghost use Rattle.file_layout.specs.inner.Sections.{is_empty_list, Laid};
ghost use Rattle.file_layout.specs.inner.Tiles.{AreShared};
ghost use Rattle.file_limits.specs.inner.Wide.{array_values};
ghost use Rattle.file_put.specs.inner.Arrays.{WritesArray};
ghost use Rattle.file_layout.specs.inner.Sharing.{UsesItem};
ghost use Rattle.program_types.specs.Content.{Program, Value};
ghost use Rattle.tables_names.specs.Closure.{AreRising, Five, NameRanks};
ghost use Rattle.tables_names.specs.Needed.{needed};
ghost use Rattle.file_strip.specs.inner.Keeping.{Keeps};
ghost use Rattle.file_strip.specs.inner.Moved.{AreMoved};
ghost use Rattle.file_strip.specs.inner.Statics.{AreCarriedStatics, IsCarriedStatics, WritesStatics};

use crate::class_words::class_words;
use crate::moved::Moved;
use dex_base::{Fault, are_bytes};
use dex_container::Sections;
use file_classes::word;
use file_put::Placed;
use file_renumber::{Numbers, renumber_array};
use std::alloc::Global;

/// Returns the new offset of the values at an old offset, which are appended unless equal ones are there; 0 if there are none.
fn add_array(
    alloc: Global,
    out: &mut Vec<u8>,
    moved: &mut Moved,
    numbers: &Numbers,
    sections: &Sections<'_>,
    off: u32,
) -> Result<u32, Fault>
    requires values { (s : Five) × (vs : List Value) × IsCarriedStatics sections.now numbers.now s off vs }
    requires room { length out.old.items < 2 ^ 32 }
    requires moved { AreMoved (WritesStatics sections.now numbers.now) moved.old.items moved.old.places }
    ensures ok { IfOk result (λ place. (s : Five) (vs : List Value) → IsCarriedStatics sections.now numbers.now s off vs
        → UsesItem is_empty_list (WritesArray s) 1 moved.old.items moved.new.items out.old.items out.new.items vs place) }
    ensures moved { OnOk result (AreMoved (WritesStatics sections.now numbers.now) moved.new.items moved.new.places) }
    ensures memory { IsOkUnless result memory }
{
    if off == 0 {
        return Ok(0);
    }
    if let Some(place) = moved.find(off) {
        return Ok(place);
    }
    let bytes = renumber_array(alloc, numbers, sections, off)?;
    are_bytes(&bytes);
    Ok(moved.put(out, off, bytes)?)
}

/// Appends the values that stood at these offsets.
fn place_arrays(
    alloc: Global,
    out: &mut Vec<u8>,
    numbers: &Numbers,
    sections: &Sections<'_>,
    offs: &[u32],
) -> Result<Placed, Fault>
    requires front { 0 < length out.old.items }
    requires arrays { (s : Five) × (arrays : List (List Value)) × AreCarriedStatics sections.now numbers.now s offs.now arrays × (length out.old.items + wide_all wide_array arrays < 2 ^ 32) }
    ensures ok { IfOk result (λ r. (s : Five) (arrays : List (List Value)) → AreCarriedStatics sections.now numbers.now s offs.now arrays
        → Laid is_empty_list (Shortest (SpellsArray (NameRanks s))) 1 wide_array out.old.items out.new.items arrays r.places.items r.items) }
    ensures once { IfOk result (λ r. (s : Five) (arrays : List (List Value)) → AreRising s → AreCarriedStatics sections.now numbers.now s offs.now arrays → AreShared r.places.items arrays) }
    ensures memory { IsOkUnless result memory }
{
    let mut moved = Moved::new(alloc, numbers.seed());
    let mut places = Vec::new(alloc);
    for off in offs {
        let place = add_array(alloc, out, &mut moved, numbers, sections, *off)?;
        places.push(place)?;
    }
    Ok(Placed {
        places,
        items: moved.items.count(),
    })
}

/// Appends the static values of each class that has some. Values that several classes refer to are read once, and equal ones
/// are written once.
///
/// It fails only when out of memory.
///
/// ```
/// let arrays = put_arrays(alloc, &mut out, &numbers, &sections)?;
/// ```
pub(crate) fn put_arrays(
    alloc: Global,
    out: &mut Vec<u8>,
    numbers: &Numbers,
    sections: &Sections<'_>,
) -> Result<Placed, Fault>
    requires front { 0 < length out.old.items }
    requires kept { (p : Program) × Keeps sections.now numbers.now p × (length out.old.items + wide_all wide_array (array_values p) < 2 ^ 32) }
    ensures ok { IfOk result (λ r. (p : Program) → Keeps sections.now numbers.now p
        → Laid is_empty_list (Shortest (SpellsArray (NameRanks (needed p)))) 1 wide_array out.old.items out.new.items (array_values p) r.places.items r.items) }
    ensures once { IfOk result (λ r. (p : Program) → Keeps sections.now numbers.now p → AreShared r.places.items (array_values p)) }
    ensures memory { IsOkUnless result memory }
{
    let offs = class_words(alloc, sections, word::STATIC_VALUES_OFF)?;
    Ok(place_arrays(alloc, out, numbers, sections, &offs)?)
}
