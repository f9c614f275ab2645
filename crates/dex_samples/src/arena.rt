//! The end of an arena, which nothing in it outlives.

ghost use Rattle.std.specs.Prelude.{◌≡◌, IfOk, IsOkUnless, slice_get};
ghost use Rattle.dex_base.specs.Fault.{memory};

use bumpalo::Bump;
use dex_base::Fault;
use program_types::alloc_str;
use std::alloc::Global;

/// The first unit of a string that lies in an arena of its own, read before the arena ends. Fails only when out of memory.
pub fn first_unit(alloc: Global, units: &[u16]) -> Result<Option<u16>, Fault>
    ensures ok { IfOk result (λ first. first ≡ slice_get units.now 0) }
    ensures memory { IsOkUnless result memory }
{
    let arena = Bump::new(alloc);
    let placed = alloc_str(&arena, units)?;
    let first = placed.units.first().copied();
    drop(arena);
    Ok(first)
}
