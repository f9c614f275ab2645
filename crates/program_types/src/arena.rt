//! Names put into an arena, where they live as long as it does.

ghost use Rattle.std.specs.Prelude.{◌≡◌, ◌<◌, IfOk, IsOkUnless, All, [], length, map, slice_index_or};
ghost use Rattle.dex_base.specs.Fault.{memory};
ghost use Rattle.program_types.specs.View.{str, desc, proto};

use crate::names::{Desc, Proto, Str};
use bumpalo::Bump;
use bumpalo::collections::into_bump_slice;
use dex_base::Fault;

/// A string of these units, copied into the arena. Fails only when out of memory.
pub fn alloc_str<'a>(arena: &'a Bump, units: &[u16]) -> Result<Str<'a>, Fault>
    ensures ok { IfOk result (λ placed. str placed ≡ units.now) }
    ensures memory { IsOkUnless result memory }
{
    Ok(Str {
        units: arena.try_alloc_slice_copy(units)?,
    })
}

/// The types at these rows of a table, in the arena. Their texts are shared with the table. Fails only when out of memory.
pub fn alloc_descs<'a>(
    arena: &'a Bump,
    table: &[Desc<'a>],
    rows: &[u16],
) -> Result<&'a [Desc<'a>], Fault>
    requires { All (λ row. row < length table.now) rows.now }
    ensures ok { IfOk result (λ placed.
        map desc placed.now ≡ map (λ row. slice_index_or (map desc table.now) row []) rows.now) }
    ensures memory { IsOkUnless result memory }
{
    let mut found = Vec::with_capacity(arena, rows.len())?;
    for row in rows {
        found.push(table[*row as usize])?;
    }
    Ok(into_bump_slice(found))
}

/// The prototype of these types, in the arena. Fails only when out of memory.
pub fn alloc_proto<'a>(
    arena: &'a Bump,
    ret: Desc<'a>,
    params: &'a [Desc<'a>],
) -> Result<&'a Proto<'a>, Fault>
    ensures ok { IfOk result (λ placed.
        proto placed.now ≡ record { ret = desc ret.entry; params = map desc params.now }) }
    ensures memory { IsOkUnless result memory }
{
    Ok(arena.try_alloc(Proto { ret, params })?)
}
