//! Names are placed in an arena as they are.

use bumpalo::Bump;
use dex_base::Fault;
use dex_samples::types::{INT, LONGS, VOID};
use dex_samples::{Case, all_hold, first_unit, ty};
use program_types::{alloc_descs, alloc_proto, alloc_str};
use std::alloc::Global;
use std::test::Fail;

fn is_string_placed(arena: &Bump) -> Result<bool, Fault> {
    let placed = alloc_str(arena, &[0x6d, 0xd800, 0])?;
    Ok(placed.units == [0x6d, 0xd800, 0].as_slice())
}

fn is_first_unit_read(alloc: Global) -> Result<bool, Fault> {
    Ok(first_unit(alloc, &[0x6d, 0xd800, 0])? == Some(0x6d))
}

fn are_rows_placed(arena: &Bump) -> Result<bool, Fault> {
    let (one, two, three) = (ty(arena, "I")?, ty(arena, "LA;")?, ty(arena, "V")?);
    let placed = alloc_descs(arena, &[one, two, three], &[2, 0, 2])?;
    Ok(placed == [three, one, three].as_slice())
}

fn is_prototype_placed(arena: &Bump) -> Result<bool, Fault> {
    let params = alloc_descs(arena, &[INT, LONGS], &[0, 1])?;
    let placed = alloc_proto(arena, VOID, params)?;
    Ok(placed.ret == VOID && placed.params == [INT, LONGS].as_slice())
}

/// What is placed.
enum Placed {
    String,
    // what is read of it outlives the arena
    FirstUnit,
    // rows of a table, in their order
    Rows,
    // a prototype, with its types
    Prototype,
}

impl Case for Placed {
    fn name(&self) -> &'static str {
        match self {
            Placed::String => "a string",
            Placed::FirstUnit => "what is read from an arena",
            Placed::Rows => "rows of a table",
            Placed::Prototype => "a prototype",
        }
    }

    fn holds(&self, alloc: Global) -> Result<bool, Fault> {
        let arena = Bump::new(alloc);
        match self {
            Placed::String => is_string_placed(&arena),
            Placed::FirstUnit => is_first_unit_read(alloc),
            Placed::Rows => are_rows_placed(&arena),
            Placed::Prototype => is_prototype_placed(&arena),
        }
    }
}

#[test]
fn names_are_placed_as_they_are(rt: HostRuntime) -> Result<(), Fail> {
    static CASES: [Placed; 4] = [
        Placed::String,
        Placed::FirstUnit,
        Placed::Rows,
        Placed::Prototype,
    ];
    all_hold(rt.alloc(), &CASES)
}
