//! dex_value.
ghost use Rattle.std.specs.Prelude.{◌≤◌, map};
ghost use Rattle.program_types.specs.Content as content;
ghost use Rattle.program_types.specs.Mentions.{AllNamesHold};
ghost use Rattle.program_types.specs.View.{value};
ghost use Rattle.dex_value.specs.Named.{IsRanked};
ghost use Rattle.dex_value.specs.Wide.{wide_array};

use bumpalo::Bump;
use dex_base::Fault;
use dex_container::Sections;
use dex_program::Value;
use dex_tables::{Ranks, Tables};
use dex_value::{put_array, read_array, spelled_array_can_be_put};
use std::alloc::Global;

pub fn array_read<'a>(
    alloc: Global,
    arena: &'a Bump,
    tables: &Tables<'a>,
    sections: &Sections<'_>,
    off: u32,
    most: usize,
) -> Result<&'a [Value<'a>], Fault> {
    read_array(alloc, arena, tables, sections, off, most)
}

/// Each name has a rank of at most 4294967295, and the values' own terms in the plain sum come to at most that.
pub fn array_put(out: &mut Vec<u8>, ranks: &Ranks<'_>, values: &[Value<'_>]) -> Result<(), Fault>
    requires named { AllNamesHold (IsRanked ranks.now) (content.values (map value values.now)) }
    requires short { wide_array (map value values.now) ≤ 4294967295 }
{
    spelled_array_can_be_put();
    put_array(out, ranks, values)
}
