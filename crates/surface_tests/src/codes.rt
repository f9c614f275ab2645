//! dex_code.
ghost use Rattle.std.specs.List.{AllByRecursion, flat_map};
ghost use Rattle.program_types.specs.Formed.{IsFormed};
ghost use Rattle.program_types.specs.Kinds.{HasIndex};
ghost use Rattle.program_types.specs.Mentions.{names_of_code, names_of_try};
ghost use Rattle.program_types.specs.View as view;
ghost use Rattle.tables_names.specs.Closure.{NameRanks};
ghost use Rattle.code_write.specs.Fits.{CanBePut, FitsCode, HasIndexBelow};

use bumpalo::Bump;
use dex_base::Fault;
use dex_code::{addresses, align, fits, put_code, read_code};
use dex_container::Sections;
use dex_program::Code;
use dex_tables::{Ranks, Tables};
use std::alloc::Global;

pub fn code_read<'a>(
    alloc: Global,
    arena: &'a Bump,
    tables: &Tables<'a>,
    sections: &Sections<'_>,
    off: u32,
) -> Result<Code<'a>, Fault> {
    read_code(alloc, arena, tables, sections, off)
}

/// The code is well formed and keeps the limits on code; each name has a rank of at most 4294967295, the types in its instructions have one of at most
/// 65535, and its own terms in the plain sum come to at most 4294967295.
pub fn code_write(out: &mut Vec<u8>, ranks: &Ranks<'_>, code: &Code<'_>) -> Result<(), Fault>
    requires formed { IsFormed (view.code code.now) }
    requires fits { FitsCode (NameRanks ranks.now) (view.code code.now) }
    requires ranked { CanBePut (NameRanks ranks.now) (view.code code.now) }
{
    put_code(out, ranks, code)
}

pub fn code_addresses(alloc: Global, code: &Code<'_>) -> Result<Vec<u64>, Fault>
    requires { IsFormed (view.code code.now) }
{
    addresses(alloc, code)
}

/// The code is well formed; each name has a rank, and those of the types of catches are at most 4294967295.
pub fn code_fits(alloc: Global, ranks: &Ranks<'_>, code: &Code<'_>) -> Result<(), Fault>
    requires formed { IsFormed (view.code code.now) }
    requires ranked { AllByRecursion (HasIndex (NameRanks ranks.now)) (names_of_code (view.code code.now)) }
    requires caught { AllByRecursion (HasIndexBelow (NameRanks ranks.now) 4294967296) (flat_map names_of_try (view.code code.now).tries) }
{
    fits(alloc, ranks, code)
}

pub fn code_aligned<'a>(alloc: Global, arena: &'a Bump, code: &Code<'a>) -> Result<Code<'a>, Fault>
    requires { IsFormed (view.code code.now) }
{
    align(alloc, arena, code)
}
