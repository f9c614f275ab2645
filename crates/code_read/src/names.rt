//! Names by the index of an instruction.

ghost use Rattle.std.specs.Prelude.{IfSome, IfNone, ◌<◌};
ghost use Rattle.program_types.specs.Content as content;
ghost use Rattle.program_types.specs.View.{name};
ghost use Rattle.tables_rows.specs.Names.{NameIsAt};
ghost use Rattle.code_read.specs.Symbols.{IndexStandsFor};

use dex_insn::index_kind_of;
use program_types::Name;
use tables_rows::Tables;

/// The name that an index in an instruction of this opcode denotes. `None` if its table has no such row.
#[inline(always)]
pub(crate) fn named<'a>(tables: &Tables<'a>, op: u8, index: u32) -> Option<Name<'a>>
    ensures some { IfSome result (λ n. IndexStandsFor (NameIsAt tables.now) op index (name n)) }
    ensures none { IfNone result ((n : content.Name) → ¬ IndexStandsFor (NameIsAt tables.now) op index n) }
{
    tables.name(index_kind_of(op)?, index)
}
