//! The rows and columns of the opcode table.

ghost use Rattle.std.specs.Prelude.{◌≡◌, ◌<◌, length, map, get_or, [], None};
ghost use Rattle.dex_insn.specs.Opcodes.{format_in, format_of, index_kind_in, index_kind_of};
ghost use Rattle.dex_insn.specs.Mnemonics.{mnemonic_of};
ghost use Rattle.dex_insn.specs.inner.Mnemonics.{mnemonic_in};

use crate::opcode::{Format, IndexKind, Opcode};
use crate::opcodes::OPCODES;

/// A row of a table, by its columns.
fn row_at<'a>(table: &[Option<Opcode<&'a str>>], place: usize) -> Option<Opcode<&'a str>>
    requires { place < length table.now }
    ensures format { format_in result ≡ get_or (map format_in table.now) place None }
    ensures index { index_kind_in result ≡ get_or (map index_kind_in table.now) place None }
    ensures mnemonic { mnemonic_in result ≡ get_or (map mnemonic_in table.now) place [] }
{
    table[place]
}

/// The row of an opcode: nothing where it is unused. No other function reads the table.
#[tactic(auto, unfolding(crate::specs::Opcodes::formats, crate::specs::Opcodes::index_kinds, crate::specs::Mnemonics::mnemonics))]
fn row_of(op: u8) -> Option<Opcode<&'static str>>
    ensures format { format_in result ≡ format_of op }
    ensures index { index_kind_in result ≡ index_kind_of op }
    ensures mnemonic { mnemonic_in result ≡ mnemonic_of op }
{
    row_at(&OPCODES, op as usize)
}

/// The format of an opcode's instructions ("Dalvik bytecode", column "Op & Format"): `None` where the opcode is unused.
pub fn format_of(op: u8) -> Option<Format>
    ensures { result ≡ format_of op }
{
    Some(row_of(op)?.format)
}

/// The table that the index in an opcode's instructions is a row of: `None` where their format has none, and where the
/// opcode is unused.
pub fn index_kind_of(op: u8) -> Option<IndexKind>
    ensures { result ≡ index_kind_of op }
{
    row_of(op)?.index
}

/// The mnemonic of an opcode ("Dalvik bytecode", column "Mnemonic / Syntax"): empty where the opcode is unused.
pub fn mnemonic_of(op: u8) -> &'static str
    ensures { result.now ≡ mnemonic_of op }
{
    match row_of(op) {
        Some(row) => row.mnemonic,
        None => "",
    }
}
