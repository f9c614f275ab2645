//! Laws of the opcode table. None has code: its contract is the law.

ghost use Rattle.std.specs.Prelude.{ℕ, List, ◌≡◌, ◌≢◌, [], Some, true};
ghost use Rattle.std.specs.List.{list_all};
ghost use Rattle.dex_insn.specs.Opcodes.{format_of, index_kind_of, format_has_index, names_table};
ghost use Rattle.dex_insn.specs.Mnemonics.{mnemonic_of, IsNamed, is_mnemonic_byte};
ghost use Rattle.dex_insn.specs.declared.opcode.Format.{Format};

/// No two opcodes have one mnemonic.
#[tactic(auto, using(crate::proofs::Mnemonics::named_once))]
pub fn mnemonics_differ()
    ensures { (x y : ℕ) (text : List ℕ) → IsNamed x text → IsNamed y text → x ≡ y }
{}

/// Exactly the used opcodes, those with a format, have a mnemonic.
pub fn used_opcodes_are_named()
    ensures used { (op : ℕ) (f : Format) → format_of op ≡ Some f → mnemonic_of op ≢ [] }
    ensures named { (op : ℕ) (text : List ℕ) → IsNamed op text → (f : Format) × (format_of op ≡ Some f) }
{}

/// A mnemonic has lower-case letters, digits, `-` and `/` alone.
#[tactic(auto, using(crate::proofs::Rows::mnemonic_plain))]
pub fn mnemonics_are_plain()
    ensures { (op : ℕ) → list_all is_mnemonic_byte (mnemonic_of op) ≡ true }
{}

/// The instructions of a used opcode have an index if and only if the opcode names a table.
#[tactic(auto, using(crate::proofs::Rows::kind_agrees))]
pub fn indices_have_a_kind()
    ensures { (op : ℕ) (f : Format) → format_of op ≡ Some f → format_has_index f ≡ names_table (index_kind_of op) }
{}
