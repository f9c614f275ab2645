//! Laws of instructions, each the contract of a function that does nothing.
ghost use Rattle.std.specs.Prelude.{◌≡◌, ◌↔◌, ◌<◌, ◌*◌, ◌/◌, ℕ, ℤ, List, length};
ghost use Rattle.dex_base.specs.declared.fault.Fault.{Fault};
ghost use Rattle.dex_insn.specs.Raw.{Raw};
ghost use Rattle.dex_insn.specs.Registers.{named_registers};
ghost use Rattle.program_types.specs.Content.{Name, Code, Insn};
ghost use Rattle.program_types.specs.Formed.{insn_registers};
ghost use Rattle.tables_rows.specs.Names.{Names, NameIsAt};
ghost use Rattle.code_read.specs.inner.ByAddress.{TargetsByAddress, SpellsInsnsByAddress};
ghost use Rattle.code_read.specs.Code.{SpellsCode};
ghost use Rattle.code_read.specs.InsnFaults.{InsnsBreak};
ghost use Rattle.code_read.specs.Linked.{SpellsInsns};
ghost use Rattle.code_read.specs.Symbols.{linked};

/// A raw instruction names the registers that the linked instruction names: so the rule of registers is the same for files and for
/// programs.
pub fn linked_registers_are_named()
    ensures { (T : ℤ → ℕ) (name : Name) (r : Raw) → named_registers r ≡ insn_registers (linked T name r) }
{}

/// The instructions of a code have one fault: one number, at one place.
pub fn insns_break_one_rule()
    ensures { (names : Names) (us : List ℕ) (base : ℕ) → length us ≡ 2 * (length us / 2) → (e f : Fault) → InsnsBreak (NameIsAt names) us base e → InsnsBreak (NameIsAt names) us base f → e ≡ f }
{}

/// By address, as on the page: in a code of a file each branch, each target of a switch and each reference to a payload refers to the
/// instruction whose address is the sum, and to no other. An offset counts from its instruction, a switch's target from the switch.
pub fn offsets_target_by_address()
    ensures { (names : Names) (bytes : List ℕ) (c : Code) (s : SpellsCode (NameIsAt names) bytes c) (k : ℕ) → k < length c.insns → TargetsByAddress s.body.raws c.insns k }
{}

/// The same as a definition: units are instructions if and only if they are by address. There each is the raw instruction with a name
/// for its index and, for each offset, the number of the instruction whose address is the sum, and the rules of branches, switches
/// and payloads are satisfied. So the definition can be read without the number for "no instruction", and without a last switch.
pub fn insns_are_spelled_by_address()
    ensures { (names : Names) (us : List ℕ) (rs : List Raw) (is : List Insn) → SpellsInsns (NameIsAt names) us rs is ↔ SpellsInsnsByAddress (NameIsAt names) us rs is }
{}
