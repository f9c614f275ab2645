//! What instructions name: how many names, and their indices.

ghost use Rattle.std.specs.Prelude.{◌≡◌, ◌≤◌, ◌∷◌, ◌++◌, List, [], IfOk, OnOk, length, map, option_map};
ghost use Rattle.std.specs.List.{AllByRecursion, flat_map};
ghost use Rattle.program_types.specs.Content.{Name as Named};
ghost use Rattle.program_types.specs.Mentions.{if_any, names_of_insn};
ghost use Rattle.program_types.specs.View.{insn};
ghost use Rattle.program_types.specs.View as view;
ghost use Rattle.tables_names.specs.Closure.{NameRanks};
ghost use Rattle.tables_names.specs.Noted.{AreRanks};
ghost use Rattle.code_write.specs.Fits.{HasIndexBelow};

use program_types::{Insn, Name, name_of};
use std::alloc::{AllocError, Global};
use tables_names::Ranks;

/// How many names an instruction has: one or none.
pub(crate) fn names_in(one: &Insn<'_>) -> usize
    ensures count { result ≡ length (names_of_insn (insn one.now)) }
    ensures few { result ≤ 1 }
{
    match name_of(one) {
        Some(_) => 1,
        None => 0,
    }
}

/// How many names instructions have.
///
/// ```
/// let (own, others) = indices.split_at(mentions_in(code.insns)); // of the first code, and of those after it
/// ```
pub fn mentions_in(insns: &[Insn<'_>]) -> usize
    ensures { result ≡ length (flat_map names_of_insn (map insn insns.now)) }
{
    let mut count = 0;
    for one in insns {
        count += names_in(one);
    }
    count
}

/// Appends the index of a name.
fn put_name(indices: &mut Vec<usize>, ranks: &Ranks<'_>, name: Name<'_>) -> Result<(), AllocError>
    requires { HasIndexBelow (NameRanks ranks.now) 4294967296 (view.name name) }
    ensures ok { OnOk result ((names : List Named) → AreRanks ranks.now names indices.old.items → AreRanks ranks.now (names ++ view.name name.entry ∷ []) indices.new.items) }
{
    let Some(index) = ranks.index_of(name) else {
        unreachable!();
    };
    indices.push(index as usize)?;
    Ok(())
}

/// Appends the index of what an instruction names, if it names anything.
fn put_index(indices: &mut Vec<usize>, ranks: &Ranks<'_>, one: &Insn<'_>) -> Result<(), AllocError>
    requires { AllByRecursion (HasIndexBelow (NameRanks ranks.now) 4294967296) (names_of_insn (insn one.now)) }
    ensures ok { OnOk result ((names : List Named) → AreRanks ranks.now names indices.old.items → AreRanks ranks.now (names ++ names_of_insn (insn one.now)) indices.new.items) }
{
    match name_of(one) {
        Some(name) => put_name(indices, ranks, name),
        None => Ok(()),
    }
}

/// The indices of the names of instructions, one by one, each looked up.
pub(crate) fn indices_of(
    alloc: Global,
    ranks: &Ranks<'_>,
    insns: &[Insn<'_>],
) -> Result<Vec<usize>, AllocError>
    requires { AllByRecursion (HasIndexBelow (NameRanks ranks.now) 4294967296) (flat_map names_of_insn (map insn insns.now)) }
    ensures ok { IfOk result (λ indices. AreRanks ranks.now (flat_map names_of_insn (map insn insns.now)) indices.items) }
{
    let mut indices = Vec::new(alloc);
    for one in insns {
        put_index(&mut indices, ranks, one)?;
    }
    Ok(indices)
}
