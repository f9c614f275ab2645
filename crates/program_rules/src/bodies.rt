//! The names in bodies.

ghost use Rattle.std.specs.Prelude.{◌↔◌, map, IsTrue};
ghost use Rattle.std.specs.List.{AllByRecursion};
ghost use Rattle.dex_base.specs.Descriptor.{IsDescriptor};
ghost use Rattle.program_types.specs.View.{insn, catch, try, code};
ghost use Rattle.program_types.specs.Mentions.{names_of_code};
ghost use Rattle.program_rules.specs.Valid.{IsValidName};
ghost use Rattle.program_rules.specs.inner.Valid.{InsnIsNamed, InsnsAreNamed};

use crate::names::is_valid_name;
use dex_base::is_descriptor;
use program_types::{Catch, Code, Insn, Try, name_of};

/// Whether a file can have the name in the instruction, if there is one.
fn insn_is_valid(one: &Insn<'_>) -> bool
    ensures { IsTrue result ↔ InsnIsNamed (insn one.now) }
{
    match name_of(one) {
        Some(name) => is_valid_name(name),
        None => true,
    }
}

/// Whether a file can have the names in all instructions.
fn insns_are_valid(all: &[Insn<'_>]) -> bool
    ensures { IsTrue result ↔ AllByRecursion InsnIsNamed (map insn all.now) }
{
    for each in all {
        if !insn_is_valid(each) {
            return false;
        }
    }
    true
}

/// Whether all types that are caught are descriptors.
fn catches_are_valid(all: &[Catch<'_>]) -> bool
    ensures { IsTrue result ↔ AllByRecursion (λ c. IsDescriptor c.ty) (map catch all.now) }
{
    for each in all {
        if !is_descriptor(each.ty.text.units) {
            return false;
        }
    }
    true
}

/// Whether this is so of all tries.
fn tries_are_valid(all: &[Try<'_>]) -> bool
    ensures { IsTrue result ↔ AllByRecursion (λ t. AllByRecursion (λ c. IsDescriptor c.ty) t.catches) (map try all.now) }
{
    for each in all {
        if !catches_are_valid(each.catches) {
            return false;
        }
    }
    true
}

/// Whether a file can have the names in all instructions of the body: they are checked unless that is known already.
fn are_named(one: &Code<'_>, known: bool) -> bool
    requires { IsTrue known → InsnsAreNamed (code one.now) }
    ensures { IsTrue result ↔ InsnsAreNamed (code one.now) }
{
    if known {
        return true;
    }
    insns_are_valid(one.insns)
}

/// Whether a file can have all names in the body, if it may be known that it can have those in its instructions.
pub(crate) fn code_is_valid(one: &Code<'_>, known: bool) -> bool
    requires { IsTrue known → InsnsAreNamed (code one.now) }
    ensures { IsTrue result ↔ AllByRecursion IsValidName (names_of_code (code one.now)) }
{
    if !are_named(one, known) {
        return false;
    }
    tries_are_valid(one.tries)
}
