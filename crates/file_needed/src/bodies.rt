//! The names that a body mentions.
//! Page: "Dalvik Executable format", "code_item" and "encoded_type_addr_pair"; "Dalvik bytecode" for what an index names.
ghost use Rattle.std.specs.Prelude.{◌≡◌, ◌∷◌, [], map, option_map, OnOk, IsOkUnless};
ghost use Rattle.std.specs.List.{AllByRecursion, flat_map};
ghost use Rattle.dex_base.specs.Fault.{memory};
ghost use Rattle.tables_names.specs.Closure.{HasShorty, with_names};
ghost use Rattle.program_types.specs.Content.{OfDesc};
ghost use Rattle.tables_names.specs.Noted.{AddsNoted};
ghost use Rattle.program_types.specs.Mentions.{if_any, names_of_insn, names_of_try};
ghost use Rattle.program_types.specs.View as view;

use bumpalo::Bump;
use dex_base::Fault;
use program_types::{Catch, Code, Insn, Name, Try, name_of};
use tables_names::{Needed, Noted};

/// Notes the name in an instruction, if it has one.
fn note_insn<'a, 'p: 'a>(
    noted: &mut Noted<'a>,
    arena: &'a Bump,
    one: &Insn<'p>,
) -> Result<(), Fault>
    requires { AllByRecursion HasShorty (names_of_insn (view.insn one.now)) }
    ensures added { OnOk result (AddsNoted noted.old noted.new (names_of_insn (view.insn one.now))) }
    ensures memory { IsOkUnless result memory }
{
    match name_of(one) {
        Some(name) => noted.add_name(arena, name),
        None => Ok(()),
    }
}

/// Notes the names in instructions.
fn note_insns<'a, 'p: 'a>(
    noted: &mut Noted<'a>,
    arena: &'a Bump,
    insns: &[Insn<'p>],
) -> Result<(), Fault>
    requires { AllByRecursion HasShorty (flat_map names_of_insn (map view.insn insns.now)) }
    ensures added { OnOk result (AddsNoted noted.old noted.new (flat_map names_of_insn (map view.insn insns.now))) }
    ensures memory { IsOkUnless result memory }
{
    for insn in insns {
        note_insn(noted, arena, insn)?;
    }
    Ok(())
}

/// Notes what the instructions of a body name, if there is one.
pub(crate) fn note_body<'a, 'p: 'a>(
    noted: &mut Noted<'a>,
    arena: &'a Bump,
    body: Option<&Code<'p>>,
) -> Result<(), Fault>
    requires { AllByRecursion HasShorty (if_any (λ c. flat_map names_of_insn c.insns) (option_map (λ c. view.code c.now) body)) }
    ensures added { OnOk result (AddsNoted noted.old noted.new (if_any (λ c. flat_map names_of_insn c.insns) (option_map (λ c. view.code c.now) body.entry))) }
    ensures memory { IsOkUnless result memory }
{
    match body {
        Some(code) => note_insns(noted, arena, code.insns),
        None => Ok(()),
    }
}

/// The types that are caught.
fn add_catches<'a, 'p: 'a>(needed: &mut Needed<'a>, catches: &[Catch<'p>]) -> Result<(), Fault>
    ensures added { OnOk result (needed.new ≡ with_names needed.old (map (λ c. OfDesc c.ty) (map view.catch catches.now))) }
    ensures memory { IsOkUnless result memory }
{
    for catch in catches {
        needed.add_type(catch.ty)?;
    }
    Ok(())
}

/// The types that tries catch.
fn add_tries<'a, 'p: 'a>(needed: &mut Needed<'a>, tries: &[Try<'p>]) -> Result<(), Fault>
    ensures added { OnOk result (needed.new ≡ with_names needed.old (flat_map names_of_try (map view.try tries.now))) }
    ensures memory { IsOkUnless result memory }
{
    for one in tries {
        add_catches(needed, one.catches)?;
    }
    Ok(())
}

/// The types that a body catches, if there is one.
pub(crate) fn add_caught<'a, 'p: 'a>(
    needed: &mut Needed<'a>,
    body: Option<&Code<'p>>,
) -> Result<(), Fault>
    ensures added { OnOk result (needed.new ≡ with_names needed.old (if_any (λ c. flat_map names_of_try c.tries) (option_map (λ c. view.code c.now) body.entry))) }
    ensures memory { IsOkUnless result memory }
{
    match body {
        Some(code) => add_tries(needed, code.tries),
        None => Ok(()),
    }
}
