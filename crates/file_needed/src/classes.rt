//! The names that classes mention.
//! Page: "Dalvik Executable format", "class_def_item", "class_data_item".
ghost use Rattle.std.specs.Prelude.{◌≡◌, ◌∷◌, ◌++◌, List, [], map, option_map, IfOk, OnOk, IsOkUnless};
ghost use Rattle.std.specs.List.{AllByRecursion, flat_map};
ghost use Rattle.dex_base.specs.Fault.{memory};
ghost use Rattle.file_needed.specs.inner.Bodies.{caught_in_body, defined_in, named_in_body, named_in_class, named_in_code, other_names, own_names};
ghost use Rattle.tables_names.specs.Closure.{HasShorty, with_names};
ghost use Rattle.tables_names.specs.Needed.{needed};
ghost use Rattle.tables_names.specs.Noted.{AddsNoted, AreNoted, AreRanks};
ghost use Rattle.tables_names.specs.Numbers.{sets};
ghost use Rattle.program_types.specs.Content as content;
ghost use Rattle.program_types.specs.Content.{OfText, OfDesc};
ghost use Rattle.program_types.specs.Mentions.{if_any, mentions, names_of_class};
ghost use Rattle.program_types.specs.View as view;

use crate::bodies::{add_caught, note_body};
use crate::values::add_values;
use bumpalo::Bump;
use dex_base::{Fault, Seed};
use program_types::{Class, Desc, Method, Program, Str};
use std::alloc::Global;
use tables_names::{Needed, Noted, Ranks};

/// Adds the types, the interfaces of a class.
fn add_types<'a, 'p: 'a>(needed: &mut Needed<'a>, types: &[Desc<'p>]) -> Result<(), Fault>
    ensures added { OnOk result (needed.new ≡ with_names needed.old (map OfDesc (map view.desc types.now))) }
    ensures memory { IsOkUnless result memory }
{
    for ty in types {
        needed.add_type(*ty)?;
    }
    Ok(())
}

/// Adds the types that the bodies of methods catch.
fn add_all_caught<'a, 'p: 'a>(needed: &mut Needed<'a>, methods: &[Method<'p>]) -> Result<(), Fault>
    ensures added { OnOk result (needed.new ≡ with_names needed.old (flat_map caught_in_body (map view.method methods.now))) }
    ensures memory { IsOkUnless result memory }
{
    for method in methods {
        add_caught(needed, method.code)?;
    }
    Ok(())
}

/// Adds the superclass of a class, if it has one.
fn add_superclass<'a, 'p: 'a>(
    needed: &mut Needed<'a>,
    superclass: Option<Desc<'p>>,
) -> Result<(), Fault>
    ensures added { OnOk result (needed.new ≡ with_names needed.old (if_any (λ t. OfDesc t ∷ []) (option_map view.desc superclass.entry))) }
    ensures memory { IsOkUnless result memory }
{
    match superclass {
        Some(ty) => needed.add_type(ty),
        None => Ok(()),
    }
}

/// Adds the source file of a class, if it has one.
fn add_source<'a, 'p: 'a>(needed: &mut Needed<'a>, source: Option<Str<'p>>) -> Result<(), Fault>
    ensures added { OnOk result (needed.new ≡ with_names needed.old (if_any (λ t. OfText t ∷ []) (option_map view.str source.entry))) }
    ensures memory { IsOkUnless result memory }
{
    match source {
        Some(text) => needed.add_string(text),
        None => Ok(()),
    }
}

/// Adds the names that a class mentions, but its own members and what its instructions name.
fn add_class<'a, 'p: 'a>(
    needed: &mut Needed<'a>,
    arena: &'a Bump,
    class: &Class<'p>,
) -> Result<(), Fault>
    requires { AllByRecursion HasShorty (names_of_class (view.class class.now)) }
    ensures added { OnOk result (needed.new ≡ with_names needed.old (other_names (view.class class.now))) }
    ensures memory { IsOkUnless result memory }
{
    add_superclass(needed, class.superclass)?;
    add_types(needed, class.interfaces)?;
    add_source(needed, class.source)?;
    add_values(needed, arena, class.values)?;
    add_all_caught(needed, class.directs)?;
    add_all_caught(needed, class.virtuals)
}

/// Adds the names that classes mention, but their own members and what instructions name.
fn add_classes<'a, 'p: 'a>(
    needed: &mut Needed<'a>,
    arena: &'a Bump,
    classes: &[Class<'p>],
) -> Result<(), Fault>
    requires { AllByRecursion HasShorty (flat_map names_of_class (map view.class classes.now)) }
    ensures added { OnOk result (needed.new ≡ with_names needed.old (flat_map other_names (map view.class classes.now))) }
    ensures memory { IsOkUnless result memory }
{
    for class in classes {
        add_class(needed, arena, class)?;
    }
    Ok(())
}

/// Notes what the instructions of methods name.
fn note_bodies<'a, 'p: 'a>(
    noted: &mut Noted<'a>,
    arena: &'a Bump,
    methods: &[Method<'p>],
) -> Result<(), Fault>
    requires { AllByRecursion HasShorty (flat_map named_in_body (map view.method methods.now)) }
    ensures added { OnOk result (AddsNoted noted.old noted.new (flat_map named_in_body (map view.method methods.now))) }
    ensures memory { IsOkUnless result memory }
{
    for method in methods {
        note_body(noted, arena, method.code)?;
    }
    Ok(())
}

/// Notes what the instructions of a class name.
fn note_class<'a, 'p: 'a>(
    noted: &mut Noted<'a>,
    arena: &'a Bump,
    class: &Class<'p>,
) -> Result<(), Fault>
    requires { AllByRecursion HasShorty (named_in_class (view.class class.now)) }
    ensures added { OnOk result (AddsNoted noted.old noted.new (named_in_class (view.class class.now))) }
    ensures memory { IsOkUnless result memory }
{
    note_bodies(noted, arena, class.directs)?;
    note_bodies(noted, arena, class.virtuals)
}

/// Notes what the instructions of classes name.
fn note_classes<'a, 'p: 'a>(
    noted: &mut Noted<'a>,
    arena: &'a Bump,
    classes: &[Class<'p>],
) -> Result<(), Fault>
    requires { AllByRecursion HasShorty (named_in_code (map view.class classes.now)) }
    ensures added { OnOk result (AddsNoted noted.old noted.new (named_in_code (map view.class classes.now))) }
    ensures memory { IsOkUnless result memory }
{
    for class in classes {
        note_class(noted, arena, class)?;
    }
    Ok(())
}

/// Adds the members that classes define, and notes them.
fn note_members<'a, 'p: 'a>(
    noted: &mut Noted<'a>,
    arena: &'a Bump,
    classes: &[Class<'p>],
) -> Result<(), Fault>
    requires { AllByRecursion HasShorty (flat_map own_names (map view.class classes.now)) }
    ensures added { OnOk result (sets noted.new.names ≡ with_names (sets noted.old.names) (flat_map own_names (map view.class classes.now))) }
    ensures noted { OnOk result ((before : List content.Name) → AreNoted noted.old before → AreNoted noted.new (before ++ defined_in (map view.class classes.now))) }
    ensures memory { IsOkUnless result memory }
{
    for class in classes {
        noted.add_members_of(arena, class)?;
    }
    Ok(())
}

/// The names that a program needs, with their ranks; and the ranks of what its instructions name, in the order in which its
/// bodies are written, and then those of the members that its classes define, in the order of class data. The arena holds
/// the shorties; hashes begin with the seed.
///
/// The types in the prototypes of the methods that it mentions have to be descriptors. It fails only when out of memory.
pub fn needed_names<'a, 'p: 'a>(
    alloc: Global,
    seed: Seed,
    arena: &'a Bump,
    program: &Program<'p>,
) -> Result<(Ranks<'a>, Vec<usize>), Fault>
    requires { AllByRecursion HasShorty (mentions (view.program program.now)) }
    ensures ok { IfOk result (λ r. r.0 ≡ needed (view.program program.now)) }
    ensures ranks { IfOk result (λ r. AreRanks r.0 (named_in_code (view.program program.now) ++ defined_in (view.program program.now)) r.1.items) }
    ensures memory { IsOkUnless result memory }
{
    gathered(alloc, seed, arena, program)
}

/// The names of each class, gathered and frozen: those that are noted last.
fn gathered<'a, 'p: 'a>(
    alloc: Global,
    seed: Seed,
    arena: &'a Bump,
    program: &Program<'p>,
) -> Result<(Ranks<'a>, Vec<usize>), Fault>
    requires { AllByRecursion HasShorty (mentions (view.program program.now)) }
    ensures ok { IfOk result (λ r. r.0 ≡ needed (view.program program.now)) }
    ensures ranks { IfOk result (λ r. AreRanks r.0 (named_in_code (view.program program.now) ++ defined_in (view.program program.now)) r.1.items) }
    ensures memory { IsOkUnless result memory }
{
    let mut names = Needed::seeded(alloc, seed);
    names.holds_parts();
    add_classes(&mut names, arena, program.classes)?;
    let mut noted = names.noting();
    note_classes(&mut noted, arena, program.classes)?;
    note_members(&mut noted, arena, program.classes)?;
    noted.freeze()
}
