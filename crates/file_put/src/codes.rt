//! Bodies.
//! Page: "Dalvik Executable format", "code_item".
ghost use Rattle.std.specs.Prelude.{◌≡◌, ℕ, ◌+◌, ◌<◌, ◌≤◌, ◌^◌, ◌++◌, List, Option, Some, IfOk, OnOk, IsOkUnless, length, map, option_map, slice_get};
ghost use Rattle.std.specs.List.{AllByRecursion, flat_map};
ghost use Rattle.dex_base.specs.Fault.{memory};
ghost use Rattle.file_layout.specs.Sections.{wide_all};
ghost use Rattle.file_layout.specs.inner.Sections.{Laid};
ghost use Rattle.file_limits.specs.Wide.{bodies_in, bodies_of, wide_body};
ghost use Rattle.file_limits.specs.inner.Wide.{body_values};
ghost use Rattle.file_needed.specs.inner.Bodies.{defined_in, named_in_body, named_in_code};
ghost use Rattle.program_types.specs.Mentions.{if_any, names_of_insn};
ghost use Rattle.tables_names.specs.Closure.{NameRanks};
ghost use Rattle.tables_names.specs.Noted.{AreRanks};
ghost use Rattle.program_types.specs.Content as content;
ghost use Rattle.program_types.specs.View as view;
ghost use Rattle.file_put.specs.inner.Codes.{is_bodiless, PacksBody, WritesBody};
ghost use Rattle.file_put.specs.inner.Named.{BodyCanBePut};
ghost use Rattle.file_layout.specs.inner.Tiles.{AreShared};
ghost use Rattle.file_layout.specs.inner.Sharing.{Sharing, UsesItem};

use crate::placed::Placed;
use code_write::{make_item, mentions_in};
use dex_base::{Fault, are_bytes};
use file_layout::Items;
use program_types::{Code, Method, Program};
use std::alloc::Global;
use tables_names::Ranks;

/// How many names the instructions of a body have, if there is one.
fn named_in(body: Option<&Code<'_>>) -> usize
    ensures { result ≡ length (if_any (λ c. flat_map names_of_insn c.insns) (option_map (λ c. view.code c.now) body.entry)) }
{
    match body {
        Some(code) => mentions_in(code.insns),
        None => 0,
    }
}

/// Returns the offset of a body, 4-aligned, which is appended unless an equal one is there; 0 if there is none. The names of its
/// instructions have these indices.
fn add_body(
    alloc: Global,
    out: &mut Vec<u8>,
    items: &mut Items,
    ranks: &Ranks<'_>,
    indices: &[usize],
    body: Option<&Code<'_>>,
) -> Result<u32, Fault>
    requires indices { AreRanks ranks.now (if_any (λ c. flat_map names_of_insn c.insns) (option_map (λ c. view.code c.now) body)) indices.now }
    requires can { BodyCanBePut ranks.now (option_map (λ c. view.code c.now) body) }
    requires room { length out.old.items + wide_body (option_map (λ c. view.code c.now) body) < 2 ^ 32 }
    ensures ok { IfOk result (UsesItem is_bodiless (WritesBody ranks.now) 4 items.old items.new out.old.items out.new.items (option_map (λ c. view.code c.now) body.entry)) }
    ensures memory { IsOkUnless result memory }
{
    match body {
        None => Ok(0),
        Some(code) => {
            let item = make_item(alloc, ranks, indices, code)?;
            are_bytes(&item);
            Ok(items.put_aligned(out, item)?)
        }
    }
}

/// Returns the offsets of the bodies of methods, after others. Their names have the first of these indices; the others are returned.
fn put_bodies<'r>(
    alloc: Global,
    out: &mut Vec<u8>,
    items: &mut Items,
    ranks: &Ranks<'_>,
    indices: &'r [usize],
    methods: &[Method<'_>],
    places: &mut Vec<u32>,
) -> Result<&'r [usize], Fault>
    requires indices { (more : List content.Name) × AreRanks ranks.now (flat_map named_in_body (map view.method methods.now) ++ more) indices.now }
    requires can { AllByRecursion (BodyCanBePut ranks.now) (bodies_in (map view.method methods.now)) }
    requires room { length out.old.items + wide_all wide_body (bodies_in (map view.method methods.now)) < 2 ^ 32 }
    ensures ok { OnOk result ((old : List ℕ) (done rest all : List (Option content.Code)) → 0 < length old
        → Sharing is_bodiless (PacksBody (NameRanks ranks.now)) (WritesBody ranks.now) 4 wide_body old out.old.items done (bodies_in (map view.method methods.now) ++ rest) all places.old.items items.old
        → Sharing is_bodiless (PacksBody (NameRanks ranks.now)) (WritesBody ranks.now) 4 wide_body old out.new.items (done ++ bodies_in (map view.method methods.now)) rest all places.new.items items.new) }
    ensures left { IfOk result (λ left. (more : List content.Name) → AreRanks ranks.now (flat_map named_in_body (map view.method methods.now) ++ more) indices.now → AreRanks ranks.now more left.now) }
    ensures memory { IsOkUnless result memory }
{
    let mut rest = indices;
    for method in methods {
        let (own, others) = rest.split_at(named_in(method.code));
        let place = add_body(alloc, out, items, ranks, own, method.code)?;
        places.push(place)?;
        rest = others;
    }
    Ok(rest)
}

/// Appends the bodies of all methods, each 4-aligned: by class, direct methods, then virtual ones, equal bodies once. The names of
/// their instructions have the first of these indices, in this order, and the members that the classes define have those after
/// them. Returns the offset of each method's body, 0 for a method without one, and the indices of the members.
///
/// It fails only when out of memory.
pub(crate) fn put_codes<'r>(
    alloc: Global,
    out: &mut Vec<u8>,
    ranks: &Ranks<'_>,
    indices: &'r [usize],
    program: &Program<'_>,
) -> Result<(Placed, &'r [usize]), Fault>
    requires indices { AreRanks ranks.now (named_in_code (view.program program.now) ++ defined_in (view.program program.now)) indices.now }
    requires can { (i : ℕ) (c : _) → slice_get (view.program program.now) i ≡ Some c → AllByRecursion (BodyCanBePut ranks.now) (bodies_of c) }
    requires front { 0 < length out.old.items }
    requires room { length out.old.items + wide_all wide_body (body_values (view.program program.now)) < 2 ^ 32 }
    ensures ok { IfOk result (λ r. Laid is_bodiless (PacksBody (NameRanks ranks.now)) 4 wide_body out.old.items out.new.items (body_values (view.program program.now)) r.0.places.items r.0.items) }
    ensures once { IfOk result (λ r. AreShared r.0.places.items (body_values (view.program program.now))) }
    ensures left { IfOk result (λ r. AreRanks ranks.now (defined_in (view.program program.now)) r.1.now) }
    ensures memory { IsOkUnless result memory }
{
    ranks.rise();
    let mut items = Items::new(alloc, ranks.seed());
    let mut places = Vec::new(alloc);
    let mut rest = indices;
    for class in program.classes {
        let left = put_bodies(
            alloc,
            out,
            &mut items,
            ranks,
            rest,
            class.directs,
            &mut places,
        )?;
        rest = put_bodies(
            alloc,
            out,
            &mut items,
            ranks,
            left,
            class.virtuals,
            &mut places,
        )?;
    }
    let placed = Placed {
        places,
        items: items.count(),
    };
    Ok((placed, rest))
}
