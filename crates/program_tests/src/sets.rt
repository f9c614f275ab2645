//! Names of two arenas that say the same are one member of a set.

use bumpalo::Bump;
use dex_base::Fault;
use dex_samples::{Case, all_hold, field, method, proto, text, ty};
use indexmap::IndexSet;
use std::alloc::Global;
use std::hash::Hash;
use std::test::Fail;

/// Whether of three names, added in turn, the second is the first one, and the third another member of the set.
fn is_added_once<N: Copy + Eq + Hash>(
    set: &mut IndexSet<N>,
    one: N,
    twin: N,
    other: N,
) -> Result<bool, Fault> {
    let (first, _) = set.insert_full(one)?;
    let (second, _) = set.insert_full(twin)?;
    let (third, _) = set.insert_full(other)?;
    Ok(first == 0 && second == 0 && third == 1 && set.len() == 2)
}

fn is_kept_once<N: Copy + Eq + Hash>(
    alloc: Global,
    one: N,
    twin: N,
    other: N,
) -> Result<bool, Fault> {
    let mut set = IndexSet::new(alloc);
    is_added_once(&mut set, one, twin, other)
}

fn is_string_kept_once(alloc: Global, here: &Bump, there: &Bump) -> Result<bool, Fault> {
    let (one, twin, other) = (text(here, "m")?, text(there, "m")?, text(there, "n")?);
    is_kept_once(alloc, one, twin, other)
}

fn is_type_kept_once(alloc: Global, here: &Bump, there: &Bump) -> Result<bool, Fault> {
    let (one, twin, other) = (ty(here, "LA;")?, ty(there, "LA;")?, ty(there, "[LA;")?);
    is_kept_once(alloc, one, twin, other)
}

fn is_prototype_kept_once(alloc: Global, here: &Bump, there: &Bump) -> Result<bool, Fault> {
    let one = proto(here, "V", &["I", "LA;"])?;
    let twin = proto(there, "V", &["I", "LA;"])?;
    let other = proto(there, "V", &["I"])?;
    is_kept_once(alloc, *one, *twin, *other)
}

fn is_field_kept_once(alloc: Global, here: &Bump, there: &Bump) -> Result<bool, Fault> {
    let one = field(here, "LA;", "x", "I")?;
    let twin = field(there, "LA;", "x", "I")?;
    let other = field(there, "LA;", "x", "J")?;
    is_kept_once(alloc, *one, *twin, *other)
}

fn is_method_kept_once(alloc: Global, here: &Bump, there: &Bump) -> Result<bool, Fault> {
    let one = method(here, "LA;", "m", "V", &[])?;
    let twin = method(there, "LA;", "m", "V", &[])?;
    let other = method(there, "LA;", "m", "I", &[])?;
    is_kept_once(alloc, *one, *twin, *other)
}

/// A kind of names.
#[derive(Clone, Copy)]
enum Kept {
    String,
    Type,
    Prototype,
    Field,
    Method,
}

fn is_name_kept_once(alloc: Global, here: &Bump, there: &Bump, kind: Kept) -> Result<bool, Fault> {
    match kind {
        Kept::String => is_string_kept_once(alloc, here, there),
        Kept::Type => is_type_kept_once(alloc, here, there),
        Kept::Prototype => is_prototype_kept_once(alloc, here, there),
        Kept::Field => is_field_kept_once(alloc, here, there),
        Kept::Method => is_method_kept_once(alloc, here, there),
    }
}

impl Case for Kept {
    fn name(&self) -> &'static str {
        match self {
            Kept::String => "a string",
            Kept::Type => "a type",
            Kept::Prototype => "a prototype",
            Kept::Field => "a field",
            Kept::Method => "a method",
        }
    }

    fn holds(&self, alloc: Global) -> Result<bool, Fault> {
        let (here, there) = (Bump::new(alloc), Bump::new(alloc));
        is_name_kept_once(alloc, &here, &there, *self)
    }
}

#[test]
fn a_name_of_each_kind_is_kept_once(rt: HostRuntime) -> Result<(), Fail> {
    static CASES: [Kept; 5] = [
        Kept::String,
        Kept::Type,
        Kept::Prototype,
        Kept::Field,
        Kept::Method,
    ];
    all_hold(rt.alloc(), &CASES)
}
