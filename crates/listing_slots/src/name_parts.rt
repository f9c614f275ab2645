//! The parts of names, each in the arena once.

ghost use Rattle.std.specs.Prelude.{◌≡◌, map, Contains, [], IfOk, IsOkUnless};
ghost use Rattle.dex_base.specs.Fault.{memory};
ghost use Rattle.program_types.specs.View.{str, desc, proto, field_ref, method_ref};

use bumpalo::Bump;
use bumpalo::collections::into_bump_slice;
use dex_base::{Fault, Seed};
use indexmap::IndexSet;
use program_types::{Desc, FieldRef, MethodRef, Proto, Str};
use std::alloc::Global;

/// The texts of names in the arena, each once.
#[derive(Drop)]
struct Texts<'a> {
    held: IndexSet<Str<'a>, Seed>,
}

impl<'a> Texts<'a> {
    /// The text that is held and equal to this one, which is copied where there is none.
    fn text(&mut self, arena: &'a Bump, text: Str<'_>) -> Result<Str<'a>, Fault>
        ensures same { IfOk result (λ t. str t ≡ str text.entry) }
        ensures held { IfOk result (Contains self.new.held.keys) }
        ensures memory { IsOkUnless result memory }
    {
        if let Some(number) = self.held.get_index_of(&text) {
            return Ok(self.held.as_slice()[number]);
        }
        let copy = Str {
            units: arena.try_alloc_slice_copy(text.units)?,
        };
        self.held.insert(copy)?;
        Ok(copy)
    }

    /// The type whose text is held.
    fn ty(&mut self, arena: &'a Bump, ty: Desc<'_>) -> Result<Desc<'a>, Fault>
        ensures same { IfOk result (λ d. desc d ≡ desc ty.entry) }
        ensures memory { IsOkUnless result memory }
    {
        Ok(Desc {
            text: self.text(arena, ty.text)?,
        })
    }

    /// The types whose texts are held.
    fn types(&mut self, arena: &'a Bump, types: &[Desc<'_>]) -> Result<&'a [Desc<'a>], Fault>
        ensures same { IfOk result (λ ds. map desc ds.now ≡ map desc types.now) }
        ensures memory { IsOkUnless result memory }
    {
        let mut all = Vec::with_capacity(arena, types.len())?;
        for ty in types {
            all.push(self.ty(arena, *ty)?)?;
        }
        Ok(into_bump_slice(all))
    }
}

/// The texts and the prototypes of names in the arena, each once. Most names of a listing have parts of others: a
/// field or a method the class, the types, often the name. So a name is read aside, and what is stored of it are parts that
/// are held; only a part that isn't is copied.
#[derive(Drop)]
pub(crate) struct NameParts<'a> {
    texts: Texts<'a>,
    protos: IndexSet<&'a Proto<'a>, Seed>,
}

impl<'a> NameParts<'a> {
    /// No part. Hashes begin with the seed.
    pub(crate) fn new(alloc: Global, seed: Seed) -> Self
        ensures texts { result.texts.held.keys ≡ [] }
        ensures protos { result.protos.keys ≡ [] }
    {
        NameParts {
            texts: Texts {
                held: IndexSet::with_hasher(alloc, seed),
            },
            protos: IndexSet::with_hasher(alloc, seed),
        }
    }

    /// The member's name that is held.
    pub(crate) fn member(&mut self, arena: &'a Bump, name: Str<'_>) -> Result<Str<'a>, Fault>
        ensures same { IfOk result (λ s. str s ≡ str name.entry) }
        ensures memory { IsOkUnless result memory }
    {
        self.texts.text(arena, name)
    }

    /// The type whose text is held.
    pub(crate) fn ty(&mut self, arena: &'a Bump, ty: Desc<'_>) -> Result<Desc<'a>, Fault>
        ensures same { IfOk result (λ d. desc d ≡ desc ty.entry) }
        ensures memory { IsOkUnless result memory }
    {
        self.texts.ty(arena, ty)
    }

    /// The prototype that is held and equal to this one, which is stored where there is none.
    pub(crate) fn proto(&mut self, arena: &'a Bump, one: &Proto<'_>) -> Result<&'a Proto<'a>, Fault>
        ensures same { IfOk result (λ p. proto p.now ≡ proto one.now) }
        ensures held { IfOk result (Contains self.new.protos.keys) }
        ensures memory { IsOkUnless result memory }
    {
        if let Some(number) = self.protos.get_index_of(&one) {
            return Ok(self.protos.as_slice()[number]);
        }
        let copy = Proto {
            ret: self.texts.ty(arena, one.ret)?,
            params: self.texts.types(arena, one.params)?,
        };
        let copy: &'a Proto<'a> = arena.try_alloc(copy)?;
        self.protos.insert(copy)?;
        Ok(copy)
    }

    /// The field, stored with parts that are held.
    pub(crate) fn field(
        &mut self,
        arena: &'a Bump,
        one: FieldRef<'_>,
    ) -> Result<&'a FieldRef<'a>, Fault>
        ensures same { IfOk result (λ f. field_ref f.now ≡ field_ref one.entry) }
        ensures memory { IsOkUnless result memory }
    {
        let stored = FieldRef {
            class: self.texts.ty(arena, one.class)?,
            name: self.texts.text(arena, one.name)?,
            ty: self.texts.ty(arena, one.ty)?,
        };
        Ok(arena.try_alloc(stored)?)
    }

    /// The method, stored with parts that are held.
    pub(crate) fn method(
        &mut self,
        arena: &'a Bump,
        one: MethodRef<'_>,
    ) -> Result<&'a MethodRef<'a>, Fault>
        ensures same { IfOk result (λ m. method_ref m.now ≡ method_ref one.entry) }
        ensures memory { IsOkUnless result memory }
    {
        let stored = MethodRef {
            class: self.texts.ty(arena, one.class)?,
            name: self.texts.text(arena, one.name)?,
            proto: self.proto(arena, one.proto)?,
        };
        Ok(arena.try_alloc(stored)?)
    }
}
