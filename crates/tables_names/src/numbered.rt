//! Names of all five kinds in the order of first need, and beside each the numbers of its parts.
//!
//! A name is added after its parts, so their numbers are known then, and no part is looked up again to sort a kind or to
//! write its rows.
ghost use Rattle.std.specs.Prelude.{◌≡◌, OnOk, OnErr, IfOk, IsOkUnless, All, map, false};
ghost use Rattle.std.specs.List.{AllZip};
ghost use Rattle.dex_base.specs.Fault.{memory};
ghost use Rattle.dex_base.specs.Descriptor.{IsDescriptor};
ghost use Rattle.program_types.specs.Content.{OfText, OfDesc, OfField, OfMethod};
ghost use Rattle.program_types.specs.View.{str, desc, proto, field_ref, method_ref, method};
ghost use Rattle.program_types.specs.View as view;
ghost use Rattle.tables_names.specs.Keys.{key_of_str, key_of_desc, key_of_proto, key_of_field, key_of_method};
ghost use Rattle.tables_names.specs.Rank.{is_member, IsAt};
ghost use Rattle.tables_names.specs.Closure.{nothing, with_name, with_proto, with_parts, with_proto_parts, AddsPart, HasShorty};
ghost use Rattle.tables_names.specs.Noted.{NumberIs};
ghost use Rattle.tables_names.specs.inner.Noted.{HasRanks};
ghost use Rattle.tables_names.specs.Numbers.{sets, set_of, AllGrow, RanksOf, TypeAt, ProtoAt, FieldAt, MethodAt};
ghost use Rattle.tables_names.specs.inner.Numbers.{InOrderOfNeed, FieldLeads, MethodLeads};

use crate::name_set::{NameSet, NamesWithParts};
use crate::noted::{Number, RankOf};
use crate::parts::{FieldParts, MethodParts, ProtoParts, TypeParts};
use crate::ranks::Ranks;
use crate::sorting::{Members, Parts, sorted_by, sorted_strings};
use bumpalo::Bump;
use dex_base::{Fault, Seed};
use program_types::{Desc, FieldRef, Method, MethodRef, Name, Proto, Str, shorty_of};
use std::alloc::{AllocError, Global};
use std::marker::Model;

/// Names of each of the five kinds, with each name its parts. Its model is the lists and the numbers
/// (`specs/Numbers.antt`).
///
/// A name for which memory ran out may have left some of its parts; all that was held is held.
pub(crate) struct NumberedNames<'a> {
    alloc: Global,
    strings: NameSet<Str<'a>>,
    types: NamesWithParts<Desc<'a>, TypeParts>,
    protos: NamesWithParts<Proto<'a>, ProtoParts>,
    fields: NamesWithParts<FieldRef<'a>, FieldParts>,
    methods: NamesWithParts<MethodRef<'a>, MethodParts>,
}

// As that of `NameSet`.
impl<'a> Drop for NumberedNames<'a> {
    fn drop(self) {
        let NumberedNames {
            alloc: _,
            strings: _,
            types: _,
            protos: _,
            fields: _,
            methods: _,
        } = self;
    }
}

impl<'a> Model for NumberedNames<'a> {
    ghost use Rattle.tables_names.specs.Numbers.{Order};
    ghost use Rattle.tables_names.specs.inner.Numbers.{InOrderOfNeed};

    ghost Value = { Order };

    ghost view = { λ n. record {
      names = record { strings = n.strings; types = n.types.names; protos = n.protos.names; fields = n.fields.names; methods = n.methods.names };
      types = n.types.parts.items;
      protos = n.protos.parts.items;
      fields = n.fields.parts.items;
      methods = n.methods.parts.items;
    } };

    ghost invariant = { λ n. InOrderOfNeed record {
      names = record { strings = n.strings; types = n.types.names; protos = n.protos.names; fields = n.fields.names; methods = n.methods.names };
      types = n.types.parts.items;
      protos = n.protos.parts.items;
      fields = n.fields.parts.items;
      methods = n.methods.parts.items;
    } };
}

#[tactic(auto, unfolding(crate::specs::Closure::with_name, crate::specs::Closure::with_proto, crate::specs::Closure::with_parts, crate::specs::Closure::with_proto_parts))]
impl<'a> NumberedNames<'a> {
    /// No name. Takes no memory.
    pub(crate) fn new(alloc: Global, seed: Seed) -> Self
        ensures { result.names ≡ nothing }
    {
        NumberedNames {
            alloc,
            strings: NameSet::new(alloc, seed),
            types: NamesWithParts::new(alloc, seed),
            protos: NamesWithParts::new(alloc, seed),
            fields: NamesWithParts::new(alloc, seed),
            methods: NamesWithParts::new(alloc, seed),
        }
    }

    /// What its memory comes from.
    pub(crate) fn allocator(&self) -> Global {
        self.alloc
    }

    /// Beside each name its parts are held, and their numbers.
    pub(crate) fn has_parts(&self)
        ensures { InOrderOfNeed self.now }
    {
        // Only for the proof: what holds of each value of its type.
        let _ = &self.strings;
    }

    /// Adds a string, and gives its number, as the other additions do.
    pub(crate) fn add_string(&mut self, name: Str<'a>) -> Result<usize, AllocError>
        ensures added { OnOk result (sets self.new.names ≡ with_name (sets self.old.names) (OfText (str name.entry))) }
        ensures number { IfOk result (λ n. IsAt self.new.names.strings n (key_of_str name.entry)) }
        ensures grows { AllGrow self.old.names self.new.names }
        ensures unchanged { OnErr result (self.new ≡ self.old) }
    {
        let number = self.strings.add(name)?;
        Ok(number)
    }

    /// Adds a type, and its descriptor as a string.
    pub(crate) fn add_type(&mut self, name: Desc<'a>) -> Result<usize, AllocError>
        ensures added { OnOk result (sets self.new.names ≡ with_name (sets self.old.names) (OfDesc (desc name.entry))) }
        ensures number { IfOk result (λ n. IsAt self.new.names.types n (key_of_desc name.entry)) }
        ensures grows { AllGrow self.old.names self.new.names }
        ensures partly { OnErr result (AddsPart (sets self.old.names) (sets self.new.names) (with_parts (sets self.old.names) (OfDesc (desc name.entry)))) }
    {
        if let Some(number) = self.types.names.number_of(&name) {
            return Ok(number);
        }
        let text = self.add_string(name.text)?;
        let number = self.types.add(name, TypeParts { text })?;
        Ok(number)
    }

    /// Adds a prototype, its shorty, its return type and its parameters. The arena holds the shorty, which is spelled only
    /// where the prototype isn't held yet.
    pub(crate) fn add_proto(&mut self, arena: &'a Bump, name: &Proto<'a>) -> Result<usize, Fault>
        requires ret { IsDescriptor (desc name.now.ret) }
        requires params { All IsDescriptor (map desc name.now.params.now) }
        ensures added { OnOk result (sets self.new.names ≡ with_proto (sets self.old.names) (proto name.now)) }
        ensures number { IfOk result (λ n. IsAt self.new.names.protos n (key_of_proto name.now)) }
        ensures grows { AllGrow self.old.names self.new.names }
        ensures partly { OnErr result (AddsPart (sets self.old.names) (sets self.new.names) (with_proto_parts (sets self.old.names) (proto name.now))) }
        ensures memory { IsOkUnless result memory }
    {
        if let Some(number) = self.protos.names.number_of(name) {
            return Ok(number);
        }
        self.add_string(shorty_of(self.alloc, arena, name.ret, name.params)?)?;
        let ret = self.add_type(name.ret)?;
        for param in name.params {
            self.add_type(*param)?;
        }
        let number = self.protos.add(*name, ProtoParts { ret })?;
        Ok(number)
    }

    /// Adds a method, its class, its name and its prototype. The arena holds the shorty.
    pub(crate) fn add_method(
        &mut self,
        arena: &'a Bump,
        name: &MethodRef<'a>,
    ) -> Result<usize, Fault>
        requires ret { IsDescriptor (desc name.now.proto.now.ret) }
        requires params { All IsDescriptor (map desc name.now.proto.now.params.now) }
        ensures added { OnOk result (sets self.new.names ≡ with_name (sets self.old.names) (OfMethod (method_ref name.now))) }
        ensures number { IfOk result (λ n. IsAt self.new.names.methods n (key_of_method name.now)) }
        ensures grows { AllGrow self.old.names self.new.names }
        ensures partly { OnErr result (AddsPart (sets self.old.names) (sets self.new.names) (with_parts (sets self.old.names) (OfMethod (method_ref name.now)))) }
        ensures memory { IsOkUnless result memory }
    {
        if let Some(number) = self.methods.names.number_of(name) {
            return Ok(number);
        }
        let class = self.add_type(name.class)?;
        self.put_method(arena, class, name)
    }

    /// Adds a field, its class, its name and its type.
    pub(crate) fn add_field(&mut self, name: &FieldRef<'a>) -> Result<usize, AllocError>
        ensures added { OnOk result (sets self.new.names ≡ with_name (sets self.old.names) (OfField (field_ref name.now))) }
        ensures number { IfOk result (λ n. IsAt self.new.names.fields n (key_of_field name.now)) }
        ensures grows { AllGrow self.old.names self.new.names }
        ensures partly { OnErr result (AddsPart (sets self.old.names) (sets self.new.names) (with_parts (sets self.old.names) (OfField (field_ref name.now)))) }
    {
        if let Some(number) = self.fields.names.number_of(name) {
            return Ok(number);
        }
        let class = self.add_type(name.class)?;
        self.put_field(class, name)
    }

    /// Adds a field of the class with this number, its name and its type.
    pub(crate) fn add_field_in(
        &mut self,
        class: usize,
        name: &FieldRef<'a>,
    ) -> Result<usize, AllocError>
        requires { IsAt self.old.names.types class (key_of_desc name.now.class) }
        ensures added { OnOk result (sets self.new.names ≡ with_name (sets self.old.names) (OfField (field_ref name.now))) }
        ensures number { IfOk result (λ n. IsAt self.new.names.fields n (key_of_field name.now)) }
        ensures grows { AllGrow self.old.names self.new.names }
        ensures partly { OnErr result (AddsPart (sets self.old.names) (sets self.new.names) (with_parts (sets self.old.names) (OfField (field_ref name.now)))) }
    {
        if let Some(number) = self.fields.names.number_of(name) {
            return Ok(number);
        }
        self.put_field(class, name)
    }

    /// Adds a field that is new, without looking it up again.
    fn put_field(&mut self, class: usize, name: &FieldRef<'a>) -> Result<usize, AllocError>
        requires class { IsAt self.old.names.types class (key_of_desc name.now.class) }
        requires absent { is_member self.old.names.fields (key_of_field name.now) ≡ false }
        ensures added { OnOk result (sets self.new.names ≡ with_name (sets self.old.names) (OfField (field_ref name.now))) }
        ensures number { IfOk result (λ n. IsAt self.new.names.fields n (key_of_field name.now)) }
        ensures grows { AllGrow self.old.names self.new.names }
        ensures partly { OnErr result (AddsPart (sets self.old.names) (sets self.new.names) (with_parts (sets self.old.names) (OfField (field_ref name.now)))) }
    {
        self.has_parts();
        let text = self.add_string(name.name)?;
        let ty = self.add_type(name.ty)?;
        let parts = FieldParts {
            class,
            name: text,
            ty,
        };
        let number = self.fields.add(*name, parts)?;
        Ok(number)
    }

    /// Adds a method of the class with this number, its name and its prototype.
    pub(crate) fn add_method_in(
        &mut self,
        arena: &'a Bump,
        class: usize,
        name: &MethodRef<'a>,
    ) -> Result<usize, Fault>
        requires class { IsAt self.old.names.types class (key_of_desc name.now.class) }
        requires ret { IsDescriptor (desc name.now.proto.now.ret) }
        requires params { All IsDescriptor (map desc name.now.proto.now.params.now) }
        ensures added { OnOk result (sets self.new.names ≡ with_name (sets self.old.names) (OfMethod (method_ref name.now))) }
        ensures number { IfOk result (λ n. IsAt self.new.names.methods n (key_of_method name.now)) }
        ensures grows { AllGrow self.old.names self.new.names }
        ensures partly { OnErr result (AddsPart (sets self.old.names) (sets self.new.names) (with_parts (sets self.old.names) (OfMethod (method_ref name.now)))) }
        ensures memory { IsOkUnless result memory }
    {
        if let Some(number) = self.methods.names.number_of(name) {
            return Ok(number);
        }
        self.put_method(arena, class, name)
    }

    /// Adds a method that is new, without looking it up again.
    fn put_method(
        &mut self,
        arena: &'a Bump,
        class: usize,
        name: &MethodRef<'a>,
    ) -> Result<usize, Fault>
        requires class { IsAt self.old.names.types class (key_of_desc name.now.class) }
        requires ret { IsDescriptor (desc name.now.proto.now.ret) }
        requires params { All IsDescriptor (map desc name.now.proto.now.params.now) }
        requires absent { is_member self.old.names.methods (key_of_method name.now) ≡ false }
        ensures added { OnOk result (sets self.new.names ≡ with_name (sets self.old.names) (OfMethod (method_ref name.now))) }
        ensures number { IfOk result (λ n. IsAt self.new.names.methods n (key_of_method name.now)) }
        ensures grows { AllGrow self.old.names self.new.names }
        ensures partly { OnErr result (AddsPart (sets self.old.names) (sets self.new.names) (with_parts (sets self.old.names) (OfMethod (method_ref name.now)))) }
        ensures memory { IsOkUnless result memory }
    {
        self.has_parts();
        let text = self.add_string(name.name)?;
        let proto = self.add_proto(arena, name.proto)?;
        let parts = MethodParts {
            class,
            name: text,
            proto,
        };
        let number = self.methods.add(*name, parts)?;
        Ok(number)
    }

    /// Adds a name of any kind, with its parts. The arena holds a method's shorty.
    pub(crate) fn add_name(&mut self, arena: &'a Bump, name: Name<'a>) -> Result<Number, Fault>
        requires { HasShorty (view.name name) }
        ensures added { OnOk result (sets self.new.names ≡ with_name (sets self.old.names) (view.name name.entry)) }
        ensures number { IfOk result (λ n. NumberIs self.new.names (view.name name.entry) n) }
        ensures grows { AllGrow self.old.names self.new.names }
        ensures partly { OnErr result (AddsPart (sets self.old.names) (sets self.new.names) (with_parts (sets self.old.names) (view.name name.entry))) }
        ensures memory { IsOkUnless result memory }
    {
        match name {
            Name::Text(text) => Ok(Number::Text(self.add_string(text)?)),
            Name::Desc(desc) => Ok(Number::Desc(self.add_type(desc)?)),
            Name::Field(field) => Ok(Number::Field(self.add_field(field)?)),
            Name::Method(method) => Ok(Number::Method(self.add_method(arena, method)?)),
        }
    }

    /// The names with their ranks, and of each name, by its number, the rank. Fails only when out of memory.
    pub(crate) fn freeze(self) -> Result<(Ranks<'a>, RankOf), AllocError>
        ensures same { IfOk result (λ r. r.0 ≡ sets self.entry.names) }
        ensures ranks { IfOk result (λ r. HasRanks self.entry.names r.0 r.1) }
    {
        let NumberedNames {
            alloc,
            strings,
            types,
            protos,
            fields,
            methods,
        } = self;
        let parts = ranked_parts(alloc, strings, types, protos)?;
        let members = ranked_members(alloc, &parts, fields, methods)?;
        Ok(Ranks::from_sorted(parts, members))
    }
}

/// Three kinds with their ranks.
fn ranked_parts<'a>(
    alloc: Global,
    strings: NameSet<Str<'a>>,
    types: NamesWithParts<Desc<'a>, TypeParts>,
    protos: NamesWithParts<Proto<'a>, ProtoParts>,
) -> Result<Parts<'a>, AllocError>
    requires types { AllZip (TypeAt strings) types.names types.parts.items }
    requires protos { AllZip (ProtoAt types.names) protos.names protos.parts.items }
    ensures names { IfOk result (λ r. (r.strings.names ≡ set_of strings.entry) × (r.types.table.names ≡ set_of types.entry.names) × (r.protos.table.names ≡ set_of protos.entry.names)) }
    ensures ranks { IfOk result (λ r. RanksOf strings.entry r.strings.names r.strings.ranks.items × RanksOf types.entry.names r.types.table.names r.types.ranks.items × RanksOf protos.entry.names r.protos.table.names r.protos.ranks.items) }
    ensures rows { IfOk result (λ r. AllZip (TypeAt r.strings.names) r.types.table.names r.types.table.parts.items × AllZip (ProtoAt r.types.table.names) r.protos.table.names r.protos.table.parts.items) }
{
    let strings = sorted_strings(alloc, strings)?;
    strings.names.rises();
    let types = sorted_by(alloc, types, &strings)?;
    types.table.names.rises();
    let protos = sorted_by(alloc, protos, &types)?;
    Ok(Parts {
        strings,
        types,
        protos,
    })
}

/// Two kinds with their ranks.
fn ranked_members<'a>(
    alloc: Global,
    parts: &Parts<'a>,
    fields: NamesWithParts<FieldRef<'a>, FieldParts>,
    methods: NamesWithParts<MethodRef<'a>, MethodParts>,
) -> Result<Members<'a>, AllocError>
    requires fields { AllZip (FieldLeads parts.now.types.table.names parts.now.types.ranks.items parts.now.strings.names parts.now.strings.ranks.items) fields.names fields.parts.items }
    requires methods { AllZip (MethodLeads parts.now.types.table.names parts.now.types.ranks.items parts.now.strings.names parts.now.strings.ranks.items parts.now.protos.table.names parts.now.protos.ranks.items) methods.names methods.parts.items }
    ensures names { IfOk result (λ r. (r.fields.table.names ≡ set_of fields.entry.names) × (r.methods.table.names ≡ set_of methods.entry.names)) }
    ensures ranks { IfOk result (λ r. RanksOf fields.entry.names r.fields.table.names r.fields.ranks.items × RanksOf methods.entry.names r.methods.table.names r.methods.ranks.items) }
    ensures rows { IfOk result (λ r. AllZip (FieldAt parts.now.types.table.names parts.now.strings.names) r.fields.table.names r.fields.table.parts.items × AllZip (MethodAt parts.now.types.table.names parts.now.strings.names parts.now.protos.table.names) r.methods.table.names r.methods.table.parts.items) }
{
    parts.strings.names.rises();
    parts.types.table.names.rises();
    parts.protos.table.names.rises();
    let fields = sorted_by(alloc, fields, parts)?;
    let methods = sorted_by(alloc, methods, parts)?;
    Ok(Members { fields, methods })
}
