//! The names that code mentions and that classes define, noted by their numbers, so that the writers of code and class data
//! look none of them up a second time ("Dalvik bytecode": the formats with an index, as 21c; "Dalvik Executable format":
//! encoded_field and encoded_method).
ghost use Rattle.std.specs.Prelude.{◌≡◌, ◌∷◌, ◌++◌, List, [], OnOk, OnErr, IfOk, IsOkUnless, All, map};
ghost use Rattle.std.specs.List.{AllByRecursion, AllZip};
ghost use Rattle.dex_base.specs.Fault.{memory};
ghost use Rattle.program_types.specs.Content as content;
ghost use Rattle.program_types.specs.Content.{OfDesc, OfField, OfMethod};
ghost use Rattle.dex_base.specs.Descriptor.{IsDescriptor};
ghost use Rattle.program_types.specs.Mentions.{field_of_class};
ghost use Rattle.program_types.specs.View as view;
ghost use Rattle.tables_names.specs.Closure.{AddsPart, HasShorty, method_of_class, with_name, with_names};
ghost use Rattle.tables_names.specs.Keys.{key_of_desc};
ghost use Rattle.tables_names.specs.Noted.{AddsNoted, AreNoted, AreRanks, Continues, NumberIs, members_of};
ghost use Rattle.tables_names.specs.inner.Noted.{rank_by};
ghost use Rattle.tables_names.specs.Numbers.{AllGrow, sets};
ghost use Rattle.tables_names.specs.Rank.{IsAt};

use crate::numbered::NumberedNames;
use crate::ranks::Ranks;
use crate::sorting::at;
use bumpalo::Bump;
use dex_base::Fault;
use program_types::{Class, Desc, FieldRef, Member, Method, MethodRef, Name};
use std::alloc::{AllocError, Global};
use std::marker::Model;

/// The number of a name among those of its kind, in the order of first need.
#[derive(Clone, Copy)]
pub(crate) enum Number {
    Text(usize),
    Desc(usize),
    Field(usize),
    Method(usize),
}

/// Of each name, by its number, the rank.
#[derive(Drop)]
pub(crate) struct RankOf {
    pub(crate) strings: Vec<usize>,
    pub(crate) types: Vec<usize>,
    pub(crate) fields: Vec<usize>,
    pub(crate) methods: Vec<usize>,
}

impl RankOf {
    /// The rank of the name with this number.
    fn rank(&self, number: Number) -> usize
        ensures { result ≡ rank_by self.now number }
    {
        match number {
            Number::Text(n) => at(&self.strings, n),
            Number::Desc(n) => at(&self.types, n),
            Number::Field(n) => at(&self.fields, n),
            Number::Method(n) => at(&self.methods, n),
        }
    }

    /// The ranks of the names with these numbers.
    fn ranks(&self, alloc: Global, numbers: &[Number]) -> Result<Vec<usize>, AllocError>
        ensures { IfOk result (λ ranks. ranks.items ≡ map (rank_by self.now) numbers.now) }
    {
        let mut ranks = Vec::with_capacity(alloc, numbers.len())?;
        for number in numbers {
            ranks.push(self.rank(*number))?;
        }
        Ok(ranks)
    }
}

/// Names that are needed, as in [`Needed`](crate::Needed), and notes of those that were mentioned. Its model is the lists of names
/// and the numbers of those that were mentioned (`specs/Noted.antt`).
#[derive(Drop)]
pub struct Noted<'a> {
    numbered: NumberedNames<'a>,
    numbers: Vec<Number>,
}

impl<'a> Model for Noted<'a> {
    ghost use Rattle.tables_names.specs.Noted.{Notes};

    ghost Value = { Notes };

    ghost view = { λ n. record { names = n.numbered.names; numbers = n.numbers.items } };
}

impl<'a> Noted<'a> {
    /// Names without a note.
    pub(crate) fn new(numbered: NumberedNames<'a>) -> Self
        ensures names { result.names ≡ numbered.entry.names }
        ensures numbers { result.numbers ≡ [] }
    {
        let numbers = Vec::new(numbered.allocator());
        Noted { numbered, numbers }
    }

    /// Adds a name that an instruction mentions, with its parts, and notes it after the others. The arena holds a method's
    /// shorty. Fails only when out of memory: what was held and noted is held and noted then, and beyond it at most the
    /// name and its parts have come, without a note.
    ///
    /// ```
    /// use bumpalo::Bump;
    /// use dex_program::{Name, Str};
    /// use dex_tables::Needed;
    ///
    /// let arena = Bump::new(alloc);
    /// let mut noted = Needed::new(alloc).noting();
    /// noted.add_name(&arena, Name::Text(Str { units: &[0x61] }))?; // a
    /// assert_eq!(rt; noted.freeze()?.1[0], 0);
    /// ```
    pub fn add_name(&mut self, arena: &'a Bump, name: Name<'a>) -> Result<(), Fault>
        requires { HasShorty (view.name name) }
        ensures added { OnOk result (sets self.new.names ≡ with_name (sets self.old.names) (view.name name.entry)) }
        ensures noted { OnOk result ((names : List content.Name) → AreNoted self.old names → AreNoted self.new (names ++ view.name name.entry ∷ [])) }
        ensures partly { OnErr result (AddsPart (sets self.old.names) (sets self.new.names) (with_name (sets self.old.names) (view.name name.entry))) }
        ensures stays { OnErr result ((names : List content.Name) → AreNoted self.old names → AreNoted self.new names) }
        ensures memory { IsOkUnless result memory }
    {
        let number = self.numbered.add_name(arena, name)?;
        self.numbers.push(number)?;
        Ok(())
    }

    /// Adds a class and the members that it defines, each with its parts but nothing of its code, and notes the members
    /// after the others: static fields, instance fields, direct methods, virtual ones. The arena holds the shorties. The
    /// class is looked up once. It fails only when out of memory: then all earlier names and notes are kept, and some of these
    /// names and of their parts may have been added, without a note.
    ///
    /// ```
    /// use bumpalo::Bump;
    /// use dex_program::{Class, Desc, Member, Str};
    /// use dex_tables::Needed;
    ///
    /// let arena = Bump::new(alloc);
    /// let int = Desc { text: Str { units: &[0x49] } }; // I
    /// let ty = Desc { text: Str { units: &[0x4c, 0x41, 0x3b] } }; // LA;
    /// let field = Member { name: Str { units: &[0x6e] }, ty: int, flags: 0 };
    /// let class = Class {
    ///     ty, flags: 1, superclass: None, interfaces: &[], source: None,
    ///     statics: &[field], instances: &[], directs: &[], virtuals: &[], values: &[],
    /// };
    /// let mut noted = Needed::new(alloc).noting();
    /// noted.add_members_of(&arena, &class)?; // LA;->n:I
    /// assert_eq!(rt; noted.freeze()?.1[0], 0);
    /// ```
    pub fn add_members_of<'p: 'a>(
        &mut self,
        arena: &'a Bump,
        class: &Class<'p>,
    ) -> Result<(), Fault>
        requires { AllByRecursion HasShorty (members_of (view.class class.now)) }
        ensures added { OnOk result (sets self.new.names ≡ with_names (sets self.old.names) (OfDesc (view.desc class.now.ty) ∷ members_of (view.class class.now))) }
        ensures noted { OnOk result ((names : List content.Name) → AreNoted self.old names → AreNoted self.new (names ++ members_of (view.class class.now))) }
        ensures partly { OnErr result (AddsPart (sets self.old.names) (sets self.new.names) (with_names (sets self.old.names) (OfDesc (view.desc class.now.ty) ∷ members_of (view.class class.now)))) }
        ensures stays { OnErr result ((names : List content.Name) → AreNoted self.old names → AreNoted self.new names) }
        ensures memory { IsOkUnless result memory }
    {
        let noted = self.numbers.len();
        match self.note_members_of(arena, class) {
            Ok(()) => Ok(()),
            Err(fault) => {
                self.numbers.truncate(noted);
                Err(fault)
            }
        }
    }

    /// As `add_members_of`, but after a refusal some of the members may be noted.
    fn note_members_of<'p: 'a>(&mut self, arena: &'a Bump, class: &Class<'p>) -> Result<(), Fault>
        requires { AllByRecursion HasShorty (members_of (view.class class.now)) }
        ensures added { OnOk result (sets self.new.names ≡ with_names (sets self.old.names) (OfDesc (view.desc class.now.ty) ∷ members_of (view.class class.now))) }
        ensures noted { OnOk result ((names : List content.Name) → AreNoted self.old names → AreNoted self.new (names ++ members_of (view.class class.now))) }
        ensures partly { OnErr result (AddsPart (sets self.old.names) (sets self.new.names) (with_names (sets self.old.names) (OfDesc (view.desc class.now.ty) ∷ members_of (view.class class.now)))) }
        ensures continues { Continues self.old self.new }
        ensures memory { IsOkUnless result memory }
    {
        let number = self.add_class(class.ty)?;
        self.note_fields(number, class.ty, class.statics)?;
        self.note_fields(number, class.ty, class.instances)?;
        self.note_methods(arena, number, class.ty, class.directs)?;
        self.note_methods(arena, number, class.ty, class.virtuals)
    }

    /// Adds the type of a class, without a note, and gives its number.
    fn add_class(&mut self, class: Desc<'a>) -> Result<usize, AllocError>
        ensures added { OnOk result (sets self.new.names ≡ with_name (sets self.old.names) (OfDesc (view.desc class.entry))) }
        ensures number { IfOk result (λ n. IsAt self.new.names.types n (key_of_desc class.entry)) }
        ensures partly { OnErr result (AddsPart (sets self.old.names) (sets self.new.names) (with_name (sets self.old.names) (OfDesc (view.desc class.entry)))) }
        ensures grows { AllGrow self.old.names self.new.names }
        ensures same { self.new.numbers ≡ self.old.numbers }
    {
        let number = self.numbered.add_type(class)?;
        Ok(number)
    }

    /// Adds a field of the class with this number, and notes it after the others.
    fn note_field(&mut self, number: usize, name: &FieldRef<'a>) -> Result<(), AllocError>
        requires { IsAt self.old.names.types number (key_of_desc name.now.class) }
        ensures added { OnOk result (AddsNoted self.old self.new (OfField (view.field_ref name.now) ∷ [])) }
        ensures partly { OnErr result (AddsPart (sets self.old.names) (sets self.new.names) (with_name (sets self.old.names) (OfField (view.field_ref name.now)))) }
        ensures continues { Continues self.old self.new }
    {
        let own = self.numbered.add_field_in(number, name)?;
        self.numbers.push(Number::Field(own))?;
        Ok(())
    }

    /// Adds fields of the class with this number, and notes them after the others.
    fn note_fields<'p: 'a>(
        &mut self,
        number: usize,
        class: Desc<'a>,
        fields: &[Member<'p>],
    ) -> Result<(), AllocError>
        requires { IsAt self.old.names.types number (key_of_desc class) }
        ensures added { OnOk result (AddsNoted self.old self.new (map (field_of_class (view.desc class.entry)) (map view.member fields.now))) }
        ensures partly { OnErr result (AddsPart (sets self.old.names) (sets self.new.names) (with_names (sets self.old.names) (map (field_of_class (view.desc class.entry)) (map view.member fields.now)))) }
        ensures continues { Continues self.old self.new }
    {
        for field in fields {
            let name = FieldRef {
                class,
                name: field.name,
                ty: field.ty,
            };
            self.note_field(number, &name)?;
        }
        Ok(())
    }

    /// Adds a method of the class with this number, and notes it after the others.
    fn note_method(
        &mut self,
        arena: &'a Bump,
        number: usize,
        name: &MethodRef<'a>,
    ) -> Result<(), Fault>
        requires class { IsAt self.old.names.types number (key_of_desc name.now.class) }
        requires ret { IsDescriptor (view.desc name.now.proto.now.ret) }
        requires params { All IsDescriptor (map view.desc name.now.proto.now.params.now) }
        ensures added { OnOk result (AddsNoted self.old self.new (OfMethod (view.method_ref name.now) ∷ [])) }
        ensures partly { OnErr result (AddsPart (sets self.old.names) (sets self.new.names) (with_name (sets self.old.names) (OfMethod (view.method_ref name.now)))) }
        ensures continues { Continues self.old self.new }
        ensures memory { IsOkUnless result memory }
    {
        let own = self.numbered.add_method_in(arena, number, name)?;
        self.numbers.push(Number::Method(own))?;
        Ok(())
    }

    /// Adds methods of the class with this number, and notes them after the others.
    fn note_methods<'p: 'a>(
        &mut self,
        arena: &'a Bump,
        number: usize,
        class: Desc<'a>,
        methods: &[Method<'p>],
    ) -> Result<(), Fault>
        requires class { IsAt self.old.names.types number (key_of_desc class) }
        requires shorties { AllByRecursion HasShorty (map (method_of_class (view.desc class)) (map view.method methods.now)) }
        ensures added { OnOk result (AddsNoted self.old self.new (map (method_of_class (view.desc class.entry)) (map view.method methods.now))) }
        ensures partly { OnErr result (AddsPart (sets self.old.names) (sets self.new.names) (with_names (sets self.old.names) (map (method_of_class (view.desc class.entry)) (map view.method methods.now)))) }
        ensures continues { Continues self.old self.new }
        ensures memory { IsOkUnless result memory }
    {
        for one in methods {
            let name = MethodRef {
                class,
                name: one.name,
                proto: one.proto,
            };
            self.note_method(arena, number, &name)?;
        }
        Ok(())
    }

    /// Returns the names with their ranks, and the ranks of those that were mentioned, in the order of mention. It fails only
    /// when out of memory, and then nothing is returned.
    pub fn freeze(self) -> Result<(Ranks<'a>, Vec<usize>), Fault>
        ensures same { IfOk result (λ r. r.0 ≡ sets self.entry.names) }
        ensures ranks { IfOk result (λ r. (names : List content.Name) → AreNoted self.entry names → AreRanks r.0 names r.1.items) }
        ensures memory { IsOkUnless result memory }
    {
        let Noted { numbered, numbers } = self;
        Ok(ranked(numbered, &numbers)?)
    }
}

/// The names with their ranks, and the ranks of those with these numbers.
fn ranked<'a>(
    numbered: NumberedNames<'a>,
    numbers: &[Number],
) -> Result<(Ranks<'a>, Vec<usize>), AllocError>
    ensures same { IfOk result (λ r. r.0 ≡ sets numbered.entry.names) }
    ensures ranks { IfOk result (λ r. (names : List content.Name) → AllZip (NumberIs numbered.entry.names) names numbers.now → AreRanks r.0 names r.1.items) }
{
    let alloc = numbered.allocator();
    let (ranks, rank_of) = numbered.freeze()?;
    let noted = rank_of.ranks(alloc, numbers)?;
    Ok((ranks, noted))
}
