//! The names that a program needs, of all five kinds, each with its parts ("Dalvik Executable format": the indices in
//! type_id_item, proto_id_item, field_id_item and method_id_item).
ghost use Rattle.std.specs.Prelude.{◌≡◌, [], OnOk, OnErr, IfOk, IsOkUnless, All, map};
ghost use Rattle.dex_base.specs.Fault.{memory};
ghost use Rattle.dex_base.specs.Descriptor.{IsDescriptor};
ghost use Rattle.program_types.specs.Content.{OfText, OfDesc, OfField, OfMethod};
ghost use Rattle.program_types.specs.View.{str, desc, proto, field_ref, method_ref, method};
ghost use Rattle.program_types.specs.View as view;
ghost use Rattle.tables_names.specs.Closure.{nothing, with_name, with_proto, with_parts, with_proto_parts, AddsPart, AreRising, IsClosed, HasShorty};
ghost use Rattle.tables_names.specs.Numbers.{sets};

use crate::noted::Noted;
use crate::numbered::NumberedNames;
use crate::ranks::Ranks;
use bumpalo::Bump;
use dex_base::{Fault, Seed};
use program_types::{Desc, FieldRef, Method, MethodRef, Name, Proto, Str};
use std::alloc::Global;
use std::marker::Model;

/// The names that are needed so far: a set of each of the five kinds, with each name its parts. Its model is the five sets
/// (`specs/Closure.antt`).
///
/// Each kind is kept in the order of first need and sorted once, by `freeze`. A name for which memory ran out
/// may have left some of its parts; all that was held is held.
#[derive(Drop)]
pub struct Needed<'a> {
    numbered: NumberedNames<'a>,
}

impl<'a> Model for Needed<'a> {
    ghost use Rattle.tables_names.specs.Closure.{Five};
    ghost use Rattle.tables_names.specs.Numbers.{sets};

    ghost Value = { Five };

    ghost view = { λ n. sets n.numbered.names };
}

#[tactic(auto, unfolding(crate::specs::Closure::with_name, crate::specs::Closure::with_proto, crate::specs::Closure::with_parts, crate::specs::Closure::with_proto_parts))]
impl<'a> Needed<'a> {
    /// No name. Takes no memory.
    ///
    /// ```
    /// use dex_tables::Needed;
    ///
    /// let ranks = Needed::new(alloc).freeze()?;
    /// assert!(rt; ranks.string(0).is_none());
    /// ```
    pub fn new(alloc: Global) -> Self
        ensures { result ≡ nothing }
    {
        Needed::seeded(alloc, Seed::fixed())
    }

    /// No name, as `new` has it; its hashes, those of the ranks and those of what is written by them begin with this seed. Where
    /// names are a stranger's it is one that he can't know.
    ///
    /// ```
    /// use dex_base::Seed;
    /// use dex_tables::Needed;
    ///
    /// let ranks = Needed::seeded(alloc, Seed::new(0x5eed)).freeze()?;
    /// assert!(rt; ranks.string(0).is_none());
    /// ```
    pub fn seeded(alloc: Global, seed: Seed) -> Self
        ensures { result ≡ nothing }
    {
        Needed {
            numbered: NumberedNames::new(alloc, seed),
        }
    }

    /// Beside each name its parts are held, and the names of each kind rise.
    pub fn holds_parts(&self)
        ensures closed { IsClosed self.now }
        ensures rise { AreRising self.now }
    {
        self.numbered.has_parts();
    }

    /// Adds a string. Fails only when out of memory, as all additions are: what was held is held then, and beyond it,
    /// where one name is added, at most parts of the name, never the name itself.
    ///
    /// ```
    /// use dex_program::Str;
    /// use dex_tables::Needed;
    ///
    /// let mut needed = Needed::new(alloc);
    /// needed.add_string(Str { units: &[0x61] })?; // a
    /// assert!(rt; needed.freeze()?.string(0).is_some());
    /// ```
    pub fn add_string(&mut self, name: Str<'a>) -> Result<(), Fault>
        ensures added { OnOk result (self.new ≡ with_name self.old (OfText (str name.entry))) }
        ensures unchanged { OnErr result (self.new ≡ self.old) }
        ensures closed { IsClosed self.new }
        ensures memory { IsOkUnless result memory }
    {
        let added = self.numbered.add_string(name);
        self.numbered.has_parts();
        added?;
        Ok(())
    }

    /// Adds a type, and its descriptor as a string.
    ///
    /// ```
    /// use dex_program::{Desc, Str};
    /// use dex_tables::Needed;
    ///
    /// let mut needed = Needed::new(alloc);
    /// needed.add_type(Desc { text: Str { units: &[0x49] } })?; // I
    /// assert!(rt; needed.freeze()?.string(0).is_some()); // its text came along
    /// ```
    pub fn add_type(&mut self, name: Desc<'a>) -> Result<(), Fault>
        ensures added { OnOk result (self.new ≡ with_name self.old (OfDesc (desc name.entry))) }
        ensures partly { OnErr result (AddsPart self.old self.new (with_parts self.old (OfDesc (desc name.entry)))) }
        ensures closed { IsClosed self.new }
        ensures memory { IsOkUnless result memory }
    {
        let added = self.numbered.add_type(name);
        self.numbered.has_parts();
        added?;
        Ok(())
    }

    /// Adds a prototype, its shorty, its return type and its parameters. The arena holds the shorty, which is spelled only
    /// where the prototype isn't held yet.
    ///
    /// ```
    /// use bumpalo::Bump;
    /// use dex_program::{Desc, Proto, Str};
    /// use dex_tables::Needed;
    ///
    /// let arena = Bump::new(alloc);
    /// let int = Desc { text: Str { units: &[0x49] } }; // I
    /// let proto = Proto { ret: int, params: &[] };
    /// let mut needed = Needed::new(alloc);
    /// needed.add_proto(&arena, &proto)?; // ()I
    /// assert!(rt; needed.freeze()?.type_(0).is_some()); // its return type came along
    /// ```
    pub fn add_proto(&mut self, arena: &'a Bump, name: &Proto<'a>) -> Result<(), Fault>
        requires ret { IsDescriptor (desc name.now.ret) }
        requires params { All IsDescriptor (map desc name.now.params.now) }
        ensures added { OnOk result (self.new ≡ with_proto self.old (proto name.now)) }
        ensures partly { OnErr result (AddsPart self.old self.new (with_proto_parts self.old (proto name.now))) }
        ensures closed { IsClosed self.new }
        ensures memory { IsOkUnless result memory }
    {
        let added = self.numbered.add_proto(arena, name);
        self.numbered.has_parts();
        added?;
        Ok(())
    }

    /// Adds a method, its class, its name and its prototype. The arena holds the shorty.
    ///
    /// ```
    /// use bumpalo::Bump;
    /// use dex_program::{Desc, MethodRef, Proto, Str};
    /// use dex_tables::Needed;
    ///
    /// let arena = Bump::new(alloc);
    /// let int = Desc { text: Str { units: &[0x49] } }; // I
    /// let proto = Proto { ret: int, params: &[] };
    /// let class = Desc { text: Str { units: &[0x4c, 0x41, 0x3b] } };
    /// let method = MethodRef { class, name: Str { units: &[0x6d] }, proto: &proto };
    /// let mut needed = Needed::new(alloc);
    /// needed.add_method(&arena, &method)?; // LA;->m()I
    /// assert!(rt; needed.freeze()?.proto(0).is_some()); // its prototype came along
    /// ```
    pub fn add_method(&mut self, arena: &'a Bump, name: &MethodRef<'a>) -> Result<(), Fault>
        requires ret { IsDescriptor (desc name.now.proto.now.ret) }
        requires params { All IsDescriptor (map desc name.now.proto.now.params.now) }
        ensures added { OnOk result (self.new ≡ with_name self.old (OfMethod (method_ref name.now))) }
        ensures partly { OnErr result (AddsPart self.old self.new (with_parts self.old (OfMethod (method_ref name.now)))) }
        ensures closed { IsClosed self.new }
        ensures memory { IsOkUnless result memory }
    {
        let added = self.numbered.add_method(arena, name);
        self.numbered.has_parts();
        added?;
        Ok(())
    }

    /// Adds a field, its class, its name and its type.
    ///
    /// ```
    /// use dex_program::{Desc, FieldRef, Str};
    /// use dex_tables::Needed;
    ///
    /// let int = Desc { text: Str { units: &[0x49] } }; // I
    /// let class = Desc { text: Str { units: &[0x4c, 0x41, 0x3b] } };
    /// let field = FieldRef { class, name: Str { units: &[0x6e] }, ty: int };
    /// let mut needed = Needed::new(alloc);
    /// needed.add_field(&field)?; // LA;->n:I
    /// assert!(rt; needed.freeze()?.type_(1).is_some()); // its class and its type came along
    /// ```
    pub fn add_field(&mut self, name: &FieldRef<'a>) -> Result<(), Fault>
        ensures added { OnOk result (self.new ≡ with_name self.old (OfField (field_ref name.now))) }
        ensures partly { OnErr result (AddsPart self.old self.new (with_parts self.old (OfField (field_ref name.now)))) }
        ensures closed { IsClosed self.new }
        ensures memory { IsOkUnless result memory }
    {
        let added = self.numbered.add_field(name);
        self.numbered.has_parts();
        added?;
        Ok(())
    }

    /// Adds what an instruction or a value names, with its parts. The arena holds a method's shorty.
    pub fn add_name(&mut self, arena: &'a Bump, name: Name<'a>) -> Result<(), Fault>
        requires { HasShorty (view.name name) }
        ensures added { OnOk result (self.new ≡ with_name self.old (view.name name.entry)) }
        ensures partly { OnErr result (AddsPart self.old self.new (with_parts self.old (view.name name.entry))) }
        ensures memory { IsOkUnless result memory }
    {
        match name {
            Name::Text(text) => self.add_string(text),
            Name::Desc(desc) => self.add_type(desc),
            Name::Field(field) => self.add_field(field),
            Name::Method(method) => self.add_method(arena, method),
        }
    }

    /// The same names, and from here on a note of each that is added.
    pub fn noting(self) -> Noted<'a>
        ensures names { sets result.names ≡ self.entry }
        ensures numbers { result.numbers ≡ [] }
    {
        let Needed { numbered } = self;
        Noted::new(numbered)
    }

    /// Returns the names with their ranks. No name is added after this. It fails only when out of memory, and then nothing is
    /// returned.
    ///
    /// ```
    /// use dex_program::{Desc, FieldRef, Str};
    /// use dex_tables::Needed;
    ///
    /// let int = Desc { text: Str { units: &[0x49] } }; // I
    /// let class = Desc { text: Str { units: &[0x4c, 0x41, 0x3b] } };
    /// let field = FieldRef { class, name: Str { units: &[0x6e] }, ty: int };
    /// let mut needed = Needed::new(alloc);
    /// needed.add_field(&field)?; // LA;->n:I
    /// let ranks = needed.freeze()?;
    /// assert_eq!(rt; ranks.index_of_string(class.text), Some(1)); // I, LA;, n
    /// ```
    pub fn freeze(self) -> Result<Ranks<'a>, Fault>
        ensures same { IfOk result (λ r. r ≡ self.entry) }
        ensures memory { IsOkUnless result memory }
    {
        let Needed { numbered } = self;
        let (ranks, _) = numbered.freeze()?;
        Ok(ranks)
    }
}
