//! The names that a program needs, of all five kinds, with their ranks, which are their indices in a table that has no other
//! names ("Dalvik Executable format": string_ids, type_ids, proto_ids, field_ids and method_ids).
ghost use Rattle.std.specs.Prelude.{◌≡◌, ◌<◌, ◌^◌, ℕ, IfSome, IfNone, map, option_map, slice_get};
ghost use Rattle.std.specs.List.{AllZip};
ghost use Rattle.program_types.specs.Key.{text_key};
ghost use Rattle.program_types.specs.Shorty.{shorty};
ghost use Rattle.program_types.specs.View as view;
ghost use Rattle.program_types.specs.View.{proto};
ghost use Rattle.tables_names.specs.Keys.{key_of_str, key_of_desc, key_of_proto, key_of_field, key_of_method};
ghost use Rattle.tables_names.specs.Rank.{LookUpAnswers, IsAt};
ghost use Rattle.tables_names.specs.Closure.{IsClosed, AreRising, NameRanks};
ghost use Rattle.tables_names.specs.Numbers.{IsTables, TypeAt, ProtoAt, FieldAt, MethodAt};

use crate::name_set::{Ranked, Table};
use crate::noted::RankOf;
use crate::parts::{FieldParts, MethodParts, ProtoParts, TypeParts};
use crate::shorty::index_of_shorty;
use crate::sorting::{Members, Parts};
use dex_base::Seed;
use program_types::{Desc, FieldRef, MethodRef, Name, Proto, Str};
use std::marker::Model;

/// The needed names of each of the five kinds, each with its rank: how many of its kind are less. Its model is the five
/// sets; a look-up needs no memory.
pub struct Ranks<'a> {
    strings: Ranked<Str<'a>>,
    types: Table<Desc<'a>, TypeParts>,
    protos: Table<Proto<'a>, ProtoParts>,
    fields: Table<FieldRef<'a>, FieldParts>,
    methods: Table<MethodRef<'a>, MethodParts>,
}

// Each place where ranks are let go is proved: here it is one call, and derived it would be all that they own.
impl<'a> Drop for Ranks<'a> {
    fn drop(self) {
        let Ranks {
            strings: _,
            types: _,
            protos: _,
            fields: _,
            methods: _,
        } = self;
    }
}

impl<'a> Model for Ranks<'a> {
    ghost use Rattle.tables_names.specs.Closure.{Five, IsClosed};
    ghost use Rattle.tables_names.specs.Numbers.{IsTables};

    ghost Value = { Five };

    ghost view = { λ n. record { strings = n.strings; types = n.types.names; protos = n.protos.names; fields = n.fields.names; methods = n.methods.names } };

    ghost invariant = { λ n. IsTables record {
      names = record { strings = n.strings; types = n.types.names; protos = n.protos.names; fields = n.fields.names; methods = n.methods.names };
      types = n.types.parts.items;
      protos = n.protos.parts.items;
      fields = n.fields.parts.items;
      methods = n.methods.parts.items;
    } };
}

impl<'a> Ranks<'a> {
    /// Five sets that hold each name's parts, with the ranks of these; and of each name, by its number, the rank.
    pub(crate) fn from_sorted(parts: Parts<'a>, members: Members<'a>) -> (Self, RankOf)
        requires { IsTables record {
          names = record { strings = parts.strings.names; types = parts.types.table.names; protos = parts.protos.table.names; fields = members.fields.table.names; methods = members.methods.table.names };
          types = parts.types.table.parts.items;
          protos = parts.protos.table.parts.items;
          fields = members.fields.table.parts.items;
          methods = members.methods.table.parts.items;
        } }
        ensures names { result.0 ≡ record { strings = parts.entry.strings.names; types = parts.entry.types.table.names; protos = parts.entry.protos.table.names; fields = members.entry.fields.table.names; methods = members.entry.methods.table.names } }
        ensures ranks { result.1 ≡ record { strings = parts.entry.strings.ranks; types = parts.entry.types.ranks; fields = members.entry.fields.ranks; methods = members.entry.methods.ranks } }
    {
        let Parts {
            strings,
            types,
            protos,
        } = parts;
        let Members { fields, methods } = members;
        let ranks = Ranks {
            strings: strings.names,
            types: types.table,
            protos: protos.table,
            fields: fields.table,
            methods: methods.table,
        };
        let rank_of = RankOf {
            strings: strings.ranks,
            types: types.ranks,
            fields: fields.ranks,
            methods: methods.ranks,
        };
        (ranks, rank_of)
    }

    /// The seed of their hashes, for callers that hash what is written by them.
    pub fn seed(&self) -> Seed {
        self.strings.seed()
    }

    /// Beside each name its parts are held.
    pub fn holds_parts(&self)
        ensures { IsClosed self.now }
    {
        // Only for the proof: what holds of each value of its type.
        let _ = &self.strings;
    }

    /// In each of the five sets the names strictly rise.
    pub fn rise(&self)
        ensures { AreRising self.now }
    {
        self.strings.rises();
        self.types.names.rises();
        self.protos.names.rises();
        self.fields.names.rises();
        self.methods.names.rises();
    }

    /// The rank of a name among those of its kind. None where it isn't held, or where the rank is above 4294967295.
    pub fn index_of(&self, name: Name<'a>) -> Option<u32>
        ensures some { IfSome result (λ i. NameRanks self.now i (view.name name.entry)) }
        ensures none { IfNone result ((i : ℕ) → i < 2 ^ 32 → ¬ NameRanks self.now i (view.name name.entry)) }
    {
        match name {
            Name::Text(text) => self.index_of_string(text),
            Name::Desc(desc) => self.index_of_type(desc),
            Name::Field(field) => self.index_of_field(field),
            Name::Method(method) => self.index_of_method(method),
        }
    }

    /// The rank of a string. None where it isn't held, or where the rank is above 4294967295; so with the other kinds.
    ///
    /// ```
    /// use dex_program::Str;
    /// use dex_tables::Needed;
    ///
    /// let name = Str { units: &[0x61] };
    /// let mut needed = Needed::new(alloc);
    /// needed.add_string(name)?;
    /// assert_eq!(rt; needed.freeze()?.index_of_string(name), Some(0));
    /// ```
    pub fn index_of_string(&self, name: Str<'a>) -> Option<u32>
        ensures rank { LookUpAnswers self.now.strings (key_of_str name.entry) result }
        ensures some { IfSome result (λ i. IsAt self.now.strings i (key_of_str name.entry)) }
        ensures none { IfNone result ((i : ℕ) → i < 2 ^ 32 → ¬ IsAt self.now.strings i (key_of_str name.entry)) }
    {
        self.strings.index_of(name)
    }

    /// The rank of a type.
    ///
    /// ```
    /// use dex_program::{Desc, Str};
    /// use dex_tables::Needed;
    ///
    /// let int = Desc { text: Str { units: &[0x49] } };
    /// let mut needed = Needed::new(alloc);
    /// needed.add_type(int)?;
    /// assert_eq!(rt; needed.freeze()?.index_of_type(int), Some(0));
    /// ```
    pub fn index_of_type(&self, name: Desc<'a>) -> Option<u32>
        ensures rank { LookUpAnswers self.now.types (key_of_desc name.entry) result }
        ensures some { IfSome result (λ i. IsAt self.now.types i (key_of_desc name.entry)) }
        ensures none { IfNone result ((i : ℕ) → i < 2 ^ 32 → ¬ IsAt self.now.types i (key_of_desc name.entry)) }
    {
        self.types.names.index_of(name)
    }

    /// The rank of a prototype.
    ///
    /// ```
    /// use bumpalo::Bump;
    /// use dex_program::{Desc, Proto, Str};
    /// use dex_tables::Needed;
    ///
    /// let arena = Bump::new(alloc);
    /// let int = Desc { text: Str { units: &[0x49] } }; // I
    /// let proto = Proto { ret: int, params: &[] };
    /// let mut needed = Needed::new(alloc);
    /// needed.add_proto(&arena, &proto)?;
    /// assert_eq!(rt; needed.freeze()?.index_of_proto(&proto), Some(0));
    /// ```
    pub fn index_of_proto(&self, name: &Proto<'a>) -> Option<u32>
        ensures rank { LookUpAnswers self.now.protos (key_of_proto name.now) result }
        ensures some { IfSome result (λ i. IsAt self.now.protos i (key_of_proto name.now)) }
        ensures none { IfNone result ((i : ℕ) → i < 2 ^ 32 → ¬ IsAt self.now.protos i (key_of_proto name.now)) }
    {
        self.protos.names.index_of(*name)
    }

    /// Returns the rank of the shorty of a prototype. A prototype of the set has one, unless it is above 4294967295.
    pub fn index_of_shorty(&self, name: &Proto<'a>) -> Option<u32>
        ensures rank { LookUpAnswers self.now.strings (text_key (shorty (proto name.now))) result }
        ensures some { IfSome result (λ i. IsAt self.now.strings i (text_key (shorty (proto name.now)))) }
        ensures none { IfNone result ((i : ℕ) → i < 2 ^ 32 → ¬ IsAt self.now.strings i (text_key (shorty (proto name.now)))) }
    {
        self.strings.rises();
        index_of_shorty(self.strings.names(), name)
    }

    /// The rank of a field.
    ///
    /// ```
    /// use dex_program::{Desc, FieldRef, Str};
    /// use dex_tables::Needed;
    ///
    /// let int = Desc { text: Str { units: &[0x49] } }; // I
    /// let class = Desc { text: Str { units: &[0x4c, 0x41, 0x3b] } };
    /// let field = FieldRef { class, name: Str { units: &[0x6e] }, ty: int };
    /// let mut needed = Needed::new(alloc);
    /// needed.add_field(&field)?; // LA;->n:I
    /// assert_eq!(rt; needed.freeze()?.index_of_field(&field), Some(0));
    /// ```
    pub fn index_of_field(&self, name: &FieldRef<'a>) -> Option<u32>
        ensures rank { LookUpAnswers self.now.fields (key_of_field name.now) result }
        ensures some { IfSome result (λ i. IsAt self.now.fields i (key_of_field name.now)) }
        ensures none { IfNone result ((i : ℕ) → i < 2 ^ 32 → ¬ IsAt self.now.fields i (key_of_field name.now)) }
    {
        self.fields.names.index_of(*name)
    }

    /// The rank of a method.
    ///
    /// ```
    /// use bumpalo::Bump;
    /// use dex_program::{Desc, MethodRef, Proto, Str};
    /// use dex_tables::Needed;
    ///
    /// let arena = Bump::new(alloc);
    /// let int = Desc { text: Str { units: &[0x49] } }; // I
    /// let proto = Proto { ret: int, params: &[] };
    /// let class = Desc { text: Str { units: &[0x4c, 0x41, 0x3b] } };
    /// let method = MethodRef { class, name: Str { units: &[0x6d] }, proto: &proto };
    /// let mut needed = Needed::new(alloc);
    /// needed.add_method(&arena, &method)?;
    /// assert_eq!(rt; needed.freeze()?.index_of_method(&method), Some(0));
    /// ```
    pub fn index_of_method(&self, name: &MethodRef<'a>) -> Option<u32>
        ensures rank { LookUpAnswers self.now.methods (key_of_method name.now) result }
        ensures some { IfSome result (λ i. IsAt self.now.methods i (key_of_method name.now)) }
        ensures none { IfNone result ((i : ℕ) → i < 2 ^ 32 → ¬ IsAt self.now.methods i (key_of_method name.now)) }
    {
        self.methods.names.index_of(*name)
    }

    /// The string with this rank. None past the last; so with the other kinds.
    ///
    /// ```
    /// use dex_program::Str;
    /// use dex_tables::Needed;
    ///
    /// let mut needed = Needed::new(alloc);
    /// needed.add_string(Str { units: &[0x61] })?;
    /// assert!(rt; needed.freeze()?.string(0).unwrap().units == [0x61].as_slice());
    /// ```
    pub fn string(&self, rank: u32) -> Option<Str<'a>>
        ensures { option_map key_of_str result ≡ slice_get self.now.strings rank }
    {
        self.strings.name_at(rank)
    }

    /// The type with this rank.
    ///
    /// ```
    /// use dex_program::{Desc, Str};
    /// use dex_tables::Needed;
    ///
    /// let mut needed = Needed::new(alloc);
    /// needed.add_type(Desc { text: Str { units: &[0x49] } })?;
    /// assert!(rt; needed.freeze()?.type_(0).unwrap().text.units == [0x49].as_slice());
    /// ```
    pub fn type_(&self, rank: u32) -> Option<Desc<'a>>
        ensures { option_map key_of_desc result ≡ slice_get self.now.types rank }
    {
        self.types.names.name_at(rank)
    }

    /// The prototype with this rank.
    ///
    /// ```
    /// use bumpalo::Bump;
    /// use dex_program::{Desc, Proto, Str};
    /// use dex_tables::Needed;
    ///
    /// let arena = Bump::new(alloc);
    /// let int = Desc { text: Str { units: &[0x49] } }; // I
    /// let proto = Proto { ret: int, params: &[] };
    /// let mut needed = Needed::new(alloc);
    /// needed.add_proto(&arena, &proto)?;
    /// assert!(rt; needed.freeze()?.proto(0).unwrap() == proto);
    /// ```
    pub fn proto(&self, rank: u32) -> Option<Proto<'a>>
        ensures { option_map key_of_proto result ≡ slice_get self.now.protos rank }
    {
        self.protos.names.name_at(rank)
    }

    /// The field with this rank.
    ///
    /// ```
    /// use dex_program::{Desc, FieldRef, Str};
    /// use dex_tables::Needed;
    ///
    /// let int = Desc { text: Str { units: &[0x49] } }; // I
    /// let class = Desc { text: Str { units: &[0x4c, 0x41, 0x3b] } };
    /// let field = FieldRef { class, name: Str { units: &[0x6e] }, ty: int };
    /// let mut needed = Needed::new(alloc);
    /// needed.add_field(&field)?; // LA;->n:I
    /// assert!(rt; needed.freeze()?.field(0).unwrap() == field);
    /// ```
    pub fn field(&self, rank: u32) -> Option<FieldRef<'a>>
        ensures { option_map key_of_field result ≡ slice_get self.now.fields rank }
    {
        self.fields.names.name_at(rank)
    }

    /// The method with this rank.
    ///
    /// ```
    /// use bumpalo::Bump;
    /// use dex_program::{Desc, MethodRef, Proto, Str};
    /// use dex_tables::Needed;
    ///
    /// let arena = Bump::new(alloc);
    /// let int = Desc { text: Str { units: &[0x49] } }; // I
    /// let proto = Proto { ret: int, params: &[] };
    /// let class = Desc { text: Str { units: &[0x4c, 0x41, 0x3b] } };
    /// let method = MethodRef { class, name: Str { units: &[0x6d] }, proto: &proto };
    /// let mut needed = Needed::new(alloc);
    /// needed.add_method(&arena, &method)?;
    /// assert!(rt; needed.freeze()?.method(0).unwrap() == method);
    /// ```
    pub fn method(&self, rank: u32) -> Option<MethodRef<'a>>
        ensures { option_map key_of_method result ≡ slice_get self.now.methods rank }
    {
        self.methods.names.name_at(rank)
    }

    /// The strings, in the order of their ranks: the rows of the table. So with the other kinds.
    pub fn strings(&self) -> &[Str<'a>]
        ensures { map key_of_str result.now ≡ self.now.strings }
    {
        self.strings.names()
    }

    /// The types, in the order of their ranks.
    pub fn types(&self) -> &[Desc<'a>]
        ensures { map key_of_desc result.now ≡ self.now.types }
    {
        self.types.names.names()
    }

    /// The prototypes, in the order of their ranks.
    pub fn protos(&self) -> &[Proto<'a>]
        ensures { map key_of_proto result.now ≡ self.now.protos }
    {
        self.protos.names.names()
    }

    /// The fields, in the order of their ranks.
    pub fn fields(&self) -> &[FieldRef<'a>]
        ensures { map key_of_field result.now ≡ self.now.fields }
    {
        self.fields.names.names()
    }

    /// The methods, in the order of their ranks.
    pub fn methods(&self) -> &[MethodRef<'a>]
        ensures { map key_of_method result.now ≡ self.now.methods }
    {
        self.methods.names.names()
    }

    /// Beside each type, in the order of their ranks, the rank of its descriptor: the rows of the table. So with the other
    /// kinds. No name is looked up.
    ///
    /// ```
    /// use dex_program::{Desc, Str};
    /// use dex_tables::Needed;
    ///
    /// let mut needed = Needed::new(alloc);
    /// needed.add_string(Str { units: &[0x41] })?; // A
    /// needed.add_type(Desc { text: Str { units: &[0x49] } })?; // I
    /// assert_eq!(rt; needed.freeze()?.type_parts()[0].text, 1);
    /// ```
    pub fn type_parts(&self) -> &[TypeParts]
        ensures { AllZip (TypeAt self.now.strings) self.now.types result.now }
    {
        &self.types.parts
    }

    /// Beside each prototype the rank of its return type.
    ///
    /// ```
    /// use bumpalo::Bump;
    /// use dex_program::{Desc, Proto, Str};
    /// use dex_tables::Needed;
    ///
    /// let arena = Bump::new(alloc);
    /// let int = Desc { text: Str { units: &[0x49] } }; // I
    /// let mut needed = Needed::new(alloc);
    /// needed.add_proto(&arena, &Proto { ret: int, params: &[] })?;
    /// assert_eq!(rt; needed.freeze()?.proto_parts()[0].ret, 0);
    /// ```
    pub fn proto_parts(&self) -> &[ProtoParts]
        ensures { AllZip (ProtoAt self.now.types) self.now.protos result.now }
    {
        &self.protos.parts
    }

    /// Beside each field the ranks of its class, its name and its type.
    ///
    /// ```
    /// use dex_program::{Desc, FieldRef, Str};
    /// use dex_tables::Needed;
    ///
    /// let int = Desc { text: Str { units: &[0x49] } }; // I
    /// let class = Desc { text: Str { units: &[0x4c, 0x41, 0x3b] } };
    /// let mut needed = Needed::new(alloc);
    /// needed.add_field(&FieldRef { class, name: Str { units: &[0x6e] }, ty: int })?; // LA;->n:I
    /// assert_eq!(rt; needed.freeze()?.field_parts()[0].name, 2); // I, LA;, n
    /// ```
    pub fn field_parts(&self) -> &[FieldParts]
        ensures { AllZip (FieldAt self.now.types self.now.strings) self.now.fields result.now }
    {
        &self.fields.parts
    }

    /// Beside each method the ranks of its class, its name and its prototype.
    ///
    /// ```
    /// use bumpalo::Bump;
    /// use dex_program::{Desc, MethodRef, Proto, Str};
    /// use dex_tables::Needed;
    ///
    /// let arena = Bump::new(alloc);
    /// let int = Desc { text: Str { units: &[0x49] } }; // I
    /// let proto = Proto { ret: int, params: &[] };
    /// let class = Desc { text: Str { units: &[0x4c, 0x41, 0x3b] } };
    /// let mut needed = Needed::new(alloc);
    /// needed.add_method(&arena, &MethodRef { class, name: Str { units: &[0x6d] }, proto: &proto })?; // LA;->m()I
    /// assert_eq!(rt; needed.freeze()?.method_parts()[0].name, 2); // I, LA;, m
    /// ```
    pub fn method_parts(&self) -> &[MethodParts]
        ensures { AllZip (MethodAt self.now.types self.now.strings self.now.protos) self.now.methods result.now }
    {
        &self.methods.parts
    }
}
