//! Which rows are kept.
ghost use Rattle.std.specs.Prelude.{OnOk, OnErr, IfOk, IsOkUnless, ◌∷◌, [], map};
ghost use Rattle.dex_base.specs.Fault.{memory};
ghost use Rattle.program_types.specs.Content.{Name, OfText, OfDesc, OfField, OfMethod, Proto};
ghost use Rattle.tables_names.specs.Closure.{Five, nothing, with_proto};
ghost use Rattle.tables_rows.specs.Stands.{StringStands, TypeStands, ProtoStands, FieldStands, MethodStands, TypesAt};
ghost use Rattle.file_renumber.specs.inner.Marked.{AreMarks, HasMarks, AddsNames, IsRowOf};
ghost use Rattle.file_renumber.specs.inner.Numbers.{AreRowNumbers};

use crate::column::{count_before, is_marked, mark, unmarked};
use crate::numbers::Numbers;
use dex_base::{Fault, Seed, u16_at};
use dex_container::{Sections, kind, section_of};
use dex_insn::IndexKind;
use std::alloc::Global;
use std::collections::HashSet;
use std::marker::Model;
use tables_rows::{
    MemberTable, indexes_or_none, member_class, member_kind, member_name, proto_parameters,
    proto_return, proto_shorty, type_string,
};

/// The marked rows of the five tables of a file: if a row is marked, the rows of its parts are. Its model is the marks and the
/// offsets of the lists whose types are marked (`specs/Marked.antt`).
///
/// A row for which memory ran out isn't marked, but some of its parts may be.
pub struct Marks {
    strings: Vec<u32>,
    types: Vec<u32>,
    protos: Vec<u32>,
    fields: Vec<u32>,
    methods: Vec<u32>,
    lists: HashSet<u32, Seed>,
}

// Each place where marks are let go is proved: here it is one call, and derived it would be all that they own.
impl Drop for Marks {
    fn drop(self) {
        let Marks {
            strings: _,
            types: _,
            protos: _,
            fields: _,
            methods: _,
            lists: _,
        } = self;
    }
}

impl Model for Marks {
    ghost use Rattle.file_renumber.specs.inner.Marked.{Marked};

    ghost Value = { Marked };

    ghost view = { λ m. record {
      columns = record { strings = m.strings.items; types = m.types.items; protos = m.protos.items; fields = m.fields.items; methods = m.methods.items };
      lists = m.lists.keys;
    } };
}

impl Marks {
    /// No row of the file's tables is marked. Takes four bytes a row, and fails only when out of memory. What is written by the
    /// marked rows' numbers is hashed with this seed.
    ///
    /// ```
    /// let sections = open(&bytes)?;
    /// let marks = Marks::new(alloc, seed, &sections)?;
    /// assert_eq!(rt; marks.number().count(IndexKind::Type), 0);
    /// ```
    pub fn new(alloc: Global, seed: Seed, sections: &Sections<'_>) -> Result<Marks, Fault>
        ensures none { IfOk result (λ m. AreMarks sections.now m nothing) }
        ensures memory { IsOkUnless result memory }
    {
        // Only for the proof: the file is framed.
        let _framed = sections.bytes();
        Ok(Marks {
            strings: unmarked(alloc, sections.table(kind::STRING_ID_ITEM).0)?,
            types: unmarked(alloc, sections.table(kind::TYPE_ID_ITEM).0)?,
            protos: unmarked(alloc, sections.table(kind::PROTO_ID_ITEM).0)?,
            fields: unmarked(alloc, sections.table(kind::FIELD_ID_ITEM).0)?,
            methods: unmarked(alloc, sections.table(kind::METHOD_ID_ITEM).0)?,
            lists: HashSet::with_hasher(alloc, seed),
        })
    }

    /// Marks a row of string_ids.
    fn mark_string(&mut self, index: u32)
        requires { (b : _) × HasMarks b self.old × ((t : _) × StringStands b index t) }
        ensures { (b : _) (t : _) → StringStands b index t → AddsNames b self.old self.new (OfText t ∷ []) }
    {
        mark(&mut self.strings, index);
    }

    /// Marks a row of type_ids and its text.
    fn mark_type(&mut self, sections: &Sections<'_>, index: u32)
        requires marks { HasMarks sections.now self.old }
        requires row { (t : _) × TypeStands sections.now index t }
        ensures { (t : _) → TypeStands sections.now index t → AddsNames sections.now self.old self.new (OfDesc t ∷ []) }
    {
        if is_marked(&self.types, index) {
            return;
        }
        self.mark_string(type_string(sections, index));
        mark(&mut self.types, index);
    }

    /// Marks the types of the list at an offset, 0 for none. Each list is read once.
    ///
    /// It fails only when out of memory; which of the types are marked then isn't promised.
    ///
    /// ```
    /// marks.mark_list(&sections, proto_parameters(&sections, 3))?; // the parameters of prototype 3
    /// ```
    pub fn mark_list(&mut self, sections: &Sections<'_>, off: u32) -> Result<(), Fault>
        requires marks { HasMarks sections.now self.old }
        requires list { (ts : _) × TypesAt sections.now off ts }
        ensures marked { OnOk result ((ts : _) → TypesAt sections.now off ts → AddsNames sections.now self.old self.new (map OfDesc ts)) }
        ensures stays { OnErr result (HasMarks sections.now self.new) }
        ensures memory { IsOkUnless result memory }
    {
        if self.lists.contains(&off) {
            return Ok(());
        }
        let lists = section_of(sections, kind::TYPE_LIST);
        let Some(indexes) = indexes_or_none(sections, lists, off) else {
            return Ok(());
        };
        for j in 0..indexes.len() / 2 {
            self.mark_type(sections, u32::from(u16_at(indexes, 2 * j)));
        }
        self.lists.insert(off)?;
        Ok(())
    }

    /// Marks a row of proto_ids, its shorty and its types.
    fn mark_proto(&mut self, sections: &Sections<'_>, index: u32) -> Result<(), Fault>
        requires marks { HasMarks sections.now self.old }
        requires row { (p : Proto) × ProtoStands sections.now index p }
        ensures marked { OnOk result ((p : Proto) → ProtoStands sections.now index p → (s : Five) → AreMarks sections.now self.old s → AreMarks sections.now self.new (with_proto s p)) }
        ensures stays { OnErr result (HasMarks sections.now self.new) }
        ensures memory { IsOkUnless result memory }
    {
        if is_marked(&self.protos, index) {
            return Ok(());
        }
        self.mark_string(proto_shorty(sections, index));
        self.mark_type(sections, proto_return(sections, index));
        self.mark_list(sections, proto_parameters(sections, index))?;
        mark(&mut self.protos, index);
        Ok(())
    }

    /// Marks a row of field_ids, its class, name and type.
    fn mark_field(&mut self, sections: &Sections<'_>, index: u32)
        requires marks { HasMarks sections.now self.old }
        requires row { (f : _) × FieldStands sections.now index f }
        ensures { (f : _) → FieldStands sections.now index f → AddsNames sections.now self.old self.new (OfField f ∷ []) }
    {
        if is_marked(&self.fields, index) {
            return;
        }
        let table = MemberTable::Fields;
        self.mark_type(sections, u32::from(member_class(sections, table, index)));
        self.mark_string(member_name(sections, table, index));
        self.mark_type(sections, u32::from(member_kind(sections, table, index)));
        mark(&mut self.fields, index);
    }

    /// Marks a row of method_ids, its class, name and prototype.
    fn mark_method(&mut self, sections: &Sections<'_>, index: u32) -> Result<(), Fault>
        requires marks { HasMarks sections.now self.old }
        requires row { (m : _) × MethodStands sections.now index m }
        ensures marked { OnOk result ((m : _) → MethodStands sections.now index m → AddsNames sections.now self.old self.new (OfMethod m ∷ [])) }
        ensures stays { OnErr result (HasMarks sections.now self.new) }
        ensures memory { IsOkUnless result memory }
    {
        if is_marked(&self.methods, index) {
            return Ok(());
        }
        let table = MemberTable::Methods;
        self.mark_type(sections, u32::from(member_class(sections, table, index)));
        self.mark_string(member_name(sections, table, index));
        self.mark_proto(sections, u32::from(member_kind(sections, table, index)))?;
        mark(&mut self.methods, index);
        Ok(())
    }

    /// Marks a row of the table of these names, and the rows of its parts. Of a row that is marked nothing is read.
    ///
    /// It fails only when out of memory; which of these rows are marked then isn't promised.
    ///
    /// ```
    /// marks.mark(&sections, IndexKind::Method, 7)?; // row 7 of method_ids, its class, name and prototype, and their parts
    /// ```
    pub fn mark(
        &mut self,
        sections: &Sections<'_>,
        kind: IndexKind,
        index: u32,
    ) -> Result<(), Fault>
        requires marks { HasMarks sections.now self.old }
        requires row { (which : Name) × IsRowOf sections.now kind index which }
        ensures marked { OnOk result ((which : Name) → IsRowOf sections.now kind index which → AddsNames sections.now self.old self.new (which ∷ [])) }
        ensures stays { OnErr result (HasMarks sections.now self.new) }
        ensures memory { IsOkUnless result memory }
    {
        match kind {
            IndexKind::String => {
                self.mark_string(index);
                Ok(())
            }
            IndexKind::Type => {
                self.mark_type(sections, index);
                Ok(())
            }
            IndexKind::Field => {
                self.mark_field(sections, index);
                Ok(())
            }
            IndexKind::Method => self.mark_method(sections, index),
        }
    }

    /// The numbers of the rows: how many marked ones are before each. Needs no memory.
    ///
    /// ```
    /// let numbers = marks.number();
    /// let index = numbers.of(IndexKind::Method, 7); // its row in a file of the marked ones alone
    /// ```
    pub fn number(self) -> Numbers
        requires { (b : _) × HasMarks b self }
        ensures { AreRowNumbers self.columns result }
    {
        let seed = *self.lists.hasher();
        let Marks {
            mut strings,
            mut types,
            mut protos,
            mut fields,
            mut methods,
            lists: _,
        } = self;
        count_before(&mut strings);
        count_before(&mut types);
        count_before(&mut protos);
        count_before(&mut fields);
        count_before(&mut methods);
        Numbers {
            strings,
            types,
            protos,
            fields,
            methods,
            seed,
        }
    }
}
