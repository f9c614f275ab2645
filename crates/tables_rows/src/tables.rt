//! The five tables of a file, read: the name of each row.
ghost use Rattle.std.specs.Prelude.{◌≡◌, ◌≢◌, IfOk, IfErr, IfSome, IfNone, IsOkUnless, map, option_map, slice_get};
ghost use Rattle.program_types.specs.View as view;
ghost use Rattle.program_types.specs.Content as content;
ghost use Rattle.dex_base.specs.Fault.{memory};
ghost use Rattle.program_types.specs.Kinds.{IsOfKind};
ghost use Rattle.tables_rows.specs.Names.{AreNamesOf, NameIsAt, TypeIsAt};
ghost use Rattle.tables_rows.specs.Sorted.{TablesHold};
ghost use Rattle.tables_rows.specs.Stands.{ListAt};
ghost use Rattle.tables_rows.specs.TableFaults.{IsTableFault};

use crate::field_ids::read_fields;
use crate::method_ids::read_methods;
use crate::names::mark_names;
use crate::proto_ids::read_protos;
use crate::string_ids::read_strings;
use crate::type_ids::read_types;
use crate::type_list::types_at;
use bumpalo::Bump;
use dex_base::Fault;
use dex_container::{Sections, kind, section_of};
use dex_insn::IndexKind;
use program_types::{Desc, FieldRef, MethodRef, Name, Proto, Str};
use std::alloc::Global;
use std::marker::Model;

/// The names of the rows of string_ids, type_ids, proto_ids, field_ids and method_ids. Its model is these names.
///
/// Each name is placed once in the arena, and shared by all its uses: a type holds its string's slice, a field and a
/// method their class's, a method its proto by reference.
#[derive(Drop)]
pub struct Tables<'a> {
    strings: &'a [Str<'a>],
    types: &'a [Desc<'a>],
    protos: &'a [Proto<'a>],
    fields: &'a [FieldRef<'a>],
    methods: &'a [MethodRef<'a>],
}

impl<'a> Model for Tables<'a> {
    ghost use Rattle.std.specs.Prelude.{map};
    ghost use Rattle.program_types.specs.View.{str, desc, proto, field_ref, method_ref};
    ghost use Rattle.tables_rows.specs.Names.{Names};

    ghost Value = { Names };

    ghost view = { λ t. record {
      strings = map str t.strings.now;
      types = map desc t.types.now;
      protos = map proto t.protos.now;
      fields = map field_ref t.fields.now;
      methods = map method_ref t.methods.now;
    } };
}

impl<'a> Tables<'a> {
    /// The names of the five tables of a file, every row of which must denote a name, used or not, and be above the row
    /// before it. The faults are those of the tables, in the order of the tables; in each the fault is of the lowest row, at its byte
    /// offset, and in a row the first fault in FORMAT's order. 255 is out of memory.
    ///
    /// ```
    /// use bumpalo::Bump;
    /// use dex_container::open;
    /// use dex_file::write;
    /// use dex_listing::parse;
    /// use dex_tables::Tables;
    ///
    /// let arena = Bump::new(alloc);
    /// let file = write(alloc, &parse(alloc, &arena, b"dex 035 listing 2\nclass LA; 0x1\nstatic n I 0x9 = int 7\ndirect m ()V 0x9\nend class\n")?)?;
    /// let tables = Tables::read(alloc, &arena, &open(&file)?)?;
    /// assert!(rt; tables.string(0).is_some());
    /// ```
    pub fn read(
        alloc: Global,
        arena: &'a Bump,
        sections: &Sections<'_>,
    ) -> Result<Tables<'a>, Fault>
        ensures names { IfOk result (AreNamesOf sections.now) }
        ensures hold { IfOk result (λ _. TablesHold sections.now) }
        ensures only { TablesHold sections.now → IfErr result (λ e. e ≡ memory) }
        ensures refused { IfErr result (λ e. e ≢ memory → IsTableFault sections.now e) }
    {
        read_tables(alloc, arena, sections)
    }

    /// Returns the types of the list at an offset of this file: the empty list for 0, otherwise the type_list there (in its section,
    /// 4-aligned), and `None` if and only if there is none or an index has no row. The list lies in the arena. It fails only when out of
    /// memory.
    ///
    /// ```
    /// use bumpalo::Bump;
    /// use dex_container::open;
    /// use dex_file::write;
    /// use dex_listing::parse;
    /// use dex_tables::Tables;
    ///
    /// let arena = Bump::new(alloc);
    /// let file = write(alloc, &parse(alloc, &arena, b"dex 035 listing 2\nclass LA; 0x1\nstatic n I 0x9 = int 7\ndirect m ()V 0x9\nend class\n")?)?;
    /// let sections = open(&file)?;
    /// let tables = Tables::read(alloc, &arena, &sections)?;
    /// let list = tables.type_list(alloc, &arena, &sections, 0)?; // the empty list
    /// assert!(rt; list.unwrap().is_empty());
    /// ```
    pub fn type_list(
        &self,
        _alloc: Global,
        arena: &'a Bump,
        sections: &Sections<'_>,
        off: u32,
    ) -> Result<Option<&'a [Desc<'a>]>, Fault>
        ensures found { IfOk result (λ r. IfSome r (λ list. ListAt (TypeIsAt self.now.types) sections.now off (map view.desc list.now))) }
        ensures none { IfOk result (λ r. IfNone r ((ts : _) → ¬ ListAt (TypeIsAt self.now.types) sections.now off ts)) }
        ensures memory { IsOkUnless result memory }
    {
        let lists = section_of(sections, kind::TYPE_LIST);
        Ok(types_at(arena, sections, lists, self.types, off)?)
    }

    /// The string of a row. None past the last row; so with the other kinds.
    ///
    /// ```
    /// use bumpalo::Bump;
    /// use dex_container::open;
    /// use dex_file::write;
    /// use dex_listing::parse;
    /// use dex_tables::Tables;
    ///
    /// let arena = Bump::new(alloc);
    /// let file = write(alloc, &parse(alloc, &arena, b"dex 035 listing 2\nclass LA; 0x1\nstatic n I 0x9 = int 7\ndirect m ()V 0x9\nend class\n")?)?;
    /// let tables = Tables::read(alloc, &arena, &open(&file)?)?;
    /// assert!(rt; tables.string(0).unwrap().units == [0x49].as_slice()); // I
    /// ```
    pub fn string(&self, index: u32) -> Option<Str<'a>>
        ensures { option_map view.str result ≡ slice_get self.now.strings index }
    {
        self.strings.get(index as usize).copied()
    }

    /// The type of a row.
    ///
    /// ```
    /// use bumpalo::Bump;
    /// use dex_container::open;
    /// use dex_file::write;
    /// use dex_listing::parse;
    /// use dex_tables::Tables;
    ///
    /// let arena = Bump::new(alloc);
    /// let file = write(alloc, &parse(alloc, &arena, b"dex 035 listing 2\nclass LA; 0x1\nstatic n I 0x9 = int 7\ndirect m ()V 0x9\nend class\n")?)?;
    /// let tables = Tables::read(alloc, &arena, &open(&file)?)?;
    /// assert!(rt; tables.type_(0).unwrap().text.units == [0x49].as_slice()); // I
    /// ```
    pub fn type_(&self, index: u32) -> Option<Desc<'a>>
        ensures { option_map view.desc result ≡ slice_get self.now.types index }
    {
        self.types.get(index as usize).copied()
    }

    /// The proto of a row.
    ///
    /// ```
    /// use bumpalo::Bump;
    /// use dex_container::open;
    /// use dex_file::write;
    /// use dex_listing::parse;
    /// use dex_tables::Tables;
    ///
    /// let arena = Bump::new(alloc);
    /// let file = write(alloc, &parse(alloc, &arena, b"dex 035 listing 2\nclass LA; 0x1\nstatic n I 0x9 = int 7\ndirect m ()V 0x9\nend class\n")?)?;
    /// let tables = Tables::read(alloc, &arena, &open(&file)?)?;
    /// assert!(rt; tables.proto(0).unwrap().ret.text.units == [0x56].as_slice()); // ()V
    /// ```
    pub fn proto(&self, index: u32) -> Option<&'a Proto<'a>>
        ensures { option_map (λ p. view.proto p.now) result ≡ slice_get self.now.protos index }
    {
        self.protos.get(index as usize)
    }

    /// The field of a row.
    ///
    /// ```
    /// use bumpalo::Bump;
    /// use dex_container::open;
    /// use dex_file::write;
    /// use dex_listing::parse;
    /// use dex_tables::Tables;
    ///
    /// let arena = Bump::new(alloc);
    /// let file = write(alloc, &parse(alloc, &arena, b"dex 035 listing 2\nclass LA; 0x1\nstatic n I 0x9 = int 7\ndirect m ()V 0x9\nend class\n")?)?;
    /// let tables = Tables::read(alloc, &arena, &open(&file)?)?;
    /// assert!(rt; tables.field(0).unwrap().name.units == [0x6e].as_slice()); // LA;->n:I
    /// ```
    pub fn field(&self, index: u32) -> Option<&'a FieldRef<'a>>
        ensures { option_map (λ f. view.field_ref f.now) result ≡ slice_get self.now.fields index }
    {
        self.fields.get(index as usize)
    }

    /// The method of a row.
    ///
    /// ```
    /// use bumpalo::Bump;
    /// use dex_container::open;
    /// use dex_file::write;
    /// use dex_listing::parse;
    /// use dex_tables::Tables;
    ///
    /// let arena = Bump::new(alloc);
    /// let file = write(alloc, &parse(alloc, &arena, b"dex 035 listing 2\nclass LA; 0x1\nstatic n I 0x9 = int 7\ndirect m ()V 0x9\nend class\n")?)?;
    /// let tables = Tables::read(alloc, &arena, &open(&file)?)?;
    /// assert!(rt; tables.method(0).unwrap().name.units == [0x6d].as_slice()); // LA;->m()V
    /// ```
    pub fn method(&self, index: u32) -> Option<&'a MethodRef<'a>>
        ensures { option_map (λ m. view.method_ref m.now) result ≡ slice_get self.now.methods index }
    {
        self.methods.get(index as usize)
    }

    /// The name of a kind that an index denotes. `None` past the last row of that kind's table.
    pub fn name(&self, kind: IndexKind, index: u32) -> Option<Name<'a>>
        ensures kind { IfSome result (λ n. IsOfKind kind (view.name n)) }
        ensures some { IfSome result (λ n. NameIsAt self.now index (view.name n)) }
        ensures none { IfNone result ((n : content.Name) → IsOfKind kind n → ¬ NameIsAt self.now index n) }
    {
        match kind {
            IndexKind::String => Some(Name::Text(self.string(index)?)),
            IndexKind::Type => Some(Name::Desc(self.type_(index)?)),
            IndexKind::Field => Some(Name::Field(self.field(index)?)),
            IndexKind::Method => Some(Name::Method(self.method(index)?)),
        }
    }
}

/// The tables, read in their order.
fn read_tables<'a>(
    alloc: Global,
    arena: &'a Bump,
    sections: &Sections<'_>,
) -> Result<Tables<'a>, Fault>
    ensures names { IfOk result (AreNamesOf sections.now) }
    ensures hold { IfOk result (λ _. TablesHold sections.now) }
    ensures only { TablesHold sections.now → IfErr result (λ e. e ≡ memory) }
    ensures refused { IfErr result (λ e. e ≢ memory → IsTableFault sections.now e) }
{
    let strings = read_strings(alloc, arena, sections)?;
    let types = read_types(arena, sections, strings)?;
    let protos = read_protos(alloc, arena, sections, strings, types)?;
    let names = mark_names(alloc, strings)?;
    let fields = read_fields(arena, sections, strings, &names, types)?;
    let methods = read_methods(arena, sections, strings, &names, types, protos)?;
    Ok(Tables {
        strings,
        types,
        protos,
        fields,
        methods,
    })
}
