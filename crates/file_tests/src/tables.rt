//! The five tables: which name each row denotes, and which list stands at an offset.

use crate::made::Made;
use crate::made::Made::{OfLists, OfNamed, One};
use bumpalo::Bump;
use dex_base::Fault;
use dex_container::open;
use dex_insn::IndexKind;
use dex_samples::{
    Case, all_hold, put_field, put_method, put_name, put_proto, put_types, put_units,
};
use program_types::{Desc, Name};
use std::alloc::Global;
use std::test::Fail;
use tables_rows::Tables;

/// The file of one class as it is.
const OF_ONE: Made = One(0, &[]);

#[derive(Clone, Copy)]
enum Table {
    Strings,
    Types,
    Protos,
    Fields,
    Methods,
}

/// What is looked up in a file's tables.
#[derive(Clone, Copy)]
enum Sought {
    // each row, up to the first index that has none, and a space after it
    Rows(Table),
    Name(IndexKind, u32),
    // the types of the list at an offset
    List(u32),
}

/// A name for the case, the file, what is looked up, and it as text: `none` where nothing is found.
struct Shown(&'static str, Made, Sought, &'static str);

impl Case for Shown {
    fn name(&self) -> &'static str {
        self.0
    }

    fn holds(&self, alloc: Global) -> Result<bool, Fault> {
        let file = self.1.begun(alloc)?;
        is_shown(alloc, &file, self)
    }
}

fn is_shown(alloc: Global, file: &[u8], case: &Shown) -> Result<bool, Fault> {
    Ok(text_of(alloc, file, case.2)?.as_str() == case.3)
}

fn text_of(alloc: Global, file: &[u8], sought: Sought) -> Result<String, Fault> {
    let mut text = String::new(alloc);
    put_sought(alloc, &mut text, file, sought)?;
    Ok(text)
}

fn put_sought(alloc: Global, text: &mut String, file: &[u8], sought: Sought) -> Result<(), Fault> {
    let arena = Bump::new(alloc);
    let sections = open(file)?;
    let tables = Tables::read(alloc, &arena, &sections)?;
    match sought {
        Sought::Rows(table) => put_rows(text, &tables, table),
        Sought::Name(kind, index) => put_name_or_none(text, tables.name(kind, index)),
        Sought::List(off) => {
            put_list_or_none(text, tables.type_list(alloc, &arena, &sections, off)?)
        }
    }
}

fn put_name_or_none(text: &mut String, name: Option<Name<'_>>) -> Result<(), Fault> {
    match name {
        Some(name) => put_name(text, name),
        None => Ok(text.push_str("none")?),
    }
}

fn put_list_or_none(text: &mut String, list: Option<&[Desc<'_>]>) -> Result<(), Fault> {
    match list {
        Some(types) => put_types(text, types),
        None => Ok(text.push_str("none")?),
    }
}

fn put_rows(text: &mut String, tables: &Tables<'_>, table: Table) -> Result<(), Fault> {
    // more than any table of these tests has
    for index in 0..100 {
        if !put_row(text, tables, table, index)? {
            break;
        }
        text.push(' ')?;
    }
    Ok(())
}

/// Adds the row, if there is one, and tells whether there is.
fn put_row(
    text: &mut String,
    tables: &Tables<'_>,
    table: Table,
    index: u32,
) -> Result<bool, Fault> {
    match table {
        Table::Strings => match tables.string(index) {
            Some(string) => put_units(text, string)?,
            None => return Ok(false),
        },
        Table::Types => match tables.type_(index) {
            Some(ty) => put_units(text, ty.text)?,
            None => return Ok(false),
        },
        Table::Protos => match tables.proto(index) {
            Some(proto) => put_proto(text, proto)?,
            None => return Ok(false),
        },
        Table::Fields => match tables.field(index) {
            Some(field) => put_field(text, field)?,
            None => return Ok(false),
        },
        Table::Methods => match tables.method(index) {
            Some(method) => put_method(text, method)?,
            None => return Ok(false),
        },
    }
    Ok(true)
}

#[rattlefmt::skip]
#[test]
fn rows_names_and_lists_are_looked_up(rt: HostRuntime) -> Result<(), Fail> {
    static CASES: [Shown; 36] = [
        Shown(
            "the strings of the file of one class", OF_ONE, Sought::Rows(Table::Strings),
            "LA; Ljava/lang/Object; V m ",
        ),
        Shown("the types of the file of one class", OF_ONE, Sought::Rows(Table::Types), "LA; Ljava/lang/Object; V "),
        Shown("the protos of the file of one class", OF_ONE, Sought::Rows(Table::Protos), "()V "),
        Shown("the fields of the file of one class", OF_ONE, Sought::Rows(Table::Fields), ""),
        Shown("the methods of the file of one class", OF_ONE, Sought::Rows(Table::Methods), "LA;->m()V "),
        Shown(
            "the strings of many rows", OfNamed, Sought::Rows(Table::Strings),
            "<init> I LA; LB; V VI VIL VL [I a b ",
        ),
        Shown("the types of many rows", OfNamed, Sought::Rows(Table::Types), "I LA; LB; V [I "),
        Shown("the protos of many rows", OfNamed, Sought::Rows(Table::Protos), "()I ()V (I)V (I[I)V (LA;)V (LB;)V "),
        Shown(
            "the fields of many rows", OfNamed, Sought::Rows(Table::Fields),
            "LA;->a:I LA;->b:I LA;->b:LA; LB;->a:[I ",
        ),
        Shown(
            "the methods of many rows", OfNamed, Sought::Rows(Table::Methods),
            "LA;-><init>()V LA;->a()I LA;->a(I)V [I->a()I ",
        ),
        Shown("string 2", OfNamed, Sought::Name(IndexKind::String, 2), "string LA;"),
        Shown("string 11", OfNamed, Sought::Name(IndexKind::String, 11), "none"),
        Shown("the greatest string", OfNamed, Sought::Name(IndexKind::String, 0xffffffff), "none"),
        Shown("type 2", OfNamed, Sought::Name(IndexKind::Type, 2), "type LB;"),
        Shown("type 5", OfNamed, Sought::Name(IndexKind::Type, 5), "none"),
        Shown("the greatest type", OfNamed, Sought::Name(IndexKind::Type, 0xffffffff), "none"),
        Shown("field 2", OfNamed, Sought::Name(IndexKind::Field, 2), "field LA;->b:LA;"),
        Shown("field 4", OfNamed, Sought::Name(IndexKind::Field, 4), "none"),
        Shown("the greatest field", OfNamed, Sought::Name(IndexKind::Field, 0xffffffff), "none"),
        Shown("method 2", OfNamed, Sought::Name(IndexKind::Method, 2), "method LA;->a(I)V"),
        Shown("method 4", OfNamed, Sought::Name(IndexKind::Method, 4), "none"),
        Shown("the greatest method", OfNamed, Sought::Name(IndexKind::Method, 0xffffffff), "none"),
        Shown("no list", OfLists, Sought::List(0), ""),
        Shown("a list of one", OfLists, Sought::List(128), "I"),
        Shown("a list of two, V among them", OfLists, Sought::List(136), "IV"),
        Shown("an index without a row", OfLists, Sought::List(144), "none"),
        Shown("a list of size 0", OfLists, Sought::List(152), ""),
        Shown("zeros within a list", OfLists, Sought::List(132), ""),
        Shown("a list that goes over the next", OfLists, Sought::List(148), "II"),
        Shown("a misaligned list", OfLists, Sought::List(130), "none"),
        Shown("before the section", OfLists, Sought::List(124), "none"),
        Shown("the section's end", OfLists, Sought::List(156), "none"),
        Shown("past the file", OfLists, Sought::List(0xfffffffc), "none"),
        Shown("no lists, at 0", OF_ONE, Sought::List(0), ""),
        Shown("no lists, at 192", OF_ONE, Sought::List(192), "none"),
        Shown("no lists, at 252", OF_ONE, Sought::List(252), "none"),
    ];
    all_hold(rt.alloc(), &CASES)
}
