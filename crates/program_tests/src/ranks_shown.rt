//! The names that are needed, as text, each at its rank.

use dex_base::Fault;
use dex_samples::{put_field, put_method, put_proto, put_units};
use std::alloc::Global;
use tables_names::Ranks;

#[derive(Clone, Copy)]
enum Kind {
    Strings,
    Types,
    Protos,
    Fields,
    Methods,
}

/// What stands before the names of each kind.
static KINDS: [(&str, Kind); 5] = [
    ("strings: ", Kind::Strings),
    ("\ntypes: ", Kind::Types),
    ("\nprotos: ", Kind::Protos),
    ("\nfields: ", Kind::Fields),
    ("\nmethods: ", Kind::Methods),
];

/// A line for each kind, and each name before a space, up to the first rank that has none.
pub fn shown_ranks(alloc: Global, ranks: &Ranks<'_>) -> Result<String, Fault> {
    let mut text = String::new(alloc);
    put_kinds(&mut text, ranks)?;
    Ok(text)
}

fn put_kinds(text: &mut String, ranks: &Ranks<'_>) -> Result<(), Fault> {
    for (heading, kind) in &KINDS {
        text.push_str(heading)?;
        put_names(text, ranks, *kind)?;
    }
    Ok(())
}

fn put_names(text: &mut String, ranks: &Ranks<'_>, kind: Kind) -> Result<(), Fault> {
    // more than any kind of these tests has
    for rank in 0..100 {
        if !put_name_at(text, ranks, kind, rank)? {
            break;
        }
    }
    Ok(())
}

/// Adds the name of this rank and a space, if there is one, and tells whether there is.
fn put_name_at(text: &mut String, ranks: &Ranks<'_>, kind: Kind, rank: u32) -> Result<bool, Fault> {
    match kind {
        Kind::Strings => match ranks.string(rank) {
            Some(string) => put_units(text, string)?,
            None => return Ok(false),
        },
        Kind::Types => match ranks.type_(rank) {
            Some(ty) => put_units(text, ty.text)?,
            None => return Ok(false),
        },
        Kind::Protos => match ranks.proto(rank) {
            Some(proto) => put_proto(text, &proto)?,
            None => return Ok(false),
        },
        Kind::Fields => match ranks.field(rank) {
            Some(field) => put_field(text, &field)?,
            None => return Ok(false),
        },
        Kind::Methods => match ranks.method(rank) {
            Some(method) => put_method(text, &method)?,
            None => return Ok(false),
        },
    }
    text.push(' ')?;
    Ok(true)
}
