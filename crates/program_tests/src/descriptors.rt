//! Descriptors: which texts are some, of which kind, and how long the one at the front is.

use dex_base::{Fault, descriptor_length, is_array, is_class, is_descriptor};
use dex_samples::{Case, all_hold};
use std::alloc::Global;
use std::test::Fail;

/// The UTF-16 units of an ASCII text.
fn units(alloc: Global, text: &str) -> Result<Vec<u16>, Fault> {
    let mut units = Vec::new(alloc);
    for byte in text.as_bytes() {
        units.push(u16::from(*byte))?;
    }
    Ok(units)
}

/// So many `[`, and `I`.
fn ints(alloc: Global, depth: usize) -> Result<Vec<u16>, Fault> {
    let mut text = vec![in alloc; 91u16; depth]?;
    text.push(73)?;
    Ok(text)
}

#[derive(Clone, Copy)]
enum Text {
    Ascii(&'static str),
    // so many `[`, and `I`
    Ints(usize),
}

/// What is told of a text.
#[derive(Clone, Copy)]
enum Query {
    // whether it is a descriptor, whether it is one of a class, whether it is one of an array
    Kinds(bool, bool, bool),
    // the length of the descriptor at its front
    Length(Option<usize>),
}

/// A name for the case, the text, and what is told of it.
struct NamedCase(&'static str, Text, Query);

impl Case for NamedCase {
    fn name(&self) -> &'static str {
        self.0
    }

    fn holds(&self, alloc: Global) -> Result<bool, Fault> {
        let units = units_of(alloc, self.1)?;
        Ok(is_so_for(&units, self.2))
    }
}

fn units_of(alloc: Global, text: Text) -> Result<Vec<u16>, Fault> {
    match text {
        Text::Ascii(text) => units(alloc, text),
        Text::Ints(depth) => ints(alloc, depth),
    }
}

fn is_so_for(units: &[u16], query: Query) -> bool {
    match query {
        Query::Kinds(any, class, array) => {
            is_descriptor(units) == any && is_class(units) == class && is_array(units) == array
        }
        Query::Length(length) => descriptor_length(units) == length,
    }
}

#[rattlefmt::skip]
#[test]
fn descriptors_of_classes_and_arrays_are_recognized_and_measured(rt: HostRuntime) -> Result<(), Fail> {
    static CASES: [NamedCase; 39] = [
        NamedCase("[V", Text::Ascii("[V"), Query::Kinds(false, false, false)),
        NamedCase("LA", Text::Ascii("LA"), Query::Kinds(false, false, false)),
        NamedCase("L", Text::Ascii("L"), Query::Kinds(false, false, false)),
        NamedCase("L;", Text::Ascii("L;"), Query::Kinds(false, false, false)),
        NamedCase("LA//B;", Text::Ascii("LA//B;"), Query::Kinds(false, false, false)),
        NamedCase("V", Text::Ascii("V"), Query::Kinds(true, false, false)),
        NamedCase("I", Text::Ascii("I"), Query::Kinds(true, false, false)),
        NamedCase("[[J", Text::Ascii("[[J"), Query::Kinds(true, false, true)),
        NamedCase("[I", Text::Ascii("[I"), Query::Kinds(true, false, true)),
        NamedCase("LA;", Text::Ascii("LA;"), Query::Kinds(true, true, false)),
        NamedCase("LA-B/C;", Text::Ascii("LA-B/C;"), Query::Kinds(true, true, false)),
        NamedCase("Ljava/lang/Object;", Text::Ascii("Ljava/lang/Object;"), Query::Kinds(true, true, false)),
        NamedCase("", Text::Ascii(""), Query::Kinds(false, false, false)),
        NamedCase("[", Text::Ascii("["), Query::Kinds(false, false, false)),
        NamedCase("VV", Text::Ascii("VV"), Query::Kinds(false, false, false)),
        NamedCase("II", Text::Ascii("II"), Query::Kinds(false, false, false)),
        NamedCase("X", Text::Ascii("X"), Query::Kinds(false, false, false)),
        NamedCase("L/A;", Text::Ascii("L/A;"), Query::Kinds(false, false, false)),
        NamedCase("LA/;", Text::Ascii("LA/;"), Query::Kinds(false, false, false)),
        NamedCase("LA;;", Text::Ascii("LA;;"), Query::Kinds(false, false, false)),
        NamedCase("LA;I", Text::Ascii("LA;I"), Query::Kinds(false, false, false)),
        NamedCase("L<init>;", Text::Ascii("L<init>;"), Query::Kinds(false, false, false)),
        NamedCase("[[LA;", Text::Ascii("[[LA;"), Query::Kinds(true, false, true)),
        NamedCase("Z", Text::Ascii("Z"), Query::Kinds(true, false, false)),
        NamedCase("D", Text::Ascii("D"), Query::Kinds(true, false, false)),
        NamedCase("[LA;", Text::Ascii("[LA;"), Query::Kinds(true, false, true)),
        NamedCase("255 dimensions", Text::Ints(255), Query::Kinds(true, false, true)),
        NamedCase("256 dimensions", Text::Ints(256), Query::Kinds(false, false, false)),
        // The length of the descriptor at the front.
        NamedCase("the front of V", Text::Ascii("V"), Query::Length(Some(1))),
        NamedCase("the front of VI", Text::Ascii("VI"), Query::Length(Some(1))),
        NamedCase("the front of I[J", Text::Ascii("I[J"), Query::Length(Some(1))),
        NamedCase("the front of [J)V", Text::Ascii("[J)V"), Query::Length(Some(2))),
        NamedCase("the front of LA;LB;", Text::Ascii("LA;LB;"), Query::Length(Some(3))),
        NamedCase("the front of [[La/b/C;I", Text::Ascii("[[La/b/C;I"), Query::Length(Some(9))),
        NamedCase("the front of )V", Text::Ascii(")V"), Query::Length(None)),
        NamedCase("the front of [V", Text::Ascii("[V"), Query::Length(None)),
        NamedCase("the front of LA", Text::Ascii("LA"), Query::Length(None)),
        NamedCase("the front of LA:", Text::Ascii("LA:"), Query::Length(None)),
        NamedCase("the front of ", Text::Ascii(""), Query::Length(None)),
    ];
    all_hold(rt.alloc(), &CASES)
}
