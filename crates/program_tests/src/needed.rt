//! The names that are needed, and their ranks.
ghost use Rattle.std.specs.Prelude.{List, IfOk, map};
ghost use Rattle.std.specs.List.{AllByRecursion};
ghost use Rattle.program_types.specs.Content.{Descriptor};
ghost use Rattle.program_types.specs.View as view;
ghost use Rattle.tables_names.specs.Closure.{HasShorty, method_of_class};
ghost use Rattle.tables_names.specs.Noted.{members_of};

use crate::ranks_shown::shown_ranks;
use bumpalo::Bump;
use bumpalo::collections::into_bump_slice;
use dex_base::Fault;
use dex_samples::types::A;
use dex_samples::{Case, all_hold, field, is_so, method, proto, text, ty};
use program_types::{Class, Member, Method, Name};
use std::alloc::Global;
use std::test::Fail;
use tables_names::{Needed, Noted, Ranks};

/// A name by its parts.
#[derive(Clone, Copy)]
enum NameText {
    Text(&'static str),
    Type(&'static str),
    // return type, parameters
    Proto(&'static str, &'static [&'static str]),
    // class, name, type
    Field(&'static str, &'static str, &'static str),
    // class, name, return type, parameters
    Method(&'static str, &'static str, &'static str, &'static [&'static str]),
}

// `LA;->f:I` and `LA;->m()V`.
const F: NameText = NameText::Field("LA;", "f", "I");

const M: NameText = NameText::Method("LA;", "m", "V", &[]);

/// A name of each kind.
static EACH: [NameText; 5] = [
    NameText::Text("x"),
    NameText::Type("[I"),
    NameText::Proto("V", &["J"]),
    F,
    M,
];

/// What a name can be.
static NAMED: [NameText; 4] = [
    NameText::Text("x"),
    NameText::Type("[I"),
    F,
    NameText::Method("LA;", "m", "V", &["J"]),
];

/// What a prototype is called, its return type, its parameters, its rank among these.
type Prototype = (&'static str, &'static str, &'static [&'static str], u32);

static PROTOS: [Prototype; 5] = [
    ("()V", "V", &[], 1),
    ("(I)V", "V", &["I"], 2),
    ("(II)V", "V", &["I", "I"], 3),
    ("(J)V", "V", &["J"], 4),
    ("()I", "I", &[], 0),
];

/// Which names are added.
#[derive(Clone, Copy)]
enum Added {
    One(NameText),
    // prototypes, each given by its place in the list above, in this order
    Prototypes(&'static [usize]),
    // a name of each kind from either arena, where both say the same
    Each,
    // what can be named, by its kind
    Names,
    // the members of a class
    Members,
}

/// What is asked of the ranks.
#[derive(Clone, Copy)]
enum Query {
    // they are shown so
    Shown(&'static str),
    // the rank of this one, which is found by its kind
    Rank(NameText, Option<u32>),
    // .. by its name
    RankOfName(NameText, Option<u32>),
    // the prototypes of the list above have theirs
    Prototypes,
    // beside the members of a class are the ranks of their parts
    Parts,
    // so many names of each kind are there
    Counts([usize; 5]),
}

struct Ranked(&'static str, Added, Query);

impl Case for Ranked {
    fn name(&self) -> &'static str {
        self.0
    }

    fn holds(&self, alloc: Global) -> Result<bool, Fault> {
        let (here, there) = (Bump::new(alloc), Bump::new(alloc));
        is_ranked_so(alloc, &here, &there, self)
    }
}

fn is_ranked_so<'a>(
    alloc: Global,
    here: &'a Bump,
    there: &'a Bump,
    case: &Ranked,
) -> Result<bool, Fault> {
    let ranks = ranks_of(alloc, here, there, case.1)?;
    ranks.holds_parts();
    ranks.rise();
    is_answered(alloc, there, &ranks, case.2)
}

fn ranks_of<'a>(
    alloc: Global,
    here: &'a Bump,
    there: &'a Bump,
    added: Added,
) -> Result<Ranks<'a>, Fault> {
    let mut needed = Needed::new(alloc);
    add(&mut needed, here, there, added)?;
    needed.holds_parts();
    needed.freeze()
}

fn add<'a>(
    needed: &mut Needed<'a>,
    here: &'a Bump,
    there: &'a Bump,
    added: Added,
) -> Result<(), Fault> {
    match added {
        Added::One(name_text) => add_name_text(needed, here, name_text),
        Added::Prototypes(order) => add_protos(needed, here, order),
        Added::Names => add_names(needed, here, &NAMED),
        Added::Members => add_members(needed, here),
        Added::Each => {
            add_all(needed, here, &EACH)?;
            add_all(needed, there, &EACH)
        }
    }
}

fn add_all<'a>(needed: &mut Needed<'a>, arena: &'a Bump, all: &[NameText]) -> Result<(), Fault> {
    for name_text in all {
        add_name_text(needed, arena, *name_text)?;
    }
    Ok(())
}

fn add_name_text<'a>(
    needed: &mut Needed<'a>,
    arena: &'a Bump,
    name_text: NameText,
) -> Result<(), Fault> {
    match name_text {
        NameText::Text(string) => needed.add_string(text(arena, string)?),
        NameText::Type(descriptor) => needed.add_type(ty(arena, descriptor)?),
        NameText::Proto(ret, params) => needed.add_proto(arena, proto(arena, ret, params)?),
        NameText::Field(class, name, kind) => needed.add_field(field(arena, class, name, kind)?),
        NameText::Method(class, name, ret, params) => {
            needed.add_method(arena, method(arena, class, name, ret, params)?)
        }
    }
}

fn add_names<'a>(needed: &mut Needed<'a>, arena: &'a Bump, all: &[NameText]) -> Result<(), Fault> {
    for name_text in all {
        add_name(needed, arena, *name_text)?;
    }
    Ok(())
}

/// A prototype is no name.
fn add_name<'a>(
    needed: &mut Needed<'a>,
    arena: &'a Bump,
    name_text: NameText,
) -> Result<(), Fault> {
    match name_text {
        NameText::Text(string) => needed.add_name(arena, Name::Text(text(arena, string)?)),
        NameText::Type(descriptor) => needed.add_name(arena, Name::Desc(ty(arena, descriptor)?)),
        NameText::Field(class, name, kind) => {
            needed.add_name(arena, Name::Field(field(arena, class, name, kind)?))
        }
        NameText::Method(class, name, ret, params) => {
            let m = method(arena, class, name, ret, params)?;
            needed.add_name(arena, Name::Method(m))
        }
        NameText::Proto(_, _) => Ok(()),
    }
}

/// Adds these prototypes, each given by its place in the list above, in this order.
fn add_protos<'a>(needed: &mut Needed<'a>, arena: &'a Bump, order: &[usize]) -> Result<(), Fault> {
    for place in order {
        let (_, ret, params, _) = PROTOS[*place % PROTOS.len()];
        needed.add_proto(arena, proto(arena, ret, params)?)?;
    }
    Ok(())
}

/// What LA; defines: LA;->g:J, LA;->m(J)V, LA;->f:I and LA;->m()V.
fn add_members<'a>(needed: &mut Needed<'a>, arena: &'a Bump) -> Result<(), Fault> {
    needed.add_field(field(arena, "LA;", "g", "J")?)?;
    needed.add_method(arena, method(arena, "LA;", "m", "V", &["J"])?)?;
    needed.add_field(field(arena, "LA;", "f", "I")?)?;
    needed.add_method(arena, method(arena, "LA;", "m", "V", &[])?)
}

fn own_field<'a>(arena: &'a Bump, name: &str, kind: &str) -> Result<Member<'a>, Fault> {
    Ok(Member {
        name: text(arena, name)?,
        ty: ty(arena, kind)?,
        flags: 0,
    })
}

fn is_answered<'a>(
    alloc: Global,
    arena: &'a Bump,
    ranks: &Ranks<'a>,
    query: Query,
) -> Result<bool, Fault> {
    match query {
        Query::Shown(want) => are_shown_so(alloc, ranks, want),
        Query::Rank(name_text, want) => Ok(rank_of(arena, ranks, name_text)? == want),
        Query::RankOfName(name_text, want) => Ok(rank_of_name(arena, ranks, name_text)? == want),
        Query::Prototypes => are_protos_ranked(arena, ranks),
        Query::Parts => Ok(are_parts_beside(ranks)),
        Query::Counts(counts) => Ok(are_so_many(ranks, counts)),
    }
}

fn rank_of<'a>(
    arena: &'a Bump,
    ranks: &Ranks<'a>,
    name_text: NameText,
) -> Result<Option<u32>, Fault> {
    Ok(match name_text {
        NameText::Text(string) => ranks.index_of_string(text(arena, string)?),
        NameText::Type(descriptor) => ranks.index_of_type(ty(arena, descriptor)?),
        NameText::Proto(ret, params) => ranks.index_of_proto(proto(arena, ret, params)?),
        NameText::Field(class, name, kind) => ranks.index_of_field(field(
            arena, class, name, kind,
        )?),
        NameText::Method(class, name, ret, params) => {
            ranks.index_of_method(method(arena, class, name, ret, params)?)
        }
    })
}

/// A prototype is no name.
fn rank_of_name<'a>(
    arena: &'a Bump,
    ranks: &Ranks<'a>,
    name_text: NameText,
) -> Result<Option<u32>, Fault> {
    let name = match name_text {
        NameText::Text(string) => Name::Text(text(arena, string)?),
        NameText::Type(descriptor) => Name::Desc(ty(arena, descriptor)?),
        NameText::Field(class, name, kind) => Name::Field(field(arena, class, name, kind)?),
        NameText::Method(class, name, ret, params) => {
            Name::Method(method(arena, class, name, ret, params)?)
        }
        NameText::Proto(_, _) => return Ok(None),
    };
    Ok(ranks.index_of(name))
}

fn are_protos_ranked<'a>(arena: &'a Bump, ranks: &Ranks<'a>) -> Result<bool, Fault> {
    for (_, ret, params, want) in &PROTOS {
        if ranks.index_of_proto(proto(arena, ret, params)?) != Some(*want) {
            return Ok(false);
        }
    }
    Ok(true)
}

fn are_parts_beside(ranks: &Ranks<'_>) -> bool {
    let are_fields = match ranks.field_parts() {
        [f, g] => (f.class, f.name, f.ty) == (2, 5, 0) && (g.class, g.name, g.ty) == (2, 6, 1),
        _ => false,
    };
    let are_methods = match ranks.method_parts() {
        [none, many] => {
            (none.class, none.name, none.proto) == (2, 7, 0)
                && (many.class, many.name, many.proto) == (2, 7, 1)
        }
        _ => false,
    };
    let are_protos = match ranks.proto_parts() {
        [none, many] => none.ret == 3 && many.ret == 3,
        _ => false,
    };
    are_fields
        && are_methods
        && are_protos
        && matches!(ranks.type_parts(), [_, _, class, _] if class.text == 2)
}

fn are_shown_so(alloc: Global, ranks: &Ranks<'_>, want: &str) -> Result<bool, Fault> {
    let shown = shown_ranks(alloc, ranks)?;
    Ok(shown.as_str() == want)
}

fn are_so_many(ranks: &Ranks<'_>, counts: [usize; 5]) -> bool {
    let [strings, types, protos, fields, methods] = counts;
    ranks.strings().len() == strings
        && ranks.types().len() == types
        && ranks.protos().len() == protos
        && ranks.fields().len() == fields
        && ranks.methods().len() == methods
}

const PROTOS_SHOWN: &str =
    "strings: I J V VI VII VJ \ntypes: I J V \nprotos: ()I ()V (I)V (II)V (J)V \nfields: \nmethods: ";

#[rattlefmt::skip]
#[test]
fn names_added_in_any_order_rank_with_what_they_need(rt: HostRuntime) -> Result<(), Fail> {
    static CASES: [Ranked; 15] = [
        // A method alone needs its class, its name and its prototype.
        Ranked(
            "a method", Added::One(M),
            Query::Shown("strings: LA; V m \ntypes: LA; V \nprotos: ()V \nfields: \nmethods: LA;->m()V "),
        ),
        Ranked("a method: the string LA;", Added::One(M), Query::Rank(NameText::Text("LA;"), Some(0))),
        Ranked("a method: the string V", Added::One(M), Query::Rank(NameText::Text("V"), Some(1))),
        Ranked("a method: the string m", Added::One(M), Query::Rank(NameText::Text("m"), Some(2))),
        Ranked("a method: the type LA;", Added::One(M), Query::Rank(NameText::Type("LA;"), Some(0))),
        Ranked("a method: the type V", Added::One(M), Query::Rank(NameText::Type("V"), Some(1))),
        Ranked("a method: the type m", Added::One(M), Query::Rank(NameText::Type("m"), None)),
        // Prototypes rank by return type and then by parameters, however often and in whatever order they are
        // added.
        Ranked("each once", Added::Prototypes(&[0, 1, 2, 3, 4]), Query::Prototypes),
        Ranked("each once, shown", Added::Prototypes(&[0, 1, 2, 3, 4]), Query::Shown(PROTOS_SHOWN)),
        Ranked("each twice", Added::Prototypes(&[0, 0, 1, 1, 2, 2, 3, 3, 4, 4]), Query::Prototypes),
        Ranked("each twice, shown", Added::Prototypes(&[0, 0, 1, 1, 2, 2, 3, 3, 4, 4]), Query::Shown(PROTOS_SHOWN)),
        Ranked("forwards and backwards", Added::Prototypes(&[0, 1, 2, 3, 4, 4, 3, 2, 1, 0]), Query::Prototypes),
        Ranked(
            "forwards and backwards, shown", Added::Prototypes(&[0, 1, 2, 3, 4, 4, 3, 2, 1, 0]),
            Query::Shown(PROTOS_SHOWN),
        ),
        Ranked("mixed", Added::Prototypes(&[3, 1, 4, 0, 2, 1, 2, 0, 3, 4]), Query::Prototypes),
        Ranked("mixed, shown", Added::Prototypes(&[3, 1, 4, 0, 2, 1, 2, 0, 3, 4]), Query::Shown(PROTOS_SHOWN)),
    ];
    all_hold(rt.alloc(), &CASES)
}

#[rattlefmt::skip]
#[test]
fn names_of_each_kind_and_members_of_a_class_are_found_by_their_ranks(rt: HostRuntime) -> Result<(), Fail> {
    static CASES: [Ranked; 23] = [
        // Equal names of two arenas are one name of each kind.
        Ranked(
            "each twice", Added::Each,
            Query::Shown("strings: I J LA; V VJ [I f m x \ntypes: I J LA; V [I \nprotos: ()V (J)V \nfields: LA;->f:I \nmethods: LA;->m()V "),
        ),
        Ranked("how many", Added::Each, Query::Counts([9, 5, 2, 1, 1])),
        Ranked("the string I", Added::Each, Query::Rank(NameText::Text("I"), Some(0))),
        Ranked("the string VJ", Added::Each, Query::Rank(NameText::Text("VJ"), Some(4))),
        Ranked("the string [I", Added::Each, Query::Rank(NameText::Text("[I"), Some(5))),
        Ranked("the string f", Added::Each, Query::Rank(NameText::Text("f"), Some(6))),
        Ranked("the string x", Added::Each, Query::Rank(NameText::Text("x"), Some(8))),
        Ranked("the string y", Added::Each, Query::Rank(NameText::Text("y"), None)),
        Ranked("the type I", Added::Each, Query::Rank(NameText::Type("I"), Some(0))),
        Ranked("the type J", Added::Each, Query::Rank(NameText::Type("J"), Some(1))),
        Ranked("the type LA;", Added::Each, Query::Rank(NameText::Type("LA;"), Some(2))),
        Ranked("the type V", Added::Each, Query::Rank(NameText::Type("V"), Some(3))),
        Ranked("the type [I", Added::Each, Query::Rank(NameText::Type("[I"), Some(4))),
        Ranked("the type VJ", Added::Each, Query::Rank(NameText::Type("VJ"), None)),
        Ranked("the field", Added::Each, Query::Rank(F, Some(0))),
        Ranked("the method", Added::Each, Query::Rank(M, Some(0))),
        Ranked("the field as a name", Added::Each, Query::RankOfName(F, Some(0))),
        Ranked("the method as a name", Added::Each, Query::RankOfName(M, Some(0))),
        Ranked("a text as a name", Added::Each, Query::RankOfName(NameText::Text("x"), Some(8))),
        Ranked("a type as a name", Added::Each, Query::RankOfName(NameText::Type("[I"), Some(4))),
        // What is named is added by its kind.
        Ranked(
            "names", Added::Names,
            Query::Shown("strings: I J LA; V VJ [I f m x \ntypes: I J LA; V [I \nprotos: (J)V \nfields: LA;->f:I \nmethods: LA;->m(J)V "),
        ),
        // Beside the members of a class stand the ranks of their parts.
        Ranked(
            "members", Added::Members,
            Query::Shown("strings: I J LA; V VJ f g m \ntypes: I J LA; V \nprotos: ()V (J)V \nfields: LA;->f:I LA;->g:J \nmethods: LA;->m()V LA;->m(J)V "),
        ),
        Ranked("their parts", Added::Members, Query::Parts),
    ];
    all_hold(rt.alloc(), &CASES)
}

/// x, LA;->f:I, and x once more.
fn note_three<'a>(noted: &mut Noted<'a>, arena: &'a Bump) -> Result<(), Fault> {
    noted.add_name(arena, Name::Text(text(arena, "x")?))?;
    noted.add_name(arena, Name::Field(field(arena, "LA;", "f", "I")?))?;
    noted.add_name(arena, Name::Text(text(arena, "x")?))
}

fn noted_ranks<'a>(alloc: Global, arena: &'a Bump) -> Result<Vec<usize>, Fault> {
    let mut noted = Needed::new(alloc).noting();
    note_three(&mut noted, arena)?;
    let (_, numbers) = noted.freeze()?;
    Ok(numbers)
}

/// The strings are I, LA;, f and x; there is one field.
fn are_noted_so(alloc: Global) -> Result<bool, Fault> {
    let arena = Bump::new(alloc);
    let ranks = noted_ranks(alloc, &arena)?;
    Ok(ranks.as_slice() == [3, 0, 3].as_slice())
}

fn one_field<'a>(arena: &'a Bump, name: &str, kind: &str) -> Result<&'a [Member<'a>], Fault> {
    let mut fields = Vec::new(arena);
    fields.push(own_field(arena, name, kind)?)?;
    Ok(into_bump_slice(fields))
}

/// `m()V`.
fn one_method<'a>(arena: &'a Bump) -> Result<&'a [Method<'a>], Fault>
    ensures { IfOk result (λ all. (class : Descriptor) → AllByRecursion HasShorty (map (method_of_class class) (map view.method all.now))) }
{
    let mut methods = Vec::new(arena);
    methods.push(Method {
        name: text(arena, "m")?,
        proto: proto(arena, "V", &[])?,
        flags: 0x401,
        code: None,
    })?;
    Ok(into_bump_slice(methods))
}

/// `LA;`, which defines these members.
fn class_with<'a>(
    statics: &'a [Member<'a>],
    instances: &'a [Member<'a>],
    directs: &'a [Method<'a>],
) -> Class<'a>
    requires { (class : Descriptor) → AllByRecursion HasShorty (map (method_of_class class) (map view.method directs.now)) }
    ensures { AllByRecursion HasShorty (members_of (view.class result)) }
{
    Class {
        ty: A,
        flags: 1,
        superclass: None,
        interfaces: &[],
        source: None,
        statics,
        instances,
        directs,
        virtuals: &[],
        values: &[],
    }
}

/// The ranks of the members of a class, in the order in which they are noted.
fn member_ranks<'a>(alloc: Global, arena: &'a Bump, class: &Class<'a>) -> Result<Vec<usize>, Fault>
    requires { AllByRecursion HasShorty (members_of (view.class class.now)) }
{
    let mut noted = Needed::new(alloc).noting();
    noted.add_members_of(arena, class)?;
    let (_, ranks) = noted.freeze()?;
    Ok(ranks)
}

/// LA;->g:J ranks after LA;->f:I.
fn are_members_noted_so(alloc: Global) -> Result<bool, Fault> {
    let arena = Bump::new(alloc);
    let (g, f) = (one_field(&arena, "g", "J")?, one_field(&arena, "f", "I")?);
    let class = class_with(g, f, one_method(&arena)?);
    let ranks = member_ranks(alloc, &arena, &class)?;
    Ok(ranks.as_slice() == [1, 0, 0].as_slice())
}

#[test]
fn what_is_noted_has_its_ranks_in_the_order_of_mention(rt: HostRuntime) -> Result<(), Fail> {
    is_so(are_noted_so(rt.alloc()))
}

#[test]
fn members_of_a_class_are_noted_by_the_order_of_their_groups(rt: HostRuntime) -> Result<(), Fail> {
    is_so(are_members_noted_so(rt.alloc()))
}
