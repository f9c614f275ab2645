//! Adds names to an empty `Needed` and freezes it: `needed KIND COUNT ORDER`, where KIND is `string`, `field` or `method` and ORDER
//! is `rising`, `falling`, `random` or `mentions` (each of COUNT / 100 names a hundred times, one after another). It prints how many
//! names there are of all five kinds. bench/needed/run times it beside bench/needed/plain.rs.

ghost use Rattle.std.specs.Prelude.{IsTrue, All, map};
ghost use Rattle.dex_base.specs.Descriptor.{IsDescriptor};
ghost use Rattle.program_types.specs.View.{desc};

use crate::words::{number, word};
use bumpalo::Bump;
use dex_base::{Fault, fault, is_descriptor};
use program_types::{Desc, FieldRef, MethodRef, Proto, Str, alloc_proto, alloc_str};
use std::alloc::Global;
use std::io;
use tables_names::{Needed, Ranks};

/// `Labcdefgh;` for a number, so that the order of numbers is that of texts.
fn numbered<'a>(arena: &'a Bump, number: u32) -> Result<Str<'a>, Fault> {
    let mut units = [76, 97, 97, 97, 97, 97, 97, 97, 97, 59];
    let mut rest = number;
    for i in 0..8 {
        units[8 - i] = 97 + (rest % 16) as u16;
        rest /= 16;
    }
    alloc_str(arena, &units)
}

/// Whether all types have a letter in the shorty.
fn has_shorty(proto: &Proto<'_>) -> bool
    ensures ret { IsTrue result → IsDescriptor (desc proto.now.ret) }
    ensures params { IsTrue result → All IsDescriptor (map desc proto.now.params.now) }
{
    for param in proto.params {
        if !is_descriptor(param.text.units) {
            return false;
        }
    }
    is_descriptor(proto.ret.text.units)
}

/// What each field and method has beside its name.
#[derive(Clone, Copy)]
struct Parts<'a> {
    class: Desc<'a>,
    int: Desc<'a>,
    proto: &'a Proto<'a>,
}

/// A class, `I`, and the prototype of a method that takes and returns these.
fn make_parts<'a>(arena: &'a Bump) -> Result<Parts<'a>, Fault> {
    let class = Desc {
        text: numbered(arena, 1)?,
    };
    let int = Desc {
        text: alloc_str(arena, &[73])?,
    };
    let params = arena.try_alloc_slice_copy(&[class, int])?;
    let proto = alloc_proto(arena, int, params)?;
    Ok(Parts { class, int, proto })
}

/// What is added.
#[derive(Clone, Copy)]
enum Kind {
    Text,
    Field,
    Method,
}

/// Adds a name of the kind.
fn add_one<'a>(
    needed: &mut Needed<'a>,
    arena: &'a Bump,
    of: Parts<'a>,
    kind: Kind,
    name: Str<'a>,
) -> Result<(), Fault> {
    match kind {
        Kind::Text => needed.add_string(name),
        Kind::Field => {
            let field = arena.try_alloc(FieldRef {
                class: of.class,
                name,
                ty: of.int,
            })?;
            needed.add_field(field)
        }
        Kind::Method => add_method(needed, arena, of, name),
    }
}

/// Adds a method of this name.
fn add_method<'a>(
    needed: &mut Needed<'a>,
    arena: &'a Bump,
    of: Parts<'a>,
    name: Str<'a>,
) -> Result<(), Fault> {
    if !has_shorty(of.proto) {
        return Err(Fault::at(fault::PROTO_INDEX, 0));
    }
    let method = arena.try_alloc(MethodRef {
        class: of.class,
        name,
        proto: of.proto,
    })?;
    needed.add_method(arena, method)
}

/// In which order.
#[derive(Clone, Copy)]
enum Order {
    Rising,
    Falling,
    Random,
    Mentions,
}

/// The number of the name that is added at turn i.
fn number_at(order: Order, i: u32, count: u32) -> u32 {
    match order {
        Order::Rising => i,
        Order::Falling => count.saturating_sub(i),
        Order::Random => i.wrapping_mul(2654435761) % 268435456,
        Order::Mentions => i / 100,
    }
}

/// Adds all names.
fn add_all<'a>(
    needed: &mut Needed<'a>,
    arena: &'a Bump,
    kind: Kind,
    count: u32,
    order: Order,
) -> Result<(), Fault> {
    let of = make_parts(arena)?;
    for i in 0..count {
        let name = numbered(arena, number_at(order, i, count))?;
        add_one(needed, arena, of, kind, name)?;
    }
    Ok(())
}

/// How many names there are.
fn count_of(ranks: &Ranks<'_>) -> u64 {
    let strings = ranks.strings().len() as u64;
    let types = ranks.types().len() as u64;
    let members = (ranks.fields().len() as u64).wrapping_add(ranks.methods().len() as u64);
    strings
        .wrapping_add(types)
        .wrapping_add(ranks.protos().len() as u64)
        .wrapping_add(members)
}

/// How many names there are once they are frozen.
fn frozen<'a>(needed: Needed<'a>) -> Result<u64, Fault> {
    let ranks = needed.freeze()?;
    Ok(count_of(&ranks))
}

/// Adds all names and freezes them.
fn work(alloc: Global, kind: Kind, count: u32, order: Order) -> Result<u64, Fault> {
    let arena = Bump::new(alloc);
    let mut needed = Needed::new(alloc);
    add_all(&mut needed, &arena, kind, count, order)?;
    frozen(needed)
}

/// Runs the command of these words.
pub fn run(rt: &(impl Print + Alloc<A = Global>), words: &[&str]) -> io::Result<()> {
    let kind = match word(words, 0) {
        "field" => Kind::Field,
        "method" => Kind::Method,
        _ => Kind::Text,
    };
    let order = match word(words, 2) {
        "falling" => Order::Falling,
        "random" => Order::Random,
        "mentions" => Order::Mentions,
        _ => Order::Rising,
    };
    match work(rt.alloc(), kind, number(words, 1), order) {
        Ok(answer) => println!(rt; "{answer}"),
        Err(fault) => println!(rt; "fault {}", fault.code),
    }
}
