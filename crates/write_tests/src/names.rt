//! Programs with as many names as a file can have, as far as instructions reach, and one more.

use crate::many::{Has, body, field_named, fields, method_named, methods, program};
use crate::small::RETURN;
use bumpalo::Bump;
use dex_base::Fault;
use program_types::{Code, Insn, Member, Method, Name, Program, Str};

/// A program with many names.
#[derive(Clone, Copy)]
pub enum Many {
    /// so many types beside the class's own
    Types(u32),
    /// so many prototypes
    Protos(u32),
    /// so many fields
    Fields(u32),
    /// 65537 fields, and an iget of the one of this number
    Field(u32),
    /// `m`, 65536 methods after it, and in `m` an invoke-static of the one of this number
    Method(u32),
    /// so many names of fields, and a const-string of the text after them all
    Text(u32),
    /// .. a const-string/jumbo
    Jumbo(u32),
}

/// The text after all names of fields.
const LAST: Str<'static> = Str { units: &[0xffff] };

fn fields_of<'a>(arena: &'a Bump, many: Many) -> Result<&'a [Member<'a>], Fault> {
    match many {
        Many::Types(count) => fields(arena, count, false),
        Many::Fields(count) | Many::Text(count) | Many::Jumbo(count) => fields(arena, count, true),
        Many::Field(_) => fields(arena, 65537, true),
        Many::Protos(_) | Many::Method(_) => Ok(&[]),
    }
}

fn methods_of<'a>(arena: &'a Bump, many: Many) -> Result<&'a [Method<'a>], Fault> {
    match many {
        Many::Protos(count) => methods(arena, count, Has::OwnProto),
        Many::Method(_) => methods(arena, 65536, Has::Body(None)),
        _ => Ok(&[]),
    }
}

/// The instruction that names one of them.
fn insn_of<'a>(arena: &'a Bump, many: Many) -> Result<Option<Insn<'a>>, Fault> {
    let (a, b) = (0, 0);
    let one = match many {
        Many::Types(_) | Many::Protos(_) | Many::Fields(_) => return Ok(None),
        Many::Field(number) => Insn::I22c {
            op: 0x52,
            a,
            b,
            name: field_named(arena, number)?,
        },
        Many::Method(number) => Insn::I35c {
            op: 0x71,
            n: 0,
            regs: [0; 5],
            name: method_named(arena, number)?,
        },
        Many::Text(_) => Insn::I21c {
            op: 0x1a,
            a,
            name: Name::Text(LAST),
        },
        Many::Jumbo(_) => Insn::I31c {
            op: 0x1b,
            a,
            name: Name::Text(LAST),
        },
    };
    Ok(Some(one))
}

/// The body in which it stands.
fn code_of<'a>(arena: &'a Bump, many: Many) -> Result<Option<&'a Code<'a>>, Fault> {
    match insn_of(arena, many)? {
        Some(insn) => {
            let insns = arena.try_alloc_slice_copy(&[insn, RETURN])?;
            Ok(Some(body(arena, insns, &[])?))
        }
        None => Ok(None),
    }
}

/// The program.
pub fn of_many<'a>(arena: &'a Bump, many: Many) -> Result<Program<'a>, Fault> {
    let fields = fields_of(arena, many)?;
    let methods = methods_of(arena, many)?;
    program(arena, fields, methods, code_of(arena, many)?)
}
