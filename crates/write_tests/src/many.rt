//! Names by number, and programs with many members.

use bumpalo::Bump;
use bumpalo::collections::into_bump_slice;
use dex_base::Fault;
use dex_samples::types::{A, B, INT, VOID};
use program_types::{
    Class, Code, Desc, FieldRef, Insn, Member, Method, MethodRef, Name, Program, Proto, Str, Try,
    alloc_str,
};

/// `m`, the name of the method with a body.
const M: Str<'static> = Str { units: &[0x6d] };

/// `()V`.
static TO_VOID: Proto<'static> = Proto {
    ret: VOID,
    params: &[],
};

/// Two units that rise with the number, each of them one of a name.
fn units_of(number: u32) -> [u16; 2] {
    [
        0x100 + (number / 4096 % 4096) as u16,
        0x100 + (number % 4096) as u16,
    ]
}

/// The name of this number: names rise with their numbers, and stand after those of ASCII letters.
pub fn name_of<'a>(arena: &'a Bump, number: u32) -> Result<Str<'a>, Fault> {
    alloc_str(arena, &units_of(number))
}

/// The class type of this number.
fn type_of<'a>(arena: &'a Bump, number: u32) -> Result<Desc<'a>, Fault> {
    let [first, second] = units_of(number);
    Ok(Desc {
        text: alloc_str(arena, &[0x4c, first, second, 0x3b])?,
    })
}

/// The field of this number, of type `I` or of a class type of its own.
fn member<'a>(arena: &'a Bump, number: u32, of_ints: bool) -> Result<Member<'a>, Fault> {
    Ok(Member {
        name: name_of(arena, number)?,
        ty: if of_ints {
            INT
        } else {
            type_of(arena, number)?
        },
        flags: 0,
    })
}

/// So many fields, all of type `I` or each of a class type of its own.
pub fn fields<'a>(arena: &'a Bump, count: u32, of_ints: bool) -> Result<&'a [Member<'a>], Fault> {
    let mut fields = Vec::new(arena);
    for number in 0..count {
        fields.push(member(arena, number, of_ints)?)?;
    }
    Ok(into_bump_slice(fields))
}

/// A prototype of its own for each number: two of 300 types.
fn proto_of<'a>(arena: &'a Bump, number: u32) -> Result<&'a Proto<'a>, Fault> {
    let first = type_of(arena, number / 300)?;
    let second = type_of(arena, number % 300)?;
    let params = arena.try_alloc_slice_copy(&[first, second])?;
    Ok(arena.try_alloc(Proto { ret: VOID, params })?)
}

/// What methods have.
#[derive(Clone, Copy)]
pub enum Has<'a> {
    /// `()V`, and this body, if there is one.
    Body(Option<&'a Code<'a>>),
    /// Each a prototype of its own, and none a body.
    OwnProto,
}

/// The method of this number.
fn method<'a>(arena: &'a Bump, number: u32, has: Has<'a>) -> Result<Method<'a>, Fault> {
    let (proto, code) = match has {
        Has::Body(code) => (&TO_VOID, code),
        Has::OwnProto => (proto_of(arena, number)?, None),
    };
    Ok(Method {
        name: name_of(arena, number)?,
        proto,
        flags: 9,
        code,
    })
}

/// So many methods.
pub fn methods<'a>(arena: &'a Bump, count: u32, has: Has<'a>) -> Result<&'a [Method<'a>], Fault> {
    let mut methods = Vec::new(arena);
    for number in 0..count {
        methods.push(method(arena, number, has)?)?;
    }
    Ok(into_bump_slice(methods))
}

/// The field of this number in a class with fields of type `I`.
pub fn field_named<'a>(arena: &'a Bump, number: u32) -> Result<Name<'a>, Fault> {
    Ok(Name::Field(arena.try_alloc(FieldRef {
        class: A,
        name: name_of(arena, number)?,
        ty: INT,
    })?))
}

/// The method of this number in a class with methods of `()V`.
pub fn method_named<'a>(arena: &'a Bump, number: u32) -> Result<Name<'a>, Fault> {
    Ok(Name::Method(arena.try_alloc(MethodRef {
        class: A,
        name: name_of(arena, number)?,
        proto: &TO_VOID,
    })?))
}

/// A body of these instructions and tries.
pub fn body<'a>(
    arena: &'a Bump,
    insns: &'a [Insn<'a>],
    tries: &'a [Try<'a>],
) -> Result<&'a Code<'a>, Fault> {
    Ok(arena.try_alloc(Code {
        registers: 2,
        ins: 0,
        outs: 0,
        insns,
        tries,
    })?)
}

/// The method `m()V` with this body, if there is one.
fn with_body<'a>(arena: &'a Bump, code: Option<&'a Code<'a>>) -> Result<&'a [Method<'a>], Fault> {
    if code.is_none() {
        return Ok(&[]);
    }
    let method = Method {
        name: M,
        proto: &TO_VOID,
        flags: 9,
        code,
    };
    Ok(arena.try_alloc_slice_copy(&[method])?)
}

/// The program of the class `LA;` with these members, and the method `m()V` with this body, if there is one.
pub fn program<'a>(
    arena: &'a Bump,
    instances: &'a [Member<'a>],
    virtuals: &'a [Method<'a>],
    code: Option<&'a Code<'a>>,
) -> Result<Program<'a>, Fault> {
    let class = Class {
        instances,
        virtuals,
        ..with_methods(A, with_body(arena, code)?)
    };
    Ok(Program {
        classes: arena.try_alloc_slice_copy(&[class])?,
    })
}

/// The class of this type with these direct methods alone.
fn with_methods<'a>(ty: Desc<'a>, directs: &'a [Method<'a>]) -> Class<'a> {
    Class {
        ty,
        flags: 1,
        superclass: None,
        interfaces: &[],
        source: None,
        statics: &[],
        values: &[],
        instances: &[],
        directs,
        virtuals: &[],
    }
}

/// The program of the classes `LA;` and `LB;`, each with the method `m()V`, with these bodies.
pub fn two_classes<'a>(
    arena: &'a Bump,
    first: &'a Code<'a>,
    second: &'a Code<'a>,
) -> Result<Program<'a>, Fault> {
    let one = with_body(arena, Some(first))?;
    let other = with_body(arena, Some(second))?;
    let classes = [with_methods(A, one), with_methods(B, other)];
    Ok(Program {
        classes: arena.try_alloc_slice_copy(&classes)?,
    })
}
