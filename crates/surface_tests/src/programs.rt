//! dex_program.
ghost use Rattle.std.specs.Prelude.{All, map};
ghost use Rattle.dex_base.specs.Descriptor.{IsDescriptor};
ghost use Rattle.program_types.specs.View.{desc};

use bumpalo::Bump;
use dex_base::Fault;
use dex_program::{
    Catch, Class, Code, Desc, FieldRef, Insn, Member, Method, MethodRef, Name, Program, Proto, Str,
    Try, Value, shorty_of, well_formed,
};
use std::alloc::Global;

fn copied<T: Copy>(_one: T) {}

/// Each type is `Copy`.
pub fn names_are_copy<'a>(
    text: Str<'a>,
    ty: Desc<'a>,
    proto: Proto<'a>,
    field: FieldRef<'a>,
    method: MethodRef<'a>,
    name: Name<'a>,
) {
    copied(text);
    copied(ty);
    copied(proto);
    copied(field);
    copied(method);
    copied(name);
}

pub fn values_and_codes_are_copy<'a>(
    value: Value<'a>,
    insn: Insn<'a>,
    catch: Catch<'a>,
    covered: Try<'a>,
    code: Code<'a>,
) {
    copied(value);
    copied(insn);
    copied(catch);
    copied(covered);
    copied(code);
}

pub fn classes_are_copy<'a>(
    member: Member<'a>,
    method: Method<'a>,
    class: Class<'a>,
    program: Program<'a>,
) {
    copied(member);
    copied(method);
    copied(class);
    copied(program);
}

pub fn text<'a>(units: &'a [u16]) -> Str<'a> {
    Str { units }
}

pub fn ty<'a>(text: Str<'a>) -> Desc<'a> {
    Desc { text }
}

pub fn proto<'a>(ret: Desc<'a>, params: &'a [Desc<'a>]) -> Proto<'a> {
    Proto { ret, params }
}

pub fn field<'a>(class: Desc<'a>, name: Str<'a>, ty: Desc<'a>) -> FieldRef<'a> {
    FieldRef { class, name, ty }
}

pub fn method<'a>(class: Desc<'a>, name: Str<'a>, proto: &'a Proto<'a>) -> MethodRef<'a> {
    MethodRef { class, name, proto }
}

/// Each variant, and what it holds with its type.
pub fn parts_of_name<'a>(name: Name<'a>) {
    match name {
        Name::Text(text) => a_text(text),
        Name::Desc(ty) => a_type(ty),
        Name::Field(field) => a_field(field),
        Name::Method(method) => a_method(method),
    }
}

/// Each variant, and what it holds with its type.
pub fn parts_of_value<'a>(value: Value<'a>) {
    match value {
        Value::Byte(number) => signed(number, 0, 0, 0),
        Value::Short(number) => signed(0, number, 0, 0),
        Value::Int(number) => signed(0, 0, number, 0),
        Value::Long(number) => signed(0, 0, 0, number),
        Value::Char(unit) => unsigned(unit, 0, 0),
        Value::Float(bits) => unsigned(0, bits, 0),
        Value::Double(bits) => unsigned(0, 0, bits),
        Value::Text(text) => a_text(text),
        Value::Desc(ty) => a_type(ty),
        Value::Field(field) => a_field(field),
        Value::Method(method) => a_method(method),
        Value::Enum(field) => a_field(field),
        Value::Array(values) => some_values(values),
        Value::Null => {}
        Value::Bool(is_so) => a_bool(is_so),
    }
}

fn a_text(_text: Str<'_>) {}

fn a_type(_ty: Desc<'_>) {}

fn a_field<'a>(_field: &'a FieldRef<'a>) {}

fn a_method<'a>(_method: &'a MethodRef<'a>) {}

fn some_values<'a>(_values: &'a [Value<'a>]) {}

fn a_bool(_is_so: bool) {}

fn signed(_byte: i8, _short: i16, _int: i32, _long: i64) {}

fn unsigned(_char: u16, _float: u32, _double: u64) {}

/// Each variant, and each of its fields with its type.
pub fn parts_of_insn<'a>(insn: Insn<'a>) {
    match insn {
        Insn::I10x { op } => bytes([op, 0, 0, 0]),
        Insn::I12x { op, a, b } => bytes([op, a, b, 0]),
        Insn::I11n { op, a, b } => byte(op, a, b),
        Insn::I11x { op, a } => bytes([op, a, 0, 0]),
        Insn::I10t { op, to } => branch(op, 0, to),
        Insn::I20t { op, to } => branch(op, 0, to),
        Insn::I22x { op, a, b } => unit(op, a, b),
        Insn::I21t { op, a, to } => branch(op, a, to),
        Insn::I21s { op, a, b } => short(op, a, b),
        Insn::I21h { op, a, b } => short(op, a, b),
        Insn::I21c { op, a, name } => named(op, a, name),
        Insn::I23x { op, a, b, c } => bytes([op, a, b, c]),
        Insn::I22b { op, a, b, c } => byte_of_two(op, a, b, c),
        Insn::I22t { op, a, b, to } => branch_of_two(op, a, b, to),
        Insn::I22s { op, a, b, c } => short_of_two(op, a, b, c),
        Insn::I22c { op, a, b, name } => named_of_two(op, a, b, name),
        Insn::I30t { op, to } => branch(op, 0, to),
        Insn::I32x { op, a, b } => units(op, a, b),
        Insn::I31i { op, a, b } => wide(op, a, b),
        Insn::I31t { op, a, to } => branch(op, a, to),
        Insn::I31c { op, a, name } => named(op, a, name),
        Insn::I35c { op, n, regs, name } => listed(op, n, regs, name),
        Insn::I3rc { op, n, first, name } => ranged(op, n, first, name),
        Insn::I51l { op, a, b } => long(op, a, b),
        Insn::Packed { first, targets } => packed(first, targets),
        Insn::Sparse { keys, targets } => sparse(keys, targets),
        Insn::Data { width, bytes } => data(width, bytes),
    }
}

fn bytes(_parts: [u8; 4]) {}

fn byte(_op: u8, _a: u8, _literal: i8) {}

fn byte_of_two(_op: u8, _a: u8, _b: u8, _literal: i8) {}

fn short(_op: u8, _a: u8, _literal: i16) {}

fn short_of_two(_op: u8, _a: u8, _b: u8, _literal: i16) {}

fn wide(_op: u8, _a: u8, _literal: i32) {}

fn long(_op: u8, _a: u8, _literal: i64) {}

fn unit(_op: u8, _a: u8, _b: u16) {}

fn units(_op: u8, _a: u16, _b: u16) {}

fn branch(_op: u8, _a: u8, _to: u32) {}

fn branch_of_two(_op: u8, _a: u8, _b: u8, _to: u32) {}

fn named(_op: u8, _a: u8, _name: Name<'_>) {}

fn named_of_two(_op: u8, _a: u8, _b: u8, _name: Name<'_>) {}

fn listed(_op: u8, _n: u8, _regs: [u8; 5], _name: Name<'_>) {}

fn ranged(_op: u8, _n: u8, _first: u16, _name: Name<'_>) {}

fn packed<'a>(_first: i32, _targets: &'a [u32]) {}

fn sparse<'a>(_keys: &'a [i32], _targets: &'a [u32]) {}

fn data<'a>(_width: u16, _bytes: &'a [u8]) {}

pub fn catch<'a>(ty: Desc<'a>, at: u32) -> Catch<'a> {
    Catch { ty, at }
}

pub fn covered<'a>(
    from: u32,
    to: u32,
    catches: &'a [Catch<'a>],
    catch_all: Option<u32>,
) -> Try<'a> {
    Try {
        from,
        to,
        catches,
        catch_all,
    }
}

pub fn code<'a>(
    registers: u16,
    ins: u16,
    outs: u16,
    insns: &'a [Insn<'a>],
    tries: &'a [Try<'a>],
) -> Code<'a> {
    Code {
        registers,
        ins,
        outs,
        insns,
        tries,
    }
}

pub fn member<'a>(name: Str<'a>, ty: Desc<'a>, flags: u32) -> Member<'a> {
    Member { name, ty, flags }
}

pub fn defined_method<'a>(
    name: Str<'a>,
    proto: &'a Proto<'a>,
    flags: u32,
    code: Option<&'a Code<'a>>,
) -> Method<'a> {
    Method {
        name,
        proto,
        flags,
        code,
    }
}

pub fn class_without_members<'a>(
    ty: Desc<'a>,
    flags: u32,
    superclass: Option<Desc<'a>>,
    interfaces: &'a [Desc<'a>],
    source: Option<Str<'a>>,
) -> Class<'a> {
    Class {
        ty,
        flags,
        superclass,
        interfaces,
        source,
        statics: &[],
        values: &[],
        instances: &[],
        directs: &[],
        virtuals: &[],
    }
}

pub fn class_with_members<'a>(
    class: Class<'a>,
    statics: &'a [Member<'a>],
    values: &'a [Value<'a>],
    instances: &'a [Member<'a>],
    directs: &'a [Method<'a>],
    virtuals: &'a [Method<'a>],
) -> Class<'a> {
    let Class {
        ty,
        flags,
        superclass,
        interfaces,
        source,
        ..
    } = class;
    Class {
        ty,
        flags,
        superclass,
        interfaces,
        source,
        statics,
        values,
        instances,
        directs,
        virtuals,
    }
}

pub fn program<'a>(classes: &'a [Class<'a>]) -> Program<'a> {
    Program { classes }
}

pub fn shorty<'a>(
    alloc: Global,
    arena: &'a Bump,
    ret: Desc<'_>,
    params: &[Desc<'_>],
) -> Result<Str<'a>, Fault>
    requires ret { IsDescriptor (desc ret) }
    requires params { All IsDescriptor (map desc params.now) }
{
    shorty_of(alloc, arena, ret, params)
}

pub fn rules(program: &Program<'_>) -> Result<(), Fault> {
    well_formed(program)
}
