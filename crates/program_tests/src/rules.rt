//! Programs that keep their rules, and programs that break one.

use crate::depths::nested;
use bumpalo::Bump;
use dex_base::{Fault, fault};
use dex_samples::types::{A, B, INT, INTS, VOID};
use dex_samples::{Case, all_hold};
use program_rules::{well_formed, well_formed_in};
use program_types::{
    Catch, Class, Code, Desc, Insn, Member, Method, Name, Program, Proto, Str, Try, Value,
};
use std::alloc::Global;
use std::test::Fail;

/// What a program is.
#[derive(Clone, Copy)]
enum Given {
    Classes(&'static [Class<'static>]),
    // a class whose one method has this body
    Body(&'static Code<'static>),
    // a class whose static field has a value of so many arrays, one in the other
    Nested(u32),
}

/// What the program is, the fault of its first class that breaks a rule, 0 where all keep them, and that class's number.
struct Ruled(&'static str, Given, u16, u64);

impl Case for Ruled {
    fn name(&self) -> &'static str {
        self.0
    }

    fn holds(&self, alloc: Global) -> Result<bool, Fault> {
        match self.1 {
            Given::Classes(classes) => Ok(is_ruled_so(alloc, classes, self)),
            Given::Body(code) => is_body_ruled_so(alloc, code, self),
            Given::Nested(arrays) => is_nested_ruled_so(alloc, arrays, self),
        }
    }
}

fn answers_so(answer: Result<(), Fault>, case: &Ruled) -> bool {
    match answer {
        Ok(()) => case.2 == 0,
        Err(fault) => fault.code == case.2 && fault.place == case.3,
    }
}

/// Without memory and by hash.
fn is_ruled_so<'a>(alloc: Global, classes: &'a [Class<'a>], case: &Ruled) -> bool {
    let program = Program { classes };
    answers_so(well_formed(&program), case) && answers_so(well_formed_in(alloc, &program), case)
}

fn is_body_ruled_so(alloc: Global, code: &Code<'_>, case: &Ruled) -> Result<bool, Fault> {
    let arena = Bump::new(alloc);
    let classes = with_body(&arena, code)?;
    Ok(is_ruled_so(alloc, classes, case))
}

fn with_body<'a>(arena: &'a Bump, code: &'a Code<'a>) -> Result<&'a [Class<'a>], Fault> {
    let directs = arena.try_alloc_slice_copy(&[method_with(code)])?;
    Ok(arena.try_alloc_slice_copy(&[class_with(&[], &[], directs)])?)
}

fn method_with<'a>(code: &'a Code<'a>) -> Method<'a> {
    Method {
        code: Some(code),
        ..METHOD
    }
}

fn is_nested_ruled_so(alloc: Global, arrays: u32, case: &Ruled) -> Result<bool, Fault> {
    let arena = Bump::new(alloc);
    let classes = with_nested(&arena, arrays)?;
    Ok(is_ruled_so(alloc, classes, case))
}

fn with_nested<'a>(arena: &'a Bump, arrays: u32) -> Result<&'a [Class<'a>], Fault> {
    let values = arena.try_alloc_slice_copy(&[nested(arena, Value::Null, arrays)?])?;
    let statics = arena.try_alloc_slice_copy(&[FIELD])?;
    Ok(arena.try_alloc_slice_copy(&[class_with(statics, values, &[])])?)
}

/// The class `LA;` with these static fields, values and methods alone.
fn class_with<'a>(
    statics: &'a [Member<'a>],
    values: &'a [Value<'a>],
    directs: &'a [Method<'a>],
) -> Class<'a> {
    Class {
        ty: A,
        flags: 0,
        superclass: None,
        interfaces: &[],
        source: None,
        statics,
        values,
        instances: &[],
        directs,
        virtuals: &[],
    }
}

// `L;`, which is no descriptor, and names.
const NO_TYPE: Desc<'static> = Desc {
    text: Str {
        units: &[0x4c, 0x3b],
    },
};

const F: Str<'static> = Str { units: &[0x66] };

const G: Str<'static> = Str { units: &[0x67] };

const NO_NAME: Str<'static> = Str { units: &[0x20] };

/// `LB;` to `LJ;`
#[rattlefmt::skip]
const NINE: [Desc<'static>; 9] = [
    B,
    Desc { text: Str { units: &[0x4c, 0x43, 0x3b] } },
    Desc { text: Str { units: &[0x4c, 0x44, 0x3b] } },
    Desc { text: Str { units: &[0x4c, 0x45, 0x3b] } },
    Desc { text: Str { units: &[0x4c, 0x46, 0x3b] } },
    Desc { text: Str { units: &[0x4c, 0x47, 0x3b] } },
    Desc { text: Str { units: &[0x4c, 0x48, 0x3b] } },
    Desc { text: Str { units: &[0x4c, 0x49, 0x3b] } },
    Desc { text: Str { units: &[0x4c, 0x4a, 0x3b] } },
];

// the same and `LB;` again
#[rattlefmt::skip]
const TEN: [Desc<'static>; 10] = [
    B,
    Desc { text: Str { units: &[0x4c, 0x43, 0x3b] } },
    Desc { text: Str { units: &[0x4c, 0x44, 0x3b] } },
    Desc { text: Str { units: &[0x4c, 0x45, 0x3b] } },
    Desc { text: Str { units: &[0x4c, 0x46, 0x3b] } },
    Desc { text: Str { units: &[0x4c, 0x47, 0x3b] } },
    Desc { text: Str { units: &[0x4c, 0x48, 0x3b] } },
    Desc { text: Str { units: &[0x4c, 0x49, 0x3b] } },
    Desc { text: Str { units: &[0x4c, 0x4a, 0x3b] } },
    B,
];

const EMPTY: Class<'static> = Class {
    ty: A,
    flags: 0,
    superclass: None,
    interfaces: &[],
    source: None,
    statics: &[],
    values: &[],
    instances: &[],
    directs: &[],
    virtuals: &[],
};

const SECOND: Class<'static> = Class { ty: B, ..EMPTY };

const FIELD: Member<'static> = Member {
    name: F,
    ty: INT,
    flags: 0,
};

const OTHER: Member<'static> = Member {
    name: G,
    ty: INT,
    flags: 0,
};

const METHOD: Method<'static> = Method {
    name: F,
    proto: &Proto {
        ret: VOID,
        params: &[],
    },
    flags: 0,
    code: None,
};

// The code of one return-void.
const BODY: Code<'static> = Code {
    registers: 1,
    ins: 0,
    outs: 0,
    insns: &[Insn::I10x { op: 0x0e }],
    tries: &[],
};

const COVER: Try<'static> = Try {
    from: 0,
    to: 1,
    catches: &[Catch { ty: A, at: 0 }],
    catch_all: None,
};

#[rattlefmt::skip]
#[test]
fn names_and_kinds_of_types_are_ruled(rt: HostRuntime) -> Result<(), Fail> {
    static CASES: [Ruled; 7] = [
        Ruled("no class", Given::Classes(&[]), 0, 0),
        Ruled(
            "a class with a field, a method and a superclass",
            Given::Classes(&[Class { superclass: Some(B), statics: &[FIELD], directs: &[METHOD], ..EMPTY }]), 0, 0,
        ),
        Ruled("a class that is an array", Given::Classes(&[Class { ty: INTS, ..EMPTY }]), fault::PROGRAM_NAME, 0),
        Ruled(
            "a superclass that is no type", Given::Classes(&[EMPTY, Class { superclass: Some(NO_TYPE), ..SECOND }]),
            fault::PROGRAM_NAME, 1,
        ),
        Ruled(
            "a field that is void", Given::Classes(&[Class { instances: &[Member { ty: VOID, ..FIELD }], ..EMPTY }]),
            fault::PROGRAM_NAME, 0,
        ),
        Ruled(
            "a field without a name",
            Given::Classes(&[Class { statics: &[Member { name: NO_NAME, ..FIELD }], ..EMPTY }]), fault::PROGRAM_NAME,
            0,
        ),
        Ruled(
            "a parameter that is void",
            Given::Classes(&[Class { virtuals: &[Method { proto: &Proto { ret: INT, params: &[VOID] }, ..METHOD }], ..EMPTY }]),
            fault::PROGRAM_NAME, 0,
        ),
    ];
    all_hold(rt.alloc(), &CASES)
}

#[rattlefmt::skip]
#[test]
fn what_a_class_holds_is_ruled(rt: HostRuntime) -> Result<(), Fail> {
    static CASES: [Ruled; 8] = [
        Ruled(
            "a virtual method with an opcode of another format",
            Given::Classes(&[Class { virtuals: &[Method { code: Some(&Code { insns: &[Insn::I10x { op: 0x01 }], ..BODY }), ..METHOD }], ..EMPTY }]),
            fault::PROGRAM_OPERAND, 0,
        ),
        Ruled(
            "an array in a value that names no type",
            Given::Classes(&[Class { statics: &[FIELD], values: &[Value::Array(&[Value::Null, Value::Desc(NO_TYPE)])], ..EMPTY }]),
            fault::PROGRAM_NAME, 0,
        ),
        Ruled("fields by name", Given::Classes(&[Class { statics: &[FIELD, OTHER], ..EMPTY }]), 0, 0),
        Ruled(
            "fields that fall", Given::Classes(&[Class { statics: &[OTHER, FIELD], ..EMPTY }]),
            fault::PROGRAM_MEMBER_ORDER, 0,
        ),
        Ruled(
            "a method given twice", Given::Classes(&[Class { directs: &[METHOD, METHOD], ..EMPTY }]),
            fault::PROGRAM_MEMBER_ORDER, 0,
        ),
        Ruled(
            "a value and no static field",
            Given::Classes(&[Class { values: &[Value::Null], instances: &[FIELD], ..EMPTY }]), fault::PROGRAM_VALUES,
            0,
        ),
        Ruled("a value of 64 arrays, one in the other", Given::Nested(64), 0, 0),
        Ruled("a value of 65", Given::Nested(65), fault::PROGRAM_VALUES, 0),
    ];
    all_hold(rt.alloc(), &CASES)
}

#[rattlefmt::skip]
#[test]
fn the_order_of_classes_is_ruled(rt: HostRuntime) -> Result<(), Fail> {
    static CASES: [Ruled; 5] = [
        Ruled("a class after its superclass", Given::Classes(&[EMPTY, Class { superclass: Some(A), ..SECOND }]), 0, 0),
        Ruled(
            "a class before its superclass", Given::Classes(&[Class { superclass: Some(B), ..EMPTY }, SECOND]),
            fault::PROGRAM_CLASS_ORDER, 0,
        ),
        Ruled(
            "a class that is its own interface", Given::Classes(&[EMPTY, Class { interfaces: &[B], ..SECOND }]),
            fault::PROGRAM_CLASS_ORDER, 1,
        ),
        Ruled("a class defined twice", Given::Classes(&[EMPTY, EMPTY]), fault::PROGRAM_CLASS_ORDER, 1),
        Ruled(
            "a class before its superclass that is defined twice",
            Given::Classes(&[EMPTY, Class { superclass: Some(A), ..SECOND }, EMPTY]), fault::PROGRAM_CLASS_ORDER, 1,
        ),
    ];
    all_hold(rt.alloc(), &CASES)
}

#[rattlefmt::skip]
#[test]
fn interfaces_are_ruled_and_the_first_class_with_a_fault_is_reported(rt: HostRuntime) -> Result<(), Fail> {
    static CASES: [Ruled; 5] = [
        Ruled("nine interfaces", Given::Classes(&[Class { interfaces: &NINE, ..EMPTY }]), 0, 0),
        Ruled(
            "nine interfaces and the first again", Given::Classes(&[SECOND, Class { interfaces: &TEN, ..EMPTY }]),
            fault::PROGRAM_CLASS_ORDER, 1,
        ),
        Ruled(
            "an interface given twice", Given::Classes(&[Class { interfaces: &[B, B], ..EMPTY }]),
            fault::PROGRAM_CLASS_ORDER, 0,
        ),
        Ruled(
            "a field without a name, in a class that is its own superclass",
            Given::Classes(&[Class { superclass: Some(A), statics: &[Member { name: NO_NAME, ..FIELD }], ..EMPTY }]),
            fault::PROGRAM_NAME, 0,
        ),
        Ruled(
            "a class that is its own superclass, before one with a field without a name",
            Given::Classes(&[Class { superclass: Some(A), ..EMPTY }, Class { statics: &[Member { name: NO_NAME, ..FIELD }], ..SECOND }]),
            fault::PROGRAM_CLASS_ORDER, 0,
        ),
    ];
    all_hold(rt.alloc(), &CASES)
}

#[rattlefmt::skip]
#[test]
fn instructions_are_ruled(rt: HostRuntime) -> Result<(), Fail> {
    static CASES: [Ruled; 14] = [
        Ruled("return-void", Given::Body(&BODY), 0, 0),
        Ruled("no instruction", Given::Body(&Code { insns: &[], ..BODY }), fault::PROGRAM_OPERAND, 0),
        Ruled(
            "const-string of a type",
            Given::Body(&Code { insns: &[Insn::I21c { op: 0x1a, a: 0, name: Name::Desc(A) }], ..BODY }),
            fault::PROGRAM_OPERAND, 0,
        ),
        Ruled(
            "a register above 15", Given::Body(&Code { insns: &[Insn::I12x { op: 0x01, a: 16, b: 0 }], ..BODY }),
            fault::PROGRAM_OPERAND, 0,
        ),
        Ruled(
            "goto itself", Given::Body(&Code { insns: &[Insn::I10t { op: 0x28, to: 0 }], ..BODY }),
            fault::PROGRAM_TARGET, 0,
        ),
        Ruled("goto/32 itself", Given::Body(&Code { insns: &[Insn::I30t { op: 0x2a, to: 0 }], ..BODY }), 0, 0),
        Ruled(
            "goto past the end", Given::Body(&Code { insns: &[Insn::I10t { op: 0x28, to: 1 }], ..BODY }),
            fault::PROGRAM_TARGET, 0,
        ),
        Ruled(
            "goto/32 past the end", Given::Body(&Code { insns: &[Insn::I30t { op: 0x2a, to: 4294967295 }], ..BODY }),
            fault::PROGRAM_TARGET, 0,
        ),
        Ruled(
            "if-eqz past the end", Given::Body(&Code { insns: &[Insn::I21t { op: 0x38, a: 0, to: 1 }], ..BODY }),
            fault::PROGRAM_TARGET, 0,
        ),
        Ruled(
            "if-eq past the end",
            Given::Body(&Code { insns: &[Insn::I22t { op: 0x32, a: 0, b: 0, to: 1 }], ..BODY }),
            fault::PROGRAM_TARGET, 0,
        ),
        Ruled(
            "goto a payload",
            Given::Body(&Code { insns: &[Insn::I10t { op: 0x28, to: 1 }, Insn::Data { width: 1, bytes: &[] }], ..BODY }),
            fault::PROGRAM_TARGET, 0,
        ),
        Ruled("the last register", Given::Body(&Code { insns: &[Insn::I11x { op: 0x0f, a: 0 }], ..BODY }), 0, 0),
        Ruled(
            "a register past it", Given::Body(&Code { insns: &[Insn::I11x { op: 0x0f, a: 1 }], ..BODY }),
            fault::PROGRAM_REGISTER, 0,
        ),
        Ruled("ins past the registers", Given::Body(&Code { ins: 2, ..BODY }), fault::PROGRAM_REGISTER, 0),
    ];
    all_hold(rt.alloc(), &CASES)
}

#[rattlefmt::skip]
#[test]
fn payloads_are_ruled(rt: HostRuntime) -> Result<(), Fail> {
    static CASES: [Ruled; 8] = [
        Ruled(
            "a switch and its payload",
            Given::Body(&Code { insns: &[Insn::I31t { op: 0x2b, a: 0, to: 1 }, Insn::Packed { first: 0, targets: &[0] }], ..BODY }),
            0, 0,
        ),
        Ruled(
            "a switch's payload that nothing uses",
            Given::Body(&Code { insns: &[Insn::Packed { first: 0, targets: &[] }], ..BODY }),
            fault::PROGRAM_PAYLOAD_USE, 0,
        ),
        Ruled(
            "two switches with one payload",
            Given::Body(&Code { insns: &[Insn::I31t { op: 0x2b, a: 0, to: 2 }, Insn::I31t { op: 0x2b, a: 0, to: 2 }, Insn::Packed { first: 0, targets: &[] }], ..BODY }),
            fault::PROGRAM_PAYLOAD_USE, 0,
        ),
        Ruled(
            "a switch with a payload of another kind",
            Given::Body(&Code { insns: &[Insn::I31t { op: 0x2c, a: 0, to: 1 }, Insn::Data { width: 2, bytes: &[] }], ..BODY }),
            fault::PROGRAM_PAYLOAD_USE, 0,
        ),
        Ruled(
            "a switch to a place past the end",
            Given::Body(&Code { insns: &[Insn::I31t { op: 0x2b, a: 0, to: 1 }, Insn::Packed { first: 0, targets: &[2] }], ..BODY }),
            fault::PROGRAM_TARGET, 0,
        ),
        Ruled(
            "a switch by keys to a place past the end",
            Given::Body(&Code { insns: &[Insn::I31t { op: 0x2c, a: 0, to: 1 }, Insn::Sparse { keys: &[7], targets: &[2] }], ..BODY }),
            fault::PROGRAM_TARGET, 0,
        ),
        Ruled(
            "a switch whose payload is past the end",
            Given::Body(&Code { insns: &[Insn::I31t { op: 0x2b, a: 0, to: 1 }], ..BODY }),
            fault::PROGRAM_PAYLOAD_USE, 0,
        ),
        Ruled(
            "fill-array-data past the end",
            Given::Body(&Code { insns: &[Insn::I31t { op: 0x26, a: 0, to: 4294967295 }], ..BODY }),
            fault::PROGRAM_PAYLOAD_USE, 0,
        ),
    ];
    all_hold(rt.alloc(), &CASES)
}

#[rattlefmt::skip]
#[test]
fn tries_are_ruled(rt: HostRuntime) -> Result<(), Fail> {
    static CASES: [Ruled; 6] = [
        Ruled("a try with a handler", Given::Body(&Code { tries: &[COVER], ..BODY }), 0, 0),
        Ruled(
            "a try that covers nothing", Given::Body(&Code { tries: &[Try { to: 0, ..COVER }], ..BODY }),
            fault::PROGRAM_TRY, 0,
        ),
        Ruled(
            "a try past the end", Given::Body(&Code { tries: &[Try { to: 2, ..COVER }], ..BODY }),
            fault::PROGRAM_TRY, 0,
        ),
        Ruled(
            "a handler that is no instruction",
            Given::Body(&Code { tries: &[Try { catches: &[Catch { ty: A, at: 1 }], ..COVER }], ..BODY }),
            fault::PROGRAM_TRY, 0,
        ),
        Ruled(
            "a handler of all that is no instruction",
            Given::Body(&Code { tries: &[Try { catch_all: Some(1), ..COVER }], ..BODY }), fault::PROGRAM_TRY, 0,
        ),
        Ruled(
            "a try without a handler", Given::Body(&Code { tries: &[Try { catches: &[], ..COVER }], ..BODY }),
            fault::PROGRAM_TRY, 0,
        ),
    ];
    all_hold(rt.alloc(), &CASES)
}
