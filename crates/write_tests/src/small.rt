//! The program of the file `ONE_CLASS`, and others of few classes.

use dex_samples::types::{A, B, INT, VOID};
use program_types::{Class, Code, Desc, Insn, Member, Method, Proto, Str, Value};

const OBJECT: Desc<'static> = Desc {
    text: Str {
        units: &[
            0x4c, 0x6a, 0x61, 0x76, 0x61, 0x2f, 0x6c, 0x61, 0x6e, 0x67, 0x2f, 0x4f, 0x62, 0x6a,
            0x65, 0x63, 0x74, 0x3b,
        ],
    },
};

/// Return-void.
pub const RETURN: Insn<'static> = Insn::I10x { op: 0x0e };

/// A packed-switch of three units, and its payload right after it, at an odd address.
pub static SWITCH: [Insn<'static>; 2] = [
    Insn::I31t {
        op: 0x2b,
        a: 0,
        to: 1,
    },
    Insn::Packed {
        first: 0,
        targets: &[0],
    },
];

/// Return-void alone, in one register.
pub const BODY: Code<'static> = Code {
    registers: 1,
    ins: 0,
    outs: 0,
    insns: &[RETURN],
    tries: &[],
};

/// The method `m()V`, public and static.
pub const METHOD: Method<'static> = Method {
    name: Str { units: &[0x6d] },
    proto: &Proto {
        ret: VOID,
        params: &[],
    },
    flags: 9,
    code: Some(&BODY),
};

/// The class `LA;` without members.
pub const EMPTY: Class<'static> = Class {
    ty: A,
    flags: 1,
    superclass: Some(OBJECT),
    interfaces: &[],
    source: None,
    statics: &[],
    values: &[],
    instances: &[],
    directs: &[],
    virtuals: &[],
};

/// The class of the file `ONE_CLASS`.
pub const ONE: Class<'static> = Class {
    directs: &[METHOD],
    ..EMPTY
};

/// .. with a second direct method, `n()V`, of equal body.
pub const TWO: Class<'static> = Class {
    directs: &[
        METHOD,
        Method {
            name: Str { units: &[0x6e] },
            ..METHOD
        },
    ],
    ..EMPTY
};

/// The class `LA;` with the method `m(I)V`.
pub const WITH_PARAMETER: Class<'static> = Class {
    directs: &[Method {
        proto: &Proto {
            ret: VOID,
            params: &[INT],
        },
        code: Some(&Code { ins: 1, ..BODY }),
        ..METHOD
    }],
    ..EMPTY
};

const I: Desc<'static> = Desc {
    text: Str {
        units: &[0x4c, 0x49, 0x3b],
    },
};

/// A class that implements `LI;`, with the method `m(LI;)V`.
pub const WITH_LISTS: &[Class<'static>] = &[Class {
    interfaces: &[I],
    directs: &[Method {
        proto: &Proto {
            ret: VOID,
            params: &[I],
        },
        code: None,
        ..METHOD
    }],
    ..EMPTY
}];

/// Two classes with the method `m()V`, of equal bodies.
pub const WITH_BODIES: &[Class<'static>] = &[
    Class {
        directs: &[METHOD],
        ..EMPTY
    },
    Class {
        ty: B,
        virtuals: &[Method {
            code: Some(&BODY),
            ..METHOD
        }],
        ..EMPTY
    },
];

const SEVEN: Class<'static> = Class {
    statics: &[Member {
        name: Str { units: &[0x61] },
        ty: INT,
        flags: 9,
    }],
    values: &[Value::Int(7)],
    ..EMPTY
};

/// Three classes with a static field `a`, of the values 7, 7 and 8.
pub const WITH_VALUES: &[Class<'static>] = &[
    SEVEN,
    Class { ty: B, ..SEVEN },
    Class {
        ty: I,
        values: &[Value::Int(8)],
        ..SEVEN
    },
];
