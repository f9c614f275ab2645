//! The orders of names, which are those of the tables.

use dex_base::Fault;
use dex_samples::types::{A, AB, B, INT, INTS, LONG, VOID};
use dex_samples::{Case, all_hold};
use program_types::{
    Desc, FieldRef, MethodRef, Proto, Str, desc_cmp, desc_eq, field_ref_cmp, field_ref_eq,
    method_ref_cmp, method_ref_eq, proto_cmp, proto_eq, str_cmp, str_eq,
};
use std::alloc::Global;
use std::cmp::Ordering;
use std::test::Fail;

enum Named {
    Text(Str<'static>),
    Type(Desc<'static>),
    Proto(Proto<'static>),
    Field(FieldRef<'static>),
    Method(MethodRef<'static>),
}

/// What a name is called, its place among those of its kind, the name.
struct Placed(&'static str, usize, Named);

impl Case for Placed {
    fn name(&self) -> &'static str {
        self.0
    }

    /// Each compares with each of its kind as their places do.
    fn holds(&self, _alloc: Global) -> Result<bool, Fault> {
        for other in &NAMES {
            if !is_as_places(self, other) {
                return Ok(false);
            }
        }
        Ok(true)
    }
}

fn is_as_places(one: &Placed, other: &Placed) -> bool {
    match compared(&one.2, &other.2) {
        Some((order, equal)) => order == one.1.cmp(&other.1) && equal == (one.1 == other.1),
        None => true,
    }
}

/// How two names of one kind compare, and whether they are equal.
fn compared(one: &Named, other: &Named) -> Option<(Ordering, bool)> {
    match (one, other) {
        (Named::Text(a), Named::Text(b)) => Some((str_cmp(a, b), str_eq(a, b))),
        (Named::Type(a), Named::Type(b)) => Some((desc_cmp(a, b), desc_eq(a, b))),
        (Named::Proto(a), Named::Proto(b)) => Some((proto_cmp(a, b), proto_eq(a, b))),
        (Named::Field(a), Named::Field(b)) => Some((field_ref_cmp(a, b), field_ref_eq(a, b))),
        (Named::Method(a), Named::Method(b)) => Some((method_ref_cmp(a, b), method_ref_eq(a, b))),
        _ => None,
    }
}

const F: Str<'static> = Str { units: &[0x66] };

const G: Str<'static> = Str { units: &[0x67] };

const X: Str<'static> = Str { units: &[0x78] };

const Y: Str<'static> = Str { units: &[0x79] };

const CLONE: Str<'static> = Str {
    units: &[0x63, 0x6c, 0x6f, 0x6e, 0x65],
};

const TO_INT: Proto<'static> = Proto {
    ret: INT,
    params: &[],
};

const TO_VOID: Proto<'static> = Proto {
    ret: VOID,
    params: &[],
};

/// Those of each kind rise. U+10000 is the units d800 dc00.
#[rattlefmt::skip]
static NAMES: [Placed; 24] = [
    Placed("nothing", 0, Named::Text(Str { units: &[] })),
    Placed("the unit 0", 1, Named::Text(Str { units: &[0] })),
    Placed("a", 2, Named::Text(Str { units: &[0x61] })),
    Placed("a and the unit 0", 3, Named::Text(Str { units: &[0x61, 0] })),
    Placed("U+10000", 4, Named::Text(Str { units: &[0xd800, 0xdc00] })),
    Placed("U+FFFF", 5, Named::Text(Str { units: &[0xffff] })),
    Placed("I", 0, Named::Type(INT)),
    Placed("LA;", 1, Named::Type(A)),
    Placed("LAB;", 2, Named::Type(AB)),
    Placed("V", 3, Named::Type(VOID)),
    Placed("[I", 4, Named::Type(INTS)),
    Placed("()I", 0, Named::Proto(TO_INT)),
    Placed("()V", 1, Named::Proto(TO_VOID)),
    Placed("(I)V", 2, Named::Proto(Proto { ret: VOID, params: &[INT] })),
    Placed("(II)V", 3, Named::Proto(Proto { ret: VOID, params: &[INT, INT] })),
    Placed("(J)V", 4, Named::Proto(Proto { ret: VOID, params: &[LONG] })),
    Placed("LA;->x:J", 0, Named::Field(FieldRef { class: A, name: X, ty: LONG })),
    Placed("LA;->y:I", 1, Named::Field(FieldRef { class: A, name: Y, ty: INT })),
    Placed("LA;->y:J", 2, Named::Field(FieldRef { class: A, name: Y, ty: LONG })),
    Placed("LB;->a:B", 3, Named::Field(FieldRef { class: B, name: Str { units: &[0x61] }, ty: Desc { text: Str { units: &[0x42] } } })),
    Placed("LA;->f()V", 0, Named::Method(MethodRef { class: A, name: F, proto: &TO_VOID })),
    Placed("LA;->g()I", 1, Named::Method(MethodRef { class: A, name: G, proto: &TO_INT })),
    Placed("LA;->g()V", 2, Named::Method(MethodRef { class: A, name: G, proto: &TO_VOID })),
    Placed("[I->clone()I", 3, Named::Method(MethodRef { class: INTS, name: CLONE, proto: &TO_INT })),
];

#[test]
fn names_of_each_kind_are_ordered_by_their_parts(rt: HostRuntime) -> Result<(), Fail> {
    all_hold(rt.alloc(), &NAMES)
}
