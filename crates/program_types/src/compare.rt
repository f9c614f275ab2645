//! `==` and `cmp` of names: names are equal if their contents are, wherever they lie in memory, and are ordered as the rows of
//! their table ("Dalvik Executable format", "File layout").

ghost use Rattle.std.specs.Prelude.{◌≡◌, ◌↔◌, IsTrue};
ghost use Rattle.std.specs.Cmp.{IsTotalOrder};
ghost use Rattle.std.specs.FinSet.{IsAntisymmetric};
ghost use Rattle.program_types.specs.Content as content;
ghost use Rattle.program_types.specs.View.{str, desc, proto, field_ref, method_ref};
ghost use Rattle.program_types.specs.Key.{units_cmp, text_key, proto_key, field_ref_key, method_ref_key, key_cmp};

use crate::names::{Desc, FieldRef, MethodRef, Proto, Str};
use std::cmp::Ordering;

/// `==` of strings: whether they have the same units.
pub fn str_eq(text: &Str<'_>, other: &Str<'_>) -> bool
    ensures { IsTrue result ↔ (str text.now ≡ str other.now) }
{
    text == other
}

/// `==` of types: whether they have the same descriptor.
pub fn desc_eq(ty: &Desc<'_>, other: &Desc<'_>) -> bool
    ensures { IsTrue result ↔ (desc ty.now ≡ desc other.now) }
{
    ty == other
}

/// `==` of prototypes: whether they have the same return type and the same parameters.
pub fn proto_eq(prototype: &Proto<'_>, other: &Proto<'_>) -> bool
    ensures { IsTrue result ↔ (proto prototype.now ≡ proto other.now) }
{
    prototype == other
}

/// `==` of fields: whether they have the same class, name and type.
pub fn field_ref_eq(field: &FieldRef<'_>, other: &FieldRef<'_>) -> bool
    ensures { IsTrue result ↔ (field_ref field.now ≡ field_ref other.now) }
{
    field == other
}

/// `==` of methods: whether they have the same class, name and prototype.
pub fn method_ref_eq(method: &MethodRef<'_>, other: &MethodRef<'_>) -> bool
    ensures { IsTrue result ↔ (method_ref method.now ≡ method_ref other.now) }
{
    method == other
}

/// The order of strings: that of their UTF-16 units, which is the order of string_ids.
pub fn str_cmp(text: &Str<'_>, other: &Str<'_>) -> Ordering
    ensures units { result ≡ units_cmp (str text.now) (str other.now) }
    ensures key { result ≡ key_cmp (text_key (str text.now)) (text_key (str other.now)) }
{
    text.cmp(other)
}

/// The order of types: that of their descriptors, which is the order of type_ids.
pub fn desc_cmp(ty: &Desc<'_>, other: &Desc<'_>) -> Ordering
    ensures { result ≡ key_cmp (text_key (desc ty.now)) (text_key (desc other.now)) }
{
    ty.cmp(other)
}

/// The order of prototypes: by return type, then by parameters, which is the order of proto_ids.
pub fn proto_cmp(prototype: &Proto<'_>, other: &Proto<'_>) -> Ordering
    ensures { result ≡ key_cmp (proto_key (proto prototype.now)) (proto_key (proto other.now)) }
{
    prototype.cmp(other)
}

/// The order of fields: by class, name and type, which is the order of field_ids.
pub fn field_ref_cmp(field: &FieldRef<'_>, other: &FieldRef<'_>) -> Ordering
    ensures { result ≡ key_cmp (field_ref_key (field_ref field.now)) (field_ref_key (field_ref other.now)) }
{
    field.cmp(other)
}

/// The order of methods: by class, name and prototype, which is the order of method_ids.
pub fn method_ref_cmp(method: &MethodRef<'_>, other: &MethodRef<'_>) -> Ordering
    ensures { result ≡ key_cmp (method_ref_key (method_ref method.now)) (method_ref_key (method_ref other.now)) }
{
    method.cmp(other)
}

/// Laws of the orders: keys are in a strict total order, and a kind's key determines its name. So `cmp` is `Equal` if and only if
/// `==` is true, and no two distinct names tie.
pub fn key_laws()
    ensures total { IsTotalOrder key_cmp }
    ensures no_ties { IsAntisymmetric key_cmp }
    ensures protos { (p q : content.Proto) → proto_key p ≡ proto_key q → p ≡ q }
    ensures fields { (f g : content.FieldRef) → field_ref_key f ≡ field_ref_key g → f ≡ g }
    ensures methods { (m n : content.MethodRef) → method_ref_key m ≡ method_ref_key n → m ≡ n }
{}
