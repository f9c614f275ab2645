//! The members of classes: their names, and their order.

ghost use Rattle.std.specs.Prelude.{◌≡◌, ◌↔◌, ◌<◌, ◌+◌, length, map, IsTrue, IfSome};
ghost use Rattle.std.specs.List.{AllByRecursion};
ghost use Rattle.dex_base.specs.Descriptor.{IsClass};
ghost use Rattle.program_types.specs.View.{member, method, class, code};
ghost use Rattle.program_types.specs.Key.{key_cmp};
ghost use Rattle.program_rules.specs.inner.Valid.{InsnsAreNamed};
ghost use Rattle.program_rules.specs.Rules.{member_key, method_key, CodesHold, IsBelowNext, KeysRise, MembersRise, NamesAreValid};
ghost use Rattle.program_rules.specs.inner.Parts.{FieldIsValid, MethodIsValid};

use crate::bodies::code_is_valid;
use crate::names::{are_classes, is_valid_proto, is_value_type};
use crate::values::values_are_valid;
use dex_base::is_member_name;
use program_types::{Class, Member, Method, desc_cmp, is_class_type, proto_cmp, str_cmp};
use std::cmp::Ordering;

/// Whether a file can have the field, if its class is one.
fn field_is_valid(one: &Member<'_>) -> bool
    ensures { IsTrue result ↔ FieldIsValid (member one.now) }
{
    if !is_member_name(one.name.units) {
        return false;
    }
    is_value_type(one.ty)
}

/// Whether a file can have all of the fields.
fn fields_are_valid(all: &[Member<'_>]) -> bool
    ensures { IsTrue result ↔ AllByRecursion FieldIsValid (map member all.now) }
{
    for each in all {
        if !field_is_valid(each) {
            return false;
        }
    }
    true
}

/// Whether a file can have the method, if its class is one, and all names in its body, if it may be known that it can have those
/// in its instructions.
fn method_is_valid(one: &Method<'_>, known: bool) -> bool
    requires { IsTrue known → IfSome (method one.now).code InsnsAreNamed }
    ensures { IsTrue result ↔ MethodIsValid (method one.now) }
{
    if !is_member_name(one.name.units) {
        return false;
    }
    if !is_valid_proto(one.proto) {
        return false;
    }
    match one.code {
        Some(body) => code_is_valid(body, known),
        None => true,
    }
}

/// Whether a file can have all of the methods.
fn methods_are_valid(all: &[Method<'_>], known: bool) -> bool
    requires { IsTrue known → AllByRecursion (λ m. IfSome m.code InsnsAreNamed) (map method all.now) }
    ensures { IsTrue result ↔ AllByRecursion MethodIsValid (map method all.now) }
{
    for each in all {
        if !method_is_valid(each, known) {
            return false;
        }
    }
    true
}

/// Whether the class, its superclass and its interfaces are class types.
fn types_are_classes(one: &Class<'_>) -> bool
    ensures { IsTrue result ↔ (IsClass (class one.now).ty × IfSome (class one.now).superclass IsClass × AllByRecursion IsClass (class one.now).interfaces) }
{
    if !is_class_type(one.ty) {
        return false;
    }
    if !are_classes(one.interfaces) {
        return false;
    }
    match one.superclass {
        Some(above) => is_class_type(above),
        None => true,
    }
}

/// Whether a file can have all names in the class, if it may be known that it can have those in its instructions.
pub(crate) fn names_are_valid(one: &Class<'_>, known: bool) -> bool
    requires { IsTrue known → CodesHold InsnsAreNamed (class one.now) }
    ensures { IsTrue result ↔ NamesAreValid (class one.now) }
{
    if !types_are_classes(one) {
        return false;
    }
    if !fields_are_valid(one.statics) {
        return false;
    }
    if !values_are_valid(one.values) {
        return false;
    }
    if !fields_are_valid(one.instances) {
        return false;
    }
    if !methods_are_valid(one.directs, known) {
        return false;
    }
    methods_are_valid(one.virtuals, known)
}

/// The order of fields of one class.
fn member_cmp(one: &Member<'_>, other: &Member<'_>) -> Ordering
    ensures { result ≡ key_cmp (member_key (member one.now)) (member_key (member other.now)) }
{
    match str_cmp(&one.name, &other.name) {
        Ordering::Equal => desc_cmp(&one.ty, &other.ty),
        order => order,
    }
}

/// The order of methods of one class.
fn method_cmp(one: &Method<'_>, other: &Method<'_>) -> Ordering
    ensures { result ≡ key_cmp (method_key (method one.now)) (method_key (method other.now)) }
{
    match str_cmp(&one.name, &other.name) {
        Ordering::Equal => proto_cmp(one.proto, other.proto),
        order => order,
    }
}

/// Whether field `k` is below the next one.
fn is_field_below(all: &[Member<'_>], k: usize) -> bool
    requires inside { k + 1 < length all.now }
    ensures { IsTrue result ↔ IsBelowNext (map member_key (map member all.now)) k }
{
    let one = &all[k];
    let next = &all[k + 1];
    member_cmp(one, next) == Ordering::Less
}

/// Whether method `k` is below the next one.
fn is_method_below(all: &[Method<'_>], k: usize) -> bool
    requires inside { k + 1 < length all.now }
    ensures { IsTrue result ↔ IsBelowNext (map method_key (map method all.now)) k }
{
    let one = &all[k];
    let next = &all[k + 1];
    method_cmp(one, next) == Ordering::Less
}

/// Whether fields strictly rise.
fn fields_rise(all: &[Member<'_>]) -> bool
    ensures { IsTrue result ↔ KeysRise (map member_key (map member all.now)) }
{
    for k in 1..all.len() {
        if !is_field_below(all, k - 1) {
            return false;
        }
    }
    true
}

/// Whether methods strictly rise.
fn methods_rise(all: &[Method<'_>]) -> bool
    ensures { IsTrue result ↔ KeysRise (map method_key (map method all.now)) }
{
    for k in 1..all.len() {
        if !is_method_below(all, k - 1) {
            return false;
        }
    }
    true
}

/// Whether the members of the class strictly rise.
pub(crate) fn members_rise(one: &Class<'_>) -> bool
    ensures { IsTrue result ↔ MembersRise (class one.now) }
{
    if !fields_rise(one.statics) {
        return false;
    }
    if !fields_rise(one.instances) {
        return false;
    }
    if !methods_rise(one.directs) {
        return false;
    }
    methods_rise(one.virtuals)
}
