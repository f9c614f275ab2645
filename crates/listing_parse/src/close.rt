//! What is whole is placed in the arena.

ghost use Rattle.std.specs.Prelude.{◌≡◌, ◌∷◌, ◌≤◌, length, map, IfOk, IsOkUnless, Some};
ghost use Rattle.dex_base.specs.Fault.{memory};
ghost use Rattle.program_types.specs.Key.{proto_key};
ghost use Rattle.program_types.specs.View.{desc, str, proto, member, method, value, class, code};
ghost use Rattle.listing_parse.specs.Zeros.{zero_of};
ghost use Rattle.listing_parse.specs.Members.{value_or_zero, given_length, values_of};
ghost use Rattle.listing_parse.specs.States.{closed, with_code};
ghost use Rattle.listing_parse.specs.inner.View.{given, held_static, held_instance, held_method, open_class};

use crate::open_class::{Defined, FieldKey, MethodKey, Open, Static};
use bumpalo::Bump;
use bumpalo::collections::into_bump_slice;
use dex_base::Fault;
use program_types::{Class, Code, Desc, Member, Method, Proto, Str, Value};
use std::collections::BTreeMap;

/// A static field, and its value where the text gives one.
#[derive(Clone, Copy)]
pub struct Given<'a> {
    pub field: Member<'a>,
    pub value: Option<Value<'a>>,
}

/// The zero of a type.
#[rattlefmt::skip]
fn zero_of<'a>(ty: Desc<'_>) -> Value<'a>
    ensures { value result ≡ zero_of (desc ty.entry) }
{
    if ty.text.units.len() == 0 {
        return Value::Null;
    }
    let first = ty.text.units[0];
    if first == u16::from(b'Z') { return Value::Bool(false); }
    if first == u16::from(b'B') { return Value::Byte(0); }
    if first == u16::from(b'S') { return Value::Short(0); }
    if first == u16::from(b'C') { return Value::Char(0); }
    if first == u16::from(b'I') { return Value::Int(0); }
    if first == u16::from(b'J') { return Value::Long(0); }
    if first == u16::from(b'F') { return Value::Float(0); }
    if first == u16::from(b'D') { return Value::Double(0); }
    Value::Null
}

fn value_or_zero<'a>(one: &Given<'a>) -> Value<'a>
    ensures { value result ≡ value_or_zero (given one.now) }
{
    match one.value {
        Some(initial) => initial,
        None => zero_of(one.field.ty),
    }
}

/// How many fields there are up to the last one that has a value.
#[tactic(auto, unfolding(crate::specs::Members::given_length))]
fn given_length(all: &[Given<'_>]) -> usize
    ensures length { result ≡ given_length (map given all.now) }
    ensures within { result ≤ length all.now }
{
    let mut n = 0;
    for i in 0..all.len() {
        if all[i].value.is_some() {
            n = i + 1;
        }
    }
    n
}

/// The values of the fields.
fn alloc_values<'a>(alloc: &'a Bump, all: &[Given<'a>]) -> Result<&'a [Value<'a>], Fault>
    ensures ok { IfOk result (λ vs. map value vs.now ≡ values_of (map given all.now)) }
    ensures memory { IsOkUnless result memory }
{
    let n = given_length(all);
    let mut values = Vec::with_capacity(alloc, n)?;
    for i in 0..n {
        values.push(value_or_zero(&all[i]))?;
    }
    Ok(into_bump_slice(values))
}

fn alloc_fields<'a>(alloc: &'a Bump, all: &[Given<'a>]) -> Result<&'a [Member<'a>], Fault>
    ensures ok { IfOk result (λ ms. map member ms.now ≡ map (λ g. g.field) (map given all.now)) }
    ensures memory { IsOkUnless result memory }
{
    let mut fields = Vec::with_capacity(alloc, all.len())?;
    for i in 0..all.len() {
        fields.push(all[i].field)?;
    }
    Ok(into_bump_slice(fields))
}

/// The static fields in their order.
fn givens_of<'a>(
    alloc: &'a Bump,
    all: &BTreeMap<FieldKey<'a>, Static<'a>>,
) -> Result<&'a [Given<'a>], Fault>
    ensures ok { IfOk result (λ gs. map given gs.now ≡ map held_static all.now.entries) }
    ensures memory { IsOkUnless result memory }
{
    let mut fields = Vec::with_capacity(alloc, all.len())?;
    for (key, held) in all {
        let field = Member {
            name: key.0,
            ty: key.1,
            flags: held.flags,
        };
        fields.push(Given {
            field,
            value: held.value,
        })?;
    }
    Ok(into_bump_slice(fields))
}

/// The instance fields in their order.
fn instances_of<'a>(
    alloc: &'a Bump,
    all: &BTreeMap<FieldKey<'a>, u32>,
) -> Result<&'a [Member<'a>], Fault>
    ensures ok { IfOk result (λ ms. map member ms.now ≡ map held_instance all.now.entries) }
    ensures memory { IsOkUnless result memory }
{
    let mut fields = Vec::with_capacity(alloc, all.len())?;
    for (key, flags) in all {
        fields.push(Member {
            name: key.0,
            ty: key.1,
            flags: *flags,
        })?;
    }
    Ok(into_bump_slice(fields))
}

/// The methods in their order.
fn methods_of<'a>(
    alloc: &'a Bump,
    all: &BTreeMap<MethodKey<'a>, Defined<'a>>,
) -> Result<&'a [Method<'a>], Fault>
    ensures ok { IfOk result (λ ms. map method ms.now ≡ map held_method all.now.entries) }
    ensures memory { IsOkUnless result memory }
{
    let mut methods = Vec::with_capacity(alloc, all.len())?;
    for (key, held) in all {
        methods.push(Method {
            name: key.0,
            proto: key.1,
            flags: held.flags,
            code: held.code,
        })?;
    }
    Ok(into_bump_slice(methods))
}

/// The class that was open.
#[tactic(auto, unfolding(crate::specs::inner::View::open_class))]
pub(crate) fn alloc_class<'a>(alloc: &'a Bump, whole: &Open<'a>) -> Result<Class<'a>, Fault>
    ensures ok { IfOk result (λ c. class c ≡ closed (open_class whole.now)) }
    ensures memory { IsOkUnless result memory }
{
    let interfaces = alloc.try_alloc_slice_copy(whole.interfaces.as_slice())?;
    let givens = givens_of(alloc, &whole.statics)?;
    let statics = alloc_fields(alloc, givens)?;
    let values = alloc_values(alloc, givens)?;
    let instances = instances_of(alloc, &whole.instances)?;
    let directs = methods_of(alloc, &whole.directs)?;
    let virtuals = methods_of(alloc, &whole.virtuals)?;
    Ok(Class {
        ty: whole.ty,
        flags: whole.flags,
        superclass: whole.superclass,
        interfaces,
        source: whole.source,
        statics,
        values,
        instances,
        directs,
        virtuals,
    })
}

/// The method with this name and prototype has the code.
pub(crate) fn set_code<'a>(
    methods: &mut BTreeMap<MethodKey<'a>, Defined<'a>>,
    name: Str<'a>,
    prototype: &'a Proto<'a>,
    whole: &'a Code<'a>,
)
    ensures { map held_method methods.new.entries ≡ with_code (map held_method methods.old.entries) (str name.entry ∷ proto_key (proto prototype.now)) (code whole.now) }
{
    if let Some(held) = methods.get_mut(&(name, prototype)) {
        held.code = Some(whole);
    }
}
