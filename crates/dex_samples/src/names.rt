//! Names of ASCII texts, in an arena.
ghost use Rattle.std.specs.Prelude.{IfOk, IsTrue, All, map};
ghost use Rattle.dex_base.specs.Descriptor.{IsDescriptor};
ghost use Rattle.program_types.specs.View.{desc};

use bumpalo::Bump;
use bumpalo::collections::into_bump_slice;
use dex_base::{Fault, is_descriptor};
use program_types::{Desc, FieldRef, MethodRef, Proto, Str, alloc_proto, alloc_str};

/// What is answered of a prototype one of whose types is no descriptor.
pub const MISSPELLED: Fault = Fault { code: 0, place: 0 };

/// The string of an ASCII text.
pub fn text<'a>(arena: &'a Bump, ascii: &str) -> Result<Str<'a>, Fault> {
    let mut units = Vec::new(arena);
    for byte in ascii.as_bytes() {
        units.push(u16::from(*byte))?;
    }
    alloc_str(arena, &units)
}

/// The type of a descriptor, which is not tested.
pub fn ty<'a>(arena: &'a Bump, descriptor: &str) -> Result<Desc<'a>, Fault> {
    Ok(Desc {
        text: text(arena, descriptor)?,
    })
}

/// Whether all types have a letter in the shorty.
fn has_shorty(proto: &Proto<'_>) -> bool
    ensures ret { IsTrue result → IsDescriptor (desc proto.now.ret) }
    ensures params { IsTrue result → All IsDescriptor (map desc proto.now.params.now) }
{
    for param in proto.params {
        if !is_descriptor(param.text.units) {
            return false;
        }
    }
    is_descriptor(proto.ret.text.units)
}

/// The prototype of these types, each of them a descriptor.
pub fn proto<'a>(arena: &'a Bump, ret: &str, params: &[&str]) -> Result<&'a Proto<'a>, Fault>
    ensures ret { IfOk result (λ p. IsDescriptor (desc p.now.ret)) }
    ensures params { IfOk result (λ p. All IsDescriptor (map desc p.now.params.now)) }
{
    let mut types = Vec::new(arena);
    for param in params {
        types.push(ty(arena, param)?)?;
    }
    let placed = alloc_proto(arena, ty(arena, ret)?, into_bump_slice(types))?;
    if !has_shorty(placed) {
        return Err(MISSPELLED);
    }
    Ok(placed)
}

/// A field of a class, by name and type.
pub fn field<'a>(
    arena: &'a Bump,
    class: &str,
    name: &str,
    kind: &str,
) -> Result<&'a FieldRef<'a>, Fault> {
    Ok(arena.try_alloc(FieldRef {
        class: ty(arena, class)?,
        name: text(arena, name)?,
        ty: ty(arena, kind)?,
    })?)
}

/// A method of a class, by name, return type and parameters.
pub fn method<'a>(
    arena: &'a Bump,
    class: &str,
    name: &str,
    ret: &str,
    params: &[&str],
) -> Result<&'a MethodRef<'a>, Fault>
    ensures ret { IfOk result (λ m. IsDescriptor (desc m.now.proto.now.ret)) }
    ensures params { IfOk result (λ m. All IsDescriptor (map desc m.now.proto.now.params.now)) }
{
    let class = ty(arena, class)?;
    let name = text(arena, name)?;
    let proto = proto(arena, ret, params)?;
    Ok(arena.try_alloc(MethodRef { class, name, proto })?)
}
