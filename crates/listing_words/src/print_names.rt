//! Names, as they are written.

ghost use Rattle.std.specs.Prelude.{◌≡◌, ◌<◌, ◌++◌, map, OnOk};
ghost use Rattle.std.specs.List.{flat_map};
ghost use Rattle.program_types.specs.View.{desc, proto, field_ref, method_ref};
ghost use Rattle.listing_words.specs.Written.{name_unit, name_text, proto_units, field_units, method_units};

use crate::plain::{BACKSLASH, QUOTE, put_plain};
use crate::print::put_escape;
use program_types::{Desc, FieldRef, MethodRef, Proto};
use std::alloc::AllocError;

/// Appends a unit as it stands in a name.
fn put_name_unit(out: &mut Vec<u8>, unit: u16) -> Result<(), AllocError>
    ensures ok { OnOk result (out.new.items ≡ out.old.items ++ name_unit unit) }
{
    if unit <= 32 || unit >= 127 {
        return put_escape(out, unit);
    }
    if unit == QUOTE || unit == BACKSLASH {
        return put_escape(out, unit);
    }
    out.push(unit as u8)?;
    Ok(())
}

/// Appends units one by one as they stand in a name.
fn put_name_units(out: &mut Vec<u8>, units: &[u16]) -> Result<(), AllocError>
    ensures ok { OnOk result (out.new.items ≡ out.old.items ++ name_text units.now) }
{
    for unit in units {
        put_name_unit(out, *unit)?;
    }
    Ok(())
}

/// Appends a name or a descriptor: an ASCII character is itself, any other unit is escaped as `\uXXXX`.
///
/// It fails only when out of memory, after which `out` may have part of the name.
pub fn put_name(out: &mut Vec<u8>, units: &[u16]) -> Result<(), AllocError>
    ensures ok { OnOk result (out.new.items ≡ out.old.items ++ name_text units.now) }
{
    let done = put_plain(out, units, 35)?;
    let (_, rest) = units.split_at(done);
    put_name_units(out, rest)
}

/// Appends the descriptors of parameters.
fn put_params(out: &mut Vec<u8>, params: &[Desc<'_>]) -> Result<(), AllocError>
    ensures ok { OnOk result (out.new.items ≡ out.old.items ++ name_text (flat_map (λ t. t) (map desc params.now))) }
{
    for param in params {
        put_name(out, param.text.units)?;
    }
    Ok(())
}

/// Appends a prototype: `(P..)R`.
///
/// It fails only when out of memory, after which `out` may have part of it; likewise for the two below.
pub fn put_proto(out: &mut Vec<u8>, one: &Proto<'_>) -> Result<(), AllocError>
    ensures ok { OnOk result (out.new.items ≡ out.old.items ++ name_text (proto_units (proto one.now))) }
{
    out.push(b'(')?;
    put_params(out, one.params)?;
    out.push(b')')?;
    put_name(out, one.ret.text.units)
}

/// Appends a field: `C->n:T`.
pub fn put_field(out: &mut Vec<u8>, field: &FieldRef<'_>) -> Result<(), AllocError>
    ensures ok { OnOk result (out.new.items ≡ out.old.items ++ name_text (field_units (field_ref field.now))) }
{
    put_name(out, field.class.text.units)?;
    out.extend_from_slice(b"->")?;
    put_name(out, field.name.units)?;
    out.push(b':')?;
    put_name(out, field.ty.text.units)
}

/// Appends a method: `C->n(P..)R`.
pub fn put_method(out: &mut Vec<u8>, method: &MethodRef<'_>) -> Result<(), AllocError>
    ensures ok { OnOk result (out.new.items ≡ out.old.items ++ name_text (method_units (method_ref method.now))) }
{
    put_name(out, method.class.text.units)?;
    out.extend_from_slice(b"->")?;
    put_name(out, method.name.units)?;
    put_proto(out, method.proto)
}
