//! Names as text, for tests that compare many at once.

use dex_base::Fault;
use program_types::{Desc, FieldRef, MethodRef, Name, Proto, Str};

/// Adds the kind and the name: `type LA;`.
pub fn put_name(text: &mut String, name: Name<'_>) -> Result<(), Fault> {
    match name {
        Name::Text(string) => {
            text.push_str("string ")?;
            put_units(text, string)
        }
        Name::Desc(ty) => {
            text.push_str("type ")?;
            put_units(text, ty.text)
        }
        Name::Field(field) => {
            text.push_str("field ")?;
            put_field(text, field)
        }
        Name::Method(method) => {
            text.push_str("method ")?;
            put_method(text, method)
        }
    }
}

/// Adds `LA;->a:I`.
pub fn put_field(text: &mut String, field: &FieldRef<'_>) -> Result<(), Fault> {
    put_units(text, field.class.text)?;
    text.push_str("->")?;
    put_units(text, field.name)?;
    text.push(':')?;
    put_units(text, field.ty.text)
}

/// Adds `LA;->a(I)V`.
pub fn put_method(text: &mut String, method: &MethodRef<'_>) -> Result<(), Fault> {
    put_units(text, method.class.text)?;
    text.push_str("->")?;
    put_units(text, method.name)?;
    put_proto(text, method.proto)
}

/// Adds `(I[I)V`.
pub fn put_proto(text: &mut String, proto: &Proto<'_>) -> Result<(), Fault> {
    text.push('(')?;
    put_types(text, proto.params)?;
    text.push(')')?;
    put_units(text, proto.ret.text)
}

/// Adds the descriptors, one after another: `I[ILA;`.
pub fn put_types(text: &mut String, types: &[Desc<'_>]) -> Result<(), Fault> {
    for ty in types {
        put_units(text, ty.text)?;
    }
    Ok(())
}

/// Adds the string itself. Each unit that isn't one of Latin-1 is shown as `?`.
pub fn put_units(text: &mut String, string: Str<'_>) -> Result<(), Fault> {
    for unit in string.units {
        text.push(char::from(u8::try_from(*unit).unwrap_or(b'?')))?;
    }
    Ok(())
}
