//! Names that a file can have ("Dalvik Executable format", "String syntax").

ghost use Rattle.std.specs.Prelude.{◌↔◌, map, IsTrue};
ghost use Rattle.std.specs.List.{AllByRecursion};
ghost use Rattle.dex_base.specs.Descriptor.{IsClass};
ghost use Rattle.program_types.specs.View.{desc, proto, field_ref, method_ref};
ghost use Rattle.program_types.specs.View as view;
ghost use Rattle.program_rules.specs.Valid.{IsValueType, IsValidProto, IsValidField, IsValidMethod, IsValidName};

use dex_base::{is_descriptor, is_member_name};
use program_types::{
    Desc, FieldRef, MethodRef, Name, Proto, is_class_or_array, is_class_type, is_void,
};

/// Whether fields and parameters can have the type.
pub(crate) fn is_value_type(ty: Desc<'_>) -> bool
    ensures { IsTrue result ↔ IsValueType (desc ty.entry) }
{
    if !is_descriptor(ty.text.units) {
        return false;
    }
    !is_void(ty)
}

/// Whether fields and parameters can have all of the types.
fn are_value_types(types: &[Desc<'_>]) -> bool
    ensures { IsTrue result ↔ AllByRecursion IsValueType (map desc types.now) }
{
    for ty in types {
        if !is_value_type(*ty) {
            return false;
        }
    }
    true
}

/// Whether all of the types are class types.
pub(crate) fn are_classes(types: &[Desc<'_>]) -> bool
    ensures { IsTrue result ↔ AllByRecursion IsClass (map desc types.now) }
{
    for ty in types {
        if !is_class_type(*ty) {
            return false;
        }
    }
    true
}

/// Whether a file can have the prototype.
pub(crate) fn is_valid_proto(prototype: &Proto<'_>) -> bool
    ensures { IsTrue result ↔ IsValidProto (proto prototype.now) }
{
    if !is_descriptor(prototype.ret.text.units) {
        return false;
    }
    are_value_types(prototype.params)
}

/// Whether a file can have the field.
pub(crate) fn is_valid_field(field: &FieldRef<'_>) -> bool
    ensures { IsTrue result ↔ IsValidField (field_ref field.now) }
{
    if !is_class_type(field.class) {
        return false;
    }
    if !is_member_name(field.name.units) {
        return false;
    }
    is_value_type(field.ty)
}

/// Whether a file can have the method.
fn is_valid_method(method: &MethodRef<'_>) -> bool
    ensures { IsTrue result ↔ IsValidMethod (method_ref method.now) }
{
    if !is_class_or_array(method.class) {
        return false;
    }
    if !is_member_name(method.name.units) {
        return false;
    }
    is_valid_proto(method.proto)
}

/// Whether a file can have the name.
pub fn is_valid_name(name: Name<'_>) -> bool
    ensures { IsTrue result ↔ IsValidName (view.name name.entry) }
{
    match name {
        Name::Text(_) => true,
        Name::Desc(ty) => is_descriptor(ty.text.units),
        Name::Field(field) => is_valid_field(field),
        Name::Method(method) => is_valid_method(method),
    }
}
