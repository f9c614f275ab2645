//! The kinds of types that a use requires ("Dalvik Executable format", "String syntax").
ghost use Rattle.std.specs.Prelude.{◌≡◌, ◌↔◌, ◌⊎◌, IsTrue};
ghost use Rattle.dex_base.specs.Descriptor.{IsClass, IsArray};
ghost use Rattle.program_types.specs.View.{desc};
ghost use Rattle.program_types.specs.Kinds.{void};

use crate::names::Desc;
use dex_base::{is_array, is_class};

/// Whether a type is void, `V`, which no value has.
pub fn is_void(ty: Desc<'_>) -> bool
    ensures { IsTrue result ↔ (desc ty.entry ≡ void) }
{
    let units = ty.text.units;
    units.len() == 1 && units[0] == b'V' as u16
}

/// Whether a type can have fields: a class type.
pub fn is_class_type(ty: Desc<'_>) -> bool
    ensures { IsTrue result ↔ IsClass (desc ty.entry) }
{
    is_class(ty.text.units)
}

/// Whether a type can have methods: a class type or an array type.
pub fn is_class_or_array(ty: Desc<'_>) -> bool
    ensures { IsTrue result ↔ (IsClass (desc ty.entry) ⊎ IsArray (desc ty.entry)) }
{
    let units = ty.text.units;
    is_class(units) || is_array(units)
}
