//! The kinds of types that rows require. The type of a row is a descriptor, so its first unit decides: no descriptor is scanned
//! again, however many rows name it.
//! Page: "Dalvik Executable format", "String syntax": TypeDescriptor.
ghost use Rattle.std.specs.Prelude.{◌≡◌, ◌↔◌, ◌⊎◌, IsTrue, slice_index};
ghost use Rattle.dex_base.specs.Descriptor.{IsDescriptor, IsClass, IsArray};
ghost use Rattle.program_types.specs.View.{desc};

use program_types::Desc;

/// The first unit.
fn head(ty: Desc<'_>) -> u16
    ensures { result ≡ slice_index (desc ty.entry) 0 }
{
    let units = ty.text.units;
    if units.is_empty() { 0 } else { units[0] }
}

/// Whether the type of a row is a class type, which alone can have fields.
pub(crate) fn is_class_row(ty: Desc<'_>) -> bool
    requires { IsDescriptor (desc ty) }
    ensures { IsTrue result ↔ IsClass (desc ty.entry) }
{
    head(ty) == u16::from(b'L')
}

/// Whether the type of a row is a class or an array type, which alone can have methods.
pub(crate) fn is_class_or_array_row(ty: Desc<'_>) -> bool
    requires { IsDescriptor (desc ty) }
    ensures { IsTrue result ↔ (IsClass (desc ty.entry) ⊎ IsArray (desc ty.entry)) }
{
    let head = head(ty);
    head == u16::from(b'L') || head == u16::from(b'[')
}
