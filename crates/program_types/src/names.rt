//! Names: strings, types, prototypes, fields and methods ("Dalvik Executable format": string_id_item, type_id_item,
//! proto_id_item, field_id_item, method_id_item).
//!
//! The derives compare and hash through the references, so by content, in the order of the fields, which is that of the table.
//! A string is hashed four units at a time (`hashing.rt`); `==` of fields and methods compares the class last (`equality.rt`).

/// A string, by its UTF-16 units.
#[derive(Clone, Copy, PartialEq, Eq, PartialOrd, Ord)]
pub struct Str<'a> {
    pub units: &'a [u16],
}

/// A type, by its descriptor, as `I` or `Ljava/lang/Object;`.
#[derive(Clone, Copy, PartialEq, Eq, PartialOrd, Ord, Hash)]
pub struct Desc<'a> {
    pub text: Str<'a>,
}

/// The prototype of a method: its return type and its parameters.
#[derive(Clone, Copy, PartialEq, Eq, PartialOrd, Ord, Hash)]
pub struct Proto<'a> {
    pub ret: Desc<'a>,
    pub params: &'a [Desc<'a>],
}

/// A field of a class, by name and type.
#[derive(Clone, Copy, Eq, PartialOrd, Ord)]
pub struct FieldRef<'a> {
    pub class: Desc<'a>,
    pub name: Str<'a>,
    pub ty: Desc<'a>,
}

/// A method of a class or of an array type, by name and prototype.
///
/// ```
/// use bumpalo::Bump;
/// use dex_names::method;
///
/// let arena = Bump::new(alloc);
/// let get = method(&arena, "LHello;->get(Z)I")?.unwrap();
/// assert_eq!(rt; format!(in alloc; "{get}")?.as_str(), "LHello;->get(Z)I");
/// ```
#[derive(Clone, Copy, PartialOrd, Ord)]
pub struct MethodRef<'a> {
    pub class: Desc<'a>,
    pub name: Str<'a>,
    pub proto: &'a Proto<'a>,
}

/// What an instruction or a value names.
#[derive(Clone, Copy, Debug)]
pub enum Name<'a> {
    Text(Str<'a>),
    Desc(Desc<'a>),
    Field(&'a FieldRef<'a>),
    Method(&'a MethodRef<'a>),
}
