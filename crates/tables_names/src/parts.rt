//! Of a name the places of its parts, each in the list of its kind: numbers in the order of first need while names are
//! added, and ranks, which are indices of the tables, once they are sorted.
//!
//! They compare in the order of their fields, which is that of the tables.

/// Of a type the place of its descriptor among the strings.
#[derive(Clone, Copy, PartialEq, Eq, PartialOrd, Ord)]
pub struct TypeParts {
    pub text: usize,
}

/// Of a prototype the place of its return type among the types.
#[derive(Clone, Copy, PartialEq, Eq, PartialOrd, Ord)]
pub struct ProtoParts {
    pub ret: usize,
}

/// Of a field the places of its class and its type among the types, and of its name among the strings.
#[derive(Clone, Copy, PartialEq, Eq, PartialOrd, Ord)]
pub struct FieldParts {
    pub class: usize,
    pub name: usize,
    pub ty: usize,
}

/// Of a method the places of its class among the types, of its name among the strings and of its prototype among the
/// prototypes.
#[derive(Clone, Copy, PartialEq, Eq, PartialOrd, Ord)]
pub struct MethodParts {
    pub class: usize,
    pub name: usize,
    pub proto: usize,
}
