//! Equality of fields and methods, by content: names and types first. Two that a look-up compares mostly differ there, and a class may have
//! a very long name that its members share.
use crate::names::{FieldRef, MethodRef};

impl PartialEq for FieldRef<'_> {
    ghost use Rattle.program_types.specs.Equality.{same_field};
    ghost use Rattle.std.proofs.Common.{rules};
    ghost use Rattle.std.specs.Cmp.Rules.{comparing};

    ghost eq = { same_field };

    ghost laws = { Prim.search (comparing, rules) };

    fn eq(&self, other: &Self) -> bool {
        self.name == other.name && self.ty == other.ty && self.class == other.class
    }
}

impl PartialEq for MethodRef<'_> {
    ghost use Rattle.program_types.specs.Equality.{same_method, method_per};

    ghost eq = { same_method };

    ghost laws = { method_per };

    fn eq(&self, other: &Self) -> bool {
        self.name == other.name && *self.proto == *other.proto && self.class == other.class
    }
}

impl Eq for MethodRef<'_> {
    ghost use Rattle.program_types.specs.Equality.{method_equiv};

    ghost laws = { method_equiv };
}
