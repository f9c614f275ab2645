//! What is kept of values that are read: the values, in an arena, or nothing.
ghost use Rattle.std.specs.Prelude.{◌≡◌, ◌≢◌, ℕ, List, [], ◌∷◌, ◌++◌, ⊤, map, slice_index, IfOk, IfErr, OnOk};
ghost use Rattle.dex_base.specs.Fault.{memory};
ghost use Rattle.dex_base.specs.Grammar.{Takes};
ghost use Rattle.dex_base.specs.declared.fault.Fault as fault;
ghost use Rattle.program_types.specs.Content as content;
ghost use Rattle.program_types.specs.View.{value};
ghost use Rattle.tables_rows.specs.Names.{Names, NameIsAt};
ghost use Rattle.dex_value.specs.Standing.{Shallow};
ghost use Rattle.dex_value.specs.Faults.{OwnBreaks};

use crate::reading::{Span, read_leaf};
use bumpalo::Bump;
use dex_base::Fault;
use program_types::Value;
use std::alloc::Global;
use tables_rows::Tables;

/// Reads values that are no arrays, and keeps the part of them that the caller needs.
pub(crate) trait Keep: Copy {
    /// What is kept of one value.
    type One: Copy;

    /// What is kept of values in a row.
    type Many: Drop;

    // the names of the tables
    ghost names: { Self → Names };

    // this is kept of the value
    ghost one: { Self.One → content.Value → Type 0 };

    // this is kept of the values
    ghost many: { Self.Many → List content.Value → Type 0 };

    // keeping fails so
    ghost fails: { fault.Fault → Type 0 };

    /// What is kept of the value at the front, which is no array, and what follows it.
    fn leaf<'b>(self, span: Span, bytes: &'b [u8]) -> Result<(Self::One, &'b [u8]), Fault>
        requires flat { slice_index bytes.now 0 ≢ 0x1c }
        ensures ok { IfOk result (λ x. (v : content.Value)
            × ((limit : ℕ) → Takes (Shallow (NameIsAt (names self)) limit) bytes.now v x.1.now) × one x.0 v) }
        ensures err { IfErr result (λ e. (limit : ℕ) →
            OwnBreaks (NameIsAt (names self)) span.off span.end limit bytes.now e) };

    /// No value yet.
    fn none(self) -> Self::Many
        ensures { many result [] };

    /// One value more.
    fn add(self, all: &mut Self::Many, next: Self::One) -> Result<(), Fault>
        ensures ok { OnOk result ((vs : List content.Value) (v : content.Value) → many all.old vs → one next v → many all.new (vs ++ v ∷ [])) }
        ensures err { IfErr result fails };

    /// The array of these values.
    fn array(self, all: Self::Many) -> Result<Self::One, Fault>
        ensures ok { IfOk result (λ x. (vs : List content.Value) → many all vs → one x (content.Array (content.values vs))) }
        ensures err { IfErr result fails };
}

/// Keeps the values, the arrays among them in an arena.
#[derive(Clone, Copy)]
pub(crate) struct InArena<'a, 't> {
    pub(crate) alloc: Global,
    pub(crate) arena: &'a Bump,
    pub(crate) tables: &'t Tables<'a>,
}

impl<'a> Keep for InArena<'a, '_> {
    type One = Value<'a>;

    type Many = Vec<Value<'a>>;

    ghost names = { λ k. k.tables.now };

    ghost one = { λ x v. v ≡ value x };

    ghost many = { λ xs vs. vs ≡ map value xs.items };

    ghost fails = { λ e. e ≡ memory };

    fn leaf<'b>(self, span: Span, bytes: &'b [u8]) -> Result<(Value<'a>, &'b [u8]), Fault> {
        read_leaf(self.tables, span, bytes)
    }

    fn none(self) -> Vec<Value<'a>> {
        Vec::new(self.alloc)
    }

    fn add(self, all: &mut Vec<Value<'a>>, next: Value<'a>) -> Result<(), Fault> {
        all.push(next)?;
        Ok(())
    }

    fn array(self, all: Vec<Value<'a>>) -> Result<Value<'a>, Fault> {
        Ok(Value::Array(self.arena.try_alloc_slice_copy(&all)?))
    }
}

/// Keeps nothing.
#[derive(Clone, Copy)]
pub(crate) struct Nothing<'a, 't> {
    pub(crate) tables: &'t Tables<'a>,
}

impl Keep for Nothing<'_, '_> {
    type One = ();

    type Many = ();

    ghost names = { λ k. k.tables.now };

    ghost one = { λ x v. ⊤ };

    ghost many = { λ x vs. ⊤ };

    ghost fails = { λ e. ⊥ };

    fn leaf<'b>(self, span: Span, bytes: &'b [u8]) -> Result<((), &'b [u8]), Fault> {
        let (_, after) = read_leaf(self.tables, span, bytes)?;
        Ok(((), after))
    }

    fn none(self) {}

    fn add(self, _all: &mut (), _next: ()) -> Result<(), Fault> {
        Ok(())
    }

    fn array(self, _all: ()) -> Result<(), Fault> {
        Ok(())
    }
}
