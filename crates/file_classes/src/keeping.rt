//! What is kept of static values and code: what a program is made of, in an arena, or next to nothing.
ghost use Rattle.std.specs.Prelude.{◌≡◌, ◌≢◌, List, [], ◌∷◌, ◌++◌, ⊤, Option, length, map, option_map, IfOk, IfErr, OnOk};
ghost use Rattle.dex_base.specs.Fault.{memory};
ghost use Rattle.program_types.specs.Content as content;
ghost use Rattle.program_types.specs.View as view;
ghost use Rattle.tables_rows.specs.Names.{AreNamesOf, NameIsAt};
ghost use Rattle.dex_value.specs.Faults.{ArrayBreaksAt};
ghost use Rattle.dex_value.specs.Standing.{ArrayStands};
ghost use Rattle.file_classes.specs.ClassFaults.{BodyFails};
ghost use Rattle.file_classes.specs.inner.Reading.{IsFound, with_code};

use crate::members::Bare;
use bumpalo::Bump;
use code_read::{check_body, read_body};
use dex_base::Fault;
use dex_container::Sections;
use dex_value::{check_array, read_array};
use program_types::{Code, Method, Value};
use std::alloc::Global;
use tables_rows::Tables;

/// What is kept of the code at an offset, and what is wrong with its registers, if anything is.
#[derive(Clone, Copy)]
pub struct FoundCode<C> {
    pub code: C,
    pub past: Option<Fault>,
}

/// What all rows are read with, and what keeps the part of them that the caller needs.
#[derive(Clone, Copy)]
pub(crate) struct Walk<'s, 'f, 't, 'a, K> {
    pub(crate) keep: K,
    pub(crate) sections: &'s Sections<'f>,
    pub(crate) tables: &'t Tables<'a>,
}

/// What is kept of static values and code.
pub(crate) trait Keep<'a>: Copy {
    /// What is kept of an array of static values.
    type Values: Copy;

    /// What is kept of the code of a method, which may have none.
    type Code: Copy;

    /// What is kept of a list of methods.
    type Methods: Drop;

    /// The memory for one code, which is emptied after each.
    type Scratch: Drop;

    // this is kept of the values
    ghost values: { Self.Values → List content.Value → Type 0 };

    // this is kept of the code
    ghost code: { Self.Code → Option content.Code → Type 0 };

    // this is kept of the methods
    ghost methods: { Self.Methods → List content.Method → Type 0 };

    /// What is kept of no values.
    fn no_values() -> Self::Values
        ensures { values result [] };

    /// How many values these are.
    fn count(found: Self::Values) -> usize
        ensures { (vs : List content.Value) → values found vs → length vs ≡ result };

    /// The values at an offset, at most so many.
    fn read_values(
        walk: &Walk<'_, '_, '_, 'a, Self>,
        off: u32,
        most: usize,
    ) -> Result<Self::Values, Fault>
        ensures ok { IfOk result (λ x. (vs : List content.Value) × ArrayStands (NameIsAt walk.now.tables.now) walk.now.sections.now off most vs × values x vs) }
        ensures broken { IfErr result (λ e. e ≢ memory → ArrayBreaksAt (NameIsAt walk.now.tables.now) walk.now.sections.now off most e) };

    /// The code at an offset, none at 0.
    fn read_code(
        walk: &Walk<'_, '_, '_, 'a, Self>,
        scratch: &mut Self::Scratch,
        off: u32,
    ) -> Result<FoundCode<Self::Code>, Fault>
        requires { AreNamesOf walk.now.sections.now walk.now.tables.now }
        ensures ok { IfOk result (IsFound code walk.now.sections.now off) }
        ensures err { IfErr result (λ e. e ≢ memory → BodyFails walk.now.sections.now off e) };

    /// No method yet, of so many.
    fn no_methods(self, count: usize) -> Result<Self::Methods, Fault>
        ensures ok { IfOk result (λ all. methods all []) }
        ensures err { IfErr result (λ e. e ≡ memory) };

    /// One method more, with this code.
    fn add(all: &mut Self::Methods, bare: &Bare<'a>, found: Self::Code) -> Result<(), Fault>
        ensures ok { OnOk result ((ms : List content.Method) (o : Option content.Code) →
            methods all.old ms → code found o → methods all.new (ms ++ with_code bare.now o ∷ [])) }
        ensures err { IfErr result (λ e. e ≡ memory) };
}

/// Keeps what a program is made of, in an arena.
#[derive(Clone, Copy)]
pub(crate) struct InArena<'a> {
    pub(crate) alloc: Global,
    pub(crate) arena: &'a Bump,
}

impl<'a> Keep<'a> for InArena<'a> {
    type Values = &'a [Value<'a>];

    type Code = Option<&'a Code<'a>>;

    type Methods = Vec<Method<'a>, &'a Bump>;

    type Scratch = ();

    ghost values = { λ x vs. vs ≡ map view.value x.now };

    ghost code = { λ x o. o ≡ option_map (λ c. view.code c.now) x };

    ghost methods = { λ x ms. ms ≡ map view.method x.items };

    fn no_values() -> &'a [Value<'a>] {
        &[]
    }

    fn count(found: &'a [Value<'a>]) -> usize {
        found.len()
    }

    fn read_values(
        walk: &Walk<'_, '_, '_, 'a, Self>,
        off: u32,
        most: usize,
    ) -> Result<&'a [Value<'a>], Fault> {
        let keep = walk.keep;
        read_array(
            keep.alloc,
            keep.arena,
            walk.tables,
            walk.sections,
            off,
            most,
        )
    }

    fn read_code(
        walk: &Walk<'_, '_, '_, 'a, Self>,
        _scratch: &mut (),
        off: u32,
    ) -> Result<FoundCode<Option<&'a Code<'a>>>, Fault> {
        if off == 0 {
            let (code, past) = (None, None);
            return Ok(FoundCode { code, past });
        }
        let keep = walk.keep;
        let body = read_body(keep.alloc, keep.arena, walk.tables, walk.sections, off)?;
        let placed: &'a Code<'a> = keep.arena.try_alloc(body.code)?;
        let (code, past) = (Some(placed), body.past);
        Ok(FoundCode { code, past })
    }

    fn no_methods(self, count: usize) -> Result<Vec<Method<'a>, &'a Bump>, Fault> {
        Ok(Vec::with_capacity(self.arena, count)?)
    }

    fn add(
        all: &mut Vec<Method<'a>, &'a Bump>,
        bare: &Bare<'a>,
        code: Option<&'a Code<'a>>,
    ) -> Result<(), Fault> {
        all.push(Method {
            name: bare.method.name,
            proto: bare.method.proto,
            flags: bare.flags,
            code,
        })?;
        Ok(())
    }
}

/// Keeps the number of static values of an array, and the fault of the registers of a code.
#[derive(Clone, Copy)]
pub(crate) struct Nothing {
    pub(crate) alloc: Global,
}

impl<'a> Keep<'a> for Nothing {
    type Values = u32;

    type Code = ();

    type Methods = ();

    type Scratch = Bump;

    ghost values = { λ n vs. length vs ≡ n };

    ghost code = { λ x o. ⊤ };

    ghost methods = { λ x ms. ⊤ };

    fn no_values() -> u32 {
        0
    }

    fn count(found: u32) -> usize {
        found as usize
    }

    fn read_values(walk: &Walk<'_, '_, '_, 'a, Self>, off: u32, most: usize) -> Result<u32, Fault> {
        check_array(walk.tables, walk.sections, off, most)
    }

    fn read_code(
        walk: &Walk<'_, '_, '_, 'a, Self>,
        scratch: &mut Bump,
        off: u32,
    ) -> Result<FoundCode<()>, Fault> {
        if off == 0 {
            let past = None;
            return Ok(FoundCode { code: (), past });
        }
        let past = check_body(walk.keep.alloc, scratch, walk.tables, walk.sections, off)?;
        if scratch.reset().is_err() {
            return Err(Fault::MEMORY);
        }
        Ok(FoundCode { code: (), past })
    }

    fn no_methods(self, _count: usize) -> Result<(), Fault> {
        Ok(())
    }

    fn add(_all: &mut (), _bare: &Bare<'a>, _found: ()) -> Result<(), Fault> {
        Ok(())
    }
}
