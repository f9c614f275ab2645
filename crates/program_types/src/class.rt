//! Classes and what they define ("Dalvik Executable format": class_def_item, class_data_item).

ghost use Rattle.std.specs.Prelude.{◌≡◌, map};
ghost use Rattle.program_types.specs.View.{class, program};

use crate::code::Code;
use crate::names::{Desc, Proto, Str};
use crate::value::Value;

/// A field that a class defines.
#[derive(Clone, Copy, Debug)]
pub struct Member<'a> {
    pub name: Str<'a>,
    pub ty: Desc<'a>,
    pub flags: u32,
}

/// A method that a class defines, without code where it is abstract or native.
#[derive(Clone, Copy, Debug)]
pub struct Method<'a> {
    pub name: Str<'a>,
    pub proto: &'a Proto<'a>,
    pub flags: u32,
    pub code: Option<&'a Code<'a>>,
}

/// A class. `values` are the initial values of the first `values.len()` static fields; `directs` are its static and private
/// methods and its constructors, `virtuals` its other methods.
#[derive(Clone, Copy, Debug)]
pub struct Class<'a> {
    pub ty: Desc<'a>,
    pub flags: u32,
    pub superclass: Option<Desc<'a>>,
    pub interfaces: &'a [Desc<'a>],
    pub source: Option<Str<'a>>,
    pub statics: &'a [Member<'a>],
    pub values: &'a [Value<'a>],
    pub instances: &'a [Member<'a>],
    pub directs: &'a [Method<'a>],
    pub virtuals: &'a [Method<'a>],
}

/// A program: its classes, in the order of the file.
///
/// ```
/// use dex_program::Program;
///
/// let nothing = Program { classes: &[] };
/// assert_eq!(rt; format!(in alloc; "{nothing:?}")?.as_str(), "Program { classes: [] }");
/// ```
#[derive(Clone, Copy, Debug)]
pub struct Program<'a> {
    pub classes: &'a [Class<'a>],
}

/// The law of a program's content: the contents of its classes, in order, and nothing else.
pub fn program_law(one: &Program<'_>)
    ensures { program one.now ≡ map class one.now.classes.now }
{}
