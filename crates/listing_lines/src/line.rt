//! Lines.

use program_types::{Desc, Insn, Member, Method, Str, Value};

/// The meaning of a line.
#[derive(Clone, Copy)]
pub enum Line<'a> {
    First,
    OpenClass(Desc<'a>, u32),
    EndClass,
    Super(Desc<'a>),
    Implements(Desc<'a>),
    Source(Str<'a>),
    Static(Member<'a>, Option<Value<'a>>),
    Instance(Member<'a>),
    Direct(Method<'a>),
    Virtual(Method<'a>),
    OpenCode(u16, u16, u16),
    EndCode,
    Insn(Insn<'a>),
    Try(u32, u32),
    Catch(Desc<'a>, u32),
    CatchAll(u32),
}
