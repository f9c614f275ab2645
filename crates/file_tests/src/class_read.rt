//! Files of one class, read whole.

use crate::made::Made;
use crate::made::Made::{One, Parameterless};
use bumpalo::Bump;
use dex_base::Fault;
use dex_samples::{Case, ONE_CLASS, all_hold, is_so, put_proto, put_units};
use file_read::read;
use program_types::{Class, Code, Insn, Method};
use std::alloc::Global;
use std::test::Fail;

fn put_class(text: &mut String, class: &Class<'_>) -> Result<(), Fault> {
    put_units(text, class.ty.text)?;
    match class.superclass {
        Some(above) => {
            text.push_str(" ")?;
            put_units(text, above.text)
        }
        None => Ok(()),
    }
}

fn put_methods(text: &mut String, methods: &[Method<'_>]) -> Result<(), Fault> {
    for method in methods {
        text.push_str(" ")?;
        put_units(text, method.name)?;
        put_proto(text, method.proto)?;
    }
    Ok(())
}

fn put_classes(alloc: Global, text: &mut String, file: &[u8]) -> Result<(), Fault> {
    let arena = Bump::new(alloc);
    let program = read(alloc, &arena, file)?;
    for class in program.classes {
        put_class(text, class)?;
        put_methods(text, class.directs)?;
        put_methods(text, class.virtuals)?;
    }
    Ok(())
}

fn text_of(alloc: Global, file: &[u8]) -> Result<String, Fault> {
    let mut text = String::new(alloc);
    put_classes(alloc, &mut text, file)?;
    Ok(text)
}

fn is_shown(alloc: Global, file: &[u8], want: &str) -> Result<bool, Fault> {
    Ok(text_of(alloc, file)?.as_str() == want)
}

/// A name for the case, the file, and its classes as text.
struct Shown(&'static str, Made, &'static str);

impl Case for Shown {
    fn name(&self) -> &'static str {
        self.0
    }

    fn holds(&self, alloc: Global) -> Result<bool, Fault> {
        let file = self.1.begun(alloc)?;
        is_shown(alloc, &file, self.2)
    }
}

#[rattlefmt::skip]
#[test]
fn names_of_a_class_are_read(rt: HostRuntime) -> Result<(), Fail> {
    static CASES: [Shown; 3] = [
        Shown("a superclass and a method", One(0, &[]), "LA; Ljava/lang/Object; m()V"),
        Shown("no list of parameters", Parameterless(&[(1, 1, None)]), "LA; m()V"),
        Shown("a list of no parameters", Parameterless(&[(1, 1, Some(0))]), "LA; m()V"),
    ];
    all_hold(rt.alloc(), &CASES)
}

/// A `return-void` alone, with one register.
fn is_return(code: &Code<'_>) -> bool {
    code.registers == 1
        && code.ins == 0
        && code.outs == 0
        && code.tries.is_empty()
        && code.insns.len() == 1
        && match &code.insns[0] {
            Insn::I10x { op } => *op == 0x0e,
            _ => false,
        }
}

fn is_method(method: &Method<'_>) -> bool {
    method.flags == 9
        && match method.code {
            Some(code) => is_return(code),
            None => false,
        }
}

fn is_class(class: &Class<'_>) -> bool {
    class.flags == 1
        && class.interfaces.is_empty()
        && class.statics.is_empty()
        && class.values.is_empty()
        && class.instances.is_empty()
        && class.virtuals.is_empty()
        && class.directs.len() == 1
        && is_method(&class.directs[0])
}

fn is_read(alloc: Global) -> Result<bool, Fault> {
    let arena = Bump::new(alloc);
    let program = read(alloc, &arena, &ONE_CLASS)?;
    Ok(program.classes.len() == 1 && is_class(&program.classes[0]))
}

#[test]
fn a_class_with_a_method_and_its_code_is_read(rt: HostRuntime) -> Result<(), Fail> {
    is_so(is_read(rt.alloc()))
}
