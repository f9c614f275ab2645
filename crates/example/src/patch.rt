//! A program with one constant changed. What isn't copied here is shared with the original program.
use bumpalo::Bump;
use bumpalo::collections::into_bump_slice;
use dex_base::Fault;
use dex_program::{Class, Code, Insn, Method, Program};
use std::alloc::Global;

/// Reads a .dex file and writes it with the constant 42 wherever an instruction loads 41 as a literal of 16 bits.
///
/// ```
/// use example::patched;
///
/// assert!(rt; patched(alloc, b"no file").is_err()); // as `dex_file::read`
/// ```
pub fn patched(alloc: Global, file: &[u8]) -> Result<Vec<u8>, Fault> {
    let arena = Bump::new(alloc);
    let program = dex_file::read(alloc, &arena, file)?;
    write(alloc, &patch(&arena, &program)?)
}

/// A program built by hand must be well formed before it is written. A program read from a file always is.
fn write(alloc: Global, program: &Program<'_>) -> Result<Vec<u8>, Fault> {
    dex_program::well_formed_in(alloc, program)?;
    dex_file::write(alloc, program)
}

fn patch<'a>(arena: &'a Bump, program: &Program<'a>) -> Result<Program<'a>, Fault> {
    let mut classes = Vec::new(arena);
    for class in program.classes {
        classes.push(Class {
            directs: patch_methods(arena, class.directs)?,
            virtuals: patch_methods(arena, class.virtuals)?,
            ..*class
        })?;
    }
    Ok(Program {
        classes: into_bump_slice(classes),
    })
}

fn patch_methods<'a>(arena: &'a Bump, methods: &[Method<'a>]) -> Result<&'a [Method<'a>], Fault> {
    let mut patched = Vec::new(arena);
    for method in methods {
        let code = match method.code {
            Some(code) => Some(patch_code(arena, code)?),
            None => None,
        };
        patched.push(Method { code, ..*method })?;
    }
    Ok(into_bump_slice(patched))
}

fn patch_code<'a>(arena: &'a Bump, code: &Code<'a>) -> Result<&'a Code<'a>, Fault> {
    let mut insns = Vec::new(arena);
    for insn in code.insns {
        insns.push(match *insn {
            Insn::I21s { op, a, b: 41 } => Insn::I21s { op, a, b: 42 },
            same => same,
        })?;
    }
    Ok(arena.try_alloc(Code {
        insns: into_bump_slice(insns),
        ..*code
    })?)
}
