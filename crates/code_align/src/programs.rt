//! Aligning all bodies of a program.
//! Page: "Dalvik bytecode": packed-switch, sparse-switch and fill-array-data refer to payloads at even addresses.
ghost use Rattle.std.specs.Prelude.{◌≡◌, ◌≢◌, map, option_map, IfOk, IfErr, IfSome};
ghost use Rattle.std.specs.List.{AllByRecursion};
ghost use Rattle.dex_base.specs.Fault.{memory};
ghost use Rattle.code_align.specs.Programs.{Pairwise, AlignedBody, AlignedMethod, AlignedClass, AlignedProgram, IsShort, IsTooLong};
ghost use Rattle.code_align.specs.Aligning.{too_many};
ghost use Rattle.program_types.specs.Content as content;
ghost use Rattle.program_types.specs.Formed.{IsFormed};
ghost use Rattle.program_types.specs.View as view;
ghost use Rattle.program_rules.specs.WellFormed.{WellFormed};
ghost use Rattle.program_rules.specs.Rules.{CodesHold};

use crate::align;
use bumpalo::Bump;
use bumpalo::collections::into_bump_slice;
use dex_base::Fault;
use program_types::{Class, Code, Method, Program};
use std::alloc::Global;

/// A body, if there is one.
fn aligned_body<'a>(
    alloc: Global,
    arena: &'a Bump,
    body: Option<&'a Code<'a>>,
) -> Result<Option<&'a Code<'a>>, Fault>
    requires formed { IfSome (option_map (λ c. view.code c.now) body) IsFormed }
    ensures ok { IfOk result (λ d. AlignedBody (option_map (λ c. view.code c.now) body.entry) (option_map (λ c. view.code c.now) d)) }
    ensures formed { IfOk result (λ d. IfSome (option_map (λ c. view.code c.now) d) IsFormed) }
    ensures err { IfErr result (λ e. e ≢ memory → (e ≡ too_many) × ((d : _) → AlignedBody (option_map (λ c. view.code c.now) body.entry) d → ¬ IfSome d IsShort)) }
{
    match body {
        Some(code) => {
            let aligned: &'a Code<'a> = arena.try_alloc(align(alloc, arena, code)?)?;
            Ok(Some(aligned))
        }
        None => Ok(None),
    }
}

/// A method.
fn aligned_method<'a>(alloc: Global, arena: &'a Bump, one: &Method<'a>) -> Result<Method<'a>, Fault>
    requires formed { IfSome (view.method one.now).code IsFormed }
    ensures ok { IfOk result (λ n. AlignedMethod (view.method one.now) (view.method n)) }
    ensures formed { IfOk result (λ n. IfSome (view.method n).code IsFormed) }
    ensures err { IfErr result (λ e. e ≢ memory → (e ≡ too_many) × ((n : _) → AlignedMethod (view.method one.now) n → ¬ IfSome n.code IsShort)) }
{
    let code = aligned_body(alloc, arena, one.code)?;
    Ok(Method {
        name: one.name,
        proto: one.proto,
        flags: one.flags,
        code,
    })
}

/// Methods.
fn aligned_methods<'a>(
    alloc: Global,
    arena: &'a Bump,
    all: &[Method<'a>],
) -> Result<&'a [Method<'a>], Fault>
    requires formed { AllByRecursion (λ (m : content.Method). IfSome m.code IsFormed) (map view.method all.now) }
    ensures ok { IfOk result (λ ns. Pairwise AlignedMethod (map view.method all.now) (map view.method ns.now)) }
    ensures formed { IfOk result (λ ns. AllByRecursion (λ (n : content.Method). IfSome n.code IsFormed) (map view.method ns.now)) }
    ensures err { IfErr result (λ e. e ≢ memory → (e ≡ too_many) × ((ns : _) → Pairwise AlignedMethod (map view.method all.now) ns → ¬ AllByRecursion (λ (n : content.Method). IfSome n.code IsShort) ns)) }
{
    let mut methods: Vec<Method<'a>, &'a Bump> = Vec::with_capacity(arena, all.len())?;
    for one in all {
        methods.push(aligned_method(alloc, arena, one)?)?;
    }
    Ok(into_bump_slice(methods))
}

/// A class.
fn aligned_class<'a>(alloc: Global, arena: &'a Bump, one: &Class<'a>) -> Result<Class<'a>, Fault>
    requires formed { CodesHold IsFormed (view.class one.now) }
    ensures ok { IfOk result (λ d. AlignedClass (view.class one.now) (view.class d)) }
    ensures formed { IfOk result (λ d. CodesHold IsFormed (view.class d)) }
    ensures err { IfErr result (λ e. e ≢ memory → (e ≡ too_many) × ((d : _) → AlignedClass (view.class one.now) d → ¬ CodesHold IsShort d)) }
{
    let directs = aligned_methods(alloc, arena, one.directs)?;
    let virtuals = aligned_methods(alloc, arena, one.virtuals)?;
    Ok(Class {
        ty: one.ty,
        flags: one.flags,
        superclass: one.superclass,
        interfaces: one.interfaces,
        source: one.source,
        statics: one.statics,
        values: one.values,
        instances: one.instances,
        directs,
        virtuals,
    })
}

/// Classes.
fn aligned_classes<'a>(
    alloc: Global,
    arena: &'a Bump,
    all: &[Class<'a>],
) -> Result<&'a [Class<'a>], Fault>
    requires formed { AllByRecursion (CodesHold IsFormed) (map view.class all.now) }
    ensures ok { IfOk result (λ ds. Pairwise AlignedClass (map view.class all.now) (map view.class ds.now)) }
    ensures formed { IfOk result (λ ds. AllByRecursion (CodesHold IsFormed) (map view.class ds.now)) }
    ensures err { IfErr result (λ e. e ≢ memory → IsTooLong (map view.class all.now) e) }
{
    let mut classes: Vec<Class<'a>, &'a Bump> = Vec::with_capacity(arena, all.len())?;
    for one in all {
        classes.push(aligned_class(alloc, arena, one)?)?;
    }
    Ok(into_bump_slice(classes))
}

/// Returns a well-formed program with each body aligned: a nop before each payload that would be at an odd address, and the numbers
/// of instructions moved with it. All else is unchanged, and the program is well formed again. New parts lie in the arena.
///
/// An error is 90, where a body would have more than 2147483647 instructions, or out of memory.
///
/// ```
/// use bumpalo::Bump;
/// use dex_file::{align_all, write};
/// use dex_listing::parse;
///
/// let arena = Bump::new(alloc);
/// let text = b"dex 035 listing 2\nclass LA; 0x1\ndirect m ()V 0x9\ncode 1 0 0\n:l\npacked-switch v0 :p\n:p\npacked-switch-payload 0 :l\nend code\nend class\n";
/// let listed = parse(alloc, &arena, text)?;
/// assert!(rt; write(alloc, &listed).is_err()); // 86 Misaligned at 0
/// let aligned = align_all(alloc, &arena, &listed)?;
/// assert!(rt; write(alloc, &aligned).is_ok());
/// ```
pub fn align_all<'a>(
    alloc: Global,
    arena: &'a Bump,
    program: &Program<'a>,
) -> Result<Program<'a>, Fault>
    requires formed { WellFormed (view.program program.now) }
    ensures ok { IfOk result (λ q. AlignedProgram (view.program program.now) (view.program q)) }
    ensures formed { IfOk result (λ q. WellFormed (view.program q)) }
    ensures err { IfErr result (λ e. e ≢ memory → IsTooLong (view.program program.now) e) }
{
    let classes = aligned_classes(alloc, arena, program.classes)?;
    Ok(Program { classes })
}
