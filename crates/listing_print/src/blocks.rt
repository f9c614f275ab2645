//! Blocks of lines, and the whole text.

ghost use Rattle.std.specs.Prelude.{◌≡◌, ◌<◌, ◌+◌, ℕ, List, length, ◌++◌, map, option_map, slice_get, OnOk, IfOk, IsOkUnless};
ghost use Rattle.std.specs.List.{flat_map};
ghost use Rattle.dex_base.specs.Fault.{memory};
ghost use Rattle.program_types.specs.View.{desc, str, member, method, value, insn, catch, try, code, class, program};
ghost use Rattle.listing_lines.specs.Lines as spec;
ghost use Rattle.listing_print.specs.Printed.{keyed_text};
ghost use Rattle.listing_print.specs.Canon.{super_text, source_text, insns_text, catches_text, try_text, code_text, direct_text, virtual_text, statics_text, heads_text, fields_text, methods_text, class_text, label_if_named, first_text, text_in, canon, canon_1};
ghost use Rattle.listing_print.specs.inner.Marks.{IsMarked};

use crate::lines::{
    put_catch_all_line, put_catch_line, put_class_line, put_code_line, put_given_line,
    put_insn_line, put_keys, put_label_line, put_member_line, put_method_line, put_source_line,
    put_try_line, put_type_line,
};
use crate::marks::marks_of;
use dex_base::Fault;
use listing_lines::{Form, is_two};
use listing_slots::Key;
use program_types::{Catch, Class, Code, Desc, Insn, Member, Method, Program, Str, Try, Value};
use std::alloc::{AllocError, Global};

/// Appends the label of instruction k if it is named, in the second form.
#[inline(always)]
fn put_mark(out: &mut Vec<u8>, form: Form, marks: &[bool], k: usize) -> Result<(), AllocError>
    requires { k < length marks.now }
    ensures ok { OnOk result ((ns : List ℕ) → IsMarked marks.now ns → out.new.items ≡ out.old.items ++ label_if_named form ns k) }
{
    if is_two(form) && marks[k] {
        return put_label_line(out, k as u64);
    }
    Ok(())
}

/// Appends instructions, numbered from 0, and the labels of those that are named.
fn put_insns(
    out: &mut Vec<u8>,
    form: Form,
    marks: &[bool],
    insns: &[Insn<'_>],
) -> Result<(), AllocError>
    requires { length marks.now ≡ length insns.now + 1 }
    ensures ok { OnOk result ((ns : List ℕ) → IsMarked marks.now ns → out.new.items ≡ out.old.items ++ insns_text form ns 0 (map insn insns.now)) }
{
    for i in 0..insns.len() {
        put_mark(out, form, marks, i)?;
        put_insn_line(out, form, i as u64, &insns[i])?;
    }
    put_mark(out, form, marks, insns.len())
}

/// Appends catches.
fn put_catches(out: &mut Vec<u8>, form: Form, catches: &[Catch<'_>]) -> Result<(), AllocError>
    ensures ok { OnOk result (out.new.items ≡ out.old.items ++ catches_text form (map catch catches.now)) }
{
    for one in catches {
        put_catch_line(out, form, one.ty, one.at)?;
    }
    Ok(())
}

/// Appends a try and its catches.
fn put_try(out: &mut Vec<u8>, form: Form, one: &Try<'_>) -> Result<(), AllocError>
    ensures ok { OnOk result (out.new.items ≡ out.old.items ++ try_text form (try one.now)) }
{
    put_try_line(out, form, one.from, one.to)?;
    put_catches(out, form, one.catches)?;
    match one.catch_all {
        Some(at) => put_catch_all_line(out, form, at),
        None => Ok(()),
    }
}

/// Appends tries.
fn put_tries(out: &mut Vec<u8>, form: Form, tries: &[Try<'_>]) -> Result<(), AllocError>
    ensures ok { OnOk result (out.new.items ≡ out.old.items ++ flat_map (try_text form) (map try tries.now)) }
{
    for one in tries {
        put_try(out, form, one)?;
    }
    Ok(())
}

/// Appends a code block.
fn put_code(alloc: Global, out: &mut Vec<u8>, form: Form, one: &Code<'_>) -> Result<(), AllocError>
    ensures ok { OnOk result (out.new.items ≡ out.old.items ++ code_text form (code one.now)) }
{
    put_code_line(out, one.registers, one.ins, one.outs)?;
    let marks = marks_of(alloc, one)?;
    put_insns(out, form, marks.as_slice(), one.insns)?;
    put_tries(out, form, one.tries)?;
    put_keys(out, Key::End, Key::Code)
}

/// Appends direct methods, each with its code.
fn put_directs(
    alloc: Global,
    out: &mut Vec<u8>,
    form: Form,
    methods: &[Method<'_>],
) -> Result<(), AllocError>
    ensures ok { OnOk result (out.new.items ≡ out.old.items ++ flat_map (direct_text form) (map method methods.now)) }
{
    for one in methods {
        put_direct(alloc, out, form, one)?;
    }
    Ok(())
}

/// Appends a direct method with its code.
fn put_direct(
    alloc: Global,
    out: &mut Vec<u8>,
    form: Form,
    one: &Method<'_>,
) -> Result<(), AllocError>
    ensures ok { OnOk result (out.new.items ≡ out.old.items ++ direct_text form (method one.now)) }
{
    put_method_line(out, Key::Direct, one)?;
    match one.code {
        Some(body) => put_code(alloc, out, form, body),
        None => Ok(()),
    }
}

/// Appends virtual methods, each with its code.
fn put_virtuals(
    alloc: Global,
    out: &mut Vec<u8>,
    form: Form,
    methods: &[Method<'_>],
) -> Result<(), AllocError>
    ensures ok { OnOk result (out.new.items ≡ out.old.items ++ flat_map (virtual_text form) (map method methods.now)) }
{
    for one in methods {
        put_virtual(alloc, out, form, one)?;
    }
    Ok(())
}

/// Appends a virtual method with its code.
fn put_virtual(
    alloc: Global,
    out: &mut Vec<u8>,
    form: Form,
    one: &Method<'_>,
) -> Result<(), AllocError>
    ensures ok { OnOk result (out.new.items ≡ out.old.items ++ virtual_text form (method one.now)) }
{
    put_method_line(out, Key::Virtual, one)?;
    match one.code {
        Some(body) => put_code(alloc, out, form, body),
        None => Ok(()),
    }
}

/// Appends a static field, with its value if it has one.
fn put_static(
    out: &mut Vec<u8>,
    field: &Member<'_>,
    values: &[Value<'_>],
    i: usize,
) -> Result<(), AllocError>
    ensures ok { OnOk result (out.new.items ≡ out.old.items ++ keyed_text (spec.static_line (member field.now) (slice_get (map value values.now) i))) }
{
    if i < values.len() {
        return put_given_line(out, field, &values[i]);
    }
    put_member_line(out, Key::Static, field)
}

/// Appends static fields, the first of them with the values.
fn put_statics(
    out: &mut Vec<u8>,
    fields: &[Member<'_>],
    values: &[Value<'_>],
) -> Result<(), AllocError>
    ensures ok { OnOk result (out.new.items ≡ out.old.items ++ statics_text (map member fields.now) (map value values.now)) }
{
    for i in 0..fields.len() {
        put_static(out, &fields[i], values, i)?;
    }
    Ok(())
}

/// Appends instance fields.
fn put_instances(out: &mut Vec<u8>, fields: &[Member<'_>]) -> Result<(), AllocError>
    ensures ok { OnOk result (out.new.items ≡ out.old.items ++ flat_map (λ m. keyed_text (spec.instance_line m)) (map member fields.now)) }
{
    for one in fields {
        put_member_line(out, Key::Instance, one)?;
    }
    Ok(())
}

/// Appends interfaces.
fn put_interfaces(out: &mut Vec<u8>, interfaces: &[Desc<'_>]) -> Result<(), AllocError>
    ensures ok { OnOk result (out.new.items ≡ out.old.items ++ flat_map (λ d. keyed_text (spec.implements_line d)) (map desc interfaces.now)) }
{
    for one in interfaces {
        put_type_line(out, Key::Implements, *one)?;
    }
    Ok(())
}

/// Appends the superclass.
fn put_super(out: &mut Vec<u8>, superclass: Option<Desc<'_>>) -> Result<(), AllocError>
    ensures ok { OnOk result (out.new.items ≡ out.old.items ++ super_text (option_map desc superclass.entry)) }
{
    match superclass {
        Some(ty) => put_type_line(out, Key::Super, ty),
        None => Ok(()),
    }
}

/// Appends the source file.
fn put_source(out: &mut Vec<u8>, source: Option<Str<'_>>) -> Result<(), AllocError>
    ensures ok { OnOk result (out.new.items ≡ out.old.items ++ source_text (option_map str source.entry)) }
{
    match source {
        Some(text) => put_source_line(out, text),
        None => Ok(()),
    }
}

/// Appends the first line of a class, and the lines before its members.
fn put_heads(out: &mut Vec<u8>, one: &Class<'_>) -> Result<(), AllocError>
    ensures ok { OnOk result (out.new.items ≡ out.old.items ++ heads_text (class one.now)) }
{
    put_class_line(out, one.ty, one.flags)?;
    put_super(out, one.superclass)?;
    put_interfaces(out, one.interfaces)?;
    put_source(out, one.source)
}

/// Appends the fields of a class.
fn put_fields(out: &mut Vec<u8>, one: &Class<'_>) -> Result<(), AllocError>
    ensures ok { OnOk result (out.new.items ≡ out.old.items ++ fields_text (class one.now)) }
{
    put_statics(out, one.statics, one.values)?;
    put_instances(out, one.instances)
}

/// Appends the methods of a class.
fn put_methods(
    alloc: Global,
    out: &mut Vec<u8>,
    form: Form,
    one: &Class<'_>,
) -> Result<(), AllocError>
    ensures ok { OnOk result (out.new.items ≡ out.old.items ++ methods_text form (class one.now)) }
{
    put_directs(alloc, out, form, one.directs)?;
    put_virtuals(alloc, out, form, one.virtuals)
}

/// Appends a class, in a form: what `print` has of it in the second, `print_1` in the first.
///
/// ```
/// use bumpalo::Bump;
/// use dex_listing::parse;
/// use listing_lines::Form;
/// use listing_print::{put_class, put_opening};
///
/// let arena = Bump::new(alloc);
/// let listed = parse(alloc, &arena, b"dex 035 listing 2\nclass LA; 0x1\nend class\n")?;
/// let mut text = Vec::new(alloc);
/// put_opening(&mut text, Form::Two)?;
/// put_class(alloc, &mut text, Form::Two, &listed.classes[0])?;
/// assert!(rt; text.as_slice() == b"dex 035 listing 2\nclass LA; 0x1\nend class\n".as_slice());
/// ```
pub fn put_class(
    alloc: Global,
    out: &mut Vec<u8>,
    form: Form,
    one: &Class<'_>,
) -> Result<(), AllocError>
    ensures ok { OnOk result (out.new.items ≡ out.old.items ++ class_text form (class one.now)) }
{
    put_heads(out, one)?;
    put_fields(out, one)?;
    put_methods(alloc, out, form, one)?;
    put_keys(out, Key::End, Key::Class)
}

/// Appends the first line of a listing in a form.
///
/// ```
/// use listing_lines::Form;
/// use listing_print::put_opening;
///
/// let mut text = Vec::new(alloc);
/// put_opening(&mut text, Form::Two)?;
/// assert!(rt; text.as_slice() == b"dex 035 listing 2\n".as_slice()); // the listing of a program without classes
/// ```
pub fn put_opening(out: &mut Vec<u8>, form: Form) -> Result<(), AllocError>
    ensures ok { OnOk result (out.new.items ≡ out.old.items ++ first_text form) }
{
    match form {
        Form::One => out.extend_from_slice(b"dex 035\n")?,
        Form::Two => out.extend_from_slice(b"dex 035 listing 2\n")?,
    }
    Ok(())
}

/// The listing of a program in a form.
fn print_in(alloc: Global, form: Form, whole: &Program<'_>) -> Result<Vec<u8>, AllocError>
    ensures text { IfOk result (λ text. text.items ≡ text_in form (program whole.now)) }
{
    let mut out = Vec::new(alloc);
    put_opening(&mut out, form)?;
    for one in whole.classes {
        put_class(alloc, &mut out, form, one)?;
    }
    Ok(out)
}

/// Returns the canonical listing of a program, in ASCII: one space between words, a line feed after each line. Instructions that a
/// code refers to have a label before them, `:L` and their number.
///
/// It fails only when out of memory. The stack has a call for each array that a value is in: at most 64 in a well-formed program, and
/// so in every program that `read` or `parse` returns. A much deeper value made by hand may overflow the stack: call `well_formed`
/// first, which refuses it (113). Page: docs/LISTING.md.
///
/// ```
/// use bumpalo::Bump;
/// use dex_listing::{parse, print};
///
/// let arena = Bump::new(alloc);
/// let listed = parse(alloc, &arena, b"dex 035 listing 2\nclass LA; 0x1\nend class\n")?;
/// assert!(rt; print(alloc, &listed)?.as_slice() == b"dex 035 listing 2\nclass LA; 0x1\nend class\n".as_slice());
/// ```
pub fn print(alloc: Global, whole: &Program<'_>) -> Result<Vec<u8>, Fault>
    ensures canonical { IfOk result (λ text. text.items ≡ canon (program whole.now)) }
    ensures memory { IsOkUnless result memory }
{
    Ok(print_in(alloc, Form::Two, whole)?)
}

/// The canonical listing of the first form, in which each instruction has its number; else as `print`.
///
/// ```
/// use bumpalo::Bump;
/// use dex_listing::{parse, print_1};
///
/// let arena = Bump::new(alloc);
/// let listed = parse(alloc, &arena, b"dex 035 listing 2\nclass LA; 0x1\nend class\n")?;
/// assert!(rt; print_1(alloc, &listed)?.as_slice() == b"dex 035\nclass LA; 0x1\nend class\n".as_slice());
/// ```
pub fn print_1(alloc: Global, whole: &Program<'_>) -> Result<Vec<u8>, Fault>
    ensures canonical { IfOk result (λ text. text.items ≡ canon_1 (program whole.now)) }
    ensures memory { IsOkUnless result memory }
{
    Ok(print_in(alloc, Form::One, whole)?)
}
