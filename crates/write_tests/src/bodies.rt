//! Bodies as far as branches reach, as much as tries cover, with as many of them as an item can have, and one more.

use crate::many::{Has, body, methods, program, two_classes};
use crate::small::{RETURN, SWITCH};
use bumpalo::Bump;
use bumpalo::collections::into_bump_slice;
use dex_base::Fault;
use program_types::{Code, Insn, Program, Try};

/// A body at a limit.
#[derive(Clone, Copy)]
pub enum Body {
    /// a goto over so many nops
    Over(u32),
    /// a goto back over so many nops
    Back(u32),
    /// an if-eqz over so many nops
    If(u32),
    /// a switch whose payload is at an odd address
    Odd,
    /// a try over so many nops, with return-void after them
    Nops(u32),
    /// a try over so many nops and a const-wide
    Wide(u32),
    /// so many tries, all with one handler
    Tries(u32),
    /// so many tries, each with a handler of its own
    Handlers(u32),
}

/// How many nops there are, and what stands before and after them.
fn around(one: Body) -> (Option<Insn<'static>>, u32, Insn<'static>) {
    match one {
        Body::Over(count) => (Some(goto(count.saturating_add(1))), count, RETURN),
        Body::If(count) => (Some(if_zero(count.saturating_add(1))), count, RETURN),
        Body::Back(count) => (None, count, goto(0)),
        Body::Nops(count) => (None, count, RETURN),
        Body::Wide(count) => (None, count, WIDE),
        Body::Odd | Body::Tries(_) | Body::Handlers(_) => (None, 65536, RETURN),
    }
}

fn goto(to: u32) -> Insn<'static> {
    Insn::I10t { op: 0x28, to }
}

fn if_zero(to: u32) -> Insn<'static> {
    Insn::I21t { op: 0x38, a: 0, to }
}

const WIDE: Insn<'static> = Insn::I51l {
    op: 0x18,
    a: 0,
    b: 0,
};

fn insns_of<'a>(arena: &'a Bump, one: Body) -> Result<&'a [Insn<'a>], Fault> {
    if matches!(one, Body::Odd) {
        return Ok(&SWITCH);
    }
    let (before, count, after) = around(one);
    let mut insns = Vec::new(arena);
    match before {
        Some(insn) => insns.push(insn)?,
        None => {}
    }
    for _turn in 0..count {
        insns.push(Insn::I10x { op: 0 })?;
    }
    insns.push(after)?;
    Ok(into_bump_slice(insns))
}

/// How many tries there are.
fn count_of_tries(one: Body) -> u32 {
    match one {
        Body::Nops(_) | Body::Wide(_) => 1,
        Body::Tries(count) | Body::Handlers(count) => count,
        _ => 0,
    }
}

/// The try of this number: the units from which and up to which it covers, and where exceptions are handled.
fn try_at(one: Body, number: u32) -> Try<'static> {
    let (from, to, at) = match one {
        Body::Nops(count) => (0, count, 0),
        Body::Wide(count) => (0, count.saturating_add(1), 0),
        Body::Tries(_) => (number, number.saturating_add(1), 0),
        _ => (number, number.saturating_add(1), number),
    };
    Try {
        from,
        to,
        catches: &[],
        catch_all: Some(at),
    }
}

fn tries_of<'a>(arena: &'a Bump, one: Body) -> Result<&'a [Try<'a>], Fault> {
    let mut tries = Vec::new(arena);
    for number in 0..count_of_tries(one) {
        tries.push(try_at(one, number))?;
    }
    Ok(into_bump_slice(tries))
}

fn body_of<'a>(arena: &'a Bump, one: Body) -> Result<&'a Code<'a>, Fault> {
    let insns = insns_of(arena, one)?;
    body(arena, insns, tries_of(arena, one)?)
}

/// The program of a class whose one method has this body.
pub fn of_body<'a>(arena: &'a Bump, one: Body) -> Result<Program<'a>, Fault> {
    let code = body_of(arena, one)?;
    program(arena, &[], &[], Some(code))
}

/// The program of two classes, each with one method, of these bodies.
pub fn of_two<'a>(arena: &'a Bump, one: Body, other: Body) -> Result<Program<'a>, Fault> {
    let first = body_of(arena, one)?;
    let second = body_of(arena, other)?;
    two_classes(arena, first, second)
}

/// So many zeros.
fn zeros<'a>(arena: &'a Bump, count: usize) -> Result<&'a [u8], Fault> {
    let mut bytes = Vec::new(arena);
    bytes.resize(count, 0u8)?;
    Ok(into_bump_slice(bytes))
}

/// 256 methods with one body in memory, whose array is of 2 ^ 24 bytes.
pub fn arrays<'a>(arena: &'a Bump) -> Result<Program<'a>, Fault> {
    let fill = Insn::I31t {
        op: 0x26,
        a: 0,
        to: 2,
    };
    let data = Insn::Data {
        width: 1,
        bytes: zeros(arena, 16777216)?,
    };
    let insns = arena.try_alloc_slice_copy(&[fill, RETURN, data])?;
    let code = body(arena, insns, &[])?;
    program(
        arena,
        &[],
        methods(arena, 256, Has::Body(Some(code)))?,
        None,
    )
}
