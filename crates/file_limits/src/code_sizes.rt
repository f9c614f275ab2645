//! How many bytes bodies take at most.
//! Page: "Dalvik Executable format", "code_item".
ghost use Rattle.std.specs.Prelude.{◌*◌, map, option_map};
ghost use Rattle.code_write.specs.Fits.{catches_in, wide_code};
ghost use Rattle.file_layout.specs.Sections.{wide_all};
ghost use Rattle.program_types.specs.Sizes.{length_of};
ghost use Rattle.program_types.specs.View as view;
ghost use Rattle.file_limits.specs.inner.Sum.{IsSum};
ghost use Rattle.file_limits.specs.Wide.{bodies_in, wide_body};

use crate::sums::{plus, times};
use code_write::units_of;
use program_types::{Code, Insn, Method, Try};

/// How many bytes instructions take, two a unit.
fn insns_size(insns: &[Insn<'_>]) -> u64
    ensures { IsSum result (2 * length_of (map view.insn insns.now)) }
{
    let mut sum: u64 = 0;
    for insn in insns {
        let units = units_of(insn);
        sum = plus(sum, plus(units, units));
    }
    sum
}

/// How many bytes the catches of tries take at most, two numbers each.
fn catches_size(tries: &[Try<'_>]) -> u64
    ensures { IsSum result (10 * catches_in (map view.try tries.now)) }
{
    let mut sum: u64 = 0;
    for one in tries {
        sum = plus(sum, times(one.catches.len(), 10));
    }
    sum
}

/// How many bytes a body takes at most.
fn code_size(code: &Code<'_>) -> u64
    ensures { IsSum result (wide_code (view.code code.now)) }
{
    let insns = plus(26, insns_size(code.insns));
    let tries = plus(insns, times(code.tries.len(), 18));
    plus(tries, catches_size(code.tries))
}

/// How many bytes the body of a method takes at most: none if it has none.
fn body_size(body: Option<&Code<'_>>) -> u64
    ensures { IsSum result (wide_body (option_map (λ c. view.code c.now) body.entry)) }
{
    match body {
        Some(code) => code_size(code),
        None => 0,
    }
}

/// How many bytes the bodies of methods take at most.
pub(crate) fn bodies_size(methods: &[Method<'_>]) -> u64
    ensures { IsSum result (wide_all wide_body (bodies_in (map view.method methods.now))) }
{
    let mut sum: u64 = 0;
    for method in methods {
        sum = plus(sum, body_size(method.code));
    }
    sum
}
