//! How many instructions a code must have for the targets of its lines.

ghost use Rattle.std.specs.Prelude.{◌≡◌, ◌+◌, ◌<◌, map, max};
ghost use Rattle.program_types.specs.View.{insn};
ghost use Rattle.listing_lines.specs.inner.LineView.{line};
ghost use Rattle.listing_lines.specs.Needs as spec;
ghost use Rattle.listing_lines.specs.inner.NeedView.{need};

use crate::line::Line;
use program_types::{Insn, leads_of};

/// The number of a line, and how many instructions its code must have.
#[derive(Clone, Copy)]
pub struct Need {
    pub line: u64,
    pub count: u64,
}

/// More than each target.
fn most_needed(targets: &[u32]) -> u64
    ensures { result ≡ spec.most_needed targets.now }
{
    let mut most = 0u64;
    for target in targets {
        most = most.max(*target as u64 + 1);
    }
    most
}

/// The number of instructions that the targets of an instruction need.
pub fn insn_needs(one: &Insn<'_>) -> u64
    ensures { result ≡ spec.insn_needs (insn one.now) }
{
    most_needed(leads_of(one))
}

/// The number of instructions that the targets of a line need.
pub fn line_needs(one: &Line<'_>) -> u64
    ensures { result ≡ spec.line_needs (line one.now) }
{
    match one {
        Line::Insn(insn) => insn_needs(insn),
        Line::Try(from, to) => (*from as u64 + 1).max(*to as u64),
        Line::Catch(_, at) => *at as u64 + 1,
        Line::CatchAll(at) => *at as u64 + 1,
        _ => 0,
    }
}

/// The first line that needs more instructions than there are.
#[tactic(auto, unfolding(crate::specs::Needs::first_late))]
pub fn first_late(count: u64, needs: &[Need]) -> Option<u64>
    ensures { result ≡ spec.first_late count (map need needs.now) }
{
    for one in needs {
        if count < one.count {
            return Some(one.line);
        }
    }
    None
}
