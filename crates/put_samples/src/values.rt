//! Arrays of values whose names have ranks.

ghost use Rattle.std.specs.Prelude.{◌≤◌, IsTrue, length, map};
ghost use Rattle.program_types.specs.Content as content;
ghost use Rattle.program_types.specs.View as view;
ghost use Rattle.program_types.specs.View.{value};
ghost use Rattle.program_types.specs.Mentions.{NamesHold, AllNamesHold};
ghost use Rattle.dex_value.specs.Named.{IsRanked};
ghost use Rattle.dex_value.specs.Counts.{CountsFit, AllCountsFit};

use dex_base::Fault;
use dex_value::put_array;
use program_types::{Name, Value};
use tables_names::Ranks;

fn has_rank(ranks: &Ranks<'_>, name: Name<'_>) -> bool
    ensures { IsTrue result → IsRanked ranks.now (view.name name.entry) }
{
    match ranks.index_of(name) {
        Some(_) => true,
        None => false,
    }
}

/// Whether the name of a value, if it has one, has a rank. False for arrays.
fn is_ranked(ranks: &Ranks<'_>, one: &Value<'_>) -> bool
    ensures named { IsTrue result → NamesHold (IsRanked ranks.now) (value one.now) }
    ensures counts { IsTrue result → CountsFit (value one.now) }
{
    match one {
        Value::Text(text) => has_rank(ranks, Name::Text(*text)),
        Value::Desc(desc) => has_rank(ranks, Name::Desc(*desc)),
        Value::Field(field) => has_rank(ranks, Name::Field(field)),
        Value::Method(method) => has_rank(ranks, Name::Method(method)),
        Value::Enum(constant) => has_rank(ranks, Name::Field(constant)),
        Value::Array(_) => false,
        _ => true,
    }
}

/// Whether the names of all values have ranks. False where one is an array.
fn are_ranked(ranks: &Ranks<'_>, all: &[Value<'_>]) -> bool
    ensures named { IsTrue result → AllNamesHold (IsRanked ranks.now) (content.values (map value all.now)) }
    ensures counts { IsTrue result → AllCountsFit (content.values (map value all.now)) }
{
    match all {
        [] => true,
        [one, rest @ ..] => is_ranked(ranks, one) && are_ranked(ranks, rest),
    }
}

/// Appends the array of these values.
fn put_flat(out: &mut Vec<u8>, ranks: &Ranks<'_>, all: &[Value<'_>]) -> Result<(), Fault>
    requires named { AllNamesHold (IsRanked ranks.now) (content.values (map value all.now)) }
    requires small { length all.now ≤ 1000 }
    requires counts { AllCountsFit (content.values (map value all.now)) }
{
    put_array(out, ranks, all)
}

/// Appends the array of one array of these values.
fn put_inner(out: &mut Vec<u8>, ranks: &Ranks<'_>, inner: &[Value<'_>]) -> Result<(), Fault>
    requires named { AllNamesHold (IsRanked ranks.now) (content.values (map value inner.now)) }
    requires small { length inner.now ≤ 1000 }
    requires counts { AllCountsFit (content.values (map value inner.now)) }
{
    put_array(out, ranks, &[Value::Array(inner)])
}

/// Appends the array of these values, none of them an array, and then the array of that array, if both are wanted. Nothing where a name has
/// no rank, or where there are more than a thousand values.
pub fn put_all(
    out: &mut Vec<u8>,
    ranks: &Ranks<'_>,
    all: &[Value<'_>],
    are_both: bool,
) -> Result<(), Fault> {
    if all.len() <= 1000 && are_ranked(ranks, all) {
        put_flat(out, ranks, all)?;
        if are_both {
            put_inner(out, ranks, all)?;
        }
    }
    Ok(())
}
