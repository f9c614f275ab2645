//! How many bytes static values take at most.
//! Page: "Dalvik Executable format", "encoded_array format", "encoded_value encoding".
ghost use Rattle.std.specs.Prelude.{map};
ghost use Rattle.program_types.specs.Content as content;
ghost use Rattle.program_types.specs.View as view;
ghost use Rattle.dex_value.specs.Wide.{wide_value, wide_values};
ghost use Rattle.file_limits.specs.inner.Sum.{IsSum};

use crate::sums::plus;
use program_types::Value;

/// How many bytes a value takes at most.
#[cycle(values)]
fn value_size(one: &Value<'_>) -> u64
    ensures { IsSum result (wide_value (view.value one.now)) }
{
    match one {
        Value::Array(all) => plus(6, values_size(all)),
        _ => 9,
    }
}

/// How many bytes values take at most, one after the other.
#[cycle(values)]
pub(crate) fn values_size(all: &[Value<'_>]) -> u64
    ensures { IsSum result (wide_values (content.values (map view.value all.now))) }
{
    let mut sum: u64 = 0;
    for one in all {
        sum = plus(sum, value_size(one));
    }
    sum
}
