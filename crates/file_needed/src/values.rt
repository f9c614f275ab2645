//! The names that values mention.
//! Page: "Dalvik Executable format", "encoded_value encoding".
ghost use Rattle.std.specs.Prelude.{◌≡◌, map, OnOk, IsOkUnless};
ghost use Rattle.std.specs.List.{AllByRecursion};
ghost use Rattle.dex_base.specs.Fault.{memory};
ghost use Rattle.tables_names.specs.Closure.{HasShorty, with_names};
ghost use Rattle.program_types.specs.Content as content;
ghost use Rattle.program_types.specs.Depth.{depth};
ghost use Rattle.program_types.specs.Mentions.{names_of_value, names_of_values};
ghost use Rattle.program_types.specs.View as view;

use bumpalo::Bump;
use dex_base::Fault;
use program_types::Value;
use tables_names::Needed;

/// The name in a value that is no array.
#[tactic(auto, using(program_types::proofs::ValueViews::value_views))]
fn add_leaf<'a, 'p: 'a>(
    needed: &mut Needed<'a>,
    arena: &'a Bump,
    one: &Value<'p>,
) -> Result<(), Fault>
    requires shorties { AllByRecursion HasShorty (names_of_value (view.value one.now)) }
    requires flat { depth (view.value one.now) ≡ 0 }
    ensures added { OnOk result (needed.new ≡ with_names needed.old (names_of_value (view.value one.now))) }
    ensures memory { IsOkUnless result memory }
{
    match one {
        Value::Text(text) => needed.add_string(*text),
        Value::Desc(desc) => needed.add_type(*desc),
        Value::Field(field) => needed.add_field(field),
        Value::Method(method) => needed.add_method(arena, method),
        Value::Enum(constant) => needed.add_field(constant),
        _ => Ok(()),
    }
}

/// The names in a value.
#[cycle(values)]
fn add_value<'a, 'p: 'a>(
    needed: &mut Needed<'a>,
    arena: &'a Bump,
    one: &Value<'p>,
) -> Result<(), Fault>
    requires { AllByRecursion HasShorty (names_of_value (view.value one.now)) }
    ensures added { OnOk result (needed.new ≡ with_names needed.old (names_of_value (view.value one.now))) }
    ensures memory { IsOkUnless result memory }
{
    match one {
        Value::Array(all) => add_values(needed, arena, all),
        _ => add_leaf(needed, arena, one),
    }
}

/// The names in values.
#[cycle(values)]
pub(crate) fn add_values<'a, 'p: 'a>(
    needed: &mut Needed<'a>,
    arena: &'a Bump,
    all: &[Value<'p>],
) -> Result<(), Fault>
    requires { AllByRecursion HasShorty (names_of_values (content.values (map view.value all.now))) }
    ensures added { OnOk result (needed.new ≡ with_names needed.old (names_of_values (content.values (map view.value all.now)))) }
    ensures memory { IsOkUnless result memory }
{
    for one in all {
        add_value(needed, arena, one)?;
    }
    Ok(())
}
