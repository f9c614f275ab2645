//! The values of static fields.

ghost use Rattle.std.specs.Prelude.{◌↔◌, ◌≤◌, map, IsTrue};
ghost use Rattle.std.specs.List.{AllByRecursion};
ghost use Rattle.program_types.specs.View.{value, class};
ghost use Rattle.program_types.specs.Depth.{depth, most_depth};
ghost use Rattle.program_types.specs.Mentions.{NamesHold};
ghost use Rattle.program_rules.specs.Valid.{IsValidName};
ghost use Rattle.program_rules.specs.Rules.{ValuesFit};

use crate::names::{is_valid_field, is_valid_name};
use crate::nested::names_are_valid_in;
use program_types::{Class, MOST_DEPTH, Name, Value, is_within_depth};

/// Whether a file can have all names in the value, whose depth the stack bears.
pub(crate) fn value_is_valid(root: &Value<'_>) -> bool
    ensures { IsTrue result ↔ NamesHold IsValidName (value root.now) }
{
    match root {
        Value::Text(_) => true,
        Value::Desc(ty) => is_valid_name(Name::Desc(*ty)),
        Value::Field(field) => is_valid_name(Name::Field(*field)),
        Value::Method(method) => is_valid_name(Name::Method(*method)),
        Value::Enum(field) => is_valid_field(*field),
        Value::Array(all) => {
            for each in *all {
                if !value_is_valid(each) {
                    return false;
                }
            }
            true
        }
        _ => true,
    }
}

/// Whether a file can have all names in the values.
pub(crate) fn values_are_valid(all: &[Value<'_>]) -> bool
    ensures { IsTrue result ↔ AllByRecursion (NamesHold IsValidName) (map value all.now) }
{
    for each in all {
        if !names_are_valid_in(each) {
            return false;
        }
    }
    true
}

/// Whether none of the values is deeper than a static value may be.
fn are_shallow(all: &[Value<'_>]) -> bool
    ensures { IsTrue result ↔ AllByRecursion (λ v. depth v ≤ most_depth) (map value all.now) }
{
    for each in all {
        if !is_within_depth(each, MOST_DEPTH) {
            return false;
        }
    }
    true
}

/// Whether the class has no more values than static fields, and none too deep.
pub(crate) fn values_fit(one: &Class<'_>) -> bool
    ensures { IsTrue result ↔ ValuesFit (class one.now) }
{
    if one.values.len() > one.statics.len() {
        return false;
    }
    are_shallow(one.values)
}
