//! Names by their index.
ghost use Rattle.std.specs.Prelude.{◌<◌, ◌≤◌, length, IfSome, IfNone};
ghost use Rattle.program_types.specs.Content as content;
ghost use Rattle.program_types.specs.View as view;
ghost use Rattle.program_types.specs.View.{value};
ghost use Rattle.program_types.specs.Kinds.{IsOfKind};
ghost use Rattle.tables_rows.specs.Names.{NameIsAt};
ghost use Rattle.dex_value.specs.Spelling.{unsigned_of};
ghost use Rattle.dex_value.specs.Faults.{IsNameOfType};
ghost use Rattle.dex_value.specs.Reading.{name_code, table_of_type};
ghost use Rattle.dex_value.specs.inner.Reading.{IsName, ValueStands};

use crate::numbers::unsigned;
use crate::types::{NameType, name_kind};
use program_types::{Name, Value};
use tables_rows::Tables;

/// The name as a value of this type.
fn name_value<'a>(ty: NameType, name: Name<'a>) -> Value<'a>
    requires { IsOfKind (table_of_type ty) (view.name name) }
    ensures { IsName (name_code ty) (view.name name.entry) (value result) }
{
    match name {
        Name::Text(text) => Value::Text(text),
        Name::Desc(desc) => Value::Desc(desc),
        Name::Field(field) => match ty {
            NameType::Enum => Value::Enum(field),
            _ => Value::Field(field),
        },
        Name::Method(method) => Value::Method(method),
    }
}

/// The name that the bytes after a head of this type denote. `None` if its table has no such row.
pub(crate) fn named<'a>(tables: &Tables<'a>, ty: NameType, low: &[u8]) -> Option<Value<'a>>
    requires some { 0 < length low.now }
    requires few { length low.now ≤ 4 }
    ensures some { IfSome result (λ v. ValueStands (NameIsAt tables.now) (name_code ty) low.now (value v)) }
    ensures none { IfNone result ((which : content.Name) →
        IsNameOfType (name_code ty) which → ¬ NameIsAt tables.now (unsigned_of low.now) which) }
{
    let index = unsigned(low) as u32;
    Some(name_value(ty, tables.name(name_kind(ty), index)?))
}
