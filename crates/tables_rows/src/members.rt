//! What rows of field_ids and method_ids have in common: the order by class, name, and type or proto.
ghost use Rattle.std.specs.Prelude.{◌↔◌, ◌<◌, IsTrue};
ghost use Rattle.dex_container.specs.Layout.{size_of};
ghost use Rattle.tables_rows.specs.inner.RowFields.{number_of};
ghost use Rattle.tables_rows.specs.Sorted.{RowRises, MemberIsBelow};

use crate::row_fields::{MemberTable, member_class, member_kind, member_name};
use dex_container::Sections;
use std::cmp::Ordering;

/// Whether row i of field_ids or method_ids is above the row before it.
pub(crate) fn rises(sections: &Sections<'_>, table: MemberTable, i: u32) -> bool
    requires { i < size_of sections.now (number_of table) }
    ensures { IsTrue result ↔ RowRises (MemberIsBelow (number_of table)) sections.now i }
{
    i == 0 || is_below(sections, table, i - 1, i)
}

/// Whether row i is below row j.
fn is_below(sections: &Sections<'_>, table: MemberTable, i: u32, j: u32) -> bool
    requires i { i < size_of sections.now (number_of table) }
    requires j { j < size_of sections.now (number_of table) }
    ensures { IsTrue result ↔ MemberIsBelow (number_of table) sections.now i j }
{
    match member_class(sections, table, i).cmp(&member_class(sections, table, j)) {
        Ordering::Less => return true,
        Ordering::Greater => return false,
        Ordering::Equal => {}
    }
    match member_name(sections, table, i).cmp(&member_name(sections, table, j)) {
        Ordering::Less => return true,
        Ordering::Greater => return false,
        Ordering::Equal => {}
    }
    member_kind(sections, table, i) < member_kind(sections, table, j)
}
