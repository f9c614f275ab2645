//! Whether a member is of a class: by the index of the class's type, so that long names aren't compared for each member.
ghost use Rattle.std.specs.Prelude.{◌≡◌, ◌↔◌, ◌<◌, IsTrue};
ghost use Rattle.dex_container.specs.Layout.{size_of};
ghost use Rattle.program_types.specs.View.{desc};
ghost use Rattle.tables_rows.specs.RowFields.{member_class};
ghost use Rattle.tables_rows.specs.inner.RowFields.{number_of};
ghost use Rattle.tables_rows.specs.Stands.{TypeStands};

use dex_container::Sections;
use program_types::{Desc, desc_eq};
use tables_rows::{MemberTable, member_class};

/// Whether a member, whose class is `of` by its row, is of the class of this type row.
pub(crate) fn is_member_of(
    sections: &Sections<'_>,
    table: MemberTable,
    index: u32,
    of: &Desc<'_>,
    row: u32,
    class: Desc<'_>,
) -> bool
    requires inside { index < size_of sections.now (number_of table) }
    requires member { TypeStands sections.now (member_class sections.now (number_of table) index) (desc of.now) }
    requires class { TypeStands sections.now row (desc class) }
    ensures { IsTrue result ↔ (desc of.now ≡ desc class.entry) }
{
    sections.framed();
    let named = member_class(sections, table, index);
    if u32::from(named) == row {
        return true;
    }
    desc_eq(of, &class)
}
