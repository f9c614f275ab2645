//! The fields of a row of each table ("string_id_item" to "method_id_item"), and the offset of the row.
ghost use Rattle.std.specs.Prelude.{◌≡◌, ◌+◌, ◌<◌};
ghost use Rattle.dex_container.specs.Layout.{size_of};
ghost use Rattle.dex_container.specs.Section as section;
ghost use Rattle.tables_rows.specs.RowFields.{row_place, string_place, type_string, proto_shorty, proto_return, proto_parameters, member_class, member_kind, member_name};
ghost use Rattle.tables_rows.specs.inner.RowFields.{number_of};

use dex_base::{u16_at, u32_at};
use dex_container::{Sections, kind};

/// The two tables whose rows have a class, a name, and a type or proto.
#[derive(Clone, Copy)]
pub enum MemberTable {
    Fields,
    Methods,
}

impl MemberTable {
    /// The kind of the table in the map.
    fn kind(self) -> u16
        ensures { result ≡ number_of self + 1 }
    {
        match self {
            MemberTable::Fields => kind::FIELD_ID_ITEM,
            MemberTable::Methods => kind::METHOD_ID_ITEM,
        }
    }
}

/// The byte offset of row i of string_ids.
pub(crate) fn string_row(sections: &Sections<'_>, i: u32) -> u64
    requires { i < size_of sections.now section.string_ids }
    ensures { result ≡ row_place sections.now section.string_ids i }
{
    u64::from(sections.table(kind::STRING_ID_ITEM).1) + 4 * u64::from(i)
}

/// string_data_off of row i of string_ids.
#[tactic(auto, unfolding(crate::specs::RowFields::string_place))]
pub(crate) fn string_place(sections: &Sections<'_>, i: u32) -> u32
    requires { i < size_of sections.now section.string_ids }
    ensures { result ≡ string_place sections.now i }
{
    let place = string_row(sections, i);
    u32_at(sections.bytes(), place as usize)
}

/// The byte offset of row i of type_ids.
pub(crate) fn type_row(sections: &Sections<'_>, i: u32) -> u64
    requires { i < size_of sections.now section.type_ids }
    ensures { result ≡ row_place sections.now section.type_ids i }
{
    u64::from(sections.table(kind::TYPE_ID_ITEM).1) + 4 * u64::from(i)
}

/// descriptor_idx of row i of type_ids.
#[tactic(auto, unfolding(crate::specs::RowFields::type_string))]
pub fn type_string(sections: &Sections<'_>, i: u32) -> u32
    requires { i < size_of sections.now section.type_ids }
    ensures { result ≡ type_string sections.now i }
{
    let place = type_row(sections, i);
    u32_at(sections.bytes(), place as usize)
}

/// The byte offset of row i of proto_ids.
pub(crate) fn proto_row(sections: &Sections<'_>, i: u32) -> u64
    requires { i < size_of sections.now section.proto_ids }
    ensures { result ≡ row_place sections.now section.proto_ids i }
{
    u64::from(sections.table(kind::PROTO_ID_ITEM).1) + 12 * u64::from(i)
}

/// shorty_idx of row i of proto_ids.
#[tactic(auto, unfolding(crate::specs::RowFields::proto_shorty))]
pub fn proto_shorty(sections: &Sections<'_>, i: u32) -> u32
    requires { i < size_of sections.now section.proto_ids }
    ensures { result ≡ proto_shorty sections.now i }
{
    let place = proto_row(sections, i);
    u32_at(sections.bytes(), place as usize)
}

/// return_type_idx of row i of proto_ids.
#[tactic(auto, unfolding(crate::specs::RowFields::proto_return))]
pub fn proto_return(sections: &Sections<'_>, i: u32) -> u32
    requires { i < size_of sections.now section.proto_ids }
    ensures { result ≡ proto_return sections.now i }
{
    let place = proto_row(sections, i);
    u32_at(sections.bytes(), place as usize + 4)
}

/// parameters_off of row i of proto_ids.
#[tactic(auto, unfolding(crate::specs::RowFields::proto_parameters))]
pub fn proto_parameters(sections: &Sections<'_>, i: u32) -> u32
    requires { i < size_of sections.now section.proto_ids }
    ensures { result ≡ proto_parameters sections.now i }
{
    let place = proto_row(sections, i);
    u32_at(sections.bytes(), place as usize + 8)
}

/// The byte offset of row i of field_ids or method_ids.
pub(crate) fn member_row(sections: &Sections<'_>, table: MemberTable, i: u32) -> u64
    requires { i < size_of sections.now (number_of table) }
    ensures { result ≡ row_place sections.now (number_of table) i }
{
    u64::from(sections.table(table.kind()).1) + 8 * u64::from(i)
}

/// The class_idx of a row of field_ids or method_ids: which row of type_ids has its class.
#[tactic(auto, unfolding(crate::specs::RowFields::member_class))]
pub fn member_class(sections: &Sections<'_>, table: MemberTable, i: u32) -> u16
    requires { i < size_of sections.now (number_of table) }
    ensures { result ≡ member_class sections.now (number_of table) i }
{
    let place = member_row(sections, table, i);
    u16_at(sections.bytes(), place as usize)
}

/// type_idx of row i of field_ids, or proto_idx of row i of method_ids.
#[tactic(auto, unfolding(crate::specs::RowFields::member_kind))]
pub fn member_kind(sections: &Sections<'_>, table: MemberTable, i: u32) -> u16
    requires { i < size_of sections.now (number_of table) }
    ensures { result ≡ member_kind sections.now (number_of table) i }
{
    let place = member_row(sections, table, i);
    u16_at(sections.bytes(), place as usize + 2)
}

/// name_idx of row i of field_ids or method_ids.
#[tactic(auto, unfolding(crate::specs::RowFields::member_name))]
pub fn member_name(sections: &Sections<'_>, table: MemberTable, i: u32) -> u32
    requires { i < size_of sections.now (number_of table) }
    ensures { result ≡ member_name sections.now (number_of table) i }
{
    let place = member_row(sections, table, i);
    u32_at(sections.bytes(), place as usize + 4)
}
