//! The name at an index of a table that is read.
ghost use Rattle.std.specs.Prelude.{◌≡◌, ◌≤◌, IfSome, IfNone, length, map, slice_get};
ghost use Rattle.dex_container.specs.Layout.{size_of};
ghost use Rattle.dex_container.specs.Section as section;
ghost use Rattle.program_types.specs.View.{str, desc, proto};
ghost use Rattle.tables_rows.specs.Names.{AreRows, TypeIsAt};
ghost use Rattle.tables_rows.specs.Stands.{StringStands, TypeStands, ProtoStands};

use dex_container::Sections;
use program_types::{Desc, Proto, Str};

/// The string at an index; None past the last row.
pub(crate) fn string_at<'a>(
    sections: &Sections<'_>,
    strings: &[Str<'a>],
    index: u32,
) -> Option<Str<'a>>
    requires { AreRows StringStands sections.now section.string_ids (map str strings.now) }
    ensures some { IfSome result (λ s. StringStands sections.now index (str s)) }
    ensures got { IfSome result (λ s. slice_get (map str strings.now) index ≡ Some (str s)) }
    ensures none { IfNone result (size_of sections.now section.string_ids ≤ index) }
{
    strings.get(index as usize).copied()
}

/// The type at an index; None past the last row.
pub(crate) fn type_at<'a>(
    sections: &Sections<'_>,
    types: &[Desc<'a>],
    index: u32,
) -> Option<Desc<'a>>
    requires { AreRows TypeStands sections.now section.type_ids (map desc types.now) }
    ensures some { IfSome result (λ t. TypeStands sections.now index (desc t)) }
    ensures none { IfNone result (size_of sections.now section.type_ids ≤ index) }
{
    types.get(index as usize).copied()
}

/// The type at an index; None past the last one.
pub(crate) fn type_in<'a>(types: &[Desc<'a>], index: u32) -> Option<Desc<'a>>
    ensures some { IfSome result (λ t. TypeIsAt (map desc types.now) index (desc t)) }
    ensures none { IfNone result (length types.now ≤ index) }
{
    types.get(index as usize).copied()
}

/// The proto at an index; None past the last row.
pub(crate) fn proto_at<'a>(
    sections: &Sections<'_>,
    protos: &'a [Proto<'a>],
    index: u32,
) -> Option<&'a Proto<'a>>
    requires { AreRows ProtoStands sections.now section.proto_ids (map proto protos.now) }
    ensures some { IfSome result (λ p. ProtoStands sections.now index (proto p.now)) }
    ensures none { IfNone result (size_of sections.now section.proto_ids ≤ index) }
{
    let place = index as usize;
    if place < protos.len() {
        Some(&protos[place])
    } else {
        None
    }
}
