//! How many bytes the names of a file take at most, by the rows of the file that came in.
ghost use Rattle.std.specs.Prelude.{◌+◌, ◌<◌, List};
ghost use Rattle.dex_container.specs.Layout.{size_of};
ghost use Rattle.dex_container.specs.Section as section;
ghost use Rattle.dex_container.specs.Where.{IsSectionOf};
ghost use Rattle.file_layout.specs.Sections.{wide_all};
ghost use Rattle.file_limits.specs.inner.Sum.{IsSum};
ghost use Rattle.file_limits.specs.Wide.{wide_list, wide_names, wide_proto, wide_string};
ghost use Rattle.file_limits.specs.inner.Wide.{wide_text};
ghost use Rattle.program_types.specs.Content.{Program, Units};
ghost use Rattle.tables_names.specs.Needed.{needed};
ghost use Rattle.tables_rows.specs.Stands.{StringStands, TypesAt};
ghost use Rattle.file_strip.specs.inner.Keeping.{Keeps};
ghost use Rattle.file_strip.specs.inner.Sizes.{IsFirstSum};

use crate::texts::{text_at, units_of};
use dex_base::read_uleb;
use dex_container::{Section, Sections, kind, section_of};
use dex_insn::IndexKind;
use file_limits::{plus, times};
use file_renumber::Numbers;
use tables_rows::{indexes_or_none, proto_parameters};

/// The text of row i, with a count of five bytes.
fn text_size(sections: &Sections<'_>, texts: Section, i: u32) -> u64
    requires texts { IsSectionOf sections.now 0x2002 texts }
    requires text { (t : Units) × StringStands sections.now i t }
    ensures { (t : Units) → StringStands sections.now i t → IsSum result (wide_text t) }
{
    let bytes = text_at(sections, texts, i);
    let Some((_, length)) = read_uleb(bytes) else {
        unreachable!()
    };
    let (_, units) = bytes.split_at(length);
    plus(5, units_of(units).len() as u64)
}

/// How many bytes the strings of the kept rows up to row i take at most, where those before it take `sum`.
fn add_string(sum: u64, sections: &Sections<'_>, numbers: &Numbers, texts: Section, i: u32) -> u64
    requires texts { IsSectionOf sections.now 0x2002 texts }
    requires kept { (p : Program) × Keeps sections.now numbers.now p }
    requires row { i < size_of sections.now section.string_ids }
    ensures { (p : Program) → Keeps sections.now numbers.now p
        → IsFirstSum wide_string numbers.now.strings (needed p).strings i sum
        → IsFirstSum wide_string numbers.now.strings (needed p).strings (i + 1) result }
{
    if !numbers.keeps(IndexKind::String, i) {
        return sum;
    }
    plus(sum, plus(4, text_size(sections, texts, i)))
}

/// How many bytes the kept strings take at most.
fn strings_size(sections: &Sections<'_>, numbers: &Numbers) -> u64
    requires kept { (p : Program) × Keeps sections.now numbers.now p }
    ensures { (p : Program) → Keeps sections.now numbers.now p
        → IsSum result (wide_all wide_string (needed p).strings) }
{
    let texts = section_of(sections, kind::STRING_DATA_ITEM);
    let mut sum: u64 = 0;
    for i in 0..sections.table(kind::STRING_ID_ITEM).0 {
        sum = add_string(sum, sections, numbers, texts, i);
    }
    sum
}

/// How many bytes the type list at an offset takes at most: none where it is empty, else three that align it, four for
/// its count, and two a type.
///
/// ```
/// let size = list_size(&sections, proto_parameters(&sections, 3));
/// ```
pub(crate) fn list_size(sections: &Sections<'_>, off: u32) -> u64
    requires { (ts : List Units) × TypesAt sections.now off ts }
    ensures { (ts : List Units) → TypesAt sections.now off ts → IsSum result (wide_list ts) }
{
    let lists = section_of(sections, kind::TYPE_LIST);
    let Some(indexes) = indexes_or_none(sections, lists, off) else {
        unreachable!()
    };
    match indexes.len() {
        0 => 0,
        length => plus(7, length as u64),
    }
}

/// How many bytes the prototypes of the kept rows up to row i take at most, where those before it take `sum`.
fn add_proto(sum: u64, sections: &Sections<'_>, numbers: &Numbers, i: u32) -> u64
    requires kept { (p : Program) × Keeps sections.now numbers.now p }
    requires row { i < size_of sections.now section.proto_ids }
    ensures { (p : Program) → Keeps sections.now numbers.now p
        → IsFirstSum wide_proto numbers.now.protos (needed p).protos i sum
        → IsFirstSum wide_proto numbers.now.protos (needed p).protos (i + 1) result }
{
    if !numbers.keeps_proto(i) {
        return sum;
    }
    let list = list_size(sections, proto_parameters(sections, i));
    plus(sum, plus(12, list))
}

/// How many bytes the kept prototypes take at most.
fn protos_size(sections: &Sections<'_>, numbers: &Numbers) -> u64
    requires kept { (p : Program) × Keeps sections.now numbers.now p }
    ensures { (p : Program) → Keeps sections.now numbers.now p
        → IsSum result (wide_all wide_proto (needed p).protos) }
{
    let mut sum: u64 = 0;
    for i in 0..sections.table(kind::PROTO_ID_ITEM).0 {
        sum = add_proto(sum, sections, numbers, i);
    }
    sum
}

/// How many bytes the header and the kept names need at most, rows, texts and lists: nothing shared, five bytes for a text's
/// count, three before each list. A result above 4294967295 means only that there are more than that.
///
/// ```
/// let sum = plus(names_size(&sections, &numbers), 163); // and the map
/// ```
pub(crate) fn names_size(sections: &Sections<'_>, numbers: &Numbers) -> u64
    requires kept { (p : Program) × Keeps sections.now numbers.now p }
    ensures { (p : Program) → Keeps sections.now numbers.now p → IsSum result (wide_names (needed p)) }
{
    let strings = plus(112, strings_size(sections, numbers));
    let types = plus(strings, times(numbers.count(IndexKind::Type) as usize, 4));
    let protos = plus(types, protos_size(sections, numbers));
    let fields = plus(protos, times(numbers.count(IndexKind::Field) as usize, 8));
    plus(fields, times(numbers.count(IndexKind::Method) as usize, 8))
}
