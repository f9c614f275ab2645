//! Which strings are member names: each string is scanned once, however many rows name it.
//! Page: "Dalvik Executable format", "String syntax": MemberName.
ghost use Rattle.std.specs.Prelude.{◌≡◌, IfOk, get_or, map, false};
ghost use Rattle.program_types.specs.View.{str};
ghost use Rattle.tables_rows.specs.inner.Reading.{AreNameMarks};

use dex_base::is_member_name;
use program_types::Str;
use std::alloc::{AllocError, Global};

/// For each string whether it is a member name.
pub(crate) fn mark_names(alloc: Global, strings: &[Str<'_>]) -> Result<Vec<bool>, AllocError>
    ensures marks { IfOk result (λ names. AreNameMarks (map str strings.now) names.items) }
{
    let mut names = Vec::with_capacity(alloc, strings.len())?;
    for string in strings {
        names.push(is_member_name(string.units))?;
    }
    Ok(names)
}

/// Whether the string at an index is one.
pub(crate) fn is_marked(names: &[bool], index: u32) -> bool
    ensures { result ≡ get_or names.now index false }
{
    match names.get(index as usize) {
        Some(name) => *name,
        None => false,
    }
}
