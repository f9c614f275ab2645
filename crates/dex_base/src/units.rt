//! The order of strings ("Dalvik Executable format", section "string_ids": by UTF-16 units).

ghost use Rattle.std.specs.Prelude.{◌≡◌};
ghost use Rattle.std.specs.Ordering.{nat_cmp};
ghost use Rattle.std.specs.Cmp.Lexicographic.{slice_cmp};

use std::cmp::Ordering;

/// The order of two strings by their UTF-16 units, the first difference deciding. So a supplementary code point, whose
/// units are surrogates, is less than U+E000 to U+FFFF.
///
/// ```
/// use dex_base::cmp_units;
/// use std::cmp::Ordering;
///
/// assert!(rt; cmp_units(&[0xd800, 0xdc00], &[0xffff]) == Ordering::Less);
/// ```
pub fn cmp_units(a: &[u16], b: &[u16]) -> Ordering
    ensures { result ≡ slice_cmp nat_cmp a.now b.now }
{
    a.cmp(&b)
}
