//! How deep values are nested ("Dalvik Executable format", "encoded_value encoding": VALUE_ARRAY).

ghost use Rattle.std.specs.Prelude.{◌≤◌, ◌↔◌, IsTrue};
ghost use Rattle.program_types.specs.View.{value};
ghost use Rattle.program_types.specs.Depth.{depth};

use crate::value::Value;

/// The deepest that a static value may be *(ours)*.
pub const MOST_DEPTH: u32 = 64;

/// Whether a value is at most `limit` deep: an array is one deeper than the deepest value in it, all other values have depth 0.
///
/// The stack holds at most `limit + 1` calls, however deep the value is.
pub fn is_within_depth(root: &Value<'_>, limit: u32) -> bool
    ensures { IsTrue result ↔ (depth (value root.now) ≤ limit) }
{
    match root {
        Value::Array(all) => {
            if limit == 0 {
                return false;
            }
            for each in *all {
                if !is_within_depth(each, limit - 1) {
                    return false;
                }
            }
            true
        }
        _ => true,
    }
}
