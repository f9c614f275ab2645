//! Lines of a text.

ghost use Rattle.std.specs.Prelude.{◌≡◌, ◌<◌, ◌∷◌, [], length, IfSome, IfNone};
ghost use Rattle.listing_lines.specs.Splitting.{lines, is_skipped};

use listing_words::split_before;

/// The first line of a text, and what follows it.
pub fn split_line(text: &[u8]) -> Option<(&[u8], &[u8])>
    ensures found { IfSome result (λ f. lines text.now ≡ f.0.now ∷ lines f.1.now) }
    ensures shorter { IfSome result (λ f. length f.1.now < length text.now) }
    ensures none { IfNone result (lines text.now ≡ []) }
{
    if text.is_empty() {
        return None;
    }
    let (line, after) = split_before(b'\n', text);
    if after.is_empty() {
        return Some((line, after));
    }
    let (_, rest) = after.split_at(1);
    Some((line, rest))
}

/// Whether a line has nothing but spaces, or a comment.
pub fn is_skipped(line: &[u8]) -> bool
    ensures { result ≡ is_skipped line.now }
{
    for i in 0..line.len() {
        if line[i] != b' ' {
            return line[i] == b'#';
        }
    }
    true
}
