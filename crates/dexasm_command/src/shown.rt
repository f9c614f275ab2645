//! Texts with words of a stranger's in them, as a terminal can be shown them.

use std::alloc::{AllocError, Global};

/// The text without control characters: each, except a line feed, is replaced by its escape, as `\u{1b}`.
pub(crate) fn shown(alloc: Global, text: &str) -> Result<String, AllocError> {
    let mut out = String::new(alloc);
    for c in text.chars() {
        put_shown(&mut out, c)?;
    }
    Ok(out)
}

/// One character of it.
fn put_shown(out: &mut String, c: char) -> Result<(), AllocError> {
    if !c.is_control() || c == '\n' {
        return out.push(c);
    }
    for sign in c.escape_unicode() {
        out.push(sign)?;
    }
    Ok(())
}
