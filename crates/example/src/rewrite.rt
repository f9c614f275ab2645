//! A function over `dex_file` with a theorem of its own: its result means the program that its input means, and no other.
ghost use Rattle.std.specs.Prelude.{◌≡◌, ℕ, List, IfOk};
ghost use Rattle.dex_file.specs.Content.{Program};
ghost use Rattle.dex_file.specs.Means.{Means};

use bumpalo::Bump;
use dex_file::{Fault, read, write, written_is_read};
use std::alloc::Global;

/// Reads a .dex file and writes its program again.
///
/// ```
/// use example::rewritten;
///
/// assert!(rt; rewritten(alloc, b"no file").is_err()); // refused as `read` and `write` refuse
/// ```
pub fn rewritten(alloc: Global, bytes: &[u8]) -> Result<Vec<u8>, Fault>
    ensures same { IfOk result (λ file. (p q : Program) → Means bytes.now p → Means file.items q → p ≡ q) }
{
    let arena = Bump::new(alloc);
    let program = read(alloc, &arena, bytes)?;
    let file = write(alloc, &program)?;
    written_is_read();
    Ok(file)
}
