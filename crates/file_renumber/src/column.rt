//! The rows of one table: which are marked, or how many marked ones are before each.
ghost use Rattle.std.specs.Prelude.{◌≡◌, ◌↔◌, ◌+◌, ◌<◌, ◌^◌, ℕ, IfOk, IsOkUnless, IsTrue, length, slice_index, set, replicate};
ghost use Rattle.dex_base.specs.Fault.{memory};
ghost use Rattle.file_renumber.specs.inner.Marked.{IsColumn};
ghost use Rattle.file_renumber.specs.inner.Numbers.{Counts, IsKept};

use dex_base::Fault;
use std::alloc::Global;

/// So many rows, none of them marked, and a place after the last.
pub(crate) fn unmarked(alloc: Global, count: u32) -> Result<Vec<u32>, Fault>
    ensures ok { IfOk result (λ rows. rows.items ≡ replicate (count + 1) 0) }
    ensures few { count < 2 ^ 32 }
    ensures memory { IsOkUnless result memory }
{
    Ok(vec![in alloc; 0u32; count as usize + 1]?)
}

/// Marks a row.
pub(crate) fn mark(rows: &mut [u32], index: u32)
    requires { index < length rows.old }
    ensures { rows.new ≡ set rows.old index 1 }
{
    rows[index as usize] = 1;
}

/// Whether a row is marked.
pub(crate) fn is_marked(rows: &[u32], index: u32) -> bool
    requires { index < length rows.now }
    ensures { IsTrue result ↔ (slice_index rows.now index ≡ 1) }
{
    rows[index as usize] == 1
}

/// For each row, how many marked ones are before it, in place of whether it is marked.
pub(crate) fn count_before(rows: &mut [u32])
    requires { (n : ℕ) × IsColumn n rows.old }
    ensures { Counts rows.old rows.new }
{
    let mut before: u32 = 0;
    for i in 0..rows.len() {
        let marked = rows[i];
        rows[i] = before;
        before += marked;
    }
}

/// Whether a row is one of those that are counted.
pub(crate) fn is_kept(numbers: &[u32], index: u32) -> bool
    requires { index + 1 < length numbers.now }
    ensures { IsTrue result ↔ IsKept numbers.now index }
{
    numbers[index as usize] < numbers[index as usize + 1]
}
