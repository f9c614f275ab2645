//! Units that stand for themselves, many at a time.

ghost use Rattle.std.specs.Prelude.{◌≡◌, ◌<◌, ◌≤◌, length, slice_index, IsTrue, EachIndex, IfOk};
ghost use Rattle.listing_words.specs.inner.Plain.{IsPlainFrom, IsFront, AllOrNone};

use std::alloc::AllocError;

/// The units that a text has only after a backslash.
pub(crate) const QUOTE: u16 = b'"' as u16;

pub(crate) const BACKSLASH: u16 = b'\\' as u16;

/// Whether a unit stands for itself, where those from `least` on can. Without a branch, as the loop below wants it.
#[inline(always)]
fn is_plain(unit: u16, least: u16) -> bool
    requires { 32 ≤ least }
    ensures { IsTrue result → IsPlainFrom least unit }
{
    (unit >= least) & (unit < 127) & (unit != QUOTE) & (unit != BACKSLASH)
}

/// Whether all units stand for themselves. All are looked at, many at a time.
#[inline(always)]
fn are_plain(units: &[u16], least: u16) -> bool
    requires { 32 ≤ least }
    ensures { IsTrue result → EachIndex units.now (λ k. IsPlainFrom least (slice_index units.now k)) }
{
    let mut plain = true;
    for unit in units {
        plain &= is_plain(*unit, least);
    }
    plain
}

/// Appends eight units if all of them stand for themselves: whether they do.
#[inline(always)]
fn put_eight(out: &mut Vec<u8>, run: &[u16], least: u16) -> Result<bool, AllocError>
    requires from { 32 ≤ least }
    requires eight { length run.now ≡ 8 }
    ensures ok { IfOk result (λ done. AllOrNone done least run.now out.old.items out.new.items) }
{
    if !are_plain(run, least) {
        return Ok(false);
    }
    out.extend_from_slice(&[
        run[0] as u8,
        run[1] as u8,
        run[2] as u8,
        run[3] as u8,
        run[4] as u8,
        run[5] as u8,
        run[6] as u8,
        run[7] as u8,
    ])?;
    Ok(true)
}

/// Appends units at the front that stand for themselves, eight at a time: how many.
#[inline(always)]
fn put_eights(out: &mut Vec<u8>, units: &[u16], least: u16) -> Result<usize, AllocError>
    requires { 32 ≤ least }
    ensures ok { IfOk result (λ n. IsFront least units.now out.old.items out.new.items n) }
{
    for i in 0..units.len() / 8 {
        let (_, after) = units.split_at(8 * i);
        let (run, _) = after.split_at(8);
        if !put_eight(out, run, least)? {
            return Ok(8 * i);
        }
    }
    Ok(units.len() / 8 * 8)
}

/// Appends the four units at the front, if there are so many and all of them stand for themselves: how many.
#[inline(always)]
fn put_four(out: &mut Vec<u8>, units: &[u16], least: u16) -> Result<usize, AllocError>
    requires { 32 ≤ least }
    ensures ok { IfOk result (λ n. IsFront least units.now out.old.items out.new.items n) }
{
    if units.len() < 4 {
        return Ok(0);
    }
    let (run, _) = units.split_at(4);
    if !are_plain(run, least) {
        return Ok(0);
    }
    out.extend_from_slice(&[run[0] as u8, run[1] as u8, run[2] as u8, run[3] as u8])?;
    Ok(4)
}

/// Appends units at the front that stand for themselves, one by one: how many.
#[inline(always)]
fn put_ones(out: &mut Vec<u8>, units: &[u16], least: u16) -> Result<usize, AllocError>
    requires { 32 ≤ least }
    ensures ok { IfOk result (λ n. IsFront least units.now out.old.items out.new.items n) }
{
    for i in 0..units.len() {
        if !is_plain(units[i], least) {
            return Ok(i);
        }
        out.push(units[i] as u8)?;
    }
    Ok(units.len())
}

/// Appends the units at the front that stand for themselves, where those from `least` on can: how many.
#[inline(always)]
pub(crate) fn put_plain(out: &mut Vec<u8>, units: &[u16], least: u16) -> Result<usize, AllocError>
    requires { 32 ≤ least }
    ensures ok { IfOk result (λ n. IsFront least units.now out.old.items out.new.items n) }
{
    let eights = put_eights(out, units, least)?;
    let (_, after) = units.split_at(eights);
    let four = put_four(out, after, least)?;
    let (_, last) = after.split_at(four);
    Ok(eights + four + put_ones(out, last, least)?)
}
