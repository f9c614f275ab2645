//! The pieces of a code item beside its instructions and handlers ("Dalvik Executable format", "code_item", "try_item").

ghost use Rattle.std.specs.Prelude.{◌≡◌, ◌++◌, ◌<◌, ◌≤◌, ℕ, length, map, OnOk, IsOkUnless, slice_index};
ghost use Rattle.dex_base.specs.Fault.{memory};
ghost use Rattle.dex_base.specs.Fields.{u16_bytes, u32_bytes};
ghost use Rattle.program_types.specs.View as view;
ghost use Rattle.program_types.specs.Formed.{TryFormed};
ghost use Rattle.code_write.specs.Packs.{head_bytes, padding, bound_of, item_bytes, items_bytes};

use crate::begins::Begins;
use dex_base::Fault;
use program_types::{Code, Try};

/// Appends a number of two bytes.
#[tactic(auto, unfolding(dex_base::specs::Fields::u16_bytes))]
pub fn put_u16(out: &mut Vec<u8>, n: u16) -> Result<(), Fault>
    ensures ok { OnOk result (out.new.items ≡ out.old.items ++ u16_bytes n) }
    ensures memory { IsOkUnless result memory }
{
    out.extend_from_slice(&n.to_le_bytes())?;
    Ok(())
}

/// Appends a number of four bytes.
#[tactic(auto, unfolding(dex_base::specs::Fields::u32_bytes))]
pub fn put_u32(out: &mut Vec<u8>, n: u32) -> Result<(), Fault>
    ensures ok { OnOk result (out.new.items ≡ out.old.items ++ u32_bytes n) }
    ensures memory { IsOkUnless result memory }
{
    out.extend_from_slice(&n.to_le_bytes())?;
    Ok(())
}

/// Appends the header of a code of so many units.
pub(crate) fn put_head(out: &mut Vec<u8>, code: &Code<'_>, size: u32) -> Result<(), Fault>
    requires { length code.now.tries.now ≤ 65535 }
    ensures ok { OnOk result (out.new.items ≡ out.old.items ++ head_bytes (view.code code.now) size) }
    ensures memory { IsOkUnless result memory }
{
    put_u16(out, code.registers)?;
    put_u16(out, code.ins)?;
    put_u16(out, code.outs)?;
    put_u16(out, code.tries.len() as u16)?;
    put_u32(out, 0)?;
    put_u32(out, size)
}

/// Appends the padding unit after an odd number of units, if there are tries.
pub fn put_padding(out: &mut Vec<u8>, size: u32, tries: usize) -> Result<(), Fault>
    ensures ok { OnOk result (out.new.items ≡ out.old.items ++ padding size tries) }
    ensures memory { IsOkUnless result memory }
{
    if tries == 0 {
        return Ok(());
    }
    if size % 2 == 0 {
        return Ok(());
    }
    out.extend_from_slice(&[0, 0])?;
    Ok(())
}

/// Where an instruction begins, or where the last one ends.
fn bound_at(starts: &Begins<'_>, size: u32, k: u32) -> u32
    requires { k ≤ length starts.now }
    ensures { result ≡ bound_of size starts.now k }
{
    if (k as usize) == starts.list.len() {
        return size;
    }
    starts.at(k)
}

/// Appends a try_item.
fn put_item(
    out: &mut Vec<u8>,
    starts: &Begins<'_>,
    size: u32,
    one: &Try<'_>,
    offset: u32,
) -> Result<(), Fault>
    requires some { one.now.from < one.now.to }
    requires within { one.now.to ≤ length starts.now }
    requires offset { offset < 65536 }
    ensures ok { OnOk result (out.new.items ≡ out.old.items ++ item_bytes size starts.now (view.try one.now) offset) }
    ensures memory { IsOkUnless result memory }
{
    let begin = starts.at(one.from);
    let covered = bound_at(starts, size, one.to).saturating_sub(begin);
    put_u32(out, begin)?;
    put_u16(out, covered.min(65535) as u16)?;
    put_u16(out, offset as u16)
}

/// Appends the try_items, whose handlers begin at these offsets.
pub(crate) fn put_items(
    out: &mut Vec<u8>,
    starts: &Begins<'_>,
    size: u32,
    tries: &[Try<'_>],
    offsets: &[u32],
) -> Result<(), Fault>
    requires formed { (i : ℕ) → i < length tries.now → TryFormed (length starts.now) (map view.try tries.now) i }
    requires count { length offsets.now ≡ length tries.now }
    requires offsets { (i : ℕ) → i < length offsets.now → slice_index offsets.now i < 65536 }
    ensures ok { OnOk result (out.new.items ≡ out.old.items ++ items_bytes size starts.now (map view.try tries.now) offsets.now) }
    ensures memory { IsOkUnless result memory }
{
    for i in 0..tries.len() {
        let one = &tries[i];
        put_item(out, starts, size, one, offsets[i])?;
    }
    Ok(())
}
