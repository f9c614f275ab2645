//! Writing a payload ("Dalvik bytecode", the three payload formats).

ghost use Rattle.std.specs.Prelude.{◌≡◌, ◌+◌, ◌*◌, ◌≤◌, ◌++◌, OnOk, OnErr, IsOk, vec_len, vec_capacity};
ghost use Rattle.dex_insn.specs.Raw as said;
ghost use Rattle.dex_insn.specs.Raw.{units};
ghost use Rattle.dex_insn.specs.Written.{IsRaw, written};

use crate::put_units::{high_half, low_half, put_four, put_two};
use std::alloc::AllocError;

/// Appends a packed-switch payload.
#[tactic(auto, unfolding(crate::specs::Written::written, crate::specs::Raw::units))]
pub(crate) fn put_packed(out: &mut Vec<u8>, first: i32, offsets: &[u8]) -> Result<(), AllocError>
    requires { IsRaw (said.Packed first offsets.now) }
    ensures ok { OnOk result (out.new.items ≡ out.old.items ++ written (said.Packed first offsets.now)) }
    ensures err { OnErr result (out.new.items ≡ out.old.items) }
    ensures room { vec_len out.old + 2 * units (said.Packed first offsets.now) ≤ vec_capacity out.old → IsOk result }
{
    out.reserve(8 + offsets.len())?;
    put_four(
        out,
        0x0100,
        (offsets.len() / 4) as u16,
        low_half(first),
        high_half(first),
    )?;
    out.extend_from_slice(offsets)
}

/// Appends a sparse-switch payload.
#[tactic(auto, unfolding(crate::specs::Written::written, crate::specs::Raw::units))]
pub(crate) fn put_sparse(out: &mut Vec<u8>, keys: &[u8], offsets: &[u8]) -> Result<(), AllocError>
    requires { IsRaw (said.Sparse keys.now offsets.now) }
    ensures ok { OnOk result (out.new.items ≡ out.old.items ++ written (said.Sparse keys.now offsets.now)) }
    ensures err { OnErr result (out.new.items ≡ out.old.items) }
    ensures room { vec_len out.old + 2 * units (said.Sparse keys.now offsets.now) ≤ vec_capacity out.old → IsOk result }
{
    out.reserve(4 + keys.len() + offsets.len())?;
    put_two(out, 0x0200, (keys.len() / 4) as u16)?;
    out.extend_from_slice(keys)?;
    out.extend_from_slice(offsets)
}

/// Appends an array payload.
#[tactic(auto, unfolding(crate::specs::Written::written, crate::specs::Raw::units))]
pub(crate) fn put_data(out: &mut Vec<u8>, width: u16, bytes: &[u8]) -> Result<(), AllocError>
    requires { IsRaw (said.Data width bytes.now) }
    ensures ok { OnOk result (out.new.items ≡ out.old.items ++ written (said.Data width bytes.now)) }
    ensures err { OnErr result (out.new.items ≡ out.old.items) }
    ensures room { vec_len out.old + 2 * units (said.Data width bytes.now) ≤ vec_capacity out.old → IsOk result }
{
    let count = bytes.len() / usize::from(width);
    out.reserve(8 + bytes.len() + bytes.len() % 2)?;
    put_four(
        out,
        0x0300,
        width,
        (count % 65536) as u16,
        (count / 65536) as u16,
    )?;
    out.extend_from_slice(bytes)?;
    if bytes.len() % 2 == 0 {
        return Ok(());
    }
    out.push(0)?;
    Ok(())
}
