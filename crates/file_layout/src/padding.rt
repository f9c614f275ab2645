//! Zeros for alignment.
//! Page: "Dalvik Executable format", "alignment" of each item.
ghost use Rattle.std.specs.Prelude.{◌≡◌, ◌++◌, OnOk, OnErr, IsOkUnless, length};
ghost use Rattle.dex_base.specs.Fault.{memory};
ghost use Rattle.file_layout.specs.Tiles.{zeros, gap};

use dex_base::Fault;

/// How many bytes there are from a place to the next that 4 divides.
pub fn gap_after(place: usize) -> usize
    ensures { result ≡ gap 4 place }
{
    (4 - place % 4) % 4
}

/// Appends as many zeros as there are from `place` to the next place that 4 divides: at most three bytes.
///
/// It fails only when out of memory, and then nothing was added.
pub(crate) fn pad_after(out: &mut Vec<u8>, place: usize) -> Result<(), Fault>
    ensures ok { OnOk result (out.new.items ≡ out.old.items ++ zeros (gap 4 place)) }
    ensures err { OnErr result (out.new.items ≡ out.old.items) }
    ensures memory { IsOkUnless result memory }
{
    match gap_after(place) {
        0 => {}
        1 => out.extend_from_slice(&[0])?,
        2 => out.extend_from_slice(&[0, 0])?,
        _ => out.extend_from_slice(&[0, 0, 0])?,
    }
    Ok(())
}

/// Appends zeros up to the next place that 4 divides: at most three bytes.
///
/// It fails only when out of memory, and then nothing was added.
pub fn pad(out: &mut Vec<u8>) -> Result<(), Fault>
    ensures ok { OnOk result (out.new.items ≡ out.old.items ++ zeros (gap 4 (length out.old.items))) }
    ensures err { OnErr result (out.new.items ≡ out.old.items) }
    ensures memory { IsOkUnless result memory }
{
    pad_after(out, out.len())
}
