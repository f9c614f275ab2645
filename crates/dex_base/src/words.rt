//! Lists of four-byte numbers, as header, map and tables have them.
ghost use Rattle.std.specs.Prelude.{◌≡◌, ◌+◌, ◌*◌, ◌≤◌, ◌++◌, OnOk, OnErr, IsOk, IsOkUnless, length, vec_len, vec_capacity};
ghost use Rattle.dex_base.specs.Fault.{memory};
ghost use Rattle.dex_base.specs.Words.{words_bytes};

use crate::fault::Fault;

/// Adds numbers of four bytes each at the end, the low byte first.
///
/// It fails only when out of memory, and then nothing was added; where there is room, there is none.
pub fn push_words(out: &mut Vec<u8>, words: &[u32]) -> Result<(), Fault>
    ensures ok { OnOk result (out.new.items ≡ out.old.items ++ words_bytes words.now) }
    ensures err { OnErr result (out.new.items ≡ out.old.items) }
    ensures memory { IsOkUnless result memory }
    ensures room { vec_len out.old + 4 * length words.now ≤ vec_capacity out.old → IsOk result }
{
    out.reserve(4 * words.len())?;
    for word in words {
        out.extend_from_slice(&word.to_le_bytes())?;
    }
    Ok(())
}
