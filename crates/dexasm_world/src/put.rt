//! All bytes of the output, appended to a file.
ghost use Rattle.std.specs.Prelude.{◌≡◌, ◌≤◌, ℕ, true, length, take, OnOk};
ghost use Rattle.dexasm_world.specs.State.{Passes};
ghost use Rattle.dexasm_world.specs.inner.Steps.{Wrote};
ghost use Rattle.dexasm_world.specs.inner.FileKinds.{HasCause};

use crate::world::{Handle, Refusal, World};

/// Writes all the bytes at the end of the file.
pub fn put_all<W: World>(world: &mut W, file: &mut W::File, bytes: &[u8]) -> Result<(), Refusal>
    ensures number { W.is_known ≡ true → W.File.number file.new ≡ W.File.number file.old }
    ensures moments { W.is_known ≡ true → Passes (W.files world.old) (W.files world.new)
        (λ t. (k : ℕ) × (k ≤ length bytes.now) × Wrote (W.File.number file.old) (take k bytes.now) (W.files world.old).now t) }
    ensures all { W.is_known ≡ true → OnOk result (Wrote (W.File.number file.old) bytes.now (W.files world.old).now (W.files world.new).now) }
    ensures cause { W.is_known ≡ true → HasCause (W.files world.old) (W.files world.new) result }
{
    let mut done = 0;
    while done < bytes.len() {
        match world.put(file, &bytes[done..]) {
            Ok(n) if n > 0 => done += n,
            Ok(_) => return Err(Refusal::Other),
            Err(refusal) => return Err(refusal),
        }
    }
    Ok(())
}
