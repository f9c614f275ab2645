//! Writing payloads: the offsets of switches, and keys, as bytes.

ghost use Rattle.std.specs.Prelude.{◌≡◌, ◌<◌, ◌*◌, length, map, FitsSigned, IfOk, IsOkUnless};
ghost use Rattle.std.specs.Int.{w32};
ghost use Rattle.std.specs.List.{AllByRecursion};
ghost use Rattle.dex_base.specs.Fault.{memory};
ghost use Rattle.code_read.specs.Linked.{target_number};
ghost use Rattle.code_read.specs.Symbols.{ints};
ghost use Rattle.code_write.specs.Fits.{distance_of};

use crate::begins::Begins;
use crate::items::put_u32;
use crate::lowering::distance;
use dex_base::Fault;
use std::alloc::{AllocError, Global};

/// The numbers as bytes, four each, the low byte first.
pub(crate) fn int_bytes(alloc: Global, numbers: &[i32]) -> Result<Vec<u8>, Fault>
    ensures ok { IfOk result (λ b. ints b.items ≡ numbers.now) }
    ensures count { IfOk result (λ b. length b.items ≡ 4 * length numbers.now) }
    ensures memory { IsOkUnless result memory }
{
    let mut bytes = Vec::new(alloc);
    for number in numbers {
        put_u32(&mut bytes, number.cast_unsigned())?;
    }
    Ok(bytes)
}

/// How far each target is from the address, in units.
pub(crate) fn distances(
    alloc: Global,
    starts: &Begins<'_>,
    at: u32,
    targets: &[u32],
) -> Result<Vec<i32>, AllocError>
    requires inside { AllByRecursion (λ to. to < length starts.now) targets.now }
    requires fits { AllByRecursion (λ to. FitsSigned w32 (distance_of starts.now at to)) targets.now }
    ensures ok { IfOk result (λ zs. map (target_number starts.now at) zs.items ≡ targets.now) }
    ensures count { IfOk result (λ zs. length zs.items ≡ length targets.now) }
{
    let mut all = Vec::with_capacity(alloc, targets.len())?;
    for to in targets {
        all.push(distance(starts, at, *to))?;
    }
    Ok(all)
}
