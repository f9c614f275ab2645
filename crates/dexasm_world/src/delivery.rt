//! The delivery of the output to OUT: it is written beside OUT, and replaces it only when it is complete.
ghost use Rattle.std.specs.Prelude.{◌≡◌, true, false, [], Ok, IfOk, IsSome, OnOk, string_bytes, ⊤};
ghost use Rattle.dexasm_world.specs.State.{Passes, place_of};
ghost use Rattle.dexasm_world.specs.Steps.{private_mode};
ghost use Rattle.dexasm_world.specs.Safe.{part_path, IsAlone, IsSafe, IsDelivered, CanGive, Leaves};
ghost use Rattle.dexasm_world.specs.FileKinds.{HasCauseAt};
ghost use Rattle.dexasm_world.specs.inner.FileKinds.{HasKind, HasCause, HasCauseBeside};
ghost use Rattle.dexasm_world.specs.inner.Parts.{Overwrites, HoldsBytes, Fills, Stores, Dresses, HasPartFile, HasFullPart, Brings, HasBrought, LeavesPart};

use crate::put::put_all;
use crate::world::{Dress, FileKind, Handle, NotMade, NotReplaced, Refusal, World};
use std::alloc::{AllocError, Global};

/// Delivers the output to OUT.
pub fn deliver<W: World>(
    alloc: Global,
    world: &mut W,
    out: &str,
    answer: &[u8],
) -> Result<(), Refusal>
    ensures moments { W.is_known ≡ true → Passes (W.files world.old) (W.files world.new) (IsSafe (W.files world.old) out.now answer.now) }
    ensures done { W.is_known ≡ true → OnOk result (IsDelivered (W.files world.old) out.now answer.now (W.files world.new).now) }
    ensures cause { W.is_known ≡ true → HasCauseAt out.now (W.files world.old) (W.files world.new) result }
    ensures left { W.is_known ≡ true → Leaves (W.files world.old) out.now answer.now (W.files world.new) result }
{
    match world.kind_of(out) {
        Ok(FileKind::Link) => match world.target(alloc, out) {
            Ok(target) => {
                let path = target.as_str();
                match world.kind_of(path) {
                    Ok(kind_of) => deliver_over(alloc, world, path, kind_of, answer),
                    Err(refusal) => Err(refusal),
                }
            }
            Err(Refusal::Missing) => overwrite(world, out, answer, false),
            Err(refusal) => Err(refusal),
        },
        Ok(kind_of) => deliver_over(alloc, world, out, kind_of, answer),
        Err(Refusal::Missing) => deliver_beside(alloc, world, out, answer, None, false),
        Err(refusal) => Err(refusal),
    }
}

/// Delivers to the file at this path, which is no link.
fn deliver_over<W: World>(
    alloc: Global,
    world: &mut W,
    path: &str,
    kind_of: FileKind,
    answer: &[u8],
) -> Result<(), Refusal>
    requires plain { W.is_known ≡ true → (W.files world.old).paths.is_plain path.now ≡ true }
    requires kind_of { W.is_known ≡ true → HasKind (W.files world.old) path.now (Ok kind_of) }
    ensures moments { W.is_known ≡ true → Passes (W.files world.old) (W.files world.new) (IsSafe (W.files world.old) path.now answer.now) }
    ensures done { W.is_known ≡ true → OnOk result (IsDelivered (W.files world.old) path.now answer.now (W.files world.new).now) }
    ensures cause { W.is_known ≡ true → HasCauseAt path.now (W.files world.old) (W.files world.new) result }
    ensures left { W.is_known ≡ true → Leaves (W.files world.old) path.now answer.now (W.files world.new) result }
{
    match kind_of {
        FileKind::Alone(dress) => {
            if world.may_write(path) {
                deliver_beside(alloc, world, path, answer, Some(dress), false)
            } else {
                Err(Refusal::Other)
            }
        }
        FileKind::Shared(dress) => {
            if world.may_write(path) {
                deliver_beside(alloc, world, path, answer, Some(dress), true)
            } else {
                Err(Refusal::Other)
            }
        }
        FileKind::Device => overwrite(world, path, answer, false),
        FileKind::Link => Err(Refusal::Other),
    }
}

/// Delivers by a new file beside OUT. If it is to have OUT's mode, no other user may open it until it has.
fn deliver_beside<W: World>(
    alloc: Global,
    world: &mut W,
    path: &str,
    answer: &[u8],
    dress: Option<Dress>,
    is_shared: bool,
) -> Result<(), Refusal>
    requires plain { W.is_known ≡ true → (W.files world.old).paths.is_plain path.now ≡ true }
    requires dressed { W.is_known ≡ true → Dresses (place_of (W.files world.old) path.now) dress (W.files world.old).now }
    requires shared { W.is_known ≡ true → is_shared ≡ true → CanGive (W.files world.old) path.now → ⊥ }
    requires alone { W.is_known ≡ true → is_shared ≡ false → IsAlone (place_of (W.files world.old) path.now) (W.files world.old).now }
    ensures moments { W.is_known ≡ true → Passes (W.files world.old) (W.files world.new) (IsSafe (W.files world.old) path.now answer.now) }
    ensures done { W.is_known ≡ true → OnOk result (IsDelivered (W.files world.old) path.now answer.now (W.files world.new).now) }
    ensures cause { W.is_known ≡ true → HasCauseBeside path.now (W.files world.old) (W.files world.new) result }
    ensures left { W.is_known ≡ true → Leaves (W.files world.old) path.now answer.now (W.files world.new) result }
{
    for number in 0..u32::MAX {
        let Ok(part) = part_name(alloc, path, number) else {
            return Err(Refusal::Memory);
        };
        let name = part.as_str();
        match world.make(name, dress.is_some()) {
            Ok(file) => return deliver_by(world, file, name, path, answer, dress, is_shared),
            Err(NotMade::Taken) => {}
            Err(NotMade::Closed) => return overwrite(world, path, answer, false),
            Err(NotMade::Failed(refusal)) => return Err(refusal),
        }
    }
    Err(Refusal::Other)
}

/// The path of the file beside, with this number.
fn part_name(alloc: Global, path: &str, number: u32) -> Result<String, AllocError>
    ensures { IfOk result (λ name. string_bytes name ≡ part_path path.now number) }
{
    format!(in alloc; "{path}.{number}.part")
}

/// By way of this new file.
fn deliver_by<W: World>(
    world: &mut W,
    file: W::File,
    part: &str,
    path: &str,
    answer: &[u8],
    dress: Option<Dress>,
    is_shared: bool,
) -> Result<(), Refusal>
    requires new { W.is_known ≡ true → HasPartFile (W.files world.old) part.now path.now (W.File.number file) }
    requires empty { W.is_known ≡ true → ((W.files world.old).now.file (W.File.number file)).bytes ≡ [] }
    requires private { W.is_known ≡ true → IsSome dress → ((W.files world.old).now.file (W.File.number file)).mode ≡ private_mode }
    requires dressed { W.is_known ≡ true → Dresses (place_of (W.files world.old) path.now) dress (W.files world.old).now }
    ensures moments { W.is_known ≡ true → Passes (W.files world.old) (W.files world.new)
        (Brings (place_of (W.files world.old) part.now) (place_of (W.files world.old) path.now) answer.now
        (((W.files world.old).paths.is_fixed (place_of (W.files world.old) path.now) ≡ false) × (is_shared ≡ false)) (W.files world.old).now) }
    ensures done { W.is_known ≡ true → OnOk result
        (HasBrought (place_of (W.files world.old) part.now) (place_of (W.files world.old) path.now) answer.now
        (((W.files world.old).paths.is_fixed (place_of (W.files world.old) path.now) ≡ false) × (is_shared ≡ false)) (is_shared ≡ true) (W.files world.old).now (W.files world.new).now) }
    ensures cause { W.is_known ≡ true → HasCause (W.files world.old) (W.files world.new) result }
    ensures left { W.is_known ≡ true → LeavesPart (place_of (W.files world.old) part.now) (place_of (W.files world.old) path.now) answer.now
        (((W.files world.old).paths.is_fixed (place_of (W.files world.old) path.now) ≡ false) × (is_shared ≡ false)) (W.files world.old) (W.files world.new) result }
{
    let mut file = file;
    match store(world, &mut file, answer, dress) {
        Ok(()) if is_shared => copy_over(world, part, path, answer),
        Ok(()) => install(world, part, path, answer),
        Err(refusal) => {
            let _ = world.remove(part);
            Err(refusal)
        }
    }
}

/// Writes the complete output to a new file, and syncs it if it is to replace another.
fn store<W: World>(
    world: &mut W,
    file: &mut W::File,
    answer: &[u8],
    dress: Option<Dress>,
) -> Result<(), Refusal>
    ensures moments { W.is_known ≡ true → Passes (W.files world.old) (W.files world.new)
        (Fills (W.File.number file.old) dress (W.files world.old).now) }
    ensures stored { W.is_known ≡ true → OnOk result
        (Stores (W.File.number file.old) answer.now dress (W.files world.old).now (W.files world.new).now) }
    ensures cause { W.is_known ≡ true → HasCause (W.files world.old) (W.files world.new) result }
{
    match dress {
        Some(dress) => {
            world.dress(file, dress)?;
            put_all(world, file, answer)?;
            world.keep(file)
        }
        None => put_all(world, file, answer),
    }
}

/// The file beside takes OUT's place, or its bytes go there where OUT keeps its place.
fn install<W: World>(world: &mut W, part: &str, path: &str, answer: &[u8]) -> Result<(), Refusal>
    requires { W.is_known ≡ true → HasFullPart (W.files world.old) part.now path.now answer.now }
    ensures moments { W.is_known ≡ true → Passes (W.files world.old) (W.files world.new)
        (Brings (place_of (W.files world.old) part.now) (place_of (W.files world.old) path.now) answer.now
        ((W.files world.old).paths.is_fixed (place_of (W.files world.old) path.now) ≡ false) (W.files world.old).now) }
    ensures done { W.is_known ≡ true → OnOk result
        (HasBrought (place_of (W.files world.old) part.now) (place_of (W.files world.old) path.now) answer.now
        ((W.files world.old).paths.is_fixed (place_of (W.files world.old) path.now) ≡ false) ⊥ (W.files world.old).now (W.files world.new).now) }
    ensures cause { W.is_known ≡ true → HasCause (W.files world.old) (W.files world.new) result }
    ensures left { W.is_known ≡ true → LeavesPart (place_of (W.files world.old) part.now) (place_of (W.files world.old) path.now) answer.now
        ((W.files world.old).paths.is_fixed (place_of (W.files world.old) path.now) ≡ false) (W.files world.old) (W.files world.new) result }
{
    match world.replace(part, path) {
        Ok(()) => Ok(()),
        Err(NotReplaced::Fixed) => copy_over(world, part, path, answer),
        Err(NotReplaced::Failed(refusal)) => {
            let _ = world.remove(part);
            Err(refusal)
        }
    }
}

/// Copies the file beside to OUT. If it does not fit there, the file beside stays, with the complete output.
fn copy_over<W: World>(world: &mut W, part: &str, path: &str, answer: &[u8]) -> Result<(), Refusal>
    requires { W.is_known ≡ true → HasFullPart (W.files world.old) part.now path.now answer.now }
    ensures moments { W.is_known ≡ true → Passes (W.files world.old) (W.files world.new)
        (Brings (place_of (W.files world.old) part.now) (place_of (W.files world.old) path.now) answer.now ⊥ (W.files world.old).now) }
    ensures done { W.is_known ≡ true → OnOk result
        (HasBrought (place_of (W.files world.old) part.now) (place_of (W.files world.old) path.now) answer.now ⊥ ⊤ (W.files world.old).now (W.files world.new).now) }
    ensures cause { W.is_known ≡ true → HasCause (W.files world.old) (W.files world.new) result }
    ensures left { W.is_known ≡ true → LeavesPart (place_of (W.files world.old) part.now) (place_of (W.files world.old) path.now) answer.now
        ⊥ (W.files world.old) (W.files world.new) result }
{
    match overwrite(world, path, answer, true) {
        Ok(()) => {
            let _ = world.remove(part);
            Ok(())
        }
        Err(refusal) => Err(refusal),
    }
}

/// Writes the output over the file that the path resolves to, or creates it.
fn overwrite<W: World>(world: &mut W, path: &str, answer: &[u8], keeps: bool) -> Result<(), Refusal>
    ensures moments { W.is_known ≡ true → Passes (W.files world.old) (W.files world.new)
        (Overwrites (place_of (W.files world.old) path.now) (W.files world.old).now) }
    ensures done { W.is_known ≡ true → OnOk result (HoldsBytes (place_of (W.files world.old) path.now) answer.now keeps (W.files world.old).now (W.files world.new).now) }
    ensures cause { W.is_known ≡ true → HasCause (W.files world.old) (W.files world.new) result }
{
    let mut file = world.begin(path)?;
    put_all(world, &mut file, answer)?;
    if keeps { world.keep(&mut file) } else { Ok(()) }
}
