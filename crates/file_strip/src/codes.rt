//! Code items ("code_item", "encoded_method": code_off).
ghost use Rattle.std.specs.Prelude.{◌≡◌, ◌≢◌, ℕ, ◌+◌, ◌<◌, ◌^◌, ◌++◌, List, Option, IfErr, IfOk, OnOk, IsOkUnless, length, map};
ghost use Rattle.dex_base.specs.Fault.{memory};
ghost use Rattle.dex_container.specs.Layout.{size_of};
ghost use Rattle.dex_container.specs.Section as section;
ghost use Rattle.dex_container.specs.Where.{IsSectionOf};
ghost use Rattle.file_layout.specs.Sections.{wide_all};
ghost use Rattle.file_layout.specs.inner.Sections.{Laid};
ghost use Rattle.file_layout.specs.inner.Tiles.{AreShared};
ghost use Rattle.file_limits.specs.Limits.{ClassBreaksLimit, IsFirstToBreak};
ghost use Rattle.file_limits.specs.Wide.{wide_body};
ghost use Rattle.file_limits.specs.inner.Wide.{body_values};
ghost use Rattle.file_put.specs.inner.Codes.{PacksBody, WritesBody, is_bodiless};
ghost use Rattle.file_layout.specs.inner.Sharing.{UsesItem};
ghost use Rattle.program_types.specs.Content as content;
ghost use Rattle.program_types.specs.Content.{Program};
ghost use Rattle.tables_names.specs.Closure.{AreRising, Five, NameRanks};
ghost use Rattle.tables_names.specs.Needed.{needed};
ghost use Rattle.file_renumber.specs.inner.Marked.{Columns};
ghost use Rattle.file_strip.specs.inner.Bodies.{AreFirstBodies, AreNear, AreOwned, IsCarriedBody, IsCarriedSome, IsFar, IsFirstFar, WritesCarried, bodies_alone, body_of, numbered};
ghost use Rattle.file_strip.specs.inner.Keeping.{ListsMembers, Keeps};
ghost use Rattle.tables_rows.specs.Names.{AreRows};
ghost use Rattle.file_strip.specs.inner.Moved.{AreMoved};

use crate::moved::Moved;
use dex_base::{Fault, are_bytes, fault};
use dex_container::{Section, Sections, kind, section_of};
use file_classes::{Entries, MethodEntry, class_count};
use file_put::Placed;
use file_renumber::{Numbers, renumber_code};
use std::alloc::Global;

/// The offset of the body of a method, 0 for none, and the number of the method's class.
#[derive(Clone, Copy)]
struct PlacedBody {
    class: u32,
    code: u32,
}

/// The bytes of a body; where a handler is too far the place of the refusal is the class.
fn renumber_body(
    alloc: Global,
    numbers: &Numbers,
    sections: &Sections<'_>,
    codes: Section,
    body: PlacedBody,
) -> Result<Vec<u8>, Fault>
    requires codes { IsSectionOf sections.now 0x2001 codes }
    requires body { (s : Five) × (v : Option content.Code) × IsCarriedSome sections.now numbers.now s body.code v }
    ensures ok { IfOk result (λ bytes. WritesCarried sections.now numbers.now body.code bytes.items) }
    ensures far { IfErr result (λ e. e ≢ memory → (e ≡ record { code = 89; place = body.class })
        × ((s : Five) (v : Option content.Code) → IsCarriedSome sections.now numbers.now s body.code v → IsFar s v)) }
{
    match renumber_code(alloc, numbers, sections, codes, body.code) {
        Ok(bytes) => {
            are_bytes(&bytes);
            Ok(bytes)
        }
        Err(fault) => {
            if fault.code == fault::HANDLER_TOO_FAR {
                return Err(Fault::at(fault::HANDLER_TOO_FAR, u64::from(body.class)));
            }
            Err(fault)
        }
    }
}

/// Returns the new offset of the body at an old offset, 4-aligned, which is appended unless an equal one is there; 0 if there is
/// none.
fn add_body(
    alloc: Global,
    out: &mut Vec<u8>,
    moved: &mut Moved,
    numbers: &Numbers,
    sections: &Sections<'_>,
    codes: Section,
    body: PlacedBody,
) -> Result<u32, Fault>
    requires codes { IsSectionOf sections.now 0x2001 codes }
    requires body { (s : Five) × (v : Option content.Code) × IsCarriedBody sections.now numbers.now s body.code v × (length out.old.items + wide_body v < 2 ^ 32) }
    requires moved { AreMoved (WritesCarried sections.now numbers.now) moved.old.items moved.old.places }
    ensures ok { IfOk result (λ place. (s : Five) (v : Option content.Code) → IsCarriedBody sections.now numbers.now s body.code v
        → UsesItem is_bodiless (WritesBody s) 4 moved.old.items moved.new.items out.old.items out.new.items v place) }
    ensures moved { OnOk result (AreMoved (WritesCarried sections.now numbers.now) moved.new.items moved.new.places) }
    ensures far { IfErr result (λ e. e ≢ memory → (e ≡ record { code = 89; place = body.class })
        × ((s : Five) (v : Option content.Code) → IsCarriedBody sections.now numbers.now s body.code v → IsFar s v)) }
{
    if body.code == 0 {
        return Ok(0);
    }
    if let Some(place) = moved.find(body.code) {
        return Ok(place);
    }
    let bytes = renumber_body(alloc, numbers, sections, codes, body)?;
    Ok(moved.put_aligned(out, body.code, bytes)?)
}

/// Appends the codes of these bodies.
fn place_bodies(
    alloc: Global,
    out: &mut Vec<u8>,
    numbers: &Numbers,
    sections: &Sections<'_>,
    bodies: &[PlacedBody],
) -> Result<Placed, Fault>
    requires front { 0 < length out.old.items }
    requires bodies { (s : Five) × (xs : List (ℕ × Option content.Code)) × AreOwned sections.now numbers.now s bodies.now xs × (length out.old.items + wide_all wide_body (bodies_alone xs) < 2 ^ 32) }
    ensures ok { IfOk result (λ r. (s : Five) (xs : List (ℕ × Option content.Code)) → AreOwned sections.now numbers.now s bodies.now xs
        → Laid is_bodiless (PacksBody (NameRanks s)) 4 wide_body out.old.items out.new.items (bodies_alone xs) r.places.items r.items) }
    ensures once { IfOk result (λ r. (s : Five) (xs : List (ℕ × Option content.Code)) → AreRising s → AreOwned sections.now numbers.now s bodies.now xs → AreShared r.places.items (bodies_alone xs)) }
    ensures near { OnOk result ((s : Five) (xs : List (ℕ × Option content.Code)) → AreOwned sections.now numbers.now s bodies.now xs → AreNear s xs) }
    ensures far { IfErr result (λ e. e ≢ memory → (e.code ≡ 89)
        × ((s : Five) (xs : List (ℕ × Option content.Code)) → AreOwned sections.now numbers.now s bodies.now xs → IsFirstFar s xs e.place)) }
{
    let codes = section_of(sections, kind::CODE_ITEM);
    let mut moved = Moved::new(alloc, numbers.seed());
    let mut places = Vec::new(alloc);
    for body in bodies {
        let place = add_body(alloc, out, &mut moved, numbers, sections, codes, *body)?;
        places.push(place)?;
    }
    Ok(Placed {
        places,
        items: moved.items.count(),
    })
}

/// Appends the bodies of the methods of these entries, of the class with this number.
fn push_bodies(
    bodies: &mut Vec<PlacedBody>,
    class: u32,
    entries: &[MethodEntry],
) -> Result<(), Fault>
    ensures ok { OnOk result (bodies.new.items ≡ bodies.old.items ++ map (body_of class) entries.now) }
    ensures memory { IsOkUnless result memory }
{
    for entry in entries {
        bodies.push(PlacedBody {
            class,
            code: entry.code,
        })?;
    }
    Ok(())
}

/// Appends the bodies of the methods of the class with this number and these members: the direct ones, then the virtual ones.
fn push_class(bodies: &mut Vec<PlacedBody>, class: u32, all: &Entries) -> Result<(), Fault>
    ensures ok { OnOk result (bodies.new.items ≡ (bodies.old.items ++ map (body_of class) all.now.directs.items) ++ map (body_of class) all.now.virtuals.items) }
    ensures memory { IsOkUnless result memory }
{
    push_bodies(bodies, class, &all.directs)?;
    Ok(push_bodies(bodies, class, &all.virtuals)?)
}

/// The bodies of all methods of the classes with these members: by class, direct methods, then virtual ones.
fn all_bodies(
    alloc: Global,
    sections: &Sections<'_>,
    members: &[Entries],
) -> Result<Vec<PlacedBody>, Fault>
    requires members { AreRows ListsMembers sections.now section.class_defs members.now }
    ensures ok { IfOk result (λ bodies. (numbers : Columns) (p : Program) → Keeps sections.now numbers p → wide_all wide_body (body_values p) < 2 ^ 32
        → AreOwned sections.now numbers (needed p) bodies.items (numbered 0 p)) }
    ensures memory { IsOkUnless result memory }
{
    // Only for the proof: what holds of each value of its type.
    are_bytes(sections.bytes());
    let mut bodies = Vec::new(alloc);
    for i in 0..class_count(sections) {
        push_class(&mut bodies, i, &members[i as usize])?;
    }
    Ok(bodies)
}

/// Appends the bodies of all methods of the classes with these members, each 4-aligned: by class, direct methods, then virtual
/// ones. Returns the offset of each method's body, 0 for a method without one. A body that several methods refer to is read
/// once, and equal ones are written once.
///
/// Refused with 89 at the number of the first class of which a handler begins too far after its list's begin, and else
/// only when out of memory.
///
/// ```
/// let codes = put_codes(alloc, &mut out, &numbers, &sections, &members)?;
/// ```
pub(crate) fn put_codes(
    alloc: Global,
    out: &mut Vec<u8>,
    numbers: &Numbers,
    sections: &Sections<'_>,
    members: &[Entries],
) -> Result<Placed, Fault>
    requires members { AreRows ListsMembers sections.now section.class_defs members.now }
    requires front { 0 < length out.old.items }
    requires kept { (p : Program) × Keeps sections.now numbers.now p × (length out.old.items + wide_all wide_body (body_values p) < 2 ^ 32) }
    ensures ok { IfOk result (λ r. (p : Program) → Keeps sections.now numbers.now p
        → Laid is_bodiless (PacksBody (NameRanks (needed p))) 4 wide_body out.old.items out.new.items (body_values p) r.places.items r.items) }
    ensures once { IfOk result (λ r. (p : Program) → Keeps sections.now numbers.now p → AreShared r.places.items (body_values p)) }
    ensures near { OnOk result ((p : Program) → Keeps sections.now numbers.now p → (i : ℕ) → ¬ ClassBreaksLimit (NameRanks (needed p)) 89 p i) }
    ensures far { IfErr result (λ e. e ≢ memory → (e.code ≡ 89)
        × ((p : Program) → Keeps sections.now numbers.now p → IsFirstToBreak (NameRanks (needed p)) 89 p e.place)) }
{
    let bodies = all_bodies(alloc, sections, members)?;
    Ok(place_bodies(alloc, out, numbers, sections, &bodies)?)
}
