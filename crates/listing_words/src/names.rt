//! Names in words, and their parts: a word is decoded first, and then split.

ghost use Rattle.std.specs.Prelude.{◌≡◌, ℕ, ◌+◌, ◌<◌, ◌⊎◌, ◌∷◌, List, length, map, IfOk, IfSome, IfNone, IsOkUnless};
ghost use Rattle.dex_base.specs.Fault.{memory};
ghost use Rattle.program_types.specs.View.{desc, proto, field_ref, method_ref};
ghost use Rattle.program_types.specs.Content.{Proto as SaidProto, FieldRef as SaidField, MethodRef as SaidMethod};
ghost use Rattle.listing_words.specs.Taking.{EachTaken};
ghost use Rattle.listing_words.specs.inner.Taking.{NoneAt};
ghost use Rattle.listing_words.specs.Names.{TakesNameUnit, SpellsUnits, IsProtoText, IsFieldText, IsMethodText};
ghost use Rattle.listing_words.specs.inner.Names.{HasNameUnit, TakesDescriptor, IsMemberText, up_to, from};

use crate::cut::split_before;
use crate::texts::hex_unit;
use bumpalo::Bump;
use bumpalo::collections::into_bump_slice;
use dex_base::{Fault, descriptor_length, is_descriptor, is_member_name, widen};
use program_types::{Desc, FieldRef, MethodRef, Proto, Str};

// The units between the parts of a name.

const OPEN: u16 = b'(' as u16;

const CLOSE: u16 = b')' as u16;

const COLON: u16 = b':' as u16;

const HYPHEN: u16 = b'-' as u16;

const GREATER: u16 = b'>' as u16;

/// The unit at the front, and how many bytes it takes.
fn name_unit_at(text: &[u8]) -> Option<(u16, usize)>
    ensures found { IfSome result (λ f. HasNameUnit text.now f.0 f.1) }
    ensures none { IfNone result ((u len : ℕ) → HasNameUnit text.now u len → ⊥) }
{
    if text.len() == 0 {
        return None;
    }
    if text[0] != b'\\' {
        return Some((text[0] as u16, 1));
    }
    Some((hex_unit(text)?, 6))
}

/// The unit at the front, and what follows it.
fn read_name_unit(text: &[u8]) -> Option<(u16, &[u8])>
    ensures shorter { IfSome result (λ f. length f.1.now < length text.now) }
    ensures found { IfSome result (λ f. TakesNameUnit text.now f.0 f.1.now) }
    ensures none { IfNone result (NoneAt TakesNameUnit text.now) }
{
    let (unit, length) = name_unit_at(text)?;
    let (_, rest) = text.split_at(length);
    Some((unit, rest))
}

/// The units before the first escape, in a Vec with room for the others, and what stands from it on.
fn read_plain<'a, 'b>(
    arena: &'a Bump,
    word: &'b [u8],
) -> Result<(Vec<u16, &'a Bump>, &'b [u8]), Fault>
    ensures taken { IfOk result (λ f. EachTaken TakesNameUnit word.now f.0.items f.1.now) }
    ensures memory { IsOkUnless result memory }
{
    let (plain, rest) = split_before(b'\\', word);
    let mut units = Vec::with_capacity(arena, word.len())?;
    units.resize(plain.len(), 0)?;
    widen(&mut units[..], plain);
    Ok((units, rest))
}

/// The units of a word, decoded into the arena; none where an escape is malformed.
pub fn read_name<'a>(arena: &'a Bump, word: &[u8]) -> Result<Option<&'a [u16]>, Fault>
    ensures found { IfOk result (λ r. IfSome r (λ us. SpellsUnits word.now us.now)) }
    ensures none { IfOk result (λ r. IfNone r ((us : List ℕ) → SpellsUnits word.now us → ⊥)) }
    ensures memory { IsOkUnless result memory }
{
    let (mut units, mut rest) = read_plain(arena, word)?;
    while let Some((unit, after)) = read_name_unit(rest) {
        units.push(unit)?;
        rest = after;
    }
    if rest.len() == 0 {
        return Ok(Some(into_bump_slice(units)));
    }
    Ok(None)
}

/// All descriptors at the front, and what follows them.
fn read_params<'a>(
    arena: &'a Bump,
    units: &'a [u16],
) -> Result<(Vec<Desc<'a>, &'a Bump>, &'a [u16]), Fault>
    ensures params { IfOk result (λ f. EachTaken TakesDescriptor units.now (map desc f.0.items) f.1.now) }
    ensures all { IfOk result (λ f. NoneAt TakesDescriptor f.1.now) }
    ensures memory { IsOkUnless result memory }
{
    let mut params = Vec::new(arena);
    let mut rest = units;
    while let Some(n) = descriptor_length(rest) {
        let (text, after) = rest.split_at(n);
        params.push(Desc {
            text: Str { units: text },
        })?;
        rest = after;
    }
    Ok((params, rest))
}

/// The prototype after its first parenthesis.
fn read_proto_tail<'a>(arena: &'a Bump, units: &'a [u16]) -> Result<Option<Proto<'a>>, Fault>
    ensures found { IfOk result (λ r. IfSome r (λ p. IsProtoText (40 ∷ units.now) (proto p))) }
    ensures none { IfOk result (λ r. IfNone r ((p : SaidProto) → IsProtoText (40 ∷ units.now) p → ⊥)) }
    ensures memory { IsOkUnless result memory }
{
    let (params, rest) = read_params(arena, units)?;
    let Some((close, ret)) = rest.split_first() else {
        return Ok(None);
    };
    if *close != CLOSE {
        return Ok(None);
    }
    if !is_descriptor(ret) {
        return Ok(None);
    }
    Ok(Some(Proto {
        ret: Desc {
            text: Str { units: ret },
        },
        params: into_bump_slice(params),
    }))
}

/// The prototype that the units are: `(P..)R`.
pub fn read_proto<'a>(arena: &'a Bump, units: &'a [u16]) -> Result<Option<Proto<'a>>, Fault>
    ensures found { IfOk result (λ r. IfSome r (λ p. IsProtoText units.now (proto p))) }
    ensures none { IfOk result (λ r. IfNone r ((p : SaidProto) → IsProtoText units.now p → ⊥)) }
    ensures memory { IsOkUnless result memory }
{
    let Some((open, inner)) = units.split_first() else {
        return Ok(None);
    };
    if *open != OPEN {
        return Ok(None);
    }
    read_proto_tail(arena, inner)
}

/// What stands before the first such unit, and the rest.
fn split_stop(units: &[u16], stop: u16) -> (&[u16], &[u16])
    ensures front { result.0.now ≡ up_to stop units.now }
    ensures back { result.1.now ≡ from stop units.now }
{
    for end in 0..units.len() {
        if units[end] == stop {
            return units.split_at(end);
        }
    }
    units.split_at(units.len())
}

/// A class, a member's name, and what stands after the unit that ends the name.
fn split_member<'a>(units: &'a [u16], stop: u16) -> Option<(&'a [u16], &'a [u16], &'a [u16])>
    requires { (stop ≡ 58) ⊎ (stop ≡ 40) }
    ensures found { IfSome result (λ f. IsMemberText stop units.now f.0.now f.1.now f.2.now) }
    ensures none { IfNone result ((class name tail : List ℕ) → IsMemberText stop units.now class name tail → ⊥) }
{
    let n = descriptor_length(units)?;
    let (class, after) = units.split_at(n);
    if after.len() < 2 {
        return None;
    }
    if after[0] != HYPHEN {
        return None;
    }
    if after[1] != GREATER {
        return None;
    }
    let (_, rest) = after.split_at(2);
    let (name, end) = split_stop(rest, stop);
    let Some((_, tail)) = end.split_first() else {
        return None;
    };
    if !is_member_name(name) {
        return None;
    }
    Some((class, name, tail))
}

/// The field that the units are: `C->n:T`. Its parts are slices of them.
pub fn read_field<'a>(units: &'a [u16]) -> Option<FieldRef<'a>>
    ensures found { IfSome result (λ f. IsFieldText units.now (field_ref f)) }
    ensures none { IfNone result ((f : SaidField) → IsFieldText units.now f → ⊥) }
{
    let (class, name, ty) = split_member(units, COLON)?;
    if !is_descriptor(ty) {
        return None;
    }
    Some(FieldRef {
        class: Desc {
            text: Str { units: class },
        },
        name: Str { units: name },
        ty: Desc {
            text: Str { units: ty },
        },
    })
}

/// The method that the units are: `C->n(P..)R`.
pub fn read_method<'a>(arena: &'a Bump, units: &'a [u16]) -> Result<Option<MethodRef<'a>>, Fault>
    ensures found { IfOk result (λ r. IfSome r (λ m. IsMethodText units.now (method_ref m))) }
    ensures none { IfOk result (λ r. IfNone r ((m : SaidMethod) → IsMethodText units.now m → ⊥)) }
    ensures memory { IsOkUnless result memory }
{
    let Some((class, name, tail)) = split_member(units, OPEN) else {
        return Ok(None);
    };
    let Some(proto) = read_proto_tail(arena, tail)? else {
        return Ok(None);
    };
    Ok(Some(MethodRef {
        class: Desc {
            text: Str { units: class },
        },
        name: Str { units: name },
        proto: arena.try_alloc(proto)?,
    }))
}
