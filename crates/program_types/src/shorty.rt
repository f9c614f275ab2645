//! The short form of a prototype ("Dalvik Executable format", "String syntax": ShortyDescriptor).

ghost use Rattle.std.specs.Prelude.{◌≡◌, ◌↔◌, ℕ, List, All, IfOk, IsOkUnless, map};
ghost use Rattle.dex_base.specs.Descriptor.{IsDescriptor};
ghost use Rattle.dex_base.specs.Fault.{memory};
ghost use Rattle.program_types.specs.Shorty.{letter_of, shorty};
ghost use Rattle.program_types.specs.inner.Shorty.{StandsFor};
ghost use Rattle.program_types.specs.View.{str, desc};

use crate::arena::alloc_str;
use crate::names::{Desc, Str};
use bumpalo::Bump;
use dex_base::Fault;
use std::alloc::Global;

/// The letter of every class and array type.
const REFERENCE: u16 = b'L' as u16;

/// The first unit of an array type.
const ARRAY: u16 = b'[' as u16;

/// The letter of a type in a shorty: `L` for classes and arrays, else the first unit of its descriptor (0 of an empty text).
pub fn letter(ty: Desc<'_>) -> u16
    ensures { result ≡ letter_of (desc ty.entry) }
{
    let units = ty.text.units;
    if units.is_empty() {
        return 0;
    }
    match units[0] {
        ARRAY => REFERENCE,
        first => first,
    }
}

/// The shorty of a return type and parameters, in the arena: a letter for each, `L` for classes and arrays and else the
/// descriptor itself. So the shorty of `(I[JLA;)V` is `VILL`. Fails only when out of memory.
///
/// ```
/// use bumpalo::Bump;
/// use dex_program::{Desc, Str, shorty_of};
///
/// let arena = Bump::new(alloc);
/// let class = Desc { text: Str { units: &[0x4c, 0x41, 0x3b] } }; // LA;
/// let void = Desc { text: Str { units: &[0x56] } };
/// let shorty = shorty_of(alloc, &arena, void, &[class])?;
/// assert!(rt; shorty.units == [0x56, 0x4c].as_slice()); // VL
/// ```
pub fn shorty_of<'a>(
    alloc: Global,
    arena: &'a Bump,
    ret: Desc<'_>,
    params: &[Desc<'_>],
) -> Result<Str<'a>, Fault>
    requires ret { IsDescriptor (desc ret) }
    requires params { All IsDescriptor (map desc params.now) }
    ensures ok { IfOk result (λ placed.
        str placed ≡ shorty (record { ret = desc ret.entry; params = map desc params.now })) }
    ensures memory { IsOkUnless result memory }
{
    let mut letters = Vec::with_capacity(alloc, params.len() + 1)?;
    letters.push(letter(ret))?;
    for param in params {
        letters.push(letter(*param))?;
    }
    alloc_str(arena, &letters)
}

/// The law of letters: a descriptor has exactly one letter for its type, the one that a shorty has.
pub fn shorty_laws()
    ensures { (descriptor : List ℕ) (one : ℕ) → IsDescriptor descriptor →
        (StandsFor one descriptor ↔ (one ≡ letter_of descriptor)) }
{}
