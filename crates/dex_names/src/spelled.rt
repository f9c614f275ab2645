//! The five names, each from its text.

ghost use Rattle.std.specs.Prelude.{List, ℕ, IfOk, IfSome, IfNone, IsOkUnless};
ghost use Rattle.dex_base.specs.Fault.{memory};
ghost use Rattle.program_types.specs.View.{str, desc, proto as view_proto, field_ref, method_ref};
ghost use Rattle.program_types.specs.Content.{Proto as SpecProto, FieldRef as SpecField, MethodRef as SpecMethod};
ghost use Rattle.dex_names.specs.Spelled.{SpellsInAscii, SpellsType, SpellsProto, SpellsField, SpellsMethod};

use bumpalo::Bump;
use dex_base::{Fault, is_descriptor};
use listing_words::{read_field, read_method, read_name, read_proto};
use program_types::{Desc, FieldRef, MethodRef, Proto, Str};

/// The units that a text denotes, in the arena.
fn units_of<'a>(arena: &'a Bump, written: &str) -> Result<Option<&'a [u16]>, Fault>
    ensures found { IfOk result (λ r. IfSome r (λ units. SpellsInAscii written.now units.now)) }
    ensures none { IfOk result (λ r. IfNone r ((units : List ℕ) → SpellsInAscii written.now units → ⊥)) }
    ensures memory { IsOkUnless result memory }
{
    if written.is_ascii() {
        read_name(arena, written.as_bytes())
    } else {
        Ok(None)
    }
}

/// Returns the string that a text denotes; `None` if a backslash begins no `\uXXXX` or a character is not ASCII.
///
/// ```
/// use bumpalo::Bump;
/// use dex_names::text;
///
/// let arena = Bump::new(alloc);
/// let name = text(&arena, "caf\\u00e9")?; // Some: four units
/// ```
pub fn text<'a>(arena: &'a Bump, written: &str) -> Result<Option<Str<'a>>, Fault>
    ensures found { IfOk result (λ r. IfSome r (λ s. SpellsInAscii written.now (str s))) }
    ensures none { IfOk result (λ r. IfNone r ((units : List ℕ) → SpellsInAscii written.now units → ⊥)) }
    ensures memory { IsOkUnless result memory }
{
    match units_of(arena, written)? {
        Some(units) => Ok(Some(Str { units })),
        None => Ok(None),
    }
}

/// Returns the type of a descriptor; `None` if the text is no descriptor.
///
/// ```
/// use bumpalo::Bump;
/// use dex_names::ty;
///
/// let arena = Bump::new(alloc);
/// let rows = ty(&arena, "[[I")?; // Some
/// ```
pub fn ty<'a>(arena: &'a Bump, written: &str) -> Result<Option<Desc<'a>>, Fault>
    ensures found { IfOk result (λ r. IfSome r (λ d. SpellsType written.now (desc d))) }
    ensures none { IfOk result (λ r. IfNone r ((d : List ℕ) → SpellsType written.now d → ⊥)) }
    ensures memory { IsOkUnless result memory }
{
    let Some(units) = units_of(arena, written)? else {
        return Ok(None);
    };
    if !is_descriptor(units) {
        return Ok(None);
    }
    Ok(Some(Desc {
        text: Str { units },
    }))
}

/// Returns the prototype `(P..)R`; `None` if the text has another form or one of its types is no descriptor.
///
/// ```
/// use bumpalo::Bump;
/// use dex_names::proto;
///
/// let arena = Bump::new(alloc);
/// let main = proto(&arena, "([Ljava/lang/String;)V")?; // Some
/// ```
pub fn proto<'a>(arena: &'a Bump, written: &str) -> Result<Option<Proto<'a>>, Fault>
    ensures found { IfOk result (λ r. IfSome r (λ p. SpellsProto written.now (view_proto p))) }
    ensures none { IfOk result (λ r. IfNone r ((p : SpecProto) → SpellsProto written.now p → ⊥)) }
    ensures memory { IsOkUnless result memory }
{
    match units_of(arena, written)? {
        Some(units) => read_proto(arena, units),
        None => Ok(None),
    }
}

/// Returns the field `C->n:T`; `None` if the text has another form or one of its parts is malformed. It may still be a field that no
/// file has, as `V->n:V`: `well_formed` refuses it (110).
///
/// ```
/// use bumpalo::Bump;
/// use dex_names::field;
///
/// let arena = Bump::new(alloc);
/// let name = field(&arena, "LHello;->name:Ljava/lang/String;")?; // Some
/// ```
pub fn field<'a>(arena: &'a Bump, written: &str) -> Result<Option<FieldRef<'a>>, Fault>
    ensures found { IfOk result (λ r. IfSome r (λ f. SpellsField written.now (field_ref f))) }
    ensures none { IfOk result (λ r. IfNone r ((f : SpecField) → SpellsField written.now f → ⊥)) }
    ensures memory { IsOkUnless result memory }
{
    match units_of(arena, written)? {
        Some(units) => Ok(read_field(units)),
        None => Ok(None),
    }
}

/// Returns the method `C->n(P..)R`; `None` if the text has another form or one of its parts is malformed. It may still be a method that
/// no file has, as `V->n()V`: `well_formed` refuses it (110).
///
/// ```
/// use bumpalo::Bump;
/// use dex_names::method;
///
/// let arena = Bump::new(alloc);
/// let get = method(&arena, "LHello;->get(Z)I")?; // Some
/// ```
pub fn method<'a>(arena: &'a Bump, written: &str) -> Result<Option<MethodRef<'a>>, Fault>
    ensures found { IfOk result (λ r. IfSome r (λ m. SpellsMethod written.now (method_ref m))) }
    ensures none { IfOk result (λ r. IfNone r ((m : SpecMethod) → SpellsMethod written.now m → ⊥)) }
    ensures memory { IsOkUnless result memory }
{
    match units_of(arena, written)? {
        Some(units) => read_method(arena, units),
        None => Ok(None),
    }
}
