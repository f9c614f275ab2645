//! Which limit the bodies of a program break.
//! Page: "Dalvik Executable format", "code_item"; "Dalvik Executable instruction formats", the widths of fields.
ghost use Rattle.std.specs.Prelude.{◌≡◌, ℕ, ◌≤◌, ◌∷◌, [], Some, IfOk, IsOkUnless, length, map, option_map, slice_get};
ghost use Rattle.std.specs.List.{AllByRecursion};
ghost use Rattle.std.specs.Option.{option_to_list};
ghost use Rattle.dex_base.specs.Fault.{memory};
ghost use Rattle.file_limits.specs.Limits.{codes_in, codes_of};
ghost use Rattle.file_limits.specs.inner.Limits.{BodyIsReady};
ghost use Rattle.file_limits.specs.inner.Lowest.{IsLowestBroken, IsLowestOf, earlier, lower};
ghost use Rattle.tables_names.specs.Closure.{NameRanks};
ghost use Rattle.program_types.specs.View as view;

use code_write::fits;
use dex_base::Fault;
use program_types::{Class, Code, Method};
use std::alloc::Global;
use tables_names::Ranks;

/// The number of the lowest limit that a body breaks, if it breaks one.
fn code_number(alloc: Global, ranks: &Ranks<'_>, code: &Code<'_>) -> Result<Option<u16>, Fault>
    requires ready { BodyIsReady ranks.now (view.code code.now) }
    requires few { length ranks.now.types ≤ 65535 }
    ensures ok { IfOk result (IsLowestBroken (NameRanks ranks.now) (view.code code.now ∷ [])) }
    ensures memory { IsOkUnless result memory }
{
    match fits(alloc, ranks, code) {
        Ok(()) => Ok(None),
        Err(refusal) => {
            if refusal.code == Fault::MEMORY.code {
                return Err(Fault::MEMORY);
            }
            Ok(Some(refusal.code))
        }
    }
}

/// The number of the lowest limit that the body of a method breaks, if it has one that breaks any.
fn body_number(
    alloc: Global,
    ranks: &Ranks<'_>,
    body: Option<&Code<'_>>,
) -> Result<Option<u16>, Fault>
    requires ready { AllByRecursion (BodyIsReady ranks.now) (option_to_list (option_map (λ c. view.code c.now) body)) }
    requires few { length ranks.now.types ≤ 65535 }
    ensures ok { IfOk result (IsLowestBroken (NameRanks ranks.now) (option_to_list (option_map (λ c. view.code c.now) body.entry))) }
    ensures memory { IsOkUnless result memory }
{
    match body {
        Some(code) => code_number(alloc, ranks, code),
        None => Ok(None),
    }
}

/// The lower of two numbers, where there are any.
fn lower_of(one: Option<u16>, other: Option<u16>) -> Option<u16>
    ensures { result ≡ lower one other }
{
    match one {
        None => other,
        Some(m) => match other {
            None => Some(m),
            Some(n) => Some(m.min(n)),
        },
    }
}

/// The number of the lowest limit that a body of methods breaks.
fn methods_number(
    alloc: Global,
    ranks: &Ranks<'_>,
    methods: &[Method<'_>],
) -> Result<Option<u16>, Fault>
    requires ready { AllByRecursion (BodyIsReady ranks.now) (codes_in (map view.method methods.now)) }
    requires few { length ranks.now.types ≤ 65535 }
    ensures ok { IfOk result (IsLowestBroken (NameRanks ranks.now) (codes_in (map view.method methods.now))) }
    ensures memory { IsOkUnless result memory }
{
    let mut least = None;
    for method in methods {
        let number = body_number(alloc, ranks, method.code)?;
        least = lower_of(least, number);
    }
    Ok(least)
}

/// The number of the lowest limit that a body of a class breaks.
fn class_number(alloc: Global, ranks: &Ranks<'_>, class: &Class<'_>) -> Result<Option<u16>, Fault>
    requires ready { AllByRecursion (BodyIsReady ranks.now) (codes_of (view.class class.now)) }
    requires few { length ranks.now.types ≤ 65535 }
    ensures ok { IfOk result (IsLowestBroken (NameRanks ranks.now) (codes_of (view.class class.now))) }
    ensures memory { IsOkUnless result memory }
{
    let directs = methods_number(alloc, ranks, class.directs)?;
    let virtuals = methods_number(alloc, ranks, class.virtuals)?;
    Ok(lower_of(directs, virtuals))
}

/// The lowest limit, if a body of this class, after those before, exceeds one of this number.
fn earlier_of(lowest: Option<Fault>, number: Option<u16>, class: usize) -> Option<Fault>
    ensures { result ≡ earlier lowest number class }
{
    match number {
        None => lowest,
        Some(code) => match lowest {
            Some(before) if before.code <= code => Some(before),
            _ => Some(Fault::at(code, class as u64)),
        },
    }
}

/// The lowest limit that a body of these classes breaks, at the number of the first class of which one does.
pub(crate) fn lowest_of(
    alloc: Global,
    ranks: &Ranks<'_>,
    classes: &[Class<'_>],
) -> Result<Option<Fault>, Fault>
    requires ready { (i : ℕ) (c : _) → slice_get (map view.class classes.now) i ≡ Some c → AllByRecursion (BodyIsReady ranks.now) (codes_of c) }
    requires few { length ranks.now.types ≤ 65535 }
    ensures ok { IfOk result (IsLowestOf (NameRanks ranks.now) (map view.class classes.now)) }
    ensures memory { IsOkUnless result memory }
{
    let mut lowest = None;
    for (i, class) in classes.iter().enumerate() {
        let number = class_number(alloc, ranks, class)?;
        lowest = earlier_of(lowest, number, i);
    }
    Ok(lowest)
}
