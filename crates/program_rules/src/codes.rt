//! The rules of bodies, over all bodies of a class.

ghost use Rattle.std.specs.Prelude.{◌↔◌, map, IfOk, IsTrue, IfSome};
ghost use Rattle.std.specs.List.{AllByRecursion};
ghost use Rattle.program_types.specs.View.{method, class};
ghost use Rattle.program_rules.specs.Rules.{CodesHold};
ghost use Rattle.code_rules.specs.CodeRules.{PayloadsHold};
ghost use Rattle.code_rules.specs.inner.CodeRules.{KeepsRule};

use code_rules::{CodeRule, code_holds, payloads_hold_in};
use program_types::{Class, Method};
use std::alloc::{AllocError, Global};

/// Whether the method's body keeps the rule, if it has one.
fn method_holds(rule: CodeRule, one: &Method<'_>) -> bool
    ensures { IsTrue result ↔ IfSome (method one.now).code (KeepsRule rule) }
{
    match one.code {
        Some(body) => code_holds(rule, body),
        None => true,
    }
}

/// Whether the bodies of all of the methods keep the rule.
fn methods_hold(rule: CodeRule, all: &[Method<'_>]) -> bool
    ensures { IsTrue result ↔ AllByRecursion (λ m. IfSome m.code (KeepsRule rule)) (map method all.now) }
{
    for each in all {
        if !method_holds(rule, each) {
            return false;
        }
    }
    true
}

/// Whether all bodies in the class keep the rule.
pub(crate) fn codes_hold(rule: CodeRule, one: &Class<'_>) -> bool
    ensures { IsTrue result ↔ CodesHold (KeepsRule rule) (class one.now) }
{
    if !methods_hold(rule, one.directs) {
        return false;
    }
    methods_hold(rule, one.virtuals)
}

/// Whether the payloads in the method's body are used as they have to be, if it has one.
fn method_uses_hold(alloc: Global, one: &Method<'_>) -> Result<bool, AllocError>
    ensures { IfOk result (λ hold. IsTrue hold ↔ IfSome (method one.now).code PayloadsHold) }
{
    match one.code {
        Some(body) => payloads_hold_in(alloc, body),
        None => Ok(true),
    }
}

/// Whether the payloads in the bodies of all of the methods are used as they have to be.
fn methods_uses_hold(alloc: Global, all: &[Method<'_>]) -> Result<bool, AllocError>
    ensures { IfOk result (λ hold. IsTrue hold ↔ AllByRecursion (λ m. IfSome m.code PayloadsHold) (map method all.now)) }
{
    for each in all {
        if !method_uses_hold(alloc, each)? {
            return Ok(false);
        }
    }
    Ok(true)
}

/// Whether the payloads in all bodies of the class are used as required: the result of `codes_hold` for `PayloadUse`.
pub(crate) fn payload_uses_hold(alloc: Global, one: &Class<'_>) -> Result<bool, AllocError>
    ensures { IfOk result (λ hold. IsTrue hold ↔ CodesHold PayloadsHold (class one.now)) }
{
    if !methods_uses_hold(alloc, one.directs)? {
        return Ok(false);
    }
    methods_uses_hold(alloc, one.virtuals)
}
