//! Whether a program keeps its rules.

ghost use Rattle.std.specs.Prelude.{◌≡◌, ◌≢◌, ◌↔◌, length, map, IsTrue, IfOk, OnOk, IfErr};
ghost use Rattle.std.specs.List.{AllByRecursion};
ghost use Rattle.dex_base.specs.Fault.{memory};
ghost use Rattle.code_rules.specs.CodeRules.{OperandsHold, PayloadsHold, TargetsHold, TriesHold};
ghost use Rattle.program_types.specs.Content as content;
ghost use Rattle.program_types.specs.Formed.{RegistersHold};
ghost use Rattle.program_types.specs.View.{class, desc, program};
ghost use Rattle.program_rules.specs.inner.Numbers.{AreNumbers, types};
ghost use Rattle.program_rules.specs.Ranges.{ClassInRange};
ghost use Rattle.program_rules.specs.Rules.{ClassBreaks, ClassHolds, CodesBreak, CodesHold, OrderHolds, RuleBreaks};
ghost use Rattle.program_rules.specs.inner.Valid.{InsnsAreNamed};
ghost use Rattle.program_rules.specs.WellFormed.{WellFormed};

use crate::codes::{codes_hold, payload_uses_hold};
use crate::laws::class_is_in_range;
use crate::members::{members_rise, names_are_valid};
use crate::numbers::{TypePlaces, numbers_of, order_holds_in};
use crate::order::order_holds;
use crate::values::values_fit;
use code_rules::CodeRule;
use dex_base::{Fault, Seed, fault};
use program_types::{Class, Desc, Program};
use std::alloc::{AllocError, Global};

/// Whether the code of class `place` keeps all rules, if it is known whether its payloads are used as they have to be.
fn check_codes(place: u64, one: &Class<'_>, uses_hold: bool) -> Result<(), Fault>
    requires uses { IsTrue uses_hold ↔ CodesHold PayloadsHold (class one.now) }
    ensures operands { OnOk result (CodesHold OperandsHold (class one.now)) }
    ensures targets { OnOk result (CodesHold TargetsHold (class one.now)) }
    ensures payloads { OnOk result (CodesHold PayloadsHold (class one.now)) }
    ensures tries { OnOk result (CodesHold TriesHold (class one.now)) }
    ensures registers { OnOk result (CodesHold RegistersHold (class one.now)) }
    ensures err { IfErr result (CodesBreak place (class one.now)) }
{
    if !codes_hold(CodeRule::Operand, one) {
        return Err(Fault::at(fault::PROGRAM_OPERAND, place));
    }
    if !codes_hold(CodeRule::Target, one) {
        return Err(Fault::at(fault::PROGRAM_TARGET, place));
    }
    if !uses_hold {
        return Err(Fault::at(fault::PROGRAM_PAYLOAD_USE, place));
    }
    if !codes_hold(CodeRule::Try, one) {
        return Err(Fault::at(fault::PROGRAM_TRY, place));
    }
    if !codes_hold(CodeRule::Register, one) {
        return Err(Fault::at(fault::PROGRAM_REGISTER, place));
    }
    Ok(())
}

/// Whether class `i` of a program keeps all rules, if it is known whether it is in order and its payloads are used as they have to
/// be, and may be known that a file can have the names in its instructions; then its numbers are in range.
fn check_class(
    i: usize,
    one: &Class<'_>,
    named: bool,
    is_in_order: bool,
    uses_hold: bool,
) -> Result<(), Fault>
    requires named { IsTrue named → CodesHold InsnsAreNamed (class one.now) }
    requires uses { IsTrue uses_hold ↔ CodesHold PayloadsHold (class one.now) }
    ensures ok { (p : content.Program) → IsTrue is_in_order ↔ OrderHolds p i (class one.now) → OnOk result (ClassHolds p i (class one.now)) }
    ensures ranges { OnOk result (ClassInRange (class one.now)) }
    ensures err { (p : content.Program) → IsTrue is_in_order ↔ OrderHolds p i (class one.now) → IfErr result (ClassBreaks p i (class one.now)) }
{
    let place = i as u64;
    if !names_are_valid(one, named) {
        return Err(Fault::at(fault::PROGRAM_NAME, place));
    }
    if !members_rise(one) {
        return Err(Fault::at(fault::PROGRAM_MEMBER_ORDER, place));
    }
    if !is_in_order {
        return Err(Fault::at(fault::PROGRAM_CLASS_ORDER, place));
    }
    if !values_fit(one) {
        return Err(Fault::at(fault::PROGRAM_VALUES, place));
    }
    check_codes(place, one, uses_hold)?;
    class_is_in_range(one);
    Ok(())
}

/// Checks that a program is well formed, as `write` requires: it keeps the rules that every file's program keeps, and its numbers
/// and units are in the ranges of their types, as those of every program in memory are. The fault is the first rule that the
/// first class that violates one violates; its place is the class's number, from 0.
///
/// 110 a name that no file can have; 111 members that do not rise; 112 a class that is defined twice, or has itself or a later one as
/// superclass or interface, or an interface twice; 113 more values than static fields, or one deeper than 64; 114 an instruction
/// whose operands its format does not have, 115 a target that is no instruction, 116 a payload that is not used as required, 117 a
/// try, 118 a register that the code does not have.
///
/// Needs no memory. So each class's type is searched among all classes, and the user of a switch's payload among all instructions of
/// its code.
///
/// ```
/// use dex_program::{Class, Desc, Program, Str, well_formed};
///
/// let ty = Desc { text: Str { units: &[0x4c, 0x41, 0x3b] } }; // LA;
/// let class = Class {
///     ty,
///     flags: 1,
///     superclass: None,
///     interfaces: &[],
///     source: None,
///     statics: &[],
///     values: &[],
///     instances: &[],
///     directs: &[],
///     virtuals: &[],
/// };
/// assert!(rt; well_formed(&Program { classes: &[class] }).is_ok());
/// assert!(rt; well_formed(&Program { classes: &[class, class] }).is_err()); // 112 ClassOrder at 1
/// ```
pub fn well_formed(all: &Program<'_>) -> Result<(), Fault>
    ensures formed { OnOk result (WellFormed (program all.now)) }
    ensures err { IfErr result (RuleBreaks (program all.now)) }
{
    for i in 0..all.classes.len() {
        let one = &all.classes[i];
        let is_in_order = order_holds(all.classes, i, one);
        let uses_hold = codes_hold(CodeRule::PayloadUse, one);
        check_class(i, one, false, is_in_order, uses_hold)?;
    }
    Ok(())
}

/// The types that classes define.
fn types_of<'a>(alloc: Global, classes: &[Class<'a>]) -> Result<Vec<Desc<'a>>, AllocError>
    ensures ok { IfOk result (λ list. map desc list.items ≡ types (map class classes.now)) }
{
    let mut list = Vec::with_capacity(alloc, classes.len())?;
    for one in classes {
        list.push(one.ty)?;
    }
    Ok(list)
}

/// Whether all classes keep all rules, if it may be known that a file can have the names in their instructions.
fn check_classes(
    alloc: Global,
    numbers: &TypePlaces<'_>,
    classes: &[Class<'_>],
    named: bool,
) -> Result<(), Fault>
    requires named { IsTrue named → AllByRecursion (CodesHold InsnsAreNamed) (map class classes.now) }
    requires numbers { AreNumbers (types (map class classes.now)) (length (map class classes.now)) numbers.now }
    ensures formed { OnOk result (WellFormed (map class classes.now)) }
    ensures err { IfErr result (λ e. e ≢ memory → RuleBreaks (map class classes.now) e) }
{
    for i in 0..classes.len() {
        let one = &classes[i];
        let is_in_order = order_holds_in(alloc, numbers, i, one)?;
        let uses_hold = payload_uses_hold(alloc, one)?;
        check_class(i, one, named, is_in_order, uses_hold)?;
    }
    Ok(())
}

/// Checks that a program is well formed, with the result of `well_formed`. Types are looked up by hash and the users of payloads are
/// noted in one walk, so that n classes or n switches need time that grows with n; out of memory is a refusal (255).
///
/// ```
/// use dex_program::{Program, well_formed_in};
///
/// assert!(rt; well_formed_in(alloc, &Program { classes: &[] }).is_ok());
/// ```
pub fn well_formed_in(alloc: Global, all: &Program<'_>) -> Result<(), Fault>
    ensures formed { OnOk result (WellFormed (program all.now)) }
    ensures err { IfErr result (λ e. e ≢ memory → RuleBreaks (program all.now) e) }
{
    well_formed_named_seeded(alloc, Seed::fixed(), all, false)
}

/// Checks that a program is well formed, with the result of `well_formed_in`. If a file is known to have all names that instructions
/// mention, these are not checked again. Hashes begin with the seed.
///
/// ```
/// well_formed_named_seeded(alloc, seed, &program, named)?;
/// ```
pub fn well_formed_named_seeded(
    alloc: Global,
    seed: Seed,
    all: &Program<'_>,
    named: bool,
) -> Result<(), Fault>
    requires { IsTrue named → AllByRecursion (CodesHold InsnsAreNamed) (program all.now) }
    ensures formed { OnOk result (WellFormed (program all.now)) }
    ensures err { IfErr result (λ e. e ≢ memory → RuleBreaks (program all.now) e) }
{
    let list = types_of(alloc, all.classes)?;
    let numbers = numbers_of(alloc, seed, list.as_slice())?;
    check_classes(alloc, &numbers, all.classes, named)
}
