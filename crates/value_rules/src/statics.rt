//! Static values of names, and the rules of static values.
ghost use Rattle.std.specs.Prelude.{◌≡◌, map, IfOk, OnOk};
ghost use Rattle.value_rules.specs.Statics as spec;
ghost use Rattle.name_findings.specs.Findings.{add_all};
ghost use Rattle.seen_names.specs.Contexts.{context};
ghost use Rattle.static_meanings.specs.Meanings as meanings;

use crate::tellings::refuse_silent;
use ada_forms::{BinaryOperator, Property, UnaryOperator};
use name_findings::Findings;
use seen_names::{Entity, Place, Tables, Value};
use seen_types::ExprType;
use spark_base::{Items, NoMemory, Pos, TypeNo};
use spark_messages::Code;
use static_eval::{Failure, Fault, Judgement, applied, attribute, binary, identifier, unary};
use static_meanings::{Meaning, Range, Sense, mark, object, unknown};
use std::alloc::Global;

fn range_named(tables: &Tables, place: Place, t: Option<TypeNo>) -> Option<Range>
    ensures { result ≡ spec.range_named (context tables.now place) t }
{
    match t {
        None => None,
        Some(t) => tables.types.range_of(place.home, t),
    }
}

fn range_typed(tables: &Tables, place: Place, t: Option<ExprType>) -> Option<Range>
    ensures { result ≡ spec.range_typed (context tables.now place) t }
{
    match t {
        Some(ExprType::Of(t)) => tables.types.range_of(place.home, t),
        _ => None,
    }
}

fn known_value(value: Value) -> Option<i128>
    ensures { result ≡ spec.known_value value }
{
    match value {
        Value::Known(n) => Some(n),
        _ => None,
    }
}

fn scale(factor: i128) -> Meaning
    ensures { result ≡ meanings.scale factor }
{
    Meaning {
        sense: Sense::Scale(factor),
        range: None,
        is_static: false,
        value: None,
    }
}

fn value_meaning(tables: &Tables, place: Place, entity: Entity) -> Meaning
    ensures { result ≡ spec.value_meaning (context tables.now place) entity }
{
    match entity {
        Entity::Valuable(v) => object(range_typed(tables, place, v.of), known_value(v.value)),
        _ => unknown(),
    }
}

/// What a name means, as far as static values go.
pub fn meaning_of(tables: &Tables, place: Place, entity: Entity) -> Meaning
    ensures { result ≡ spec.meaning_of (context tables.now place) entity }
{
    match entity {
        Entity::Mark(t) => mark(range_named(tables, place, t)),
        Entity::Product(_, factor) => scale(factor),
        _ => value_meaning(tables, place, tables.as_value(place, entity)),
    }
}

/// What is said of a mark of this type.
pub fn mark_said(tables: &Tables, place: Place, at: Pos, t: Option<ExprType>) -> Judgement
    ensures { result ≡ spec.mark_said (context tables.now place) at t }
{
    identifier(at, mark(range_typed(tables, place, t)))
}

/// The value of what is known to be static.
pub fn static_value(is_sure: bool, said: Judgement) -> Option<i128>
    ensures { result ≡ spec.static_value is_sure said }
{
    if is_sure && said.is_static {
        said.value
    } else {
        None
    }
}

fn lacks_value(said: Judgement) -> bool
    ensures { result ≡ spec.lacks_value said }
{
    if said.is_static {
        said.value.is_none() && said.fault.is_none()
    } else {
        true
    }
}

/// Y02 of what is not static by its form, or has no value, but for a part that breaks a rule of its own.
pub fn refuse_unstatic(found: &mut Findings, at: Pos, is_sure: bool, said: Judgement)
    ensures { found.new ≡ add_all found.old (spec.unstatic_found at is_sure said) }
{
    refuse_silent(found, is_sure && lacks_value(said), Code::Y02, at);
}

fn quiet(said: Judgement) -> Judgement
    ensures { result ≡ spec.quiet said }
{
    Judgement {
        fault: None,
        ..said
    }
}

fn refuse_fault(found: &mut Findings, is_divisor_sure: bool, is_sure: bool, fault: Option<Fault>)
    ensures { found.new ≡ add_all found.old (spec.faults is_divisor_sure is_sure fault) }
{
    if let Some(fault) = fault {
        match fault.failure {
            Failure::Outside => refuse_silent(found, is_sure, Code::Y01, fault.place),
            Failure::Divided => refuse_silent(found, is_divisor_sure, Code::Y03, fault.place),
        }
    }
}

/// Y01 of a number that 128 bits with a sign do not hold.
pub fn refuse_number(found: &mut Findings, at: Pos, n: u128)
    ensures { found.new ≡ add_all found.old (spec.number_faults at n) }
{
    if n > 0x7fff_ffff_ffff_ffff_ffff_ffff_ffff_ffff {
        refuse_silent(found, true, Code::Y01, at);
    }
}

/// Y01 and Y03 that an operator breaks by itself. A static zero on the right is refused whatever stands on the left.
pub(crate) fn refuse_binary_faults(
    found: &mut Findings,
    operator: BinaryOperator,
    at: Pos,
    is_divisor_sure: bool,
    is_sure: bool,
    a: Judgement,
    b: Judgement,
)
    ensures { found.new ≡ add_all found.old (spec.binary_faults operator at is_divisor_sure is_sure a b) }
{
    let said = binary(operator, at, at, quiet(a), quiet(b));
    refuse_fault(found, is_divisor_sure, is_sure, said.fault);
}

pub(crate) fn refuse_unary_faults(
    found: &mut Findings,
    operator: UnaryOperator,
    at: Pos,
    is_sure: bool,
    a: Judgement,
)
    ensures { found.new ≡ add_all found.old (spec.unary_faults operator at is_sure a) }
{
    let said = unary(operator, at, quiet(a));
    refuse_fault(found, is_sure, is_sure, said.fault);
}

fn quieted(alloc: Global, parts: &[Judgement]) -> Result<Items<Judgement>, NoMemory>
    ensures { IfOk result (λ all. all ≡ map spec.quiet parts.now) }
{
    let mut all = Items::new(alloc);
    for said in parts {
        all.push(quiet(*said))?;
    }
    Ok(all)
}

/// Y01 that an application breaks by itself.
pub(crate) fn refuse_applied_faults(
    alloc: Global,
    found: &mut Findings,
    at: Pos,
    is_sure: bool,
    parts: &[Judgement],
) -> Result<(), NoMemory>
    ensures { OnOk result (found.new ≡ add_all found.old (spec.applied_faults at is_sure meanings.unknown parts.now)) }
{
    let parts = quieted(alloc, parts)?;
    let said = applied(at, unknown(), parts.as_slice());
    refuse_fault(found, is_sure, is_sure, said.fault);
    Ok(())
}

/// Y01 of an attribute.
pub fn refuse_attribute_faults(
    alloc: Global,
    found: &mut Findings,
    at: Pos,
    is_sure: bool,
    what: Property,
    parts: &[Judgement],
) -> Result<(), NoMemory>
    ensures { OnOk result (found.new ≡ add_all found.old (spec.attribute_faults at is_sure what parts.now)) }
{
    let parts = quieted(alloc, parts)?;
    let said = attribute(at, what, parts.as_slice());
    refuse_fault(found, is_sure, is_sure, said.fault);
    Ok(())
}
