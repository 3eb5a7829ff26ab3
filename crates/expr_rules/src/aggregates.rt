//! What aggregates break: by the type that is expected, where each of their values begins, and what their choices cover.
ghost use Rattle.std.specs.Prelude.{◌≡◌, pos, int_lt, IfOk, OnOk};
ghost use Rattle.std.specs.Option.{option_copied};
ghost use Rattle.expr_rules.specs.Aggregates as spec;
ghost use Rattle.name_findings.specs.Findings as findings;
ghost use Rattle.name_findings.specs.Findings.{add_all};
ghost use Rattle.seen_names.specs.Contexts.{context};
ghost use Rattle.spark_messages.specs.declared.messages.Code.TheVariants.{Y04};

use choice_covers::{Bounds, Placed, refuse_coverage, refuse_outside};
use name_findings::Findings;
use part_slots::Reading;
use seen_names::{Place, Tables};
use seen_types::{ExprType, Shape};
use spark_base::{NoMemory, Pos};
use spark_messages::Code;
use static_meanings::Range;
use std::alloc::Global;
use value_rules::refuse_silent;

/// What is expected of an aggregate that is read so.
pub fn wanted_shape(tables: &Tables, place: Place, reading: Reading) -> Option<&Shape>
    ensures { option_copied result ≡ spec.wanted_shape (context tables.now place) reading }
{
    match reading {
        Reading::Wanted(ExprType::Of(t)) => tables.types.shape(place.home, t),
        _ => None,
    }
}

fn is_unexpected(reading: Reading, shape: Option<&Shape>) -> bool
    ensures { result ≡ spec.is_unexpected reading (option_copied shape.entry) }
{
    match (reading, shape) {
        (Reading::Hidden, _) => false,
        (_, Some(Shape::Fields(_) | Shape::Array { .. })) => false,
        _ => true,
    }
}

/// Y04 of an aggregate where nothing with components is expected. Where it is not known what is, nothing is refused.
pub fn refuse_unexpected(found: &mut Findings, reading: Reading, shape: Option<&Shape>, at: Pos)
    ensures { found.new ≡ add_all found.old (findings.refuse_silent (spec.is_unexpected reading (option_copied shape.entry)) Y04 at) }
{
    refuse_silent(found, is_unexpected(reading, shape), Code::Y04, at);
}

/// Whether a range has no value at this place, from 0.
fn is_behind(range: Range, place: usize) -> bool
    ensures { result ≡ int_lt (spec.last_in range) (pos place) }
{
    match range.high.checked_sub(range.low) {
        None => range.high < range.low,
        Some(last) => last < place as i128,
    }
}

/// Y09 of each element that is one too many for a range.
#[tactic(auto, using(name_findings::proofs::Joined::add_append))]
fn refuse_surplus(found: &mut Findings, range: Range, starts: &[Pos])
    ensures { found.new ≡ add_all found.old (spec.surplus_found range 0 starts.now) }
{
    for (place, at) in starts.iter().enumerate() {
        refuse_silent(found, is_behind(range, place), Code::Y09, *at);
    }
}

fn own_starts(has_others: bool, starts: &[Pos]) -> &[Pos]
    ensures { result.now ≡ spec.own_starts has_others starts.now }
{
    if has_others {
        &starts[..starts.len().saturating_sub(1)]
    } else {
        starts
    }
}

#[tactic(auto, using(name_findings::proofs::Joined::add_append))]
fn refuse_elements(found: &mut Findings, at: Pos, has_others: bool, starts: &[Pos], range: Range)
    ensures { found.new ≡ add_all found.old (spec.elements_found at has_others starts.now (Some range)) }
{
    refuse_surplus(found, range, own_starts(has_others, starts));
    let are_too_few = !has_others && !is_behind(range, starts.len());
    refuse_silent(found, are_too_few, Code::Y09, at);
}

/// Y09 of an aggregate without names, the values of which begin at these places, the last of them that of `others` or not: of each
/// element too many, at it, and of components and elements without a value, at the parenthesis.
pub fn refuse_values(
    tables: &Tables,
    place: Place,
    found: &mut Findings,
    at: Pos,
    has_others: bool,
    starts: &[Pos],
    shape: Option<&Shape>,
)
    ensures { found.new ≡ add_all found.old (spec.positional_found (context tables.now place) at has_others starts.now (option_copied shape.entry)) }
{
    match shape {
        Some(Shape::Fields(fields)) => {
            let are_missing = !has_others && starts.len() < fields.len();
            refuse_silent(found, are_missing, Code::Y09, at);
        }
        Some(Shape::Array { index, .. }) => {
            if let Some(range) = tables.types.bounds(place.home, *index) {
                refuse_elements(found, at, has_others, starts, range);
            }
        }
        _ => (),
    }
}

fn to_cover(range: Range) -> Bounds
    ensures { result ≡ spec.to_cover range }
{
    Bounds {
        low: range.low,
        high: range.high,
    }
}

/// Y09 of the choices of an array aggregate whose index has these values: of each that covers what one before it covers, stands
/// behind `others` or has values outside, at it, and of values that none covers, at the parenthesis.
#[tactic(auto, using(name_findings::proofs::Joined::add_append))]
pub fn refuse_choices(
    alloc: Global,
    found: &mut Findings,
    at: Pos,
    choices: &[Placed],
    range: Option<Range>,
) -> Result<(), NoMemory>
    ensures { OnOk result (found.new ≡ add_all found.old (spec.choices_found at choices.now range)) }
{
    if let Some(range) = range {
        let bounds = to_cover(range);
        refuse_coverage(alloc, found, Code::Y09, at, bounds, choices)?;
        refuse_outside(found, bounds, choices);
    }
    Ok(())
}
