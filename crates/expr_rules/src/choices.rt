//! Choices of cases and of array aggregates, by what their values stand for.
ghost use Rattle.std.specs.Prelude.{◌≡◌};
ghost use Rattle.ada_forms.specs.Forms.{expr_of};
ghost use Rattle.expr_rules.specs.Choices as spec;
ghost use Rattle.name_findings.specs.Findings.{add_all};
ghost use Rattle.seen_names.specs.Contexts.{context};

use ada_forms::Property;
use ada_tree::Units;
use choice_covers::{Covering, between};
use expr_outlines::is_plain_name;
use name_findings::Findings;
use part_slots::Reading;
use seen_names::{Entity, Place, Tables, sure_in, type_in};
use seen_types::ExprType;
use spark_base::{ExprNo, Pos, TypeNo};
use spark_messages::Code;
use static_eval::Judgement;
use static_meanings::Range;
use value_rules::{refuse_silent, refuse_unstatic, static_value, take_bearer};

/// A name of words and points that denotes a type is a mark; else it is a value.
pub fn is_mark(entity: Entity) -> bool
    ensures { result ≡ spec.is_mark entity }
{
    match entity {
        Entity::Mark(_) => true,
        _ => false,
    }
}

fn does_not_fit(tables: &Tables, place: Place, of: Option<TypeNo>, entity: Entity) -> bool
    ensures { result ≡ spec.does_not_fit (context tables.now place) of entity }
{
    match of {
        None => false,
        Some(of) => tables
            .types
            .misfits(place.home, type_in(entity), Some(ExprType::Of(of))),
    }
}

/// What a choice among the values of this type breaks that is a value: Y04 of one that does not fit, and of others Y02 of one
/// that is not static. Where the type is not known, nothing.
pub fn refuse_chosen(
    tables: &Tables,
    place: Place,
    found: &mut Findings,
    of: Option<TypeNo>,
    at: Pos,
    entity: Entity,
    said: Judgement,
)
    ensures { found.new ≡ add_all found.old (spec.chosen_found (context tables.now place) of at entity said) }
{
    if does_not_fit(tables, place, of, entity) {
        refuse_silent(found, true, Code::Y04, at);
    } else if of.is_some() {
        refuse_unstatic(found, at, sure_in(entity), said);
    }
}

fn is_other_type(tables: &Tables, place: Place, of: Option<TypeNo>, entity: Entity) -> bool
    ensures { result ≡ spec.is_other_type (context tables.now place) of entity }
{
    match (of, entity) {
        (Some(of), Entity::Mark(Some(t))) => !tables.types.is_same(t, of),
        _ => false,
    }
}

/// Y04 of a choice that is the mark of another type.
pub fn refuse_marked(
    tables: &Tables,
    place: Place,
    found: &mut Findings,
    of: Option<TypeNo>,
    at: Pos,
    entity: Entity,
)
    ensures { found.new ≡ add_all found.old (spec.marked_found (context tables.now place) of at entity) }
{
    refuse_silent(
        found,
        is_other_type(tables, place, of, entity),
        Code::Y04,
        at,
    );
}

fn of_range(range: Option<Range>) -> Covering
    ensures { result ≡ spec.of_range range }
{
    match range {
        None => Covering::Unclear,
        Some(range) => Covering::From(range.low, range.high),
    }
}

/// What a choice covers that is a mark.
pub fn of_mark(tables: &Tables, place: Place, of: TypeNo, entity: Entity) -> Covering
    ensures { result ≡ spec.of_mark (context tables.now place) of entity }
{
    match entity {
        Entity::Mark(Some(t)) => {
            if tables.types.is_same(t, of) {
                of_range(tables.types.bounds(place.home, t))
            } else {
                Covering::Unclear
            }
        }
        _ => Covering::Unclear,
    }
}

/// The static value of a choice that fits.
pub fn fitting_value(
    tables: &Tables,
    place: Place,
    of: TypeNo,
    entity: Entity,
    said: Judgement,
) -> Option<i128>
    ensures { result ≡ spec.fitting_value (context tables.now place) of entity said }
{
    if does_not_fit(tables, place, Some(of), entity) {
        None
    } else {
        static_value(sure_in(entity), said)
    }
}

/// How the value of a choice is read.
pub fn choice_reading(units: &Units, value: ExprNo) -> Reading
    ensures { result ≡ spec.choice_reading (expr_of units.now.exprs value) }
{
    if is_plain_name(units, value) {
        Reading::AsName
    } else {
        Reading::Free
    }
}

fn take_choice(
    units: &Units,
    tables: &Tables,
    place: Place,
    found: &mut Findings,
    value: ExprNo,
    entity: Entity,
)
    ensures { found.new ≡ add_all found.old (spec.choice_taken (context tables.now place) (expr_of units.now.exprs value) entity) }
{
    if is_plain_name(units, value) {
        take_bearer(units, tables, place, found, Property::First, value, entity);
    }
}

fn is_mark_choice(units: &Units, value: ExprNo, entity: Entity) -> bool
    ensures { result ≡ spec.is_mark_choice (expr_of units.now.exprs value) entity }
{
    is_plain_name(units, value) && is_mark(entity)
}

fn as_choice(units: &Units, tables: &Tables, place: Place, value: ExprNo, entity: Entity) -> Entity
    ensures { result ≡ spec.as_choice (context tables.now place) (expr_of units.now.exprs value) entity }
{
    if is_plain_name(units, value) {
        tables.as_value(place, entity)
    } else {
        entity
    }
}

fn refuse_mark_or_value(
    units: &Units,
    tables: &Tables,
    place: Place,
    found: &mut Findings,
    of: Option<TypeNo>,
    value: ExprNo,
    at: Pos,
    entity: Entity,
    said: Judgement,
)
    ensures { found.new ≡ add_all found.old (spec.mark_or_value_found (context tables.now place) of (expr_of units.now.exprs value) at entity said) }
{
    if is_mark_choice(units, value, entity) {
        refuse_marked(tables, place, found, of, at, entity);
    } else {
        let entity = as_choice(units, tables, place, value, entity);
        refuse_chosen(tables, place, found, of, at, entity, said);
    }
}

/// What a choice breaks that is a name or a value, by what that stands for as `choice_reading` reads it. A name of words and
/// points that denotes a type is a mark.
#[tactic(auto, using(name_findings::proofs::Joined::add_append))]
pub fn refuse_value_choice(
    units: &Units,
    tables: &Tables,
    place: Place,
    found: &mut Findings,
    of: Option<TypeNo>,
    value: ExprNo,
    at: Pos,
    entity: Entity,
    said: Judgement,
)
    ensures { found.new ≡ add_all found.old (spec.value_choice_found (context tables.now place) of (expr_of units.now.exprs value) at entity said) }
{
    take_choice(units, tables, place, found, value, entity);
    refuse_mark_or_value(units, tables, place, found, of, value, at, entity, said);
}

/// What such a choice covers.
pub fn value_covering(
    units: &Units,
    tables: &Tables,
    place: Place,
    of: TypeNo,
    value: ExprNo,
    entity: Entity,
    said: Judgement,
) -> Covering
    ensures { result ≡ spec.value_covering (context tables.now place) of (expr_of units.now.exprs value) entity said }
{
    if is_mark_choice(units, value, entity) {
        of_mark(tables, place, of, entity)
    } else {
        let entity = as_choice(units, tables, place, value, entity);
        let value = fitting_value(tables, place, of, entity, said);
        between(value, value)
    }
}
