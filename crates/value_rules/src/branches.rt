//! The branches of conditional expressions.
ghost use Rattle.std.specs.Prelude.{◌≡◌};
ghost use Rattle.value_rules.specs.Branches as spec;
ghost use Rattle.seen_names.specs.Contexts.{context};
ghost use Rattle.seen_names.specs.Entities.{type_in};

use seen_names::{Entity, Place, Tables, made, sure_in, type_in};
use seen_types::ExprType;

/// What is known of the conditions and values so far.
#[derive(Clone, Copy, Debug)]
pub struct Branches {
    /// The type of those so far: any integer gives way to a type.
    pub result: Option<ExprType>,
    /// One of them has no type, or another.
    pub is_bad: bool,
    pub is_sure: bool,
    /// Conditions and values in turn.
    pub is_condition: bool,
}

/// Nothing is read yet.
pub fn no_branches() -> Branches
    ensures { result ≡ spec.no_branches }
{
    Branches {
        result: None,
        is_bad: false,
        is_sure: true,
        is_condition: true,
    }
}

/// Whether the next part is a condition.
pub fn is_test(branches: Branches, is_last: bool) -> bool
    ensures { result ≡ spec.is_test branches is_last }
{
    branches.is_condition && !is_last
}

/// Behind a condition.
pub fn with_condition(branches: Branches, entity: Entity) -> Branches
    ensures { result ≡ spec.with_condition branches entity }
{
    Branches {
        result: branches.result,
        is_bad: branches.is_bad,
        is_sure: branches.is_sure && sure_in(entity),
        is_condition: false,
    }
}

fn bad(branches: Branches) -> Branches
    ensures { result ≡ spec.bad branches }
{
    Branches {
        result: branches.result,
        is_bad: true,
        is_sure: false,
        is_condition: true,
    }
}

/// What a conditional expression stands for, behind all its branches.
pub fn conditional(branches: Branches) -> Entity
    ensures { result ≡ spec.conditional branches }
{
    if branches.is_bad {
        Entity::Nothing
    } else {
        made(branches.is_sure, branches.result)
    }
}

/// Whether a value has the type of those before it.
pub fn fits_so_far(tables: &Tables, place: Place, before: Option<ExprType>, t: ExprType) -> bool
    ensures { result ≡ spec.fits_so_far (context tables.now place) before t }
{
    match before {
        None => true,
        Some(before) => tables.types.fits(place.home, t, before),
    }
}

fn joined(tables: &Tables, place: Place, before: Option<ExprType>, t: ExprType) -> Option<ExprType>
    ensures { result ≡ spec.joined (context tables.now place) before t }
{
    match before {
        None | Some(ExprType::AnyInteger) => Some(tables.types.root(place.home, t)),
        Some(_) => before,
    }
}

fn with_typed(
    tables: &Tables,
    place: Place,
    branches: Branches,
    is_sure: bool,
    t: ExprType,
) -> Branches
    ensures { result ≡ spec.with_typed (context tables.now place) branches is_sure t }
{
    if fits_so_far(tables, place, branches.result, t) {
        Branches {
            result: joined(tables, place, branches.result, t),
            is_bad: branches.is_bad,
            is_sure: branches.is_sure && is_sure,
            is_condition: true,
        }
    } else {
        bad(branches)
    }
}

fn with_value(tables: &Tables, place: Place, branches: Branches, entity: Entity) -> Branches
    ensures { result ≡ spec.with_value (context tables.now place) branches entity (type_in entity) }
{
    match type_in(entity) {
        None => bad(branches),
        Some(t) => with_typed(tables, place, branches, sure_in(entity), t),
    }
}

/// Behind a condition or a value.
pub fn with_branch(
    tables: &Tables,
    place: Place,
    branches: Branches,
    is_last: bool,
    entity: Entity,
) -> Branches
    ensures { result ≡ spec.with_branch (context tables.now place) branches is_last entity }
{
    if is_test(branches, is_last) {
        with_condition(branches, entity)
    } else {
        with_value(tables, place, branches, entity)
    }
}
