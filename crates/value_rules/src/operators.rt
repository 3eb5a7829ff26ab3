//! What operators make of their operands, and what they break.
ghost use Rattle.std.specs.Prelude.{◌≡◌};
ghost use Rattle.name_findings.specs.Findings.{add_all};
ghost use Rattle.seen_names.specs.Contexts.{context};
ghost use Rattle.seen_types.specs.Operators as types;
ghost use Rattle.value_rules.specs.Operators as spec;

use crate::statics::{refuse_binary_faults, refuse_unary_faults};
use crate::tellings::refuse_silent;
use ada_forms::{BinaryOperator, UnaryOperator};
use name_findings::Findings;
use seen_names::{Entity, Place, Tables, made, sure_in, type_in};
use seen_types::ExprType;
use spark_base::Pos;
use spark_messages::Code;
use static_eval::Judgement;

/// An operand: what it stands for, and what is said of its static value.
#[derive(Clone, Copy, Debug)]
pub struct Operand {
    pub entity: Entity,
    pub said: Judgement,
}

/// What `A op B` stands for.
pub fn binary(
    tables: &Tables,
    place: Place,
    operator: BinaryOperator,
    a: Entity,
    b: Entity,
) -> Entity
    ensures { result ≡ spec.binary (context tables.now place) operator a b }
{
    let of = tables
        .types
        .binary_of(place.home, operator, type_in(a), type_in(b));
    made(sure_in(a) && sure_in(b), of)
}

/// What an operator makes of one operand, of this type.
pub fn unary_entity(a: Entity, of: Option<ExprType>) -> Entity
    ensures { result ≡ spec.unary_entity a of }
{
    made(sure_in(a), of)
}

/// What `A in L .. H` stands for.
pub fn in_range(tables: &Tables, place: Place, a: Entity, low: Entity, high: Entity) -> Entity
    ensures { result ≡ spec.in_range (context tables.now place) a low high }
{
    let of = tables
        .types
        .in_range_of(place.home, type_in(a), type_in(low), type_in(high));
    made(sure_in(a) && sure_in(low) && sure_in(high), of)
}

/// What a value in parentheses stands for: it is no name.
pub fn meant_within(a: Entity) -> Entity
    ensures { result ≡ spec.meant_within a }
{
    made(sure_in(a), type_in(a))
}

fn do_not_go(a: Option<ExprType>, b: Option<ExprType>, made: Option<ExprType>) -> bool
    ensures { result ≡ types.do_not_go a b made }
{
    match (a, b, made) {
        (Some(_), Some(_), None) => true,
        _ => false,
    }
}

fn does_not_go(a: Option<ExprType>, made: Option<ExprType>) -> bool
    ensures { result ≡ spec.does_not_go a made }
{
    match (a, made) {
        (Some(_), None) => true,
        _ => false,
    }
}

fn three_do_not_go(
    a: Option<ExprType>,
    low: Option<ExprType>,
    high: Option<ExprType>,
    made: Option<ExprType>,
) -> bool
    ensures { result ≡ spec.three_do_not_go a low high made }
{
    match (a, low, high, made) {
        (Some(_), Some(_), Some(_), None) => true,
        _ => false,
    }
}

/// What an operator at a place breaks by its operands: Y04 at the start of the whole, of two that do not go together; at the
/// operator Y01 of a result that is too large, and Y03 of a static zero behind a division.
#[tactic(auto, using(name_findings::proofs::Joined::add_append))]
pub fn refuse_binary(
    tables: &Tables,
    place: Place,
    found: &mut Findings,
    operator: BinaryOperator,
    at: Pos,
    start: Pos,
    a: Operand,
    b: Operand,
)
    ensures { found.new ≡ add_all found.old (spec.binary_found (context tables.now place) operator at start a.entity b.entity a.said b.said) }
{
    let of = tables
        .types
        .binary_of(place.home, operator, type_in(a.entity), type_in(b.entity));
    let are_apart = do_not_go(type_in(a.entity), type_in(b.entity), of);
    refuse_silent(found, are_apart, Code::Y04, start);
    let is_sure = sure_in(a.entity) && sure_in(b.entity) && of.is_some();
    refuse_binary_faults(
        found,
        operator,
        at,
        sure_in(b.entity),
        is_sure,
        a.said,
        b.said,
    );
}

/// What an operator at a place breaks by the operand behind it: Y04 of one that it does not take, Y01 of a result that is too
/// large.
#[tactic(auto, using(name_findings::proofs::Joined::add_append))]
pub fn refuse_unary(
    tables: &Tables,
    place: Place,
    found: &mut Findings,
    operator: UnaryOperator,
    at: Pos,
    a: Operand,
)
    ensures { found.new ≡ add_all found.old (spec.unary_found (context tables.now place) operator at a.entity a.said) }
{
    let of = tables
        .types
        .unary_of(place.home, operator, type_in(a.entity));
    let is_apart = does_not_go(type_in(a.entity), of);
    refuse_silent(found, is_apart, Code::Y04, at);
    let is_sure = sure_in(a.entity) && of.is_some();
    refuse_unary_faults(found, operator, at, is_sure, a.said);
}

/// Y04 of a value and two bounds that do not go together.
pub fn refuse_in_range(
    tables: &Tables,
    place: Place,
    found: &mut Findings,
    at: Pos,
    a: Option<ExprType>,
    low: Option<ExprType>,
    high: Option<ExprType>,
)
    ensures { found.new ≡ add_all found.old (spec.in_range_found (context tables.now place) at a low high) }
{
    let of = tables.types.in_range_of(place.home, a, low, high);
    let are_apart = three_do_not_go(a, low, high, of);
    refuse_silent(found, are_apart, Code::Y04, at);
}
