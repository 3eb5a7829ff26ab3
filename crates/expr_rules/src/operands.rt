//! How operands and branches are read, and what aggregates stand for.
ghost use Rattle.std.specs.Prelude.{◌≡◌};
ghost use Rattle.ada_forms.specs.Forms.{expr_of};
ghost use Rattle.expr_outlines.specs.Outlines as outlines;
ghost use Rattle.expr_rules.specs.Operands as spec;
ghost use Rattle.seen_names.specs.Contexts.{context};

use ada_forms::BinaryOperator;
use ada_tree::{RelationalOperator, Units};
use expr_outlines::is_aggregate;
use part_slots::{Reading, Slot};
use seen_names::{Entity, Place, Tables, made};
use seen_types::ExprType;
use spark_base::ExprNo;
use value_rules::{Branches, is_test};

/// An aggregate has the type that is expected, if that has components.
pub fn aggregate(tables: &Tables, place: Place, reading: Reading) -> Entity
    ensures { result ≡ spec.aggregate (context tables.now place) reading }
{
    match reading {
        Reading::Wanted(ExprType::Of(t)) => {
            if tables.types.is_composite(place.home, t) {
                made(true, Some(ExprType::Of(t)))
            } else {
                Entity::Nothing
            }
        }
        _ => Entity::Nothing,
    }
}

fn so_far(reading: Reading, before: Option<ExprType>) -> Reading
    ensures { result ≡ spec.so_far reading before }
{
    match (reading, before) {
        (_, None) => reading,
        (Reading::Free, Some(t)) => Reading::Wanted(t),
        _ => reading,
    }
}

/// How the next condition or value of a conditional expression is read, and what is asked of it.
pub fn branch_slot(reading: Reading, branches: Branches, is_last: bool) -> Slot
    ensures { result ≡ spec.branch_slot reading branches is_last }
{
    if is_test(branches, is_last) {
        Slot::Condition
    } else {
        Slot::Branch(so_far(reading, branches.result), branches.result)
    }
}

fn is_equality(operator: BinaryOperator) -> bool
    ensures { result ≡ outlines.is_equality operator }
{
    match operator {
        BinaryOperator::Relation(RelationalOperator::Equal | RelationalOperator::NotEqual) => true,
        _ => false,
    }
}

/// Whether the right operand is read first: of an equality the left one of which is an aggregate, and the right one is not.
pub fn is_turned(units: &Units, operator: BinaryOperator, left: ExprNo, right: ExprNo) -> bool
    ensures { result ≡ spec.is_turned operator (expr_of units.now.exprs left) (expr_of units.now.exprs right) }
{
    is_equality(operator) && is_aggregate(units, left) && !is_aggregate(units, right)
}

/// How the right operand is read, by the type of the left one.
pub fn right_reading(operator: BinaryOperator, left: Option<ExprType>) -> Reading
    ensures { result ≡ spec.right_reading operator left }
{
    match left {
        None => Reading::Hidden,
        Some(t) => {
            if is_equality(operator) {
                Reading::Wanted(t)
            } else {
                Reading::Free
            }
        }
    }
}
