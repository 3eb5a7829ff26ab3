//! The slots of parts.
ghost use Rattle.std.specs.Prelude.{◌≡◌};
ghost use Rattle.ada_forms.specs.Forms.{expr_of};
ghost use Rattle.expr_outlines.specs.Outlines as outlines;
ghost use Rattle.part_slots.specs.Slots as spec;

use crate::readings::{Reading, expecting, tested_reading};
use ada_forms::{ExprForm, expr_form};
use ada_tree::Units;
use expr_outlines::{is_aggregate, is_name};
use seen_types::ExprType;
use spark_base::{ExprNo, Items, TypeNo};

/// How a part is read that stands in a list, and what is asked of it.
#[derive(Debug, Drop)]
pub enum Slot {
    /// A value of which nothing is asked.
    Alone,
    /// A value that may be no aggregate.
    Plain,
    /// A value of this type; of a type that is not known where there is none.
    Given(Option<ExprType>),
    /// What an `out` formal of this type is given.
    Target(Option<TypeNo>),
    /// A value too many.
    Surplus,
    /// One value for components of these types.
    Shared(Items<TypeNo>),
    Condition,
    /// A value of a conditional expression: how it is read, and the type of those before.
    Branch(Reading, Option<ExprType>),
    /// A whole number.
    Whole,
    /// A choice among the values of this type.
    Choice(Option<TypeNo>),
}

/// How an association is read.
#[derive(Debug, Drop)]
pub enum Pairing {
    /// For the components of a record that have these types.
    ForComponents(Items<TypeNo>),
    /// For elements of an array with this index: the type of the index, and that of the elements.
    ForElements(TypeNo, TypeNo),
    /// Nothing with components is expected.
    ForNothing,
}

fn first_wanted(of: &Items<TypeNo>) -> Reading
    ensures { result ≡ spec.first_wanted of.now }
{
    match of.get(0) {
        None => Reading::Hidden,
        Some(t) => Reading::Wanted(ExprType::Of(*t)),
    }
}

/// What an argument passes.
pub fn passed(units: &Units, e: ExprNo) -> ExprNo
    ensures { expr_of units.now.exprs result ≡ outlines.passed (expr_of units.now.exprs e) }
{
    match expr_form(units, e).form {
        ExprForm::Argument { value } => value,
        ExprForm::NamedArgument { value, .. } => value,
        _ => e,
    }
}

fn target_reading(units: &Units, e: ExprNo) -> Reading
    ensures { result ≡ spec.target_reading (expr_of units.now.exprs e) }
{
    if is_name(units, passed(units, e)) {
        Reading::Free
    } else {
        Reading::Hidden
    }
}

impl Slot {
    /// How the part in this slot is read.
    pub fn reading(&self, units: &Units, e: ExprNo) -> Reading
        ensures { result ≡ spec.slot_reading self.now (expr_of units.now.exprs e) }
    {
        match self {
            Slot::Alone | Slot::Surplus => Reading::Hidden,
            Slot::Plain => tested_reading(is_aggregate(units, e)),
            Slot::Given(of) => expecting(*of),
            Slot::Target(_) => target_reading(units, e),
            Slot::Shared(of) => first_wanted(of),
            Slot::Condition | Slot::Whole | Slot::Choice(_) => Reading::Free,
            Slot::Branch(reading, _) => *reading,
        }
    }
}
