ghost use Rattle.core_form.specs.Fine.{IsFineItem, IsWellFormed};
ghost use Rattle.state_map.specs.Views.{IsItemName};

use core_form::{Item, Program};
use spark_base::{Bytes, ObjectNo};

/// The printed name of an item. `own` is the object to which the body that speaks of it belongs as an operation: that
/// goes by the name of its protected unit.
pub fn item_name<'a>(program: &'a Program, item: Item, own: Option<ObjectNo>) -> &'a Bytes
    requires fine { IsWellFormed program.now }
    requires item { IsFineItem program.now item }
    ensures { IsItemName program.now own item result.now }
{
    match item {
        Item::Whole(var) => &program.vars.at(var.0 as usize).name,
        Item::State(state) => &program.states.list.at(state as usize).name,
        Item::Guard(number) => {
            let object = program.objects.at(number.0 as usize);
            if own == Some(number) {
                &object.unit
            } else {
                &object.name
            }
        }
    }
}
