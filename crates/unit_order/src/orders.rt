//! The order of the units of sources.
ghost use Rattle.std.specs.Prelude.{◌≡◌, None, IfOk};
ghost use Rattle.unit_names.specs.Names.{name_fault_of};
ghost use Rattle.unit_order.specs.Heads.{heads_of};
ghost use Rattle.package_order.specs.Packages.{IsElaboration};
ghost use Rattle.unit_order.specs.Orders.{IsAnswer};
ghost use Rattle.unit_order.specs.Packages as spec;
ghost use Rattle.unit_order.specs.Places.{AreTables};

use crate::heads::heads_of;
use crate::listed::{Tables, main_of, packages_of, place_in, tables_of, units_of};
use crate::refusals::{circle_message, name_message};
use ada_tree::Units;
use package_order::{Elaboration, elaborate};
use spark_base::{Items, NoMemory};
use spark_messages::PhaseFault;
use std::alloc::Global;
use unit_names::{Head, name_fault};

/// The order in which units are elaborated. A unit is known by its place among all units, from 0.
#[derive(Debug, Drop)]
pub struct Order {
    /// The specs and bodies of packages, in the order in which they are elaborated.
    pub units: Items<usize>,
    /// The main, which comes behind them.
    pub main: Option<usize>,
}

/// How the packages of units are elaborated.
fn elaborated(alloc: Global, heads: &[Head], tables: &Tables) -> Result<Elaboration, NoMemory>
    requires { AreTables heads.now tables.now }
    ensures { IfOk result (λ answer. IsElaboration (spec.packages_of heads.now) answer) }
{
    let packages = packages_of(alloc, heads, tables)?;
    elaborate(alloc, packages.as_slice())
}

/// The order of units whose names are as they should be.
fn order_of(alloc: Global, units: &Units, heads: &[Head]) -> Result<Order, PhaseFault>
    requires names { name_fault_of heads.now ≡ None }
    requires heads { heads.now ≡ heads_of units.now }
    ensures { IsAnswer units.now result }
{
    let tables = tables_of(alloc, heads)?;
    match elaborated(alloc, heads, &tables)? {
        Elaboration::Circle(name) => {
            let place = place_in(&tables.specs, name);
            Err(PhaseFault::Refused(circle_message(alloc, units, place)?))
        }
        Elaboration::Order(items) => Ok(Order {
            units: units_of(alloc, heads, &tables, items.as_slice())?,
            main: main_of(heads),
        }),
    }
}

/// The order of the units of sources, or the first refusal. In this order there may be: a name that is declared twice, as a spec or a
/// body of a name that has one, or a main and another unit of one name; a second main; a name in a with clause that is neither that
/// of a package with a spec nor `Ada.Real_Time`; a body without spec; and specs that with each other in a circle. Of each kind the first
/// counts, in the order of the files and of each file's source, and of with clauses the first name.
///
/// It takes the time of a few steps for each unit and each with clause, and for each step that of a search in a sorted map.
pub fn unit_order(alloc: Global, units: &Units) -> Result<Order, PhaseFault>
    ensures { IsAnswer units.now result }
{
    let heads = heads_of(alloc, units)?;
    match name_fault(alloc, heads.as_slice())? {
        Some(fault) => Err(PhaseFault::Refused(name_message(alloc, units, fault)?)),
        None => order_of(alloc, units, heads.as_slice()),
    }
}
