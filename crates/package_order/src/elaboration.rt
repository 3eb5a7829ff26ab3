ghost use Rattle.std.specs.Prelude.{◌≡◌, map, IfOk};
ghost use Rattle.elaboration_order.specs.Order.{order};
ghost use Rattle.package_order.specs.Packages.{IsElaboration, item_at, rules};

use crate::packages::{Item, Package, item_at};
use crate::rules::{graph_of, rules_of};
use elaboration_order::elaboration_order;
use graph_cycles::first_on_cycle;
use spark_base::{Items, NoMemory};
use std::alloc::Global;

/// How packages are elaborated.
#[derive(Drop)]
pub enum Elaboration {
    /// They are not: the first package to whose spec with clauses of specs lead back.
    Circle(usize),
    /// In this order.
    Order(Items<Item>),
}

/// The items at places.
fn items_at(alloc: Global, places: &[usize]) -> Result<Items<Item>, NoMemory>
    ensures { IfOk result (λ items. items ≡ map item_at places.now) }
{
    let mut items = Items::new(alloc);
    for place in places {
        items.push(item_at(*place))?;
    }
    Ok(items)
}

/// The items of packages, as the order of what they follow and prefer has them.
fn in_order(alloc: Global, packages: &[Package]) -> Result<Items<Item>, NoMemory>
    ensures { IfOk result (λ items. items ≡ map item_at (order (rules packages.now))) }
{
    let rules = rules_of(alloc, packages)?;
    let places = elaboration_order(alloc, rules.as_slice())?;
    items_at(alloc, places.as_slice())
}

/// How packages are elaborated. Specs may not with each other in a circle. A spec comes behind the specs that it withs, and a body
/// behind its spec and the specs that the two with; each had better come behind the bodies of these, too. Again and again
/// the first item that may come and had better is taken, and where there is none the first that may; items are
/// listed by the places of the packages' specs, the spec of each before its body.
///
/// It takes the time of a few steps for each package and each with clause, and for each step that of a search in a
/// sorted set.
pub fn elaborate(alloc: Global, packages: &[Package]) -> Result<Elaboration, NoMemory>
    ensures { IfOk result (λ answer. IsElaboration packages.now answer) }
{
    let graph = graph_of(alloc, packages)?;
    let found = first_on_cycle(alloc, graph.as_slice())?;
    match found {
        Some(number) => Ok(Elaboration::Circle(number)),
        None => Ok(Elaboration::Order(in_order(alloc, packages)?)),
    }
}
