//! What the specs and bodies of packages wait for.
ghost use Rattle.std.specs.Prelude.{◌≡◌, ◌<◌, ◌^◌, ◌++◌, length, map, IfOk, OnOk};
ghost use Rattle.package_order.specs.Packages.{body_rule, items_of, rules, spec_rule, with_graph};

use crate::packages::{Package, has_item, place_of};
use elaboration_order::Rule;
use spark_base::{Items, NoMemory};
use std::alloc::Global;

/// Adds the places of the specs, or of the bodies, of the packages that are named.
fn add_items(
    places: &mut Items<usize>,
    all: &[Package],
    names: &[usize],
    is_body: bool,
) -> Result<(), NoMemory>
    ensures { OnOk result (places.new ≡ places.old ++ items_of all.now is_body names.now) }
{
    for name in names {
        if has_item(all, *name, is_body) {
            places.push(place_of(*name, is_body))?;
        }
    }
    Ok(())
}

/// What a spec waits for.
fn rule_of_spec(alloc: Global, all: &[Package], owner: &Package) -> Result<Rule, NoMemory>
    ensures { IfOk result (λ rule. rule ≡ spec_rule all.now owner.now) }
{
    let mut follows = Items::new(alloc);
    let mut prefers = Items::new(alloc);
    add_items(&mut follows, all, owner.withs.as_slice(), false)?;
    add_items(&mut prefers, all, owner.withs.as_slice(), true)?;
    Ok(Rule { follows, prefers })
}

/// What a body waits for. Where there is none, it waits for itself.
fn rule_of_body(
    alloc: Global,
    all: &[Package],
    number: usize,
    owner: &Package,
) -> Result<Rule, NoMemory>
    requires { number < 2 ^ 63 }
    ensures { IfOk result (λ rule. rule ≡ body_rule all.now number owner.now) }
{
    let mut follows = Items::new(alloc);
    let mut prefers = Items::new(alloc);
    let Some(more) = &owner.body_withs else {
        follows.push(place_of(number, true))?;
        return Ok(Rule { follows, prefers });
    };
    follows.push(place_of(number, false))?;
    add_items(&mut follows, all, owner.withs.as_slice(), false)?;
    add_items(&mut follows, all, more.as_slice(), false)?;
    add_items(&mut prefers, all, owner.withs.as_slice(), true)?;
    add_items(&mut prefers, all, more.as_slice(), true)?;
    Ok(Rule { follows, prefers })
}

/// What all items wait for, in the order of their places.
pub(crate) fn rules_of(alloc: Global, all: &[Package]) -> Result<Vec<Rule>, NoMemory>
    ensures { IfOk result (λ list. list.items ≡ rules all.now) }
{
    let mut list = Vec::new(alloc);
    for number in 0..all.len() {
        let owner = &all[number];
        list.push(rule_of_spec(alloc, all, owner)?)?;
        list.push(rule_of_body(alloc, all, number, owner)?)?;
    }
    Ok(list)
}

/// For each package those that its spec withs.
pub(crate) fn graph_of(alloc: Global, all: &[Package]) -> Result<Vec<Items<usize>>, NoMemory>
    ensures { IfOk result (λ graph. graph.items ≡ with_graph all.now) }
{
    let mut graph = Vec::new(alloc);
    for owner in all {
        let withs = Vec::from_slice(alloc, owner.withs.as_slice())?;
        graph.push(Items::from_vec(withs))?;
    }
    Ok(graph)
}
