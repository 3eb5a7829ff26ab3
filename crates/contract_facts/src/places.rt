ghost use Rattle.std.specs.Prelude.{◌≡◌, ◌+◌, ◌<◌, ◌^◌, ◌⊎◌, IfOk, OnOk, length};
ghost use Rattle.flow_bits.specs.Sets.{Has, Tells};
ghost use Rattle.callee_view.specs.Shown.{leaf_at};
ghost use Rattle.contract_facts.specs.Listed.{AreListed};

use flow_bits::Row;
use spark_base::{Items, LeafNo, NoMemory};
use std::alloc::Global;

// Adds a place, where its leaf is in a set.
fn add_place(set: &Row, leaves: &[LeafNo], i: u32, into: &mut Row)
    requires place { i < length leaves.now }
    requires size { length into.old ≡ length leaves.now }
    ensures size { length into.new ≡ length into.old }
    ensures set { Tells into.new (λ x. Has into.old x ⊎ ((i ≡ x) × Has set.now (leaf_at leaves.now x))) }
{
    let leaf = leaves[i as usize].0;
    if leaf < set.size() && set.has(leaf) {
        into.add(i);
    }
}

/// The places of those leaves that are in a set.
pub fn places_in(alloc: Global, set: &Row, leaves: &[LeafNo]) -> Result<Row, NoMemory>
    requires room { length leaves.now < 2 ^ 32 }
    ensures size { IfOk result (λ row. length row ≡ length leaves.now) }
    ensures set { IfOk result (λ row. Tells row (λ i. (i < length leaves.now) × Has set.now (leaf_at leaves.now i))) }
{
    let count = leaves.len() as u32;
    let mut row = Row::new(alloc, count)?;
    for i in 0..count {
        add_place(set, leaves, i, &mut row);
    }
    Ok(row)
}

// Adds a leaf at the end, where it is in a set.
fn add_leaf(set: &Row, leaf: u32, into: &mut Items<LeafNo>) -> Result<(), NoMemory>
    requires leaf { leaf < length set.now }
    requires listed { AreListed set.now leaf into.old }
    ensures { OnOk result (AreListed set.now (leaf + 1) into.new) }
{
    if set.has(leaf) {
        into.push(LeafNo(leaf))?;
    }
    Ok(())
}

/// The leaves of a set, in increasing order.
pub fn leaves_of(alloc: Global, set: &Row) -> Result<Items<LeafNo>, NoMemory>
    ensures { IfOk result (AreListed set.now (length set.now)) }
{
    let mut leaves = Items::new(alloc);
    for leaf in 0..set.size() {
        add_leaf(set, leaf, &mut leaves)?;
    }
    Ok(leaves)
}
