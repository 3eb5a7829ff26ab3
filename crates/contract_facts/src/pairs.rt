ghost use Rattle.std.specs.Prelude.{◌≡◌, ◌<◌, ◌^◌, ◌⊎◌, All, IfOk, IfSome, IsSomeAnd, OnOk, length};
ghost use Rattle.core_form.specs.Fine.{IsFineContract, IsFinePair, IsWellFormed};
ghost use Rattle.flow_bits.specs.Sets.{Has, Relates, Tells, TellsPairs};
ghost use Rattle.callee_view.specs.Seen.{IsExpanded, IsLeafOfItem};
ghost use Rattle.callee_view.specs.Shown.{leaf_at};
ghost use Rattle.contract_facts.specs.Uses.{PairsBy};

use crate::places::places_in;
use crate::sets::add_end;
use core_form::{Contract, DependsPair, Program};
use flow_bits::{Row, Square};
use spark_base::{ItemNo, LeafNo, NoMemory};
use std::alloc::Global;

// The places of the leaves of an end of a pair.
fn end_places(
    alloc: Global,
    program: &Program,
    item: Option<ItemNo>,
    leaves: &[LeafNo],
) -> Result<Row, NoMemory>
    requires fine { IsWellFormed program.now }
    requires item { IfSome item (λ i. i.0 < length program.now.items) }
    requires room { length leaves.now < 2 ^ 32 }
    ensures size { IfOk result (λ row. length row ≡ length leaves.now) }
    ensures set { IfOk result (λ row. Tells row (λ i. (i < length leaves.now)
        × IsSomeAnd item (λ x. IsLeafOfItem program.now x (leaf_at leaves.now i)))) }
{
    let mut set = Row::new(alloc, program.leaves.len() as u32)?;
    add_end(program, item, &mut set);
    let row = places_in(alloc, &set, leaves)?;
    Ok(row)
}

// Adds the places of the leaves of a pair, each of its input with each of its output.
fn add_pair(
    alloc: Global,
    program: &Program,
    pair: &DependsPair,
    leaves: &[LeafNo],
    into: &mut Square,
) -> Result<(), NoMemory>
    requires fine { IsWellFormed program.now }
    requires pair { IsFinePair program.now pair.now }
    requires room { length leaves.now < 2 ^ 32 }
    requires size { length into.old ≡ length leaves.now }
    ensures size { length into.new ≡ length into.old }
    ensures set { OnOk result (TellsPairs into.new (λ i j. Relates into.old i j ⊎ (((i < length leaves.now) × (j < length leaves.now))
        × (IsSomeAnd pair.now.input (λ x. IsLeafOfItem program.now x (leaf_at leaves.now i))
        × IsSomeAnd pair.now.output (λ x. IsLeafOfItem program.now x (leaf_at leaves.now j)))))) }
{
    let from = end_places(alloc, program, pair.input, leaves)?;
    let to = end_places(alloc, program, pair.output, leaves)?;
    into.cross_into(&from, &to);
    Ok(())
}

// Adds the places of the leaves of pairs.
fn add_pairs(
    alloc: Global,
    program: &Program,
    pairs: &[DependsPair],
    leaves: &[LeafNo],
    into: &mut Square,
) -> Result<(), NoMemory>
    requires fine { IsWellFormed program.now }
    requires pairs { All (IsFinePair program.now) pairs.now }
    requires room { length leaves.now < 2 ^ 32 }
    requires size { length into.old ≡ length leaves.now }
    ensures size { length into.new ≡ length into.old }
    ensures set { OnOk result (TellsPairs into.new (λ i j. Relates into.old i j ⊎ (((i < length leaves.now) × (j < length leaves.now))
        × IsExpanded program.now pairs.now (leaf_at leaves.now i) (leaf_at leaves.now j)))) }
{
    for pair in pairs {
        add_pair(alloc, program, pair, leaves, into)?;
    }
    Ok(())
}

// Adds a place with itself, where it is not in a set.
fn add_itself(written: &Row, i: u32, into: &mut Square)
    requires i { i < length into.old }
    requires size { length written.now ≡ length into.old }
    ensures size { length into.new ≡ length into.old }
    ensures set { TellsPairs into.new (λ x y. Relates into.old x y ⊎ ((i ≡ x) × ((x ≡ y) × (Has written.now x → ⊥)))) }
{
    if !written.has(i) {
        into.add(i, i);
    }
}

/// Adds each place that is not in a set with itself.
pub fn add_unwritten(written: &Row, into: &mut Square)
    requires size { length written.now ≡ length into.old }
    ensures size { length into.new ≡ length into.old }
    ensures set { TellsPairs into.new (λ x y. Relates into.old x y ⊎ ((x < length into.old) × ((x ≡ y) × (Has written.now x → ⊥)))) }
{
    for i in 0..into.size() {
        add_itself(written, i, into);
    }
}

/// The places of the pairs of a Depends; where there is none, each that is read with each that is written.
pub fn pairs_by(
    alloc: Global,
    program: &Program,
    contract: &Contract,
    leaves: &[LeafNo],
    read: &Row,
    written: &Row,
) -> Result<Square, NoMemory>
    requires fine { IsWellFormed program.now }
    requires contract { IsFineContract program.now contract.now }
    requires room { length leaves.now < 2 ^ 32 }
    requires read { length read.now ≡ length leaves.now }
    requires written { length written.now ≡ length leaves.now }
    ensures size { IfOk result (λ square. length square ≡ length leaves.now) }
    ensures set { IfOk result (λ square. TellsPairs square (PairsBy program.now leaves.now read.now written.now contract.now.depends)) }
{
    let mut square = Square::new(alloc, read.size())?;
    match &contract.depends {
        None => {
            square.cross_into(read, written);
        }
        Some(pairs) => add_pairs(alloc, program, pairs.as_slice(), leaves, &mut square)?,
    }
    Ok(square)
}
