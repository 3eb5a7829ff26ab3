ghost use Rattle.std.specs.Prelude.{◌≡◌, ◌+◌, ◌<◌, ◌^◌, ◌⊎◌, [], All, length, IfOk, OnOk};
ghost use Rattle.core_form.specs.Fine.{IsWellFormed};
ghost use Rattle.flow_bits.specs.Sets.{Has, Tells};
ghost use Rattle.flow_relations.specs.Framing.{IsFraming};
ghost use Rattle.flow_relations.specs.Summaries.{row_leaf_of};
ghost use Rattle.row_flows.specs.Frames.{IsIn, IsLeafOver, IsSeenAside, IsSeenOfSome, StandsAside};
ghost use Rattle.row_flows.specs.Rows.{AreRowsOf};

use callee_view::{name_in_call, signature_of};
use contract_facts::seen_leaves;
use core_form::Program;
use flow_bits::Row;
use flow_relations::{Framing, add_own, frame_from, names_row, void_of};
use spark_base::{BodyNo, LeafNo, NoMemory};
use std::alloc::Global;
use summary_rows::Rows;

// Adds a leaf, where it is not passed.
fn add_aside(void: u32, passed: &[LeafNo], leaf: LeafNo, into: &mut Row)
    requires room { void + length passed.now < 2 ^ 32 }
    requires leaf { leaf.0 < void }
    requires size { void < length into.old }
    ensures size { length into.new ≡ length into.old }
    ensures set { Tells into.new (λ v. Has into.old v ⊎ ((leaf.0 ≡ v) × StandsAside void passed.now v)) }
{
    if name_in_call(&[], void, passed, leaf) == leaf.0 {
        into.add(leaf.0);
    }
}

// Adds those leaves of a list that are not passed.
fn add_leaves(void: u32, passed: &[LeafNo], leaves: &[LeafNo], into: &mut Row)
    requires room { void + length passed.now < 2 ^ 32 }
    requires leaves { All (λ leaf. leaf.0 < void) leaves.now }
    requires size { void < length into.old }
    ensures size { length into.new ≡ length into.old }
    ensures set { Tells into.new (λ v. Has into.old v ⊎ (IsIn leaves.now v × StandsAside void passed.now v)) }
{
    for leaf in leaves {
        add_aside(void, passed, *leaf, into);
    }
}

// Adds the leaves of the row of a body.
fn add_row_leaves(program: &Program, rows: &Rows, body: BodyNo, into: &mut Row)
    requires fine { IsWellFormed program.now }
    requires in_range { body.0 < length program.now.bodies }
    requires rows { AreRowsOf program.now rows.now }
    requires size { length into.old ≡ length program.now.leaves + 1 }
    ensures size { length into.new ≡ length into.old }
    ensures set { Tells into.new (λ v. Has into.old v ⊎ row_leaf_of rows.now.layout body.0 v) }
{
    let outer = rows.layout.outer.at(body.0 as usize).as_slice();
    add_leaves(void_of(program), &[], outer, into);
}

/// The leaves of the row of a body, with room for one more.
pub fn outer_row(
    alloc: Global,
    program: &Program,
    rows: &Rows,
    body: BodyNo,
) -> Result<Row, NoMemory>
    requires fine { IsWellFormed program.now }
    requires in_range { body.0 < length program.now.bodies }
    requires rows { AreRowsOf program.now rows.now }
    ensures size { IfOk result (λ row. length row ≡ length program.now.leaves + 1) }
    ensures set { IfOk result (λ row. Tells row (row_leaf_of rows.now.layout body.0)) }
{
    let mut row = Row::new(alloc, void_of(program) + 1)?;
    add_row_leaves(program, rows, body, &mut row);
    Ok(row)
}

// Adds the leaves of which a body sees a callee speak, but for those that are passed.
fn add_seen(
    alloc: Global,
    program: &Program,
    rows: &Rows,
    body: BodyNo,
    callee: BodyNo,
    into: &mut Row,
) -> Result<(), NoMemory>
    requires fine { IsWellFormed program.now }
    requires in_range { body.0 < length program.now.bodies }
    requires callee { callee.0 < length program.now.bodies }
    requires rows { AreRowsOf program.now rows.now }
    requires size { length into.old ≡ length program.now.leaves + 1 }
    ensures size { length into.new ≡ length into.old }
    ensures set { OnOk result (Tells into.new (λ v. Has into.old v ⊎ IsSeenAside program.now rows.now.layout body.0 callee v)) }
{
    let void = void_of(program);
    let passed = signature_of(alloc, program, callee)?.leaves;
    let leaves = seen_leaves(alloc, program, &rows.layout, body, callee)?;
    if passed.len() > (u32::MAX - void) as usize {
        return Err(NoMemory);
    }
    add_leaves(void, passed.as_slice(), leaves.as_slice(), into);
    Ok(())
}

// The same of each callee of a list.
fn add_all_seen(
    alloc: Global,
    program: &Program,
    rows: &Rows,
    body: BodyNo,
    callees: &[BodyNo],
    into: &mut Row,
) -> Result<(), NoMemory>
    requires fine { IsWellFormed program.now }
    requires in_range { body.0 < length program.now.bodies }
    requires callees { All (λ c. c.0 < length program.now.bodies) callees.now }
    requires rows { AreRowsOf program.now rows.now }
    requires size { length into.old ≡ length program.now.leaves + 1 }
    ensures size { length into.new ≡ length into.old }
    ensures set { OnOk result (Tells into.new (λ v. Has into.old v ⊎ IsSeenOfSome program.now rows.now.layout body.0 callees.now v)) }
{
    for callee in callees {
        add_seen(alloc, program, rows, body, *callee, into)?;
    }
    Ok(())
}

/// The frame of a body with these callees: the leaves that its code names, its own, those of its row, and those of which it sees the
/// callees speak.
pub fn frame_over(
    alloc: Global,
    program: &Program,
    rows: &Rows,
    body: BodyNo,
    callees: &[BodyNo],
) -> Result<Framing, NoMemory>
    requires fine { IsWellFormed program.now }
    requires in_range { body.0 < length program.now.bodies }
    requires callees { All (λ c. c.0 < length program.now.bodies) callees.now }
    requires rows { AreRowsOf program.now rows.now }
    ensures { IfOk result (IsFraming (length program.now.leaves) (IsLeafOver program.now rows.now.layout body.0 callees.now)) }
{
    let mut inside = names_row(alloc, program, body)?;
    add_own(program, body, &mut inside);
    add_row_leaves(program, rows, body, &mut inside);
    add_all_seen(alloc, program, rows, body, callees, &mut inside)?;
    inside.add(0);
    frame_from(alloc, &inside, void_of(program))
}
