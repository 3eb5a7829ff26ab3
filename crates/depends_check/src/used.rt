ghost use Rattle.std.specs.Prelude.{◌≡◌, ◌<◌, ◌↔◌, ℕ, Some, OnOk, IfOk, IsTrue, length};
ghost use Rattle.std.specs.List.{Contains};
ghost use Rattle.core_form.specs.Fine.{IsFineItem, IsWellFormed};
ghost use Rattle.core_form.specs.declared.program.Item.{Item};
ghost use Rattle.flow_bits.specs.Sets.{Has};
ghost use Rattle.summary_rows.specs.Layout.{AreRows, IsAt};
ghost use Rattle.used_modes.specs.Added.{Adds};
ghost use Rattle.used_modes.specs.UsedModes.{IsLeft, row_of};
ghost use Rattle.depends_check.specs.DependsCheck.{IsDecidedBy, IsSource, IsUntold, IsUsed};

use crate::checked::depends_view;
use crate::item_sets::ItemSet;
use core_form::{Body, Item, Program};
use flow_bits::Row;
use spark_base::{BodyNo, LeafNo, NoMemory};
use state_map::{expand, view_in_body};
use std::alloc::Global;
use summary_rows::Rows;
use used_modes::{is_left, row_leaves};

// The item as which a leaf is seen that may decide another.
fn decided_by(
    program: &Program,
    rows: &Rows,
    number: BodyNo,
    body: &Body,
    leaf: LeafNo,
    from: LeafNo,
) -> Option<Item>
    requires fine { IsWellFormed program.now }
    requires rows { AreRows rows.now }
    requires in_range { number.0 < length rows.now.layout.outer }
    ensures { (i : Item) → (result ≡ Some i) ↔ IsDecidedBy program.now rows.now number.0 body.now leaf.0 from.0 i }
{
    if from.0 as usize >= program.leaves.len() || !rows.depends(number, from, leaf) {
        return None;
    }
    Some(view_in_body(program, from, body.object, depends_view(body)))
}

fn note_deciding(
    items: &mut ItemSet,
    program: &Program,
    rows: &Rows,
    number: BodyNo,
    body: &Body,
    leaf: LeafNo,
) -> Result<(), NoMemory>
    requires fine { IsWellFormed program.now }
    requires rows { AreRows rows.now }
    requires in_range { number.0 < length rows.now.layout.outer }
    ensures { OnOk result (Adds items.old items.new
        (λ i. (from : ℕ) × IsDecidedBy program.now rows.now number.0 body.now leaf.0 from i)) }
{
    let leaves = row_leaves(rows, number);
    for from in leaves {
        items.note_some(decided_by(program, rows, number, body, leaf, *from))?;
    }
    Ok(())
}

fn is_told(leaves: &[LeafNo], leaf: LeafNo) -> bool
    ensures { IsTrue result ↔ ((i : ℕ) × IsAt leaves.now leaf.0 i) }
{
    for other in leaves {
        if *other == leaf {
            return true;
        }
    }
    false
}

// The item as which a leaf is seen of which the row does not speak.
fn untold_item(
    program: &Program,
    rows: &Rows,
    number: BodyNo,
    body: &Body,
    leaf: LeafNo,
) -> Option<Item>
    requires fine { IsWellFormed program.now }
    requires rows { AreRows rows.now }
    requires in_range { number.0 < length rows.now.layout.outer }
    ensures { (i : Item) → (result ≡ Some i) ↔ IsUntold program.now rows.now number.0 body.now leaf.0 i }
{
    if leaf.0 as usize >= program.leaves.len() {
        return None;
    }
    if !rows.returns(number) || is_told(row_leaves(rows, number), leaf) {
        return None;
    }
    Some(view_in_body(program, leaf, body.object, depends_view(body)))
}

// Adds the items on which a leaf depends.
fn note_sources(
    items: &mut ItemSet,
    program: &Program,
    rows: &Rows,
    number: BodyNo,
    body: &Body,
    leaf: LeafNo,
) -> Result<(), NoMemory>
    requires fine { IsWellFormed program.now }
    requires rows { AreRows rows.now }
    requires in_range { number.0 < length rows.now.layout.outer }
    ensures { OnOk result (Adds items.old items.new (IsSource program.now rows.now number.0 body.now leaf.0)) }
{
    note_deciding(items, program, rows, number, body, leaf)?;
    items.note_some(untold_item(program, rows, number, body, leaf))
}

// Adds them, if the leaf is one of these.
fn note_sources_in(
    items: &mut ItemSet,
    program: &Program,
    rows: &Rows,
    number: BodyNo,
    body: &Body,
    leaves: &Row,
    leaf: u32,
) -> Result<(), NoMemory>
    requires fine { IsWellFormed program.now }
    requires rows { AreRows rows.now }
    requires in_range { number.0 < length rows.now.layout.outer }
    requires leaf { leaf < length leaves.now }
    ensures { OnOk result (Adds items.old items.new (λ i. Has leaves.now leaf × IsSource program.now rows.now number.0 body.now leaf i)) }
{
    if !leaves.has(leaf) {
        return Ok(());
    }
    note_sources(items, program, rows, number, body, LeafNo(leaf))
}

fn note_all_sources(
    items: &mut ItemSet,
    program: &Program,
    rows: &Rows,
    number: BodyNo,
    body: &Body,
    leaves: &Row,
) -> Result<(), NoMemory>
    requires fine { IsWellFormed program.now }
    requires rows { AreRows rows.now }
    requires in_range { number.0 < length rows.now.layout.outer }
    ensures { OnOk result (Adds items.old items.new
        (λ i. (leaf : ℕ) × ((leaf < length leaves.now)
        × (Has leaves.now leaf × IsSource program.now rows.now number.0 body.now leaf i)))) }
{
    for leaf in 0..leaves.size() {
        note_sources_in(items, program, rows, number, body, leaves, leaf)?;
    }
    Ok(())
}

// The item, if it may stay as it was.
fn left_item(program: &Program, rows: &Rows, number: BodyNo, item: Item) -> Option<Item>
    requires fine { IsWellFormed program.now }
    requires rows { AreRows rows.now }
    requires in_range { number.0 < length rows.now.layout.outer }
    requires item { IsFineItem program.now item }
    ensures { (i : Item) → (result ≡ Some i) ↔ (IsLeft program.now (row_of rows.now number.0) item × (i ≡ item)) }
{
    if is_left(program, rows, number, item) {
        Some(item)
    } else {
        None
    }
}

// The items on which an item depends.
pub fn used_items(
    alloc: Global,
    program: &Program,
    rows: &Rows,
    number: BodyNo,
    body: &Body,
    output: Item,
) -> Result<ItemSet, NoMemory>
    requires fine { IsWellFormed program.now }
    requires rows { AreRows rows.now }
    requires in_range { number.0 < length rows.now.layout.outer }
    requires output { IsFineItem program.now output }
    ensures { IfOk result (λ items. (i : Item) → Contains items i ↔ IsUsed program.now rows.now number.0 body.now output i) }
{
    let mut items = ItemSet::new(alloc);
    let mut leaves = Row::new(alloc, program.leaves.len() as u32)?;
    expand(program, output, &mut leaves);
    note_all_sources(&mut items, program, rows, number, body, &leaves)?;
    items.note_some(left_item(program, rows, number, output))?;
    Ok(items)
}
