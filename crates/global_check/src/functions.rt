ghost use Rattle.std.specs.Prelude.{◌≡◌, ◌<◌, ◌↔◌, ℕ, slice_get, IfOk, OnOk, IsTrue, IsSomeAnd, All, Some, length};
ghost use Rattle.std.specs.List.{Contains};
ghost use Rattle.core_form.specs.Fine.{IsFineItem, IsWellFormed, home_of};
ghost use Rattle.core_form.specs.declared.program.Item.{Item};
ghost use Rattle.summary_rows.specs.Layout.{AreRows};
ghost use Rattle.used_modes.specs.Added.{Adds, SomeOf};
ghost use Rattle.used_modes.specs.UsedModes.{row_of};
ghost use Rattle.global_check.specs.GlobalCheck as spec;
ghost use Rattle.global_check.specs.declared.listing.Listing.TheVariants as listings;
ghost use Rattle.global_check.specs.GlobalCheck.{IsDeclaredOutput, IsFunctionWriting, IsListed, IsResultHome, IsWritten, IsWrittenAs, TellsWritten};

use crate::listing::{Listing, passes};
use core_form::{Body, BodyKind, GlobalItem, Home, Item, Program};
use spark_base::{BodyNo, Items, LeafNo, NoMemory};
use spark_messages::message_texts::writing_function_text;
use spark_messages::{Code, Message};
use state_map::{item_name, view_item};
use std::alloc::Global;
use summary_rows::Rows;
use used_modes::{error_at, note, note_new, row_leaves};

fn is_result_home(body: BodyNo, home: Home) -> bool
    ensures { IsTrue result ↔ IsResultHome body.0 home }
{
    match home {
        Home::Outcome(of) => of == body,
        Home::Package(_) | Home::Local(_) | Home::Formal(_) | Home::Spare(_) | Home::Clock => false,
    }
}

// Whether a leaf is one of the result of a body.
fn is_result(program: &Program, body: BodyNo, leaf: LeafNo) -> bool
    ensures { IsTrue result ↔ IsSomeAnd (home_of program.now leaf.0) (IsResultHome body.0) }
{
    match program.leaves.get(leaf.0 as usize) {
        Some(l) => match program.vars.get(l.var.0 as usize) {
            Some(var) => is_result_home(body, var.home),
            None => false,
        },
        None => false,
    }
}

// The item as which the package of a body sees a leaf that the body writes, and that is none of its result.
fn written_as(
    program: &Program,
    rows: &Rows,
    number: BodyNo,
    body: &Body,
    leaf: LeafNo,
) -> Option<Item>
    requires fine { IsWellFormed program.now }
    requires rows { AreRows rows.now }
    requires in_range { number.0 < length rows.now.layout.outer }
    ensures { (i : Item) → (result ≡ Some i) ↔ IsWrittenAs program.now (row_of rows.now number.0) number.0 body.now leaf.0 i }
{
    if leaf.0 as usize >= program.leaves.len() {
        return None;
    }
    if !rows.writes(number, leaf) || is_result(program, number, leaf) {
        return None;
    }
    Some(view_item(program, leaf, body.package))
}

// Adds that item, unless it is there.
fn note_written(
    items: &mut Items<Item>,
    program: &Program,
    rows: &Rows,
    number: BodyNo,
    body: &Body,
    leaf: LeafNo,
) -> Result<(), NoMemory>
    requires fine { IsWellFormed program.now }
    requires rows { AreRows rows.now }
    requires in_range { number.0 < length rows.now.layout.outer }
    ensures { OnOk result (Adds items.old items.new (IsWrittenAs program.now (row_of rows.now number.0) number.0 body.now leaf.0)) }
{
    match written_as(program, rows, number, body, leaf) {
        Some(item) => note_new(items, item),
        None => Ok(()),
    }
}

fn note_all_written(
    items: &mut Items<Item>,
    program: &Program,
    rows: &Rows,
    number: BodyNo,
    body: &Body,
) -> Result<(), NoMemory>
    requires fine { IsWellFormed program.now }
    requires rows { AreRows rows.now }
    requires in_range { number.0 < length rows.now.layout.outer }
    ensures { OnOk result (Adds items.old items.new
        (λ i. (leaf : ℕ) × IsWrittenAs program.now (row_of rows.now number.0) number.0 body.now leaf i)) }
{
    let leaves = row_leaves(rows, number);
    for leaf in leaves {
        note_written(items, program, rows, number, body, *leaf)?;
    }
    Ok(())
}

// Adds the item of a Global, where it is listed as an output.
fn note_output(
    items: &mut Items<Item>,
    program: &Program,
    global: GlobalItem,
) -> Result<(), NoMemory>
    ensures { OnOk result (Adds items.old items.new
        (λ i. IsTrue (spec.passes listings.AsOutput global.mode) × (slice_get program.now.items global.item.0 ≡ Some i))) }
{
    match program.items.get(global.item.0 as usize) {
        Some(item) if passes(Listing::AsOutput, global.mode) => note_new(items, *item),
        _ => Ok(()),
    }
}

fn note_outputs(
    items: &mut Items<Item>,
    program: &Program,
    globals: &[GlobalItem],
) -> Result<(), NoMemory>
    ensures { OnOk result (Adds items.old items.new (IsListed program.now listings.AsOutput globals.now)) }
{
    for global in globals {
        note_output(items, program, *global)?;
    }
    Ok(())
}

// Adds the outputs of the Global of a body, where it is written.
fn note_declared(items: &mut Items<Item>, program: &Program, body: &Body) -> Result<(), NoMemory>
    ensures { OnOk result (Adds items.old items.new (IsDeclaredOutput program.now body.now)) }
{
    match &body.outer {
        Some(contract) if !contract.derived => {
            note_outputs(items, program, contract.globals.as_slice())
        }
        _ => Ok(()),
    }
}

// The items that a body writes, or that its written Global has as outputs.
fn written_items(
    alloc: Global,
    program: &Program,
    rows: &Rows,
    number: BodyNo,
    body: &Body,
) -> Result<Items<Item>, NoMemory>
    requires fine { IsWellFormed program.now }
    requires rows { AreRows rows.now }
    requires in_range { number.0 < length rows.now.layout.outer }
    ensures set { IfOk result (λ items. (i : Item) → Contains items i ↔ IsWritten program.now (row_of rows.now number.0) number.0 body.now i) }
    ensures fine { IfOk result (λ items. All (IsFineItem program.now) items) }
{
    let mut items = Items::new(alloc);
    note_all_written(&mut items, program, rows, number, body)?;
    note_declared(&mut items, program, body)?;
    Ok(items)
}

// Adds G05 on an item.
fn append_written_item(
    alloc: Global,
    list: &mut Items<Message>,
    program: &Program,
    body: &Body,
    item: Item,
) -> Result<(), NoMemory>
    requires fine { IsWellFormed program.now }
    requires item { IsFineItem program.now item }
    ensures { OnOk result (Adds list.old list.new (TellsWritten program.now body.now item)) }
{
    let name = item_name(program, item, body.object);
    let text = writing_function_text(alloc, body.name.as_slice(), name.as_slice())?;
    note(list, error_at(body.place, Code::G05, text))
}

fn append_written_items(
    alloc: Global,
    list: &mut Items<Message>,
    program: &Program,
    body: &Body,
    items: &[Item],
) -> Result<(), NoMemory>
    requires fine { IsWellFormed program.now }
    requires items { All (IsFineItem program.now) items.now }
    ensures { OnOk result (Adds list.old list.new (λ m. SomeOf (λ i. TellsWritten program.now body.now i m) items.now)) }
{
    for item in items {
        append_written_item(alloc, list, program, body, *item)?;
    }
    Ok(())
}

// Adds G05, where the body is a function.
pub fn append_function_writing(
    alloc: Global,
    list: &mut Items<Message>,
    program: &Program,
    rows: &Rows,
    number: BodyNo,
    body: &Body,
) -> Result<(), NoMemory>
    requires fine { IsWellFormed program.now }
    requires rows { AreRows rows.now }
    requires in_range { number.0 < length rows.now.layout.outer }
    ensures { OnOk result (Adds list.old list.new (IsFunctionWriting program.now (row_of rows.now number.0) number.0 body.now)) }
{
    if body.kind != BodyKind::Function {
        return Ok(());
    }
    let items = written_items(alloc, program, rows, number, body)?;
    append_written_items(alloc, list, program, body, items.as_slice())
}
