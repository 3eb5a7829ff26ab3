ghost use Rattle.std.specs.Prelude.{◌≡◌, ℕ, ◌<◌, ◌⊎◌, ◌↔◌, All, IfOk, OnOk, IsTrue, Some, length, slice_get};
ghost use Rattle.std.specs.List.{Contains};
ghost use Rattle.core_form.specs.Fine.{IsFineItem, IsWellFormed};
ghost use Rattle.core_form.specs.declared.program.Item.{Item};
ghost use Rattle.summary_rows.specs.Layout.{AreRows};
ghost use Rattle.used_modes.specs.Added.{Adds, SomeOf};
ghost use Rattle.used_modes.specs.UsedModes.{row_of};
ghost use Rattle.global_check.specs.GlobalCheck.{IsMissing, IsUnlisted, IsUsedAs, IsUsedUnlisted, TellsUnlisted};

use crate::listing::{checked_view, is_missing, is_own_item};
use core_form::{Body, Contract, GlobalItem, Item, Program};
use spark_base::{BodyNo, Items, LeafNo, NoMemory};
use spark_messages::message_texts::unlisted_text;
use spark_messages::{Code, Message};
use state_map::{item_name, view_in_body};
use std::alloc::Global;
use summary_rows::Rows;
use used_modes::{error_at, is_library, note, note_new, row_leaves, used_mode};

// The item as which the checked Global of a body sees a leaf of the library that the body uses.
fn used_as(
    program: &Program,
    rows: &Rows,
    number: BodyNo,
    body: &Body,
    leaf: LeafNo,
) -> Option<Item>
    requires fine { IsWellFormed program.now }
    requires rows { AreRows rows.now }
    requires in_range { number.0 < length rows.now.layout.outer }
    ensures { (i : Item) → (result ≡ Some i) ↔ IsUsedAs program.now (row_of rows.now number.0) body.now leaf.0 i }
{
    if !is_library(program, leaf) {
        return None;
    }
    if !rows.reads(number, leaf) && !rows.writes(number, leaf) {
        return None;
    }
    let item = view_in_body(program, leaf, body.object, checked_view(body));
    if is_own_item(body.object, item) {
        None
    } else {
        Some(item)
    }
}

// Adds that item, unless it is there or the Global lists it.
fn note_used(
    items: &mut Items<Item>,
    program: &Program,
    rows: &Rows,
    number: BodyNo,
    body: &Body,
    globals: &[GlobalItem],
    leaf: LeafNo,
) -> Result<(), NoMemory>
    requires fine { IsWellFormed program.now }
    requires rows { AreRows rows.now }
    requires in_range { number.0 < length rows.now.layout.outer }
    ensures { OnOk result (Adds items.old items.new
        (λ i. IsUsedAs program.now (row_of rows.now number.0) body.now leaf.0 i × IsMissing program.now globals.now i)) }
{
    match used_as(program, rows, number, body, leaf) {
        Some(item) if is_missing(program, globals, item) => note_new(items, item),
        _ => Ok(()),
    }
}

// The items that a body uses, and its checked Global does not list.
fn unlisted_items(
    alloc: Global,
    program: &Program,
    rows: &Rows,
    number: BodyNo,
    body: &Body,
    contract: &Contract,
) -> Result<Items<Item>, NoMemory>
    requires fine { IsWellFormed program.now }
    requires rows { AreRows rows.now }
    requires in_range { number.0 < length rows.now.layout.outer }
    ensures set { IfOk result (λ items. (i : Item) → Contains items i
        ↔ IsUsedUnlisted program.now (row_of rows.now number.0) body.now contract.now i) }
    ensures fine { IfOk result (λ items. All (IsFineItem program.now) items) }
{
    let mut items = Items::new(alloc);
    let globals = contract.globals.as_slice();
    let leaves = row_leaves(rows, number);
    for leaf in leaves {
        note_used(&mut items, program, rows, number, body, globals, *leaf)?;
    }
    Ok(items)
}

// Adds G01 on an item.
fn append_unlisted_item(
    alloc: Global,
    list: &mut Items<Message>,
    program: &Program,
    rows: &Rows,
    number: BodyNo,
    body: &Body,
    item: Item,
) -> Result<(), NoMemory>
    requires fine { IsWellFormed program.now }
    requires rows { AreRows rows.now }
    requires in_range { number.0 < length rows.now.layout.outer }
    requires item { IsFineItem program.now item }
    ensures { OnOk result (Adds list.old list.new (TellsUnlisted program.now (row_of rows.now number.0) body.now item)) }
{
    let mode = used_mode(program, rows, number, item);
    let name = item_name(program, item, body.object);
    let text = unlisted_text(alloc, name.as_slice(), mode, body.name.as_slice())?;
    note(list, error_at(body.place, Code::G01, text))
}

fn append_unlisted_items(
    alloc: Global,
    list: &mut Items<Message>,
    program: &Program,
    rows: &Rows,
    number: BodyNo,
    body: &Body,
    items: &[Item],
) -> Result<(), NoMemory>
    requires fine { IsWellFormed program.now }
    requires rows { AreRows rows.now }
    requires in_range { number.0 < length rows.now.layout.outer }
    requires items { All (IsFineItem program.now) items.now }
    ensures { OnOk result (Adds list.old list.new (λ m. SomeOf (λ i. TellsUnlisted program.now (row_of rows.now number.0) body.now i m) items.now)) }
{
    for item in items {
        append_unlisted_item(alloc, list, program, rows, number, body, *item)?;
    }
    Ok(())
}

// Adds G01.
pub fn append_unlisted(
    alloc: Global,
    list: &mut Items<Message>,
    program: &Program,
    rows: &Rows,
    number: BodyNo,
    body: &Body,
    contract: &Contract,
) -> Result<(), NoMemory>
    requires fine { IsWellFormed program.now }
    requires rows { AreRows rows.now }
    requires in_range { number.0 < length rows.now.layout.outer }
    ensures { OnOk result (Adds list.old list.new (IsUnlisted program.now (row_of rows.now number.0) body.now contract.now)) }
{
    let items = unlisted_items(alloc, program, rows, number, body, contract)?;
    append_unlisted_items(alloc, list, program, rows, number, body, items.as_slice())
}
