ghost use Rattle.std.specs.Prelude.{◌≡◌, ◌≢◌, ◌⊎◌, ◌<◌, ◌↔◌, All, OnOk, IsTrue, Some, length, slice_get};
ghost use Rattle.core_form.specs.Fine.{IsFineItem, IsWellFormed};
ghost use Rattle.summary_rows.specs.Layout.{AreRows};
ghost use Rattle.core_form.specs.declared.contract.Mode.TheVariants as modes;
ghost use Rattle.used_modes.specs.Added.{Adds, SomeOf};
ghost use Rattle.used_modes.specs.UsedModes.{HasMode, row_of};
ghost use Rattle.global_check.specs.GlobalCheck.{IsClock, IsListedWrong, IsUsedLess, IsWrongMode};

use core_form::{Body, GlobalItem, Item, Mode, Program, Sharing};
use spark_base::{BodyNo, Items, NoMemory};
use spark_messages::message_texts::{
    UsedMode, read_output_text, unused_mode_text, written_input_text,
};
use spark_messages::{Code, Message};
use state_map::item_name;
use std::alloc::Global;
use summary_rows::Rows;
use used_modes::{Question, error_at, is_left, note, some_leaf, used_mode, warning_at};

// Whether an item is the clock.
fn is_clock(program: &Program, item: Item) -> bool
    ensures { IsTrue result ↔ IsClock program.now item }
{
    match item {
        Item::Whole(var) => match program.vars.get(var.0 as usize) {
            Some(var) => var.sharing == Sharing::ClockTime,
            None => false,
        },
        Item::State(_) | Item::Guard(_) => false,
    }
}

// Adds G04 on an item of this name and mode, unless it is the clock.
fn append_used_less(
    alloc: Global,
    list: &mut Items<Message>,
    program: &Program,
    rows: &Rows,
    number: BodyNo,
    body: &Body,
    global: GlobalItem,
    item: Item,
    name: &[u8],
    listed: UsedMode,
    mode: UsedMode,
) -> Result<(), NoMemory>
    requires mode { HasMode program.now (row_of rows.now number.0) item mode }
    ensures { OnOk result (Adds list.old list.new (IsUsedLess program.now (row_of rows.now number.0) body.now global item name.now listed mode)) }
{
    if is_clock(program, item) {
        return Ok(());
    }
    let text = unused_mode_text(alloc, name, listed, body.name.as_slice(), mode)?;
    note(list, warning_at(global.place, Code::G04, text))
}

// Adds G02 or G04 on an item that is listed as an input.
fn append_wrong_input(
    alloc: Global,
    list: &mut Items<Message>,
    program: &Program,
    rows: &Rows,
    number: BodyNo,
    body: &Body,
    global: GlobalItem,
    item: Item,
    name: &[u8],
) -> Result<(), NoMemory>
    requires fine { IsWellFormed program.now }
    requires rows { AreRows rows.now }
    requires in_range { number.0 < length rows.now.layout.outer }
    requires item { IsFineItem program.now item }
    ensures { OnOk result (Adds list.old list.new (IsWrongMode program.now (row_of rows.now number.0) body.now global item name.now modes.Input)) }
{
    let used = used_mode(program, rows, number, item);
    if used == UsedMode::Nothing {
        return append_used_less(
            alloc,
            list,
            program,
            rows,
            number,
            body,
            global,
            item,
            name,
            UsedMode::Input,
            used,
        );
    }
    if !some_leaf(program, rows, number, Question::Written, item) {
        return Ok(());
    }
    let text = written_input_text(alloc, name, body.name.as_slice())?;
    note(list, error_at(global.place, Code::G02, text))
}

// Adds G03 on an item that is listed as an output.
fn append_wrong_output(
    alloc: Global,
    list: &mut Items<Message>,
    program: &Program,
    rows: &Rows,
    number: BodyNo,
    body: &Body,
    global: GlobalItem,
    item: Item,
    name: &[u8],
) -> Result<(), NoMemory>
    requires fine { IsWellFormed program.now }
    requires rows { AreRows rows.now }
    requires in_range { number.0 < length rows.now.layout.outer }
    requires item { IsFineItem program.now item }
    ensures { OnOk result (Adds list.old list.new (IsWrongMode program.now (row_of rows.now number.0) body.now global item name.now modes.Output)) }
{
    if !some_leaf(program, rows, number, Question::Read, item)
        && !is_left(program, rows, number, item)
    {
        return Ok(());
    }
    let text = read_output_text(alloc, name, body.name.as_slice())?;
    note(list, error_at(global.place, Code::G03, text))
}

// Adds G04 on an item that is listed as both.
fn append_wrong_in_out(
    alloc: Global,
    list: &mut Items<Message>,
    program: &Program,
    rows: &Rows,
    number: BodyNo,
    body: &Body,
    global: GlobalItem,
    item: Item,
    name: &[u8],
) -> Result<(), NoMemory>
    requires fine { IsWellFormed program.now }
    requires rows { AreRows rows.now }
    requires in_range { number.0 < length rows.now.layout.outer }
    requires item { IsFineItem program.now item }
    ensures { OnOk result (Adds list.old list.new (IsWrongMode program.now (row_of rows.now number.0) body.now global item name.now modes.InOut)) }
{
    let used = used_mode(program, rows, number, item);
    if used == UsedMode::InOut {
        return Ok(());
    }
    append_used_less(
        alloc,
        list,
        program,
        rows,
        number,
        body,
        global,
        item,
        name,
        UsedMode::InOut,
        used,
    )
}

// Adds G02 to G04 on an item that is listed so.
fn append_wrong_mode(
    alloc: Global,
    list: &mut Items<Message>,
    program: &Program,
    rows: &Rows,
    number: BodyNo,
    body: &Body,
    global: GlobalItem,
    item: Item,
    name: &[u8],
) -> Result<(), NoMemory>
    requires fine { IsWellFormed program.now }
    requires rows { AreRows rows.now }
    requires in_range { number.0 < length rows.now.layout.outer }
    requires item { IsFineItem program.now item }
    ensures { OnOk result (Adds list.old list.new (IsWrongMode program.now (row_of rows.now number.0) body.now global item name.now global.mode)) }
{
    match global.mode {
        Mode::Input => {
            append_wrong_input(alloc, list, program, rows, number, body, global, item, name)
        }
        Mode::Output => {
            append_wrong_output(alloc, list, program, rows, number, body, global, item, name)
        }
        Mode::InOut => {
            append_wrong_in_out(alloc, list, program, rows, number, body, global, item, name)
        }
        Mode::ProofIn => Ok(()),
    }
}

// Adds G02 to G04 on what a Global lists.
fn append_listed_item(
    alloc: Global,
    list: &mut Items<Message>,
    program: &Program,
    rows: &Rows,
    number: BodyNo,
    body: &Body,
    global: GlobalItem,
) -> Result<(), NoMemory>
    requires fine { IsWellFormed program.now }
    requires rows { AreRows rows.now }
    requires in_range { number.0 < length rows.now.layout.outer }
    requires global { global.item.0 < length program.now.items }
    ensures { OnOk result (Adds list.old list.new (IsListedWrong program.now (row_of rows.now number.0) body.now global)) }
{
    let item = *program.items.at(global.item.0 as usize);
    let name = item_name(program, item, body.object).as_slice();
    append_wrong_mode(alloc, list, program, rows, number, body, global, item, name)
}

// Adds G02 to G04.
pub fn append_listed(
    alloc: Global,
    list: &mut Items<Message>,
    program: &Program,
    rows: &Rows,
    number: BodyNo,
    body: &Body,
    globals: &[GlobalItem],
) -> Result<(), NoMemory>
    requires fine { IsWellFormed program.now }
    requires rows { AreRows rows.now }
    requires in_range { number.0 < length rows.now.layout.outer }
    requires globals { All (λ g. g.item.0 < length program.now.items) globals.now }
    ensures { OnOk result (Adds list.old list.new (λ m. SomeOf (λ g. IsListedWrong program.now (row_of rows.now number.0) body.now g m) globals.now)) }
{
    for global in globals {
        append_listed_item(alloc, list, program, rows, number, body, *global)?;
    }
    Ok(())
}
