ghost use Rattle.std.specs.Prelude.{◌≡◌, ◌<◌, ◌⊎◌, ◌↔◌, Some, All, OnOk, IfOk, length};
ghost use Rattle.std.specs.List.{Contains};
ghost use Rattle.core_form.specs.Fine.{IsFineBody, IsFineItem, IsWellFormed};
ghost use Rattle.core_form.specs.declared.program.Item.{Item};
ghost use Rattle.summary_rows.specs.Layout.{AreRows};
ghost use Rattle.used_modes.specs.Added.{Adds, SomeOf};
ghost use Rattle.depends_check.specs.DependsCheck as spec;
ghost use Rattle.depends_check.specs.DependsCheck.{IsOn, IsUnused, IsUsedPair, IsWrongPair, TellsUnused};
ghost use Rattle.depends_check.specs.declared.sides.Side.TheVariants as sides;

use crate::checked::{aspect_of, pairs_of};
use crate::item_sets::ItemSet;
use crate::mentions::{first_place, note_outputs, said_input, said_inputs};
use crate::sides::{Side, items_on};
use crate::used::used_items;
use core_form::{Body, Contract, DependsPair, Item, Program};
use spark_base::{BodyNo, Items, NoMemory, Span};
use spark_messages::message_texts::{missing_dependency_text, unused_dependency_text};
use spark_messages::{Code, Message};
use state_map::item_name;
use std::alloc::Global;
use summary_rows::Rows;
use used_modes::{error_at, note, warning_at};

// Adds D01 on an item on which an output depends, unless a pair says so.
fn append_unsaid_item(
    alloc: Global,
    list: &mut Items<Message>,
    program: &Program,
    body: &Body,
    output: Item,
    place: Span,
    said: &ItemSet,
    item: Item,
) -> Result<(), NoMemory>
    requires fine { IsWellFormed program.now }
    requires output { IsFineItem program.now output }
    requires item { IsFineItem program.now item }
    ensures { OnOk result (Adds list.old list.new
        (λ m. (Contains said.now item → ⊥) × spec.TellsMissing program.now body.now place output item m)) }
{
    if said.has(item) {
        return Ok(());
    }
    let output = item_name(program, output, body.object);
    let input = item_name(program, item, body.object);
    let text = missing_dependency_text(
        alloc,
        output.as_slice(),
        input.as_slice(),
        body.name.as_slice(),
    )?;
    note(list, error_at(place, Code::D01, text))
}

fn append_unsaid_items(
    alloc: Global,
    list: &mut Items<Message>,
    program: &Program,
    body: &Body,
    output: Item,
    place: Span,
    said: &ItemSet,
    used: &[Item],
) -> Result<(), NoMemory>
    requires fine { IsWellFormed program.now }
    requires output { IsFineItem program.now output }
    requires used { All (IsFineItem program.now) used.now }
    ensures { OnOk result (Adds list.old list.new
        (λ m. SomeOf (λ i. (Contains said.now i → ⊥) × spec.TellsMissing program.now body.now place output i m) used.now)) }
{
    for item in used {
        append_unsaid_item(alloc, list, program, body, output, place, said, *item)?;
    }
    Ok(())
}

// Adds D02 on a pair, if it says that an output depends on an item on which it does not.
fn append_unused_pair(
    alloc: Global,
    list: &mut Items<Message>,
    program: &Program,
    body: &Body,
    output: Item,
    used: &ItemSet,
    pair: DependsPair,
) -> Result<(), NoMemory>
    requires fine { IsWellFormed program.now }
    requires output { IsFineItem program.now output }
    ensures { OnOk result (Adds list.old list.new (IsUnused program.now body.now output (Contains used.now) pair)) }
{
    match said_input(program, output, pair) {
        Some(item) if !used.has(item) => {
            append_unused_item(alloc, list, program, body, output, item, pair)
        }
        _ => Ok(()),
    }
}

fn append_unused_item(
    alloc: Global,
    list: &mut Items<Message>,
    program: &Program,
    body: &Body,
    output: Item,
    item: Item,
    pair: DependsPair,
) -> Result<(), NoMemory>
    requires fine { IsWellFormed program.now }
    requires output { IsFineItem program.now output }
    requires item { IsFineItem program.now item }
    ensures { OnOk result (Adds list.old list.new (TellsUnused program.now body.now pair output item)) }
{
    let output = item_name(program, output, body.object);
    let input = item_name(program, item, body.object);
    let text = unused_dependency_text(
        alloc,
        output.as_slice(),
        input.as_slice(),
        body.name.as_slice(),
    )?;
    note(list, warning_at(pair.place, Code::D02, text))
}

fn append_unused(
    alloc: Global,
    list: &mut Items<Message>,
    program: &Program,
    body: &Body,
    output: Item,
    used: &ItemSet,
    pairs: &[DependsPair],
) -> Result<(), NoMemory>
    requires fine { IsWellFormed program.now }
    requires output { IsFineItem program.now output }
    ensures { OnOk result (Adds list.old list.new
        (λ m. SomeOf (λ pair. IsUnused program.now body.now output (Contains used.now) pair m) pairs.now)) }
{
    for pair in pairs {
        append_unused_pair(alloc, list, program, body, output, used, *pair)?;
    }
    Ok(())
}

// Adds D01 and D02 on an item that depends on these.
fn append_wrong_pairs(
    alloc: Global,
    list: &mut Items<Message>,
    program: &Program,
    body: &Body,
    aspect: Span,
    pairs: &[DependsPair],
    output: Item,
    used: &ItemSet,
) -> Result<(), NoMemory>
    requires fine { IsWellFormed program.now }
    requires output { IsFineItem program.now output }
    requires used { All (IsFineItem program.now) used.now }
    ensures { OnOk result (Adds list.old list.new (IsWrongPair program.now body.now aspect pairs.now output (Contains used.now))) }
{
    let said = said_inputs(alloc, program, output, pairs)?;
    let place = first_place(program, aspect, pairs, output);
    append_unsaid_items(
        alloc,
        list,
        program,
        body,
        output,
        place,
        &said,
        used.as_slice(),
    )?;
    append_unused(alloc, list, program, body, output, used, pairs)
}

// The items on which an output depends, and nothing for what is none.
fn used_by(
    alloc: Global,
    program: &Program,
    rows: &Rows,
    number: BodyNo,
    body: &Body,
    outputs: &ItemSet,
    item: Item,
) -> Result<ItemSet, NoMemory>
    requires fine { IsWellFormed program.now }
    requires rows { AreRows rows.now }
    requires in_range { number.0 < length rows.now.layout.outer }
    requires item { IsFineItem program.now item }
    ensures set { IfOk result (λ items. (i : Item) → Contains items i
        ↔ (Contains outputs.now item × spec.IsUsed program.now rows.now number.0 body.now item i)) }
    ensures fine { IfOk result (λ items. All (IsFineItem program.now) items) }
{
    if outputs.has(item) {
        used_items(alloc, program, rows, number, body, item)
    } else {
        Ok(ItemSet::new(alloc))
    }
}

fn append_wrong_item(
    alloc: Global,
    list: &mut Items<Message>,
    program: &Program,
    rows: &Rows,
    number: BodyNo,
    body: &Body,
    contract: &Contract,
    outputs: &ItemSet,
    item: Item,
) -> Result<(), NoMemory>
    requires fine { IsWellFormed program.now }
    requires rows { AreRows rows.now }
    requires in_range { number.0 < length rows.now.layout.outer }
    requires item { IsFineItem program.now item }
    requires outputs { (i : Item) → Contains outputs.now i ↔ IsOn program.now number.0 body.now contract.now sides.Output i }
    ensures { OnOk result (Adds list.old list.new (IsWrongPair program.now body.now (spec.aspect_of contract.now)
        (spec.pairs_of contract.now) item (IsUsedPair program.now rows.now number.0 body.now contract.now item))) }
{
    let used = used_by(alloc, program, rows, number, body, outputs, item)?;
    let aspect = aspect_of(contract);
    append_wrong_pairs(
        alloc,
        list,
        program,
        body,
        aspect,
        pairs_of(contract),
        item,
        &used,
    )
}

fn append_wrong_items(
    alloc: Global,
    list: &mut Items<Message>,
    program: &Program,
    rows: &Rows,
    number: BodyNo,
    body: &Body,
    contract: &Contract,
    outputs: &ItemSet,
    items: &[Item],
) -> Result<(), NoMemory>
    requires fine { IsWellFormed program.now }
    requires rows { AreRows rows.now }
    requires in_range { number.0 < length rows.now.layout.outer }
    requires items { All (IsFineItem program.now) items.now }
    requires outputs { (i : Item) → Contains outputs.now i ↔ IsOn program.now number.0 body.now contract.now sides.Output i }
    ensures { OnOk result (Adds list.old list.new (λ m. SomeOf (λ o. IsWrongPair program.now body.now (spec.aspect_of contract.now)
        (spec.pairs_of contract.now) o (IsUsedPair program.now rows.now number.0 body.now contract.now o) m) items.now)) }
{
    for item in items {
        append_wrong_item(
            alloc, list, program, rows, number, body, contract, outputs, *item,
        )?;
    }
    Ok(())
}

// The outputs, and what pairs take for such.
fn lefts(
    alloc: Global,
    program: &Program,
    number: BodyNo,
    body: &Body,
    contract: &Contract,
) -> Result<ItemSet, NoMemory>
    requires fine { IsWellFormed program.now }
    requires body { IsFineBody program.now body.now }
    ensures set { IfOk result (λ items. (o : Item) → Contains items o ↔ (IsOn program.now number.0 body.now contract.now sides.Output o
        ⊎ SomeOf (λ pair. spec.item_at program.now pair.output ≡ Some o) (spec.pairs_of contract.now))) }
    ensures fine { IfOk result (λ items. All (IsFineItem program.now) items) }
{
    let mut items = items_on(alloc, program, number, body, contract, Side::Output)?;
    note_outputs(&mut items, program, pairs_of(contract))?;
    Ok(items)
}

// Adds D01 and D02.
pub fn append_dependencies(
    alloc: Global,
    list: &mut Items<Message>,
    program: &Program,
    rows: &Rows,
    number: BodyNo,
    body: &Body,
    contract: &Contract,
) -> Result<(), NoMemory>
    requires fine { IsWellFormed program.now }
    requires rows { AreRows rows.now }
    requires in_range { number.0 < length rows.now.layout.outer }
    requires body { IsFineBody program.now body.now }
    ensures { OnOk result (Adds list.old list.new (λ m. (o : Item) × IsWrongPair program.now body.now (spec.aspect_of contract.now)
        (spec.pairs_of contract.now) o (IsUsedPair program.now rows.now number.0 body.now contract.now o) m)) }
{
    let outputs = items_on(alloc, program, number, body, contract, Side::Output)?;
    let items = lefts(alloc, program, number, body, contract)?;
    append_wrong_items(
        alloc,
        list,
        program,
        rows,
        number,
        body,
        contract,
        &outputs,
        items.as_slice(),
    )
}
