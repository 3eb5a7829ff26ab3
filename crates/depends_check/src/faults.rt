ghost use Rattle.std.specs.Prelude.{◌≡◌, ℕ, Some, All, OnOk, IfOk, IsSomeAnd};
ghost use Rattle.std.specs.List.{Contains};
ghost use Rattle.core_form.specs.Fine.{IsFineBody, IsFineItem, IsWellFormed};
ghost use Rattle.core_form.specs.declared.program.Item.{Item};
ghost use Rattle.used_modes.specs.Added.{Adds, SomeOf};
ghost use Rattle.depends_check.specs.DependsCheck as spec;
ghost use Rattle.depends_check.specs.DependsCheck.{IsDoubled, IsOn, IsStranger, IsWrongSide, TellsFault};
ghost use Rattle.depends_check.specs.declared.faults.Fault.TheVariants as faults;
ghost use Rattle.depends_check.specs.declared.sides.Side.TheVariants as sides;

use crate::checked::{aspect_of, pairs_of};
use crate::item_sets::ItemSet;
use crate::mentions::{mention, mentioned};
use crate::sides::{Side, items_on};
use core_form::{Body, Contract, DependsPair, Item, Program};
use spark_base::{BodyNo, Bytes, Items, NoMemory, Span};
use spark_messages::message_texts::{
    doubled_output_text, missing_input_text, missing_output_text, no_input_text, no_output_text,
};
use spark_messages::{Code, Message};
use state_map::item_name;
use std::alloc::Global;
use used_modes::{error_at, note};

/// What may be wrong with an item of a Depends: it stands on the left once more, on a side to which it does not belong, or
/// not on one to which it does.
#[derive(Clone, Copy, Debug, PartialEq, Eq)]
pub enum Fault {
    Doubled,
    Stranger(Side),
    Absent(Side),
}

fn fault_text(alloc: Global, fault: Fault, name: &[u8]) -> Result<Bytes, NoMemory>
    ensures { IfOk result (λ text. text ≡ spec.fault_text fault name.now) }
{
    match fault {
        Fault::Doubled => doubled_output_text(alloc, name),
        Fault::Stranger(Side::Input) => no_input_text(alloc, name),
        Fault::Stranger(Side::Output) => no_output_text(alloc, name),
        Fault::Absent(Side::Input) => missing_input_text(alloc, name),
        Fault::Absent(Side::Output) => missing_output_text(alloc, name),
    }
}

// Adds D03 on an item.
fn append_fault(
    alloc: Global,
    list: &mut Items<Message>,
    program: &Program,
    body: &Body,
    fault: Fault,
    place: Span,
    item: Item,
) -> Result<(), NoMemory>
    requires fine { IsWellFormed program.now }
    requires item { IsFineItem program.now item }
    ensures { OnOk result (Adds list.old list.new (TellsFault program.now body.now fault place item)) }
{
    let name = item_name(program, item, body.object);
    let text = fault_text(alloc, fault, name.as_slice())?;
    note(list, error_at(place, Code::D03, text))
}

// Adds D03 on a mention that is there once more.
fn append_doubled_mention(
    alloc: Global,
    list: &mut Items<Message>,
    program: &Program,
    body: &Body,
    before: &ItemSet,
    pair: DependsPair,
) -> Result<(), NoMemory>
    requires fine { IsWellFormed program.now }
    ensures { OnOk result (Adds list.old list.new (λ m. IsSomeAnd (spec.mention program.now sides.Output pair)
        (λ o. Contains before.now o × TellsFault program.now body.now faults.Doubled pair.place o m))) }
{
    match mention(program, Side::Output, pair) {
        Some(item) if before.has(item) => append_fault(
            alloc,
            list,
            program,
            body,
            Fault::Doubled,
            pair.place,
            item,
        ),
        _ => Ok(()),
    }
}

fn append_doubled(
    alloc: Global,
    list: &mut Items<Message>,
    program: &Program,
    body: &Body,
    pairs: &[DependsPair],
) -> Result<(), NoMemory>
    requires fine { IsWellFormed program.now }
    ensures { OnOk result (Adds list.old list.new (λ m. (k : ℕ) × IsDoubled program.now body.now pairs.now k m)) }
{
    let mut before = ItemSet::new(alloc);
    for pair in pairs {
        append_doubled_mention(alloc, list, program, body, &before, *pair)?;
        before.note_some(mention(program, Side::Output, *pair))?;
    }
    Ok(())
}

// Adds D03 on a mention on a side where these items belong.
fn append_stranger(
    alloc: Global,
    list: &mut Items<Message>,
    program: &Program,
    body: &Body,
    side: Side,
    items: &ItemSet,
    pair: DependsPair,
) -> Result<(), NoMemory>
    requires fine { IsWellFormed program.now }
    ensures { OnOk result (Adds list.old list.new (IsStranger program.now body.now side (Contains items.now) pair)) }
{
    match mention(program, side, pair) {
        Some(item) if !items.has(item) => append_fault(
            alloc,
            list,
            program,
            body,
            Fault::Stranger(side),
            pair.place,
            item,
        ),
        _ => Ok(()),
    }
}

fn append_strangers(
    alloc: Global,
    list: &mut Items<Message>,
    program: &Program,
    body: &Body,
    side: Side,
    items: &ItemSet,
    pairs: &[DependsPair],
) -> Result<(), NoMemory>
    requires fine { IsWellFormed program.now }
    ensures { OnOk result (Adds list.old list.new
        (λ m. SomeOf (λ pair. IsStranger program.now body.now side (Contains items.now) pair m) pairs.now)) }
{
    for pair in pairs {
        append_stranger(alloc, list, program, body, side, items, *pair)?;
    }
    Ok(())
}

// Adds D03 on an item, unless it is mentioned.
fn append_absent_item(
    alloc: Global,
    list: &mut Items<Message>,
    program: &Program,
    body: &Body,
    side: Side,
    aspect: Span,
    mentioned: &ItemSet,
    item: Item,
) -> Result<(), NoMemory>
    requires fine { IsWellFormed program.now }
    requires item { IsFineItem program.now item }
    ensures { OnOk result (Adds list.old list.new
        (λ m. (Contains mentioned.now item → ⊥) × TellsFault program.now body.now (faults.Absent side) aspect item m)) }
{
    if mentioned.has(item) {
        return Ok(());
    }
    append_fault(
        alloc,
        list,
        program,
        body,
        Fault::Absent(side),
        aspect,
        item,
    )
}

fn append_absent(
    alloc: Global,
    list: &mut Items<Message>,
    program: &Program,
    body: &Body,
    side: Side,
    aspect: Span,
    mentioned: &ItemSet,
    items: &[Item],
) -> Result<(), NoMemory>
    requires fine { IsWellFormed program.now }
    requires items { All (IsFineItem program.now) items.now }
    ensures { OnOk result (Adds list.old list.new
        (λ m. SomeOf (λ i. (Contains mentioned.now i → ⊥)
        × TellsFault program.now body.now (faults.Absent side) aspect i m) items.now)) }
{
    for item in items {
        append_absent_item(alloc, list, program, body, side, aspect, mentioned, *item)?;
    }
    Ok(())
}

// Adds D03 on a side where these items belong.
fn append_wrong_mentions(
    alloc: Global,
    list: &mut Items<Message>,
    program: &Program,
    body: &Body,
    side: Side,
    aspect: Span,
    pairs: &[DependsPair],
    items: &ItemSet,
) -> Result<(), NoMemory>
    requires fine { IsWellFormed program.now }
    requires items { All (IsFineItem program.now) items.now }
    ensures { OnOk result (Adds list.old list.new (IsWrongSide program.now body.now side (Contains items.now) aspect pairs.now)) }
{
    let mentioned = mentioned(alloc, program, side, pairs)?;
    append_strangers(alloc, list, program, body, side, items, pairs)?;
    append_absent(
        alloc,
        list,
        program,
        body,
        side,
        aspect,
        &mentioned,
        items.as_slice(),
    )
}

fn append_wrong_side(
    alloc: Global,
    list: &mut Items<Message>,
    program: &Program,
    number: BodyNo,
    body: &Body,
    contract: &Contract,
    side: Side,
) -> Result<(), NoMemory>
    requires fine { IsWellFormed program.now }
    requires body { IsFineBody program.now body.now }
    ensures { OnOk result (Adds list.old list.new (IsWrongSide program.now body.now side
        (IsOn program.now number.0 body.now contract.now side) (spec.aspect_of contract.now) (spec.pairs_of contract.now))) }
{
    let items = items_on(alloc, program, number, body, contract, side)?;
    let aspect = aspect_of(contract);
    append_wrong_mentions(
        alloc,
        list,
        program,
        body,
        side,
        aspect,
        pairs_of(contract),
        &items,
    )
}

// Adds D03.
pub fn append_faults(
    alloc: Global,
    list: &mut Items<Message>,
    program: &Program,
    number: BodyNo,
    body: &Body,
    contract: &Contract,
) -> Result<(), NoMemory>
    requires fine { IsWellFormed program.now }
    requires body { IsFineBody program.now body.now }
    ensures { OnOk result (Adds list.old list.new (spec.IsWrongItem program.now number.0 body.now contract.now)) }
{
    append_doubled(alloc, list, program, body, pairs_of(contract))?;
    append_wrong_side(alloc, list, program, number, body, contract, Side::Input)?;
    append_wrong_side(alloc, list, program, number, body, contract, Side::Output)
}
