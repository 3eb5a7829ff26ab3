ghost use Rattle.std.specs.Prelude.{◌≡◌, ◌↔◌, Some, OnOk, IfOk, IsTrue};
ghost use Rattle.std.specs.List.{Contains};
ghost use Rattle.core_form.specs.declared.program.Item.{Item};
ghost use Rattle.used_modes.specs.Added.{Adds, SomeOf};
ghost use Rattle.global_check.specs.GlobalCheck.{IsResultHome};
ghost use Rattle.depends_check.specs.DependsCheck as spec;
ghost use Rattle.depends_check.specs.DependsCheck.{IsFormalOn, IsGlobalOn, IsOn, IsOwn, IsResult};

use crate::item_sets::ItemSet;
use core_form::{
    Body, BodyKind, Contract, Formal, GlobalItem, Home, Item, Mode, ParamMode, Program,
};
use spark_base::{BodyNo, NoMemory};
use std::alloc::Global;

/// The sides of a Depends: inputs stand on the right, outputs on the left.
#[derive(Clone, Copy, Debug, PartialEq, Eq)]
pub enum Side {
    Input,
    Output,
}

fn passes_mode(side: Side, mode: Mode) -> bool
    ensures { result ≡ spec.passes_mode side mode }
{
    match side {
        Side::Input => mode == Mode::Input || mode == Mode::InOut,
        Side::Output => mode == Mode::Output || mode == Mode::InOut,
    }
}

fn passes_formal(side: Side, mode: ParamMode) -> bool
    ensures { result ≡ spec.passes_formal side mode }
{
    match side {
        Side::Input => mode != ParamMode::Out,
        Side::Output => mode != ParamMode::In,
    }
}

fn global_on(program: &Program, side: Side, global: GlobalItem) -> Option<Item>
    ensures { (i : Item) → (result ≡ Some i) ↔ IsGlobalOn program.now side global i }
{
    if !passes_mode(side, global.mode) {
        return None;
    }
    program.items.get(global.item.0 as usize).copied()
}

fn note_globals(
    items: &mut ItemSet,
    program: &Program,
    side: Side,
    globals: &[GlobalItem],
) -> Result<(), NoMemory>
    ensures { OnOk result (Adds items.old items.new (λ i. SomeOf (λ g. IsGlobalOn program.now side g i) globals.now)) }
{
    for global in globals {
        items.note_some(global_on(program, side, *global))?;
    }
    Ok(())
}

fn formal_on(side: Side, formal: Formal) -> Option<Item>
    ensures { (i : Item) → (result ≡ Some i) ↔ IsFormalOn side formal i }
{
    if passes_formal(side, formal.mode) {
        Some(Item::Whole(formal.var))
    } else {
        None
    }
}

fn note_formals(items: &mut ItemSet, side: Side, formals: &[Formal]) -> Result<(), NoMemory>
    ensures { OnOk result (Adds items.old items.new (λ i. SomeOf (λ f. IsFormalOn side f i) formals.now)) }
{
    for formal in formals {
        items.note_some(formal_on(side, *formal))?;
    }
    Ok(())
}

fn is_result_home(body: BodyNo, home: Home) -> bool
    ensures { IsTrue result ↔ IsResultHome body.0 home }
{
    match home {
        Home::Outcome(of) => of == body,
        Home::Package(_) | Home::Local(_) | Home::Formal(_) | Home::Spare(_) | Home::Clock => false,
    }
}

fn is_result(program: &Program, body: BodyNo, side: Side, item: Item) -> bool
    ensures { IsTrue result ↔ IsResult program.now body.0 side item }
{
    match (side, item) {
        (Side::Output, Item::Whole(var)) => match program.vars.get(var.0 as usize) {
            Some(var) => is_result_home(body, var.home),
            None => false,
        },
        _ => false,
    }
}

fn result_on(program: &Program, body: BodyNo, side: Side, item: Item) -> Option<Item>
    ensures { (i : Item) → (result ≡ Some i) ↔ (IsResult program.now body.0 side item × (i ≡ item)) }
{
    if is_result(program, body, side, item) {
        Some(item)
    } else {
        None
    }
}

fn note_results(
    items: &mut ItemSet,
    program: &Program,
    body: BodyNo,
    side: Side,
) -> Result<(), NoMemory>
    ensures { OnOk result (Adds items.old items.new
        (λ i. SomeOf (λ j. IsResult program.now body.0 side j × (i ≡ j)) program.now.items)) }
{
    let all = program.items.as_slice();
    for item in all {
        items.note_some(result_on(program, body, side, *item))?;
    }
    Ok(())
}

fn has_own(side: Side, kind: BodyKind) -> bool
    ensures { result ≡ spec.has_own side kind }
{
    side == Side::Input || kind != BodyKind::Function
}

fn own_on(body: &Body, side: Side) -> Option<Item>
    ensures { (i : Item) → (result ≡ Some i) ↔ IsOwn body.now side i }
{
    if !has_own(side, body.kind) {
        return None;
    }
    match body.object {
        Some(object) => Some(Item::Guard(object)),
        None => None,
    }
}

// The inputs or outputs of a body, by the Global of its Depends.
pub fn items_on(
    alloc: Global,
    program: &Program,
    number: BodyNo,
    body: &Body,
    contract: &Contract,
    side: Side,
) -> Result<ItemSet, NoMemory>
    ensures { IfOk result (λ items. (i : Item) → Contains items i ↔ IsOn program.now number.0 body.now contract.now side i) }
{
    let mut items = ItemSet::new(alloc);
    note_globals(&mut items, program, side, contract.globals.as_slice())?;
    note_formals(&mut items, side, body.formals.as_slice())?;
    note_results(&mut items, program, number, side)?;
    items.note_some(own_on(body, side))?;
    Ok(items)
}
