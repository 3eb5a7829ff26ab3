ghost use Rattle.std.specs.Prelude.{◌≡◌, ◌↔◌, Some, OnOk, IfOk, IsTrue};
ghost use Rattle.std.specs.List.{Contains};
ghost use Rattle.core_form.specs.declared.program.Item.{Item};
ghost use Rattle.used_modes.specs.Added.{Adds, SomeOf};
ghost use Rattle.depends_check.specs.DependsCheck as spec;
ghost use Rattle.depends_check.specs.DependsCheck.{IsFirstPlace, IsMentioned, IsSaid};
ghost use Rattle.depends_check.specs.declared.sides.Side.TheVariants as sides;

use crate::item_sets::ItemSet;
use crate::sides::Side;
use core_form::{DependsPair, Item, Program};
use spark_base::{ItemNo, NoMemory, Span};
use std::alloc::Global;

pub fn item_at(program: &Program, number: Option<ItemNo>) -> Option<Item>
    ensures { result ≡ spec.item_at program.now number }
{
    match number {
        Some(number) => program.items.get(number.0 as usize).copied(),
        None => None,
    }
}

// For which mention on a side a pair stands.
pub fn mention(program: &Program, side: Side, pair: DependsPair) -> Option<Item>
    ensures { result ≡ spec.mention program.now side pair }
{
    match (side, pair.input) {
        (Side::Input, input) => item_at(program, input),
        (Side::Output, None) => item_at(program, pair.output),
        (Side::Output, Some(_)) => None,
    }
}

// The items that are mentioned on a side.
pub fn mentioned(
    alloc: Global,
    program: &Program,
    side: Side,
    pairs: &[DependsPair],
) -> Result<ItemSet, NoMemory>
    ensures { IfOk result (λ items. (i : Item) → Contains items i ↔ IsMentioned program.now side pairs.now i) }
{
    let mut items = ItemSet::new(alloc);
    for pair in pairs {
        items.note_some(mention(program, side, *pair))?;
    }
    Ok(items)
}

// Adds the outputs of pairs.
pub fn note_outputs(
    items: &mut ItemSet,
    program: &Program,
    pairs: &[DependsPair],
) -> Result<(), NoMemory>
    ensures { OnOk result (Adds items.old items.new (λ o. SomeOf (λ pair. spec.item_at program.now pair.output ≡ Some o) pairs.now)) }
{
    for pair in pairs {
        items.note_some(item_at(program, pair.output))?;
    }
    Ok(())
}

// The item on which a pair says that an output depends.
pub fn said_input(program: &Program, output: Item, pair: DependsPair) -> Option<Item>
    ensures { (i : Item) → (result ≡ Some i) ↔ IsSaid program.now output pair i }
{
    match item_at(program, pair.output) {
        Some(item) if item == output => item_at(program, pair.input),
        _ => None,
    }
}

// The items on which the pairs say that an output depends.
pub fn said_inputs(
    alloc: Global,
    program: &Program,
    output: Item,
    pairs: &[DependsPair],
) -> Result<ItemSet, NoMemory>
    ensures { IfOk result (λ items. (i : Item) → Contains items i ↔ SomeOf (λ pair. IsSaid program.now output pair i) pairs.now) }
{
    let mut items = ItemSet::new(alloc);
    for pair in pairs {
        items.note_some(said_input(program, output, *pair))?;
    }
    Ok(items)
}

fn is_mention(program: &Program, output: Item, pair: DependsPair) -> bool
    ensures { IsTrue result ↔ (spec.mention program.now sides.Output pair ≡ Some output) }
{
    match mention(program, Side::Output, pair) {
        Some(item) => item == output,
        None => false,
    }
}

// The place of the first mention of an output, or that of the aspect's name.
pub fn first_place(program: &Program, aspect: Span, pairs: &[DependsPair], output: Item) -> Span
    ensures { IsFirstPlace program.now aspect pairs.now output result }
{
    for pair in pairs {
        if is_mention(program, output, *pair) {
            return pair.place;
        }
    }
    aspect
}
