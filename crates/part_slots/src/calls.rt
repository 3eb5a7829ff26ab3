//! The arguments of calls, conversions, indexes and attributes.
ghost use Rattle.std.specs.Prelude.{◌≡◌, [], ◌∷◌, if◌then◌else◌, false, not, is_some, IfOk, OnOk, Some, map, replicate};
ghost use Rattle.std.specs.Option.{option_copied};
ghost use Rattle.ada_forms.specs.Forms.{expr_of};
ghost use Rattle.expr_outlines.specs.Outlines as outlines;
ghost use Rattle.part_slots.specs.Calls as spec;
ghost use Rattle.part_slots.specs.declared.slots.Slot.TheVariants.{Given, Whole};
ghost use Rattle.seen_types.specs.declared.seen.ExprType.TheVariants.{Of};
ghost use Rattle.seen_types.specs.Types as types;

use crate::slots::Slot;
use ada_forms::{ExprForm, expr_form};
use ada_tree::Units;
use expr_outlines::is_aggregate;
use indexmap::IndexSet;
use name_keys::KeyMap;
use seen_names::{Application, Callable, FormalSeen, Gift, Tables, is_unit_name};
use seen_types::{ExprType, INTEGER};
use spark_base::{ExprNo, Items, Name, NoMemory, TypeNo};
use std::alloc::Global;

fn maybe_of(t: Option<TypeNo>) -> Option<ExprType>
    ensures { result ≡ types.maybe_of t }
{
    match t {
        None => None,
        Some(t) => Some(ExprType::Of(t)),
    }
}

/// Whether an argument has the name of a formal.
fn is_named(units: &Units, argument: ExprNo) -> bool
    ensures { result ≡ outlines.is_named_argument (expr_of units.now.exprs argument) }
{
    match expr_form(units, argument).form {
        ExprForm::NamedArgument { .. } => true,
        _ => false,
    }
}

fn name_of(units: &Units, e: ExprNo) -> Option<&Name>
    ensures { option_copied result ≡ outlines.name_of (expr_of units.now.exprs e) }
{
    match expr_form(units, e).form {
        ExprForm::Identifier(name) => Some(name),
        _ => None,
    }
}

/// The name of the formal that an argument has.
fn formal_name(units: &Units, argument: ExprNo) -> Option<&Name>
    ensures { option_copied result ≡ outlines.formal_name (expr_of units.now.exprs argument) }
{
    match expr_form(units, argument).form {
        ExprForm::NamedArgument { formal, .. } => name_of(units, formal),
        _ => None,
    }
}

fn place_named(tables: &Tables, formals: &KeyMap<FormalSeen>, name: Option<&Name>) -> Option<usize>
    ensures { result ≡ spec.place_named tables.now formals.now (option_copied name.entry) }
{
    match name {
        None => None,
        Some(name) => match tables.key_of(name) {
            None => None,
            Some(key) => formals.place_of(key),
        },
    }
}

fn place_of(
    units: &Units,
    tables: &Tables,
    formals: &KeyMap<FormalSeen>,
    k: usize,
    argument: ExprNo,
) -> Option<usize>
    ensures { result ≡ spec.place_of tables.now formals.now k (expr_of units.now.exprs argument) }
{
    if is_named(units, argument) {
        place_named(tables, formals, formal_name(units, argument))
    } else if k < formals.len() {
        Some(k)
    } else {
        None
    }
}

fn unless_taken(taken: &IndexSet<usize>, place: Option<usize>) -> Option<usize>
    ensures { result ≡ spec.unless_taken taken.now.keys place }
{
    match place {
        None => None,
        Some(place) => {
            if taken.contains(&place) {
                None
            } else {
                Some(place)
            }
        }
    }
}

fn formal_slot(formal: FormalSeen) -> Slot
    ensures { result ≡ spec.formal_slot formal }
{
    if formal.is_written {
        Slot::Target(formal.of)
    } else {
        Slot::Given(maybe_of(formal.of))
    }
}

fn slot_for(formals: &KeyMap<FormalSeen>, place: Option<usize>) -> Slot
    ensures { result ≡ spec.slot_for formals.now place }
{
    match place {
        None => Slot::Alone,
        Some(place) => match formals.at(place) {
            None => Slot::Alone,
            Some((_, formal)) => formal_slot(formal),
        },
    }
}

/// Notes that a formal has its actual.
fn take(taken: &mut IndexSet<usize>, place: Option<usize>) -> Result<(), NoMemory>
    ensures { OnOk result (taken.new.keys ≡ spec.with_taken taken.old.keys place) }
{
    if let Some(place) = place {
        let _ = taken.insert(place)?;
    }
    Ok(())
}

/// Whether an argument without a name stands behind one that has one.
fn are_disordered(units: &Units, arguments: &[ExprNo]) -> bool
    ensures { result ≡ spec.is_disordered false (map (expr_of units.now.exprs) arguments.now) }
{
    let mut is_behind_named = false;
    for argument in arguments {
        let is_named = is_named(units, *argument);
        if is_behind_named && !is_named {
            return true;
        }
        is_behind_named = is_behind_named || is_named;
    }
    false
}

/// The arguments of a call.
#[derive(Debug, Drop)]
pub struct Actuals {
    /// A slot for each, in their order.
    pub slots: Items<Slot>,
    /// Whether one is behind named ones without a name, has no formal of its own, or is missing.
    pub are_wrong: bool,
}

/// The slots of the actuals of a call, and whether they are not those that these formals ask for. It takes constant time
/// for each actual.
pub fn actuals_of(
    alloc: Global,
    units: &Units,
    tables: &Tables,
    formals: &KeyMap<FormalSeen>,
    arguments: &[ExprNo],
) -> Result<Actuals, NoMemory>
    ensures slots { IfOk result (λ a. a.slots ≡ spec.actual_slots tables.now formals.now 0 [] (map (expr_of units.now.exprs) arguments.now)) }
    ensures wrong { IfOk result (λ a. a.are_wrong ≡ spec.are_wrong tables.now formals.now (map (expr_of units.now.exprs) arguments.now)) }
{
    let mut slots = Items::new(alloc);
    let mut taken = IndexSet::new(alloc);
    let mut has_stray = false;
    for (k, argument) in arguments.iter().enumerate() {
        let place = unless_taken(&taken, place_of(units, tables, formals, k, *argument));
        slots.push(slot_for(formals, place))?;
        has_stray = has_stray || place.is_none();
        take(&mut taken, place)?;
    }
    Ok(Actuals {
        slots,
        are_wrong: are_disordered(units, arguments) || has_stray || taken.len() != formals.len(),
    })
}

/// Whether there is one argument, without a name.
fn is_only(units: &Units, arguments: &[ExprNo]) -> bool
    ensures { result ≡ is_some (outlines.only_argument (map (expr_of units.now.exprs) arguments.now)) }
{
    match arguments {
        [argument] => match expr_form(units, *argument).form {
            ExprForm::Argument { .. } => true,
            _ => false,
        },
        _ => false,
    }
}

/// Whether there is one argument, without a name and no aggregate.
pub fn has_value(units: &Units, arguments: &[ExprNo]) -> bool
    ensures { result ≡ spec.has_value (map (expr_of units.now.exprs) arguments.now) }
{
    match arguments {
        [argument] => match expr_form(units, *argument).form {
            ExprForm::Argument { value } => !is_aggregate(units, value),
            _ => false,
        },
        _ => false,
    }
}

/// Whether the formal of a function that makes so many nanoseconds of each unit has this name.
fn is_unit(units: &Units, factor: i128, formal: ExprNo) -> bool
    ensures { result ≡ spec.is_unit factor (expr_of units.now.exprs formal) }
{
    match name_of(units, formal) {
        None => false,
        Some(name) => is_unit_name(factor, name.written.as_slice()),
    }
}

/// Whether there is one argument, without a name or by that of the formal of a function that makes so many nanoseconds of
/// each unit.
fn is_one_unit(units: &Units, factor: i128, arguments: &[ExprNo]) -> bool
    ensures { result ≡ spec.is_one_unit factor (map (expr_of units.now.exprs) arguments.now) }
{
    match arguments {
        [argument] => match expr_form(units, *argument).form {
            ExprForm::Argument { .. } => true,
            ExprForm::NamedArgument { formal, .. } => is_unit(units, factor, formal),
            _ => false,
        },
        _ => false,
    }
}

/// One argument in this slot, where there is one that fits; else it is wrong.
fn one_if(alloc: Global, holds: bool, slot: Slot) -> Result<Actuals, NoMemory>
    ensures slots { IfOk result (λ a. a.slots ≡ (if holds then slot ∷ [] else [])) }
    ensures wrong { IfOk result (λ a. a.are_wrong ≡ not holds) }
{
    let mut slots = Items::new(alloc);
    if holds {
        slots.push(slot)?;
    }
    Ok(Actuals {
        slots,
        are_wrong: !holds,
    })
}

fn no_slots(alloc: Global, are_wrong: bool) -> Actuals
    ensures slots { result.slots ≡ [] }
    ensures wrong { result.are_wrong ≡ are_wrong }
{
    Actuals {
        slots: Items::new(alloc),
        are_wrong,
    }
}

fn actuals_for(
    alloc: Global,
    units: &Units,
    tables: &Tables,
    callable: Option<&Callable>,
    arguments: &[ExprNo],
) -> Result<Actuals, NoMemory>
    ensures slots { IfOk result (λ a. a.slots ≡ spec.slots_for tables.now (option_copied callable.entry) (map (expr_of units.now.exprs) arguments.now)) }
    ensures wrong { IfOk result (λ a. a.are_wrong ≡ spec.are_wrong_for tables.now (option_copied callable.entry) (map (expr_of units.now.exprs) arguments.now)) }
{
    match callable {
        None => Ok(no_slots(alloc, false)),
        Some(callable) => actuals_of(alloc, units, tables, &callable.formals, arguments),
    }
}

/// The slots of what stands in parentheses behind a prefix, and whether the arguments are not those that are asked for: of a
/// conversion and an index one without a name, of a call those of its formals, of `Clock` none.
#[tactic(auto, unfolding(crate::specs::Calls::argument_slots, crate::specs::Calls::are_unfit))]
pub fn arranged(
    alloc: Global,
    units: &Units,
    tables: &Tables,
    application: Application,
    arguments: &[ExprNo],
) -> Result<Actuals, NoMemory>
    ensures slots { IfOk result (λ a. a.slots ≡ spec.argument_slots tables.now application (map (expr_of units.now.exprs) arguments.now)) }
    ensures wrong { IfOk result (λ a. a.are_wrong ≡ spec.are_unfit tables.now application (map (expr_of units.now.exprs) arguments.now)) }
{
    match application {
        Application::Conversion(_) => { one_if(alloc, is_only(units, arguments), Slot::Plain) }
        Application::Call(_, _, number) => {
            actuals_for(alloc, units, tables, tables.callable(number), arguments)
        }
        Application::ClockCall(_) => Ok(no_slots(alloc, true)),
        Application::ProductCall(_, factor) => {
            let integer = Slot::Given(Some(ExprType::Of(INTEGER)));
            one_if(alloc, is_one_unit(units, factor, arguments), integer)
        }
        Application::Index(_, index, _) => {
            let slot = Slot::Given(Some(ExprType::Of(index)));
            one_if(alloc, is_only(units, arguments), slot)
        }
        _ => Ok(no_slots(alloc, false)),
    }
}

/// So many values of this type.
pub(crate) fn given_each(alloc: Global, t: TypeNo, count: usize) -> Result<Items<Slot>, NoMemory>
    ensures { IfOk result (λ s. s ≡ replicate count (Given (Some (Of t)))) }
{
    let mut slots = Items::new(alloc);
    for _ in 0..count {
        slots.push(Slot::Given(Some(ExprType::Of(t))))?;
    }
    Ok(slots)
}

fn whole_each(alloc: Global, count: usize) -> Result<Items<Slot>, NoMemory>
    ensures { IfOk result (λ s. s ≡ replicate count Whole) }
{
    let mut slots = Items::new(alloc);
    for _ in 0..count {
        slots.push(Slot::Whole)?;
    }
    Ok(slots)
}

/// The slots of so many arguments of an attribute.
#[tactic(auto, unfolding(crate::specs::Calls::gift_slots))]
pub fn gift_slots(alloc: Global, gift: Gift, count: usize) -> Result<Items<Slot>, NoMemory>
    ensures { IfOk result (λ s. s ≡ spec.gift_slots gift count) }
{
    match gift {
        Gift::OfValues(t, _) => given_each(alloc, t, count),
        Gift::OfPosition(_) => whole_each(alloc, count),
        _ => Ok(Items::new(alloc)),
    }
}
