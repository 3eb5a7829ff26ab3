ghost use Rattle.std.specs.Prelude.{◌≡◌, ℕ, ◌<◌, ◌↔◌, IfOk, OnOk, IsSomeAnd, IsTrue, Some, length, slice_get};
ghost use Rattle.core_form.specs.Fine.{IsFineItem, IsWellFormed};
ghost use Rattle.core_form.specs.declared.program.Item.{Item};
ghost use Rattle.core_form.specs.declared.program.Part.TheVariants as parts;
ghost use Rattle.flow_bits.specs.Sets.{Has};
ghost use Rattle.used_modes.specs.Added.{Adds, SomeOf};
ghost use Rattle.initializes_check.specs.InitializesCheck.{IsCandidate, IsHomeIn, IsListed, IsNotListed, IsOfNoObject, IsVisibleVar};

use crate::counts::{count_of, has_any, has_some};
use core_form::{Home, InitialItem, Item, Object, Part, Program, Sharing, Var};
use flow_bits::Row;
use spark_base::{Items, NoMemory, PackageNo, Span, VarNo};
use spark_messages::message_texts::unlisted_initial_text;
use spark_messages::{Code, Message};
use state_map::item_name;
use std::alloc::Global;
use used_modes::{note, warning_at};

// Whether a home is this package.
pub fn is_home_in(package: PackageNo, home: Home) -> bool
    ensures { IsTrue result ↔ IsHomeIn «package».0 home }
{
    match home {
        Home::Package(own) => own == package,
        Home::Local(_) | Home::Formal(_) | Home::Outcome(_) | Home::Spare(_) | Home::Clock => false,
    }
}

fn is_of_no_object(sharing: Sharing) -> bool
    ensures { IsTrue result ↔ IsOfNoObject sharing }
{
    match sharing {
        Sharing::Plain | Sharing::Atomic => true,
        Sharing::Component(_) | Sharing::ClockTime => false,
    }
}

// Whether a variable spans the components of an object.
fn is_object_var(objects: &[Object], var: VarNo) -> bool
    ensures { IsTrue result ↔ SomeOf (λ object. object.var.0 ≡ var.0) objects.now }
{
    for object in objects {
        if object.var == var {
            return true;
        }
    }
    false
}

// Whether a package has a variable in its visible part, and as no component of an object.
fn is_shown(package: PackageNo, var: &Var) -> bool
    ensures { IsTrue result ↔ (IsHomeIn «package».0 var.now.home × ((var.now.part ≡ parts.Visible) × IsOfNoObject var.now.sharing)) }
{
    is_home_in(package, var.home) && var.part == Part::Visible && is_of_no_object(var.sharing)
}

// Whether a package has it as a variable of its visible part, which is no object and no component of one.
fn is_visible_var(program: &Program, package: PackageNo, number: VarNo) -> bool
    ensures { IsTrue result ↔ IsSomeAnd (slice_get program.now.vars number.0)
        (λ var. IsVisibleVar program.now «package».0 number.0 var.home var.part var.sharing) }
{
    match program.vars.get(number.0 as usize) {
        Some(var) if is_shown(package, var) => {
            !is_object_var(program.objects.as_slice(), number)
        }
        _ => false,
    }
}

// Whether an Initializes is to list an item of a package.
fn is_candidate(
    alloc: Global,
    program: &Program,
    package: PackageNo,
    item: Item,
) -> Result<bool, NoMemory>
    requires fine { IsWellFormed program.now }
    requires item { IsFineItem program.now item }
    ensures { IfOk result (λ found. IsTrue found ↔ IsCandidate program.now «package».0 item) }
{
    match item {
        Item::State(state) => {
            if program.states.list.at(state as usize).package != package {
                return Ok(false);
            }
            has_any(alloc, program, item)
        }
        Item::Whole(var) => Ok(is_visible_var(program, package, var)),
        Item::Guard(_) => Ok(false),
    }
}

fn is_listed(program: &Program, items: &[InitialItem], item: Item) -> bool
    ensures { IsTrue result ↔ IsListed program.now items.now item }
{
    for listed in items {
        if program.items.get(listed.item.0 as usize) == Some(&item) {
            return true;
        }
    }
    false
}

// Adds I02 on an item.
fn append_unlisted_item(
    alloc: Global,
    list: &mut Items<Message>,
    program: &Program,
    unset: &Row,
    number: PackageNo,
    place: Span,
    items: &[InitialItem],
    item: Item,
) -> Result<(), NoMemory>
    requires fine { IsWellFormed program.now }
    requires size { length unset.now ≡ length program.now.leaves }
    requires item { IsFineItem program.now item }
    ensures { OnOk result (Adds list.old list.new (IsNotListed program.now (Has unset.now) number.0 (Some place) items.now item)) }
{
    if is_listed(program, items, item) {
        return Ok(());
    }
    let candidate = is_candidate(alloc, program, number, item)?;
    if !candidate {
        return Ok(());
    }
    let lacks = has_some(alloc, program, item, unset)?;
    if lacks {
        return Ok(());
    }
    let name = item_name(program, item, None);
    let text = unlisted_initial_text(alloc, name.as_slice())?;
    note(list, warning_at(place, Code::I02, text))
}

fn append_unlisted_states(
    alloc: Global,
    list: &mut Items<Message>,
    program: &Program,
    unset: &Row,
    number: PackageNo,
    place: Span,
    items: &[InitialItem],
) -> Result<(), NoMemory>
    requires fine { IsWellFormed program.now }
    requires size { length unset.now ≡ length program.now.leaves }
    ensures { OnOk result (Adds list.old list.new (λ m. (s : ℕ) ×
        IsNotListed program.now (Has unset.now) number.0 (Some place) items.now (Item.State s) m)) }
{
    let count = count_of(program.states.list.len())?;
    for state in 0..count {
        let item = Item::State(state);
        append_unlisted_item(alloc, list, program, unset, number, place, items, item)?;
    }
    Ok(())
}

fn append_unlisted_vars(
    alloc: Global,
    list: &mut Items<Message>,
    program: &Program,
    unset: &Row,
    number: PackageNo,
    place: Span,
    items: &[InitialItem],
) -> Result<(), NoMemory>
    requires fine { IsWellFormed program.now }
    requires size { length unset.now ≡ length program.now.leaves }
    ensures { OnOk result (Adds list.old list.new (λ m. (v : ℕ) ×
        IsNotListed program.now (Has unset.now) number.0 (Some place) items.now (Item.Whole (record { 0 = v })) m)) }
{
    let count = count_of(program.vars.len())?;
    for var in 0..count {
        let item = Item::Whole(VarNo(var));
        append_unlisted_item(alloc, list, program, unset, number, place, items, item)?;
    }
    Ok(())
}

// Adds I02, where the Initializes is written.
pub fn append_unlisted(
    alloc: Global,
    list: &mut Items<Message>,
    program: &Program,
    unset: &Row,
    number: PackageNo,
    written: Option<Span>,
    items: &[InitialItem],
) -> Result<(), NoMemory>
    requires fine { IsWellFormed program.now }
    requires size { length unset.now ≡ length program.now.leaves }
    ensures { OnOk result (Adds list.old list.new (λ m. (item : Item) ×
        IsNotListed program.now (Has unset.now) number.0 written items.now item m)) }
{
    match written {
        Some(place) => {
            append_unlisted_states(alloc, list, program, unset, number, place, items)?;
            append_unlisted_vars(alloc, list, program, unset, number, place, items)
        }
        None => Ok(()),
    }
}
