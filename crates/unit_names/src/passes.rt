//! The passes over the names of all units, each in the order of the units.
ghost use Rattle.std.specs.Prelude.{◌≡◌, ◌&&◌, ◌||◌, List, IfOk};
ghost use Rattle.unit_names.specs.Names.{first, first_absent, first_unseen, is_bodiless, is_doubled, is_main, is_second, name_fault_of, unseen_in};
ghost use Rattle.std.specs.Option.{option_map};
ghost use Rattle.unit_names.specs.Seen.{IsSeen};
ghost use Rattle.unit_names.specs.declared.heads.Head.{Head as TheHead};
ghost use Rattle.unit_names.specs.declared.passes.UnitFault.TheVariants as faults;

use crate::heads::{Head, Withed};
use crate::seen::Seen;
use spark_base::NoMemory;
use std::alloc::Global;

/// What is wrong with the names of units. A unit is known by its place among all units, from 0.
#[derive(Clone, Copy, Debug, PartialEq, Eq)]
pub enum UnitFault {
    /// The name of this unit is declared twice.
    Doubled { unit: usize },
    /// This unit is a second main.
    SecondMain { unit: usize },
    /// What this unit names at this place of its with clauses, from 0, is not there.
    Unseen { unit: usize, with: usize },
    /// This unit is a body without a spec.
    WithoutSpec { unit: usize },
}

fn first_doubled(alloc: Global, units: &[Head]) -> Result<Option<usize>, NoMemory>
    ensures { IfOk result (λ unit. unit ≡ first is_doubled units.now) }
{
    let mut seen = Seen::new(alloc);
    for number in 0..units.len() {
        let head = &units[number];
        if seen.doubles(head) {
            return Ok(Some(number));
        }
        seen.note(head)?;
    }
    Ok(None)
}

fn seen_of(alloc: Global, units: &[Head]) -> Result<Seen, NoMemory>
    ensures { IfOk result (λ seen. IsSeen seen units.now) }
{
    let mut seen = Seen::new(alloc);
    for number in 0..units.len() {
        let head = &units[number];
        seen.note(head)?;
    }
    Ok(seen)
}

/// Whether a unit is a main behind another.
fn is_second(has_main: bool, head: &Head) -> bool
    ensures { result ≡ (is_main head.now && has_main) }
{
    head.part.is_main() && has_main
}

/// Whether a unit is a main, or there was one.
fn has_main_with(has_main: bool, head: &Head) -> bool
    ensures { result ≡ (has_main || is_main head.now) }
{
    has_main || head.part.is_main()
}

fn second_main(units: &[Head]) -> Option<usize>
    ensures { result ≡ first is_second units.now }
{
    let mut has_main = false;
    for number in 0..units.len() {
        let head = &units[number];
        if is_second(has_main, head) {
            return Some(number);
        }
        has_main = has_main_with(has_main, head);
    }
    None
}

fn without_spec(seen: &Seen, units: &[Head]) -> Option<usize>
    requires { IsSeen seen.now units.now }
    ensures { result ≡ first (is_bodiless units.now) units.now }
{
    for number in 0..units.len() {
        let head = &units[number];
        if seen.lacks_spec(head) {
            return Some(number);
        }
    }
    None
}

fn first_absent(seen: &Seen, withs: &[Withed]) -> Option<usize>
    ensures { (units : List TheHead) → IsSeen seen.now units → result ≡ first_absent units withs.now }
{
    for place in 0..withs.len() {
        if !seen.is_there(withs[place]) {
            return Some(place);
        }
    }
    None
}

/// The first name in the with clauses of a unit that is not there.
fn unseen_in(seen: &Seen, unit: usize, head: &Head) -> Option<UnitFault>
    ensures { (units : List TheHead) → IsSeen seen.now units → result ≡ unseen_in units unit head.now }
{
    match first_absent(seen, head.withs.as_slice()) {
        Some(with) => Some(UnitFault::Unseen { unit, with }),
        None => None,
    }
}

fn first_unseen(seen: &Seen, units: &[Head]) -> Option<UnitFault>
    requires { IsSeen seen.now units.now }
    ensures { result ≡ first_unseen units.now }
{
    for number in 0..units.len() {
        let head = &units[number];
        let fault = unseen_in(seen, number, head);
        if fault.is_some() {
            return fault;
        }
    }
    None
}

fn doubled(unit: Option<usize>) -> Option<UnitFault>
    ensures { result ≡ option_map faults.Doubled unit }
{
    match unit {
        Some(unit) => Some(UnitFault::Doubled { unit }),
        None => None,
    }
}

fn second(unit: Option<usize>) -> Option<UnitFault>
    ensures { result ≡ option_map faults.SecondMain unit }
{
    match unit {
        Some(unit) => Some(UnitFault::SecondMain { unit }),
        None => None,
    }
}

fn bodiless(unit: Option<usize>) -> Option<UnitFault>
    ensures { result ≡ option_map faults.WithoutSpec unit }
{
    match unit {
        Some(unit) => Some(UnitFault::WithoutSpec { unit }),
        None => None,
    }
}

/// The first fault of the names of units, pass by pass, and in each pass by the order of the units: a second spec or body of
/// one name, or a main with the name of another unit; a second main; a with clause that names what is not there; a body
/// without a spec.
///
/// It takes, for each unit and each with clause, the time of a few searches in sorted sets.
pub fn name_fault(alloc: Global, units: &[Head]) -> Result<Option<UnitFault>, NoMemory>
    ensures { IfOk result (λ fault. fault ≡ name_fault_of units.now) }
{
    let doubled = doubled(first_doubled(alloc, units)?);
    let second = second(second_main(units));
    let seen = seen_of(alloc, units)?;
    let unseen = first_unseen(&seen, units);
    let bodiless = bodiless(without_spec(&seen, units));
    Ok(doubled.or(second.or(unseen.or(bodiless))))
}
