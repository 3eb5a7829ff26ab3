//! In which order bodies are visited. No contract but of time depends on it.
ghost use Rattle.std.specs.Prelude.{◌≡◌, ℕ, ◌<◌, All, length, IfOk, IsTrue, ◌^◌};
ghost use Rattle.call_lists.specs.Lists.{AreLists, Names, Has};

use crate::marks::{are_all_marked, mark, none_marked};
use spark_base::{BodyNo, Items, NoMemory};
use std::alloc::Global;

// A body on the way, and which of its callers comes next.
#[derive(Drop)]
struct Step {
    body: BodyNo,
    next: usize,
}

// All bodies by their numbers.
fn numbered(alloc: Global, bodies: u32) -> Result<Vec<BodyNo>, NoMemory>
    ensures below { IfOk result (λ v. All (λ b. b.0 < bodies) v.items) }
    ensures all { IfOk result (λ v. (b : ℕ) → b < bodies → Names v.items b) }
{
    let mut list = Vec::new(alloc);
    for b in 0..bodies {
        list.push(BodyNo(b))?;
    }
    Ok(list)
}

// Goes on with a step: to the body's next caller, or out of it.
fn advance(
    callers: &[Items<BodyNo>],
    step: Step,
    seen: &mut [bool],
    stack: &mut Vec<Step>,
    order: &mut Vec<BodyNo>,
) -> Result<(), NoMemory>
    requires callers { AreLists (length callers.now) callers.now }
    requires step { step.body.0 < length callers.now }
    requires seen { length seen.old ≡ length callers.now }
    requires stack { All (λ s. s.body.0 < length callers.now) stack.old.items }
    requires order { All (λ b. b.0 < length callers.now) order.old.items }
    ensures stack { All (λ s. s.body.0 < length callers.now) stack.new.items }
    ensures order { All (λ b. b.0 < length callers.now) order.new.items }
{
    let list = callers[step.body.0 as usize].as_slice();
    if step.next < list.len() {
        let caller = list[step.next];
        stack.push(Step {
            body: step.body,
            next: step.next + 1,
        })?;
        if !seen[caller.0 as usize] {
            seen[caller.0 as usize] = true;
            stack.push(Step {
                body: caller,
                next: 0,
            })?;
        }
    } else {
        order.push(step.body)?;
    }
    Ok(())
}

// Adds the bodies that lead to calls of a body and that were not seen, callers first.
fn add_from(
    alloc: Global,
    callers: &[Items<BodyNo>],
    start: BodyNo,
    seen: &mut [bool],
    order: &mut Vec<BodyNo>,
) -> Result<(), NoMemory>
    requires callers { AreLists (length callers.now) callers.now }
    requires start { start.0 < length callers.now }
    requires seen { length seen.old ≡ length callers.now }
    requires order { All (λ b. b.0 < length callers.now) order.old.items }
    ensures order { All (λ b. b.0 < length callers.now) order.new.items }
{
    if seen[start.0 as usize] {
        return Ok(());
    }
    seen[start.0 as usize] = true;
    let mut stack = Vec::new(alloc);
    stack.push(Step {
        body: start,
        next: 0,
    })?;
    for _step in 0..u32::MAX {
        match stack.pop() {
            None => return Ok(()),
            Some(step) => advance(callers, step, seen, &mut stack, order)?,
        }
    }
    Ok(())
}

fn depth_first(alloc: Global, callers: &[Items<BodyNo>]) -> Result<Vec<BodyNo>, NoMemory>
    requires callers { AreLists (length callers.now) callers.now }
    requires room { length callers.now < 2 ^ 32 }
    ensures { IfOk result (λ v. All (λ b. b.0 < length callers.now) v.items) }
{
    let mut seen = vec![in alloc; false; callers.len()]?;
    let mut order = Vec::new(alloc);
    for b in 0..callers.len() as u32 {
        add_from(alloc, callers, BodyNo(b), seen.as_mut_slice(), &mut order)?;
    }
    Ok(order)
}

// Whether a list has each of so many bodies.
fn has_all(alloc: Global, list: &[BodyNo], bodies: usize) -> Result<bool, NoMemory>
    requires { All (λ b. b.0 < bodies) list.now }
    ensures { IfOk result (λ holds. IsTrue holds → (b : ℕ) → b < bodies → Names list.now b) }
{
    let mut marks = none_marked(alloc, bodies)?;
    let holds = covers(list, marks.as_mut_slice());
    Ok(holds)
}

// Whether a list has each body for which there is a mark.
fn covers(list: &[BodyNo], marks: &mut [bool]) -> bool
    requires list { All (λ b. b.0 < length marks.old) list.now }
    requires none { (b : ℕ) → Has marks.old b → ⊥ }
    ensures { IsTrue result → (b : ℕ) → b < length marks.old → Names list.now b }
{
    mark(list, marks);
    are_all_marked(marks)
}

// All bodies, callers before those that they call as far as circles allow. That they stand so is no part of the contract.
pub fn order_of(alloc: Global, callers: &[Items<BodyNo>]) -> Result<Vec<BodyNo>, NoMemory>
    requires callers { AreLists (length callers.now) callers.now }
    requires room { length callers.now < 2 ^ 32 }
    ensures below { IfOk result (λ v. All (λ b. b.0 < length callers.now) v.items) }
    ensures all { IfOk result (λ v. (b : ℕ) → b < length callers.now → Names v.items b) }
{
    let order = depth_first(alloc, callers)?;
    let complete = has_all(alloc, order.as_slice(), callers.len())?;
    if complete {
        Ok(order)
    } else {
        numbered(alloc, callers.len() as u32)
    }
}
