//! The callers of each body.
ghost use Rattle.std.specs.Prelude.{ℕ, ◌<◌, ◌↔◌, ◌^◌, [], length, slice_index_or, IfOk};
ghost use Rattle.core_form.specs.Fine.{IsWellFormed};
ghost use Rattle.call_lists.specs.Lists.{AreLists, Names};
ghost use Rattle.body_calls.specs.Callees.{IsRising, Calls};

use crate::callees::{callees_of, once};
use call_lists::callers_of;
use core_form::Program;
use spark_base::{BodyNo, Items, NoMemory};
use std::alloc::Global;

// The callees of each body.
fn all_callees(alloc: Global, program: &Program) -> Result<Vec<Items<BodyNo>>, NoMemory>
    requires fine { IsWellFormed program.now }
    requires room { length program.now.bodies < 2 ^ 32 }
    ensures lists { IfOk result (λ v. AreLists (length program.now.bodies) v.items) }
    ensures names { IfOk result (λ v. (b c : ℕ) → Names (slice_index_or v.items b []) c ↔ Calls program.now b c) }
{
    let mut lists = Vec::new(alloc);
    for b in 0..program.bodies.len() as u32 {
        lists.push(callees_of(alloc, program, BodyNo(b))?)?;
    }
    Ok(lists)
}

// The lists, each with each of its bodies once.
fn all_once(alloc: Global, lists: Vec<Items<BodyNo>>) -> Result<Vec<Items<BodyNo>>, NoMemory>
    ensures lists { IfOk result (λ v. (n : ℕ) → AreLists n lists.items → AreLists n v.items) }
    ensures rising { IfOk result (λ v. (c : ℕ) → IsRising (slice_index_or v.items c [])) }
    ensures names { IfOk result (λ v. (b c : ℕ) → Names (slice_index_or v.items c []) b ↔ Names (slice_index_or lists.items c []) b) }
{
    let mut all = Vec::new(alloc);
    for list in lists {
        all.push(once(list))?;
    }
    Ok(all)
}

/// The callers of each body of a program, each once, in increasing order; a body is among its own where it calls itself. 2^32 bodies or
/// more are want of memory, which is the only fault. The time is linear in the program, but for the sorting of callees and callers.
pub fn callers(alloc: Global, program: &Program) -> Result<Vec<Items<BodyNo>>, NoMemory>
    requires fine { IsWellFormed program.now }
    ensures lists { IfOk result (λ v. AreLists (length program.now.bodies) v.items) }
    ensures rising { IfOk result (λ v. (c : ℕ) → IsRising (slice_index_or v.items c [])) }
    ensures names { IfOk result (λ v. (b c : ℕ) → Names (slice_index_or v.items c []) b ↔ Calls program.now b c) }
{
    if program.bodies.len() > u32::MAX as usize {
        return Err(NoMemory);
    }
    let callees = all_callees(alloc, program)?;
    all_once(alloc, callers_of(alloc, callees.as_slice())?)
}
