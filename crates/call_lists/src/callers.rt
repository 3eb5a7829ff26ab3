//! Who calls whom, the other way round.
ghost use Rattle.std.specs.Prelude.{◌≡◌, ℕ, ◌<◌, ◌⊎◌, ◌↔◌, ◌^◌, All, [], length, slice_index_or, IfOk, OnOk};
ghost use Rattle.call_lists.specs.Lists.{AreLists, Names};

use spark_base::{BodyNo, Items, NoMemory};
use std::alloc::Global;

/// The callers of each body, from lists of those that each body calls.
pub fn callers_of(alloc: Global, callees: &[Items<BodyNo>]) -> Result<Vec<Items<BodyNo>>, NoMemory>
    requires lists { AreLists (length callees.now) callees.now }
    requires room { length callees.now < 2 ^ 32 }
    ensures lists { IfOk result (λ v. AreLists (length callees.now) v.items) }
    ensures names { IfOk result (λ v. (b c : ℕ) → Names (slice_index_or callees.now b []) c ↔ Names (slice_index_or v.items c []) b) }
{
    let mut callers = empty_lists(alloc, callees.len() as u32)?;
    for b in 0..callees.len() as u32 {
        add_caller(BodyNo(b), callees[b as usize].as_slice(), &mut callers)?;
    }
    Ok(callers)
}

pub(crate) fn empty_lists(alloc: Global, bodies: u32) -> Result<Vec<Items<BodyNo>>, NoMemory>
    ensures lists { IfOk result (λ v. AreLists bodies v.items) }
    ensures empty { IfOk result (λ v. (c b : ℕ) → Names (slice_index_or v.items c []) b → ⊥) }
{
    let mut lists = Vec::new(alloc);
    for _b in 0..bodies {
        lists.push(Items::new(alloc))?;
    }
    Ok(lists)
}

// Adds a body to the lists of those that it calls.
fn add_caller(
    caller: BodyNo,
    callees: &[BodyNo],
    lists: &mut Vec<Items<BodyNo>>,
) -> Result<(), NoMemory>
    requires callees { All (λ c. c.0 < length lists.old.items) callees.now }
    requires lists { AreLists (length lists.old.items) lists.old.items }
    requires caller { caller.0 < length lists.old.items }
    ensures size { OnOk result (length lists.new.items ≡ length lists.old.items) }
    ensures lists { OnOk result (AreLists (length lists.new.items) lists.new.items) }
    ensures names { OnOk result ((c b : ℕ) → Names (slice_index_or lists.new.items c []) b
        ↔ (Names (slice_index_or lists.old.items c []) b ⊎ ((b ≡ caller.0) × Names callees.now c))) }
{
    for callee in callees {
        add_one(caller, *callee, lists)?;
    }
    Ok(())
}

pub(crate) fn add_one(
    caller: BodyNo,
    callee: BodyNo,
    lists: &mut Vec<Items<BodyNo>>,
) -> Result<(), NoMemory>
    requires callee { callee.0 < length lists.old.items }
    requires lists { AreLists (length lists.old.items) lists.old.items }
    requires caller { caller.0 < length lists.old.items }
    ensures size { OnOk result (length lists.new.items ≡ length lists.old.items) }
    ensures lists { OnOk result (AreLists (length lists.new.items) lists.new.items) }
    ensures names { OnOk result ((c b : ℕ) → Names (slice_index_or lists.new.items c []) b
        ↔ (Names (slice_index_or lists.old.items c []) b ⊎ ((b ≡ caller.0) × (callee.0 ≡ c)))) }
{
    lists[callee.0 as usize].push(caller)?;
    Ok(())
}
