//! The bodies that lead to some bodies by calls.
ghost use Rattle.std.specs.Prelude.{◌≡◌, ℕ, ◌<◌, ◌≤◌, ◌⊎◌, ◌↔◌, All, [], length, slice_get, slice_index_or, OnOk};
ghost use Rattle.call_lists.specs.Lists.{AreLists, Names, Has};
ghost use Rattle.row_leaves.specs.Search.{LeadsTo, Spread, IsFound};

use call_lists::mark;
use spark_base::{BodyNo, Items, NoMemory};
use std::alloc::Global;

// Marks a body, and adds it where it was not marked.
fn find_one(b: BodyNo, marks: &mut [bool], found: &mut Vec<BodyNo>) -> Result<(), NoMemory>
    requires in_range { b.0 < length marks.old }
    requires found { IsFound marks.old found.old.items }
    ensures found { OnOk result (IsFound marks.new found.new.items) }
    ensures marks { (c : ℕ) → Has marks.new c ↔ (Has marks.old c ⊎ (b.0 ≡ c)) }
    ensures longer { OnOk result (length found.old.items ≤ length found.new.items) }
    ensures kept { OnOk result ((k : ℕ) → k < length found.old.items → slice_get found.new.items k ≡ slice_get found.old.items k) }
{
    if !marks[b.0 as usize] {
        marks[b.0 as usize] = true;
        found.push(b)?;
    }
    Ok(())
}

// The same for each body of a list.
fn find_all(list: &[BodyNo], marks: &mut [bool], found: &mut Vec<BodyNo>) -> Result<(), NoMemory>
    requires in_range { All (λ b. b.0 < length marks.old) list.now }
    requires found { IsFound marks.old found.old.items }
    ensures found { OnOk result (IsFound marks.new found.new.items) }
    ensures marks { OnOk result ((c : ℕ) → Has marks.new c ↔ (Has marks.old c ⊎ Names list.now c)) }
    ensures longer { OnOk result (length found.old.items ≤ length found.new.items) }
    ensures kept { OnOk result ((k : ℕ) → k < length found.old.items → slice_get found.new.items k ≡ slice_get found.old.items k) }
{
    for b in list {
        find_one(*b, marks, found)?;
    }
    Ok(())
}

// Marks some bodies and all that lead to them by calls.
fn search(
    alloc: Global,
    callers: &[Items<BodyNo>],
    starts: &[BodyNo],
    marks: &mut [bool],
) -> Result<(), NoMemory>
    requires callers { AreLists (length callers.now) callers.now }
    requires starts { All (λ b. b.0 < length callers.now) starts.now }
    requires size { length marks.old ≡ length callers.now }
    requires none { (b : ℕ) → Has marks.old b → ⊥ }
    ensures { OnOk result ((b : ℕ) → Has marks.new b ↔ LeadsTo callers.now starts.now b) }
{
    let mut found = Vec::new(alloc);
    find_all(starts, marks, &mut found)?;
    let mut at = 0;
    while at < found.len() {
        let list = callers[found[at].0 as usize].as_slice();
        find_all(list, marks, &mut found)?;
        at += 1;
    }
    Ok(())
}

// Marks some bodies, and where it spreads all that lead to them by calls.
pub(crate) fn spread(
    alloc: Global,
    spreads: bool,
    callers: &[Items<BodyNo>],
    starts: &[BodyNo],
    marks: &mut [bool],
) -> Result<(), NoMemory>
    requires callers { AreLists (length callers.now) callers.now }
    requires starts { All (λ b. b.0 < length callers.now) starts.now }
    requires size { length marks.old ≡ length callers.now }
    requires none { (b : ℕ) → Has marks.old b → ⊥ }
    ensures { OnOk result ((b : ℕ) → Has marks.new b ↔ Spread spreads callers.now starts.now b) }
{
    if spreads {
        search(alloc, callers, starts, marks)
    } else {
        mark(starts, marks);
        Ok(())
    }
}
