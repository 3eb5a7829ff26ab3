//! Bodies that are marked.
ghost use Rattle.std.specs.Prelude.{◌≡◌, ℕ, ◌<◌, ◌⊎◌, ◌↔◌, All, length, IfOk, IsTrue};
ghost use Rattle.call_lists.specs.Lists.{Names, Has};

use spark_base::{BodyNo, NoMemory};
use std::alloc::Global;

// Marks the bodies of a list.
pub fn mark(list: &[BodyNo], marks: &mut [bool])
    requires { All (λ b. b.0 < length marks.old) list.now }
    ensures { (c : ℕ) → Has marks.new c ↔ (Has marks.old c ⊎ Names list.now c) }
{
    for b in list {
        mark_one(*b, marks);
    }
}

// Marks a body.
fn mark_one(b: BodyNo, marks: &mut [bool])
    requires { b.0 < length marks.old }
    ensures { (c : ℕ) → Has marks.new c ↔ (Has marks.old c ⊎ (b.0 ≡ c)) }
{
    marks[b.0 as usize] = true;
}

// Marks for so many bodies, all set.
pub fn all_marked(alloc: Global, bodies: usize) -> Result<Vec<bool>, NoMemory>
    ensures size { IfOk result (λ v. length v.items ≡ bodies) }
    ensures all { IfOk result (λ v. (b : ℕ) → b < bodies → Has v.items b) }
{
    let marks = vec![in alloc; true; bodies]?;
    Ok(marks)
}

// Marks for so many bodies, none of which is set.
pub fn none_marked(alloc: Global, bodies: usize) -> Result<Vec<bool>, NoMemory>
    ensures size { IfOk result (λ v. length v.items ≡ bodies) }
    ensures none { IfOk result (λ v. (b : ℕ) → Has v.items b → ⊥) }
{
    let marks = vec![in alloc; false; bodies]?;
    Ok(marks)
}

// Whether every body is marked.
pub fn are_all_marked(marks: &[bool]) -> bool
    ensures { IsTrue result → (b : ℕ) → b < length marks.now → Has marks.now b }
{
    for mark in marks {
        if !*mark {
            return false;
        }
    }
    true
}
