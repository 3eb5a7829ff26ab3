//! Bodies in lists by leaf.
ghost use Rattle.std.specs.Prelude.{◌≡◌, ℕ, ◌<◌, ◌⊎◌, ◌↔◌, All, [], false, length, slice_index_or, IfOk, IsSomeAnd, IsTrue, OnOk};
ghost use Rattle.core_form.specs.Fine.{IsWellFormed, home_of};
ghost use Rattle.call_lists.specs.Lists.{Names};
ghost use Rattle.flow_relations.specs.Equation.{IsPassed};
ghost use Rattle.row_leaves.specs.Leaves.{HasLeaf};

use crate::owners::home_at;
use core_form::{Home, Program};
use spark_base::{BodyNo, Items, LeafNo, NoMemory};
use std::alloc::Global;

/// Lists without bodies.
pub fn no_bodies(alloc: Global, count: usize) -> Result<Vec<Items<BodyNo>>, NoMemory>
    ensures size { IfOk result (λ v. length v.items ≡ count) }
    ensures below { IfOk result (λ v. (n : ℕ) → All (λ list. All (λ b. b.0 < n) list) v.items) }
    ensures empty { IfOk result (λ v. (k b : ℕ) → Names (slice_index_or v.items k []) b → ⊥) }
{
    let mut lists = Vec::new(alloc);
    for _k in 0..count {
        lists.push(Items::new(alloc))?;
    }
    Ok(lists)
}

// Whether a list ends with a body.
fn ends_with(list: &[BodyNo], body: BodyNo) -> bool
    ensures { IsTrue result → Names list.now body.0 }
{
    match list.last() {
        Some(last) => *last == body,
        None => false,
    }
}

/// Adds a body to a list, where it is not the last of it.
pub fn add_body(lists: &mut Vec<Items<BodyNo>>, at: usize, body: BodyNo) -> Result<(), NoMemory>
    requires { at < length lists.old.items }
    ensures size { OnOk result (length lists.new.items ≡ length lists.old.items) }
    ensures below { OnOk result ((n : ℕ) → body.0 < n → All (λ list. All (λ b. b.0 < n) list) lists.old.items
        → All (λ list. All (λ b. b.0 < n) list) lists.new.items) }
    ensures names { OnOk result ((k b : ℕ) → Names (slice_index_or lists.new.items k []) b
        ↔ (Names (slice_index_or lists.old.items k []) b ⊎ ((b ≡ body.0) × (at ≡ k)))) }
{
    if !ends_with(lists[at].as_slice(), body) {
        lists[at].push(body)?;
    }
    Ok(())
}

// Adds a body to the list of a leaf, where that is a library leaf.
fn add_holder(
    library: &[bool],
    leaf: LeafNo,
    body: BodyNo,
    holders: &mut Vec<Items<BodyNo>>,
) -> Result<(), NoMemory>
    requires library { length library.now ≡ length holders.old.items }
    ensures size { OnOk result (length holders.new.items ≡ length holders.old.items) }
    ensures below { OnOk result ((n : ℕ) → body.0 < n → All (λ list. All (λ b. b.0 < n) list) holders.old.items
        → All (λ list. All (λ b. b.0 < n) list) holders.new.items) }
    ensures names { OnOk result ((v b : ℕ) → Names (slice_index_or holders.new.items v []) b
        ↔ (Names (slice_index_or holders.old.items v []) b
        ⊎ ((b ≡ body.0) × (IsTrue (slice_index_or library.now v false) × (v ≡ leaf.0))))) }
{
    match library.get(leaf.0 as usize) {
        Some(true) => add_body(holders, leaf.0 as usize, body),
        Some(false) | None => Ok(()),
    }
}

/// Adds a body to the lists of those leaves that are library leaves.
pub fn add_leaves(
    library: &[bool],
    leaves: &[LeafNo],
    body: BodyNo,
    holders: &mut Vec<Items<BodyNo>>,
) -> Result<(), NoMemory>
    requires library { length library.now ≡ length holders.old.items }
    ensures size { OnOk result (length holders.new.items ≡ length holders.old.items) }
    ensures below { OnOk result ((n : ℕ) → body.0 < n → All (λ list. All (λ b. b.0 < n) list) holders.old.items
        → All (λ list. All (λ b. b.0 < n) list) holders.new.items) }
    ensures names { OnOk result ((v b : ℕ) → Names (slice_index_or holders.new.items v []) b
        ↔ (Names (slice_index_or holders.old.items v []) b
        ⊎ ((b ≡ body.0) × (IsTrue (slice_index_or library.now v false) × HasLeaf leaves.now v)))) }
{
    for leaf in leaves {
        add_holder(library, *leaf, body, holders)?;
    }
    Ok(())
}

// Adds to the list of a leaf the body of whose formal or result it is a leaf.
fn add_passed_leaf(
    program: &Program,
    leaf: LeafNo,
    holders: &mut Vec<Items<BodyNo>>,
) -> Result<(), NoMemory>
    requires fine { IsWellFormed program.now }
    requires leaf { leaf.0 < length program.now.leaves }
    requires size { length holders.old.items ≡ length program.now.leaves }
    requires below { All (λ list. All (λ b. b.0 < length program.now.bodies) list) holders.old.items }
    ensures size { OnOk result (length holders.new.items ≡ length program.now.leaves) }
    ensures below { OnOk result (All (λ list. All (λ b. b.0 < length program.now.bodies) list) holders.new.items) }
    ensures names { OnOk result ((v b : ℕ) → Names (slice_index_or holders.new.items v []) b
        ↔ (Names (slice_index_or holders.old.items v []) b ⊎ ((v ≡ leaf.0) × IsSomeAnd (home_of program.now v) (IsPassed b)))) }
{
    match home_at(program, leaf) {
        Home::Formal(of) | Home::Outcome(of) => add_body(holders, leaf.0 as usize, of),
        Home::Package(_) | Home::Local(_) | Home::Spare(_) | Home::Clock => Ok(()),
    }
}

/// Adds to the list of each leaf the body of whose formal or result it is a leaf.
pub fn add_passed(program: &Program, holders: &mut Vec<Items<BodyNo>>) -> Result<(), NoMemory>
    requires fine { IsWellFormed program.now }
    requires size { length holders.old.items ≡ length program.now.leaves }
    requires below { All (λ list. All (λ b. b.0 < length program.now.bodies) list) holders.old.items }
    ensures size { OnOk result (length holders.new.items ≡ length program.now.leaves) }
    ensures below { OnOk result (All (λ list. All (λ b. b.0 < length program.now.bodies) list) holders.new.items) }
    ensures names { OnOk result ((v b : ℕ) → Names (slice_index_or holders.new.items v []) b
        ↔ (Names (slice_index_or holders.old.items v []) b ⊎ IsSomeAnd (home_of program.now v) (IsPassed b))) }
{
    for leaf in 0..program.leaves.len() as u32 {
        add_passed_leaf(program, LeafNo(leaf), holders)?;
    }
    Ok(())
}
