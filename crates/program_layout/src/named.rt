//! The library leaves that code names.
ghost use Rattle.std.specs.Prelude.{◌≡◌, ℕ, ◌+◌, ◌<◌, ◌⊎◌, ◌↔◌, ◌^◌, All, [], false, length, slice_index_or, IsTrue, OnOk};
ghost use Rattle.core_form.specs.Fine.{IsWellFormed};
ghost use Rattle.call_lists.specs.Lists.{Names};
ghost use Rattle.flow_bits.specs.Sets.{Has};
ghost use Rattle.flow_relations.specs.Equation.{clock_among, code_of_body, names_of};

use crate::holders::add_body;
use core_form::Program;
use flow_bits::Row;
use flow_relations::names_row;
use spark_base::{BodyNo, Items, LeafNo, NoMemory};
use std::alloc::Global;

// Adds a body to the list of a leaf, where that is a library leaf of a set.
fn add_named_leaf(
    library: &[bool],
    set: &Row,
    leaf: LeafNo,
    body: BodyNo,
    holders: &mut Vec<Items<BodyNo>>,
) -> Result<(), NoMemory>
    requires leaf { leaf.0 < length library.now }
    requires set { length library.now < length set.now }
    requires library { length library.now ≡ length holders.old.items }
    ensures size { OnOk result (length holders.new.items ≡ length holders.old.items) }
    ensures below { OnOk result ((n : ℕ) → body.0 < n → All (λ list. All (λ b. b.0 < n) list) holders.old.items
        → All (λ list. All (λ b. b.0 < n) list) holders.new.items) }
    ensures names { OnOk result ((v b : ℕ) → Names (slice_index_or holders.new.items v []) b
        ↔ (Names (slice_index_or holders.old.items v []) b
        ⊎ ((v ≡ leaf.0) × ((b ≡ body.0) × (IsTrue (slice_index_or library.now v false) × Has set.now v))))) }
{
    if library[leaf.0 as usize] && set.has(leaf.0) {
        add_body(holders, leaf.0 as usize, body)?;
    }
    Ok(())
}

// Adds a body to the lists of the library leaves of a set.
fn add_named_leaves(
    library: &[bool],
    set: &Row,
    body: BodyNo,
    holders: &mut Vec<Items<BodyNo>>,
) -> Result<(), NoMemory>
    requires few { length library.now < 2 ^ 32 }
    requires set { length library.now < length set.now }
    requires library { length library.now ≡ length holders.old.items }
    ensures size { OnOk result (length holders.new.items ≡ length holders.old.items) }
    ensures below { OnOk result ((n : ℕ) → body.0 < n → All (λ list. All (λ b. b.0 < n) list) holders.old.items
        → All (λ list. All (λ b. b.0 < n) list) holders.new.items) }
    ensures names { OnOk result ((v b : ℕ) → Names (slice_index_or holders.new.items v []) b
        ↔ (Names (slice_index_or holders.old.items v []) b
        ⊎ ((b ≡ body.0) × (IsTrue (slice_index_or library.now v false) × Has set.now v)))) }
{
    for leaf in 0..library.len() as u32 {
        add_named_leaf(library, set, LeafNo(leaf), body, holders)?;
    }
    Ok(())
}

/// Adds each body to the lists of the library leaves that its code names.
pub fn add_named(
    alloc: Global,
    program: &Program,
    library: &[bool],
    holders: &mut Vec<Items<BodyNo>>,
) -> Result<(), NoMemory>
    requires fine { IsWellFormed program.now }
    requires few { length program.now.bodies < 2 ^ 32 }
    requires leaves { length library.now ≡ length program.now.leaves }
    requires library { length library.now ≡ length holders.old.items }
    requires below { All (λ list. All (λ b. b.0 < length program.now.bodies) list) holders.old.items }
    ensures size { OnOk result (length holders.new.items ≡ length holders.old.items) }
    ensures below { OnOk result (All (λ list. All (λ b. b.0 < length program.now.bodies) list) holders.new.items) }
    ensures names { OnOk result ((v b : ℕ) → Names (slice_index_or holders.new.items v []) b
        ↔ (Names (slice_index_or holders.old.items v []) b
        ⊎ (IsTrue (slice_index_or library.now v false) × names_of (clock_among program.now.vars) (code_of_body program.now b) v))) }
{
    for b in 0..program.bodies.len() as u32 {
        let set = names_row(alloc, program, BodyNo(b))?;
        add_named_leaves(library, &set, BodyNo(b), holders)?;
    }
    Ok(())
}
