//! Which leaves the row of each body has.
ghost use Rattle.std.specs.Prelude.{◌≡◌, ℕ, ◌+◌, ◌<◌, ◌↔◌, ◌++◌, ◌∷◌, All, [], length, slice_index_or, false, IfOk, OnOk};
ghost use Rattle.call_lists.specs.Lists.{AreLists, Names, Has};
ghost use Rattle.row_leaves.specs.Leaves.{AreBodies, AreRowLeaves};
ghost use Rattle.row_leaves.specs.Search.{grown, IsRowBelow};

use crate::search::spread;
use call_lists::{callers_of, none_marked};
use spark_base::{BodyNo, Items, LeafNo, NoMemory};
use std::alloc::Global;

/// What a layout is made from.
#[derive(Drop)]
pub struct Bodies {
    /// By leaf, the bodies whose rows have it whatever the others have. A body may stand there more than once.
    pub holders: Items<Items<BodyNo>>,
    /// By leaf, whether it is one of a library variable.
    pub library: Items<bool>,
    /// By body, whose rows it sees.
    pub sees: Items<Items<BodyNo>>,
    /// By body, how many leaves its frame has beside those of its row.
    pub beside: Items<u32>,
}

fn grow_one(v: LeafNo, holds: bool, leaves: &mut Items<LeafNo>) -> Result<(), NoMemory>
    ensures { OnOk result (leaves.new ≡ grown v holds leaves.old) }
{
    if holds {
        leaves.push(v)?;
    }
    Ok(())
}

// Adds a leaf to the rows of the marked bodies.
fn grow_marked(v: LeafNo, marks: &[bool], outer: &mut Vec<Items<LeafNo>>) -> Result<(), NoMemory>
    requires size { length marks.now ≡ length outer.old.items }
    ensures size { OnOk result (length outer.new.items ≡ length outer.old.items) }
    ensures rows { OnOk result ((b : ℕ) → slice_index_or outer.new.items b []
        ≡ grown v (slice_index_or marks.now b false) (slice_index_or outer.old.items b [])) }
{
    for b in 0..marks.len() {
        grow_one(v, marks[b], &mut outer[b])?;
    }
    Ok(())
}

// Adds a leaf to the rows that have it. No body is marked yet.
fn add_leaf(
    alloc: Global,
    bodies: &Bodies,
    callers: &[Items<BodyNo>],
    v: LeafNo,
    marks: &mut [bool],
    outer: &mut Vec<Items<LeafNo>>,
) -> Result<(), NoMemory>
    requires bodies { AreBodies bodies.now }
    requires leaf { v.0 < length bodies.now.holders }
    requires lists { AreLists (length bodies.now.sees) callers.now }
    requires callers { (b c : ℕ) → Names (slice_index_or bodies.now.sees b []) c ↔ Names (slice_index_or callers.now c []) b }
    requires marks { length marks.old ≡ length bodies.now.sees }
    requires none { (b : ℕ) → Has marks.old b → ⊥ }
    requires size { length outer.old.items ≡ length bodies.now.sees }
    requires rows { (b : ℕ) → IsRowBelow bodies.now b v.0 (slice_index_or outer.old.items b []) }
    ensures size { OnOk result (length outer.new.items ≡ length bodies.now.sees) }
    ensures rows { OnOk result ((b : ℕ) → IsRowBelow bodies.now b (v.0 + 1) (slice_index_or outer.new.items b [])) }
{
    let holders = bodies.holders.at(v.0 as usize);
    let starts = holders.as_slice();
    let spreads = *bodies.library.at(v.0 as usize);
    spread(alloc, spreads, callers, starts, marks)?;
    grow_marked(v, marks, outer)?;
    Ok(())
}

// So many rows without leaves.
fn empty_rows(alloc: Global, bodies: usize) -> Result<Vec<Items<LeafNo>>, NoMemory>
    ensures size { IfOk result (λ v. length v.items ≡ bodies) }
    ensures empty { IfOk result (λ v. (b : ℕ) → slice_index_or v.items b [] ≡ []) }
{
    let mut rows = Vec::new(alloc);
    for _b in 0..bodies {
        rows.push(Items::new(alloc))?;
    }
    Ok(rows)
}

/// The row leaves of each body, in increasing order. It takes the time of a few steps for each leaf and body, and for each caller of
/// a body whose row has a library leaf, once for each such leaf. Want of memory is the only fault.
pub fn row_leaves(alloc: Global, bodies: &Bodies) -> Result<Vec<Items<LeafNo>>, NoMemory>
    requires { AreBodies bodies.now }
    ensures { IfOk result (λ v. AreRowLeaves bodies.now v.items) }
{
    let count = bodies.sees.len();
    let callers = callers_of(alloc, bodies.sees.as_slice())?;
    let mut outer = empty_rows(alloc, count)?;
    for v in 0..bodies.holders.len() as u32 {
        let mut marks = none_marked(alloc, count)?;
        add_leaf(
            alloc,
            bodies,
            callers.as_slice(),
            LeafNo(v),
            marks.as_mut_slice(),
            &mut outer,
        )?;
    }
    Ok(outer)
}
