//! Which leaves are library leaves, and how many leaves frames have beside those of rows.
ghost use Rattle.std.specs.Prelude.{◌≡◌, ℕ, ◌+◌, ◌<◌, ◌↔◌, ◌≤◌, cond, false, length, slice_index_or, IfOk, IsTrue};
ghost use Rattle.core_form.specs.Fine.{IsWellFormed, home_of};
ghost use Rattle.program_layout.specs.Made.{IsLibraryLeaf};
ghost use Rattle.program_layout.specs.Rows.{beside_below, is_beside};

use crate::owners::home_at;
use core_form::{Home, Program};
use spark_base::{Items, LeafNo, NoMemory};
use std::alloc::Global;

/// By leaf, whether it is a library leaf.
pub fn library_leaves(alloc: Global, program: &Program) -> Result<Items<bool>, NoMemory>
    requires fine { IsWellFormed program.now }
    ensures size { IfOk result (λ flags. length flags ≡ length program.now.leaves) }
    ensures flags { IfOk result (λ flags. (v : ℕ) → IsTrue (slice_index_or flags v false) ↔ IsLibraryLeaf program.now v) }
{
    let mut flags = Items::new(alloc);
    for leaf in 0..program.leaves.len() as u32 {
        let home = home_at(program, LeafNo(leaf));
        flags.push(matches!(home, Home::Package(_) | Home::Clock))?;
    }
    Ok(flags)
}

// Counts a leaf, where it is a local's or a spare's.
fn count_leaf(program: &Program, leaf: LeafNo, counts: &mut [u32])
    requires fine { IsWellFormed program.now }
    requires leaf { leaf.0 < length program.now.leaves }
    requires size { length counts.old ≡ length program.now.bodies }
    requires room { (b : ℕ) → slice_index_or counts.old b 0 ≤ leaf.0 }
    ensures size { length counts.new ≡ length program.now.bodies }
    ensures counts { (b : ℕ) → b < length program.now.bodies
        → slice_index_or counts.new b 0 ≡ cond (is_beside b (home_of program.now leaf.0)) 1 0 + slice_index_or counts.old b 0 }
{
    match home_at(program, leaf) {
        Home::Local(of) | Home::Spare(of) => counts[of.0 as usize] += 1,
        Home::Package(_) | Home::Formal(_) | Home::Outcome(_) | Home::Clock => {}
    }
}

/// By body, how many leaves of the program are its locals' and spares'.
pub fn leaves_beside(alloc: Global, program: &Program) -> Result<Items<u32>, NoMemory>
    requires fine { IsWellFormed program.now }
    ensures size { IfOk result (λ counts. length counts ≡ length program.now.bodies) }
    ensures counts { IfOk result (λ counts. (b : ℕ) → b < length program.now.bodies
        → slice_index_or counts b 0 ≡ beside_below program.now b (length program.now.leaves)) }
{
    let mut counts = vec![in alloc; 0u32; program.bodies.len()]?;
    for leaf in 0..program.leaves.len() as u32 {
        count_leaf(program, LeafNo(leaf), counts.as_mut_slice());
    }
    Ok(Items::from_vec(counts))
}
