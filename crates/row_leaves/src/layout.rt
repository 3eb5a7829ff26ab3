//! The layout of a program, and its refusal.
ghost use Rattle.std.specs.Prelude.{◌≡◌, ℕ, ◌+◌, ◌<◌, ◌≤◌, ◌⊎◌, ◌↔◌, [], length, slice_index_or, IfSome, IfNone, IfOk, IsTrue, false};
ghost use Rattle.summary_rows.specs.Layout.{IsLayout, IsIncreasing, row_size, words_before};
ghost use Rattle.row_leaves.specs.Leaves.{AreBodies, AreRowLeaves, IsTooLarge, IsFirstTooLarge, most_words, most_leaves};
ghost use Rattle.row_leaves.specs.Laid.{IsLaid};

use crate::leaves::{Bodies, row_leaves};
use spark_base::{BodyNo, Items, LeafNo, NoMemory};
use std::alloc::Global;
use summary_rows::{Layout, row_size};

/// The words of the rows up to a body may be so many.
pub const MOST_WORDS: u32 = 8_388_608;

/// The leaves of a frame may be so many.
pub const MOST_LEAVES: usize = 4096;

/// A layout, or the first body for which there is no room.
#[derive(Drop)]
pub enum Laid {
    Out(Layout),
    TooLarge(BodyNo),
}

// Whether there is no room for one row more.
#[tactic(auto, using(crate::proofs::Rooms::size_fits))]
fn is_too_large(words: u32, leaves: usize, beside: u32) -> bool
    requires { words ≤ most_words }
    ensures yes { IsTrue result → (most_words < words + row_size leaves) ⊎ (most_leaves < leaves + beside) }
    ensures no { result ≡ false → (words + row_size leaves ≤ most_words) × (leaves + beside ≤ most_leaves) }
{
    leaves > MOST_LEAVES
        || leaves + beside as usize > MOST_LEAVES
        || words + row_size(leaves) > MOST_WORDS
}

// The first body for which there is no room.
fn first_too_large(bodies: &Bodies, outer: &[Items<LeafNo>]) -> Option<BodyNo>
    requires bodies { AreBodies bodies.now }
    requires size { length outer.now ≡ length bodies.now.sees }
    ensures some { IfSome result (λ b. IsFirstTooLarge bodies.now outer.now b.0) }
    ensures room { IfNone result (words_before outer.now (length outer.now) ≤ most_words) }
    ensures none { IfNone result ((b : ℕ) → b < length outer.now → IsTooLarge bodies.now outer.now b → ⊥) }
{
    let mut words = 0u32;
    for b in 0..outer.len() as u32 {
        let leaves = outer[b as usize].len();
        if is_too_large(words, leaves, *bodies.beside.at(b as usize)) {
            return Some(BodyNo(b));
        }
        words += row_size(leaves);
    }
    None
}

// The rows, one behind another.
fn lay_out(alloc: Global, outer: Vec<Items<LeafNo>>) -> Result<Layout, NoMemory>
    requires increasing { (b : ℕ) → IsIncreasing (slice_index_or outer.items b []) }
    requires room { words_before outer.items (length outer.items) ≤ most_words }
    ensures layout { IfOk result (λ l. IsLayout l) }
    ensures outer { IfOk result (λ l. l.outer ≡ outer.items) }
{
    let mut layout = Layout::new(alloc);
    for leaves in outer {
        layout = layout.with_row(leaves)?;
    }
    Ok(layout)
}

/// The layout of the bodies; or the first of them, by number, where the row words up to it are more than 8,388,608, or its frame has more
/// than 4,096 leaves. Want of memory is the only fault.
pub fn layout_of(alloc: Global, bodies: &Bodies) -> Result<Laid, NoMemory>
    requires { AreBodies bodies.now }
    ensures { IfOk result (λ laid. IsLaid bodies.now laid) }
{
    let outer = row_leaves(alloc, bodies)?;
    match first_too_large(bodies, outer.as_slice()) {
        Some(b) => Ok(Laid::TooLarge(b)),
        None => Ok(Laid::Out(lay_out(alloc, outer)?)),
    }
}
