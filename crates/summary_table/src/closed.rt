//! What is left of a table that no seat shares any more.
ghost use Rattle.std.specs.Prelude.{◌≡◌, ℕ, ◌+◌, ◌<◌, ◌==◌, length, IfOk, IsTrue, slice_index};
ghost use Rattle.core.specs.Mem.Slots.{slots_items, slots_len, IsFull};
ghost use Rattle.summary_table.specs.Kept.{rows_in, has_mark};

use crate::equations::{Equations, Extent};
use crate::view::View;
use atomic_table::Badge;
use spark_base::{BodyNo, NoMemory};
use std::alloc::Global;

/// The words of a table that was closed, and what its seats did. `SummaryTable::close` alone makes it.
///
/// Contracts see the equations by its type, the number of seats, and three numbers over all seats (`counts`), which only steps on the
/// table raise: claims that won; these with loads and joins; and the seats that had tried every body when they met or closed.
#[derive(Drop)]
pub struct Closed<E: Equations> {
    pub(crate) words: Vec<u64>,
    pub(crate) extent: Extent<E>,
    pub(crate) seats: u32,
    pub(crate) counts: Badge<View>,
    ghost size: { length words.items ≡ 1 + extent.bodies + extent.words },
}

impl<E: Equations> Closed<E> {
    /// The words of the rows, those of each body behind those of the bodies before it.
    pub fn rows(&self) -> &[u64]
        ensures { (w : ℕ) → slice_index result.now w ≡ rows_in E.system self.now.words.items w }
    {
        &self.words[1 + self.extent.bodies as usize..]
    }

    /// Whether the body has to be claimed once more.
    pub fn dirty(&self, b: BodyNo) -> bool
        requires { b.0 < (E.system).bodies }
        ensures { result ≡ has_mark E.system self.now.words.items 0 b.0 }
    {
        self.words[1 + b.0 as usize] % 2 == 1
    }
}

// All words of a table that was closed.
pub(crate) fn read_words(
    alloc: Global,
    closed: &atomic_table::Closed<u8, Global>,
) -> Result<Vec<u64>, NoMemory>
    requires { IsFull closed.now.words }
    ensures { IfOk result (λ v. v.items ≡ slots_items closed.now.words) }
{
    let mut words = Vec::new(alloc);
    for i in 0..closed.words.len() {
        words.push(closed.word(i))?;
    }
    Ok(words)
}
