ghost use Rattle.std.specs.Prelude.{◌≡◌, ◌≢◌, ℕ, ◌+◌, ◌-◌, ◌*◌, ◌<◌, ◌≤◌, ◌^◌, ◌⊎◌, ◌↔◌, length, IsTrue, IfOk, false};
ghost use Rattle.flow_bits.specs.Words.{words_for};
ghost use Rattle.summary_rows.specs.Bits.{Bit};
ghost use Rattle.summary_rows.specs.Facts.{Fact, Returning, Reading, Writing, Keeping, Depending};
ghost use Rattle.summary_rows.specs.Layout.{IsLayout, IsTidyRow, AreRows, IsTidy, RowTells, GainsFact, IsIncreasing, told, first_of, outer_of, row_size};

use crate::layout::{Layout, pair_of, place_of, words_for};
use crate::words::{Words, has_bit};
use spark_base::{BodyNo, LeafNo, NoMemory};
use std::alloc::Global;

/// What is known of each body of a layout.
#[derive(Drop)]
pub struct Rows {
    pub layout: Layout,
    pub words: Words,
}

impl Rows {
    /// Of no body is anything known.
    pub fn new(alloc: Global, layout: &Layout) -> Result<Rows, NoMemory>
        requires { IsLayout layout.now }
        ensures layout { IfOk result (λ rows. rows.layout ≡ layout.now) }
        ensures rows { IfOk result (λ rows. AreRows rows) }
        ensures tidy { IfOk result (λ rows. IsTidy rows) }
        ensures empty { IfOk result (λ rows. (f : Fact) → told rows f → ⊥) }
    {
        let words = Words::zeros(alloc, layout.words as usize)?;
        let layout = layout.copy(alloc)?;
        Ok(Rows { layout, words })
    }

    /// Whether the body may return.
    pub fn returns(&self, b: BodyNo) -> bool
        requires rows { AreRows self.now }
        requires in_range { b.0 < length self.now.layout.outer }
        ensures { IsTrue result ↔ told self.now (record { owner = b.0; part = Returning }) }
    {
        self.has(b, 0)
    }

    /// Whether the body may read the value that a leaf has at entry.
    pub fn reads(&self, b: BodyNo, v: LeafNo) -> bool
        requires rows { AreRows self.now }
        requires in_range { b.0 < length self.now.layout.outer }
        ensures { IsTrue result ↔ told self.now (record { owner = b.0; part = Reading v.0 }) }
    {
        let outer = self.outer(b);
        match place_of(outer, v) {
            None => false,
            Some(at) => self.has(b, 64 + at),
        }
    }

    /// Whether the body may write or clear a leaf.
    pub fn writes(&self, b: BodyNo, v: LeafNo) -> bool
        requires rows { AreRows self.now }
        requires in_range { b.0 < length self.now.layout.outer }
        ensures { IsTrue result ↔ told self.now (record { owner = b.0; part = Writing v.0 }) }
    {
        let outer = self.outer(b);
        match place_of(outer, v) {
            None => false,
            Some(at) => self.has(b, 64 + 64 * words_for(outer.len()) + at),
        }
    }

    /// Whether the body may return with a leaf as it was at entry.
    pub fn keeps(&self, b: BodyNo, v: LeafNo) -> bool
        requires rows { AreRows self.now }
        requires in_range { b.0 < length self.now.layout.outer }
        ensures { IsTrue result ↔ told self.now (record { owner = b.0; part = Keeping v.0 }) }
    {
        let outer = self.outer(b);
        match place_of(outer, v) {
            None => false,
            Some(at) => self.has(b, 64 + 128 * words_for(outer.len()) + at),
        }
    }

    /// Whether the value of the first leaf at entry may decide that of the second at the return.
    pub fn depends(&self, b: BodyNo, from: LeafNo, to: LeafNo) -> bool
        requires rows { AreRows self.now }
        requires in_range { b.0 < length self.now.layout.outer }
        ensures { IsTrue result ↔ told self.now (record { owner = b.0; part = Depending from.0 to.0 }) }
    {
        let outer = self.outer(b);
        match pair_of(outer, from, to) {
            None => false,
            Some(at) => self.has(b, 64 + 192 * words_for(outer.len()) + at),
        }
    }

    /// Adds the facts of the words of one row to those of a body, and says whether any came in.
    pub fn join(&mut self, b: BodyNo, words: &[u64]) -> bool
        requires rows { AreRows self.old }
        requires in_range { b.0 < length self.old.layout.outer }
        requires size { length words.now ≡ row_size (length (outer_of self.old.layout b.0)) }
        ensures rows { AreRows self.new }
        ensures layout { self.new.layout ≡ self.old.layout }
        ensures set { (f : Fact) → told self.new f
            ↔ (told self.old f ⊎ ((f.owner ≡ b.0) × RowTells (outer_of self.old.layout b.0) words.now f.part)) }
        ensures tidy { IsTidy self.old → IsTidyRow (outer_of self.old.layout b.0) words.now → IsTidy self.new }
        ensures grew { IsTrue result → IsTidyRow (outer_of self.old.layout b.0) words.now → GainsFact self.old self.new }
        ensures same { result ≡ false → self.new ≡ self.old }
    {
        let first = self.first(b);
        self.words.join(first, words)
    }

    // The row leaves of a body.
    fn outer(&self, b: BodyNo) -> &[LeafNo]
        requires rows { AreRows self.now }
        requires in_range { b.0 < length self.now.layout.outer }
        ensures leaves { result.now ≡ outer_of self.now.layout b.0 }
        ensures increasing { IsIncreasing result.now }
        ensures fits { row_size (length result.now) < 2 ^ 32 }
    {
        self.layout.outer.at(b.0 as usize).as_slice()
    }

    // The first word of its row, which lies within the words.
    fn first(&self, b: BodyNo) -> usize
        requires rows { AreRows self.now }
        requires in_range { b.0 < length self.now.layout.outer }
        ensures first { result ≡ first_of self.now.layout b.0 }
        ensures within { result + row_size (length (outer_of self.now.layout b.0)) ≤ length self.now.words }
        ensures fits { result + row_size (length (outer_of self.now.layout b.0)) < 2 ^ 32 }
    {
        *self.layout.first.at(b.0 as usize) as usize
    }

    // Whether a bit of its row is set.
    fn has(&self, b: BodyNo, n: usize) -> bool
        requires rows { AreRows self.now }
        requires in_range { b.0 < length self.now.layout.outer }
        requires bit { n < 64 * row_size (length (outer_of self.now.layout b.0)) }
        ensures { IsTrue result ↔ Bit self.now.words (64 * first_of self.now.layout b.0 + n) }
    {
        has_bit(self.words.as_slice(), 64 * self.first(b) + n)
    }
}
