ghost use Rattle.std.specs.Prelude.{◌≡◌, ℕ, ◌+◌, ◌*◌, ◌<◌, ◌≤◌, ◌^◌, [], ◌∷◌, ◌++◌, length, IfSome, IfNone, IfOk};
ghost use Rattle.flow_bits.specs.Words.{words_for};
ghost use Rattle.summary_rows.specs.Layout.{IsAt, IsIncreasing, IsLayout, row_size};

use spark_base::{Items, LeafNo, NoMemory};
use std::alloc::Global;

/// The row leaves of each body, in increasing order, the first word of its row, and the count of all words. The rows stand one
/// behind another, in the order of the bodies.
#[derive(Drop)]
pub struct Layout {
    pub outer: Items<Items<LeafNo>>,
    pub first: Items<u32>,
    pub words: u32,
}

impl Layout {
    /// Of no body, which takes no memory yet.
    pub fn new(alloc: Global) -> Layout
        ensures layout { IsLayout result }
        ensures outer { result.outer ≡ [] }
        ensures words { result.words ≡ 0 }
    {
        Layout {
            outer: Items::new(alloc),
            first: Items::new(alloc),
            words: 0,
        }
    }

    /// The layout with the row of one more body, behind the others. Its leaves increase, and there is room for its words.
    pub fn with_row(mut self, outer: Items<LeafNo>) -> Result<Layout, NoMemory>
        requires layout { IsLayout self }
        requires increasing { IsIncreasing outer }
        requires room { self.words + row_size (length outer) < 2 ^ 32 }
        ensures layout { IfOk result (λ new. IsLayout new) }
        ensures outer { IfOk result (λ new. new.outer ≡ self.outer ++ outer ∷ []) }
        ensures words { IfOk result (λ new. new.words ≡ self.words + row_size (length outer)) }
    {
        let words = row_size(outer.len());
        self.first.push(self.words)?;
        self.outer.push(outer)?;
        self.words += words;
        Ok(self)
    }

    /// The same layout once more.
    pub fn copy(&self, alloc: Global) -> Result<Layout, NoMemory>
        ensures { IfOk result (λ copy. copy ≡ self.now) }
    {
        Ok(Layout {
            outer: copy_lists(alloc, self.outer.as_slice())?,
            first: copy_of(alloc, self.first.as_slice())?,
            words: self.words,
        })
    }
}

fn copy_lists(alloc: Global, lists: &[Items<LeafNo>]) -> Result<Items<Items<LeafNo>>, NoMemory>
    ensures { IfOk result (λ copy. copy ≡ lists.now) }
{
    let mut copy = Items::new(alloc);
    for list in lists {
        copy.push(copy_of(alloc, list.as_slice())?)?;
    }
    Ok(copy)
}

fn copy_of<T: Copy + Drop>(alloc: Global, items: &[T]) -> Result<Items<T>, NoMemory>
    ensures { IfOk result (λ copy. copy ≡ items.now) }
{
    let mut copy = Items::new(alloc);
    for item in items {
        copy.push(*item)?;
    }
    Ok(copy)
}

/// The words of a row of so many leaves.
pub fn row_size(leaves: usize) -> u32
    requires { row_size leaves < 2 ^ 32 }
    ensures { result ≡ row_size leaves }
{
    (1 + 3 * words_for(leaves) + words_for(leaves * leaves)) as u32
}

// Words for so many bits.
pub fn words_for(count: usize) -> usize
    requires { count < 2 ^ 40 }
    ensures { result ≡ words_for count }
{
    count.div_ceil(64)
}

// The place of a leaf among the row leaves.
pub fn place_of(outer: &[LeafNo], v: LeafNo) -> Option<usize>
    requires { IsIncreasing outer.now }
    ensures some { IfSome result (λ i. IsAt outer.now v.0 i × (i < length outer.now)) }
    ensures none { IfNone result ((i : ℕ) → IsAt outer.now v.0 i → ⊥) }
{
    let mut low = 0;
    let mut high = outer.len();
    while low < high {
        let middle = low + (high - low) / 2;
        if outer[middle].0 < v.0 {
            low = middle + 1;
        } else {
            high = middle;
        }
    }
    if low < outer.len() && outer[low].0 == v.0 {
        Some(low)
    } else {
        None
    }
}

// The place of a pair of leaves among the pairs of row leaves.
pub fn pair_of(outer: &[LeafNo], from: LeafNo, to: LeafNo) -> Option<usize>
    requires increasing { IsIncreasing outer.now }
    requires fits { length outer.now * length outer.now < 2 ^ 40 }
    ensures some { IfSome result (λ n. (n < length outer.now * length outer.now)
        × ((i : ℕ) × ((j : ℕ) × (IsAt outer.now from.0 i × (IsAt outer.now to.0 j × (n ≡ i * length outer.now + j)))))) }
    ensures none { IfNone result ((i j : ℕ) → IsAt outer.now from.0 i → IsAt outer.now to.0 j → ⊥) }
{
    let i = place_of(outer, from)?;
    let j = place_of(outer, to)?;
    Some(pair_at(i, j, outer.len()))
}

#[tactic(auto, using(crate::proofs::Pairs::pair_below))]
fn pair_at(i: usize, j: usize, r: usize) -> usize
    requires i { i < r }
    requires j { j < r }
    requires fits { r * r < 2 ^ 40 }
    ensures value { result ≡ i * r + j }
    ensures below { result < r * r }
{
    i * r + j
}
