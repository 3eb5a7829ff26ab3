ghost use Rattle.std.specs.Prelude.{◌≡◌, ◌≢◌, ℕ, ◌+◌, ◌*◌, ◌<◌, ◌≤◌, ◌⊎◌, ◌↔◌, length, IsTrue, bit_and, bit_or};
ghost use Rattle.std.specs.Int.{bit_not, w64};
ghost use Rattle.flow_bits.specs.Words.{IsEach, IsJoined, IsSet, word};

use std::simd::prelude::*;

// Rows of so many words each, one behind another. The words of one are changed one after another, each by the
// word that stands at the same place of a second row.

// Adds the bits of row b to row a. The answer has a bit where one came in.
pub fn join_words(into: &mut [u64], a: usize, from: &[u64], b: usize, width: usize) -> u64
    requires into { (a + 1) * width ≤ length into.old }
    requires from { (b + 1) * width ≤ length from.now }
    ensures { IsJoined (a * width) (b * width) width into.old from.now into.new result }
{
    let fours = width / 4;
    let at = a * width;
    let start = b * width;
    let more = join_fours(into, at, from, start, fours);
    more | join_rest(into, at + 4 * fours, from, start + 4 * fours, width % 4)
}

// Four words at a time, so many times.
fn join_fours(into: &mut [u64], at: usize, from: &[u64], start: usize, count: usize) -> u64
    requires into { at + 4 * count ≤ length into.old }
    requires from { start + 4 * count ≤ length from.now }
    ensures { IsJoined at start (4 * count) into.old from.now into.new result }
{
    let mut more = 0;
    for k in 0..count {
        more |= join_four(into, at + 4 * k, from, start + 4 * k);
    }
    more
}

#[inline]
fn join_four(into: &mut [u64], at: usize, from: &[u64], start: usize) -> u64
    requires into { at + 4 ≤ length into.old }
    requires from { start + 4 ≤ length from.now }
    ensures { IsJoined at start 4 into.old from.now into.new result }
{
    let x = u64x4::from_slice(&from[start..]);
    let y = u64x4::from_slice(&into[at..]);
    (y | x).copy_to_slice(&mut into[at..]);
    (x & !y).reduce_or()
}

// One word at a time.
fn join_rest(into: &mut [u64], at: usize, from: &[u64], start: usize, count: usize) -> u64
    requires into { at + count ≤ length into.old }
    requires from { start + count ≤ length from.now }
    ensures { IsJoined at start count into.old from.now into.new result }
{
    let mut more = 0;
    for k in 0..count {
        more |= join_word(into, at + k, from, start + k);
    }
    more
}

#[inline]
fn join_word(into: &mut [u64], at: usize, from: &[u64], start: usize) -> u64
    requires into { at < length into.old }
    requires from { start < length from.now }
    ensures { IsJoined at start 1 into.old from.now into.new result }
{
    let more = from[start] & !into[at];
    into[at] |= from[start];
    more
}

// The same of two rows of one list.
pub fn join_within(words: &mut [u64], a: usize, b: usize, width: usize)
    requires a { (a + 1) * width ≤ length words.old }
    requires b { (b + 1) * width ≤ length words.old }
    requires apart { (a * width + width ≤ b * width) ⊎ (b * width + width ≤ a * width) }
    ensures { IsEach bit_or (a * width) (b * width) width words.old words.old words.new }
{
    for k in 0..width {
        words[a * width + k] |= words[b * width + k];
    }
}

// Keeps the bits of row a that row b has too.
pub fn meet_words(into: &mut [u64], a: usize, from: &[u64], b: usize, width: usize)
    requires into { (a + 1) * width ≤ length into.old }
    requires from { (b + 1) * width ≤ length from.now }
    ensures { IsEach bit_and (a * width) (b * width) width into.old from.now into.new }
{
    for k in 0..width {
        into[a * width + k] &= from[b * width + k];
    }
}

// Takes the bits of row b from row a.
pub fn minus_words(into: &mut [u64], a: usize, from: &[u64], b: usize, width: usize)
    requires into { (a + 1) * width ≤ length into.old }
    requires from { (b + 1) * width ≤ length from.now }
    ensures { IsEach (λ x y. bit_and x (bit_not w64 y)) (a * width) (b * width) width into.old from.now into.new }
{
    for k in 0..width {
        into[a * width + k] &= !from[b * width + k];
    }
}

// Takes all bits from row a.
pub fn clear_words(into: &mut [u64], a: usize, width: usize)
    requires { (a + 1) * width ≤ length into.old }
    ensures { IsEach (λ x y. 0) (a * width) (a * width) width into.old into.old into.new }
{
    for k in 0..width {
        into[a * width + k] = 0;
    }
}

// Whether two rows have a bit in common.
pub fn words_meet(one: &[u64], a: usize, other: &[u64], b: usize, width: usize) -> bool
    requires one { (a + 1) * width ≤ length one.now }
    requires other { (b + 1) * width ≤ length other.now }
    ensures { IsTrue result ↔ ((k : ℕ) × (k < width)
        × (bit_and (word one.now (a * width + k)) (word other.now (b * width + k)) ≢ 0)) }
{
    for k in 0..width {
        if one[a * width + k] & other[b * width + k] != 0 {
            return true;
        }
    }
    false
}

// Whether a word has a bit.
pub fn has_bit(x: u64, i: u32) -> bool
    requires { i < 64 }
    ensures { IsTrue result ↔ IsSet x i }
{
    (x >> i) & 1 == 1
}

// Adds a bit.
#[tactic(auto, using(crate::proofs::Bits::set_one))]
pub fn with_bit(x: u64, i: u32) -> u64
    requires { i < 64 }
    ensures { (k : ℕ) → IsSet result k ↔ (IsSet x k ⊎ (k ≡ i)) }
{
    x | (1 << i)
}

// Takes a bit away.
#[tactic(auto, using(crate::proofs::Bits::clear_one))]
pub fn without_bit(x: u64, i: u32) -> u64
    requires { i < 64 }
    ensures { (k : ℕ) → IsSet result k ↔ (IsSet x k × (k ≢ i)) }
{
    x & !(1 << i)
}
