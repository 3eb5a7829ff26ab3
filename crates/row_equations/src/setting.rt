ghost use Rattle.std.specs.Prelude.{◌≡◌, ℕ, ◌+◌, ◌*◌, ◌/◌, ◌<◌, ◌≤◌, ◌^◌, ◌⊎◌, ◌↔◌, All, length, IfSome, IsSomeAnd};
ghost use Rattle.flow_bits.specs.Sets.{Has, Relates};
ghost use Rattle.flow_bits.specs.Words.{IsSet};
ghost use Rattle.summary_rows.specs.Bits.{Bit};
ghost use Rattle.row_equations.specs.Packing.{AtLeaf, AtNumber, AtNumbers};

use flow_bits::{Row, Square};
use spark_base::LeafNo;

#[tactic(auto, using(flow_bits::proofs::Bits::set_one))]
fn with_bit(word: u64, i: u32) -> u64
    requires { i < 64 }
    ensures { (k : ℕ) → IsSet result k ↔ (IsSet word k ⊎ (k ≡ i)) }
{
    word | (1 << i)
}

// Sets a bit.
pub fn set_bit(words: &mut [u64], at: usize)
    requires { at / 64 < length words.old }
    ensures { (n : ℕ) → Bit words.new n ↔ (Bit words.old n ⊎ (n ≡ at)) }
{
    words[at / 64] = with_bit(words[at / 64], (at % 64) as u32);
}

// Sets a bit where a leaf is in a set.
fn add_leaf(words: &mut [u64], at: usize, leaf: LeafNo, set: &Row)
    requires at { at / 64 < length words.old }
    requires leaf { leaf.0 < length set.now }
    ensures { (n : ℕ) → Bit words.new n ↔ (Bit words.old n ⊎ ((n ≡ at) × Has set.now leaf.0)) }
{
    if set.has(leaf.0) {
        set_bit(words, at);
    }
}

// Sets the bits of the leaves of a set, where that of the first leaf is given.
pub fn add_leaves(words: &mut [u64], first: usize, outer: &[LeafNo], set: &Row)
    requires leaves { All (λ v. v.0 < length set.now) outer.now }
    requires room { first + length outer.now ≤ 64 * length words.old }
    requires fits { first + length outer.now < 2 ^ 40 }
    ensures { (n : ℕ) → Bit words.new n ↔ (Bit words.old n ⊎ AtLeaf outer.now first (Has set.now) n) }
{
    for i in 0..outer.len() {
        add_leaf(words, first + i, outer[i], set);
    }
}

// Sets a bit where a number and another, if there is one, are a pair.
fn add_pair(words: &mut [u64], at: usize, from: u32, to: Option<u32>, depends: &Square)
    requires at { at / 64 < length words.old }
    requires from { from < length depends.now }
    requires to { IfSome to (λ k. k < length depends.now) }
    ensures { (n : ℕ) → Bit words.new n ↔ (Bit words.old n ⊎ ((n ≡ at) × IsSomeAnd to (Relates depends.now from))) }
{
    let Some(to) = to else {
        return;
    };
    if depends.has(from, to) {
        set_bit(words, at);
    }
}

// Sets the bits of the pairs of one number, where that of its pair with the first leaf is given.
fn add_row(words: &mut [u64], first: usize, from: u32, numbers: &[Option<u32>], depends: &Square)
    requires from { from < length depends.now }
    requires numbers { All (λ n. IfSome n (λ k. k < length depends.now)) numbers.now }
    requires room { first + length numbers.now ≤ 64 * length words.old }
    requires fits { first + length numbers.now < 2 ^ 40 }
    ensures { (n : ℕ) → Bit words.new n ↔ (Bit words.old n ⊎ AtNumber numbers.now first (Relates depends.now from) n) }
{
    for j in 0..numbers.len() {
        add_pair(words, first + j, from, numbers[j], depends);
    }
}

// The same where there is such a number.
fn add_some_row(
    words: &mut [u64],
    first: usize,
    from: Option<u32>,
    numbers: &[Option<u32>],
    depends: &Square,
)
    requires from { IfSome from (λ k. k < length depends.now) }
    requires numbers { All (λ n. IfSome n (λ k. k < length depends.now)) numbers.now }
    requires room { first + length numbers.now ≤ 64 * length words.old }
    requires fits { first + length numbers.now < 2 ^ 40 }
    ensures { (n : ℕ) → Bit words.new n
        ↔ (Bit words.old n ⊎ IsSomeAnd from (λ k. AtNumber numbers.now first (Relates depends.now k) n)) }
{
    if let Some(from) = from {
        add_row(words, first, from, numbers, depends);
    }
}

// The bit of the first pair of a leaf.
#[tactic(auto, using(crate::proofs::First::row_below))]
fn row_from(first: usize, i: usize, count: usize) -> usize
    requires i { i < count }
    requires fits { first + count * count < 2 ^ 40 }
    ensures value { result ≡ first + i * count }
    ensures below { result + count ≤ first + count * count }
{
    first + i * count
}

// Sets the bits of pairs, where that of the first leaf with itself is given.
pub fn add_pairs(words: &mut [u64], first: usize, numbers: &[Option<u32>], depends: &Square)
    requires numbers { All (λ n. IfSome n (λ k. k < length depends.now)) numbers.now }
    requires room { first + length numbers.now * length numbers.now ≤ 64 * length words.old }
    requires fits { first + length numbers.now * length numbers.now < 2 ^ 40 }
    ensures { (n : ℕ) → Bit words.new n ↔ (Bit words.old n ⊎ AtNumbers numbers.now first (Relates depends.now) n) }
{
    for i in 0..numbers.len() {
        let at = row_from(first, i, numbers.len());
        add_some_row(words, at, numbers[i], numbers, depends);
    }
}
