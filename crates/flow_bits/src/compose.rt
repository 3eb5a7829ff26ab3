ghost use Rattle.std.specs.Prelude.{◌≡◌, ℕ, ◌+◌, ◌*◌, ◌<◌, ◌≤◌, ◌^◌, ◌↔◌, ◌⊎◌, length, IsTrue, false};
ghost use Rattle.flow_bits.specs.Sets.{Relates, TellsPairs, GainsPair, Composes};
ghost use Rattle.flow_bits.specs.Words.{IsTidy, pairs, words_for};

use crate::flags::words_for;
use crate::pairs::{has_pair, join_pairs_at, lacks_word};

// Adds each (a, c) with (a, b) in `first` and (b, c) in `second`, and says whether any came in.
pub fn compose_rows(into: &mut [u64], first: &[u64], second: &[u64], size: usize) -> bool
    requires size { size < 2 ^ 32 }
    requires tidy { IsTidy size into.old }
    requires first { IsTidy size first.now }
    requires second { IsTidy size second.now }
    ensures tidy { IsTidy size into.new }
    ensures set { TellsPairs (pairs size into.new) (λ x y. Relates (pairs size into.old) x y
        ⊎ Composes (pairs size first.now) (pairs size second.now) x y) }
    ensures grew { IsTrue result → GainsPair (pairs size into.old) (pairs size into.new) }
    ensures same { result ≡ false → into.new ≡ into.old }
{
    let mut grew = false;
    for a in 0..size {
        if compose_row(into, first, second, a, size) {
            grew = true;
        }
    }
    grew
}

// The pairs of a alone. A word of the row of a without a bit is passed over.
fn compose_row(into: &mut [u64], first: &[u64], second: &[u64], a: usize, size: usize) -> bool
    requires size { size < 2 ^ 32 }
    requires tidy { IsTidy size into.old }
    requires first { IsTidy size first.now }
    requires second { IsTidy size second.now }
    requires a { a < size }
    ensures tidy { IsTidy size into.new }
    ensures set { TellsPairs (pairs size into.new) (λ x y. Relates (pairs size into.old) x y
        ⊎ ((x ≡ a) × Composes (pairs size first.now) (pairs size second.now) x y)) }
    ensures grew { IsTrue result → GainsPair (pairs size into.old) (pairs size into.new) }
    ensures same { result ≡ false → into.new ≡ into.old }
{
    let mut grew = false;
    for k in 0..words_for(size) {
        if compose_word(into, first, second, a, k, size) {
            grew = true;
        }
    }
    grew
}

// The pairs of a by the numbers of one word.
fn compose_word(
    into: &mut [u64],
    first: &[u64],
    second: &[u64],
    a: usize,
    k: usize,
    size: usize,
) -> bool
    requires size { size < 2 ^ 32 }
    requires tidy { IsTidy size into.old }
    requires first { IsTidy size first.now }
    requires second { IsTidy size second.now }
    requires a { a < size }
    requires k { k < words_for size }
    ensures tidy { IsTidy size into.new }
    ensures set { TellsPairs (pairs size into.new) (λ x y. Relates (pairs size into.old) x y
        ⊎ ((b : ℕ) × (b < 64 * k + 64) × ((64 * k ≤ b) × ((x ≡ a) × (Relates (pairs size first.now) a b × Relates (pairs size second.now) b y))))) }
    ensures grew { IsTrue result → GainsPair (pairs size into.old) (pairs size into.new) }
    ensures same { result ≡ false → into.new ≡ into.old }
{
    if lacks_word(first, a, k, size) {
        false
    } else {
        compose_block(into, first, second, a, k, size)
    }
}

fn compose_block(
    into: &mut [u64],
    first: &[u64],
    second: &[u64],
    a: usize,
    k: usize,
    size: usize,
) -> bool
    requires size { size < 2 ^ 32 }
    requires tidy { IsTidy size into.old }
    requires first { IsTidy size first.now }
    requires second { IsTidy size second.now }
    requires a { a < size }
    requires k { k < words_for size }
    ensures tidy { IsTidy size into.new }
    ensures set { TellsPairs (pairs size into.new) (λ x y. Relates (pairs size into.old) x y
        ⊎ ((b : ℕ) × (b < 64 * k + 64) × ((64 * k ≤ b) × ((x ≡ a) × (Relates (pairs size first.now) a b × Relates (pairs size second.now) b y))))) }
    ensures grew { IsTrue result → GainsPair (pairs size into.old) (pairs size into.new) }
    ensures same { result ≡ false → into.new ≡ into.old }
{
    let mut grew = false;
    for b in 64 * k..block_end(k, size) {
        if follow(into, first, second, a, b, size) {
            grew = true;
        }
    }
    grew
}

// The number behind the last of a word.
fn block_end(k: usize, size: usize) -> usize
    requires size { size < 2 ^ 32 }
    requires k { k < words_for size }
    ensures from { 64 * k ≤ result }
    ensures word { result ≤ 64 * k + 64 }
    ensures within { result ≤ size }
    ensures all { (b : ℕ) → b < 64 * k + 64 → b < size → b < result }
{
    if 64 * k + 64 < size {
        64 * k + 64
    } else {
        size
    }
}

// The pairs of a by one number.
fn follow(into: &mut [u64], first: &[u64], second: &[u64], a: usize, b: usize, size: usize) -> bool
    requires size { size < 2 ^ 32 }
    requires tidy { IsTidy size into.old }
    requires first { IsTidy size first.now }
    requires second { IsTidy size second.now }
    requires a { a < size }
    requires b { b < size }
    ensures tidy { IsTidy size into.new }
    ensures set { TellsPairs (pairs size into.new) (λ x y. Relates (pairs size into.old) x y
        ⊎ ((x ≡ a) × (Relates (pairs size first.now) a b × Relates (pairs size second.now) b y))) }
    ensures grew { IsTrue result → GainsPair (pairs size into.old) (pairs size into.new) }
    ensures same { result ≡ false → into.new ≡ into.old }
{
    if has_pair(first, a, b, size) {
        join_pairs_at(into, a, second, b, size)
    } else {
        false
    }
}
