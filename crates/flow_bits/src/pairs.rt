ghost use Rattle.std.specs.Prelude.{◌≡◌, ◌≢◌, ℕ, ◌+◌, ◌*◌, ◌<◌, ◌≤◌, ◌^◌, ◌↔◌, ◌⊎◌, length, IsTrue, false};
ghost use Rattle.flow_bits.specs.Sets.{Has, Tells, Gains, either, Relates, TellsPairs, GainsPair, Composes, Closes};
ghost use Rattle.flow_bits.specs.Words.{IsClean, IsTidy, flags, pairs, words_for};

use crate::flags::{
    add_flag, clear_row, has_flag, is_empty_word, join_row, join_row_within, meet_row, rows_meet,
    words_for,
};
use crate::row::Row;

// Squares as words: as many rows as a row has flags.

// Whether a pair is there.
pub fn has_pair(words: &[u64], a: usize, b: usize, size: usize) -> bool
    requires size { size < 2 ^ 32 }
    requires tidy { IsTidy size words.now }
    requires a { a < size }
    requires b { b < size }
    ensures { IsTrue result ↔ Relates (pairs size words.now) a b }
{
    has_flag(words, a, b, size)
}

// Adds a pair, and says whether it came in.
pub fn add_pair(words: &mut [u64], a: usize, b: usize, size: usize) -> bool
    requires size { size < 2 ^ 32 }
    requires tidy { IsTidy size words.old }
    requires a { a < size }
    requires b { b < size }
    ensures tidy { IsTidy size words.new }
    ensures set { TellsPairs (pairs size words.new) (λ x y. Relates (pairs size words.old) x y ⊎ ((x ≡ a) × (y ≡ b))) }
    ensures grew { IsTrue result → GainsPair (pairs size words.old) (pairs size words.new) }
    ensures same { result ≡ false → words.new ≡ words.old }
{
    add_flag(words, a, b, size)
}

// Takes the pairs of a away.
pub fn clear_at(words: &mut [u64], a: usize, size: usize)
    requires size { size < 2 ^ 32 }
    requires tidy { IsTidy size words.old }
    requires a { a < size }
    ensures tidy { IsTidy size words.new }
    ensures set { TellsPairs (pairs size words.new) (λ x y. (x ≢ a) × Relates (pairs size words.old) x y) }
{
    clear_row(words, a, size);
}

// Adds the pairs of a with each flag of row b, and says whether any came in.
fn join_at(into: &mut [u64], a: usize, from: &[u64], b: usize, size: usize) -> bool
    requires size { size < 2 ^ 32 }
    requires tidy { IsTidy size into.old }
    requires a { a < size }
    requires from { (b + 1) * words_for size ≤ length from.now }
    requires clean { IsClean size from.now }
    ensures tidy { IsTidy size into.new }
    ensures set { TellsPairs (pairs size into.new) (λ x y. Relates (pairs size into.old) x y ⊎ ((x ≡ a) × Has (flags size from.now b) y)) }
    ensures grew { IsTrue result → GainsPair (pairs size into.old) (pairs size into.new) }
    ensures same { result ≡ false → into.new ≡ into.old }
{
    join_row(into, a, from, b, size)
}

// Adds the pairs of a with each number of a set, and says whether any came in.
pub fn join_row_at(into: &mut [u64], a: usize, row: &Row, size: usize) -> bool
    requires size { size < 2 ^ 32 }
    requires tidy { IsTidy size into.old }
    requires a { a < size }
    requires row { length row.now ≡ size }
    ensures tidy { IsTidy size into.new }
    ensures set { TellsPairs (pairs size into.new) (λ x y. Relates (pairs size into.old) x y ⊎ ((x ≡ a) × Has row.now y)) }
    ensures grew { IsTrue result → GainsPair (pairs size into.old) (pairs size into.new) }
    ensures same { result ≡ false → into.new ≡ into.old }
{
    join_at(into, a, row.words(), 0, size)
}

// Makes `into` the set of the numbers to which a is related.
pub fn copy_at(words: &[u64], a: usize, into: &mut Row, size: usize)
    requires size { size < 2 ^ 32 }
    requires tidy { IsTidy size words.now }
    requires a { a < size }
    requires into { length into.old ≡ size }
    ensures size { length into.new ≡ size }
    ensures set { Tells into.new (λ y. Relates (pairs size words.now) a y) }
{
    into.copy_words(words, a);
}

// Adds a to `into`, if a is related to itself.
fn diagonal_at(words: &[u64], into: &mut Row, a: usize, size: usize)
    requires size { size < 2 ^ 32 }
    requires tidy { IsTidy size words.now }
    requires a { a < size }
    requires into { length into.old ≡ size }
    ensures size { length into.new ≡ size }
    ensures set { Tells into.new (λ v. Has into.old v ⊎ ((v ≡ a) × Relates (pairs size words.now) v v)) }
{
    if has_pair(words, a, a, size) {
        into.add(a as u32);
    }
}

// Adds to `into` each number that is related to itself.
pub fn diagonal_rows(words: &[u64], into: &mut Row, size: usize)
    requires size { size < 2 ^ 32 }
    requires tidy { IsTidy size words.now }
    requires into { length into.old ≡ size }
    ensures size { length into.new ≡ size }
    ensures set { Tells into.new (either into.old (λ v. Relates (pairs size words.now) v v)) }
{
    for a in 0..size {
        diagonal_at(words, into, a, size);
    }
}

// Keeps the pairs of a whose two numbers are in the set.
fn restrict_at(into: &mut [u64], row: &Row, a: usize, size: usize)
    requires size { size < 2 ^ 32 }
    requires tidy { IsTidy size into.old }
    requires a { a < size }
    requires row { length row.now ≡ size }
    ensures tidy { IsTidy size into.new }
    ensures set { TellsPairs (pairs size into.new) (λ x y. Relates (pairs size into.old) x y × (x ≡ a → Has row.now x × Has row.now y)) }
{
    if row.has(a as u32) {
        meet_at(into, row, a, size);
    } else {
        clear_at(into, a, size);
    }
}

// Keeps the pairs of a whose second number is in the set.
fn meet_at(into: &mut [u64], row: &Row, a: usize, size: usize)
    requires size { size < 2 ^ 32 }
    requires tidy { IsTidy size into.old }
    requires a { a < size }
    requires row { length row.now ≡ size }
    ensures tidy { IsTidy size into.new }
    ensures set { TellsPairs (pairs size into.new) (λ x y. Relates (pairs size into.old) x y × (x ≡ a → Has row.now y)) }
{
    meet_row(into, a, row.words(), 0, size);
}

// Keeps the pairs whose two numbers are in the set.
pub fn restrict_rows(into: &mut [u64], row: &Row, size: usize)
    requires size { size < 2 ^ 32 }
    requires tidy { IsTidy size into.old }
    requires row { length row.now ≡ size }
    ensures tidy { IsTidy size into.new }
    ensures set { TellsPairs (pairs size into.new) (λ x y. Relates (pairs size into.old) x y × (Has row.now x × Has row.now y)) }
{
    for a in 0..size {
        restrict_at(into, row, a, size);
    }
}

// Adds the pairs of a with each number to which b is related elsewhere, and says whether any came in.
pub fn join_pairs_at(into: &mut [u64], a: usize, from: &[u64], b: usize, size: usize) -> bool
    requires size { size < 2 ^ 32 }
    requires tidy { IsTidy size into.old }
    requires from { IsTidy size from.now }
    requires a { a < size }
    requires b { b < size }
    ensures tidy { IsTidy size into.new }
    ensures set { TellsPairs (pairs size into.new) (λ x y. Relates (pairs size into.old) x y ⊎ ((x ≡ a)
        × Relates (pairs size from.now) b y)) }
    ensures grew { IsTrue result → GainsPair (pairs size into.old) (pairs size into.new) }
    ensures same { result ≡ false → into.new ≡ into.old }
{
    join_at(into, a, from, b, size)
}

// Adds all pairs of another square, and says whether any came in.
pub fn union_rows(into: &mut [u64], from: &[u64], size: usize) -> bool
    requires size { size < 2 ^ 32 }
    requires tidy { IsTidy size into.old }
    requires from { IsTidy size from.now }
    ensures tidy { IsTidy size into.new }
    ensures set { TellsPairs (pairs size into.new) (λ x y. Relates (pairs size into.old) x y ⊎ Relates (pairs size from.now) x y) }
    ensures grew { IsTrue result → GainsPair (pairs size into.old) (pairs size into.new) }
    ensures same { result ≡ false → into.new ≡ into.old }
{
    let mut grew = false;
    for a in 0..size {
        if join_pairs_at(into, a, from, a, size) {
            grew = true;
        }
    }
    grew
}

// Adds the pairs of a with each number of `right`, if a is in `left`, and says whether any came in.
fn cross_at(into: &mut [u64], left: &Row, right: &Row, a: usize, size: usize) -> bool
    requires size { size < 2 ^ 32 }
    requires tidy { IsTidy size into.old }
    requires left { length left.now ≡ size }
    requires right { length right.now ≡ size }
    requires a { a < size }
    ensures tidy { IsTidy size into.new }
    ensures set { TellsPairs (pairs size into.new) (λ x y. Relates (pairs size into.old) x y ⊎ ((x ≡ a)
        × (Has left.now x × Has right.now y))) }
    ensures grew { IsTrue result → GainsPair (pairs size into.old) (pairs size into.new) }
    ensures same { result ≡ false → into.new ≡ into.old }
{
    if left.has(a as u32) {
        join_row_at(into, a, right, size)
    } else {
        false
    }
}

// Adds `left` × `right`, and says whether any pair came in.
pub fn cross_rows(into: &mut [u64], left: &Row, right: &Row, size: usize) -> bool
    requires size { size < 2 ^ 32 }
    requires tidy { IsTidy size into.old }
    requires left { length left.now ≡ size }
    requires right { length right.now ≡ size }
    ensures tidy { IsTidy size into.new }
    ensures set { TellsPairs (pairs size into.new) (λ x y. Relates (pairs size into.old) x y ⊎ (Has left.now x × Has right.now y)) }
    ensures grew { IsTrue result → GainsPair (pairs size into.old) (pairs size into.new) }
    ensures same { result ≡ false → into.new ≡ into.old }
{
    let mut grew = false;
    for a in 0..size {
        if cross_at(into, left, right, a, size) {
            grew = true;
        }
    }
    grew
}

// Adds a to `into`, if it is related to a number of `row`, and says whether it came in.
fn back_at(words: &[u64], row: &Row, into: &mut Row, a: usize, size: usize) -> bool
    requires size { size < 2 ^ 32 }
    requires tidy { IsTidy size words.now }
    requires row { length row.now ≡ size }
    requires into { length into.old ≡ size }
    requires a { a < size }
    ensures size { length into.new ≡ size }
    ensures set { Tells into.new (λ x. Has into.old x ⊎ ((x ≡ a) × ((b : ℕ) × (Relates (pairs size words.now) x b × Has row.now b)))) }
    ensures grew { IsTrue result → Gains into.old into.new }
    ensures same { result ≡ false → into.new ≡ into.old }
{
    if meets_at(words, row, a, size) {
        into.add(a as u32)
    } else {
        false
    }
}

// Whether a is related to a number of `row`.
fn meets_at(words: &[u64], row: &Row, a: usize, size: usize) -> bool
    requires size { size < 2 ^ 32 }
    requires tidy { IsTidy size words.now }
    requires row { length row.now ≡ size }
    requires a { a < size }
    ensures { IsTrue result ↔ ((b : ℕ) × (Relates (pairs size words.now) a b × Has row.now b)) }
{
    rows_meet(words, a, row.words(), 0, size)
}

// Adds to `into` each number that is related to one of `row`, and says whether any came in.
pub fn back_rows(words: &[u64], row: &Row, into: &mut Row, size: usize) -> bool
    requires size { size < 2 ^ 32 }
    requires tidy { IsTidy size words.now }
    requires row { length row.now ≡ size }
    requires into { length into.old ≡ size }
    ensures size { length into.new ≡ size }
    ensures set { Tells into.new (λ a. Has into.old a ⊎ ((b : ℕ) × (Relates (pairs size words.now) a b × Has row.now b))) }
    ensures grew { IsTrue result → Gains into.old into.new }
    ensures same { result ≡ false → into.new ≡ into.old }
{
    let mut grew = false;
    for a in 0..size {
        if back_at(words, row, into, a, size) {
            grew = true;
        }
    }
    grew
}

// The same within one square.
pub fn join_within_at(words: &mut [u64], a: usize, b: usize, size: usize)
    requires size { size < 2 ^ 32 }
    requires tidy { IsTidy size words.old }
    requires a { a < size }
    requires b { b < size }
    ensures tidy { IsTidy size words.new }
    ensures set { TellsPairs (pairs size words.new) (λ x y. Relates (pairs size words.old) x y ⊎ ((x ≡ a)
        × Relates (pairs size words.old) b y)) }
{
    join_row_within(words, a, b, size);
}

// Whether a is related to no number of one word.
pub fn lacks_word(words: &[u64], a: usize, k: usize, size: usize) -> bool
    requires size { size < 2 ^ 32 }
    requires tidy { IsTidy size words.now }
    requires a { a < size }
    requires k { k < words_for size }
    ensures { IsTrue result → (b : ℕ) → 64 * k ≤ b → b < 64 * k + 64 → Relates (pairs size words.now) a b → ⊥ }
{
    is_empty_word(words, a, k, size)
}
