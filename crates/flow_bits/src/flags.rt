ghost use Rattle.std.specs.Prelude.{◌≡◌, ◌≢◌, ℕ, ◌+◌, ◌*◌, ◌/◌, ◌%◌, ◌<◌, ◌≤◌, ◌^◌, ◌⊎◌, ◌↔◌, length, IsTrue, false};
ghost use Rattle.flow_bits.specs.Sets.{Has, Gains};
ghost use Rattle.flow_bits.specs.Words.{IsClean, flags, place_of, words_for};

use crate::words::{
    clear_words, has_bit, join_within, join_words, meet_words, minus_words, with_bit, without_bit,
    words_meet,
};

// Rows of flags that stand one behind another, each in as many words as its size asks.

// How many words a row has.
pub fn words_for(size: usize) -> usize
    requires { size < 2 ^ 32 }
    ensures { result ≡ words_for size }
{
    (size + 63) / 64
}

// The place of the word that has a flag.
fn place_of(a: usize, n: usize, size: usize) -> usize
    requires size { size < 2 ^ 32 }
    requires fits { (a + 1) * words_for size < 2 ^ 64 }
    requires n { n < size }
    ensures place { result ≡ place_of size a n }
    ensures below { result < (a + 1) * words_for size }
{
    a * words_for(size) + n / 64
}

// Adds row b to row a, and says whether that grew.
pub fn join_row(into: &mut [u64], a: usize, from: &[u64], b: usize, size: usize) -> bool
    requires size { size < 2 ^ 32 }
    requires into { (a + 1) * words_for size ≤ length into.old }
    requires from { (b + 1) * words_for size ≤ length from.now }
    requires clean { IsClean size into.old }
    requires clean_from { IsClean size from.now }
    ensures clean { IsClean size into.new }
    ensures set { (x y : ℕ) → Has (flags size into.new x) y ↔ (Has (flags size into.old x) y ⊎ ((x ≡ a) × Has (flags size from.now b) y)) }
    ensures grew { IsTrue result → Gains (flags size into.old a) (flags size into.new a) }
    ensures same { result ≡ false → into.new ≡ into.old }
{
    join_words(into, a, from, b, words_for(size)) != 0
}

// The same of two rows of one list.
pub fn join_row_within(words: &mut [u64], a: usize, b: usize, size: usize)
    requires size { size < 2 ^ 32 }
    requires a { (a + 1) * words_for size ≤ length words.old }
    requires b { (b + 1) * words_for size ≤ length words.old }
    requires clean { IsClean size words.old }
    ensures clean { IsClean size words.new }
    ensures set { (x y : ℕ) → Has (flags size words.new x) y ↔ (Has (flags size words.old x) y ⊎ ((x ≡ a)
        × Has (flags size words.old b) y)) }
{
    if a != b {
        join_within(words, a, b, words_for(size));
    }
}

// Keeps the flags of row a that row b has too.
pub fn meet_row(into: &mut [u64], a: usize, from: &[u64], b: usize, size: usize)
    requires size { size < 2 ^ 32 }
    requires into { (a + 1) * words_for size ≤ length into.old }
    requires from { (b + 1) * words_for size ≤ length from.now }
    requires clean { IsClean size into.old }
    requires clean_from { IsClean size from.now }
    ensures clean { IsClean size into.new }
    ensures set { (x y : ℕ) → Has (flags size into.new x) y ↔ (Has (flags size into.old x) y × (x ≡ a → Has (flags size from.now b) y)) }
{
    meet_words(into, a, from, b, words_for(size));
}

// Takes the flags of row b from row a.
pub fn minus_row(into: &mut [u64], a: usize, from: &[u64], b: usize, size: usize)
    requires size { size < 2 ^ 32 }
    requires into { (a + 1) * words_for size ≤ length into.old }
    requires from { (b + 1) * words_for size ≤ length from.now }
    requires clean { IsClean size into.old }
    requires clean_from { IsClean size from.now }
    ensures clean { IsClean size into.new }
    ensures set { (x y : ℕ) → Has (flags size into.new x) y ↔ (Has (flags size into.old x) y
        × (x ≡ a → Has (flags size from.now b) y → ⊥)) }
{
    minus_words(into, a, from, b, words_for(size));
}

// Takes all flags from row a.
pub fn clear_row(into: &mut [u64], a: usize, size: usize)
    requires size { size < 2 ^ 32 }
    requires into { (a + 1) * words_for size ≤ length into.old }
    requires clean { IsClean size into.old }
    ensures clean { IsClean size into.new }
    ensures set { (x y : ℕ) → Has (flags size into.new x) y ↔ ((x ≢ a) × Has (flags size into.old x) y) }
{
    clear_words(into, a, words_for(size));
}

// Whether two rows have a flag in common.
pub fn rows_meet(one: &[u64], a: usize, other: &[u64], b: usize, size: usize) -> bool
    requires size { size < 2 ^ 32 }
    requires one { (a + 1) * words_for size ≤ length one.now }
    requires other { (b + 1) * words_for size ≤ length other.now }
    requires clean { IsClean size one.now }
    ensures { IsTrue result ↔ ((v : ℕ) × Has (flags size one.now a) v × Has (flags size other.now b) v) }
{
    words_meet(one, a, other, b, words_for(size))
}

// Whether a row has a flag.
pub fn has_flag(words: &[u64], a: usize, n: usize, size: usize) -> bool
    requires size { size < 2 ^ 32 }
    requires row { (a + 1) * words_for size ≤ length words.now }
    requires n { n < size }
    ensures { IsTrue result ↔ Has (flags size words.now a) n }
{
    has_bit(words[place_of(a, n, size)], (n % 64) as u32)
}

// Adds a flag to row a, and says whether that grew.
pub fn add_flag(words: &mut [u64], a: usize, n: usize, size: usize) -> bool
    requires size { size < 2 ^ 32 }
    requires row { (a + 1) * words_for size ≤ length words.old }
    requires n { n < size }
    requires clean { IsClean size words.old }
    ensures clean { IsClean size words.new }
    ensures set { (x y : ℕ) → Has (flags size words.new x) y ↔ (Has (flags size words.old x) y ⊎ ((x ≡ a) × (y ≡ n))) }
    ensures grew { IsTrue result → Gains (flags size words.old a) (flags size words.new a) }
    ensures same { result ≡ false → words.new ≡ words.old }
{
    if has_flag(words, a, n, size) {
        return false;
    }
    let at = place_of(a, n, size);
    words[at] = with_bit(words[at], (n % 64) as u32);
    true
}

// Takes a flag from row a.
pub fn remove_flag(words: &mut [u64], a: usize, n: usize, size: usize)
    requires size { size < 2 ^ 32 }
    requires row { (a + 1) * words_for size ≤ length words.old }
    requires n { n < size }
    requires clean { IsClean size words.old }
    ensures clean { IsClean size words.new }
    ensures set { (x y : ℕ) → Has (flags size words.new x) y ↔ (Has (flags size words.old x) y × ((x ≡ a) → y ≢ n)) }
{
    let at = place_of(a, n, size);
    words[at] = without_bit(words[at], (n % 64) as u32);
}

// Whether a word of row a has no flag.
pub fn is_empty_word(words: &[u64], a: usize, k: usize, size: usize) -> bool
    requires size { size < 2 ^ 32 }
    requires row { (a + 1) * words_for size ≤ length words.now }
    requires k { k < words_for size }
    ensures { IsTrue result → (n : ℕ) → 64 * k ≤ n → n < 64 * k + 64 → Has (flags size words.now a) n → ⊥ }
{
    words[a * words_for(size) + k] == 0
}
