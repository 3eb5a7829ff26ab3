ghost use Rattle.std.specs.Prelude.{◌≡◌, ℕ, ◌<◌, ◌^◌, ◌⊎◌};
ghost use Rattle.flow_bits.specs.Sets.{Relates, TellsPairs, Closes};
ghost use Rattle.flow_bits.specs.Words.{IsTidy, pairs};

use crate::pairs::{add_pair, has_pair, join_within_at};

// Adds each number with itself, and each (a, c) to which a chain of pairs leads.
pub fn close_rows(words: &mut [u64], size: usize)
    requires size { size < 2 ^ 32 }
    requires tidy { IsTidy size words.old }
    ensures tidy { IsTidy size words.new }
    ensures set { TellsPairs (pairs size words.new) (Closes (pairs size words.old)) }
{
    for k in 0..size {
        step_rows(words, k, size);
    }
    add_diagonal(words, size);
}

// Adds (a, c) for each (a, k) and (k, c).
fn step_rows(words: &mut [u64], k: usize, size: usize)
    requires size { size < 2 ^ 32 }
    requires tidy { IsTidy size words.old }
    requires k { k < size }
    ensures tidy { IsTidy size words.new }
    ensures set { TellsPairs (pairs size words.new) (λ x y. Relates (pairs size words.old) x y
        ⊎ (Relates (pairs size words.old) x k × Relates (pairs size words.old) k y)) }
{
    for a in 0..size {
        step_row(words, a, k, size);
    }
}

// The pairs of a alone.
fn step_row(words: &mut [u64], a: usize, k: usize, size: usize)
    requires size { size < 2 ^ 32 }
    requires tidy { IsTidy size words.old }
    requires a { a < size }
    requires k { k < size }
    ensures tidy { IsTidy size words.new }
    ensures set { TellsPairs (pairs size words.new) (λ x y. Relates (pairs size words.old) x y
        ⊎ ((x ≡ a) × (Relates (pairs size words.old) x k × Relates (pairs size words.old) k y))) }
{
    if has_pair(words, a, k, size) {
        join_within_at(words, a, k, size);
    }
}

// Adds each number with itself.
fn add_diagonal(words: &mut [u64], size: usize)
    requires size { size < 2 ^ 32 }
    requires tidy { IsTidy size words.old }
    ensures tidy { IsTidy size words.new }
    ensures set { TellsPairs (pairs size words.new) (λ x y. Relates (pairs size words.old) x y ⊎ ((x < size) × (x ≡ y))) }
{
    for a in 0..size {
        add_pair(words, a, a, size);
    }
}
