ghost use Rattle.std.specs.Prelude.{◌≡◌, ◌≢◌, ℕ, ◌+◌, ◌-◌, ◌*◌, ◌/◌, ◌%◌, ◌<◌, ◌≤◌, ◌^◌, ◌⊎◌, ◌↔◌, length, IsTrue, IfOk, OnOk, true, false};
ghost use Rattle.flow_bits.specs.Words.{IsSet, word};
ghost use Rattle.summary_rows.specs.Bits.{Bit, InWord};

use spark_base::NoMemory;
use std::alloc::Global;
use std::marker::Model;

/// Words of 64 bits, which contracts see as their list.
#[derive(Drop)]
pub struct Words {
    words: Vec<u64>,
}

impl Model for Words {
    ghost use Rattle.std.specs.Prelude.{List, ℕ};

    ghost Value = { List ℕ };

    ghost view = { λ w. w.words.items };
}

impl Words {
    /// So many words without a bit.
    #[tactic(auto, using(crate::proofs::Bits::no_bit_of_zeros))]
    pub fn zeros(alloc: Global, count: usize) -> Result<Words, NoMemory>
        ensures size { IfOk result (λ w. length w ≡ count) }
        ensures empty { IfOk result (λ w. (n : ℕ) → Bit w n → ⊥) }
    {
        let words = vec![in alloc; 0; count]?;
        Ok(Words { words })
    }

    /// The words of a vector, in their order.
    pub fn from_vec(words: Vec<u64>) -> Words
        ensures { result ≡ words.items }
    {
        Words { words }
    }

    /// The words, the first bits first.
    pub fn as_slice(&self) -> &[u64]
        ensures { result.now ≡ self.now }
    {
        self.words.as_slice()
    }

    /// Adds the bits of some words to those from a place on, and says whether any came in.
    pub fn join(&mut self, first: usize, from: &[u64]) -> bool
        requires { first + length from.now ≤ length self.old }
        ensures size { length self.new ≡ length self.old }
        ensures set { (w i : ℕ) → InWord self.new w i ↔ (InWord self.old w i ⊎ ((first ≤ w) × InWord from.now (w - first) i)) }
        ensures grew { IsTrue result → (w i : ℕ) × ((InWord self.old w i → ⊥) × InWord self.new w i) }
        ensures same { result ≡ false → self.new ≡ self.old }
    {
        join_words(self.words.as_mut_slice(), first, from)
    }
}

// Whether a bit is set.
pub fn has_bit(words: &[u64], n: usize) -> bool
    requires { n / 64 < length words.now }
    ensures { IsTrue result ↔ Bit words.now n }
{
    (words[n / 64] >> (n % 64)) & 1 == 1
}

// Adds the bits of some words to those from a place on, and says whether any came in.
fn join_words(into: &mut [u64], first: usize, from: &[u64]) -> bool
    requires { first + length from.now ≤ length into.old }
    ensures set { (w i : ℕ) → InWord into.new w i ↔ (InWord into.old w i ⊎ ((first ≤ w) × InWord from.now (w - first) i)) }
    ensures grew { IsTrue result → (w i : ℕ) × ((InWord into.old w i → ⊥) × InWord into.new w i) }
    ensures same { result ≡ false → into.new ≡ into.old }
{
    let mut grew = false;
    for k in 0..from.len() {
        if join_at(into, first + k, from[k]) {
            grew = true;
        }
    }
    grew
}

fn join_at(into: &mut [u64], at: usize, from: u64) -> bool
    requires { at < length into.old }
    ensures set { (w i : ℕ) → InWord into.new w i ↔ (InWord into.old w i ⊎ ((w ≡ at) × IsSet from i)) }
    ensures grew { IsTrue result → (w i : ℕ) × ((InWord into.old w i → ⊥) × InWord into.new w i) }
    ensures same { result ≡ false → into.new ≡ into.old }
{
    let (word, grew) = join_word(into[at], from);
    if grew {
        into[at] = word;
    }
    grew
}

// Adds the bits of a word to another, and says whether any came in.
fn join_word(word: u64, from: u64) -> (u64, bool)
    ensures set { (i : ℕ) → IsSet result.0 i ↔ (IsSet word i ⊎ IsSet from i) }
    ensures grew { IsTrue result.1 → (i : ℕ) × ((IsSet word i → ⊥) × IsSet from i) }
    ensures same { result.1 ≡ false → result.0 ≡ word }
{
    let more = from & !word;
    if more == 0 {
        (word, false)
    } else {
        (word | from, true)
    }
}
