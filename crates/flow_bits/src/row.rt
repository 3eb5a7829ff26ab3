ghost use Rattle.std.specs.Prelude.{◌≡◌, ◌≢◌, ℕ, ◌+◌, ◌*◌, ◌<◌, ◌≤◌, ◌↔◌, ◌⊎◌, length, IsTrue, IfOk, false};
ghost use Rattle.flow_bits.specs.Sets.{Has, Tells, Gains, either};
ghost use Rattle.flow_bits.specs.Words.{IsClean, flags, words_for};

use crate::flags::{
    add_flag, clear_row, has_flag, join_row, meet_row, minus_row, remove_flag, rows_meet, words_for,
};
use spark_base::NoMemory;
use std::alloc::Global;
use std::marker::Model;

/// A set of numbers below its size.
#[derive(Drop)]
pub struct Row {
    size: u32,
    words: Vec<u64>,
}

impl Model for Row {
    ghost use Rattle.std.specs.Prelude.{◌≡◌, List, Bool, length};
    ghost use Rattle.flow_bits.specs.Words.{IsClean, flags, words_for};

    ghost Value = { List Bool };

    ghost view = { λ r. flags r.size r.words.items 0 };

    ghost invariant = { λ r. (length r.words.items ≡ words_for r.size) × IsClean r.size r.words.items };
}

#[tactic(auto, using(crate::proofs::Changed::flags_long))]
impl Row {
    /// The empty set, for numbers below a size. It alone takes memory.
    #[tactic(auto, using(crate::proofs::Changed::flags_long, crate::proofs::Empty::empty_clean, crate::proofs::Empty::empty_none))]
    pub fn new(alloc: Global, size: u32) -> Result<Row, NoMemory>
        ensures size { IfOk result (λ row. length row ≡ size) }
        ensures empty { IfOk result (λ row. Tells row (λ v. ⊥)) }
    {
        let words = vec![in alloc; 0; words_for(size as usize)]?;
        Ok(Row { size, words })
    }

    /// The numbers of the set are below it.
    pub fn size(&self) -> u32
        ensures { result ≡ length self.now }
    {
        self.size
    }

    /// Whether a number is in the set.
    pub fn has(&self, i: u32) -> bool
        requires { i < length self.now }
        ensures { IsTrue result ↔ Has self.now i }
    {
        has_flag(self.words.as_slice(), 0, i as usize, self.size as usize)
    }

    /// Adds a number, and says whether the set grew.
    pub fn add(&mut self, i: u32) -> bool
        requires { i < length self.old }
        ensures size { length self.new ≡ length self.old }
        ensures set { Tells self.new (either self.old (λ v. v ≡ i)) }
        ensures grew { IsTrue result → Gains self.old self.new }
        ensures same { result ≡ false → self.new ≡ self.old }
    {
        add_flag(self.words.as_mut_slice(), 0, i as usize, self.size as usize)
    }

    /// Takes a number away.
    pub fn remove(&mut self, i: u32)
        requires { i < length self.old }
        ensures size { length self.new ≡ length self.old }
        ensures set { Tells self.new (λ v. Has self.old v × (v ≢ i)) }
    {
        remove_flag(self.words.as_mut_slice(), 0, i as usize, self.size as usize);
    }

    /// Adds all numbers of another set, and says whether this one grew.
    pub fn union_into(&mut self, other: &Row) -> bool
        requires { length other.now ≡ length self.old }
        ensures size { length self.new ≡ length self.old }
        ensures set { Tells self.new (either self.old (Has other.now)) }
        ensures grew { IsTrue result → Gains self.old self.new }
        ensures same { result ≡ false → self.new ≡ self.old }
    {
        join_row(
            self.words.as_mut_slice(),
            0,
            other.words.as_slice(),
            0,
            self.size as usize,
        )
    }

    /// Takes all numbers of another set away.
    pub fn minus_into(&mut self, other: &Row)
        requires { length other.now ≡ length self.old }
        ensures size { length self.new ≡ length self.old }
        ensures set { Tells self.new (λ v. Has self.old v × (Has other.now v → ⊥)) }
    {
        minus_row(
            self.words.as_mut_slice(),
            0,
            other.words.as_slice(),
            0,
            self.size as usize,
        );
    }

    /// Keeps the numbers that are in another set too.
    pub fn intersect_into(&mut self, other: &Row)
        requires { length other.now ≡ length self.old }
        ensures size { length self.new ≡ length self.old }
        ensures set { Tells self.new (λ v. Has self.old v × Has other.now v) }
    {
        meet_row(
            self.words.as_mut_slice(),
            0,
            other.words.as_slice(),
            0,
            self.size as usize,
        );
    }

    /// Takes all numbers away.
    pub fn clear(&mut self)
        ensures size { length self.new ≡ length self.old }
        ensures set { Tells self.new (λ v. ⊥) }
    {
        clear_row(self.words.as_mut_slice(), 0, self.size as usize);
    }

    /// Becomes the other set.
    pub fn copy_from(&mut self, other: &Row)
        requires { length other.now ≡ length self.old }
        ensures { self.new ≡ other.now }
    {
        self.words.copy_from_slice(other.words.as_slice());
    }

    /// Whether the two have a number in common.
    pub fn meets(&self, other: &Row) -> bool
        requires { length other.now ≡ length self.now }
        ensures { IsTrue result ↔ ((v : ℕ) × Has self.now v × Has other.now v) }
    {
        rows_meet(
            self.words.as_slice(),
            0,
            other.words.as_slice(),
            0,
            self.size as usize,
        )
    }

    // The words of the set.
    pub(crate) fn words(&self) -> &[u64]
        ensures row { flags (length self.now) result.now 0 ≡ self.now }
        ensures clean { IsClean (length self.now) result.now }
        ensures count { length result.now ≡ words_for (length self.now) }
    {
        self.words.as_slice()
    }

    // Becomes a row of a square.
    pub(crate) fn copy_words(&mut self, words: &[u64], a: usize)
        requires words { (a + 1) * words_for (length self.old) ≤ length words.now }
        requires clean { IsClean (length self.old) words.now }
        ensures size { length self.new ≡ length self.old }
        ensures set { Tells self.new (Has (flags (length self.old) words.now a)) }
    {
        self.clear();
        join_row(self.words.as_mut_slice(), 0, words, a, self.size as usize);
    }
}
