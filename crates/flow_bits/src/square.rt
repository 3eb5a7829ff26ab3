ghost use Rattle.std.specs.Prelude.{◌≡◌, ◌≢◌, ℕ, ◌+◌, ◌*◌, ◌<◌, ◌≤◌, ◌^◌, ◌↔◌, ◌⊎◌, length, IsTrue, IfOk, false, []};
ghost use Rattle.flow_bits.specs.Sets.{Has, Tells, Gains, either, Relates, TellsPairs, GainsPair, Composes, Closes};

use crate::close::close_rows;
use crate::compose::compose_rows;
use crate::flags::words_for;
use crate::pairs::{
    add_pair, back_rows, clear_at, copy_at, cross_rows, diagonal_rows, has_pair, join_row_at,
    restrict_rows, union_rows,
};
use crate::row::Row;
use spark_base::NoMemory;
use std::alloc::Global;
use std::default::MadeWith;
use std::marker::Model;

/// The largest size of a square, which takes a quarter of a gigabyte.
const LARGEST: u32 = 46_336;

/// A set of pairs of numbers below its size.
#[derive(Drop)]
pub struct Square {
    size: u32,
    words: Vec<u64>,
}

impl Model for Square {
    ghost use Rattle.std.specs.Prelude.{List, Bool};
    ghost use Rattle.flow_bits.specs.Words.{IsTidy, pairs};

    ghost Value = { List (List Bool) };

    ghost view = { λ s. pairs s.size s.words.items };

    ghost invariant = { λ s. IsTidy s.size s.words.items };
}

#[tactic(auto, using(crate::proofs::Squares::pairs_long))]
impl Square {
    /// No pairs, for numbers below a size. It alone takes memory, a bit for each pair: a size above `LARGEST` is
    /// want of memory.
    #[tactic(auto, using(crate::proofs::Squares::pairs_long, crate::proofs::Squares::empty_pairs, crate::proofs::Empty::empty_clean))]
    pub fn new(alloc: Global, size: u32) -> Result<Square, NoMemory>
        ensures size { IfOk result (λ square. length square ≡ size) }
        ensures empty { IfOk result (λ square. TellsPairs square (λ a b. ⊥)) }
    {
        if size > LARGEST {
            return Err(NoMemory);
        }
        let words = vec![in alloc; 0; size as usize * words_for(size as usize)]?;
        Ok(Square { size, words })
    }

    /// No pairs of no numbers. It takes no memory.
    #[tactic(auto, using(crate::proofs::Squares::no_pairs))]
    pub fn none(alloc: Global) -> Square
        ensures { result ≡ [] }
    {
        Square {
            size: 0,
            words: Vec::new(alloc),
        }
    }

    /// The numbers of the pairs are below it.
    pub fn size(&self) -> u32
        ensures { result ≡ length self.now }
    {
        self.size
    }

    /// Whether a pair is in the set.
    pub fn has(&self, a: u32, b: u32) -> bool
        requires a { a < length self.now }
        requires b { b < length self.now }
        ensures { IsTrue result ↔ Relates self.now a b }
    {
        has_pair(
            self.words.as_slice(),
            a as usize,
            b as usize,
            self.size as usize,
        )
    }

    /// Adds a pair, and says whether the set grew.
    pub fn add(&mut self, a: u32, b: u32) -> bool
        requires a { a < length self.old }
        requires b { b < length self.old }
        ensures size { length self.new ≡ length self.old }
        ensures set { TellsPairs self.new (λ x y. Relates self.old x y ⊎ ((x ≡ a) × (y ≡ b))) }
        ensures grew { IsTrue result → GainsPair self.old self.new }
        ensures same { result ≡ false → self.new ≡ self.old }
    {
        add_pair(
            self.words.as_mut_slice(),
            a as usize,
            b as usize,
            self.size as usize,
        )
    }

    /// Takes away all pairs that begin at a number.
    pub fn clear_row(&mut self, a: u32)
        requires { a < length self.old }
        ensures size { length self.new ≡ length self.old }
        ensures set { TellsPairs self.new (λ x y. (x ≢ a) × Relates self.old x y) }
    {
        clear_at(self.words.as_mut_slice(), a as usize, self.size as usize);
    }

    /// Adds the pairs of one number with each number of a set, and says whether the set grew.
    pub fn add_row(&mut self, a: u32, row: &Row) -> bool
        requires a { a < length self.old }
        requires row { length row.now ≡ length self.old }
        ensures size { length self.new ≡ length self.old }
        ensures set { TellsPairs self.new (λ x y. Relates self.old x y ⊎ ((x ≡ a) × Has row.now y)) }
        ensures grew { IsTrue result → GainsPair self.old self.new }
        ensures same { result ≡ false → self.new ≡ self.old }
    {
        join_row_at(
            self.words.as_mut_slice(),
            a as usize,
            row,
            self.size as usize,
        )
    }

    /// Makes `into` the set of the numbers to which one number is related.
    pub fn copy_row(&self, a: u32, into: &mut Row)
        requires a { a < length self.now }
        requires into { length into.old ≡ length self.now }
        ensures size { length into.new ≡ length into.old }
        ensures set { Tells into.new (λ y. Relates self.now a y) }
    {
        copy_at(self.words.as_slice(), a as usize, into, self.size as usize);
    }

    /// Adds to `into` each number that is related to itself.
    pub fn diagonal_into(&self, into: &mut Row)
        requires { length into.old ≡ length self.now }
        ensures size { length into.new ≡ length into.old }
        ensures set { Tells into.new (either into.old (λ v. Relates self.now v v)) }
    {
        diagonal_rows(self.words.as_slice(), into, self.size as usize);
    }

    /// Keeps the pairs whose two numbers are in the set.
    pub fn restrict(&mut self, row: &Row)
        requires { length row.now ≡ length self.old }
        ensures size { length self.new ≡ length self.old }
        ensures set { TellsPairs self.new (λ a b. Relates self.old a b × (Has row.now a × Has row.now b)) }
    {
        restrict_rows(self.words.as_mut_slice(), row, self.size as usize);
    }

    /// Becomes the other set.
    pub fn copy_from(&mut self, other: &Square)
        requires { length other.now ≡ length self.old }
        ensures { self.new ≡ other.now }
    {
        self.words.copy_from_slice(other.words.as_slice());
    }

    /// Adds all pairs of another set, and says whether this one grew.
    pub fn union_into(&mut self, other: &Square) -> bool
        requires { length other.now ≡ length self.old }
        ensures size { length self.new ≡ length self.old }
        ensures set { TellsPairs self.new (λ a b. Relates self.old a b ⊎ Relates other.now a b) }
        ensures grew { IsTrue result → GainsPair self.old self.new }
        ensures same { result ≡ false → self.new ≡ self.old }
    {
        union_rows(
            self.words.as_mut_slice(),
            other.words.as_slice(),
            self.size as usize,
        )
    }

    /// Adds `left` × `right`, and says whether the set grew.
    pub fn cross_into(&mut self, left: &Row, right: &Row) -> bool
        requires left { length left.now ≡ length self.old }
        requires right { length right.now ≡ length self.old }
        ensures size { length self.new ≡ length self.old }
        ensures set { TellsPairs self.new (λ a b. Relates self.old a b ⊎ (Has left.now a × Has right.now b)) }
        ensures grew { IsTrue result → GainsPair self.old self.new }
        ensures same { result ≡ false → self.new ≡ self.old }
    {
        cross_rows(self.words.as_mut_slice(), left, right, self.size as usize)
    }

    /// Adds to `into` each a with (a, b) in the square and b in `row`, and says whether `into` grew.
    pub fn back_into(&self, row: &Row, into: &mut Row) -> bool
        requires row { length row.now ≡ length self.now }
        requires into { length into.old ≡ length self.now }
        ensures size { length into.new ≡ length into.old }
        ensures set { Tells into.new (λ a. Has into.old a ⊎ ((b : ℕ) × (Relates self.now a b × Has row.now b))) }
        ensures grew { IsTrue result → Gains into.old into.new }
        ensures same { result ≡ false → into.new ≡ into.old }
    {
        back_rows(self.words.as_slice(), row, into, self.size as usize)
    }

    /// Adds each (a, c) with (a, b) in `first` and (b, c) in `second`, and says whether the set grew.
    pub fn compose_into(&mut self, first: &Square, second: &Square) -> bool
        requires first { length first.now ≡ length self.old }
        requires second { length second.now ≡ length self.old }
        ensures size { length self.new ≡ length self.old }
        ensures set { TellsPairs self.new (λ a c. Relates self.old a c
            ⊎ Composes first.now second.now a c) }
        ensures grew { IsTrue result → GainsPair self.old self.new }
        ensures same { result ≡ false → self.new ≡ self.old }
    {
        compose_rows(
            self.words.as_mut_slice(),
            first.words.as_slice(),
            second.words.as_slice(),
            self.size as usize,
        )
    }

    /// Adds each number with itself, and each (a, c) to which a chain of pairs leads.
    pub fn close(&mut self)
        ensures size { length self.new ≡ length self.old }
        ensures set { TellsPairs self.new (Closes self.old) }
    {
        close_rows(self.words.as_mut_slice(), self.size as usize);
    }
}

impl MadeWith<Global> for Square {
    fn made_with(alloc: Global) -> Square {
        Square::none(alloc)
    }
}
