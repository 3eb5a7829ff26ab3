ghost use Rattle.std.specs.Prelude.{◌≡◌, ℕ, ◌+◌, ◌<◌, ◌≤◌, ◌*◌, ◌^◌, ◌⊎◌, ◌↔◌, All, length, IfOk, IfSome, IsTrue};
ghost use Rattle.flow_bits.specs.Words.{words_for};
ghost use Rattle.summary_rows.specs.Bits.{Bit};
ghost use Rattle.summary_rows.specs.Facts.{Part};
ghost use Rattle.summary_rows.specs.Layout.{Stands, row_size};
ghost use Rattle.flow_relations.specs.Told.{AreRowsSized};
ghost use Rattle.row_equations.specs.Packing.{AtRow, holds, told_by};

use crate::numbers::numbers_of;
use crate::setting::{add_leaves, add_pairs, set_bit};
use flow_relations::BodyRow;
use spark_base::{LeafNo, NoMemory};
use std::alloc::Global;
use summary_rows::{Words, row_size};

// The bits of the words for so many leaves.
fn bits_for(count: usize) -> usize
    requires { count < 2 ^ 40 }
    ensures { result ≡ 64 * words_for count }
{
    64 * count.div_ceil(64)
}

// Sets the first bit where the body may return.
fn add_return(words: &mut [u64], returns: bool)
    requires { 0 < length words.old }
    ensures { (n : ℕ) → Bit words.new n ↔ (Bit words.old n ⊎ ((n ≡ 0) × IsTrue returns)) }
{
    if returns {
        set_bit(words, 0);
    }
}

// Sets the bits of all that a row tells.
fn add_facts(words: &mut [u64], row: &BodyRow, outer: &[LeafNo], numbers: &[Option<u32>])
    requires rows { AreRowsSized (row.now.frame.void + 1) row.now }
    requires leaves { All (λ v. v.0 < row.now.frame.void + 1) outer.now }
    requires count { length numbers.now ≡ length outer.now }
    requires numbers { All (λ n. IfSome n (λ k. k < length row.now.depends)) numbers.now }
    requires size { length words.old ≡ row_size (length outer.now) }
    requires fits { row_size (length outer.now) < 2 ^ 32 }
    ensures { (n : ℕ) → Bit words.new n ↔ (Bit words.old n ⊎ AtRow row.now outer.now numbers.now n) }
{
    let part = bits_for(outer.len());
    add_return(words, row.returns);
    add_leaves(words, 64, outer, &row.reads);
    add_leaves(words, 64 + part, outer, &row.writes);
    add_leaves(words, 64 + 2 * part, outer, &row.keeps);
    add_pairs(words, 64 + 3 * part, numbers, &row.depends);
}

/// The words of a body's row in a layout in which these are its row leaves: a bit is set exactly where a fact stands that the row tells.
///
/// It takes a few steps for each leaf, for each pair of leaves that the body names, and for each word. Want of memory is the only fault.
pub fn words_of_row(alloc: Global, row: &BodyRow, outer: &[LeafNo]) -> Result<Words, NoMemory>
    requires rows { AreRowsSized (row.now.frame.void + 1) row.now }
    requires leaves { All (λ v. v.0 < row.now.frame.void) outer.now }
    requires fits { row_size (length outer.now) < 2 ^ 32 }
    ensures size { IfOk result (λ words. length words ≡ row_size (length outer.now)) }
    ensures bits { IfOk result (λ words. (n : ℕ) → Bit words n ↔ ((x : Part) × (Stands outer.now x n × holds (told_by row.now) x))) }
{
    let numbers = numbers_of(alloc, &row.frame, outer)?;
    let mut words = vec![in alloc; 0u64; row_size(outer.len()) as usize]?;
    add_facts(words.as_mut_slice(), row, outer, numbers.as_slice());
    Ok(Words::from_vec(words))
}
