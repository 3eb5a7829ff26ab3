//! Laws of the places of facts: functions that do nothing.
ghost use Rattle.std.specs.Prelude.{◌≡◌, ℕ, ◌+◌, ◌*◌, ◌/◌, ◌<◌, ◌≤◌, ◌↔◌, List, length};
ghost use Rattle.spark_base.specs.declared.numbers.LeafNo.{LeafNo};
ghost use Rattle.least_solution.specs.Least.{Among};
ghost use Rattle.summary_rows.specs.declared.layout.Layout.{Layout};
ghost use Rattle.summary_rows.specs.declared.rows.Rows.{Rows};
ghost use Rattle.summary_rows.specs.Facts.{Part, Fact, parts, part_no};
ghost use Rattle.summary_rows.specs.Layout.{Stands, IsIncreasing, IsLayout, row_size, first_of, outer_of, facts, told};

/// The facts of a row are those that stand at some bit, which is within the row.
pub fn facts_are_listed()
    ensures row { (outer : List LeafNo) (x : Part) → Among x (parts outer)
        ↔ ((n : ℕ) × ((n < 64 * row_size (length outer)) × Stands outer x n)) }
    ensures told { (rows : Rows) (f : Fact) → told rows f → Among f (facts rows.layout) }
{}

/// A fact stands at one bit, where the leaves increase.
pub fn facts_stand_once()
    ensures { (outer : List LeafNo) → IsIncreasing outer → (x : Part) (n m : ℕ) → Stands outer x n → Stands outer x m → n ≡ m }
{}

/// At one bit stands one fact.
pub fn bits_are_of_facts()
    ensures { (outer : List LeafNo) (x y : Part) (n : ℕ) → Stands outer x n → Stands outer y n → x ≡ y }
{}

/// No two parts of a row have a bit in one word.
pub fn parts_are_apart()
    ensures { (outer : List LeafNo) (x y : Part) (n m : ℕ) → Stands outer x n → Stands outer y m → n / 64 ≡ m / 64 → part_no x ≡ part_no y }
{}

/// No two bodies have a word in common.
pub fn rows_are_apart()
    ensures { (l : Layout) → IsLayout l → (a b w : ℕ) → a < length l.outer → b < length l.outer
        → first_of l a ≤ w → w < first_of l a + row_size (length (outer_of l a))
        → first_of l b ≤ w → w < first_of l b + row_size (length (outer_of l b)) → a ≡ b }
{}
