//! Where rows stand among the words of all.
ghost use Rattle.std.specs.Prelude.{◌≡◌, ℕ, ◌<◌, ◌≤◌, ◌+◌, ◌↔◌, All, length, IsTrue};
ghost use Rattle.call_lists.specs.Lists.{Names};
ghost use Rattle.summary_rows.specs.Layout.{IsLayout, first_of, outer_of, row_size};
ghost use Rattle.claim_rows.specs.Placed.{is_in_row};

use spark_base::{BodyNo, WordNo};
use summary_rows::{Layout, row_size};

// The first word of the row of a body.
pub fn first_word(layout: &Layout, b: BodyNo) -> u32
    requires layout { IsLayout layout.now }
    requires in_range { b.0 < length layout.now.outer }
    ensures { result ≡ first_of layout.now b.0 }
{
    *layout.first.at(b.0 as usize)
}

// How many words it has.
pub fn word_count(layout: &Layout, b: BodyNo) -> u32
    requires layout { IsLayout layout.now }
    requires in_range { b.0 < length layout.now.outer }
    ensures count { result ≡ row_size (length (outer_of layout.now b.0)) }
    ensures within { first_of layout.now b.0 + result ≤ layout.now.words }
{
    row_size(layout.outer.at(b.0 as usize).len())
}

// Whether it has a word.
pub fn has_word(layout: &Layout, b: BodyNo, w: WordNo) -> bool
    requires layout { IsLayout layout.now }
    requires in_range { b.0 < length layout.now.outer }
    ensures { result ≡ is_in_row layout.now b.0 w.0 }
{
    let first = first_word(layout, b);
    first <= w.0 && w.0 - first < word_count(layout, b)
}

// Whether the row of some body of a list has a word.
pub fn one_has_word(layout: &Layout, list: &[BodyNo], w: WordNo) -> bool
    requires layout { IsLayout layout.now }
    requires list { All (λ b. b.0 < length layout.now.outer) list.now }
    ensures { IsTrue result ↔ ((c : ℕ) × (Names list.now c × IsTrue (is_in_row layout.now c w.0))) }
{
    for b in list {
        if has_word(layout, *b, w) {
            return true;
        }
    }
    false
}
