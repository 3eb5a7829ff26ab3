//! A law of what is left: a function that does nothing.
ghost use Rattle.std.specs.Prelude.{◌≡◌, ◌↔◌, ℤ, ◌≤ℤ◌, List, true, false};
ghost use Rattle.choice_covers.specs.Parts.{has_gap, is_covered};

/// There is a gap between two bounds exactly where some value between them is in no part.
pub fn gaps_are_values_left()
    ensures { (parts : List (ℤ × ℤ)) (low high : ℤ) → (has_gap parts low high ≡ true)
        ↔ ((n : ℤ) × ((low ≤ℤ n) × ((n ≤ℤ high) × (is_covered parts n ≡ false)))) }
{}
