//! Sets of numbers.
ghost use Rattle.std.specs.Prelude.{◌≡◌, ◌≤◌, ◌⊎◌, ℕ, true, false, nat_eq, if◌then◌else◌, IfNone, IfSome, OnOk};
ghost use Rattle.elaboration_order.specs.Queue.{has};

use spark_base::NoMemory;
use std::collections::BTreeSet;

/// Adds a number to a set of those that have passed a place.
pub(crate) fn add_where(
    set: &mut BTreeSet<usize>,
    number: usize,
    place: usize,
    passed: usize,
) -> Result<(), NoMemory>
    ensures with { OnOk result (place ≤ passed → has set.new number ≡ true) }
    ensures only { OnOk result ((i : ℕ) → has set.new i ≡ true → (has set.old i ≡ true) ⊎ ((i ≡ number) × (place ≤ passed))) }
    ensures keeps { OnOk result ((i : ℕ) → has set.old i ≡ true → has set.new i ≡ true) }
{
    if place <= passed {
        add(set, number)?;
    }
    Ok(())
}

/// Adds a number.
fn add(set: &mut BTreeSet<usize>, number: usize) -> Result<(), NoMemory>
    ensures { OnOk result ((i : ℕ) → has set.new i ≡ (if nat_eq number i then true else has set.old i)) }
{
    set.insert(number)?;
    Ok(())
}

/// Takes out a number.
pub(crate) fn take_out(set: &mut BTreeSet<usize>, number: usize)
    ensures { (i : ℕ) → has set.new i ≡ (if nat_eq number i then false else has set.old i) }
{
    set.remove(&number);
}

/// Takes out the least number.
pub(crate) fn take_first(set: &mut BTreeSet<usize>) -> Option<usize>
    ensures member { IfSome result (λ k. has set.old k ≡ true) }
    ensures least { IfSome result (λ k. (i : ℕ) → has set.old i ≡ true → k ≤ i) }
    ensures rest { IfSome result (λ k. (i : ℕ) → has set.new i ≡ (if nat_eq k i then false else has set.old i)) }
    ensures none { IfNone result ((i : ℕ) → has set.old i ≡ false) }
    ensures none_new { IfNone result ((i : ℕ) → has set.new i ≡ false) }
{
    set.pop_first()
}
