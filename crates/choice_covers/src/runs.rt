//! Runs of values, kept from the least value of each to its greatest.
ghost use Rattle.std.specs.Prelude.{◌≡◌, ℤ, ◌≤ℤ◌, List, ◌∷◌, false, IfSome, IfNone, OnOk};
ghost use Rattle.choice_covers.specs.Parts as parts;
ghost use Rattle.choice_covers.specs.Runs.{AreApart, Hold, IsRun};

use spark_base::NoMemory;
use std::collections::BTreeMap;

/// A run that has a value from the first to the second. It takes the time of a look-up.
pub(crate) fn run_meeting(
    runs: &BTreeMap<i128, i128>,
    low: i128,
    high: i128,
) -> Option<(i128, i128)>
    requires apart { AreApart runs.now }
    ensures run { IfSome result (λ r. IsRun runs.now r.0 r.1) }
    ensures meets { IfSome result (λ r. (r.0 ≤ℤ high) × (low ≤ℤ r.1)) }
    ensures none { IfNone result (parts.do_meet runs.now.entries low high ≡ false) }
{
    match runs.range(..=high).next_back() {
        Some((first, last)) if *last >= low => Some((*first, *last)),
        _ => None,
    }
}

/// Adds the values from the first to the second, in one run with all runs that have one of them. All calls together take a
/// look-up for each run that is added, and one for each that goes.
pub(crate) fn add_run(
    runs: &mut BTreeMap<i128, i128>,
    low: i128,
    high: i128,
) -> Result<(), NoMemory>
    requires apart { AreApart runs.old }
    requires filled { low ≤ℤ high }
    ensures apart { OnOk result (AreApart runs.new) }
    ensures hold { OnOk result (Hold runs.new ((low, high) ∷ runs.old.entries)) }
{
    let mut least = low;
    let mut greatest = high;
    while let Some((first, last)) = run_meeting(runs, least, greatest) {
        let _ = runs.remove(&first);
        least = least.min(first);
        greatest = greatest.max(last);
    }
    let _ = runs.insert(least, greatest)?;
    Ok(())
}

/// Whether a value from the first to the second is in no run. It takes a look-up for each run between them.
pub(crate) fn has_gap(runs: &BTreeMap<i128, i128>, low: i128, high: i128) -> bool
    requires apart { AreApart runs.now }
    ensures { (ps : List (ℤ × ℤ)) → Hold runs.now ps → result ≡ parts.has_gap ps low high }
{
    if high < low {
        return false;
    }
    let mut next = low;
    while let Some((_, last)) = run_meeting(runs, next, next) {
        if last >= high {
            return false;
        }
        next = last + 1;
    }
    true
}
