//! What choices cover together.
ghost use Rattle.std.specs.Prelude.{◌≡◌, ◌&&◌, int_le, IfOk, OnOk};
ghost use Rattle.name_findings.specs.Findings.{add_all};
ghost use Rattle.choice_covers.specs.Covers as spec;
ghost use Rattle.choice_covers.specs.Parts.{do_meet};
ghost use Rattle.choice_covers.specs.Kept.{Stands};
ghost use Rattle.choice_covers.specs.Runs.{AreApart};

use crate::choices::{Bounds, Covering, Placed};
use crate::runs::{add_run, has_gap, run_meeting};
use name_findings::{Findings, Spelling, refuse_if};
use spark_base::{NoMemory, Pos};
use spark_messages::Code;
use std::alloc::Global;
use std::collections::BTreeMap;

/// What the choices so far cover.
#[derive(Debug, Drop)]
struct Covered {
    /// From the least value of each run to its greatest; no two have a value in common.
    runs: BTreeMap<i128, i128>,
    /// Behind `others`.
    is_closed: bool,
    /// Each choice has values.
    is_clear: bool,
}

fn nothing_covered(alloc: Global) -> Covered
    ensures { Stands result spec.nothing_covered }
{
    Covered {
        runs: BTreeMap::new(alloc),
        is_closed: false,
        is_clear: true,
    }
}

impl Covered {
    /// Adds the values from the first to the second, if there are any: whether one was covered.
    fn add_values(&mut self, low: i128, high: i128) -> Result<bool, NoMemory>
        requires apart { AreApart self.old.runs }
        ensures doubled { IfOk result (λ d. (s : spec.Cover) → Stands self.old s → d ≡ (int_le low high && do_meet s.parts low high)) }
        ensures stands { OnOk result ((s : spec.Cover) → Stands self.old s → Stands self.new (spec.with_part s low high)) }
    {
        if high < low {
            return Ok(false);
        }
        let is_doubled = run_meeting(&self.runs, low, high).is_some();
        add_run(&mut self.runs, low, high)?;
        Ok(is_doubled)
    }

    /// Adds a choice: whether it is doubled.
    fn add(&mut self, covering: Covering) -> Result<bool, NoMemory>
        requires apart { AreApart self.old.runs }
        ensures doubled { IfOk result (λ d. (s : spec.Cover) → Stands self.old s → d ≡ spec.is_doubled s covering) }
        ensures stands { OnOk result ((s : spec.Cover) → Stands self.old s → Stands self.new (spec.with_choice s covering)) }
    {
        match covering {
            Covering::Unclear => {
                self.is_clear = false;
                Ok(false)
            }
            Covering::Others => {
                let is_doubled = self.is_closed;
                self.is_closed = true;
                Ok(is_doubled)
            }
            Covering::From(low, high) => {
                if self.is_closed {
                    Ok(true)
                } else {
                    self.add_values(low, high)
                }
            }
        }
    }

    /// Whether values within the bounds are missing.
    fn is_incomplete(&self, bounds: Bounds) -> bool
        requires apart { AreApart self.now.runs }
        ensures { (s : spec.Cover) → Stands self.now s → result ≡ spec.is_incomplete s bounds }
    {
        self.is_clear && (!self.is_closed && has_gap(&self.runs, bounds.low, bounds.high))
    }
}

/// Refuses, by this code, each choice that covers what one before it covers, or stands behind `others`, at the choice; and
/// choices that leave a value within the bounds uncovered, at this place. Of n choices it takes the time of n look-ups among n.
pub fn refuse_coverage(
    alloc: Global,
    found: &mut Findings,
    code: Code,
    at: Pos,
    bounds: Bounds,
    choices: &[Placed],
) -> Result<(), NoMemory>
    ensures { OnOk result (found.new ≡ add_all found.old (spec.coverage_found code at bounds choices.now)) }
{
    let mut covered = nothing_covered(alloc);
    for choice in choices {
        let is_doubled = covered.add(choice.covering)?;
        refuse_if(found, is_doubled, code, choice.at, Spelling::Nothing);
    }
    let is_incomplete = covered.is_incomplete(bounds);
    refuse_if(found, is_incomplete, code, at, Spelling::Nothing);
    Ok(())
}

fn is_outside(bounds: Bounds, covering: Covering) -> bool
    ensures { result ≡ spec.is_outside bounds covering }
{
    match covering {
        Covering::From(low, high) => low <= high && (low < bounds.low || bounds.high < high),
        _ => false,
    }
}

/// Refuses each choice of an array aggregate that has values outside the index, at the choice.
pub fn refuse_outside(found: &mut Findings, bounds: Bounds, choices: &[Placed])
    ensures { found.new ≡ add_all found.old (spec.outside_found bounds choices.now) }
{
    for choice in choices {
        let holds = is_outside(bounds, choice.covering);
        refuse_if(found, holds, Code::Y09, choice.at, Spelling::Nothing);
    }
}
