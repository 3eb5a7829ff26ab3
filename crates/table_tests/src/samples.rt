//! The systems of the tests, and their tables with the seats.
ghost use Rattle.std.specs.Prelude.{◌≡◌, ◌<◌, None, IfOk, IfSome, length};
ghost use Rattle.summary_table.specs.Views.{newcomer};

use spark_base::NoMemory;
use std::alloc::Global;
use summary_table::{Equations, Seat, SummaryTable};

/// The program of the counter: the second body calls the first, its procedure.
pub struct Counter;

impl Equations for Counter {
    ghost use Rattle.claim_core.specs.System.{system_of};
    ghost use Rattle.table_tests.specs.Samples.{counter};
    ghost use Rattle.table_tests.specs.Lawful.{counter_lawful};

    ghost system = { system_of counter };

    ghost lawful = { counter_lawful };
}

/// Three bodies, each of which calls the next, and the last the first.
pub struct Circle;

impl Equations for Circle {
    ghost use Rattle.claim_core.specs.System.{system_of};
    ghost use Rattle.table_tests.specs.Samples.{circle};
    ghost use Rattle.table_tests.specs.Lawful.{circle_lawful};

    ghost system = { system_of circle };

    ghost lawful = { circle_lawful };
}

/// The counter's table for two seats.
pub fn counter_for_two(
    alloc: Global,
) -> Result<Option<(SummaryTable<Counter>, Seat, Seat)>, NoMemory>
    ensures seats { IfOk result (λ o. IfSome o (λ r. r.0.seats ≡ 2)) }
    ensures first { IfOk result (λ o. IfSome o (λ r.
        (r.1.token.table_id ≡ r.0.table.shared.table_id) × ((r.1.token.me.0 ≡ newcomer 1) × (r.1.holds ≡ None)))) }
    ensures second { IfOk result (λ o. IfSome o (λ r.
        (r.2.token.table_id ≡ r.0.table.shared.table_id) × ((r.2.token.me.0 ≡ newcomer 1) × (r.2.holds ≡ None)))) }
{
    let (table, mut seats) = SummaryTable::<Counter>::new(alloc, 2, 2, 2)?;
    let (Some(second), Some(first)) = (seats.pop(), seats.pop()) else {
        return Ok(None);
    };
    Ok(Some((table, first, second)))
}

/// The counter's table for one seat.
pub fn counter_for_one(alloc: Global) -> Result<Option<(SummaryTable<Counter>, Seat)>, NoMemory>
    ensures seats { IfOk result (λ o. IfSome o (λ r. r.0.seats ≡ 1)) }
    ensures first { IfOk result (λ o. IfSome o (λ r.
        (r.1.token.table_id ≡ r.0.table.shared.table_id) × ((r.1.token.me.0 ≡ newcomer 1) × (r.1.holds ≡ None)))) }
{
    let (table, mut seats) = SummaryTable::<Counter>::new(alloc, 2, 2, 1)?;
    let Some(seat) = seats.pop() else {
        return Ok(None);
    };
    Ok(Some((table, seat)))
}

/// The circle's table for one seat.
pub fn circle_for_one(alloc: Global) -> Result<Option<(SummaryTable<Circle>, Seat)>, NoMemory>
    ensures seats { IfOk result (λ o. IfSome o (λ r. r.0.seats ≡ 1)) }
    ensures first { IfOk result (λ o. IfSome o (λ r.
        (r.1.token.table_id ≡ r.0.table.shared.table_id) × ((r.1.token.me.0 ≡ newcomer 1) × (r.1.holds ≡ None)))) }
{
    let (table, mut seats) = SummaryTable::<Circle>::new(alloc, 3, 3, 1)?;
    let Some(seat) = seats.pop() else {
        return Ok(None);
    };
    Ok(Some((table, seat)))
}
