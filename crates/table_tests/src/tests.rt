ghost use Rattle.std.specs.Prelude.{◌≡◌, ◌≢◌, ◌⊎◌, ◌+◌, ◌<◌, ◌==◌, [], ◌∷◌, None, Some, true, false, IfOk, IfSome, MatchBool};
ghost use Rattle.summary_table.specs.Views.{newcomer, won_claim, lost_claim, woken, released, met};
ghost use Rattle.summary_table.specs.Tells.{IsOf};

use crate::samples::{Circle, Counter, circle_for_one, counter_for_one, counter_for_two};
use spark_base::{BodyNo, NoMemory, WordNo};
use std::alloc::Global;
use std::thread::{Threads, join};
use summary_table::{Closed, NotDirty, Seat, SummaryTable};

const PROCEDURE: BodyNo = BodyNo(0);

const MAIN: BodyNo = BodyNo(1);

// What a claim of the procedure found in its gate.
fn found_by(table: &SummaryTable<Counter>, seat: &mut Seat) -> u64
    requires of { IsOf table.now.table.shared.table_id seat.old.token.table_id seat.old.token.me.0 }
    requires idle { seat.old.holds ≡ None }
    ensures same { seat.new.token.table_id ≡ seat.old.token.table_id }
    ensures view { MatchBool (result == 1)
        ((seat.new.token.me.0 ≡ won_claim seat.old.token.me.0 0) × (seat.new.holds ≡ Some 0))
        ((seat.new.token.me.0 ≡ lost_claim seat.old.token.me.0 0) × (seat.new.holds ≡ None)) }
{
    match table.claim(seat, PROCEDURE) {
        Ok(()) => 1,
        Err(NotDirty { word }) => word,
    }
}

// Wakes the procedure, which the seat holds.
fn drop_procedure(table: &SummaryTable<Counter>, seat: &mut Seat)
    requires of { IsOf table.now.table.shared.table_id seat.old.token.table_id seat.old.token.me.0 }
    requires busy { seat.old.holds ≡ Some 0 }
    ensures same { (seat.new.token.table_id ≡ seat.old.token.table_id) × (seat.new.holds ≡ seat.old.holds) }
    ensures view { seat.new.token.me.0 ≡ woken seat.old.token.me.0 0 }
{
    table.wake(seat, PROCEDURE);
}

// Gives the procedure back, which the seat claimed and woke.
fn give_back(table: &SummaryTable<Counter>, seat: &mut Seat)
    requires of { IsOf table.now.table.shared.table_id seat.old.token.table_id seat.old.token.me.0 }
    requires busy { seat.old.holds ≡ Some 0 }
    requires dropped { ((seat.old.token.me.0).debts ≡ (0, false) ∷ []) × ((seat.old.token.me.0).dropped ≡ true) }
    ensures same { (seat.new.token.table_id ≡ seat.old.token.table_id) × (seat.new.holds ≡ None) }
    ensures view { seat.new.token.me.0 ≡ released seat.old.token.me.0 }
{
    table.release(seat);
}

// Two seats claim the procedure: what each claim of the second found, and the table at the end, if the claims went as they should.
fn contend(
    table: SummaryTable<Counter>,
    mut first: Seat,
    mut second: Seat,
) -> Result<Option<(u64, u64, Closed<Counter>)>, NoMemory>
    requires seats { table.seats ≡ 2 }
    requires first { (first.token.table_id ≡ table.table.shared.table_id) × ((first.token.me.0 ≡ newcomer 1) × (first.holds ≡ None)) }
    requires second { (second.token.table_id ≡ table.table.shared.table_id) × ((second.token.me.0 ≡ newcomer 1) × (second.holds ≡ None)) }
{
    if found_by(&table, &mut first) != 1 {
        return Ok(None);
    }
    let held = found_by(&table, &mut second);
    if held == 1 {
        return Ok(None);
    }
    drop_procedure(&table, &mut first);
    let woken = found_by(&table, &mut second);
    if woken == 1 {
        return Ok(None);
    }
    give_back(&table, &mut first);
    if found_by(&table, &mut second) != 1 {
        return Ok(None);
    }
    drop_procedure(&table, &mut second);
    give_back(&table, &mut second);
    table.meet(&mut first, second);
    let closed = table.close(first)?;
    Ok(Some((held, woken, closed)))
}

// Claims the procedure, joins its row, wakes its caller where the row grew, and gives it back. Whether the claim won.
fn solve_procedure(table: &SummaryTable<Counter>, seat: &mut Seat) -> bool
    requires of { IsOf table.now.table.shared.table_id seat.old.token.table_id seat.old.token.me.0 }
    requires idle { seat.old.holds ≡ None }
    ensures same { (seat.new.token.table_id ≡ seat.old.token.table_id) × (seat.new.holds ≡ None) }
    ensures weight { (seat.new.token.me.0).weight ≡ (seat.old.token.me.0).weight }
{
    if table.claim(seat, PROCEDURE).is_err() {
        return false;
    }
    let old = table.join_word(seat, WordNo(0), 1);
    if old | 1 != old {
        table.wake(seat, MAIN);
    }
    table.release(seat);
    true
}

// Claims the main, reads the row of the procedure, joins its own, and gives it back. Whether the claim won.
fn solve_main(table: &SummaryTable<Counter>, seat: &mut Seat) -> bool
    requires of { IsOf table.now.table.shared.table_id seat.old.token.table_id seat.old.token.me.0 }
    requires idle { seat.old.holds ≡ None }
    ensures same { (seat.new.token.table_id ≡ seat.old.token.table_id) × (seat.new.holds ≡ None) }
    ensures weight { (seat.new.token.me.0).weight ≡ (seat.old.token.me.0).weight }
{
    if table.claim(seat, MAIN).is_err() {
        return false;
    }
    table.load(seat, WordNo(0));
    table.join_word(seat, WordNo(1), 1);
    table.release(seat);
    true
}

// On a circle: claims A, reads the row of B, joins that of A, wakes C where it grew, releases, claims C and loads what it joined.
fn read_back(table: &SummaryTable<Circle>, seat: &mut Seat) -> Option<u64>
    requires of { IsOf table.now.table.shared.table_id seat.old.token.table_id seat.old.token.me.0 }
    requires idle { seat.old.holds ≡ None }
{
    table.claim(seat, BodyNo(0)).ok()?;
    table.load(seat, WordNo(1));
    let old = table.join_word(seat, WordNo(0), 1);
    if old | 1 != old {
        table.wake(seat, BodyNo(2));
    }
    table.release(seat);
    table.claim(seat, BodyNo(2)).ok()?;
    Some(table.load(seat, WordNo(0)))
}

// One seat solves each body in turn.
fn solved(alloc: Global) -> Result<Option<Closed<Counter>>, NoMemory> {
    let Some((table, mut seat)) = counter_for_one(alloc)? else {
        return Ok(None);
    };
    if !solve_procedure(&table, &mut seat) || !solve_main(&table, &mut seat) {
        return Ok(None);
    }
    let closed = table.close(seat)?;
    Ok(Some(closed))
}

// The same by one seat, which is given back.
fn procedure_by(table: &SummaryTable<Counter>, mut seat: Seat) -> Seat
    requires of { IsOf table.now.table.shared.table_id seat.token.table_id seat.token.me.0 }
    requires idle { seat.holds ≡ None }
    ensures same { (result.token.table_id ≡ seat.token.table_id) × (result.holds ≡ None) }
    ensures weight { (result.token.me.0).weight ≡ (seat.token.me.0).weight }
{
    solve_procedure(table, &mut seat);
    seat
}

fn main_by(table: &SummaryTable<Counter>, mut seat: Seat) -> Seat
    requires of { IsOf table.now.table.shared.table_id seat.token.table_id seat.token.me.0 }
    requires idle { seat.holds ≡ None }
    ensures same { (result.token.table_id ≡ seat.token.table_id) × (result.holds ≡ None) }
    ensures weight { (result.token.me.0).weight ≡ (seat.token.me.0).weight }
{
    solve_main(table, &mut seat);
    seat
}

// Two threads solve on one table, each with its seat and a body of its own.
fn solve_both<R: Threads + Sync>(
    rt: &R,
    table: &SummaryTable<Counter>,
    first: Seat,
    second: Seat,
) -> (Seat, Seat)
    requires first { IsOf table.now.table.shared.table_id first.token.table_id first.token.me.0 }
    requires second { IsOf table.now.table.shared.table_id second.token.table_id second.token.me.0 }
    requires idle { (first.holds ≡ None) × (second.holds ≡ None) }
    ensures first { (result.0.token.table_id ≡ first.token.table_id) × ((result.0.holds ≡ None) × ((result.0.token.me.0).weight ≡ (first.token.me.0).weight)) }
    ensures second { (result.1.token.table_id ≡ second.token.table_id) × ((result.1.holds ≡ None) × ((result.1.token.me.0).weight ≡ (second.token.me.0).weight)) }
{
    join(
        rt,
        || -> Seat
            requires { IsOf table.now.table.shared.table_id first.token.table_id first.token.me.0 × (first.holds ≡ None) }
            ensures { (result.token.table_id ≡ first.token.table_id) × ((result.holds ≡ None) × ((result.token.me.0).weight ≡ (first.token.me.0).weight)) }
        { procedure_by(table, first) },
        || -> Seat
            requires { IsOf table.now.table.shared.table_id second.token.table_id second.token.me.0 × (second.holds ≡ None) }
            ensures { (result.token.table_id ≡ second.token.table_id) × ((result.holds ≡ None) × ((result.token.me.0).weight ≡ (second.token.me.0).weight)) }
        { main_by(table, second) },
    )
}

fn solved_by_two<R: Threads + Sync>(
    rt: &R,
    alloc: Global,
) -> Result<Option<Closed<Counter>>, NoMemory> {
    let Some((table, first, second)) = counter_for_two(alloc)? else {
        return Ok(None);
    };
    let (mut first, second) = solve_both(rt, &table, first, second);
    table.meet(&mut first, second);
    let closed = table.close(first)?;
    Ok(Some(closed))
}

// The same on a new table of two seats.
fn contended(alloc: Global) -> Result<Option<(u64, u64, Closed<Counter>)>, NoMemory> {
    match counter_for_two(alloc)? {
        None => Ok(None),
        Some((table, first, second)) => contend(table, first, second),
    }
}

#[test]
fn a_body_is_claimed_by_one(rt: HostRuntime) -> Result<(), NoMemory> {
    let outcome = contended(rt.alloc())?;
    assert!(rt; outcome.is_some());
    if let Some((held, woken, closed)) = outcome {
        assert_eq!(rt; held, 2);
        assert_eq!(rt; woken, 3);
        assert!(rt; closed.dirty(PROCEDURE));
        assert_eq!(rt; closed.rows(), [0, 0].as_slice());
    }
    Ok(())
}

#[test]
fn one_seat_leaves_no_body_dirty(rt: HostRuntime) -> Result<(), NoMemory> {
    let outcome = solved(rt.alloc())?;
    assert!(rt; outcome.is_some());
    if let Some(closed) = outcome {
        assert!(rt; !closed.dirty(PROCEDURE));
        assert!(rt; !closed.dirty(MAIN));
        assert_eq!(rt; closed.rows(), [1, 1].as_slice());
    }
    Ok(())
}

#[test]
fn a_seat_reads_its_own_joins_back(rt: HostRuntime) -> Result<(), NoMemory> {
    let mut found = None;
    if let Some((table, mut seat)) = circle_for_one(rt.alloc())? {
        found = read_back(&table, &mut seat);
    }
    assert_eq!(rt; found, Some(1));
    Ok(())
}

#[test]
fn two_threads_share_a_table(rt: HostRuntime) -> Result<(), NoMemory> {
    let outcome = solved_by_two(&rt, rt.alloc())?;
    assert!(rt; outcome.is_some());
    if let Some(closed) = outcome {
        assert!(rt; !closed.dirty(PROCEDURE));
        assert_eq!(rt; closed.rows(), [1, 1].as_slice());
    }
    Ok(())
}
