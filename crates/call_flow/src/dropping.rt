ghost use Rattle.std.specs.Prelude.{◌≡◌, ℕ, ◌+◌, ◌<◌, ◌≤◌, ◌^◌, ◌⊎◌, ◌↔◌, length, IfOk, IsTrue};
ghost use Rattle.core_form.specs.Code.{Outcome, Next};
ghost use Rattle.flow_bits.specs.Sets.{Has, Relates, Tells, TellsPairs};
ghost use Rattle.flow_facts.specs.Flow.{IsSame};
ghost use Rattle.flow_facts.specs.Told.{AreSized, IsSideSized, side_at, told};
ghost use Rattle.call_flow.specs.Calls.{dropped, up};

use flow_bits::{Row, Square};
use flow_facts::{Facts, Side, no_facts, no_side};
use spark_base::NoMemory;
use std::alloc::Global;

// The name in a call that a name of the frame has.
fn up(void: u32, big: u32, x: u32) -> u32
    ensures { result ≡ up void big x }
{
    if x == void { big } else { x }
}

// Adds a number, where another set has it.
fn copy_one(into: &mut Row, from: &Row, v: u32)
    requires into { v < length into.old }
    requires from { v < length from.now }
    ensures size { length into.new ≡ length into.old }
    ensures set { Tells into.new (λ x. Has into.old x ⊎ ((v ≡ x) × Has from.now x)) }
{
    if from.has(v) {
        into.add(v);
    }
}

// The numbers below a bound of a set, and room for the bound.
fn front_row(alloc: Global, void: u32, from: &Row) -> Result<Row, NoMemory>
    requires room { void + 1 < 2 ^ 32 }
    requires from { void < length from.now }
    ensures size { IfOk result (λ row. length row ≡ void + 1) }
    ensures set { IfOk result (λ row. Tells row (λ v. (v < void) × Has from.now v)) }
{
    let mut row = Row::new(alloc, void + 1)?;
    for v in 0..void {
        copy_one(&mut row, from, v);
    }
    Ok(row)
}

// Adds a pair, where another set has that of the names in a call.
fn copy_pair(into: &mut Square, from: &Square, void: u32, big: u32, v: u32, w: u32)
    requires v { v ≤ void }
    requires w { w ≤ void }
    requires into { length into.old ≡ void + 1 }
    requires big { void ≤ big }
    requires from { length from.now ≡ big + 1 }
    ensures size { length into.new ≡ length into.old }
    ensures set { TellsPairs into.new (λ x y. Relates into.old x y ⊎ ((v ≡ x) × ((w ≡ y) × Relates from.now (up void big x) (up void big y)))) }
{
    if from.has(up(void, big, v), up(void, big, w)) {
        into.add(v, w);
    }
}

// Adds those of the pairs that begin at a number whose second is below a bound.
fn copy_pairs_of(into: &mut Square, from: &Square, void: u32, big: u32, v: u32, below: u32)
    requires v { v ≤ void }
    requires below { below ≤ void + 1 }
    requires room { void + 1 < 2 ^ 32 }
    requires into { length into.old ≡ void + 1 }
    requires big { void ≤ big }
    requires from { length from.now ≡ big + 1 }
    ensures size { length into.new ≡ length into.old }
    ensures set { TellsPairs into.new (λ x y. Relates into.old x y
        ⊎ ((v ≡ x) × ((y < below) × Relates from.now (up void big x) (up void big y)))) }
{
    for w in 0..below {
        copy_pair(into, from, void, big, v, w);
    }
}

// The pairs of names below a bound, where "not assigned" has another name in a call.
fn front_pairs(
    alloc: Global,
    void: u32,
    big: u32,
    below: u32,
    from: &Square,
) -> Result<Square, NoMemory>
    requires below { below ≤ void + 1 }
    requires room { void + 1 < 2 ^ 32 }
    requires big { void ≤ big }
    requires from { length from.now ≡ big + 1 }
    ensures size { IfOk result (λ square. length square ≡ void + 1) }
    ensures set { IfOk result (λ square. TellsPairs square (λ x y. (x < below) × ((y < below) × Relates from.now (up void big x) (up void big y)))) }
{
    let mut square = Square::new(alloc, void + 1)?;
    for v in 0..below {
        copy_pairs_of(&mut square, from, void, big, v, below);
    }
    Ok(square)
}

// What holds where a call goes on, without the names of its own.
fn dropped_side(alloc: Global, void: u32, big: u32, side: &Side) -> Result<Side, NoMemory>
    requires room { void + 1 < 2 ^ 32 }
    requires big { void ≤ big }
    requires size { IsSideSized (big + 1) side.now }
    ensures size { IfOk result (λ s. IsSideSized (void + 1) s) }
    ensures reached { IfOk result (λ s. s.reached ≡ side.now.reached) }
    ensures kept { IfOk result (λ s. TellsPairs s.kept (λ v w. ((v ≤ void) × (w ≤ void)) × Relates side.now.kept (up void big v) (up void big w))) }
    ensures dep { IfOk result (λ s. TellsPairs s.dep (λ v w. ((v < void) × (w < void)) × Relates side.now.dep v w)) }
{
    if !side.reached {
        return Ok(no_side(alloc));
    }
    Ok(Side {
        reached: true,
        kept: front_pairs(alloc, void, big, void + 1, &side.kept)?,
        dep: front_pairs(alloc, void, big, void, &side.dep)?,
    })
}

/// The flow of a call, without the names of its own. It has no outcome but to go on.
pub fn dropped_facts(alloc: Global, void: u32, big: u32, facts: &Facts) -> Result<Facts, NoMemory>
    requires room { void + 1 < 2 ^ 32 }
    requires big { void ≤ big }
    requires size { AreSized (big + 1) facts.now }
    requires alone { (o : Outcome) → IsTrue (side_at facts.now o).reached → o ≡ Next }
    ensures size { IfOk result (λ f. AreSized (void + 1) f) }
    ensures flow { IfOk result (λ f. IsSame (told f) (dropped void big (told facts.now))) }
{
    let mut dropped = no_facts(alloc, void)?;
    dropped.reads = front_row(alloc, void, &facts.reads)?;
    dropped.writes = front_row(alloc, void, &facts.writes)?;
    dropped.decides = front_row(alloc, void, &facts.decides)?;
    dropped.next = dropped_side(alloc, void, big, &facts.next)?;
    Ok(dropped)
}
