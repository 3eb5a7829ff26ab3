//! The worklist.
ghost use Rattle.std.specs.Prelude.{◌≡◌, ◌≢◌, ℕ, ◌<◌, ◌↔◌, ◌⊎◌, ◌^◌, All, [], length, slice_index_or, IfOk, OnOk, IsTrue, false};
ghost use Rattle.least_solution.specs.Least.{least};
ghost use Rattle.summary_rows.specs.Facts.{Fact};
ghost use Rattle.summary_rows.specs.Layout.{IsLayout, AreRows, IsTidy, IsTidyRow, RowTells, GainsFact, facts, told, outer_of, row_size};
ghost use Rattle.call_lists.specs.Lists.{AreLists, Names, Has};
ghost use Rattle.row_solver.specs.Equations.{AreCallers};
ghost use Rattle.row_solver.specs.Solving.{IsSolving, room};

use crate::equations::RowEquations;
use call_lists::{all_marked, mark, order_of};
use spark_base::{BodyNo, Items, NoMemory};
use std::alloc::Global;
use summary_rows::{Layout, Rows, Words};

// Joins the words of a body's row, which is clean then, and says whether the row grew. Its callers are dirty then.
fn settle(
    callers: &[Items<BodyNo>],
    body: BodyNo,
    words: &Words,
    rows: &mut Rows,
    dirty: &mut [bool],
) -> bool
    requires rows { AreRows rows.old }
    requires in_range { body.0 < length rows.old.layout.outer }
    requires size { length words.now ≡ row_size (length (outer_of rows.old.layout body.0)) }
    requires lists { AreLists (length rows.old.layout.outer) callers.now }
    requires marks { length dirty.old ≡ length rows.old.layout.outer }
    ensures rows { AreRows rows.new }
    ensures layout { rows.new.layout ≡ rows.old.layout }
    ensures set { (f : Fact) → told rows.new f
        ↔ (told rows.old f ⊎ ((f.owner ≡ body.0) × RowTells (outer_of rows.old.layout body.0) words.now f.part)) }
    ensures tidy { IsTidy rows.old → IsTidyRow (outer_of rows.old.layout body.0) words.now → IsTidy rows.new }
    ensures grew { IsTrue result → IsTidyRow (outer_of rows.old.layout body.0) words.now → GainsFact rows.old rows.new }
    ensures same { result ≡ false → rows.new ≡ rows.old }
    ensures marks { length dirty.new ≡ length dirty.old }
    ensures cleans { (c : ℕ) → Has dirty.old c → Has dirty.new c ⊎ (c ≡ body.0) }
    ensures wakes { IsTrue result → (c : ℕ) → Names (slice_index_or callers.now body.0 []) c → Has dirty.new c }
    ensures quiet { result ≡ false → (c : ℕ) → Has dirty.new c → Has dirty.old c × (c ≢ body.0) }
{
    dirty[body.0 as usize] = false;
    let grew = rows.join(body, words.as_slice());
    if grew {
        mark(callers[body.0 as usize].as_slice(), dirty);
    }
    grew
}

// Evaluates a body if it is dirty, and says whether its row grew.
fn visit<E: RowEquations>(
    alloc: Global,
    equations: &E,
    callers: &[Items<BodyNo>],
    body: BodyNo,
    rows: &mut Rows,
    dirty: &mut [bool],
) -> Result<bool, NoMemory>
    requires fit { E.is_fit equations.now }
    requires in_range { body.0 < length (E.layout equations.now).outer }
    requires lists { AreLists (length (E.layout equations.now).outer) callers.now }
    requires callers { AreCallers (E.calls equations.now) callers.now }
    requires solving { IsSolving (E.layout equations.now) (E.follow equations.now) rows.old dirty.old }
    ensures solving { OnOk result (IsSolving (E.layout equations.now) (E.follow equations.now) rows.new dirty.new) }
    ensures room { IfOk result (λ grew. IsTrue grew → room (E.layout equations.now) rows.new < room (E.layout equations.now) rows.old) }
    ensures same { IfOk result (λ grew. grew ≡ false → rows.new ≡ rows.old) }
    ensures quiet { IfOk result (λ grew. grew ≡ false → (c : ℕ) → Has dirty.new c → Has dirty.old c × (c ≢ body.0)) }
{
    if !dirty[body.0 as usize] {
        return Ok(false);
    }
    let words = equations.row_words(alloc, body, rows)?;
    let grew = settle(callers, body, &words, rows, dirty);
    Ok(grew)
}

// Visits the bodies of a list, and says whether any row grew.
fn sweep<E: RowEquations>(
    alloc: Global,
    equations: &E,
    callers: &[Items<BodyNo>],
    list: &[BodyNo],
    rows: &mut Rows,
    dirty: &mut [bool],
) -> Result<bool, NoMemory>
    requires fit { E.is_fit equations.now }
    requires list { All (λ b. b.0 < length (E.layout equations.now).outer) list.now }
    requires lists { AreLists (length (E.layout equations.now).outer) callers.now }
    requires callers { AreCallers (E.calls equations.now) callers.now }
    requires solving { IsSolving (E.layout equations.now) (E.follow equations.now) rows.old dirty.old }
    ensures solving { OnOk result (IsSolving (E.layout equations.now) (E.follow equations.now) rows.new dirty.new) }
    ensures room { IfOk result (λ grew. IsTrue grew → room (E.layout equations.now) rows.new < room (E.layout equations.now) rows.old) }
    ensures same { IfOk result (λ grew. grew ≡ false → rows.new ≡ rows.old) }
    ensures quiet { IfOk result (λ grew. grew ≡ false → (c : ℕ) → Has dirty.new c → Has dirty.old c × (Names list.now c → ⊥)) }
{
    let mut grew = false;
    for b in list {
        if visit(alloc, equations, callers, *b, rows, dirty)? {
            grew = true;
        }
    }
    Ok(grew)
}

// Where the bodies are visited in one direction and in the other.
#[derive(Drop)]
struct Ways {
    there: Vec<BodyNo>,
    back: Vec<BodyNo>,
}

// Visits all bodies there and back, and says whether any row grew. Where none did, no body is dirty any more.
fn round<E: RowEquations>(
    alloc: Global,
    equations: &E,
    callers: &[Items<BodyNo>],
    ways: &Ways,
    rows: &mut Rows,
    dirty: &mut [bool],
) -> Result<bool, NoMemory>
    requires fit { E.is_fit equations.now }
    requires there { All (λ b. b.0 < length (E.layout equations.now).outer) ways.now.there.items }
    requires back { All (λ b. b.0 < length (E.layout equations.now).outer) ways.now.back.items }
    requires all { (b : ℕ) → b < length (E.layout equations.now).outer → Names ways.now.back.items b }
    requires lists { AreLists (length (E.layout equations.now).outer) callers.now }
    requires callers { AreCallers (E.calls equations.now) callers.now }
    requires solving { IsSolving (E.layout equations.now) (E.follow equations.now) rows.old dirty.old }
    ensures solving { OnOk result (IsSolving (E.layout equations.now) (E.follow equations.now) rows.new dirty.new) }
    ensures room { IfOk result (λ grew. IsTrue grew → room (E.layout equations.now) rows.new < room (E.layout equations.now) rows.old) }
    ensures quiet { IfOk result (λ grew. grew ≡ false → (c : ℕ) → Has dirty.new c → ⊥) }
{
    let out = sweep(
        alloc,
        equations,
        callers,
        ways.there.as_slice(),
        rows,
        dirty,
    )?;
    let home = sweep(alloc, equations, callers, ways.back.as_slice(), rows, dirty)?;
    Ok(out || home)
}

// Rounds until no row grows.
fn settle_all<E: RowEquations>(
    alloc: Global,
    equations: &E,
    callers: &[Items<BodyNo>],
    ways: &Ways,
    rows: &mut Rows,
    dirty: &mut [bool],
) -> Result<(), NoMemory>
    requires fit { E.is_fit equations.now }
    requires there { All (λ b. b.0 < length (E.layout equations.now).outer) ways.now.there.items }
    requires back { All (λ b. b.0 < length (E.layout equations.now).outer) ways.now.back.items }
    requires all { (b : ℕ) → b < length (E.layout equations.now).outer → Names ways.now.back.items b }
    requires lists { AreLists (length (E.layout equations.now).outer) callers.now }
    requires callers { AreCallers (E.calls equations.now) callers.now }
    requires solving { IsSolving (E.layout equations.now) (E.follow equations.now) rows.old dirty.old }
    ensures solving { OnOk result (IsSolving (E.layout equations.now) (E.follow equations.now) rows.new dirty.new) }
    ensures quiet { OnOk result ((c : ℕ) → Has dirty.new c → ⊥) }
{
    while round(alloc, equations, callers, ways, rows, dirty)? {}
    Ok(())
}

// The order of visits, callees first, and the same backwards.
fn ways_of(alloc: Global, callers: &[Items<BodyNo>]) -> Result<Ways, NoMemory>
    requires callers { AreLists (length callers.now) callers.now }
    requires room { length callers.now < 2 ^ 32 }
    ensures there { IfOk result (λ ways. All (λ b. b.0 < length callers.now) ways.there.items) }
    ensures back { IfOk result (λ ways. All (λ b. b.0 < length callers.now) ways.back.items) }
    ensures all { IfOk result (λ ways. (b : ℕ) → b < length callers.now → Names ways.back.items b) }
{
    let back = order_of(alloc, callers)?;
    let there: Vec<BodyNo> = back.iter().rev().copied().collect(alloc)?;
    Ok(Ways { there, back })
}

/// The least solution of the equations: the rows that tell what as many applications of all equations at once as there are facts
/// make of no facts.
///
/// A body is visited only where it is dirty: at first, and whenever the row of one that it calls has grown. The bodies are visited
/// callees first and then backwards, until no row grows. Beside the visits it takes the time of a few steps for each body and
/// each caller, and for each body in each round. Want of memory is the only fault.
pub fn solve_alone<E: RowEquations>(
    alloc: Global,
    equations: &E,
    layout: &Layout,
    callers: &[Items<BodyNo>],
) -> Result<Rows, NoMemory>
    requires fit { E.is_fit equations.now }
    requires layout { IsLayout layout.now }
    requires same { E.layout equations.now ≡ layout.now }
    requires room { length callers.now < 2 ^ 32 }
    requires lists { AreLists (length (E.layout equations.now).outer) callers.now }
    requires callers { AreCallers (E.calls equations.now) callers.now }
    ensures layout { IfOk result (λ rows. rows.layout ≡ layout.now) }
    ensures rows { IfOk result (λ rows. AreRows rows) }
    ensures tidy { IfOk result (λ rows. IsTidy rows) }
    ensures least { IfOk result (λ rows. (f : Fact) → told rows f ↔ least (facts layout.now) (E.follow equations.now) f) }
{
    let ways = ways_of(alloc, callers)?;
    let mut dirty = all_marked(alloc, callers.len())?;
    let mut rows = Rows::new(alloc, layout)?;
    settle_all(
        alloc,
        equations,
        callers,
        &ways,
        &mut rows,
        dirty.as_mut_slice(),
    )?;
    Ok(rows)
}
