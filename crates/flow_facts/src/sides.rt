ghost use Rattle.std.specs.Prelude.{◌≡◌, ◌≢◌, ℕ, ◌+◌, ◌<◌, ◌≤◌, ◌^◌, ◌⊎◌, ◌↔◌, length, All, IfOk, OnOk, IsTrue, true, slice_index_or, List, [], vec_len};
ghost use Rattle.core_form.specs.Code.{Next};
ghost use Rattle.flow_facts.specs.Flow.{Splits, moving, changing, clearing};
ghost use Rattle.flow_bits.specs.Sets.{Has, Relates, Tells, TellsPairs};
ghost use Rattle.flow_facts.specs.Told.{IsSideSized, IsBehind, IsThen, IsEither, IsRound, AtEach, can_of, no_side, step_flow};

use flow_bits::{Row, Square};
use spark_base::NoMemory;
use std::alloc::Global;

/// What holds at one outcome of a statement. Where it is not reached its relations are empty, and take no memory.
#[derive(Drop)]
pub struct Side {
    pub reached: bool,
    /// Of v and v: the leaf v may still hold its entry value. Of "not assigned" and x: x may be unassigned.
    pub kept: Square,
    /// Of v and w: the entry value of v may decide w.
    pub dep: Square,
}

/// An outcome that is not reached.
pub fn no_side(alloc: Global) -> Side
    ensures { result ≡ no_side }
{
    Side {
        reached: false,
        kept: Square::none(alloc),
        dep: Square::none(alloc),
    }
}

// Adds each number below a bound with itself.
fn add_same(square: &mut Square, below: u32)
    requires { below ≤ length square.old }
    ensures size { length square.new ≡ length square.old }
    ensures set { TellsPairs square.new (λ v w. Relates square.old v w ⊎ ((v < below) × (v ≡ w))) }
{
    for v in 0..below {
        square.add(v, v);
    }
}

/// An outcome that is reached, with nothing done.
pub fn same_side(alloc: Global, void: u32) -> Result<Side, NoMemory>
    requires { void + 1 < 2 ^ 32 }
    ensures size { IfOk result (λ s. IsSideSized (void + 1) s) }
    ensures reached { IfOk result (λ s. s.reached ≡ true) }
    ensures kept { IfOk result (λ s. TellsPairs s.kept (λ v w. (v ≤ void) × (v ≡ w))) }
    ensures dep { IfOk result (λ s. TellsPairs s.dep (λ v w. (v < void) × (v ≡ w))) }
{
    let mut kept = Square::new(alloc, void + 1)?;
    let mut dep = Square::new(alloc, void + 1)?;
    add_same(&mut kept, void + 1);
    add_same(&mut dep, void);
    Ok(Side {
        reached: true,
        kept,
        dep,
    })
}

/// So many outcomes that are not reached, and behind them one that is, with nothing done.
pub fn leave_sides(alloc: Global, void: u32, loops: u32) -> Result<Vec<Side>, NoMemory>
    requires { void + 1 < 2 ^ 32 }
    ensures size { IfOk result (λ sides. All (IsSideSized (void + 1)) sides.items) }
    ensures reached { IfOk result (λ sides. (n : ℕ) → IsTrue (slice_index_or sides.items n no_side).reached ↔ (n ≡ loops)) }
    ensures kept { IfOk result (λ sides. (n v w : ℕ) → Relates (slice_index_or sides.items n no_side).kept v w ↔ ((n ≡ loops) × ((v ≤ void) × (v ≡ w)))) }
    ensures dep { IfOk result (λ sides. (n v w : ℕ) → Relates (slice_index_or sides.items n no_side).dep v w ↔ ((n ≡ loops) × ((v < void) × (v ≡ w)))) }
{
    let mut sides = Vec::new(alloc);
    pad(alloc, &mut sides, loops as usize)?;
    sides.push(same_side(alloc, void)?)?;
    Ok(sides)
}

// Which outcomes are reached

// Whether some number of loops may be left.
fn leaves_some(leaves: &[Side]) -> bool
    ensures { IsTrue result ↔ ((n : ℕ) × IsTrue (slice_index_or leaves.now n no_side).reached) }
{
    for side in leaves {
        if side.reached {
            return true;
        }
    }
    false
}

// Whether two numbers of loops may be left.
fn leaves_two(leaves: &[Side]) -> bool
    ensures { IsTrue result ↔ ((n : ℕ) × ((m : ℕ) × ((n ≢ m) × (IsTrue (slice_index_or leaves.now n no_side).reached × IsTrue (slice_index_or leaves.now m no_side).reached)))) }
{
    let mut seen = false;
    for i in 0..leaves.len() {
        if leaves[i].reached && seen {
            return true;
        }
        seen = seen || leaves[i].reached;
    }
    false
}

// Whether two of three hold, or a fourth does.
fn are_two(a: bool, b: bool, c: bool, two: bool) -> bool
    ensures { IsTrue result ↔ ((IsTrue a × IsTrue b) ⊎ ((IsTrue a × IsTrue c) ⊎ ((IsTrue b × IsTrue c) ⊎ IsTrue two))) }
{
    (a && b) || (a && c) || (b && c) || two
}

// Whether two outcomes are reached.
fn splits(next: &Side, back: &Side, leaves: &[Side]) -> bool
    ensures { IsTrue result ↔ Splits (can_of next.now back.now leaves.now) }
{
    let some = leaves_some(leaves);
    let two = leaves_two(leaves);
    are_two(next.reached, back.reached, some, two)
}

/// Keeps what decides the outcome where there is a choice.
pub fn choose(decides: &mut Row, next: &Side, back: &Side, leaves: &Vec<Side>)
    ensures size { length decides.new ≡ length decides.old }
    ensures set { Tells decides.new (λ v. Splits (can_of next.now back.now leaves.now.items) × Has decides.old v) }
{
    if !splits(next, back, leaves.as_slice()) {
        decides.clear();
    }
}

// Before what follows

/// Puts a move to a leaf before what holds at one outcome.
fn move_side(side: &mut Side, void: u32, to: u32, from: &Row, row: &mut Row)
    requires leaf { to < void }
    requires size { IsSideSized (void + 1) side.old }
    requires from { length from.now ≡ void + 1 }
    requires row { length row.old ≡ void + 1 }
    ensures size { IsSideSized (void + 1) side.new }
    ensures row { length row.new ≡ void + 1 }
    ensures behind { IsBehind (moving void to (Has from.now)) side.old side.new }
{
    if side.reached {
        side.kept.clear_row(to);
        side.dep.copy_row(to, row);
        side.dep.clear_row(to);
        side.dep.clear_row(void);
        side.dep.cross_into(from, row);
    }
}

/// Puts a move to a part of a leaf before what holds at one outcome.
fn change_side(side: &mut Side, void: u32, of: u32, from: &Row, row: &mut Row)
    requires leaf { of < void }
    requires size { IsSideSized (void + 1) side.old }
    requires from { length from.now ≡ void + 1 }
    requires row { length row.old ≡ void + 1 }
    ensures size { IsSideSized (void + 1) side.new }
    ensures row { length row.new ≡ void + 1 }
    ensures behind { IsBehind (changing void of (Has from.now)) side.old side.new }
{
    if side.reached {
        side.dep.copy_row(of, row);
        side.dep.clear_row(void);
        side.dep.cross_into(from, row);
    }
}

/// Puts before what holds at one outcome that a leaf is no longer assigned.
fn clear_side(side: &mut Side, void: u32, leaf: u32, row: &mut Row)
    requires leaf { leaf < void }
    requires size { IsSideSized (void + 1) side.old }
    requires row { length row.old ≡ void + 1 }
    ensures size { IsSideSized (void + 1) side.new }
    ensures row { length row.new ≡ void + 1 }
    ensures behind { IsBehind (clearing void leaf) side.old side.new }
{
    if side.reached {
        side.kept.copy_row(leaf, row);
        side.kept.clear_row(leaf);
        side.kept.add_row(void, row);
        side.dep.clear_row(leaf);
        side.dep.clear_row(void);
    }
}

/// How a leaf is changed.
#[derive(Clone, Copy)]
pub enum Change {
    Whole,
    Part,
    Fresh,
}

/// Puts a change of a leaf before what holds at one outcome. What is read does not matter where the leaf is made fresh.
pub fn step_side(side: &mut Side, change: Change, void: u32, leaf: u32, from: &Row, row: &mut Row)
    requires leaf { leaf < void }
    requires size { IsSideSized (void + 1) side.old }
    requires from { length from.now ≡ void + 1 }
    requires row { length row.old ≡ void + 1 }
    ensures size { IsSideSized (void + 1) side.new }
    ensures row { length row.new ≡ void + 1 }
    ensures behind { IsBehind (step_flow change void leaf (Has from.now)) side.old side.new }
{
    match change {
        Change::Whole => move_side(side, void, leaf, from, row),
        Change::Part => change_side(side, void, leaf, from, row),
        Change::Fresh => clear_side(side, void, leaf, row),
    }
}

// Puts a change of a leaf before what holds at each number of loops that are left.
fn step_sides(sides: &mut [Side], change: Change, void: u32, leaf: u32, from: &Row, row: &mut Row)
    requires leaf { leaf < void }
    requires size { All (IsSideSized (void + 1)) sides.old }
    requires from { length from.now ≡ void + 1 }
    requires row { length row.old ≡ void + 1 }
    ensures size { All (IsSideSized (void + 1)) sides.new }
    ensures row { length row.new ≡ void + 1 }
    ensures behind { AtEach (IsBehind (step_flow change void leaf (Has from.now))) sides.old sides.new }
{
    for i in 0..sides.len() {
        step_side(&mut sides[i], change, void, leaf, from, row);
    }
}

// One statement, and then another

/// Whether both hold.
pub fn both(a: bool, b: bool) -> bool
    ensures { IsTrue result ↔ (IsTrue a × IsTrue b) }
{
    a && b
}

/// Whether one holds.
pub fn any(a: bool, b: bool) -> bool
    ensures { IsTrue result ↔ (IsTrue a ⊎ IsTrue b) }
{
    a || b
}

/// Adds a relation where this holds.
pub fn add_pairs(into: &mut Square, from: &Square, holds: bool)
    requires { IsTrue holds → length from.now ≡ length into.old }
    ensures size { length into.new ≡ length into.old }
    ensures set { TellsPairs into.new (λ v w. Relates into.old v w ⊎ (IsTrue holds × Relates from.now v w)) }
{
    if holds {
        into.union_into(from);
    }
}

// Adds what two relations lead to where this holds.
fn add_behind(into: &mut Square, first: &Square, second: &Square, holds: bool)
    requires first { IsTrue holds → length first.now ≡ length into.old }
    requires second { IsTrue holds → length second.now ≡ length into.old }
    ensures size { length into.new ≡ length into.old }
    ensures set { TellsPairs into.new (λ v w. Relates into.old v w ⊎ (IsTrue holds × ((u : ℕ) × (Relates first.now v u × Relates second.now u w)))) }
{
    if holds {
        into.compose_into(first, second);
    }
}

/// Adds all pairs of two sets where this holds.
pub fn add_cross(into: &mut Square, left: &Row, right: &Row, holds: bool)
    requires left { length left.now ≡ length into.old }
    requires right { length right.now ≡ length into.old }
    ensures size { length into.new ≡ length into.old }
    ensures set { TellsPairs into.new (λ v w. Relates into.old v w ⊎ (IsTrue holds × (Has left.now v × Has right.now w))) }
{
    if holds {
        into.cross_into(left, right);
    }
}

/// One outcome behind a first statement, which reaches it itself too.
pub fn then_side(
    alloc: Global,
    own: &Side,
    next: &Side,
    decides: &Row,
    writes: &Row,
    side: &mut Side,
) -> Result<(), NoMemory>
    requires own { IsSideSized (length decides.now) own.now }
    requires next { IsSideSized (length decides.now) next.now }
    requires size { IsSideSized (length decides.now) side.old }
    requires writes { length writes.now ≡ length decides.now }
    ensures size { OnOk result (IsSideSized (length decides.now) side.new) }
    ensures then { OnOk result (IsThen own.now next.now decides.now writes.now side.old side.new) }
{
    let behind = both(next.reached, side.reached);
    if !any(own.reached, behind) {
        *side = no_side(alloc);
        return Ok(());
    }
    let mut kept = Square::new(alloc, decides.size())?;
    let mut dep = Square::new(alloc, decides.size())?;
    add_pairs(&mut kept, &own.kept, own.reached);
    add_pairs(&mut dep, &own.dep, own.reached);
    add_behind(&mut kept, &next.kept, &side.kept, behind);
    add_behind(&mut dep, &next.dep, &side.dep, behind);
    add_cross(&mut dep, decides, writes, both(own.reached, behind));
    side.reached = true;
    side.kept = kept;
    side.dep = dep;
    Ok(())
}

/// Adds outcomes that are not reached, until there are so many.
pub fn pad(alloc: Global, sides: &mut Vec<Side>, count: usize) -> Result<(), NoMemory>
    ensures size { (n : ℕ) → All (IsSideSized n) sides.old.items → All (IsSideSized n) sides.new.items }
    ensures count { OnOk result (count ≤ vec_len sides.new) }
    ensures same { (i : ℕ) → slice_index_or sides.new.items i no_side ≡ slice_index_or sides.old.items i no_side }
    ensures least { length sides.old.items ≤ count → OnOk result (length sides.new.items ≡ count) }
{
    for _i in sides.len()..count {
        sides.push(no_side(alloc))?;
    }
    Ok(())
}

// The outcome at one place of a list behind a first statement.
fn then_at(
    alloc: Global,
    owns: &[Side],
    at: usize,
    next: &Side,
    decides: &Row,
    writes: &Row,
    side: &mut Side,
) -> Result<(), NoMemory>
    requires own { All (IsSideSized (length decides.now)) owns.now }
    requires next { IsSideSized (length decides.now) next.now }
    requires size { IsSideSized (length decides.now) side.old }
    requires writes { length writes.now ≡ length decides.now }
    ensures size { OnOk result (IsSideSized (length decides.now) side.new) }
    ensures then { OnOk result (IsThen (slice_index_or owns.now at no_side) next.now decides.now writes.now side.old side.new) }
{
    if at < owns.len() {
        then_side(alloc, &owns[at], next, decides, writes, side)
    } else {
        then_side(alloc, &no_side(alloc), next, decides, writes, side)
    }
}

// Each number of loops that are left behind a first statement.
fn then_sides(
    alloc: Global,
    owns: &[Side],
    next: &Side,
    decides: &Row,
    writes: &Row,
    sides: &mut [Side],
) -> Result<(), NoMemory>
    requires own { All (IsSideSized (length decides.now)) owns.now }
    requires next { IsSideSized (length decides.now) next.now }
    requires size { All (IsSideSized (length decides.now)) sides.old }
    requires writes { length writes.now ≡ length decides.now }
    requires count { length owns.now ≤ length sides.old }
    ensures size { OnOk result (All (IsSideSized (length decides.now)) sides.new) }
    ensures then { OnOk result ((i : ℕ) → IsThen (slice_index_or owns.now i no_side) next.now decides.now writes.now
        (slice_index_or sides.old i no_side) (slice_index_or sides.new i no_side)) }
{
    for i in 0..sides.len() {
        then_at(alloc, owns, i, next, decides, writes, &mut sides[i])?;
    }
    Ok(())
}

// One branch or another

// Makes an outcome reached, where it is not.
fn open_side(alloc: Global, size: u32, side: &mut Side, opens: bool) -> Result<(), NoMemory>
    requires { IsSideSized size side.old }
    ensures size { OnOk result (IsSideSized size side.new) }
    ensures reached { OnOk result (IsTrue side.new.reached ↔ (IsTrue side.old.reached ⊎ IsTrue opens)) }
    ensures kept { OnOk result (TellsPairs side.new.kept (λ v w. Relates side.old.kept v w)) }
    ensures dep { OnOk result (TellsPairs side.new.dep (λ v w. Relates side.old.dep v w)) }
{
    if opens && !side.reached {
        side.kept = Square::new(alloc, size)?;
        side.dep = Square::new(alloc, size)?;
        side.reached = true;
    }
    Ok(())
}

/// One outcome of one branch or of another, by a test.
pub fn either_side(
    alloc: Global,
    side: &mut Side,
    other: &Side,
    test: &Row,
    writes: &Row,
) -> Result<(), NoMemory>
    requires size { IsSideSized (length test.now) side.old }
    requires other { IsSideSized (length test.now) other.now }
    requires writes { length writes.now ≡ length test.now }
    ensures size { OnOk result (IsSideSized (length test.now) side.new) }
    ensures either { OnOk result (IsEither other.now test.now writes.now side.old side.new) }
{
    open_side(alloc, test.size(), side, other.reached)?;
    if !side.reached {
        return Ok(());
    }
    add_pairs(&mut side.kept, &other.kept, other.reached);
    add_pairs(&mut side.dep, &other.dep, other.reached);
    side.dep.cross_into(test, writes);
    Ok(())
}

// The outcome at one place of a list, and of another branch.
fn either_at(
    alloc: Global,
    side: &mut Side,
    others: &[Side],
    at: usize,
    test: &Row,
    writes: &Row,
) -> Result<(), NoMemory>
    requires size { IsSideSized (length test.now) side.old }
    requires other { All (IsSideSized (length test.now)) others.now }
    requires writes { length writes.now ≡ length test.now }
    ensures size { OnOk result (IsSideSized (length test.now) side.new) }
    ensures either { OnOk result (IsEither (slice_index_or others.now at no_side) test.now writes.now side.old side.new) }
{
    if at < others.len() {
        either_side(alloc, side, &others[at], test, writes)
    } else {
        either_side(alloc, side, &no_side(alloc), test, writes)
    }
}

// Each number of loops that are left in one branch or in another.
fn either_sides(
    alloc: Global,
    sides: &mut [Side],
    others: &[Side],
    test: &Row,
    writes: &Row,
) -> Result<(), NoMemory>
    requires size { All (IsSideSized (length test.now)) sides.old }
    requires other { All (IsSideSized (length test.now)) others.now }
    requires writes { length writes.now ≡ length test.now }
    requires count { length others.now ≤ length sides.old }
    ensures size { OnOk result (All (IsSideSized (length test.now)) sides.new) }
    ensures either { OnOk result ((i : ℕ) → IsEither (slice_index_or others.now i no_side) test.now writes.now
        (slice_index_or sides.old i no_side) (slice_index_or sides.new i no_side)) }
{
    for i in 0..sides.len() {
        either_at(alloc, &mut sides[i], others, i, test, writes)?;
    }
    Ok(())
}

// Any number of rounds

/// One outcome behind any number of rounds. `star` has what those decide.
pub fn round_side(
    alloc: Global,
    next: &Side,
    star: &Square,
    decides: &Row,
    writes: &Row,
    side: &mut Side,
) -> Result<(), NoMemory>
    requires next { IsSideSized (length decides.now) next.now }
    requires star { length star.now ≡ length decides.now }
    requires size { IsSideSized (length decides.now) side.old }
    requires writes { length writes.now ≡ length decides.now }
    ensures size { OnOk result (IsSideSized (length decides.now) side.new) }
    ensures round { OnOk result (IsRound next.now star.now decides.now writes.now side.old side.new) }
{
    if !side.reached {
        return Ok(());
    }
    let mut kept = Square::new(alloc, decides.size())?;
    kept.union_into(&side.kept);
    add_behind(&mut kept, &next.kept, &side.kept, next.reached);
    add_cross(&mut side.dep, decides, writes, next.reached);
    let mut dep = Square::new(alloc, decides.size())?;
    dep.compose_into(star, &side.dep);
    side.kept = kept;
    side.dep = dep;
    Ok(())
}

// Each number of loops that are left behind any number of rounds.
fn round_sides(
    alloc: Global,
    next: &Side,
    star: &Square,
    decides: &Row,
    writes: &Row,
    sides: &mut [Side],
) -> Result<(), NoMemory>
    requires next { IsSideSized (length decides.now) next.now }
    requires star { length star.now ≡ length decides.now }
    requires size { All (IsSideSized (length decides.now)) sides.old }
    requires writes { length writes.now ≡ length decides.now }
    ensures size { OnOk result (All (IsSideSized (length decides.now)) sides.new) }
    ensures round { OnOk result (AtEach (IsRound next.now star.now decides.now writes.now) sides.old sides.new) }
{
    for i in 0..sides.len() {
        round_side(alloc, next, star, decides, writes, &mut sides[i])?;
    }
    Ok(())
}

// The same over vectors

/// Puts a change of a leaf before what holds at each number of loops that are left.
pub fn step_leaves(
    leaves: &mut Vec<Side>,
    change: Change,
    void: u32,
    leaf: u32,
    from: &Row,
    row: &mut Row,
)
    requires leaf { leaf < void }
    requires size { All (IsSideSized (void + 1)) leaves.old.items }
    requires from { length from.now ≡ void + 1 }
    requires row { length row.old ≡ void + 1 }
    ensures size { All (IsSideSized (void + 1)) leaves.new.items }
    ensures row { length row.new ≡ void + 1 }
    ensures behind { AtEach (IsBehind (step_flow change void leaf (Has from.now))) leaves.old.items leaves.new.items }
{
    step_sides(leaves.as_mut_slice(), change, void, leaf, from, row);
}

/// Each number of loops that are left behind a first statement.
pub fn then_leaves(
    alloc: Global,
    owns: &Vec<Side>,
    next: &Side,
    decides: &Row,
    writes: &Row,
    leaves: &mut Vec<Side>,
) -> Result<(), NoMemory>
    requires own { All (IsSideSized (length decides.now)) owns.now.items }
    requires next { IsSideSized (length decides.now) next.now }
    requires size { All (IsSideSized (length decides.now)) leaves.old.items }
    requires writes { length writes.now ≡ length decides.now }
    requires count { vec_len owns.now ≤ vec_len leaves.old }
    ensures size { OnOk result (All (IsSideSized (length decides.now)) leaves.new.items) }
    ensures then { OnOk result ((i : ℕ) → IsThen (slice_index_or owns.now.items i no_side) next.now decides.now writes.now
        (slice_index_or leaves.old.items i no_side) (slice_index_or leaves.new.items i no_side)) }
{
    then_sides(
        alloc,
        owns.as_slice(),
        next,
        decides,
        writes,
        leaves.as_mut_slice(),
    )
}

/// Each number of loops that are left in one branch or in another.
pub fn either_leaves(
    alloc: Global,
    leaves: &mut Vec<Side>,
    others: &Vec<Side>,
    test: &Row,
    writes: &Row,
) -> Result<(), NoMemory>
    requires size { All (IsSideSized (length test.now)) leaves.old.items }
    requires other { All (IsSideSized (length test.now)) others.now.items }
    requires writes { length writes.now ≡ length test.now }
    requires count { vec_len others.now ≤ vec_len leaves.old }
    ensures size { OnOk result (All (IsSideSized (length test.now)) leaves.new.items) }
    ensures either { OnOk result ((i : ℕ) → IsEither (slice_index_or others.now.items i no_side) test.now writes.now
        (slice_index_or leaves.old.items i no_side) (slice_index_or leaves.new.items i no_side)) }
{
    either_sides(
        alloc,
        leaves.as_mut_slice(),
        others.as_slice(),
        test,
        writes,
    )
}

/// Each number of loops that are left behind any number of rounds.
pub fn round_leaves(
    alloc: Global,
    next: &Side,
    star: &Square,
    decides: &Row,
    writes: &Row,
    leaves: &mut Vec<Side>,
) -> Result<(), NoMemory>
    requires next { IsSideSized (length decides.now) next.now }
    requires star { length star.now ≡ length decides.now }
    requires size { All (IsSideSized (length decides.now)) leaves.old.items }
    requires writes { length writes.now ≡ length decides.now }
    ensures size { OnOk result (All (IsSideSized (length decides.now)) leaves.new.items) }
    ensures round { OnOk result (AtEach (IsRound next.now star.now decides.now writes.now) leaves.old.items leaves.new.items) }
{
    round_sides(alloc, next, star, decides, writes, leaves.as_mut_slice())
}
