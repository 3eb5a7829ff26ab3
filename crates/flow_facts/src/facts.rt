ghost use Rattle.std.specs.Prelude.{◌≡◌, ◌≢◌, ℕ, ◌+◌, ◌<◌, ◌≤◌, ◌^◌, ◌⊎◌, ◌↔◌, length, IfOk, OnOk, IsTrue, true, All, slice_index_or, []};
ghost use Rattle.core_form.specs.Code.{Outcome, Next, Leaves, Returns};
ghost use Rattle.flow_facts.specs.Flow.{IsSame, IsNarrow, Splits, nowhere, leaving, moving, changing, clearing, seq, branch, loop};
ghost use Rattle.flow_bits.specs.Sets.{Has, Relates, Tells, TellsPairs, Steps};
ghost use Rattle.flow_facts.specs.Told.{AreSized, IsBehind, IsSideSized, no_side, side_at, step_flow, told};

use crate::sides::{
    Change, Side, add_pairs, choose, either_leaves, either_side, leave_sides, no_side, pad,
    round_leaves, round_side, same_side, step_leaves, step_side, then_leaves, then_side,
};
use flow_bits::{Row, Square};
use spark_base::NoMemory;
use std::alloc::Global;

/// The flow of a statement. Names are numbers of leaves; `void` is the number of leaves, and stands for "not assigned";
/// each row has a place for it.
#[derive(Drop)]
pub struct Facts {
    pub reads: Row,
    pub writes: Row,
    pub decides: Row,
    /// The next statement is reached.
    pub next: Side,
    /// It returns.
    pub back: Side,
    /// It leaves so many loops, and one more; what stands behind the last is not reached.
    pub leaves: Vec<Side>,
}

/// Nothing is reached.
pub fn no_facts(alloc: Global, void: u32) -> Result<Facts, NoMemory>
    requires { void + 1 < 2 ^ 32 }
    ensures size { IfOk result (λ f. AreSized (void + 1) f) }
    ensures none { IfOk result (λ f. (f.next ≡ no_side) × (f.back ≡ no_side) × (f.leaves.items ≡ [])) }
    ensures flow { IfOk result (λ f. IsSame (told f) nowhere) }
{
    Ok(Facts {
        reads: Row::new(alloc, void + 1)?,
        writes: Row::new(alloc, void + 1)?,
        decides: Row::new(alloc, void + 1)?,
        next: no_side(alloc),
        back: no_side(alloc),
        leaves: Vec::new(alloc),
    })
}

/// Nothing is done.
pub fn skip_facts(alloc: Global, void: u32) -> Result<Facts, NoMemory>
    requires { void + 1 < 2 ^ 32 }
    ensures size { IfOk result (λ f. AreSized (void + 1) f) }
    ensures flow { IfOk result (λ f. IsSame (told f) (leaving void Next)) }
{
    let mut f = no_facts(alloc, void)?;
    f.next = same_side(alloc, void)?;
    Ok(f)
}

/// Nothing is done but to return.
pub fn back_facts(alloc: Global, void: u32) -> Result<Facts, NoMemory>
    requires { void + 1 < 2 ^ 32 }
    ensures size { IfOk result (λ f. AreSized (void + 1) f) }
    ensures flow { IfOk result (λ f. IsSame (told f) (leaving void Returns)) }
{
    let mut f = no_facts(alloc, void)?;
    f.back = same_side(alloc, void)?;
    Ok(f)
}

/// Nothing is done but to leave so many loops, and one more.
pub fn leave_facts(alloc: Global, void: u32, loops: u32) -> Result<Facts, NoMemory>
    requires { void + 1 < 2 ^ 32 }
    ensures size { IfOk result (λ f. AreSized (void + 1) f) }
    ensures flow { IfOk result (λ f. IsSame (told f) (leaving void (Leaves loops))) }
{
    let mut f = no_facts(alloc, void)?;
    f.leaves = leave_sides(alloc, void, loops)?;
    Ok(f)
}

// Adds a set where this holds.
fn add_where(into: &mut Row, from: &Row, holds: bool)
    requires { length from.now ≡ length into.old }
    ensures size { length into.new ≡ length into.old }
    ensures set { Tells into.new (λ v. Has into.old v ⊎ (IsTrue holds × Has from.now v)) }
{
    if holds {
        into.union_into(from);
    }
}

// Adds what leads to a set where this holds.
fn back_where(square: &Square, row: &Row, into: &mut Row, holds: bool)
    requires square { IsTrue holds → length square.now ≡ length into.old }
    requires row { length row.now ≡ length into.old }
    ensures size { length into.new ≡ length into.old }
    ensures set { Tells into.new (λ v. Has into.old v ⊎ (IsTrue holds × ((w : ℕ) × (Relates square.now v w × Has row.now w)))) }
{
    if holds {
        square.back_into(row, into);
    }
}

/// Puts a statement before what follows.
pub fn then_with(alloc: Global, void: u32, a: &Facts, rest: &mut Facts) -> Result<(), NoMemory>
    requires void { void + 1 < 2 ^ 32 }
    requires first { AreSized (void + 1) a.now }
    requires size { AreSized (void + 1) rest.old }
    ensures size { OnOk result (AreSized (void + 1) rest.new) }
    ensures flow { OnOk result (IsSame (told rest.new) (seq void (told a.now) (told rest.old))) }
{
    let mut reads = Row::new(alloc, void + 1)?;
    back_where(&a.next.kept, &rest.reads, &mut reads, a.next.reached);
    reads.remove(void);
    reads.union_into(&a.reads);
    let mut writes = Row::new(alloc, void + 1)?;
    writes.union_into(&a.writes);
    add_where(&mut writes, &rest.writes, a.next.reached);
    let mut decides = Row::new(alloc, void + 1)?;
    decides.union_into(&a.decides);
    back_where(&a.next.dep, &rest.decides, &mut decides, a.next.reached);
    let none = no_side(alloc);
    pad(alloc, &mut rest.leaves, a.leaves.len())?;
    then_side(alloc, &none, &a.next, &a.decides, &writes, &mut rest.next)?;
    then_side(alloc, &a.back, &a.next, &a.decides, &writes, &mut rest.back)?;
    then_leaves(
        alloc,
        &a.leaves,
        &a.next,
        &a.decides,
        &writes,
        &mut rest.leaves,
    )?;
    choose(&mut decides, &rest.next, &rest.back, &rest.leaves);
    rest.reads = reads;
    rest.writes = writes;
    rest.decides = decides;
    Ok(())
}

/// Becomes the facts of an `if`: those of the one branch or of the other, by a test.
pub fn branch_with(alloc: Global, a: &mut Facts, test: &Row, b: &Facts) -> Result<(), NoMemory>
    requires first { AreSized (length test.now) a.old }
    requires second { AreSized (length test.now) b.now }
    ensures size { OnOk result (AreSized (length test.now) a.new) }
    ensures flow { OnOk result (IsSame (told a.new) (branch (Has test.now) (told a.old) (told b.now))) }
{
    a.reads.union_into(test);
    a.reads.union_into(&b.reads);
    a.writes.union_into(&b.writes);
    a.decides.union_into(test);
    a.decides.union_into(&b.decides);
    pad(alloc, &mut a.leaves, b.leaves.len())?;
    either_side(alloc, &mut a.next, &b.next, test, &a.writes)?;
    either_side(alloc, &mut a.back, &b.back, test, &a.writes)?;
    either_leaves(alloc, &mut a.leaves, &b.leaves, test, &a.writes)?;
    choose(&mut a.decides, &a.next, &a.back, &a.leaves);
    Ok(())
}

// Takes the side of the loop that is left itself from the others.
fn first_leave(alloc: Global, leaves: &mut Vec<Side>) -> Side
    ensures size { (n : ℕ) → All (IsSideSized n) leaves.old.items → All (IsSideSized n) leaves.new.items }
    ensures first_size { (n : ℕ) → All (IsSideSized n) leaves.old.items → IsSideSized n result }
    ensures first { result ≡ slice_index_or leaves.old.items 0 no_side }
    ensures others { (i : ℕ) → slice_index_or leaves.new.items i no_side ≡ slice_index_or leaves.old.items (i + 1) no_side }
{
    if leaves.is_empty() {
        return no_side(alloc);
    }
    leaves.remove(0)
}

// What any number of rounds decide.
fn star_of(alloc: Global, size: u32, next: &Side) -> Result<Square, NoMemory>
    requires { IsSideSized size next.now }
    ensures size { IfOk result (λ star. length star ≡ size) }
    ensures set { IfOk result (λ star. (v w : ℕ) → Relates star v w ↔ ((v < size) × ((n : ℕ) × Steps (Relates next.now.dep) n v w))) }
{
    let mut star = Square::new(alloc, size)?;
    add_pairs(&mut star, &next.dep, next.reached);
    star.close();
    Ok(star)
}

/// Becomes the facts of a loop: those of any number of rounds of its body.
pub fn loop_with(alloc: Global, void: u32, a: &mut Facts) -> Result<(), NoMemory>
    requires void { void + 1 < 2 ^ 32 }
    requires size { AreSized (void + 1) a.old }
    requires narrow { IsNarrow void (told a.old) }
    ensures size { OnOk result (AreSized (void + 1) a.new) }
    ensures flow { OnOk result (IsSame (told a.new) (loop void (told a.old))) }
{
    let star = star_of(alloc, void + 1, &a.next)?;
    let mut decides = Row::new(alloc, void + 1)?;
    star.back_into(&a.decides, &mut decides);
    round_side(alloc, &a.next, &star, &a.decides, &a.writes, &mut a.back)?;
    round_leaves(alloc, &a.next, &star, &a.decides, &a.writes, &mut a.leaves)?;
    a.next = first_leave(alloc, &mut a.leaves);
    choose(&mut decides, &a.next, &a.back, &a.leaves);
    a.decides = decides;
    Ok(())
}

// Puts a change of a leaf before what holds at each outcome.
fn step_all(rest: &mut Facts, change: Change, void: u32, leaf: u32, from: &Row, row: &mut Row)
    requires leaf { leaf < void }
    requires size { AreSized (void + 1) rest.old }
    requires from { length from.now ≡ void + 1 }
    requires row { length row.old ≡ void + 1 }
    ensures size { AreSized (void + 1) rest.new }
    ensures row { length row.new ≡ void + 1 }
    ensures reads { rest.new.reads ≡ rest.old.reads }
    ensures writes { rest.new.writes ≡ rest.old.writes }
    ensures decides { Tells rest.new.decides (λ v. Splits (told rest.old).can × Has rest.old.decides v) }
    ensures behind { (o : Outcome) → IsBehind (step_flow change void leaf (Has from.now)) (side_at rest.old o) (side_at rest.new o) }
{
    choose(&mut rest.decides, &rest.next, &rest.back, &rest.leaves);
    step_side(&mut rest.next, change, void, leaf, from, row);
    step_side(&mut rest.back, change, void, leaf, from, row);
    step_leaves(&mut rest.leaves, change, void, leaf, from, row);
}

/// Puts a move to a leaf before what follows. `row` is room to work in.
pub fn prepend_move(rest: &mut Facts, void: u32, to: u32, from: &Row, row: &mut Row)
    requires leaf { to < void }
    requires size { AreSized (void + 1) rest.old }
    requires from { length from.now ≡ void + 1 }
    requires row { length row.old ≡ void + 1 }
    ensures size { AreSized (void + 1) rest.new }
    ensures row { length row.new ≡ void + 1 }
    ensures flow { IsSame (told rest.new) (seq void (moving void to (Has from.now)) (told rest.old)) }
{
    step_all(rest, Change::Whole, void, to, from, row);
    rest.reads.remove(to);
    rest.reads.remove(void);
    rest.reads.union_into(from);
    rest.writes.add(to);
    move_decides(&mut rest.decides, void, to, from);
}

// Puts a move before what decides.
fn move_decides(decides: &mut Row, void: u32, to: u32, from: &Row)
    requires leaf { to < void }
    requires size { length decides.old ≡ void + 1 }
    requires from { length from.now ≡ void + 1 }
    ensures size { length decides.new ≡ void + 1 }
    ensures set { Tells decides.new (λ v. (w : ℕ) × ((moving void to (Has from.now)).dep Next v w × Has decides.old w)) }
{
    decides.remove(void);
    let decided = decides.has(to);
    decides.remove(to);
    add_where(decides, from, decided);
}

// Puts a move to a part before what decides.
fn change_decides(decides: &mut Row, void: u32, of: u32, from: &Row)
    requires leaf { of < void }
    requires size { length decides.old ≡ void + 1 }
    requires from { length from.now ≡ void + 1 }
    ensures size { length decides.new ≡ void + 1 }
    ensures set { Tells decides.new (λ v. (w : ℕ) × ((changing void of (Has from.now)).dep Next v w × Has decides.old w)) }
{
    decides.remove(void);
    let decided = decides.has(of);
    add_where(decides, from, decided);
}

/// Puts a move to a part of a leaf before what follows. `row` is room to work in.
pub fn prepend_change(rest: &mut Facts, void: u32, of: u32, from: &Row, row: &mut Row)
    requires leaf { of < void }
    requires size { AreSized (void + 1) rest.old }
    requires from { length from.now ≡ void + 1 }
    requires row { length row.old ≡ void + 1 }
    ensures size { AreSized (void + 1) rest.new }
    ensures row { length row.new ≡ void + 1 }
    ensures flow { IsSame (told rest.new) (seq void (changing void of (Has from.now)) (told rest.old)) }
{
    step_all(rest, Change::Part, void, of, from, row);
    rest.reads.remove(void);
    rest.reads.union_into(from);
    rest.writes.add(of);
    change_decides(&mut rest.decides, void, of, from);
}

/// Puts before what follows that a leaf is no longer assigned. `room` is room to work in.
pub fn prepend_clear(rest: &mut Facts, void: u32, leaf: u32, from: &Row, row: &mut Row)
    requires leaf { leaf < void }
    requires size { AreSized (void + 1) rest.old }
    requires from { length from.now ≡ void + 1 }
    requires row { length row.old ≡ void + 1 }
    ensures size { AreSized (void + 1) rest.new }
    ensures row { length row.new ≡ void + 1 }
    ensures flow { IsSame (told rest.new) (seq void (clearing void leaf) (told rest.old)) }
{
    step_all(rest, Change::Fresh, void, leaf, from, row);
    rest.reads.remove(leaf);
    rest.reads.remove(void);
    rest.writes.add(leaf);
    clear_decides(&mut rest.decides, void, leaf);
}

// Puts before what decides that a leaf is no longer assigned.
fn clear_decides(decides: &mut Row, void: u32, leaf: u32)
    requires leaf { leaf < void }
    requires size { length decides.old ≡ void + 1 }
    ensures size { length decides.new ≡ void + 1 }
    ensures set { Tells decides.new (λ v. (w : ℕ) × ((clearing void leaf).dep Next v w × Has decides.old w)) }
{
    decides.remove(leaf);
    decides.remove(void);
}
