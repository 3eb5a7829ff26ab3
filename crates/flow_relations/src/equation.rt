ghost use Rattle.std.specs.Prelude.{◌≡◌, ◌≢◌, ℕ, ◌+◌, ◌<◌, ◌≤◌, ◌⊎◌, ◌↔◌, List, Some, true, false, length, slice_get, IfOk, IsSomeAnd, IsTrue};
ghost use Rattle.core_form.specs.Code.{Code, code_of};
ghost use Rattle.core_form.specs.Fine.{IsWellFormed, home_of};
ghost use Rattle.flow_relations.specs.Equation.{IsLibrary, IsPassed, IsRowLeaf, equation, is_out, opened, starts_unset};
ghost use Rattle.flow_facts.specs.Flow.{IsSame, clearing, row_of, seq};
ghost use Rattle.flow_relations.specs.declared.callees.Callee.{Callee};
ghost use Rattle.flow_relations.specs.CallsTold.{calls_of};
ghost use Rattle.flow_relations.specs.Framing.{AreBelow, IsFrame, Spreads, frame_size, framed, name_at, place_at, spread_of};
ghost use Rattle.flow_bits.specs.Sets.{Has, Relates, Tells, TellsPairs};
ghost use Rattle.flow_facts.specs.Told.{AreSized, IsSideSized, told};
ghost use Rattle.flow_relations.specs.Told.{AreRowsSized, HasRoom, IsRow};

use crate::frame::{Frame, Framing, Places, number_row, spread_row};
use crate::named::{frame_of, names_row, void_of};
use crate::statements::{Room, facts_of, new_room};
use core_form::{Formal, Home, ParamMode, Program};
use flow_bits::{Row, Square};
use flow_facts::{Facts, Side, add_cross, any, both, prepend_clear};
use spark_base::{BodyNo, LeafNo, NoMemory, VarNo};
use std::alloc::Global;

/// What is known of a body by its code, in the leaves that its callers know too: library leaves, its formals' and
/// its result's. A row has one place more than there are leaves, which is never set.
#[derive(Drop)]
pub struct BodyRow {
    /// The leaves of which it speaks.
    pub leaves: Row,
    /// Whether it may return.
    pub returns: bool,
    /// Leaves whose entry value may be read.
    pub reads: Row,
    /// Leaves that may be written or cleared.
    pub writes: Row,
    /// Leaves that may hold their entry value at the return.
    pub keeps: Row,
    /// Of the numbers of v and w: the entry value of v may decide w at the return.
    pub depends: Square,
    /// The leaves that have numbers: those that the body's code names, and its own.
    pub frame: Frame,
}

// Whether a variable is a formal of mode out.
fn is_out(formals: &[Formal], var: VarNo) -> bool
    ensures { result ≡ is_out formals.now var.0 }
{
    for formal in formals {
        if formal.var == var && formal.mode == ParamMode::Out {
            return true;
        }
    }
    false
}

// Whether a leaf is unassigned where a body begins.
fn starts_unset(program: &Program, body: BodyNo, formals: &[Formal], leaf: LeafNo) -> bool
    requires fine { IsWellFormed program.now }
    requires leaf { leaf.0 < length program.now.leaves }
    ensures { result ≡ starts_unset program.now body.0 formals.now leaf.0 }
{
    let var = program.leaves.at(leaf.0 as usize).var;
    match program.vars.at(var.0 as usize).home {
        Home::Package(_) | Home::Clock => false,
        Home::Local(of) | Home::Outcome(of) | Home::Spare(of) => of == body,
        Home::Formal(of) => of == body && is_out(formals, var),
    }
}

// Whether a leaf is one of a package's variable.
fn is_library(program: &Program, leaf: LeafNo) -> bool
    requires fine { IsWellFormed program.now }
    requires leaf { leaf.0 < length program.now.leaves }
    ensures { IsTrue result ↔ IsSomeAnd (home_of program.now leaf.0) IsLibrary }
{
    let var = program.leaves.at(leaf.0 as usize).var;
    match program.vars.at(var.0 as usize).home {
        Home::Package(_) | Home::Clock => true,
        Home::Local(_) | Home::Formal(_) | Home::Outcome(_) | Home::Spare(_) => false,
    }
}

// Whether a leaf is one of a body's formals or of its result.
fn is_passed(program: &Program, body: BodyNo, leaf: LeafNo) -> bool
    requires fine { IsWellFormed program.now }
    requires leaf { leaf.0 < length program.now.leaves }
    ensures { IsTrue result ↔ IsSomeAnd (home_of program.now leaf.0) (IsPassed body.0) }
{
    let var = program.leaves.at(leaf.0 as usize).var;
    match program.vars.at(var.0 as usize).home {
        Home::Formal(of) | Home::Outcome(of) => of == body,
        Home::Package(_) | Home::Local(_) | Home::Spare(_) | Home::Clock => false,
    }
}

// Puts before what follows that a leaf is unassigned, where it is so at the beginning of a body.
fn open_leaf(
    program: &Program,
    places: &Places,
    body: BodyNo,
    formals: &[Formal],
    leaf: LeafNo,
    facts: &mut Facts,
    room: &mut Room,
)
    requires fine { IsWellFormed program.now }
    requires places { AreBelow (length program.now.leaves) places.now }
    requires leaf { leaf.0 < length program.now.leaves }
    requires size { AreSized (places.now.void + 1) facts.old }
    requires room { HasRoom (places.now.void + 1) room.old }
    ensures size { AreSized (places.now.void + 1) facts.new }
    ensures room { HasRoom (places.now.void + 1) room.new }
    ensures unset { starts_unset program.now body.0 formals.now leaf.0 ≡ true
        → IsSame (told facts.new) (seq places.now.void (clearing places.now.void (place_at places.now leaf.0)) (told facts.old)) }
    ensures set { starts_unset program.now body.0 formals.now leaf.0 ≡ false → facts.new ≡ facts.old }
{
    if starts_unset(program, body, formals, leaf) {
        prepend_clear(
            facts,
            places.void,
            places.number(leaf),
            &room.reads,
            &mut room.row,
        );
    }
}

/// Puts before the code of a body that its own leaves are unassigned, from the last on.
pub fn open_frame(
    program: &Program,
    places: &Places,
    body: BodyNo,
    formals: &[Formal],
    facts: &mut Facts,
    room: &mut Room,
)
    requires fine { IsWellFormed program.now }
    requires places { AreBelow (length program.now.leaves) places.now }
    requires size { AreSized (places.now.void + 1) facts.old }
    requires room { HasRoom (places.now.void + 1) room.old }
    ensures size { AreSized (places.now.void + 1) facts.new }
    ensures flow { (callees : List Callee) (code : Code) → IsSame (told facts.old) (framed program.now (calls_of places.now.void callees) places.now code)
        → IsSame (told facts.new) (framed program.now (calls_of places.now.void callees) places.now
        (opened (starts_unset program.now body.0 formals.now) (length program.now.leaves) 0 code)) }
{
    for leaf in (0..void_of(program)).rev() {
        open_leaf(program, places, body, formals, LeafNo(leaf), facts, room);
    }
}

// Keeps a library leaf where it is in the set, puts in a formal's or the result's, and takes others away.
fn settle_leaf(program: &Program, body: BodyNo, leaf: LeafNo, into: &mut Row)
    requires fine { IsWellFormed program.now }
    requires leaf { leaf.0 < length program.now.leaves }
    requires size { length into.old ≡ length program.now.leaves + 1 }
    ensures size { length into.new ≡ length into.old }
    ensures set { Tells into.new (λ v. ((v ≢ leaf.0) × Has into.old v)
        ⊎ ((v ≡ leaf.0) × ((IsSomeAnd (home_of program.now v) IsLibrary × Has into.old v) ⊎ IsSomeAnd (home_of program.now v) (IsPassed body.0)))) }
{
    if is_passed(program, body, leaf) {
        into.add(leaf.0);
    } else if !is_library(program, leaf) {
        into.remove(leaf.0);
    }
}

// The leaves of which the row of a body speaks, out of those that its code names.
fn settle_leaves(program: &Program, body: BodyNo, into: &mut Row)
    requires fine { IsWellFormed program.now }
    requires size { length into.old ≡ length program.now.leaves + 1 }
    ensures size { length into.new ≡ length into.old }
    ensures set { Tells into.new (λ v. (IsSomeAnd (home_of program.now v) IsLibrary × Has into.old v)
        ⊎ IsSomeAnd (home_of program.now v) (IsPassed body.0)) }
{
    into.remove(void_of(program));
    for leaf in 0..void_of(program) {
        settle_leaf(program, body, LeafNo(leaf), into);
    }
}

// The leaves of which the row of a body speaks.
fn row_leaves(alloc: Global, program: &Program, body: BodyNo) -> Result<Row, NoMemory>
    requires fine { IsWellFormed program.now }
    requires in_range { body.0 < length program.now.bodies }
    ensures size { IfOk result (λ row. length row ≡ length program.now.leaves + 1) }
    ensures set { IfOk result (λ row. Tells row (IsRowLeaf program.now body.0)) }
{
    let mut row = names_row(alloc, program, body)?;
    settle_leaves(program, body, &mut row);
    Ok(row)
}

// Adds the leaves that may be kept at one outcome.
fn keeps_into(side: &Side, into: &mut Row)
    requires { IsSideSized (length into.old) side.now }
    ensures size { length into.new ≡ length into.old }
    ensures set { Tells into.new (λ v. Has into.old v ⊎ Relates side.now.kept v v) }
{
    if side.reached {
        side.kept.diagonal_into(into);
    }
}

// Adds what decides at one outcome.
fn depends_into(side: &Side, into: &mut Square)
    requires { IsSideSized (length into.old) side.now }
    ensures size { length into.new ≡ length into.old }
    ensures set { TellsPairs into.new (λ v w. Relates into.old v w ⊎ Relates side.now.dep v w) }
{
    if side.reached {
        into.union_into(&side.dep);
    }
}

// The pairs of numbers by which facts at the return depend, in some numbers.
fn depends_from(alloc: Global, facts: &Facts, named: &Row) -> Result<Square, NoMemory>
    requires size { AreSized (length named.now) facts.now }
    ensures size { IfOk result (λ square. length square ≡ length named.now) }
    ensures set { IfOk result (λ square. TellsPairs square (λ i j. ((Relates facts.now.next.dep i j ⊎ Relates facts.now.back.dep i j)
        ⊎ ((IsTrue facts.now.next.reached × IsTrue facts.now.back.reached) × (Has facts.now.decides i × Has facts.now.writes j)))
        × (Has named.now i × Has named.now j))) }
{
    let mut depends = Square::new(alloc, named.size())?;
    depends_into(&facts.next, &mut depends);
    depends_into(&facts.back, &mut depends);
    add_cross(
        &mut depends,
        &facts.decides,
        &facts.writes,
        both(facts.next.reached, facts.back.reached),
    );
    depends.restrict(named);
    Ok(depends)
}

// The numbers that may be kept at the return.
fn keeps_from(alloc: Global, facts: &Facts, size: u32) -> Result<Row, NoMemory>
    requires size { AreSized size facts.now }
    ensures size { IfOk result (λ row. length row ≡ size) }
    ensures set { IfOk result (λ row. Tells row (λ i. Relates facts.now.next.kept i i ⊎ Relates facts.now.back.kept i i)) }
{
    let mut keeps = Row::new(alloc, size)?;
    keeps_into(&facts.next, &mut keeps);
    keeps_into(&facts.back, &mut keeps);
    Ok(keeps)
}

// Those leaves of a set of numbers that are in a row.
fn leaves_in(alloc: Global, numbers: &Row, frame: &Frame, named: &Row) -> Result<Row, NoMemory>
    requires frame { IsFrame frame.now }
    requires size { length numbers.now ≡ frame_size frame.now + 1 }
    requires named { length named.now ≡ frame.now.void + 1 }
    ensures size { IfOk result (λ row. length row ≡ length named.now) }
    ensures set { IfOk result (λ row. Tells row (λ v. Has named.now v
        × Spreads (name_at frame.now) (frame_size frame.now) frame.now.void (Has numbers.now) v)) }
{
    let mut row = spread_row(alloc, numbers, frame)?;
    row.intersect_into(named);
    Ok(row)
}

/// The row that facts tell, in some leaves of the frame.
pub fn row_from(alloc: Global, facts: &Facts, named: Row, frame: Frame) -> Result<BodyRow, NoMemory>
    requires frame { IsFrame frame }
    requires size { AreSized (frame_size frame + 1) facts.now }
    requires named { length named ≡ frame.void + 1 }
    requires inside { (v : ℕ) → Has named v → (i : ℕ) × ((i ≤ frame_size frame) × (name_at frame i ≡ v)) }
    ensures size { IfOk result (λ r. AreRowsSized (length named) r) }
    ensures row { IfOk result (λ r. IsRow r (row_of (Has named) (spread_of frame (told facts.now)))) }
{
    let keeps = leaves_in(
        alloc,
        &keeps_from(alloc, facts, facts.reads.size())?,
        &frame,
        &named,
    )?;
    let numbers = number_row(alloc, &named, &frame, facts.reads.size())?;
    let depends = depends_from(alloc, facts, &numbers)?;
    let reads = leaves_in(alloc, &facts.reads, &frame, &named)?;
    let writes = leaves_in(alloc, &facts.writes, &frame, &named)?;
    Ok(BodyRow {
        leaves: named,
        returns: any(facts.next.reached, facts.back.reached),
        reads,
        writes,
        keeps,
        depends,
        frame,
    })
}

/// The row of a body by its code: its own leaves but the formals of modes in and in out begin unassigned. Its time and
/// its squares go by the leaves that it names and its own; only rows have a place for each leaf of the program.
///
/// A body of more than 46,336 names is want of memory, since a square has a bit for each pair.
pub fn row_of_body(alloc: Global, program: &Program, body: BodyNo) -> Result<BodyRow, NoMemory>
    requires fine { IsWellFormed program.now }
    requires in_range { body.0 < length program.now.bodies }
    ensures size { IfOk result (λ r. AreRowsSized (length program.now.leaves + 1) r) }
    ensures row { IfOk result (λ r. IsRow r (equation program.now body.0)) }
{
    let Framing { frame, places } = frame_of(alloc, program, body)?;
    let mut room = new_room(alloc, places.void + 1)?;
    let node = program.bodies.at(body.0 as usize);
    let mut facts = facts_of(alloc, program, &[], &places, node.code, &mut room)?;
    open_frame(
        program,
        &places,
        body,
        node.formals.as_slice(),
        &mut facts,
        &mut room,
    );
    let named = row_leaves(alloc, program, body)?;
    row_from(alloc, &facts, named, frame)
}
