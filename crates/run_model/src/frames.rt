ghost use Rattle.std.specs.Prelude.{◌≡◌, ℕ, ◌+◌, ◌<◌, ◌≤◌, ◌↔◌, List, [], Some, All, length, IfOk, IsOk, IsTrue, OnErr, OnOk};
ghost use Rattle.std.specs.Vec.{vec_capacity, vec_len};
ghost use Rattle.core_form.specs.Code.{Leaves, code_of, codes_at};
ghost use Rattle.core_form.specs.Fine.{HasFineNodes, IsWellFormed};
ghost use Rattle.core_form.specs.Proper.{cells_of};
ghost use Rattle.run_model.specs.Held.{AreNoCalls, AreRests, AreStmts, IsHeldFrame, IsOpened, TellsFrame, frame_step, held_frame, held_left, is_begun, left_after, next_do, rest_weight, weight};
ghost use Rattle.run_model.specs.Machine.{Remaining, change_library, change_own, push, resume};
ghost use Rattle.run_model.specs.Runs.{IsSized};

use crate::cells::is_library;
use crate::effects::{Effect, effect_of};
use crate::state::{Frame, Rest};
use crate::steps::Stepped;
use core_form::{CoreStmt, Program};
use spark_base::{Items, LeafNo, NoMemory, StmtNo};
use std::alloc::Global;

// Puts statements before those that remain, where there is room for them.
fn push_all(program: &Program, rest: &mut Vec<Rest>, list: &[StmtNo]) -> Result<(), NoMemory>
    requires list { AreStmts program.now list.now }
    requires rest { AreRests program.now rest.old.items }
    requires room { vec_len rest.old + length list.now ≤ vec_capacity rest.old }
    ensures room { IsOk result }
    ensures rest { AreRests program.now rest.new.items }
    ensures held { (k : List Remaining) → held_left program.now rest.new.items k
        ≡ push (codes_at (code_of program.now.exprs program.now.stmts) list.now) (held_left program.now rest.old.items k) }
    ensures weight { rest_weight program.now rest.new.items ≡ rest_weight program.now rest.old.items + weight program.now list.now }
{
    for i in (0..list.len()).rev() {
        rest.push(Rest::Do(list[i]))?;
    }
    Ok(())
}

// The statement that is next, unless it is a loop of which a round was begun.
fn next_stmt(rest: &[Rest]) -> Option<StmtNo>
    ensures { result ≡ next_do rest.now }
{
    match rest.last() {
        Some(Rest::Do(s)) => Some(*s),
        Some(Rest::Again(_)) | None => None,
    }
}

/// Opens sequences, until the next statement is none or no statement remains.
pub fn open_rest(program: &Program, rest: &mut Vec<Rest>) -> Result<(), NoMemory>
    requires fine { HasFineNodes program.now }
    requires rest { AreRests program.now rest.old.items }
    ensures rest { AreRests program.now rest.new.items }
    ensures held { (k : List Remaining) → held_left program.now rest.new.items k ≡ held_left program.now rest.old.items k }
    ensures opened { OnOk result (IsOpened program.now rest.new.items) }
{
    while let Some(last) = next_stmt(rest.as_slice()) {
        let CoreStmt::Seq(list) = program.stmt(last) else {
            return Ok(());
        };
        rest.reserve(list.len())?;
        rest.pop();
        push_all(program, rest, list.as_slice())?;
    }
    Ok(())
}

// Whether it is the loop that is left.
fn is_left(last: Rest, left: u32) -> bool
    ensures { IsTrue result ↔ (IsTrue (is_begun last) × (left ≡ 0)) }
{
    match last {
        Rest::Do(_) => false,
        Rest::Again(_) => left == 0,
    }
}

// How many loops are left behind one that is not the last.
fn left_behind(last: Rest, left: u32) -> u32
    requires { IsTrue (is_begun last) → left ≡ 0 → ⊥ }
    ensures { result ≡ left_after last left }
{
    match last {
        Rest::Do(_) => left,
        Rest::Again(_) => left - 1,
    }
}

// Takes away what remains up to and with the loop that is left.
fn leave_loops(program: &Program, rest: &mut Vec<Rest>, loops: u32)
    requires { AreRests program.now rest.old.items }
    ensures rest { AreRests program.now rest.new.items }
    ensures held { held_left program.now rest.new.items [] ≡ resume (held_left program.now rest.old.items []) (Leaves loops) }
{
    let mut left = loops;
    while let Some(last) = rest.pop() {
        if is_left(last, left) {
            return;
        }
        left = left_behind(last, left);
    }
}

// Puts the new cells where the leaf's are.
fn put_cells(
    program: &Program,
    library: &mut Vec<Items<Option<i128>>>,
    own: &mut Vec<Items<Option<i128>>>,
    leaf: LeafNo,
    cells: Items<Option<i128>>,
)
    requires fine { IsWellFormed program.now }
    requires leaf { leaf.0 < length program.now.leaves }
    requires cells { length cells ≡ cells_of program.now leaf.0 }
    requires library { IsSized program.now library.old.items }
    requires own { IsSized program.now own.old.items }
    ensures library { library.new.items ≡ change_library program.now (Some (record { leaf = leaf.0; cells = cells })) library.old.items }
    ensures own { own.new.items ≡ change_own program.now (Some (record { leaf = leaf.0; cells = cells })) own.old.items }
    ensures library_sized { IsSized program.now library.new.items }
    ensures own_sized { IsSized program.now own.new.items }
{
    if is_library(program, leaf) {
        library[leaf.0 as usize] = cells;
    } else {
        own[leaf.0 as usize] = cells;
    }
}

/// One step of a frame whose next statement is no sequence.
pub fn step_frame(
    alloc: Global,
    program: &Program,
    library: &mut Vec<Items<Option<i128>>>,
    frame: &mut Frame,
) -> Result<Stepped, NoMemory>
    requires fine { IsWellFormed program.now }
    requires calls { AreNoCalls program.now.stmts }
    requires library { IsSized program.now library.old.items }
    requires frame { IsHeldFrame program.now frame.old }
    requires opened { IsOpened program.now frame.old.rest.items }
    ensures library { IsSized program.now library.new.items }
    ensures frame { IsHeldFrame program.now frame.new }
    ensures same { OnErr result ((library.new.items ≡ library.old.items) × (held_frame program.now frame.new ≡ held_frame program.now frame.old)) }
    ensures step { IfOk result (λ came. (word : ℕ) → TellsFrame program.now library.old.items frame.old frame.new library.new.items came
        (frame_step program.now library.old.items word (held_frame program.now frame.old))) }
{
    let Some(next) = frame.rest.last() else {
        return Ok(Stepped::Done);
    };
    let s = match *next {
        Rest::Do(s) => s,
        Rest::Again(body) => {
            frame.rest.push(Rest::Do(body))?;
            return Ok(Stepped::Moved);
        }
    };
    let at = frame.rest.len() - 1;
    match effect_of(alloc, program, library.as_slice(), frame.own.as_slice(), s)? {
        Some(Effect::Chosen(branch)) => frame.rest[at] = Rest::Do(branch),
        Some(Effect::Round(body)) => {
            frame.rest.push(Rest::Do(body))?;
            frame.rest[at] = Rest::Again(body);
        }
        Some(Effect::Left(loops)) => {
            frame.rest.pop();
            leave_loops(program, &mut frame.rest, loops);
        }
        Some(Effect::Returned) => frame.rest.clear(),
        Some(Effect::Changed(leaf, cells)) => {
            frame.rest.pop();
            put_cells(program, library, &mut frame.own, leaf, cells);
        }
        None => return Ok(Stepped::Failed),
    }
    Ok(Stepped::Moved)
}
