ghost use Rattle.std.specs.Prelude.{◌≡◌, ◌<◌, ◌≤◌, All, [], ◌∷◌, map, length, IfOk, OnOk};
ghost use Rattle.core_form.specs.Fine.{IsWellFormed};
ghost use Rattle.core_form.specs.declared.program.TaskUnit.{TaskUnit};
ghost use Rattle.run_model.specs.Held.{IsHeld, IsHeldFrame, held, held_frame, held_frames};
ghost use Rattle.run_model.specs.Steps.{plain_first, plain_opening, plain_frame};
ghost use Rattle.run_model.specs.Runs.{cell_in};

use crate::cells::{bare_leaves, opening_leaves};
use core_form::Program;
use spark_base::{BodyNo, Items, LeafNo, NoMemory, StmtNo};
use std::alloc::Global;

/// What remains to be done: a statement, or a loop with this body of which a round was begun.
#[derive(Clone, Copy)]
pub enum Rest {
    Do(StmtNo),
    Again(StmtNo),
}

/// A body that runs. Nothing calls yet, so a task has one frame at most: none where no statement remains.
#[derive(Drop)]
pub struct Frame {
    pub body: BodyNo,
    /// What remains, the next last.
    pub rest: Vec<Rest>,
    /// The cells of its own leaves, each at the leaf's number.
    pub own: Vec<Items<Option<i128>>>,
}

/// The state of a program that runs: its cells, and what each task has yet to do.
#[derive(Drop)]
pub struct State {
    /// The cells of library leaves, each at the leaf's number.
    pub(crate) cells: Vec<Items<Option<i128>>>,
    /// Whether elaborations may have yet to be done.
    pub(crate) elaborating: bool,
    /// How many elaborations have begun.
    pub(crate) next: usize,
    /// What the environment task does.
    pub(crate) environment: Frame,
    /// What the other tasks do.
    pub(crate) tasks: Vec<Frame>,
}

/// A body that begins: its own leaves are not assigned.
pub fn new_frame(alloc: Global, program: &Program, body: BodyNo) -> Result<Frame, NoMemory>
    requires fine { IsWellFormed program.now }
    requires body { body.0 < length program.now.bodies }
    ensures held { IfOk result (λ f. IsHeldFrame program.now f) }
    ensures frame { IfOk result (λ f. held_frame program.now f ≡ plain_frame program.now body.0) }
{
    let mut rest = Vec::new(alloc);
    rest.push(Rest::Do(program.bodies.at(body.0 as usize).code))?;
    Ok(Frame {
        body,
        rest,
        own: bare_leaves(alloc, program)?,
    })
}

// A frame in which nothing remains to be done.
fn no_frame(alloc: Global, program: &Program) -> Result<Frame, NoMemory>
    ensures held { IfOk result (λ f. IsHeldFrame program.now f) }
    ensures left { IfOk result (λ f. f.rest.items ≡ []) }
{
    Ok(Frame {
        body: BodyNo(0),
        rest: Vec::new(alloc),
        own: bare_leaves(alloc, program)?,
    })
}

// The frame of each task.
fn task_frames(alloc: Global, program: &Program) -> Result<Vec<Frame>, NoMemory>
    requires fine { IsWellFormed program.now }
    ensures held { IfOk result (λ fs. All (IsHeldFrame program.now) fs.items) }
    ensures count { IfOk result (λ fs. length fs.items ≡ length program.now.tasks) }
    ensures frames { IfOk result (λ fs. map (held_frames program.now) fs.items
        ≡ map (λ (t : TaskUnit). plain_first program.now (plain_frame program.now t.body.0)) program.now.tasks) }
{
    let mut frames = Vec::new(alloc);
    for task in program.tasks.as_slice() {
        frames.push(new_frame(alloc, program, task.body)?)?;
    }
    Ok(frames)
}

impl State {
    /// The state before the first elaboration: no cell is assigned but those of the clock.
    pub fn new(alloc: Global, program: &Program) -> Result<State, NoMemory>
        requires fine { IsWellFormed program.now }
        ensures held { IfOk result (λ s. IsHeld program.now s) }
        ensures state { IfOk result (λ s. held program.now s ≡ plain_opening program.now) }
    {
        Ok(State {
            cells: opening_leaves(alloc, program)?,
            elaborating: true,
            next: 0,
            environment: no_frame(alloc, program)?,
            tasks: task_frames(alloc, program)?,
        })
    }

    /// What a cell of a library leaf holds: none where it is not assigned, or where there is no such cell.
    pub fn cell(&self, leaf: LeafNo, part: u32) -> Option<i128>
        ensures { result ≡ cell_in self.now.cells.items leaf.0 part }
    {
        match self.cells.get(leaf.0 as usize) {
            Some(cells) => match cells.get(part as usize) {
                Some(cell) => *cell,
                None => None,
            },
            None => None,
        }
    }
}
