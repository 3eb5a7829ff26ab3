//! The state, and one event on it.
ghost use Rattle.std.specs.Prelude.{◌≡◌, ℕ, ◌<◌, ◌≤◌, ◌↔◌, ◌^◌, [], length, slice_index_or, IfErr, IfOk};
ghost use Rattle.core_form.specs.Fine.{IsWellFormed};
ghost use Rattle.call_lists.specs.Lists.{AreLists, Names};
ghost use Rattle.body_calls.specs.Callees.{Calls};
ghost use Rattle.claim_core.specs.Machine.{opening, Claim, Read, Join, Wake, Release, Drop};
ghost use Rattle.body_summaries.specs.Bodies.{IsLayoutFor};
ghost use Rattle.claim_state.specs.Solving.{solving};
ghost use Rattle.claim_state.specs.State.{IsState, IsDone, IsRefused, event_told, system_in, workers_of, claims_of};

use crate::event::{ApplyFault, Event};
use body_calls::{callees_of, callers};
use claim_board::Board;
use core_form::Program;
use spark_base::{BodyNo, Items, NoMemory, WordNo};
use std::alloc::Global;
use summary_rows::Layout;

/// Workers that solve the equations of a program's bodies together: the words of all rows, the marks on bodies, and what each worker
/// holds, read, joined and owes.
#[derive(Drop)]
pub struct ClaimState<'a> {
    pub(crate) program: &'a Program,
    pub(crate) layout: &'a Layout,
    pub(crate) callers: Vec<Items<BodyNo>>,
    pub(crate) callees: Vec<Items<BodyNo>>,
    pub(crate) board: Board,
    pub(crate) alloc: Global,
}

// The callees of each body.
fn all_callees(alloc: Global, program: &Program) -> Result<Vec<Items<BodyNo>>, NoMemory>
    requires fine { IsWellFormed program.now }
    requires room { length program.now.bodies < 2 ^ 32 }
    ensures lists { IfOk result (λ v. AreLists (length program.now.bodies) v.items) }
    ensures names { IfOk result (λ v. (b c : ℕ) → Names (slice_index_or v.items b []) c ↔ Calls program.now b c) }
{
    let mut lists = Vec::new(alloc);
    for b in 0..program.bodies.len() as u32 {
        lists.push(callees_of(alloc, program, BodyNo(b))?)?;
    }
    Ok(lists)
}

impl<'a> ClaimState<'a> {
    /// Empty rows, every body dirty and none held, and so many workers, 1 to 64. The layout is one of the program's bodies, and of leaves
    /// of the program.
    pub fn new(
        alloc: Global,
        program: &'a Program,
        layout: &'a Layout,
        workers: u32,
    ) -> Result<ClaimState<'a>, NoMemory>
        requires fine { IsWellFormed program.now }
        requires layout { IsLayoutFor program.now layout.now }
        requires workers { (0 < workers) × (workers ≤ 64) }
        ensures state { IfOk result (λ s. IsState s) }
        ensures program { IfOk result (λ s. s.program.now ≡ program.now) }
        ensures layout { IfOk result (λ s. s.layout.now ≡ layout.now) }
        ensures workers { IfOk result (λ s. workers_of s ≡ workers) }
        ensures claims { IfOk result (λ s. claims_of s ≡ opening (solving program.now layout.now)) }
    {
        let callers = callers(alloc, program)?;
        let callees = all_callees(alloc, program)?;
        let board = Board::new(alloc, program.bodies.len() as u32, layout.words, workers)?;
        Ok(ClaimState {
            program,
            layout,
            callers,
            callees,
            board,
            alloc,
        })
    }

    /// The words of all rows, those of each body behind those of the bodies before it.
    pub fn words(&self) -> &[u64]
        ensures { result.now ≡ self.now.board.words.items }
    {
        self.board.words()
    }

    /// One event. It is done where it is accepted, and else nothing changes: it is refused by the first guard that is false, or there is
    /// no memory. `Join` and `Release` take memory and the time of the equation of the held body, and a step for each word of all rows;
    /// so does a claim.
    pub fn apply(&mut self, event: Event) -> Result<(), ApplyFault>
        requires { IsState self.old }
        ensures state { IsState self.new }
        ensures done { IfOk result (λ _. IsDone (event_told event) self.old self.new) }
        ensures refused { IfErr result (λ f. IsRefused f (event_told event) self.old) }
        ensures same { IfErr result (λ _. self.new ≡ self.old) }
    {
        match event {
            Event::Claim { worker, body } => self.claim(worker, body),
            Event::Read { worker, word } => self.read(worker, word),
            Event::Join { worker, word, bits } => self.join(worker, word, bits),
            Event::Wake { worker, body } => self.wake(worker, body),
            Event::Release { worker } => self.release(worker),
            Event::Drop { worker } => self.drop_held(worker),
        }
    }

    fn claim(&mut self, worker: u32, body: BodyNo) -> Result<(), ApplyFault>
        requires { IsState self.old }
        ensures state { IsState self.new }
        ensures done { IfOk result (λ _. IsDone (Claim worker body.0) self.old self.new) }
        ensures refused { IfErr result (λ f. IsRefused f (Claim worker body.0) self.old) }
        ensures same { IfErr result (λ _. self.new ≡ self.old) }
    {
        self.may_claim(worker, body)?;
        self.board.claim(worker, body);
        Ok(())
    }

    fn read(&mut self, worker: u32, word: WordNo) -> Result<(), ApplyFault>
        requires { IsState self.old }
        ensures state { IsState self.new }
        ensures done { IfOk result (λ _. IsDone (Read worker word.0) self.old self.new) }
        ensures refused { IfErr result (λ f. IsRefused f (Read worker word.0) self.old) }
        ensures same { IfErr result (λ _. self.new ≡ self.old) }
    {
        self.may_read(worker, word)?;
        self.board.read(worker, word);
        Ok(())
    }

    fn join(&mut self, worker: u32, word: WordNo, bits: u64) -> Result<(), ApplyFault>
        requires { IsState self.old }
        ensures state { IsState self.new }
        ensures done { IfOk result (λ _. IsDone (Join worker word.0 bits) self.old self.new) }
        ensures refused { IfErr result (λ f. IsRefused f (Join worker word.0 bits) self.old) }
        ensures same { IfErr result (λ _. self.new ≡ self.old) }
    {
        let held = self.may_join(worker, word, bits)?;
        let callers = self.callers[held.0 as usize].as_slice();
        self.board.join(worker, word, bits, callers);
        Ok(())
    }

    fn wake(&mut self, worker: u32, body: BodyNo) -> Result<(), ApplyFault>
        requires { IsState self.old }
        ensures state { IsState self.new }
        ensures done { IfOk result (λ _. IsDone (Wake worker body.0) self.old self.new) }
        ensures refused { IfErr result (λ f. IsRefused f (Wake worker body.0) self.old) }
        ensures same { IfErr result (λ _. self.new ≡ self.old) }
    {
        self.may_wake(worker, body)?;
        self.board.wake(worker, body);
        Ok(())
    }

    fn release(&mut self, worker: u32) -> Result<(), ApplyFault>
        requires { IsState self.old }
        ensures state { IsState self.new }
        ensures done { IfOk result (λ _. IsDone (Release worker) self.old self.new) }
        ensures refused { IfErr result (λ f. IsRefused f (Release worker) self.old) }
        ensures same { IfErr result (λ _. self.new ≡ self.old) }
    {
        self.may_release(worker)?;
        self.board.release(worker);
        Ok(())
    }

    fn drop_held(&mut self, worker: u32) -> Result<(), ApplyFault>
        requires { IsState self.old }
        ensures state { IsState self.new }
        ensures done { IfOk result (λ _. IsDone (Drop worker) self.old self.new) }
        ensures refused { IfErr result (λ f. IsRefused f (Drop worker) self.old) }
        ensures same { IfErr result (λ _. self.new ≡ self.old) }
    {
        self.may_drop(worker)?;
        self.board.drop_held(worker);
        Ok(())
    }
}
