ghost use Rattle.std.specs.Prelude.{◌≡◌, ℕ, ◌+◌, ◌<◌, ◌++◌, length, IfOk, OnOk, IsTrue};
ghost use Rattle.core_form.specs.Code.{Leaves};
ghost use Rattle.core_form.specs.Fine.{IsWellFormed};
ghost use Rattle.flow_relations.specs.Equation.{plain_flow, code_of_body};
ghost use Rattle.flow_facts.specs.Flow.{IsSame};
ghost use Rattle.flow_relations.specs.Framing.{IsFrame, frame_size, spread_of};
ghost use Rattle.flow_relations.specs.declared.flows.Outcome.{Outcome};
ghost use Rattle.flow_facts.specs.Told.{AreSized, told, side_at};
ghost use Rattle.flow_relations.specs.Told.{AreFlowSized, flow_told, ends_tell};

use crate::frame::{Frame, Framing, spread_row};
use crate::named::frame_of;
use crate::statements::{facts_of, new_room};
use core_form::Program;
use flow_bits::{Row, Square};
use flow_facts::{Facts, Side};
use smallvec::SmallVec;
use spark_base::{BodyNo, NoMemory};
use std::alloc::Global;
use std::default::MadeWith;

/// How a statement ends: it goes on to the next, leaves so many loops and one more, or returns.
#[derive(Clone, Copy, PartialEq, Eq, Debug)]
pub enum Outcome {
    Next,
    Leave(u32),
    Back,
}

/// What holds where a statement ends by one outcome. Names are the numbers of the flow's frame, and their count stands
/// for "not assigned".
#[derive(Drop)]
pub struct End {
    pub outcome: Outcome,
    /// Of v and v: the leaf may still hold its entry value. Of "not assigned" and x: x may be unassigned.
    pub kept: Square,
    /// Of v and w: the entry value of v may decide w.
    pub dep: Square,
}

/// The flow of a body's code. A leaf that has no number is not read and not written; where an outcome is reached, it is
/// kept, and depends on itself alone.
#[derive(Drop)]
pub struct Flow {
    /// Leaves whose entry value may be read.
    pub reads: Row,
    /// Leaves that may be written or cleared.
    pub writes: Row,
    /// Leaves that may decide the outcome.
    pub decides: Row,
    /// The outcomes that may be reached.
    pub ends: SmallVec<End, 4>,
    /// The leaves that have numbers: those that the body's code names, and its own.
    pub frame: Frame,
}

impl MadeWith<Global> for End {
    fn made_with(alloc: Global) -> End {
        End {
            outcome: Outcome::Next,
            kept: Square::made_with(alloc),
            dep: Square::made_with(alloc),
        }
    }
}

/// The flow of the code of a body. Its rows have a place for each leaf and one more, for "not assigned".
///
/// A body of more than 46,336 names is want of memory, since a square has a bit for each pair.
pub fn flow_of(alloc: Global, program: &Program, body: BodyNo) -> Result<Flow, NoMemory>
    requires fine { IsWellFormed program.now }
    requires in_range { body.0 < length program.now.bodies }
    ensures size { IfOk result (λ f. AreFlowSized (length program.now.leaves + 1) f) }
    ensures flow { IfOk result (λ f. IsSame (flow_told f) (plain_flow program.now (code_of_body program.now body.0))) }
{
    let Framing { frame, places } = frame_of(alloc, program, body)?;
    let mut room = new_room(alloc, places.void + 1)?;
    let code = program.bodies.at(body.0 as usize).code;
    let facts = facts_of(alloc, program, &[], &places, code, &mut room)?;
    flow_from(alloc, facts, frame)
}

/// The flow that facts of a body's code tell, in the numbers of its frame.
pub fn flow_from(alloc: Global, facts: Facts, frame: Frame) -> Result<Flow, NoMemory>
    requires frame { IsFrame frame }
    requires size { AreSized (frame_size frame + 1) facts }
    requires none { (n : ℕ) → IsTrue (side_at facts (Leaves n)).reached → ⊥ }
    ensures size { IfOk result (λ f. AreFlowSized (frame.void + 1) f) }
    ensures flow { IfOk result (λ f. IsSame (flow_told f) (spread_of frame (told facts))) }
{
    let Facts {
        reads,
        writes,
        decides,
        next,
        back,
        leaves: _,
    } = facts;
    let reads = spread_row(alloc, &reads, &frame)?;
    let writes = spread_row(alloc, &writes, &frame)?;
    let decides = spread_row(alloc, &decides, &frame)?;
    let ends = ends_from(alloc, next, back)?;
    Ok(Flow {
        reads,
        writes,
        decides,
        ends,
        frame,
    })
}

// The ends of the outcomes that are reached, but for those of leaving loops.
fn ends_from(alloc: Global, next: Side, back: Side) -> Result<SmallVec<End, 4>, NoMemory>
    ensures ends { IfOk result (λ ends. ends.items
        ≡ ends_tell Outcome.Next next.reached next.kept next.dep ++ ends_tell Outcome.Back back.reached back.kept back.dep) }
{
    let mut ends = SmallVec::new(alloc);
    add_end(&mut ends, Outcome::Next, next)?;
    add_end(&mut ends, Outcome::Back, back)?;
    Ok(ends)
}

// Adds the end at an outcome, where it is reached.
fn add_end(ends: &mut SmallVec<End, 4>, outcome: Outcome, side: Side) -> Result<(), NoMemory>
    ensures ends { OnOk result (ends.new.items ≡ ends.old.items ++ ends_tell outcome side.reached side.kept side.dep) }
{
    let Side { reached, kept, dep } = side;
    if reached {
        ends.push(End { outcome, kept, dep })?;
    }
    Ok(())
}
