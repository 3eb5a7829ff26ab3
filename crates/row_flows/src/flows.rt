ghost use Rattle.std.specs.Prelude.{◌+◌, ◌<◌, length, slice_get, IfOk};
ghost use Rattle.core_form.specs.Fine.{IsWellFormed};
ghost use Rattle.flow_facts.specs.Flow.{IsSame};
ghost use Rattle.summary_rows.specs.Layout.{told};
ghost use Rattle.flow_relations.specs.Equation.{code_of_body};
ghost use Rattle.flow_relations.specs.Summaries.{calls_seen, equation_over, flow_with};
ghost use Rattle.flow_relations.specs.Told.{AreFlowSized, AreRowsSized, IsRow, flow_told};
ghost use Rattle.row_flows.specs.Rows.{AreRowsOf};

use crate::facts::{BodyView, view_of};
use crate::frames::outer_row;
use core_form::Program;
use flow_relations::{BodyRow, Flow, Framing, facts_of, flow_from, new_room, open_frame, row_from};
use spark_base::{BodyNo, NoMemory};
use std::alloc::Global;
use summary_rows::Rows;

/// The flow of the code of a body, where its callees are seen by their contracts, or by these rows. Its rows have a place for each leaf
/// and one more, for "not assigned".
///
/// Want of memory is the only fault. A body of more than 46,336 names is one, since a square has a bit for each pair; the leaves of which
/// callees are seen to speak are names too.
pub fn flow_over(
    alloc: Global,
    program: &Program,
    body: BodyNo,
    rows: &Rows,
) -> Result<Flow, NoMemory>
    requires fine { IsWellFormed program.now }
    requires in_range { body.0 < length program.now.bodies }
    requires rows { AreRowsOf program.now rows.now }
    ensures size { IfOk result (λ f. AreFlowSized (length program.now.leaves + 1) f) }
    ensures flow { IfOk result (λ f. IsSame (flow_told f) (flow_with program.now
        (calls_seen program.now rows.now.layout (told rows.now) (slice_get program.now.bodies body.0)) (code_of_body program.now body.0))) }
{
    let BodyView { framing, callees } = view_of(alloc, program, rows, body)?;
    let Framing { frame, places } = framing;
    let mut room = new_room(alloc, places.void + 1)?;
    let code = program.bodies.at(body.0 as usize).code;
    let facts = facts_of(alloc, program, callees.as_slice(), &places, code, &mut room)?;
    flow_from(alloc, facts, frame)
}

/// The row of a body, by one application of its equation: its leaves are those of the layout, its callees are seen by their contracts, or
/// by these rows, and its own leaves but the formals of modes in and in out begin unassigned.
///
/// Want of memory is the only fault. A body of more than 46,336 names is one, as for its flow.
pub fn row_over(
    alloc: Global,
    program: &Program,
    body: BodyNo,
    rows: &Rows,
) -> Result<BodyRow, NoMemory>
    requires fine { IsWellFormed program.now }
    requires in_range { body.0 < length program.now.bodies }
    requires rows { AreRowsOf program.now rows.now }
    ensures size { IfOk result (λ r. AreRowsSized (length program.now.leaves + 1) r) }
    ensures row { IfOk result (λ r. IsRow r (equation_over program.now rows.now.layout (told rows.now) body.0)) }
{
    let BodyView { framing, callees } = view_of(alloc, program, rows, body)?;
    let Framing { frame, places } = framing;
    let mut room = new_room(alloc, places.void + 1)?;
    let node = program.bodies.at(body.0 as usize);
    let mut facts = facts_of(
        alloc,
        program,
        callees.as_slice(),
        &places,
        node.code,
        &mut room,
    )?;
    open_frame(
        program,
        &places,
        body,
        node.formals.as_slice(),
        &mut facts,
        &mut room,
    );
    let named = outer_row(alloc, program, rows, body)?;
    row_from(alloc, &facts, named, frame)
}
