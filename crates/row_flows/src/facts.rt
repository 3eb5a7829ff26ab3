ghost use Rattle.std.specs.Prelude.{◌<◌, length, IfOk};
ghost use Rattle.core_form.specs.Fine.{IsWellFormed};
ghost use Rattle.row_flows.specs.Known.{IsViewOf};
ghost use Rattle.row_flows.specs.Rows.{AreRowsOf};

use crate::frames::frame_over;
use crate::known::callees_from;
use body_calls::callees_of;
use core_form::Program;
use flow_relations::{Callee, Framing};
use spark_base::{BodyNo, NoMemory};
use std::alloc::Global;
use summary_rows::Rows;

/// What a body sees of others.
#[derive(Drop)]
pub struct BodyView {
    pub framing: Framing,
    /// In numbers of the frame.
    pub callees: Vec<Callee>,
}

/// What a body sees of its callees, by contracts and rows, in a frame that has all leaves of which these speak.
pub fn view_of(
    alloc: Global,
    program: &Program,
    rows: &Rows,
    body: BodyNo,
) -> Result<BodyView, NoMemory>
    requires fine { IsWellFormed program.now }
    requires in_range { body.0 < length program.now.bodies }
    requires rows { AreRowsOf program.now rows.now }
    ensures { IfOk result (IsViewOf program.now rows.now body.0) }
{
    let list = callees_of(alloc, program, body)?;
    let framing = frame_over(alloc, program, rows, body, list.as_slice())?;
    let callees = callees_from(alloc, program, rows, body, &framing.places, list.as_slice())?;
    Ok(BodyView { framing, callees })
}
