ghost use Rattle.std.specs.Prelude.{◌≡◌, ◌+◌, ◌<◌, ◌≤◌, ◌^◌, All, length, map, IfOk};
ghost use Rattle.core_form.specs.Fine.{IsWellFormed};
ghost use Rattle.flow_relations.specs.declared.callees.Callee.{Callee};
ghost use Rattle.flow_relations.specs.Framing.{AreBelow};
ghost use Rattle.row_flows.specs.Known.{IsCalleeOf};
ghost use Rattle.row_flows.specs.Rows.{AreRowsOf};

use callee_view::{names_in_call, signature_of};
use contract_facts::{seen_known, seen_leaves};
use core_form::Program;
use flow_relations::{Callee, Places};
use spark_base::{BodyNo, NoMemory};
use std::alloc::Global;
use summary_rows::Rows;

// What a body knows of a callee, in numbers of its frame. 2^32 names of a call or more are want of memory.
fn callee_of(
    alloc: Global,
    program: &Program,
    rows: &Rows,
    caller: BodyNo,
    places: &Places,
    callee: BodyNo,
) -> Result<Callee, NoMemory>
    requires fine { IsWellFormed program.now }
    requires in_range { caller.0 < length program.now.bodies }
    requires callee { callee.0 < length program.now.bodies }
    requires rows { AreRowsOf program.now rows.now }
    requires places { AreBelow (length program.now.leaves) places.now }
    ensures body { IfOk result (λ c. c.body ≡ callee) }
    ensures callee { IfOk result (IsCalleeOf program.now rows.now caller.0 places.now) }
{
    let signature = signature_of(alloc, program, callee)?;
    if signature.leaves.len() >= (u32::MAX - places.void) as usize {
        return Err(NoMemory);
    }
    let leaves = seen_leaves(alloc, program, &rows.layout, caller, callee)?;
    let names = names_in_call(
        alloc,
        places.numbers.as_slice(),
        places.void,
        signature.leaves.as_slice(),
        leaves.as_slice(),
    )?;
    let known = seen_known(
        alloc,
        program,
        rows,
        caller,
        callee,
        leaves.as_slice(),
        names,
    )?;
    Ok(Callee {
        body: callee,
        signature,
        known,
    })
}

/// What a body knows of each callee of a list, in numbers of its frame.
pub fn callees_from(
    alloc: Global,
    program: &Program,
    rows: &Rows,
    caller: BodyNo,
    places: &Places,
    list: &[BodyNo],
) -> Result<Vec<Callee>, NoMemory>
    requires fine { IsWellFormed program.now }
    requires in_range { caller.0 < length program.now.bodies }
    requires list { All (λ c. c.0 < length program.now.bodies) list.now }
    requires rows { AreRowsOf program.now rows.now }
    requires places { AreBelow (length program.now.leaves) places.now }
    ensures bodies { IfOk result (λ cs. map (λ (c : Callee). c.body) cs.items ≡ list.now) }
    ensures callees { IfOk result (λ cs. All (IsCalleeOf program.now rows.now caller.0 places.now) cs.items) }
{
    let mut callees = Vec::new(alloc);
    for callee in list {
        callees.push(callee_of(alloc, program, rows, caller, places, *callee)?)?;
    }
    Ok(callees)
}
