ghost use Rattle.std.specs.Prelude.{◌≡◌, ◌+◌, All, IfOk, length};
ghost use Rattle.core_form.specs.Code.{actuals_at, expr_of};
ghost use Rattle.core_form.specs.Fine.{ActualBelow, HasFineNodes};
ghost use Rattle.flow_facts.specs.Flow.{IsSame};
ghost use Rattle.flow_facts.specs.Told.{AreSized, told};
ghost use Rattle.flow_relations.specs.CallsTold.{IsCallee, calls_of};
ghost use Rattle.flow_relations.specs.Framing.{AreBelow, place_at};
ghost use Rattle.flow_relations.specs.Renamed.{renamed_actuals};

use crate::calls::call_facts;
use crate::frame::Places;
use call_flow::{Known, Signature};
use core_form::{Actual, Program};
use flow_facts::{Facts, no_facts};
use spark_base::{BodyNo, NoMemory};
use std::alloc::Global;

/// What a body knows of one that it calls.
#[derive(Drop)]
pub struct Callee {
    pub body: BodyNo,
    pub signature: Signature,
    /// Its names are those of a call, in the caller's frame.
    pub known: Known,
}

/// The flow of a call of a body, by the first of the callees that is this body. Of a body that is none of them nothing is known.
pub fn facts_of_call(
    alloc: Global,
    program: &Program,
    callees: &[Callee],
    places: &Places,
    body: BodyNo,
    actuals: &[Actual],
) -> Result<Facts, NoMemory>
    requires fine { HasFineNodes program.now }
    requires callees { All (IsCallee places.now.void) callees.now }
    requires places { AreBelow (length program.now.leaves) places.now }
    requires actuals { All (ActualBelow (length program.now.leaves) (length program.now.exprs)) actuals.now }
    ensures size { IfOk result (λ f. AreSized (places.now.void + 1) f) }
    ensures flow { IfOk result (λ f. IsSame (told f) (calls_of places.now.void callees.now body
        (renamed_actuals (place_at places.now) (actuals_at (expr_of program.now.exprs) actuals.now)))) }
{
    for callee in callees {
        if callee.body == body {
            return call_facts(
                alloc,
                program,
                places,
                &callee.signature,
                &callee.known,
                actuals,
            );
        }
    }
    no_facts(alloc, places.void)
}
