ghost use Rattle.std.specs.Prelude.{◌≡◌, ◌+◌, ◌++◌, ◌∷◌, ◌<◌, ◌^◌, [], All, IfOk, IfNone, IfSome, None, OnOk, Some, length};
ghost use Rattle.core_form.specs.Fine.{IsWellFormed};
ghost use Rattle.core_form.specs.Proper.{is_result, result_of};
ghost use Rattle.callee_view.specs.Seen.{is_moved_back, is_moved_in};
ghost use Rattle.callee_view.specs.Signatures.{leaves_from, passed_of, passing_by, passings_of, signature_of};

use call_flow::{Passing, Signature};
use core_form::{Formal, Home, ParamMode, Program, Var};
use spark_base::{BodyNo, Items, LeafNo, NoMemory};
use std::alloc::Global;

// Puts so many leaves behind others.
fn push_leaves(leaves: &mut Items<LeafNo>, first: LeafNo, count: u32) -> Result<(), NoMemory>
    requires room { first.0 + count < 2 ^ 32 }
    ensures { OnOk result (leaves.new ≡ leaves.old ++ leaves_from first.0 count) }
{
    for i in 0..count {
        leaves.push(LeafNo(first.0 + i))?;
    }
    Ok(())
}

// Whether a variable is the result of a body.
fn is_result(body: BodyNo, home: Home) -> bool
    ensures { result ≡ is_result body.0 home }
{
    match home {
        Home::Outcome(of) => of == body,
        Home::Package(_) | Home::Local(_) | Home::Formal(_) | Home::Spare(_) | Home::Clock => false,
    }
}

// The variable that is the result of a body.
fn result_of(vars: &[Var], body: BodyNo) -> Option<&Var>
    ensures some { IfSome result (λ var. result_of body.0 vars.now ≡ Some var.now) }
    ensures none { IfNone result (result_of body.0 vars.now ≡ None) }
{
    for var in vars {
        if is_result(body, var.home) {
            return Some(var);
        }
    }
    None
}

fn is_moved_in(mode: ParamMode) -> bool
    ensures { result ≡ is_moved_in mode }
{
    match mode {
        ParamMode::In | ParamMode::InOut => true,
        ParamMode::Out => false,
    }
}

fn is_moved_back(mode: ParamMode) -> bool
    ensures { result ≡ is_moved_back mode }
{
    match mode {
        ParamMode::Out | ParamMode::InOut => true,
        ParamMode::In => false,
    }
}

// How the leaves of a formal of this mode are passed, the first of which stands at this place.
fn passing_by(first: u32, mode: ParamMode, count: u32) -> Passing
    ensures { result ≡ passing_by first mode count }
{
    Passing {
        first,
        ins: if is_moved_in(mode) { count } else { 0 },
        backs: if is_moved_back(mode) { count } else { 0 },
    }
}

// Passes a formal of this mode, which has so many leaves from one on. 2^32 leaves or more are want of memory.
fn push_formal(
    signature: &mut Signature,
    mode: ParamMode,
    first: LeafNo,
    count: u32,
) -> Result<(), NoMemory>
    ensures leaves { OnOk result (signature.new.leaves ≡ signature.old.leaves ++ leaves_from first.0 count) }
    ensures passings { OnOk result (signature.new.passings
        ≡ signature.old.passings ++ passing_by (length signature.old.leaves) mode count ∷ []) }
{
    if signature.leaves.len() > u32::MAX as usize || count > u32::MAX - first.0 {
        return Err(NoMemory);
    }
    let place = signature.leaves.len() as u32;
    signature.passings.push(passing_by(place, mode, count))?;
    push_leaves(&mut signature.leaves, first, count)
}

// Passes the result as a formal of mode out; where there is none, no leaves are passed.
fn push_result(signature: &mut Signature, program: &Program, body: BodyNo) -> Result<(), NoMemory>
    ensures leaves { OnOk result (signature.new.leaves ≡ signature.old.leaves ++ passed_of program.now body.0 []) }
    ensures passings { OnOk result (signature.new.passings
        ≡ signature.old.passings ++ passings_of program.now body.0 (length signature.old.leaves) []) }
{
    match result_of(program.vars.as_slice(), body) {
        Some(var) => push_formal(signature, ParamMode::Out, var.from, var.count),
        None => push_formal(signature, ParamMode::Out, LeafNo(0), 0),
    }
}

// Passes formals of a body, and behind them its result.
fn push_formals(
    signature: &mut Signature,
    program: &Program,
    body: BodyNo,
    formals: &[Formal],
) -> Result<(), NoMemory>
    requires formals { All (λ f. f.var.0 < length program.now.vars) formals.now }
    ensures leaves { OnOk result (signature.new.leaves ≡ signature.old.leaves ++ passed_of program.now body.0 formals.now) }
    ensures passings { OnOk result (signature.new.passings
        ≡ signature.old.passings ++ passings_of program.now body.0 (length signature.old.leaves) formals.now) }
{
    for formal in formals {
        let var = program.vars.at(formal.var.0 as usize);
        push_formal(signature, formal.mode, var.from, var.count)?;
    }
    push_result(signature, program, body)
}

/// How the actuals of a call of a body are passed. 2^32 leaves or more are want of memory.
pub fn signature_of(alloc: Global, program: &Program, body: BodyNo) -> Result<Signature, NoMemory>
    requires fine { IsWellFormed program.now }
    requires in_range { body.0 < length program.now.bodies }
    ensures { IfOk result (λ s. s ≡ signature_of program.now body.0) }
{
    let mut signature = Signature {
        leaves: Items::new(alloc),
        passings: Items::new(alloc),
    };
    let formals = program.bodies.at(body.0 as usize).formals.as_slice();
    push_formals(&mut signature, program, body, formals)?;
    Ok(signature)
}
