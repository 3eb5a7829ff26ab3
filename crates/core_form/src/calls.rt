ghost use Rattle.std.specs.Prelude.{◌≡◌, ℕ, ◌<◌, ◌≤◌, ◌↔◌, All, IsSomeAnd, IsTrue, Some, length, slice_get};
ghost use Rattle.core_form.specs.Calls.{AreFormalsWithin, CallsIn};
ghost use Rattle.core_form.specs.Code.{actuals_at, code_of, codes_at, expr_of};
ghost use Rattle.core_form.specs.Fine.{StmtsBelow, HasFineNodes, IsFineBody};

use crate::{Actual, CoreStmt, Program};
use spark_base::{BodyNo, StmtNo};

fn formals_within(program: &Program, count: usize, list: &[Actual]) -> bool
    ensures { IsTrue result ↔ AreFormalsWithin count (actuals_at (expr_of program.now.exprs) list.now) }
{
    for actual in list {
        if actual.formal as usize > count {
            return false;
        }
    }
    true
}

fn call_in(program: &Program, callee: BodyNo, actuals: &[Actual]) -> bool
    ensures { IsTrue result ↔ IsSomeAnd (slice_get program.now.bodies callee.0)
        (λ body. AreFormalsWithin (length body.formals) (actuals_at (expr_of program.now.exprs) actuals.now)) }
{
    match program.bodies.get(callee.0 as usize) {
        Some(body) => formals_within(program, body.formals.len(), actuals),
        None => false,
    }
}

#[cycle(calls)]
fn calls_in(program: &Program, s: StmtNo) -> bool
    requires nodes { HasFineNodes program.now }
    requires in_range { s.0 < length program.now.stmts }
    ensures { IsTrue result ↔ CallsIn program.now (code_of program.now.exprs program.now.stmts s) }
{
    match program.stmt(s) {
        CoreStmt::If { yes, no, .. } => calls_in(program, *yes) && calls_in(program, *no),
        CoreStmt::Loop(body) => calls_in(program, *body),
        CoreStmt::Call {
            callee,
            actuals,
            ..
        } => call_in(program, *callee, actuals.as_slice()),
        CoreStmt::Guarded { object, call, .. } => {
            (object.0 as usize) < program.objects.len() && calls_in(program, *call)
        }
        CoreStmt::Seq(stmts) => all_calls_in(program, s.0, stmts.as_slice()),
        CoreStmt::Move { .. }
        | CoreStmt::Fresh(_)
        | CoreStmt::Leave(_)
        | CoreStmt::Back
        | CoreStmt::DelayUntil(_)
        | CoreStmt::Clock(_)
        | CoreStmt::Fail => true,
    }
}

#[cycle(calls)]
fn all_calls_in(program: &Program, below: u32, list: &[StmtNo]) -> bool
    requires nodes { HasFineNodes program.now }
    requires in_range { below ≤ length program.now.stmts }
    requires list { StmtsBelow below list.now }
    ensures { IsTrue result ↔ CallsIn program.now (codes_at (code_of program.now.exprs program.now.stmts) list.now) }
{
    for s in list {
        if !calls_in(program, *s) {
            return false;
        }
    }
    true
}

/// Whether the callee of each call is a body, whose formals the actuals are for, and each guard is of an object.
pub fn fine_calls(program: &Program) -> bool
    requires nodes { HasFineNodes program.now }
    requires bodies { All (IsFineBody program.now) program.now.bodies }
    ensures { IsTrue result ↔ ((b : ℕ) (body : _) → slice_get program.now.bodies b ≡ Some body
        → CallsIn program.now (code_of program.now.exprs program.now.stmts body.code)) }
{
    for body in program.bodies.as_slice() {
        if !calls_in(program, body.code) {
            return false;
        }
    }
    true
}
