//! The callees of a body.
ghost use Rattle.std.specs.Prelude.{ℕ, ◌<◌, ◌≤◌, ◌↔◌, All, length, IfOk, OnOk};
ghost use Rattle.core_form.specs.Calls.{CallsIn};
ghost use Rattle.core_form.specs.Code.{code_of, codes_at};
ghost use Rattle.core_form.specs.Fine.{StmtsBelow, HasFineNodes, IsWellFormed};
ghost use Rattle.call_lists.specs.Lists.{Names};
ghost use Rattle.body_calls.specs.Callees.{HasCall, IsRising, IsWithCallees, Calls};

use core_form::{CoreStmt, Program};
use spark_base::{BodyNo, Items, NoMemory, StmtNo};
use std::alloc::Global;

// Adds the callee of each call of a statement.
#[cycle(callees)]
fn add_callees(program: &Program, s: StmtNo, callees: &mut Items<BodyNo>) -> Result<(), NoMemory>
    requires nodes { HasFineNodes program.now }
    requires in_range { s.0 < length program.now.stmts }
    requires calls { CallsIn program.now (code_of program.now.exprs program.now.stmts s) }
    requires below { All (λ c. c.0 < length program.now.bodies) callees.old }
    ensures below { OnOk result (All (λ c. c.0 < length program.now.bodies) callees.new) }
    ensures names { OnOk result (IsWithCallees callees.old (code_of program.now.exprs program.now.stmts s) callees.new) }
{
    match program.stmt(s) {
        CoreStmt::If { yes, no, .. } => {
            add_callees(program, *yes, callees)?;
            add_callees(program, *no, callees)
        }
        CoreStmt::Loop(body) => add_callees(program, *body, callees),
        CoreStmt::Call { callee, .. } => callees.push(*callee),
        CoreStmt::Guarded { call, .. } => add_callees(program, *call, callees),
        CoreStmt::Seq(stmts) => add_all_callees(program, s.0, stmts.as_slice(), callees),
        CoreStmt::Move { .. }
        | CoreStmt::Fresh(_)
        | CoreStmt::Leave(_)
        | CoreStmt::Back
        | CoreStmt::DelayUntil(_)
        | CoreStmt::Clock(_)
        | CoreStmt::Fail => Ok(()),
    }
}

#[cycle(callees)]
fn add_all_callees(
    program: &Program,
    below: u32,
    list: &[StmtNo],
    callees: &mut Items<BodyNo>,
) -> Result<(), NoMemory>
    requires nodes { HasFineNodes program.now }
    requires in_range { below ≤ length program.now.stmts }
    requires list { StmtsBelow below list.now }
    requires calls { CallsIn program.now (codes_at (code_of program.now.exprs program.now.stmts) list.now) }
    requires below { All (λ c. c.0 < length program.now.bodies) callees.old }
    ensures below { OnOk result (All (λ c. c.0 < length program.now.bodies) callees.new) }
    ensures names { OnOk result (IsWithCallees callees.old (codes_at (code_of program.now.exprs program.now.stmts) list.now) callees.new) }
{
    for s in list {
        add_callees(program, *s, callees)?;
    }
    Ok(())
}

// The bodies of a list, each once.
pub(crate) fn once(list: Items<BodyNo>) -> Items<BodyNo>
    ensures rising { IsRising result }
    ensures names { (c : ℕ) → Names result c ↔ Names list c }
    ensures below { (n : ℕ) → All (λ b. b.0 < n) list → All (λ b. b.0 < n) result }
{
    let mut bodies = list.into_vec();
    bodies.sort_unstable();
    bodies.dedup();
    Items::from_vec(bodies)
}

/// The callees of a body, each once, in increasing order. The time is that of a sort of its calls. Want of memory is the only fault.
pub fn callees_of(alloc: Global, program: &Program, body: BodyNo) -> Result<Items<BodyNo>, NoMemory>
    requires fine { IsWellFormed program.now }
    requires in_range { body.0 < length program.now.bodies }
    ensures rising { IfOk result (λ list. IsRising list) }
    ensures below { IfOk result (λ list. All (λ c. c.0 < length program.now.bodies) list) }
    ensures names { IfOk result (λ list. (c : ℕ) → Names list c ↔ Calls program.now body.0 c) }
{
    let mut callees = Items::new(alloc);
    let code = program.bodies.at(body.0 as usize).code;
    add_callees(program, code, &mut callees)?;
    Ok(once(callees))
}
