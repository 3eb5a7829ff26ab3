ghost use Rattle.std.specs.Prelude.{◌≡◌, ℕ, ◌+◌, ◌^◌, ◌<◌, ◌≤◌, ◌↔◌, All, IsTrue, Some, length, slice_get};
ghost use Rattle.core_form.specs.Code.{code_of, codes_at};
ghost use Rattle.core_form.specs.Exits.{ExitsIn};
ghost use Rattle.core_form.specs.Fine.{StmtsBelow, HasFineNodes, IsFineBody};

use crate::{CoreStmt, Program};
use spark_base::StmtNo;

#[cycle(exits)]
fn exits_in(program: &Program, loops: u32, s: StmtNo) -> bool
    requires nodes { HasFineNodes program.now }
    requires in_range { s.0 < length program.now.stmts }
    requires room { loops + s.0 < 2 ^ 32 }
    ensures { IsTrue result ↔ ExitsIn loops (code_of program.now.exprs program.now.stmts s) }
{
    match program.stmt(s) {
        CoreStmt::If { yes, no, .. } => {
            exits_in(program, loops, *yes) && exits_in(program, loops, *no)
        }
        CoreStmt::Loop(body) => exits_in(program, loops + 1, *body),
        CoreStmt::Leave(n) => *n < loops,
        CoreStmt::Guarded { call, .. } => exits_in(program, loops, *call),
        CoreStmt::Seq(stmts) => all_exits_in(program, loops, s.0, stmts.as_slice()),
        CoreStmt::Move { .. }
        | CoreStmt::Fresh(_)
        | CoreStmt::Back
        | CoreStmt::Call { .. }
        | CoreStmt::DelayUntil(_)
        | CoreStmt::Clock(_)
        | CoreStmt::Fail => true,
    }
}

#[cycle(exits)]
fn all_exits_in(program: &Program, loops: u32, below: u32, list: &[StmtNo]) -> bool
    requires nodes { HasFineNodes program.now }
    requires in_range { below ≤ length program.now.stmts }
    requires list { StmtsBelow below list.now }
    requires room { loops + below ≤ 2 ^ 32 }
    ensures { IsTrue result ↔ ExitsIn loops (codes_at (code_of program.now.exprs program.now.stmts) list.now) }
{
    for s in list {
        if !exits_in(program, loops, *s) {
            return false;
        }
    }
    true
}

/// Whether each exit of a body stands within the loops that it leaves.
pub fn fine_exits(program: &Program) -> bool
    requires nodes { HasFineNodes program.now }
    requires bodies { All (IsFineBody program.now) program.now.bodies }
    ensures { IsTrue result ↔ ((b : ℕ) (body : _) → slice_get program.now.bodies b ≡ Some body
        → ExitsIn 0 (code_of program.now.exprs program.now.stmts body.code)) }
{
    for body in program.bodies.as_slice() {
        if !exits_in(program, 0, body.code) {
            return false;
        }
    }
    true
}
