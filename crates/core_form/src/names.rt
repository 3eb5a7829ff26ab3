ghost use Rattle.std.specs.Prelude.{◌≡◌, ℕ, ◌<◌, ◌≤◌, ◌↔◌, All, IfSome, IsTrue, Some, length, slice_get};
ghost use Rattle.core_form.specs.Code.{actuals_at, expr_of, exprs_at, spot_at, spots_at, code_of, codes_at};
ghost use Rattle.core_form.specs.Fine.{ActualBelow, ExprsBelow, StmtsBelow, PlaceBelow, HasFineNodes, IsFineBody, IsHomeOf, IsSeenIn};
ghost use Rattle.core_form.specs.Fine.{NamesIn, ActualsIn, AllNamesIn, SpotIn, SpotsIn, CodeIn};

use crate::{Actual, CoreExpr, CoreStmt, Home, Place, Program};
use spark_base::{ExprNo, LeafNo, StmtNo};

fn is_home_of(body: usize, home: Home) -> bool
    ensures { IsTrue result ↔ IsHomeOf body home }
{
    match home {
        Home::Package(_) | Home::Clock => true,
        Home::Local(b) | Home::Formal(b) | Home::Outcome(b) | Home::Spare(b) => {
            b.0 as usize == body
        }
    }
}

fn is_seen_in(program: &Program, body: usize, leaf: LeafNo) -> bool
    ensures { IsTrue result ↔ IsSeenIn program.now body leaf.0 }
{
    match program.leaves.get(leaf.0 as usize) {
        Some(l) => match program.vars.get(l.var.0 as usize) {
            Some(v) => is_home_of(body, v.home),
            None => true,
        },
        None => true,
    }
}

#[cycle(names)]
fn names_in(program: &Program, body: usize, e: ExprNo) -> bool
    requires nodes { HasFineNodes program.now }
    requires in_range { e.0 < length program.now.exprs }
    ensures { IsTrue result ↔ NamesIn (IsSeenIn program.now body) (expr_of program.now.exprs e) }
{
    match program.expr(e) {
        CoreExpr::Value(_) => true,
        CoreExpr::Read { from, .. } => {
            is_seen_in(program, body, from.leaf)
                && all_names_in(program, body, e.0, from.part.as_slice())
        }
        CoreExpr::Apply { args, .. } => all_names_in(program, body, e.0, args.as_slice()),
        CoreExpr::Choose { test, yes, no } => {
            names_in(program, body, *test)
                && names_in(program, body, *yes)
                && names_in(program, body, *no)
        }
        CoreExpr::Build(parts) => all_names_in(program, body, e.0, parts.as_slice()),
        CoreExpr::Within { arg, .. } => names_in(program, body, *arg),
    }
}

#[cycle(names)]
fn all_names_in(program: &Program, body: usize, below: u32, list: &[ExprNo]) -> bool
    requires nodes { HasFineNodes program.now }
    requires in_range { below ≤ length program.now.exprs }
    requires list { ExprsBelow below list.now }
    ensures { IsTrue result ↔ AllNamesIn (IsSeenIn program.now body) (exprs_at (expr_of program.now.exprs) list.now) }
{
    for e in list {
        if !names_in(program, body, *e) {
            return false;
        }
    }
    true
}

fn place_in(program: &Program, body: usize, place: &Place) -> bool
    requires nodes { HasFineNodes program.now }
    requires place { PlaceBelow (length program.now.leaves) (length program.now.exprs) place.now }
    ensures { IsTrue result ↔ SpotIn (IsSeenIn program.now body) (spot_at (expr_of program.now.exprs) place.now) }
{
    let exprs = program.exprs.len() as u32;
    is_seen_in(program, body, place.leaf)
        && all_names_in(program, body, exprs, place.part.as_slice())
}

fn places_in(program: &Program, body: usize, list: &[Place]) -> bool
    requires nodes { HasFineNodes program.now }
    requires list { All (PlaceBelow (length program.now.leaves) (length program.now.exprs)) list.now }
    ensures { IsTrue result ↔ SpotsIn (IsSeenIn program.now body) (spots_at (expr_of program.now.exprs) list.now) }
{
    for place in list {
        if !place_in(program, body, place) {
            return false;
        }
    }
    true
}

#[tactic(auto, unfolding(crate::specs::Fine::ActualBelow))]
fn actual_in(program: &Program, body: usize, actual: &Actual) -> bool
    requires nodes { HasFineNodes program.now }
    requires actual { ActualBelow (length program.now.leaves) (length program.now.exprs) actual.now }
    ensures { IsTrue result ↔ (AllNamesIn (IsSeenIn program.now body) (exprs_at (expr_of program.now.exprs) actual.now.value)
        × SpotsIn (IsSeenIn program.now body) (spots_at (expr_of program.now.exprs) actual.now.back)) }
{
    let exprs = program.exprs.len() as u32;
    all_names_in(program, body, exprs, actual.value.as_slice())
        && places_in(program, body, actual.back.as_slice())
}

fn actuals_in(program: &Program, body: usize, list: &[Actual]) -> bool
    requires nodes { HasFineNodes program.now }
    requires list { All (ActualBelow (length program.now.leaves) (length program.now.exprs)) list.now }
    ensures { IsTrue result ↔ ActualsIn (IsSeenIn program.now body) (actuals_at (expr_of program.now.exprs) list.now) }
{
    for actual in list {
        if !actual_in(program, body, actual) {
            return false;
        }
    }
    true
}

fn barrier_in(program: &Program, body: usize, barrier: Option<LeafNo>) -> bool
    ensures { IsTrue result ↔ IfSome barrier (λ leaf. IsSeenIn program.now body leaf.0) }
{
    match barrier {
        Some(leaf) => is_seen_in(program, body, leaf),
        None => true,
    }
}

#[cycle(code)]
fn code_in(program: &Program, body: usize, s: StmtNo) -> bool
    requires nodes { HasFineNodes program.now }
    requires in_range { s.0 < length program.now.stmts }
    ensures { IsTrue result ↔ CodeIn (IsSeenIn program.now body) (code_of program.now.exprs program.now.stmts s) }
{
    match program.stmt(s) {
        CoreStmt::Move { to, from, .. } => {
            place_in(program, body, to) && names_in(program, body, *from)
        }
        CoreStmt::Fresh(leaf) => is_seen_in(program, body, *leaf),
        CoreStmt::If { test, yes, no } => {
            names_in(program, body, *test)
                && code_in(program, body, *yes)
                && code_in(program, body, *no)
        }
        CoreStmt::Seq(stmts) => codes_in(program, body, s.0, stmts.as_slice()),
        CoreStmt::Loop(of) => code_in(program, body, *of),
        CoreStmt::Leave(_) | CoreStmt::Back | CoreStmt::Fail => true,
        CoreStmt::Call { actuals, .. } => actuals_in(program, body, actuals.as_slice()),
        CoreStmt::Guarded { barrier, call, .. } => {
            barrier_in(program, body, *barrier) && code_in(program, body, *call)
        }
        CoreStmt::DelayUntil(_) | CoreStmt::Clock(_) => false,
    }
}

#[cycle(code)]
fn codes_in(program: &Program, body: usize, below: u32, list: &[StmtNo]) -> bool
    requires nodes { HasFineNodes program.now }
    requires in_range { below ≤ length program.now.stmts }
    requires list { StmtsBelow below list.now }
    ensures { IsTrue result ↔ CodeIn (IsSeenIn program.now body)
        (codes_at (code_of program.now.exprs program.now.stmts) list.now) }
{
    for s in list {
        if !code_in(program, body, *s) {
            return false;
        }
    }
    true
}

/// Whether the code of each body names library leaves and its own leaves alone. A node is looked at once for each
/// way that leads to it, so nodes that have many parents take exponential time: lowering makes trees.
pub fn fine_names(program: &Program) -> bool
    requires nodes { HasFineNodes program.now }
    requires bodies { All (IsFineBody program.now) program.now.bodies }
    ensures { IsTrue result ↔ ((b : ℕ) (body : _) → slice_get program.now.bodies b ≡ Some body
        → CodeIn (IsSeenIn program.now b) (code_of program.now.exprs program.now.stmts body.code)) }
{
    for (b, body) in program.bodies.as_slice().iter().enumerate() {
        if !code_in(program, b, body.code) {
            return false;
        }
    }
    true
}
