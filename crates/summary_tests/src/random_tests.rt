// The least rows of random programs, against all equations at once, applied to the empty rows until nothing comes in.
ghost use Rattle.std.specs.Prelude.{◌≡◌, ◌<◌, ◌^◌, length, IfOk};
ghost use Rattle.core_form.specs.Fine.{IsWellFormed};
ghost use Rattle.body_summaries.specs.Bodies.{IsLayoutFor};
ghost use Rattle.row_flows.specs.Rows.{AreRowsOf};
ghost use Rattle.summary_rows.specs.Layout.{AreRows};

use crate::samples::{Shape, assignment, both, call, choice, procedure, program};
use body_summaries::{row_words, solve_alone};
use core_form::{Body, CoreStmt, ParamMode, Program, well_formed};
use program_layout::layout;
use spark_base::{BodyNo, Items, NoMemory, StmtNo};
use spark_messages::PhaseFault;
use std::alloc::Global;
use std::test::Fail;
use summary_rows::{Layout, Rows};

const SHAPE: Shape = Shape {
    library: 3,
    bodies: 4,
};

/// A linear congruential generator.
#[derive(Drop)]
struct Random {
    state: u64,
}

impl Random {
    // A number below a limit.
    fn below(&mut self, limit: u32) -> u32
        requires { 0 < limit }
        ensures { result < limit }
    {
        self.state = self
            .state
            .wrapping_mul(6364136223846793005)
            .wrapping_add(1442695040888963407);
        u32::try_from(self.state >> 33).unwrap_or(0) % limit
    }
}

// A leaf that a body may name: a library variable or its formal.
fn leaf(random: &mut Random, b: u32) -> u32 {
    let v = random.below(4);
    if v == 3 { SHAPE.formal(b) } else { v }
}

// An assignment or a call.
fn action(alloc: Global, random: &mut Random, b: u32) -> Result<CoreStmt, NoMemory> {
    let to = leaf(random, b);
    let from = leaf(random, b);
    if random.below(2) == 0 {
        Ok(assignment(alloc, to, from))
    } else {
        call(alloc, random.below(4), from, to)
    }
}

// A step of a body, from a statement on: an action, the choice between it and nothing or the return, and a loop over the choice. It answers
// which of these the step is.
fn add_step(
    alloc: Global,
    random: &mut Random,
    b: u32,
    first: u32,
    stmts: &mut Items<CoreStmt>,
) -> Result<StmtNo, NoMemory>
    requires { first < 1000 }
{
    stmts.push(action(alloc, random, b)?)?;
    stmts.push(choice(leaf(random, b), first, 2 * random.below(2)))?;
    stmts.push(both(alloc, first + 1, 3)?)?;
    stmts.push(CoreStmt::Loop(StmtNo(first + 2)))?;
    match random.below(3) {
        0 => Ok(StmtNo(first)),
        1 => Ok(StmtNo(first + 1)),
        _ => Ok(StmtNo(first + 3)),
    }
}

// The code of a body: three steps.
fn add_code(
    alloc: Global,
    random: &mut Random,
    b: u32,
    stmts: &mut Items<CoreStmt>,
) -> Result<StmtNo, NoMemory>
    requires { b < 4 }
{
    let first = 13 * b + 4;
    let mut steps = Items::new(alloc);
    for k in 0..3u32 {
        steps.push(add_step(alloc, random, b, first + 4 * k, stmts)?)?;
    }
    stmts.push(CoreStmt::Seq(steps))?;
    Ok(StmtNo(first + 12))
}

fn mode(random: &mut Random) -> ParamMode {
    match random.below(3) {
        0 => ParamMode::In,
        1 => ParamMode::Out,
        _ => ParamMode::InOut,
    }
}

// Statements 0 to 3 do nothing, leave a loop, return, and leave a loop where the first variable is false.
fn sample(alloc: Global, seed: u64) -> Result<Program, NoMemory> {
    let mut random = Random { state: seed };
    let mut stmts = Items::new(alloc);
    stmts.push(CoreStmt::Seq(Items::new(alloc)))?;
    stmts.push(CoreStmt::Leave(0))?;
    stmts.push(CoreStmt::Back)?;
    stmts.push(choice(0, 0, 1))?;
    let mut bodies: Items<Body> = Items::new(alloc);
    for b in 0..4u32 {
        let code = add_code(alloc, &mut random, b, &mut stmts)?;
        let mode = mode(&mut random);
        bodies.push(procedure(alloc, SHAPE.formal(b), mode, code)?)?;
    }
    program(alloc, SHAPE, bodies, stmts)
}

// What all equations at once make of some rows.
fn applied(alloc: Global, program: &Program, rows: &Rows) -> Result<Rows, NoMemory>
    requires fine { IsWellFormed program.now }
    requires few { length program.now.bodies < 2 ^ 32 }
    requires rows { AreRowsOf program.now rows.now }
    ensures layout { IfOk result (λ new. new.layout ≡ rows.now.layout) }
    ensures rows { IfOk result (λ new. AreRows new) }
{
    let mut next = Rows::new(alloc, &rows.layout)?;
    for b in 0..program.bodies.len() as u32 {
        let words = row_words(alloc, program, BodyNo(b), rows)?;
        next.join(BodyNo(b), words.as_slice());
    }
    Ok(next)
}

// The empty rows, and then the equations as often as there are facts of four rows of four leaves, or until nothing comes in.
fn iterated(alloc: Global, program: &Program, layout: &Layout) -> Result<Rows, NoMemory>
    requires fine { IsWellFormed program.now }
    requires few { length program.now.bodies < 2 ^ 32 }
    requires layout { IsLayoutFor program.now layout.now }
{
    let mut rows = Rows::new(alloc, layout)?;
    for _round in 0..116 {
        let next = applied(alloc, program, &rows)?;
        if next.words.as_slice() == rows.words.as_slice() {
            return Ok(next);
        }
        rows = next;
    }
    Ok(rows)
}

// Whether the rows that are solved are those.
fn agrees(alloc: Global, program: &Program) -> Result<bool, PhaseFault>
    requires fine { IsWellFormed program.now }
    requires few { length program.now.bodies < 2 ^ 32 }
{
    let layout = layout(alloc, program)?;
    let solved = solve_alone(alloc, program, &layout)?;
    let plain = iterated(alloc, program, &layout)?;
    Ok(solved.words.as_slice() == plain.words.as_slice())
}

#[test]
fn least_rows_by_plain_iteration(rt: HostRuntime) -> Result<(), Fail> {
    for seed in 0..100u64 {
        let program = sample(rt.alloc(), seed)?;
        assert!(rt; well_formed(&program));
        assert!(rt; program.bodies.len() == 4);
        match agrees(rt.alloc(), &program) {
            Err(_) => assert!(rt; false),
            Ok(agrees) => assert!(rt; agrees, "{seed}"),
        }
    }
    Ok(())
}
