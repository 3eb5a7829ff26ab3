// A package with one variable, and mains that add 1 to it, built by hand.
ghost use Rattle.std.specs.Prelude.{IsTrue};
ghost use Rattle.run_model.specs.Held.{AreNoCalls, IsNoCall};

use core_form::{
    Body, BodyKind, CoreExpr, CoreOp, CoreStmt, Home, Leaf, Package, Part, Place, Program, Sharing,
    States, Var, well_formed,
};
use run_model::{State, Stepped, step};
use spark_base::{
    BodyNo, Bytes, ExprNo, FileNo, Items, LeafNo, NoMemory, PackageNo, Pos, Span, StmtNo, VarNo,
};
use std::alloc::Global;
use std::test::Fail;

const NOWHERE: Span = Span {
    file: FileNo(0),
    from: Pos { line: 1, col: 1 },
    to: Pos { line: 1, col: 1 },
};

const COUNT: LeafNo = LeafNo(0);

fn variable(alloc: Global) -> Var {
    Var {
        name: Bytes::new(alloc),
        place: NOWHERE,
        home: Home::Package(PackageNo(0)),
        part: Part::Visible,
        state: None,
        sharing: Sharing::Plain,
        from: COUNT,
        count: 1,
        assigned: true,
    }
}

fn count(alloc: Global) -> Place {
    Place {
        leaf: COUNT,
        part: Items::new(alloc),
        whole: true,
        cells: 1,
    }
}

// The number as an Integer.
fn integer(n: u32) -> CoreExpr {
    CoreExpr::Within {
        arg: ExprNo(n),
        low: -2147483648,
        high: 2147483647,
    }
}

// The first value; it as an Integer; 1; the count; their sum; it as an Integer; 3; whether the count is at least that.
fn expressions(alloc: Global, first: i128) -> Result<Items<CoreExpr>, NoMemory> {
    let read = CoreExpr::Read {
        from: count(alloc),
        at: NOWHERE,
    };
    let sum = CoreExpr::Apply {
        op: CoreOp::Add,
        args: Items::from_vec(vec![in alloc; ExprNo(3), ExprNo(2)]?),
    };
    let enough = CoreExpr::Apply {
        op: CoreOp::Le,
        args: Items::from_vec(vec![in alloc; ExprNo(6), ExprNo(3)]?),
    };
    let list = vec![in alloc;
        CoreExpr::Value(first),
        integer(0),
        CoreExpr::Value(1),
        read,
        sum,
        integer(4),
        CoreExpr::Value(3),
        enough,
    ]?;
    Ok(Items::from_vec(list))
}

fn assign(alloc: Global, from: u32) -> CoreStmt {
    CoreStmt::Move {
        to: count(alloc),
        from: ExprNo(from),
        at: NOWHERE,
    }
}

fn list(alloc: Global, stmts: Vec<StmtNo>) -> CoreStmt {
    CoreStmt::Seq(Items::from_vec(stmts))
}

// Count is fresh; it is the first value; both; nothing; Count is one more; that alone.
fn statements(alloc: Global) -> Result<Items<CoreStmt>, NoMemory> {
    let both = list(alloc, vec![in alloc; StmtNo(0), StmtNo(1)]?);
    let none = list(alloc, Vec::new(alloc));
    let more = list(alloc, vec![in alloc; StmtNo(4)]?);
    let mut stmts = vec![in alloc;
        CoreStmt::Fresh(COUNT),
        assign(alloc, 1),
        both,
        none,
        assign(alloc, 5),
        more,
    ]?;
    add_exit(alloc, &mut stmts)?;
    add_return(alloc, &mut stmts)?;
    add_far_exit(alloc, &mut stmts)?;
    add_nested(alloc, &mut stmts)?;
    Ok(Items::from_vec(stmts))
}

// The code of a main: Count is one more.
const ADDS: StmtNo = StmtNo(5);

// A loop in which Count is one more, until it is 3 at least; and then Count is one more.
const EXITS: StmtNo = StmtNo(10);

fn add_exit(alloc: Global, stmts: &mut Vec<CoreStmt>) -> Result<(), NoMemory> {
    stmts.push(CoreStmt::Leave(0))?;
    stmts.push(where_enough(6))?;
    stmts.push(list(alloc, vec![in alloc; StmtNo(4), StmtNo(7)]?))?;
    stmts.push(CoreStmt::Loop(StmtNo(8)))?;
    stmts.push(list(alloc, vec![in alloc; StmtNo(9), StmtNo(4)]?))?;
    Ok(())
}

// The same, but for the exit, which is a return.
const RETURNS: StmtNo = StmtNo(15);

fn add_return(alloc: Global, stmts: &mut Vec<CoreStmt>) -> Result<(), NoMemory> {
    stmts.push(CoreStmt::Back)?;
    stmts.push(where_enough(11))?;
    stmts.push(list(alloc, vec![in alloc; StmtNo(4), StmtNo(12)]?))?;
    stmts.push(CoreStmt::Loop(StmtNo(13)))?;
    stmts.push(list(alloc, vec![in alloc; StmtNo(14), StmtNo(4)]?))?;
    Ok(())
}

// A loop with a loop, in which Count is one more, and both are left; and then Count is one more.
const EXITS_TWO: StmtNo = StmtNo(21);

fn add_far_exit(alloc: Global, stmts: &mut Vec<CoreStmt>) -> Result<(), NoMemory> {
    stmts.push(CoreStmt::Leave(1))?;
    stmts.push(list(alloc, vec![in alloc; StmtNo(4), StmtNo(16)]?))?;
    stmts.push(CoreStmt::Loop(StmtNo(17)))?;
    stmts.push(list(alloc, vec![in alloc; StmtNo(18), StmtNo(1)]?))?;
    stmts.push(CoreStmt::Loop(StmtNo(19)))?;
    stmts.push(list(alloc, vec![in alloc; StmtNo(20), StmtNo(4)]?))?;
    Ok(())
}

// A loop with the loop that is left where Count is enough; behind that, Count is one more, and the outer loop is left; and then
// Count is one more.
const NESTED: StmtNo = StmtNo(24);

fn add_nested(alloc: Global, stmts: &mut Vec<CoreStmt>) -> Result<(), NoMemory> {
    stmts.push(list(alloc, vec![in alloc; StmtNo(9), StmtNo(4), StmtNo(6)]?))?;
    stmts.push(CoreStmt::Loop(StmtNo(22)))?;
    stmts.push(list(alloc, vec![in alloc; StmtNo(23), StmtNo(4)]?))?;
    Ok(())
}

// This where the count is enough, and else nothing.
fn where_enough(yes: u32) -> CoreStmt {
    CoreStmt::If {
        test: ExprNo(7),
        yes: StmtNo(yes),
        no: StmtNo(3),
    }
}

fn body(alloc: Global, kind: BodyKind, code: StmtNo) -> Body {
    Body {
        name: Bytes::new(alloc),
        place: NOWHERE,
        declared: NOWHERE,
        kind,
        package: Some(PackageNo(0)),
        object: None,
        formals: Items::new(alloc),
        code,
        outer: None,
        inner: None,
        in_spec: false,
    }
}

// A package with one variable of so many cells, and the elaborations of its spec and its body before other bodies.
fn package(
    alloc: Global,
    cells: u32,
    bodies: Vec<Body>,
    main: Option<BodyNo>,
    stmts: Items<CoreStmt>,
    exprs: Items<CoreExpr>,
) -> Result<Program, NoMemory> {
    let leaf = Leaf {
        name: Bytes::new(alloc),
        var: VarNo(0),
        cells,
    };
    let package = Package {
        name: Bytes::new(alloc),
        place: NOWHERE,
        has_states: false,
        initial: None,
        initial_place: None,
    };
    Ok(Program {
        leaves: Items::from_vec(vec![in alloc; leaf]?),
        vars: Items::from_vec(vec![in alloc; variable(alloc)]?),
        items: Items::new(alloc),
        bodies: Items::from_vec(bodies),
        packages: Items::from_vec(vec![in alloc; package]?),
        states: States {
            list: Items::new(alloc),
        },
        objects: Items::new(alloc),
        tasks: Items::new(alloc),
        order: Items::from_vec(vec![in alloc; BodyNo(0), BodyNo(1)]?),
        main,
        stmts,
        exprs,
        part_of: Items::new(alloc),
        constituents: Items::new(alloc),
        assignments: Items::new(alloc),
    })
}

// A package with Count, whose spec's elaboration gives it this value, and whose body's elaboration is empty; and
// where there is code for a main, that main.
fn counter(alloc: Global, first: i128, main: Option<StmtNo>) -> Result<Program, NoMemory> {
    let bodies = vec![in alloc;
        body(alloc, BodyKind::Elaboration, StmtNo(2)),
        body(alloc, BodyKind::Elaboration, StmtNo(3)),
        body(alloc, BodyKind::Main, main.unwrap_or(ADDS)),
    ]?;
    let main = main.map(|_| BodyNo(2));
    package(
        alloc,
        1,
        bodies,
        main,
        statements(alloc)?,
        expressions(alloc, first)?,
    )
}

fn is_no_call(node: &CoreStmt) -> bool
    ensures { IsTrue result → IsNoCall node.now }
{
    match node {
        CoreStmt::Call { .. } | CoreStmt::Guarded { .. } => false,
        _ => true,
    }
}

fn has_no_calls(program: &Program) -> bool
    ensures { IsTrue result → AreNoCalls program.now.stmts }
{
    program.stmts.as_slice().iter().all(|node| is_no_call(node))
}

// What the first steps of the environment task come to, and what Count then holds.
fn after(
    alloc: Global,
    first: i128,
    main: Option<StmtNo>,
    steps: u32,
) -> Result<(Stepped, Option<i128>), NoMemory> {
    let program = counter(alloc, first, main)?;
    if !well_formed(&program) || !has_no_calls(&program) {
        return Err(NoMemory);
    }
    let mut state = State::new(alloc, &program)?;
    let mut last = Stepped::Moved;
    for _ in 0..steps {
        last = step(alloc, &program, &mut state, 0, 0)?;
    }
    Ok((last, state.cell(COUNT, 0)))
}

// Whether the steps come to this, and Count then holds this.
fn comes_to(
    alloc: Global,
    first: i128,
    main: Option<StmtNo>,
    steps: u32,
    stepped: Stepped,
    count: Option<i128>,
) -> Result<bool, NoMemory> {
    let (last, held) = after(alloc, first, main, steps)?;
    Ok(last == stepped && held == count)
}

#[test]
fn elaborations_step_until_done(rt: HostRuntime) -> Result<(), Fail> {
    assert!(rt; comes_to(rt.alloc(), 0, None, 0, Stepped::Moved, None)?);
    assert!(rt; comes_to(rt.alloc(), 0, None, 1, Stepped::Moved, None)?);
    assert!(rt; comes_to(rt.alloc(), 0, None, 2, Stepped::Moved, Some(0))?);
    assert!(rt; comes_to(rt.alloc(), 0, None, 3, Stepped::Done, Some(0))?);
    Ok(())
}

#[test]
fn the_main_follows(rt: HostRuntime) -> Result<(), Fail> {
    assert!(rt; comes_to(rt.alloc(), 7, Some(ADDS), 3, Stepped::Moved, Some(8))?);
    assert!(rt; comes_to(rt.alloc(), 7, Some(ADDS), 4, Stepped::Done, Some(8))?);
    Ok(())
}

#[test]
fn a_check_fails(rt: HostRuntime) -> Result<(), Fail> {
    assert!(rt;
        comes_to(
            rt.alloc(),
            2147483647,
            Some(ADDS),
            3,
            Stepped::Failed,
            Some(2147483647)
        )?
    );
    assert!(rt; comes_to(rt.alloc(), 2147483648, None, 2, Stepped::Failed, None)?);
    Ok(())
}

#[test]
fn a_loop_is_left(rt: HostRuntime) -> Result<(), Fail> {
    assert!(rt; comes_to(rt.alloc(), 0, Some(EXITS), 12, Stepped::Moved, Some(3))?);
    assert!(rt; comes_to(rt.alloc(), 0, Some(EXITS), 13, Stepped::Moved, Some(4))?);
    assert!(rt; comes_to(rt.alloc(), 0, Some(EXITS), 14, Stepped::Done, Some(4))?);
    Ok(())
}

#[test]
fn a_return_leaves_a_loop_and_all_behind_it(rt: HostRuntime) -> Result<(), Fail> {
    assert!(rt; comes_to(rt.alloc(), 0, Some(RETURNS), 12, Stepped::Moved, Some(3))?);
    assert!(rt; comes_to(rt.alloc(), 0, Some(RETURNS), 13, Stepped::Done, Some(3))?);
    Ok(())
}

#[test]
fn two_loops_are_left(rt: HostRuntime) -> Result<(), Fail> {
    assert!(rt; comes_to(rt.alloc(), 7, Some(EXITS_TWO), 6, Stepped::Moved, Some(8))?);
    assert!(rt; comes_to(rt.alloc(), 7, Some(EXITS_TWO), 7, Stepped::Moved, Some(9))?);
    assert!(rt; comes_to(rt.alloc(), 7, Some(EXITS_TWO), 8, Stepped::Done, Some(9))?);
    Ok(())
}

#[test]
fn an_inner_loop_is_left_and_then_the_outer(rt: HostRuntime) -> Result<(), Fail> {
    assert!(rt; comes_to(rt.alloc(), 0, Some(NESTED), 13, Stepped::Moved, Some(3))?);
    assert!(rt; comes_to(rt.alloc(), 0, Some(NESTED), 14, Stepped::Moved, Some(4))?);
    assert!(rt; comes_to(rt.alloc(), 0, Some(NESTED), 16, Stepped::Moved, Some(5))?);
    assert!(rt; comes_to(rt.alloc(), 0, Some(NESTED), 17, Stepped::Done, Some(5))?);
    Ok(())
}

// A row of three cells, which is a variable. An elaboration moves a value to so many of its cells, from the one on that the first
// expressions choose; what that step comes to, and what the cells then hold.
fn row_after(
    alloc: Global,
    exprs: Vec<CoreExpr>,
    part: Vec<ExprNo>,
    cells: u32,
    from: u32,
) -> Result<(Stepped, [Option<i128>; 3]), NoMemory> {
    let to = Place {
        leaf: COUNT,
        part: Items::from_vec(part),
        whole: false,
        cells,
    };
    let assign = CoreStmt::Move {
        to,
        from: ExprNo(from),
        at: NOWHERE,
    };
    let code = list(alloc, vec![in alloc; StmtNo(0)]?);
    let none = list(alloc, Vec::new(alloc));
    let bodies = vec![in alloc;
        body(alloc, BodyKind::Elaboration, StmtNo(1)),
        body(alloc, BodyKind::Elaboration, StmtNo(2)),
    ]?;
    let stmts = Items::from_vec(vec![in alloc; assign, code, none]?);
    let program = package(alloc, 3, bodies, None, stmts, Items::from_vec(exprs))?;
    if !well_formed(&program) || !has_no_calls(&program) {
        return Err(NoMemory);
    }
    let mut state = State::new(alloc, &program)?;
    let stepped = step(alloc, &program, &mut state, 0, 0)?;
    Ok((
        stepped,
        [
            state.cell(COUNT, 0),
            state.cell(COUNT, 1),
            state.cell(COUNT, 2),
        ],
    ))
}

// Whether a move to the cells from the sum of two indices on comes to this: 7 where `from` is 2, and 7 and 8 where it is 4.
fn moves(
    alloc: Global,
    indices: (i128, i128),
    cells: u32,
    from: u32,
    stepped: Stepped,
    held: [Option<i128>; 3],
) -> Result<bool, NoMemory> {
    let exprs = vec![in alloc;
        CoreExpr::Value(indices.0),
        CoreExpr::Value(indices.1),
        CoreExpr::Value(7),
        CoreExpr::Value(8),
        CoreExpr::Build(Items::from_vec(vec![in alloc; ExprNo(2), ExprNo(3)]?)),
    ]?;
    let part = vec![in alloc; ExprNo(0), ExprNo(1)]?;
    let (last, row) = row_after(alloc, exprs, part, cells, from)?;
    Ok(last == stepped && row == held)
}

const BARE: [Option<i128>; 3] = [None, None, None];

#[test]
fn arrays_end_at_both_edges(rt: HostRuntime) -> Result<(), Fail> {
    let a = rt.alloc();
    assert!(rt; moves(a, (0, 0), 1, 2, Stepped::Moved, [Some(7), None, None])?);
    assert!(rt; moves(a, (2, 0), 1, 2, Stepped::Moved, [None, None, Some(7)])?);
    assert!(rt; moves(a, (1, 1), 1, 2, Stepped::Moved, [None, None, Some(7)])?);
    assert!(rt; moves(a, (3, -3), 1, 2, Stepped::Moved, [Some(7), None, None])?);
    assert!(rt; moves(a, (3, 0), 1, 2, Stepped::Failed, BARE)?);
    assert!(rt; moves(a, (0, -1), 1, 2, Stepped::Failed, BARE)?);
    assert!(rt; moves(a, (1, 0), 2, 4, Stepped::Moved, [None, Some(7), Some(8)])?);
    assert!(rt; moves(a, (2, 0), 2, 4, Stepped::Failed, BARE)?);
    assert!(rt; moves(a, (0, 0), 1, 4, Stepped::Failed, BARE)?);
    assert!(rt; moves(a, (0, 0), 2, 2, Stepped::Failed, BARE)?);
    Ok(())
}

// Whether an operator makes this of two numbers, and where it makes nothing, the step fails.
fn makes(
    alloc: Global,
    op: CoreOp,
    n: i128,
    m: i128,
    made: Option<i128>,
) -> Result<bool, NoMemory> {
    let exprs = vec![in alloc;
        CoreExpr::Value(n),
        CoreExpr::Value(m),
        CoreExpr::Apply {
            op,
            args: Items::from_vec(vec![in alloc; ExprNo(0), ExprNo(1)]?),
        },
    ]?;
    let (last, row) = row_after(alloc, exprs, Vec::new(alloc), 1, 2)?;
    let stepped = if made.is_some() {
        Stepped::Moved
    } else {
        Stepped::Failed
    };
    Ok(last == stepped && row == [made, None, None])
}

#[test]
fn division_of_each_pair_of_signs(rt: HostRuntime) -> Result<(), Fail> {
    let a = rt.alloc();
    assert!(rt; makes(a, CoreOp::Div, 7, 2, Some(3))? && makes(a, CoreOp::Div, -7, 2, Some(-3))?);
    assert!(rt; makes(a, CoreOp::Div, 7, -2, Some(-3))? && makes(a, CoreOp::Div, -7, -2, Some(3))?);
    assert!(rt; makes(a, CoreOp::Mod, 7, 2, Some(1))? && makes(a, CoreOp::Mod, -7, 2, Some(1))?);
    assert!(rt;
        makes(a, CoreOp::Mod, 7, -2, Some(-1))? && makes(a, CoreOp::Mod, -7, -2, Some(-1))?
    );
    assert!(rt; makes(a, CoreOp::Rem, 7, 2, Some(1))? && makes(a, CoreOp::Rem, -7, 2, Some(-1))?);
    assert!(rt; makes(a, CoreOp::Rem, 7, -2, Some(1))? && makes(a, CoreOp::Rem, -7, -2, Some(-1))?);
    assert!(rt; makes(a, CoreOp::Div, 7, 0, None)? && makes(a, CoreOp::Neg, 7, 1, None)?);
    Ok(())
}

// Whether a choice by this test comes to this: 5 where it holds, and else a division by zero.
fn chooses(
    alloc: Global,
    test: i128,
    stepped: Stepped,
    first: Option<i128>,
) -> Result<bool, NoMemory> {
    let exprs = vec![in alloc;
        CoreExpr::Value(test),
        CoreExpr::Value(5),
        CoreExpr::Value(0),
        CoreExpr::Apply {
            op: CoreOp::Div,
            args: Items::from_vec(vec![in alloc; ExprNo(1), ExprNo(2)]?),
        },
        CoreExpr::Choose {
            test: ExprNo(0),
            yes: ExprNo(1),
            no: ExprNo(3),
        },
    ]?;
    let (last, row) = row_after(alloc, exprs, Vec::new(alloc), 1, 4)?;
    Ok(last == stepped && row == [first, None, None])
}

#[test]
fn what_is_not_chosen_is_not_computed(rt: HostRuntime) -> Result<(), Fail> {
    assert!(rt; chooses(rt.alloc(), 1, Stepped::Moved, Some(5))?);
    assert!(rt; chooses(rt.alloc(), 0, Stepped::Failed, None)?);
    assert!(rt; chooses(rt.alloc(), 2, Stepped::Failed, None)?);
    Ok(())
}
