// Procedures that call each other in one circle: each reads the variable of its part of the circle, calls the next where that is true, and
// assigns the variable to itself. Behind the circle stands a procedure that does nothing but call itself.
ghost use Rattle.std.specs.Prelude.{◌<◌, ◌≤◌, length};
ghost use Rattle.summary_rows.specs.Layout.{AreRows};

use body_summaries::summaries_of;
use core_form::{
    Body, BodyKind, CoreExpr, CoreStmt, Home, Leaf, Package, Part, Place, Program, Sharing, States,
    Var, well_formed,
};
use spark_base::{
    BodyNo, Bytes, ExprNo, FileNo, Items, LeafNo, NoMemory, PackageNo, Pos, Span, StmtNo, VarNo,
};
use std::alloc::Global;
use std::test::Fail;
use summary_rows::Rows;

const NOWHERE: Span = Span {
    file: FileNo(0),
    from: Pos { line: 1, col: 1 },
    to: Pos { line: 1, col: 1 },
};

const BODIES: u32 = 24;

const VARIABLES: u32 = 8;

/// Bodies for each variable.
const EACH: u32 = 3;

fn whole(alloc: Global, leaf: u32) -> Place {
    Place {
        leaf: LeafNo(leaf),
        part: Items::new(alloc),
        whole: true,
        cells: 1,
    }
}

fn leaves(alloc: Global) -> Result<Items<Leaf>, NoMemory> {
    let mut leaves = Items::new(alloc);
    for v in 0..VARIABLES {
        leaves.push(Leaf {
            name: Bytes::new(alloc),
            var: VarNo(v),
            cells: 1,
        })?;
    }
    Ok(leaves)
}

fn variables(alloc: Global) -> Result<Items<Var>, NoMemory> {
    let mut vars = Items::new(alloc);
    for v in 0..VARIABLES {
        vars.push(Var {
            name: Bytes::new(alloc),
            place: NOWHERE,
            home: Home::Package(PackageNo(0)),
            part: Part::Inner,
            state: None,
            sharing: Sharing::Plain,
            from: LeafNo(v),
            count: 1,
            assigned: false,
        })?;
    }
    Ok(vars)
}

fn expressions(alloc: Global) -> Result<Items<CoreExpr>, NoMemory> {
    let mut exprs = Items::new(alloc);
    for v in 0..VARIABLES {
        exprs.push(CoreExpr::Read {
            from: whole(alloc, v),
            at: NOWHERE,
        })?;
    }
    Ok(exprs)
}

fn body(alloc: Global, code: u32) -> Body {
    Body {
        name: Bytes::new(alloc),
        place: NOWHERE,
        declared: NOWHERE,
        kind: BodyKind::Procedure,
        package: None,
        object: None,
        formals: Items::new(alloc),
        code: StmtNo(code),
        outer: None,
        inner: None,
        in_spec: false,
    }
}

fn call(alloc: Global, callee: u32) -> CoreStmt {
    CoreStmt::Call {
        callee: BodyNo(callee),
        actuals: Items::new(alloc),
        at: NOWHERE,
    }
}

// The body that stands behind another on the circle.
fn behind(b: u32) -> u32
    requires { b < 24 }
{
    if b == BODIES - 1 { 0 } else { b + 1 }
}

// The call, the choice, the assignment and both, from the first number on.
fn add_code(alloc: Global, b: u32, first: u32, stmts: &mut Items<CoreStmt>) -> Result<(), NoMemory>
    requires body { b < 24 }
    requires first { first < 1000 }
{
    stmts.push(call(alloc, behind(b)))?;
    stmts.push(CoreStmt::If {
        test: ExprNo(b / EACH),
        yes: StmtNo(first),
        no: StmtNo(0),
    })?;
    stmts.push(CoreStmt::Move {
        to: whole(alloc, b / EACH),
        from: ExprNo(b / EACH),
        at: NOWHERE,
    })?;
    let mut steps = Items::new(alloc);
    steps.push(StmtNo(first + 1))?;
    steps.push(StmtNo(first + 2))?;
    stmts.push(CoreStmt::Seq(steps))
}

fn statements(alloc: Global) -> Result<Items<CoreStmt>, NoMemory> {
    let mut stmts = Items::new(alloc);
    stmts.push(CoreStmt::Seq(Items::new(alloc)))?;
    for b in 0..BODIES {
        add_code(alloc, b, 4 * b + 1, &mut stmts)?;
    }
    stmts.push(call(alloc, BODIES))?;
    Ok(stmts)
}

fn bodies(alloc: Global) -> Result<Items<Body>, NoMemory> {
    let mut bodies = Items::new(alloc);
    for b in 0..BODIES {
        bodies.push(body(alloc, 4 * b + 4))?;
    }
    bodies.push(body(alloc, 4 * BODIES + 1))?;
    Ok(bodies)
}

fn packages(alloc: Global) -> Result<Items<Package>, NoMemory> {
    let mut packages = Items::new(alloc);
    packages.push(Package {
        name: Bytes::new(alloc),
        place: NOWHERE,
        has_states: false,
        initial: None,
        initial_place: None,
    })?;
    Ok(packages)
}

fn ring(alloc: Global) -> Result<Program, NoMemory> {
    Ok(Program {
        leaves: leaves(alloc)?,
        vars: variables(alloc)?,
        items: Items::new(alloc),
        bodies: bodies(alloc)?,
        packages: packages(alloc)?,
        states: States {
            list: Items::new(alloc),
        },
        objects: Items::new(alloc),
        tasks: Items::new(alloc),
        order: Items::new(alloc),
        main: None,
        stmts: statements(alloc)?,
        exprs: expressions(alloc)?,
        part_of: Items::new(alloc),
        constituents: Items::new(alloc),
        assignments: Items::new(alloc),
    })
}

// How many variables a row has as read, as written and as kept.
fn sets(rows: &Rows, b: u32) -> [u32; 3]
    requires rows { AreRows rows.now }
    requires in_range { b < length rows.now.layout.outer }
{
    let mut counts = [0u32; 3];
    for v in 0..VARIABLES {
        counts[0] = counts[0].saturating_add(u32::from(rows.reads(BodyNo(b), LeafNo(v))));
        counts[1] = counts[1].saturating_add(u32::from(rows.writes(BodyNo(b), LeafNo(v))));
        counts[2] = counts[2].saturating_add(u32::from(rows.keeps(BodyNo(b), LeafNo(v))));
    }
    counts
}

// How many variables depend on one.
fn on_one(rows: &Rows, b: u32, v: u32) -> u32
    requires rows { AreRows rows.now }
    requires in_range { b < length rows.now.layout.outer }
{
    let mut count = 0u32;
    for w in 0..VARIABLES {
        let depends = rows.depends(BodyNo(b), LeafNo(v), LeafNo(w));
        count = count.saturating_add(u32::from(depends));
    }
    count
}

fn pairs(rows: &Rows, b: u32) -> u32
    requires rows { AreRows rows.now }
    requires in_range { b < length rows.now.layout.outer }
{
    let mut count = 0u32;
    for v in 0..VARIABLES {
        count = count.saturating_add(on_one(rows, b, v));
    }
    count
}

#[test]
fn rows_of_a_ring(rt: HostRuntime) -> Result<(), Fail> {
    let program = ring(rt.alloc())?;
    assert!(rt; well_formed(&program));
    assert!(rt; program.bodies.len() == 25);
    match summaries_of(rt.alloc(), &program) {
        Err(_) => assert!(rt; false),
        Ok(rows) => {
            for b in 0..24u32 {
                assert!(rt; rows.returns(BodyNo(b)));
                assert_eq!(rt; sets(&rows, b).as_slice(), [8u32, 8, 7].as_slice());
                assert_eq!(rt; pairs(&rows, b), 64);
            }
            assert!(rt; !rows.returns(BodyNo(24)));
            assert_eq!(rt; sets(&rows, 24).as_slice(), [0u32; 3].as_slice());
            assert_eq!(rt; pairs(&rows, 24), 0);
        }
    }
    Ok(())
}
