// Which leaves rows have: of bodies that call each other in a circle, and of bodies that see a contract from outside and from inside.
use crate::samples::{INSIDE, add_leaves, body, call, contract, program, var};
use core_form::{Body, CoreStmt, Formal, Home, Leaf, ParamMode, Program, Var, well_formed};
use program_layout::layout;
use spark_base::{BodyNo, Items, LeafNo, NoMemory, PackageNo, StmtNo, VarNo};
use std::alloc::Global;
use std::test::Fail;
use summary_rows::Layout;

// Leaf 3 is a formal of body 0, and leaf 4 its local.
const HOMES: [Home; 5] = [
    Home::Package(PackageNo(0)),
    Home::Package(PackageNo(0)),
    Home::Package(PackageNo(0)),
    Home::Formal(BodyNo(0)),
    Home::Local(BodyNo(0)),
];

fn vars(alloc: Global) -> Result<Items<Var>, NoMemory> {
    let mut vars = Items::new(alloc);
    let mut number = 0u32;
    for home in HOMES {
        vars.push(var(alloc, home, number, 1))?;
        number = number.saturating_add(1);
    }
    Ok(vars)
}

fn leaves(alloc: Global) -> Result<Items<Leaf>, NoMemory> {
    let mut leaves = Items::new(alloc);
    for number in 0..5u32 {
        add_leaves(alloc, &mut leaves, 1, number)?;
    }
    Ok(leaves)
}

fn with_formal(mut body: Body) -> Result<Body, NoMemory> {
    body.formals.push(Formal {
        var: VarNo(3),
        mode: ParamMode::In,
    })?;
    Ok(body)
}

fn with_contracts(alloc: Global, mut body: Body) -> Result<Body, NoMemory> {
    body.outer = Some(contract(alloc, 1)?);
    body.inner = Some(contract(alloc, 0)?);
    Ok(body)
}

// Bodies 0, 1 and 2 call each other in a circle, and body 2 names leaf 0, too. Body 4 names leaf 2; its outer contract has leaf 1, and its
// inner one leaf 0. Body 3 calls it from outside its package, and body 5 from inside.
fn bodies(alloc: Global) -> Result<Items<Body>, NoMemory> {
    let mut bodies = Items::new(alloc);
    bodies.push(with_formal(body(alloc, 1, INSIDE, 0))?)?;
    bodies.push(body(alloc, 2, INSIDE, 1))?;
    bodies.push(body(alloc, 3, INSIDE, 4))?;
    bodies.push(body(alloc, 4, None, 6))?;
    bodies.push(with_contracts(alloc, body(alloc, 5, INSIDE, 5))?)?;
    bodies.push(body(alloc, 6, INSIDE, 6))?;
    Ok(bodies)
}

fn statements(alloc: Global) -> Result<Items<CoreStmt>, NoMemory> {
    let mut both = Items::new(alloc);
    both.push(StmtNo(2))?;
    both.push(StmtNo(3))?;
    let mut stmts = Items::new(alloc);
    stmts.push(call(alloc, 1))?;
    stmts.push(call(alloc, 2))?;
    stmts.push(call(alloc, 0))?;
    stmts.push(CoreStmt::Fresh(LeafNo(0)))?;
    stmts.push(CoreStmt::Seq(both))?;
    stmts.push(CoreStmt::Fresh(LeafNo(2)))?;
    stmts.push(call(alloc, 4))?;
    Ok(stmts)
}

fn sample(alloc: Global) -> Result<Program, NoMemory> {
    program(
        alloc,
        vars(alloc)?,
        leaves(alloc)?,
        bodies(alloc)?,
        statements(alloc)?,
    )
}

// A body, a place in its row, and the leaf that stands there.
const ROWS: [(usize, usize, Option<u32>); 13] = [
    (0, 0, Some(0)),
    (0, 1, Some(3)),
    (0, 2, None),
    (1, 0, Some(0)),
    (1, 1, None),
    (2, 0, Some(0)),
    (2, 1, None),
    (3, 0, Some(1)),
    (3, 1, None),
    (4, 0, Some(2)),
    (4, 1, None),
    (5, 0, Some(0)),
    (5, 1, None),
];

fn leaf_at(layout: &Layout, body: usize, place: usize) -> Option<u32> {
    let row = layout.outer.get(body)?;
    let leaf = row.get(place)?;
    Some(leaf.0)
}

// Whether the rows have those leaves.
fn has_rows(layout: &Layout) -> bool {
    ROWS.iter()
        .all(|(b, place, leaf)| leaf_at(layout, *b, *place) == *leaf)
}

#[test]
fn leaves_of_rows(rt: HostRuntime) -> Result<(), Fail> {
    let program = sample(rt.alloc())?;
    assert!(rt; well_formed(&program));
    match layout(rt.alloc(), &program) {
        Err(_) => assert!(rt; false),
        Ok(layout) => assert!(rt; layout.outer.len() == 6 && has_rows(&layout)),
    }
    Ok(())
}
