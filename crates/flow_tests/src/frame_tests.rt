// A body that names few leaves of a program with many: Local := First + Middle; Last := Local, and a spare.
use crate::samples::{assign, has, list, number, program, read, relates};
use core_form::{CoreExpr, CoreOp, Home, Program, well_formed};
use flow_relations::{BodyRow, Flow, Outcome, flow_of, row_of_body};
use spark_base::{BodyNo, ExprNo, Items, LeafNo, NoMemory, PackageNo, StmtNo};
use std::alloc::Global;
use std::test::Fail;

const COUNT: u32 = 3000;

const FIRST: u32 = 5;

const MIDDLE: u32 = 1000;

const OTHER: u32 = 1001;

const LAST: u32 = 2999;

const LOCAL: u32 = 3000;

const SPARE: u32 = 3001;

fn many(alloc: Global) -> Result<Program, NoMemory> {
    let mut homes = Vec::new(alloc);
    for _ in 0..COUNT {
        homes.push(Home::Package(PackageNo(0)))?;
    }
    homes.push(Home::Local(BodyNo(0)))?;
    homes.push(Home::Spare(BodyNo(0)))?;
    let sum = CoreExpr::Apply {
        op: CoreOp::Add,
        args: Items::from_vec(vec![in alloc; ExprNo(0), ExprNo(1)]?),
    };
    let exprs = vec![in alloc;
        read(alloc, FIRST),
        read(alloc, MIDDLE),
        sum,
        read(alloc, LOCAL),
    ]?;
    let both = list(vec![in alloc; StmtNo(0), StmtNo(1)]?);
    let stmts = vec![in alloc; assign(alloc, LOCAL, 2), assign(alloc, LAST, 3), both]?;
    program(
        alloc,
        homes.as_slice(),
        Vec::new(alloc),
        exprs,
        stmts,
        StmtNo(2),
    )
}

// The first leaf of the program is in each frame.
fn is_frame(leaves: &[LeafNo]) -> bool {
    let wanted = [0, FIRST, MIDDLE, LAST, LOCAL, SPARE];
    leaves.len() == 6 && (0..6usize).all(|i| leaves[i].0 == wanted[i])
}

fn depends(row: &BodyRow, v: u32, w: u32) -> bool {
    relates(&row.depends, number(&row.frame, v), number(&row.frame, w))
}

#[test]
fn the_row_of_few_leaves_of_many(rt: HostRuntime) -> Result<(), Fail> {
    let program = many(rt.alloc())?;
    assert!(rt; well_formed(&program));
    assert_eq!(rt; program.bodies.len(), 1);
    let row = row_of_body(rt.alloc(), &program, BodyNo(0))?;
    assert!(rt; row.returns && row.frame.void == COUNT + 2);
    assert_eq!(rt; row.depends.size(), 7);
    for v in 0..COUNT + 2 {
        assert_eq!(rt; has(&row.leaves, v), v == FIRST || v == MIDDLE || v == LAST);
        assert_eq!(rt; has(&row.reads, v), v == FIRST || v == MIDDLE);
        assert_eq!(rt; has(&row.writes, v), v == LAST);
        assert_eq!(rt; has(&row.keeps, v), v == FIRST || v == MIDDLE);
    }
    assert!(rt; is_frame(row.frame.leaves.as_slice()));
    assert!(rt; depends(&row, FIRST, LAST) && depends(&row, MIDDLE, LAST));
    assert!(rt; depends(&row, FIRST, FIRST) && depends(&row, MIDDLE, MIDDLE));
    assert!(rt; !depends(&row, LAST, LAST) && !depends(&row, OTHER, OTHER));
    Ok(())
}

fn is_flow(flow: &Flow) -> bool {
    if flow.ends.len() != 1 {
        return false;
    }
    let end = &flow.ends[0];
    let local = number(&flow.frame, LOCAL);
    let spare = number(&flow.frame, SPARE);
    let first = number(&flow.frame, FIRST);
    end.outcome == Outcome::Next
        && end.kept.size() == 7
        && end.dep.size() == 7
        && relates(&end.dep, first, local)
        && !relates(&end.kept, local, local)
        && relates(&end.kept, spare, spare)
        && relates(&end.dep, spare, spare)
}

// Nothing is told of the leaves outside the frame, which stay what they are.
#[test]
fn the_flow_of_few_leaves_of_many(rt: HostRuntime) -> Result<(), Fail> {
    let program = many(rt.alloc())?;
    assert!(rt; well_formed(&program));
    assert_eq!(rt; program.bodies.len(), 1);
    let flow = flow_of(rt.alloc(), &program, BodyNo(0))?;
    for v in 0..COUNT + 2 {
        assert_eq!(rt; has(&flow.reads, v), v == FIRST || v == MIDDLE);
        assert_eq!(rt; has(&flow.writes, v), v == LAST || v == LOCAL);
        assert!(rt; !has(&flow.decides, v));
    }
    assert!(rt; is_frame(flow.frame.leaves.as_slice()) && is_flow(&flow));
    Ok(())
}
