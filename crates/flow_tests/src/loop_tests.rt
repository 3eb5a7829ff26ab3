// Loops, exits and returns, built by hand over four variables.
use crate::samples::{assign, has, list, program, read, relates};
use core_form::{CoreExpr, CoreOp, CoreStmt, Home, Program, well_formed};
use flow_relations::{BodyRow, row_of_body};
use spark_base::{BodyNo, ExprNo, Items, NoMemory, PackageNo, StmtNo};
use std::alloc::Global;
use std::process::Abort;
use std::test::Fail;

const A: u32 = 0;

const B: u32 = 1;

const C: u32 = 2;

const D: u32 = 3;

fn operation(alloc: Global, op: CoreOp, a: u32, b: u32) -> Result<CoreExpr, NoMemory> {
    Ok(CoreExpr::Apply {
        op,
        args: Items::from_vec(vec![in alloc; ExprNo(a), ExprNo(b)]?),
    })
}

// B; C; D; 1; D - 1; 1 < D.
fn expressions(alloc: Global) -> Result<Vec<CoreExpr>, NoMemory> {
    let less = operation(alloc, CoreOp::Sub, 2, 3)?;
    let more = operation(alloc, CoreOp::Lt, 3, 2)?;
    let exprs = vec![in alloc;
        read(alloc, B),
        read(alloc, C),
        read(alloc, D),
        CoreExpr::Value(1),
        less,
        more,
    ]?;
    Ok(exprs)
}

fn over_four(alloc: Global, stmts: Vec<CoreStmt>, code: u32) -> Result<Program, NoMemory> {
    let home = Home::Package(PackageNo(0));
    let exprs = expressions(alloc)?;
    program(
        alloc,
        &[home, home, home, home],
        Vec::new(alloc),
        exprs,
        stmts,
        StmtNo(code),
    )
}

fn choice(yes: u32, no: u32) -> CoreStmt {
    CoreStmt::If {
        test: ExprNo(5),
        yes: StmtNo(yes),
        no: StmtNo(no),
    }
}

// while 1 < D loop A := B; B := C; D := D - 1; end loop;
fn turning(alloc: Global) -> Result<Program, NoMemory> {
    let round = list(vec![in alloc; StmtNo(0), StmtNo(1), StmtNo(2)]?);
    let all = list(vec![in alloc; StmtNo(6)]?);
    let stmts = vec![in alloc;
        assign(alloc, A, 0),
        assign(alloc, B, 1),
        assign(alloc, D, 4),
        round,
        CoreStmt::Leave(0),
        choice(3, 4),
        CoreStmt::Loop(StmtNo(5)),
        all,
    ]?;
    over_four(alloc, stmts, 7)
}

// loop loop A := B; if 1 < D then (leave both, or return); end if; end loop; B := C; end loop; D := D - 1;
fn leaving(alloc: Global, exit: CoreStmt) -> Result<Program, NoMemory> {
    let inner = list(vec![in alloc; StmtNo(0), StmtNo(5)]?);
    let outer = list(vec![in alloc; StmtNo(7), StmtNo(1)]?);
    let all = list(vec![in alloc; StmtNo(9), StmtNo(2)]?);
    let stmts = vec![in alloc;
        assign(alloc, A, 0),
        assign(alloc, B, 1),
        assign(alloc, D, 4),
        list(Vec::new(alloc)),
        exit,
        choice(4, 3),
        inner,
        CoreStmt::Loop(StmtNo(6)),
        outer,
        CoreStmt::Loop(StmtNo(8)),
        all,
    ]?;
    over_four(alloc, stmts, 10)
}

// The row reads, writes and keeps these variables, and depends by these pairs alone.
fn is_row(
    row: &BodyRow,
    reads: &[u32],
    writes: &[u32],
    keeps: &[u32],
    pairs: &[(u32, u32)],
) -> bool {
    for v in 0..4 {
        if has(&row.reads, v) != reads.contains(&v)
            || has(&row.writes, v) != writes.contains(&v)
            || has(&row.keeps, v) != keeps.contains(&v)
        {
            return false;
        }
        for w in 0..4 {
            if relates(&row.depends, v, w) != pairs.contains(&(v, w)) {
                return false;
            }
        }
    }
    row.returns
}

fn row(rt: &impl Abort, alloc: Global, program: &Program) -> Result<BodyRow, NoMemory> {
    assert!(rt; well_formed(program));
    assert_eq!(rt; program.bodies.len(), 1);
    let row = row_of_body(alloc, program, BodyNo(0))?;
    Ok(row)
}

#[test]
fn the_row_of_a_loop(rt: HostRuntime) -> Result<(), Fail> {
    let row = row(&rt, rt.alloc(), &turning(rt.alloc())?)?;
    let pairs = [
        (A, A),
        (B, A),
        (C, A),
        (D, A),
        (B, B),
        (C, B),
        (D, B),
        (C, C),
        (D, D),
    ];
    assert!(rt; is_row(&row, &[B, C, D], &[A, B, D], &[A, B, C, D], &pairs));
    Ok(())
}

// Behind the exit D is one less; the statements between the loops are never reached, and A is B.
#[test]
fn the_row_of_an_exit_inside_two_loops(rt: HostRuntime) -> Result<(), Fail> {
    let row = row(&rt, rt.alloc(), &leaving(rt.alloc(), CoreStmt::Leave(1))?)?;
    assert!(rt;
        is_row(
            &row,
            &[B, D],
            &[A, D],
            &[B, C],
            &[(B, A), (D, A), (B, B), (C, C), (D, D)]
        )
    );
    Ok(())
}

// Where it returns, D keeps its value.
#[test]
fn the_row_of_a_return_inside_a_loop(rt: HostRuntime) -> Result<(), Fail> {
    let row = row(&rt, rt.alloc(), &leaving(rt.alloc(), CoreStmt::Back)?)?;
    assert!(rt;
        is_row(
            &row,
            &[B, D],
            &[A],
            &[B, C, D],
            &[(B, A), (D, A), (B, B), (C, C), (D, D)]
        )
    );
    Ok(())
}
