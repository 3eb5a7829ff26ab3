// A procedure with a formal of each mode that calls itself, P (X + I, J, A (Y)), where it is known of it that it reads and writes G.
ghost use Rattle.std.specs.Prelude.{◌≡◌, IfOk, length};
ghost use Rattle.core_form.specs.Fine.{IsWellFormed};
ghost use Rattle.call_flow.specs.Told.{IsKnown};
ghost use Rattle.flow_relations.specs.CallsTold.{AreWithin};

use crate::samples::{NOWHERE, has, program, read, relates, whole};
use call_flow::{Known, Signature};
use callee_view::signature_of;
use core_form::{
    Actual, CoreExpr, CoreOp, CoreStmt, Formal, Home, ParamMode, Place, Program, well_formed,
};
use flow_bits::{Row, Square};
use flow_facts::{Facts, no_facts};
use flow_relations::{Places, call_facts};
use spark_base::{BodyNo, ExprNo, Items, LeafNo, NoMemory, PackageNo, StmtNo, VarNo};
use std::alloc::Global;
use std::test::Fail;

const X: u32 = 0;

const Y: u32 = 1;

const A: u32 = 2;

const G: u32 = 3;

const H: u32 = 4;

const I: u32 = 5;

const J: u32 = 6;

const K: u32 = 7;

// The number of leaves, which stands for "not assigned". The formals' names in the call are from it on.
const VOID: u32 = 8;

fn formal(var: u32, mode: ParamMode) -> Formal {
    Formal {
        var: VarNo(var),
        mode,
    }
}

fn actual(alloc: Global, formal: u32, value: Items<ExprNo>, back: Items<Place>) -> Actual {
    Actual {
        formal,
        value,
        back,
        at: NOWHERE,
        overlap: Items::new(alloc),
    }
}

fn element(alloc: Global) -> Result<Place, NoMemory> {
    Ok(Place {
        leaf: LeafNo(A),
        part: Items::from_vec(vec![in alloc; ExprNo(4)]?),
        whole: false,
        cells: 1,
    })
}

fn call(alloc: Global) -> Result<CoreStmt, NoMemory> {
    let sum = Items::from_vec(vec![in alloc; ExprNo(2)]?);
    let old = Items::from_vec(vec![in alloc; ExprNo(3)]?);
    let new = Items::from_vec(vec![in alloc; whole(alloc, J)]?);
    let part = Items::from_vec(vec![in alloc; element(alloc)?]?);
    let actuals = vec![in alloc;
        actual(alloc, 0, sum, Items::new(alloc)),
        actual(alloc, 1, old, new),
        actual(alloc, 2, Items::new(alloc), part),
    ]?;
    Ok(CoreStmt::Call {
        callee: BodyNo(0),
        actuals: Items::from_vec(actuals),
        at: NOWHERE,
    })
}

fn caller(alloc: Global) -> Result<Program, NoMemory> {
    let library = Home::Package(PackageNo(0));
    let passed = Home::Formal(BodyNo(0));
    let homes = [
        library, library, library, library, library, passed, passed, passed,
    ];
    let formals = vec![in alloc;
        formal(I, ParamMode::In),
        formal(J, ParamMode::InOut),
        formal(K, ParamMode::Out),
    ]?;
    let sum = CoreExpr::Apply {
        op: CoreOp::Add,
        args: Items::from_vec(vec![in alloc; ExprNo(0), ExprNo(1)]?),
    };
    let exprs = vec![in alloc;
        read(alloc, X),
        read(alloc, I),
        sum,
        read(alloc, J),
        read(alloc, Y),
    ]?;
    let stmts = vec![in alloc; call(alloc)?]?;
    program(alloc, &homes, formals, exprs, stmts, StmtNo(0))
}

fn places(alloc: Global, list: &[u32]) -> Result<Row, NoMemory>
    ensures { IfOk result (λ row. length row ≡ 4) }
{
    let mut row = Row::new(alloc, 4)?;
    for place in list {
        if *place < 4 {
            row.add(*place);
        }
    }
    Ok(row)
}

fn pairs(alloc: Global, list: &[(u32, u32)]) -> Result<Square, NoMemory>
    ensures { IfOk result (λ square. length square ≡ 4) }
{
    let mut square = Square::new(alloc, 4)?;
    for (from, to) in list {
        if *from < 4 && *to < 4 {
            square.add(*from, *to);
        }
    }
    Ok(square)
}

// Of G and the formals, by these places: it keeps G and I; I decides itself and J, J decides K and G, and G decides K and itself.
fn known(alloc: Global, may_return: bool) -> Result<Known, NoMemory>
    ensures { IfOk result (IsKnown 11) }
{
    Ok(Known {
        names: vec![in alloc; G, VOID, 9, 10]?,
        returns: may_return,
        reads: places(alloc, &[0, 1, 2])?,
        writes: places(alloc, &[0, 2, 3])?,
        keeps: places(alloc, &[0, 1])?,
        depends: pairs(alloc, &[(1, 1), (1, 2), (2, 3), (2, 0), (0, 3), (0, 0)])?,
    })
}

fn signature(alloc: Global, program: &Program) -> Result<Signature, NoMemory>
    requires fine { IsWellFormed program.now }
    requires body { length program.now.bodies ≡ 1 }
    ensures { IfOk result AreWithin }
{
    signature_of(alloc, program, BodyNo(0))
}

fn facts(alloc: Global, program: &Program, may_return: bool) -> Result<Facts, NoMemory>
    requires fine { IsWellFormed program.now }
    requires body { length program.now.bodies ≡ 1 }
    requires leaves { length program.now.leaves ≡ 8 }
    requires stmts { length program.now.stmts ≡ 1 }
{
    let signature = signature(alloc, program)?;
    let known = known(alloc, may_return)?;
    let own = Places::own(alloc, VOID);
    match program.stmt(StmtNo(0)) {
        CoreStmt::Call { actuals, .. } if signature.leaves.len() == 3 => {
            call_facts(alloc, program, &own, &signature, &known, actuals.as_slice())
        }
        _ => no_facts(alloc, VOID),
    }
}

fn are_only(row: &Row, list: &[u32]) -> bool {
    (0..VOID + 1).all(|v| has(row, v) == list.contains(&v))
}

fn are_pairs(square: &Square, list: &[(u32, u32)]) -> bool {
    (0..VOID + 1).all(|v| (0..VOID + 1).all(|w| relates(square, v, w) == list.contains(&(v, w))))
}

const KEPT: [(u32, u32); 8] = [
    (X, X),
    (Y, Y),
    (A, A),
    (G, G),
    (H, H),
    (I, I),
    (K, K),
    (VOID, VOID),
];

const DEP: [(u32, u32); 13] = [
    (X, X),
    (X, J),
    (Y, Y),
    (Y, A),
    (A, A),
    (G, A),
    (G, G),
    (H, H),
    (I, I),
    (I, J),
    (J, A),
    (J, G),
    (K, K),
];

#[test]
fn the_flow_of_a_call(rt: HostRuntime) -> Result<(), Fail> {
    let program = caller(rt.alloc())?;
    assert!(rt; well_formed(&program) && program.bodies.len() == 1);
    assert!(rt; program.leaves.len() == 8 && program.stmts.len() == 1);
    let facts = facts(rt.alloc(), &program, true)?;
    assert!(rt; are_only(&facts.reads, &[X, Y, G, I, J]) && are_only(&facts.writes, &[A, G, J]));
    assert!(rt; facts.next.reached && are_only(&facts.decides, &[]));
    assert!(rt; are_pairs(&facts.next.kept, &KEPT) && are_pairs(&facts.next.dep, &DEP));
    Ok(())
}

// What would be copied back behind it is neither read nor written.
#[test]
fn the_flow_of_a_call_that_does_not_return(rt: HostRuntime) -> Result<(), Fail> {
    let program = caller(rt.alloc())?;
    assert!(rt; well_formed(&program) && program.bodies.len() == 1);
    assert!(rt; program.leaves.len() == 8 && program.stmts.len() == 1);
    let facts = facts(rt.alloc(), &program, false)?;
    assert!(rt; are_only(&facts.reads, &[X, G, I, J]) && are_only(&facts.writes, &[G]));
    assert!(rt; !facts.next.reached && are_pairs(&facts.next.dep, &[]));
    Ok(())
}
