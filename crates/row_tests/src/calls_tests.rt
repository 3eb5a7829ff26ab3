use body_calls::{callees_of, callers};
use core_form::{
    Body, BodyKind, CoreExpr, CoreStmt, Home, Object, Part, Program, Sharing, States, Var,
    well_formed,
};
use spark_base::{
    BodyNo, Bytes, ExprNo, FileNo, Items, LeafNo, NoMemory, ObjectNo, Pos, Span, StmtNo, VarNo,
};
use std::alloc::Global;
use std::test::Fail;

const NOWHERE: Span = Span {
    file: FileNo(0),
    from: Pos { line: 1, col: 1 },
    to: Pos { line: 1, col: 1 },
};

fn body(alloc: Global, code: u32) -> Body {
    Body {
        name: Bytes::new(alloc),
        place: NOWHERE,
        declared: NOWHERE,
        kind: BodyKind::Procedure,
        package: None,
        object: None,
        formals: Items::new(alloc),
        code: StmtNo(code),
        outer: None,
        inner: None,
        in_spec: false,
    }
}

fn call(alloc: Global, callee: u32) -> CoreStmt {
    CoreStmt::Call {
        callee: BodyNo(callee),
        actuals: Items::new(alloc),
        at: NOWHERE,
    }
}

fn components(alloc: Global) -> Var {
    Var {
        name: Bytes::new(alloc),
        place: NOWHERE,
        home: Home::Clock,
        part: Part::Inner,
        state: None,
        sharing: Sharing::Plain,
        from: LeafNo(0),
        count: 0,
        assigned: false,
    }
}

fn object(alloc: Global) -> Object {
    Object {
        name: Bytes::new(alloc),
        unit: Bytes::new(alloc),
        place: NOWHERE,
        var: VarNo(0),
    }
}

// Body 0 calls bodies 2, 1 and 2 again in a loop; body 1 calls itself; body 2 calls body 0 through a guard, or body 1.
fn code(alloc: Global) -> Result<Items<CoreStmt>, NoMemory> {
    let steps = CoreStmt::Seq(Items::from_vec(vec![in alloc; StmtNo(1), StmtNo(0), StmtNo(1)]?));
    let guarded = CoreStmt::Guarded {
        object: ObjectNo(0),
        barrier: None,
        call: StmtNo(4),
    };
    let choice = CoreStmt::If {
        test: ExprNo(0),
        yes: StmtNo(5),
        no: StmtNo(0),
    };
    Ok(Items::from_vec(vec![in alloc;
        call(alloc, 1),
        call(alloc, 2),
        steps,
        CoreStmt::Loop(StmtNo(2)),
        call(alloc, 0),
        guarded,
        choice,
    ]?))
}

fn program(alloc: Global) -> Result<Program, NoMemory> {
    let bodies = vec![in alloc; body(alloc, 3), body(alloc, 0), body(alloc, 6)]?;
    Ok(Program {
        leaves: Items::new(alloc),
        vars: Items::from_vec(vec![in alloc; components(alloc)]?),
        items: Items::new(alloc),
        bodies: Items::from_vec(bodies),
        packages: Items::new(alloc),
        states: States {
            list: Items::new(alloc),
        },
        objects: Items::from_vec(vec![in alloc; object(alloc)]?),
        tasks: Items::new(alloc),
        order: Items::new(alloc),
        main: None,
        stmts: code(alloc)?,
        exprs: Items::from_vec(vec![in alloc; CoreExpr::Value(1)]?),
        part_of: Items::new(alloc),
        constituents: Items::new(alloc),
        assignments: Items::new(alloc),
    })
}

// A body, a place in its list of callees and in that of callers, and who stands there.
const LISTS: [(u32, usize, Option<u32>, Option<u32>); 8] = [
    (0, 0, Some(1), Some(2)),
    (0, 1, Some(2), None),
    (0, 2, None, None),
    (1, 0, Some(1), Some(0)),
    (1, 1, None, Some(1)),
    (1, 2, None, Some(2)),
    (2, 0, Some(0), Some(0)),
    (2, 1, Some(1), None),
];

fn at(list: &[BodyNo], place: usize) -> Option<u32> {
    match list.get(place) {
        None => None,
        Some(body) => Some(body.0),
    }
}

#[test]
fn callees_and_callers(rt: HostRuntime) -> Result<(), Fail> {
    let program = program(rt.alloc())?;
    assert!(rt; well_formed(&program));
    let lists = callers(rt.alloc(), &program)?;
    for (b, place, callee, caller) in LISTS {
        assert!(rt; (b as usize) < program.bodies.len());
        let callees = callees_of(rt.alloc(), &program, BodyNo(b))?;
        assert_eq!(rt; at(callees.as_slice(), place), callee, "{b} {place}");
        match lists.get(b as usize) {
            None => assert_eq!(rt; caller, Some(9)),
            Some(list) => assert_eq!(rt; at(list.as_slice(), place), caller, "{b} {place}"),
        }
    }
    Ok(())
}
