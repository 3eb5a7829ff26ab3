use core_form::{
    Actual, Body, BodyKind, CoreExpr, CoreStmt, Formal, Home, Leaf, Nodes, ParamMode, Part, Place,
    Program, Sharing, States, Var, well_formed,
};
use spark_base::{
    BodyNo, Bytes, ExprNo, FileNo, Items, LeafNo, NoMemory, Pos, Span, StmtNo, VarNo,
};
use std::alloc::Global;
use std::test::Fail;

const NOWHERE: Span = Span {
    file: FileNo(0),
    from: Pos { line: 1, col: 1 },
    to: Pos { line: 1, col: 1 },
};

fn local(alloc: Global, body: u32) -> Var {
    Var {
        name: Bytes::new(alloc),
        place: NOWHERE,
        home: Home::Local(BodyNo(body)),
        part: Part::Inner,
        state: None,
        sharing: Sharing::Plain,
        from: LeafNo(body),
        count: 1,
        assigned: false,
    }
}

fn leaf(alloc: Global, var: u32) -> Leaf {
    Leaf {
        name: Bytes::new(alloc),
        var: VarNo(var),
        cells: 1,
    }
}

fn body(alloc: Global, formal: u32, code: u32) -> Result<Body, NoMemory> {
    let formal = Formal {
        var: VarNo(formal),
        mode: ParamMode::In,
    };
    Ok(Body {
        name: Bytes::new(alloc),
        place: NOWHERE,
        declared: NOWHERE,
        kind: BodyKind::Procedure,
        package: None,
        object: None,
        formals: Items::from_vec(vec![in alloc; formal]?),
        code: StmtNo(code),
        outer: None,
        inner: None,
        in_spec: false,
    })
}

fn assign(alloc: Global, leaf: u32, from: u32) -> CoreStmt {
    let to = Place {
        leaf: LeafNo(leaf),
        part: Items::new(alloc),
        whole: true,
        cells: 1,
    };
    CoreStmt::Move {
        to,
        from: ExprNo(from),
        at: NOWHERE,
    }
}

fn code(alloc: Global, assigned: u32) -> Result<Items<CoreStmt>, NoMemory> {
    let first = assign(alloc, assigned, 1);
    let steps = CoreStmt::Seq(Items::from_vec(vec![in alloc; StmtNo(0)]?));
    Ok(Items::from_vec(vec![in alloc; first, steps, CoreStmt::Fail]?))
}

// Two bodies with a leaf each. The first assigns a leaf, from an expression with a child; both have a formal.
fn program(alloc: Global, child: u32, assigned: u32, formal: u32) -> Result<Program, NoMemory> {
    let checked = CoreExpr::Within {
        arg: ExprNo(child),
        low: 0,
        high: 9,
    };
    let bodies = vec![in alloc; body(alloc, formal, 1)?, body(alloc, 0, 2)?]?;
    Ok(Program {
        leaves: Items::from_vec(vec![in alloc; leaf(alloc, 0), leaf(alloc, 1)]?),
        vars: Items::from_vec(vec![in alloc; local(alloc, 0), local(alloc, 1)]?),
        items: Items::new(alloc),
        bodies: Items::from_vec(bodies),
        packages: Items::new(alloc),
        states: States {
            list: Items::new(alloc),
        },
        objects: Items::new(alloc),
        tasks: Items::new(alloc),
        order: Items::new(alloc),
        main: Some(BodyNo(1)),
        stmts: code(alloc, assigned)?,
        exprs: Items::from_vec(vec![in alloc; CoreExpr::Value(5), checked]?),
        part_of: Items::new(alloc),
        constituents: Items::new(alloc),
        assignments: Items::new(alloc),
    })
}

#[test]
fn a_small_program_is_well_formed(rt: HostRuntime) -> Result<(), Fail> {
    assert!(rt; well_formed(&program(rt.alloc(), 0, 0, 1)?));
    Ok(())
}

#[test]
fn a_child_comes_before_its_node(rt: HostRuntime) -> Result<(), Fail> {
    assert!(rt; !well_formed(&program(rt.alloc(), 1, 0, 1)?));
    Ok(())
}

#[test]
fn the_leaf_of_another_body_is_not_named(rt: HostRuntime) -> Result<(), Fail> {
    assert!(rt; !well_formed(&program(rt.alloc(), 0, 1, 1)?));
    Ok(())
}

#[test]
fn the_variable_of_a_formal_is_in_range(rt: HostRuntime) -> Result<(), Fail> {
    assert!(rt; !well_formed(&program(rt.alloc(), 0, 0, 2)?));
    Ok(())
}

#[test]
fn a_program_is_built_node_by_node(rt: HostRuntime) -> Result<(), Fail> {
    let mut nodes = Nodes::new(rt.alloc(), 0);
    let leaf = nodes.add_leaf()?;
    let value = nodes.add_expr(CoreExpr::Value(5))?;
    let first = nodes.add_stmt(CoreStmt::Fresh(leaf))?;
    let choice = CoreStmt::If {
        test: value,
        yes: first,
        no: first,
    };
    let second = nodes.add_stmt(choice)?;
    assert_eq!(rt;
        (nodes.leaves, nodes.exprs.len(), nodes.stmts.len()),
        (1, 1, 2)
    );
    assert_eq!(rt; (first, second), (StmtNo(0), StmtNo(1)));
    Ok(())
}

// A call with one actual, of one value and one place.
fn call(alloc: Global, callee: u32, formal: u32, back: u32) -> Result<CoreStmt, NoMemory> {
    let back = Place {
        leaf: LeafNo(back),
        part: Items::new(alloc),
        whole: true,
        cells: 1,
    };
    let actual = Actual {
        formal,
        value: Items::from_vec(vec![in alloc; ExprNo(1)]?),
        back: Items::from_vec(vec![in alloc; back]?),
        at: NOWHERE,
        overlap: Items::new(alloc),
    };
    Ok(CoreStmt::Call {
        callee: BodyNo(callee),
        actuals: Items::from_vec(vec![in alloc; actual]?),
        at: NOWHERE,
    })
}

// The same two bodies, of which the first has a call.
fn caller(alloc: Global, callee: u32, formal: u32, back: u32) -> Result<Program, NoMemory> {
    let first = call(alloc, callee, formal, back)?;
    let steps = CoreStmt::Seq(Items::from_vec(vec![in alloc; StmtNo(0)]?));
    let stmts = vec![in alloc; first, steps, CoreStmt::Fail]?;
    Ok(Program {
        stmts: Items::from_vec(stmts),
        ..program(alloc, 0, 0, 1)?
    })
}

#[test]
fn a_call_is_of_a_body_and_its_formals(rt: HostRuntime) -> Result<(), Fail> {
    assert!(rt; well_formed(&caller(rt.alloc(), 1, 0, 0)?));
    assert!(rt; well_formed(&caller(rt.alloc(), 0, 1, 0)?));
    assert!(rt; !well_formed(&caller(rt.alloc(), 2, 0, 0)?));
    assert!(rt; !well_formed(&caller(rt.alloc(), 1, 2, 0)?));
    assert!(rt; !well_formed(&caller(rt.alloc(), 1, 0, 1)?));
    Ok(())
}
