// Programs built by hand.
use core_form::{
    Body, BodyKind, CoreExpr, CoreStmt, Formal, Home, Leaf, Package, Part, Place, Program, Sharing,
    States, Var,
};
use flow_bits::{Row, Square};
use flow_relations::Frame;
use spark_base::{
    Bytes, ExprNo, FileNo, Items, LeafNo, NoMemory, PackageNo, Pos, Span, StmtNo, VarNo,
};
use std::alloc::Global;

pub const NOWHERE: Span = Span {
    file: FileNo(0),
    from: Pos { line: 1, col: 1 },
    to: Pos { line: 1, col: 1 },
};

fn leaf(alloc: Global, var: u32) -> Leaf {
    Leaf {
        name: Bytes::new(alloc),
        var: VarNo(var),
        cells: 1,
    }
}

fn variable(alloc: Global, home: Home, from: u32) -> Var {
    Var {
        name: Bytes::new(alloc),
        place: NOWHERE,
        home,
        part: Part::Inner,
        state: None,
        sharing: Sharing::Plain,
        from: LeafNo(from),
        count: 1,
        assigned: false,
    }
}

pub fn whole(alloc: Global, leaf: u32) -> Place {
    Place {
        leaf: LeafNo(leaf),
        part: Items::new(alloc),
        whole: true,
        cells: 1,
    }
}

pub fn read(alloc: Global, leaf: u32) -> CoreExpr {
    CoreExpr::Read {
        from: whole(alloc, leaf),
        at: NOWHERE,
    }
}

pub fn assign(alloc: Global, leaf: u32, from: u32) -> CoreStmt {
    CoreStmt::Move {
        to: whole(alloc, leaf),
        from: ExprNo(from),
        at: NOWHERE,
    }
}

pub fn list(stmts: Vec<StmtNo>) -> CoreStmt {
    CoreStmt::Seq(Items::from_vec(stmts))
}

/// A procedure without a contract.
pub fn body(alloc: Global, formals: Vec<Formal>, code: StmtNo) -> Body {
    Body {
        name: Bytes::new(alloc),
        place: NOWHERE,
        declared: NOWHERE,
        kind: BodyKind::Procedure,
        package: Some(PackageNo(0)),
        object: None,
        formals: Items::from_vec(formals),
        code,
        outer: None,
        inner: None,
        in_spec: false,
    }
}

fn package(alloc: Global) -> Package {
    Package {
        name: Bytes::new(alloc),
        place: NOWHERE,
        has_states: false,
        initial: None,
        initial_place: None,
    }
}

/// A program of scalar variables with these homes, and one body.
pub fn program(
    alloc: Global,
    homes: &[Home],
    formals: Vec<Formal>,
    exprs: Vec<CoreExpr>,
    stmts: Vec<CoreStmt>,
    code: StmtNo,
) -> Result<Program, NoMemory> {
    let mut leaves = Vec::new(alloc);
    let mut vars = Vec::new(alloc);
    let mut number = 0u32;
    for home in homes {
        leaves.push(leaf(alloc, number))?;
        vars.push(variable(alloc, *home, number))?;
        number = number.saturating_add(1);
    }
    Ok(Program {
        leaves: Items::from_vec(leaves),
        vars: Items::from_vec(vars),
        items: Items::new(alloc),
        bodies: Items::from_vec(vec![in alloc; body(alloc, formals, code)]?),
        packages: Items::from_vec(vec![in alloc; package(alloc)]?),
        states: States {
            list: Items::new(alloc),
        },
        objects: Items::new(alloc),
        tasks: Items::new(alloc),
        order: Items::new(alloc),
        main: None,
        stmts: Items::from_vec(stmts),
        exprs: Items::from_vec(exprs),
        part_of: Items::new(alloc),
        constituents: Items::new(alloc),
        assignments: Items::new(alloc),
    })
}

pub fn has(row: &Row, v: u32) -> bool {
    v < row.size() && row.has(v)
}

pub fn relates(square: &Square, v: u32, w: u32) -> bool {
    v < square.size() && w < square.size() && square.has(v, w)
}

/// The number of a leaf in a frame, or one behind all numbers.
pub fn number(frame: &Frame, leaf: u32) -> u32 {
    let place = if leaf == frame.void {
        Some(frame.leaves.len())
    } else {
        frame.leaves.iter().position(|other| other.0 == leaf)
    };
    match place {
        Some(at) => u32::try_from(at).unwrap_or(u32::MAX),
        None => u32::MAX,
    }
}

/// Whether two leaves are related by their numbers; a leaf without a number is related to itself.
pub fn relates_leaves(frame: &Frame, square: &Square, v: u32, w: u32) -> bool {
    let from = number(frame, v);
    relates(square, from, number(frame, w)) || (from == u32::MAX && v == w)
}
