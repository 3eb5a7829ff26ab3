// Programs of library variables and of procedures with one formal each. Each variable has one leaf: first those of the library, then the
// formals by body. The expression of a number reads the leaf of that number.
use core_form::{
    Actual, Body, BodyKind, CoreExpr, CoreStmt, Formal, Home, Leaf, Package, ParamMode, Part,
    Place, Program, Sharing, States, Var,
};
use spark_base::{
    BodyNo, Bytes, ExprNo, FileNo, Items, LeafNo, NoMemory, PackageNo, Pos, Span, StmtNo, VarNo,
};
use std::alloc::Global;

const NOWHERE: Span = Span {
    file: FileNo(0),
    from: Pos { line: 1, col: 1 },
    to: Pos { line: 1, col: 1 },
};

/// So many library variables and bodies.
#[derive(Clone, Copy)]
pub struct Shape {
    pub library: u32,
    pub bodies: u32,
}

impl Shape {
    /// How many leaves there are.
    pub fn leaves(self) -> u32 {
        self.library.saturating_add(self.bodies)
    }

    /// The leaf of the formal of a body.
    pub fn formal(self, b: u32) -> u32 {
        self.library.saturating_add(b)
    }
}

pub fn whole(alloc: Global, leaf: u32) -> Place {
    Place {
        leaf: LeafNo(leaf),
        part: Items::new(alloc),
        whole: true,
        cells: 1,
    }
}

pub fn assignment(alloc: Global, to: u32, from: u32) -> CoreStmt {
    CoreStmt::Move {
        to: whole(alloc, to),
        from: ExprNo(from),
        at: NOWHERE,
    }
}

/// The call of a body, whose formal has the value of a leaf, and goes back to another where its mode has it so.
pub fn call(alloc: Global, callee: u32, value: u32, back: u32) -> Result<CoreStmt, NoMemory> {
    let mut actual = Actual {
        formal: 0,
        value: Items::new(alloc),
        back: Items::new(alloc),
        at: NOWHERE,
        overlap: Items::new(alloc),
    };
    actual.value.push(ExprNo(value))?;
    actual.back.push(whole(alloc, back))?;
    let mut actuals = Items::new(alloc);
    actuals.push(actual)?;
    Ok(CoreStmt::Call {
        callee: BodyNo(callee),
        actuals,
        at: NOWHERE,
    })
}

pub fn both(alloc: Global, first: u32, second: u32) -> Result<CoreStmt, NoMemory> {
    let mut steps = Items::new(alloc);
    steps.push(StmtNo(first))?;
    steps.push(StmtNo(second))?;
    Ok(CoreStmt::Seq(steps))
}

pub fn choice(test: u32, yes: u32, no: u32) -> CoreStmt {
    CoreStmt::If {
        test: ExprNo(test),
        yes: StmtNo(yes),
        no: StmtNo(no),
    }
}

/// A procedure whose formal is this variable.
pub fn procedure(
    alloc: Global,
    formal: u32,
    mode: ParamMode,
    code: StmtNo,
) -> Result<Body, NoMemory> {
    let mut formals = Items::new(alloc);
    formals.push(Formal {
        var: VarNo(formal),
        mode,
    })?;
    Ok(Body {
        name: Bytes::new(alloc),
        place: NOWHERE,
        declared: NOWHERE,
        kind: BodyKind::Procedure,
        package: None,
        object: None,
        formals,
        code,
        outer: None,
        inner: None,
        in_spec: false,
    })
}

fn leaves(alloc: Global, shape: Shape) -> Result<Items<Leaf>, NoMemory> {
    let mut leaves = Items::new(alloc);
    for v in 0..shape.leaves() {
        leaves.push(Leaf {
            name: Bytes::new(alloc),
            var: VarNo(v),
            cells: 1,
        })?;
    }
    Ok(leaves)
}

fn home(shape: Shape, v: u32) -> Home {
    if v < shape.library {
        Home::Package(PackageNo(0))
    } else {
        Home::Formal(BodyNo(v - shape.library))
    }
}

fn variables(alloc: Global, shape: Shape) -> Result<Items<Var>, NoMemory> {
    let mut vars = Items::new(alloc);
    for v in 0..shape.leaves() {
        vars.push(Var {
            name: Bytes::new(alloc),
            place: NOWHERE,
            home: home(shape, v),
            part: Part::Inner,
            state: None,
            sharing: Sharing::Plain,
            from: LeafNo(v),
            count: 1,
            assigned: false,
        })?;
    }
    Ok(vars)
}

fn expressions(alloc: Global, shape: Shape) -> Result<Items<CoreExpr>, NoMemory> {
    let mut exprs = Items::new(alloc);
    for v in 0..shape.leaves() {
        exprs.push(CoreExpr::Read {
            from: whole(alloc, v),
            at: NOWHERE,
        })?;
    }
    Ok(exprs)
}

fn packages(alloc: Global) -> Result<Items<Package>, NoMemory> {
    let mut packages = Items::new(alloc);
    packages.push(Package {
        name: Bytes::new(alloc),
        place: NOWHERE,
        has_states: false,
        initial: None,
        initial_place: None,
    })?;
    Ok(packages)
}

/// The program of these procedures and this code.
pub fn program(
    alloc: Global,
    shape: Shape,
    bodies: Items<Body>,
    stmts: Items<CoreStmt>,
) -> Result<Program, NoMemory> {
    Ok(Program {
        leaves: leaves(alloc, shape)?,
        vars: variables(alloc, shape)?,
        items: Items::new(alloc),
        bodies,
        packages: packages(alloc)?,
        states: States {
            list: Items::new(alloc),
        },
        objects: Items::new(alloc),
        tasks: Items::new(alloc),
        order: Items::new(alloc),
        main: None,
        stmts,
        exprs: expressions(alloc, shape)?,
        part_of: Items::new(alloc),
        constituents: Items::new(alloc),
        assignments: Items::new(alloc),
    })
}
