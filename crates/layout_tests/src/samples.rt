// Parts of programs whose procedures do nothing but call others.
use core_form::{
    Body, BodyKind, Contract, CoreStmt, GlobalItem, Home, Item, Leaf, Mode, Package, Part, Program,
    Sharing, States, Var,
};
use spark_base::{
    BodyNo, Bytes, FileNo, ItemNo, Items, LeafNo, NoMemory, PackageNo, Pos, Span, StmtNo, VarNo,
};
use std::alloc::Global;

pub const INSIDE: Option<PackageNo> = Some(PackageNo(0));

fn at_line(line: u32) -> Span {
    Span {
        file: FileNo(0),
        from: Pos { line, col: 1 },
        to: Pos { line, col: 2 },
    }
}

/// A variable of so many leaves.
pub fn var(alloc: Global, home: Home, from: u32, count: u32) -> Var {
    Var {
        name: Bytes::new(alloc),
        place: at_line(1),
        home,
        part: Part::Inner,
        state: None,
        sharing: Sharing::Plain,
        from: LeafNo(from),
        count,
        assigned: false,
    }
}

/// More leaves of a variable.
pub fn add_leaves(
    alloc: Global,
    leaves: &mut Items<Leaf>,
    count: u32,
    var: u32,
) -> Result<(), NoMemory> {
    for _ in 0..count {
        leaves.push(Leaf {
            name: Bytes::new(alloc),
            var: VarNo(var),
            cells: 1,
        })?;
    }
    Ok(())
}

/// A contract that reads one item.
pub fn contract(alloc: Global, item: u32) -> Result<Contract, NoMemory> {
    let mut globals = Items::new(alloc);
    globals.push(GlobalItem {
        item: ItemNo(item),
        mode: Mode::Input,
        place: at_line(1),
    })?;
    Ok(Contract {
        globals,
        depends: None,
        derived: false,
        place: at_line(1),
        global_place: None,
        depends_place: None,
        on_spec: true,
    })
}

/// A procedure, declared on line 1, whose body stands on a line of its own.
pub fn body(alloc: Global, line: u32, package: Option<PackageNo>, code: u32) -> Body {
    Body {
        name: Bytes::new(alloc),
        place: at_line(line),
        declared: at_line(1),
        kind: BodyKind::Procedure,
        package,
        object: None,
        formals: Items::new(alloc),
        code: StmtNo(code),
        outer: None,
        inner: None,
        in_spec: false,
    }
}

pub fn call(alloc: Global, callee: u32) -> CoreStmt {
    CoreStmt::Call {
        callee: BodyNo(callee),
        actuals: Items::new(alloc),
        at: at_line(1),
    }
}

fn package(alloc: Global) -> Package {
    Package {
        name: Bytes::new(alloc),
        place: at_line(1),
        has_states: false,
        initial: None,
        initial_place: None,
    }
}

/// The program of these, whose first two items are its first two variables.
pub fn program(
    alloc: Global,
    vars: Items<Var>,
    leaves: Items<Leaf>,
    bodies: Items<Body>,
    stmts: Items<CoreStmt>,
) -> Result<Program, NoMemory> {
    let mut items = Items::new(alloc);
    items.push(Item::Whole(VarNo(0)))?;
    items.push(Item::Whole(VarNo(1)))?;
    let mut packages = Items::new(alloc);
    packages.push(package(alloc))?;
    Ok(Program {
        leaves,
        vars,
        items,
        bodies,
        packages,
        states: States {
            list: Items::new(alloc),
        },
        objects: Items::new(alloc),
        tasks: Items::new(alloc),
        order: Items::new(alloc),
        main: None,
        stmts,
        exprs: Items::new(alloc),
        part_of: Items::new(alloc),
        constituents: Items::new(alloc),
        assignments: Items::new(alloc),
    })
}
