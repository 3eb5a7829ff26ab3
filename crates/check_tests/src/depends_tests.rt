// A package P with a variable X, a constituent of its state S, a variable Y, and a procedure Q with formals A (in) and B (out).
ghost use Rattle.std.specs.Prelude.{◌≡◌, IfOk, length};
ghost use Rattle.summary_rows.specs.Layout.{AreRows};

use crate::samples::{first_leaves, line};
use core_form::{
    Body, BodyKind, Contract, CoreStmt, DependsPair, Formal, GlobalItem, Home, Item, Leaf, Mode,
    Package, ParamMode, Part, Program, Sharing, StateDef, States, Var, well_formed,
};
use depends_check::append_depends_messages;
use spark_base::{BodyNo, Bytes, ItemNo, Items, LeafNo, NoMemory, PackageNo, StmtNo, VarNo};
use spark_messages::{ordered, text_of};
use std::alloc::Global;
use std::test::Fail;
use summary_rows::{Layout, Rows};

/// Name, home, state of the variables, each of which has one leaf.
const VARS: [(&str, Home, Option<u32>); 4] = [
    ("P.X", Home::Package(PackageNo(0)), Some(0)),
    ("P.Y", Home::Package(PackageNo(0)), None),
    ("A", Home::Formal(BodyNo(0)), None),
    ("B", Home::Formal(BodyNo(0)), None),
];

const ITEMS: [Item; 5] = [
    Item::Whole(VarNo(0)),
    Item::Whole(VarNo(1)),
    Item::Whole(VarNo(2)),
    Item::Whole(VarNo(3)),
    Item::State(0),
];

const X: Option<u32> = Some(0);

const Y: Option<u32> = Some(1);

const A: Option<u32> = Some(2);

const B: Option<u32> = Some(3);

fn variables(alloc: Global) -> Result<Items<Var>, NoMemory> {
    let mut vars = Items::new(alloc);
    let mut from = 0u32;
    for (name, home, state) in &VARS {
        vars.push(Var {
            name: Bytes::from_slice(alloc, name.as_bytes())?,
            place: line(1),
            home: *home,
            part: Part::Hidden,
            state: *state,
            sharing: Sharing::Plain,
            from: LeafNo(from),
            count: 1,
            assigned: false,
        })?;
        from = from.wrapping_add(1);
    }
    Ok(vars)
}

fn leaves(alloc: Global) -> Result<Items<Leaf>, NoMemory> {
    let mut leaves = Items::new(alloc);
    for var in 0..4 {
        leaves.push(Leaf {
            name: Bytes::new(alloc),
            var: VarNo(var),
            cells: 1,
        })?;
    }
    Ok(leaves)
}

fn state(alloc: Global) -> Result<StateDef, NoMemory> {
    Ok(StateDef {
        name: Bytes::from_slice(alloc, b"P.S")?,
        package: PackageNo(0),
        place: line(1),
        variables: Items::from_vec(vec![in alloc; VarNo(0)]?),
        refined: true,
    })
}

fn package(alloc: Global) -> Package {
    Package {
        name: Bytes::new(alloc),
        place: line(1),
        has_states: true,
        initial: None,
        initial_place: None,
    }
}

/// Whether the contract stands on a declaration of a package spec; its Global; its pairs, at lines 21, 22 and so on; whether
/// the row says that Q returns, which leaves it says to be kept, and the pairs of leaves, four bits for each first leaf, the last
/// leaf first.
#[derive(Clone, Copy)]
struct Case {
    on_spec: bool,
    globals: &'static [(u32, Mode)],
    pairs: &'static [(Option<u32>, Option<u32>)],
    returns: bool,
    keeps: u64,
    depends: u64,
    text: &'static str,
}

fn globals(alloc: Global, listed: &[(u32, Mode)]) -> Result<Items<GlobalItem>, NoMemory> {
    let mut globals = Items::new(alloc);
    for (item, mode) in listed {
        globals.push(GlobalItem {
            item: ItemNo(*item),
            mode: *mode,
            place: line(8),
        })?;
    }
    Ok(globals)
}

fn number(item: Option<u32>) -> Option<ItemNo> {
    match item {
        Some(item) => Some(ItemNo(item)),
        None => None,
    }
}

fn pairs(
    alloc: Global,
    listed: &[(Option<u32>, Option<u32>)],
) -> Result<Items<DependsPair>, NoMemory> {
    let mut pairs = Items::new(alloc);
    let mut place = 21u32;
    for (output, input) in listed {
        pairs.push(DependsPair {
            output: number(*output),
            input: number(*input),
            place: line(place),
        })?;
        place = place.wrapping_add(1);
    }
    Ok(pairs)
}

fn body(alloc: Global, case: &Case) -> Result<Body, NoMemory> {
    let formal = |var, mode| Formal {
        var: VarNo(var),
        mode,
    };
    let contract = Contract {
        globals: globals(alloc, case.globals)?,
        depends: Some(pairs(alloc, case.pairs)?),
        derived: false,
        place: line(8),
        global_place: None,
        depends_place: Some(line(9)),
        on_spec: case.on_spec,
    };
    Ok(Body {
        name: Bytes::from_slice(alloc, b"P.Q")?,
        place: line(2),
        declared: line(1),
        kind: BodyKind::Procedure,
        package: Some(PackageNo(0)),
        object: None,
        formals: Items::from_vec(vec![in alloc;
            formal(2, ParamMode::In),
            formal(3, ParamMode::Out),
        ]?),
        code: StmtNo(0),
        outer: Some(contract),
        inner: None,
        in_spec: false,
    })
}

fn program(alloc: Global, case: &Case) -> Result<Program, NoMemory> {
    Ok(Program {
        leaves: leaves(alloc)?,
        vars: variables(alloc)?,
        items: Items::from_vec(Vec::from_array(alloc, ITEMS)?),
        bodies: Items::from_vec(vec![in alloc; body(alloc, case)?]?),
        packages: Items::from_vec(vec![in alloc; package(alloc)]?),
        states: States {
            list: Items::from_vec(vec![in alloc; state(alloc)?]?),
        },
        objects: Items::new(alloc),
        tasks: Items::new(alloc),
        order: Items::new(alloc),
        main: None,
        stmts: Items::from_vec(vec![in alloc; CoreStmt::Back]?),
        exprs: Items::new(alloc),
        part_of: Items::new(alloc),
        constituents: Items::new(alloc),
        assignments: Items::new(alloc),
    })
}

fn rows(alloc: Global, case: &Case) -> Result<Rows, NoMemory>
    ensures rows { IfOk result (λ rows. AreRows rows) }
    ensures bodies { IfOk result (λ rows. length rows.layout.outer ≡ 1) }
{
    let layout = Layout::new(alloc).with_row(first_leaves(alloc, 4)?)?;
    let mut rows = Rows::new(alloc, &layout)?;
    rows.join(
        BodyNo(0),
        &[case.returns as u64, 0, 0, case.keeps, case.depends],
    );
    Ok(rows)
}

const SILENT: Case = Case {
    on_spec: true,
    globals: &[],
    pairs: &[(B, None), (B, A)],
    returns: true,
    keeps: 0b0111,
    depends: 0b0000_1100_0010_0001,
    text: "sparkflow: 0 errors, 0 warnings\n",
};

const CASES: [Case; 9] = [
    SILENT,
    // B depends on X, which is seen as S from outside
    Case {
        globals: &[(4, Mode::Input)],
        pairs: &[(B, None), (B, A), (None, Some(4))],
        depends: 0b0000_1100_0010_1001,
        text: "f:21:1: error: \"B\" depends on \"P.S\" but Depends of \"P.Q\" does not say so [D01]\nsparkflow: 1 errors, 0 warnings\n",
        ..SILENT
    },
    // and as itself from inside
    Case {
        on_spec: false,
        globals: &[(0, Mode::Input)],
        pairs: &[(B, None), (B, A), (B, X)],
        depends: 0b0000_1100_0010_1001,
        ..SILENT
    },
    // an output that is not on the left has its D01 at the aspect
    Case {
        globals: &[(1, Mode::Output)],
        keeps: 0b0101,
        depends: 0b0000_1110_0000_0001,
        text: "f:9:1: error: \"P.Y\" depends on \"A\" but Depends of \"P.Q\" does not say so [D01]\nf:9:1: error: output \"P.Y\" is missing [D03]\nsparkflow: 2 errors, 0 warnings\n",
        ..SILENT
    },
    // what may be left depends on itself
    Case {
        globals: &[(1, Mode::InOut)],
        pairs: &[(B, None), (B, A), (Y, None), (Y, Y)],
        depends: 0b0000_1100_0000_0001,
        ..SILENT
    },
    Case {
        globals: &[(1, Mode::InOut)],
        pairs: &[(B, None), (B, A), (Y, None), (Y, Y)],
        keeps: 0b0101,
        depends: 0b0000_1100_0000_0001,
        text: "f:24:1: warning: \"P.Y\" does not depend on \"P.Y\" in \"P.Q\" [D02]\nsparkflow: 0 errors, 1 warnings\n",
        ..SILENT
    },
    // nothing returns
    Case {
        globals: &[(1, Mode::InOut)],
        pairs: &[(B, None), (None, A), (Y, None), (None, Y)],
        returns: false,
        depends: 0,
        ..SILENT
    },
    // null on the left is no output, and has no pair
    Case {
        globals: &[(1, Mode::Input)],
        pairs: &[
            (B, None),
            (None, A),
            (B, None),
            (B, None),
            (Y, None),
            (None, B),
        ],
        text: "f:9:1: error: input \"P.Y\" is missing [D03]\nf:21:1: error: \"B\" depends on \"A\" but Depends of \"P.Q\" does not say so [D01]\nf:23:1: error: \"B\" is listed twice as output [D03]\nf:24:1: error: \"B\" is listed twice as output [D03]\nf:25:1: error: \"P.Y\" is no output [D03]\nf:26:1: error: \"B\" is no input [D03]\nsparkflow: 6 errors, 0 warnings\n",
        ..SILENT
    },
    // a pair of what is no output
    Case {
        globals: &[(1, Mode::Input)],
        pairs: &[(B, None), (B, A), (Y, None), (Y, Y)],
        text: "f:23:1: error: \"P.Y\" is no output [D03]\nf:24:1: warning: \"P.Y\" does not depend on \"P.Y\" in \"P.Q\" [D02]\nsparkflow: 1 errors, 1 warnings\n",
        ..SILENT
    },
];

#[test]
fn messages_on_depends(rt: HostRuntime) -> Result<(), Fail> {
    let alloc = rt.alloc();
    let names = vec![in alloc; String::from_str(alloc, "f")?]?;
    for case in &CASES {
        let program = program(alloc, case)?;
        assert!(rt; well_formed(&program));
        assert!(rt; program.bodies.len() == 1);
        let rows = rows(alloc, case)?;
        let mut list = Items::new(alloc);
        let body = program.bodies.at(0);
        append_depends_messages(alloc, &mut list, &program, &rows, BodyNo(0), body)?;
        let list = ordered(list.into_vec())?;
        let text = text_of(alloc, names.as_slice(), list.as_slice())?;
        assert_eq!(rt; text.as_slice(), case.text.as_bytes());
    }
    Ok(())
}
