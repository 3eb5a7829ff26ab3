// Packages P and Q: of P a record X in its state S, a visible variable Y, an object O and a state E without variables; of Q a visible
// variable Z; the clock. Bodies: the elaborations of P and Q in this order, the main, and a task T.
ghost use Rattle.std.specs.Prelude.{◌≡◌, ◌+◌, All, IfOk, length};
ghost use Rattle.summary_rows.specs.Layout.{AreRows};

use crate::samples::{first_leaves, leaf_set, line};
use core_form::{
    Body, BodyKind, Contract, CoreStmt, GlobalItem, Home, InitialItem, Item, Leaf, Mode, Object,
    Package, Part, Program, Sharing, StateDef, States, TaskUnit, Var, well_formed,
};
use flow_bits::Row;
use initializes_check::append_initial_messages;
use spark_base::{
    BodyNo, Bytes, ItemNo, Items, LeafNo, NoMemory, ObjectNo, PackageNo, StmtNo, VarNo,
};
use spark_messages::{ordered, text_of};
use std::alloc::Global;
use std::test::Fail;
use summary_rows::{Layout, Rows};

const P: Home = Home::Package(PackageNo(0));

const Q: Home = Home::Package(PackageNo(1));

/// Name, home, part, sharing, first leaf, count of leaves.
const VARS: [(&str, Home, Part, Sharing, u32, u32); 6] = [
    ("P.X", P, Part::Hidden, Sharing::Plain, 0, 2),
    ("P.Y", P, Part::Visible, Sharing::Atomic, 2, 1),
    ("P.O", P, Part::Visible, Sharing::Plain, 3, 1),
    ("C", P, Part::Visible, Sharing::Component(ObjectNo(0)), 3, 1),
    ("Q.Z", Q, Part::Visible, Sharing::Plain, 4, 1),
    ("Clock", Home::Clock, Part::Inner, Sharing::ClockTime, 5, 1),
];

/// The names and the variables of the leaves.
const LEAVES: [(&str, u32); 6] = [
    ("P.X.A", 0),
    ("P.X.B", 0),
    ("P.Y", 1),
    ("P.O.C", 3),
    ("Q.Z", 4),
    ("Clock", 5),
];

const ITEMS: [Item; 2] = [Item::State(0), Item::Whole(VarNo(1))];

const S: u32 = 0;

const Y: u32 = 1;

/// The name, the line, the kind and the package of each body.
const BODIES: [(&str, u32, BodyKind, Option<PackageNo>); 4] = [
    ("P", 21, BodyKind::Elaboration, Some(PackageNo(0))),
    ("Q", 22, BodyKind::Elaboration, Some(PackageNo(1))),
    ("Main", 23, BodyKind::Main, None),
    ("P.T_Type", 24, BodyKind::Task, Some(PackageNo(0))),
];

fn bytes(alloc: Global, text: &str) -> Result<Bytes, NoMemory> {
    Bytes::from_slice(alloc, text.as_bytes())
}

fn vars(alloc: Global) -> Result<Items<Var>, NoMemory> {
    let mut vars = Items::new(alloc);
    for (name, home, part, sharing, from, count) in &VARS {
        vars.push(Var {
            name: bytes(alloc, name)?,
            place: line(1),
            home: *home,
            part: *part,
            state: None,
            sharing: *sharing,
            from: LeafNo(*from),
            count: *count,
            assigned: false,
        })?;
    }
    Ok(vars)
}

fn leaves(alloc: Global) -> Result<Items<Leaf>, NoMemory> {
    let mut leaves = Items::new(alloc);
    for (name, var) in &LEAVES {
        leaves.push(Leaf {
            name: bytes(alloc, name)?,
            var: VarNo(*var),
            cells: 1,
        })?;
    }
    Ok(leaves)
}

fn state(alloc: Global, name: &str, variables: Vec<VarNo>) -> Result<StateDef, NoMemory> {
    Ok(StateDef {
        name: bytes(alloc, name)?,
        package: PackageNo(0),
        place: line(1),
        variables: Items::from_vec(variables),
        refined: true,
    })
}

fn states(alloc: Global) -> Result<States, NoMemory> {
    let some = state(alloc, "P.S", vec![in alloc; VarNo(0)]?)?;
    let none = state(alloc, "P.E", Vec::new(alloc))?;
    Ok(States {
        list: Items::from_vec(vec![in alloc; some, none]?),
    })
}

fn object(alloc: Global) -> Result<Object, NoMemory> {
    Ok(Object {
        name: bytes(alloc, "P.O")?,
        unit: bytes(alloc, "O")?,
        place: line(1),
        var: VarNo(2),
    })
}

/// The items of the Initializes of P, at lines 11, 12 and so on.
fn initial(alloc: Global, items: &[u32]) -> Result<Items<InitialItem>, NoMemory> {
    let mut initial = Items::new(alloc);
    let mut place = 11u32;
    for item in items {
        initial.push(InitialItem {
            item: ItemNo(*item),
            place: line(place),
        })?;
        place = place.wrapping_add(1);
    }
    Ok(initial)
}

fn package(alloc: Global, name: &str) -> Result<Package, NoMemory> {
    Ok(Package {
        name: bytes(alloc, name)?,
        place: line(1),
        has_states: true,
        initial: None,
        initial_place: None,
    })
}

fn packages(alloc: Global, case: &Case) -> Result<Items<Package>, NoMemory> {
    let mut first = package(alloc, "P")?;
    if let Some(items) = case.initial {
        first.initial = Some(initial(alloc, items)?);
    }
    if case.written {
        first.initial_place = Some(line(10));
    }
    let second = package(alloc, "Q")?;
    Ok(Items::from_vec(vec![in alloc; first, second]?))
}

fn inputs(alloc: Global, items: &[(u32, Mode)]) -> Result<Contract, NoMemory> {
    let mut globals = Items::new(alloc);
    for (item, mode) in items {
        globals.push(GlobalItem {
            item: ItemNo(*item),
            mode: *mode,
            place: line(1),
        })?;
    }
    Ok(Contract {
        globals,
        depends: None,
        derived: false,
        place: line(1),
        global_place: None,
        depends_place: None,
        on_spec: true,
    })
}

fn bodies(alloc: Global, case: &Case) -> Result<Items<Body>, NoMemory> {
    let mut bodies = Items::new(alloc);
    for (name, place, kind, package) in &BODIES {
        bodies.push(Body {
            name: bytes(alloc, name)?,
            place: line(*place),
            declared: line(1),
            kind: *kind,
            package: *package,
            object: None,
            formals: Items::new(alloc),
            code: StmtNo(0),
            outer: match (case.global, kind) {
                (Some(items), BodyKind::Main) => Some(inputs(alloc, items)?),
                _ => None,
            },
            inner: None,
            in_spec: false,
        })?;
    }
    Ok(bodies)
}

fn task(alloc: Global) -> Result<TaskUnit, NoMemory> {
    Ok(TaskUnit {
        name: bytes(alloc, "P.T")?,
        place: line(1),
        body: BodyNo(3),
    })
}

/// What differs: the items of P's Initializes, and whether it is written; the Global of the main; what each body reads and writes by its row, and
/// what may be unassigned at each moment, the first leaf being the lowest bit.
#[derive(Clone, Copy)]
struct Case {
    initial: Option<&'static [u32]>,
    written: bool,
    global: Option<&'static [(u32, Mode)]>,
    touched: [(u64, u64); 4],
    moments: [u64; 3],
    text: &'static str,
}

fn program(alloc: Global, case: &Case) -> Result<Program, NoMemory> {
    Ok(Program {
        leaves: leaves(alloc)?,
        vars: vars(alloc)?,
        items: Items::from_vec(Vec::from_array(alloc, ITEMS)?),
        bodies: bodies(alloc, case)?,
        packages: packages(alloc, case)?,
        states: states(alloc)?,
        objects: Items::from_vec(vec![in alloc; object(alloc)?]?),
        tasks: Items::from_vec(vec![in alloc; task(alloc)?]?),
        order: Items::from_vec(vec![in alloc; BodyNo(0), BodyNo(1)]?),
        main: Some(BodyNo(2)),
        stmts: Items::from_vec(vec![in alloc; CoreStmt::Back]?),
        exprs: Items::new(alloc),
        part_of: Items::new(alloc),
        constituents: Items::new(alloc),
        assignments: Items::new(alloc),
    })
}

fn rows(alloc: Global, case: &Case) -> Result<Rows, NoMemory>
    ensures rows { IfOk result (λ rows. AreRows rows) }
    ensures bodies { IfOk result (λ rows. length rows.layout.outer ≡ 4) }
{
    let layout = Layout::new(alloc)
        .with_row(first_leaves(alloc, 6)?)?
        .with_row(first_leaves(alloc, 6)?)?
        .with_row(first_leaves(alloc, 6)?)?
        .with_row(first_leaves(alloc, 6)?)?;
    let mut rows = Rows::new(alloc, &layout)?;
    let [p, q, main, task] = case.touched;
    rows.join(BodyNo(0), &[1, p.0, p.1, 0, 0]);
    rows.join(BodyNo(1), &[1, q.0, q.1, 0, 0]);
    rows.join(BodyNo(2), &[1, main.0, main.1, 0, 0]);
    rows.join(BodyNo(3), &[1, task.0, task.1, 0, 0]);
    Ok(rows)
}

fn moments(alloc: Global, program: &Program, case: &Case) -> Result<Vec<Row>, NoMemory>
    ensures count { IfOk result (λ moments. length moments.items ≡ length program.now.order + 1) }
    ensures sizes { IfOk result (λ moments. All (λ row. length row ≡ length program.now.leaves) moments.items) }
{
    let mut moments = vec![in alloc; leaf_set(alloc, program, case.moments[0])?]?;
    for n in 0..program.order.len() {
        let bits = case.moments.get(n.saturating_add(1)).copied().unwrap_or(0);
        moments.push(leaf_set(alloc, program, bits)?)?;
    }
    Ok(moments)
}

const SILENT: Case = Case {
    initial: None,
    written: false,
    global: None,
    touched: [(0, 0), (0, 0), (0, 0), (0, 0)],
    moments: [0, 0, 0],
    text: "sparkflow: 0 errors, 0 warnings\n",
};

const CASES: [Case; 9] = [
    // each in its own package, what is assigned before
    Case {
        touched: [
            (0, 0b001111),
            (0b000111, 0b010000),
            (0b011111, 0b011111),
            (0b000011, 0b011111),
        ],
        moments: [0b011111, 0b010000, 0],
        ..SILENT
    },
    // behind the items of P, not of Q
    Case {
        initial: Some(&[S, Y]),
        written: true,
        moments: [0, 0b000010, 0b000100],
        text: "f:11:1: error: \"P.S\" is listed in Initializes but might not be assigned after elaboration [I01]\nsparkflow: 1 errors, 0 warnings\n",
        ..SILENT
    },
    Case {
        initial: Some(&[]),
        written: true,
        text: "f:10:1: warning: \"P.S\" is assigned by elaboration but not listed [I02]\nf:10:1: warning: \"P.Y\" is assigned by elaboration but not listed [I02]\nsparkflow: 0 errors, 2 warnings\n",
        ..SILENT
    },
    Case {
        initial: Some(&[Y]),
        written: true,
        moments: [0, 0b000001, 0],
        ..SILENT
    },
    // it is not written
    Case {
        initial: Some(&[]),
        ..SILENT
    },
    Case {
        touched: [(0, 0b010000), (0, 0b110001), (0, 0), (0, 0)],
        text: "f:21:1: error: elaboration of \"P\" writes \"Q.Z\" [I03]\nf:22:1: error: elaboration of \"Q\" writes \"Clock\" [I03]\nf:22:1: error: elaboration of \"Q\" writes \"P.X.A\" [I03]\nsparkflow: 3 errors, 0 warnings\n",
        ..SILENT
    },
    Case {
        touched: [(0b000011, 0), (0b000110, 0), (0, 0), (0, 0)],
        moments: [0b000001, 0b000100, 0],
        text: "f:21:1: error: \"P.X.A\" might not be assigned by elaboration but \"P\" reads it [I04]\nf:22:1: error: \"P.Y\" might not be assigned by elaboration but \"Q\" reads it [I04]\nsparkflow: 2 errors, 0 warnings\n",
        ..SILENT
    },
    Case {
        touched: [(0, 0), (0, 0), (0b000001, 0), (0b000010, 0)],
        moments: [0, 0, 0b000011],
        text: "f:23:1: error: \"P.X.A\" might not be assigned by elaboration but \"Main\" reads it [I04]\nf:24:1: error: \"P.X.B\" might not be assigned by elaboration but \"P.T\" reads it [I04]\nsparkflow: 2 errors, 0 warnings\n",
        ..SILENT
    },
    // by its Global, and not by its row
    Case {
        global: Some(&[(S, Mode::Output), (Y, Mode::Input)]),
        touched: [(0, 0), (0, 0), (0b000001, 0), (0, 0)],
        moments: [0, 0, 0b000111],
        text: "f:23:1: error: \"P.Y\" might not be assigned by elaboration but \"Main\" reads it [I04]\nsparkflow: 1 errors, 0 warnings\n",
        ..SILENT
    },
];

fn told(alloc: Global, case: &Case) -> Result<Option<Bytes>, NoMemory> {
    let program = program(alloc, case)?;
    let rows = rows(alloc, case)?;
    if !well_formed(&program) || program.bodies.len() > rows.layout.outer.len() {
        return Ok(None);
    }
    let moments = moments(alloc, &program, case)?;
    let mut list = Items::new(alloc);
    append_initial_messages(alloc, &mut list, &program, &rows, moments.as_slice())?;
    let names = vec![in alloc; String::from_str(alloc, "f")?]?;
    let list = ordered(list.into_vec())?;
    let text = text_of(alloc, names.as_slice(), list.as_slice())?;
    Ok(Some(text))
}

#[test]
fn messages_on_elaboration(rt: HostRuntime) -> Result<(), Fail> {
    let alloc = rt.alloc();
    for case in &CASES {
        let text = told(alloc, case)?.unwrap_or(Bytes::new(alloc));
        assert_eq!(rt; text.as_slice(), case.text.as_bytes());
    }
    Ok(())
}
