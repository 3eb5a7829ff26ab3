// The messages on the Global of one body Q.
use crate::samples::{self, Told, line, program, rows};
use core_form::{Body, BodyKind, Contract, GlobalItem, Item, Mode, well_formed};
use global_check::append_global_messages;
use spark_base::{BodyNo, Bytes, ItemNo, Items, NoMemory, ObjectNo, PackageNo, StmtNo};
use spark_messages::{ordered, text_of};
use std::alloc::Global;
use std::test::Fail;

/// The items of the program; contracts name them by their numbers.
const ITEMS: [Item; 5] = [
    samples::S,
    samples::X,
    samples::Y,
    samples::O,
    samples::CLOCK,
];

const S: u32 = 0;

const X: u32 = 1;

const Y: u32 = 2;

const O: u32 = 3;

const CLOCK: u32 = 4;

/// A contract as a table has it: whether it stands on a declaration of a package spec, and its items with their modes. The
/// items stand at lines 11, 12 and so on.
type Listed = (bool, &'static [(u32, Mode)]);

fn contract(alloc: Global, listed: Listed) -> Result<Contract, NoMemory> {
    let (on_spec, items) = listed;
    let mut globals = Items::new(alloc);
    let mut place = 11u32;
    for (item, mode) in items {
        globals.push(GlobalItem {
            item: ItemNo(*item),
            mode: *mode,
            place: line(place),
        })?;
        place = place.wrapping_add(1);
    }
    Ok(Contract {
        globals,
        depends: None,
        derived: false,
        place: line(10),
        global_place: None,
        depends_place: None,
        on_spec,
    })
}

fn contract_if(alloc: Global, listed: Option<Listed>) -> Result<Option<Contract>, NoMemory> {
    match listed {
        Some(listed) => Ok(Some(contract(alloc, listed)?)),
        None => Ok(None),
    }
}

#[derive(Clone, Copy)]
struct Case {
    kind: BodyKind,
    object: Option<ObjectNo>,
    outer: Option<Listed>,
    inner: Option<Listed>,
    told: Told,
    text: &'static str,
}

fn body(alloc: Global, case: &Case) -> Result<Body, NoMemory> {
    Ok(Body {
        name: Bytes::from_slice(alloc, b"P.Q")?,
        place: line(2),
        declared: line(1),
        kind: case.kind,
        package: Some(PackageNo(0)),
        object: case.object,
        formals: Items::new(alloc),
        code: StmtNo(0),
        outer: contract_if(alloc, case.outer)?,
        inner: contract_if(alloc, case.inner)?,
        in_spec: false,
    })
}

const PROCEDURE: Case = Case {
    kind: BodyKind::Procedure,
    object: None,
    outer: None,
    inner: None,
    told: (true, 0, 0, 31),
    text: "sparkflow: 0 errors, 0 warnings\n",
};

const CASES: [Case; 17] = [
    PROCEDURE,
    // seen from outside
    Case {
        outer: Some((true, &[])),
        told: (true, 0b00101, 0b00100, 31),
        text: "f:2:1: error: \"P.S\" is Input in \"P.Q\" but its Global does not list it [G01]\nf:2:1: error: \"P.Y\" is In_Out in \"P.Q\" but its Global does not list it [G01]\nsparkflow: 2 errors, 0 warnings\n",
        ..PROCEDURE
    },
    // and from inside
    Case {
        outer: Some((false, &[])),
        told: (true, 0b00011, 0, 31),
        text: "f:2:1: error: \"P.X\" is Input in \"P.Q\" but its Global does not list it [G01]\nsparkflow: 1 errors, 0 warnings\n",
        ..PROCEDURE
    },
    Case {
        outer: Some((true, &[(S, Mode::Output)])),
        inner: Some((false, &[(X, Mode::Input)])),
        told: (true, 0b00001, 0, 31),
        ..PROCEDURE
    },
    Case {
        outer: Some((true, &[(Y, Mode::Input), (Y, Mode::ProofIn)])),
        told: (true, 0b00100, 0, 31),
        text: "f:2:1: error: \"P.Y\" is Input in \"P.Q\" but its Global does not list it [G01]\nsparkflow: 1 errors, 0 warnings\n",
        ..PROCEDURE
    },
    Case {
        outer: Some((true, &[(CLOCK, Mode::InOut), (Y, Mode::Input)])),
        told: (true, 0, 0b00100, 27),
        text: "f:12:1: error: \"P.Y\" is Input but \"P.Q\" writes it [G02]\nsparkflow: 1 errors, 0 warnings\n",
        ..PROCEDURE
    },
    Case {
        outer: Some((true, &[(Y, Mode::Output)])),
        told: (true, 0, 0b00100, 31),
        text: "f:11:1: error: \"P.Y\" is Output but \"P.Q\" may read its initial value or leave it; it must be In_Out [G03]\nsparkflow: 1 errors, 0 warnings\n",
        ..PROCEDURE
    },
    // it never returns
    Case {
        outer: Some((true, &[(Y, Mode::Output)])),
        told: (false, 0, 0b00100, 31),
        ..PROCEDURE
    },
    // what the row does not speak of is left
    Case {
        outer: Some((true, &[(S, Mode::Output)])),
        told: (true, 0, 0b10011, 0),
        text: "f:11:1: error: \"P.S\" is Output but \"P.Q\" may read its initial value or leave it; it must be In_Out [G03]\nsparkflow: 1 errors, 0 warnings\n",
        ..PROCEDURE
    },
    Case {
        outer: Some((false, &[(X, Mode::InOut)])),
        told: (true, 0, 0b00011, 0),
        text: "f:11:1: warning: \"P.X\" is declared In_Out but \"P.Q\" uses it as Output [G04]\nsparkflow: 0 errors, 1 warnings\n",
        ..PROCEDURE
    },
    Case {
        outer: Some((false, &[(X, Mode::InOut)])),
        told: (true, 0, 0b00001, 2),
        ..PROCEDURE
    },
    Case {
        outer: Some((true, &[(CLOCK, Mode::Input), (Y, Mode::Input)])),
        text: "f:12:1: warning: \"P.Y\" is declared Input but \"P.Q\" uses it as nothing [G04]\nsparkflow: 0 errors, 1 warnings\n",
        ..PROCEDURE
    },
    // a function, by its row and by its Global
    Case {
        kind: BodyKind::Function,
        told: (true, 0, 0b00100, 31),
        text: "f:2:1: error: function \"P.Q\" writes \"P.Y\" [G05]\nsparkflow: 1 errors, 0 warnings\n",
        ..PROCEDURE
    },
    Case {
        kind: BodyKind::Function,
        outer: Some((true, &[(S, Mode::InOut)])),
        told: (true, 0b00001, 0, 31),
        text: "f:2:1: error: function \"P.Q\" writes \"P.S\" [G05]\nf:11:1: warning: \"P.S\" is declared In_Out but \"P.Q\" uses it as Input [G04]\nsparkflow: 1 errors, 1 warnings\n",
        ..PROCEDURE
    },
    // the own object of an operation, and that of others
    Case {
        object: Some(ObjectNo(0)),
        outer: Some((true, &[])),
        told: (true, 0b10000, 0b10000, 31),
        ..PROCEDURE
    },
    Case {
        outer: Some((true, &[])),
        told: (true, 0b10000, 0b10000, 31),
        text: "f:2:1: error: \"P.S\" is In_Out in \"P.Q\" but its Global does not list it [G01]\nsparkflow: 1 errors, 0 warnings\n",
        ..PROCEDURE
    },
    Case {
        object: Some(ObjectNo(0)),
        outer: Some((false, &[(O, Mode::Input)])),
        told: (true, 0, 0b10000, 31),
        text: "f:11:1: error: \"Signal\" is Input but \"P.Q\" writes it [G02]\nsparkflow: 1 errors, 0 warnings\n",
        ..PROCEDURE
    },
];

#[test]
fn messages_on_globals(rt: HostRuntime) -> Result<(), Fail> {
    let alloc = rt.alloc();
    let names = vec![in alloc; String::from_str(alloc, "f")?]?;
    for case in &CASES {
        let items = Items::from_vec(Vec::from_array(alloc, ITEMS)?);
        let bodies = Items::from_vec(vec![in alloc; body(alloc, case)?]?);
        let program = program(alloc, items, bodies)?;
        assert!(rt; well_formed(&program));
        assert!(rt; program.bodies.len() == 1);
        let rows = rows(alloc, case.told)?;
        let mut list = Items::new(alloc);
        let body = program.bodies.at(0);
        append_global_messages(alloc, &mut list, &program, &rows, BodyNo(0), body)?;
        let list = ordered(list.into_vec())?;
        let text = text_of(alloc, names.as_slice(), list.as_slice())?;
        assert_eq!(rt; text.as_slice(), case.text.as_bytes());
    }
    Ok(())
}
