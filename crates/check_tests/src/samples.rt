// A package P with a record X and an object O, both constituents of its state S, a variable Y without a state, and the clock.
ghost use Rattle.std.specs.Prelude.{◌≡◌, IfOk, length};
ghost use Rattle.summary_rows.specs.Layout.{AreRows, IsIncreasing};

use core_form::{
    Body, CoreStmt, Home, Item, Leaf, Object, Package, Part, Program, Sharing, StateDef, States,
    Var,
};
use flow_bits::Row;
use spark_base::{
    BodyNo, Bytes, FileNo, Items, LeafNo, NoMemory, ObjectNo, PackageNo, Pos, Span, VarNo,
};
use std::alloc::Global;
use summary_rows::{Layout, Rows};

pub(crate) const S: Item = Item::State(0);

pub(crate) const X: Item = Item::Whole(VarNo(0));

pub(crate) const Y: Item = Item::Whole(VarNo(1));

pub(crate) const O: Item = Item::Guard(ObjectNo(0));

pub(crate) const CLOCK: Item = Item::Whole(VarNo(5));

pub(crate) fn line(line: u32) -> Span {
    let pos = Pos { line, col: 1 };
    Span {
        file: FileNo(0),
        from: pos,
        to: pos,
    }
}

/// Name, sharing, state, first leaf, count of leaves.
const VARS: [(&str, Sharing, Option<u32>, u32, u32); 6] = [
    ("P.X", Sharing::Plain, Some(0), 0, 2),
    ("P.Y", Sharing::Atomic, None, 2, 1),
    ("P.O", Sharing::Plain, Some(0), 4, 2),
    ("C", Sharing::Component(ObjectNo(0)), None, 4, 1),
    ("D", Sharing::Component(ObjectNo(0)), None, 5, 1),
    ("Ada.Real_Time.Clock_Time", Sharing::ClockTime, None, 3, 1),
];

/// The variables of the leaves.
const LEAVES: [u32; 6] = [0, 0, 1, 5, 3, 4];

fn variables(alloc: Global) -> Result<Items<Var>, NoMemory> {
    let mut vars = Items::new(alloc);
    for (name, sharing, state, from, count) in &VARS {
        vars.push(Var {
            name: Bytes::from_slice(alloc, name.as_bytes())?,
            place: line(1),
            home: if *sharing == Sharing::ClockTime {
                Home::Clock
            } else {
                Home::Package(PackageNo(0))
            },
            part: Part::Hidden,
            state: *state,
            sharing: *sharing,
            from: LeafNo(*from),
            count: *count,
            assigned: false,
        })?;
    }
    Ok(vars)
}

fn leaves(alloc: Global) -> Result<Items<Leaf>, NoMemory> {
    let mut leaves = Items::new(alloc);
    for var in &LEAVES {
        leaves.push(Leaf {
            name: Bytes::new(alloc),
            var: VarNo(*var),
            cells: 1,
        })?;
    }
    Ok(leaves)
}

fn state(alloc: Global) -> Result<StateDef, NoMemory> {
    Ok(StateDef {
        name: Bytes::from_slice(alloc, b"P.S")?,
        package: PackageNo(0),
        place: line(1),
        variables: Items::from_vec(vec![in alloc; VarNo(0), VarNo(2)]?),
        refined: true,
    })
}

fn object(alloc: Global) -> Result<Object, NoMemory> {
    Ok(Object {
        name: Bytes::from_slice(alloc, b"P.O")?,
        unit: Bytes::from_slice(alloc, b"Signal")?,
        place: line(1),
        var: VarNo(2),
    })
}

fn package(alloc: Global) -> Package {
    Package {
        name: Bytes::new(alloc),
        place: line(1),
        has_states: true,
        initial: None,
        initial_place: None,
    }
}

/// The program with these items and these bodies, whose code is one statement that goes on, and with another package without names.
pub(crate) fn program(
    alloc: Global,
    items: Items<Item>,
    bodies: Items<Body>,
) -> Result<Program, NoMemory> {
    Ok(Program {
        leaves: leaves(alloc)?,
        vars: variables(alloc)?,
        items,
        bodies,
        packages: Items::from_vec(vec![in alloc; package(alloc), package(alloc)]?),
        states: States {
            list: Items::from_vec(vec![in alloc; state(alloc)?]?),
        },
        objects: Items::from_vec(vec![in alloc; object(alloc)?]?),
        tasks: Items::new(alloc),
        order: Items::new(alloc),
        main: None,
        stmts: Items::from_vec(vec![in alloc; CoreStmt::Back]?),
        exprs: Items::new(alloc),
        part_of: Items::new(alloc),
        constituents: Items::new(alloc),
        assignments: Items::new(alloc),
    })
}

/// The program without items and bodies.
pub(crate) fn bare(alloc: Global) -> Result<Program, NoMemory> {
    program(alloc, Items::new(alloc), Items::new(alloc))
}

/// What the row of the body tells: whether it returns, and the leaves that it reads, writes and keeps, the first leaf being the
/// lowest bit: two of X, Y, the clock and C. It does not speak of D.
pub(crate) type Told = (bool, u64, u64, u64);

/// So many leaves, from the first on.
pub(crate) fn first_leaves(alloc: Global, count: u32) -> Result<Items<LeafNo>, NoMemory>
    ensures size { IfOk result (λ leaves. length leaves ≡ count) }
    ensures increasing { IfOk result (λ leaves. IsIncreasing leaves) }
{
    let mut leaves = Items::new(alloc);
    for k in 0..count {
        leaves.push(LeafNo(k))?;
    }
    Ok(leaves)
}

/// The rows of one body.
pub(crate) fn rows(alloc: Global, told: Told) -> Result<Rows, NoMemory>
    ensures rows { IfOk result (λ rows. AreRows rows) }
    ensures bodies { IfOk result (λ rows. length rows.layout.outer ≡ 1) }
{
    let (may_return, reads, writes, keeps) = told;
    let layout = Layout::new(alloc).with_row(first_leaves(alloc, 5)?)?;
    let mut rows = Rows::new(alloc, &layout)?;
    rows.join(BodyNo(0), &[may_return as u64, reads, writes, keeps, 0]);
    Ok(rows)
}

/// A set of leaves of the program: those whose bit is set, the first leaf being the lowest.
pub(crate) fn leaf_set(alloc: Global, program: &Program, bits: u64) -> Result<Row, NoMemory>
    ensures { IfOk result (λ row. length row ≡ length program.now.leaves) }
{
    let count = u32::try_from(program.leaves.len()).map_err(|_| NoMemory)?;
    let mut row = Row::new(alloc, count)?;
    for leaf in 0..count {
        if bits.checked_shr(leaf).unwrap_or(0) & 1 == 1 {
            row.add(leaf);
        }
    }
    Ok(row)
}
