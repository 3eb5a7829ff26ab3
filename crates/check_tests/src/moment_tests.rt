// A package with a variable of two leaves and one of one, and the clock.
ghost use Rattle.std.specs.Prelude.{◌≡◌, IfOk, length};
ghost use Rattle.core_form.specs.Fine.{IsWellFormed};

use crate::samples::{leaf_set, line};
use core_form::{Home, Leaf, Package, Part, Program, Sharing, States, Var, well_formed};
use flow_bits::Row;
use spark_base::{Bytes, Items, LeafNo, NoMemory, PackageNo, VarNo};
use std::alloc::Global;
use std::test::Fail;
use unset_moments::{Ending, moments};

/// Home, sharing, first leaf, count of leaves.
const VARS: [(Home, Sharing, u32, u32); 3] = [
    (Home::Package(PackageNo(0)), Sharing::Plain, 0, 2),
    (Home::Package(PackageNo(0)), Sharing::Atomic, 2, 1),
    (Home::Clock, Sharing::ClockTime, 3, 1),
];

/// The variables of the leaves.
const LEAVES: [u32; 4] = [0, 0, 1, 2];

fn vars(alloc: Global) -> Result<Items<Var>, NoMemory> {
    let mut vars = Items::new(alloc);
    for (home, sharing, from, count) in &VARS {
        vars.push(Var {
            name: Bytes::new(alloc),
            place: line(1),
            home: *home,
            part: Part::Visible,
            state: None,
            sharing: *sharing,
            from: LeafNo(*from),
            count: *count,
            assigned: false,
        })?;
    }
    Ok(vars)
}

fn leaves(alloc: Global) -> Result<Items<Leaf>, NoMemory> {
    let mut leaves = Items::new(alloc);
    for var in &LEAVES {
        leaves.push(Leaf {
            name: Bytes::new(alloc),
            var: VarNo(*var),
            cells: 1,
        })?;
    }
    Ok(leaves)
}

fn package(alloc: Global) -> Package {
    Package {
        name: Bytes::new(alloc),
        place: line(1),
        has_states: false,
        initial: None,
        initial_place: None,
    }
}

fn program(alloc: Global) -> Result<Program, NoMemory> {
    Ok(Program {
        leaves: leaves(alloc)?,
        vars: vars(alloc)?,
        items: Items::new(alloc),
        bodies: Items::new(alloc),
        packages: Items::from_vec(vec![in alloc; package(alloc)]?),
        states: States {
            list: Items::new(alloc),
        },
        objects: Items::new(alloc),
        tasks: Items::new(alloc),
        order: Items::new(alloc),
        main: None,
        stmts: Items::new(alloc),
        exprs: Items::new(alloc),
        part_of: Items::new(alloc),
        constituents: Items::new(alloc),
        assignments: Items::new(alloc),
    })
}

/// What two items declare, may leave unassigned and may keep, and what may be unassigned before them, between them and behind them, the first
/// leaf being the lowest bit.
type Case = ([u64; 3], [u64; 3], [u64; 3]);

const CASES: [Case; 5] = [
    // the first declares all, and assigns all or one
    ([0b0111, 0, 0b1000], [0, 0, 0b1111], [0b0111, 0, 0]),
    (
        [0b0111, 0b0110, 0b1000],
        [0, 0, 0b1111],
        [0b0111, 0b0110, 0b0110],
    ),
    // the second assigns what the first left
    (
        [0b0111, 0b0110, 0b1000],
        [0, 0, 0b1011],
        [0b0111, 0b0110, 0b0010],
    ),
    // each declares its own
    (
        [0b0011, 0b0001, 0b1100],
        [0b0100, 0b0100, 0b1011],
        [0b0111, 0b0101, 0b0101],
    ),
    // the first does not return
    (
        [0b0011, 0, 0],
        [0b0100, 0b0100, 0b1011],
        [0b0111, 0, 0b0100],
    ),
];

fn ending(alloc: Global, program: &Program, bits: &[u64; 3]) -> Result<Ending, NoMemory>
    ensures declared { IfOk result (λ e. length e.declared ≡ length program.now.leaves) }
    ensures unset { IfOk result (λ e. length e.unset ≡ length program.now.leaves) }
    ensures kept { IfOk result (λ e. length e.kept ≡ length program.now.leaves) }
{
    Ok(Ending {
        declared: leaf_set(alloc, program, bits[0])?,
        unset: leaf_set(alloc, program, bits[1])?,
        kept: leaf_set(alloc, program, bits[2])?,
    })
}

// The words of what may be unassigned at each moment.
fn told(alloc: Global, program: &Program, case: &Case) -> Result<Vec<Row>, NoMemory>
    requires { IsWellFormed program.now }
{
    let mut items = Vec::new(alloc);
    items.push(ending(alloc, program, &case.0)?)?;
    items.push(ending(alloc, program, &case.1)?)?;
    moments(alloc, program, items.as_slice())
}

fn has(rows: &[Row], n: usize, leaf: u32) -> bool {
    rows.get(n)
        .is_some_and(|row| leaf < row.size() && row.has(leaf))
}

#[test]
fn moments_of_two_items(rt: HostRuntime) -> Result<(), Fail> {
    let alloc = rt.alloc();
    let program = program(alloc)?;
    assert!(rt; well_formed(&program));
    for case in &CASES {
        let rows = told(alloc, &program, case)?;
        for n in 0..3 {
            for leaf in 0..4 {
                let found = has(rows.as_slice(), n, leaf);
                assert_eq!(rt; found, case.2[n] >> leaf & 1 == 1);
            }
        }
    }
    Ok(())
}
