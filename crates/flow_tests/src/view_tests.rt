// A function with a formal of two leaves, one of mode out, and a result; and the row of a body by itself.
ghost use Rattle.std.specs.Prelude.{◌≡◌, IfOk, length};
ghost use Rattle.summary_rows.specs.Layout.{AreRows, IsIncreasing, IsLayout, outer_of};

use callee_view::{name_in_call, names_in_call, row_known, signature_of};
use core_form::{
    Body, BodyKind, CoreStmt, Formal, Home, Leaf, ParamMode, Part, Program, Sharing, States, Var,
    well_formed,
};
use flow_bits::Row;
use spark_base::{BodyNo, Bytes, FileNo, Items, LeafNo, NoMemory, Pos, Span, StmtNo, VarNo};
use std::alloc::Global;
use std::test::Fail;
use summary_rows::{Layout, Rows};

const NOWHERE: Span = Span {
    file: FileNo(0),
    from: Pos { line: 1, col: 1 },
    to: Pos { line: 1, col: 1 },
};

fn var(alloc: Global, home: Home, from: u32, count: u32) -> Var {
    Var {
        name: Bytes::new(alloc),
        place: NOWHERE,
        home,
        part: Part::Inner,
        state: None,
        sharing: Sharing::Plain,
        from: LeafNo(from),
        count,
        assigned: false,
    }
}

fn leaf(alloc: Global, var: u32) -> Leaf {
    Leaf {
        name: Bytes::new(alloc),
        var: VarNo(var),
        cells: 1,
    }
}

fn body(alloc: Global, formals: Items<Formal>) -> Body {
    Body {
        name: Bytes::new(alloc),
        place: NOWHERE,
        declared: NOWHERE,
        kind: BodyKind::Function,
        package: None,
        object: None,
        formals,
        code: StmtNo(0),
        outer: None,
        inner: None,
        in_spec: false,
    }
}

fn formals(alloc: Global) -> Result<Items<Formal>, NoMemory> {
    let two = Formal {
        var: VarNo(2),
        mode: ParamMode::In,
    };
    let out = Formal {
        var: VarNo(1),
        mode: ParamMode::Out,
    };
    Ok(Items::from_vec(vec![in alloc; two, out]?))
}

// The variables stand in another order than they are passed.
fn program(alloc: Global) -> Result<Program, NoMemory> {
    let vars = vec![in alloc;
        var(alloc, Home::Outcome(BodyNo(0)), 0, 1),
        var(alloc, Home::Formal(BodyNo(0)), 1, 1),
        var(alloc, Home::Formal(BodyNo(0)), 2, 2),
    ]?;
    let leaves = vec![in alloc;
        leaf(alloc, 0),
        leaf(alloc, 1),
        leaf(alloc, 2),
        leaf(alloc, 2),
    ]?;
    Ok(Program {
        leaves: Items::from_vec(leaves),
        vars: Items::from_vec(vars),
        items: Items::new(alloc),
        bodies: Items::from_vec(vec![in alloc; body(alloc, formals(alloc)?)]?),
        packages: Items::new(alloc),
        states: States {
            list: Items::new(alloc),
        },
        objects: Items::new(alloc),
        tasks: Items::new(alloc),
        order: Items::new(alloc),
        main: None,
        stmts: Items::from_vec(vec![in alloc; CoreStmt::Back]?),
        exprs: Items::new(alloc),
        part_of: Items::new(alloc),
        constituents: Items::new(alloc),
        assignments: Items::new(alloc),
    })
}

#[test]
fn the_formals_and_the_result_are_passed(rt: HostRuntime) -> Result<(), Fail> {
    let program = program(rt.alloc())?;
    assert!(rt; well_formed(&program) && !program.bodies.is_empty());
    let signature = signature_of(rt.alloc(), &program, BodyNo(0))?;
    assert!(rt;
        signature.leaves.as_slice() == [LeafNo(2), LeafNo(3), LeafNo(1), LeafNo(0)].as_slice()
    );
    let passings = signature.passings.as_slice();
    let wanted = [(0, 2, 0), (2, 0, 1), (3, 0, 1u32)];
    assert_eq!(rt; passings.len(), wanted.len());
    for (passing, (first, ins, backs)) in passings.iter().zip(wanted) {
        assert_eq!(rt; passing.first, first);
        assert!(rt; passing.ins == ins && passing.backs == backs, "{first}");
    }
    Ok(())
}

// A frame of three numbers, in which leaf 4 has the number 1; leaves 6 and 2 are passed.
#[test]
fn names_of_a_call(rt: HostRuntime) -> Result<(), Fail> {
    let numbers = [0, 0, 0, 2, 1u32];
    let passed = [LeafNo(6), LeafNo(2)];
    let wanted = [(6, 3), (2, 4), (4, 1), (3, 2), (9, 9u32)];
    for (leaf, name) in wanted {
        assert_eq!(rt;
            name_in_call(&numbers, 3, &passed, LeafNo(leaf)),
            name,
            "{leaf}"
        );
    }
    let names = names_in_call(rt.alloc(), &numbers, 3, &passed, &[LeafNo(4), LeafNo(2)])?;
    assert!(rt; names.as_slice() == [1, 4].as_slice());
    Ok(())
}

// Leaves 2 and 5.
fn every_third(alloc: Global) -> Result<Items<LeafNo>, NoMemory>
    ensures size { IfOk result (λ leaves. length leaves ≡ 2) }
    ensures increasing { IfOk result (λ leaves. IsIncreasing leaves) }
{
    let mut leaves = Items::new(alloc);
    for k in 0..2 {
        leaves.push(LeafNo(3 * k + 2))?;
    }
    Ok(leaves)
}

fn layout(alloc: Global) -> Result<Layout, NoMemory>
    ensures layout { IfOk result (λ l. IsLayout l) }
    ensures bodies { IfOk result (λ l. length l.outer ≡ 1) }
    ensures leaves { IfOk result (λ l. length (outer_of l 0) ≡ 2) }
{
    Layout::new(alloc).with_row(every_third(alloc)?)
}

// The body returns, reads and keeps leaf 2, and writes leaf 5, which depends on leaf 2.
fn rows(alloc: Global) -> Result<Rows, NoMemory>
    ensures rows { IfOk result (λ rows. AreRows rows) }
    ensures bodies { IfOk result (λ rows. length rows.layout.outer ≡ 1) }
    ensures leaves { IfOk result (λ rows. length (outer_of rows.layout 0) ≡ 2) }
{
    let mut rows = Rows::new(alloc, &layout(alloc)?)?;
    rows.join(BodyNo(0), &[1, 0b01, 0b10, 0b01, 0b11]);
    Ok(rows)
}

fn is_only(row: &Row, place: u32) -> bool {
    row.size() == 2 && (0..2).all(|i| i < row.size() && row.has(i) == (i == place))
}

#[test]
fn what_a_row_tells_by_places(rt: HostRuntime) -> Result<(), Fail> {
    let rows = rows(rt.alloc())?;
    let known = row_known(rt.alloc(), &rows, BodyNo(0), vec![in rt.alloc(); 0, 1]?)?;
    assert!(rt; known.returns);
    assert!(rt; is_only(&known.reads, 0) && is_only(&known.writes, 1) && is_only(&known.keeps, 0));
    let depends = &known.depends;
    for (from, to) in [(0, 0), (0, 1), (1, 0), (1, 1u32)] {
        assert!(rt; from < depends.size() && to < depends.size());
        assert_eq!(rt; depends.has(from, to), from == 0, "{to}");
    }
    Ok(())
}
