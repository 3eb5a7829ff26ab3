use ada_tree::{ExprKind, ExprNode, Units};
use name_findings::Findings;
use name_keys::KeyTable;
use name_marks::{read_mark, read_part_mark, read_unit, read_use};
use scope_table::{Open, ScopeTable};
use seen_names::{Entity, Place, Shown, Tables, What};
use seen_types::{ExprType, INTEGER, Seen, Shape, TypeTable};
use spark_base::{DeclNo, ExprNo, FileNo, Items, Name, Pos, Span, TypeNo};
use spark_messages::Code;
use std::alloc::Global;
use std::test::Fail;
use use_table::{Member, UseTable};

const OUTSIDE: Place = Place {
    home: None,
    unit: None,
    in_function: false,
};

/// A node of a name in line 1, at the column of its number from 1.
fn node(
    alloc: Global,
    units: &mut Units,
    kind: ExprKind,
    word: &[u8],
    prefix: Option<ExprNo>,
) -> Result<ExprNo, Fail> {
    let number = u32::try_from(units.exprs.len()).unwrap_or(u32::MAX);
    let at = Pos {
        line: 1,
        col: number.saturating_add(1),
    };
    let mut exprs = Items::new(alloc);
    if let Some(prefix) = prefix {
        exprs.push(prefix)?;
    }
    units.exprs.push(ExprNode {
        span: Span {
            file: FileNo(0),
            from: at,
            to: at,
        },
        kind,
        name: Some(Name::new(alloc, word)?),
        exprs,
    })?;
    Ok(ExprNo(number))
}

fn shown(decl: u32, what: What) -> Shown {
    Shown {
        decl: Some(DeclNo(decl)),
        region: 0,
        what,
    }
}

/// A package P with a type T in its visible part and a protected type L, and an object X outside.
fn some_tables(alloc: Global) -> Result<Tables, Fail> {
    let mut tables = Tables {
        keys: KeyTable::new(alloc),
        opens: ScopeTable::new(alloc),
        params: ScopeTable::new(alloc),
        members: UseTable::new(alloc),
        operations: UseTable::new(alloc),
        types: TypeTable::new(alloc),
        callables: Items::new(alloc),
    };
    for key in ["p", "t", "l", "x"] {
        let _ = tables.keys.add(key.as_bytes().to_vec(alloc)?)?;
    }
    tables.types.add(Seen {
        first: TypeNo(0),
        shape: Shape::Task,
    })?;
    tables.opens.declare(Open {
        key: 0,
        shown: shown(0, What::Package(0)),
    })?;
    tables.opens.declare(Open {
        key: 3,
        shown: shown(3, What::Other),
    })?;
    let mark = |decl: u32, t: TypeNo| Member {
        shown: shown(decl, What::Mark(Some(t))),
        is_visible: true,
    };
    let _ = tables.members.declare(alloc, 0, 1, mark(1, INTEGER))?;
    let _ = tables.members.declare(alloc, 0, 2, mark(2, TypeNo(0)))?;
    Ok(tables)
}

/// Names, and where each is refused, if it is: as a mark, and as a name in a use clause.
#[test]
fn marks_and_packages(rt: HostRuntime) -> Result<(), Fail> {
    let alloc = rt.alloc();
    let tables = some_tables(alloc)?;
    let rows = [
        ("P", "", Some(1), None),
        ("P", "T", None, Some(2)),
        ("P", "X", Some(2), Some(2)),
        ("X", "T", Some(2), Some(2)),
        ("Q", "T", Some(1), Some(1)),
        ("X", "", Some(1), Some(1)),
    ];
    for (first, second, as_mark, as_use) in rows {
        let mut units = Units::new(alloc);
        let mut e = node(
            alloc,
            &mut units,
            ExprKind::Identifier,
            first.as_bytes(),
            None,
        )?;
        if second.len() > 0 {
            e = node(
                alloc,
                &mut units,
                ExprKind::Selected,
                second.as_bytes(),
                Some(e),
            )?;
        }
        let mut found = Findings::new(alloc, 2)?;
        let _ = read_mark(alloc, &units, &tables, OUTSIDE, &mut found, e)?;
        assert_eq!(rt;
            found.first().map(|f| f.at.col),
            as_mark,
            "{first}.{second}"
        );
        let mut found = Findings::new(alloc, 2)?;
        let _ = read_use(alloc, &units, &tables, OUTSIDE, &mut found, e)?;
        assert_eq!(rt; found.first().map(|f| f.at.col), as_use, "{first}.{second}");
    }
    Ok(())
}

#[test]
fn a_task_type_is_no_mark_of_a_part(rt: HostRuntime) -> Result<(), Fail> {
    let alloc = rt.alloc();
    let tables = some_tables(alloc)?;
    let mut units = Units::new(alloc);
    let p = node(alloc, &mut units, ExprKind::Identifier, b"p", None)?;
    let l = node(alloc, &mut units, ExprKind::Selected, b"L", Some(p))?;
    let mut found = Findings::new(alloc, 2)?;
    let of = read_part_mark(alloc, &units, &tables, OUTSIDE, &mut found, l)?;
    let is_task = match of {
        Some(ExprType::Of(t)) => t == TypeNo(0),
        _ => false,
    };
    assert!(rt; is_task);
    let fault = found.first().expect(&rt, "it is refused");
    assert_eq!(rt; fault.code, Code::N10);
    assert_eq!(rt; fault.at.col, 2);
    let (decls, _) = found.into_answers();
    assert_eq!(rt;
        decls.as_slice(),
        [Some(DeclNo(0)), Some(DeclNo(2))].as_slice()
    );
    let mut found = Findings::new(alloc, 2)?;
    let is_package = match read_unit(alloc, &units, &tables, OUTSIDE, &mut found, p)? {
        Entity::Package(0) => true,
        _ => false,
    };
    assert!(rt; is_package);
    Ok(())
}
