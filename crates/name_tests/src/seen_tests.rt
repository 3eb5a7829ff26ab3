use ada_forms::Property;
use name_findings::Mention;
use name_keys::{KeyMap, KeyTable};
use scope_table::{Open, ScopeTable};
use seen_names::{
    Application, Callable, Entity, Gift, Place, Role, Selection, Shown, Subprogram, Tables, Value,
    What, is_unit_name, of_shown, selected, type_in,
};
use seen_types::{BOOLEAN, ExprType, FieldSeen, INTEGER, Seen, Shape, TypeTable};
use spark_base::{DeclNo, ExprNo, Items, Name, Pos, TypeNo};
use static_meanings::{booleans, integers};
use std::alloc::Global;
use std::test::Fail;
use use_table::{Member, UseTable};

const OUTSIDE: Place = Place {
    home: None,
    unit: None,
    in_function: false,
};

fn at(line: u32) -> Mention {
    Mention {
        at: Pos { line, col: 1 },
        expr: ExprNo(line),
    }
}

fn object(decl: u32, region: usize, role: Role, of: u32) -> Shown {
    Shown {
        decl: Some(DeclNo(decl)),
        region,
        what: What::Object {
            role,
            of: Some(ExprType::Of(TypeNo(of))),
            value: Value::NotStatic,
        },
    }
}

/// The names x, y, f and lock; the types Boolean and Integer, a record 2 with the component y, an array 3 of Integer over
/// Boolean, a protected type 4 of unit 0; f without formals gives an array.
fn empty_tables(alloc: Global) -> Result<Tables, Fail> {
    let mut keys = KeyTable::new(alloc);
    for key in ["x", "y", "f", "lock"] {
        let _ = keys.add(key.as_bytes().to_vec(alloc)?)?;
    }
    let mut types = TypeTable::new(alloc);
    let mut fields = KeyMap::new(alloc);
    let _ = fields.add(
        1,
        FieldSeen {
            decl: DeclNo(7),
            of: BOOLEAN,
        },
    )?;
    let array = Shape::Array {
        index: BOOLEAN,
        of: INTEGER,
    };
    add(&mut types, Shape::Enumeration(booleans()))?;
    add(&mut types, Shape::Integers(integers()))?;
    add(&mut types, Shape::Fields(fields))?;
    add(&mut types, array)?;
    add(&mut types, Shape::Protected(0))?;
    let mut callables = Items::new(alloc);
    callables.push(Callable {
        form: Subprogram::Function,
        formals: KeyMap::new(alloc),
        result: Some(TypeNo(3)),
    })?;
    callables.push(Callable {
        form: Subprogram::Procedure,
        formals: KeyMap::new(alloc),
        result: None,
    })?;
    Ok(Tables {
        keys,
        opens: ScopeTable::new(alloc),
        params: ScopeTable::new(alloc),
        members: UseTable::new(alloc),
        operations: UseTable::new(alloc),
        types,
        callables,
    })
}

fn add(types: &mut TypeTable, shape: Shape) -> Result<(), Fail> {
    types.add(Seen {
        first: INTEGER,
        shape,
    })?;
    Ok(())
}

fn decl_of(shown: Option<Shown>) -> Option<DeclNo> {
    match shown {
        None => None,
        Some(shown) => shown.decl,
    }
}

#[test]
fn the_inner_of_a_declaration_and_a_parameter_is_visible(rt: HostRuntime) -> Result<(), Fail> {
    let alloc = rt.alloc();
    let mut tables = empty_tables(alloc)?;
    let x = Name::new(alloc, b"X")?;
    let z = Name::new(alloc, b"Z")?;
    assert!(rt; tables.visible(&x).is_none());
    let member = Member {
        shown: object(9, 0, Role::Variable, 1),
        is_visible: true,
    };
    let _ = tables.members.declare(alloc, 5, 0, member)?;
    tables.members.open_use(5)?;
    assert_eq!(rt; decl_of(tables.visible(&x)), Some(DeclNo(9)));
    tables.opens.declare(Open {
        key: 0,
        shown: object(1, 2, Role::Variable, 1),
    })?;
    tables.params.declare(Open {
        key: 0,
        shown: object(2, 1, Role::Fixed, 1),
    })?;
    assert_eq!(rt; decl_of(tables.visible(&x)), Some(DeclNo(1)));
    tables.params.declare(Open {
        key: 0,
        shown: object(3, 4, Role::Fixed, 1),
    })?;
    assert_eq!(rt; decl_of(tables.visible(&x)), Some(DeclNo(3)));
    assert!(rt; tables.visible(&z).is_none());
    Ok(())
}

#[test]
fn private_parts_are_seen_from_within(rt: HostRuntime) -> Result<(), Fail> {
    let alloc = rt.alloc();
    let mut tables = empty_tables(alloc)?;
    let f = Name::new(alloc, b"f")?;
    let shown = Shown {
        decl: Some(DeclNo(4)),
        region: 0,
        what: What::Subprogram(0),
    };
    let private = Member {
        shown,
        is_visible: false,
    };
    let _ = tables.members.declare(alloc, 0, 2, private)?;
    let _ = tables.operations.declare(alloc, 0, 2, private)?;
    let inside = Place {
        home: Some(0),
        unit: Some(0),
        in_function: false,
    };
    assert!(rt; tables.member(OUTSIDE, 0, &f).is_none());
    assert_eq!(rt; decl_of(tables.member(inside, 0, &f)), Some(DeclNo(4)));
    assert!(rt; tables.member(inside, 1, &f).is_none());
    let lock = of_shown(at(1), Some(object(6, 0, Role::ProtectedObject, 4)));
    let is_operation = match tables.selection(inside, &f, lock) {
        Selection::Operation(_) => true,
        _ => false,
    };
    assert!(rt; is_operation);
    let is_hidden = match tables.selection(OUTSIDE, &f, lock) {
        Selection::NoComponent => true,
        _ => false,
    };
    assert!(rt; is_hidden);
    Ok(())
}

#[test]
fn components_calls_and_indexes(rt: HostRuntime) -> Result<(), Fail> {
    let alloc = rt.alloc();
    let tables = empty_tables(alloc)?;
    let y = Name::new(alloc, b"Y")?;
    let record = of_shown(at(1), Some(object(6, 0, Role::Variable, 2)));
    let part = selected(at(2), tables.selection(OUTSIDE, &y, record));
    let of_part = match type_in(part) {
        Some(ExprType::Of(t)) => t,
        _ => TypeNo(99),
    };
    assert_eq!(rt; of_part, BOOLEAN);
    let is_index = match tables.application(OUTSIDE, Entity::Called(at(1), false, 0)) {
        Application::Index(_, index, of) => index == BOOLEAN && of == INTEGER,
        _ => false,
    };
    assert!(rt;
        is_index,
        "a function without formals that gives an array is indexed"
    );
    let is_procedure = match tables.application(OUTSIDE, Entity::Called(at(1), false, 1)) {
        Application::NoFunction(_) => true,
        _ => false,
    };
    assert!(rt; is_procedure);
    assert!(rt; is_unit_name(1_000, b"Us"));
    assert!(rt; !is_unit_name(1_000, b"ms"));
    assert!(rt; is_unit_name(60_000_000_000, b"M"));
    Ok(())
}

/// What an attribute gives of a mark, by the number of the type, the count of arguments and a word for the answer.
#[test]
fn attributes_of_marks(rt: HostRuntime) -> Result<(), Fail> {
    let tables = empty_tables(rt.alloc())?;
    let rows = [
        (Property::First, 1, 0, "bound"),
        (Property::First, 1, 1, "count"),
        (Property::Length, 1, 0, "no range"),
        (Property::Length, 3, 0, "bound"),
        (Property::Last, 2, 0, "no range"),
        (Property::Succ, 0, 1, "values"),
        (Property::Succ, 3, 1, "no order"),
        (Property::Min, 1, 1, "count"),
        (Property::Max, 1, 2, "values"),
        (Property::Val, 0, 1, "position"),
        (Property::Other, 1, 0, "no attribute"),
    ];
    for (what, t, count, wanted) in rows {
        let answer = match tables.gift(OUTSIDE, what, Entity::Mark(Some(TypeNo(t))), count) {
            Gift::Unknown => "unknown",
            Gift::NoAttribute => "no attribute",
            Gift::NoRange => "no range",
            Gift::NoOrder => "no order",
            Gift::WrongCount => "count",
            Gift::Bound(_) => "bound",
            Gift::OfValues(_, _) => "values",
            Gift::OfPosition(_) => "position",
        };
        assert_eq!(rt; answer, wanted, "{what:?} of type {t}");
    }
    Ok(())
}
