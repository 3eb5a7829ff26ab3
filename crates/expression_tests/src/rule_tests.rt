use ada_forms::BinaryOperator;
use ada_tree::{AddingOperator, ExprKind, ExprNode, RelationalOperator, Units};
use choice_covers::Covering;
use expr_rules::{
    aggregate, branch_slot, fitting_value, is_mark, of_mark, read_name, refuse_chosen,
    refuse_components, refuse_marked, refuse_unexpected, refuse_values, right_reading,
    wanted_shape,
};
use name_findings::{Findings, Mention};
use name_keys::{KeyMap, KeyTable};
use part_slots::{Reading, Slot};
use scope_table::ScopeTable;
use seen_names::{Entity, Place, Tables, made, type_in};
use seen_types::{BOOLEAN, ExprType, FieldSeen, INTEGER, Seen, Shape, TypeTable};
use spark_base::{DeclNo, ExprNo, FileNo, Items, Name, Pos, Span, TypeNo};
use spark_messages::Code;
use static_eval::{Judgement, literal, nothing_said};
use static_meanings::{booleans, integers};
use std::alloc::Global;
use std::test::Fail;
use use_table::UseTable;
use value_rules::{Branches, no_branches, with_condition};

const OUTSIDE: Place = Place {
    home: None,
    unit: None,
    in_function: false,
};

/// An array of Integer over Boolean.
const TABLE: TypeNo = TypeNo(2);

const START: Pos = Pos { line: 1, col: 1 };

const WORD: Mention = Mention {
    at: Pos { line: 1, col: 3 },
    expr: ExprNo(3),
};

/// Boolean, Integer and Table.
fn some_tables(alloc: Global) -> Result<Tables, Fail> {
    let mut types = TypeTable::new(alloc);
    let array = Shape::Array {
        index: BOOLEAN,
        of: INTEGER,
    };
    add(&mut types, BOOLEAN, Shape::Enumeration(booleans()))?;
    add(&mut types, INTEGER, Shape::Integers(integers()))?;
    add(&mut types, TABLE, array)?;
    Ok(Tables {
        keys: KeyTable::new(alloc),
        opens: ScopeTable::new(alloc),
        params: ScopeTable::new(alloc),
        members: UseTable::new(alloc),
        operations: UseTable::new(alloc),
        types,
        callables: Items::new(alloc),
    })
}

fn add(types: &mut TypeTable, first: TypeNo, shape: Shape) -> Result<(), Fail> {
    types.add(Seen { first, shape })?;
    Ok(())
}

fn of(t: TypeNo) -> Entity {
    made(true, Some(ExprType::Of(t)))
}

fn first_of(found: &Findings) -> Option<(u32, Code)> {
    found.first().map(|f| (f.at.col, f.code))
}

fn name_of(reading: Reading) -> &'static str {
    match reading {
        Reading::AsName => "name",
        Reading::Free => "free",
        Reading::Hidden => "hidden",
        Reading::Wanted(_) => "wanted",
    }
}

#[test]
fn a_mark_stands_as_a_name_and_as_no_value(rt: HostRuntime) -> Result<(), Fail> {
    let alloc = rt.alloc();
    let tables = some_tables(alloc)?;
    let mark = Entity::Mark(Some(INTEGER));
    let rows = [
        (Reading::AsName, None, true),
        (Reading::Free, Some((3, Code::N06)), false),
        (Reading::Hidden, Some((3, Code::N06)), false),
    ];
    for (reading, refusal, stays) in rows {
        let mut found = Findings::new(alloc, 4)?;
        let (e, at) = (WORD.expr, WORD.at);
        let read = read_name(&tables, OUTSIDE, &mut found, reading, e, at, mark);
        assert_eq!(rt; first_of(&found), refusal);
        assert_eq!(rt; is_mark(read), stays);
    }
    Ok(())
}

#[test]
fn readings_of_right_operands(rt: HostRuntime) -> Result<(), Fail> {
    let equal = BinaryOperator::Relation(RelationalOperator::Equal);
    let less = BinaryOperator::Relation(RelationalOperator::Less);
    let plus = BinaryOperator::Sum(AddingOperator::Plus);
    let table = Some(ExprType::Of(TABLE));
    let rows = [
        (equal, table, "wanted"),
        (equal, None, "hidden"),
        (less, table, "free"),
        (plus, None, "hidden"),
    ];
    for (operator, left, reading) in rows {
        assert_eq!(rt; name_of(right_reading(operator, left)), reading);
    }
    Ok(())
}

/// What is expected, and whether an aggregate has that type.
#[test]
fn aggregates_have_the_type_that_is_expected(rt: HostRuntime) -> Result<(), Fail> {
    let tables = some_tables(rt.alloc())?;
    let rows = [
        (Reading::Wanted(ExprType::Of(TABLE)), true),
        (Reading::Wanted(ExprType::Of(INTEGER)), false),
        (Reading::Wanted(ExprType::AnyInteger), false),
        (Reading::Free, false),
        (Reading::Hidden, false),
    ];
    for (reading, has_type) in rows {
        let whole = aggregate(&tables, OUTSIDE, reading);
        assert_eq!(rt; type_in(whole).is_some(), has_type);
    }
    Ok(())
}

/// How a branch is read, as a condition or by the type of those before.
fn slot_of(reading: Reading, branches: Branches, is_last: bool) -> &'static str {
    match branch_slot(reading, branches, is_last) {
        Slot::Condition => "condition",
        Slot::Branch(reading, _) => name_of(reading),
        _ => "other",
    }
}

#[test]
fn branches_are_read_for_the_type_of_those_before(rt: HostRuntime) -> Result<(), Fail> {
    let first = with_condition(no_branches(), of(BOOLEAN));
    let second = Branches {
        result: Some(ExprType::Of(TABLE)),
        ..first
    };
    let rows = [
        (no_branches(), false, "condition"),
        (no_branches(), true, "free"),
        (first, false, "free"),
        (second, false, "wanted"),
    ];
    for (branches, is_last, slot) in rows {
        assert_eq!(rt; slot_of(Reading::Free, branches, is_last), slot);
    }
    assert_eq!(rt; slot_of(Reading::Hidden, second, true), "hidden");
    Ok(())
}

/// Choices among the values of a type: what each stands for and says, what is refused, and its value.
#[test]
fn choices_fit_and_are_static(rt: HostRuntime) -> Result<(), Fail> {
    let alloc = rt.alloc();
    let tables = some_tables(alloc)?;
    let three = literal(START, 3);
    let rows: [(Option<TypeNo>, Entity, Judgement, Option<(u32, Code)>); 5] = [
        (Some(INTEGER), of(INTEGER), three, None),
        (Some(INTEGER), of(BOOLEAN), three, Some((1, Code::Y04))),
        (
            Some(INTEGER),
            of(BOOLEAN),
            nothing_said(),
            Some((1, Code::Y04)),
        ),
        (
            Some(INTEGER),
            of(INTEGER),
            nothing_said(),
            Some((1, Code::Y02)),
        ),
        (None, of(INTEGER), nothing_said(), None),
    ];
    for (index, entity, said, refusal) in rows {
        let mut found = Findings::new(alloc, 4)?;
        refuse_chosen(&tables, OUTSIDE, &mut found, index, START, entity, said);
        assert_eq!(rt; first_of(&found), refusal);
    }
    let fits = fitting_value(&tables, OUTSIDE, INTEGER, of(INTEGER), three);
    assert_eq!(rt; fits, Some(3));
    let other = fitting_value(&tables, OUTSIDE, BOOLEAN, of(INTEGER), three);
    assert_eq!(rt; other, None);
    Ok(())
}

#[test]
fn a_mark_covers_its_values(rt: HostRuntime) -> Result<(), Fail> {
    let alloc = rt.alloc();
    let tables = some_tables(alloc)?;
    let rows = [
        (Entity::Mark(Some(BOOLEAN)), Some((0, 1)), None),
        (Entity::Mark(Some(INTEGER)), None, Some((1, Code::Y04))),
        (Entity::Mark(None), None, None),
    ];
    for (mark, covered, refusal) in rows {
        let values = match of_mark(&tables, OUTSIDE, BOOLEAN, mark) {
            Covering::From(low, high) => Some((low, high)),
            _ => None,
        };
        assert_eq!(rt; values, covered);
        let mut found = Findings::new(alloc, 4)?;
        refuse_marked(&tables, OUTSIDE, &mut found, Some(BOOLEAN), START, mark);
        assert_eq!(rt; first_of(&found), refusal);
    }
    Ok(())
}

/// Values by their places, over Boolean: how many, the last for others or not, and what is refused.
#[test]
fn elements_are_as_many_as_the_index_has_values(rt: HostRuntime) -> Result<(), Fail> {
    let alloc = rt.alloc();
    let tables = some_tables(alloc)?;
    let starts = [2, 3, 4].map(|col| Pos { line: 1, col });
    let rows = [
        (1, false, Some((1, Code::Y09))),
        (1, true, None),
        (2, false, None),
        (3, true, None),
        (3, false, Some((4, Code::Y09))),
    ];
    for (count, has_others, refusal) in rows {
        let mut found = Findings::new(alloc, 4)?;
        let reading = Reading::Wanted(ExprType::Of(TABLE));
        let shape = wanted_shape(&tables, OUTSIDE, reading);
        refuse_unexpected(&mut found, reading, shape, START);
        let values = starts.get(..count).unwrap_or(&[]);
        refuse_values(
            &tables, OUTSIDE, &mut found, START, has_others, values, shape,
        );
        assert_eq!(rt; first_of(&found), refusal);
    }
    let mut found = Findings::new(alloc, 4)?;
    refuse_unexpected(&mut found, Reading::Free, None, START);
    assert_eq!(rt; first_of(&found), Some((1, Code::Y04)));
    Ok(())
}

/// A node of this kind at the place of its number.
fn node(
    alloc: Global,
    units: &mut Units,
    kind: ExprKind,
    word: &[u8],
    parts: &[ExprNo],
) -> Result<ExprNo, Fail> {
    let number = u32::try_from(units.exprs.len()).unwrap_or(u32::MAX);
    let at = Pos {
        line: 1,
        col: number.saturating_add(1),
    };
    let mut exprs = Items::new(alloc);
    for part in parts {
        exprs.push(*part)?;
    }
    let name = if word.len() > 0 {
        Some(Name::new(alloc, word)?)
    } else {
        None
    };
    units.exprs.push(ExprNode {
        span: Span {
            file: FileNo(0),
            from: at,
            to: at,
        },
        kind,
        name,
        exprs,
    })?;
    Ok(ExprNo(number))
}

/// An association of a component with this name.
fn component(alloc: Global, units: &mut Units, word: &[u8]) -> Result<ExprNo, Fail> {
    let name = node(alloc, units, ExprKind::Identifier, word, &[])?;
    let choice = node(alloc, units, ExprKind::ValueChoice, b"", &[name])?;
    let value = node(alloc, units, ExprKind::Number(1), b"", &[])?;
    node(alloc, units, ExprKind::Association, b"", &[choice, value])
}

/// Components A and B by name, and what is refused of their choices.
#[test]
fn components_get_their_values_once(rt: HostRuntime) -> Result<(), Fail> {
    let alloc = rt.alloc();
    let mut tables = some_tables(alloc)?;
    let mut units = Units::new(alloc);
    let mut fields = KeyMap::new(alloc);
    for (key, word) in [b"a", b"b"].iter().enumerate() {
        let _ = tables.keys.add(vec![in alloc; word[0]]?)?;
        let _ = fields.add(
            key,
            FieldSeen {
                decl: DeclNo(0),
                of: INTEGER,
            },
        )?;
    }
    let a = component(alloc, &mut units, b"A")?;
    let b = component(alloc, &mut units, b"B")?;
    let c = component(alloc, &mut units, b"C")?;
    let rows: [(&[ExprNo], Option<Code>); 4] = [
        (&[a, b], None),
        (&[a], Some(Code::Y09)),
        (&[a, b, a], Some(Code::Y09)),
        (&[a, c], Some(Code::Y06)),
    ];
    for (pairs, refusal) in rows {
        let mut found = Findings::new(alloc, 4)?;
        refuse_components(alloc, &units, &tables, &mut found, START, &fields, pairs)?;
        assert_eq!(rt; found.first().map(|f| f.code), refusal);
    }
    Ok(())
}
