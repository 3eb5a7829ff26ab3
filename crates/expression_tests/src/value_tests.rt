use ada_forms::{BinaryOperator, Property, UnaryOperator};
use ada_tree::{AddingOperator, LogicalOperator, MultiplyingOperator, RelationalOperator};
use name_findings::{Findings, Mention};
use name_keys::{KeyMap, KeyTable};
use scope_table::ScopeTable;
use seen_names::{
    Application, Callable, Entity, FormalSeen, Gift, Place, Role, Subprogram, Tables, Value,
    Valued, made, type_in,
};
use seen_types::{BOOLEAN, DURATION, ExprType, INTEGER, MOMENT, Seen, Shape, TypeTable};
use spark_base::{ExprNo, Items, Pos, TypeNo};
use spark_messages::Code;
use static_eval::{Judgement, identifier, literal, nothing_said};
use static_meanings::{Range, booleans, integers};
use std::alloc::Global;
use std::test::Fail;
use use_table::UseTable;
use value_rules::{
    Branches, Operand, Passed, applied_to, binary, conditional, meaning_of, no_branches,
    only_entity, refuse_application, refuse_attribute_faults, refuse_binary, refuse_gift,
    refuse_product_faults, refuse_range, refuse_unary, refuse_unstatic, refuse_written, take_at,
    with_branch,
};

const OUTSIDE: Place = Place {
    home: None,
    unit: None,
    in_function: false,
};

/// A modular type of 256 values.
const BYTE: TypeNo = TypeNo(6);

const TASK: TypeNo = TypeNo(7);

const START: Pos = Pos { line: 1, col: 1 };

const OPERATOR: Pos = Pos { line: 1, col: 5 };

const WORD: Mention = Mention {
    at: Pos { line: 1, col: 3 },
    expr: ExprNo(3),
};

/// The predefined types, Byte and a task type; of the subprograms the first gives a Boolean, the second takes an argument, the
/// third is a procedure.
fn some_tables(alloc: Global) -> Result<Tables, Fail> {
    let byte = Range {
        subtype: BYTE,
        first: BYTE,
        low: 0,
        high: 255,
        least: 0,
        greatest: 255,
        modular: Some(255),
    };
    let mut types = TypeTable::new(alloc);
    add(&mut types, BOOLEAN, Shape::Enumeration(booleans()))?;
    add(&mut types, INTEGER, Shape::Integers(integers()))?;
    add(&mut types, INTEGER, Shape::Integers(integers()))?;
    add(&mut types, INTEGER, Shape::Integers(integers()))?;
    add(&mut types, MOMENT, Shape::Moment)?;
    add(&mut types, DURATION, Shape::Duration)?;
    add(&mut types, BYTE, Shape::Integers(byte))?;
    add(&mut types, TASK, Shape::Task)?;
    let mut formals = KeyMap::new(alloc);
    let formal = FormalSeen {
        is_written: false,
        of: Some(INTEGER),
    };
    let _ = formals.add(0, formal)?;
    let mut callables = Items::new(alloc);
    callables.push(callable(Subprogram::Function, KeyMap::new(alloc)))?;
    callables.push(callable(Subprogram::Function, formals))?;
    callables.push(callable(Subprogram::Procedure, KeyMap::new(alloc)))?;
    Ok(Tables {
        keys: KeyTable::new(alloc),
        opens: ScopeTable::new(alloc),
        params: ScopeTable::new(alloc),
        members: UseTable::new(alloc),
        operations: UseTable::new(alloc),
        types,
        callables,
    })
}

fn add(types: &mut TypeTable, first: TypeNo, shape: Shape) -> Result<(), Fail> {
    types.add(Seen { first, shape })?;
    Ok(())
}

fn callable(form: Subprogram, formals: KeyMap<FormalSeen>) -> Callable {
    Callable {
        form,
        formals,
        result: Some(BOOLEAN),
    }
}

fn of(t: TypeNo) -> Operand {
    Operand {
        entity: made(true, Some(ExprType::Of(t))),
        said: nothing_said(),
    }
}

fn number(n: u128) -> Operand {
    Operand {
        entity: made(true, Some(ExprType::AnyInteger)),
        said: literal(START, n),
    }
}

fn refused() -> Operand {
    Operand {
        entity: Entity::Nothing,
        said: nothing_said(),
    }
}

fn first_of(found: &Findings) -> Option<(u32, Code)> {
    found.first().map(|f| (f.at.col, f.code))
}

/// The number of a type, and 99 of any integer.
fn number_of(t: Option<ExprType>) -> Option<u32> {
    match t {
        None => None,
        Some(ExprType::AnyInteger) => Some(99),
        Some(ExprType::Of(t)) => Some(t.0),
    }
}

/// Operands and an operator between them, the type of the whole, and what is refused.
#[test]
fn operators_between_operands(rt: HostRuntime) -> Result<(), Fail> {
    let alloc = rt.alloc();
    let tables = some_tables(alloc)?;
    let and = BinaryOperator::Logical(LogicalOperator::And);
    let and_then = BinaryOperator::Logical(LogicalOperator::AndThen);
    let equal = BinaryOperator::Relation(RelationalOperator::Equal);
    let plus = BinaryOperator::Sum(AddingOperator::Plus);
    let minus = BinaryOperator::Sum(AddingOperator::Minus);
    let divide = BinaryOperator::Product(MultiplyingOperator::Divide);
    let largest = 170_141_183_460_469_231_731_687_303_715_884_105_727;
    let rows = [
        (of(BOOLEAN), and, of(BOOLEAN), Some(0), None),
        (number(1), and, of(BOOLEAN), None, Some((1, Code::Y04))),
        (of(BYTE), and, number(1), Some(6), None),
        (of(BYTE), and_then, of(BYTE), None, Some((1, Code::Y04))),
        (of(TypeNo(2)), plus, number(1), Some(1), None),
        (number(1), plus, number(2), Some(99), None),
        (of(MOMENT), plus, of(DURATION), Some(4), None),
        (of(MOMENT), minus, of(MOMENT), Some(5), None),
        (of(MOMENT), plus, of(MOMENT), None, Some((1, Code::Y04))),
        (of(TASK), equal, of(TASK), None, Some((1, Code::Y04))),
        (
            of(INTEGER),
            divide,
            number(0),
            Some(1),
            Some((5, Code::Y03)),
        ),
        (refused(), divide, number(0), None, Some((5, Code::Y03))),
        (of(INTEGER), divide, refused(), None, None),
        (refused(), and, of(INTEGER), None, None),
        (
            number(largest),
            plus,
            number(1),
            Some(99),
            Some((5, Code::Y01)),
        ),
        (
            number(largest),
            and,
            of(BOOLEAN),
            None,
            Some((1, Code::Y04)),
        ),
    ];
    for (a, operator, b, whole, refusal) in rows {
        let mut found = Findings::new(alloc, 4)?;
        refuse_binary(
            &tables, OUTSIDE, &mut found, operator, OPERATOR, START, a, b,
        );
        assert_eq!(rt; first_of(&found), refusal);
        let made = binary(&tables, OUTSIDE, operator, a.entity, b.entity);
        assert_eq!(rt; number_of(type_in(made)), whole);
    }
    Ok(())
}

#[test]
fn operators_before_an_operand(rt: HostRuntime) -> Result<(), Fail> {
    let alloc = rt.alloc();
    let tables = some_tables(alloc)?;
    let minus = UnaryOperator::Sign(AddingOperator::Minus);
    let rows = [
        (minus, of(INTEGER), None),
        (minus, of(BOOLEAN), Some((5, Code::Y04))),
        (minus, refused(), None),
        (UnaryOperator::Not, of(BYTE), None),
        (UnaryOperator::Not, number(1), Some((5, Code::Y04))),
    ];
    for (operator, a, refusal) in rows {
        let mut found = Findings::new(alloc, 4)?;
        refuse_unary(&tables, OUTSIDE, &mut found, operator, OPERATOR, a);
        assert_eq!(rt; first_of(&found), refusal);
    }
    Ok(())
}

/// What a name stands for that is taken as a value, and what is refused at it.
#[test]
fn names_that_are_taken_as_values(rt: HostRuntime) -> Result<(), Fail> {
    let alloc = rt.alloc();
    let tables = some_tables(alloc)?;
    let rows = [
        (Entity::Nothing, None),
        (of(INTEGER).entity, None),
        (Entity::Called(WORD, false, 0), None),
        (Entity::Called(WORD, false, 1), Some((3, Code::N08))),
        (Entity::Called(WORD, false, 2), Some((3, Code::N07))),
        (Entity::Clock(WORD), None),
        (Entity::Product(WORD, 1_000), Some((3, Code::N08))),
        (Entity::Mark(Some(INTEGER)), Some((3, Code::N06))),
        (Entity::Package(0), Some((3, Code::N06))),
        (Entity::Other, Some((3, Code::N06))),
    ];
    for (entity, refusal) in rows {
        let mut found = Findings::new(alloc, 4)?;
        take_at(&tables, OUTSIDE, &mut found, WORD.expr, WORD.at, entity);
        assert_eq!(rt; first_of(&found), refusal);
    }
    let mut found = Findings::new(alloc, 4)?;
    let clock = Entity::Clock(WORD);
    take_at(&tables, OUTSIDE, &mut found, WORD.expr, WORD.at, clock);
    let (_, types) = found.into_answers();
    assert_eq!(rt;
        types.as_slice(),
        [None, None, None, Some(MOMENT)].as_slice()
    );
    Ok(())
}

/// `(if C then 1 elsif D then X else Y)`: any integer gives way to a type, and the first type counts.
#[test]
fn the_first_branch_with_a_type_gives_that_of_the_whole(rt: HostRuntime) -> Result<(), Fail> {
    let alloc = rt.alloc();
    let tables = some_tables(alloc)?;
    let rows = [
        (number(1), number(2), number(3), Some(99)),
        (number(1), of(TypeNo(2)), number(3), Some(1)),
        (of(BYTE), number(2), number(3), Some(6)),
        (number(1), of(BYTE), of(INTEGER), None),
        (of(INTEGER), refused(), of(INTEGER), None),
    ];
    for (first, second, last, whole) in rows {
        let parts = [of(BOOLEAN), first, of(BOOLEAN), second];
        let mut branches: Branches = no_branches();
        for part in parts {
            branches = with_branch(&tables, OUTSIDE, branches, false, part.entity);
        }
        branches = with_branch(&tables, OUTSIDE, branches, true, last.entity);
        assert_eq!(rt; number_of(type_in(conditional(branches))), whole);
    }
    Ok(())
}

#[test]
fn attributes_and_their_words(rt: HostRuntime) -> Result<(), Fail> {
    let alloc = rt.alloc();
    let tables = some_tables(alloc)?;
    let rows = [
        (Gift::Unknown, None),
        (Gift::NoAttribute, Some((3, Code::N01))),
        (Gift::NoRange, Some((1, Code::Y07))),
        (Gift::NoOrder, Some((1, Code::Y04))),
        (Gift::WrongCount, Some((3, Code::N08))),
        (Gift::OfPosition(ExprType::Of(BOOLEAN)), None),
    ];
    for (gift, refusal) in rows {
        let mut found = Findings::new(alloc, 4)?;
        refuse_gift(&mut found, START, WORD.at, WORD.expr, gift);
        assert_eq!(rt; first_of(&found), refusal);
    }
    let rows = [
        (Entity::Mark(Some(INTEGER)), Some((3, Code::N06))),
        (Entity::Called(WORD, false, 0), Some((3, Code::N06))),
        (Entity::Mark(None), None),
        (Entity::Nothing, None),
    ];
    for (prefix, refusal) in rows {
        let mut found = Findings::new(alloc, 4)?;
        refuse_range(&tables, OUTSIDE, &mut found, WORD.at, prefix);
        assert_eq!(rt; first_of(&found), refusal);
    }
    Ok(())
}

/// Prefixes with one argument: whether it is one that is asked for and a plain value, what it stands for, the type of the
/// whole, and what is refused.
#[test]
fn conversions_and_calls(rt: HostRuntime) -> Result<(), Fail> {
    let alloc = rt.alloc();
    let tables = some_tables(alloc)?;
    let to_byte = Application::Conversion(Some(BYTE));
    let product = Application::ProductCall(WORD, 1_000);
    let call = Application::Call(WORD, false, 1);
    let integer = of(INTEGER).entity;
    let boolean = of(BOOLEAN).entity;
    let rows = [
        (to_byte, false, true, integer, Some(6), None),
        (to_byte, false, true, boolean, None, Some((1, Code::Y04))),
        (to_byte, false, false, integer, None, Some((1, Code::Y04))),
        (to_byte, true, false, integer, None, Some((3, Code::N08))),
        (to_byte, false, true, Entity::Nothing, Some(6), None),
        (call, false, true, integer, Some(0), None),
        (call, true, true, integer, Some(0), Some((3, Code::N08))),
        (product, true, true, integer, Some(5), Some((3, Code::N08))),
        (
            Application::NoArray,
            false,
            true,
            integer,
            None,
            Some((1, Code::Y07)),
        ),
        (
            Application::NoFunction(WORD),
            false,
            true,
            integer,
            None,
            Some((3, Code::N07)),
        ),
        (
            Application::NoValue,
            false,
            true,
            integer,
            None,
            Some((3, Code::N06)),
        ),
        (Application::ToNothing, true, false, integer, None, None),
    ];
    for (application, are_unfit, has_value, argument, whole, refusal) in rows {
        let mut found = Findings::new(alloc, 4)?;
        let passed = Passed {
            are_unfit,
            has_value,
            value: only_entity([argument].as_slice()),
        };
        refuse_application(
            &tables,
            OUTSIDE,
            &mut found,
            Some(WORD),
            START,
            passed,
            application,
        );
        assert_eq!(rt; first_of(&found), refusal);
        let made = applied_to(&tables, OUTSIDE, passed, application);
        assert_eq!(rt; number_of(type_in(made)), whole);
    }
    Ok(())
}

fn constant(value: Value) -> Entity {
    Entity::Valuable(Valued {
        of: Some(ExprType::Of(INTEGER)),
        role: Role::Fixed,
        source: Some(WORD),
        value,
        is_sure: true,
    })
}

/// What a name says of its static value.
fn said_of(tables: &Tables, entity: Entity) -> Judgement {
    identifier(START, meaning_of(tables, OUTSIDE, entity))
}

#[test]
fn static_values(rt: HostRuntime) -> Result<(), Fail> {
    let alloc = rt.alloc();
    let tables = some_tables(alloc)?;
    let rows = [
        (said_of(&tables, constant(Value::Known(7))), true, None),
        (
            said_of(&tables, constant(Value::NotStatic)),
            true,
            Some((3, Code::Y02)),
        ),
        (said_of(&tables, constant(Value::NotStatic)), false, None),
    ];
    for (said, is_sure, refusal) in rows {
        let mut found = Findings::new(alloc, 4)?;
        refuse_unstatic(&mut found, WORD.at, is_sure, said);
        assert_eq!(rt; first_of(&found), refusal);
    }
    let mut found = Findings::new(alloc, 4)?;
    let nanoseconds = said_of(&tables, Entity::Product(WORD, 60_000_000_000));
    let parts = [
        nanoseconds,
        literal(
            OPERATOR,
            170_141_183_460_469_231_731_687_303_715_884_105_727,
        ),
    ];
    let product = Application::ProductCall(WORD, 60_000_000_000);
    refuse_product_faults(alloc, &mut found, START, true, parts.as_slice(), product)?;
    assert_eq!(rt; first_of(&found), Some((1, Code::Y01)));
    let mut found = Findings::new(alloc, 4)?;
    let parts = [said_of(&tables, Entity::Mark(Some(INTEGER)))];
    let property = Property::Last;
    refuse_attribute_faults(alloc, &mut found, START, true, property, parts.as_slice())?;
    assert_eq!(rt; first_of(&found), None);
    Ok(())
}

#[test]
fn components_are_not_written_in_functions(rt: HostRuntime) -> Result<(), Fail> {
    let alloc = rt.alloc();
    let part = |role: Role| {
        Entity::Valuable(Valued {
            of: Some(ExprType::Of(INTEGER)),
            role,
            source: None,
            value: Value::NotStatic,
            is_sure: true,
        })
    };
    let rows = [
        (part(Role::Variable), true, None),
        (part(Role::Component), false, None),
        (part(Role::Component), true, Some((3, Code::N06))),
        (part(Role::Fixed), false, Some((3, Code::N06))),
        (Entity::Nothing, false, None),
    ];
    for (entity, in_function, refusal) in rows {
        let mut found = Findings::new(alloc, 4)?;
        let place = Place {
            in_function,
            ..OUTSIDE
        };
        refuse_written(place, &mut found, Some(WORD), entity);
        assert_eq!(rt; first_of(&found), refusal);
    }
    Ok(())
}
