use ada_forms::{BinaryOperator, UnaryOperator};
use ada_tree::{AddingOperator, LogicalOperator, MultiplyingOperator, RelationalOperator};
use name_keys::KeyMap;
use seen_types::{BOOLEAN, DURATION, ExprType, INTEGER, MOMENT, Seen, Shape, TypeTable};
use spark_base::TypeNo;
use static_meanings::{Range, booleans, integers};
use std::alloc::Global;
use std::test::Fail;

/// A subtype of Integer, a private type of package 3 with its full type, a modular type, an array, a protected type.
const NATURAL: TypeNo = TypeNo(2);

const HANDLE: TypeNo = TypeNo(6);

const FULL_HANDLE: TypeNo = TypeNo(7);

const BYTE: TypeNo = TypeNo(8);

const TABLE: TypeNo = TypeNo(9);

const LOCK: TypeNo = TypeNo(10);

fn range(number: u32, first: u32, high: i128, modular: Option<u64>) -> Range {
    Range {
        subtype: TypeNo(number),
        first: TypeNo(first),
        low: 0,
        high,
        least: 0,
        greatest: high,
        modular,
    }
}

fn row(types: &mut TypeTable, first: TypeNo, shape: Shape) -> Result<(), Fail> {
    types.add(Seen { first, shape })?;
    Ok(())
}

fn some_types(alloc: Global) -> Result<TypeTable, Fail> {
    let mut types = TypeTable::new(alloc);
    row(&mut types, BOOLEAN, Shape::Enumeration(booleans()))?;
    row(&mut types, INTEGER, Shape::Integers(integers()))?;
    row(&mut types, INTEGER, Shape::Integers(range(2, 1, 9, None)))?;
    row(&mut types, INTEGER, Shape::Integers(range(3, 1, 9, None)))?;
    row(&mut types, MOMENT, Shape::Moment)?;
    row(&mut types, DURATION, Shape::Duration)?;
    row(&mut types, HANDLE, Shape::Private(3))?;
    row(&mut types, HANDLE, Shape::Fields(KeyMap::new(alloc)))?;
    row(
        &mut types,
        BYTE,
        Shape::Integers(range(8, 8, 255, Some(255))),
    )?;
    let array = Shape::Array {
        index: BOOLEAN,
        of: INTEGER,
    };
    row(&mut types, TABLE, array)?;
    row(&mut types, LOCK, Shape::Protected(0))?;
    types.complete(HANDLE, FULL_HANDLE)?;
    Ok(types)
}

/// The number of the type, 99 for any integer, and none.
fn number(t: Option<ExprType>) -> Option<u32> {
    match t {
        None => None,
        Some(ExprType::AnyInteger) => Some(99),
        Some(ExprType::Of(t)) => Some(t.0),
    }
}

fn of(number: u32) -> Option<ExprType> {
    if number == 99 {
        Some(ExprType::AnyInteger)
    } else {
        Some(ExprType::Of(TypeNo(number)))
    }
}

#[test]
fn operators_take_some_types(rt: HostRuntime) -> Result<(), Fail> {
    let types = some_types(rt.alloc())?;
    let plus = BinaryOperator::Sum(AddingOperator::Plus);
    let minus = BinaryOperator::Sum(AddingOperator::Minus);
    let times = BinaryOperator::Product(MultiplyingOperator::Times);
    let and = BinaryOperator::Logical(LogicalOperator::And);
    let and_then = BinaryOperator::Logical(LogicalOperator::AndThen);
    let equal = BinaryOperator::Relation(RelationalOperator::Equal);
    let less = BinaryOperator::Relation(RelationalOperator::Less);
    let rows = [
        (plus, 2, 99, Some(1)),
        (plus, 99, 99, Some(99)),
        (plus, 8, 99, Some(8)),
        (plus, 8, 1, None),
        (plus, 4, 5, Some(4)),
        (plus, 5, 4, Some(4)),
        (plus, 4, 4, None),
        (minus, 4, 4, Some(5)),
        (minus, 5, 4, None),
        (plus, 5, 5, Some(5)),
        (times, 5, 1, None),
        (times, 1, 2, Some(1)),
        (and, 0, 0, Some(0)),
        (and, 8, 99, Some(8)),
        (and, 99, 0, None),
        (and, 1, 1, None),
        (and_then, 8, 8, None),
        (equal, 10, 10, None),
        (equal, 9, 9, Some(0)),
        (less, 9, 9, None),
        (less, 4, 4, Some(0)),
        (BinaryOperator::Power, 1, 2, Some(1)),
        (BinaryOperator::Power, 1, 8, None),
    ];
    for (operator, a, b, wanted) in rows {
        let made = types.binary_of(None, operator, of(a), of(b));
        assert_eq!(rt; number(made), wanted, "{operator:?} of {a} and {b}");
        assert_eq!(rt; number(types.binary_of(None, operator, None, of(b))), None);
    }
    assert_eq!(rt;
        number(types.unary_of(None, UnaryOperator::Not, of(8))),
        Some(8)
    );
    assert_eq!(rt;
        number(types.unary_of(None, UnaryOperator::Not, of(1))),
        None
    );
    assert_eq!(rt;
        number(types.unary_of(None, UnaryOperator::Absolute, of(2))),
        Some(1)
    );
    assert_eq!(rt;
        number(types.in_range_of(None, of(2), of(99), of(1))),
        Some(0)
    );
    assert_eq!(rt; number(types.in_range_of(None, of(0), of(99), of(1))), None);
    assert_eq!(rt; number(types.in_mark_of(None, of(99), of(8))), Some(0));
    Ok(())
}

#[test]
fn a_private_type_is_seen_in_its_package(rt: HostRuntime) -> Result<(), Fail> {
    let types = some_types(rt.alloc())?;
    assert!(rt; types.is_private(None, HANDLE));
    assert!(rt; types.is_private(Some(2), HANDLE));
    assert!(rt; types.is_composite(Some(3), HANDLE));
    assert_eq!(rt; types.first(FULL_HANDLE), HANDLE);
    assert_eq!(rt;
        number(Some(types.root(None, ExprType::Of(HANDLE)))),
        Some(6)
    );
    assert_eq!(rt;
        number(Some(types.root(Some(3), ExprType::Of(HANDLE)))),
        Some(7)
    );
    assert!(rt; types.is_same(HANDLE, FULL_HANDLE));
    Ok(())
}

#[test]
fn kinds_and_ranges(rt: HostRuntime) -> Result<(), Fail> {
    let types = some_types(rt.alloc())?;
    assert!(rt; types.is_modular(None, BYTE));
    assert!(rt; !types.is_modular(None, NATURAL));
    assert!(rt; types.is_limited(None, LOCK));
    assert!(rt; types.is_array(None, TABLE));
    assert!(rt; types.shape(None, TypeNo(40)).is_none());
    assert!(rt; types.is_unfit(None, of(10), of(10)));
    assert!(rt; types.misfits(None, of(1), of(8)));
    assert!(rt; !types.misfits(None, of(1), None));
    assert!(rt; types.is_countable(None, ExprType::AnyInteger));
    let of_table = types.range_of(None, TABLE).expect(&rt, "that of its index");
    assert_eq!(rt; of_table.high, 1);
    let of_byte = types.bounds(None, BYTE).expect(&rt, "it has one");
    assert_eq!(rt; of_byte.high, 255);
    assert!(rt; types.bounds(None, TABLE).is_none());
    Ok(())
}
