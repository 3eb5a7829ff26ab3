// Random expressions at the edges of 128 bits, beside a plain evaluator of checked arithmetic.
ghost use Rattle.std.specs.Prelude.{◌<◌};

use crate::tests::{Answer, BEFORE, HEAD, answers};
use spark_base::{Bytes, NoMemory};
use spark_messages::Code;
use std::alloc::Global;
use std::test::Fail;

/// An expression: its text, its value if it has one, and its first fault with the column in the text.
#[derive(Debug, Drop)]
struct Piece {
    text: Bytes,
    value: Option<i128>,
    fault: Option<(Code, u32)>,
}

/// Numbers, and what they are worth; the last is outside 128 bits.
const NUMBERS: [(&str, Option<i128>); 20] = [
    ("0", Some(0)),
    ("1", Some(1)),
    ("2", Some(2)),
    ("3", Some(3)),
    ("7", Some(7)),
    ("10", Some(10)),
    ("-1", Some(-1)),
    ("-2", Some(-2)),
    ("-3", Some(-3)),
    ("2 ** 63", Some(9223372036854775808)),
    ("2 ** 64 - 1", Some(18446744073709551615)),
    ("13043817825332782212", Some(13043817825332782212)),
    ("2 ** 126", Some(85070591730234615865843651857942052864)),
    (
        "170141183460469231731687303715884105727",
        Some(170141183460469231731687303715884105727),
    ),
    (
        "170141183460469231731687303715884105726",
        Some(170141183460469231731687303715884105726),
    ),
    (
        "-170141183460469231731687303715884105727",
        Some(-170141183460469231731687303715884105727),
    ),
    ("-2 ** 126 - 2 ** 126", Some(i128::MIN)),
    (
        "1 - 2 ** 126 - 2 ** 126",
        Some(-170141183460469231731687303715884105727),
    ),
    ("2 ** 126 - 1", Some(85070591730234615865843651857942052863)),
    ("170141183460469231731687303715884105728", None),
];

const EXPONENTS: [(&str, u32); 10] = [
    ("0", 0),
    ("1", 1),
    ("2", 2),
    ("3", 3),
    ("7", 7),
    ("63", 63),
    ("64", 64),
    ("126", 126),
    ("127", 127),
    ("128", 128),
];

/// The next state of a generator that shifts.
fn next(state: u64) -> u64 {
    let a = state ^ (state << 13);
    let b = a ^ (a >> 7);
    b ^ (b << 17)
}

/// A number below another that is not zero.
fn below(state: &mut u64, limit: usize) -> usize
    requires { 0 < limit }
    ensures { result < limit }
{
    *state = next(*state);
    (*state >> 11) as usize % limit
}

fn number(alloc: Global, state: &mut u64) -> Result<Piece, NoMemory> {
    let (text, value) = NUMBERS[below(state, NUMBERS.len())];
    Ok(Piece {
        text: Bytes::from_slice(alloc, text.as_bytes())?,
        value,
        fault: match value {
            None => Some((Code::Y01, 1)),
            Some(_) => None,
        },
    })
}

/// A remainder with the sign of the left side.
fn remainder(a: i128, b: i128) -> Option<i128> {
    if b == -1 { Some(0) } else { a.checked_rem(b) }
}

/// A remainder with the sign of the right side.
fn modulo(a: i128, b: i128) -> Option<i128> {
    let rest = remainder(a, b)?;
    if rest != 0 && (rest < 0) != (b < 0) {
        rest.checked_add(b)
    } else {
        Some(rest)
    }
}

fn power(a: i128, exponent: u32) -> Option<i128> {
    let mut made: i128 = 1;
    for _ in 0..exponent {
        made = made.checked_mul(a)?;
    }
    Some(made)
}

const OPERATORS: [&str; 6] = ["+", "-", "*", "/", "rem", "mod"];

fn computed(operator: usize, a: i128, b: i128) -> Option<i128> {
    match operator {
        0 => a.checked_add(b),
        1 => a.checked_sub(b),
        2 => a.checked_mul(b),
        3 => a.checked_div(b),
        4 => remainder(a, b),
        _ => modulo(a, b),
    }
}

/// What comes of an operator between values: nothing where one is missing, else the value or the fault.
fn outcome(operator: usize, a: Option<i128>, b: Option<i128>) -> (Option<i128>, Option<Code>) {
    if operator >= 3 && b == Some(0) {
        return (None, Some(Code::Y03));
    }
    match (a, b) {
        (Some(a), Some(b)) => match computed(operator, a, b) {
            None => (None, Some(Code::Y01)),
            Some(n) => (Some(n), None),
        },
        _ => (None, None),
    }
}

fn moved(fault: Option<(Code, u32)>, by: usize) -> Option<(Code, u32)> {
    let (code, col) = fault?;
    let by = u32::try_from(by).unwrap_or(u32::MAX);
    Some((code, col.saturating_add(by)))
}

fn first_of(
    a: Option<(Code, u32)>,
    b: Option<(Code, u32)>,
    c: Option<(Code, u32)>,
) -> Option<(Code, u32)> {
    match a {
        Some(_) => a,
        None => match b {
            Some(_) => b,
            None => c,
        },
    }
}

/// `(A) OPERATOR (B)`
fn joined(
    alloc: Global,
    operator: &str,
    a: Piece,
    b: Piece,
    how: (Option<i128>, Option<Code>),
) -> Result<Piece, NoMemory> {
    let mut text = Bytes::from_slice(alloc, b"(")?;
    text.append(a.text.as_slice())?;
    text.append(b") ")?;
    let place = text.len();
    text.append(operator.as_bytes())?;
    text.append(b" (")?;
    let before = text.len();
    text.append(b.text.as_slice())?;
    text.append(b")")?;
    let own = match how.1 {
        None => None,
        Some(code) => moved(Some((code, 1)), place),
    };
    Ok(Piece {
        text,
        value: how.0,
        fault: first_of(moved(a.fault, 1), own, moved(b.fault, before)),
    })
}

/// Two expressions with an operator between them.
fn binary(alloc: Global, state: &mut u64, a: Piece, b: Piece) -> Result<Piece, NoMemory> {
    let operator = below(state, OPERATORS.len());
    let how = outcome(operator, a.value, b.value);
    joined(alloc, OPERATORS[operator], a, b, how)
}

/// An expression raised to some power.
fn raised(alloc: Global, state: &mut u64, a: Piece) -> Result<Piece, NoMemory> {
    let (text, exponent) = EXPONENTS[below(state, EXPONENTS.len())];
    let how = match a.value {
        None => (None, None),
        Some(n) => match power(n, exponent) {
            None => (None, Some(Code::Y01)),
            Some(n) => (Some(n), None),
        },
    };
    let b = Piece {
        text: Bytes::from_slice(alloc, text.as_bytes())?,
        value: None,
        fault: None,
    };
    joined(alloc, "**", a, b, how)
}

/// `- (A)`, or `abs (A)`
fn signed(alloc: Global, is_absolute: bool, a: Piece) -> Result<Piece, NoMemory> {
    let sign = if is_absolute { "abs (" } else { "- (" };
    let mut text = Bytes::from_slice(alloc, sign.as_bytes())?;
    text.append(a.text.as_slice())?;
    text.append(b")")?;
    let value = match a.value {
        None => None,
        Some(n) => if is_absolute {
            n.checked_abs()
        } else {
            n.checked_neg()
        },
    };
    let own = if a.value.is_some() && value.is_none() {
        Some((Code::Y01, 1))
    } else {
        None
    };
    Ok(Piece {
        text,
        value,
        fault: first_of(own, moved(a.fault, sign.len()), None),
    })
}

/// An expression as it is, or with an operator on it.
fn turned(alloc: Global, state: &mut u64, a: Piece) -> Result<Piece, NoMemory> {
    match below(state, 6) {
        0 => raised(alloc, state, a),
        1 => signed(alloc, false, a),
        2 => signed(alloc, true, a),
        _ => Ok(a),
    }
}

/// Two numbers, with operators.
fn pair(alloc: Global, state: &mut u64) -> Result<Piece, NoMemory> {
    let a = number(alloc, state)?;
    let a = turned(alloc, state, a)?;
    let b = number(alloc, state)?;
    let made = binary(alloc, state, a, b)?;
    turned(alloc, state, made)
}

fn expression(alloc: Global, state: &mut u64) -> Result<Piece, NoMemory> {
    let a = pair(alloc, state)?;
    match below(state, 3) {
        0 => Ok(a),
        _ => {
            let b = pair(alloc, state)?;
            binary(alloc, state, a, b)
        }
    }
}

fn answer_of(piece: &Piece) -> Option<Answer> {
    match piece.fault {
        Some((code, col)) => Some(Answer::Refused(code, col)),
        None => Some(Answer::Value(piece.value?)),
    }
}

/// How many of so many random expressions have the answer of the evaluator, and how many of these have a value.
fn compared(alloc: Global, seed: u64, count: usize) -> Result<(usize, usize), NoMemory> {
    let mut state = seed;
    let mut source = Bytes::from_slice(alloc, HEAD.as_bytes())?;
    let mut wanted = Vec::new(alloc);
    for _ in 0..count {
        let piece = expression(alloc, &mut state)?;
        source.append(BEFORE.as_bytes())?;
        source.append(piece.text.as_slice())?;
        source.append(b";\n")?;
        wanted.push(answer_of(&piece))?;
    }
    source.append(b"end P;\n")?;
    let found = answers(alloc, source)?;
    let pairs = found.as_slice().iter().zip(wanted.as_slice().iter());
    let same = pairs.filter(|(a, b)| Some(**a) == **b).count();
    let valued = wanted
        .as_slice()
        .iter()
        .filter(|a| match a {
            Some(Answer::Value(_)) => true,
            _ => false,
        })
        .count();
    Ok((same, valued))
}

#[test]
fn random_expressions_are_worth_what_checked_arithmetic_gives(rt: HostRuntime) -> Result<(), Fail> {
    let alloc = rt.alloc();
    let (same, valued) = compared(alloc, 88172645463325252, 400)?;
    assert_eq!(rt; same, 400);
    assert!(rt; valued > 100);
    assert!(rt; valued < 300);
    Ok(())
}
