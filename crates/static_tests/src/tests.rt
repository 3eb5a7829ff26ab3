// What static expressions of sources are worth.
use crate::expressions::{EIGHTH, FIFTH, FIRST, FOURTH, SECOND, SEVENTH, SIXTH, THIRD};
use ada_forms::{DeclForm, ExprForm, decl_form, expr_form};
use ada_lexer::lex;
use ada_tree::Units;
use spark_base::{Bytes, DeclNo, ExprNo, FileNo, Items, NoMemory, TypeNo};
use spark_messages::{Code, PhaseFault};
use spark_parser::parse;
use static_eval::{Known, value_of};
use static_meanings::Range;
use std::alloc::Global;
use std::test::Fail;

/// What comes of an expression: its value, or the code of its refusal with the column in the expression.
#[derive(Clone, Copy, Debug, PartialEq, Eq)]
pub enum Answer {
    Value(i128),
    Refused(Code, u32),
}

/// What the expressions may name.
pub const HEAD: &str = "package P is
   type T is range -100 .. 1000;
   subtype S is T range 0 .. 50;
   type Big is range -2 ** 126 - 2 ** 126 .. 2 ** 126 + (2 ** 126 - 1);
   type M8 is mod 8;
   type M10 is mod 10;
   type W is mod 2 ** 64;
   subtype Ms is M10 range 2 .. 7;
   type Color is (Red, Green, Blue, Pink);
   subtype Few is Color range Green .. Blue;
   type Arr is array (1 .. 10) of Integer;
   type Grid is array (Few) of Arr;
   N7 : constant := 7;
   Ct : constant T := 12;
   C8 : constant M8 := 5;
   C10 : constant M10 := 9;
   Cb : constant Big := -2 ** 126 - 2 ** 126;
   Cd : constant Time_Span := Milliseconds (3);
   V : Integer := 0;
   Va : Arr := (others => 0);
   Vg : Grid := (others => (others => 0));
";

pub const BEFORE: &str = "   X : constant := ";

/// The range of a type of so many.
fn range(
    number: u32,
    first: u32,
    (low, high): (i128, i128),
    (least, greatest): (i128, i128),
    modular: Option<u64>,
) -> Option<Range> {
    Some(Range {
        subtype: TypeNo(number),
        first: TypeNo(first),
        low,
        high,
        least,
        greatest,
        modular,
    })
}

/// The range of the type of this name.
fn range_of(key: &[u8]) -> Option<Range> {
    let colors = (0, 3);
    match key {
        b"t" => range(10, 10, (-100, 1000), (-100, 1000), None),
        b"s" => range(11, 10, (0, 50), (-100, 1000), None),
        b"big" => range(12, 12, (i128::MIN, i128::MAX), (i128::MIN, i128::MAX), None),
        b"m8" => range(13, 13, (0, 7), (0, 7), Some(7)),
        b"m10" => range(14, 14, (0, 9), (0, 9), Some(9)),
        b"w" => range(
            15,
            15,
            (0, 18446744073709551615),
            (0, 18446744073709551615),
            Some(18446744073709551615),
        ),
        b"ms" => range(16, 14, (2, 7), (0, 9), Some(9)),
        b"color" => range(17, 17, colors, colors, None),
        b"few" => range(18, 17, (1, 2), colors, None),
        b"arr" => range(19, 1, (1, 10), (-2147483648, 2147483647), None),
        b"grid" => range(18, 17, (1, 2), colors, None),
        _ => None,
    }
}

/// The value of the constant or the literal of this name.
fn constant(key: &[u8]) -> Option<i128> {
    match key {
        b"red" => Some(0),
        b"green" => Some(1),
        b"blue" => Some(2),
        b"pink" => Some(3),
        b"n7" => Some(7),
        b"ct" => Some(12),
        b"c8" => Some(5),
        b"c10" => Some(9),
        b"cb" => Some(i128::MIN),
        b"cd" => Some(3000000),
        _ => None,
    }
}

/// The first declaration of this name.
fn declared(units: &Units, key: &[u8]) -> Option<DeclNo> {
    for (d, node) in units.decls.as_slice().iter().enumerate() {
        if let Some(name) = &node.name {
            if name.key.as_slice() == key && d < 0xffff {
                return Some(DeclNo(d as u32));
            }
        }
    }
    None
}

/// What is known of the head of the source.
fn known_of(alloc: Global, units: &Units) -> Result<Known, NoMemory> {
    let mut known = Known::new(alloc);
    for (d, node) in units.decls.as_slice().iter().enumerate() {
        if let Some(name) = &node.name
            && d < 0xffff
        {
            if let Some(range) = range_of(name.key.as_slice()) {
                known.ranges.push(d as u32, range)?;
            }
            if let Some(value) = constant(name.key.as_slice()) {
                known.values.push(d as u32, value)?;
            }
        }
    }
    for e in 0..units.exprs.len() {
        if e < 0xffff {
            name_of(units, &mut known, e as u32)?;
        }
    }
    Ok(known)
}

/// Adds what an expression denotes, if it is a name. An element of `Vg` is of type `Arr`.
fn name_of(units: &Units, known: &mut Known, e: u32) -> Result<(), NoMemory> {
    let denoted = match expr_form(units, ExprNo(e)).form {
        ExprForm::Identifier(name) => declared(units, name.key.as_slice()),
        ExprForm::Applied { prefix, .. } => match expr_form(units, prefix).form {
            ExprForm::Identifier(name) => {
                if name.key.as_slice() == b"vg".as_slice() {
                    declared(units, b"arr")
                } else {
                    None
                }
            }
            _ => None,
        },
        _ => None,
    };
    if let Some(d) = denoted {
        known.names.push(e, d)?;
    }
    Ok(())
}

/// What comes of an expression.
fn answer_of(alloc: Global, units: &Units, known: &Known, e: ExprNo) -> Result<Answer, NoMemory> {
    match value_of(alloc, units, known, e) {
        Ok(value) => Ok(Answer::Value(value)),
        Err(PhaseFault::Refused(message)) => Ok(Answer::Refused(
            message.code,
            message.place.col.saturating_sub(BEFORE.len() as u32),
        )),
        Err(PhaseFault::NoMemory) => Err(NoMemory),
    }
}

/// What comes of the values of the constants of the name X, in order.
pub fn answers(alloc: Global, source: Bytes) -> Result<Vec<Answer>, NoMemory> {
    let Ok(tokens) = lex(alloc, FileNo(0), source) else {
        return Err(NoMemory);
    };
    let mut all = Items::new(alloc);
    all.push(tokens)?;
    let Ok(units) = parse(alloc, all.as_slice()) else {
        return Err(NoMemory);
    };
    let known = known_of(alloc, &units)?;
    let mut answers = Vec::new(alloc);
    for d in 0..units.decls.len() {
        if d < 0xffff
            && let DeclForm::NamedNumber { name, value } = decl_form(
                &units,
                DeclNo(d as u32),
            ).form
        {
            if name.key.as_slice() == b"x".as_slice() {
                answers.push(answer_of(alloc, &units, &known, value)?)?;
            }
        }
    }
    Ok(answers)
}

/// Whether each expression is worth what stands beside it.
fn are_worth(alloc: Global, rows: &[(&str, Answer)]) -> Result<bool, NoMemory> {
    let mut source = Bytes::from_slice(alloc, HEAD.as_bytes())?;
    for (text, _) in rows {
        source.append(BEFORE.as_bytes())?;
        source.append(text.as_bytes())?;
        source.append(b";\n")?;
    }
    source.append(b"end P;\n")?;
    let found = answers(alloc, source)?;
    let same = found
        .as_slice()
        .iter()
        .zip(rows.iter())
        .all(|(a, (_, wanted))| a == wanted);
    Ok(same && found.len() == rows.len())
}

#[test]
fn first_rows(rt: HostRuntime) -> Result<(), Fail> {
    let alloc = rt.alloc();
    assert!(rt; are_worth(alloc, FIRST.as_slice())?);
    Ok(())
}

#[test]
fn second_rows(rt: HostRuntime) -> Result<(), Fail> {
    let alloc = rt.alloc();
    assert!(rt; are_worth(alloc, SECOND.as_slice())?);
    Ok(())
}

#[test]
fn third_rows(rt: HostRuntime) -> Result<(), Fail> {
    let alloc = rt.alloc();
    assert!(rt; are_worth(alloc, THIRD.as_slice())?);
    Ok(())
}

#[test]
fn fourth_rows(rt: HostRuntime) -> Result<(), Fail> {
    let alloc = rt.alloc();
    assert!(rt; are_worth(alloc, FOURTH.as_slice())?);
    Ok(())
}

#[test]
fn fifth_rows(rt: HostRuntime) -> Result<(), Fail> {
    let alloc = rt.alloc();
    assert!(rt; are_worth(alloc, FIFTH.as_slice())?);
    Ok(())
}

#[test]
fn sixth_rows(rt: HostRuntime) -> Result<(), Fail> {
    let alloc = rt.alloc();
    assert!(rt; are_worth(alloc, SIXTH.as_slice())?);
    Ok(())
}

#[test]
fn seventh_rows(rt: HostRuntime) -> Result<(), Fail> {
    let alloc = rt.alloc();
    assert!(rt; are_worth(alloc, SEVENTH.as_slice())?);
    Ok(())
}

#[test]
fn eighth_rows(rt: HostRuntime) -> Result<(), Fail> {
    let alloc = rt.alloc();
    assert!(rt; are_worth(alloc, EIGHTH.as_slice())?);
    Ok(())
}
