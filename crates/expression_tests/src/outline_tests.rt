ghost use Rattle.std.specs.Prelude.{◌≡◌, IfSome};
ghost use Rattle.ada_forms.specs.Forms.{expr_of};
ghost use Rattle.expr_outlines.specs.Outlines.{edges};

use ada_forms::{ExprForm, expr_form};
use ada_tree::{ExprKind, ExprNode, Units};
use expr_outlines::{
    Edges, edges_over, first_token, is_aggregate, is_name, is_plain_name, no_edges,
};
use name_findings::Spelling;
use spark_base::{ExprNo, FileNo, Items, Name, Pos, Span};
use std::alloc::Global;
use std::test::Fail;

/// A node in line 1, at the column of its number from 1, with a name or without.
fn node(
    alloc: Global,
    units: &mut Units,
    kind: ExprKind,
    word: &[u8],
    parts: &[ExprNo],
) -> Result<ExprNo, Fail> {
    let number = u32::try_from(units.exprs.len()).unwrap_or(u32::MAX);
    let at = Pos {
        line: 1,
        col: number.saturating_add(1),
    };
    let mut exprs = Items::new(alloc);
    for part in parts {
        exprs.push(*part)?;
    }
    let name = if word.len() > 0 {
        Some(Name::new(alloc, word)?)
    } else {
        None
    };
    units.exprs.push(ExprNode {
        span: Span {
            file: FileNo(0),
            from: at,
            to: at,
        },
        kind,
        name,
        exprs,
    })?;
    Ok(ExprNo(number))
}

#[test]
fn names_and_aggregates(rt: HostRuntime) -> Result<(), Fail> {
    let alloc = rt.alloc();
    let mut units = Units::new(alloc);
    let p = node(alloc, &mut units, ExprKind::Identifier, b"P", &[])?;
    let x = node(alloc, &mut units, ExprKind::Selected, b"X", &[p])?;
    let one = node(alloc, &mut units, ExprKind::Number(1), b"", &[])?;
    let kind = ExprKind::PositionalAggregate { has_others: false };
    let values = node(alloc, &mut units, kind, b"", &[one])?;
    let within = node(alloc, &mut units, ExprKind::Parenthesized, b"", &[values])?;
    let kind = ExprKind::Argument { has_formal: false };
    let argument = node(alloc, &mut units, kind, b"", &[within])?;
    let called = node(alloc, &mut units, ExprKind::Applied, b"", &[x, argument])?;
    let rows = [
        (p, false, true, true, "word"),
        (x, false, true, true, "word"),
        (one, false, false, false, "number"),
        (values, true, false, false, "parenthesis"),
        (within, true, false, false, "parenthesis"),
        (argument, true, false, false, "parenthesis"),
        (called, false, true, false, "word"),
    ];
    for (e, of_values, a_name, plain, token) in rows {
        assert_eq!(rt; is_aggregate(&units, e), of_values);
        assert_eq!(rt; is_name(&units, e), a_name);
        assert_eq!(rt; is_plain_name(&units, e), plain);
        let found = match first_token(&units, e) {
            Spelling::Word(word) => {
                assert!(rt; word == p);
                "word"
            }
            Spelling::Numeral(_) => "number",
            Spelling::Parenthesis => "parenthesis",
            _ => "other",
        };
        assert_eq!(rt; found, token);
    }
    Ok(())
}

/// The edges of a name, an argument or a number, by those of the part with which it begins.
fn edges_of(units: &Units, e: ExprNo) -> Option<Edges>
    ensures { IfSome result (λ of. of ≡ edges (expr_of units.now.exprs e)) }
{
    let beginning = match expr_form(units, e).form {
        ExprForm::Number(_) | ExprForm::Identifier(_) => no_edges(),
        ExprForm::Selected { prefix, .. } => edges_of(units, prefix)?,
        ExprForm::Attribute { prefix, .. } => edges_of(units, prefix)?,
        ExprForm::Applied { prefix, .. } => edges_of(units, prefix)?,
        ExprForm::RangeAttribute { prefix, .. } => edges_of(units, prefix)?,
        ExprForm::Argument { value } => edges_of(units, value)?,
        _ => return None,
    };
    Some(edges_over(units, e, beginning))
}

#[test]
fn a_name_begins_and_ends_with_words(rt: HostRuntime) -> Result<(), Fail> {
    let alloc = rt.alloc();
    let mut units = Units::new(alloc);
    let one = node(alloc, &mut units, ExprKind::Number(1), b"", &[])?;
    let p = node(alloc, &mut units, ExprKind::Identifier, b"P", &[])?;
    let x = node(alloc, &mut units, ExprKind::Selected, b"X", &[p])?;
    let kind = ExprKind::Argument { has_formal: false };
    let argument = node(alloc, &mut units, kind, b"", &[one])?;
    let called = node(alloc, &mut units, ExprKind::Applied, b"", &[x, argument])?;
    let kind = ExprKind::Attribute {
        has_arguments: false,
    };
    let first = node(alloc, &mut units, kind, b"First", &[called])?;
    let kind = ExprKind::RangeAttribute {
        has_arguments: false,
    };
    let range = node(alloc, &mut units, kind, b"", &[called])?;
    let rows = [
        (one, 1, None),
        (p, 2, Some(p)),
        (x, 2, Some(x)),
        (argument, 1, None),
        (called, 2, Some(x)),
        (first, 2, Some(first)),
        (range, 2, None),
    ];
    for (e, column, word) in rows {
        let found = edges_of(&units, e).expect(&rt, "each has its edges");
        assert_eq!(rt; found.begins.col, column);
        assert!(rt; found.ending.map(|mention| mention.expr) == word);
    }
    Ok(())
}
