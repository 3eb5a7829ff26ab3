//! What is said of an expression, over its parts from the left to the right.
ghost use Rattle.std.specs.Prelude.{ℕ, ◌≡◌, ◌<◌, ◌≤◌, ◌∷◌, [], All, map, IfOk, IfSome, None};
ghost use Rattle.spark_base.specs.declared.numbers.ExprNo.{ExprNo as Number};
ghost use Rattle.spark_base.specs.declared.numbers.Pos.{Pos as Place};
ghost use Rattle.ada_forms.specs.AttributeWords.{property_of};
ghost use Rattle.static_eval.specs.Judgements as says;
ghost use Rattle.ada_forms.specs.Forms.{AreBelow, Expr as Tree, expr_of, form_tree, listed};
ghost use Rattle.static_eval.specs.Judged.{first_of, judged_all, read_first, reversed, said_of, Spine};
ghost use Rattle.static_eval.specs.Known.{known_meaning, result_at, said};

use crate::judgements::{
    Judgement, applied, attribute, binary, conditional, identifier, in_mark, in_range, literal,
    named_argument, nothing_said, passed, qualified, selected, unary, unstatic,
};
use crate::known::{Known, meaning_at, result_at};
use ada_forms::{BinaryOperator, ExprForm, expr_form, property_of};
use ada_tree::Units;
use spark_base::{ExprNo, Name, NoMemory, Pos};
use std::alloc::Global;

/// The first child of a form.
fn first_child(form: ExprForm) -> Option<ExprNo>
    ensures child { (tree : Number → Tree) (e : Number) (at : Place) → first_of (form_tree tree e at form.entry) ≡ read_first tree result }
    ensures below { (n : ℕ) → AreBelow n form.entry → IfSome result (λ c. c.0 < n) }
{
    match form {
        ExprForm::Number(_) => None,
        ExprForm::Identifier(_) => None,
        ExprForm::Selected { prefix, .. } => Some(prefix),
        ExprForm::Applied { prefix, .. } => Some(prefix),
        ExprForm::Attribute { prefix, .. } => Some(prefix),
        ExprForm::RangeAttribute { prefix, .. } => Some(prefix),
        ExprForm::Qualified { mark, .. } => Some(mark),
        ExprForm::Argument { value } => Some(value),
        ExprForm::NamedArgument { formal, .. } => Some(formal),
        ExprForm::Parenthesized { inner } => Some(inner),
        ExprForm::Unary { operand, .. } => Some(operand),
        ExprForm::Binary { left, .. } => Some(left),
        ExprForm::InRange { value, .. } => Some(value),
        ExprForm::InMark { value, .. } => Some(value),
        ExprForm::Conditional { condition, .. } => Some(condition),
        ExprForm::Positional { first, .. } => Some(first),
        ExprForm::Named { first, .. } => Some(first),
        ExprForm::Association { first, .. } => Some(first),
        ExprForm::ValueChoice { value } => Some(value),
        ExprForm::RangeChoice { low, .. } => Some(low),
        ExprForm::OthersChoice => None,
        ExprForm::Indication { mark } => Some(mark),
        ExprForm::Constrained { mark, .. } => Some(mark),
        ExprForm::SubtypeRange { subtype } => Some(subtype),
        ExprForm::BoundsRange { low, .. } => Some(low),
        ExprForm::AttributeRange { attribute } => Some(attribute),
        ExprForm::EndName(_) => None,
        ExprForm::Absent => None,
    }
}

/// The first child of an expression.
fn first_below(units: &Units, e: ExprNo) -> Option<ExprNo>
    ensures child { first_of (expr_of units.now.exprs e) ≡ read_first (expr_of units.now.exprs) result }
    ensures below { IfSome result (λ c. c.0 < e.0) }
{
    first_child(expr_form(units, e).form)
}

/// The first children from an expression down to one that has none.
#[derive(Drop)]
struct Descent {
    above: Vec<ExprNo>,
    lowest: ExprNo,
}

fn descend(alloc: Global, units: &Units, e: ExprNo) -> Result<Descent, NoMemory>
    ensures spine { IfOk result (λ d. Spine units.now.exprs e (reversed d.above.items) d.lowest) }
    ensures leaf { IfOk result (λ d. first_of (expr_of units.now.exprs d.lowest) ≡ None) }
    ensures below { IfOk result (λ d. All (λ (x : Number). x.0 ≤ e.0) d.above.items) }
    ensures lowest { IfOk result (λ d. d.lowest.0 ≤ e.0) }
{
    let mut above = Vec::new(alloc);
    let mut at = e;
    while let Some(first) = first_below(units, at) {
        above.push(at)?;
        at = first;
    }
    Ok(Descent { above, lowest: at })
}

/// What is said of an expression, by what is known.
#[cycle(judging)]
pub fn judge(alloc: Global, units: &Units, known: &Known, e: ExprNo) -> Result<Judgement, NoMemory>
    ensures { IfOk result (λ j. j ≡ said units.now known.now e) }
{
    let mut descent = descend(alloc, units, e)?;
    let mut said = judge_over(alloc, units, known, descent.lowest, nothing_said())?;
    while let Some(next) = descent.above.pop() {
        said = judge_over(alloc, units, known, next, said)?;
    }
    Ok(said)
}

/// What is said of an expression of whose first child it is said.
#[cycle(judging)]
fn judge_over(
    alloc: Global,
    units: &Units,
    known: &Known,
    e: ExprNo,
    first: Judgement,
) -> Result<Judgement, NoMemory>
    requires first { first ≡ said_of (known_meaning units.now known.now) (first_of (expr_of units.now.exprs e)) }
    ensures { IfOk result (λ j. j ≡ said units.now known.now e) }
{
    let formed = expr_form(units, e);
    let at = formed.at;
    match formed.form {
        ExprForm::Number(n) => Ok(literal(at, n)),
        ExprForm::Identifier(name) => Ok(identifier(at, meaning_at(units, known, e, name))),
        ExprForm::Selected { name, .. } => Ok(selected(
            at,
            meaning_at(units, known, e, name),
            first,
        )),
        ExprForm::Applied { arguments, .. } => judge_applied(
            alloc, units, known, e, at, first, arguments,
        ),
        ExprForm::Attribute {
            name,
            arguments,
            ..
        } => judge_attribute(alloc, units, known, e.0, at, name, first, arguments),
        ExprForm::RangeAttribute { arguments, .. } => judge_listed(
            alloc, units, known, e.0, at, first, arguments,
        ),
        ExprForm::Qualified { value, .. } => judge_qualified(
            alloc, units, known, e.0, at, first, value,
        ),
        ExprForm::Argument { .. } => Ok(passed(at, first)),
        ExprForm::NamedArgument { value, .. } => judge_argument(
            alloc, units, known, e.0, at, first, value,
        ),
        ExprForm::Parenthesized { .. } => Ok(passed(at, first)),
        ExprForm::Unary { operator, .. } => Ok(unary(operator, at, first)),
        ExprForm::Binary {
            operator,
            place,
            right,
            ..
        } => judge_binary(alloc, units, known, e.0, at, operator, place, first, right),
        ExprForm::InRange {
            is_not,
            low,
            high,
            ..
        } => judge_in_range(alloc, units, known, e.0, at, is_not, first, low, high),
        ExprForm::InMark { is_not, mark, .. } => judge_in_mark(
            alloc, units, known, e.0, at, is_not, first, mark,
        ),
        ExprForm::Conditional { rest, .. } => judge_conditional(
            alloc, units, known, e.0, at, first, rest,
        ),
        ExprForm::Positional { rest, .. } => judge_listed(
            alloc, units, known, e.0, at, first, rest,
        ),
        ExprForm::Named { rest, .. } => judge_listed(alloc, units, known, e.0, at, first, rest),
        ExprForm::Association { rest, .. } => judge_listed(
            alloc, units, known, e.0, at, first, rest,
        ),
        ExprForm::ValueChoice { .. } => Ok(unstatic(at, &[first])),
        ExprForm::RangeChoice { high, .. } => judge_listed(
            alloc,
            units,
            known,
            e.0,
            at,
            first,
            &[high],
        ),
        ExprForm::OthersChoice => Ok(unstatic(at, &[])),
        ExprForm::Indication { .. } => Ok(unstatic(at, &[first])),
        ExprForm::Constrained { low, high, .. } => judge_listed(
            alloc,
            units,
            known,
            e.0,
            at,
            first,
            &[low, high],
        ),
        ExprForm::SubtypeRange { .. } => Ok(unstatic(at, &[first])),
        ExprForm::BoundsRange { high, .. } => judge_listed(
            alloc,
            units,
            known,
            e.0,
            at,
            first,
            &[high],
        ),
        ExprForm::AttributeRange { .. } => Ok(unstatic(at, &[first])),
        ExprForm::EndName(_) => Ok(unstatic(at, &[])),
        ExprForm::Absent => Ok(nothing_said()),
    }
}

/// What is said of parts, of the first of which it is said.
#[cycle(judging)]
fn judge_all(
    alloc: Global,
    units: &Units,
    known: &Known,
    below: u32,
    first: Judgement,
    others: &[ExprNo],
) -> Result<Vec<Judgement>, NoMemory>
    requires others { All (λ (c : Number). c.0 < below) others.now }
    ensures { IfOk result (λ v. v.items ≡ first ∷ judged_all (known_meaning units.now known.now) (listed (map (expr_of units.now.exprs) others.now))) }
{
    let mut parts = Vec::new(alloc);
    parts.push(first)?;
    for c in others {
        parts.push(judge(alloc, units, known, *c)?)?;
    }
    Ok(parts)
}

/// A list that is not static.
#[cycle(judging)]
fn judge_listed(
    alloc: Global,
    units: &Units,
    known: &Known,
    below: u32,
    at: Pos,
    first: Judgement,
    others: &[ExprNo],
) -> Result<Judgement, NoMemory>
    requires others { All (λ (c : Number). c.0 < below) others.now }
    ensures { IfOk result (λ j. j ≡ says.unstatic at (first ∷ judged_all (known_meaning units.now known.now) (listed (map (expr_of units.now.exprs) others.now)))) }
{
    let parts = judge_all(alloc, units, known, below, first, others)?;
    Ok(unstatic(at, parts.as_slice()))
}

/// A prefix and its arguments.
#[cycle(judging)]
fn judge_applied(
    alloc: Global,
    units: &Units,
    known: &Known,
    e: ExprNo,
    at: Pos,
    first: Judgement,
    others: &[ExprNo],
) -> Result<Judgement, NoMemory>
    requires others { All (λ (c : Number). c.0 < e.0) others.now }
    ensures { IfOk result (λ j. j ≡ says.applied at (result_at units.now known.now e) (first ∷ judged_all (known_meaning units.now known.now) (listed (map (expr_of units.now.exprs) others.now)))) }
{
    let parts = judge_all(alloc, units, known, e.0, first, others)?;
    Ok(applied(at, result_at(units, known, e), parts.as_slice()))
}

/// An attribute and its arguments.
#[cycle(judging)]
fn judge_attribute(
    alloc: Global,
    units: &Units,
    known: &Known,
    below: u32,
    at: Pos,
    name: &Name,
    first: Judgement,
    others: &[ExprNo],
) -> Result<Judgement, NoMemory>
    requires others { All (λ (c : Number). c.0 < below) others.now }
    ensures { IfOk result (λ j. j ≡ says.attribute at (property_of name.now.written) (first ∷ judged_all (known_meaning units.now known.now) (listed (map (expr_of units.now.exprs) others.now)))) }
{
    let parts = judge_all(alloc, units, known, below, first, others)?;
    Ok(attribute(at, property_of(name.written.as_slice()), parts.as_slice()))
}

/// The conditions and values of a conditional expression.
#[cycle(judging)]
fn judge_conditional(
    alloc: Global,
    units: &Units,
    known: &Known,
    below: u32,
    at: Pos,
    first: Judgement,
    others: &[ExprNo],
) -> Result<Judgement, NoMemory>
    requires others { All (λ (c : Number). c.0 < below) others.now }
    ensures { IfOk result (λ j. j ≡ says.conditional at (first ∷ judged_all (known_meaning units.now known.now) (listed (map (expr_of units.now.exprs) others.now)))) }
{
    let parts = judge_all(alloc, units, known, below, first, others)?;
    Ok(conditional(at, parts.as_slice()))
}

/// A value behind its mark.
#[cycle(judging)]
fn judge_qualified(
    alloc: Global,
    units: &Units,
    known: &Known,
    below: u32,
    at: Pos,
    first: Judgement,
    value: ExprNo,
) -> Result<Judgement, NoMemory>
    requires value { value.0 < below }
    ensures { IfOk result (λ j. j ≡ says.qualified at first (said units.now known.now value)) }
{
    let value = judge(alloc, units, known, value)?;
    Ok(qualified(at, first, value))
}

/// A value behind the name of its formal.
#[cycle(judging)]
fn judge_argument(
    alloc: Global,
    units: &Units,
    known: &Known,
    below: u32,
    at: Pos,
    first: Judgement,
    value: ExprNo,
) -> Result<Judgement, NoMemory>
    requires value { value.0 < below }
    ensures { IfOk result (λ j. j ≡ says.named_argument at first (said units.now known.now value)) }
{
    let value = judge(alloc, units, known, value)?;
    Ok(named_argument(at, first, value))
}

/// An operator between two parts.
#[cycle(judging)]
fn judge_binary(
    alloc: Global,
    units: &Units,
    known: &Known,
    below: u32,
    at: Pos,
    operator: BinaryOperator,
    place: Pos,
    first: Judgement,
    right: ExprNo,
) -> Result<Judgement, NoMemory>
    requires right { right.0 < below }
    ensures { IfOk result (λ j. j ≡ says.binary operator at place first (said units.now known.now right)) }
{
    let right = judge(alloc, units, known, right)?;
    Ok(binary(operator, at, place, first, right))
}

/// A membership in a range.
#[cycle(judging)]
fn judge_in_range(
    alloc: Global,
    units: &Units,
    known: &Known,
    below: u32,
    at: Pos,
    is_not: bool,
    first: Judgement,
    low: ExprNo,
    high: ExprNo,
) -> Result<Judgement, NoMemory>
    requires low { low.0 < below }
    requires high { high.0 < below }
    ensures { IfOk result (λ j. j ≡ says.in_range at is_not first (said units.now known.now low) (said units.now known.now high)) }
{
    let low = judge(alloc, units, known, low)?;
    let high = judge(alloc, units, known, high)?;
    Ok(in_range(at, is_not, first, low, high))
}

/// A membership in a subtype.
#[cycle(judging)]
fn judge_in_mark(
    alloc: Global,
    units: &Units,
    known: &Known,
    below: u32,
    at: Pos,
    is_not: bool,
    first: Judgement,
    mark: ExprNo,
) -> Result<Judgement, NoMemory>
    requires mark { mark.0 < below }
    ensures { IfOk result (λ j. j ≡ says.in_mark at is_not first (said units.now known.now mark)) }
{
    let mark = judge(alloc, units, known, mark)?;
    Ok(in_mark(at, is_not, first, mark))
}
