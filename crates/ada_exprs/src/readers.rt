ghost use Rattle.std.specs.Prelude.{◌≡◌, ◌<◌, ◌≤◌, [], ◌∷◌, true, length, IfOk, OnErr};
ghost use Rattle.ada_exprs.specs.Steps.{MaybeSuffixed, Suffixed};
ghost use Rattle.ada_grammar.specs.Built.{AreBelow, Extends, phrase, trees, trees_at};
ghost use Rattle.ada_grammar.specs.Parts as parts;
ghost use Rattle.ada_grammar.specs.Lexemes.{lexeme, lexemes};
ghost use Rattle.ada_grammar.specs.Phrases as phrases;
ghost use Rattle.ada_grammar.specs.Reading.{Answers};

use crate::operators::{again, operator};
use ada_grammar::{
    Built, Class, Cursor, Fault, Form, accept, add_named, add_node, add_one, add_three, add_two,
    adding_of, expect, is_identifier, is_mark, is_range, join, multiplying_of, number_of, one,
    relational_of, selected_form, two,
};
use ada_tree::{ExprKind, ExprNode, LogicalOperator, Mark, Reserved, Token, TokenKind, Tokens};
use spark_base::{ExprNo, Items, NoMemory, Span};
use std::alloc::Global;

/// An expression.
#[cycle(exprs)]
pub fn read_expr(
    alloc: Global,
    exprs: &mut Items<ExprNode>,
    tokens: &Tokens,
    cursor: Cursor,
) -> Result<(Built, Cursor), Fault>
    requires at { cursor.at ≤ length (lexemes tokens.now) }
    ensures extends { Extends exprs.old exprs.new }
    ensures reads { Answers (parts.Expr) (lexemes tokens.now) cursor (trees exprs.new) result }
{
    let (left, next) = read_simple(alloc, exprs, tokens, cursor)?;
    continue_expr(alloc, exprs, tokens, next, left)
}

/// An expression behind its first simple expression.
#[cycle(exprs)]
fn continue_expr(
    alloc: Global,
    exprs: &mut Items<ExprNode>,
    tokens: &Tokens,
    cursor: Cursor,
    left: Built,
) -> Result<(Built, Cursor), Fault>
    requires at { cursor.at ≤ length (lexemes tokens.now) }
    requires left { left.node.0 < length (trees exprs.old) }
    ensures extends { Extends exprs.old exprs.new }
    ensures reads { Answers (parts.Continued (phrase (trees exprs.old) left)) (lexemes tokens.now) cursor (trees exprs.new) result }
{
    let (left, next) = rest_of_rel(alloc, exprs, tokens, cursor, left)?;
    rest_of_expr(alloc, exprs, tokens, next, left)
}

/// The chain behind a first relation.
#[cycle(exprs)]
fn rest_of_expr(
    alloc: Global,
    exprs: &mut Items<ExprNode>,
    tokens: &Tokens,
    cursor: Cursor,
    left: Built,
) -> Result<(Built, Cursor), Fault>
    requires at { cursor.at ≤ length (lexemes tokens.now) }
    requires left { left.node.0 < length (trees exprs.old) }
    ensures extends { Extends exprs.old exprs.new }
    ensures reads { Answers (parts.RestOfExpr (phrase (trees exprs.old) left)) (lexemes tokens.now) cursor (trees exprs.new) result }
{
    let Some((operator, token, next)) = operator(tokens, cursor)? else {
        return Ok((left, cursor));
    };
    let (mut left, mut cursor) = right_side(alloc, exprs, tokens, next, operator, left, token)?;
    while let Some((token, next)) = again(tokens, cursor, operator)? {
        (left, cursor) = right_side(alloc, exprs, tokens, next, operator, left, token)?;
    }
    Ok((left, cursor))
}

/// The right operand of an operator between relations.
#[cycle(exprs)]
fn right_side(
    alloc: Global,
    exprs: &mut Items<ExprNode>,
    tokens: &Tokens,
    cursor: Cursor,
    operator: LogicalOperator,
    left: Built,
    token: Token,
) -> Result<(Built, Cursor), Fault>
    requires at { cursor.at ≤ length (lexemes tokens.now) }
    requires left { left.node.0 < length (trees exprs.old) }
    ensures extends { Extends exprs.old exprs.new }
    ensures reads { Answers (parts.Begun operator (phrase (trees exprs.old) left) (lexeme tokens.now.source token)) (lexemes tokens.now) cursor (trees exprs.new) result }
{
    let (right, next) = read_rel(alloc, exprs, tokens, cursor)?;
    let kind = ExprKind::Logical {
        operator,
        place: token.span.from,
    };
    let node = add_two(
        alloc,
        exprs,
        Form::Relation,
        kind,
        join(left.span, right.span),
        left.node,
        right.node,
    )?;
    Ok((node, next))
}

/// A relation or a membership.
#[cycle(exprs)]
fn read_rel(
    alloc: Global,
    exprs: &mut Items<ExprNode>,
    tokens: &Tokens,
    cursor: Cursor,
) -> Result<(Built, Cursor), Fault>
    requires at { cursor.at ≤ length (lexemes tokens.now) }
    ensures extends { Extends exprs.old exprs.new }
    ensures reads { Answers (parts.Rel) (lexemes tokens.now) cursor (trees exprs.new) result }
{
    let (left, next) = read_simple(alloc, exprs, tokens, cursor)?;
    rest_of_rel(alloc, exprs, tokens, next, left)
}

/// A relation behind its first simple expression.
#[cycle(exprs)]
fn rest_of_rel(
    alloc: Global,
    exprs: &mut Items<ExprNode>,
    tokens: &Tokens,
    cursor: Cursor,
    left: Built,
) -> Result<(Built, Cursor), Fault>
    requires at { cursor.at ≤ length (lexemes tokens.now) }
    requires left { left.node.0 < length (trees exprs.old) }
    ensures extends { Extends exprs.old exprs.new }
    ensures reads { Answers (parts.RestOfRel (phrase (trees exprs.old) left)) (lexemes tokens.now) cursor (trees exprs.new) result }
{
    if let Some((token, next)) = accept(tokens, cursor, Class::Relational)? {
        let (right, end) = read_simple(alloc, exprs, tokens, next)?;
        let kind = ExprKind::Relation {
            operator: relational_of(token.kind),
            place: token.span.from,
        };
        let node = add_two(
            alloc,
            exprs,
            Form::Relation,
            kind,
            join(left.span, right.span),
            left.node,
            right.node,
        )?;
        return Ok((node, end));
    }
    if let Some((_, next)) = accept(tokens, cursor, Class::Reserved(Reserved::Not))? {
        let (_, end) = expect(tokens, next, Class::Reserved(Reserved::In))?;
        return read_membership(alloc, exprs, tokens, end, true, left);
    }
    match accept(tokens, cursor, Class::Reserved(Reserved::In))? {
        Some((_, next)) => read_membership(alloc, exprs, tokens, next, false, left),
        None => Ok((left, cursor)),
    }
}

/// What stands behind `in`.
#[cycle(exprs)]
fn read_membership(
    alloc: Global,
    exprs: &mut Items<ExprNode>,
    tokens: &Tokens,
    cursor: Cursor,
    is_not: bool,
    left: Built,
) -> Result<(Built, Cursor), Fault>
    requires at { cursor.at ≤ length (lexemes tokens.now) }
    requires left { left.node.0 < length (trees exprs.old) }
    ensures extends { Extends exprs.old exprs.new }
    ensures reads { Answers (parts.Membership is_not (phrase (trees exprs.old) left)) (lexemes tokens.now) cursor (trees exprs.new) result }
{
    let (low, next) = read_simple(alloc, exprs, tokens, cursor)?;
    if let Some((_, next)) = accept(tokens, next, Class::Mark(Mark::Dots))? {
        let (high, end) = read_simple(alloc, exprs, tokens, next)?;
        let kind = ExprKind::RangeMembership { is_not };
        let span = join(left.span, high.span);
        let node = add_three(
            alloc,
            exprs,
            Form::Relation,
            kind,
            span,
            left.node,
            low.node,
            high.node,
        )?;
        return Ok((node, end));
    }
    if !is_mark(low.form) {
        return Err(Fault::Syntax(next.at));
    }
    let kind = ExprKind::MarkMembership { is_not };
    let node = add_two(
        alloc,
        exprs,
        Form::Relation,
        kind,
        join(left.span, low.span),
        left.node,
        low.node,
    )?;
    Ok((node, next))
}

/// A simple expression.
#[cycle(exprs)]
pub fn read_simple(
    alloc: Global,
    exprs: &mut Items<ExprNode>,
    tokens: &Tokens,
    cursor: Cursor,
) -> Result<(Built, Cursor), Fault>
    requires at { cursor.at ≤ length (lexemes tokens.now) }
    ensures extends { Extends exprs.old exprs.new }
    ensures reads { Answers (parts.Simple) (lexemes tokens.now) cursor (trees exprs.new) result }
{
    let (mut left, mut next) = read_signed(alloc, exprs, tokens, cursor)?;
    while let Some((token, behind)) = accept(tokens, next, Class::Adding)? {
        let (right, end) = read_term(alloc, exprs, tokens, behind)?;
        let kind = ExprKind::Sum {
            operator: adding_of(token.kind),
            place: token.span.from,
        };
        left = add_two(
            alloc,
            exprs,
            Form::Simple,
            kind,
            join(left.span, right.span),
            left.node,
            right.node,
        )?;
        next = end;
    }
    Ok((left, next))
}

/// A term, with or without a sign.
#[cycle(exprs)]
fn read_signed(
    alloc: Global,
    exprs: &mut Items<ExprNode>,
    tokens: &Tokens,
    cursor: Cursor,
) -> Result<(Built, Cursor), Fault>
    requires at { cursor.at ≤ length (lexemes tokens.now) }
    ensures extends { Extends exprs.old exprs.new }
    ensures reads { Answers (parts.Signed) (lexemes tokens.now) cursor (trees exprs.new) result }
{
    let Some((token, next)) = accept(tokens, cursor, Class::Adding)? else {
        return read_term(alloc, exprs, tokens, cursor);
    };
    let (term, end) = read_term(alloc, exprs, tokens, next)?;
    let kind = ExprKind::Sign {
        operator: adding_of(token.kind),
    };
    let node = add_one(
        alloc,
        exprs,
        Form::Simple,
        kind,
        join(token.span, term.span),
        term.node,
    )?;
    Ok((node, end))
}

/// A term.
#[cycle(exprs)]
fn read_term(
    alloc: Global,
    exprs: &mut Items<ExprNode>,
    tokens: &Tokens,
    cursor: Cursor,
) -> Result<(Built, Cursor), Fault>
    requires at { cursor.at ≤ length (lexemes tokens.now) }
    ensures extends { Extends exprs.old exprs.new }
    ensures reads { Answers (parts.Term) (lexemes tokens.now) cursor (trees exprs.new) result }
{
    let (mut left, mut next) = read_factor(alloc, exprs, tokens, cursor)?;
    while let Some((token, behind)) = accept(tokens, next, Class::Multiplying)? {
        let (right, end) = read_factor(alloc, exprs, tokens, behind)?;
        let kind = ExprKind::Product {
            operator: multiplying_of(token.kind),
            place: token.span.from,
        };
        left = add_two(
            alloc,
            exprs,
            Form::Simple,
            kind,
            join(left.span, right.span),
            left.node,
            right.node,
        )?;
        next = end;
    }
    Ok((left, next))
}

/// A factor.
#[cycle(exprs)]
fn read_factor(
    alloc: Global,
    exprs: &mut Items<ExprNode>,
    tokens: &Tokens,
    cursor: Cursor,
) -> Result<(Built, Cursor), Fault>
    requires at { cursor.at ≤ length (lexemes tokens.now) }
    ensures extends { Extends exprs.old exprs.new }
    ensures reads { Answers (parts.Factor) (lexemes tokens.now) cursor (trees exprs.new) result }
{
    if let Some((token, next)) = accept(tokens, cursor, Class::Reserved(Reserved::Abs))? {
        let (operand, end) = read_primary(alloc, exprs, tokens, next)?;
        let span = join(token.span, operand.span);
        let node = add_one(
            alloc,
            exprs,
            Form::Simple,
            ExprKind::Absolute,
            span,
            operand.node,
        )?;
        return Ok((node, end));
    }
    if let Some((token, next)) = accept(tokens, cursor, Class::Reserved(Reserved::Not))? {
        let (operand, end) = read_primary(alloc, exprs, tokens, next)?;
        let span = join(token.span, operand.span);
        let node = add_one(
            alloc,
            exprs,
            Form::Simple,
            ExprKind::Not,
            span,
            operand.node,
        )?;
        return Ok((node, end));
    }
    read_power(alloc, exprs, tokens, cursor)
}

/// A primary, and the exponent behind it if there is one.
#[cycle(exprs)]
fn read_power(
    alloc: Global,
    exprs: &mut Items<ExprNode>,
    tokens: &Tokens,
    cursor: Cursor,
) -> Result<(Built, Cursor), Fault>
    requires at { cursor.at ≤ length (lexemes tokens.now) }
    ensures extends { Extends exprs.old exprs.new }
    ensures reads { Answers (parts.Powered) (lexemes tokens.now) cursor (trees exprs.new) result }
{
    let (base, next) = read_primary(alloc, exprs, tokens, cursor)?;
    let Some((token, next)) = accept(tokens, next, Class::Mark(Mark::Power))? else {
        return Ok((base, next));
    };
    let (exponent, end) = read_primary(alloc, exprs, tokens, next)?;
    let kind = ExprKind::Power {
        place: token.span.from,
    };
    let span = join(base.span, exponent.span);
    let node = add_two(
        alloc,
        exprs,
        Form::Simple,
        kind,
        span,
        base.node,
        exponent.node,
    )?;
    Ok((node, end))
}

/// A primary.
#[cycle(exprs)]
pub fn read_primary(
    alloc: Global,
    exprs: &mut Items<ExprNode>,
    tokens: &Tokens,
    cursor: Cursor,
) -> Result<(Built, Cursor), Fault>
    requires at { cursor.at ≤ length (lexemes tokens.now) }
    ensures extends { Extends exprs.old exprs.new }
    ensures reads { Answers (parts.Primary) (lexemes tokens.now) cursor (trees exprs.new) result }
{
    if let Some((token, next)) = accept(tokens, cursor, Class::Number)? {
        let kind = ExprKind::Number(number_of(token.kind));
        let node = add_node(exprs, Form::Simple, kind, token.span, Items::new(alloc))?;
        return Ok((node, next));
    }
    if let Some((token, next)) = accept(tokens, cursor, Class::Word)? {
        let node = add_named(
            alloc,
            exprs,
            tokens,
            Form::Identifier,
            ExprKind::Identifier,
            token,
            token.span,
            Items::new(alloc),
        )?;
        return read_suffixes(alloc, exprs, tokens, next, node);
    }
    let (opening, next) = expect(tokens, cursor, Class::Mark(Mark::Open))?;
    read_parens(alloc, exprs, tokens, next, opening)
}

/// What stands in the parentheses of a primary, to the closing one.
#[cycle(exprs)]
fn read_parens(
    alloc: Global,
    exprs: &mut Items<ExprNode>,
    tokens: &Tokens,
    cursor: Cursor,
    opening: Token,
) -> Result<(Built, Cursor), Fault>
    requires at { cursor.at ≤ length (lexemes tokens.now) }
    ensures extends { Extends exprs.old exprs.new }
    ensures reads { Answers (parts.Parens (lexeme tokens.now.source opening)) (lexemes tokens.now) cursor (trees exprs.new) result }
{
    let Some((token, next)) = accept(tokens, cursor, Class::Reserved(Reserved::If))? else {
        return read_in_parens(alloc, exprs, tokens, cursor, opening);
    };
    let (inner, end) = read_conditional(alloc, exprs, tokens, next, token)?;
    let (closing, end) = expect(tokens, end, Class::Mark(Mark::Close))?;
    let span = join(opening.span, closing.span);
    let node = add_one(
        alloc,
        exprs,
        Form::Simple,
        ExprKind::Parenthesized,
        span,
        inner.node,
    )?;
    Ok((node, end))
}

/// A conditional expression behind its `if`.
#[cycle(exprs)]
fn read_conditional(
    alloc: Global,
    exprs: &mut Items<ExprNode>,
    tokens: &Tokens,
    cursor: Cursor,
    token: Token,
) -> Result<(Built, Cursor), Fault>
    requires at { cursor.at ≤ length (lexemes tokens.now) }
    ensures extends { Extends exprs.old exprs.new }
    ensures reads { Answers (parts.Condition (lexeme tokens.now.source token)) (lexemes tokens.now) cursor (trees exprs.new) result }
{
    let (condition, next) = read_expr(alloc, exprs, tokens, cursor)?;
    let (_, next) = expect(tokens, next, Class::Reserved(Reserved::Then))?;
    let (value, mut next) = read_expr(alloc, exprs, tokens, next)?;
    let mut arms = two(alloc, condition.node, value.node)?;
    while let Some((_, behind)) = accept(tokens, next, Class::Reserved(Reserved::Elsif))? {
        let (condition, behind) = read_expr(alloc, exprs, tokens, behind)?;
        let (_, behind) = expect(tokens, behind, Class::Reserved(Reserved::Then))?;
        let (value, end) = read_expr(alloc, exprs, tokens, behind)?;
        arms.push(condition.node)?;
        arms.push(value.node)?;
        next = end;
    }
    let (_, next) = expect(tokens, next, Class::Reserved(Reserved::Else))?;
    let (last, end) = read_expr(alloc, exprs, tokens, next)?;
    arms.push(last.node)?;
    let node = add_node(
        exprs,
        Form::Simple,
        ExprKind::Conditional,
        join(token.span, last.span),
        arms,
    )?;
    Ok((node, end))
}

/// An aggregate or an expression in parentheses, behind the opening one.
#[cycle(exprs)]
fn read_in_parens(
    alloc: Global,
    exprs: &mut Items<ExprNode>,
    tokens: &Tokens,
    cursor: Cursor,
    opening: Token,
) -> Result<(Built, Cursor), Fault>
    requires at { cursor.at ≤ length (lexemes tokens.now) }
    ensures extends { Extends exprs.old exprs.new }
    ensures reads { Answers (parts.InParens (lexeme tokens.now.source opening)) (lexemes tokens.now) cursor (trees exprs.new) result }
{
    if let Some((token, next)) = accept(tokens, cursor, Class::Reserved(Reserved::Others))? {
        let choice = add_node(
            exprs,
            Form::Simple,
            ExprKind::OthersChoice,
            token.span,
            Items::new(alloc),
        )?;
        return read_named_aggregate(alloc, exprs, tokens, next, opening, choice);
    }
    let (low, next) = read_simple(alloc, exprs, tokens, cursor)?;
    let Some((_, behind)) = accept(tokens, next, Class::Mark(Mark::Dots))? else {
        let (inner, end) = continue_expr(alloc, exprs, tokens, next, low)?;
        return behind_inner(alloc, exprs, tokens, end, opening, inner);
    };
    let (high, end) = read_simple(alloc, exprs, tokens, behind)?;
    let span = join(low.span, high.span);
    let choice = add_two(
        alloc,
        exprs,
        Form::Simple,
        ExprKind::RangeChoice,
        span,
        low.node,
        high.node,
    )?;
    read_named_aggregate(alloc, exprs, tokens, end, opening, choice)
}

/// What stands behind the first expression in parentheses.
#[cycle(exprs)]
fn behind_inner(
    alloc: Global,
    exprs: &mut Items<ExprNode>,
    tokens: &Tokens,
    cursor: Cursor,
    opening: Token,
    inner: Built,
) -> Result<(Built, Cursor), Fault>
    requires at { cursor.at ≤ length (lexemes tokens.now) }
    requires inner { inner.node.0 < length (trees exprs.old) }
    ensures extends { Extends exprs.old exprs.new }
    ensures reads { Answers (parts.BehindExpr (lexeme tokens.now.source opening) (phrase (trees exprs.old) inner)) (lexemes tokens.now) cursor (trees exprs.new) result }
{
    if let Some((closing, next)) = accept(tokens, cursor, Class::Mark(Mark::Close))? {
        let span = join(opening.span, closing.span);
        let node = add_one(
            alloc,
            exprs,
            Form::Simple,
            ExprKind::Parenthesized,
            span,
            inner.node,
        )?;
        return Ok((node, next));
    }
    if let Some((_, next)) = accept(tokens, cursor, Class::Mark(Mark::Comma))? {
        let (second, end) = read_expr(alloc, exprs, tokens, next)?;
        let items = two(alloc, inner.node, second.node)?;
        return read_items(alloc, exprs, tokens, end, opening, items);
    }
    let choice = add_one(
        alloc,
        exprs,
        Form::Simple,
        ExprKind::ValueChoice,
        inner.span,
        inner.node,
    )?;
    read_named_aggregate(alloc, exprs, tokens, cursor, opening, choice)
}

/// A positional aggregate behind its second value.
#[cycle(exprs)]
fn read_items(
    alloc: Global,
    exprs: &mut Items<ExprNode>,
    tokens: &Tokens,
    cursor: Cursor,
    opening: Token,
    items: Items<ExprNo>,
) -> Result<(Built, Cursor), Fault>
    requires at { cursor.at ≤ length (lexemes tokens.now) }
    requires items { AreBelow (length (trees exprs.old)) items }
    ensures extends { Extends exprs.old exprs.new }
    ensures reads { Answers (parts.Items (lexeme tokens.now.source opening) (trees_at (trees exprs.old) items)) (lexemes tokens.now) cursor (trees exprs.new) result }
{
    let mut items = items;
    let mut next = cursor;
    while let Some((_, behind)) = accept(tokens, next, Class::Mark(Mark::Comma))? {
        if let Some((_, behind)) = accept(tokens, behind, Class::Reserved(Reserved::Others))? {
            return read_last_item(alloc, exprs, tokens, behind, opening, items);
        }
        let (item, end) = read_expr(alloc, exprs, tokens, behind)?;
        items.push(item.node)?;
        next = end;
    }
    let (closing, end) = expect(tokens, next, Class::Mark(Mark::Close))?;
    let kind = ExprKind::PositionalAggregate { has_others: false };
    let node = add_node(
        exprs,
        Form::Simple,
        kind,
        join(opening.span, closing.span),
        items,
    )?;
    Ok((node, end))
}

/// The value of `others` in a positional aggregate, behind the word.
#[cycle(exprs)]
fn read_last_item(
    alloc: Global,
    exprs: &mut Items<ExprNode>,
    tokens: &Tokens,
    cursor: Cursor,
    opening: Token,
    items: Items<ExprNo>,
) -> Result<(Built, Cursor), Fault>
    requires at { cursor.at ≤ length (lexemes tokens.now) }
    requires items { AreBelow (length (trees exprs.old)) items }
    ensures extends { Extends exprs.old exprs.new }
    ensures reads { Answers (parts.LastItem (lexeme tokens.now.source opening) (trees_at (trees exprs.old) items)) (lexemes tokens.now) cursor (trees exprs.new) result }
{
    let mut items = items;
    let (_, next) = expect(tokens, cursor, Class::Mark(Mark::Arrow))?;
    let (last, next) = read_expr(alloc, exprs, tokens, next)?;
    let (closing, end) = expect(tokens, next, Class::Mark(Mark::Close))?;
    items.push(last.node)?;
    let kind = ExprKind::PositionalAggregate { has_others: true };
    let node = add_node(
        exprs,
        Form::Simple,
        kind,
        join(opening.span, closing.span),
        items,
    )?;
    Ok((node, end))
}

/// A named aggregate behind its first choice.
#[cycle(exprs)]
fn read_named_aggregate(
    alloc: Global,
    exprs: &mut Items<ExprNode>,
    tokens: &Tokens,
    cursor: Cursor,
    opening: Token,
    choice: Built,
) -> Result<(Built, Cursor), Fault>
    requires at { cursor.at ≤ length (lexemes tokens.now) }
    requires choice { choice.node.0 < length (trees exprs.old) }
    ensures extends { Extends exprs.old exprs.new }
    ensures reads { Answers (parts.NamedFrom (lexeme tokens.now.source opening) (phrase (trees exprs.old) choice)) (lexemes tokens.now) cursor (trees exprs.new) result }
{
    let (first, mut next) = rest_of_association(alloc, exprs, tokens, cursor, choice)?;
    let mut associations = one(alloc, first.node)?;
    while let Some((_, behind)) = accept(tokens, next, Class::Mark(Mark::Comma))? {
        let (association, end) = read_association(alloc, exprs, tokens, behind)?;
        associations.push(association.node)?;
        next = end;
    }
    let (closing, end) = expect(tokens, next, Class::Mark(Mark::Close))?;
    let span = join(opening.span, closing.span);
    let node = add_node(
        exprs,
        Form::Simple,
        ExprKind::NamedAggregate,
        span,
        associations,
    )?;
    Ok((node, end))
}

/// Choices and their value.
#[cycle(exprs)]
fn read_association(
    alloc: Global,
    exprs: &mut Items<ExprNode>,
    tokens: &Tokens,
    cursor: Cursor,
) -> Result<(Built, Cursor), Fault>
    requires at { cursor.at ≤ length (lexemes tokens.now) }
    ensures extends { Extends exprs.old exprs.new }
    ensures reads { Answers (parts.Association) (lexemes tokens.now) cursor (trees exprs.new) result }
{
    let (choice, next) = read_choice(alloc, exprs, tokens, cursor)?;
    rest_of_association(alloc, exprs, tokens, next, choice)
}

/// Further choices and the value, behind a first choice.
#[cycle(exprs)]
fn rest_of_association(
    alloc: Global,
    exprs: &mut Items<ExprNode>,
    tokens: &Tokens,
    cursor: Cursor,
    choice: Built,
) -> Result<(Built, Cursor), Fault>
    requires at { cursor.at ≤ length (lexemes tokens.now) }
    requires choice { choice.node.0 < length (trees exprs.old) }
    ensures extends { Extends exprs.old exprs.new }
    ensures reads { Answers (parts.Choices choice.span (trees_at (trees exprs.old) (choice.node ∷ []))) (lexemes tokens.now) cursor (trees exprs.new) result }
{
    let mut children = one(alloc, choice.node)?;
    let mut next = cursor;
    while let Some((_, behind)) = accept(tokens, next, Class::Mark(Mark::Bar))? {
        let (further, end) = read_choice(alloc, exprs, tokens, behind)?;
        children.push(further.node)?;
        next = end;
    }
    let (_, next) = expect(tokens, next, Class::Mark(Mark::Arrow))?;
    let (value, end) = read_expr(alloc, exprs, tokens, next)?;
    children.push(value.node)?;
    let node = add_node(
        exprs,
        Form::Simple,
        ExprKind::Association,
        join(choice.span, value.span),
        children,
    )?;
    Ok((node, end))
}

/// A choice.
#[cycle(exprs)]
pub fn read_choice(
    alloc: Global,
    exprs: &mut Items<ExprNode>,
    tokens: &Tokens,
    cursor: Cursor,
) -> Result<(Built, Cursor), Fault>
    requires at { cursor.at ≤ length (lexemes tokens.now) }
    ensures extends { Extends exprs.old exprs.new }
    ensures reads { Answers (parts.Choice) (lexemes tokens.now) cursor (trees exprs.new) result }
{
    if let Some((token, next)) = accept(tokens, cursor, Class::Reserved(Reserved::Others))? {
        let node = add_node(
            exprs,
            Form::Simple,
            ExprKind::OthersChoice,
            token.span,
            Items::new(alloc),
        )?;
        return Ok((node, next));
    }
    let (low, next) = read_simple(alloc, exprs, tokens, cursor)?;
    let Some((_, behind)) = accept(tokens, next, Class::Mark(Mark::Dots))? else {
        let (value, end) = continue_expr(alloc, exprs, tokens, next, low)?;
        let node = add_one(
            alloc,
            exprs,
            Form::Simple,
            ExprKind::ValueChoice,
            value.span,
            value.node,
        )?;
        return Ok((node, end));
    };
    let (high, end) = read_simple(alloc, exprs, tokens, behind)?;
    let span = join(low.span, high.span);
    let node = add_two(
        alloc,
        exprs,
        Form::Simple,
        ExprKind::RangeChoice,
        span,
        low.node,
        high.node,
    )?;
    Ok((node, end))
}

/// All suffixes of a name that begins with a word.
#[cycle(exprs)]
fn read_suffixes(
    alloc: Global,
    exprs: &mut Items<ExprNode>,
    tokens: &Tokens,
    cursor: Cursor,
    left: Built,
) -> Result<(Built, Cursor), Fault>
    requires at { cursor.at ≤ length (lexemes tokens.now) }
    requires left { left.node.0 < length (trees exprs.old) }
    ensures extends { Extends exprs.old exprs.new }
    ensures reads { Answers (parts.Suffixes true (phrase (trees exprs.old) left)) (lexemes tokens.now) cursor (trees exprs.new) result }
{
    let mut left = left;
    let mut next = cursor;
    let mut may_open = true;
    while let Some((name, end, opens)) = read_suffix(alloc, exprs, tokens, next, left, may_open)? {
        left = name;
        next = end;
        may_open = opens;
    }
    Ok((left, next))
}

/// One suffix of a name, if one stands there. Parentheses may stand with `may_open` alone. The answer tells whether they may stand behind the suffix.
#[cycle(exprs)]
fn read_suffix(
    alloc: Global,
    exprs: &mut Items<ExprNode>,
    tokens: &Tokens,
    cursor: Cursor,
    left: Built,
    may_open: bool,
) -> Result<Option<(Built, Cursor, bool)>, Fault>
    requires at { cursor.at ≤ length (lexemes tokens.now) }
    requires left { left.node.0 < length (trees exprs.old) }
    ensures extends { Extends exprs.old exprs.new }
    ensures reads { MaybeSuffixed may_open (phrase (trees exprs.old) left) (lexemes tokens.now) cursor (trees exprs.new) result }
{
    if let Some((_, next)) = accept(tokens, cursor, Class::Mark(Mark::Dot))? {
        let (token, end) = expect(tokens, next, Class::Word)?;
        let node = add_selected(alloc, exprs, tokens, left, token)?;
        return Ok(Some((node, end, true)));
    }
    if let Some((_, next)) = accept(tokens, cursor, Class::Mark(Mark::Tick))? {
        let suffixed = behind_tick(alloc, exprs, tokens, next, left)?;
        return Ok(Some(suffixed));
    }
    if !may_open {
        return Ok(None);
    }
    let Some((_, next)) = accept(tokens, cursor, Class::Mark(Mark::Open))? else {
        return Ok(None);
    };
    let (node, end) = read_arguments(alloc, exprs, tokens, next, left)?;
    Ok(Some((node, end, true)))
}

/// What stands behind the tick of a name.
#[cycle(exprs)]
fn behind_tick(
    alloc: Global,
    exprs: &mut Items<ExprNode>,
    tokens: &Tokens,
    cursor: Cursor,
    left: Built,
) -> Result<(Built, Cursor, bool), Fault>
    requires at { cursor.at ≤ length (lexemes tokens.now) }
    requires left { left.node.0 < length (trees exprs.old) }
    ensures extends { Extends exprs.old exprs.new }
    ensures reads { Suffixed (parts.BehindTick (phrase (trees exprs.old) left)) (lexemes tokens.now) cursor (trees exprs.new) result }
{
    let Some((name, next)) = accept(tokens, cursor, Class::AttributeName)? else {
        let (opening, next) = expect(tokens, cursor, Class::Mark(Mark::Open))?;
        let (inner, end) = read_in_parens(alloc, exprs, tokens, next, opening)?;
        let span = join(left.span, inner.span);
        let node = add_two(
            alloc,
            exprs,
            Form::Simple,
            ExprKind::Qualified,
            span,
            left.node,
            inner.node,
        )?;
        return Ok((node, end, true));
    };
    if let Some((_, next)) = accept(tokens, next, Class::Mark(Mark::Open))? {
        let (node, end) = read_values(alloc, exprs, tokens, next, left, name)?;
        return Ok((node, end, true));
    }
    let node = add_attribute(alloc, exprs, tokens, left, name)?;
    Ok((node, next, false))
}

/// The arguments of an attribute, behind the opening parenthesis.
#[cycle(exprs)]
fn read_values(
    alloc: Global,
    exprs: &mut Items<ExprNode>,
    tokens: &Tokens,
    cursor: Cursor,
    left: Built,
    name: Token,
) -> Result<(Built, Cursor), Fault>
    requires at { cursor.at ≤ length (lexemes tokens.now) }
    requires left { left.node.0 < length (trees exprs.old) }
    ensures extends { Extends exprs.old exprs.new }
    ensures reads { Answers (parts.ValuesFrom (phrase (trees exprs.old) left) (lexeme tokens.now.source name)) (lexemes tokens.now) cursor (trees exprs.new) result }
{
    let (first, mut next) = read_expr(alloc, exprs, tokens, cursor)?;
    let mut children = two(alloc, left.node, first.node)?;
    while let Some((_, behind)) = accept(tokens, next, Class::Mark(Mark::Comma))? {
        let (value, end) = read_expr(alloc, exprs, tokens, behind)?;
        children.push(value.node)?;
        next = end;
    }
    let (closing, end) = expect(tokens, next, Class::Mark(Mark::Close))?;
    let node = add_attribute_of(alloc, exprs, tokens, left.span, name, children, closing)?;
    Ok((node, end))
}

/// The arguments of a name, behind the opening parenthesis.
#[cycle(exprs)]
fn read_arguments(
    alloc: Global,
    exprs: &mut Items<ExprNode>,
    tokens: &Tokens,
    cursor: Cursor,
    left: Built,
) -> Result<(Built, Cursor), Fault>
    requires at { cursor.at ≤ length (lexemes tokens.now) }
    requires left { left.node.0 < length (trees exprs.old) }
    ensures extends { Extends exprs.old exprs.new }
    ensures reads { Answers (parts.ArgumentsFrom (phrase (trees exprs.old) left)) (lexemes tokens.now) cursor (trees exprs.new) result }
{
    let (first, mut next) = read_argument(alloc, exprs, tokens, cursor)?;
    let mut children = two(alloc, left.node, first.node)?;
    while let Some((_, behind)) = accept(tokens, next, Class::Mark(Mark::Comma))? {
        let (argument, end) = read_argument(alloc, exprs, tokens, behind)?;
        children.push(argument.node)?;
        next = end;
    }
    let (closing, end) = expect(tokens, next, Class::Mark(Mark::Close))?;
    let node = add_node(
        exprs,
        Form::Simple,
        ExprKind::Applied,
        join(left.span, closing.span),
        children,
    )?;
    Ok((node, end))
}

/// An argument, with or without the name of its formal.
#[cycle(exprs)]
fn read_argument(
    alloc: Global,
    exprs: &mut Items<ExprNode>,
    tokens: &Tokens,
    cursor: Cursor,
) -> Result<(Built, Cursor), Fault>
    requires at { cursor.at ≤ length (lexemes tokens.now) }
    ensures extends { Extends exprs.old exprs.new }
    ensures reads { Answers (parts.Argument) (lexemes tokens.now) cursor (trees exprs.new) result }
{
    let (first, next) = read_expr(alloc, exprs, tokens, cursor)?;
    if !is_identifier(first.form) {
        let kind = ExprKind::Argument { has_formal: false };
        let node = add_one(alloc, exprs, Form::Simple, kind, first.span, first.node)?;
        return Ok((node, next));
    }
    let Some((_, behind)) = accept(tokens, next, Class::Mark(Mark::Arrow))? else {
        let kind = ExprKind::Argument { has_formal: false };
        let node = add_one(alloc, exprs, Form::Simple, kind, first.span, first.node)?;
        return Ok((node, next));
    };
    let (value, end) = read_expr(alloc, exprs, tokens, behind)?;
    let kind = ExprKind::Argument { has_formal: true };
    let node = add_two(
        alloc,
        exprs,
        Form::Simple,
        kind,
        join(first.span, value.span),
        first.node,
        value.node,
    )?;
    Ok((node, end))
}

/// A name.
pub fn read_name(
    alloc: Global,
    exprs: &mut Items<ExprNode>,
    tokens: &Tokens,
    cursor: Cursor,
) -> Result<(Built, Cursor), Fault>
    requires at { cursor.at ≤ length (lexemes tokens.now) }
    ensures extends { Extends exprs.old exprs.new }
    ensures reads { Answers (parts.Name) (lexemes tokens.now) cursor (trees exprs.new) result }
{
    let (token, next) = expect(tokens, cursor, Class::Word)?;
    read_name_from(alloc, exprs, tokens, next, token)
}

/// The rest of a name, behind its first word.
pub fn read_name_from(
    alloc: Global,
    exprs: &mut Items<ExprNode>,
    tokens: &Tokens,
    cursor: Cursor,
    first: Token,
) -> Result<(Built, Cursor), Fault>
    requires at { cursor.at ≤ length (lexemes tokens.now) }
    ensures extends { Extends exprs.old exprs.new }
    ensures reads { Answers (parts.Suffixes true (phrases.identifier (lexeme tokens.now.source first))) (lexemes tokens.now) cursor (trees exprs.new) result }
{
    let node = add_named(
        alloc,
        exprs,
        tokens,
        Form::Identifier,
        ExprKind::Identifier,
        first,
        first.span,
        Items::new(alloc),
    )?;
    read_suffixes(alloc, exprs, tokens, cursor, node)
}

/// Words parted by points.
pub fn read_unit_name(
    alloc: Global,
    exprs: &mut Items<ExprNode>,
    tokens: &Tokens,
    cursor: Cursor,
) -> Result<(Built, Cursor), Fault>
    requires at { cursor.at ≤ length (lexemes tokens.now) }
    ensures extends { Extends exprs.old exprs.new }
    ensures reads { Answers (parts.UnitName) (lexemes tokens.now) cursor (trees exprs.new) result }
{
    let (token, next) = expect(tokens, cursor, Class::Word)?;
    let node = add_named(
        alloc,
        exprs,
        tokens,
        Form::Identifier,
        ExprKind::Identifier,
        token,
        token.span,
        Items::new(alloc),
    )?;
    read_points(alloc, exprs, tokens, next, node)
}

/// All points behind a name, each with its word.
fn read_points(
    alloc: Global,
    exprs: &mut Items<ExprNode>,
    tokens: &Tokens,
    cursor: Cursor,
    left: Built,
) -> Result<(Built, Cursor), Fault>
    requires at { cursor.at ≤ length (lexemes tokens.now) }
    requires left { left.node.0 < length (trees exprs.old) }
    ensures extends { Extends exprs.old exprs.new }
    ensures reads { Answers (parts.Points (phrase (trees exprs.old) left)) (lexemes tokens.now) cursor (trees exprs.new) result }
{
    let mut left = left;
    let mut next = cursor;
    while let Some((_, behind)) = accept(tokens, next, Class::Mark(Mark::Dot))? {
        let (token, end) = expect(tokens, behind, Class::Word)?;
        left = add_selected(alloc, exprs, tokens, left, token)?;
        next = end;
    }
    Ok((left, next))
}

/// A subtype, with or without a range.
pub fn read_indication(
    alloc: Global,
    exprs: &mut Items<ExprNode>,
    tokens: &Tokens,
    cursor: Cursor,
) -> Result<(Built, Cursor), Fault>
    requires at { cursor.at ≤ length (lexemes tokens.now) }
    ensures extends { Extends exprs.old exprs.new }
    ensures reads { Answers (parts.Indication) (lexemes tokens.now) cursor (trees exprs.new) result }
{
    let (mark, next) = read_unit_name(alloc, exprs, tokens, cursor)?;
    rest_of_indication(alloc, exprs, tokens, next, mark)
}

/// A subtype behind its mark.
fn rest_of_indication(
    alloc: Global,
    exprs: &mut Items<ExprNode>,
    tokens: &Tokens,
    cursor: Cursor,
    mark: Built,
) -> Result<(Built, Cursor), Fault>
    requires at { cursor.at ≤ length (lexemes tokens.now) }
    requires mark { mark.node.0 < length (trees exprs.old) }
    ensures extends { Extends exprs.old exprs.new }
    ensures reads { Answers (parts.IndicationFrom (phrase (trees exprs.old) mark)) (lexemes tokens.now) cursor (trees exprs.new) result }
{
    let Some((_, next)) = accept(tokens, cursor, Class::Reserved(Reserved::Range))? else {
        let kind = ExprKind::SubtypeIndication { has_range: false };
        let node = add_one(alloc, exprs, Form::Simple, kind, mark.span, mark.node)?;
        return Ok((node, cursor));
    };
    let (low, next) = read_simple(alloc, exprs, tokens, next)?;
    let (_, next) = expect(tokens, next, Class::Mark(Mark::Dots))?;
    let (high, end) = read_simple(alloc, exprs, tokens, next)?;
    let node = add_three(
        alloc,
        exprs,
        Form::Simple,
        ExprKind::SubtypeIndication { has_range: true },
        join(mark.span, high.span),
        mark.node,
        low.node,
        high.node,
    )?;
    Ok((node, end))
}

/// A discrete range.
pub fn read_drange(
    alloc: Global,
    exprs: &mut Items<ExprNode>,
    tokens: &Tokens,
    cursor: Cursor,
) -> Result<(Built, Cursor), Fault>
    requires at { cursor.at ≤ length (lexemes tokens.now) }
    ensures extends { Extends exprs.old exprs.new }
    ensures reads { Answers (parts.Drange) (lexemes tokens.now) cursor (trees exprs.new) result }
{
    let (low, next) = read_simple(alloc, exprs, tokens, cursor)?;
    if let Some((_, behind)) = accept(tokens, next, Class::Mark(Mark::Dots))? {
        let (high, end) = read_simple(alloc, exprs, tokens, behind)?;
        let span = join(low.span, high.span);
        let node = add_two(
            alloc,
            exprs,
            Form::Simple,
            ExprKind::BoundsRange,
            span,
            low.node,
            high.node,
        )?;
        return Ok((node, end));
    }
    if is_mark(low.form) {
        return rest_of_subtype(alloc, exprs, tokens, next, low);
    }
    if !is_range(low.form) {
        return Err(Fault::Syntax(next.at));
    }
    let node = add_one(
        alloc,
        exprs,
        Form::Simple,
        ExprKind::AttributeRange,
        low.span,
        low.node,
    )?;
    Ok((node, next))
}

/// A subtype as a range, behind its mark.
fn rest_of_subtype(
    alloc: Global,
    exprs: &mut Items<ExprNode>,
    tokens: &Tokens,
    cursor: Cursor,
    mark: Built,
) -> Result<(Built, Cursor), Fault>
    requires at { cursor.at ≤ length (lexemes tokens.now) }
    requires mark { mark.node.0 < length (trees exprs.old) }
    ensures extends { Extends exprs.old exprs.new }
    ensures reads { Answers (parts.SubtypeRange (phrase (trees exprs.old) mark)) (lexemes tokens.now) cursor (trees exprs.new) result }
{
    let Some((_, next)) = accept(tokens, cursor, Class::Reserved(Reserved::Range))? else {
        let kind = ExprKind::SubtypeIndication { has_range: false };
        let indication = add_one(alloc, exprs, Form::Simple, kind, mark.span, mark.node)?;
        let node = add_one(
            alloc,
            exprs,
            Form::Simple,
            ExprKind::SubtypeRange,
            mark.span,
            indication.node,
        )?;
        return Ok((node, cursor));
    };
    let (low, next) = read_simple(alloc, exprs, tokens, next)?;
    let (_, next) = expect(tokens, next, Class::Mark(Mark::Dots))?;
    let (high, end) = read_simple(alloc, exprs, tokens, next)?;
    let kind = ExprKind::SubtypeIndication { has_range: true };
    let span = join(mark.span, high.span);
    let indication = add_three(
        alloc,
        exprs,
        Form::Simple,
        kind,
        span,
        mark.node,
        low.node,
        high.node,
    )?;
    let node = add_one(
        alloc,
        exprs,
        Form::Simple,
        ExprKind::SubtypeRange,
        span,
        indication.node,
    )?;
    Ok((node, end))
}

/// Adds a selection of this word from a name.
fn add_selected(
    alloc: Global,
    exprs: &mut Items<ExprNode>,
    tokens: &Tokens,
    left: Built,
    name: Token,
) -> Result<Built, NoMemory>
    requires left { left.node.0 < length (trees exprs.old) }
    ensures extends { Extends exprs.old exprs.new }
    ensures within { IfOk result (λ x. x.node.0 < length (trees exprs.new)) }
    ensures builds { IfOk result (λ x. phrase (trees exprs.new) x ≡ phrases.selected (phrase (trees exprs.old) left) (lexeme tokens.now.source name)) }
    ensures err { OnErr result (exprs.new ≡ exprs.old) }
{
    let children = one(alloc, left.node)?;
    add_named(
        alloc,
        exprs,
        tokens,
        selected_form(left.form),
        ExprKind::Selected,
        name,
        join(left.span, name.span),
        children,
    )
}

/// Adds an attribute without arguments.
fn add_attribute(
    alloc: Global,
    exprs: &mut Items<ExprNode>,
    tokens: &Tokens,
    left: Built,
    name: Token,
) -> Result<Built, NoMemory>
    requires left { left.node.0 < length (trees exprs.old) }
    ensures extends { Extends exprs.old exprs.new }
    ensures within { IfOk result (λ x. x.node.0 < length (trees exprs.new)) }
    ensures builds { IfOk result (λ x. phrase (trees exprs.new) x ≡ phrases.attribute name.kind (phrase (trees exprs.old) left) (lexeme tokens.now.source name)) }
    ensures err { OnErr result (exprs.new ≡ exprs.old) }
{
    let children = one(alloc, left.node)?;
    let span = join(left.span, name.span);
    match name.kind {
        TokenKind::Word => {
            let kind = ExprKind::Attribute {
                has_arguments: false,
            };
            add_named(
                alloc,
                exprs,
                tokens,
                Form::Simple,
                kind,
                name,
                span,
                children,
            )
        }
        _ => {
            let kind = ExprKind::RangeAttribute {
                has_arguments: false,
            };
            add_node(exprs, Form::RangeAttribute, kind, span, children)
        }
    }
}

/// Adds an attribute with arguments. The children are the prefix, which begins at this span, and the arguments.
fn add_attribute_of(
    alloc: Global,
    exprs: &mut Items<ExprNode>,
    tokens: &Tokens,
    first: Span,
    name: Token,
    children: Items<ExprNo>,
    closing: Token,
) -> Result<Built, NoMemory>
    requires children { AreBelow (length (trees exprs.old)) children }
    ensures extends { Extends exprs.old exprs.new }
    ensures within { IfOk result (λ x. x.node.0 < length (trees exprs.new)) }
    ensures builds { IfOk result (λ x. phrase (trees exprs.new) x ≡ phrases.attribute_of name.kind first (lexeme tokens.now.source name) (trees_at (trees exprs.old) children) (lexeme tokens.now.source closing)) }
    ensures err { OnErr result (exprs.new ≡ exprs.old) }
{
    let span = join(first, closing.span);
    match name.kind {
        TokenKind::Word => {
            let kind = ExprKind::Attribute {
                has_arguments: true,
            };
            add_named(
                alloc,
                exprs,
                tokens,
                Form::Simple,
                kind,
                name,
                span,
                children,
            )
        }
        _ => {
            let kind = ExprKind::RangeAttribute {
                has_arguments: true,
            };
            add_node(exprs, Form::Simple, kind, span, children)
        }
    }
}
