//! The readers of expressions, names and ranges that stand among the children of a node: what each reads is held
//! behind what was read before it.
ghost use Rattle.std.specs.Prelude.{IfOk, ◌≤◌, length, List, true};
ghost use Rattle.ada_grammar.specs.Built.{trees};
ghost use Rattle.ada_grammar.specs.Parts as parts;
ghost use Rattle.ada_grammar.specs.Parts.{Part};
ghost use Rattle.ada_grammar.specs.Lexemes.{Lexeme, lexeme, lexemes};
ghost use Rattle.ada_grammar.specs.Phrases as phrases;
ghost use Rattle.ada_grammar.specs.Reading.{Answers};
ghost use Rattle.ada_grammar.specs.Standing.{FindsExpr, Forth, Grows, Holds};

use crate::readers;
use ada_grammar::{Built, Children, Cursor, Fault, add_expr};
use ada_tree::{Token, Tokens, Units};
use std::alloc::Global;

/// Holds the node of a reader's answer behind what was read before it.
fn hold(answer: Result<(Built, Cursor), Fault>, into: &mut Children) -> Result<Cursor, Fault>
    ensures goes { (part : Part) (ts : List Lexeme) (cursor : Cursor) (built : List phrases.Tree) → Answers part ts cursor built answer → IfOk result (λ next. Forth ts cursor next) }
    ensures holds { (part : Part) (ts : List Lexeme) (cursor : Cursor) (u : Units) (ds : phrases.Children) → Holds u into.old ds
        → Answers part ts cursor (trees u.exprs) answer → FindsExpr part ts cursor u into.new ds result }
{
    let (built, next) = answer?;
    add_expr(built.node, into)?;
    Ok(next)
}

/// An expression.
#[tactic(auto, using(ada_grammar::proofs::Standing::exprs_grow))]
pub fn expression(
    alloc: Global,
    units: &mut Units,
    tokens: &Tokens,
    cursor: Cursor,
    into: &mut Children,
) -> Result<Cursor, Fault>
    requires at { cursor.at ≤ length (lexemes tokens.now) }
    ensures grows { Grows units.old units.new }
    ensures goes { IfOk result (λ next. Forth (lexemes tokens.now) cursor next) }
    ensures reads { (ds : phrases.Children) → Holds units.old into.old ds → FindsExpr (parts.Expr) (lexemes tokens.now) cursor units.new into.new ds result }
{
    let answer = readers::read_expr(alloc, &mut units.exprs, tokens, cursor);
    hold(answer, into)
}

/// A simple expression.
#[tactic(auto, using(ada_grammar::proofs::Standing::exprs_grow))]
pub fn simple_expression(
    alloc: Global,
    units: &mut Units,
    tokens: &Tokens,
    cursor: Cursor,
    into: &mut Children,
) -> Result<Cursor, Fault>
    requires at { cursor.at ≤ length (lexemes tokens.now) }
    ensures grows { Grows units.old units.new }
    ensures goes { IfOk result (λ next. Forth (lexemes tokens.now) cursor next) }
    ensures reads { (ds : phrases.Children) → Holds units.old into.old ds → FindsExpr (parts.Simple) (lexemes tokens.now) cursor units.new into.new ds result }
{
    let answer = readers::read_simple(alloc, &mut units.exprs, tokens, cursor);
    hold(answer, into)
}

/// A discrete range.
#[tactic(auto, using(ada_grammar::proofs::Standing::exprs_grow))]
pub fn discrete_range(
    alloc: Global,
    units: &mut Units,
    tokens: &Tokens,
    cursor: Cursor,
    into: &mut Children,
) -> Result<Cursor, Fault>
    requires at { cursor.at ≤ length (lexemes tokens.now) }
    ensures grows { Grows units.old units.new }
    ensures goes { IfOk result (λ next. Forth (lexemes tokens.now) cursor next) }
    ensures reads { (ds : phrases.Children) → Holds units.old into.old ds → FindsExpr (parts.Drange) (lexemes tokens.now) cursor units.new into.new ds result }
{
    let answer = readers::read_drange(alloc, &mut units.exprs, tokens, cursor);
    hold(answer, into)
}

/// A choice.
#[tactic(auto, using(ada_grammar::proofs::Standing::exprs_grow))]
pub fn choice(
    alloc: Global,
    units: &mut Units,
    tokens: &Tokens,
    cursor: Cursor,
    into: &mut Children,
) -> Result<Cursor, Fault>
    requires at { cursor.at ≤ length (lexemes tokens.now) }
    ensures grows { Grows units.old units.new }
    ensures goes { IfOk result (λ next. Forth (lexemes tokens.now) cursor next) }
    ensures reads { (ds : phrases.Children) → Holds units.old into.old ds → FindsExpr (parts.Choice) (lexemes tokens.now) cursor units.new into.new ds result }
{
    let answer = readers::read_choice(alloc, &mut units.exprs, tokens, cursor);
    hold(answer, into)
}

/// The rest of a name, behind its first word.
#[tactic(auto, using(ada_grammar::proofs::Standing::exprs_grow))]
pub fn name_from(
    alloc: Global,
    units: &mut Units,
    tokens: &Tokens,
    cursor: Cursor,
    first: Token,
    into: &mut Children,
) -> Result<Cursor, Fault>
    requires at { cursor.at ≤ length (lexemes tokens.now) }
    ensures grows { Grows units.old units.new }
    ensures goes { IfOk result (λ next. Forth (lexemes tokens.now) cursor next) }
    ensures reads { (ds : phrases.Children) → Holds units.old into.old ds → FindsExpr (parts.Suffixes true (phrases.identifier (lexeme tokens.now.source first))) (lexemes tokens.now) cursor units.new into.new ds result }
{
    let answer = readers::read_name_from(alloc, &mut units.exprs, tokens, cursor, first);
    hold(answer, into)
}

/// Words parted by points.
#[tactic(auto, using(ada_grammar::proofs::Standing::exprs_grow))]
pub fn unit_name(
    alloc: Global,
    units: &mut Units,
    tokens: &Tokens,
    cursor: Cursor,
    into: &mut Children,
) -> Result<Cursor, Fault>
    requires at { cursor.at ≤ length (lexemes tokens.now) }
    ensures grows { Grows units.old units.new }
    ensures goes { IfOk result (λ next. Forth (lexemes tokens.now) cursor next) }
    ensures reads { (ds : phrases.Children) → Holds units.old into.old ds → FindsExpr (parts.UnitName) (lexemes tokens.now) cursor units.new into.new ds result }
{
    let answer = readers::read_unit_name(alloc, &mut units.exprs, tokens, cursor);
    hold(answer, into)
}

/// A subtype, with or without a range.
#[tactic(auto, using(ada_grammar::proofs::Standing::exprs_grow))]
pub fn indication(
    alloc: Global,
    units: &mut Units,
    tokens: &Tokens,
    cursor: Cursor,
    into: &mut Children,
) -> Result<Cursor, Fault>
    requires at { cursor.at ≤ length (lexemes tokens.now) }
    ensures grows { Grows units.old units.new }
    ensures goes { IfOk result (λ next. Forth (lexemes tokens.now) cursor next) }
    ensures reads { (ds : phrases.Children) → Holds units.old into.old ds → FindsExpr (parts.Indication) (lexemes tokens.now) cursor units.new into.new ds result }
{
    let answer = readers::read_indication(alloc, &mut units.exprs, tokens, cursor);
    hold(answer, into)
}
