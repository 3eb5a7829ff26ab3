ghost use Rattle.std.specs.Prelude.{◌≡◌, ◌∷◌, ◌+◌, ◌<◌, ◌^◌, [], true, Some, All, IfOk, OnOk, position, length, slice_get};
ghost use Rattle.std.specs.Str.{bytes_eq};
ghost use Rattle.core_form.specs.Added.{KeepsTrees};
ghost use Rattle.core_form.specs.Fine.{AreFineNodes};
ghost use Rattle.core_form.specs.Code.{And, Load, Nothing, Operation, expr_of};
ghost use Rattle.core_form.specs.declared.code.CoreOp.TheVariants as op;
ghost use Rattle.first_lower.specs.Known.{KnownWord, KnownPrimary, KnownTerm, KnownSum, KnownTest};
ghost use Rattle.first_lower.specs.Lowered.{leaf_of, whole, checked, operator_of, low_primary, low_term, low_terms, low_sum, apply, low_relation, low_test};
ghost use Rattle.first_lower.specs.Steps.{Adds, IsWhole};

use core_form::{CoreExpr, CoreOp, Nodes, Place};
use first_conditions::{KeyTable, key_of};
use first_path::{Adding, Primary, Relation, Sum, Term, Test, Word};
use spark_base::{ExprNo, Items, LeafNo, NoMemory};
use std::alloc::Global;

/// The leaf that a word names.
pub fn find_leaf(alloc: Global, table: &KeyTable, word: &Word) -> Result<LeafNo, NoMemory>
    requires known { KnownWord table.now word.now }
    requires room { length table.now < 2 ^ 32 }
    ensures value { IfOk result (λ l. l.0 ≡ leaf_of table.now word.now) }
    ensures within { IfOk result (λ l. l.0 < length table.now) }
{
    let key = key_of(alloc, word)?;
    match table.find(key.as_slice()) {
        Some(at) => Ok(LeafNo(at as u32)),
        None => unreachable!(),
    }
}

/// The whole of the leaf that a word names.
pub fn whole_place(alloc: Global, table: &KeyTable, word: &Word) -> Result<Place, NoMemory>
    requires known { KnownWord table.now word.now }
    requires room { length table.now < 2 ^ 32 }
    ensures place { IfOk result (λ p. IsWhole (leaf_of table.now word.now) p) }
    ensures within { IfOk result (λ p. p.leaf.0 < length table.now) }
{
    let leaf = find_leaf(alloc, table, word)?;
    Ok(whole_leaf(alloc, leaf))
}

/// The whole of a scalar leaf.
pub fn whole_leaf(alloc: Global, leaf: LeafNo) -> Place
    ensures { IsWhole leaf.0 result }
{
    Place {
        leaf,
        part: Items::new(alloc),
        whole: true,
        cells: 1,
    }
}

/// Adds the value of an operand.
fn add_primary(
    alloc: Global,
    nodes: &mut Nodes,
    table: &KeyTable,
    primary: &Primary,
) -> Result<ExprNo, NoMemory>
    requires fine { AreFineNodes nodes.old }
    requires leaves { nodes.old.leaves ≡ length table.now }
    requires known { KnownPrimary table.now primary.now }
    ensures adds { Adds nodes.old nodes.new }
    ensures within { IfOk result (λ e. e.0 < length nodes.new.exprs) }
    ensures tree { IfOk result (λ e. expr_of nodes.new.exprs e ≡ low_primary table.now primary.now) }
{
    match primary {
        Primary::Name(word) => {
            let from = whole_place(alloc, table, word)?;
            nodes.add_expr(CoreExpr::Read {
                from,
                at: word.span,
            })
        }
        Primary::Number(number) => nodes.add_expr(CoreExpr::Value(i128::from(*number))),
    }
}

/// Two children, in order.
fn pair(alloc: Global, first: ExprNo, second: ExprNo) -> Result<Items<ExprNo>, NoMemory>
    ensures { IfOk result (λ l. l ≡ first ∷ second ∷ []) }
{
    let mut list = Items::new(alloc);
    list.push(first)?;
    list.push(second)?;
    Ok(list)
}

/// The operator of the core form.
fn operator_of(operator: Adding) -> CoreOp
    ensures { result ≡ operator_of operator }
{
    match operator {
        Adding::Plus => CoreOp::Add,
        Adding::Minus => CoreOp::Sub,
    }
}

/// Adds an operation of two values.
fn add_application(
    alloc: Global,
    nodes: &mut Nodes,
    op: CoreOp,
    first: ExprNo,
    second: ExprNo,
) -> Result<ExprNo, NoMemory>
    requires fine { AreFineNodes nodes.old }
    requires first { first.0 < length nodes.old.exprs }
    requires second { second.0 < length nodes.old.exprs }
    ensures adds { Adds nodes.old nodes.new }
    ensures within { IfOk result (λ e. e.0 < length nodes.new.exprs) }
    ensures tree { IfOk result (λ e. expr_of nodes.new.exprs e
        ≡ apply op (expr_of nodes.old.exprs first) (expr_of nodes.old.exprs second)) }
{
    let args = pair(alloc, first, second)?;
    nodes.add_expr(CoreExpr::Apply { op, args })
}

/// Adds the negation of a truth value.
fn add_negation(alloc: Global, nodes: &mut Nodes, value: ExprNo) -> Result<ExprNo, NoMemory>
    requires fine { AreFineNodes nodes.old }
    requires value { value.0 < length nodes.old.exprs }
    ensures adds { Adds nodes.old nodes.new }
    ensures within { IfOk result (λ e. e.0 < length nodes.new.exprs) }
    ensures tree { IfOk result (λ e. expr_of nodes.new.exprs e ≡ Operation op.Not (And (expr_of nodes.old.exprs value) Nothing)) }
{
    let mut args = Items::new(alloc);
    args.push(value)?;
    nodes.add_expr(CoreExpr::Apply {
        op: CoreOp::Not,
        args,
    })
}

/// Adds a relation of two values.
fn add_relation(
    alloc: Global,
    nodes: &mut Nodes,
    relation: Relation,
    left: ExprNo,
    right: ExprNo,
) -> Result<ExprNo, NoMemory>
    requires fine { AreFineNodes nodes.old }
    requires left { left.0 < length nodes.old.exprs }
    requires right { right.0 < length nodes.old.exprs }
    ensures adds { OnOk result (Adds nodes.old nodes.new) }
    ensures within { IfOk result (λ e. e.0 < length nodes.new.exprs) }
    ensures tree { IfOk result (λ e. expr_of nodes.new.exprs e
        ≡ low_relation relation (expr_of nodes.old.exprs left) (expr_of nodes.old.exprs right)) }
{
    match relation {
        Relation::Equal => add_application(alloc, nodes, CoreOp::Eq, left, right),
        Relation::NotEqual => {
            let equal = add_application(alloc, nodes, CoreOp::Eq, left, right)?;
            add_negation(alloc, nodes, equal)
        }
        Relation::Less => add_application(alloc, nodes, CoreOp::Lt, left, right),
        Relation::AtMost => add_application(alloc, nodes, CoreOp::Le, left, right),
        Relation::Greater => add_application(alloc, nodes, CoreOp::Lt, right, left),
        Relation::AtLeast => add_application(alloc, nodes, CoreOp::Le, right, left),
    }
}

/// Adds what a term makes of the value before it.
fn add_term(
    alloc: Global,
    nodes: &mut Nodes,
    table: &KeyTable,
    before: ExprNo,
    term: &Term,
) -> Result<ExprNo, NoMemory>
    requires fine { AreFineNodes nodes.old }
    requires leaves { nodes.old.leaves ≡ length table.now }
    requires before { before.0 < length nodes.old.exprs }
    requires known { KnownTerm table.now term.now }
    ensures adds { Adds nodes.old nodes.new }
    ensures within { IfOk result (λ e. e.0 < length nodes.new.exprs) }
    ensures tree { IfOk result (λ e. expr_of nodes.new.exprs e ≡ low_term table.now (expr_of nodes.old.exprs before) term.now) }
{
    let operand = add_primary(alloc, nodes, table, &term.operand)?;
    add_application(alloc, nodes, operator_of(term.operator), before, operand)
}

/// Adds the value of a sum.
fn add_sum(
    alloc: Global,
    nodes: &mut Nodes,
    table: &KeyTable,
    sum: &Sum,
) -> Result<ExprNo, NoMemory>
    requires fine { AreFineNodes nodes.old }
    requires leaves { nodes.old.leaves ≡ length table.now }
    requires known { KnownSum table.now sum.now }
    ensures adds { Adds nodes.old nodes.new }
    ensures within { IfOk result (λ e. e.0 < length nodes.new.exprs) }
    ensures tree { IfOk result (λ e. expr_of nodes.new.exprs e ≡ low_sum table.now sum.now) }
{
    let mut value = add_primary(alloc, nodes, table, &sum.first)?;
    for term in sum.more.as_slice() {
        value = add_term(alloc, nodes, table, value, term)?;
    }
    Ok(value)
}

/// Adds the check that a value is an Integer.
pub fn add_integer(nodes: &mut Nodes, value: ExprNo) -> Result<ExprNo, NoMemory>
    requires fine { AreFineNodes nodes.old }
    requires value { value.0 < length nodes.old.exprs }
    ensures adds { Adds nodes.old nodes.new }
    ensures within { IfOk result (λ e. e.0 < length nodes.new.exprs) }
    ensures tree { IfOk result (λ e. expr_of nodes.new.exprs e ≡ checked (expr_of nodes.old.exprs value)) }
{
    nodes.add_expr(CoreExpr::Within {
        arg: value,
        low: -2_147_483_648,
        high: 2_147_483_647,
    })
}

/// Adds the value of a sum, checked to be an Integer.
pub fn add_checked(
    alloc: Global,
    nodes: &mut Nodes,
    table: &KeyTable,
    sum: &Sum,
) -> Result<ExprNo, NoMemory>
    requires fine { AreFineNodes nodes.old }
    requires leaves { nodes.old.leaves ≡ length table.now }
    requires known { KnownSum table.now sum.now }
    ensures adds { Adds nodes.old nodes.new }
    ensures within { IfOk result (λ e. e.0 < length nodes.new.exprs) }
    ensures tree { IfOk result (λ e. expr_of nodes.new.exprs e ≡ checked (low_sum table.now sum.now)) }
{
    let value = add_sum(alloc, nodes, table, sum)?;
    add_integer(nodes, value)
}

/// Adds the truth value of a test.
pub fn add_test(
    alloc: Global,
    nodes: &mut Nodes,
    table: &KeyTable,
    test: &Test,
) -> Result<ExprNo, NoMemory>
    requires fine { AreFineNodes nodes.old }
    requires leaves { nodes.old.leaves ≡ length table.now }
    requires known { KnownTest table.now test.now }
    ensures adds { OnOk result (Adds nodes.old nodes.new) }
    ensures within { IfOk result (λ e. e.0 < length nodes.new.exprs) }
    ensures tree { IfOk result (λ e. expr_of nodes.new.exprs e ≡ low_test table.now test.now) }
{
    let left = add_sum(alloc, nodes, table, &test.left)?;
    let right = add_sum(alloc, nodes, table, &test.right)?;
    add_relation(alloc, nodes, test.relation, left, right)
}
