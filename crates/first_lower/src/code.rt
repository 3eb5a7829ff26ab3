ghost use Rattle.std.specs.Prelude.{◌≡◌, ◌∷◌, ◌+◌, ◌++◌, ◌<◌, ◌^◌, [], pos, IfOk, IfSome, OnOk, drop, length};
ghost use Rattle.core_form.specs.Fine.{AreFineNodes};
ghost use Rattle.core_form.specs.Code.{Assign, Constant, Skip, code_of, expr_of};
ghost use Rattle.first_lower.specs.Known.{Each, KnownWord, KnownSum, KnownTest, KnownLine};
ghost use Rattle.first_lower.specs.Levels.{Reaches, IsWithin, closed, codes_after, codes_of, ended, ends, levels_after, levels_of, main_of, turned};
ghost use Rattle.first_lower.specs.Lowered.{chain, whole, checked, low_assignment, low_variable, low_variables};
ghost use Rattle.first_lower.specs.Steps.{Adds, Lists, codes_before};
ghost use Rattle.first_path.specs.declared.source.Line.TheVariants as line;

use crate::exprs::{add_checked, add_integer, add_test, whole_leaf, whole_place};
use core_form::{CoreExpr, CoreStmt, Nodes};
use first_conditions::KeyTable;
use first_path::{Line, Sum, Test, Variable, Word};
use spark_base::{ExprNo, Items, LeafNo, NoMemory, StmtNo};
use std::alloc::Global;
use std::collections::VecDeque;

/// Adds statements as one sequence.
pub fn add_sequence(nodes: &mut Nodes, list: Items<StmtNo>) -> Result<StmtNo, NoMemory>
    requires fine { AreFineNodes nodes.old }
    requires within { Each (λ s. s.0 < length nodes.old.stmts) list }
    ensures adds { Adds nodes.old nodes.new }
    ensures within { IfOk result (λ s. s.0 < length nodes.new.stmts) }
    ensures code { IfOk result (λ s. code_of nodes.new.exprs nodes.new.stmts s
        ≡ codes_before (code_of nodes.old.exprs nodes.old.stmts) list Skip) }
{
    let sequence = nodes.add_stmt(CoreStmt::Seq(list))?;
    Ok(sequence)
}

/// Adds an assignment.
fn add_assignment(
    alloc: Global,
    nodes: &mut Nodes,
    table: &KeyTable,
    target: &Word,
    value: &Sum,
) -> Result<StmtNo, NoMemory>
    requires fine { AreFineNodes nodes.old }
    requires leaves { nodes.old.leaves ≡ length table.now }
    requires target { KnownWord table.now target.now }
    requires value { KnownSum table.now value.now }
    ensures adds { Adds nodes.old nodes.new }
    ensures within { IfOk result (λ s. s.0 < length nodes.new.stmts) }
    ensures code { IfOk result (λ s. code_of nodes.new.exprs nodes.new.stmts s
        ≡ low_assignment table.now target.now value.now) }
{
    let to = whole_place(alloc, table, target)?;
    let from = add_checked(alloc, nodes, table, value)?;
    nodes.add_stmt(CoreStmt::Move {
        to,
        from,
        at: target.span,
    })
}

/// An if that is open.
#[derive(Debug, Drop)]
struct Open {
    /// What stands before it in its list.
    before: Items<StmtNo>,
    test: ExprNo,
    /// Its first side, once its else was read.
    main: Option<StmtNo>,
}

/// What is unfinished: the statements of the list that is being read, and the ifs that are open, from the innermost.
#[derive(Debug, Drop)]
struct Unfinished {
    list: Items<StmtNo>,
    ifs: VecDeque<Open>,
}

impl Unfinished {
    /// Takes the statements of the list that is being read.
    fn take_list(&mut self, alloc: Global) -> Items<StmtNo>
        ensures list { result ≡ self.old.list }
        ensures new { self.new.list ≡ [] }
        ensures ifs { self.new.ifs.items ≡ self.old.ifs.items }
    {
        std::mem::replace(&mut self.list, Items::new(alloc))
    }
}

/// Adds an assignment to the list.
fn append_assignment(
    alloc: Global,
    nodes: &mut Nodes,
    table: &KeyTable,
    unfinished: &mut Unfinished,
    target: &Word,
    value: &Sum,
) -> Result<(), NoMemory>
    requires fine { AreFineNodes nodes.old }
    requires leaves { nodes.old.leaves ≡ length table.now }
    requires target { KnownWord table.now target.now }
    requires value { KnownSum table.now value.now }
    requires within { IsWithin nodes.old unfinished.old }
    ensures { OnOk result (Reaches nodes.old nodes.new unfinished.new (levels_of nodes.old unfinished.old.ifs.items)
        (codes_of nodes.old unfinished.old.list ++ low_assignment table.now target.now value.now ∷ [])) }
{
    let next = add_assignment(alloc, nodes, table, target, value)?;
    unfinished.list.push(next)?;
    Ok(())
}

/// Opens an if.
fn open_if(
    alloc: Global,
    nodes: &mut Nodes,
    table: &KeyTable,
    unfinished: &mut Unfinished,
    test: &Test,
) -> Result<(), NoMemory>
    requires fine { AreFineNodes nodes.old }
    requires leaves { nodes.old.leaves ≡ length table.now }
    requires test { KnownTest table.now test.now }
    requires within { IsWithin nodes.old unfinished.old }
    ensures { OnOk result (Reaches nodes.old nodes.new unfinished.new
        (levels_after table.now (levels_of nodes.old unfinished.old.ifs.items) (codes_of nodes.old unfinished.old.list)
        (line.If test.now)) []) }
{
    let test = add_test(alloc, nodes, table, test)?;
    let before = unfinished.take_list(alloc);
    unfinished.ifs.push_front(Open {
        before,
        test,
        main: None,
    })?;
    Ok(())
}

/// Goes on to the else of the innermost if. Where none is open, which is so of no list of statements, nothing is kept.
#[tactic(auto, using(crate::proofs::Levels::reaches_nothing))]
fn turn(alloc: Global, nodes: &mut Nodes, unfinished: &mut Unfinished) -> Result<(), NoMemory>
    requires fine { AreFineNodes nodes.old }
    requires within { IsWithin nodes.old unfinished.old }
    ensures { OnOk result (Reaches nodes.old nodes.new unfinished.new
        (turned (levels_of nodes.old unfinished.old.ifs.items) (chain (codes_of nodes.old unfinished.old.list))) []) }
{
    let list = unfinished.take_list(alloc);
    let side = add_sequence(nodes, list)?;
    if let Some(open) = unfinished.ifs.pop_front() {
        unfinished.ifs.push_front(Open {
            main: Some(side),
            ..open
        })?;
    }
    Ok(())
}

/// Adds an if, whose last side this is.
fn add_branch(
    alloc: Global,
    nodes: &mut Nodes,
    test: ExprNo,
    main: Option<StmtNo>,
    side: StmtNo,
) -> Result<StmtNo, NoMemory>
    requires fine { AreFineNodes nodes.old }
    requires test { test.0 < length nodes.old.exprs }
    requires main { IfSome main (λ s. s.0 < length nodes.old.stmts) }
    requires side { side.0 < length nodes.old.stmts }
    ensures adds { OnOk result (Adds nodes.old nodes.new) }
    ensures within { IfOk result (λ s. s.0 < length nodes.new.stmts) }
    ensures code { IfOk result (λ s. code_of nodes.new.exprs nodes.new.stmts s
        ≡ closed (record { before = []; test = expr_of nodes.old.exprs test; main = main_of nodes.old main })
        (code_of nodes.old.exprs nodes.old.stmts side)) }
{
    match main {
        Some(yes) => nodes.add_stmt(CoreStmt::If {
            test,
            yes,
            no: side,
        }),
        None => {
            let no = add_sequence(nodes, Items::new(alloc))?;
            nodes.add_stmt(CoreStmt::If {
                test,
                yes: side,
                no,
            })
        }
    }
}

/// Ends the innermost if. Where none is open, which is so of no list of statements, nothing is changed.
#[tactic(auto, using(crate::proofs::Levels::reaches_no_end))]
fn close(alloc: Global, nodes: &mut Nodes, unfinished: &mut Unfinished) -> Result<(), NoMemory>
    requires fine { AreFineNodes nodes.old }
    requires within { IsWithin nodes.old unfinished.old }
    ensures { OnOk result (Reaches nodes.old nodes.new unfinished.new (drop 1 (levels_of nodes.old unfinished.old.ifs.items))
        (ended (levels_of nodes.old unfinished.old.ifs.items) (codes_of nodes.old unfinished.old.list))) }
{
    let Some(open) = unfinished.ifs.pop_front() else {
        return Ok(());
    };
    let Open { before, test, main } = open;
    let list = std::mem::replace(&mut unfinished.list, before);
    let side = add_sequence(nodes, list)?;
    let branch = add_branch(alloc, nodes, test, main, side)?;
    unfinished.list.push(branch)?;
    Ok(())
}

/// Adds a line.
#[tactic(auto, using(crate::proofs::Levels::reaches_same))]
fn add_line(
    alloc: Global,
    nodes: &mut Nodes,
    table: &KeyTable,
    unfinished: &mut Unfinished,
    line: &Line,
) -> Result<(), NoMemory>
    requires fine { AreFineNodes nodes.old }
    requires leaves { nodes.old.leaves ≡ length table.now }
    requires known { KnownLine table.now line.now }
    requires within { IsWithin nodes.old unfinished.old }
    ensures { OnOk result (Reaches nodes.old nodes.new unfinished.new
        (levels_after table.now (levels_of nodes.old unfinished.old.ifs.items) (codes_of nodes.old unfinished.old.list) line.now)
        (codes_after table.now (levels_of nodes.old unfinished.old.ifs.items) (codes_of nodes.old unfinished.old.list) line.now)) }
{
    match line {
        Line::Null => Ok(()),
        Line::Assign { target, value } => {
            append_assignment(alloc, nodes, table, unfinished, target, value)
        }
        Line::If(test) => open_if(alloc, nodes, table, unfinished, test),
        Line::Else => turn(alloc, nodes, unfinished),
        Line::EndIf => close(alloc, nodes, unfinished),
    }
}

/// Adds the statements of lines, as one sequence.
pub fn add_lines(
    alloc: Global,
    nodes: &mut Nodes,
    table: &KeyTable,
    lines: &[Line],
) -> Result<StmtNo, NoMemory>
    requires fine { AreFineNodes nodes.old }
    requires leaves { nodes.old.leaves ≡ length table.now }
    requires known { Each (KnownLine table.now) lines.now }
    ensures adds { OnOk result (Adds nodes.old nodes.new) }
    ensures within { IfOk result (λ s. s.0 < length nodes.new.stmts) }
    ensures code { IfOk result (λ s. code_of nodes.new.exprs nodes.new.stmts s ≡ ends table.now [] [] lines.now) }
{
    let mut unfinished = Unfinished {
        list: Items::new(alloc),
        ifs: VecDeque::new(alloc),
    };
    for line in lines {
        add_line(alloc, nodes, table, &mut unfinished, line)?;
    }
    let Unfinished { list, .. } = unfinished;
    let sequence = add_sequence(nodes, list)?;
    Ok(sequence)
}

/// Adds the elaboration of a variable behind the statements of a list.
fn append_variable(
    alloc: Global,
    nodes: &mut Nodes,
    list: &mut Items<StmtNo>,
    leaf: LeafNo,
    variable: &Variable,
) -> Result<(), NoMemory>
    requires fine { AreFineNodes nodes.old }
    requires leaf { leaf.0 < nodes.old.leaves }
    requires within { Each (λ s. s.0 < length nodes.old.stmts) list.old }
    ensures { OnOk result (Lists nodes.old nodes.new list.old list.new (low_variable leaf.0 variable.now)) }
{
    let fresh = nodes.add_stmt(CoreStmt::Fresh(leaf))?;
    list.push(fresh)?;
    let initial = add_initial(alloc, nodes, leaf, variable)?;
    list.push(initial)?;
    Ok(())
}

/// Adds the move of an initial value.
fn add_initial(
    alloc: Global,
    nodes: &mut Nodes,
    leaf: LeafNo,
    variable: &Variable,
) -> Result<StmtNo, NoMemory>
    requires fine { AreFineNodes nodes.old }
    requires leaf { leaf.0 < nodes.old.leaves }
    ensures adds { Adds nodes.old nodes.new }
    ensures within { IfOk result (λ s. s.0 < length nodes.new.stmts) }
    ensures code { IfOk result (λ s. code_of nodes.new.exprs nodes.new.stmts s
        ≡ Assign (whole leaf.0) (checked (Constant (pos variable.now.value))) variable.now.name.span) }
{
    let value = nodes.add_expr(CoreExpr::Value(i128::from(variable.value)))?;
    let from = add_integer(nodes, value)?;
    let to = whole_leaf(alloc, leaf);
    nodes.add_stmt(CoreStmt::Move {
        to,
        from,
        at: variable.name.span,
    })
}

/// Adds the elaboration of the variables, as one sequence.
pub fn add_variables(
    alloc: Global,
    nodes: &mut Nodes,
    variables: &[Variable],
) -> Result<StmtNo, NoMemory>
    requires fine { AreFineNodes nodes.old }
    requires leaves { nodes.old.leaves ≡ length variables.now }
    ensures adds { OnOk result (Adds nodes.old nodes.new) }
    ensures within { IfOk result (λ s. s.0 < length nodes.new.stmts) }
    ensures code { IfOk result (λ s. code_of nodes.new.exprs nodes.new.stmts s ≡ low_variables 0 variables.now) }
{
    let mut list = Items::new(alloc);
    for (i, variable) in variables.iter().enumerate() {
        append_variable(alloc, nodes, &mut list, LeafNo(i as u32), variable)?;
    }
    let sequence = add_sequence(nodes, list)?;
    Ok(sequence)
}
