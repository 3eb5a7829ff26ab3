ghost use Rattle.std.specs.Prelude.{◌≤◌, length, IfOk};
ghost use Rattle.ada_grammar.specs.Answer.{AnswersDeclarations, AnswersSequence};
ghost use Rattle.ada_grammar.specs.Parts as parts;
ghost use Rattle.ada_grammar.specs.Limits.{before_statements, outermost};
ghost use Rattle.ada_grammar.specs.Phrases as phrases;
ghost use Rattle.ada_grammar.specs.Standing.{Grows};
ghost use Rattle.ada_tree.specs.Tree.{IsOrdered};

use crate::declarations::local_declarations;
use crate::statements::statements;
use ada_grammar::{Children, Cursor, Nesting, phase_fault};
use ada_tree::{Tokens, Units};
use spark_base::{DeclNo, Items, StmtNo};
use spark_messages::PhaseFault;
use std::alloc::Global;

/// Local declarations, as many as stand there, which stand in no parentheses. `at` is the place of the first token; the
/// answer is the nodes of the declarations in their order, and the place behind them. Each of several names that are
/// declared together has a node of its own; a pragma leaves none. S01 and U01 stand at the first token that no sentence
/// goes on with, X02 at the first that opens one more than 128 parentheses, or is one more than 1,024 operators in an
/// expression.
#[tactic(auto, using(ada_grammar::proofs::Ahead::lexemes_length))]
pub fn read_local_decls(
    alloc: Global,
    units: &mut Units,
    tokens: &Tokens,
    at: usize,
) -> Result<(Items<DeclNo>, usize), PhaseFault>
    requires at { at ≤ length tokens.now.list }
    requires ordered { IsOrdered units.old }
    ensures reads { AnswersDeclarations (parts.LocalDeclarations phrases.none) (outermost 0) tokens.now at units.new result }
    ensures ordered { IfOk result (λ _. IsOrdered units.new) }
    ensures grows { Grows units.old units.new }
{
    let cursor = Cursor {
        at,
        nesting: Nesting::new(0, 0),
    };
    let mut into = Children::new(alloc);
    match local_declarations(alloc, units, tokens, cursor, &mut into) {
        Ok(next) => Ok((into.decls, next.at)),
        Err(fault) => Err(phase_fault(alloc, tokens, fault)),
    }
}

/// Statements, one at least, of which none is open before them. `at` is the place of the first token; the answer is the
/// node of their sequence, and the place behind them. A pragma leaves no node. S01 and U01 stand at the first token that
/// no sentence goes on with, X02 at the first that opens one more than 128 parentheses, 128 compound statements or 16
/// loops, or is one more than 1,024 operators in an expression.
#[tactic(auto, using(ada_grammar::proofs::Ahead::lexemes_length))]
pub fn read_stmts(
    alloc: Global,
    units: &mut Units,
    tokens: &Tokens,
    at: usize,
) -> Result<(StmtNo, usize), PhaseFault>
    requires at { at ≤ length tokens.now.list }
    requires ordered { IsOrdered units.old }
    ensures reads { AnswersSequence (parts.Statements phrases.none) before_statements tokens.now at units.new result }
    ensures ordered { IfOk result (λ _. IsOrdered units.new) }
    ensures grows { Grows units.old units.new }
{
    let cursor = Cursor {
        at,
        nesting: Nesting::in_statements(),
    };
    let mut into = Children::new(alloc);
    match statements(alloc, units, tokens, cursor, &mut into) {
        Ok(next) => Ok((*into.stmts.at(0), next.at)),
        Err(fault) => Err(phase_fault(alloc, tokens, fault)),
    }
}
