ghost use Rattle.std.specs.Prelude.{◌≤◌, length, IfOk};
ghost use Rattle.ada_grammar.specs.Answer.{AnswersAspects};
ghost use Rattle.ada_grammar.specs.Parts as parts;
ghost use Rattle.ada_grammar.specs.Limits.{outermost};
ghost use Rattle.ada_grammar.specs.Phrases as phrases;
ghost use Rattle.ada_grammar.specs.Standing.{Grows};
ghost use Rattle.ada_tree.specs.Tree.{IsOrdered};

use crate::readers;
use ada_grammar::{Children, Cursor, Nesting, phase_fault};
use ada_tree::{Tokens, Units};
use spark_base::{AspectNo, Items};
use spark_messages::PhaseFault;
use std::alloc::Global;

/// Aspects, from their `with` on, which stand in no parentheses. `at` is the place of the word `with`; the answer is
/// the nodes of the aspects in their order, and the place behind them. S01 and U01 stand at the first token that no
/// sentence goes on with, X02 at the first that opens one more than 128 parentheses.
#[tactic(auto, using(ada_grammar::proofs::Ahead::lexemes_length))]
pub fn read_aspects(
    alloc: Global,
    units: &mut Units,
    tokens: &Tokens,
    at: usize,
) -> Result<(Items<AspectNo>, usize), PhaseFault>
    requires at { at ≤ length tokens.now.list }
    requires ordered { IsOrdered units.old }
    ensures reads { AnswersAspects (parts.Aspects phrases.none) (outermost 0) tokens.now at units.new result }
    ensures ordered { IfOk result (λ _. IsOrdered units.new) }
    ensures grows { Grows units.old units.new }
{
    let cursor = Cursor {
        at,
        nesting: Nesting::new(0, 0),
    };
    let mut into = Children::new(alloc);
    match readers::read_all(alloc, units, tokens, cursor, &mut into) {
        Ok(next) => Ok((into.aspects, next.at)),
        Err(fault) => Err(phase_fault(alloc, tokens, fault)),
    }
}
