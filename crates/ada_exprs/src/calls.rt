ghost use Rattle.std.specs.Prelude.{◌≡◌, ◌≤◌, List, length};
ghost use Rattle.ada_grammar.specs.Answer.{IsAnswer};
ghost use Rattle.ada_grammar.specs.Built.{Extends, trees};
ghost use Rattle.ada_grammar.specs.Parts as parts;
ghost use Rattle.ada_grammar.specs.Parts.{Part};
ghost use Rattle.ada_grammar.specs.Lexemes.{lexemes};
ghost use Rattle.ada_grammar.specs.Limits.{before_range, outermost};
ghost use Rattle.ada_grammar.specs.Phrases.{Tree};
ghost use Rattle.ada_grammar.specs.Reading.{Answers};
ghost use Rattle.ada_grammar.specs.declared.tokens.Cursor.{Cursor};
ghost use Rattle.ada_tree.specs.Tree.{IsOrdered};

use crate::readers;
use ada_grammar::{Built, Cursor, Fault, Nesting, phase_fault};
use ada_tree::{Tokens, Units};
use spark_base::ExprNo;
use spark_messages::PhaseFault;
use std::alloc::Global;

/// The answer of a call, from that of a reader.
fn told(
    alloc: Global,
    tokens: &Tokens,
    answer: Result<(Built, Cursor), Fault>,
) -> Result<(ExprNo, usize), PhaseFault>
    ensures { (part : Part) (cursor : Cursor) (built : List Tree) → Answers part (lexemes tokens.now) cursor built answer
        → IsAnswer part cursor.nesting tokens.now cursor.at built result }
{
    match answer {
        Ok((read, next)) => Ok((read.node, next.at)),
        Err(fault) => Err(phase_fault(alloc, tokens, fault)),
    }
}

/// An expression, which stands in no other. `at` is the place of its first token, and `depth` how many parentheses are open there; the answer is its
/// node, and the place behind it. S01 and U01 stand at the first token that no sentence goes on with, X02 at the first
/// that opens one more than 128 parentheses or is an operator behind 1,024.
#[tactic(auto, using(ada_grammar::proofs::Ahead::lexemes_length))]
pub fn read_expr(
    alloc: Global,
    units: &mut Units,
    tokens: &Tokens,
    at: usize,
    depth: usize,
) -> Result<(ExprNo, usize), PhaseFault>
    requires at { at ≤ length tokens.now.list }
    requires depth { depth ≤ 128 }
    ensures reads { IsAnswer parts.Expr (outermost depth) tokens.now at (trees units.new.exprs) result }
    ensures extends { Extends units.old.exprs units.new.exprs }
    ensures ordered { IsOrdered units.old → IsOrdered units.new }
    ensures units { units.new.units ≡ units.old.units }
    ensures decls { units.new.decls ≡ units.old.decls }
    ensures stmts { units.new.stmts ≡ units.old.stmts }
    ensures aspects { units.new.aspects ≡ units.old.aspects }
{
    let cursor = Cursor {
        at,
        nesting: Nesting::new(depth, 0),
    };
    let answer = readers::read_expr(alloc, &mut units.exprs, tokens, cursor);
    told(alloc, tokens, answer)
}

/// A simple expression, which stands in no other. `at` is the place of its first token, and `depth` how many parentheses are open there; the answer is its
/// node, and the place behind it. S01 and U01 stand at the first token that no sentence goes on with, X02 at the first
/// that opens one more than 128 parentheses or is an operator behind 1,024.
#[tactic(auto, using(ada_grammar::proofs::Ahead::lexemes_length))]
pub fn read_simple(
    alloc: Global,
    units: &mut Units,
    tokens: &Tokens,
    at: usize,
    depth: usize,
) -> Result<(ExprNo, usize), PhaseFault>
    requires at { at ≤ length tokens.now.list }
    requires depth { depth ≤ 128 }
    ensures reads { IsAnswer parts.Simple (outermost depth) tokens.now at (trees units.new.exprs) result }
    ensures extends { Extends units.old.exprs units.new.exprs }
    ensures ordered { IsOrdered units.old → IsOrdered units.new }
    ensures units { units.new.units ≡ units.old.units }
    ensures decls { units.new.decls ≡ units.old.decls }
    ensures stmts { units.new.stmts ≡ units.old.stmts }
    ensures aspects { units.new.aspects ≡ units.old.aspects }
{
    let cursor = Cursor {
        at,
        nesting: Nesting::new(depth, 0),
    };
    let answer = readers::read_simple(alloc, &mut units.exprs, tokens, cursor);
    told(alloc, tokens, answer)
}

/// A name, with its selections, arguments and attributes. `at` is the place of its first token, and `depth` how many parentheses are open there; the answer is its
/// node, and the place behind it. S01 and U01 stand at the first token that no sentence goes on with, X02 at the first
/// that opens one more than 128 parentheses or is an operator behind 1,024.
#[tactic(auto, using(ada_grammar::proofs::Ahead::lexemes_length))]
pub fn read_name(
    alloc: Global,
    units: &mut Units,
    tokens: &Tokens,
    at: usize,
    depth: usize,
) -> Result<(ExprNo, usize), PhaseFault>
    requires at { at ≤ length tokens.now.list }
    requires depth { depth ≤ 128 }
    ensures reads { IsAnswer parts.Name (outermost depth) tokens.now at (trees units.new.exprs) result }
    ensures extends { Extends units.old.exprs units.new.exprs }
    ensures ordered { IsOrdered units.old → IsOrdered units.new }
    ensures units { units.new.units ≡ units.old.units }
    ensures decls { units.new.decls ≡ units.old.decls }
    ensures stmts { units.new.stmts ≡ units.old.stmts }
    ensures aspects { units.new.aspects ≡ units.old.aspects }
{
    let cursor = Cursor {
        at,
        nesting: Nesting::new(depth, 0),
    };
    let answer = readers::read_name(alloc, &mut units.exprs, tokens, cursor);
    told(alloc, tokens, answer)
}

/// A discrete range: a subtype, two bounds or a range attribute. `at` is the place of its first token, and `depth` how many parentheses are open there; the answer is its
/// node, and the place behind it. S01 and U01 stand at the first token that no sentence goes on with, X02 at the first
/// that opens one more than 128 parentheses or is an operator behind 1,024.
#[tactic(auto, using(ada_grammar::proofs::Ahead::lexemes_length))]
pub fn read_drange(
    alloc: Global,
    units: &mut Units,
    tokens: &Tokens,
    at: usize,
    depth: usize,
) -> Result<(ExprNo, usize), PhaseFault>
    requires at { at ≤ length tokens.now.list }
    requires depth { depth ≤ 128 }
    ensures reads { IsAnswer parts.Drange (before_range depth) tokens.now at (trees units.new.exprs) result }
    ensures extends { Extends units.old.exprs units.new.exprs }
    ensures ordered { IsOrdered units.old → IsOrdered units.new }
    ensures units { units.new.units ≡ units.old.units }
    ensures decls { units.new.decls ≡ units.old.decls }
    ensures stmts { units.new.stmts ≡ units.old.stmts }
    ensures aspects { units.new.aspects ≡ units.old.aspects }
{
    let cursor = Cursor {
        at,
        nesting: Nesting::new(depth, depth + 1),
    };
    let answer = readers::read_drange(alloc, &mut units.exprs, tokens, cursor);
    told(alloc, tokens, answer)
}
