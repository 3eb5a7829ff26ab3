//! What is told of a node, and refusals at words.
ghost use Rattle.std.specs.Prelude.{◌≡◌};
ghost use Rattle.value_rules.specs.Tellings as spec;
ghost use Rattle.name_findings.specs.Findings as findings;
ghost use Rattle.name_findings.specs.Findings.{add_all};

use name_findings::{Fault, Findings, Mention, Spelling, refuse_if};
use seen_names::Shown;
use seen_types::ExprType;
use spark_base::{DeclNo, ExprNo, Pos};
use spark_messages::Code;

/// Refuses at a word.
pub fn refuse_word(found: &mut Findings, code: Code, word: Mention)
    ensures { found.new ≡ add_all found.old (findings.refuse_word code word.at word.expr) }
{
    found.refuse(Fault {
        at: word.at,
        code,
        spelling: Spelling::Word(word.expr),
    });
}

/// Refuses at a word, if there is one.
pub fn refuse_mention(found: &mut Findings, code: Code, word: Option<Mention>)
    ensures { found.new ≡ add_all found.old (findings.refuse_mention code word) }
{
    if let Some(word) = word {
        refuse_word(found, code, word);
    }
}

/// Refuses where a condition holds, and tells no name.
pub fn refuse_silent(found: &mut Findings, holds: bool, code: Code, at: Pos)
    ensures { found.new ≡ add_all found.old (findings.refuse_silent holds code at) }
{
    refuse_if(found, holds, code, at, Spelling::Nothing);
}

/// Tells what a name denotes: what is predefined has no declaration.
pub(crate) fn tell_decl(found: &mut Findings, e: ExprNo, decl: Option<DeclNo>)
    ensures { found.new ≡ add_all found.old (findings.denotes_decl e decl) }
{
    if let Some(decl) = decl {
        found.denote(e, decl);
    }
}

pub(crate) fn tell_shown(found: &mut Findings, e: ExprNo, shown: Option<Shown>)
    ensures { found.new ≡ add_all found.old (spec.denotes e shown) }
{
    if let Some(shown) = shown {
        tell_decl(found, e, shown.decl);
    }
}

/// Tells the type of an expression, if it has one that is declared.
pub fn tell_type(found: &mut Findings, e: ExprNo, of: Option<ExprType>)
    ensures { found.new ≡ add_all found.old (spec.has_type e of) }
{
    if let Some(ExprType::Of(t)) = of {
        found.tell_type(e, t);
    }
}
