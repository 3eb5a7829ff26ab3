ghost use Rattle.std.specs.Prelude.{Bool};
ghost use Rattle.ada_grammar.specs.Lexemes.{Lexeme};
ghost use Rattle.ada_grammar.specs.Parts as parts;
ghost use Rattle.ada_grammar.specs.Phrases.{Phrase};
ghost use Rattle.grammar_laws.specs.PlainRules as plain;
ghost use Rattle.grammar_laws.specs.PlainRules.{SaysTheSame};

/// Relations, and what stands between them.
pub fn expressions_are_plain()
    ensures { SaysTheSame parts.Expr plain.expression }
{}

/// Choices of aggregates and of case statements.
pub fn choices_are_plain()
    ensures { SaysTheSame parts.Choice plain.choice }
{}

/// Behind an opening parenthesis: a conditional expression, an expression, or an aggregate.
pub fn parentheses_are_plain()
    ensures { (o : Lexeme) → SaysTheSame (parts.Parens o) (plain.parentheses o) }
{}

/// Arguments of calls, with the name of their formal or without.
pub fn arguments_are_plain()
    ensures { SaysTheSame parts.Argument plain.argument }
{}

/// Discrete ranges: of a subtype, of bounds, of a Range attribute.
pub fn ranges_are_plain()
    ensures { SaysTheSame parts.Drange plain.discrete_range }
{}

/// Memberships, behind `in`.
pub fn memberships_are_plain()
    ensures { (is_not : Bool) (a : Phrase) → SaysTheSame (parts.Membership is_not a) (plain.membership is_not a) }
{}
