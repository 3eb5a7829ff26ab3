ghost use Rattle.std.specs.Prelude.{◌≡◌, ℕ, List, Some};
ghost use Rattle.ada_grammar.specs.Lexemes.{Lexeme};
ghost use Rattle.ada_grammar.specs.Limits.{outermost, walk};
ghost use Rattle.ada_grammar.specs.Parts as parts;
ghost use Rattle.ada_grammar.specs.Phrases.{Children, Phrase};
ghost use Rattle.ada_grammar.specs.Spelling.{Spells};
ghost use Rattle.ada_grammar.specs.declared.tokens.Nesting.{Nesting};
ghost use Rattle.grammar_laws.specs.Closing.{InStatements, IsClosed};
ghost use Rattle.grammar_laws.specs.Counting.{IsCounted, MayBegin};

/// Behind an expression that passes no limit.
pub fn operators_are_counted()
    ensures { (x : Phrase) (w : List Lexeme) (n m : Nesting)
        → Spells parts.Expr x w
        → MayBegin n
        → walk n w ≡ Some m
        → IsCounted n m x.tree }
{}

/// Behind one that stands in no other.
pub fn outermost_operators_are_counted()
    ensures { (x : Phrase) (w : List Lexeme) (depth : ℕ) (m : Nesting)
        → Spells parts.Expr x w
        → walk (outermost depth) w ≡ Some m
        → IsCounted (outermost depth) m x.tree }
{}

/// Behind statements that pass no limit.
pub fn statements_close_what_they_open()
    ensures { (y : Phrase) (w : List Lexeme) (d : Children) (n m : Nesting)
        → Spells (parts.Statements d) y w
        → InStatements n
        → walk n w ≡ Some m
        → IsClosed n m }
{}
